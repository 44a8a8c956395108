//! When the instances of a template are due, which of them are wanted, and what an instance holds.
//! Dues are counted from the template's own, never from the instance before.
//! Stands on `tb_task` for moments, steps and tasks, and on `jiff_core` for the lengths of months.
#![tactic(auto)]

mod dues;
mod instances;
mod months;
mod plan;
mod wanting;
mod weekdays;

pub use dues::due;
pub use instances::instance;
pub use plan::{Plan, plan_of};
pub use tb_task::Step;
pub use wanting::{need_is_least, one_ahead_is_at_once, wanted};
pub use weekdays::nth_weekdays_are_counted;
