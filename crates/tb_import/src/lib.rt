//! What an import of tasks in the task format makes of a board that is awake.
//!
//! It owns which tasks of a list are new, what they become, and why an import is refused. It stands on `tb_board` for boards and
//! their changes, and on `tb_task` for tasks as they are read.
#![tactic(auto)]

mod entering;
mod faults;
mod ids;
mod import;
mod imported;
pub mod laws;
mod masks;
mod news;
mod parents;
mod places;
mod refusal;

pub use import::import_tasks;
pub use imported::{ImportCounts, Imported};
pub use refusal::{ImportFailure, ImportRefusal};
