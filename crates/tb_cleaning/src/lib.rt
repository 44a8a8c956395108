//! What another tool exported, as an import takes it: `clean`. Numbers and steps are respelled, tasks that an import refuses are left
//! out, the others are put into an order, and each change, refusal and loss is told.
//! It stands on `tb_json`, by which an import reads tasks, so that it refuses what an import does.
#![tactic(auto)]

mod circles;
mod cleaning;
mod entry;
mod fault;
mod ids;
mod items;
mod judging;
mod laws;
mod losses;
mod notes;
mod numbers;
mod ordering;
mod orphans;
mod places;
mod respelling;
mod sorting;
mod steps;
mod telling;
mod text;
mod verdict;

pub use cleaning::{Cleaned, clean};
pub use fault::CleaningFault;
pub use laws::none_is_refused;
