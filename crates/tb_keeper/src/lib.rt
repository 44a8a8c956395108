//! A keeper over one SQLite file: people, boards and roles, and the replies given.
//!
//! It owns the keeper that looks in the tables at each call and has a few boards at hand. Stands on `tb_lookup` for what it means that
//! tables are the rows of a state and for what is looked up in them, on `tb_cache` for the boards at hand, on `tb_sql` for the
//! transactions, on `tb_rows` for the rows of a world, on `tb_calls` for what a keeper promises, and on `tb_report` and `tb_json` for
//! what an export shows.
#![tactic(auto)]

mod at_hand;
mod auditing;
mod creating;
mod export_fault;
mod exporting;
mod first_person;
pub mod first_version;
mod forms;
mod histories;
mod lending;
mod looking;
mod members;
mod noting;
mod opening;
mod people_at_hand;
mod row_changes;
mod sound_histories;
mod sound_rows;
mod sql_keep;
mod writing;
mod written_bytes;

pub use auditing::Audit;
pub use creating::CreateFault;
pub use export_fault::ExportFault;
pub use lending::{Lent, StoredRow};
pub use sql_keep::SqlKeep;
