//! What the log beside a file of boards says before SQLite opens it: whether commits are in it, and whether it is damaged.
//! It owns the tests of a log's bytes, and the look at a file and its log at a path.
//! Stands on `sqlite_wal` for what SQLite's log is.
#![tactic(auto)]

mod beside;
mod frames;
mod log;
mod machine;

pub use beside::{Beside, LogFault, Seen, find_log_fault};
pub use log::{has_commit, is_damaged};
pub use machine::MachineBeside;
