//! The decisions about the time of open connections that need no socket: what each is doing, which has stayed too long, and how long
//! nothing has to be done.
//! All moments are milliseconds of a clock that doesn't go back. The crate stands on std alone.
#![tactic(auto)]

mod earliest;
mod limits;
mod stage;
mod vacant;
mod waiting;

pub use limits::{CONNECTIONS, LIMITS, Limits};
pub use stage::{Need, Stage};
pub use vacant::{are_all_vacant, first_vacant};
pub use waiting::longest_wait;
