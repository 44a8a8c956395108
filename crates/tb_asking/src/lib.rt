//! What each message asks for: a call with its command, or a view, or why it asks for neither; and what the bodies that hold tasks say.
//! It stands on `tb_http` for messages and routes, on `tb_json` and `tb_todotxt` for the forms of tasks, and on `tb_calls`, `tb_core`
//! and `tb_board` for calls and commands.
#![tactic(auto)]

mod asked;
mod asking;
mod bodies;
mod body_fault;
mod command;
pub mod laws;
mod rejection;

pub use asked::{Asked, Sender};
pub use asking::{ask, call_of};
pub use bodies::{read_edits, read_imported, read_incoming, read_text, read_todo};
pub use body_fault::{BadBody, BodyFault};
pub use rejection::{CallFault, Rejection};
