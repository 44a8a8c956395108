//! What is told of a fault, and what to do: the line behind its name, which word is wrong, and how to go on with a call.
//! It owns the texts; it looks at a file again, and at the words that the program was started with.
//! Stands on `tb_program` and `tb_orders` for faults, `tb_command_line` for orders, `tb_client` for calls, and `sqlite` for files.
#![tactic(auto)]

mod arguments;
mod bad_text;
mod cause;
mod file_cause;
pub mod laws;
mod told;
mod unanswered;
mod wrong_word;

pub use cause::{tell_cause, tell_words};
