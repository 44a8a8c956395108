//! What the words of `my` ask of a server, in which order, and what is printed of the answers.
//! It owns the order of the asking, the look at a board before tasks are named, and which answer is told how. It stands on `tb_my` for what
//! words become, on `tb_finding` for lists, tasks and histories in lines, and on `tb_program` for faults and printing.
#![tactic(auto)]

mod adding;
mod asks;
mod context;
mod importing;
mod listing;
mod naming;
mod sending;
mod telling;
mod undoing;
mod words;

pub use asks::{Answer, Asks};
pub use context::Context;
pub use importing::import_parts;
pub use naming::{find_board, number_of};
pub use telling::wrong;
pub use undoing::take_back;
pub use words::{ask_on_board, ask_words};
