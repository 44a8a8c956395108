//! The words of the command line, and the order that they are.
//! Stands on `clap` for the splitting of words, on `tb_board` for names and keys, and on `tb_task` for identifiers.
#![tactic(auto)]

mod extra;
mod help;
mod order;
mod reading;
mod sending;
mod server;
mod telling;
mod words;

pub use order::{
    CleanMode, CleanOrder, Connections, ImportKind, ImportOrder, InitOrder, KeyOrder, MyOrder,
    Order, SendOrder, ServeOrder, Topic, ViewKind, ViewOrder, WordsFault,
};
pub use sending::{MOST_SECONDS, option_value};
pub use server::is_server;
pub use words::command_of;
