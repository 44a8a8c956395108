//! The orders that ask a server: `send`, and the words of `my`, over the settings, the terminal and the folder of a machine.
//! It owns who is asked under which identifiers, what is kept for `undo`, and the files that these words read and write. It stands on
//! `tb_sending` for a call until it is answered, and on `tb_my`, `tb_finding` and `tb_mine` for what the words say.
#![tactic(auto)]

mod mine;
mod my_cleaning;
mod my_deeds;
mod my_settings;
mod my_terminal;
mod notes;
mod sending;

pub use mine::ask_mine;
pub use notes::tell_notes;
pub use sending::send;
