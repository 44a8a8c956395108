//! What is promised of a file over its whole life, in the words of those who use it: calls, stops, openings, and calls that are sent again.
//! It owns the sessions over one file, and the laws that join what one session promises to what the next one begins with.
//! It stands on `tb_keeper` for the file, on `tb_desk` for calls and on `tb_serve` for connections.
#![tactic(auto)]

pub mod laws;
pub mod session;
