//! A desk as what answers the connections of the loop.
//! It owns what a server makes of all that was done to its connections: a run of theirs, and the calls that it leads to.
//! It stands on `tb_serve` for the connections as values, and on `tb_event_loop` for what a service promises.
#![tactic(auto)]

pub mod laws;
mod server;

pub use server::Server;
