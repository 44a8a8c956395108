//! The server: each message of a connection answered in turn, and all its connections as values, one step at a time.
//!
//! It owns the answer to a message, the turns of connections, and the law of any turns. It stands on `tb_http` for messages, `tb_site` for
//! the files of a page, `tb_asking` for what a message asks for, and `tb_desk` for calls and views.
#![tactic(auto)]

mod exchanging;
mod happening;
pub mod laws;
mod list_clock;
mod peer;
mod playing;
mod response;
mod serving;
mod telling;
mod tools;

pub use happening::{PeerEvent, happen, stops_all};
pub use list_clock::ListClock;
pub use peer::Peer;
pub use playing::play;
pub use serving::{
    Exchange, MessageOutcome, ServeEnd, ServeFault, handle_message, send_unread, serve_reader,
};
pub use tools::Tools;
