//! The server's loop: many connections in one thread, each read, answered and written in turn.
//! It owns sockets, their readiness and the log. It stands on `mio` for sockets, on `tb_timeouts` for every decision about time and
//! room, on `tb_rooms` for who waits, and on a `Service` for what messages are and what they are told.
#![tactic(auto)]

mod arrivals;
mod connection;
mod event_loop;
mod exchange;
mod farewell;
mod fault;
mod guesses;
mod head;
mod journal;
mod logging;
mod mio_sockets;
mod places;
mod request_line;
mod service;
mod sharing;
mod sockets;
mod ticks;
mod turn;
mod watch;

pub use event_loop::EventLoop;
pub use fault::LoopFault;
pub use journal::Journal;
pub use logging::{FailedMessage, LogEntry, failure_line, log_line};
pub use mio_sockets::MioSockets;
pub use service::{Service, SocketEvent, StoreFailed};
pub use sockets::{Sockets, Told};
pub use ticks::Ticks;
pub use watch::Watch;
