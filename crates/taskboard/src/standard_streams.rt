//! The standard streams.
use libc::net::{POLLOUT, poll};
use libc::types::pollfd;
use mio::Poll;
use std::io;
use std::io::{ErrorKind, Write};

/// The descriptor of standard error.
const ERRORS: i32 = 2;

/// Takes the descriptors of standard streams that were closed when the program began. While they are held no connection gets one, so what is
/// printed where nobody reads reaches no client and no server.
pub(crate) fn hold_standard_streams(rt: &HostRuntime) -> [Option<Poll>; 3] {
    [Poll::new(rt).ok(), Poll::new(rt).ok(), Poll::new(rt).ok()]
}

/// Standard error for the log. Where its reader is behind, so that a write would wait, the write fails.
#[derive(Drop)]
pub(crate) struct LogStream<'a> {
    pub(crate) rt: &'a HostRuntime,
}

impl<'a> Write for LogStream<'a> {
    fn write(&mut self, bytes: &[u8]) -> io::Result<usize> {
        if !takes_bytes() {
            return Err(io::Error::from(ErrorKind::WouldBlock));
        }
        self.rt.stderr().write(bytes)
    }

    fn flush(&mut self) -> io::Result<()> {
        self.rt.stderr().flush()
    }
}

// Whether standard error takes some 4 KiB at once, or a write to it fails at once.
fn takes_bytes() -> bool {
    let mut asked = [pollfd {
        fd: ERRORS,
        events: POLLOUT,
        revents: 0,
    }];
    poll(&mut asked, 0) == 1
}
