//! What the program takes from its machine, with a clock and a reader that stand in.

use crate::finding::{Finding, ended, missing, say, show};
use crate::given::bytes_of;
use std::alloc::Global;
use std::io;
use std::io::ErrorKind;
use std::time::{Clock, Duration};
use tb_program::{loopback, machine_moment, print_line, read_text};

/// A clock that stands still, or can't be read.
#[derive(Drop)]
struct Stopped {
    seconds: Option<u64>,
}

impl Clock for Stopped {
    fn monotonic(&self) -> io::Result<Duration> {
        Err(io::Error::from(ErrorKind::Unsupported))
    }

    fn since_1970(&self) -> io::Result<Duration> {
        match self.seconds {
            Some(seconds) => Ok(Duration::from_secs(seconds)),
            None => Err(io::Error::from(ErrorKind::Unsupported)),
        }
    }
}

/// The seconds of the moment that a clock tells.
pub(crate) fn clock(alloc: Global, given: &str) -> Finding {
    let seconds = given.parse().ok();
    let moment = machine_moment(&Stopped { seconds }).ok_or(missing())?;
    show(alloc, &moment.seconds())
}

/// How many bytes are read of a text.
pub(crate) fn input(alloc: Global, given: &str) -> Finding {
    let bytes = bytes_of(alloc, given)?;
    match read_text(alloc, bytes.as_slice()) {
        Ok(text) => Ok(format!(in alloc; "{} bytes", text.len())?),
        Err(fault) => say(alloc, fault.name()),
    }
}

pub(crate) fn line(alloc: Global, given: &str) -> Finding {
    let mut out = Vec::new(alloc);
    let end = print_line(&mut out, given);
    ended(alloc, &end, out)
}

pub(crate) fn listened(alloc: Global, given: &str) -> Finding {
    let address = loopback(given.parse().unwrap_or(0));
    Ok(format!(in alloc; "{address} {}", address.ip().is_loopback())?)
}
