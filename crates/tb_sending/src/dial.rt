//! The machine's side of a line to a server.
ghost use Rattle.std.specs.Prelude.{◌≤◌, [], ◌∷◌, ◌++◌, length, List, take};
ghost use Rattle.tb_sending.specs.Wires.{Wire, came, opened, passed, sent, slept};

use std::io::{Read, Write};
use std::net::{TcpStream, ToSocketAddrs};
use std::thread;
use std::time::{Duration, Instant};
use tb_values::{Items, write_whole};

/// Connections, one after the other, and the time since the first could be opened.
pub trait Dial {
    /// One comes of another by doing this, in this order.
    ghost follows: { List Wire → Self → Self → Type 0 };

    ghost unchanged: { (dial : Self) → follows [] dial dial };

    ghost joined: { (first more : List Wire) (a b c : Self) → follows first a b → follows more b c
        → follows (first ++ more) a c };

    /// Opens a connection to a server, if it is there within so many seconds.
    fn open(&mut self, server: &str, seconds: u64) -> bool
        ensures { follows (opened server.now seconds result ∷ []) self.old self.new };

    /// Sends bytes on the connection that was opened last, and tells how many went.
    fn send(&mut self, bytes: &[u8]) -> usize
        ensures sent { follows (sent (take result bytes.now) ∷ []) self.old self.new }
        ensures within { result ≤ length bytes.now };

    /// Takes what comes on it until it ends, and so many bytes at most.
    fn receive(&mut self, most: u64) -> Items<u8>
        ensures { follows (came most result ∷ []) self.old self.new };

    fn sleep(&mut self, milliseconds: u32)
        ensures { follows (slept milliseconds ∷ []) self.old self.new };

    /// How many seconds went by.
    fn passed(&mut self) -> u64
        ensures { follows (passed result ∷ []) self.old self.new };
}

/// The sockets and the clock of the machine. What they do isn't known.
#[derive(Drop)]
pub struct MachineDial<'a> {
    rt: &'a HostRuntime,
    begun: Option<Instant>,
    stream: Option<TcpStream>,
}

impl<'a> MachineDial<'a> {
    pub fn new(rt: &'a HostRuntime) -> MachineDial<'a> {
        MachineDial {
            rt,
            begun: Instant::now(rt).ok(),
            stream: None,
        }
    }
}

impl<'a> Dial for MachineDial<'a> {
    ghost follows = { λ _ _ _. Unit {0} };

    ghost unchanged = { λ _. tt };

    ghost joined = { λ _ _ _ _ _ _ _. tt };

    fn open(&mut self, server: &str, seconds: u64) -> bool {
        self.stream = connect(self.rt, server, Duration::from_secs(seconds));
        self.stream.is_some()
    }

    fn send(&mut self, bytes: &[u8]) -> usize {
        let Some(stream) = &self.stream else {
            return 0;
        };
        match write_whole(&mut &*stream, bytes) {
            Ok(()) => bytes.len(),
            Err(fault) => fault.written,
        }
    }

    fn receive(&mut self, most: u64) -> Items<u8> {
        let mut came = Vec::new(self.rt.alloc());
        if let Some(stream) = self.stream.take() {
            let _ = stream.take(most).read_to_end(&mut came);
        }
        Items::from_vec(came)
    }

    fn sleep(&mut self, milliseconds: u32) {
        thread::sleep(self.rt, Duration::from_millis(u64::from(milliseconds)));
    }

    /// A clock that fails ends the asking.
    fn passed(&mut self) -> u64 {
        match self.begun {
            Some(begun) => match begun.elapsed(self.rt) {
                Ok(passed) => passed.as_secs(),
                Err(_) => u64::MAX,
            },
            None => u64::MAX,
        }
    }
}

fn connect(rt: &HostRuntime, server: &str, left: Duration) -> Option<TcpStream> {
    for address in server.to_socket_addrs(rt).ok()? {
        if let Ok(stream) = TcpStream::connect_timeout(rt, &address, left) {
            let _ = stream.set_read_timeout(Some(left));
            let _ = stream.set_write_timeout(Some(left));
            return Some(stream);
        }
    }
    None
}
