//! The sockets of this machine.
ghost use Rattle.std.specs.Prelude.{◌≡◌, ◌∷◌, [], IfErr, Some, ◌⊎◌};
ghost use Rattle.tb_event_loop.specs.declared.fault.LoopFault.TheVariants.{Memory, Sockets as NoSockets};
ghost use Rattle.tb_program.specs.Listening.{ipv4_octets_of};

use crate::connection::PIECE;
use crate::fault::LoopFault;
use crate::sockets::{Sockets, Told};
use mio::event::Event;
use mio::net::{TcpListener, TcpStream};
use mio::{Events, Interest, Poll, Token};
use std::alloc::{AllocError, Global};
use std::io;
use std::io::{ErrorKind, Read, Write};
use std::net::{Net, Shutdown, SocketAddr};
use std::time::Duration;
use tb_timeouts::CONNECTIONS;

/// How many sockets are told of at once.
const EVENTS: usize = 256;

/// The token of the listener.
const LISTENER: Token = Token(usize::MAX);

/// A listener, the one that it accepted last, and a stream in each place. Each method makes the call that its clause names, and no other.
#[derive(Drop)]
pub struct MioSockets {
    poll: Poll,
    events: Events,
    /// What the last wait told, at the front.
    told: Vec<Told>,
    count: usize,
    listener: TcpListener,
    waiting: Option<TcpStream>,
    streams: Vec<Option<TcpStream>>,
}

impl MioSockets {
    /// Listens on an address that this machine alone reaches.
    pub fn listen(
        rt: &(impl Net + AllocGlobal),
        address: SocketAddr,
    ) -> Result<MioSockets, LoopFault>
        requires loopback { ipv4_octets_of address ≡ Some (127 ∷ 0 ∷ 0 ∷ 1 ∷ []) }
        ensures { IfErr result (λ fault. (fault ≡ Memory) ⊎ (fault ≡ NoSockets)) }
    {
        let Ok(poll) = Poll::new(rt) else {
            return Err(LoopFault::Sockets);
        };
        let Ok(mut listener) = TcpListener::bind(rt, address) else {
            return Err(LoopFault::Sockets);
        };
        if poll
            .registry()
            .register(&mut listener, LISTENER, Interest::READABLE)
            .is_err()
        {
            return Err(LoopFault::Sockets);
        }
        Ok(MioSockets {
            poll,
            events: Events::with_capacity(rt.alloc(), EVENTS)?,
            told: nothing_told(rt.alloc())?,
            count: 0,
            listener,
            waiting: None,
            streams: no_streams(rt.alloc())?,
        })
    }

    fn stream(&mut self, place: usize) -> io::Result<&mut TcpStream> {
        match self.streams.get_mut(place) {
            Some(Some(stream)) => Ok(stream),
            _ => Err(io::Error::from(ErrorKind::NotConnected)),
        }
    }

    // Keeps what the last wait told.
    fn note_events(&mut self) {
        self.count = 0;
        for event in &self.events {
            if let Some(slot) = self.told.get_mut(self.count) {
                *slot = told_by(event);
                self.count += 1;
            }
        }
    }
}

impl Sockets for MioSockets {
    ghost use Rattle.std.specs.Prelude.{take};

    ghost follows = { λ calls old new. Unit {0} };

    ghost last_told = { λ sockets. take sockets.count sockets.told.items };

    ghost unchanged = { λ sockets. tt };

    ghost joined = { λ first more a b c done then. tt };

    fn wait(&mut self, millis: u64) -> bool {
        let limit = Some(Duration::from_millis(millis));
        if self.poll.poll(&mut self.events, limit).is_err() {
            return false;
        }
        self.note_events();
        true
    }

    fn told(&self) -> &[Told] {
        match self.told.get(..self.count) {
            Some(told) => told,
            None => &self.told,
        }
    }

    fn accept(&mut self) -> io::Result<()> {
        let (stream, _) = self.listener.accept()?;
        self.waiting = Some(stream);
        Ok(())
    }

    fn seat(&mut self, place: usize) -> bool {
        let Some(mut stream) = self.waiting.take() else {
            return false;
        };
        // An answer is written as a head and a body, and neither is to wait for the other.
        let _ = stream.set_nodelay(true);
        let both = Interest::READABLE | Interest::WRITABLE;
        let is_told_of = self
            .poll
            .registry()
            .register(&mut stream, Token(place), both)
            .is_ok();
        if let Some(slot) = self.streams.get_mut(place) {
            *slot = Some(stream);
        }
        is_told_of
    }

    fn read(&mut self, place: usize, piece: &mut [u8]) -> io::Result<usize> {
        self.stream(place)?.read(piece)
    }

    fn drop_some(&mut self, place: usize) -> io::Result<usize> {
        let mut piece = [0u8; PIECE];
        self.stream(place)?.read(&mut piece)
    }

    fn write(&mut self, place: usize, bytes: &[u8]) -> io::Result<usize> {
        self.stream(place)?.write(bytes)
    }

    fn stop_sending(&mut self, place: usize) {
        if let Ok(stream) = self.stream(place) {
            let _ = stream.shutdown(Shutdown::Write);
        }
    }

    fn close(&mut self, place: usize) {
        if let Some(slot) = self.streams.get_mut(place) {
            *slot = None;
        }
    }
}

fn told_by(event: &Event) -> Told {
    let token = event.token();
    Told {
        place: if token == LISTENER {
            None
        } else {
            Some(token.0)
        },
        is_readable: event.is_readable(),
        is_writable: event.is_writable(),
        is_read_closed: event.is_read_closed(),
        is_error: event.is_error(),
    }
}

fn nothing_told(alloc: Global) -> Result<Vec<Told>, AllocError> {
    let mut told = Vec::with_capacity(alloc, EVENTS)?;
    for _ in 0..EVENTS {
        told.push(Told {
            place: None,
            is_readable: false,
            is_writable: false,
            is_read_closed: false,
            is_error: false,
        })?;
    }
    Ok(told)
}

fn no_streams(alloc: Global) -> Result<Vec<Option<TcpStream>>, AllocError> {
    let mut streams = Vec::with_capacity(alloc, CONNECTIONS)?;
    for _ in 0..CONNECTIONS {
        streams.push(None)?;
    }
    Ok(streams)
}
