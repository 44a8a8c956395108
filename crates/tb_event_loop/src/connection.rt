//! What a connection is ready for.
ghost use Rattle.std.specs.Prelude.{◌≡◌, false, true};
ghost use Rattle.std.specs.IoError.{error_kind};
ghost use Rattle.tb_event_loop.specs.Connection.{asked, ended, fresh, may_go, needs_bytes, read_failed, short_of_bytes, unasked, with_bytes, write_failed};

use std::io;
use std::io::ErrorKind;
use tb_rooms::STRANGER;

/// How many bytes are read at a time.
pub(crate) const PIECE: usize = 16_384;

#[derive(Drop)]
pub(crate) struct Connection {
    pub(crate) can_read: bool,
    pub(crate) can_write: bool,
    /// The system told that the client sends no more, which a read will tell.
    pub(crate) has_hung_up: bool,
    /// The client sends no more.
    pub(crate) has_ended: bool,
    /// What is held may be a whole message.
    pub(crate) may_answer: bool,
    /// It is to leave its place.
    pub(crate) is_gone: bool,
    /// The head of its message was looked at.
    pub(crate) has_asked: bool,
    /// The millisecond from which that message may be turned.
    pub(crate) due: u64,
    /// The number of the person of that message, or that of strangers.
    pub(crate) owner: u64,
}

impl Connection {
    /// A connection that may be ready: the first read and the first write tell.
    pub(crate) fn new() -> Connection
        ensures { result ≡ fresh }
    {
        Connection {
            can_read: true,
            can_write: true,
            has_hung_up: false,
            has_ended: false,
            may_answer: false,
            is_gone: false,
            has_asked: false,
            due: 0,
            owner: STRANGER,
        }
    }

    /// Whether its message may be turned now, as far as it was looked at.
    pub(crate) fn may_go(&self, now: u64) -> bool
        ensures { result ≡ may_go now self.now }
    {
        !self.has_asked || self.due <= now
    }

    /// The head of its message was looked at: whose it is, and from which millisecond on it may be turned.
    pub(crate) fn ask(&mut self, due: u64, owner: u64)
        ensures { self.new ≡ asked due owner self.old }
    {
        self.has_asked = true;
        self.due = due;
        self.owner = owner;
    }

    /// Its message may be turned from another millisecond on.
    pub(crate) fn put_off(&mut self, due: u64)
        ensures { self.new ≡ record self.old { due = due } }
    {
        self.due = due;
    }

    /// Its message was answered, so that the next one is at the front. Whose it was is known better now.
    pub(crate) fn end_message(&mut self, owner: u64)
        ensures { self.new ≡ unasked owner self.old }
    {
        self.has_asked = false;
        self.owner = owner;
    }

    pub(crate) fn needs_bytes(&self) -> bool
        ensures { result ≡ needs_bytes self.now }
    {
        self.can_read && !self.may_answer && !self.has_ended
    }

    /// So many bytes came, up to a piece. Where they are fewer, no more are there now.
    pub(crate) fn bytes_came(&mut self, count: usize)
        ensures { self.new ≡ with_bytes count self.old }
    {
        self.may_answer = true;
        if count < PIECE && !self.has_hung_up {
            self.can_read = false;
        }
    }

    /// Nothing more comes of it. What is held may still be answered.
    pub(crate) fn end_input(&mut self)
        ensures { self.new ≡ ended self.old }
    {
        self.can_read = false;
        self.has_ended = true;
        if !self.may_answer {
            self.is_gone = true;
        }
    }

    /// What is held is no whole message.
    pub(crate) fn lack_bytes(&mut self)
        ensures { self.new ≡ short_of_bytes self.old }
    {
        self.may_answer = false;
        if self.has_ended {
            self.is_gone = true;
        }
    }

    pub(crate) fn read_failed(&mut self, error: &io::Error)
        ensures { self.new ≡ read_failed (error_kind error.now) self.old }
    {
        match error.kind() {
            ErrorKind::WouldBlock => self.can_read = false,
            ErrorKind::Interrupted => (),
            _ => self.is_gone = true,
        }
    }

    pub(crate) fn write_failed(&mut self, error: &io::Error)
        ensures { self.new ≡ write_failed (error_kind error.now) self.old }
    {
        match error.kind() {
            ErrorKind::WouldBlock => self.can_write = false,
            ErrorKind::Interrupted => (),
            _ => self.is_gone = true,
        }
    }
}
