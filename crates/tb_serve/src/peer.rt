//! A connection as a value: what came and was not taken yet, and what it is still to be sent.
ghost use Rattle.std.specs.Prelude.{◌≡◌, ◌≤◌, ◌++◌, [], drop, length, OnErr, OnOk, Err, false, true};
ghost use Rattle.tb_calls.specs.Call.{State};
ghost use Rattle.tb_calls.specs.Leaving.{Only};
ghost use Rattle.tb_http.specs.declared.begun.Begun.{Begun};
ghost use Rattle.tb_http.specs.Inbox.{IsBegun, Wants};
ghost use Rattle.tb_serve.specs.Following.{Follows, has_stopped};
ghost use Rattle.tb_serve.specs.Server.{HappensTo};
ghost use Rattle.tb_serve.specs.Turns.{silent, turns};

use crate::exchanging::{answer_whole, outcome, takes_no_more};
use crate::serving::ServeFault;
use crate::tools::Tools;
use std::alloc::{AllocError, Global};
use std::marker::Model;
use tb_calls::Keep;
use tb_desk::Desk;
use tb_http::Inbox;
use tb_site::Paths;
use tb_task::Moment;

/// How many bytes of room a connection keeps for its answers.
const ROOM_KEPT: usize = 4_096;

/// A connection, but for its socket.
#[derive(Drop)]
pub struct Peer {
    inbox: Inbox,
    out: Vec<u8>,
    sent: usize,
    is_closing: bool,
}

impl Model for Peer {
    ghost use Rattle.std.specs.Prelude.{◌≡◌, ◌≤◌, drop, false, length};
    ghost use Rattle.tb_serve.specs.Turns.{Talk};

    ghost Value = { Talk };

    ghost view = { λ p. record {
      bytes = p.inbox.bytes;
      messages = p.inbox.messages;
      is_closing = p.is_closing;
      out = drop p.sent p.out.items;
    } };

    ghost invariant = { λ p. (p.sent ≤ length p.out.items)
        × (p.is_closing ≡ false → p.inbox.is_closing ≡ false) };
}

// Lets go of the bytes at the front.
fn drop_front(bytes: &mut Vec<u8>, count: usize)
    ensures { bytes.new.items ≡ drop count bytes.old.items }
{
    if count >= bytes.len() {
        bytes.clear();
    } else {
        bytes.rotate_left(count);
        let left = bytes.len() - count;
        bytes.truncate(left);
    }
}

// Lets go of all bytes, and of much room.
fn let_go(alloc: Global, bytes: &mut Vec<u8>)
    ensures { bytes.new.items ≡ [] }
{
    if bytes.capacity() > ROOM_KEPT {
        *bytes = Vec::new(alloc);
    } else {
        bytes.clear();
    }
}

// Where what is to be sent begins, once so many bytes more were sent. Where none are left, all are let go of.
fn advance(alloc: Global, bytes: &mut Vec<u8>, sent: usize, count: usize) -> usize
    requires { sent ≤ length bytes.old.items }
    ensures left { drop result bytes.new.items ≡ drop count (drop sent bytes.old.items) }
    ensures inside { result ≤ length bytes.new.items }
{
    if count >= bytes.len() - sent {
        let_go(alloc, bytes);
        0
    } else {
        sent + count
    }
}

impl Peer {
    pub fn new(alloc: Global) -> Peer
        ensures { result ≡ silent }
    {
        Peer {
            inbox: Inbox::new(alloc),
            out: Vec::new(alloc),
            sent: 0,
            is_closing: false,
        }
    }

    /// Whether no further message is taken. The connection ends when nothing is unsent then.
    pub fn is_closing(&self) -> bool
        ensures { result ≡ self.now.is_closing }
    {
        self.is_closing
    }

    /// What came and was not taken yet.
    pub fn held(&self) -> &[u8]
        ensures { result.now ≡ self.now.bytes }
    {
        self.inbox.held()
    }

    /// Whether the head of the message at the front was read, whose body isn't whole.
    pub fn has_head(&self) -> bool
        ensures { result ≡ true → (begun : Begun) × IsBegun self.now.bytes begun }
    {
        self.inbox.has_head()
    }

    /// How many bytes the message at the front has in all, once its head was read, and else 0.
    pub fn wanted(&self) -> usize
        ensures { Wants self.now.bytes result }
    {
        self.inbox.wanted()
    }

    /// What is still to be sent: whole answers, but for the front of the first that was sent. The call of each stands.
    pub fn unsent(&self) -> &[u8]
        ensures { result.now ≡ self.now.out }
    {
        &self.out[self.sent..]
    }

    // Takes bytes that came.
    pub(crate) fn take(&mut self, piece: &[u8]) -> Result<(), AllocError>
        ensures ok { OnOk result
            (self.new ≡ record self.old { bytes = self.old.bytes ++ piece.now }) }
        ensures err { OnErr result (self.new ≡ record self.old { is_closing = true }) }
    {
        match self.inbox.push(piece) {
            Ok(()) => Ok(()),
            Err(error) => {
                self.is_closing = true;
                Err(error)
            }
        }
    }

    // So many bytes were handed to the socket, or all that there are.
    pub(crate) fn mark_sent(&mut self, alloc: Global, count: usize)
        ensures { self.new ≡ record self.old { out = drop count self.old.out } }
    {
        self.sent = advance(alloc, &mut self.out, self.sent, count);
    }

    // Takes the next message, if it is whole, handles it, and puts its answer behind what is still to be sent. The desk
    // handles a call before the first byte of its answer can be seen.
    pub(crate) fn answer_next<K: Keep>(
        &mut self,
        alloc: Global,
        tools: &mut Tools,
        paths: &Paths,
        desk: &mut Desk<K>,
        at: Option<Moment>,
    ) -> Result<(), ServeFault>
        ensures happens { K.is_honest desk.new ≡ true → (s : State) → K.holds desk.old s
            → Only s (K.after_stop desk.old)
            → HappensTo paths.now.site result s (turns at) self.old self.new (K.holds desk.new)
            (K.after_stop desk.new) }
        ensures follows { Follows (has_stopped result) (K.holds desk.old) (K.after_stop desk.old)
            (K.holds desk.new) (K.after_stop desk.new) }
        ensures honest { K.is_honest desk.new ≡ true → K.is_honest desk.old ≡ true }
        ensures failed { result ≡ Err ServeFault.Store → K.has_failed desk.new ≡ true }
    {
        if self.is_closing {
            return Ok(());
        }
        drop_front(&mut self.out, self.sent);
        self.sent = 0;
        let Some(exchange) = answer_whole(
            alloc,
            tools,
            paths,
            &mut self.inbox,
            &mut self.out,
            desk,
            at,
        ) else {
            return Ok(());
        };
        self.is_closing = takes_no_more(self.inbox.closing(), exchange);
        outcome(exchange)
    }
}
