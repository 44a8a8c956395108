//! Messages, one after the other, off the bytes that came so far.
ghost use Rattle.std.specs.Prelude.{◌≡◌, ◌<◌, ◌≤◌, ◌+◌, ◌==◌, ◌++◌, ℕ, List, [], length, Bool, IfOk, IfErr, IfSome, IfNone, OnOk, OnErr, Ok, Err, None, Some, true, false};
ghost use Rattle.tb_http.specs.Closing.{message_limit};
ghost use Rattle.tb_http.specs.declared.begun.Begun.{Begun};
ghost use Rattle.tb_http.specs.OpenHead.{IsOpenHead};
ghost use Rattle.tb_http.specs.Wire.{BeginsWithMessage, is_last};
ghost use Rattle.tb_http.specs.Inbox.{HasFault, IsBegun, IsUnfinished, Wants};

use crate::begun::{Begun, Taken, begin, take_begun};
use crate::closing::MESSAGE_LIMIT;
use crate::fault::WireFault;
use crate::head::{FIELD_ROOM, HEAD_LIMIT};
use crate::message::Message;
use crate::open_head::OpenHead;
use httparse::spans::{EMPTY_HEADER_SPAN, HeaderSpan};
use std::alloc::{AllocError, Global};
use std::marker::Model;

/// Room for the fields of a head. Connections share it, since it is empty between two calls.
#[derive(Drop)]
pub struct FieldRoom {
    spans: Vec<HeaderSpan>,
    ghost room: { length spans.items ≡ 5463 },
}

impl FieldRoom {
    pub fn new(alloc: Global) -> Result<FieldRoom, AllocError>
        ensures { IfOk result (λ made. length made.spans.items ≡ FIELD_ROOM) }
    {
        Ok(FieldRoom {
            spans: vec![in alloc; EMPTY_HEADER_SPAN; FIELD_ROOM]?,
        })
    }
}

/// The room that is kept where nothing is held, in bytes.
const KEPT_ROOM: usize = 4_096;

// Gives the room of what is empty back, if it is much.
fn release_room(alloc: Global, held: &mut Vec<u8>)
    ensures { held.new.items ≡ held.old.items }
{
    if held.is_empty() && held.capacity() > KEPT_ROOM {
        *held = Vec::new(alloc);
    }
}

// Makes room for the rest of a message of this length, and for the first piece behind it, where it would have to grow. Without memory
// it grows as it has to.
fn make_room(held: &mut Vec<u8>, whole: usize, more: usize)
    ensures { held.new.items ≡ held.old.items }
{
    let len = held.len();
    if len < whole && held.capacity() - len < more {
        let _ = held.reserve_exact((whole - len).saturating_add(HEAD_LIMIT));
    }
}

// Puts bytes behind those that are held. A single one needs no copying of a slice.
#[inline]
fn append(held: &mut Vec<u8>, piece: &[u8]) -> Result<(), AllocError>
    ensures ok { OnOk result (held.new.items ≡ held.old.items ++ piece.now) }
    ensures err { OnErr result (held.new.items ≡ held.old.items) }
{
    let [byte] = piece else {
        return held.extend_from_slice(piece);
    };
    held.push(*byte)?;
    Ok(())
}

// What was begun, or else the head that is whole now.
fn take_begun_or_begin(
    alloc: Global,
    so_far: &mut OpenHead,
    begun: &mut Option<Begun>,
    held: &[u8],
    room: &mut [HeaderSpan],
) -> Result<Option<Begun>, WireFault>
    requires room { length room.old ≡ FIELD_ROOM }
    requires read { IsOpenHead held.now so_far.old }
    requires begun { IfSome begun.old (λ b. IsBegun held.now b) }
    ensures read { IsOpenHead held.now so_far.new }
    ensures taken { begun.new ≡ None }
    ensures begun { IfOk result (λ found. IfSome found (λ b. IsBegun held.now b)) }
    ensures unfinished { IfOk result (λ found. IfNone found (IsUnfinished held.now)) }
    ensures fault { IfErr result (λ fault. HasFault held.now fault) }
{
    match begun.take() {
        Some(begun) => Ok(Some(begun)),
        None => begin(alloc, held, so_far, room),
    }
}

// Takes the next message, if it is whole. What was read of its head is kept.
#[inline(never)]
fn take_next(
    alloc: Global,
    so_far: &mut OpenHead,
    begun: &mut Option<Begun>,
    held: &mut Vec<u8>,
    room: &mut [HeaderSpan],
) -> Result<Option<Taken>, WireFault>
    requires room { length room.old ≡ FIELD_ROOM }
    requires read { IsOpenHead held.old.items so_far.old }
    requires begun { IfSome begun.old (λ b. IsBegun held.old.items b) }
    ensures read { IsOpenHead held.new.items so_far.new }
    ensures begun { IfSome begun.new (λ b. IsBegun held.new.items b) }
    ensures message { IfOk result (λ found. IfSome found (λ taken.
        BeginsWithMessage held.old.items taken.message taken.closes held.new.items)) }
    ensures unfinished { IfOk result
        (λ found. IfNone found (IsUnfinished held.old.items × (held.new.items ≡ held.old.items))) }
    ensures fault { IfErr result (λ fault. HasFault held.old.items fault) }
    ensures same { OnErr result (held.new.items ≡ held.old.items) }
{
    let Some(started) = take_begun_or_begin(alloc, so_far, begun, held, room)? else {
        return Ok(None);
    };
    if held.len() < started.len + started.size {
        *begun = Some(started);
        return Ok(None);
    }
    let taken = take_begun(alloc, started, held)?;
    release_room(alloc, held);
    *so_far = OpenHead::new();
    Ok(Some(taken))
}

/// The bytes of a connection that came and were not taken yet.
#[derive(Drop)]
pub struct Inbox {
    held: Vec<u8>,
    so_far: OpenHead,
    begun: Option<Begun>,
    messages: usize,
    is_closing: bool,
}

impl Model for Inbox {
    ghost use Rattle.std.specs.Prelude.{◌≡◌, ◌<◌, IfSome, false};
    ghost use Rattle.tb_http.specs.Closing.{message_limit};
    ghost use Rattle.tb_http.specs.Inbox.{Held, IsBegun};
    ghost use Rattle.tb_http.specs.OpenHead.{IsOpenHead};

    ghost Value = { Held };

    ghost view = { λ i. record {
      bytes = i.held.items;
      messages = i.messages;
      is_closing = i.is_closing;
    } };

    ghost invariant = { λ i. IsOpenHead i.held.items i.so_far
        × IfSome i.begun (λ b. IsBegun i.held.items b)
        × (i.is_closing ≡ false → i.messages < message_limit) };
}

impl Inbox {
    pub fn new(alloc: Global) -> Inbox
        ensures { result ≡ record { bytes = []; messages = 0; is_closing = false } }
    {
        Inbox {
            held: Vec::new(alloc),
            so_far: OpenHead::new(),
            begun: None,
            messages: 0,
            is_closing: false,
        }
    }

    /// Whether the connection is closed after the last message or fault. Then no further message is taken.
    pub fn closing(&self) -> bool
        ensures { result ≡ self.now.is_closing }
    {
        self.is_closing
    }

    /// Whether all bytes that came were taken.
    pub fn is_empty(&self) -> bool
        ensures { result ≡ (length self.now.bytes == 0) }
    {
        self.held.is_empty()
    }

    /// What came and was not taken yet.
    pub fn held(&self) -> &[u8]
        ensures { result.now ≡ self.now.bytes }
    {
        &self.held
    }

    /// Whether the head of the message at the front was read, whose body isn't whole.
    pub fn has_head(&self) -> bool
        ensures { result ≡ true → (begun : Begun) × IsBegun self.now.bytes begun }
    {
        match &self.begun {
            Some(_) => true,
            None => false,
        }
    }

    /// Takes no further message.
    pub fn close(&mut self)
        ensures { self.new ≡ record self.old { is_closing = true } }
    {
        self.is_closing = true;
    }

    /// Puts bytes that came behind those that are held.
    #[inline]
    pub fn push(&mut self, piece: &[u8]) -> Result<(), AllocError>
        ensures ok { OnOk result
            (self.new ≡ record self.old { bytes = self.old.bytes ++ piece.now }) }
        ensures err { OnErr result (self.new ≡ self.old) }
    {
        let wanted = self.wanted();
        make_room(&mut self.held, wanted, piece.len());
        append(&mut self.held, piece)?;
        self.so_far.search(&self.held);
        Ok(())
    }

    /// How many bytes the message at the front has in all, once its head was read, and else 0.
    pub fn wanted(&self) -> usize
        ensures { Wants self.now.bytes result }
    {
        match &self.begun {
            Some(begun) => begun.len + begun.size,
            None => 0,
        }
    }

    // Whether no message can be whole before more bytes come: by the length of a body that was begun, or because a
    // head has no further line.
    #[inline]
    fn awaits_more(&self) -> bool
        ensures { result ≡ true → IsUnfinished self.now.bytes }
    {
        match &self.begun {
            Some(begun) => self.held.len() < begun.len + begun.size,
            None => self.so_far.searched == self.held.len() && self.held.len() <= HEAD_LIMIT,
        }
    }

    /// Takes the next message, if it is whole: None says that more bytes are needed. A message closes the connection where its sender
    /// says so and where it is the 1,000th, and a fault closes it.
    #[inline]
    pub fn next_message(
        &mut self,
        alloc: Global,
        room: &mut FieldRoom,
    ) -> Result<Option<Message>, WireFault>
        ensures closed { self.old.is_closing ≡ true
            → (result ≡ Err WireFault.Ended) × (self.new ≡ self.old) }
        ensures message { self.old.is_closing ≡ false
            → IfOk result (λ found. IfSome found (λ message.
            (closes : Bool) × BeginsWithMessage self.old.bytes message closes self.new.bytes
            × (self.new.is_closing ≡ is_last closes self.old.messages)
            × (self.new.messages ≡ self.old.messages + 1))) }
        ensures unfinished { self.old.is_closing ≡ false → IfOk result (λ found. IfNone found
            (IsUnfinished self.old.bytes × (self.new ≡ self.old))) }
        ensures fault { self.old.is_closing ≡ false
            → IfErr result (λ fault. HasFault self.old.bytes fault) }
        ensures closes { OnErr result (self.new ≡ record self.old { is_closing = true }) }
    {
        if self.is_closing {
            return Err(WireFault::Ended);
        }
        if self.awaits_more() {
            return Ok(None);
        }
        self.is_closing = true;
        let found = take_next(
            alloc,
            &mut self.so_far,
            &mut self.begun,
            &mut self.held,
            &mut room.spans,
        )?;
        let Some(taken) = found else {
            self.is_closing = false;
            return Ok(None);
        };
        self.messages += 1;
        self.is_closing = taken.closes || self.messages >= MESSAGE_LIMIT;
        Ok(Some(taken.message))
    }
}
