//! A message whose head is whole.
ghost use Rattle.std.specs.Prelude.{◌≡◌, ◌<◌, ◌≤◌, ◌+◌, ◌++◌, ℕ, List, length, take, drop, IfOk, IfErr, IfSome, IfNone, OnOk, OnErr, Ok, Err};
ghost use Rattle.tb_http.specs.Message.{message_from};
ghost use Rattle.tb_http.specs.OpenHead.{IsOpenHead};
ghost use Rattle.tb_http.specs.Wire.{BeginsWithHead, BeginsWithMessage};
ghost use Rattle.tb_http.specs.Inbox.{HasFault, IsBegun, IsUnfinished};

use crate::closing::asks_to_close;
use crate::fault::WireFault;
use crate::framing::body_length;
use crate::head::{FIELD_ROOM, HEAD_LIMIT, Judgement, judge};
use crate::message::{Head, Message, head_at};
use crate::open_head::{OpenHead, stays_open};
use httparse::spans::HeaderSpan;
use std::alloc::Global;
use tb_values::Items;

/// A head that was read, and how many bytes it takes.
#[derive(Drop)]
pub struct Start {
    pub head: Head,
    pub len: usize,
}

/// A head that was read, how many bytes it takes, and what it says of its body and of the connection.
#[derive(Drop)]
pub struct Begun {
    pub head: Head,
    pub len: usize,
    pub size: usize,
    pub closes: bool,
}

/// A message, and whether its sender closes the connection after it.
#[derive(Drop)]
pub struct Taken {
    pub message: Message,
    pub closes: bool,
}

// The bytes that a head may take.
#[tactic(auto, using(std::proofs::lemmas::List::take_min))]
fn window(held: &[u8]) -> &[u8]
    ensures value { result.now ≡ take HEAD_LIMIT held.now }
    ensures short { length result.now ≤ HEAD_LIMIT }
{
    &held[..HEAD_LIMIT.min(held.len())]
}

// The head at the front of the bytes, if it is whole.
fn find_head(
    alloc: Global,
    held: &[u8],
    room: &mut [HeaderSpan],
) -> Result<Option<Start>, WireFault>
    requires { length room.old ≡ FIELD_ROOM }
    ensures head { IfOk result
        (λ found. IfSome found (λ start. (start.len ≤ length held.now) × (start.len ≤ HEAD_LIMIT)
        × BeginsWithHead held.now start.head (drop start.len held.now))) }
    ensures unfinished { IfOk result (λ found. IfNone found (IsUnfinished held.now)) }
    ensures fault { IfErr result (λ fault. HasFault held.now fault) }
{
    let front = window(held);
    match judge(front, room) {
        Judgement::Whole(spans) => {
            let Ok(head) = head_at(alloc, front, room, spans) else {
                return Err(WireFault::Memory);
            };
            Ok(Some(Start {
                head,
                len: spans.len,
            }))
        }
        Judgement::Bad => Err(WireFault::BadHead),
        Judgement::Unfinished => {
            if held.len() > HEAD_LIMIT {
                return Err(WireFault::HeadTooLong);
            }
            Ok(None)
        }
    }
}

/// The head at the front of the bytes, if it is whole, with what it says. An open head is judged at its new lines alone.
pub fn begin(
    alloc: Global,
    held: &[u8],
    so_far: &mut OpenHead,
    room: &mut [HeaderSpan],
) -> Result<Option<Begun>, WireFault>
    requires room { length room.old ≡ FIELD_ROOM }
    requires read { IsOpenHead held.now so_far.old }
    ensures read { IsOpenHead held.now so_far.new }
    ensures begun { IfOk result (λ found. IfSome found (λ begun. IsBegun held.now begun)) }
    ensures unfinished { IfOk result (λ found. IfNone found (IsUnfinished held.now)) }
    ensures fault { IfErr result (λ fault. HasFault held.now fault) }
{
    if stays_open(held, so_far, room) && held.len() <= HEAD_LIMIT {
        return Ok(None);
    }
    let Some(start) = find_head(alloc, held, room)? else {
        return Ok(None);
    };
    let size = body_length(&start.head)?;
    let closes = asks_to_close(&start.head);
    let Start { head, len } = start;
    Ok(Some(Begun {
        head,
        len,
        size,
        closes,
    }))
}

// Takes a whole message from the front of what is held.
fn take_message(
    alloc: Global,
    start: Start,
    size: usize,
    held: &mut Vec<u8>,
) -> Result<Message, WireFault>
    requires whole { start.len + size ≤ length held.old.items }
    ensures message { IfOk result (λ message. message
        ≡ message_from start.head (take size (drop start.len held.old.items))) }
    ensures rest { OnOk result (held.new.items ≡ drop size (drop start.len held.old.items)) }
    ensures memory { IfErr result (λ fault. fault ≡ WireFault.Memory) }
    ensures same { OnErr result (held.new.items ≡ held.old.items) }
{
    let end = start.len + size;
    let Ok(body) = Vec::from_slice(alloc, &held[start.len..end]) else {
        return Err(WireFault::Memory);
    };
    held.rotate_left(end);
    let left = held.len() - end;
    held.truncate(left);
    let Head {
        method,
        target,
        minor: _,
        fields,
    } = start.head;
    Ok(Message {
        method,
        target,
        fields,
        body: Items::from_vec(body),
    })
}

/// Takes a message whose body is whole. Only want of memory keeps it from being taken.
pub fn take_begun(alloc: Global, begun: Begun, held: &mut Vec<u8>) -> Result<Taken, WireFault>
    requires begun { IsBegun held.old.items begun }
    requires whole { begun.len + begun.size ≤ length held.old.items }
    ensures message { IfOk result
        (λ taken. BeginsWithMessage held.old.items taken.message taken.closes held.new.items) }
    ensures memory { IfErr result (λ fault. fault ≡ WireFault.Memory) }
    ensures same { OnErr result (held.new.items ≡ held.old.items) }
{
    let Begun {
        head,
        len,
        size,
        closes,
    } = begun;
    let message = take_message(alloc, Start { head, len }, size, held)?;
    Ok(Taken { message, closes })
}
