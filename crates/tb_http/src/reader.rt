//! Messages, one after the other, from any reader.
ghost use Rattle.std.specs.Prelude.{◌≡◌, ◌<◌, ◌≤◌, ◌+◌, ◌⊎◌, ℕ, List, length, IfOk, IfErr, IfSome, IsSomeAnd, OnOk, OnErr, Ok, Err, Some, Bool, true, false};
ghost use Rattle.std.specs.Io.KnownBytes.{IsAtEnd, Keeps, prepend_known};
ghost use Rattle.tb_http.specs.Closing.{message_limit};
ghost use Rattle.tb_http.specs.Inbox.{IsUnfinished};
ghost use Rattle.tb_http.specs.Wire.{BeginsWithMessage, Faults, is_last};

use crate::fault::WireFault;
use crate::inbox::{FieldRoom, Inbox};
use crate::message::Message;
use std::alloc::{AllocError, Global};
use std::io::Read;
use std::marker::Model;

/// How many bytes are asked for at a time.
const READ_SIZE: usize = 4096;

// Reads once, and says whether any bytes came.
fn read_more<R: Read>(source: &mut R, inbox: &mut Inbox) -> Result<bool, WireFault>
    ensures kept { OnOk result (Keeps (prepend_known inbox.old.bytes (R.remaining source.old))
        (prepend_known inbox.new.bytes (R.remaining source.new))) }
    ensures rest { (inbox.new.messages ≡ inbox.old.messages)
        × (inbox.new.is_closing ≡ inbox.old.is_closing) }
    ensures more { result ≡ Ok true → length inbox.old.bytes < length inbox.new.bytes }
    ensures end { result ≡ Ok false
        → (inbox.new.bytes ≡ inbox.old.bytes) × IsAtEnd (R.remaining source.new) }
    ensures fault { IfErr result
        (λ fault. (fault ≡ WireFault.Memory) ⊎ (fault ≡ WireFault.ReadFailed)) }
{
    let mut piece = [0u8; READ_SIZE];
    let Ok(count) = source.read(&mut piece) else {
        return Err(WireFault::ReadFailed);
    };
    if inbox.push(&piece[..count]).is_err() {
        return Err(WireFault::Memory);
    }
    Ok(count > 0)
}

// Reads on where more bytes are needed, so that their end is a fault.
fn read_on<R: Read>(source: &mut R, inbox: &mut Inbox) -> Result<(), WireFault>
    requires { IsUnfinished inbox.old.bytes }
    ensures kept { OnOk result (Keeps (prepend_known inbox.old.bytes (R.remaining source.old))
        (prepend_known inbox.new.bytes (R.remaining source.new))) }
    ensures rest { (inbox.new.messages ≡ inbox.old.messages)
        × (inbox.new.is_closing ≡ inbox.old.is_closing) }
    ensures more { OnOk result (length inbox.old.bytes < length inbox.new.bytes) }
    ensures fault { IfErr result
        (λ fault. IfSome (prepend_known inbox.old.bytes (R.remaining source.old))
        (λ bytes. Faults bytes fault)) }
{
    if read_more(source, inbox)? {
        return Ok(());
    }
    if inbox.is_empty() {
        return Err(WireFault::Ended);
    }
    Err(WireFault::Torn)
}

// Reads the next message, whatever pieces it comes in.
fn read_next<R: Read>(
    alloc: Global,
    source: &mut R,
    inbox: &mut Inbox,
    room: &mut FieldRoom,
) -> Result<Message, WireFault>
    requires { inbox.old.is_closing ≡ false }
    ensures message { IfOk result
        (λ message. IfSome (prepend_known inbox.old.bytes (R.remaining source.old))
        (λ bytes. IsSomeAnd (prepend_known inbox.new.bytes (R.remaining source.new))
        (λ rest. (closes : Bool)
        × BeginsWithMessage bytes message closes rest
        × (inbox.new.is_closing ≡ is_last closes inbox.old.messages)))) }
    ensures fault { IfErr result
        (λ fault. IfSome (prepend_known inbox.old.bytes (R.remaining source.old))
        (λ bytes. Faults bytes fault)) }
    ensures counted { OnOk result (inbox.new.messages ≡ inbox.old.messages + 1) }
    ensures limit { OnOk result (message_limit ≤ inbox.new.messages → inbox.new.is_closing ≡ true) }
    ensures closes { OnErr result
        ((inbox.new.is_closing ≡ true) × (inbox.new.messages ≡ inbox.old.messages)) }
{
    loop {
        match inbox.next_message(alloc, room) {
            Ok(Some(message)) => return Ok(message),
            Ok(None) => {}
            Err(fault) => return Err(fault),
        }
        if let Err(fault) = read_on(source, inbox) {
            inbox.close();
            return Err(fault);
        }
    }
}

/// Messages from a reader, one after the other.
#[derive(Drop)]
pub struct Reader<R: Read + Drop> {
    source: R,
    inbox: Inbox,
    room: FieldRoom,
}

impl<R: Read + Drop> Model for Reader<R> {
    ghost use Rattle.std.specs.Io.KnownBytes.{prepend_known};
    ghost use Rattle.tb_http.specs.Wire.{ReaderState};

    ghost Value = { ReaderState };

    ghost view = { λ r. record {
      bytes = prepend_known r.inbox.bytes (R.remaining r.source);
      messages = r.inbox.messages;
      is_closing = r.inbox.is_closing;
    } };
}

impl<R: Read + Drop> Reader<R> {
    /// A reader of messages, with room for the fields of a head.
    pub fn new(alloc: Global, source: R) -> Result<Reader<R>, AllocError>
        ensures { IfOk result
            (λ reader. (reader.bytes ≡ R.remaining source) × (reader.messages ≡ 0)
            × (reader.is_closing ≡ false)) }
    {
        Ok(Reader {
            source,
            inbox: Inbox::new(alloc),
            room: FieldRoom::new(alloc)?,
        })
    }

    /// Whether the connection is closed after the last message or fault. Then no further message is read.
    pub fn closing(&self) -> bool
        ensures { result ≡ self.now.is_closing }
    {
        self.inbox.closing()
    }

    /// Reads the next message. It closes the connection where its sender says so, where it is the 1,000th, and
    /// where there is a fault.
    pub fn read_message(&mut self, alloc: Global) -> Result<Message, WireFault>
        ensures closed { self.old.is_closing ≡ true
            → (result ≡ Err WireFault.Ended) × (self.new ≡ self.old) }
        ensures message { self.old.is_closing ≡ false
            → IfOk result (λ message. IfSome self.old.bytes
            (λ bytes. IsSomeAnd self.new.bytes
            (λ rest. (closes : Bool) × BeginsWithMessage bytes message closes rest
            × (self.new.is_closing ≡ is_last closes self.old.messages)))) }
        ensures fault { self.old.is_closing ≡ false
            → IfErr result (λ fault. IfSome self.old.bytes (λ bytes. Faults bytes fault)) }
        ensures counted { OnOk result (self.new.messages ≡ self.old.messages + 1) }
        ensures limit { OnOk result
            (message_limit ≤ self.new.messages → self.new.is_closing ≡ true) }
        ensures closes { OnErr result
            ((self.new.is_closing ≡ true) × (self.new.messages ≡ self.old.messages)) }
    {
        if self.inbox.closing() {
            return Err(WireFault::Ended);
        }
        read_next(alloc, &mut self.source, &mut self.inbox, &mut self.room)
    }
}
