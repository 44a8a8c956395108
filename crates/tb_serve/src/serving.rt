//! A connection's messages, answered in turn.
ghost use Rattle.std.specs.Prelude.{◌≡◌, ◌+◌, ◌≤◌, ◌<◌, [], IfSome, Some, drop, false, true};
ghost use Rattle.tb_calls.specs.Call.{State};
ghost use Rattle.tb_calls.specs.Leaving.{Only};
ghost use Rattle.tb_http.specs.Answer.{answer_text};
ghost use Rattle.tb_http.specs.Closing.{message_limit};
ghost use Rattle.tb_serve.specs.Serving.{Exchanges, HandlesMessage, IsServingEnd, Sends, Settles, answers_one, ended_by, exchange_fault, goes_on, owes_one, reads_one, turn_fault, unread_text};
ghost use Rattle.tb_serve.specs.Telling as telling;

use crate::telling::tell;
use std::alloc::Global;
use std::io::{Read, Write};
use tb_calls::{Keep, KeepFault};
use tb_desk::Desk;
use tb_http::{Answer, ContentType, HeadRoom, Message, Reader, WireFault};
use tb_program::Clock;
use tb_site::Paths;
use tb_task::Moment;

/// Why the serving of a connection ended before its messages did.
#[derive(Clone, Copy, Debug, PartialEq, Eq)]
pub enum ServeFault {
    ReadFailed,
    /// An answer wasn't written whole.
    WriteFailed,
    /// The store failed.
    Store,
    Memory,
}

/// How the serving of a connection ended.
#[derive(Clone, Copy, Debug, PartialEq, Eq)]
pub struct ServeEnd {
    /// How many messages were read whole.
    pub messages: usize,
    /// How many answers were written whole.
    pub answered: usize,
    pub fault: Option<ServeFault>,
}

/// What came of the next message.
#[derive(Clone, Copy)]
pub enum MessageOutcome {
    /// It was read, and is told what it asked for, or that it asked for nothing.
    Replied,
    /// It was read, and its call or view got no reply.
    Failed(KeepFault),
    /// It couldn't be read.
    Unread(WireFault),
}

/// What came of the next message, and whether its answer was written whole.
#[derive(Clone, Copy)]
pub struct Exchange {
    pub turn: MessageOutcome,
    pub is_whole: bool,
}

impl Exchange {
    /// The end behind so many messages that were read and answered, and this exchange.
    pub(crate) fn ends(self, before: usize) -> ServeEnd
        requires { before < message_limit }
        ensures { result ≡ ended_by before self }
    {
        ServeEnd {
            messages: before + self.turn.reads_one(),
            answered: before + self.answers_one(),
            fault: self.fault(),
        }
    }

    // Whether a message was told what it asked for, and its answer written whole.
    fn goes_on(self) -> bool
        ensures { result ≡ goes_on self.turn self.is_whole }
    {
        match self.turn {
            MessageOutcome::Replied => self.is_whole,
            _ => false,
        }
    }

    // Whether an answer was written whole.
    fn answers_one(self) -> usize
        ensures value { result ≡ answers_one self }
        ensures small { result ≤ 1 }
    {
        if self.is_whole {
            self.turn.owes_one()
        } else {
            0
        }
    }

    fn fault(self) -> Option<ServeFault>
        ensures { result ≡ exchange_fault self }
    {
        if self.is_whole {
            self.turn.fault()
        } else {
            Some(ServeFault::WriteFailed)
        }
    }
}

impl MessageOutcome {
    // Whether a message was read.
    fn reads_one(self) -> usize
        ensures value { result ≡ reads_one self }
        ensures small { result ≤ 1 }
    {
        match self {
            MessageOutcome::Replied | MessageOutcome::Failed(_) => 1,
            MessageOutcome::Unread(_) => 0,
        }
    }

    // Whether an answer is owed.
    fn owes_one(self) -> usize
        ensures value { result ≡ owes_one self }
        ensures small { result ≤ 1 }
    {
        match self {
            MessageOutcome::Replied | MessageOutcome::Failed(_) => 1,
            MessageOutcome::Unread(fault) if fault.status().is_some() => 1,
            MessageOutcome::Unread(_) => 0,
        }
    }

    fn fault(self) -> Option<ServeFault>
        ensures { result ≡ turn_fault self }
    {
        match self {
            MessageOutcome::Replied => None,
            MessageOutcome::Failed(KeepFault::Memory) => Some(ServeFault::Memory),
            MessageOutcome::Failed(KeepFault::Store) => Some(ServeFault::Store),
            MessageOutcome::Unread(WireFault::ReadFailed) => Some(ServeFault::ReadFailed),
            MessageOutcome::Unread(WireFault::Memory) => Some(ServeFault::Memory),
            MessageOutcome::Unread(_) => None,
        }
    }
}

/// Answers what could not be read, if anything is answered, and says whether that went out whole.
#[tactic(auto, unfolding(crate::specs::Serving::unread_text))]
pub fn send_unread<W: Write>(room: &mut HeadRoom, writer: &mut W, fault: WireFault) -> bool
    ensures { Sends (W.contents writer.old) (W.contents writer.new) [] (unread_text fault) result }
{
    match fault.answer(None, true, true) {
        Some(answer) => send(room, writer, answer, fault.body().as_bytes()),
        None => true,
    }
}

// Answers a call or a view that got no reply. Nothing of it takes memory.
#[tactic(auto, unfolding(crate::specs::Telling::failed_text))]
fn send_failed<W: Write>(
    room: &mut HeadRoom,
    writer: &mut W,
    fault: KeepFault,
    sends_body: bool,
) -> bool
    ensures { Sends (W.contents writer.old) (W.contents writer.new) []
        (telling.failed_text fault sends_body) result }
{
    let answer = failed_answer(fault, sends_body);
    send(room, writer, answer, failed_body(fault).as_bytes())
}

fn failed_answer(fault: KeepFault, sends_body: bool) -> Answer
    ensures { result ≡ telling.failed_answer fault sends_body }
{
    let status = match fault {
        KeepFault::Memory => 503,
        KeepFault::Store => 500,
    };
    Answer {
        status,
        content_type: ContentType::Json,
        allow: None,
        is_last: true,
        sends_body,
    }
}

fn failed_body(fault: KeepFault) -> &'static str
    ensures { result.now ≡ telling.failed_body fault }
{
    match fault {
        KeepFault::Memory => r#"{"name":"Memory"}"#,
        KeepFault::Store => r#"{"name":"Store"}"#,
    }
}

// Sends an answer, and says whether it went out whole.
fn send<W: Write>(room: &mut HeadRoom, writer: &mut W, answer: Answer, body: &[u8]) -> bool
    ensures { Sends (W.contents writer.old) (W.contents writer.new) []
        (answer_text answer body.now) result }
{
    room.send(writer, answer, body).is_ok()
}

/// Handles a message that was read, and answers it: with a file of the page, where it is told one. The answer is sent when the call stands.
pub fn handle_message<W: Write, K: Keep>(
    alloc: Global,
    paths: &Paths,
    room: &mut HeadRoom,
    writer: &mut W,
    desk: &mut Desk<K>,
    message: &Message,
    at: Option<Moment>,
    is_last: bool,
) -> Exchange
    ensures handles { K.is_honest desk.new ≡ true → (s : State) → K.holds desk.old s
        → Only s (K.after_stop desk.old)
        → HandlesMessage paths.now.site s at is_last message.now (W.contents writer.old)
        (W.contents writer.new)
        result.turn result.is_whole (K.holds desk.new) (K.after_stop desk.new) }
    ensures stands { (s : State) → K.holds desk.old s → Only s (K.after_stop desk.old)
        → Settles s at message.now result.turn (K.holds desk.new) (K.after_stop desk.new) }
    ensures read { reads_one result.turn ≡ 1 }
    ensures honest { K.is_honest desk.new ≡ true → K.is_honest desk.old ≡ true }
    ensures failed { result.turn ≡ MessageOutcome.Failed KeepFault.Store → K.has_failed desk.new ≡ true }
{
    if let Some(file) = paths.file(message) {
        let answer = file.answer(is_last, message.takes_body());
        return Exchange {
            turn: MessageOutcome::Replied,
            is_whole: send(room, writer, answer, file.body.as_slice()),
        };
    }
    match tell(alloc, &paths.routes, desk, message, at) {
        Ok(told) => {
            let answer = told.answer(is_last, message.takes_body());
            Exchange {
                turn: MessageOutcome::Replied,
                is_whole: send(room, writer, answer, told.body.as_bytes()),
            }
        }
        Err(fault) => Exchange {
            turn: MessageOutcome::Failed(fault),
            is_whole: send_failed(room, writer, fault, message.takes_body()),
        },
    }
}

// Reads the next message, and answers it.
fn serve_message<R: Read + Drop, W: Write, K: Keep, C: Clock>(
    alloc: Global,
    paths: &Paths,
    room: &mut HeadRoom,
    reader: &mut Reader<R>,
    writer: &mut W,
    desk: &mut Desk<K>,
    clock: &mut C,
) -> Exchange
    requires { reader.old.is_closing ≡ false }
    ensures exchanges { K.is_honest desk.new ≡ true → (s : State) → K.holds desk.old s
        → Only s (K.after_stop desk.old)
        → IfSome reader.old.bytes (λ bytes. IfSome (C.answers clock.old) (λ moments.
        Exchanges paths.now.site s moments reader.old.messages bytes (W.contents writer.old)
        (W.contents writer.new) result
        (K.holds desk.new) (K.after_stop desk.new) reader.new.bytes reader.new.is_closing)) }
    ensures honest { K.is_honest desk.new ≡ true → K.is_honest desk.old ≡ true }
    ensures failed { result.turn ≡ MessageOutcome.Failed KeepFault.Store → K.has_failed desk.new ≡ true }
    ensures clock { IfSome (C.answers clock.old)
        (λ moments. C.answers clock.new ≡ Some (drop (reads_one result.turn) moments)) }
    ensures counted { result.turn ≡ MessageOutcome.Replied → reader.new.messages ≡ reader.old.messages + 1 }
    ensures limit { result.turn ≡ MessageOutcome.Replied → message_limit ≤ reader.new.messages
        → reader.new.is_closing ≡ true }
{
    match reader.read_message(alloc) {
        Ok(message) => {
            let at = clock.now();
            let is_last = reader.closing();
            handle_message(alloc, paths, room, writer, desk, &message, at, is_last)
        }
        Err(fault) => Exchange {
            turn: MessageOutcome::Unread(fault),
            is_whole: send_unread(room, writer, fault),
        },
    }
}

// Answers a connection's messages, with all room made.
fn serve_all<R: Read + Drop, W: Write, K: Keep, C: Clock>(
    alloc: Global,
    paths: &Paths,
    room: &mut HeadRoom,
    reader: &mut Reader<R>,
    writer: &mut W,
    desk: &mut Desk<K>,
    clock: &mut C,
) -> ServeEnd
    requires goes_on { reader.old.is_closing ≡ false }
    requires first { reader.old.messages ≡ 0 }
    ensures served { K.is_honest desk.new ≡ true → (s : State) → K.holds desk.old s
        → Only s (K.after_stop desk.old)
        → IfSome reader.old.bytes (λ bytes. IfSome (C.answers clock.old) (λ moments.
        IsServingEnd paths.now.site s moments bytes (W.contents writer.old) (W.contents writer.new)
        (K.holds desk.new) (K.after_stop desk.new) result)) }
    ensures honest { K.is_honest desk.new ≡ true → K.is_honest desk.old ≡ true }
    ensures failed { result.fault ≡ Some ServeFault.Store → K.has_failed desk.new ≡ true }
    ensures clock { IfSome (C.answers clock.old)
        (λ moments. C.answers clock.new ≡ Some (drop result.messages moments)) }
{
    let mut answered = 0;
    'messages: while !reader.closing() {
        let exchange = serve_message(alloc, paths, room, reader, writer, desk, clock);
        if !exchange.goes_on() {
            return exchange.ends(answered);
        }
        answered += 1;
    }
    ServeEnd {
        messages: answered,
        answered,
        fault: None,
    }
}

/// Answers the messages of a connection in turn, each at the moment that the clock gives when it was read whole, which is the only one
/// taken for it: at most 1,000, and none behind one that closes the connection. The desk handles a call before the first byte of its answer is written.
pub fn serve_reader<R: Read + Drop, W: Write, K: Keep, C: Clock>(
    alloc: Global,
    paths: &Paths,
    source: R,
    writer: &mut W,
    desk: &mut Desk<K>,
    clock: &mut C,
) -> ServeEnd
    ensures served { K.is_honest desk.new ≡ true → (s : State) → K.holds desk.old s
        → Only s (K.after_stop desk.old)
        → IfSome (R.remaining source) (λ bytes. IfSome (C.answers clock.old) (λ moments.
        IsServingEnd paths.now.site s moments bytes (W.contents writer.old) (W.contents writer.new)
        (K.holds desk.new) (K.after_stop desk.new) result)) }
    ensures honest { K.is_honest desk.new ≡ true → K.is_honest desk.old ≡ true }
    ensures failed { result.fault ≡ Some ServeFault.Store → K.has_failed desk.new ≡ true }
    ensures clock { IfSome (C.answers clock.old)
        (λ moments. C.answers clock.new ≡ Some (drop result.messages moments)) }
{
    let Ok(mut room) = HeadRoom::new(alloc) else {
        return UNSTARTED;
    };
    let Ok(mut reader) = Reader::new(alloc, source) else {
        return UNSTARTED;
    };
    serve_all(alloc, paths, &mut room, &mut reader, writer, desk, clock)
}

// There was no memory to begin with.
const UNSTARTED: ServeEnd = ServeEnd {
    messages: 0,
    answered: 0,
    fault: Some(ServeFault::Memory),
};
