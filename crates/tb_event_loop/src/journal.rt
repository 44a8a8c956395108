//! The time, and what is told on standard error.
ghost use Rattle.std.specs.Prelude.{◌≡◌, ◌⊎◌, ◌-◌, ℕ, [], false, IfErr, length, max, OnOk, take, true, unwrap_or};
ghost use Rattle.std.specs.Io.KnownBytes.{Appends};
ghost use Rattle.std.specs.Option.{option_copied};
ghost use Rattle.tb_event_loop.specs.Journal.{IsLogged, IsTold, IsToldFailed, status_in};
ghost use Rattle.tb_program.specs.declared.fault.Fault.TheVariants.{WriteFailed};
ghost use Rattle.tb_values.specs.Appends.{AppendsFront};

use crate::logging::{FailedMessage, LogEntry, failure_line, log_line};
use crate::request_line::{RequestLine, read_request_line};
use crate::ticks::Ticks;
use std::alloc::Global;
use std::io;
use std::io::Write;
use tb_program::Fault;
use tb_task::Moment;
use tb_values::write_whole;

/// Tells the time, and writes what happens.
#[derive(Drop)]
pub struct Journal<T: Ticks, W: Write> {
    alloc: Global,
    ticks: T,
    errors: W,
    is_logged: bool,
    /// How many lines couldn't be written, since the last that was.
    missed: u64,
    /// The most that its clock showed so far.
    millis: u64,
    /// The front of the message that is being answered, or nothing where there was no memory for it.
    head: Vec<u8>,
    /// When its answering began.
    began: u64,
}

impl<T: Ticks, W: Write> Journal<T, W> {
    /// A journal that begins now. With the log it tells each message.
    pub fn new(alloc: Global, ticks: T, errors: W, is_logged: bool) -> Journal<T, W>
        ensures ticks { result.ticks ≡ ticks }
        ensures begins { result.errors ≡ errors }
        ensures logs { result.is_logged ≡ is_logged }
        ensures empty { result.head.items ≡ [] }
    {
        Journal {
            alloc,
            ticks,
            errors,
            is_logged,
            missed: 0,
            millis: 0,
            head: Vec::new(alloc),
            began: 0,
        }
    }

    /// How many milliseconds have passed, as its clock shows. It never goes back.
    pub(crate) fn now(&mut self) -> u64
        ensures told { result ≡ self.new.millis }
        ensures shown { (shown : ℕ) × T.shows shown self.old.ticks self.new.ticks
            × (self.new.millis ≡ max self.old.millis shown) }
        ensures others { self.new
            ≡ record self.old { ticks = self.new.ticks; millis = self.new.millis } }
    {
        self.millis = self.millis.max(self.ticks.millis());
        self.millis
    }

    pub(crate) fn tell_not_accepted(&mut self, error: &io::Error)
        ensures others { self.new ≡ record self.old { errors = self.new.errors } }
    {
        let _ = writeln!(
            self.errors,
            "taskboard: a connection can't be accepted: {error}"
        );
    }

    /// Keeps what is told of a message, before it is answered.
    pub(crate) fn begin(&mut self, held: &[u8])
        ensures head { (self.new.head.items ≡ take LONGEST_HEAD held.now)
            ⊎ (self.new.head.items ≡ []) }
        ensures silent { self.new.errors ≡ self.old.errors }
    {
        self.head.clear();
        let _ = self.head.extend_from_slice(front(held));
        if self.is_logged {
            self.began = self.now();
        }
    }

    /// The front of the message that is being answered, or nothing where there was no memory for it.
    pub(crate) fn head(&self) -> &[u8]
        ensures { result.now ≡ self.now.head.items }
    {
        &self.head
    }

    /// Tells of the message, with the log, that it was answered by this text. A line that can't be written counts as missing.
    pub(crate) fn end(&mut self, answer: &[u8])
        ensures off { self.old.is_logged ≡ false → self.new.errors ≡ self.old.errors }
        ensures told { (self.new.errors ≡ self.old.errors)
            ⊎ IsTold self.old.head.items answer.now (self.new.millis - self.old.began)
            self.old.missed
            (AppendsFront (W.contents self.old.errors) (W.contents self.new.errors)) }
        ensures logged { self.old.is_logged ≡ true
            → IsLogged self.old.head.items answer.now (self.new.millis - self.old.began)
            self.old.missed self.new.missed
            (Appends (W.contents self.old.errors) (W.contents self.new.errors)) }
    {
        if !self.is_logged {
            return;
        }
        match self.tell_answered(answer) {
            Ok(()) => self.missed = 0,
            Err(_) => self.missed = self.missed.saturating_add(1),
        }
    }

    // Tells of the message, or why not.
    fn tell_answered(&mut self, answer: &[u8]) -> Result<(), Fault>
        ensures whole { OnOk result
            (IsTold self.old.head.items answer.now (self.new.millis - self.old.began)
            self.old.missed
            (Appends (W.contents self.old.errors) (W.contents self.new.errors))) }
        ensures told { (self.new.errors ≡ self.old.errors)
            ⊎ IsTold self.old.head.items answer.now (self.new.millis - self.old.began)
            self.old.missed
            (AppendsFront (W.contents self.old.errors) (W.contents self.new.errors)) }
        ensures missed { self.new.missed ≡ self.old.missed }
        ensures silent { IfErr result (λ fault. (fault ≡ WriteFailed)
            ⊎ (self.new.errors ≡ self.old.errors)) }
    {
        if self.head.is_empty() {
            return Err(Fault::Memory);
        }
        let Some(moment) = self.ticks.moment() else {
            return Err(Fault::NoClock);
        };
        let millis = self.now().saturating_sub(self.began);
        let request = read_request_line(&self.head);
        let entry = entry_of(request, answer, self.missed, moment, millis);
        let line = log_line(self.alloc, &entry)?;
        write_line(&mut self.errors, &line)
    }

    /// Tells that the store failed on the message, with the log or without.
    pub(crate) fn tell_failed(&mut self)
        ensures told { (self.new.errors ≡ self.old.errors) ⊎ IsToldFailed self.old.head.items
            (AppendsFront (W.contents self.old.errors) (W.contents self.new.errors)) }
    {
        let moment = self.ticks.moment();
        let failed = failed_of(read_request_line(&self.head), moment);
        if let Ok(line) = failure_line(self.alloc, &failed) {
            let _ = write_line(&mut self.errors, &line);
        }
    }
}

// On a fault a front of the line is written.
fn write_line<W: Write>(errors: &mut W, line: &[u8]) -> Result<(), Fault>
    ensures whole { OnOk result
        (Appends (W.contents errors.old) (W.contents errors.new) line.now) }
    ensures front { AppendsFront (W.contents errors.old) (W.contents errors.new) line.now }
    ensures fault { IfErr result (λ fault. fault ≡ WriteFailed) }
{
    match write_whole(errors, line) {
        Ok(()) => Ok(()),
        Err(_) => Err(Fault::WriteFailed),
    }
}

// What the log tells of a message that was answered by this text.
fn entry_of<'a>(
    request: RequestLine<'a>,
    answer: &'a [u8],
    missed: u64,
    moment: Moment,
    millis: u64,
) -> LogEntry<'a>
    ensures words { (result.method.now ≡ request.entry.method.now)
        × (result.target.now ≡ request.entry.target.now) }
    ensures member { option_copied result.member ≡ option_copied request.entry.member }
    ensures status { result.status.now ≡ status_in answer.now }
    ensures numbers { (result.moment ≡ moment) × (result.bytes ≡ length answer.now)
        × (result.millis ≡ millis) × (result.missed ≡ missed) }
{
    let RequestLine {
        method,
        target,
        member,
    } = request;
    LogEntry {
        missed,
        moment,
        member,
        method,
        target,
        status: status_in(answer),
        bytes: answer.len(),
        millis,
    }
}

// What is told of a message on which the store failed.
fn failed_of(request: RequestLine<'_>, moment: Option<Moment>) -> FailedMessage<'_>
    ensures words { (result.method.now ≡ request.entry.method.now)
        × (result.target.now ≡ request.entry.target.now) }
    ensures member { result.member.now ≡ unwrap_or (option_copied request.entry.member) [] }
    ensures moment { result.moment ≡ moment }
{
    FailedMessage {
        moment,
        member: request.member.unwrap_or(&[]),
        method: request.method,
        target: request.target,
    }
}

/// How many bytes of a message are kept for the lines that tell of it.
const LONGEST_HEAD: usize = 16_384;

pub(crate) fn front(held: &[u8]) -> &[u8]
    ensures { result.now ≡ take LONGEST_HEAD held.now }
{
    match held.get(..LONGEST_HEAD) {
        Some(front) => front,
        None => held,
    }
}

/// The status in the first line of an answer.
pub(crate) fn status_in(answer: &[u8]) -> &[u8]
    ensures { result.now ≡ status_in answer.now }
{
    match answer.get(9..12) {
        Some(status) => status,
        None => b"-",
    }
}
