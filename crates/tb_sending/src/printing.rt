//! What is printed of a reply.
ghost use Rattle.std.specs.Io.KnownBytes.{Appends};
ghost use Rattle.std.specs.Prelude.{◌≡◌, ◌++◌, ◌∷◌, [], IfErr, IfOk, OnErr, OnOk, Some};
ghost use Rattle.tb_orders.specs.declared.ending.Ending.TheVariants.{Refused};
ghost use Rattle.tb_program.specs.declared.fault.Fault.TheVariants.{WriteFailed};
ghost use Rattle.tb_sending.specs.Replies.{asks_for_lines, ending_at, is_lines, reply_text};
ghost use Rattle.tb_values.specs.Appends.{AppendsFront};

use std::io::Write;
use tb_calls::Word;
use tb_client::Reply;
use tb_orders::Ending;
use tb_program::Fault;
use tb_values::{Text, write_whole};

pub(crate) const ACCEPTED: u16 = 200;

/// Prints the body of a reply, by which the order ends.
pub(crate) fn print_reply<W: Write>(
    writer: &mut W,
    words: &[Text],
    reply: &Reply,
) -> Result<Ending, Fault>
    ensures told { IfOk result (λ ending. (ending ≡ ending_at reply.now.status)
        × Appends (W.contents writer.old) (W.contents writer.new)
        (reply_text words.now reply.now)) }
    ensures front { OnErr result (AppendsFront (W.contents writer.old) (W.contents writer.new)
        (reply_text words.now reply.now)) }
    ensures fault { IfErr result (λ fault. fault ≡ WriteFailed) }
{
    match print_body(writer, words, reply) {
        Ok(()) => Ok(ending_at(reply.status)),
        Err(fault) => Err(fault),
    }
}

/// Prints a listing and todo.txt as they are, and any other body on a line.
fn print_body<W: Write>(writer: &mut W, words: &[Text], reply: &Reply) -> Result<(), Fault>
    ensures whole { OnOk result (Appends (W.contents writer.old) (W.contents writer.new)
        (reply_text words.now reply.now)) }
    ensures front { OnErr result (AppendsFront (W.contents writer.old) (W.contents writer.new)
        (reply_text words.now reply.now)) }
    ensures fault { IfErr result (λ fault. fault ≡ WriteFailed) }
{
    if reply.status == ACCEPTED && asks_for_lines(words) {
        print_bytes(writer, reply.body.as_slice())
    } else {
        print_bytes_line(writer, reply.body.as_slice())
    }
}

fn ending_at(status: u16) -> Ending
    ensures { result ≡ ending_at status }
{
    if status == ACCEPTED {
        Ending::Accepted
    } else {
        Ending::Refused
    }
}

/// Whether what is asked for ends its lines itself.
fn asks_for_lines(words: &[Text]) -> bool
    ensures { result ≡ asks_for_lines words.now }
{
    let [name, ..] = words else {
        return false;
    };
    match Word::read(name.as_str()) {
        Some(word) => is_lines(word),
        None => false,
    }
}

/// Whether the text that a word asks for ends its lines itself.
fn is_lines(word: Word) -> bool
    ensures { result ≡ is_lines word }
{
    match word {
        Word::List | Word::Todo => true,
        Word::Export
        | Word::Task
        | Word::Add
        | Word::Import
        | Word::ImportTodo
        | Word::Done
        | Word::Delete
        | Word::Reopen
        | Word::Start
        | Word::Stop
        | Word::Annotate
        | Word::Denotate
        | Word::Modify
        | Word::Depend
        | Word::Undepend
        | Word::Sweep
        | Word::Ahead
        | Word::Person
        | Word::Board
        | Word::Role
        | Word::OwnKey
        | Word::Key
        | Word::Take
        | Word::Title
        | Word::People
        | Word::History
        | Word::HistoryOf
        | Word::Me => false,
    }
}

/// Prints a refusal on a line, by which the order ends.
pub(crate) fn print_refusal<W: Write>(
    writer: &mut W,
    refusal: &[u8],
) -> Result<Option<Ending>, Fault>
    ensures told { IfOk result (λ end. (end ≡ Some Refused)
        × Appends (W.contents writer.old) (W.contents writer.new) (refusal.now ++ 10 ∷ [])) }
    ensures front { OnErr result (AppendsFront (W.contents writer.old) (W.contents writer.new)
        (refusal.now ++ 10 ∷ [])) }
    ensures fault { IfErr result (λ fault. fault ≡ WriteFailed) }
{
    match print_bytes_line(writer, refusal) {
        Ok(()) => Ok(Some(Ending::Refused)),
        Err(fault) => Err(fault),
    }
}

/// Prints bytes and a line feed.
fn print_bytes_line<W: Write>(writer: &mut W, bytes: &[u8]) -> Result<(), Fault>
    ensures whole { OnOk result
        (Appends (W.contents writer.old) (W.contents writer.new) (bytes.now ++ 10 ∷ [])) }
    ensures front { OnErr result
        (AppendsFront (W.contents writer.old) (W.contents writer.new) (bytes.now ++ 10 ∷ [])) }
    ensures fault { IfErr result (λ fault. fault ≡ WriteFailed) }
{
    match print_bytes(writer, bytes) {
        Ok(()) => print_bytes(writer, b"\n"),
        Err(fault) => Err(fault),
    }
}

fn print_bytes<W: Write>(writer: &mut W, bytes: &[u8]) -> Result<(), Fault>
    ensures whole { OnOk result
        (Appends (W.contents writer.old) (W.contents writer.new) bytes.now) }
    ensures front { OnErr result
        (AppendsFront (W.contents writer.old) (W.contents writer.new) bytes.now) }
    ensures fault { IfErr result (λ fault. fault ≡ WriteFailed) }
{
    match write_whole(writer, bytes) {
        Ok(()) => Ok(()),
        Err(_) => Err(Fault::WriteFailed),
    }
}
