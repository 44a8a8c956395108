//! Runs a script of lines over a desk: each is answered, in order, whatever pieces the reader gives them in.
//!
//! It owns what a line asks, the texts of the answers, and the reading loop. It stands on `tb_desk` for calls and views, on `tb_calls`
//! for words and replies, and on `tb_asking` for what bodies hold.
#![tactic(auto)]

mod again;
mod answering;
mod arguments;
mod asked;
mod body;
mod fault;
mod line_buffer;
mod line_fault;
mod reading;
mod replies;
mod watched;
mod words;

ghost use Rattle.std.specs.Prelude.{◌≡◌, ◌≢◌, ◌||◌, false, true, Err, IfOk, OnOk, OnErr, IfSome};
ghost use Rattle.std.specs.Io.KnownBytes.{Appends};
ghost use Rattle.tb_calls.specs.Call.{State};
ghost use Rattle.tb_values.specs.Appends.{AppendsFront};
ghost use Rattle.tb_script.specs.Answering.{answer, first_state};
ghost use Rattle.tb_script.specs.Fault.{is_store, is_unread, is_unwritten};
ghost use Rattle.tb_script.specs.Lines.{answers_from, lines_of};
ghost use Rattle.tb_script.specs.Runs.{LeavesSome, after_lines};
ghost use Rattle.tb_script.specs.Watching.{IsSpent};
ghost use Rattle.tb_script.specs.declared.fault.LinesFault.TheVariants.{Store};

pub use fault::LinesFault;
use line_buffer::LineBuffer;
use std::alloc::{AllocError, Global};
use std::io::{Read, Write};
use tb_board::{Key, Name};
use tb_calls::Keep;
use tb_desk::{Desk, ListKeep};
use watched::READ_LIMIT;
pub use watched::Watched;

/// Writes the answers to the reader's lines, and on a fault a front of them. The world begins with the person `root`, whose key is
/// `root-key-1` and who owns board 1. The answers to a piece that is read are written before the next one is read. It ends with
/// `ReadFailed` only where a read failed, or the script took too many, and with `WriteFailed` exactly where a write failed.
pub fn run_lines<R: Read + Drop, W: Write>(
    alloc: Global,
    reader: &mut Watched<R>,
    writer: &mut W,
) -> Result<(), LinesFault>
    ensures answers { OnOk result (IfSome reader.old.left (λ script.
        Appends (W.contents writer.old) (W.contents writer.new)
        (answers_from answer first_state script))) }
    ensures front { OnErr result (IfSome reader.old.left (λ script.
        AppendsFront (W.contents writer.old) (W.contents writer.new)
        (answers_from answer first_state script))) }
    ensures no_store { result ≢ Err Store }
    ensures unread { is_unread result ≡ true → IsSpent reader.new }
    ensures heard { reader.new.read_failed ≡ true
        → (is_unread result || reader.old.read_failed) ≡ true }
    ensures unwritten { reader.new.write_failed ≡ (is_unwritten result || reader.old.write_failed) }
{
    let mut desk = first_desk(alloc)?;
    run_lines_on(alloc, reader, writer, &mut desk)
}

/// Does the same over a desk that is handed in. On a fault the calls of some first lines stand, and what is written answers those
/// lines alone.
pub fn run_lines_on<R: Read + Drop, W: Write, K: Keep>(
    alloc: Global,
    reader: &mut Watched<R>,
    writer: &mut W,
    desk: &mut Desk<K>,
) -> Result<(), LinesFault>
    ensures answers { K.is_honest desk.new ≡ true → (s : State) → K.holds desk.old s
        → OnOk result (IfSome reader.old.left (λ script.
        Appends (W.contents writer.old) (W.contents writer.new) (answers_from answer s script))) }
    ensures left { K.is_honest desk.new ≡ true → (s : State) → K.holds desk.old s
        → OnOk result (IfSome reader.old.left (λ script.
        K.holds desk.new (after_lines s (lines_of script)))) }
    ensures front { K.is_honest desk.new ≡ true → (s : State) → K.holds desk.old s
        → OnErr result (IfSome reader.old.left (λ script.
        LeavesSome s (lines_of script) (W.contents writer.old) (W.contents writer.new)
        (K.holds desk.new))) }
    ensures honest { K.is_honest desk.new ≡ true → K.is_honest desk.old ≡ true }
    ensures failed { K.has_failed desk.new ≡ (is_store result || K.has_failed desk.old) }
    ensures unread { is_unread result ≡ true → IsSpent reader.new }
    ensures heard { reader.new.read_failed ≡ true
        → (is_unread result || reader.old.read_failed) ≡ true }
    ensures unwritten { reader.new.write_failed ≡ (is_unwritten result || reader.old.write_failed) }
{
    let mut buffer = LineBuffer::new(alloc);
    let mut chunk = [0u8; 8192];
    'reads: for _taken in 0..READ_LIMIT {
        let count = reader.read(&mut chunk)?;
        let mut output = Vec::new(alloc);
        if count == 0 {
            buffer.end_line(desk, &mut output)?;
            return reader.answer(writer, output.as_slice());
        }
        buffer.feed(desk, &chunk[..count], &mut output)?;
        reader.answer(writer, output.as_slice())?;
    }
    Err(LinesFault::ReadFailed)
}

/// The desk with which a script begins.
#[tactic(auto, unfolding(tb_board::specs::Names::is_name, tb_board::specs::Names::is_name_byte, tb_board::specs::Names::is_key))]
fn first_desk(alloc: Global) -> Result<Desk<ListKeep>, AllocError>
    ensures { IfOk result (λ desk. ⟦<ListKeep as Keep>⟧.holds desk first_state) }
{
    let Some(name) = Name::read(alloc, "root")? else {
        unreachable!();
    };
    let Some(key) = Key::read(alloc, "root-key-1")? else {
        unreachable!();
    };
    let keep = ListKeep::new(alloc, &name, &key)?;
    Ok(Desk::new(keep))
}
