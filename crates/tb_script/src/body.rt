//! The arguments of a line that hold more than a word: JSON, and lines.
ghost use Rattle.std.specs.Prelude.{◌≡◌, IfOk, Result, map, string_bytes};
ghost use Rattle.tb_asking.specs.BodyFault.{Reads as ReadsBody};
ghost use Rattle.tb_asking.specs.declared.body_fault.BadBody.{BadBody};
ghost use Rattle.tb_script.specs.Body.{edits_in, import_in, incoming_in, joined, or_unreadable, tasks_in};
ghost use Rattle.tb_script.specs.Outcome.{Reads};

use crate::line_fault::{LineFault, Unreadable};
use std::alloc::{AllocError, Global};
use tb_asking::BodyFault;
use tb_task::{Edit, Incoming, Moment, Task};
use tb_values::Items;

/// The task that a text is when it comes in at a moment.
pub(crate) fn read_incoming(alloc: Global, text: &str, at: Moment) -> Result<Incoming, LineFault>
    ensures { Reads result (incoming_in text.now at) }
{
    or_line_fault(tb_asking::read_incoming(alloc, text, at))
}

/// The edits that a text asks for.
pub(crate) fn read_edits(alloc: Global, text: &str) -> Result<Items<Edit>, LineFault>
    ensures { Reads result (edits_in text.now) }
{
    or_line_fault(tb_asking::read_edits(alloc, text))
}

/// The tasks of an import's text at a moment.
pub(crate) fn read_imported(
    alloc: Global,
    text: &str,
    at: Moment,
) -> Result<Items<Incoming>, LineFault>
    ensures { Reads result (import_in text.now at) }
{
    or_line_fault(tb_asking::read_imported(alloc, text, at))
}

/// The tasks that lines make on a board at a moment.
pub(crate) fn read_tasks(
    alloc: Global,
    lines: &[&str],
    at: Moment,
    board: u32,
) -> Result<Items<Task>, LineFault>
    ensures { Reads result (tasks_in (map (λ line. line.now) lines.now) at board) }
{
    let text = join_lines(alloc, lines)?;
    or_line_fault(tb_asking::read_todo(alloc, text.as_str(), at, board))
}

/// A line whose body can't be taken can't be read.
fn or_line_fault<T: Drop>(read: Result<T, BodyFault>) -> Result<T, LineFault>
    ensures { (expected : Result T BadBody) → ReadsBody read expected
        → Reads result (or_unreadable expected) }
{
    match read {
        Ok(body) => Ok(body),
        Err(BodyFault::Refused(fault)) => Err(LineFault::Refused(Unreadable::BadBody(fault))),
        Err(BodyFault::Memory) => Err(LineFault::Memory),
    }
}

/// The lines with a line feed between each two.
fn join_lines(alloc: Global, lines: &[&str]) -> Result<String, AllocError>
    ensures { IfOk result (λ text. string_bytes text ≡ joined (map (λ line. line.now) lines.now)) }
{
    lines.join(alloc, "\n")
}
