//! A task that is added, and its number.
ghost use Rattle.std.specs.Prelude.{◌≡◌, ◌∷◌, ◌++◌, [], IfErr, IfOk, List, OnOk, option_and_then, true};
ghost use Rattle.std.specs.Io.KnownBytes.{Appends};
ghost use Rattle.tb_mine.specs.Asked.{Asked, IsAdded, number_in};
ghost use Rattle.tb_mine.specs.Faults.{is_of_asking};
ghost use Rattle.tb_my.specs.Telling.{added_text};

use crate::asks::Asks;
use crate::context::Context;
use crate::listing::look_at;
use crate::telling::{refused, text_in};
use std::alloc::Global;
use std::io::Write;
use tb_my::{Sent, added_text, number_of_task, read_seen};
use tb_program::{Fault, print_line};
use tb_task::TaskId;
use tb_values::{Duplicate, Items};

/// Asks for a new task, and prints it with its number, for which the board is looked at. Where that look has no answer, the task is there
/// all the same, and is told without a number.
pub(crate) fn ask_added<A: Asks, W: Write, E: Write>(
    alloc: Global,
    asks: &mut A,
    context: &Context,
    sent: &Sent,
    id: TaskId,
    writer: &mut W,
    errors: &mut E,
) -> Result<bool, Fault>
    ensures asked { IfOk result (λ is_accepted. (asked : List Asked)
        × A.follows asked asks.old asks.new
        × IsAdded context.now sent.now id
        asked (W.contents writer.old) (W.contents writer.new) is_accepted) }
    ensures fault { IfErr result (λ fault. is_of_asking fault ≡ true) }
{
    let answer = asks.ask(sent.words.duplicate()?, sent.call)?;
    if !answer.is_accepted {
        refused(alloc, &answer, errors)?;
        return Ok(false);
    }
    asks.keep(sent)?;
    match look_at(alloc, asks, &context.board, errors) {
        Ok(export) => {
            tell_number(alloc, sent, id, &export, writer)?;
            Ok(true)
        }
        Err(fault) => {
            let _ = print_line(writer, sent.told.as_str());
            Err(fault)
        }
    }
}

fn tell_number<W: Write>(
    alloc: Global,
    sent: &Sent,
    id: TaskId,
    export: &Option<Items<u8>>,
    writer: &mut W,
) -> Result<(), Fault>
    ensures told { OnOk result (Appends (W.contents writer.old) (W.contents writer.new)
        (added_text sent.now.told (number_in id export.now) ++ 10 ∷ [])) }
    ensures fault { IfErr result (λ fault. is_of_asking fault ≡ true) }
{
    let number = number_in(alloc, id, export)?;
    let told = added_text(alloc, sent.told.as_str(), number)?;
    print_line(writer, told.as_str())
}

/// The number of a task among those of an export, if it is one.
fn number_in(alloc: Global, id: TaskId, export: &Option<Items<u8>>) -> Result<Option<usize>, Fault>
    ensures number { IfOk result (λ number. number ≡ number_in id export.now) }
    ensures fault { IfErr result (λ fault. is_of_asking fault ≡ true) }
{
    let Some(export) = export else {
        return Ok(None);
    };
    match read_seen(alloc, text_in(export)?)? {
        Some(tasks) => Ok(number_of_task(tasks.as_slice(), id)),
        None => Ok(None),
    }
}
