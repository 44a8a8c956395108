//! The tasks of a board in place of their places among the words of an order.
ghost use Rattle.std.specs.Fmt.{AppendsText};
ghost use Rattle.std.specs.Io.KnownBytes.{Appends};
ghost use Rattle.std.specs.Prelude.{◌≡◌, IfErr, IfNone, IfOk, IfSome, OnErr, OnOk, option_copied, true};
ghost use Rattle.std.specs.String.{string_bytes};
ghost use Rattle.tb_client.specs.Places.{task_at};
ghost use Rattle.tb_orders.specs.Faults.{is_of_printing};
ghost use Rattle.tb_sending.specs.Places.{IsNamedBy, IsRefused, IsUnread, place_line, places_text};
ghost use Rattle.tb_values.specs.Appends.{AppendsFront};

use crate::printing::{ACCEPTED, print_refusal};
use std::alloc::{AllocError, Global};
use std::io::Write;
use tb_client::{BoardTask, Reply, named_words, read_tasks, task_at};
use tb_command_line::SendOrder;
use tb_orders::Ending;
use tb_program::{Fault, print_text};
use tb_values::{Items, Text};

/// The body by which a server refuses a call to a task that isn't there.
const NO_TASK: &str = "{\"name\":\"NoTask\",\"refused\":5}";

/// Puts the identifiers of the tasks that a reply tells in place of their places, and tells on standard error which tasks they are.
/// A refusal, and a board that has no such task, end the order.
pub(crate) fn take_reply<W: Write>(
    rt: &HostRuntime,
    order: &mut SendOrder,
    places: &[u32],
    reply: &Reply,
    writer: &mut W,
) -> Result<Option<Ending>, Fault>
    ensures named { IfOk result (λ end. IfNone end (IsNamedBy reply.now order.old order.new)) }
    ensures still { IfOk result (λ end. IfNone end (writer.new ≡ writer.old)) }
    ensures refused { IfOk result (λ end. IfSome end
        (IsRefused W.contents order.old.words reply.now writer.old writer.new)) }
    ensures same { IfOk result (λ end. IfSome end (λ ending. order.new ≡ order.old)) }
    ensures unread { IfErr result
        (IsUnread W.contents order.old.words reply.now writer.old writer.new) }
    ensures kept { OnErr result (order.new ≡ order.old) }
{
    if reply.status != ACCEPTED {
        return print_refusal(writer, reply.body.as_slice());
    }
    let Some(tasks) = read_tasks(rt.alloc(), reply.body.as_slice())? else {
        return Err(Fault::NoAnswer); // What came is no board.
    };
    let Some(words) = named_words(rt.alloc(), &tasks, order.words.as_slice())? else {
        return print_refusal(writer, NO_TASK.as_bytes());
    };
    let _ = tell_tasks(rt.alloc(), places, &tasks, &mut rt.stderr());
    order.words = words;
    Ok(None)
}

/// Tells which tasks are on the places, each on a line.
fn tell_tasks<W: Write>(
    alloc: Global,
    places: &[u32],
    tasks: &Items<BoardTask>,
    writer: &mut W,
) -> Result<(), Fault>
    ensures whole { OnOk result (IfSome (places_text tasks.now places.now)
        (Appends (W.contents writer.old) (W.contents writer.new))) }
    ensures front { OnErr result (IfSome (places_text tasks.now places.now)
        (AppendsFront (W.contents writer.old) (W.contents writer.new))) }
    ensures fault { IfErr result (λ fault. is_of_printing fault ≡ true) }
{
    match places_text(alloc, places, tasks) {
        Ok(text) => print_text(writer, text.as_str()),
        Err(_) => Err(Fault::Memory),
    }
}

fn places_text(alloc: Global, places: &[u32], tasks: &Items<BoardTask>) -> Result<Text, AllocError>
    ensures { IfOk result (λ text. IfSome (places_text tasks.now places.now) (λ all. text ≡ all)) }
{
    let mut text = String::new(alloc);
    for place in places {
        push_place(&mut text, *place, task_at(tasks, *place))?;
    }
    Ok(Text::from_string(text))
}

/// Puts the line of a place at the end, if there is a task on it.
fn push_place(text: &mut String, place: u32, task: Option<&BoardTask>) -> Result<(), AllocError>
    ensures { OnOk result (AppendsText (string_bytes text.old) (string_bytes text.new)
        (place_line place (option_copied task.entry))) }
{
    let Some(task) = task else {
        return Ok(());
    };
    let description = task.description.as_str();
    writeln!(text, "taskboard: {place} is {description:?}")
}
