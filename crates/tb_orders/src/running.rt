//! The import of a text in parts, a call each.
ghost use Rattle.std.specs.Prelude.{◌≡◌, ◌+◌, ◌∷◌, ◌<◌, ◌^◌, [], IfErr, IfOk, IfSome, IsErrOf, Some, length, true};
ghost use Rattle.tb_asking.specs.Asking.{asked_of};
ghost use Rattle.tb_calls.specs.Call.{State};
ghost use Rattle.tb_calls.specs.Leaving.{Only};
ghost use Rattle.tb_calls.specs.declared.call.Call.{Call};
ghost use Rattle.tb_orders.specs.Items.{IsBadBehind, end_of, item_in};
ghost use Rattle.tb_orders.specs.Orders.{AsksFor};
ghost use Rattle.tb_orders.specs.Running.{HasUnasked, IsRun, messages_behind, part_id, part_message};
ghost use Rattle.tb_orders.specs.Telling.{is_of_imports};
ghost use Rattle.tb_program.specs.declared.fault.Fault.TheVariants.{BadBody, Store};

use crate::ending::Ending;
use crate::importing::import_text;
use crate::message::message_under;
use crate::order_fault::{OrderFault, with_item};
use std::alloc::{AllocError, Global};
use std::io::Write;
use tb_calls::Keep;
use tb_command_line::ImportOrder;
use tb_desk::Desk;
use tb_http::Message;
use tb_program::Fault;
use tb_task::{Moment, TaskId};
use tb_values::{Duplicate, Items};

/// Who is told how far an import in parts is.
pub trait Progress {
    /// The part of this number, counted from 1, is begun, of so many.
    fn begin(&self, part: usize, parts: usize);
}

/// What the parts of an import share: who imports them and where to, when, and how many they are.
#[derive(Drop)]
pub(crate) struct Run<'a> {
    pub order: &'a ImportOrder,
    pub at: Moment,
    pub count: usize,
}

/// Makes the calls of parts in order, each under an identifier of its own, up to the first that isn't accepted, and prints the body of
/// each reply on a line.
#[tactic(auto, using(crate::proofs::Runs::end_run))]
pub(crate) fn import_parts<K: Keep, W: Write, P: Progress>(
    alloc: Global,
    desk: &mut Desk<K>,
    run: &Run<'_>,
    before: usize,
    parts: &[Items<u8>],
    writer: &mut W,
    progress: &P,
) -> Result<Ending, OrderFault>
    requires { before + length parts.now < 2 ^ 64 }
    ensures run { (s : State) → K.holds desk.old s → Only s (K.after_stop desk.old)
        → IsRun (messages_behind run.now.order.now before parts.entry.now) run.now.at s
        (end_of result) (K.is_honest desk.new)
        (K.holds desk.new) (K.after_stop desk.new) (W.contents writer.old) (W.contents writer.new) }
    ensures item { IfErr result
        (λ failed. IfSome failed.item
        (IsBadBehind run.now.order.now before parts.entry.now run.now.at)) }
    ensures bad { IsErrOf (end_of result) BadBody
        → HasUnasked (messages_behind run.now.order.now before parts.entry.now) run.now.at }
    ensures honest { K.is_honest desk.new ≡ true → K.is_honest desk.old ≡ true }
    ensures fault { IfErr (end_of result) (λ fault. is_of_imports fault ≡ true) }
    ensures store { IsErrOf (end_of result) Store → K.has_failed desk.new ≡ true }
{
    let Some((part, rest)) = parts.split_first() else {
        return Ok(Ending::Accepted);
    };
    progress.begin(before + 1, run.count);
    match import_part(alloc, desk, run, before + 1, part, writer) {
        Ok(Ending::Accepted) => import_parts(alloc, desk, run, before + 1, rest, writer, progress),
        Ok(Ending::Refused) => Ok(Ending::Refused),
        Err(fault) => Err(fault),
    }
}

/// Makes the call of a part.
fn import_part<K: Keep, W: Write>(
    alloc: Global,
    desk: &mut Desk<K>,
    run: &Run<'_>,
    number: usize,
    part: &Items<u8>,
    writer: &mut W,
) -> Result<Ending, OrderFault>
    ensures run { (s : State) → K.holds desk.old s → Only s (K.after_stop desk.old)
        → IsRun (part_message run.now.order.now number part.now ∷ []) run.now.at s (end_of result)
        (K.is_honest desk.new)
        (K.holds desk.new) (K.after_stop desk.new) (W.contents writer.old) (W.contents writer.new) }
    ensures item { IfErr result (λ failed. IfSome failed.item
        (λ item. item_in number
        (asked_of (part_message run.now.order.now number part.now) run.now.at) ≡ Some item)) }
    ensures bad { IsErrOf (end_of result) BadBody → (call : Call)
        → AsksFor (part_message run.now.order.now number part.now) run.now.at call → ⊥ }
    ensures honest { K.is_honest desk.new ≡ true → K.is_honest desk.old ≡ true }
    ensures fault { IfErr (end_of result) (λ fault. is_of_imports fault ≡ true) }
    ensures store { IsErrOf (end_of result) Store → K.has_failed desk.new ≡ true }
{
    match part_message(alloc, run.order, number, part) {
        Ok(message) => {
            let end = import_text(alloc, desk, &message, run.at, writer);
            with_item(alloc, end, &message, run.at, number)
        }
        Err(AllocError) => Err(OrderFault {
            fault: Fault::Memory,
            item: None,
        }),
    }
}

/// The message of a part, under the identifier of its number.
fn part_message(
    alloc: Global,
    order: &ImportOrder,
    number: usize,
    part: &Items<u8>,
) -> Result<Message, AllocError>
    ensures { IfOk result (λ message. message ≡ part_message order.now number part.now) }
{
    let id = part_id(alloc, order.id, number)?;
    let text = part.duplicate()?;
    message_under(alloc, order, id, text)
}

fn part_id(alloc: Global, id: TaskId, number: usize) -> Result<TaskId, AllocError>
    ensures { IfOk result (λ made. made ≡ part_id id number) }
{
    let mut name = String::new(alloc);
    write!(name, "{number}")?;
    Ok(TaskId::named(id, name.as_bytes()))
}
