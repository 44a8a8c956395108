//! The import of an input that is longer than one call takes.
ghost use Rattle.std.specs.Prelude.{◌≡◌, ◌∷◌, [], ℕ, List, None, Some, IfErr, IfOk, IfSome, IsErrOf, true};
ghost use Rattle.tb_calls.specs.Call.{State};
ghost use Rattle.tb_calls.specs.Leaving.{Only};
ghost use Rattle.tb_orders.specs.Doing.{is_unread};
ghost use Rattle.tb_orders.specs.Items.{IsBadAmong, end_of};
ghost use Rattle.tb_orders.specs.Lists.{IsCut};
ghost use Rattle.tb_orders.specs.Moments.{GaveOne};
ghost use Rattle.tb_orders.specs.Running.{IsBadWhole, IsRunOf};
ghost use Rattle.tb_orders.specs.Telling.{is_of_inputs, is_of_messages};
ghost use Rattle.tb_program.specs.declared.fault.Fault.TheVariants.{BadBody, NoClock, ReadFailed, Store};
ghost use Rattle.tb_script.specs.Watching.{IsSpent};

use crate::ending::Ending;
use crate::lists::parts_of;
use crate::order_fault::OrderFault;
use crate::reading::read_all;
use crate::running::{Progress, Run, import_parts};
use std::alloc::Global;
use std::io::{Read, Write};
use tb_calls::Keep;
use tb_command_line::ImportOrder;
use tb_desk::Desk;
use tb_program::{Clock, Fault};
use tb_script::Watched;
use tb_task::Moment;
use tb_values::Items;

/// The parts of a text, and the moment after it was read.
#[derive(Drop)]
struct Arrived {
    parts: Vec<Items<u8>>,
    at: Moment,
}

/// Reads the text of an import, cuts it into parts, and makes the call of each, up to the first that isn't accepted; prints the body of
/// each reply on a line.
pub fn import_all<K: Keep, R: Read + Drop, C: Clock, W: Write>(
    alloc: Global,
    desk: &mut Desk<K>,
    order: &ImportOrder,
    reader: &mut Watched<R>,
    clock: &mut C,
    writer: &mut W,
    progress: &impl Progress,
) -> Result<Ending, OrderFault>
    ensures run { (s : State) → K.holds desk.old s → Only s (K.after_stop desk.old)
        → IsRunOf (GaveOne C.gives clock.old clock.new) order.now (reader.old.left) s
        (end_of result) (K.is_honest desk.new) (K.holds desk.new) (K.after_stop desk.new)
        (W.contents writer.old) (W.contents writer.new) }
    ensures unread { IfErr (end_of result) (λ fault. is_unread fault ≡ true
        → (desk.new ≡ desk.old) × (writer.new ≡ writer.old)) }
    ensures timeless { IsErrOf (end_of result) NoClock → C.gives (None ∷ []) clock.old clock.new }
    ensures item { IfErr result
        (λ failed. IfSome failed.item (IsBadAmong order.now (reader.old.left))) }
    ensures bad { IsErrOf (end_of result) BadBody
        → IfSome (reader.old.left) (IsBadWhole order.now) }
    ensures spent { IsErrOf (end_of result) ReadFailed → IsSpent reader.new }
    ensures fault { IfErr (end_of result) (λ fault. is_of_inputs fault ≡ true) }
    ensures store { IsErrOf (end_of result) Store → K.has_failed desk.new ≡ true }
{
    match read_parts(alloc, order, reader, clock) {
        Ok(arrived) => {
            let parts = arrived.parts.as_slice();
            let run = Run {
                order,
                at: arrived.at,
                count: parts.len(),
            };
            import_parts(alloc, desk, &run, 0, parts, writer, progress)
        }
        Err(fault) => Err(OrderFault { fault, item: None }),
    }
}

fn read_parts<R: Read + Drop, C: Clock>(
    alloc: Global,
    order: &ImportOrder,
    reader: &mut Watched<R>,
    clock: &mut C,
) -> Result<Arrived, Fault>
    ensures read { IfOk result
        (λ arrived. (text : List ℕ) × IfSome (reader.old.left) (λ all. text ≡ all)
        × IsCut order.now.kind text (Some arrived.parts.items)
        × C.gives (Some arrived.at ∷ []) clock.old clock.new) }
    ensures timeless { IsErrOf result NoClock → C.gives (None ∷ []) clock.old clock.new }
    ensures bad { IsErrOf result BadBody
        → IfSome (reader.old.left) (λ text. IsCut order.now.kind text None) }
    ensures spent { IsErrOf result ReadFailed → IsSpent reader.new }
    ensures fault { IfErr result (λ fault. is_of_messages fault ≡ true) }
{
    let text = read_all(alloc, reader)?;
    let Some(at) = clock.now() else {
        return Err(Fault::NoClock);
    };
    match parts_of(alloc, order.kind, text)? {
        Some(parts) => Ok(Arrived { parts, at }),
        None => Err(Fault::BadBody),
    }
}
