//! The import of an input, whole.
ghost use Rattle.std.specs.Prelude.{◌≡◌, ◌≢◌, ◌∷◌, [], ℕ, List, IfErr, IfOk, IfSome, IsErrOf, None, Some, true};
ghost use Rattle.tb_calls.specs.Call.{State};
ghost use Rattle.tb_calls.specs.Leaving.{Only};
ghost use Rattle.tb_orders.specs.Doing.{Does};
ghost use Rattle.tb_orders.specs.Input.{IsBadText, IsMade};
ghost use Rattle.tb_orders.specs.Items.{IsBadIn, end_of};
ghost use Rattle.tb_orders.specs.Message.{message_of};
ghost use Rattle.tb_orders.specs.Moments.{GaveOne};
ghost use Rattle.tb_orders.specs.Telling.{is_of_inputs, is_of_messages};
ghost use Rattle.tb_program.specs.declared.fault.Fault.TheVariants.{BadBody, Memory, NoClock, ReadFailed, Store, WriteFailed};
ghost use Rattle.tb_script.specs.Watching.{IsSpent};

use crate::ending::Ending;
use crate::importing::import_text;
use crate::message::import_message;
use crate::order_fault::{OrderFault, with_item};
use crate::reading::read_text;
use std::alloc::Global;
use std::io::{Read, Write};
use tb_calls::Keep;
use tb_command_line::ImportOrder;
use tb_desk::Desk;
use tb_http::Message;
use tb_program::{Clock, Fault};
use tb_script::Watched;
use tb_task::Moment;

/// The message of an import, and the moment after its text was read.
#[derive(Drop)]
struct Arrived {
    message: Message,
    at: Moment,
}

/// Reads the text of an import, makes the call that the same import makes over HTTP, and prints the body of its reply on a line.
pub fn import_input<K: Keep, R: Read + Drop, C: Clock, W: Write>(
    alloc: Global,
    desk: &mut Desk<K>,
    order: &ImportOrder,
    reader: &mut Watched<R>,
    clock: &mut C,
    writer: &mut W,
) -> Result<Ending, OrderFault>
    ensures made { (s : State) → K.holds desk.old s
        → IfOk (end_of result) (IsMade (GaveOne C.gives clock.old clock.new)
        order.now (reader.old.left) s
        (K.is_honest desk.new) (K.holds desk.new) (W.contents writer.old) (W.contents writer.new)) }
    ensures memory { (s : State) → K.holds desk.old s → IsErrOf (end_of result) Memory
        → K.holds desk.new s }
    ensures does { (s : State) → K.holds desk.old s → Only s (K.after_stop desk.old)
        → Does (GaveOne C.gives clock.old clock.new) order.now (reader.old.left) s
        (end_of result) (K.is_honest desk.new) (K.holds desk.new) (K.after_stop desk.new)
        (W.contents writer.old) (W.contents writer.new) }
    ensures silent { IfErr (end_of result)
        (λ fault. fault ≢ WriteFailed → writer.new ≡ writer.old) }
    ensures timeless { IsErrOf (end_of result) NoClock → C.gives (None ∷ []) clock.old clock.new }
    ensures item { IfErr result
        (λ failed. IfSome failed.item (IsBadIn order.now (reader.old.left))) }
    ensures bad { IsErrOf (end_of result) BadBody
        → IfSome (reader.old.left) (IsBadText order.now) }
    ensures spent { IsErrOf (end_of result) ReadFailed → IsSpent reader.new }
    ensures fault { IfErr (end_of result) (λ fault. is_of_inputs fault ≡ true) }
    ensures store { IsErrOf (end_of result) Store → K.has_failed desk.new ≡ true }
{
    match read_message(alloc, order, reader, clock) {
        Ok(arrived) => {
            let end = import_text(alloc, desk, &arrived.message, arrived.at, writer);
            with_item(alloc, end, &arrived.message, arrived.at, 1)
        }
        Err(fault) => Err(OrderFault { fault, item: None }),
    }
}

fn read_message<R: Read + Drop, C: Clock>(
    alloc: Global,
    order: &ImportOrder,
    reader: &mut Watched<R>,
    clock: &mut C,
) -> Result<Arrived, Fault>
    ensures read { IfOk result
        (λ arrived. (text : List ℕ) × IfSome (reader.old.left) (λ all. text ≡ all)
        × (arrived.message ≡ message_of order.now text)
        × C.gives (Some arrived.at ∷ []) clock.old clock.new) }
    ensures timeless { IsErrOf result NoClock → C.gives (None ∷ []) clock.old clock.new }
    ensures bad { IsErrOf result BadBody → IfSome (reader.old.left) (IsBadText order.now) }
    ensures spent { IsErrOf result ReadFailed → IsSpent reader.new }
    ensures fault { IfErr result (λ fault. is_of_messages fault ≡ true) }
{
    let text = read_text(alloc, reader)?;
    let Some(at) = clock.now() else {
        return Err(Fault::NoClock);
    };
    let message = import_message(alloc, order, text)?;
    Ok(Arrived { message, at })
}
