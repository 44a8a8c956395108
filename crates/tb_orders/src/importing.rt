//! Imports of standard input.
ghost use Rattle.std.specs.Prelude.{◌≡◌, ◌≢◌, ◌⊎◌, ◌∷◌, [], Err, IfErr, IfOk, IsErrOf, OnErr, OnOk, true};
ghost use Rattle.std.specs.Io.KnownBytes.{Appends};
ghost use Rattle.tb_calls.specs.Call.{State, once, plain, reply};
ghost use Rattle.tb_calls.specs.Leaving.{Only, StandsAfter};
ghost use Rattle.tb_calls.specs.declared.call.Call.{Call};
ghost use Rattle.tb_orders.specs.Doing.{made_of};
ghost use Rattle.tb_orders.specs.Orders.{AsksFor, calls_made, ending_of, line_text};
ghost use Rattle.tb_orders.specs.Telling.{is_of_answers, is_of_imports};
ghost use Rattle.tb_program.specs.declared.fault.Fault.TheVariants.{BadBody, Memory, Store, WriteFailed};
ghost use Rattle.tb_values.specs.Appends.{AppendsFront};

use crate::ending::{Ending, ending_of, fault_of_keep};
use std::alloc::Global;
use std::io::Write;
use tb_asking::{Asked, CallFault, call_of};
use tb_calls::{Call, Keep, Reply};
use tb_desk::Desk;
use tb_http::Message;
use tb_program::{Fault, print_line};
use tb_task::Moment;

/// Makes the call that the same import makes over HTTP, and prints the body of its reply on a line.
pub fn import_text<K: Keep, W: Write>(
    alloc: Global,
    desk: &mut Desk<K>,
    message: &Message,
    at: Moment,
    writer: &mut W,
) -> Result<Ending, Fault>
    ensures told { K.is_honest desk.new ≡ true → (s : State) → K.holds desk.old s → (call : Call)
        → AsksFor message.now at call
        → OnOk result (Appends (W.contents writer.old) (W.contents writer.new)
        (line_text (reply s [] call))) }
    ensures front { K.is_honest desk.new ≡ true → (s : State) → K.holds desk.old s → (call : Call)
        → AsksFor message.now at call
        → OnErr result (AppendsFront (W.contents writer.old) (W.contents writer.new)
        (line_text (reply s [] call))) }
    ensures left { (s : State) → K.holds desk.old s → (call : Call) → AsksFor message.now at call
        → OnOk result (K.holds desk.new (plain s (once s (call ∷ [])))) }
    ensures held { (s : State) → K.holds desk.old s → (call : Call) → AsksFor message.now at call
        → K.holds desk.new s ⊎ K.holds desk.new (plain s (once s (call ∷ []))) }
    ensures ending { K.is_honest desk.new ≡ true → (s : State) → K.holds desk.old s → (call : Call)
        → AsksFor message.now at call
        → IfOk result (λ ending. ending ≡ ending_of (reply s [] call)) }
    ensures memory { (s : State) → K.holds desk.old s → IsErrOf result Memory → K.holds desk.new s }
    ensures written { (s : State) → K.holds desk.old s → (call : Call) → AsksFor message.now at call
        → IsErrOf result WriteFailed → K.holds desk.new (plain s (once s (call ∷ []))) }
    ensures stands { (s : State) → K.holds desk.old s → Only s (K.after_stop desk.old)
        → (call : Call) → AsksFor message.now at call
        → StandsAfter s (made_of result call) (calls_made result) (K.holds desk.new)
        (K.after_stop desk.new) }
    ensures silent { IfErr result (λ fault. fault ≢ WriteFailed → writer.new ≡ writer.old) }
    ensures unasked { ((call : Call) → AsksFor message.now at call → ⊥)
        → ((result ≡ Err BadBody) ⊎ (result ≡ Err Memory)) × (desk.new ≡ desk.old)
        × (writer.new ≡ writer.old) }
    ensures unread { IsErrOf result BadBody → (call : Call) → AsksFor message.now at call → ⊥ }
    ensures same { IsErrOf result BadBody → desk.new ≡ desk.old }
    ensures honest { K.is_honest desk.new ≡ true → K.is_honest desk.old ≡ true }
    ensures fault { IfErr result (λ fault. is_of_imports fault ≡ true) }
    ensures store { IsErrOf result Store → K.has_failed desk.new ≡ true }
{
    match call_of(alloc, message, at) {
        Ok(Asked::Call(call)) => make_call(alloc, desk, &call, writer),
        Ok(_) => Err(Fault::BadBody),
        Err(CallFault::Rejected(_)) => Err(Fault::BadBody),
        Err(CallFault::Memory) => Err(Fault::Memory),
    }
}

fn make_call<K: Keep, W: Write>(
    alloc: Global,
    desk: &mut Desk<K>,
    call: &Call,
    writer: &mut W,
) -> Result<Ending, Fault>
    ensures told { K.is_honest desk.new ≡ true → (s : State) → K.holds desk.old s
        → OnOk result (Appends (W.contents writer.old) (W.contents writer.new)
        (line_text (reply s [] call.now))) }
    ensures front { K.is_honest desk.new ≡ true → (s : State) → K.holds desk.old s
        → OnErr result (AppendsFront (W.contents writer.old) (W.contents writer.new)
        (line_text (reply s [] call.now))) }
    ensures left { (s : State) → K.holds desk.old s
        → OnOk result (K.holds desk.new (plain s (once s (call.now ∷ [])))) }
    ensures held { (s : State) → K.holds desk.old s
        → K.holds desk.new s ⊎ K.holds desk.new (plain s (once s (call.now ∷ []))) }
    ensures ending { K.is_honest desk.new ≡ true → (s : State) → K.holds desk.old s
        → IfOk result (λ ending. ending ≡ ending_of (reply s [] call.now)) }
    ensures memory { (s : State) → K.holds desk.old s → IsErrOf result Memory → K.holds desk.new s }
    ensures written { (s : State) → K.holds desk.old s → IsErrOf result WriteFailed
        → K.holds desk.new (plain s (once s (call.now ∷ []))) }
    ensures stands { (s : State) → K.holds desk.old s → Only s (K.after_stop desk.old)
        → StandsAfter s (made_of result call.now) (calls_made result) (K.holds desk.new)
        (K.after_stop desk.new) }
    ensures silent { IfErr result (λ fault. fault ≢ WriteFailed → writer.new ≡ writer.old) }
    ensures honest { K.is_honest desk.new ≡ true → K.is_honest desk.old ≡ true }
    ensures fault { IfErr result (λ fault. is_of_answers fault ≡ true) }
    ensures store { IsErrOf result Store → K.has_failed desk.new ≡ true }
{
    match desk.handle(alloc, call) {
        Ok(reply) => print_reply(writer, &reply),
        Err(fault) => Err(fault_of_keep(fault)),
    }
}

fn print_reply<W: Write>(writer: &mut W, reply: &Reply) -> Result<Ending, Fault>
    ensures told { OnOk result
        (Appends (W.contents writer.old) (W.contents writer.new) (line_text reply.now)) }
    ensures front { OnErr result
        (AppendsFront (W.contents writer.old) (W.contents writer.new) (line_text reply.now)) }
    ensures ending { IfOk result (λ ending. ending ≡ ending_of reply.now) }
    ensures fault { IfErr result (λ fault. fault ≡ WriteFailed) }
{
    print_line(writer, reply.body.as_str())?;
    Ok(ending_of(reply))
}
