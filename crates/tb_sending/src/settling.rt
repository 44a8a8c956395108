//! A change of the own key, which is settled before an order is sent.
ghost use Rattle.std.specs.Io.KnownBytes.{Appends};
ghost use Rattle.std.specs.Prelude.{◌≡◌, ◌++◌, ◌∷◌, [], IfErr, IfNone, IfOk, IfSome, false, true};
ghost use Rattle.tb_orders.specs.declared.ending.Ending.TheVariants.{Accepted};
ghost use Rattle.tb_sending.specs.Beside.{IsNewChange, new_change};
ghost use Rattle.tb_sending.specs.Changing.{EndsBefore, IsSettled, IsUnsettled, asks_for_key, changed_body};
ghost use Rattle.tb_sending.specs.Faults.{is_of_sending};
ghost use Rattle.tb_sending.specs.Folder.{IsKept, IsUnbegun, new_name};

use crate::beside::{Begun, Step, step_of};
use crate::changing::{change_key, changed_body, is_changed, is_unknown};
use crate::folder::{Folder, beside_in, forget, has_no_change, keep, key_in, put_in_place};
use crate::identifier::new_id;
use crate::key::folder_of;
use crate::printing::print_refusal;
use std::alloc::{AllocError, Global};
use std::io::Write;
use tb_board::Key;
use tb_client::{Line, Reply, is_own_key_alone};
use tb_command_line::SendOrder;
use tb_orders::{Chance, Ending};
use tb_program::{Fault, print_line};
use tb_task::TaskId;

const UNKNOWN: &str =
    "taskboard: The server knows you neither by the key in ~/.config/taskboard/key nor by the new one in key.new beside it. Both files are as they were. Have the first person give you a key, write it into key, and remove key.new.";

const REFUSED: &str =
    "taskboard: The server didn't change the key. ~/.config/taskboard/key is as it was, and the new key is still in key.new beside it. Try again, or remove key.new to go on without the change.";

/// Makes the change that an order asks for, or one that was begun before. None where the order is to be sent now.
pub(crate) fn settle<L: Line, G: Chance, W: Write>(
    rt: &HostRuntime,
    order: &SendOrder,
    line: &mut L,
    chance: &mut G,
    writer: &mut W,
) -> Result<Option<Ending>, Fault>
    ensures settled { IfOk result
        (λ end. IfNone end (IsSettled L.follows order.now line.old line.new)) }
    ensures still { IfOk result (λ end. IfNone end (writer.new ≡ writer.old)) }
    ensures ended { IfOk result (λ end. IfSome end (EndsBefore L.follows W.contents order.now
        line.old line.new writer.old writer.new)) }
    ensures unsettled { IfErr result
        (IsUnsettled W.contents writer.old writer.new) }
    ensures fault { IfErr result (λ fault. is_of_sending fault ≡ true) }
{
    match folder_of(rt, order) {
        Some(mut folder) => settle_in(rt, order, &mut folder, line, chance, writer),
        None if asks_for_key(order) => Err(Fault::NoKey),
        None => Ok(None),
    }
}

/// The same over the folder of the key file. The order is sent only where no change of its own is begun there.
fn settle_in<F: Folder, L: Line, G: Chance, W: Write>(
    rt: &HostRuntime,
    order: &SendOrder,
    folder: &mut F,
    line: &mut L,
    chance: &mut G,
    writer: &mut W,
) -> Result<Option<Ending>, Fault>
    ensures unbegun { IfOk result
        (λ end. IfNone end (IsUnbegun F.has F.lacks folder.new order.now)) }
    ensures settled { IfOk result
        (λ end. IfNone end (IsSettled L.follows order.now line.old line.new)) }
    ensures still { IfOk result (λ end. IfNone end (writer.new ≡ writer.old)) }
    ensures ended { IfOk result (λ end. IfSome end (EndsBefore L.follows W.contents order.now
        line.old line.new writer.old writer.new)) }
    ensures unsettled { IfErr result
        (IsUnsettled W.contents writer.old writer.new) }
    ensures fault { IfErr result (λ fault. is_of_sending fault ≡ true) }
{
    let is_change = asks_for_key(order);
    if !is_change && has_no_change(folder) {
        return Ok(None);
    }
    folder.hold();
    let Some(key) = key_in(rt.alloc(), folder)? else {
        return Err(Fault::NoKey);
    };
    let beside = beside_in(rt.alloc(), folder, order)?;
    match step_of(is_change, &key, beside) {
        Step::Send => Ok(None),
        Step::Stop => Err(Fault::Store),
        Step::Begin => {
            let begun = begin(rt, order, &key, folder, chance)?;
            finish(rt, order, folder, &key, &begun, line, chance, writer)
        }
        Step::Finish(begun) => finish(rt, order, folder, &key, &begun, line, chance, writer),
        Step::Tidy => {
            forget(folder)?;
            end_changed(rt, order, writer)
        }
    }
}

/// Makes a new key, and keeps its change beside the key file before it is sent.
fn begin<F: Folder, G: Chance>(
    rt: &HostRuntime,
    order: &SendOrder,
    key: &Key,
    folder: &mut F,
    chance: &mut G,
) -> Result<Begun, Fault>
    ensures kept { IfOk result (λ begun. IsKept F.has folder.new order.now begun) }
    ensures begun { IfOk result (IsNewChange G.gives chance.old chance.new order.now key.now) }
    ensures fault { IfErr result (λ fault. is_of_sending fault ≡ true) }
{
    let (Some(id), Some(random)) = (order.id, new_id(chance)) else {
        return Err(Fault::ReadFailed); // The machine gave no random bytes.
    };
    let Some(begun) = new_change(rt.alloc(), id, random, key)? else {
        return Err(Fault::ReadFailed); // Never: the machine's random bytes made the old key again.
    };
    keep(rt.alloc(), folder, order, &begun)?;
    Ok(begun)
}

/// The change to the key of the characters of a random identifier, unless that is the old one.
fn new_change(
    alloc: Global,
    id: TaskId,
    random: TaskId,
    old: &Key,
) -> Result<Option<Begun>, AllocError>
    ensures { IfOk result (λ begun. begun ≡ new_change id random old.now) }
{
    let text = random.text(alloc)?;
    if text.as_str() == old.as_str() {
        return Ok(None);
    }
    match Key::read(alloc, text.as_str())? {
        Some(key) => Ok(Some(Begun { key, id })),
        None => Ok(None), // Never: 36 digits and hyphens are a key.
    }
}

/// Sends a change that was begun, and moves the new key into place where it is accepted; then the order is to be sent, unless it asked
/// for the change. A refusal ends the order, and leaves both files.
fn finish<F: Folder, L: Line, G: Chance, W: Write>(
    rt: &HostRuntime,
    order: &SendOrder,
    folder: &mut F,
    key: &Key,
    begun: &Begun,
    line: &mut L,
    chance: &mut G,
    writer: &mut W,
) -> Result<Option<Ending>, Fault>
    requires kept { IsKept F.has folder.old order.now begun.now }
    ensures forgotten { IfOk result (λ end. IfNone end (F.lacks folder.new new_name)) }
    ensures settled { IfOk result
        (λ end. IfNone end (IsSettled L.follows order.now line.old line.new)) }
    ensures still { IfOk result (λ end. IfNone end (writer.new ≡ writer.old)) }
    ensures ended { IfOk result (λ end. IfSome end (EndsBefore L.follows W.contents order.now
        line.old line.new writer.old writer.new)) }
    ensures unsettled { IfErr result
        (IsUnsettled W.contents writer.old writer.new) }
    ensures fault { IfErr result (λ fault. is_of_sending fault ≡ true) }
{
    let reply = change_key(rt, order, &*folder, key, begun, line, chance)?;
    if is_changed(rt.alloc(), &order.member, &reply)? {
        put_in_place(rt.alloc(), folder, order, begun, &reply)?;
        end_changed(rt, order, writer)
    } else {
        let _ = print_line(&mut rt.stderr(), refusal_text(&reply));
        print_refusal(writer, reply.body.as_slice())
    }
}

/// Ends an order that asked for the change, which is made: its body is printed, as the server answered it.
fn end_changed<W: Write>(
    rt: &HostRuntime,
    order: &SendOrder,
    writer: &mut W,
) -> Result<Option<Ending>, Fault>
    ensures other { IfOk result (λ end. IfNone end
        ((asks_for_key order.now.key order.now.words ≡ false) × (writer.new ≡ writer.old))) }
    ensures told { IfOk result (λ end. IfSome end (λ ending. (ending ≡ Accepted)
        × (asks_for_key order.now.key order.now.words ≡ true)
        × Appends (W.contents writer.old) (W.contents writer.new)
        (changed_body order.now.member ++ 10 ∷ []))) }
    ensures unsettled { IfErr result (IsUnsettled W.contents writer.old writer.new) }
    ensures fault { IfErr result (λ fault. is_of_sending fault ≡ true) }
{
    if !asks_for_key(order) {
        return Ok(None);
    }
    let body = changed_body(rt.alloc(), &order.member)?;
    match print_line(writer, body.as_str()) {
        Ok(()) => Ok(Some(Ending::Accepted)),
        Err(fault) => Err(fault),
    }
}

/// Whether an order asks for another key, which is made, for one that is kept elsewhere.
fn asks_for_key(order: &SendOrder) -> bool
    ensures { result ≡ asks_for_key order.now.key order.now.words }
{
    order.key.is_none() && is_own_key_alone(order.words.as_slice())
}

/// What became of the keys, and what to do, where the change isn't made.
fn refusal_text(reply: &Reply) -> &'static str {
    if is_unknown(reply) { UNKNOWN } else { REFUSED }
}
