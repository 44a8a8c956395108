//! The call by which the own key changes, and what its answer says.
ghost use Rattle.std.specs.Prelude.{◌≡◌, IfErr, IfOk, true};
ghost use Rattle.tb_sending.specs.Changing.{IsAsked, IsEnded, change_order, changed_body, is_changed, is_unknown};
ghost use Rattle.tb_sending.specs.Faults.{is_of_sending};
ghost use Rattle.tb_sending.specs.Folder.{IsKept};

use crate::beside::Begun;
use crate::folder::Folder;
use crate::identifier::new_id;
use crate::printing::ACCEPTED;
use crate::sending::ask_words;
use std::alloc::{AllocError, Global};
use tb_board::{Key, Name};
use tb_client::{Line, Reply, own_key_words};
use tb_command_line::SendOrder;
use tb_orders::Chance;
use tb_program::Fault;
use tb_task::TaskId;
use tb_values::{Duplicate, Text};

/// The status by which a server says that it doesn't know who asks.
const UNKNOWN: u16 = 401;

/// Asks for a change that was begun, under the old key. Where the server doesn't know that one, the change may have been made: then it is
/// asked, by a change of the new key to itself, whether it knows the new one. What it answers last says whether the change was made.
/// The folder keeps the new key before: else an order that is cut off here would lose it.
pub(crate) fn change_key<F: Folder, L: Line, G: Chance>(
    rt: &HostRuntime,
    order: &SendOrder,
    _folder: &F,
    key: &Key,
    begun: &Begun,
    line: &mut L,
    chance: &mut G,
) -> Result<Reply, Fault>
    requires kept { IsKept F.has _folder.now order.now begun.now }
    ensures ended { IfOk result
        (IsEnded L.follows order.now key.now begun.now line.old line.new) }
    ensures fault { IfErr result (λ fault. is_of_sending fault ≡ true) }
{
    let reply = ask_change(rt, order, begun.id, key, &begun.key, line)?;
    if !is_unknown(&reply) {
        return Ok(reply);
    }
    let Some(check) = new_id(chance) else {
        return Err(Fault::ReadFailed); // The machine gave no random bytes.
    };
    ask_change(rt, order, check, &begun.key, &begun.key, line)
}

/// Asks for the change from one key to another, under the first of them, until it is answered.
fn ask_change<L: Line>(
    rt: &HostRuntime,
    order: &SendOrder,
    id: TaskId,
    from: &Key,
    to: &Key,
    line: &mut L,
) -> Result<Reply, Fault>
    ensures asked { IfOk result
        (IsAsked L.follows order.now id from.now to.now line.old line.new) }
    ensures fault { IfErr result (λ fault. is_of_sending fault ≡ true) }
{
    let change = change_order(rt.alloc(), order, id, from, to)?;
    ask_words(rt, &change, line)
}

fn change_order(
    alloc: Global,
    order: &SendOrder,
    id: TaskId,
    from: &Key,
    to: &Key,
) -> Result<SendOrder, AllocError>
    ensures { IfOk result (λ change. change ≡ change_order order.now id from.now to.now) }
{
    Ok(SendOrder {
        server: order.server.duplicate()?,
        member: order.member.duplicate()?,
        key: Some(from.duplicate()?),
        id: Some(id),
        seconds: order.seconds,
        words: own_key_words(alloc, from.as_str(), to.as_str())?,
    })
}

/// Whether the key was changed. No other answer moves the new key into place, whatever its status.
pub(crate) fn is_changed(alloc: Global, member: &Name, reply: &Reply) -> Result<bool, AllocError>
    ensures { IfOk result (λ is. is ≡ is_changed member.now reply.now) }
{
    let body = changed_body(alloc, member)?;
    Ok(reply.status == ACCEPTED && reply.body.as_slice() == body.as_bytes())
}

/// The body by which a server tells whose key was changed.
pub(crate) fn changed_body(alloc: Global, member: &Name) -> Result<Text, AllocError>
    ensures { IfOk result (λ body. body ≡ changed_body member.now) }
{
    let mut body = Text::from_str(alloc, "{\"person\":\"")?;
    body.push_str(member.as_str())?;
    body.push_str("\"}")?;
    Ok(body)
}

/// Whether the server doesn't know who asks.
pub(crate) fn is_unknown(reply: &Reply) -> bool
    ensures { result ≡ is_unknown reply.now }
{
    reply.status == UNKNOWN
}
