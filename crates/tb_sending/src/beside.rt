//! What stands beside the key file while the key changes, and what is done about it before an order is sent.
ghost use Rattle.std.specs.Prelude.{◌≡◌, ◌++◌, ◌∷◌, ℕ, [], IfOk, IsSomeAnd, List, false, true};
ghost use Rattle.tb_board.specs.Names.{is_key};
ghost use Rattle.tb_sending.specs.Beside.{IsBeside, IsFound, begun_of, begun_text, owner_line, step_of, step_of_ours};

use std::alloc::{AllocError, Global};
use tb_board::Key;
use tb_command_line::SendOrder;
use tb_task::{TaskId, ids_are_read};
use tb_values::Text;

/// A change of the own key: the new key, and the identifier of its call.
#[derive(Drop)]
pub(crate) struct Begun {
    pub(crate) key: Key,
    pub(crate) id: TaskId,
}

/// What `key.new` is to an order.
#[derive(Drop)]
pub(crate) enum Beside {
    /// It isn't there.
    Nothing,
    /// A change that was begun of the order's own person, at its server.
    Ours(Begun),
    /// Of another server or person, or in no form of ours.
    Others,
}

/// What is done before an order is sent.
#[derive(Drop)]
pub(crate) enum Step {
    /// The order is sent as it is.
    Send,
    /// A new key is made and kept, and its change is sent.
    Begin,
    /// The change that was begun is sent.
    Finish(Begun),
    /// The new key is in place: that it was begun is forgotten.
    Tidy,
    /// A change of someone else isn't written over.
    Stop,
}

/// What is done before an order is sent, which may ask for another key, by the key in the file and what stands beside it.
pub(crate) fn step_of(is_change: bool, key: &Key, beside: Beside) -> Step
    ensures step { result ≡ step_of is_change key.now beside }
    ensures sent { result ≡ Step.Send → is_change ≡ false }
{
    match beside {
        Beside::Nothing if is_change => Step::Begin,
        Beside::Nothing => Step::Send,
        Beside::Ours(begun) => step_of_ours(key, begun),
        Beside::Others if is_change => Step::Stop,
        Beside::Others => Step::Send,
    }
}

/// Of the order's own change, whose key may be in place.
fn step_of_ours(key: &Key, begun: Begun) -> Step
    ensures { result ≡ step_of_ours key.now begun }
{
    if key.as_str() == begun.key.as_str() {
        Step::Tidy
    } else {
        Step::Finish(begun)
    }
}

/// What the text of `key.new` is to an order.
#[tactic(auto, using(crate::proofs::Texts::is_begun, crate::proofs::Texts::is_other))]
pub(crate) fn read_beside(
    alloc: Global,
    order: &SendOrder,
    text: &str,
) -> Result<Beside, AllocError>
    ensures { IfOk result (IsBeside order.now text.now) }
{
    let Some(begun) = read_begun(alloc, order, text)? else {
        return Ok(Beside::Others);
    };
    let written = begun_text(alloc, order, &begun)?;
    if written.as_str() == text {
        Ok(Beside::Ours(begun))
    } else {
        Ok(Beside::Others)
    }
}

/// The only change whose text this may be.
fn read_begun(alloc: Global, order: &SendOrder, text: &str) -> Result<Option<Begun>, AllocError>
    ensures { IfOk result (IsFound order.now text.now) }
{
    ids_are_read();
    let owner = owner_line(alloc, order)?;
    match around(text, owner.as_str()) {
        Some((key, id)) => begun_of(alloc, key, id),
        None => Ok(None),
    }
}

/// What stands on the line before the owner's, and on that behind it.
fn around<'a>(text: &'a str, owner: &str) -> Option<(&'a str, &'a str)>
    ensures { (key id : List ℕ) → is_key key ≡ true
        → text.now ≡ key ++ (10 ∷ (owner.now ++ (id ++ 10 ∷ [])))
        → IsSomeAnd result (λ found. (found.0.now ≡ key) × (found.1.now ≡ id)) }
{
    let (key, rest) = text.split_once('\n')?;
    let id = behind(rest, owner)?;
    Some((key, id))
}

/// The line behind the owner's.
fn behind<'a>(text: &'a str, owner: &str) -> Option<&'a str>
    ensures { (id : List ℕ) → text.now ≡ owner.now ++ (id ++ 10 ∷ [])
        → IsSomeAnd result (λ found. found.now ≡ id) }
{
    let rest = text.strip_prefix(owner)?;
    rest.strip_suffix('\n')
}

/// The change of the key and the identifier that two texts are.
fn begun_of(alloc: Global, key: &str, id: &str) -> Result<Option<Begun>, AllocError>
    ensures { IfOk result (λ found. found ≡ begun_of key.now id.now) }
{
    let Some(id) = TaskId::read(id) else {
        return Ok(None);
    };
    match Key::read(alloc, key)? {
        Some(key) => Ok(Some(Begun { key, id })),
        None => Ok(None),
    }
}

/// The text of `key.new`: the new key, the server and the person, and the identifier of the call, each on a line.
pub(crate) fn begun_text(
    alloc: Global,
    order: &SendOrder,
    begun: &Begun,
) -> Result<Text, AllocError>
    ensures { IfOk result (λ text. text ≡ begun_text order.now begun.now) }
{
    let key = begun.key.as_str();
    let server = order.server.as_str();
    let member = order.member.as_str();
    let id = begun.id.text(alloc)?;
    let id = id.as_str();
    let mut text = String::new(alloc);
    write!(text, "{key}\n{server} {member}\n{id}\n")?;
    Ok(Text::from_string(text))
}

/// The line of that text that says whose key changes.
fn owner_line(alloc: Global, order: &SendOrder) -> Result<Text, AllocError>
    ensures { IfOk result (λ line. line ≡ owner_line order.now) }
{
    let server = order.server.as_str();
    let member = order.member.as_str();
    let mut line = String::new(alloc);
    write!(line, "{server} {member}\n")?;
    Ok(Text::from_string(line))
}
