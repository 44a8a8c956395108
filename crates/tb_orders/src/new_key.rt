//! The new key that an order is about: read, or made of random bytes.
ghost use Rattle.std.specs.Prelude.{◌≡◌, ◌∷◌, [], ℕ, IfErr, IfOk, IsErrOf, List, None, Option, Some, false, true};
ghost use Rattle.tb_orders.specs.Moments.{GaveOne};
ghost use Rattle.tb_orders.specs.NewKey.{HasDrawn, HasDrawnBoth, IsAsked, IsKeyFor, IsMadeKey, IsUnkeyed, first_line, is_of_new_keys, key_in, made_key, new_key};
ghost use Rattle.tb_program.specs.declared.fault.Fault.TheVariants.{NoClock};

use crate::chance::Chance;
use crate::identifier::random_id;
use std::alloc::{AllocError, Global};
use std::io::Read;
use tb_asking::read_text as text_of;
use tb_board::{Key, Name};
use tb_command_line::KeyOrder;
use tb_program::{Clock, Fault, read_text};
use tb_task::{Moment, TaskId};
use tb_values::{Duplicate, Items};

/// A new key of the person of a name, and the identifier and the moment of the call that gives it.
#[derive(Drop)]
pub struct NewKey {
    pub name: Name,
    pub key: Key,
    /// Nobody knows the key until it is printed.
    pub is_made: bool,
    pub id: TaskId,
    pub at: Moment,
}

/// What an order asks for. A key that isn't read is made of bytes that are drawn, and others make the identifier of its call, whose
/// moment is the clock's. Errors: `NoKey` where the first line of the reader is no key, `ReadFailed` where the reader fails or there are
/// no random bytes, `NoClock` and `Memory`.
pub fn new_key_of<R: Read + Drop, G: Chance, C: Clock>(
    alloc: Global,
    order: &KeyOrder,
    reader: R,
    chance: &mut G,
    clock: &mut C,
) -> Result<NewKey, Fault>
    ensures asked { IfOk result (IsAsked (HasDrawnBoth G.gives chance.old chance.new)
        (GaveOne C.gives clock.old clock.new) order.now (R.remaining reader)) }
    ensures timeless { IsErrOf result NoClock → C.gives (None ∷ []) clock.old clock.new }
    ensures unkeyed { IfErr result
        (λ fault. IsUnkeyed fault order.now.is_read (R.remaining reader)) }
    ensures fault { IfErr result (λ fault. is_of_new_keys fault ≡ true) }
{
    let key = key_for(alloc, order.is_read, reader, chance)?;
    let Some(drawn) = chance.draw() else {
        return Err(Fault::ReadFailed);
    };
    let Some(at) = clock.now() else {
        return Err(Fault::NoClock);
    };
    Ok(new_key(alloc, order, key, drawn, at)?)
}

/// The key of an order, the identifier of the bytes that were drawn for it, and the moment.
fn new_key(
    alloc: Global,
    order: &KeyOrder,
    key: Key,
    drawn: [u8; 16],
    at: Moment,
) -> Result<NewKey, AllocError>
    ensures { IfOk result (λ asked. asked ≡ new_key order.now key drawn at) }
{
    let name = order.name.duplicate()?;
    Ok(NewKey {
        name,
        key,
        is_made: !order.is_read,
        id: random_id(drawn),
        at,
    })
}

fn key_for<R: Read + Drop, G: Chance>(
    alloc: Global,
    is_read: bool,
    reader: R,
    chance: &mut G,
) -> Result<Key, Fault>
    ensures key { IfOk result (λ key. (drawn : Option (List ℕ))
        × HasDrawn G.gives drawn chance.old chance.new
        × IsKeyFor is_read drawn (R.remaining reader) key) }
    ensures unkeyed { IfErr result (λ fault. IsUnkeyed fault is_read (R.remaining reader)) }
    ensures timeless { IsErrOf result NoClock → ⊥ }
    ensures fault { IfErr result (λ fault. is_of_new_keys fault ≡ true) }
{
    if is_read {
        read_key(alloc, reader)
    } else {
        make_key(alloc, chance)
    }
}

/// The key that the first line of a reader is.
fn read_key<R: Read + Drop>(alloc: Global, reader: R) -> Result<Key, Fault>
    ensures key { IfOk result (IsKeyFor true None (R.remaining reader)) }
    ensures unkeyed { IfErr result (λ fault. IsUnkeyed fault true (R.remaining reader)) }
    ensures timeless { IsErrOf result NoClock → ⊥ }
    ensures fault { IfErr result (λ fault. is_of_new_keys fault ≡ true) }
{
    match read_text(alloc, reader) {
        Ok(text) => match key_in(alloc, text.as_slice())? {
            Some(key) => Ok(key),
            None => Err(Fault::NoKey),
        },
        Err(Fault::BadBody) => Err(Fault::NoKey),
        Err(Fault::Memory) => Err(Fault::Memory),
        Err(_) => Err(Fault::ReadFailed),
    }
}

fn key_in(alloc: Global, text: &[u8]) -> Result<Option<Key>, AllocError>
    ensures { IfOk result (λ key. key ≡ key_in text.now) }
{
    match text_of(text) {
        Some(text) => Key::read(alloc, first_line(text).trim_end()),
        None => Ok(None),
    }
}

fn first_line(text: &str) -> &str
    ensures { result.now ≡ first_line text.now }
{
    match text.split_once('\n') {
        Some((line, _)) => line,
        None => text,
    }
}

/// A key of the characters of the identifier that drawn bytes make.
fn make_key<G: Chance>(alloc: Global, chance: &mut G) -> Result<Key, Fault>
    ensures key { IfOk result (λ key. (drawn : List ℕ)
        × G.gives (Some drawn) chance.old chance.new × IsMadeKey drawn key) }
    ensures unkeyed { (input : Option (List ℕ))
        → IfErr result (λ fault. IsUnkeyed fault false input) }
    ensures timeless { IsErrOf result NoClock → ⊥ }
    ensures fault { IfErr result (λ fault. is_of_new_keys fault ≡ true) }
{
    let Some(drawn) = chance.draw() else {
        return Err(Fault::ReadFailed);
    };
    match made_key(alloc, drawn)? {
        Some(key) => Ok(key),
        None => Err(Fault::ReadFailed), // Never: an identifier has the form of a key.
    }
}

/// The key of the characters of the identifier that these bytes make.
fn made_key(alloc: Global, drawn: [u8; 16]) -> Result<Option<Key>, AllocError>
    ensures { IfOk result (λ key. key ≡ made_key drawn) }
{
    let text = random_id(drawn).text(alloc)?;
    Key::read(alloc, text.as_str())
}
