ghost use Rattle.std.specs.Prelude.{◌≡◌, [], IfErr, IfOk};
ghost use Rattle.tb_board.specs.World.{has_key};
ghost use Rattle.tb_core.specs.Keys.{is_first, key_decision, own_decision};

use crate::command::Answer;
use crate::deciding::{Decision, refused};
use crate::look::{Seen, SeenPerson};
use crate::refusal::Refusal;
use std::alloc::{AllocError, Global};
use tb_board::{Change, Key, Name, Person};
use tb_values::{Duplicate, Items};

/// Changes the caller's own key, if `old` is that key.
pub fn decide_own_key(
    alloc: Global,
    own: &Option<Person>,
    old: &Key,
    new: &Key,
) -> Result<Decision, AllocError>
    ensures decided { IfOk result (λ d. d ≡ own_decision own.now old.now new.now) }
    ensures unchanged { IfOk result (λ d. IfErr d.answer (λ refusal. d.changes ≡ [])) }
{
    let Some(own) = own else {
        return Ok(refused(alloc, Refusal::UnknownCaller));
    };
    if !has_key(&own.key, old) {
        return Ok(refused(alloc, Refusal::KeyDiffers));
    }
    let key = Some(new.duplicate()?);
    let mut changes = Items::new(alloc);
    changes.push(Change::SetKey {
        name: own.name.duplicate()?,
        key,
    })?;
    let answer = Answer::OfPerson {
        name: own.name.duplicate()?,
    };
    Ok(Decision {
        changes,
        answer: Ok(answer),
    })
}

/// Gives a person a key, or takes it.
pub fn decide_key(
    alloc: Global,
    seen: &Seen,
    name: &Name,
    key: &Option<Key>,
) -> Result<Decision, AllocError>
    ensures decided { IfOk result
        (λ d. d ≡ key_decision seen.now seen.now.caller name.now key.now) }
    ensures unchanged { IfOk result (λ d. IfErr d.answer (λ refusal. d.changes ≡ [])) }
{
    let Some(caller) = seen.caller else {
        return Ok(refused(alloc, Refusal::UnknownCaller));
    };
    if caller != 1 || is_first(seen.other) {
        return Ok(refused(alloc, Refusal::NotAllowed));
    }
    if seen.other.is_none() {
        return Ok(refused(alloc, Refusal::NoPerson));
    }
    let mut changes = Items::new(alloc);
    changes.push(Change::SetKey {
        name: name.duplicate()?,
        key: key.duplicate()?,
    })?;
    let answer = Answer::OfPerson {
        name: name.duplicate()?,
    };
    Ok(Decision {
        changes,
        answer: Ok(answer),
    })
}

/// Whether there is a key, and it is this one.
fn has_key(own: &Option<Key>, key: &Key) -> bool
    ensures { result ≡ has_key own.now key.now }
{
    match own {
        Some(own) => own.as_str() == key.as_str(),
        None => false,
    }
}

fn is_first(person: Option<SeenPerson>) -> bool
    ensures { result ≡ is_first person }
{
    match person {
        Some(person) => person.number == 1,
        None => false,
    }
}
