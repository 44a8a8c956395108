ghost use Rattle.std.specs.Prelude.{◌≡◌, [], IfErr, IfOk};
ghost use Rattle.tb_core.specs.People.{board_decision, person_decision};

use crate::command::Answer;
use crate::deciding::{Decision, refused};
use crate::look::Seen;
use crate::refusal::Refusal;
use std::alloc::{AllocError, Global};
use tb_board::{Change, Key, Name, Role, Title};
use tb_task::{MOST_BOARDS, MOST_PEOPLE};
use tb_values::{Duplicate, Items};

/// Lets a person in.
pub fn decide_person(
    alloc: Global,
    seen: &Seen,
    name: &Name,
    key: &Key,
) -> Result<Decision, AllocError>
    ensures decided { IfOk result
        (λ d. d ≡ person_decision seen.now seen.now.caller name.now key.now) }
    ensures unchanged { IfOk result (λ d. IfErr d.answer (λ refusal. d.changes ≡ [])) }
{
    let Some(caller) = seen.caller else {
        return Ok(refused(alloc, Refusal::UnknownCaller));
    };
    if caller != 1 {
        return Ok(refused(alloc, Refusal::NotAllowed));
    }
    if seen.people >= MOST_PEOPLE {
        return Ok(refused(alloc, Refusal::Full));
    }
    if seen.other.is_some() {
        return Ok(refused(alloc, Refusal::NameTaken));
    }
    let mut changes = Items::new(alloc);
    changes.push(Change::AddPerson {
        name: name.duplicate()?,
        key: key.duplicate()?,
    })?;
    let answer = Answer::OfPerson {
        name: name.duplicate()?,
    };
    Ok(Decision {
        changes,
        answer: Ok(answer),
    })
}

/// Begins a board, which the caller owns.
pub fn decide_board(alloc: Global, seen: &Seen, title: &Title) -> Result<Decision, AllocError>
    ensures decided { IfOk result (λ d. d ≡ board_decision seen.now seen.now.caller title.now) }
    ensures unchanged { IfOk result (λ d. IfErr d.answer (λ refusal. d.changes ≡ [])) }
{
    let Some(caller) = seen.caller else {
        return Ok(refused(alloc, Refusal::UnknownCaller));
    };
    if seen.boards >= MOST_BOARDS {
        return Ok(refused(alloc, Refusal::Full));
    }
    let number = seen.boards as u32 + 1;
    let mut changes = Items::new(alloc);
    changes.push(Change::AddBoard {
        number,
        title: title.duplicate()?,
    })?;
    changes.push(Change::SetRole {
        board: number,
        person: caller,
        role: Some(Role::Owner),
    })?;
    Ok(Decision {
        changes,
        answer: Ok(Answer::NewBoard { board: number }),
    })
}
