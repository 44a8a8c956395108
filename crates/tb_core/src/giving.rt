ghost use Rattle.std.specs.Prelude.{◌≡◌, ◌∷◌, [], ◌++◌, Some, Ok, IfOk};
ghost use Rattle.tb_core.specs.Apply.{role_answer};
ghost use Rattle.tb_core.specs.Giving.{IsRoleDecision};
ghost use Rattle.tb_core.specs.Owners.{is_owners, leaves_none};

use crate::allowed::is_owner_role;
use crate::command::{Answer, AnswerDetail, BoardAnswer};
use crate::deciding::Decision;
use crate::look::SeenPerson;
use std::alloc::{AllocError, Global};
use tb_board::{Board, Change, Draft, Role};
use tb_sweep::{Swept, sweep_draft};
use tb_task::Moment;

fn is_owner_if_some(role: Option<Role>) -> bool
    ensures { result ≡ is_owners role }
{
    match role {
        Some(role) => is_owner_role(role),
        None => false,
    }
}

/// Whether the person is the only owner, and would be none any more.
pub fn is_last_owner(person: SeenPerson, role: Option<Role>, owners: usize) -> bool
    ensures { result ≡ leaves_none (Some person) role owners }
{
    is_owner_if_some(person.role) && !is_owner_if_some(role) && owners <= 1
}

/// The person has the role, and the sweep follows.
pub fn role_decision(
    alloc: Global,
    board: &Board,
    person: usize,
    role: Option<Role>,
    at: Moment,
) -> Result<Decision, AllocError>
    ensures { IfOk result (IsRoleDecision board.now person role at) }
{
    let draft = Draft::of(alloc, board)?;
    let Swept { draft, added, more } = sweep_draft(alloc, draft, at)?;
    let answer = BoardAnswer {
        board: board.number,
        added,
        more,
        detail: AnswerDetail::Swept,
    };
    let mut changes = draft.into_changes();
    changes.push(Change::SetRole {
        board: board.number,
        person,
        role,
    })?;
    Ok(Decision {
        changes,
        answer: Ok(Answer::OnBoard(answer)),
    })
}
