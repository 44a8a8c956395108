ghost use Rattle.std.specs.Prelude.{◌≡◌, ℕ, [], List, IfErr, IfOk, IfSome, Ok, Err, MatchOption};
ghost use Rattle.tb_core.specs.Apply.{apply, judged, judged_tasks, on_board, outcome, role_given, seen_of, taken, IsDecision};
ghost use Rattle.tb_board.specs.Changing.{Follows, IsDraft};
ghost use Rattle.tb_core.specs.Effect.{GivesPlan, PlanFits, planned};
ghost use Rattle.tb_core.specs.Refusals.{Fails, Gives};
ghost use Rattle.tb_core.specs.Deciding.{GivesDraft, GivesOutcome, IsAccepted, IsRefused, TakesAdded};
ghost use Rattle.tb_core.specs.Shapes.{AreOfOne};
ghost use Rattle.tb_core.specs.declared.command.Answer.TheVariants.{OnBoard};
ghost use Rattle.tb_core.specs.declared.command.Command.TheVariants as Commands;
ghost use Rattle.tb_board.specs.declared.world.World.{World};

use crate::action::act;
use crate::add::{add, add_refusal};
use crate::allowed::{allows, is_owner_role};
use crate::command::{Answer, AnswerDetail, BoardAnswer, BoardCommand, Command, Import};
use crate::effect::{BoardChange, Effect, Plan};
use crate::giving::{is_last_owner, role_decision};
use crate::import_json::import_json;
use crate::import_todo::import_todo;
use crate::judged::{CommandFailure, Judged};
use crate::keys::{decide_key, decide_own_key};
use crate::linking::{depend, undepend};
use crate::look::Seen;
use crate::modify::modify;
use crate::people::{decide_board, decide_person};
use crate::refusal::Refusal;
use std::alloc::{AllocError, Global};
use tb_board::{Board, Change, Draft, Role, wake_draft};
use tb_sweep::{Swept, is_quiet, sweep_draft};
use tb_task::Moment;
use tb_values::{Duplicate, Items};

/// What becomes of a command: how the world changes, and the answer. A refusal has no changes.
#[derive(Drop)]
pub struct Decision {
    pub changes: Items<Change>,
    pub answer: Result<Answer, Refusal>,
}

/// What an accepted command changes on a board.
#[derive(Drop)]
pub struct Accepted {
    pub changes: Items<Change>,
    pub answer: BoardAnswer,
}

/// What an accepted command makes of a board.
#[derive(Drop)]
pub struct Drafted {
    pub draft: Draft,
    pub answer: BoardAnswer,
}

impl Accepted {
    fn into_decision(self) -> Decision
        ensures { result ≡ record { changes = self.changes; answer = Ok (OnBoard self.answer) } }
    {
        let Accepted { changes, answer } = self;
        Decision {
            changes,
            answer: Ok(Answer::OnBoard(answer)),
        }
    }
}

/// Decides a command by what it looks at.
pub fn decide(
    alloc: Global,
    seen: &Seen,
    command: &Command,
    at: Moment,
) -> Result<Decision, AllocError>
    ensures decided { IfOk result
        (λ d. (w : World) (name : List ℕ) → seen.now ≡ seen_of w name command.now
        → IsDecision w d (apply w name command.now at)) }
    ensures unchanged { IfOk result (λ d. IfErr d.answer (λ refusal. d.changes ≡ [])) }
    ensures shape { IfOk result (λ d. AreOfOne d.changes) }
{
    match command {
        Command::NewPerson { name, key } => decide_person(alloc, seen, name, key),
        Command::NewBoard { title } => decide_board(alloc, seen, title),
        Command::OwnKey { old, new } => decide_own_key(alloc, &seen.own, old, new),
        Command::SetKey { name, key } => decide_key(alloc, seen, name, key),
        Command::SetRole { role, .. } => decide_role(alloc, seen, *role, at),
        Command::Take { .. } => decide_take(alloc, seen, at),
        Command::OnBoard { board, command } => decide_on_board(alloc, seen, *board, command, at),
    }
}

fn decide_on_board(
    alloc: Global,
    seen: &Seen,
    board: u32,
    command: &BoardCommand,
    at: Moment,
) -> Result<Decision, AllocError>
    ensures decided { IfOk result
        (λ d. (w : World) (name : List ℕ) → seen.now ≡ seen_of w name (Commands.OnBoard board command.now)
        → IsDecision w d (on_board w seen.now command.now at)) }
    ensures unchanged { IfOk result (λ d. IfErr d.answer (λ refusal. d.changes ≡ [])) }
    ensures shape { IfOk result (λ d. AreOfOne d.changes) }
{
    if seen.caller.is_none() {
        return Ok(refused(alloc, Refusal::UnknownCaller));
    }
    let Some(found) = &seen.board else {
        return Ok(refused(alloc, Refusal::NoBoard));
    };
    if !allows(found.role, command) {
        return Ok(refused(alloc, Refusal::NotAllowed));
    }
    match judge_board(alloc, found.board.get(), command, at) {
        Ok(accepted) => Ok(accepted.into_decision()),
        Err(CommandFailure::Refused(refusal)) => Ok(refused(alloc, refusal)),
        Err(CommandFailure::Memory) => Err(AllocError),
    }
}

fn decide_role(
    alloc: Global,
    seen: &Seen,
    role: Option<Role>,
    at: Moment,
) -> Result<Decision, AllocError>
    ensures decided { IfOk result
        (λ d. (w : World) (name : List ℕ) (n : ℕ) (other : List ℕ)
        → seen.now ≡ seen_of w name (Commands.SetRole n other role)
        → IsDecision w d (role_given w seen.now seen.now.caller seen.now.board role at)) }
    ensures unchanged { IfOk result (λ d. IfErr d.answer (λ refusal. d.changes ≡ [])) }
    ensures shape { IfOk result (λ d. AreOfOne d.changes) }
{
    if seen.caller.is_none() {
        return Ok(refused(alloc, Refusal::UnknownCaller));
    }
    let Some(found) = &seen.board else {
        return Ok(refused(alloc, Refusal::NoBoard));
    };
    if !is_owner_role(found.role) {
        return Ok(refused(alloc, Refusal::NotAllowed));
    }
    let Some(other) = seen.other else {
        return Ok(refused(alloc, Refusal::NoPerson));
    };
    if is_last_owner(other, role, seen.owners) {
        return Ok(refused(alloc, Refusal::LastOwner));
    }
    role_decision(alloc, found.board.get(), other.number, role, at)
}

fn decide_take(alloc: Global, seen: &Seen, at: Moment) -> Result<Decision, AllocError>
    ensures decided { IfOk result
        (λ d. (w : World) (name : List ℕ) (n : ℕ) → seen.now ≡ seen_of w name (Commands.Take n)
        → IsDecision w d (taken w seen.now.caller seen.now.board at)) }
    ensures unchanged { IfOk result (λ d. IfErr d.answer (λ refusal. d.changes ≡ [])) }
    ensures shape { IfOk result (λ d. AreOfOne d.changes) }
{
    let Some(caller) = seen.caller else {
        return Ok(refused(alloc, Refusal::UnknownCaller));
    };
    let Some(found) = &seen.board else {
        return Ok(refused(alloc, Refusal::NoBoard));
    };
    if caller != 1 {
        return Ok(refused(alloc, Refusal::NotAllowed));
    }
    role_decision(alloc, found.board.get(), caller, Some(Role::Owner), at)
}

/// A refusal has no changes.
pub fn refused(alloc: Global, refusal: Refusal) -> Decision
    ensures is { result ≡ record { changes = []; answer = Err refusal } }
    ensures shape { AreOfOne result.changes }
{
    Decision {
        changes: Items::new(alloc),
        answer: Err(refusal),
    }
}

/// What a command makes of a board at a moment, with the sweep that follows it.
fn judge_board(
    alloc: Global,
    board: &Board,
    command: &BoardCommand,
    at: Moment,
) -> Result<Accepted, CommandFailure>
    ensures { GivesOutcome board.now command.now at result }
{
    if let Some(refusal) = early_refusal(board, command) {
        return Err(CommandFailure::Refused(refusal));
    }
    if let Some(accepted) = judge_quiet(alloc, board, command, at)? {
        return Ok(accepted);
    }
    let Drafted { draft, answer } = judge_draft(alloc, board, command, at)?;
    let changes = draft.into_changes();
    Ok(Accepted { changes, answer })
}

/// What a command makes of a board that is quiet before and after it: no other task changes, so that the board needn't be copied. It is
/// left to `judge_draft` where the board isn't such a one, and where the command is an import.
fn judge_quiet(
    alloc: Global,
    board: &Board,
    command: &BoardCommand,
    at: Moment,
) -> Result<Option<Accepted>, CommandFailure>
    requires { TakesAdded board.now command.now }
    ensures gives { IfOk result
        (λ found. IfSome found (λ accepted. IsAccepted board.now command.now at accepted)) }
    ensures refused { IfErr result (λ failure. Fails failure (outcome board.now command.now at)) }
{
    if !is_quiet(board, at) {
        return Ok(None);
    }
    let Plan::Effect(effect) = plan(alloc, board, command, at)? else {
        return Ok(None);
    };
    if !effect.change.keeps_quiet(board, at) {
        return Ok(None);
    }
    let Effect { change, detail } = effect;
    let changes = change.into_changes(alloc, board)?;
    let answer = BoardAnswer {
        board: board.number,
        added: 0,
        more: false,
        detail,
    };
    Ok(Some(Accepted { changes, answer }))
}

/// What a command makes of any board, which is copied for that.
fn judge_draft(
    alloc: Global,
    board: &Board,
    command: &BoardCommand,
    at: Moment,
) -> Result<Drafted, CommandFailure>
    requires { TakesAdded board.now command.now }
    ensures gives { GivesDraft result (outcome board.now command.now at) }
    ensures made { IfOk result (λ drafted. IsDraft board.now drafted.draft) }
{
    let draft = Draft::of(alloc, board)?;
    let draft = wake_draft(alloc, draft, at)?;
    let Judged { draft, detail } = judge(alloc, draft, command, at)?;
    let board = draft.board.number;
    let Swept { draft, added, more } = sweep_draft(alloc, draft, at)?;
    let answer = BoardAnswer {
        board,
        added,
        more,
        detail,
    };
    Ok(Drafted { draft, answer })
}

/// Why a command is refused, where the board needn't wake for it to show.
fn early_refusal(board: &Board, command: &BoardCommand) -> Option<Refusal>
    ensures { MatchOption result (TakesAdded board.now command.now)
        (IsRefused board.now command.now) }
{
    match command {
        BoardCommand::Add { incoming } => add_refusal(board, incoming),
        _ => None,
    }
}

/// What a command makes of a board that is awake.
fn judge(
    alloc: Global,
    draft: Draft,
    command: &BoardCommand,
    at: Moment,
) -> Result<Judged, CommandFailure>
    requires { TakesAdded draft.board command.now }
    ensures gives { Gives result (judged draft.board command.now at) }
    ensures follows { IfOk result (λ judged. Follows draft judged.draft) }
{
    match plan(alloc, &draft.board, command, at)? {
        Plan::Effect(effect) => Ok(effect.make(alloc, draft)?),
        Plan::Import(import) => judge_import(alloc, draft, import),
    }
}

/// What an import makes of a board that is awake.
fn judge_import(alloc: Global, draft: Draft, import: &Import) -> Result<Judged, CommandFailure>
    ensures gives { Gives result (judged_tasks draft.board import.now) }
    ensures follows { IfOk result (λ judged. Follows draft judged.draft) }
{
    match import {
        Import::Json { tasks } => import_json(alloc, draft, tasks.as_slice()),
        Import::Todo { tasks } => import_todo(alloc, draft, tasks.as_slice()),
    }
}

/// What a command is to make of a board that is awake.
#[tactic(auto, using(crate::proofs::Planning::planned_gives, crate::proofs::Planning::planned_fits))]
fn plan<'c>(
    alloc: Global,
    board: &Board,
    command: &'c BoardCommand,
    at: Moment,
) -> Result<Plan<'c>, CommandFailure>
    requires { TakesAdded board.now command.now }
    ensures gives { GivesPlan board.now command.now result (judged board.now command.now at) }
    ensures fits { IfOk result (PlanFits board.now) }
{
    match command {
        BoardCommand::Add { incoming } => planned(add(alloc, board, incoming, at)),
        BoardCommand::OnTask { id, action } => planned(act(board, *id, action, at)),
        BoardCommand::Modify { id, edits } => {
            planned(modify(alloc, board, *id, edits.as_slice(), at))
        }
        BoardCommand::Depend { id, on } => planned(depend(alloc, board, *id, *on, at)),
        BoardCommand::Undepend { id, on } => planned(undepend(board, *id, *on, at)),
        BoardCommand::SetAhead { ahead } => Ok(Plan::Effect(Effect {
            change: BoardChange::LookAhead { ahead: *ahead },
            detail: AnswerDetail::Swept,
        })),
        BoardCommand::Retitle { title } => Ok(Plan::Effect(Effect {
            change: BoardChange::Retitle {
                title: title.duplicate()?,
            },
            detail: AnswerDetail::Swept,
        })),
        BoardCommand::Sweep => Ok(Plan::Effect(Effect {
            change: BoardChange::Stay,
            detail: AnswerDetail::Swept,
        })),
        BoardCommand::Import(import) => Ok(Plan::Import(import)),
    }
}

fn planned<'c>(effect: Result<Effect, CommandFailure>) -> Result<Plan<'c>, CommandFailure>
    ensures { result ≡ planned effect }
{
    Ok(Plan::Effect(effect?))
}
