ghost use Rattle.std.specs.Prelude.{◌≡◌, ℕ, List};
ghost use Rattle.std.specs.List.{list_any};
ghost use Rattle.tb_board.specs.declared.world.World.{World};
ghost use Rattle.tb_board.specs.Tasks.{wakes};
ghost use Rattle.tb_core.specs.Apply.{apply, seen_of};
ghost use Rattle.tb_deeds.specs.Deeds.{added_in, deed_about, deed_by, deed_of, deed_on, done_on, is_swept, swept_on};

use crate::kind::DeedKind;
use tb_board::{Board, has_waited};
use tb_core::{Answer, BoardCommand, Command, Decision, Seen};
use tb_task::Moment;

/// What an accepted command did on a board.
#[derive(Clone, Copy, Debug, PartialEq, Eq)]
pub struct Deed {
    /// The board's number.
    pub board: u32,
    pub what: DeedKind,
    /// The place of the one task that it is about, counted from 0.
    pub place: Option<usize>,
}

/// The deed of a command that was decided by what it looked at. A refused command has none, nor has one on no board, nor a sweep that
/// changed nothing.
pub fn deed_of(seen: &Seen, command: &Command, at: Moment, decision: &Decision) -> Option<Deed>
    ensures by { result ≡ deed_by seen.now.board command.now at decision.now.answer }
    ensures of { (w : World) (name : List ℕ) → seen.now ≡ seen_of w name command.now
        → decision.now.answer ≡ (apply w name command.now at).answer
        → result ≡ deed_of w name command.now at }
{
    let added = match &decision.answer {
        Ok(answer) => added_in(answer),
        Err(_) => return None,
    };
    let Some(found) = &seen.board else {
        return None;
    };
    deed_about(found.board.get(), command, at, added)
}

/// How many instances came, as the answer says.
fn added_in(answer: &Answer) -> usize
    ensures { result ≡ added_in answer.now }
{
    match answer {
        Answer::OnBoard(answer) => answer.added,
        Answer::OfPerson { .. } | Answer::NewBoard { .. } => 0,
    }
}

/// The deed of an accepted command that looked at this board, where so many instances came.
fn deed_about(board: &Board, command: &Command, at: Moment, added: usize) -> Option<Deed>
    ensures { result ≡ deed_about board.now command.now at added }
{
    match command {
        Command::NewPerson { .. }
        | Command::NewBoard { .. }
        | Command::OwnKey { .. }
        | Command::SetKey { .. } => None,
        Command::SetRole { .. } => Some(done_on(board, DeedKind::Role, None)),
        Command::Take { .. } => Some(done_on(board, DeedKind::Take, None)),
        Command::OnBoard { command, .. } => deed_on(board, command, at, added),
    }
}

fn deed_on(board: &Board, command: &BoardCommand, at: Moment, added: usize) -> Option<Deed>
    ensures { result ≡ deed_on board.now command.now at added }
{
    let (what, place) = match command {
        BoardCommand::Add { .. } => (DeedKind::Add, Some(board.tasks.len())),
        BoardCommand::OnTask { id, action } => {
            (DeedKind::of_action(action), board.tasks.place_of(*id))
        }
        BoardCommand::Modify { id, .. } => (DeedKind::Modify, board.tasks.place_of(*id)),
        BoardCommand::Depend { id, .. } => (DeedKind::Depend, board.tasks.place_of(*id)),
        BoardCommand::Undepend { id, .. } => (DeedKind::Undepend, board.tasks.place_of(*id)),
        BoardCommand::SetAhead { .. } => (DeedKind::Ahead, None),
        BoardCommand::Retitle { .. } => (DeedKind::Title, None),
        BoardCommand::Sweep => return swept_on(board, at, added),
        BoardCommand::Import(import) => (DeedKind::of_import(import), None),
    };
    Some(done_on(board, what, place))
}

fn swept_on(board: &Board, at: Moment, added: usize) -> Option<Deed>
    ensures { result ≡ swept_on board.now at added }
{
    if !is_swept(board, at, added) {
        return None;
    }
    Some(done_on(board, DeedKind::Sweep, None))
}

fn done_on(board: &Board, what: DeedKind, place: Option<usize>) -> Deed
    ensures { result ≡ done_on board.now what place }
{
    Deed {
        board: board.number,
        what,
        place,
    }
}

/// Whether the sweep changes the board, where so many instances come by it.
fn is_swept(board: &Board, at: Moment, added: usize) -> bool
    ensures { result ≡ is_swept board.now at added }
{
    wakes_one(board, at) || added > 0
}

fn wakes_one(board: &Board, at: Moment) -> bool
    ensures { result ≡ list_any (wakes at) board.now.tasks }
{
    if !board.tasks.may_wake(at) {
        return false;
    }
    board
        .tasks
        .as_slice()
        .iter()
        .any(|task| has_waited(task.get(), at))
}
