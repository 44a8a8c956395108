//! How a view is answered, over any keeper.
ghost use Rattle.std.specs.Prelude.{◌≡◌, Err, IfOk, IsErrOf, IsSome, Ok, Some, find, option_map, true};
ghost use Rattle.tb_board.specs.Tasks.{has_id};
ghost use Rattle.tb_board.specs.World.{key_of, number_of};
ghost use Rattle.tb_core.specs.Apply.{board_for};
ghost use Rattle.tb_json.specs.Writing.{shown_text};
ghost use Rattle.tb_report.specs.Lists.{listing as listing_of};
ghost use Rattle.tb_report.specs.Showing.{shown as shown_tasks, shown_task as shown_task_of};
ghost use Rattle.tb_todotxt.specs.FileTexts.{file_text};
ghost use Rattle.tb_calls.specs.declared.fault.KeepFault.TheVariants.{Store};
ghost use Rattle.tb_calls.specs.Call.{State};
ghost use Rattle.tb_calls.specs.Keep.{IsStill, is_store};
ghost use Rattle.tb_desk.specs.Viewing.{export_text, one_text, people_shown, seen_on, shown_in, view_of, view_reply};

use crate::desk::Desk;
use crate::looking_back::{show_history, show_history_of};
use std::alloc::{AllocError, Global};
use tb_board::{Board, Key, Name};
use tb_calls::{
    Keep, KeepFault, PersonRole, Reply, View, reply_to_refused, write_me, write_people,
};
use tb_core::{BoardCommand, Command, Refusal, SeenBoard};
use tb_history::Which;
use tb_json::{write_task, write_tasks};
use tb_report::{listing, shown, shown_task};
use tb_task::{Moment, Task, TaskId};
use tb_todotxt::write_file;
use tb_values::{Items, Shared, Text};

impl<K: Keep> Desk<K> {
    /// What a view of a person with a key is answered at a moment.
    pub fn view(
        &mut self,
        alloc: Global,
        name: &Name,
        key: &Key,
        view: &View,
        at: Moment,
    ) -> Result<Reply, KeepFault>
        ensures told { K.is_honest self.new ≡ true → (s : State) → K.holds self.old s
            → IfOk result (λ r. r ≡ shown_in s name.now key.now view.now at) }
        ensures same { IsStill (K.holds self.old) (K.after_stop self.old) (K.holds self.new)
            (K.after_stop self.new) }
        ensures honest { K.is_honest self.new ≡ true → K.is_honest self.old ≡ true }
        ensures failed { K.has_failed self.new ≡ is_store result }
        ensures closed { K.has_failed self.old ≡ true → IsErrOf result Store }
    {
        match self.keep.person(alloc, name)? {
            Some(known) if known.as_str() == key.as_str() => {}
            _ => return Ok(reply_to_refused(alloc, Refusal::UnknownCaller)?),
        }
        let shown = look_at(&mut self.keep, alloc, name, view, at)?;
        Ok(reply_with(alloc, shown)?)
    }
}

/// What a view shows a person who is known, or why it doesn't.
fn look_at<K: Keep>(
    keep: &mut K,
    alloc: Global,
    name: &Name,
    view: &View,
    at: Moment,
) -> Result<Result<Text, Refusal>, KeepFault>
    ensures told { K.is_honest keep.new ≡ true → (s : State) → K.holds keep.old s
        → IsSome (key_of s.world name.now)
        → IfOk result (λ shown. shown ≡ view_of s name.now view.now at) }
    ensures same { IsStill (K.holds keep.old) (K.after_stop keep.old) (K.holds keep.new)
        (K.after_stop keep.new) }
    ensures honest { K.is_honest keep.new ≡ true → K.is_honest keep.old ≡ true }
    ensures failed { K.has_failed keep.new ≡ is_store result }
    ensures closed { K.has_failed keep.old ≡ true → IsErrOf result Store }
{
    match view {
        View::Listing(board) => {
            let seen = see(keep, alloc, name, *board)?;
            Ok(show_listing(alloc, &seen, at)?)
        }
        View::Export(board) => {
            let seen = see(keep, alloc, name, *board)?;
            Ok(show_export(alloc, &seen, at)?)
        }
        View::Todo(board) => {
            let seen = see(keep, alloc, name, *board)?;
            Ok(show_todo(alloc, &seen, at)?)
        }
        View::One(board, id) => {
            let seen = see(keep, alloc, name, *board)?;
            Ok(show_one(alloc, &seen, *id, at)?)
        }
        View::People(board) => {
            let people = keep.people_for(alloc, name, *board)?;
            Ok(show_people(alloc, *board, &people)?)
        }
        View::History(board) => show_history(keep, alloc, name, *board, Which::Last),
        View::HistoryFrom(board, from) => {
            show_history(keep, alloc, name, *board, Which::From(*from))
        }
        View::HistoryOf(board, id) => show_history_of(keep, alloc, name, *board, *id),
        View::Me => {
            let boards = keep.boards_of(alloc, name)?;
            Ok(Ok(write_me(alloc, name, boards.as_slice())?))
        }
    }
}

/// A board, where a person who is known has a role on it.
pub(crate) fn see<K: Keep>(
    keep: &mut K,
    alloc: Global,
    name: &Name,
    board: u32,
) -> Result<Option<SeenBoard>, KeepFault>
    ensures told { K.is_honest keep.new ≡ true → (s : State) → K.holds keep.old s
        → IsSome (key_of s.world name.now)
        → IfOk result (λ seen. seen ≡ board_for s.world (number_of s.world name.now) (Some board)) }
    ensures same { IsStill (K.holds keep.old) (K.after_stop keep.old) (K.holds keep.new)
        (K.after_stop keep.new) }
    ensures honest { K.is_honest keep.new ≡ true → K.is_honest keep.old ≡ true }
    ensures failed { K.has_failed keep.new ≡ is_store result }
    ensures closed { K.has_failed keep.old ≡ true → IsErrOf result Store }
{
    let command = Command::OnBoard {
        board,
        command: BoardCommand::Sweep,
    };
    let seen = keep.look(alloc, name, &command)?;
    Ok(seen.board)
}

#[tactic(auto, unfolding(crate::specs::Viewing::view_reply))]
fn reply_with(alloc: Global, shown: Result<Text, Refusal>) -> Result<Reply, AllocError>
    ensures { IfOk result (λ r. r ≡ view_reply shown) }
{
    match shown {
        Ok(body) => Ok(Reply {
            number: 0,
            status: 200,
            body,
        }),
        Err(refusal) => reply_to_refused(alloc, refusal),
    }
}

fn show_listing(
    alloc: Global,
    seen: &Option<SeenBoard>,
    at: Moment,
) -> Result<Result<Text, Refusal>, AllocError>
    ensures { IfOk result (λ shown. shown ≡ seen_on seen.now (λ b. Ok (listing_of b at))) }
{
    match seen {
        Some(seen) => Ok(Ok(listing(alloc, seen.board.get(), at)?)),
        None => Ok(Err(Refusal::NoBoard)),
    }
}

/// All tasks of a board as JSON.
fn show_export(
    alloc: Global,
    seen: &Option<SeenBoard>,
    at: Moment,
) -> Result<Result<Text, Refusal>, AllocError>
    ensures { IfOk result (λ shown. shown ≡ seen_on seen.now (λ b. Ok (export_text b at))) }
{
    let Some(seen) = seen else {
        return Ok(Err(Refusal::NoBoard));
    };
    let tasks = shown(alloc, seen.board.get(), at)?;
    Ok(Ok(write_tasks(alloc, tasks.as_slice())?))
}

/// A line for each task of a board that has one.
fn show_todo(
    alloc: Global,
    seen: &Option<SeenBoard>,
    at: Moment,
) -> Result<Result<Text, Refusal>, AllocError>
    ensures { IfOk result
        (λ shown. shown ≡ seen_on seen.now (λ b. Ok (file_text (shown_tasks b at)))) }
{
    let Some(seen) = seen else {
        return Ok(Err(Refusal::NoBoard));
    };
    let tasks = shown(alloc, seen.board.get(), at)?;
    Ok(Ok(write_file(alloc, tasks.as_slice())?))
}

/// A task as JSON.
fn show_one(
    alloc: Global,
    seen: &Option<SeenBoard>,
    id: TaskId,
    at: Moment,
) -> Result<Result<Text, Refusal>, AllocError>
    ensures { IfOk result
        (λ shown. shown ≡ seen_on seen.now (λ b. one_text b (find (has_id id) b.tasks) at)) }
{
    match seen {
        Some(seen) => show_task(alloc, seen.board.get(), id, at),
        None => Ok(Err(Refusal::NoBoard)),
    }
}

fn show_task(
    alloc: Global,
    board: &Board,
    id: TaskId,
    at: Moment,
) -> Result<Result<Text, Refusal>, AllocError>
    ensures { IfOk result
        (λ shown. shown ≡ one_text board.now (find (has_id id) board.now.tasks) at) }
{
    match task_on(board, id) {
        Some(task) => Ok(Ok(write_one(alloc, board, task, at)?)),
        None => Ok(Err(Refusal::NoTask)),
    }
}

fn task_on(board: &Board, id: TaskId) -> Option<&Shared<Task>>
    ensures { option_map (λ task. task.now) result ≡ find (has_id id) board.now.tasks }
{
    board
        .tasks
        .as_slice()
        .iter()
        .find(|task| task.get().id == id)
}

fn write_one(
    alloc: Global,
    board: &Board,
    task: &Shared<Task>,
    at: Moment,
) -> Result<Text, AllocError>
    ensures { IfOk result (λ text. text ≡ shown_text (shown_task_of board.now at task.now)) }
{
    let shown = shown_task(alloc, board, task, at)?;
    write_task(alloc, &shown)
}

/// The people on a board, where they may be seen.
fn show_people(
    alloc: Global,
    board: u32,
    people: &Option<Items<PersonRole>>,
) -> Result<Result<Text, Refusal>, AllocError>
    ensures { IfOk result (λ shown. shown ≡ people_shown board people.now) }
{
    match people {
        Some(people) => Ok(Ok(write_people(alloc, board, people.as_slice())?)),
        None => Ok(Err(Refusal::NoBoard)),
    }
}
