//! Whether nothing of a board comes up by itself at a moment, as far as that is seen without going through its tasks.

ghost use Rattle.std.specs.Prelude.{◌≡◌, ◌<◌, ◌≤◌, ◌==◌, IsTrue, MatchOption, count_by, false, length};
ghost use Rattle.std.specs.List.{list_any};
ghost use Rattle.tb_board.specs.Tasks.{wakes};
ghost use Rattle.tb_board.specs.declared.gone.Gone.{Gone as GonePlace};
ghost use Rattle.tb_board.specs.TemplateIndex.{AreNumbers, IsTemplateIndex};
ghost use Rattle.tb_board.specs.Templates.{count, gone_places};
ghost use Rattle.tb_sweep.specs.Quiet.{IsQuiet, lacks_at};
ghost use Rattle.tb_sweep.specs.Sweeping.{lacks, more};

use crate::counts::PLACES_END;
use crate::sweeping::has_recurring;
use tb_board::{Board, Gone, TemplateIndex, has_waited};
use tb_recur::plan_of;
use tb_task::{Moment, Task, TaskId, is_recurring_status};

/// Whether no task of the board wakes at the moment, and no template lacks an instance. A board without an index is gone through, and
/// not quiet if a task recurs.
pub fn is_quiet(board: &Board, at: Moment) -> bool
    ensures { IsTrue result → IsQuiet at board.now }
{
    !wakes_one(board, at) && is_settled(board, at)
}

fn wakes_one(board: &Board, at: Moment) -> bool
    ensures { result ≡ list_any (wakes at) board.now.tasks }
{
    if !board.tasks.may_wake(at) {
        return false;
    }
    board
        .tasks
        .as_slice()
        .iter()
        .any(|task| has_waited(task.get(), at))
}

fn is_settled(board: &Board, at: Moment) -> bool
    ensures { IsTrue result → more board.now at ≡ false }
{
    match board.tasks.templates() {
        Some(templates) => !lacks_somewhere(board, templates, at),
        None => !has_recurring(board.tasks.as_slice()),
    }
}

fn lacks_somewhere(board: &Board, templates: &TemplateIndex, at: Moment) -> bool
    requires { AreNumbers board.now.tasks templates.now.instances }
    ensures { result ≡ list_any (lacks_at board.now at) templates.now.places.items }
{
    templates
        .places()
        .iter()
        .any(|place| is_lacking_at(board, templates, *place, at))
}

/// Whether a template stands at the place, and lacks an instance.
fn is_lacking_at(board: &Board, templates: &TemplateIndex, place: usize, at: Moment) -> bool
    requires { AreNumbers board.now.tasks templates.now.instances }
    ensures { result ≡ lacks_at board.now at place }
{
    match board.tasks.get(place) {
        Some(task) => is_lacking(board, templates, task.get(), at),
        None => false,
    }
}

fn is_lacking(board: &Board, templates: &TemplateIndex, task: &Task, at: Moment) -> bool
    requires { AreNumbers board.now.tasks templates.now.instances }
    ensures { result ≡ lacks board.now at task.now }
{
    if !is_recurring_status(task.status) {
        return false;
    }
    let Some(next) = next_place(board, templates, task.id) else {
        return false;
    };
    match plan_of(task) {
        Some(plan) => plan.wants(board.ahead.number(), next, at),
        None => false,
    }
}

/// How many places a template has, if an instance can be due at the next one.
fn next_place(board: &Board, templates: &TemplateIndex, id: TaskId) -> Option<u32>
    requires { AreNumbers board.now.tasks templates.now.instances }
    ensures { MatchOption result (2932898 ≤ count board.now id)
        (λ n. (n ≡ count board.now id) × (n < 2932898)) }
{
    let gone = gone_number(board.gone.as_slice(), id);
    let number = templates.instances_of(id).saturating_add(gone);
    if number >= PLACES_END as usize {
        return None;
    }
    Some(number as u32)
}

/// How many places of a template are gone.
fn gone_number(gone: &[Gone], id: TaskId) -> usize
    ensures { result ≡ length (gone_places id gone.now) }
{
    number_of(gone, id)
}

fn number_of(gone: &[Gone], id: TaskId) -> usize
    ensures { result ≡ count_by (λ (place : GonePlace). place.template == id) gone.now }
{
    gone.iter().filter(|place| place.template == id).count()
}
