ghost use Rattle.std.specs.Prelude.{◌≡◌, ◌+◌, ◌==◌, ℕ, [], ◌∷◌, Some, None, if◌then◌else◌, length, map, unwrap_or, IfOk, OnOk};
ghost use Rattle.tb_sweep.specs.Masks.{gone_mark, instance_mark, shown_mark, AreBlank, AreNoted};
ghost use Rattle.tb_board.specs.InstancePlaces.{instance_places, is_id, place_in};
ghost use Rattle.tb_board.specs.Templates.{count, gone_places, mask};

use std::alloc::{AllocError, Global};
use tb_board::{Board, Gone};
use tb_task::{Mark, Mask, Task, TaskId};
use tb_values::Shared;

/// The mask of a template: a mark for each place from 0 up to the count.
pub fn mask_of(alloc: Global, board: &Board, id: TaskId) -> Result<Mask, AllocError>
    ensures { IfOk result (λ text. text ≡ mask board.now id) }
{
    let mut marks = blank_marks(alloc, board, id)?;
    filled_mask(alloc, &mut marks, board, id)
}

/// The mask by marks that are blank, and are noted here.
fn filled_mask(
    alloc: Global,
    marks: &mut [Option<Mark>],
    board: &Board,
    id: TaskId,
) -> Result<Mask, AllocError>
    requires { AreBlank marks.old (count board.now id) }
    ensures { IfOk result (λ text. text ≡ mask board.now id) }
{
    note_instances(marks, board.tasks.as_slice(), id);
    note_gone(marks, board.gone.as_slice(), id);
    written_marks(alloc, marks)
}

/// As many places as the template has, without marks.
fn blank_marks(alloc: Global, board: &Board, id: TaskId) -> Result<Vec<Option<Mark>>, AllocError>
    ensures { IfOk result (λ marks. AreBlank marks.items (count board.now id)) }
{
    let marks = blanks_for_gone(alloc, board.gone.as_slice(), id)?;
    blanks_for_instances(marks, board.tasks.as_slice(), id)
}

#[tactic(auto, using(crate::proofs::Noting::later_blank))]
fn blanks_for_gone(
    alloc: Global,
    gone: &[Gone],
    id: TaskId,
) -> Result<Vec<Option<Mark>>, AllocError>
    ensures { IfOk result (λ marks. AreBlank marks.items (length (gone_places id gone.now))) }
{
    let mut marks = Vec::new(alloc);
    for place in gone {
        if place.template == id {
            marks.push(None)?;
        }
    }
    Ok(marks)
}

#[tactic(auto, using(crate::proofs::Noting::later_blank))]
fn blanks_for_instances(
    mut marks: Vec<Option<Mark>>,
    tasks: &[Shared<Task>],
    id: TaskId,
) -> Result<Vec<Option<Mark>>, AllocError>
    requires { AreBlank marks.items (length marks.items) }
    ensures { IfOk result
        (λ later. AreBlank later.items
        (length marks.items + length (instance_places id tasks.now))) }
{
    for task in tasks {
        if place_of_instance(task.get(), id).is_some() {
            marks.push(None)?;
        }
    }
    Ok(marks)
}

fn place_of_instance(task: &Task, id: TaskId) -> Option<u32>
    ensures { result ≡ place_in id task.now }
{
    if is_id(task.parent, id) {
        task.imask
    } else {
        None
    }
}

fn is_id(parent: Option<TaskId>, id: TaskId) -> bool
    ensures { result ≡ is_id id parent }
{
    match parent {
        Some(parent) => parent == id,
        None => false,
    }
}

fn note_instances(marks: &mut [Option<Mark>], tasks: &[Shared<Task>], id: TaskId)
    ensures { AreNoted (instance_mark id tasks.now) marks.old marks.new }
{
    for task in tasks {
        note_instance(marks, task.get(), id);
    }
}

fn note_instance(marks: &mut [Option<Mark>], task: &Task, id: TaskId)
    ensures { AreNoted (instance_mark id (task.now ∷ [])) marks.old marks.new }
{
    if let Some(place) = place_of_instance(task, id) {
        note(marks, place, shown_mark(task));
    }
}

fn note_gone(marks: &mut [Option<Mark>], gone: &[Gone], id: TaskId)
    ensures { AreNoted (gone_mark id gone.now) marks.old marks.new }
{
    for place in gone {
        note_place(marks, place, id);
    }
}

fn note_place(marks: &mut [Option<Mark>], gone: &Gone, id: TaskId)
    ensures { AreNoted (gone_mark id (gone.now ∷ [])) marks.old marks.new }
{
    if gone.template == id {
        note(marks, gone.place, gone.mark);
    }
}

/// Notes the mark at a place that has none.
fn note(marks: &mut [Option<Mark>], place: u32, mark: Mark)
    ensures { AreNoted (λ k. if place == k then Some mark else None) marks.old marks.new }
{
    let place = place as usize;
    if place < marks.len() && marks[place].is_none() {
        marks[place] = Some(mark);
    }
}

fn shown_mark(task: &Task) -> Mark
    ensures { result ≡ shown_mark task.now }
{
    match Mark::of(task.status) {
        Some(mark) => mark,
        None => unknown_mark(),
    }
}

/// The mark of a place of which nothing is known.
#[tactic(auto, unfolding(tb_task::specs::Mask::is_mark))]
fn unknown_mark() -> Mark
    ensures { result ≡ 63 }
{
    match Mark::read(b'?') {
        Some(mark) => mark,
        None => unreachable!(),
    }
}

fn written_marks(alloc: Global, marks: &[Option<Mark>]) -> Result<Mask, AllocError>
    ensures { IfOk result (λ text. text ≡ map (λ o. unwrap_or o 63) marks.now) }
{
    let mut mask = Mask::new(alloc);
    for mark in marks {
        mask.push(mark_or_unknown(*mark))?;
    }
    Ok(mask)
}

fn mark_or_unknown(mark: Option<Mark>) -> Mark
    ensures { result ≡ unwrap_or mark 63 }
{
    match mark {
        Some(mark) => mark,
        None => unknown_mark(),
    }
}
