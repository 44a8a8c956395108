//! What an export notes of a board's instances, and rows as they are shown by the notes.

ghost use Rattle.std.specs.Prelude.{◌≡◌, ◌++◌, Err, IfOk, OnOk, filter};
ghost use Rattle.std.specs.Option.{option_map};
ghost use Rattle.tb_keeper.specs.declared.export_fault.ExportFault.TheVariants.{NoBoard};
ghost use Rattle.tb_keeper.specs.Noting.{is_note, is_noted, is_of, mark_by, marks_by, note_of, note_of_row, shown_row};

use crate::export_fault::ExportFault;
use crate::lending::StoredRow;
use std::alloc::{AllocError, Global};
use tb_board::{has_waited, woken_task};
use tb_task::{Mark, Mask, Moment, Shown, Task, TaskId};
use tb_values::{Items, Shared, Text};

/// The place of an instance of a template.
#[derive(Clone, Copy)]
pub(crate) struct Note {
    pub template: TaskId,
    pub place: u32,
}

/// Notes the place of the task of a row, if it is an instance whose wait is over.
pub(crate) fn note_row(
    notes: &mut Items<Note>,
    row: &Option<StoredRow>,
    at: Moment,
) -> Result<(), AllocError>
    ensures { OnOk result (notes.new ≡ notes.old ++ note_of_row at row.now) }
{
    match row {
        Some(row) => add_note(notes, &row.task, at),
        None => Ok(()),
    }
}

/// Notes the place of a task whose wait is over, if it is an instance.
fn add_note(notes: &mut Items<Note>, task: &Task, at: Moment) -> Result<(), AllocError>
    ensures { OnOk result (notes.new ≡ notes.old ++ note_of at task.now) }
{
    if !has_waited(task, at) {
        return Ok(());
    }
    let Some(template) = task.parent else {
        return Ok(());
    };
    let Some(place) = task.imask else {
        return Ok(());
    };
    notes.push(Note { template, place })
}

/// The task of a row as it is at a moment, with the mask by the notes.
pub(crate) fn shown_row(
    alloc: Global,
    row: StoredRow,
    notes: &[Note],
    at: Moment,
) -> Result<Shown, ExportFault>
    ensures shown { IfOk result (λ shown. shown ≡ shown_row notes.now at row) }
    ensures fault { result ≡ Err NoBoard → ⊥ }
{
    let StoredRow { task, mask, .. } = row;
    let mask = noted_mask(alloc, task.id, &mask, notes)?;
    let task = woken_task(alloc, &Shared::new(alloc, task)?, at)?;
    Ok(Shown { task, mask })
}

/// The mask that is stored, with a hyphen at each place that is noted. A text that is no mask is a failure of the store.
fn noted_mask(
    alloc: Global,
    id: TaskId,
    text: &Option<Text>,
    notes: &[Note],
) -> Result<Option<Mask>, ExportFault>
    ensures mask { IfOk result (λ mask. mask ≡ option_map (marks_by notes.now id 0) text.now) }
    ensures fault { result ≡ Err NoBoard → ⊥ }
{
    let Some(text) = text else {
        return Ok(None);
    };
    let Some(stored) = Mask::read(alloc, text.as_str())? else {
        return Err(ExportFault::Store);
    };
    let mask = marked(alloc, id, &stored, notes)?;
    Ok(Some(mask))
}

fn marked(alloc: Global, id: TaskId, stored: &Mask, notes: &[Note]) -> Result<Mask, AllocError>
    ensures { IfOk result (λ mask. mask ≡ marks_by notes.now id 0 stored.now) }
{
    let own = own_notes(alloc, notes, id)?;
    marked_by(alloc, id, stored, own.as_slice())
}

/// The notes of a template.
fn own_notes(alloc: Global, notes: &[Note], id: TaskId) -> Result<Items<Note>, AllocError>
    ensures { IfOk result (λ own. own ≡ filter (is_of id) notes.now) }
{
    let mut own = Items::new(alloc);
    for note in notes {
        if note.template == id {
            own.push(*note)?;
        }
    }
    Ok(own)
}

/// The marks by these notes.
fn marked_by(alloc: Global, id: TaskId, stored: &Mask, notes: &[Note]) -> Result<Mask, AllocError>
    ensures { IfOk result (λ mask. mask ≡ marks_by notes.now id 0 stored.now) }
{
    let mut mask = Mask::new(alloc);
    for place in 0..stored.len() {
        mask.push(mark_by(notes, id, place, stored.at(place)))?;
    }
    Ok(mask)
}

fn mark_by(notes: &[Note], id: TaskId, place: usize, mark: Mark) -> Mark
    ensures { result ≡ mark_by notes.now id place mark }
{
    if is_noted(notes, id, place) {
        hyphen()
    } else {
        mark
    }
}

fn is_noted(notes: &[Note], id: TaskId, place: usize) -> bool
    ensures { result ≡ is_noted notes.now id place }
{
    notes.iter().any(|note| is_note(note, id, place))
}

fn is_note(note: &Note, id: TaskId, place: usize) -> bool
    ensures { result ≡ is_note id place note.now }
{
    note.template == id && note.place as usize == place
}

/// The mark of an instance that is pending.
#[tactic(auto, unfolding(tb_task::specs::Mask::is_mark))]
fn hyphen() -> Mark
    ensures { result ≡ 45 }
{
    match Mark::read(b'-') {
        Some(mark) => mark,
        None => unreachable!(),
    }
}
