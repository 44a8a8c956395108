ghost use Rattle.std.specs.Prelude.{◌≡◌, IfOk, MatchOption, position};
ghost use Rattle.std.specs.Set.{remove_key};
ghost use Rattle.tb_board.specs.First.{IsFirst, IsNone};
ghost use Rattle.tb_core.specs.Notes.{annotated, denotated, has_note, note_fault, says};

use std::alloc::AllocError;
use tb_task::{Annotation, Field, Moment, Task, is_unfit};
use tb_values::{Duplicate, Items, Text};

/// What is wrong with a text as an annotation.
pub fn fault_in_note(text: &Text) -> Option<Field>
    ensures { result ≡ note_fault text.now }
{
    if text.is_empty() {
        Some(Field::EmptyDescription)
    } else if is_unfit(text.as_str()) {
        Some(Field::BadText)
    } else {
        None
    }
}

/// Whether an annotation of the task says just this.
pub fn has_note_of(task: &Task, text: &Text) -> bool
    ensures { result ≡ has_note text.now task.now }
{
    task.annotations
        .as_slice()
        .iter()
        .any(|note| note.description.is(text))
}

/// The task with one annotation more, the last, made at a moment.
pub fn annotated_task(task: &Task, text: &Text, at: Moment) -> Result<Task, AllocError>
    ensures { IfOk result (λ t. t ≡ annotated at text.now task.now) }
{
    let description = text.duplicate()?;
    let mut task = task.duplicate()?;
    task.annotations.push(Annotation {
        entry: at,
        description,
    })?;
    task.modified = Some(at);
    Ok(task)
}

/// The task without the first annotation that says this.
pub fn denotated_task(task: &Task, text: &Text, at: Moment) -> Result<Task, AllocError>
    ensures { IfOk result (λ t. t ≡ denotated at text.now task.now) }
{
    let annotations = notes_without(task.annotations.duplicate()?, text);
    let mut task = task.duplicate()?;
    task.annotations = annotations;
    task.modified = Some(at);
    Ok(task)
}

/// The annotations without the first that says this.
fn notes_without(mut notes: Items<Annotation>, text: &Text) -> Items<Annotation>
    ensures { result ≡ remove_key (says text.now) notes }
{
    let Some(place) = place_of_note(notes.as_slice(), text) else {
        return notes;
    };
    notes.remove(place);
    notes
}

fn place_of_note(notes: &[Annotation], text: &Text) -> Option<usize>
    ensures { MatchOption result (IsNone (says text.now) notes.now)
        (IsFirst (says text.now) notes.now) }
{
    first_note(notes, text)
}

fn first_note(notes: &[Annotation], text: &Text) -> Option<usize>
    ensures { result ≡ position (says text.now) notes.now }
{
    notes.iter().position(|note| note.description.is(text))
}
