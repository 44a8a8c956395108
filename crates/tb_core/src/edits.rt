ghost use Rattle.std.specs.Prelude.{◌≡◌, [], IfOk, option_and_then, unwrap_or};
ghost use Rattle.tb_core.specs.Edits.{edited, edited_by, extended, extra_in, given_moment, given_text, modified, names, priority_in, settled_again, tags_in, touched, unless_empty, with_extra};

use std::alloc::{AllocError, Global};
use tb_board::{is_pending_or_waiting_status, settled_status};
use tb_task::{Edit, Extra, ExtraValue, Given, Moment, Priority, Status, Task, is_attribute};
use tb_values::{Duplicate, NonEmptyText, Ordered, Text};

/// Whether an edit names the attribute.
pub fn is_named(edits: &[Edit], name: &str) -> bool
    ensures { result ≡ names name.now edits.now }
{
    edits.iter().any(|edit| edit.name.as_str() == name)
}

/// The task with all the edits, changed at the moment even where there are none.
pub fn modified_task(
    alloc: Global,
    task: &Task,
    edits: &[Edit],
    at: Moment,
) -> Result<Task, AllocError>
    ensures { IfOk result (λ t. t ≡ modified at edits.now task.now) }
{
    let task = task_with(alloc, task.duplicate()?, edits)?;
    Ok(touched_task(task, at))
}

fn touched_task(mut task: Task, at: Moment) -> Task
    ensures { result ≡ touched at task }
{
    task.status = status_settled(&task, at);
    task.modified = Some(at);
    task
}

fn status_settled(task: &Task, at: Moment) -> Status
    ensures { result ≡ settled_again at task.now }
{
    if is_pending_or_waiting_status(task.status) {
        settled_status(task.wait, at)
    } else {
        task.status
    }
}

/// One edit after the other.
fn task_with(alloc: Global, mut task: Task, edits: &[Edit]) -> Result<Task, AllocError>
    ensures { IfOk result (λ t. t ≡ edited_by edits.now task) }
{
    for edit in edits {
        task = edited_task(alloc, task, edit)?;
    }
    Ok(task)
}

/// The named attribute is set, or removed where no value of its kind is given.
#[tactic(auto, unfolding(crate::specs::Edits::edited))]
fn edited_task(alloc: Global, task: Task, edit: &Edit) -> Result<Task, AllocError>
    ensures { IfOk result (λ t. t ≡ edited edit.now task) }
{
    let value = &edit.value;
    match edit.name.as_str() {
        "description" => Ok(Task {
            description: any_text(alloc, value)?,
            ..task
        }),
        "due" => Ok(Task {
            due: moment_given(value),
            ..task
        }),
        "priority" => Ok(Task {
            priority: priority_given(value),
            ..task
        }),
        "project" => Ok(Task {
            project: filled_text(value)?,
            ..task
        }),
        "recur" => Ok(Task {
            recur: filled_text(value)?,
            ..task
        }),
        "scheduled" => Ok(Task {
            scheduled: moment_given(value),
            ..task
        }),
        "tags" => Ok(Task {
            tags: any_tags(alloc, value)?,
            ..task
        }),
        "until" => Ok(Task {
            until: moment_given(value),
            ..task
        }),
        "wait" => Ok(Task {
            wait: moment_given(value),
            ..task
        }),
        _ => extended_task(task, edit),
    }
}

/// The task with an attribute that the task format doesn't know.
#[tactic(auto, unfolding(crate::specs::Edits::extended))]
fn extended_task(task: Task, edit: &Edit) -> Result<Task, AllocError>
    ensures { IfOk result (λ t. t ≡ extended edit.now task) }
{
    if is_attribute(edit.name.as_str()) {
        return Ok(task);
    }
    Ok(Task {
        extras: extras_with(task.extras, &edit.name, &edit.value)?,
        ..task
    })
}

fn any_text(alloc: Global, value: &Option<Given>) -> Result<Text, AllocError>
    ensures { IfOk result (λ text. text ≡ unwrap_or (given_text value.now) []) }
{
    match value {
        Some(Given::Text(text)) => text.duplicate(),
        _ => Ok(Text::new(alloc)),
    }
}

fn filled_text(value: &Option<Given>) -> Result<Option<NonEmptyText>, AllocError>
    ensures { IfOk result (λ text. text ≡ unless_empty (given_text value.now)) }
{
    match value {
        Some(Given::Text(text)) => Ok(NonEmptyText::from_text(text.duplicate()?)),
        _ => Ok(None),
    }
}

fn moment_given(value: &Option<Given>) -> Option<Moment>
    ensures { result ≡ given_moment value.now }
{
    match value {
        Some(Given::Moment(moment)) => Some(*moment),
        _ => None,
    }
}

fn priority_given(value: &Option<Given>) -> Option<Priority>
    ensures { result ≡ option_and_then priority_in value.now }
{
    match value {
        Some(Given::Priority(priority)) => Some(*priority),
        _ => None,
    }
}

fn any_tags(alloc: Global, value: &Option<Given>) -> Result<Ordered<Text>, AllocError>
    ensures { IfOk result (λ tags. tags ≡ unwrap_or (option_and_then tags_in value.now) []) }
{
    match value {
        Some(Given::Tags(tags)) => tags.duplicate(),
        _ => Ok(Ordered::new(alloc)),
    }
}

fn extra_given(value: &Option<Given>) -> Result<Option<ExtraValue>, AllocError>
    ensures { IfOk result (λ extra. extra ≡ option_and_then extra_in value.now) }
{
    Ok(match value {
        Some(Given::Text(text)) => Some(ExtraValue::Text(text.duplicate()?)),
        Some(Given::Number(number)) => Some(ExtraValue::Whole(*number)),
        Some(Given::Truth(truth)) => Some(ExtraValue::Truth(*truth)),
        _ => None,
    })
}

fn extras_with(
    mut extras: Ordered<Extra>,
    name: &NonEmptyText,
    value: &Option<Given>,
) -> Result<Ordered<Extra>, AllocError>
    ensures { IfOk result
        (λ later. later ≡ with_extra name.now (option_and_then extra_in value.now) extras) }
{
    let name = name.duplicate()?;
    match extra_given(value)? {
        Some(value) => extras.insert(Extra { name, value })?,
        None => {
            extras.remove(&Extra {
                name,
                value: ExtraValue::Null,
            });
        }
    }
    Ok(extras)
}
