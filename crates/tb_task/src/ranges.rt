//! What the types of a task's attributes keep of every task, told by functions that only look.

ghost use Rattle.std.specs.Prelude.{◌≡◌, ◌≤◌, ◌<◌, ◌^◌, IfSome, length};
ghost use Rattle.std.specs.List.{AllByRecursion};
ghost use Rattle.tb_task.specs.Storable.{IsMoment, IsId, IsNotEmpty, HasMoments, IsValue};
ghost use Rattle.tb_task.specs.Ranges.{HasLinks, HasTexts, IsNamedExtra};

use crate::extra::{Extra, ExtraValue};
use crate::moment::Moment;
use crate::task::{Annotation, Task};
use crate::task_id::TaskId;
use tb_values::NonEmptyText;

/// The moments of a task are not after the last.
pub(crate) fn has_moments(task: &Task)
    ensures { HasMoments task.now }
{
    is_moment(task.entry);
    is_moment_if_some(task.modified);
    is_moment_if_some(task.start);
    is_moment_if_some(task.end);
    is_moment_if_some(task.due);
    is_moment_if_some(task.wait);
    is_moment_if_some(task.scheduled);
    is_moment_if_some(task.until);
}

fn is_moment(moment: Moment)
    ensures { IsMoment moment }
{
    let _seconds = moment.seconds();
}

fn is_moment_if_some(moment: Option<Moment>)
    ensures { IfSome moment IsMoment }
{
    if let Some(moment) = moment {
        is_moment(moment);
    }
}

/// Its identifiers have 128 bits, and its place in a mask 32.
pub(crate) fn has_links(task: &Task)
    ensures { HasLinks task.now }
{
    is_id(task.id);
    is_id_if_some(task.parent);
    is_place_if_some(task.imask);
    are_ids(task.depends.as_slice());
}

fn is_id(id: TaskId)
    ensures { IsId id }
{
    let _number = id.number();
}

fn is_id_if_some(id: Option<TaskId>)
    ensures { IfSome id IsId }
{
    if let Some(id) = id {
        is_id(id);
    }
}

fn is_place_if_some(place: Option<u32>)
    ensures { IfSome place (λ n. n < 2 ^ 32) }
{
    if let Some(place) = place {
        let _place = place;
    }
}

fn are_ids(ids: &[TaskId])
    ensures { AllByRecursion IsId ids.now }
{
    for id in ids {
        is_id(*id);
    }
}

/// Its project and recurrence are not empty, and its notes are from moments.
pub(crate) fn has_texts(task: &Task)
    ensures { HasTexts task.now }
{
    is_not_empty_if_some(&task.project);
    is_not_empty_if_some(&task.recur);
    are_annotations(task.annotations.as_slice());
    let _tags = task.tags.as_slice();
}

fn is_not_empty_if_some(text: &Option<NonEmptyText>)
    ensures { IfSome text.now IsNotEmpty }
{
    if let Some(text) = text {
        let _length = text.len();
    }
}

fn are_annotations(annotations: &[Annotation])
    ensures { AllByRecursion (λ a. IsMoment a.entry) annotations.now }
{
    for annotation in annotations {
        is_moment(annotation.entry);
    }
}

/// Its extra attributes have names, and their numbers 64 bits with sign.
pub(crate) fn are_named(extras: &[Extra])
    ensures { AllByRecursion IsNamedExtra extras.now }
{
    for extra in extras {
        is_named(extra);
    }
}

fn is_named(extra: &Extra)
    ensures { IsNamedExtra extra.now }
{
    let _length = extra.name.len();
    is_value(&extra.value);
}

fn is_value(value: &ExtraValue)
    ensures { IsValue value.now }
{
    if let ExtraValue::Whole(number) = value {
        let _number = *number;
    }
}
