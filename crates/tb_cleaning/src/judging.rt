//! Why an import can't take a task.

ghost use Rattle.std.specs.Prelude.{◌≡◌, IfOk, Err, Ok};
ghost use Rattle.serde_json.specs.View.{view};
ghost use Rattle.tb_cleaning.specs.Judging.{field_reason, form_of, form_reason, if_named, judged, member_reason, step_reason};

use crate::telling::push_line;
use crate::verdict::Verdict;
use serde_json::Value;
use std::alloc::{AllocError, Global};
use tb_json::{JsonFault, read_task};
use tb_task::{Field, Incoming, Moment, Task, check};
use tb_values::{NonEmptyText, Text};

const NO_OBJECT: &str = "it is no object";

const NO_UUID: &str = "it has no uuid";

const NO_DESCRIPTION: &str = "it has no description";

const BAD_TAG: &str = "a tag is empty or has a blank in it";

const BAD_TEXT: &str = "a text of it has the character 0 in it, or more than 16384 bytes";

const NO_DUE: &str = "it repeats, and has no due date";

const NO_STEP: &str = "it repeats, and has no step (recur)";

const A_STATUS: &str = "one of pending, waiting, recurring, completed, deleted";

const A_TEXT: &str = "a text";

const A_UUID: &str = "a uuid such as 00000001-0000-8000-8000-000000000001";

const A_MASK: &str = "made of -, +, X, W and ?, or is too long";

const A_LIST: &str = "a list of texts";

const LINKS: &str = "a list of uuids";

const A_NOTE: &str = "a list of notes, each with its moment and its text";

const A_MOMENT: &str = "a moment in UTC from 1970 to 9999, such as 20260131T090000Z";

/// What a member has to be.
#[tactic(auto, unfolding(crate::specs::Judging::form_of))]
fn form_of(name: &str) -> &'static str
    ensures { result.now ≡ form_of name.now }
{
    match name {
        "status" => A_STATUS,
        "priority" | "project" | "recur" => A_TEXT,
        "parent" | "uuid" => A_UUID,
        "mask" => A_MASK,
        "tags" => A_LIST,
        "depends" => LINKS,
        "annotations" => A_NOTE,
        _ => A_MOMENT,
    }
}

fn member_reason(alloc: Global, name: &str) -> Result<Text, AllocError>
    ensures { IfOk result (λ reason. reason ≡ member_reason name.now) }
{
    if name == "description" {
        return Text::from_str(alloc, NO_DESCRIPTION);
    }
    form_reason(alloc, name)
}

fn form_reason(alloc: Global, name: &str) -> Result<Text, AllocError>
    ensures { IfOk result (λ reason. reason ≡ form_reason name.now) }
{
    let mut reason = String::from_str(alloc, "its ")?;
    push_line(&mut reason, name)?;
    reason.push_str(" isn't ")?;
    reason.push_str(form_of(name))?;
    Ok(Text::from_string(reason))
}

fn step_reason(alloc: Global, recur: &Option<NonEmptyText>) -> Result<Text, AllocError>
    ensures { IfOk result (λ reason. reason ≡ step_reason recur.now) }
{
    let Some(recur) = recur else {
        return Text::from_str(alloc, NO_STEP);
    };
    let mut reason = String::from_str(alloc, "it repeats by ")?;
    push_line(&mut reason, recur.as_str())?;
    reason.push_str(", which boards can't")?;
    Ok(Text::from_string(reason))
}

fn field_reason(alloc: Global, task: &Task, field: Field) -> Result<Text, AllocError>
    ensures { IfOk result (λ reason. reason ≡ field_reason task.now field) }
{
    match field {
        Field::EmptyDescription => Text::from_str(alloc, NO_DESCRIPTION),
        Field::BadTag => Text::from_str(alloc, BAD_TAG),
        Field::BadText => Text::from_str(alloc, BAD_TEXT),
        Field::BadPair => match task.due {
            Some(_) => step_reason(alloc, &task.recur),
            None => Text::from_str(alloc, NO_DUE),
        },
    }
}

fn if_named(alloc: Global, incoming: Incoming) -> Result<Verdict, AllocError>
    ensures { IfOk result (λ verdict. verdict ≡ if_named incoming) }
{
    if !incoming.named {
        return Ok(Verdict::Refused(Text::from_str(alloc, NO_UUID)?));
    }
    match check(&incoming.task) {
        Ok(()) => Ok(Verdict::Taken(incoming)),
        Err(field) => {
            let reason = field_reason(alloc, &incoming.task, field)?;
            Ok(Verdict::Refused(reason))
        }
    }
}

/// Whether an import takes a task, which doesn't depend on its moment.
pub(crate) fn judged(alloc: Global, value: &Value) -> Result<Verdict, AllocError>
    ensures { IfOk result (λ verdict. verdict ≡ judged (view value.now)) }
{
    let start = Moment::from_seconds(0).unwrap();
    match read_task(alloc, value, start) {
        Ok(incoming) => if_named(alloc, incoming),
        Err(JsonFault::NotObject) => { Ok(Verdict::Refused(Text::from_str(alloc, NO_OBJECT)?)) }
        Err(JsonFault::BadField(name)) => {
            Ok(Verdict::Refused(member_reason(alloc, name.as_str())?))
        }
        Err(JsonFault::Memory) => Err(AllocError),
    }
}
