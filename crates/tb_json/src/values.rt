//! The JSON values of a task's attributes.

ghost use Rattle.std.specs.Prelude.{◌≡◌, IfOk};
ghost use Rattle.serde_json.specs.Data.{array};
ghost use Rattle.serde_json.specs.View.{view, items_view};
ghost use Rattle.tb_json.specs.Writing.{moment_data, id_data, items_of_texts, items_of_ids, annotation_data, items_of_annotations, value_data};

use serde_json::{Map, Value, put};
use std::alloc::{AllocError, Global};
use tb_task::{Annotation, ExtraValue, Moment, TaskId};
use tb_values::Text;

pub(crate) fn moment_value(alloc: Global, moment: Moment) -> Result<Value, AllocError>
    ensures { IfOk result (λ value. view value ≡ moment_data moment) }
{
    Ok(Value::String(moment.text(alloc)?.into_string()))
}

pub(crate) fn id_value(alloc: Global, id: TaskId) -> Result<Value, AllocError>
    ensures { IfOk result (λ value. view value ≡ id_data id) }
{
    Ok(Value::String(id.text(alloc)?.into_string()))
}

pub(crate) fn text_values(alloc: Global, texts: &[Text]) -> Result<Vec<Value>, AllocError>
    ensures { IfOk result (λ list. items_view list.items ≡ items_of_texts texts.now) }
{
    let mut list = Vec::new(alloc);
    for text in texts {
        list.push(Value::try_from_str(alloc, text.as_str())?)?;
    }
    Ok(list)
}

pub(crate) fn id_values(alloc: Global, ids: &[TaskId]) -> Result<Vec<Value>, AllocError>
    ensures { IfOk result (λ list. items_view list.items ≡ items_of_ids ids.now) }
{
    let mut list = Vec::new(alloc);
    for id in ids {
        list.push(id_value(alloc, *id)?)?;
    }
    Ok(list)
}

#[tactic(auto, unfolding(crate::specs::Writing::annotation_data))]
fn annotation_value(alloc: Global, annotation: &Annotation) -> Result<Value, AllocError>
    ensures { IfOk result (λ value. view value ≡ annotation_data annotation.now) }
{
    let mut object = Map::new(alloc);
    let text = Value::try_from_str(alloc, annotation.description.as_str())?;
    put(&mut object, alloc, "description", text)?;
    put(
        &mut object,
        alloc,
        "entry",
        moment_value(alloc, annotation.entry)?,
    )?;
    Ok(Value::Object(object))
}

pub(crate) fn annotation_values(
    alloc: Global,
    annotations: &[Annotation],
) -> Result<Vec<Value>, AllocError>
    ensures { IfOk result (λ list. items_view list.items ≡ items_of_annotations annotations.now) }
{
    let mut list = Vec::new(alloc);
    for annotation in annotations {
        list.push(annotation_value(alloc, annotation)?)?;
    }
    Ok(list)
}

pub(crate) fn extra_value(alloc: Global, value: &ExtraValue) -> Result<Value, AllocError>
    ensures { IfOk result (λ made. view made ≡ value_data value.now) }
{
    Ok(match value {
        ExtraValue::Text(text) => Value::try_from_str(alloc, text.as_str())?,
        ExtraValue::Whole(number) => Value::from(*number),
        ExtraValue::Truth(truth) => Value::Bool(*truth),
        ExtraValue::Null => Value::Null,
    })
}
