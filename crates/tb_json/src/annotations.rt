//! Annotations: an array of objects with a moment and a text.

ghost use Rattle.std.specs.Prelude.{◌≡◌, [], codes, IfOk};
ghost use Rattle.serde_json.specs.View.{view, items_view};
ghost use Rattle.tb_json.specs.Annotations.{annotation_form, annotations_of as all_annotations, annotations_form};
ghost use Rattle.tb_json.specs.Attribute.{attribute};
ghost use Rattle.tb_json.specs.Outcome.{Reads};

use crate::attribute::given;
use crate::fault::{JsonFault, bad_field};
use serde_json::Value;
use std::alloc::{AllocError, Global};
use tb_task::{Annotation, Moment};
use tb_values::{Items, Text};

fn annotation_of(alloc: Global, value: &Value) -> Result<Option<Annotation>, AllocError>
    ensures { IfOk result (λ a. a ≡ annotation_form (view value.now)) }
{
    let entry = value.get("entry").and_then(Value::as_str);
    let Some(entry) = entry.and_then(|text| Moment::read(text.as_bytes())) else {
        return Ok(None);
    };
    let Some(text) = value.get("description").and_then(Value::as_str) else {
        return Ok(None);
    };
    let description = Text::from_str(alloc, text)?;
    Ok(Some(Annotation { entry, description }))
}

fn annotations_of(alloc: Global, list: &Vec<Value>) -> Result<Option<Items<Annotation>>, AllocError>
    ensures { IfOk result (λ a. a ≡ all_annotations [] (items_view list.now.items)) }
{
    let mut annotations = Items::new(alloc);
    for item in list {
        let Some(annotation) = annotation_of(alloc, item)? else {
            return Ok(None);
        };
        annotations.push(annotation)?;
    }
    Ok(Some(annotations))
}

fn annotations_in(alloc: Global, value: &Value) -> Result<Option<Items<Annotation>>, AllocError>
    ensures { IfOk result (λ a. a ≡ annotations_form (view value.now)) }
{
    match value {
        Value::Array(list) => annotations_of(alloc, list),
        _ => Ok(None),
    }
}

pub(crate) fn annotations_at(
    alloc: Global,
    object: &Value,
) -> Result<Option<Items<Annotation>>, JsonFault>
    ensures { Reads result (attribute annotations_form (codes "annotations") (view object.now)) }
{
    let Some(member) = given(object, "annotations") else {
        return Ok(None);
    };
    let annotations = annotations_in(alloc, member)?;
    if annotations.is_none() {
        return Err(bad_field(alloc, "annotations"));
    }
    Ok(annotations)
}
