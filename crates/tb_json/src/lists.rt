//! Lists of texts: an array, or one text that is split at commas.

ghost use Rattle.std.specs.Prelude.{◌≡◌, [], codes, map, IfOk, OnOk, option_map, string_bytes};
ghost use Rattle.std.specs.List.Sorted.{IsStrictlySortedBy};
ghost use Rattle.std.specs.BTreeSet.{insert_key};
ghost use Rattle.std.specs.Cmp.Lexicographic.{slice_cmp};
ghost use Rattle.std.specs.Ordering.{nat_cmp};
ghost use Rattle.serde_json.specs.View.{view, items_view};
ghost use Rattle.tb_json.specs.Attribute.{attribute};
ghost use Rattle.tb_json.specs.Lists.{texts_of as all_texts, parts_of as parts, filled, ids_of as all_ids, with_ids, tags_form, depends_form};
ghost use Rattle.tb_json.specs.Outcome.{Reads};
ghost use Rattle.tb_values.specs.Texts.{with_texts};

use crate::attribute::given;
use crate::fault::{JsonFault, bad_field};
use serde_json::Value;
use std::alloc::{AllocError, Global};
use std::collections::BTreeSet;
use tb_task::TaskId;
use tb_values::{Items, Ordered, Text, TextSet};

/// The texts of an array, or nothing where it has something else.
fn texts_of<'v>(alloc: Global, list: &'v Vec<Value>) -> Result<Option<Vec<&'v str>>, AllocError>
    ensures { IfOk result
        (λ texts. option_map (λ v. map (λ text. text.now) v.items) texts
        ≡ all_texts [] (items_view list.now.items)) }
{
    let mut texts = Vec::new(alloc);
    for item in list {
        let Some(text) = item.as_str() else {
            return Ok(None);
        };
        texts.push(text)?;
    }
    Ok(Some(texts))
}

/// The parts of a text around its commas.
fn parts_of(alloc: Global, text: &str) -> Result<Vec<&str>, AllocError>
    ensures { IfOk result (λ v. map (λ part. part.now) v.items ≡ parts text.now) }
{
    text.split(',').collect(alloc)
}

/// The parts of a text that aren't empty.
fn filled_parts(alloc: Global, text: &str) -> Result<Vec<&str>, AllocError>
    ensures { IfOk result (λ v. map (λ part. part.now) v.items ≡ filled (parts text.now)) }
{
    text.split(',').filter(|part| part.len() > 0).collect(alloc)
}

/// The texts in byte order, each once.
fn ordered_texts(alloc: Global, texts: &[&str]) -> Result<Ordered<Text>, AllocError>
    ensures { IfOk result (λ list. list ≡ with_texts [] (map (λ text. text.now) texts.now)) }
{
    let mut set = TextSet::new(alloc);
    for text in texts {
        set.insert(alloc, text)?;
    }
    set.into_ordered(alloc)
}

fn ids_of(alloc: Global, texts: &[&str]) -> Result<Option<Vec<TaskId>>, AllocError>
    ensures { IfOk result
        (λ ids. option_map (λ v. v.items) ids ≡ all_ids [] (map (λ text. text.now) texts.now)) }
{
    let mut ids = Vec::new(alloc);
    for text in texts {
        let Some(id) = TaskId::read(text) else {
            return Ok(None);
        };
        ids.push(id)?;
    }
    Ok(Some(ids))
}

fn id_set_of(alloc: Global, ids: &[TaskId]) -> Result<BTreeSet<TaskId>, AllocError>
    ensures { IfOk result (λ set. set.keys ≡ with_ids [] ids.now) }
{
    let mut set = BTreeSet::new(alloc);
    for id in ids {
        set.insert(*id)?;
    }
    Ok(set)
}

fn listed_ids(alloc: Global, set: BTreeSet<TaskId>) -> Result<Items<TaskId>, AllocError>
    ensures ids { IfOk result (λ list. list ≡ set.keys) }
    ensures increasing { IfOk result (λ list. IsStrictlySortedBy nat_cmp list) }
{
    let mut list = Items::new(alloc);
    for id in set {
        list.push(id)?;
    }
    Ok(list)
}

/// The identifiers in order, each once.
fn ordered_ids(alloc: Global, ids: &[TaskId]) -> Result<Ordered<TaskId>, AllocError>
    ensures { IfOk result (λ list. list ≡ with_ids [] ids.now) }
{
    let list = listed_ids(alloc, id_set_of(alloc, ids)?)?;
    Ok(Ordered::from_increasing(list))
}

pub(crate) fn tags_of(alloc: Global, value: &Value) -> Result<Option<Ordered<Text>>, AllocError>
    ensures { IfOk result (λ tags. tags ≡ tags_form (view value.now)) }
{
    let texts = match value {
        Value::String(text) => filled_parts(alloc, text)?,
        Value::Array(list) => match texts_of(alloc, list)? {
            Some(texts) => texts,
            None => return Ok(None),
        },
        _ => return Ok(None),
    };
    Ok(Some(ordered_texts(alloc, &texts)?))
}

pub(crate) fn depends_in(
    alloc: Global,
    value: &Value,
) -> Result<Option<Ordered<TaskId>>, AllocError>
    ensures { IfOk result (λ ids. ids ≡ depends_form (view value.now)) }
{
    let texts = match value {
        Value::String(text) => parts_of(alloc, text)?,
        Value::Array(list) => match texts_of(alloc, list)? {
            Some(texts) => texts,
            None => return Ok(None),
        },
        _ => return Ok(None),
    };
    match ids_of(alloc, &texts)? {
        Some(ids) => Ok(Some(ordered_ids(alloc, &ids)?)),
        None => Ok(None),
    }
}

pub(crate) fn tags_at(alloc: Global, object: &Value) -> Result<Option<Ordered<Text>>, JsonFault>
    ensures { Reads result (attribute tags_form (codes "tags") (view object.now)) }
{
    let Some(member) = given(object, "tags") else {
        return Ok(None);
    };
    let tags = tags_of(alloc, member)?;
    if tags.is_none() {
        return Err(bad_field(alloc, "tags"));
    }
    Ok(tags)
}

pub(crate) fn depends_at(
    alloc: Global,
    object: &Value,
) -> Result<Option<Ordered<TaskId>>, JsonFault>
    ensures { Reads result (attribute depends_form (codes "depends") (view object.now)) }
{
    let Some(member) = given(object, "depends") else {
        return Ok(None);
    };
    let depends = depends_in(alloc, member)?;
    if depends.is_none() {
        return Err(bad_field(alloc, "depends"));
    }
    Ok(depends)
}
