//! Lists, and lists that are kept in order.

use crate::finding::{Finding, missing, say, show};
use crate::given::{halves, read_place};
use std::alloc::{AllocError, Global};
use std::io;
use tb_task::{Extra, ExtraValue};
use tb_values::{Duplicate, Items, NonEmptyText, Ordered, Same, Text};

pub(crate) fn items_of(alloc: Global, words: &str) -> Result<Items<Text>, AllocError> {
    let mut items = Items::new(alloc);
    for word in words.split_whitespace() {
        items.push(Text::from_str(alloc, word)?)?;
    }
    Ok(items)
}

pub(crate) fn ordered_of(alloc: Global, words: &str) -> Result<Ordered<Text>, AllocError> {
    let mut texts = Ordered::new(alloc);
    for word in words.split_whitespace() {
        texts.insert(Text::from_str(alloc, word)?)?;
    }
    Ok(texts)
}

/// How many items there are, and each of them.
pub(crate) fn words_of(alloc: Global, items: &[Text]) -> Finding {
    let mut told = format!(in alloc; "{}", items.len())?;
    for item in items {
        told.push(' ')?;
        told.push_str(item.as_str())?;
    }
    Ok(told)
}

pub(crate) fn ordered(alloc: Global, words: &str) -> Finding {
    let texts = ordered_of(alloc, words)?;
    let items = texts.duplicate()?.into_items();
    if texts.len() != items.len() || texts.is_empty() != items.is_empty() {
        return say(alloc, "another length");
    }
    words_of(alloc, items.as_slice())
}

pub(crate) fn ordered_same(alloc: Global, given: &str) -> Finding {
    let (words, others) = given.split_once('|').unwrap_or((given, ""));
    let texts = ordered_of(alloc, words)?.duplicate()?;
    show(alloc, &texts.same(&ordered_of(alloc, others)?))
}

/// The extra attribute that `NAME=NUMBER` writes.
fn extra(alloc: Global, text: &str) -> io::Result<Extra> {
    let (name, value) = text.split_once('=').unwrap_or((text, ""));
    let value = ExtraValue::Whole(value.parse().unwrap_or(0));
    let name = NonEmptyText::from_str(alloc, name)?.ok_or(missing())?;
    Ok(Extra { name, value })
}

fn extras_of(alloc: Global, words: &str) -> io::Result<Ordered<Extra>> {
    let mut extras = Ordered::new(alloc);
    for word in words.split_whitespace() {
        extras.insert(extra(alloc, word)?)?;
    }
    Ok(extras)
}

fn value_of(extra: Option<&Extra>) -> Option<i64> {
    match extra?.value {
        ExtraValue::Whole(number) => Some(number),
        _ => None,
    }
}

/// What is found under a name, what is taken, what is taken then, and how many are left.
pub(crate) fn extra_taken(alloc: Global, name: &str, words: &str) -> Finding {
    let mut extras = extras_of(alloc, words)?;
    let count = extras.len();
    let key = extra(alloc, name)?;
    let found = value_of(extras.find(&key));
    let first = value_of(extras.remove(&key).as_ref());
    let second = value_of(extras.remove(&key).as_ref());
    let left = extras.len();
    Ok(format!(in alloc; "of {count} found {found:?} taken {first:?} then {second:?} left {left}")?)
}

/// Puts the first of the words at a place among the others.
pub(crate) fn item_set(alloc: Global, place: &str, words: &str) -> Finding {
    let (word, words) = halves(words);
    let mut items = items_of(alloc, words)?;
    let place = read_place(place);
    if place >= items.len() {
        return Err(missing());
    }
    items.set(place, Text::from_str(alloc, word)?);
    words_of(alloc, items.as_slice())
}

pub(crate) fn item_removed(alloc: Global, place: &str, words: &str) -> Finding {
    let mut items = items_of(alloc, words)?;
    let place = read_place(place);
    if place >= items.len() {
        return Err(missing());
    }
    let gone = items.remove(place);
    let left = words_of(alloc, items.as_slice())?;
    Ok(format!(in alloc; "{} of {left}", gone.as_str())?)
}

pub(crate) fn items_same(alloc: Global, given: &str) -> Finding {
    let (words, others) = given.split_once('|').unwrap_or((given, ""));
    let items = items_of(alloc, words)?.duplicate()?;
    show(alloc, &items.same(&items_of(alloc, others)?))
}
