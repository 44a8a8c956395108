//! What a word of `add` or `change` says of a task.
ghost use Rattle.std.specs.Prelude.{◌≡◌, ◌<◌, IfOk, codes, drop, length, option_map, slice_index};
ghost use Rattle.tb_my.specs.Outcome.{Reads};
ghost use Rattle.tb_my.specs.Part.{after_either, date_part, has_sign, is_named, is_rest_of_name, is_value, last_part, marked_part, named_part, option_part, other_part, part_of, person_part, priority_part, removal, set_to, step_part, tagged, text_part};

use crate::days::{after_key, moment_named};
use crate::fault::{MyFault, no_attribute, no_day, no_option, no_priority, no_step};
use crate::splitting::filled_parts;
use crate::zone::Clock;
use std::alloc::{AllocError, Global};
use tb_task::Step;
use tb_values::{Items, Text};

/// An attribute under its name, and what it is set to: nothing removes it.
#[derive(Debug, Drop)]
pub struct Setting {
    pub name: Text,
    pub value: Option<Text>,
}

/// What a word says.
#[derive(Drop)]
pub(crate) enum Part {
    Set(Setting),
    /// `@tag`, or `tags:a,b`.
    Tags(Items<Text>),
    /// `-@tag`.
    Untag(Text),
    /// The tasks on which it depends.
    Needs(Text),
    /// The answer is printed as it comes.
    Json,
    /// It is one of the description.
    Plain,
}

/// What a word says by a clock to the person of a name.
pub(crate) fn part_of(alloc: Global, clock: &Clock, me: &Text, word: &str) -> Result<Part, MyFault>
    ensures { Reads result (part_of clock.now me.now word.now) }
{
    if has_sign(word.as_bytes(), b'+') {
        return Ok(set_to(alloc, "project", after_sign(word))?);
    }
    if has_sign(word.as_bytes(), b'@') {
        return Ok(tagged(alloc, after_sign(word))?);
    }
    match after_key(word, "-@") {
        Some(tag) => Ok(Part::Untag(Text::from_str(alloc, tag)?)),
        None => marked_part(alloc, clock, me, word),
    }
}

fn tagged(alloc: Global, tag: &str) -> Result<Part, AllocError>
    ensures { IfOk result (λ part. part ≡ tagged tag.now) }
{
    let mut tags = Items::new(alloc);
    tags.push(Text::from_str(alloc, tag)?)?;
    Ok(Part::Tags(tags))
}

/// An option, or an attribute by the key in front.
fn marked_part(alloc: Global, clock: &Clock, me: &Text, word: &str) -> Result<Part, MyFault>
    ensures { Reads result (marked_part clock.now me.now word.now) }
{
    match after_key(word, "--") {
        Some(name) => option_part(alloc, word, name),
        None => named_part(alloc, clock, me, word),
    }
}

fn option_part(alloc: Global, word: &str, name: &str) -> Result<Part, MyFault>
    ensures { Reads result (option_part word.now name.now) }
{
    if name == "json" {
        Ok(Part::Json)
    } else {
        Err(no_option(alloc, word))
    }
}

/// A date, or another attribute, by the key in front.
#[tactic(auto, unfolding(crate::specs::Part::named_part))]
fn named_part(alloc: Global, clock: &Clock, me: &Text, word: &str) -> Result<Part, MyFault>
    ensures { Reads result (named_part clock.now me.now word.now) }
{
    if let Some(value) = after_key(word, "due:") {
        return date_part(alloc, clock, "due", value);
    }
    if let Some(value) = after_either(word, "wait:", "wai:") {
        return date_part(alloc, clock, "wait", value);
    }
    if let Some(value) = after_either(word, "scheduled:", "sched:") {
        return date_part(alloc, clock, "scheduled", value);
    }
    if let Some(value) = after_either(word, "until:", "unt:") {
        return date_part(alloc, clock, "until", value);
    }
    other_part(alloc, me, word)
}

#[tactic(auto, unfolding(crate::specs::Part::other_part))]
fn other_part(alloc: Global, me: &Text, word: &str) -> Result<Part, MyFault>
    ensures { Reads result (other_part me.now word.now) }
{
    if let Some(value) = after_either(word, "pri:", "priority:") {
        return priority_part(alloc, value);
    }
    if let Some(value) = after_either(word, "project:", "pro:") {
        return Ok(text_part(alloc, "project", value)?);
    }
    if let Some(value) = after_either(word, "for:", "assignee:") {
        return Ok(person_part(alloc, me, value)?);
    }
    last_part(alloc, word)
}

#[tactic(auto, unfolding(crate::specs::Part::last_part))]
fn last_part(alloc: Global, word: &str) -> Result<Part, MyFault>
    ensures { Reads result (last_part word.now) }
{
    if let Some(value) = after_either(word, "rec:", "recur:") {
        return step_part(alloc, value);
    }
    if let Some(value) = after_either(word, "depends:", "dep:") {
        return Ok(Part::Needs(Text::from_str(alloc, value)?));
    }
    if let Some(value) = after_either(word, "tags:", "tag:") {
        return Ok(Part::Tags(filled_parts(alloc, value)?));
    }
    if is_named(word.as_bytes()) {
        return Err(no_attribute(alloc, word));
    }
    Ok(Part::Plain)
}

/// What follows one of two keys.
pub(crate) fn after_either<'t>(word: &'t str, key: &str, other: &str) -> Option<&'t str>
    ensures { option_map (λ rest. rest.now) result ≡ after_either key.now other.now word.now }
{
    match after_key(word, key) {
        Some(rest) => Some(rest),
        None => after_key(word, other),
    }
}

/// Whether a word looks as an attribute does: letters, a colon, and more than an address.
pub(crate) fn is_named(word: &[u8]) -> bool
    ensures { result ≡ is_named word.now }
{
    match word {
        [first, rest @ ..] => first.is_ascii_alphabetic() && is_rest_of_name(rest),
        [] => false,
    }
}

fn is_rest_of_name(word: &[u8]) -> bool
    ensures { result ≡ is_rest_of_name word.now }
{
    for (index, byte) in word.iter().enumerate() {
        if !byte.is_ascii_alphabetic() {
            return *byte == b':' && is_value(&word[index + 1..]);
        }
    }
    false
}

fn is_value(word: &[u8]) -> bool
    ensures { result ≡ is_value word.now }
{
    match word {
        [first, ..] => *first != b'/',
        [] => false,
    }
}

fn date_part(alloc: Global, clock: &Clock, name: &str, value: &str) -> Result<Part, MyFault>
    ensures { Reads result (date_part clock.now name.now value.now) }
{
    if value.is_empty() {
        return Ok(removal(alloc, name)?);
    }
    match moment_named(alloc, clock, value)? {
        Some(moment) => Ok(set_to(alloc, name, moment.text(alloc)?.as_str())?),
        None => Err(no_day(alloc, value)),
    }
}

fn priority_part(alloc: Global, value: &str) -> Result<Part, MyFault>
    ensures { Reads result (priority_part value.now) }
{
    match value {
        "" => Ok(removal(alloc, "priority")?),
        "H" | "M" | "L" => Ok(set_to(alloc, "priority", value)?),
        _ => Err(no_priority(alloc, value)),
    }
}

/// A person: `me` is who says so.
fn person_part(alloc: Global, me: &Text, value: &str) -> Result<Part, AllocError>
    ensures { IfOk result (λ part. part ≡ person_part me.now value.now) }
{
    if value == "me" {
        set_to(alloc, "assignee", me.as_str())
    } else {
        text_part(alloc, "assignee", value)
    }
}

fn step_part(alloc: Global, value: &str) -> Result<Part, MyFault>
    ensures { Reads result (step_part value.now) }
{
    if value.is_empty() {
        return Ok(removal(alloc, "recur")?);
    }
    match Step::read(value) {
        Some(_) => Ok(set_to(alloc, "recur", value)?),
        None => Err(no_step(alloc, value)),
    }
}

fn text_part(alloc: Global, name: &str, value: &str) -> Result<Part, AllocError>
    ensures { IfOk result (λ part. part ≡ text_part name.now value.now) }
{
    if value.is_empty() {
        removal(alloc, name)
    } else {
        set_to(alloc, name, value)
    }
}

fn set_to(alloc: Global, name: &str, value: &str) -> Result<Part, AllocError>
    ensures { IfOk result (λ part. part ≡ set_to name.now value.now) }
{
    Ok(Part::Set(Setting {
        name: Text::from_str(alloc, name)?,
        value: Some(Text::from_str(alloc, value)?),
    }))
}

fn removal(alloc: Global, name: &str) -> Result<Part, AllocError>
    ensures { IfOk result (λ part. part ≡ removal name.now) }
{
    Ok(Part::Set(Setting {
        name: Text::from_str(alloc, name)?,
        value: None,
    }))
}

/// Whether a sign stands first, with at least one character after it.
pub(crate) fn has_sign(word: &[u8], sign: u8) -> bool
    ensures { result ≡ has_sign sign word.now }
{
    word.len() > 1 && word[0] == sign
}

/// What follows the sign of a word.
pub(crate) fn after_sign(word: &str) -> &str
    requires long { 1 < length word.now }
    requires sign { slice_index word.now 0 < 128 }
    ensures { result.now ≡ drop 1 word.now }
{
    &word[1..]
}
