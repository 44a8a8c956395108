//! The projects or tags of found tasks.
ghost use Rattle.std.specs.Prelude.{◌≡◌, ◌≤◌, ◌++◌, [], IfOk, OnOk, length, slice_get, string_bytes};
ghost use Rattle.tb_finding.specs.Names.{all_names, count_of, name_line, name_lines, names_at, names_in, names_text, project_names};
ghost use Rattle.tb_values.specs.Texts.{with_texts};

use crate::finding::Key;
use crate::look::Look;
use std::alloc::{AllocError, Global};
use std::fmt::Write;
use tb_my::{Listing, push_shown};
use tb_task::Task;
use tb_values::{Duplicate, Items, NonEmptyText, Ordered, Text, TextSet};

/// A line for each project or tag of found tasks, in byte order, with the number of its tasks.
pub(crate) fn names_text(
    alloc: Global,
    listing: Listing,
    look: &Look,
    keys: &[Key],
) -> Result<Text, AllocError>
    ensures { IfOk result (λ text. text ≡ names_text listing look.now keys.now) }
{
    let all = all_names(alloc, listing, look, keys)?;
    let names = names_of(alloc, all.as_slice())?;
    name_lines(alloc, names.as_slice(), all.as_slice())
}

fn all_names(
    alloc: Global,
    listing: Listing,
    look: &Look,
    keys: &[Key],
) -> Result<Items<Text>, AllocError>
    ensures { IfOk result (λ names. names ≡ all_names listing look.now keys.now) }
{
    let mut names = Items::new(alloc);
    for key in keys {
        push_names_at(&mut names, listing, look, *key)?;
    }
    Ok(names)
}

fn push_names_at(
    names: &mut Items<Text>,
    listing: Listing,
    look: &Look,
    key: Key,
) -> Result<(), AllocError>
    ensures { OnOk result
        (names.new ≡ names.old ++ names_at listing (slice_get look.now.tasks key.1.1)) }
{
    match look.task(key.1.1) {
        Some(task) => push_names(names, listing, task),
        None => Ok(()),
    }
}

fn push_names(names: &mut Items<Text>, listing: Listing, task: &Task) -> Result<(), AllocError>
    ensures { OnOk result (names.new ≡ names.old ++ names_in listing task.now) }
{
    match listing {
        Listing::Tags => push_texts(names, task.tags.as_slice()),
        Listing::Projects => push_project(names, &task.project),
        Listing::Tasks | Listing::Next => Ok(()),
    }
}

fn push_texts(names: &mut Items<Text>, texts: &[Text]) -> Result<(), AllocError>
    ensures { OnOk result (names.new ≡ names.old ++ texts.now) }
{
    for text in texts {
        names.push(text.duplicate()?)?;
    }
    Ok(())
}

fn push_project(names: &mut Items<Text>, project: &Option<NonEmptyText>) -> Result<(), AllocError>
    ensures { OnOk result (names.new ≡ names.old ++ project_names project.now) }
{
    match project {
        Some(project) => names.push(project.duplicate()?.into_text()),
        None => Ok(()),
    }
}

/// The names in byte order, each once.
fn names_of(alloc: Global, all: &[Text]) -> Result<Ordered<Text>, AllocError>
    ensures { IfOk result (λ names. names ≡ with_texts [] all.now) }
{
    let mut names = TextSet::new(alloc);
    for name in all {
        names.insert(alloc, name.as_str())?;
    }
    names.into_ordered(alloc)
}

fn name_lines(alloc: Global, names: &[Text], all: &[Text]) -> Result<Text, AllocError>
    ensures { IfOk result (λ text. text ≡ name_lines names.now all.now) }
{
    let mut text = String::new(alloc);
    for name in names {
        push_line(&mut text, name, count_of(name, all))?;
    }
    Ok(Text::from_string(text))
}

fn push_line(text: &mut String, name: &Text, count: usize) -> Result<(), AllocError>
    ensures { OnOk result (string_bytes text.new
        ≡ string_bytes text.old ++ name_line name.now count) }
{
    write!(text, "{count}  ")?;
    push_shown(text, name.as_str())?;
    text.push('\n')
}

/// How often a name is among others.
fn count_of(name: &Text, all: &[Text]) -> usize
    ensures count { result ≡ count_of name.now all.now }
    ensures most { result ≤ length all.now }
{
    let mut count = 0;
    for other in all {
        if name.is(other) {
            count += 1;
        }
    }
    count
}
