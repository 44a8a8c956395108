//! What `add` and `copy` ask a server for.
ghost use Rattle.std.specs.Prelude.{◌≡◌, ◌++◌, IfOk, OnOk};
ghost use Rattle.tb_my.specs.Adding.{add_call, add_sent, add_words, added, copied_said, comma_and_id, copy_call, deletion, ids_joined, needing, text_or, with_needs};
ghost use Rattle.tb_my.specs.Outcome.{Reads};

use crate::body::{add_body, added_id};
use crate::fault::MyFault;
use crate::look::{Seen, task_named};
use crate::named::tasks_named;
use crate::part::Setting;
use crate::said::{Said, marked_said, said_of, unmarked};
use crate::sent::{Sent, three_words, unnamed};
use crate::splitting::{has_blank, words_in};
use crate::tags::tags_after;
use crate::telling::told_task;
use crate::word::MyWord;
use crate::zone::Clock;
use std::alloc::{AllocError, Global};
use tb_task::TaskId;
use tb_values::{Duplicate, Items, Text};

const ADDED: &str = "Added: ";

/// A new task. One argument with blanks is read as words.
pub(crate) fn add_call(
    alloc: Global,
    clock: &Clock,
    me: &Text,
    call: Option<TaskId>,
    board: &Text,
    tasks: &[Seen],
    rest: &[Text],
) -> Result<Items<Sent>, MyFault>
    ensures { Reads result (add_call clock.now me.now call board.now tasks.now rest.now) }
{
    if let [one] = rest {
        if has_blank(one.as_str()) {
            let words = words_in(alloc, one.as_str())?;
            return add_words(alloc, clock, me, call, board, tasks, words.as_slice());
        }
    }
    add_words(alloc, clock, me, call, board, tasks, rest)
}

fn add_words(
    alloc: Global,
    clock: &Clock,
    me: &Text,
    call: Option<TaskId>,
    board: &Text,
    tasks: &[Seen],
    words: &[Text],
) -> Result<Items<Sent>, MyFault>
    ensures { Reads result (add_words clock.now me.now call board.now tasks.now words.now) }
{
    let before = marked_said(alloc, words)?;
    let said = said_of(alloc, clock, me, before, unmarked(words))?;
    added(alloc, call, board, tasks, MyWord::Add, said)
}

/// A copy of a task, in which words change something.
pub(crate) fn copy_call(
    alloc: Global,
    clock: &Clock,
    me: &Text,
    call: Option<TaskId>,
    board: &Text,
    tasks: &[Seen],
    rest: &[Text],
) -> Result<Items<Sent>, MyFault>
    ensures { Reads result (copy_call clock.now me.now call board.now tasks.now rest.now) }
{
    let [named, words @ ..] = rest else {
        return Err(MyFault::NoForm(MyWord::Copy));
    };
    let Some(task) = task_named(tasks, named.as_str()) else {
        return Err(unnamed(alloc, named));
    };
    let said = said_of(alloc, clock, me, Said::new(alloc), words)?;
    let said = copied_said(alloc, task, said)?;
    added(alloc, call, board, tasks, MyWord::Copy, said)
}

/// What a task has, and what was said instead.
fn copied_said(alloc: Global, task: &Seen, said: Said) -> Result<Said, AllocError>
    ensures { IfOk result (λ copied. copied ≡ copied_said task.now said) }
{
    let mut settings = task.old.copied_settings(alloc)?.into_vec();
    let tags = tags_after(
        alloc,
        task.tags.as_slice(),
        said.tags.as_slice(),
        said.untagged.as_slice(),
    )?;
    let description = text_or(&said.description, &task.description)?;
    let mut more = said.settings.into_vec();
    settings.append(&mut more)?;
    Ok(Said {
        settings: Items::from_vec(settings),
        tags,
        untagged: Items::new(alloc),
        needs: said.needs,
        is_json: said.is_json,
        description,
    })
}

fn text_or(text: &Text, other: &Text) -> Result<Text, AllocError>
    ensures { IfOk result (λ chosen. chosen ≡ text_or text.now other.now) }
{
    if text.is_empty() {
        other.duplicate()
    } else {
        text.duplicate()
    }
}

/// A new task, which needs a description, and the tasks on which it depends.
fn added(
    alloc: Global,
    call: Option<TaskId>,
    board: &Text,
    tasks: &[Seen],
    word: MyWord,
    said: Said,
) -> Result<Items<Sent>, MyFault>
    ensures { Reads result (added call board.now tasks.now word said) }
{
    if said.description.is_empty() {
        return Err(MyFault::NoForm(word));
    }
    let said = needing(alloc, tasks, said)?;
    Ok(add_sent(alloc, call, board, &said)?)
}

/// With the uuids of the tasks on which it depends.
fn needing(alloc: Global, tasks: &[Seen], said: Said) -> Result<Said, MyFault>
    ensures { Reads result (needing tasks.now said) }
{
    let needed = tasks_named(
        alloc,
        tasks,
        false,
        Items::new(alloc),
        said.needs.as_slice(),
    )?;
    Ok(with_needs(alloc, said, needed.as_slice())?)
}

fn with_needs(alloc: Global, said: Said, needed: &[Seen]) -> Result<Said, AllocError>
    ensures { IfOk result (λ more. more ≡ with_needs said needed.now) }
{
    let [first, more @ ..] = needed else {
        return Ok(said);
    };
    let mut said = said;
    said.settings.push(Setting {
        name: Text::from_str(alloc, "depends")?,
        value: Some(ids_joined(alloc, first, more)?),
    })?;
    Ok(said)
}

/// The uuids of tasks, with commas between them.
fn ids_joined(alloc: Global, first: &Seen, more: &[Seen]) -> Result<Text, AllocError>
    ensures { IfOk result (λ text. text ≡ ids_joined first.now more.now) }
{
    let mut text = first.id.text(alloc)?;
    for task in more {
        push_id(alloc, &mut text, task)?;
    }
    Ok(text)
}

fn push_id(alloc: Global, text: &mut Text, task: &Seen) -> Result<(), AllocError>
    ensures { OnOk result (text.new ≡ text.old ++ comma_and_id task.now) }
{
    text.push_str(",")?;
    text.push_str(task.id.text(alloc)?.as_str())
}

fn add_sent(
    alloc: Global,
    call: Option<TaskId>,
    board: &Text,
    said: &Said,
) -> Result<Items<Sent>, AllocError>
    ensures { IfOk result (λ all. all ≡ add_sent call board.now said.now) }
{
    let body = add_body(alloc, &call, said)?;
    let id = added_id(&call);
    let sent = Sent {
        words: three_words(alloc, "add", board.as_str(), body.as_str())?,
        told: told_task(alloc, ADDED, said.description.as_str())?,
        back: deletion(alloc, board, id)?,
        call,
        adds: if said.is_json { None } else { id },
        is_json: said.is_json,
    };
    let mut all = Items::new(alloc);
    all.push(sent)?;
    Ok(all)
}

/// The words that delete a task that was added.
fn deletion(alloc: Global, board: &Text, id: Option<TaskId>) -> Result<Items<Text>, AllocError>
    ensures { IfOk result (λ words. words ≡ deletion board.now id) }
{
    match id {
        Some(id) => three_words(alloc, "delete", board.as_str(), id.text(alloc)?.as_str()),
        None => Ok(Items::new(alloc)),
    }
}
