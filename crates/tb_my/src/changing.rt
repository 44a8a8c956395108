//! What `change`, `append` and `prepend` ask a server for.
ghost use Rattle.std.specs.Prelude.{◌≡◌, ◌++◌, IfOk, OnOk};
ghost use Rattle.tb_my.specs.Changing.{change_call, change_sent, changed_all, changed_as, changed_by, changes_of, checked_change, described, edit_word, link_if, links_from, modified_if, says_more, spaced};
ghost use Rattle.tb_my.specs.Outcome.{Reads};

use crate::body::{back_body, change_body};
use crate::fault::MyFault;
use crate::look::Seen;
use crate::named::{count_places, tasks_named};
use crate::said::{Said, said_of};
use crate::sent::{Sent, call_sent, four_words, is_linked, link_sent, named_at_front};
use crate::telling::told_task;
use crate::word::MyWord;
use crate::zone::Clock;
use std::alloc::{AllocError, Global};
use tb_values::{Items, Text};

const CHANGED: &str = "Changed: ";

const NEEDS: &str = " needs ";

/// What becomes of the description of before.
#[derive(Clone, Copy, Debug, PartialEq, Eq)]
pub(crate) enum Edit {
    Replace,
    Append,
    Prepend,
}

fn edit_word(edit: Edit) -> MyWord
    ensures { result ≡ edit_word edit }
{
    match edit {
        Edit::Replace => MyWord::Change,
        Edit::Append => MyWord::Append,
        Edit::Prepend => MyWord::Prepend,
    }
}

/// A change of each task at the front, as the words behind them say.
pub(crate) fn change_call(
    alloc: Global,
    clock: &Clock,
    me: &Text,
    board: &Text,
    tasks: &[Seen],
    edit: Edit,
    rest: &[Text],
) -> Result<Items<Sent>, MyFault>
    ensures { Reads result (change_call clock.now me.now board.now tasks.now edit rest.now) }
{
    let [first, more @ ..] = rest else {
        return Err(MyFault::NoForm(edit_word(edit)));
    };
    let count = count_places(alloc, more)?;
    changed_by(
        alloc,
        clock,
        me,
        board,
        tasks,
        edit,
        first,
        &more[..count],
        &more[count..],
    )
}

/// The same where the words that name tasks stand apart.
fn changed_by(
    alloc: Global,
    clock: &Clock,
    me: &Text,
    board: &Text,
    tasks: &[Seen],
    edit: Edit,
    first: &Text,
    further: &[Text],
    words: &[Text],
) -> Result<Items<Sent>, MyFault>
    ensures { Reads result
        (changed_by clock.now me.now board.now tasks.now edit first.now further.now words.now) }
{
    if words.is_empty() {
        return Err(MyFault::NoForm(edit_word(edit)));
    }
    changed_as(alloc, clock, me, board, tasks, edit, first, further, words)
}

#[tactic(auto, unfolding(crate::specs::Changing::changed_as))]
fn changed_as(
    alloc: Global,
    clock: &Clock,
    me: &Text,
    board: &Text,
    tasks: &[Seen],
    edit: Edit,
    first: &Text,
    further: &[Text],
    words: &[Text],
) -> Result<Items<Sent>, MyFault>
    ensures { Reads result
        (changed_as clock.now me.now board.now tasks.now edit first.now further.now words.now) }
{
    let named = named_at_front(alloc, tasks, first, further)?;
    let said = said_of(alloc, clock, me, Said::new(alloc), words)?;
    changed_all(alloc, board, tasks, edit, named.as_slice(), &said)
}

fn changed_all(
    alloc: Global,
    board: &Text,
    tasks: &[Seen],
    edit: Edit,
    named: &[Seen],
    said: &Said,
) -> Result<Items<Sent>, MyFault>
    ensures { Reads result (changed_all board.now tasks.now edit named.now said.now) }
{
    checked_change(edit, named, said)?;
    let needed = tasks_named(
        alloc,
        tasks,
        false,
        Items::new(alloc),
        said.needs.as_slice(),
    )?;
    let all = changes_of(alloc, board, edit, said, needed.as_slice(), named)?;
    if all.is_empty() {
        return Err(MyFault::Unchanged);
    }
    Ok(all)
}

/// A new description is for one task, and words that are added are some.
fn checked_change(edit: Edit, named: &[Seen], said: &Said) -> Result<(), MyFault>
    ensures { Reads result (checked_change edit named.now said.now) }
{
    let is_silent = said.description.is_empty();
    match edit {
        Edit::Replace if !is_silent && named.len() > 1 => Err(MyFault::OneTask),
        Edit::Append | Edit::Prepend if is_silent => Err(MyFault::NoForm(edit_word(edit))),
        _ => Ok(()),
    }
}

fn changes_of(
    alloc: Global,
    board: &Text,
    edit: Edit,
    said: &Said,
    needed: &[Seen],
    named: &[Seen],
) -> Result<Items<Sent>, AllocError>
    ensures { IfOk result
        (λ all. all ≡ changes_of board.now edit said.now needed.now named.now) }
{
    let mut all = Items::new(alloc);
    for task in named {
        push_change(alloc, &mut all, board, edit, said, task)?;
        push_links(alloc, &mut all, board, task, needed)?;
    }
    Ok(all)
}

/// Puts the change at the end, where words say more than on which tasks it depends.
fn push_change(
    alloc: Global,
    all: &mut Items<Sent>,
    board: &Text,
    edit: Edit,
    said: &Said,
    task: &Seen,
) -> Result<(), AllocError>
    ensures { OnOk result (all.new ≡ all.old ++ modified_if board.now edit said.now task.now) }
{
    if !says_more(said) {
        return Ok(());
    }
    all.push(change_sent(alloc, board, edit, said, task)?)
}

fn says_more(said: &Said) -> bool
    ensures { result ≡ says_more said.now }
{
    !(said.settings.is_empty()
        && said.tags.is_empty()
        && said.untagged.is_empty()
        && said.description.is_empty())
}

fn change_sent(
    alloc: Global,
    board: &Text,
    edit: Edit,
    said: &Said,
    task: &Seen,
) -> Result<Sent, AllocError>
    ensures { IfOk result (λ sent. sent ≡ change_sent board.now edit said.now task.now) }
{
    let description = described(alloc, edit, &task.description, &said.description)?;
    let body = change_body(alloc, task.tags.as_slice(), description.as_str(), said)?;
    let before = back_body(alloc, task, said)?;
    let id = task.id.text(alloc)?;
    let words = four_words(alloc, "modify", board.as_str(), id.as_str(), body.as_str())?;
    let back = four_words(
        alloc,
        "modify",
        board.as_str(),
        id.as_str(),
        before.as_str(),
    )?;
    let told = told_task(alloc, CHANGED, task.description.as_str())?;
    let mut sent = call_sent(words, told, back);
    sent.is_json = said.is_json;
    Ok(sent)
}

/// The description after an edit by words.
fn described(alloc: Global, edit: Edit, old: &Text, new: &Text) -> Result<Text, AllocError>
    ensures { IfOk result (λ text. text ≡ described edit old.now new.now) }
{
    match edit {
        Edit::Replace => Text::from_str(alloc, new.as_str()),
        Edit::Append => spaced(alloc, old, new),
        Edit::Prepend => spaced(alloc, new, old),
    }
}

fn spaced(alloc: Global, first: &Text, second: &Text) -> Result<Text, AllocError>
    ensures { IfOk result (λ text. text ≡ spaced first.now second.now) }
{
    let mut text = Text::from_str(alloc, first.as_str())?;
    text.push_str(" ")?;
    text.push_str(second.as_str())?;
    Ok(text)
}

/// Puts a link to each task that is needed at the end, unless it is there.
fn push_links(
    alloc: Global,
    all: &mut Items<Sent>,
    board: &Text,
    task: &Seen,
    needed: &[Seen],
) -> Result<(), AllocError>
    ensures { OnOk result (all.new ≡ all.old ++ links_from board.now task.now needed.now) }
{
    for other in needed {
        push_link(alloc, all, board, task, other)?;
    }
    Ok(())
}

fn push_link(
    alloc: Global,
    all: &mut Items<Sent>,
    board: &Text,
    task: &Seen,
    other: &Seen,
) -> Result<(), AllocError>
    ensures { OnOk result (all.new ≡ all.old ++ link_if board.now task.now other.now) }
{
    if is_linked(alloc, task, other)? {
        return Ok(());
    }
    all.push(link_sent(alloc, "depend", NEEDS, board, task, other)?)
}
