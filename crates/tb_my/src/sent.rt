//! What the words of `my` ask a server for.
ghost use Rattle.std.specs.Prelude.{◌≡◌, ◌∷◌, [], Err, IfOk, OnOk, None, false, option_map};
ghost use Rattle.tb_my.specs.Outcome.{Fails, Reads};
ghost use Rattle.tb_my.specs.Tags.{is_among};
ghost use Rattle.tb_my.specs.declared.fault.MyFault.{MyFault as Fault};
ghost use Rattle.tb_todotxt.specs.Words.{joined};
ghost use Rattle.tb_my.specs.Calls.{call_sent, is_linked, link_sent, opposite_word, opposite_words};
ghost use Rattle.tb_my.specs.Named.{named_at_front, unnamed};
ghost use Rattle.tb_my.specs.Sent.{back_word, back_words, board_view, boards_view, calls_of, is_json_option, json_view, link_call, log_view, looks, may_need, note_call, note_sent, notes_of, reopened_from, sent_by, sent_for, sent_of, show_view, some_may_need, task_call, task_calls, task_view, text_from, view_sent};

use crate::adding::{add_call, copy_call};
use crate::changing::{Edit, change_call};
use crate::days::after_key;
use crate::fault::{MyFault, no_option, no_task, no_word};
use crate::look::{Seen, task_named};
use crate::named::{count_places, tasks_named, with_named};
use crate::splitting::has_blank;
use crate::tags::is_among;
use crate::telling::{told_link, told_task};
use crate::word::MyWord;
use crate::zone::Clock;
use std::alloc::{AllocError, Global};
use tb_task::TaskId;
use tb_values::{Items, Text};

const DONE: &str = "Done: ";

const DELETED: &str = "Deleted: ";

const REOPENED: &str = "Open again: ";

const STARTED: &str = "Started: ";

const STOPPED: &str = "Stopped: ";

const NOTED: &str = "Noted: ";

const UNNOTED: &str = "Note removed: ";

const NEEDS: &str = " needs ";

const FREED: &str = " no longer needs ";

/// The words of a call or view for `send`, and what is told once it is accepted: nothing of a view, whose answer is told.
#[derive(Drop)]
pub struct Sent {
    pub words: Items<Text>,
    pub told: Text,
    /// The words of the call that takes it back: none where none does.
    pub back: Items<Text>,
    /// The identifier under which it has to be sent, where the words rest on it.
    pub call: Option<TaskId>,
    /// The task that it adds, whose number is told.
    pub adds: Option<TaskId>,
    /// The answer is told as it comes.
    pub is_json: bool,
}

/// Whether the board is looked at first: for words behind which tasks stand, and for a new task that may depend on some.
pub fn looks(words: &[Text]) -> bool
    ensures { result ≡ looks words.now }
{
    let [first, rest @ ..] = words else {
        return false;
    };
    match MyWord::read(first.as_str()) {
        Some(MyWord::Add) => some_may_need(rest),
        Some(word) => word.is_of_task(),
        None => false,
    }
}

fn some_may_need(words: &[Text]) -> bool
    ensures { result ≡ some_may_need words.now }
{
    for word in words {
        if may_need(word.as_str()) {
            return true;
        }
    }
    false
}

/// Whether a word may say on which tasks a new one depends.
fn may_need(word: &str) -> bool
    ensures { result ≡ may_need word.now }
{
    after_key(word, "dep").is_some() || has_blank(word)
}

/// What the words of `my` ask for by a clock, of a board whose tasks were seen.
pub fn sent_of(
    alloc: Global,
    clock: &Clock,
    me: &Text,
    call: Option<TaskId>,
    board: &Text,
    tasks: &[Seen],
    words: &[Text],
) -> Result<Items<Sent>, MyFault>
    ensures { Reads result (sent_of clock.now me.now call board.now tasks.now words.now) }
{
    let Some((first, rest)) = words.split_first() else {
        return board_view(alloc, MyWord::List, "export", board, words);
    };
    match MyWord::read(first.as_str()) {
        Some(word) => sent_for(alloc, clock, me, call, board, tasks, word, rest),
        None => Err(no_word(alloc, first.as_str())),
    }
}

#[tactic(auto, unfolding(crate::specs::Sent::sent_for))]
fn sent_for(
    alloc: Global,
    clock: &Clock,
    me: &Text,
    call: Option<TaskId>,
    board: &Text,
    tasks: &[Seen],
    word: MyWord,
    rest: &[Text],
) -> Result<Items<Sent>, MyFault>
    ensures { Reads result (sent_for clock.now me.now call board.now tasks.now word rest.now) }
{
    match word {
        MyWord::Add => add_call(alloc, clock, me, call, board, tasks, rest),
        MyWord::Copy => copy_call(alloc, clock, me, call, board, tasks, rest),
        MyWord::Change => change_call(alloc, clock, me, board, tasks, Edit::Replace, rest),
        MyWord::Append => change_call(alloc, clock, me, board, tasks, Edit::Append, rest),
        MyWord::Prepend => change_call(alloc, clock, me, board, tasks, Edit::Prepend, rest),
        _ => sent_by(alloc, board, tasks, word, rest),
    }
}

/// The same of words that say nothing of days and people.
#[tactic(auto, unfolding(crate::specs::Sent::sent_by))]
fn sent_by(
    alloc: Global,
    board: &Text,
    tasks: &[Seen],
    word: MyWord,
    rest: &[Text],
) -> Result<Items<Sent>, MyFault>
    ensures { Reads result (sent_by board.now tasks.now word rest.now) }
{
    match word {
        MyWord::List | MyWord::Next | MyWord::Projects | MyWord::Tags => {
            board_view(alloc, word, "export", board, &[])
        }
        MyWord::Boards => boards_view(alloc, rest),
        MyWord::People => json_view(alloc, word, "people", board, rest),
        MyWord::Export => board_view(alloc, word, "export", board, rest),
        MyWord::Todo => board_view(alloc, word, "todo", board, rest),
        MyWord::Show => show_view(alloc, board, tasks, rest),
        MyWord::Log => log_view(alloc, board, tasks, rest),
        MyWord::Done => task_calls(alloc, word, "done", DONE, board, tasks, rest),
        MyWord::Delete => task_calls(alloc, word, "delete", DELETED, board, tasks, rest),
        MyWord::Reopen => task_calls(alloc, word, "reopen", REOPENED, board, tasks, rest),
        MyWord::Start => task_calls(alloc, word, "start", STARTED, board, tasks, rest),
        MyWord::Stop => task_calls(alloc, word, "stop", STOPPED, board, tasks, rest),
        MyWord::Note => note_call(alloc, word, "annotate", NOTED, board, tasks, rest),
        MyWord::Unnote => note_call(alloc, word, "denotate", UNNOTED, board, tasks, rest),
        MyWord::Needs => link_call(alloc, word, "depend", NEEDS, board, tasks, rest),
        MyWord::Free => link_call(alloc, word, "undepend", FREED, board, tasks, rest),
        // These ask for nothing by themselves, and the others are asked for elsewhere.
        _ => Err(MyFault::NoForm(word)),
    }
}

fn board_view(
    alloc: Global,
    word: MyWord,
    name: &str,
    board: &Text,
    rest: &[Text],
) -> Result<Items<Sent>, MyFault>
    ensures { Reads result (board_view word name.now board.now rest.now) }
{
    if !rest.is_empty() {
        return Err(MyFault::NoForm(word));
    }
    let words = two_words(alloc, name, board.as_str())?;
    Ok(view_sent(alloc, words, false)?)
}

/// A view of the board whose answer may be told as it comes.
fn json_view(
    alloc: Global,
    word: MyWord,
    name: &str,
    board: &Text,
    rest: &[Text],
) -> Result<Items<Sent>, MyFault>
    ensures { Reads result (json_view word name.now board.now rest.now) }
{
    match rest {
        [option] if is_json_option(option) => {
            let words = two_words(alloc, name, board.as_str())?;
            Ok(view_sent(alloc, words, true)?)
        }
        _ => board_view(alloc, word, name, board, rest),
    }
}

fn is_json_option(word: &Text) -> bool
    ensures { result ≡ is_json_option word.now }
{
    word.as_str() == "--json"
}

fn boards_view(alloc: Global, rest: &[Text]) -> Result<Items<Sent>, MyFault>
    ensures { Reads result (boards_view rest.now) }
{
    match rest {
        [] => Ok(view_sent(alloc, one_word(alloc, "me")?, false)?),
        [option] if is_json_option(option) => Ok(view_sent(alloc, one_word(alloc, "me")?, true)?),
        _ => Err(MyFault::NoForm(MyWord::Boards)),
    }
}

/// The history of the board, or of one task.
fn log_view(
    alloc: Global,
    board: &Text,
    tasks: &[Seen],
    rest: &[Text],
) -> Result<Items<Sent>, MyFault>
    ensures { Reads result (log_view board.now tasks.now rest.now) }
{
    match rest {
        [] => json_view(alloc, MyWord::Log, "history", board, rest),
        [named] if !is_json_option(named) => {
            task_view(alloc, "history-of", board, tasks, named, false)
        }
        [_option] => json_view(alloc, MyWord::Log, "history", board, rest),
        [named, option] if is_json_option(option) => {
            task_view(alloc, "history-of", board, tasks, named, true)
        }
        _ => Err(MyFault::NoForm(MyWord::Log)),
    }
}

fn show_view(
    alloc: Global,
    board: &Text,
    tasks: &[Seen],
    rest: &[Text],
) -> Result<Items<Sent>, MyFault>
    ensures { Reads result (show_view board.now tasks.now rest.now) }
{
    match rest {
        [named] => task_view(alloc, "task", board, tasks, named, false),
        [named, option] if is_json_option(option) => {
            task_view(alloc, "task", board, tasks, named, true)
        }
        _ => Err(MyFault::NoForm(MyWord::Show)),
    }
}

/// A view of one task.
fn task_view(
    alloc: Global,
    name: &str,
    board: &Text,
    tasks: &[Seen],
    named: &Text,
    is_json: bool,
) -> Result<Items<Sent>, MyFault>
    ensures { Reads result (task_view name.now board.now tasks.now named.now is_json) }
{
    let Some(task) = task_named(tasks, named.as_str()) else {
        return Err(unnamed(alloc, named));
    };
    let words = three_words(alloc, name, board.as_str(), task.id.text(alloc)?.as_str())?;
    Ok(view_sent(alloc, words, is_json)?)
}

/// Why a word names no task: it is an option, or the board has none of this name.
pub(crate) fn unnamed(alloc: Global, word: &Text) -> MyFault
    ensures { Fails {X = Fault} result (Err (unnamed word.now)) }
{
    if after_key(word.as_str(), "--").is_some() {
        no_option(alloc, word.as_str())
    } else {
        no_task(alloc, word.as_str())
    }
}

/// A call for each task, one at least.
fn task_calls(
    alloc: Global,
    word: MyWord,
    name: &str,
    verb: &str,
    board: &Text,
    tasks: &[Seen],
    rest: &[Text],
) -> Result<Items<Sent>, MyFault>
    ensures { Reads result (task_calls word name.now verb.now board.now tasks.now rest.now) }
{
    if rest.is_empty() {
        return Err(MyFault::NoForm(word));
    }
    let named = tasks_named(alloc, tasks, false, Items::new(alloc), rest)?;
    Ok(calls_of(alloc, name, verb, board, named.as_slice())?)
}

fn calls_of(
    alloc: Global,
    name: &str,
    verb: &str,
    board: &Text,
    named: &[Seen],
) -> Result<Items<Sent>, AllocError>
    ensures { IfOk result (λ calls. calls ≡ calls_of name.now verb.now board.now named.now) }
{
    let mut calls = Items::new(alloc);
    for task in named {
        let call = task_call(alloc, name, verb, board, task)?;
        calls.push(call)?;
    }
    Ok(calls)
}

fn task_call(
    alloc: Global,
    name: &str,
    verb: &str,
    board: &Text,
    task: &Seen,
) -> Result<Sent, AllocError>
    ensures { IfOk result (λ sent. sent ≡ task_call name.now verb.now board.now task.now) }
{
    let words = three_words(alloc, name, board.as_str(), task.id.text(alloc)?.as_str())?;
    let told = told_task(alloc, verb, task.description.as_str())?;
    let back = back_words(alloc, name, board, task)?;
    Ok(call_sent(words, told, back))
}

/// The words of the call that takes back one of this word for a task.
fn back_words(
    alloc: Global,
    name: &str,
    board: &Text,
    task: &Seen,
) -> Result<Items<Text>, AllocError>
    ensures { IfOk result (λ words. words ≡ back_words name.now board.now task.now) }
{
    match back_word(name, task) {
        Some(word) => three_words(alloc, word, board.as_str(), task.id.text(alloc)?.as_str()),
        None => Ok(Items::new(alloc)),
    }
}

fn back_word(name: &str, task: &Seen) -> Option<&'static str>
    ensures { option_map (λ word. word.now) result ≡ back_word name.now task.now }
{
    if name != "reopen" {
        return opposite_word(name);
    }
    match &task.old.status {
        Some(status) => reopened_from(status.as_str()),
        None => None,
    }
}

/// The word that closes a task again that was reopened from a status.
fn reopened_from(status: &str) -> Option<&'static str>
    ensures { option_map (λ word. word.now) result ≡ reopened_from status.now }
{
    match status {
        "completed" => Some("done"),
        "deleted" => Some("delete"),
        _ => None,
    }
}

/// The word of the call that takes back one of this word.
#[tactic(auto, unfolding(crate::specs::Calls::opposite_word))]
fn opposite_word(word: &str) -> Option<&'static str>
    ensures { option_map (λ text. text.now) result ≡ opposite_word word.now }
{
    match word {
        "done" => Some("reopen"),
        "delete" => Some("reopen"),
        "start" => Some("stop"),
        "stop" => Some("start"),
        "annotate" => Some("denotate"),
        "denotate" => Some("annotate"),
        "depend" => Some("undepend"),
        "undepend" => Some("depend"),
        _ => None,
    }
}

/// A note to each task at the front, of the words behind them.
fn note_call(
    alloc: Global,
    word: MyWord,
    name: &str,
    verb: &str,
    board: &Text,
    tasks: &[Seen],
    rest: &[Text],
) -> Result<Items<Sent>, MyFault>
    ensures { Reads result (note_call word name.now verb.now board.now tasks.now rest.now) }
{
    let [first, more @ ..] = rest else {
        return Err(MyFault::NoForm(word));
    };
    let count = count_places(alloc, more)?;
    let note = text_of(alloc, &more[count..])?;
    if note.is_empty() {
        return Err(MyFault::NoForm(word));
    }
    let named = named_at_front(alloc, tasks, first, &more[..count])?;
    Ok(notes_of(alloc, name, verb, board, named.as_slice(), &note)?)
}

/// The tasks that the first word and further ones at the front name.
pub(crate) fn named_at_front(
    alloc: Global,
    tasks: &[Seen],
    first: &Text,
    further: &[Text],
) -> Result<Items<Seen>, MyFault>
    ensures { Reads result (named_at_front tasks.now first.now further.now) }
{
    let named = with_named(alloc, tasks, false, Items::new(alloc), first)?;
    tasks_named(alloc, tasks, true, named, further)
}

/// Words with a space between each two. Before `--` none begins with two hyphens.
#[tactic(auto, unfolding(crate::specs::Sent::text_from))]
fn text_of(alloc: Global, words: &[Text]) -> Result<Text, MyFault>
    ensures { Reads result (text_from [] false words.now) }
{
    let mut text = Text::new(alloc);
    let mut is_text = false;
    for word in words {
        if is_text {
            push_word(&mut text, word.as_str())?;
        } else if word.as_str() == "--" {
            is_text = true;
        } else if after_key(word.as_str(), "--").is_some() {
            return Err(no_option(alloc, word.as_str()));
        } else {
            push_word(&mut text, word.as_str())?;
        }
    }
    Ok(text)
}

fn push_word(text: &mut Text, word: &str) -> Result<(), AllocError>
    ensures { OnOk result (text.new ≡ joined text.old word.now) }
{
    if !text.is_empty() {
        text.push_str(" ")?;
    }
    text.push_str(word)
}

fn notes_of(
    alloc: Global,
    name: &str,
    verb: &str,
    board: &Text,
    named: &[Seen],
    note: &Text,
) -> Result<Items<Sent>, AllocError>
    ensures { IfOk result
        (λ all. all ≡ notes_of name.now verb.now board.now named.now note.now) }
{
    let mut all = Items::new(alloc);
    for task in named {
        let sent = note_sent(alloc, name, verb, board, task, note)?;
        all.push(sent)?;
    }
    Ok(all)
}

fn note_sent(
    alloc: Global,
    name: &str,
    verb: &str,
    board: &Text,
    task: &Seen,
    note: &Text,
) -> Result<Sent, AllocError>
    ensures { IfOk result
        (λ sent. sent ≡ note_sent name.now verb.now board.now task.now note.now) }
{
    let id = task.id.text(alloc)?;
    let words = four_words(alloc, name, board.as_str(), id.as_str(), note.as_str())?;
    let told = told_task(alloc, verb, task.description.as_str())?;
    let back = opposite_words(alloc, name, board, id.as_str(), note.as_str())?;
    Ok(call_sent(words, told, back))
}

fn opposite_words(
    alloc: Global,
    name: &str,
    board: &Text,
    third: &str,
    fourth: &str,
) -> Result<Items<Text>, AllocError>
    ensures { IfOk result
        (λ words. words ≡ opposite_words name.now board.now third.now fourth.now) }
{
    match opposite_word(name) {
        Some(word) => four_words(alloc, word, board.as_str(), third, fourth),
        None => Ok(Items::new(alloc)),
    }
}

/// A link from the first task to the second. One that is there isn't asked for.
fn link_call(
    alloc: Global,
    word: MyWord,
    name: &str,
    verb: &str,
    board: &Text,
    tasks: &[Seen],
    rest: &[Text],
) -> Result<Items<Sent>, MyFault>
    ensures { Reads result (link_call word name.now verb.now board.now tasks.now rest.now) }
{
    let [from, to] = rest else {
        return Err(MyFault::NoForm(word));
    };
    let Some(first) = task_named(tasks, from.as_str()) else {
        return Err(unnamed(alloc, from));
    };
    let Some(second) = task_named(tasks, to.as_str()) else {
        return Err(unnamed(alloc, to));
    };
    let sent = link_sent(alloc, name, verb, board, first, second)?;
    if name == "depend" && is_linked(alloc, first, second)? {
        return Err(MyFault::Linked(sent.told));
    }
    let mut all = Items::new(alloc);
    all.push(sent)?;
    Ok(all)
}

/// Whether a task depends on another.
pub(crate) fn is_linked(alloc: Global, first: &Seen, second: &Seen) -> Result<bool, AllocError>
    ensures { IfOk result (λ is. is ≡ is_linked first.now second.now) }
{
    let id = second.id.text(alloc)?;
    Ok(is_among(&id, first.needs.as_slice()))
}

pub(crate) fn link_sent(
    alloc: Global,
    name: &str,
    verb: &str,
    board: &Text,
    first: &Seen,
    second: &Seen,
) -> Result<Sent, AllocError>
    ensures { IfOk result
        (λ sent. sent ≡ link_sent name.now verb.now board.now first.now second.now) }
{
    let one = first.id.text(alloc)?;
    let two = second.id.text(alloc)?;
    let words = four_words(alloc, name, board.as_str(), one.as_str(), two.as_str())?;
    let told = told_link(
        alloc,
        first.description.as_str(),
        verb,
        second.description.as_str(),
    )?;
    let back = opposite_words(alloc, name, board, one.as_str(), two.as_str())?;
    Ok(call_sent(words, told, back))
}

/// A call of these words.
pub(crate) fn call_sent(words: Items<Text>, told: Text, back: Items<Text>) -> Sent
    ensures { result ≡ call_sent words told back }
{
    Sent {
        words,
        told,
        back,
        call: None,
        adds: None,
        is_json: false,
    }
}

/// A view of these words, whose answer is told.
fn view_sent(alloc: Global, words: Items<Text>, is_json: bool) -> Result<Items<Sent>, AllocError>
    ensures { IfOk result (λ all. all ≡ view_sent words is_json) }
{
    let mut sent = call_sent(words, Text::new(alloc), Items::new(alloc));
    sent.is_json = is_json;
    let mut all = Items::new(alloc);
    all.push(sent)?;
    Ok(all)
}

fn one_word(alloc: Global, one: &str) -> Result<Items<Text>, AllocError>
    ensures { IfOk result (λ words. words ≡ one.now ∷ []) }
{
    let mut words = Items::new(alloc);
    words.push(Text::from_str(alloc, one)?)?;
    Ok(words)
}

fn two_words(alloc: Global, one: &str, two: &str) -> Result<Items<Text>, AllocError>
    ensures { IfOk result (λ words. words ≡ one.now ∷ two.now ∷ []) }
{
    let mut words = one_word(alloc, one)?;
    words.push(Text::from_str(alloc, two)?)?;
    Ok(words)
}

pub(crate) fn three_words(
    alloc: Global,
    one: &str,
    two: &str,
    three: &str,
) -> Result<Items<Text>, AllocError>
    ensures { IfOk result (λ words. words ≡ one.now ∷ two.now ∷ three.now ∷ []) }
{
    let mut words = two_words(alloc, one, two)?;
    words.push(Text::from_str(alloc, three)?)?;
    Ok(words)
}

pub(crate) fn four_words(
    alloc: Global,
    one: &str,
    two: &str,
    three: &str,
    four: &str,
) -> Result<Items<Text>, AllocError>
    ensures { IfOk result (λ words. words ≡ one.now ∷ two.now ∷ three.now ∷ four.now ∷ []) }
{
    let mut words = three_words(alloc, one, two, three)?;
    words.push(Text::from_str(alloc, four)?)?;
    Ok(words)
}
