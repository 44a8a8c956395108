//! Who did what on a board, in lines.
ghost use Rattle.std.specs.Prelude.{◌≡◌, ◌++◌, [], IfOk, OnOk, option_map, string_bytes};
ghost use Rattle.serde_json.specs.Read.{read};
ghost use Rattle.serde_json.specs.View.{items_view, view};
ghost use Rattle.tb_finding.specs.Deeds.{entry_line, line_of, log_of, log_text, moment_at, named_verb, of_task, task_in, verb_of, verb_of_word};
ghost use Rattle.tb_my.specs.Shown.{with_lines};

use crate::showing::named_from;
use crate::words::push_moment;
use serde_json::Value;
use std::alloc::{AllocError, Global};
use tb_calls::Word;
use tb_json::parse;
use tb_my::{Clock, Seen, push_shown, text_at};
use tb_task::{Moment, TaskId};
use tb_values::Text;

/// A line for each entry of a history, of the answer that shows it and of the board's tasks as a look at it showed them; none of
/// another answer.
pub fn log_text(
    alloc: Global,
    clock: &Clock,
    tasks: &[Seen],
    body: &str,
) -> Result<Option<Text>, AllocError>
    ensures { IfOk result (λ text. text ≡ log_text clock.now tasks.now body.now) }
{
    match parse(alloc, body)? {
        Some(value) => log_of(alloc, clock, tasks, &value),
        None => Ok(None),
    }
}

fn log_of(
    alloc: Global,
    clock: &Clock,
    tasks: &[Seen],
    value: &Value,
) -> Result<Option<Text>, AllocError>
    ensures { IfOk result (λ text. text ≡ log_of clock.now tasks.now (view value.now)) }
{
    match value.get("entries").and_then(Value::as_array) {
        Some(entries) => entry_lines(alloc, clock, tasks, entries),
        None => Ok(None),
    }
}

fn entry_lines(
    alloc: Global,
    clock: &Clock,
    tasks: &[Seen],
    list: &Vec<Value>,
) -> Result<Option<Text>, AllocError>
    ensures { IfOk result (λ text. text
        ≡ with_lines (entry_line clock.now tasks.now) [] (items_view list.now.items)) }
{
    let mut text = String::new(alloc);
    for item in list {
        let Some(line) = entry_line(alloc, clock, tasks, item)? else {
            return Ok(None);
        };
        text.push_str(line.as_str())?;
    }
    Ok(Some(Text::from_string(text)))
}

fn entry_line(
    alloc: Global,
    clock: &Clock,
    tasks: &[Seen],
    entry: &Value,
) -> Result<Option<Text>, AllocError>
    ensures { IfOk result (λ line. line ≡ entry_line clock.now tasks.now (view entry.now)) }
{
    let Some(moment) = moment_at(entry) else {
        return Ok(None);
    };
    let Some(member) = text_at(entry, "member") else {
        return Ok(None);
    };
    match text_at(entry, "what") {
        Some(what) => Ok(Some(line_of(alloc, clock, tasks, moment, member, what, task_in(entry))?)),
        None => Ok(None),
    }
}

fn moment_at(entry: &Value) -> Option<Moment>
    ensures { result ≡ moment_at (view entry.now) }
{
    Moment::read(text_at(entry, "moment")?.as_bytes())
}

fn task_in(entry: &Value) -> Option<TaskId>
    ensures { result ≡ task_in (view entry.now) }
{
    TaskId::read(text_at(entry, "task")?)
}

/// `today 09:12: bob completed 3 Call bank`
fn line_of(
    alloc: Global,
    clock: &Clock,
    tasks: &[Seen],
    moment: Moment,
    member: &str,
    what: &str,
    task: Option<TaskId>,
) -> Result<Text, AllocError>
    ensures { IfOk result (λ line. line
        ≡ line_of clock.now tasks.now moment member.now what.now task) }
{
    let mut line = String::new(alloc);
    push_moment(&mut line, clock, moment)?;
    line.push_str(": ")?;
    push_shown(&mut line, member)?;
    line.push_str(" ")?;
    push_verb(&mut line, what)?;
    push_task(alloc, &mut line, tasks, task)?;
    line.push_str("\n")?;
    Ok(Text::from_string(line))
}

/// Puts what was done at the end. A word that isn't known, as of a later server, stands as it is.
fn push_verb(line: &mut String, what: &str) -> Result<(), AllocError>
    ensures { OnOk result (string_bytes line.new ≡ string_bytes line.old ++ verb_of what.now) }
{
    match named_verb(what) {
        Some(verb) => line.push_str(verb),
        None => push_shown(line, what),
    }
}

fn named_verb(what: &str) -> Option<&'static str>
    ensures { option_map (λ verb. verb.now) result ≡ named_verb what.now }
{
    match Word::read(what) {
        Some(word) => verb_of_word(word),
        None => None,
    }
}

/// What a history says of who did it, of the words that stand there.
fn verb_of_word(word: Word) -> Option<&'static str>
    ensures { option_map (λ verb. verb.now) result ≡ verb_of_word word }
{
    match word {
        Word::Add => Some("added"),
        Word::Import | Word::ImportTodo => Some("imported tasks"),
        Word::Done => Some("completed"),
        Word::Delete => Some("deleted"),
        Word::Reopen => Some("reopened"),
        Word::Start => Some("started"),
        Word::Stop => Some("stopped"),
        Word::Annotate => Some("added a note to"),
        Word::Denotate => Some("removed a note from"),
        Word::Modify => Some("changed"),
        Word::Depend => Some("added a dependency to"),
        Word::Undepend => Some("removed a dependency from"),
        Word::Sweep => Some("had due tasks made"),
        Word::Ahead => Some("changed how far the board looks ahead"),
        Word::Role => Some("changed a role"),
        Word::Take => Some("took over the board"),
        Word::Title => Some("renamed the board"),
        Word::List
        | Word::Export
        | Word::Todo
        | Word::Task
        | Word::Person
        | Word::Board
        | Word::OwnKey
        | Word::Key
        | Word::People
        | Word::History
        | Word::HistoryOf
        | Word::Me => None,
    }
}

fn push_task(
    alloc: Global,
    line: &mut String,
    tasks: &[Seen],
    task: Option<TaskId>,
) -> Result<(), AllocError>
    ensures { OnOk result
        (string_bytes line.new ≡ string_bytes line.old ++ of_task tasks.now task) }
{
    let Some(id) = task else {
        return Ok(());
    };
    let named = named_from(alloc, id, tasks)?;
    line.push_str(" ")?;
    line.push_str(named.as_str())
}
