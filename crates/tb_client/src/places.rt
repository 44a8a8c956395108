//! Tasks by their places on a board, in the order in which the board is exported, from 1.
ghost use Rattle.std.specs.Prelude.{◌≡◌, ◌==◌, ◌∷◌, [], if◌then◌else◌, IfOk, OnOk, option_copied, option_map};
ghost use Rattle.serde_json.specs.Read.{read};
ghost use Rattle.serde_json.specs.View.{items_view, view};
ghost use Rattle.tb_client.specs.Places.{board_task, board_tasks, export_of, named_argument, named_count, named_words, place_in, places_of, task_at, task_count, tasks_in, with_argument, with_arguments, with_tasks};

use crate::answer::text_in;
use crate::request::{Request, board_target, view_at};
use serde_json::Value;
use std::alloc::{AllocError, Global};
use tb_calls::Word;
use tb_json::parse;
use tb_task::TaskId;
use tb_values::{Duplicate, Items, Text, read_number};

/// A task of a board, as far as a client has to know it.
#[derive(Drop)]
pub struct BoardTask {
    pub id: TaskId,
    pub description: Text,
}

/// The places among the words: where a task is expected, a number is the task on that place of the board.
pub fn places_of(alloc: Global, words: &[Text]) -> Result<Vec<u32>, AllocError>
    ensures { IfOk result (λ places. places.items ≡ places_of words.now) }
{
    let [word, _, arguments @ ..] = words else {
        return Ok(Vec::new(alloc));
    };
    let count = named_count(word.as_str(), arguments.len());
    places_among(alloc, count, arguments)
}

/// The places among arguments of which so many are tasks.
fn places_among(alloc: Global, count: usize, arguments: &[Text]) -> Result<Vec<u32>, AllocError>
    ensures { IfOk result (λ places. places.items ≡ with_arguments [] count arguments.now) }
{
    let mut places = Vec::new(alloc);
    let mut left = count;
    for argument in arguments {
        push_place(&mut places, left > 0, argument.as_str())?;
        left = left.saturating_sub(1);
    }
    Ok(places)
}

/// How many of so many arguments behind the board are tasks.
fn named_count(name: &str, size: usize) -> usize
    ensures { result ≡ named_count name.now size }
{
    match Word::read(name) {
        Some(word) => task_count(word, size),
        None => 0,
    }
}

fn task_count(word: Word, size: usize) -> usize
    ensures { result ≡ task_count word size }
{
    match word {
        Word::Task
        | Word::HistoryOf
        | Word::Done
        | Word::Delete
        | Word::Reopen
        | Word::Start
        | Word::Stop => count_at(1, size, 1),
        Word::Annotate | Word::Denotate | Word::Modify => count_at(2, size, 1),
        Word::Depend | Word::Undepend => count_at(2, size, 2),
        Word::List
        | Word::Export
        | Word::Todo
        | Word::Add
        | Word::Import
        | Word::ImportTodo
        | Word::Sweep
        | Word::Ahead
        | Word::Person
        | Word::Board
        | Word::Role
        | Word::OwnKey
        | Word::Key
        | Word::Take
        | Word::Title
        | Word::People
        | Word::History
        | Word::Me => 0,
    }
}

/// So many tasks where there are so many arguments as they need.
fn count_at(needed: usize, size: usize, tasks: usize) -> usize
    ensures { result ≡ (if size == needed then tasks else 0) }
{
    if size == needed { tasks } else { 0 }
}

fn place_in(argument: &str) -> Option<u32>
    ensures { result ≡ place_in argument.now }
{
    read_number(argument, u32::MAX)
}

/// Puts the place at the end that an argument is, where a task is expected.
fn push_place(places: &mut Vec<u32>, is_task: bool, argument: &str) -> Result<(), AllocError>
    ensures { OnOk result (places.new.items ≡ with_argument places.old.items is_task argument.now) }
{
    if !is_task {
        return Ok(());
    }
    if let Some(place) = place_in(argument) {
        places.push(place)?;
    }
    Ok(())
}

/// What is asked for where words hold places: the board's tasks.
pub fn export_of(alloc: Global, words: &[Text]) -> Result<Option<Request>, AllocError>
    ensures { IfOk result (λ found. found ≡ export_of words.now) }
{
    let [_, board, ..] = words else {
        return Ok(None);
    };
    let target = board_target(alloc, board, "/export")?;
    Ok(view_at(target))
}

/// The tasks of the body of an export, if it is one.
pub fn read_tasks(alloc: Global, body: &[u8]) -> Result<Option<Items<BoardTask>>, AllocError>
    ensures { IfOk result (λ tasks. tasks ≡ tasks_in body.now) }
{
    let Some(text) = text_in(body) else {
        return Ok(None);
    };
    let Some(value) = parse(alloc, text)? else {
        return Ok(None);
    };
    board_tasks(alloc, &value)
}

fn board_tasks(alloc: Global, value: &Value) -> Result<Option<Items<BoardTask>>, AllocError>
    ensures { IfOk result (λ tasks. tasks ≡ board_tasks (view value.now)) }
{
    match value {
        Value::Array(list) => tasks_of(alloc, list),
        _ => Ok(None),
    }
}

fn tasks_of(alloc: Global, list: &Vec<Value>) -> Result<Option<Items<BoardTask>>, AllocError>
    ensures { IfOk result (λ tasks. tasks ≡ with_tasks [] (items_view list.now.items)) }
{
    let mut tasks = Items::new(alloc);
    for item in list {
        let Some(task) = board_task(alloc, item)? else {
            return Ok(None);
        };
        tasks.push(task)?;
    }
    Ok(Some(tasks))
}

fn board_task(alloc: Global, value: &Value) -> Result<Option<BoardTask>, AllocError>
    ensures { IfOk result (λ task. task ≡ board_task (view value.now)) }
{
    let id = value.get("uuid").and_then(Value::as_str);
    let Some(id) = id.and_then(TaskId::read) else {
        return Ok(None);
    };
    let Some(text) = value.get("description").and_then(Value::as_str) else {
        return Ok(None);
    };
    let description = Text::from_str(alloc, text)?;
    Ok(Some(BoardTask { id, description }))
}

/// The task on a place of a board.
pub fn task_at(tasks: &Items<BoardTask>, place: u32) -> Option<&BoardTask>
    ensures { option_copied result ≡ task_at tasks.now place }
{
    tasks.get(place.saturating_sub(1) as usize)
}

/// The words, with the identifiers of a board's tasks in place of their places; none where the board has no such task.
pub fn named_words(
    alloc: Global,
    tasks: &Items<BoardTask>,
    words: &[Text],
) -> Result<Option<Items<Text>>, AllocError>
    ensures { IfOk result (λ named. named ≡ named_words tasks.now words.now) }
{
    let [word, board, arguments @ ..] = words else {
        return Ok(Some(Items::from_slice(alloc, words)?));
    };
    let mut named = Items::new(alloc);
    named.push(word.duplicate()?)?;
    named.push(board.duplicate()?)?;
    let mut left = named_count(word.as_str(), arguments.len());
    for argument in arguments {
        let Some(text) = named_argument(alloc, tasks, left > 0, argument)? else {
            return Ok(None);
        };
        named.push(text)?;
        left = left.saturating_sub(1);
    }
    Ok(Some(named))
}

/// An argument, where it is a place the identifier of its task; none where the board has no such task.
fn named_argument(
    alloc: Global,
    tasks: &Items<BoardTask>,
    is_task: bool,
    argument: &Text,
) -> Result<Option<Text>, AllocError>
    ensures { IfOk result (λ named. named ≡ named_argument tasks.now is_task argument.now) }
{
    if !is_task {
        return Ok(Some(argument.duplicate()?));
    }
    let Some(place) = place_in(argument.as_str()) else {
        return Ok(Some(argument.duplicate()?));
    };
    match task_at(tasks, place) {
        Some(task) => Ok(Some(task.id.text(alloc)?)),
        None => Ok(None),
    }
}
