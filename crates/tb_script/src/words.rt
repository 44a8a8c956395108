//! What the words of a line ask of their arguments.
ghost use Rattle.std.specs.Prelude.{◌≡◌, map};
ghost use Rattle.tb_core.specs.declared.action.Action.TheVariants.{Annotate, Denotate};
ghost use Rattle.tb_core.specs.declared.command.Command.TheVariants.{OnBoard};
ghost use Rattle.tb_script.specs.Outcome.{Reads};
ghost use Rattle.tb_script.specs.declared.asked.Request.TheVariants.{Call, View as ViewOf};
ghost use Rattle.tb_calls.specs.declared.view.View.TheVariants.{Me};
ghost use Rattle.tb_script.specs.Words.{acting, acting_with, adding, entries_from, history, history_of, last_entries, new_board, export, set_role, importing, importing_todo, new_person, link, linking, listing, modifying, none, one, own_key, people, request_for, request_in, retitling, set_ahead, set_key, showing, sweeping, taking, task, three, todo, two, unlinking};

use crate::arguments::{
    read_ahead, read_board, read_heading, read_key_or_none, read_person, read_role, read_secret,
    read_uuid,
};
use crate::asked::Request;
use crate::body::{read_edits, read_imported, read_incoming, read_tasks};
use crate::line_fault::LineFault;
use std::alloc::Global;
use tb_calls::{View, Word};
use tb_core::{Action, BoardCommand, Command, Import};
use tb_task::{Moment, TaskId};
use tb_values::Text;

#[tactic(auto, unfolding(crate::specs::Words::request_in))]
pub(crate) fn read_request(
    alloc: Global,
    name: &str,
    arguments: &[&str],
    at: Moment,
) -> Result<Request, LineFault>
    ensures { Reads result
        (request_in name.now (map (λ argument. argument.now) arguments.entry.now) at) }
{
    match Word::read(name) {
        Some(word) => request_for(alloc, word, arguments, at),
        None => Err(LineFault::bad_line()),
    }
}

#[tactic(auto, unfolding(crate::specs::Words::request_for))]
fn request_for(
    alloc: Global,
    word: Word,
    arguments: &[&str],
    at: Moment,
) -> Result<Request, LineFault>
    ensures { Reads result
        (request_for word (map (λ argument. argument.now) arguments.entry.now) at) }
{
    match word {
        Word::List => read_listing(arguments),
        Word::Export => read_export(arguments),
        Word::Todo => read_todo(arguments),
        Word::Task => read_shown(arguments),
        Word::Add => read_add(alloc, arguments, at),
        Word::Import => read_import(alloc, arguments, at),
        Word::ImportTodo => read_import_todo(alloc, arguments, at),
        Word::Done => read_action(arguments, Action::Done),
        Word::Delete => read_action(arguments, Action::Delete),
        Word::Reopen => read_action(arguments, Action::Reopen),
        Word::Start => read_action(arguments, Action::Start),
        Word::Stop => read_action(arguments, Action::Stop),
        Word::Annotate => read_annotate(alloc, arguments),
        Word::Denotate => read_denotate(alloc, arguments),
        Word::Modify => read_modify(alloc, arguments),
        Word::Depend => read_depend(arguments),
        Word::Undepend => read_undepend(arguments),
        Word::Sweep => read_sweep(arguments),
        Word::Ahead => read_set_ahead(arguments),
        Word::Person => read_new_person(alloc, arguments),
        Word::Board => read_new_board(alloc, arguments),
        Word::Role => read_set_role(alloc, arguments),
        Word::OwnKey => read_own_key(alloc, arguments),
        Word::Key => read_set_key(alloc, arguments),
        Word::Take => read_take(arguments),
        Word::Title => read_retitle(alloc, arguments),
        Word::People => read_people(arguments),
        Word::History => read_history(arguments),
        Word::HistoryOf => read_history_of(arguments),
        Word::Me => read_me(arguments),
    }
}

fn on_board(board: u32, command: BoardCommand) -> Request
    ensures { result ≡ Call (OnBoard board command) }
{
    Request::Call(Command::OnBoard { board, command })
}

fn read_task_alone(arguments: &[&str]) -> Result<(u32, TaskId), LineFault>
    ensures { Reads result (two task (map (λ argument. argument.now) arguments.entry.now)) }
{
    let [board, uuid] = arguments else {
        return Err(LineFault::bad_line());
    };
    read_task(board, uuid)
}

#[tactic(auto, unfolding(crate::specs::Words::task))]
fn read_task(board: &str, uuid: &str) -> Result<(u32, TaskId), LineFault>
    ensures { Reads result (task board.now uuid.now) }
{
    let board = read_board(board)?;
    let id = read_uuid(uuid)?;
    Ok((board, id))
}

fn read_link(arguments: &[&str]) -> Result<((u32, TaskId), TaskId), LineFault>
    ensures { Reads result (three link (map (λ argument. argument.now) arguments.entry.now)) }
{
    let [board, uuid, other] = arguments else {
        return Err(LineFault::bad_line());
    };
    read_link_between(board, uuid, other)
}

#[tactic(auto, unfolding(crate::specs::Words::link))]
fn read_link_between(
    board: &str,
    uuid: &str,
    other: &str,
) -> Result<((u32, TaskId), TaskId), LineFault>
    ensures { Reads result (link board.now uuid.now other.now) }
{
    let task = read_task(board, uuid)?;
    let on = read_uuid(other)?;
    Ok((task, on))
}

fn read_listing(arguments: &[&str]) -> Result<Request, LineFault>
    ensures { Reads result (one listing (map (λ argument. argument.now) arguments.entry.now)) }
{
    let [board] = arguments else {
        return Err(LineFault::bad_line());
    };
    Ok(Request::View(View::Listing(read_board(board)?)))
}

fn read_export(arguments: &[&str]) -> Result<Request, LineFault>
    ensures { Reads result (one export (map (λ argument. argument.now) arguments.entry.now)) }
{
    let [board] = arguments else {
        return Err(LineFault::bad_line());
    };
    Ok(Request::View(View::Export(read_board(board)?)))
}

fn read_todo(arguments: &[&str]) -> Result<Request, LineFault>
    ensures { Reads result (one todo (map (λ argument. argument.now) arguments.entry.now)) }
{
    let [board] = arguments else {
        return Err(LineFault::bad_line());
    };
    Ok(Request::View(View::Todo(read_board(board)?)))
}

fn read_shown(arguments: &[&str]) -> Result<Request, LineFault>
    ensures { Reads result (showing (map (λ argument. argument.now) arguments.entry.now)) }
{
    let (board, id) = read_task_alone(arguments)?;
    Ok(Request::View(View::One(board, id)))
}

fn read_people(arguments: &[&str]) -> Result<Request, LineFault>
    ensures { Reads result (one people (map (λ argument. argument.now) arguments.entry.now)) }
{
    let [board] = arguments else {
        return Err(LineFault::bad_line());
    };
    Ok(Request::View(View::People(read_board(board)?)))
}

fn read_history(arguments: &[&str]) -> Result<Request, LineFault>
    ensures { Reads result (history (map (λ argument. argument.now) arguments.entry.now)) }
{
    match arguments {
        [board] => read_last_entries(board),
        [board, number] => read_entries_from(board, number),
        _ => Err(LineFault::bad_line()),
    }
}

fn read_last_entries(board: &str) -> Result<Request, LineFault>
    ensures { Reads result (last_entries board.now) }
{
    Ok(Request::View(View::History(read_board(board)?)))
}

fn read_entries_from(board: &str, number: &str) -> Result<Request, LineFault>
    ensures { Reads result (entries_from board.now number.now) }
{
    let board = read_board(board)?;
    let number = read_board(number)?;
    Ok(Request::View(View::HistoryFrom(board, number)))
}

fn read_history_of(arguments: &[&str]) -> Result<Request, LineFault>
    ensures { Reads result (history_of (map (λ argument. argument.now) arguments.entry.now)) }
{
    let (board, id) = read_task_alone(arguments)?;
    Ok(Request::View(View::HistoryOf(board, id)))
}

fn read_me(arguments: &[&str]) -> Result<Request, LineFault>
    ensures { Reads result (none (ViewOf Me) (map (λ argument. argument.now) arguments.entry.now)) }
{
    match arguments {
        [] => Ok(Request::View(View::Me)),
        _ => Err(LineFault::bad_line()),
    }
}

fn read_add(alloc: Global, arguments: &[&str], at: Moment) -> Result<Request, LineFault>
    ensures { Reads result (two (adding at) (map (λ argument. argument.now) arguments.entry.now)) }
{
    let [board, body] = arguments else {
        return Err(LineFault::bad_line());
    };
    let number = read_board(board)?;
    let incoming = read_incoming(alloc, body, at)?;
    Ok(on_board(number, BoardCommand::Add { incoming }))
}

fn read_import(alloc: Global, arguments: &[&str], at: Moment) -> Result<Request, LineFault>
    ensures { Reads result
        (two (importing at) (map (λ argument. argument.now) arguments.entry.now)) }
{
    let [board, text] = arguments else {
        return Err(LineFault::bad_line());
    };
    let board = read_board(board)?;
    let tasks = read_imported(alloc, text, at)?;
    Ok(on_board(board, BoardCommand::Import(Import::Json { tasks })))
}

fn read_import_todo(alloc: Global, arguments: &[&str], at: Moment) -> Result<Request, LineFault>
    ensures { Reads result
        (importing_todo at (map (λ argument. argument.now) arguments.entry.now)) }
{
    let [board, lines @ ..] = arguments else {
        return Err(LineFault::bad_line());
    };
    let board = read_board(board)?;
    let tasks = read_tasks(alloc, lines, at, board)?;
    Ok(on_board(board, BoardCommand::Import(Import::Todo { tasks })))
}

fn read_action(arguments: &[&str], action: Action) -> Result<Request, LineFault>
    ensures { Reads result (acting action (map (λ argument. argument.now) arguments.entry.now)) }
{
    let (board, id) = read_task_alone(arguments)?;
    Ok(on_board(board, BoardCommand::OnTask { id, action }))
}

fn read_annotate(alloc: Global, arguments: &[&str]) -> Result<Request, LineFault>
    ensures { Reads result
        (three (acting_with Annotate) (map (λ argument. argument.now) arguments.entry.now)) }
{
    let [board, uuid, text] = arguments else {
        return Err(LineFault::bad_line());
    };
    let (board, id) = match read_task(board, uuid) {
        Ok(task) => task,
        Err(fault) => return Err(fault),
    };
    let action = Action::Annotate(Text::from_str(alloc, text)?);
    Ok(on_board(board, BoardCommand::OnTask { id, action }))
}

fn read_denotate(alloc: Global, arguments: &[&str]) -> Result<Request, LineFault>
    ensures { Reads result
        (three (acting_with Denotate) (map (λ argument. argument.now) arguments.entry.now)) }
{
    let [board, uuid, text] = arguments else {
        return Err(LineFault::bad_line());
    };
    let (board, id) = match read_task(board, uuid) {
        Ok(task) => task,
        Err(fault) => return Err(fault),
    };
    let action = Action::Denotate(Text::from_str(alloc, text)?);
    Ok(on_board(board, BoardCommand::OnTask { id, action }))
}

fn read_modify(alloc: Global, arguments: &[&str]) -> Result<Request, LineFault>
    ensures { Reads result (three modifying (map (λ argument. argument.now) arguments.entry.now)) }
{
    let [board, uuid, body] = arguments else {
        return Err(LineFault::bad_line());
    };
    let (board, id) = match read_task(board, uuid) {
        Ok(task) => task,
        Err(fault) => return Err(fault),
    };
    let edits = read_edits(alloc, body)?;
    Ok(on_board(board, BoardCommand::Modify { id, edits }))
}

fn read_depend(arguments: &[&str]) -> Result<Request, LineFault>
    ensures { Reads result (linking (map (λ argument. argument.now) arguments.entry.now)) }
{
    let ((board, id), on) = read_link(arguments)?;
    Ok(on_board(board, BoardCommand::Depend { id, on }))
}

fn read_undepend(arguments: &[&str]) -> Result<Request, LineFault>
    ensures { Reads result (unlinking (map (λ argument. argument.now) arguments.entry.now)) }
{
    let ((board, id), on) = read_link(arguments)?;
    Ok(on_board(board, BoardCommand::Undepend { id, on }))
}

fn read_sweep(arguments: &[&str]) -> Result<Request, LineFault>
    ensures { Reads result (one sweeping (map (λ argument. argument.now) arguments.entry.now)) }
{
    let [board] = arguments else {
        return Err(LineFault::bad_line());
    };
    let board = read_board(board)?;
    Ok(on_board(board, BoardCommand::Sweep))
}

fn read_set_ahead(arguments: &[&str]) -> Result<Request, LineFault>
    ensures { Reads result (two set_ahead (map (λ argument. argument.now) arguments.entry.now)) }
{
    let [board, number] = arguments else {
        return Err(LineFault::bad_line());
    };
    let board = read_board(board)?;
    let ahead = read_ahead(number)?;
    Ok(on_board(board, BoardCommand::SetAhead { ahead }))
}

fn read_new_person(alloc: Global, arguments: &[&str]) -> Result<Request, LineFault>
    ensures { Reads result (two new_person (map (λ argument. argument.now) arguments.entry.now)) }
{
    let [name, key] = arguments else {
        return Err(LineFault::bad_line());
    };
    let name = read_person(alloc, name)?;
    let key = read_secret(alloc, key)?;
    Ok(Request::Call(Command::NewPerson { name, key }))
}

fn read_own_key(alloc: Global, arguments: &[&str]) -> Result<Request, LineFault>
    ensures { Reads result (two own_key (map (λ argument. argument.now) arguments.entry.now)) }
{
    let [old, key] = arguments else {
        return Err(LineFault::bad_line());
    };
    let old = read_secret(alloc, old)?;
    let new = read_secret(alloc, key)?;
    Ok(Request::Call(Command::OwnKey { old, new }))
}

fn read_set_key(alloc: Global, arguments: &[&str]) -> Result<Request, LineFault>
    ensures { Reads result (two set_key (map (λ argument. argument.now) arguments.entry.now)) }
{
    let [name, word] = arguments else {
        return Err(LineFault::bad_line());
    };
    let name = read_person(alloc, name)?;
    let key = read_key_or_none(alloc, word)?;
    Ok(Request::Call(Command::SetKey { name, key }))
}

fn read_take(arguments: &[&str]) -> Result<Request, LineFault>
    ensures { Reads result (one taking (map (λ argument. argument.now) arguments.entry.now)) }
{
    let [board] = arguments else {
        return Err(LineFault::bad_line());
    };
    let board = read_board(board)?;
    Ok(Request::Call(Command::Take { board }))
}

fn read_retitle(alloc: Global, arguments: &[&str]) -> Result<Request, LineFault>
    ensures { Reads result (two retitling (map (λ argument. argument.now) arguments.entry.now)) }
{
    let [board, title] = arguments else {
        return Err(LineFault::bad_line());
    };
    let board = read_board(board)?;
    let title = read_heading(alloc, title)?;
    Ok(on_board(board, BoardCommand::Retitle { title }))
}

fn read_new_board(alloc: Global, arguments: &[&str]) -> Result<Request, LineFault>
    ensures { Reads result (one new_board (map (λ argument. argument.now) arguments.entry.now)) }
{
    let [title] = arguments else {
        return Err(LineFault::bad_line());
    };
    let title = read_heading(alloc, title)?;
    Ok(Request::Call(Command::NewBoard { title }))
}

fn read_set_role(alloc: Global, arguments: &[&str]) -> Result<Request, LineFault>
    ensures { Reads result (three set_role (map (λ argument. argument.now) arguments.entry.now)) }
{
    let [board, name, role] = arguments else {
        return Err(LineFault::bad_line());
    };
    let board = read_board(board)?;
    let name = read_person(alloc, name)?;
    let role = read_role(role)?;
    Ok(Request::Call(Command::SetRole { board, name, role }))
}
