//! The fields of a line, and the arguments of its word.
ghost use Rattle.std.specs.Prelude.{◌≡◌};
ghost use Rattle.tb_board.specs.Names.{read_name, read_key, read_title};
ghost use Rattle.tb_task.specs.MomentText.{moment_of};
ghost use Rattle.tb_task.specs.TaskId.{read_id};
ghost use Rattle.tb_script.specs.Arguments.{ahead_number, board_number, key_or_none, role_named};
ghost use Rattle.tb_script.specs.Outcome.{Reads, or_bad_line};

use crate::line_fault::LineFault;
use std::alloc::Global;
use tb_board::{Ahead, Key, Name, Role, Title};
use tb_task::{Moment, TaskId};
use tb_values::read_number;

pub(crate) fn read_moment(text: &str) -> Result<Moment, LineFault>
    ensures { Reads result (or_bad_line (moment_of text.now)) }
{
    match Moment::read(text.as_bytes()) {
        Some(moment) => Ok(moment),
        None => Err(LineFault::bad_line()),
    }
}

pub(crate) fn read_person(alloc: Global, text: &str) -> Result<Name, LineFault>
    ensures { Reads result (or_bad_line (read_name text.now)) }
{
    match Name::read(alloc, text)? {
        Some(name) => Ok(name),
        None => Err(LineFault::bad_line()),
    }
}

pub(crate) fn read_secret(alloc: Global, text: &str) -> Result<Key, LineFault>
    ensures { Reads result (or_bad_line (read_key text.now)) }
{
    match Key::read(alloc, text)? {
        Some(key) => Ok(key),
        None => Err(LineFault::bad_line()),
    }
}

pub(crate) fn read_key_or_none(alloc: Global, text: &str) -> Result<Option<Key>, LineFault>
    ensures { Reads result (or_bad_line (key_or_none text.now)) }
{
    if text == "none" {
        return Ok(None);
    }
    Ok(Some(read_secret(alloc, text)?))
}

pub(crate) fn read_heading(alloc: Global, text: &str) -> Result<Title, LineFault>
    ensures { Reads result (or_bad_line (read_title text.now)) }
{
    match Title::read(alloc, text)? {
        Some(title) => Ok(title),
        None => Err(LineFault::bad_line()),
    }
}

pub(crate) fn read_uuid(text: &str) -> Result<TaskId, LineFault>
    ensures { Reads result (or_bad_line (read_id text.now)) }
{
    match TaskId::read(text) {
        Some(id) => Ok(id),
        None => Err(LineFault::bad_line()),
    }
}

pub(crate) fn read_role(text: &str) -> Result<Option<Role>, LineFault>
    ensures { Reads result (or_bad_line (role_named text.now)) }
{
    match text {
        "owner" => Ok(Some(Role::Owner)),
        "member" => Ok(Some(Role::Member)),
        "reader" => Ok(Some(Role::Reader)),
        "none" => Ok(None),
        _ => Err(LineFault::bad_line()),
    }
}

#[tactic(auto, unfolding(crate::specs::Arguments::board_number))]
pub(crate) fn read_board(text: &str) -> Result<u32, LineFault>
    ensures { Reads result (or_bad_line (board_number text.now)) }
{
    match read_number(text, u32::MAX) {
        Some(board) => Ok(board),
        None => Err(LineFault::bad_line()),
    }
}

#[tactic(auto, unfolding(crate::specs::Arguments::ahead_number))]
pub(crate) fn read_ahead(text: &str) -> Result<Ahead, LineFault>
    ensures { Reads result (or_bad_line (ahead_number text.now)) }
{
    let Some(number) = read_number(text, u32::MAX) else {
        return Err(LineFault::bad_line());
    };
    match Ahead::read(number as u64) {
        Some(ahead) => Ok(ahead),
        None => Err(LineFault::bad_line()),
    }
}
