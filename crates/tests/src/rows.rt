//! Rows of a store that are read back, or refused.

use std::alloc::Global;
use std::io;
use tb_board::Board;
use tb_rows::{add_roles, read_board, read_people};
use tb_sql_tables::rows::{BoardRow, GoneRow, HorizonRow, PersonRow, RoleRow, TaskRow};
use tb_task::TaskId;
use tb_values::{Items, Text};
use test_values::finding::{Finding, missing, show};
use test_values::given::halves;

/// The people of the rows `NUMBER:NAME:SECRET`, with their keys.
pub(crate) fn people(alloc: Global, given: &str) -> Finding {
    let mut rows = Vec::new(alloc);
    for text in given.split(' ') {
        let (number, rest) = text.split_once(':').unwrap_or((text, ""));
        let (name, secret) = rest.split_once(':').unwrap_or((rest, ""));
        rows.push(PersonRow {
            id: number.parse().unwrap_or(0),
            name: Text::from_str(alloc, name)?,
            secret: Text::from_str(alloc, secret)?,
        })?;
    }
    let people = match read_people(alloc, rows.as_slice()) {
        Ok(people) => people,
        Err(fault) => return show(alloc, &fault),
    };
    let mut told = String::new(alloc);
    for person in people.as_slice() {
        let key = match &person.key {
            Some(key) => key.as_str(),
            None => "-",
        };
        writeln!(told, "{} {key}", person.name.as_str())?;
    }
    Ok(told)
}

/// The roles of rows of these kinds, all of person 2 on board 1.
pub(crate) fn roles(alloc: Global, given: &str) -> Finding {
    let mut rows = Vec::new(alloc);
    for kind in given.split(' ') {
        rows.push(RoleRow {
            board: 1,
            person: 2,
            kind: kind.parse().unwrap_or(0),
        })?;
    }
    match add_roles(Items::new(alloc), rows.as_slice()) {
        Ok(roles) => show(alloc, &roles.as_slice()),
        Err(fault) => show(alloc, &fault),
    }
}

/// The row `PLACE NUMBER` of a task that this JSON text stores.
fn task_row(alloc: Global, words: &str, json: &str) -> io::Result<TaskRow> {
    let (place, number) = halves(words);
    Ok(TaskRow {
        board: 1,
        place: place.parse().unwrap_or(0),
        uuid: TaskId::made(1, number.parse().unwrap_or(0)).ok_or(missing())?,
        body: Text::from_str(alloc, json)?,
        mask: None,
    })
}

/// The row `TEMPLATE MARK` of the first instance of a template, which is gone.
fn gone_row(alloc: Global, words: &str) -> io::Result<GoneRow> {
    let (template, mark) = halves(words);
    Ok(GoneRow {
        board: 1,
        template: template.parse().unwrap_or(0),
        imask: 0,
        mark: Text::from_str(alloc, mark)?,
    })
}

/// The board of one task and one place that is gone, `AHEAD PLACE NUMBER/TEMPLATE MARK/JSON`.
pub(crate) fn board(alloc: Global, given: &str) -> Finding {
    let (ahead, given) = halves(given);
    let (task, rest) = given.split_once('/').unwrap_or((given, ""));
    let (gone, json) = rest.split_once('/').unwrap_or((rest, ""));
    let task = task_row(alloc, task, json)?;
    let gone = gone_row(alloc, gone)?;
    let row = BoardRow {
        id: 1,
        title: Text::from_str(alloc, "home")?,
        low: 2,
    };
    let horizon = match ahead.parse() {
        Ok(ahead) => Some(HorizonRow { board: 1, ahead }),
        Err(_) => None,
    };
    match read_board(alloc, &row, horizon, &[task], &[gone]) {
        Ok(board) => tell_board(alloc, &board),
        Err(fault) => show(alloc, &fault),
    }
}

/// The first task of a board, how far ahead it looks, whether its first gone place is that task's, and that place's mark.
fn tell_board(alloc: Global, board: &Board) -> Finding {
    let task = board.tasks.get(0).ok_or(missing())?.get();
    let place = board.gone.get(0).ok_or(missing())?;
    let is_its = place.template == task.id;
    let mark = char::from(place.mark.byte());
    let (text, ahead) = (task.description.as_str(), board.ahead.number());
    Ok(format!(in alloc; "{text} {ahead} {is_its} {mark}")?)
}
