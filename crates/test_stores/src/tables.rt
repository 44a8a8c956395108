//! The rows of a database, which another hand may change.

use sqlite::{Alter, Connection, Error, Row};
use sqlite_value::value::ValueRef;
use std::alloc::{AllocError, Global};
use tb_sql::lend::{next_task, task_rows};
use tb_task::TaskId;

/// A board has no more tasks.
const MOST_TASKS: usize = 10_000;

/// What is told of each table: the word that its rows begin with, and what is selected of them. Where rows are of a board it is board 1.
const TABLES: [(&str, &str); 10] = [
    ("person", "SELECT id, name, secret FROM person ORDER BY id"),
    ("board", "SELECT id, title, low FROM board ORDER BY id"),
    ("horizon", "SELECT board, ahead FROM horizon ORDER BY board"),
    (
        "role",
        "SELECT person, kind FROM role WHERE board = 1 ORDER BY person",
    ),
    (
        "task",
        "SELECT place, uuid, mask, body FROM task WHERE board = 1 ORDER BY place",
    ),
    (
        "link",
        "SELECT place, target FROM link WHERE board = 1 ORDER BY place, target",
    ),
    (
        "instance",
        "SELECT template, imask, place FROM instance WHERE board = 1 ORDER BY template, imask",
    ),
    (
        "gone",
        "SELECT template, imask, mark FROM gone WHERE board = 1 ORDER BY template, imask",
    ),
    ("kept", "SELECT person, id, number, status, body FROM kept"),
    (
        "entry",
        "SELECT number, moment, person, call, what, task FROM history WHERE board = 1 ORDER BY number",
    ),
];

/// Runs the statements of another hand. Gives the word for what failed too, or none.
pub(crate) fn change<S: Alter + Drop>(
    mut conn: Connection<S>,
    statements: &str,
) -> (Connection<S>, &'static str) {
    match conn.execute_batch(statements) {
        Ok(()) => (conn, ""),
        Err(_) => (conn, "NotRun"),
    }
}

/// A line for each row of each table, and how many tasks are lent, up to the first that can't be read.
pub(crate) fn rows_of<S: Alter + Drop>(
    alloc: Global,
    mut conn: Connection<S>,
) -> Result<(Connection<S>, String), AllocError> {
    let mut told = String::new(alloc);
    if push_tables(alloc, &mut conn, &mut told).is_err() {
        told.push_str("NotRun")?;
    }
    Ok((conn, told))
}

fn push_tables<S: Alter + Drop>(
    alloc: Global,
    conn: &mut Connection<S>,
    told: &mut String,
) -> Result<(), Error> {
    for (word, statement) in &TABLES {
        for row in conn.query_all(statement, &[])?.as_slice() {
            push_row(alloc, told, word, row)?;
        }
    }
    writeln!(told, "lent {}", count_lent(conn)?)?;
    Ok(())
}

/// Adds a line of a word and the values of a row.
fn push_row(alloc: Global, told: &mut String, word: &str, row: &Row) -> Result<(), Error> {
    told.push_str(word)?;
    for at in 0..row.column_count() {
        told.push(' ')?;
        push_value(alloc, told, row.get_ref(at)?)?;
    }
    told.push('\n')?;
    Ok(())
}

/// Adds a number or a text as it is, and bytes as the identifier that they are.
fn push_value(alloc: Global, told: &mut String, value: ValueRef<'_>) -> Result<(), AllocError> {
    match value {
        ValueRef::Int(number) => write!(told, "{number}"),
        ValueRef::Text(bytes) => told.push_str(str::from_utf8(bytes).unwrap_or("NotText")),
        ValueRef::Blob(bytes) => match bytes.as_array() {
            Some(bytes) => told.push_str(TaskId::of_bytes(*bytes).text(alloc)?.as_str()),
            None => told.push_str("NotId"),
        },
        _ => told.push_str("none"),
    }
}

/// How many tasks of board 1 are lent one by one, in the order of their places.
fn count_lent<S: Alter>(conn: &mut Connection<S>) -> Result<u32, Error> {
    let mut rows = task_rows(conn, 1)?;
    let mut count = 0u32;
    for _ in 0..MOST_TASKS {
        match next_task(&mut rows)? {
            Some(task) if task.place == count.saturating_add(1) => count = task.place,
            _ => break,
        }
    }
    Ok(count)
}
