//! Stores of databases, and lines that are answered over them.

ghost use Rattle.std.specs.Prelude.{◌≡◌, false};

use sqlite::{Alter, Connection};
use std::alloc::Global;
use std::io;
use tb_desk::Desk;
use tb_keeper::first_version::create_v1;
use tb_keeper::{CreateFault, SqlKeep};
use tb_script::{Watched, run_lines_on};
use tb_sql::opening::{OpenFault, is_empty};
use test_scenes::Owner;
use test_scenes::lines::ended;

/// A store, or the database without one and the word for why.
pub(crate) type Opened<S> = Result<SqlKeep<S>, (Connection<S>, &'static str)>;

/// Opens the store of a database. `open` makes one where there is none, `make` makes one, and `take` makes none.
pub(crate) fn open_store<S: Alter + Drop>(
    owner: &Owner,
    conn: Connection<S>,
    how: &str,
) -> Opened<S> {
    if !conn.is_autocommit() {
        return Err((conn, "InTransaction"));
    }
    if how == "make" || (how == "open" && is_empty(&conn)) {
        made(owner, conn)
    } else {
        taken(owner.alloc, conn)
    }
}

fn made<S: Alter + Drop>(owner: &Owner, conn: Connection<S>) -> Opened<S>
    requires { conn.in_transaction ≡ false }
{
    match SqlKeep::create(owner.alloc, conn, &owner.name, &owner.key) {
        Ok(keep) => Ok(keep),
        Err((conn, fault)) => Err((conn, word_of(fault))),
    }
}

/// The word for why no store is made.
fn word_of(fault: CreateFault) -> &'static str {
    match fault {
        CreateFault::NotEmpty => "NotEmpty",
        CreateFault::Store => "Store",
        CreateFault::Memory => "Memory",
    }
}

/// Makes a store of the first version in a database, which it leaves closed. Gives the word for why there is none too, or none.
pub(crate) fn make_first_version<S: Alter + Drop>(
    owner: &Owner,
    conn: Connection<S>,
) -> (Connection<S>, &'static str) {
    if !conn.is_autocommit() {
        return (conn, "InTransaction");
    }
    match create_v1(owner.alloc, conn, &owner.name, &owner.key) {
        Ok(conn) => (conn, ""),
        Err((conn, fault)) => (conn, word_of(fault)),
    }
}

fn taken<S: Alter + Drop>(alloc: Global, conn: Connection<S>) -> Opened<S>
    requires { conn.in_transaction ≡ false }
{
    match SqlKeep::open(alloc, conn) {
        Ok(keep) => Ok(keep),
        Err((conn, OpenFault::NotOurs)) => Err((conn, "NotOurs")),
        Err((conn, OpenFault::WrongVersion)) => Err((conn, "WrongVersion")),
        Err((conn, OpenFault::Store)) => Err((conn, "Store")),
        Err((conn, OpenFault::Memory)) => Err((conn, "Memory")),
    }
}

/// The store of a database, or a new one.
fn keep_in<S: Alter + Drop>(owner: &Owner, conn: Connection<S>) -> io::Result<SqlKeep<S>> {
    match open_store(owner, conn, "open") {
        Ok(keep) => Ok(keep),
        Err((_, word)) => Err(io::Error::other(word)),
    }
}

/// Answers lines over the store that the file of that name holds, or a new one where there is none, or for `--memory` in memory.
pub fn answer_in(
    rt: &HostRuntime,
    owner: &Owner,
    place: &str,
    lines: &[u8],
) -> io::Result<Vec<u8>> {
    if place == "--memory" {
        let conn = Connection::open_in_memory(owner.alloc)?;
        return Ok(answer_over(owner, conn, lines)?.0);
    }
    let Ok(conn) = Connection::open(rt, place) else {
        return Err(io::Error::other("the file can't be opened"));
    };
    let (answers, conn) = answer_over(owner, conn, lines)?;
    match conn.close() {
        Ok(()) => Ok(answers),
        Err(_) => Err(io::Error::other("the file can't be closed")),
    }
}

fn answer_over<S: Alter + Drop>(
    owner: &Owner,
    conn: Connection<S>,
    lines: &[u8],
) -> io::Result<(Vec<u8>, Connection<S>)> {
    let mut answers = Vec::new(owner.alloc);
    let mut desk = Desk::new(keep_in(owner, conn)?);
    let mut script = Watched::new(lines);
    ended(run_lines_on(owner.alloc, &mut script, &mut answers, &mut desk))?;
    Ok((answers, desk.into_keep().close()))
}
