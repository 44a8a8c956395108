//! Two files, and what is open of them.

use crate::files::{Frail, stopped};
use crate::store::{make_first_version, open_store};
use sqlite::{Alter, Connection, FileStore, Files, Options};
use sqlite_disk::Disk;
use std::io;
use tb_keeper::SqlKeep;
use test_scenes::Owner;
use test_scenes::lines::unreadable;

/// What is told where a store isn't opened.
const FAULTS: [&str; 3] = ["Store", "Unopened", "Unusable"];

/// Two files, or what is open of them.
#[derive(Drop)]
pub(crate) enum Stage<D: Disk> {
    Files(Files<D>),
    Database(Connection<FileStore<D>>),
    Store(SqlKeep<FileStore<D>>),
}

impl<D: Frail> Stage<D> {
    /// The files, of which the log isn't copied.
    pub(crate) fn into_files(self) -> Files<D> {
        match self {
            Stage::Files(files) => files,
            Stage::Database(conn) => let_go(conn).close(),
            Stage::Store(keep) => let_go(keep.close()).close(),
        }
    }

    pub(crate) fn into_database(self) -> io::Result<Connection<FileStore<D>>> {
        match self {
            Stage::Files(_) => Err(unreadable()),
            Stage::Database(conn) => Ok(conn),
            Stage::Store(keep) => Ok(keep.close()),
        }
    }

    /// The files after a stop of the machine. From then on they don't stop.
    pub(crate) fn stop(self) -> Stage<D> {
        Stage::Files(stopped(self.into_files()))
    }

    /// Opens the database, and the store in it. Gives the word for why one isn't open too, or none.
    pub(crate) fn open(self, owner: &Owner, how: &str) -> (Stage<D>, &'static str) {
        let conn = match connect(owner, self.into_files()) {
            Ok(conn) => conn,
            Err((files, word)) => return (Stage::Files(files), word),
        };
        match open_store(owner, conn, how) {
            Ok(keep) => (Stage::Store(keep), ""),
            Err((conn, word)) => (Stage::Database(conn), word),
        }
    }

    /// The same, where a file may have failed: any other reason is an error.
    pub(crate) fn open_frail(
        self,
        owner: &Owner,
        how: &str,
    ) -> io::Result<(Stage<D>, &'static str)> {
        let (stage, word) = self.open(owner, how);
        if word.is_empty() || FAULTS.contains(&word) {
            Ok((stage, word))
        } else {
            Err(io::Error::other(word))
        }
    }

    /// Opens the database, and makes a store of the first version in it, which stays closed. Gives the word for what failed too, or none.
    pub(crate) fn make_first(self, owner: &Owner) -> (Stage<D>, &'static str) {
        match connect(owner, self.into_files()) {
            Ok(conn) => {
                let (conn, word) = make_first_version(owner, conn);
                (Stage::Database(conn), word)
            }
            Err((files, word)) => (Stage::Files(files), word),
        }
    }
}

/// Opens the database of these files. Gives them back with the word for why it isn't open, where it isn't.
fn connect<D: Disk + Drop>(
    owner: &Owner,
    files: Files<D>,
) -> Result<Connection<FileStore<D>>, (Files<D>, &'static str)> {
    if !files.may_be_used() {
        return Err((files, "Unusable"));
    }
    match Connection::open_files(owner.alloc, files, Options::new(7)) {
        Ok(conn) => Ok(conn),
        Err((_, left)) => Err((left.into_files(), "Unopened")),
    }
}

/// Copies the log into the other file, and closes both. Gives the word for what failed too, or none.
pub(crate) fn close<D: Disk + Drop>(conn: Connection<FileStore<D>>) -> (Files<D>, &'static str) {
    match conn.close_files() {
        Ok(files) => (files, ""),
        Err((_, store)) => (store.close(), "NotCopied"),
    }
}

/// The store of a database, which is let go as it is.
fn let_go<S: Alter + Drop>(conn: Connection<S>) -> S {
    conn.into_store()
}
