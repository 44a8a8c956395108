//! Why a file can't be used, as far as looking at it again says.
ghost use Rattle.std.specs.Prelude.{◌≡◌};
ghost use Rattle.tb_causes.specs.FileCause.{IsFileText, access_text, file_text, log_text, look_text, opening_text};

use sqlite::{Connection, Error, ErrorCode};
use std::fs;
use std::io::ErrorKind;
use std::os::unix::fs::MetadataExt;
use tb_wal::{LogFault, MachineBeside, find_log_fault};

const FOLDER: &str = "The file's name is that of a folder.";

const NO_FILE: &str =
    "There is no such file or folder: correct the name, or make the file with `taskboard init`.";

const NO_LOOK: &str = "This user may not look at the file.";

const LOOK_FAILED: &str = "The file can't be looked at.";

const NO_ACCESS: &str = "This user may not read and write the file.";

const OPEN_FAILED: &str = "The file can't be opened.";

const LINKED: &str =
    "The file has another name, by a hard link, and two names can't share one log: remove that link.";

const BUSY: &str =
    "Another program has the file open, such as a running server: ask that server, or stop it first.";

const NO_DATABASE: &str = "The file is no database: correct its name.";

const DAMAGED: &str = "The file is damaged: keep it as it is, and restore the newest good copy.";

const NO_LOG: &str = "The file can't be opened as a database, or its log beside it can't.";

const LOG_LEFT: &str =
    "The file isn't there or is empty, and its log, of the same name with -wal, has what was committed to it: bring the file back, or put the log aside.";

const LOG_DAMAGED: &str =
    "Its log, of the same name with -wal, is damaged before commits that were made later. Nothing was changed. Restore the newest good copy, or put the log aside to go on without what is in it.";

const LOG_FOREIGN: &str =
    "The file is younger than its log, of the same name with -wal, which has commits of another file, or of this one before it was restored. Put the log aside. If the two do belong together, copy the log, and put the copy in its place.";

const FAILED_LATER: &str =
    "The file failed while it was used: its disk is full or fails, or another program changed its rows. Run `taskboard check FILE`. An import may have acted: import again under the same ID. A key may have changed: give another.";

/// What a file is when it is looked at again.
#[derive(Drop)]
enum FileCause {
    /// Its log keeps it from being opened.
    Log(LogFault),
    /// It can't be looked at.
    Unseen(ErrorKind),
    Folder,
    /// It has another name.
    Linked,
    /// It can't be read and written.
    Closed(ErrorKind),
    /// It is no database that can be used.
    Unusable(Error),
    /// It is one that can.
    Usable,
}

/// Why the file at a path can't be used.
pub(crate) fn cause_of_file(rt: &HostRuntime, path: &str) -> &'static str
    ensures { IsFileText result.now }
{
    file_text(&look_at(rt, path))
}

fn look_at(rt: &HostRuntime, path: &str) -> FileCause {
    if let Ok(Some(fault)) = find_log_fault(&MachineBeside::new(rt, path)) {
        return FileCause::Log(fault);
    }
    match fs::metadata(rt, path) {
        Err(error) => FileCause::Unseen(error.kind()),
        Ok(found) if found.is_dir() => FileCause::Folder,
        Ok(found) if found.nlink() > 1 => FileCause::Linked,
        Ok(_) => open_at(rt, path),
    }
}

fn open_at(rt: &HostRuntime, path: &str) -> FileCause {
    if let Err(error) = fs::OpenOptions::new().read(true).write(true).open(rt, path) {
        return FileCause::Closed(error.kind());
    }
    match Connection::open(rt, path) {
        Err(error) => FileCause::Unusable(error),
        Ok(_) => FileCause::Usable,
    }
}

fn file_text(cause: &FileCause) -> &'static str
    ensures { result.now ≡ file_text cause.now }
{
    match cause {
        FileCause::Log(fault) => log_text(*fault),
        FileCause::Unseen(kind) => look_text(*kind),
        FileCause::Folder => FOLDER,
        FileCause::Linked => LINKED,
        FileCause::Closed(kind) => access_text(*kind),
        FileCause::Unusable(error) => opening_text(error),
        FileCause::Usable => FAILED_LATER,
    }
}

fn log_text(fault: LogFault) -> &'static str
    ensures { result.now ≡ log_text fault }
{
    match fault {
        LogFault::Left => LOG_LEFT,
        LogFault::Damaged => LOG_DAMAGED,
        LogFault::Foreign => LOG_FOREIGN,
    }
}

fn look_text(kind: ErrorKind) -> &'static str
    ensures { result.now ≡ look_text kind }
{
    match kind {
        ErrorKind::NotFound => NO_FILE,
        ErrorKind::PermissionDenied => NO_LOOK,
        _ => LOOK_FAILED,
    }
}

fn access_text(kind: ErrorKind) -> &'static str
    ensures { result.now ≡ access_text kind }
{
    match kind {
        ErrorKind::PermissionDenied => NO_ACCESS,
        _ => OPEN_FAILED,
    }
}

fn opening_text(error: &Error) -> &'static str
    ensures { result.now ≡ opening_text error.now }
{
    match error {
        Error::SqliteFailure(ErrorCode::DatabaseBusy) => BUSY,
        Error::SqliteFailure(ErrorCode::NotADatabase) => NO_DATABASE,
        Error::SqliteFailure(ErrorCode::DatabaseCorrupt) => DAMAGED,
        _ => NO_LOG,
    }
}
