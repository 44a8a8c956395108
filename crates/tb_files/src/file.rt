//! The file of boards.
ghost use Rattle.sqlite.specs.Files.{file_state};
ghost use Rattle.sqlite.specs.State.{HasCleanDisk};
ghost use Rattle.sqlite_wal.specs.Files.{image_at};
ghost use Rattle.tb_sql_tables.specs.Failing.{IsAtRest};
ghost use Rattle.std.specs.Io.KnownBytes.{Appends};
ghost use Rattle.std.specs.Prelude.{◌≡◌, false, IfErr, IfOk, None, Ok, OnErr, OnOk, true};
ghost use Rattle.tb_files.specs.Failed.{IsUnopened};
ghost use Rattle.tb_files.specs.File.{IsBegun, IsFoundIn, IsSaved, IsUnsaved};
ghost use Rattle.tb_files.specs.GivenUp.{IsGivenUp};
ghost use Rattle.tb_files.specs.NotDone.{IsUntaken};
ghost use Rattle.tb_files.specs.Notice.{notice, rest_of_notice};
ghost use Rattle.tb_orders.specs.Faults.{is_of_files, is_of_opening};
ghost use Rattle.tb_orders.specs.Items.{fault_alone};
ghost use Rattle.tb_program.specs.declared.fault.Fault.TheVariants.{Store, WriteFailed};
ghost use Rattle.tb_values.specs.Appends.{AppendsFront};
ghost use Rattle.tb_wal.specs.Looking.{IsFound};

use crate::fault::fault_of_opening;
use crate::not_done::Untaken;
use sqlite::{Connection, Error, ErrorCode, FileFrom, FileStore};
use sqlite_disk::{Disk, Start};
use std::fs;
use std::io::Write;
use tb_calls::Keep;
use tb_desk::Desk;
use tb_headline::session::resume;
use tb_keeper::SqlKeep;
use tb_orders::{Ending, OrderFault};
use tb_program::{Fault, print_line, print_text};
use tb_sql::opening::Version;
use tb_wal::{Beside, MachineBeside, find_log_fault};

/// What became of a file of version 1.
const IS_OF_VERSION_TWO: &str = " is now of version 2";

/// What became of a file that had no history.
const HAS_A_HISTORY: &str = " has a history from now on, and programs before this one refuse it";

/// The store of a real file that held what `S` says.
pub type RealFile<S> = FileStore<FileFrom<S>>;

/// Opens the file at a path. One that isn't there isn't made. It isn't opened with a log that belongs to another file or is damaged:
/// the engine would take the log as it is, and drop what it can't read.
pub fn open_file<S: Start>(
    rt: &HostRuntime,
    path: &str,
    start: S,
) -> Result<Connection<RealFile<S>>, Fault>
    ensures fault { IfErr result (λ fault. is_of_files fault ≡ true) }
    ensures found { IfOk result (IsFoundIn (image_at S.Start)) }
{
    if fs::metadata(rt, path).is_err() {
        return Err(Fault::Store);
    }
    open_beside(rt, &mut MachineBeside::new(rt, path), path, false, start)
}

/// Opens the file at a path, or makes an empty one with sums of its pages, which its owner alone may read and write.
pub fn open_new_file<S: Start>(
    rt: &HostRuntime,
    path: &str,
    start: S,
) -> Result<Connection<RealFile<S>>, Fault>
    ensures fault { IfErr result (λ fault. is_of_files fault ≡ true) }
    ensures found { IfOk result (IsFoundIn (image_at S.Start)) }
{
    open_beside(rt, &mut MachineBeside::new(rt, path), path, true, start)
}

/// Opens a file, or makes it where that is wanted, for its owner alone, once the log beside it was looked at.
fn open_beside<B: Beside, S: Start>(
    rt: &HostRuntime,
    beside: &mut B,
    path: &str,
    makes: bool,
    start: S,
) -> Result<Connection<RealFile<S>>, Fault>
    ensures looked { OnOk result (IsFound (B.shows beside.old) None) }
    ensures private { makes ≡ true → OnOk result (B.is_private beside.new) }
    ensures found { IfOk result (IsFoundIn (image_at S.Start)) }
    ensures fault { IfErr result (λ fault. is_of_files fault ≡ true) }
{
    look_at_log(&*beside)?;
    if makes {
        beside.make_private();
    }
    match Connection::open_from(rt, path, makes, start) {
        Ok(conn) => take_opened(conn),
        Err((error, _)) => Err(fault_of(error)),
    }
}

/// Refuses a file with a log that belongs to another one, or is damaged.
fn look_at_log<B: Beside>(beside: &B) -> Result<(), Fault>
    ensures looked { OnOk result (IsFound (B.shows beside.now) None) }
    ensures fault { IfErr result (λ fault. is_of_files fault ≡ true) }
{
    match find_log_fault(beside) {
        Ok(None) => Ok(()),
        Ok(Some(_)) => Err(Fault::Store),
        Err(_) => Err(Fault::Memory),
    }
}

/// A connection that was opened, in which no transaction is open.
fn take_opened<S: Start>(conn: Connection<RealFile<S>>) -> Result<Connection<RealFile<S>>, Fault>
    ensures fault { IfErr result (λ fault. is_of_files fault ≡ true) }
    ensures same { IfOk result (λ taken. (taken ≡ conn) × (conn.in_transaction ≡ false)) }
{
    if conn.is_autocommit() {
        Ok(conn)
    } else {
        Err(Fault::Store) // Never: no transaction is open in a new connection.
    }
}

/// Why there is no connection.
fn fault_of(error: Error) -> Fault
    ensures { is_of_files result ≡ true }
{
    match error {
        Error::SqliteFailure(ErrorCode::OutOfMemory) => Fault::Memory,
        _ => Fault::Store,
    }
}

/// Begins a session over the boards that a connection to the file at a path found.
pub fn open_desk<D: Disk + Drop>(
    rt: &HostRuntime,
    path: &str,
    conn: Connection<FileStore<D>>,
) -> Result<Desk<SqlKeep<FileStore<D>>>, Untaken<Connection<FileStore<D>>>>
    requires idle { conn.in_transaction ≡ false }
    requires opens { HasCleanDisk (file_state conn) → IsAtRest (file_state conn) }
    ensures begun { IfOk result (IsBegun ⟦<SqlKeep<FileStore<D>> as Keep>⟧ conn) }
    ensures untaken { IfErr result (λ untaken. IsUntaken conn untaken.left untaken.fault) }
    ensures fault { IfErr result (λ untaken. is_of_opening untaken.fault ≡ true) }
{
    match resume(rt.alloc(), conn) {
        Ok(desk) => Ok(with_notice(rt, path, desk)),
        Err((left, fault)) => Err(Untaken {
            left,
            fault: fault_of_opening(fault),
        }),
    }
}

/// Opens the file at a path, and begins a session over the boards in it.
#[tactic(auto, using(crate::proofs::Faults::of_files))]
pub(crate) fn begin<S: Start>(
    rt: &HostRuntime,
    path: &str,
    start: S,
) -> Result<Desk<SqlKeep<RealFile<S>>>, Fault>
    ensures begun { IfOk result (λ desk. (found : _) × IsFoundIn (image_at S.Start) found
        × IsBegun ⟦<SqlKeep<RealFile<S>> as Keep>⟧ found desk) }
    ensures unopened { IfErr result
        (IsUnopened ⟦<SqlKeep<RealFile<S>> as Keep>⟧ (image_at S.Start)) }
    ensures fault { IfErr result (λ fault. is_of_opening fault ≡ true) }
{
    match open_file(rt, path, start) {
        Ok(conn) => match open_desk(rt, path, conn) {
            Ok(desk) => Ok(desk),
            Err(untaken) => Err(untaken.fault),
        },
        Err(fault) => Err(fault),
    }
}

/// The desk. Where its file was of a version before, what became of it is told on standard error.
fn with_notice<D: Disk + Drop>(
    rt: &HostRuntime,
    path: &str,
    desk: Desk<SqlKeep<FileStore<D>>>,
) -> Desk<SqlKeep<FileStore<D>>>
    ensures { result ≡ desk }
{
    let keep = desk.into_keep();
    let found = keep.found();
    if found == Version::First {
        let _ = tell(&mut rt.stderr(), path, IS_OF_VERSION_TWO);
    }
    if found != Version::Third {
        let _ = tell(&mut rt.stderr(), path, HAS_A_HISTORY);
    }
    Desk::new(keep)
}

/// Tells what became of a file.
fn tell<W: Write>(writer: &mut W, path: &str, what: &str) -> Result<(), Fault>
    ensures whole { OnOk result
        (Appends (W.contents writer.old) (W.contents writer.new) (notice path.now what.now)) }
    ensures front { OnErr result
        (AppendsFront (W.contents writer.old) (W.contents writer.new) (notice path.now what.now)) }
    ensures fault { IfErr result (λ fault. fault ≡ WriteFailed) }
{
    match print_text(writer, "taskboard: ") {
        Ok(()) => tell_rest(writer, path, what),
        Err(fault) => Err(fault),
    }
}

fn tell_rest<W: Write>(writer: &mut W, path: &str, what: &str) -> Result<(), Fault>
    ensures whole { OnOk result (Appends (W.contents writer.old) (W.contents writer.new)
        (rest_of_notice path.now what.now)) }
    ensures front { OnErr result (AppendsFront (W.contents writer.old) (W.contents writer.new)
        (rest_of_notice path.now what.now)) }
    ensures fault { IfErr result (λ fault. fault ≡ WriteFailed) }
{
    match print_text(writer, path) {
        Ok(()) => print_line(writer, what),
        Err(fault) => Err(fault),
    }
}

/// Ends a session.
pub fn close_desk<D: Disk + Drop>(desk: Desk<SqlKeep<FileStore<D>>>) -> Result<(), Fault>
    ensures saved { OnOk result ((files : _) × IsSaved desk.conn files) }
    ensures unsaved { OnErr result (IsUnsaved desk.conn) }
    ensures fault { IfErr result (λ fault. fault ≡ Store) }
{
    close_keep(desk.into_keep())
}

/// Gives a session up: what isn't committed is rolled back, and the last commits stay in the log.
pub fn give_up_desk<D: Disk + Drop>(desk: Desk<SqlKeep<FileStore<D>>>) -> FileStore<D>
    ensures { IsGivenUp desk.conn result }
{
    desk.into_keep().close().into_store()
}

/// Ends a session in which an order ended so.
pub(crate) fn close_after<D: Disk + Drop>(
    desk: Desk<SqlKeep<FileStore<D>>>,
    ending: Ending,
) -> Result<Ending, OrderFault>
    ensures saved { IfOk result
        (λ told. (told ≡ ending) × ((files : _) × IsSaved desk.conn files)) }
    ensures fault { IfErr result
        (λ failed. (failed ≡ fault_alone Store) × IsUnsaved desk.conn) }
{
    match close_desk(desk) {
        Ok(()) => Ok(ending),
        Err(fault) => Err(OrderFault { fault, item: None }),
    }
}

/// Copies what was committed into the database file, and closes it.
pub(crate) fn close_keep<D: Disk + Drop>(keep: SqlKeep<FileStore<D>>) -> Result<(), Fault>
    ensures saved { OnOk result ((files : _) × IsSaved keep.conn files) }
    ensures unsaved { OnErr result (IsUnsaved keep.conn) }
    ensures fault { IfErr result (λ fault. fault ≡ Store) }
{
    close_conn(keep.close())
}

fn close_conn<D: Disk + Drop>(conn: Connection<FileStore<D>>) -> Result<(), Fault>
    ensures saved { OnOk result ((files : _) × IsSaved conn files) }
    ensures unsaved { OnErr result (IsUnsaved conn) }
    ensures fault { IfErr result (λ fault. fault ≡ Store) }
{
    match conn.close_files() {
        Ok(files) => {
            drop(files);
            Ok(())
        }
        Err((_, store)) => {
            drop(store.close());
            Err(Fault::Store)
        }
    }
}
