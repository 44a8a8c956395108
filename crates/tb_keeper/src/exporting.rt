//! The export of a board from its rows, which never holds the board as a whole.

ghost use Rattle.std.specs.Prelude.{◌≡◌, ◌++◌, ◌∷◌, [], IfErr, IfOk, IsErrOf, OnErr, OnOk, Err, false, flat_map, is_some, length, string_bytes, true};
ghost use Rattle.std.specs.Io.KnownBytes.{Appends};
ghost use Rattle.sqlite.specs.Held.{state};
ghost use Rattle.tb_board.specs.World.{find_board};
ghost use Rattle.tb_calls.specs.Call.{State};
ghost use Rattle.tb_calls.specs.Keep.{IsStill};
ghost use Rattle.tb_json.specs.ListText.{line_end, piece};
ghost use Rattle.tb_json.specs.Writing.{shown_text};
ghost use Rattle.tb_sql.specs.Opening.{IsAsBefore};
ghost use Rattle.tb_lookup.specs.Reopening.{OfState};
ghost use Rattle.tb_lookup.specs.Stored.{MayLeave};
ghost use Rattle.tb_values.specs.Appends.{AppendsFront};
ghost use Rattle.tb_keeper.specs.declared.export_fault.ExportFault.TheVariants.{NoBoard, WriteFailed};
ghost use Rattle.tb_keeper.specs.Exporting.{AppendsBut, IsCut, IsExported, fault_of, is_store, tasks_on, text_on};
ghost use Rattle.tb_keeper.specs.Holds.{Holds};
ghost use Rattle.tb_keeper.specs.Noting.{AreNotes, IsNotedBy, note_by, shown_row};

use crate::auditing::instance_rows;
use crate::export_fault::ExportFault;
use crate::lending::{StoredRow, find_row};
use crate::noting::{Note, note_row, shown_row};
use crate::sql_keep::SqlKeep;
use sqlite::{Alter, Connection};
use std::alloc::{AllocError, Global};
use std::io::Write;
use tb_json::write_task;
use tb_lookup::by_key::board_row_at;
use tb_sql::store::StoreFault;
use tb_sql_tables::rows::InstanceRow;
use tb_task::Moment;
use tb_values::{Items, write_whole};

/// Text of so many bytes is written.
const LONG: usize = 65_536;

impl<S: Alter> SqlKeep<S> {
    /// Writes all tasks of a board as JSON, as they are at a moment. Returns how many there are.
    pub fn export<W: Write>(
        &mut self,
        alloc: Global,
        board: u32,
        at: Moment,
        writer: &mut W,
    ) -> Result<u64, ExportFault>
        ensures told { (state S.Store self.new.conn).is_clean ≡ true → (s : State)
            → Holds self.old.failed self.old.people self.old.boards self.old.cache.entries
            (state S.Store self.old.conn) s
            → IfOk result (λ count. IsExported (find_board s.world board) at count
            (W.contents writer.old) (W.contents writer.new)) }
        ensures front { (state S.Store self.new.conn).is_clean ≡ true → (s : State)
            → Holds self.old.failed self.old.people self.old.boards self.old.cache.entries
            (state S.Store self.old.conn) s
            → IfErr result (λ fault. IsCut (find_board s.world board) at fault
            (W.contents writer.old) (W.contents writer.new)) }
        ensures unwritten { result ≡ Err NoBoard
            → W.contents writer.new ≡ W.contents writer.old }
        ensures same { IsStill
            (λ s. Holds self.old.failed self.old.people self.old.boards self.old.cache.entries
            (state S.Store self.old.conn) s)
            (λ t. MayLeave (state S.Store self.old.conn) t)
            (λ s. Holds self.new.failed self.new.people self.new.boards self.new.cache.entries
            (state S.Store self.new.conn) s)
            (λ t. MayLeave (state S.Store self.new.conn) t) }
        ensures failed { self.new.failed ≡ is_store result }
        ensures honest { (state S.Store self.new.conn).is_clean ≡ true
            → (state S.Store self.old.conn).is_clean ≡ true }
        ensures closed { self.old.failed ≡ true → IsErrOf result ExportFault.Store }
    {
        if self.failed {
            return Err(ExportFault::Store);
        }
        match export_board(alloc, &mut self.conn, board, at, writer) {
            Ok(count) => Ok(count as u64),
            Err(ExportFault::Store) => {
                self.failed = true;
                Err(ExportFault::Store)
            }
            Err(ExportFault::NoBoard) => Err(ExportFault::NoBoard),
            Err(ExportFault::WriteFailed) => Err(ExportFault::WriteFailed),
            Err(ExportFault::Memory) => Err(ExportFault::Memory),
        }
    }
}

fn export_board<S: Alter, W: Write>(
    alloc: Global,
    conn: &mut Connection<S>,
    board: u32,
    at: Moment,
    writer: &mut W,
) -> Result<u32, ExportFault>
    ensures idle { conn.old.in_transaction ≡ false → conn.new.in_transaction ≡ false }
    ensures told { IfOk result (λ count. OfState (state S.Store conn.old) (state S.Store conn.new)
        (λ s. IsExported (find_board s.world board) at count
        (W.contents writer.old) (W.contents writer.new))) }
    ensures front { IfErr result (λ fault. OfState (state S.Store conn.old) (state S.Store conn.new)
        (λ s. IsCut (find_board s.world board) at fault
        (W.contents writer.old) (W.contents writer.new))) }
    ensures unwritten { result ≡ Err NoBoard
        → W.contents writer.new ≡ W.contents writer.old }
    ensures same { IsAsBefore (state S.Store conn.old) (state S.Store conn.new) }
{
    if !conn.is_autocommit() {
        return Err(ExportFault::Store); // Never: each call ends its transaction.
    }
    let there = match has_board(conn, board) {
        Ok(there) => there,
        Err(fault) => return Err(fault_of(fault)),
    };
    if !there {
        return Err(ExportFault::NoBoard);
    }
    write_board(alloc, conn, board, at, writer)
}

fn fault_of(fault: StoreFault) -> ExportFault
    ensures { result ≡ fault_of fault }
{
    match fault {
        StoreFault::Memory => ExportFault::Memory,
        StoreFault::Store => ExportFault::Store,
    }
}

/// Writes a board that is there.
fn write_board<S: Alter, W: Write>(
    alloc: Global,
    conn: &mut Connection<S>,
    board: u32,
    at: Moment,
    writer: &mut W,
) -> Result<u32, ExportFault>
    requires { conn.old.in_transaction ≡ false }
    ensures idle { conn.new.in_transaction ≡ false }
    ensures told { IfOk result (λ count. OfState (state S.Store conn.old) (state S.Store conn.new)
        (λ s. (count ≡ length (tasks_on (find_board s.world board)))
        × Appends (W.contents writer.old) (W.contents writer.new)
        (text_on (find_board s.world board) at))) }
    ensures front { OnErr result (OfState (state S.Store conn.old) (state S.Store conn.new)
        (λ s. AppendsFront (W.contents writer.old) (W.contents writer.new)
        (text_on (find_board s.world board) at))) }
    ensures fault { result ≡ Err NoBoard → ⊥ }
    ensures same { IsAsBefore (state S.Store conn.old) (state S.Store conn.new) }
{
    match noted_rows(alloc, conn, board, at) {
        Ok(notes) => write_rows(alloc, conn, board, notes.as_slice(), at, writer),
        Err(fault) => Err(fault),
    }
}

fn has_board<S: Alter>(conn: &mut Connection<S>, board: u32) -> Result<bool, StoreFault>
    requires { conn.old.in_transaction ≡ false }
    ensures idle { conn.new.in_transaction ≡ false }
    ensures found { IfOk result (λ there. OfState (state S.Store conn.old) (state S.Store conn.new)
        (λ s. there ≡ is_some (find_board s.world board))) }
    ensures same { IsAsBefore (state S.Store conn.old) (state S.Store conn.new) }
{
    let found = board_row_at(conn, board)?;
    Ok(found.is_some())
}

/// Notes the places of a board's instances whose wait is over.
fn noted_rows<S: Alter>(
    alloc: Global,
    conn: &mut Connection<S>,
    board: u32,
    at: Moment,
) -> Result<Items<Note>, ExportFault>
    requires { conn.old.in_transaction ≡ false }
    ensures idle { conn.new.in_transaction ≡ false }
    ensures found { IfOk result (λ notes. OfState (state S.Store conn.old) (state S.Store conn.new)
        (λ s. AreNotes at (tasks_on (find_board s.world board)) notes)) }
    ensures fault { result ≡ Err NoBoard → ⊥ }
    ensures same { IsAsBefore (state S.Store conn.old) (state S.Store conn.new) }
{
    let instances = instance_rows(conn, board)?;
    note_instances(alloc, conn, board, instances.as_slice(), at)
}

/// The same, of these instances. A place without a task isn't noted.
fn note_instances<S: Alter>(
    alloc: Global,
    conn: &mut Connection<S>,
    board: u32,
    instances: &[InstanceRow],
    at: Moment,
) -> Result<Items<Note>, ExportFault>
    requires { conn.old.in_transaction ≡ false }
    ensures idle { conn.new.in_transaction ≡ false }
    ensures found { IfOk result (λ notes. OfState (state S.Store conn.old) (state S.Store conn.new)
        (λ s. notes ≡ flat_map (note_by at (find_board s.world board)) instances.now)) }
    ensures fault { result ≡ Err NoBoard → ⊥ }
    ensures same { IsAsBefore (state S.Store conn.old) (state S.Store conn.new) }
{
    let mut notes = Items::new(alloc);
    for instance in instances {
        note_instance(alloc, conn, board, instance, at, &mut notes)?;
    }
    Ok(notes)
}

/// Notes the place of an instance, if its wait is over.
fn note_instance<S: Alter>(
    alloc: Global,
    conn: &mut Connection<S>,
    board: u32,
    instance: &InstanceRow,
    at: Moment,
    notes: &mut Items<Note>,
) -> Result<(), ExportFault>
    requires { conn.old.in_transaction ≡ false }
    ensures idle { conn.new.in_transaction ≡ false }
    ensures noted { OnOk result (OfState (state S.Store conn.old) (state S.Store conn.new)
        (λ s. IsNotedBy at (find_board s.world board) instance.now notes.old notes.new)) }
    ensures fault { result ≡ Err NoBoard → ⊥ }
    ensures same { IsAsBefore (state S.Store conn.old) (state S.Store conn.new) }
{
    let row = find_row(alloc, conn, board, instance.place.saturating_sub(1))?;
    note_row(notes, &row, at)?;
    Ok(())
}

/// Writes the rows of a board by these notes. Returns how many there are.
fn write_rows<S: Alter, W: Write>(
    alloc: Global,
    conn: &mut Connection<S>,
    board: u32,
    notes: &[Note],
    at: Moment,
    writer: &mut W,
) -> Result<u32, ExportFault>
    requires { conn.old.in_transaction ≡ false }
    ensures idle { conn.new.in_transaction ≡ false }
    ensures told { IfOk result (λ count. OfState (state S.Store conn.old) (state S.Store conn.new)
        (λ s. AreNotes at (tasks_on (find_board s.world board)) notes.now
        → (count ≡ length (tasks_on (find_board s.world board)))
        × Appends (W.contents writer.old) (W.contents writer.new)
        (text_on (find_board s.world board) at))) }
    ensures front { OnErr result (OfState (state S.Store conn.old) (state S.Store conn.new)
        (λ s. AreNotes at (tasks_on (find_board s.world board)) notes.now
        → AppendsFront (W.contents writer.old) (W.contents writer.new)
        (text_on (find_board s.world board) at))) }
    ensures fault { result ≡ Err NoBoard → ⊥ }
    ensures same { IsAsBefore (state S.Store conn.old) (state S.Store conn.new) }
{
    let mut pending = String::from_str(alloc, "[\n")?;
    let mut is_first = true;
    for behind in 0..u32::MAX {
        let Some(row) = find_row(alloc, conn, board, behind)? else {
            push_end(&mut pending, is_first)?;
            write_text(writer, pending.as_str())?;
            return Ok(behind);
        };
        push_row(alloc, &mut pending, row, notes, at, is_first)?;
        write_long(writer, &mut pending)?;
        is_first = false;
    }
    Err(ExportFault::Store)
}

/// Puts a row at the end of what is pending, and before it what ends the row before.
fn push_row(
    alloc: Global,
    pending: &mut String,
    row: StoredRow,
    notes: &[Note],
    at: Moment,
    is_first: bool,
) -> Result<(), ExportFault>
    ensures put { OnOk result (string_bytes pending.new
        ≡ string_bytes pending.old ++ piece is_first (shown_text (shown_row notes.now at row))) }
    ensures fault { result ≡ Err NoBoard → ⊥ }
{
    let shown = shown_row(alloc, row, notes, at)?;
    let text = write_task(alloc, &shown)?;
    push_piece(pending, is_first, text.as_str())?;
    Ok(())
}

fn push_piece(pending: &mut String, is_first: bool, text: &str) -> Result<(), AllocError>
    ensures { OnOk result
        (string_bytes pending.new ≡ string_bytes pending.old ++ piece is_first text.now) }
{
    if !is_first {
        pending.push_str(",\n")?;
    }
    pending.push_str(text)
}

/// Puts the end of the list at the end of what is pending.
fn push_end(pending: &mut String, is_first: bool) -> Result<(), AllocError>
    ensures { OnOk result (string_bytes pending.new
        ≡ string_bytes pending.old ++ (line_end is_first [] ++ 93 ∷ 10 ∷ [])) }
{
    if is_first {
        pending.push_str("]\n")
    } else {
        pending.push_str("\n]\n")
    }
}

/// Writes what is pending, once it is long.
fn write_long<W: Write>(writer: &mut W, pending: &mut String) -> Result<(), ExportFault>
    ensures told { OnOk result (AppendsBut (W.contents writer.old) (W.contents writer.new)
        (string_bytes pending.old) (string_bytes pending.new)) }
    ensures front { OnErr result (AppendsFront (W.contents writer.old) (W.contents writer.new)
        (string_bytes pending.old)) }
    ensures fault { IfErr result (λ fault. fault ≡ WriteFailed) }
{
    if pending.len() < LONG {
        return Ok(());
    }
    write_text(writer, pending.as_str())?;
    pending.clear();
    Ok(())
}

fn write_text<W: Write>(writer: &mut W, text: &str) -> Result<(), ExportFault>
    ensures told { OnOk result
        (Appends (W.contents writer.old) (W.contents writer.new) text.now) }
    ensures front { OnErr result
        (AppendsFront (W.contents writer.old) (W.contents writer.new) text.now) }
    ensures fault { IfErr result (λ fault. fault ≡ WriteFailed) }
{
    match write_whole(writer, text.as_bytes()) {
        Ok(()) => Ok(()),
        Err(_) => Err(ExportFault::WriteFailed),
    }
}
