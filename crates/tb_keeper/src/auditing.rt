//! The audit of a store.

ghost use Rattle.std.specs.Prelude.{◌≡◌, ◌≤◌, ◌+◌, ◌⊎◌, List, ◌↔◌, ◌==◌, None, Some, Ok, IsTrue, true, false, filter, if◌then◌else◌, IfOk, IsErrOf, length};
ghost use Rattle.sqlite.specs.Held.{state};
ghost use Rattle.sqlite.specs.State.{HasCleanDisk};
ghost use Rattle.tb_rows.specs.AsStored.{AreAsStored};
ghost use Rattle.tb_board.specs.declared.board.Board.{Board};
ghost use Rattle.tb_board.specs.declared.world.World.{World};
ghost use Rattle.tb_core.specs.GoodWorld.{IsGoodWorld};
ghost use Rattle.tb_calls.specs.Call.{State};
ghost use Rattle.tb_calls.specs.Keep.{IsStill, is_store};
ghost use Rattle.tb_rows.specs.Forms.{HasForm};
ghost use Rattle.tb_rows.specs.Reading.{board_of};
ghost use Rattle.tb_rows.specs.Rows.{horizon_row};
ghost use Rattle.tb_sql.specs.Changes.{is_horizon, IsInstanceBefore, IsLinkBefore};
ghost use Rattle.tb_sql.specs.Opening.{IsAsBefore};
ghost use Rattle.tb_sql_tables.specs.Content.{Content, Stands};
ghost use Rattle.tb_sql_tables.specs.Found.{AreFound, IsOneOf};
ghost use Rattle.tb_keeper.specs.Auditing.{is_instance_on, is_link_on, known_horizon, sound, CountsBoards, CountsRows, HasBoardsOf, IsCheckBy, IsCheckOf, IsCheckOfRow, IsCheckWith, IsCountOf, IsRowCheck, IsTablesCheck, StandFor, StandsFor, Tells};
ghost use Rattle.tb_keeper.specs.Holds.{Holds};
ghost use Rattle.tb_lookup.specs.Reopening.{OfContent};
ghost use Rattle.tb_lookup.specs.Stored.{IsStored, MayLeave};
ghost use Rattle.tb_task.specs.Limits.{most_boards, most_tasks};

use crate::sound_histories::is_sound_history;
use crate::sound_rows::{are_numbered, hold_board, hold_people, hold_roles};
use crate::sql_keep::SqlKeep;
use sqlite::{Alter, Connection};
use std::alloc::Global;
use tb_calls::KeepFault;
use tb_lookup::by_key::horizon_row_at;
use tb_lookup::faults::fault_of;
use tb_lookup::reading::{board_rows, gone_rows, task_rows};
use tb_rows::{is_as_stored, read_board};
use tb_sql::instances::select_instances;
use tb_sql::links::select_links;
use tb_sql::store::StoreFault;
use tb_sql_tables::rows::{BoardRow, GoneRow, HorizonRow, InstanceRow, LinkRow, TaskRow};
use tb_task::{MOST_BOARDS, ids_are_read};
use tb_values::Items;

/// How many boards and tasks are stored, and how many of the boards have a least free number, a mask, a link or an instance that isn't
/// theirs, lack the row of how far ahead they look, or have a history that isn't sound.
#[derive(Clone, Copy, Debug, PartialEq, Eq)]
pub struct Audit {
    pub boards: u64,
    pub tasks: u64,
    pub faults: u64,
}

/// What is found of one board.
#[derive(Clone, Copy)]
struct Checked {
    tasks: u64,
    as_stored: bool,
}

impl<S: Alter> SqlKeep<S> {
    /// Looks at all that is stored. It changes nothing. What no state has is Store: a person, a role or a reply that can't be read or names
    /// nobody, people or boards that aren't numbered from 1, a board without an owner, one that looks further ahead than a board can, and
    /// one that isn't good by itself.
    pub fn audit(&mut self, alloc: Global) -> Result<Audit, KeepFault>
        ensures sound { IfOk result (λ audit. HasCleanDisk (state S.Store self.new.conn)
            → (s : State) → IsStored s (state S.Store self.old.conn) → audit ≡ sound s.world) }
        ensures counted { IfOk result (λ audit. HasCleanDisk (state S.Store self.new.conn)
            → (c : Content) → Stands c (state S.Store self.old.conn)
            → (w : World) → IsGoodWorld w → HasForm w → HasBoardsOf w c → Tells c w.boards audit) }
        ensures whole { IfOk result
            (λ audit. OfContent (state S.Store self.old.conn) (state S.Store self.new.conn)
            (λ c. IsCountOf c audit)) }
        ensures unchanged { IsAsBefore (state S.Store self.old.conn) (state S.Store self.new.conn) }
        ensures same { IsStill
            (λ s. Holds self.old.failed self.old.people self.old.boards self.old.cache.entries
            (state S.Store self.old.conn) s)
            (λ t. MayLeave (state S.Store self.old.conn) t)
            (λ s. Holds self.new.failed self.new.people self.new.boards self.new.cache.entries
            (state S.Store self.new.conn) s)
            (λ t. MayLeave (state S.Store self.new.conn) t) }
        ensures failed { self.new.failed ≡ is_store result }
        ensures closed { self.old.failed ≡ true → IsErrOf result KeepFault.Store }
    {
        if self.failed {
            return Err(KeepFault::Store);
        }
        match audit_store(alloc, &mut self.conn) {
            Ok(audit) => Ok(audit),
            Err(StoreFault::Memory) => Err(KeepFault::Memory),
            Err(StoreFault::Store) => {
                self.failed = true;
                Err(KeepFault::Store)
            }
        }
    }
}

/// The links of a board, in order of place and target.
fn link_rows<S: Alter>(conn: &mut Connection<S>, board: u32) -> Result<Items<LinkRow>, StoreFault>
    requires { conn.old.in_transaction ≡ false }
    ensures idle { conn.new.in_transaction ≡ false }
    ensures found { IfOk result (λ rows. HasCleanDisk (state S.Store conn.new) → (content : Content)
        → Stands content (state S.Store conn.old)
        → AreFound IsLinkBefore (filter (λ row. row.board == board) content.links) rows) }
    ensures same { IsAsBefore (state S.Store conn.old) (state S.Store conn.new) }
{
    let mut tx = conn.transaction();
    let found = select_links(&mut tx, board);
    drop(tx);
    match found {
        Ok(rows) => Ok(rows),
        Err(error) => Err(StoreFault::before_commit(&error)),
    }
}

/// The instances on a board, in order of template and number.
pub(crate) fn instance_rows<S: Alter>(
    conn: &mut Connection<S>,
    board: u32,
) -> Result<Items<InstanceRow>, StoreFault>
    requires { conn.old.in_transaction ≡ false }
    ensures idle { conn.new.in_transaction ≡ false }
    ensures found { IfOk result (λ rows. HasCleanDisk (state S.Store conn.new) → (content : Content)
        → Stands content (state S.Store conn.old)
        → AreFound IsInstanceBefore (filter (λ row. row.board == board) content.instances) rows) }
    ensures same { IsAsBefore (state S.Store conn.old) (state S.Store conn.new) }
{
    let mut tx = conn.transaction();
    let found = select_instances(&mut tx, board);
    drop(tx);
    match found {
        Ok(rows) => Ok(rows),
        Err(error) => Err(StoreFault::before_commit(&error)),
    }
}

/// Looks at people and replies, and then at each board.
fn audit_store<S: Alter>(alloc: Global, conn: &mut Connection<S>) -> Result<Audit, StoreFault>
    ensures idle { conn.old.in_transaction ≡ false → conn.new.in_transaction ≡ false }
    ensures counted { IfOk result
        (λ audit. OfContent (state S.Store conn.old) (state S.Store conn.new)
        (λ c. (w : World) → IsGoodWorld w → HasForm w → HasBoardsOf w c → Tells c w.boards audit)) }
    ensures whole { IfOk result
        (λ audit. OfContent (state S.Store conn.old) (state S.Store conn.new)
        (λ c. IsCountOf c audit)) }
    ensures same { IsAsBefore (state S.Store conn.old) (state S.Store conn.new) }
{
    if !conn.is_autocommit() {
        return Err(StoreFault::Store); // Never: each call ends its transaction.
    }
    let people = hold_people(alloc, conn)?;
    audit_boards(alloc, conn, people)
}

/// Counts the boards. Roles on them are those of so many people.
fn audit_boards<S: Alter>(
    alloc: Global,
    conn: &mut Connection<S>,
    people: usize,
) -> Result<Audit, StoreFault>
    requires { conn.old.in_transaction ≡ false }
    ensures idle { conn.new.in_transaction ≡ false }
    ensures counted { IfOk result
        (λ audit. OfContent (state S.Store conn.old) (state S.Store conn.new)
        (λ c. (w : World) → IsGoodWorld w → HasForm w → HasBoardsOf w c → Tells c w.boards audit)) }
    ensures whole { IfOk result
        (λ audit. OfContent (state S.Store conn.old) (state S.Store conn.new)
        (λ c. CountsBoards c people audit)) }
    ensures same { IsAsBefore (state S.Store conn.old) (state S.Store conn.new) }
{
    ids_are_read();
    let rows = board_rows(conn)?;
    if rows.len() > MOST_BOARDS {
        return Err(StoreFault::Store);
    }
    if !are_numbered(rows.as_slice()) {
        return Err(StoreFault::Store);
    }
    audit_rows(alloc, conn, people, rows.as_slice())
}

/// Counts the boards of these rows.
fn audit_rows<S: Alter>(
    alloc: Global,
    conn: &mut Connection<S>,
    people: usize,
    rows: &[BoardRow],
) -> Result<Audit, StoreFault>
    requires idle { conn.old.in_transaction ≡ false }
    requires few { length rows.now ≤ most_boards }
    ensures idle { conn.new.in_transaction ≡ false }
    ensures counted { IfOk result
        (λ audit. OfContent (state S.Store conn.old) (state S.Store conn.new)
        (λ c. (bs : List Board) → StandFor c rows.now bs → Tells c bs audit)) }
    ensures whole { IfOk result
        (λ audit. OfContent (state S.Store conn.old) (state S.Store conn.new)
        (λ c. CountsRows c people rows.now audit)) }
    ensures same { IsAsBefore (state S.Store conn.old) (state S.Store conn.new) }
{
    let mut audit = Audit {
        boards: 0,
        tasks: 0,
        faults: 0,
    };
    for row in rows {
        let checked = check_row(alloc, conn, people, row)?;
        audit = with_board(audit, checked);
    }
    Ok(audit)
}

/// The counts with one board more.
fn with_board(audit: Audit, checked: Checked) -> Audit
    requires boards { audit.boards ≤ most_boards }
    requires tasks { audit.tasks ≤ 100000000 }
    requires faults { audit.faults ≤ most_boards }
    requires few { checked.tasks ≤ most_tasks }
    ensures boards { result.boards ≡ audit.boards + 1 }
    ensures tasks { result.tasks ≡ audit.tasks + checked.tasks }
    ensures faults { result.faults
        ≡ (if checked.as_stored then audit.faults else audit.faults + 1) }
{
    let faults = if checked.as_stored {
        audit.faults
    } else {
        audit.faults + 1
    };
    Audit {
        boards: audit.boards + 1,
        tasks: audit.tasks + checked.tasks,
        faults,
    }
}

/// Looks at the roles on the board of a row, and at the board.
fn check_row<S: Alter>(
    alloc: Global,
    conn: &mut Connection<S>,
    people: usize,
    row: &BoardRow,
) -> Result<Checked, StoreFault>
    requires { conn.old.in_transaction ≡ false }
    ensures idle { conn.new.in_transaction ≡ false }
    ensures checked { IfOk result
        (λ checked. OfContent (state S.Store conn.old) (state S.Store conn.new)
        (λ c. (b : Board) → StandsFor c row.now b → IsCheckOf c b checked)) }
    ensures whole { IfOk result
        (λ checked. OfContent (state S.Store conn.old) (state S.Store conn.new)
        (λ c. IsRowCheck c people row.now checked)) }
    ensures few { IfOk result (λ checked. checked.tasks ≤ most_tasks) }
    ensures same { IsAsBefore (state S.Store conn.old) (state S.Store conn.new) }
{
    hold_roles(conn, row.id, people)?;
    let tables = check_board(alloc, conn, row)?;
    check_history(conn, row.id, tables)
}

/// Looks at the history of a board, whose other tables were looked at.
fn check_history<S: Alter>(
    conn: &mut Connection<S>,
    board: u32,
    tables: Checked,
) -> Result<Checked, StoreFault>
    requires { conn.old.in_transaction ≡ false }
    ensures idle { conn.new.in_transaction ≡ false }
    ensures checked { IfOk result
        (λ checked. OfContent (state S.Store conn.old) (state S.Store conn.new)
        (λ c. IsCheckWith c board tables checked)) }
    ensures size { IfOk result (λ checked. checked.tasks ≡ tables.tasks) }
    ensures same { IsAsBefore (state S.Store conn.old) (state S.Store conn.new) }
{
    let sound = is_sound_history(conn, board, tables.tasks as usize)?;
    Ok(Checked {
        tasks: tables.tasks,
        as_stored: tables.as_stored && sound,
    })
}

/// Reads the board of a row, and compares it with its rows.
fn check_board<S: Alter>(
    alloc: Global,
    conn: &mut Connection<S>,
    row: &BoardRow,
) -> Result<Checked, StoreFault>
    requires { conn.old.in_transaction ≡ false }
    ensures idle { conn.new.in_transaction ≡ false }
    ensures checked { IfOk result
        (λ checked. OfContent (state S.Store conn.old) (state S.Store conn.new)
        (λ c. (b : Board) → StandsFor c row.now b → IsTablesCheck c b checked)) }
    ensures whole { IfOk result
        (λ checked. OfContent (state S.Store conn.old) (state S.Store conn.new)
        (λ c. IsCheckOfRow c row.now checked)) }
    ensures few { IfOk result (λ checked. checked.tasks ≤ most_tasks) }
    ensures same { IsAsBefore (state S.Store conn.old) (state S.Store conn.new) }
{
    let horizon = horizon_row_at(conn, row.id)?;
    check_tables(alloc, conn, row, horizon)
}

/// The same, once it is found how far ahead the board looks.
fn check_tables<S: Alter>(
    alloc: Global,
    conn: &mut Connection<S>,
    row: &BoardRow,
    horizon: Option<HorizonRow>,
) -> Result<Checked, StoreFault>
    requires { conn.old.in_transaction ≡ false }
    ensures idle { conn.new.in_transaction ≡ false }
    ensures checked { IfOk result
        (λ checked. OfContent (state S.Store conn.old) (state S.Store conn.new)
        (λ c. (b : Board) → StandsFor c row.now b
        → IsOneOf (filter (is_horizon b.number) c.horizon) horizon → IsTablesCheck c b checked)) }
    ensures whole { IfOk result
        (λ checked. OfContent (state S.Store conn.old) (state S.Store conn.new)
        (λ c. IsOneOf (filter (is_horizon row.now.id) c.horizon) horizon
        → IsCheckOfRow c row.now checked)) }
    ensures few { IfOk result (λ checked. checked.tasks ≤ most_tasks) }
    ensures same { IsAsBefore (state S.Store conn.old) (state S.Store conn.new) }
{
    let tasks = task_rows(conn, row.id)?;
    let gone = gone_rows(conn, row.id)?;
    let links = link_rows(conn, row.id)?;
    let instances = instance_rows(conn, row.id)?;
    compare(
        alloc,
        row,
        horizon,
        tasks.as_slice(),
        gone.as_slice(),
        links.as_slice(),
        instances.as_slice(),
    )
}

/// Reads a board from its rows, and compares it with what else is stored of it. Where it isn't known how far ahead the board looks,
/// it is read as one that looks one ahead.
fn compare(
    alloc: Global,
    row: &BoardRow,
    horizon: Option<HorizonRow>,
    tasks: &[TaskRow],
    gone: &[GoneRow],
    links: &[LinkRow],
    instances: &[InstanceRow],
) -> Result<Checked, StoreFault>
    ensures size { IfOk result
        (λ checked. (b : Board) → board_of row.now (Some (horizon_row b)) tasks.now gone.now ≡ Ok b
        → checked.tasks ≡ length b.tasks) }
    ensures tells { IfOk result
        (λ checked. (b : Board) → board_of row.now (Some (horizon_row b)) tasks.now gone.now ≡ Ok b
        → (horizon ≡ None) ⊎ (horizon ≡ Some (horizon_row b))
        → IsTrue checked.as_stored
        ↔ AreAsStored b row.now horizon tasks.now links.now instances.now) }
    ensures whole { IfOk result
        (λ checked. IsCheckBy row.now horizon tasks.now gone.now links.now instances.now checked) }
    ensures few { IfOk result (λ checked. checked.tasks ≤ most_tasks) }
{
    let known = known_horizon(row.id, horizon);
    let board = match read_board(alloc, row, Some(known), tasks, gone) {
        Ok(board) => board,
        Err(fault) => return Err(fault_of(fault)),
    };
    hold_board(alloc, &board)?;
    match is_as_stored(alloc, &board, row, horizon, tasks, links, instances) {
        Ok(as_stored) => Ok(Checked {
            tasks: board.tasks.len() as u64,
            as_stored,
        }),
        Err(_) => Err(StoreFault::Memory),
    }
}

fn known_horizon(board: u32, horizon: Option<HorizonRow>) -> HorizonRow
    ensures { result ≡ known_horizon board horizon }
{
    match horizon {
        Some(row) => row,
        None => HorizonRow { board, ahead: 1 },
    }
}
