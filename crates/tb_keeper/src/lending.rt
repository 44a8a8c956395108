//! The rows of a board's tasks, lent one at a time.

ghost use Rattle.std.specs.Prelude.{◌≡◌, ◌+◌, ◌≤◌, Err, IfErr, IfOk, IsErrOf, None, Ok, OnOk, Some, false, filter, true, ◌<◌, ◌^◌};
ghost use Rattle.sqlite.specs.Held.{state};
ghost use Rattle.sqlite.specs.State.{HasCleanDisk};
ghost use Rattle.tb_calls.specs.Call.{State};
ghost use Rattle.tb_calls.specs.Keep.{IsStill, is_store};
ghost use Rattle.tb_calls.specs.declared.fault.KeepFault.{KeepFault as Fault};
ghost use Rattle.tb_json.specs.Stored.{stored_of};
ghost use Rattle.tb_task.specs.declared.task.Task.{Task as Stored};
ghost use Rattle.tb_sql.specs.Changes.{is_task};
ghost use Rattle.tb_sql.specs.Opening.{IsAsBefore};
ghost use Rattle.tb_sql_tables.specs.Found.{IsOneOf};
ghost use Rattle.tb_lookup.specs.Reopening.{OfContent, OfState, FailsOfState};
ghost use Rattle.tb_lookup.specs.Stored.{MayLeave};
ghost use Rattle.tb_sql_tables.specs.Content.{IsContent};
ghost use Rattle.tb_sql_tables.specs.Failing.{FailsByFault, KeepsFaults};
ghost use Rattle.tb_keeper.specs.Failing.{FailsOf};
ghost use Rattle.tb_keeper.specs.Holds.{Holds};
ghost use Rattle.tb_keeper.specs.Lending.{passed, stored_row};

use crate::sql_keep::SqlKeep;
use sqlite::{Alter, Connection};
use std::alloc::Global;
use tb_calls::KeepFault;
use tb_json::{JsonFault, read_stored};
use tb_sql::store::StoreFault;
use tb_sql::tasks::find_task;
use tb_sql_tables::rows::TaskRow;
use tb_task::{Task, ids_are_read};
use tb_values::Text;

/// A task as it is stored, with its place, counted from 1, and its mask if it is a template.
#[derive(Drop)]
pub struct StoredRow {
    pub place: u32,
    pub task: Task,
    pub mask: Option<Text>,
}

/// Lends the rows of a board, in order of place. It may be dropped at any row.
pub struct Lent<'a, S: Alter> {
    keep: &'a mut SqlKeep<S>,
    board: u32,
    /// How many rows are behind.
    behind: u32,
    /// The fault that it tells from now on.
    fault: Option<KeepFault>,
}

impl<S: Alter> SqlKeep<S> {
    ghost use Rattle.std.specs.Borrow.{sem, RestsIfErr};
    ghost use Rattle.tb_keeper.specs.contracts.sql_keep.SqlKeep.{the_row};

    /// Begins to lend the rows of a board. A board that isn't there has none.
    pub fn rows<'a>(&'a mut self, board: u32) -> Result<Lent<'a, S>, KeepFault>
        ensures same_reference { IfOk result (λ lent. lent.keep.ghost_name ≡ self.entry.ghost_name) }
        ensures* refused { sem 𝓛 (RestsIfErr (the_row S.row S.Store) self.entry
            (λ lent. lent.keep.ghost_name) result (λ last. last ≡ self.old)) }
        ensures begun { IfOk result (λ lent. (lent.keep.now ≡ self.old) × (lent.board ≡ board)
            × (lent.behind ≡ 0) × (lent.fault ≡ None)) }
        ensures fault { IfErr result (λ fault. fault ≡ KeepFault.Store) }
        ensures closed { self.old.failed ≡ true → IsErrOf result KeepFault.Store }
    {
        if self.failed {
            return Err(KeepFault::Store);
        }
        Ok(Lent {
            keep: self,
            board,
            behind: 0,
            fault: None,
        })
    }

    /// The row of a board behind so many others.
    fn row_behind(
        &mut self,
        alloc: Global,
        board: u32,
        behind: u32,
    ) -> Result<Option<StoredRow>, KeepFault>
        ensures found { HasCleanDisk (state S.Store self.new.conn) → (s : State)
            → Holds self.old.failed self.old.people self.old.boards self.old.cache.entries
            (state S.Store self.old.conn) s
            → IfOk result (λ row. row ≡ stored_row s.world board behind) }
        ensures excused { IsErrOf result KeepFault.Store → self.old.failed ≡ false
            → behind + 1 < 2 ^ 32 → FailsOf (state S.Store self.old.conn)
            (state S.Store self.new.conn)
            (λ s. Holds self.old.failed self.old.people self.old.boards self.old.cache.entries
            (state S.Store self.old.conn) s) }
        ensures same { IsStill
            (λ s. Holds self.old.failed self.old.people self.old.boards self.old.cache.entries
            (state S.Store self.old.conn) s)
            (λ t. MayLeave (state S.Store self.old.conn) t)
            (λ s. Holds self.new.failed self.new.people self.new.boards self.new.cache.entries
            (state S.Store self.new.conn) s)
            (λ t. MayLeave (state S.Store self.new.conn) t) }
        ensures failed { self.new.failed ≡ is_store result }
        ensures clean { HasCleanDisk (state S.Store self.new.conn)
            → HasCleanDisk (state S.Store self.old.conn) }
        ensures placed { IfOk result (λ row. behind + 1 ≤ 4294967295) }
        ensures closed { self.old.failed ≡ true → IsErrOf result KeepFault.Store }
    {
        if self.failed {
            return Err(KeepFault::Store);
        }
        let end = find_row(alloc, &mut self.conn, board, behind);
        self.settle(end)
    }
}

impl<S: Alter> Lent<'_, S> {
    /// Lends the next row, and none behind the last. After a fault it tells the same fault again. Store counts for the keeper, which
    /// stays usable after Memory.
    pub fn next(&mut self, alloc: Global) -> Result<Option<StoredRow>, KeepFault>
        ensures same_reference { self.new.keep.ghost_name ≡ self.old.keep.ghost_name }
        ensures board { self.new.board ≡ self.old.board }
        ensures found { HasCleanDisk (state S.Store self.new.keep.now.conn) → (s : State)
            → Holds self.old.keep.now.failed self.old.keep.now.people
            self.old.keep.now.boards self.old.keep.now.cache.entries
            (state S.Store self.old.keep.now.conn) s
            → IfOk result (λ row. row ≡ stored_row s.world self.old.board self.old.behind) }
        ensures excused { IsErrOf result KeepFault.Store → self.old.fault ≡ None
            → self.old.keep.now.failed ≡ false → self.old.behind + 1 < 2 ^ 32
            → FailsOf (state S.Store self.old.keep.now.conn)
            (state S.Store self.new.keep.now.conn)
            (λ s. Holds self.old.keep.now.failed self.old.keep.now.people
            self.old.keep.now.boards self.old.keep.now.cache.entries
            (state S.Store self.old.keep.now.conn) s) }
        ensures moved { IfOk result (λ row. self.new.behind ≡ passed row self.old.behind) }
        ensures again { (f : Fault) → self.old.fault ≡ Some f
            → (result ≡ Err f) × (self.new.keep.now ≡ self.old.keep.now) }
        ensures noted { IfErr result (λ f. self.new.fault ≡ Some f) }
        ensures fine { OnOk result (self.new.fault ≡ None) }
        ensures failed { self.old.fault ≡ None → self.new.keep.now.failed ≡ is_store result }
        ensures clean { HasCleanDisk (state S.Store self.new.keep.now.conn)
            → HasCleanDisk (state S.Store self.old.keep.now.conn) }
        ensures same { IsStill
            (λ s. Holds self.old.keep.now.failed self.old.keep.now.people
            self.old.keep.now.boards self.old.keep.now.cache.entries
            (state S.Store self.old.keep.now.conn) s)
            (λ t. MayLeave (state S.Store self.old.keep.now.conn) t)
            (λ s. Holds self.new.keep.now.failed self.new.keep.now.people
            self.new.keep.now.boards self.new.keep.now.cache.entries
            (state S.Store self.new.keep.now.conn) s)
            (λ t. MayLeave (state S.Store self.new.keep.now.conn) t) }
    {
        if let Some(fault) = self.fault {
            return Err(fault);
        }
        match self.keep.row_behind(alloc, self.board, self.behind) {
            Ok(Some(row)) => {
                self.behind += 1;
                Ok(Some(row))
            }
            Ok(None) => Ok(None),
            Err(fault) => {
                self.fault = Some(fault);
                Err(fault)
            }
        }
    }
}

impl<S: Alter> Drop for Lent<'_, S> {
    fn drop(self)
        ensures { self.exit.0.now ≡ self.entry.keep.now }
    {
        let Lent {
            keep: _,
            board: _,
            behind: _,
            fault: _,
        } = self;
    }
}

/// The row of a board behind so many others.
pub(crate) fn find_row<S: Alter>(
    alloc: Global,
    conn: &mut Connection<S>,
    board: u32,
    behind: u32,
) -> Result<Option<StoredRow>, StoreFault>
    ensures idle { conn.old.in_transaction ≡ false → conn.new.in_transaction ≡ false }
    ensures found { IfOk result (λ row. OfState (state S.Store conn.old) (state S.Store conn.new)
        (λ s. row ≡ stored_row s.world board behind)) }
    ensures excused { result ≡ Err StoreFault.Store → behind + 1 < 2 ^ 32
        → FailsOfState (state S.Store conn.old) (state S.Store conn.new) }
    ensures faults { KeepsFaults (state S.Store conn.old) (state S.Store conn.new) }
    ensures placed { IfOk result (λ row. behind + 1 ≤ 4294967295) }
    ensures same { IsAsBefore (state S.Store conn.old) (state S.Store conn.new) }
{
    ids_are_read();
    if !conn.is_autocommit() {
        return Err(StoreFault::Store); // Never: each call ends its transaction.
    }
    let Some(place) = behind.checked_add(1) else {
        return Err(StoreFault::Store); // Never: no board has so many tasks.
    };
    let Some(row) = task_row_at(conn, board, place)? else {
        return Ok(None);
    };
    let task = read_task(alloc, &row)?;
    Ok(Some(row_with(place, task, row)))
}

/// The task of a row. Texts that no task has, and a text of another task, are a failure of the store.
fn read_task(alloc: Global, row: &TaskRow) -> Result<Task, StoreFault>
    ensures read { IfOk result (λ task. stored_of row.now.body ≡ Ok task) }
    ensures refused { result ≡ Err StoreFault.Store → (task : Stored)
        → stored_of row.now.body ≡ Ok task → task.id ≡ row.now.uuid → ⊥ }
{
    let task = match read_stored(alloc, row.body.as_str()) {
        Ok(task) => task,
        Err(JsonFault::NotObject) => return Err(StoreFault::Store),
        Err(JsonFault::BadField(_)) => return Err(StoreFault::Store),
        Err(JsonFault::Memory) => return Err(StoreFault::Memory),
    };
    if task.id != row.uuid {
        return Err(StoreFault::Store);
    }
    Ok(task)
}

fn row_with(place: u32, task: Task, row: TaskRow) -> StoredRow
    ensures { result ≡ record { place = place; task = task; mask = row.mask } }
{
    let TaskRow { mask, .. } = row;
    StoredRow { place, task, mask }
}

/// The task at a place of a board.
fn task_row_at<S: Alter>(
    conn: &mut Connection<S>,
    board: u32,
    place: u32,
) -> Result<Option<TaskRow>, StoreFault>
    requires { conn.old.in_transaction ≡ false }
    ensures idle { conn.new.in_transaction ≡ false }
    ensures found { IfOk result (λ row. OfContent (state S.Store conn.old) (state S.Store conn.new)
        (λ content. IsOneOf (filter (is_task board place) content.tasks) row)) }
    ensures excused { result ≡ Err StoreFault.Store
        → FailsByFault (state S.Store conn.old) (state S.Store conn.new)
        (λ content. IsContent content (state S.Store conn.old).now) }
    ensures faults { KeepsFaults (state S.Store conn.old) (state S.Store conn.new) }
    ensures same { IsAsBefore (state S.Store conn.old) (state S.Store conn.new) }
{
    let mut tx = conn.transaction();
    let found = find_task(&mut tx, board, place);
    drop(tx);
    match found {
        Ok(row) => Ok(row),
        Err(error) => Err(StoreFault::before_commit(&error)),
    }
}
