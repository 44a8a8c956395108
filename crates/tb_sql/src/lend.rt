//! The tasks of a board, lent one at a time.

ghost use Rattle.std.specs.Prelude.{◌≡◌, false, List, [], IfOk};
ghost use Rattle.sqlite.specs.Held.{state};
ghost use Rattle.sqlite.specs.State.{HasCleanDisk, Survives};
ghost use Rattle.tb_sql_tables.specs.declared.rows.TaskRow.{TaskRow as Task};
ghost use Rattle.tb_sql_tables.specs.Content.{Content, Stands};
ghost use Rattle.tb_sql.specs.Lend.{HasLent, LendsOn};

use sqlite::{Alter, Connection, Error, Rows, params};
use tb_sql_tables::read::Stored;
use tb_sql_tables::rows::TaskRow;

/// Begins to lend the tasks of a board, in order of place. The rows may be dropped at any task.
pub fn task_rows<'conn, S: Alter>(
    conn: &'conn mut Connection<S>,
    board: u32,
) -> Result<Rows<'conn, S>, Error>
    ensures same_reference { IfOk result (λ rows. rows.conn.ghost_name ≡ conn.entry.ghost_name) }
    ensures begun { IfOk result
        (λ rows. HasCleanDisk (state S.Store rows.conn.now) → (content : Content)
        → Stands content (state S.Store conn.old)
        → HasLent S.Store board content rows.conn.now []) }
    ensures idle { IfOk result
        (λ rows. conn.old.in_transaction ≡ false → rows.conn.now.in_transaction ≡ false) }
{
    conn.query(
        "SELECT board, place, uuid, body, mask FROM task WHERE board = ?1 ORDER BY place",
        params![board],
    )
}

/// Lends the next task.
pub fn next_task<S: Alter>(rows: &mut Rows<'_, S>) -> Result<Option<TaskRow>, Error>
    ensures same_reference { rows.new.conn.ghost_name ≡ rows.old.conn.ghost_name }
    ensures lent { HasCleanDisk (state S.Store rows.new.conn.now)
        → IfOk result (λ next. (board : _) (content : Content) (lent : List Task)
        → HasLent S.Store board content rows.old.conn.now lent
        → LendsOn S.Store board content rows.new.conn.now lent next) }
    ensures idle { rows.old.conn.now.in_transaction ≡ false
        → rows.new.conn.now.in_transaction ≡ false }
    ensures survives { Survives (state S.Store rows.old.conn.now)
        (state S.Store rows.new.conn.now) (λ _. ⊥) }
{
    if let Err(error) = rows.advance() {
        return Err(error);
    }
    let Some(row) = rows.get() else {
        return Ok(None);
    };
    match TaskRow::read(row) {
        Ok(task) => Ok(Some(task)),
        Err(error) => Err(error),
    }
}
