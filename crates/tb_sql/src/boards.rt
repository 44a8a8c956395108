//! The statements on the boards.

ghost use Rattle.std.specs.Prelude.{◌≡◌, IsTrue, IfErr, IfOk, OnOk, filter};
ghost use Rattle.std.specs.List.{list_any};
ghost use Rattle.sqlite.specs.State.{HasCleanDisk, Survives};
ghost use Rattle.tb_sql_tables.specs.Inside.{seen, KeepsInside, KeepsOnErr};
ghost use Rattle.tb_sql_tables.specs.Statements.{Changes, Finds};
ghost use Rattle.tb_sql_tables.specs.Failing.{IsExcused};
ghost use Rattle.tb_sql_tables.specs.Found.{AreFound, IsOneOf};
ghost use Rattle.tb_sql.specs.Changes.{with_board, with_low, with_title, is_board, IsBoardBefore};

use sqlite::{Alter, Error, Transaction, params};
use tb_sql_tables::fitting::{board_fits, number_fits, text_fits};
use tb_sql_tables::read::{read_all, read_first};
use tb_sql_tables::rows::BoardRow;
use tb_sql_tables::run::{find_rows, run};
use tb_values::Items;

/// Adds a board. It fails where the number is taken.
pub fn insert_board<S: Alter>(tx: &mut Transaction<'_, S>, board: &BoardRow) -> Result<(), Error>
    ensures same_reference { tx.new.conn.ghost_name ≡ tx.old.conn.ghost_name }
    ensures put { HasCleanDisk (seen S.Store tx.new)
        → IsTrue (seen S.Store tx.old).in_transaction
        → OnOk result (Changes (with_board board.now) (seen S.Store tx.old)
        (seen S.Store tx.new)) }
    ensures kept { KeepsOnErr (seen S.Store tx.old) (seen S.Store tx.new) result }
    ensures survives { Survives (seen S.Store tx.old) (seen S.Store tx.new) (λ _. ⊥) }
{
    board_fits(board);
    let title = board.title.as_str();
    run(
        tx,
        "INSERT INTO board (id, title, low) VALUES (?1, ?2, ?3)",
        params![board.id, title, board.low],
    )
}

/// Sets the least free number of a board, if there is one of this number.
pub fn update_low<S: Alter>(tx: &mut Transaction<'_, S>, id: u32, low: u32) -> Result<(), Error>
    ensures same_reference { tx.new.conn.ghost_name ≡ tx.old.conn.ghost_name }
    ensures put { HasCleanDisk (seen S.Store tx.new)
        → IsTrue (seen S.Store tx.old).in_transaction
        → OnOk result (Changes (with_low id low) (seen S.Store tx.old) (seen S.Store tx.new)) }
    ensures kept { KeepsOnErr (seen S.Store tx.old) (seen S.Store tx.new) result }
    ensures survives { Survives (seen S.Store tx.old) (seen S.Store tx.new) (λ _. ⊥) }
{
    number_fits(low);
    run(
        tx,
        "UPDATE board SET low = ?2 WHERE id = ?1",
        params![id, low],
    )
}

/// Sets the title of a board, if there is one of this number.
pub fn update_title<S: Alter>(
    tx: &mut Transaction<'_, S>,
    id: u32,
    title: &str,
) -> Result<(), Error>
    ensures same_reference { tx.new.conn.ghost_name ≡ tx.old.conn.ghost_name }
    ensures put { HasCleanDisk (seen S.Store tx.new)
        → IsTrue (seen S.Store tx.old).in_transaction
        → OnOk result (Changes (with_title id title.now) (seen S.Store tx.old)
        (seen S.Store tx.new)) }
    ensures kept { KeepsOnErr (seen S.Store tx.old) (seen S.Store tx.new) result }
    ensures survives { Survives (seen S.Store tx.old) (seen S.Store tx.new) (λ _. ⊥) }
{
    text_fits(title);
    run(
        tx,
        "UPDATE board SET title = ?2 WHERE id = ?1",
        params![id, title],
    )
}

/// All boards, in order of number.
pub fn select_boards<S: Alter>(tx: &mut Transaction<'_, S>) -> Result<Items<BoardRow>, Error>
    ensures same_reference { tx.new.conn.ghost_name ≡ tx.old.conn.ghost_name }
    ensures found { HasCleanDisk (seen S.Store tx.new)
        → IfOk result (λ boards. Finds (λ content. AreFound IsBoardBefore content.boards boards)
        (seen S.Store tx.old)) }
    ensures looks { HasCleanDisk (seen S.Store tx.new)
        → IsTrue (seen S.Store tx.old).in_transaction
        → OnOk result (Changes (λ content. content) (seen S.Store tx.old) (seen S.Store tx.new)) }
    ensures excused { HasCleanDisk (seen S.Store tx.new)
        → IfErr result (IsExcused (seen S.Store tx.old) (seen S.Store tx.new)) }
    ensures kept { KeepsInside (seen S.Store tx.old) (seen S.Store tx.new) }
    ensures survives { Survives (seen S.Store tx.old) (seen S.Store tx.new) (λ _. ⊥) }
{
    let rows = find_rows(tx, "SELECT id, title, low FROM board ORDER BY id", &[])?;
    read_all(*rows.allocator(), &rows)
}

/// The board of a number.
pub fn find_board<S: Alter>(tx: &mut Transaction<'_, S>, id: u32) -> Result<Option<BoardRow>, Error>
    ensures same_reference { tx.new.conn.ghost_name ≡ tx.old.conn.ghost_name }
    ensures found { HasCleanDisk (seen S.Store tx.new)
        → IfOk result (λ board. Finds
        (λ content. IsOneOf (filter (is_board id) content.boards) board) (seen S.Store tx.old)) }
    ensures excused { HasCleanDisk (seen S.Store tx.new)
        → IfErr result (IsExcused (seen S.Store tx.old) (seen S.Store tx.new)) }
    ensures kept { KeepsInside (seen S.Store tx.old) (seen S.Store tx.new) }
    ensures survives { Survives (seen S.Store tx.old) (seen S.Store tx.new) (λ _. ⊥) }
{
    let rows = find_rows(
        tx,
        "SELECT id, title, low FROM board WHERE id = ?1",
        params![id],
    )?;
    read_first(&rows)
}

/// Whether there is a board of a number. Nothing of the row is read.
pub fn has_board<S: Alter>(tx: &mut Transaction<'_, S>, id: u32) -> Result<bool, Error>
    ensures same_reference { tx.new.conn.ghost_name ≡ tx.old.conn.ghost_name }
    ensures found { HasCleanDisk (seen S.Store tx.new)
        → IfOk result (λ there. Finds (λ content. there ≡ list_any (is_board id) content.boards)
        (seen S.Store tx.old)) }
    ensures excused { HasCleanDisk (seen S.Store tx.new)
        → IfErr result (IsExcused (seen S.Store tx.old) (seen S.Store tx.new)) }
    ensures kept { KeepsInside (seen S.Store tx.old) (seen S.Store tx.new) }
    ensures survives { Survives (seen S.Store tx.old) (seen S.Store tx.new) (λ _. ⊥) }
{
    let rows = find_rows(tx, "SELECT id FROM board WHERE id = ?1", params![id])?;
    Ok(!rows.is_empty())
}
