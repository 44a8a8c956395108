//! Boards, as the tables tell them.

ghost use Rattle.std.specs.Prelude.{◌≡◌, false, length, Err, IfOk, IfSome};
ghost use Rattle.sqlite.specs.Held.{state};
ghost use Rattle.tb_board.specs.Good.{IsGood};
ghost use Rattle.tb_board.specs.World.{find_board};
ghost use Rattle.tb_rows.specs.Rows.{board_row};
ghost use Rattle.tb_sql.specs.Opening.{IsAsBefore};
ghost use Rattle.tb_sql_tables.specs.Content.{Stands};
ghost use Rattle.tb_sql_tables.specs.Failing.{FailsByFault, KeepsFaults};
ghost use Rattle.tb_lookup.specs.Reopening.{OfBoard, OfState, FailsOfBoard, FailsOfState};

use crate::by_key::{board_row_at, has_board_at, horizon_row_at};
use crate::faults::fault_of;
use crate::halves::{ABOVE_MOST, middle_of};
use crate::reading::{gone_rows, task_rows};
use sqlite::{Alter, Connection};
use std::alloc::Global;
use tb_board::Board;
use tb_good::is_good_board;
use tb_rows::laws::rows_are_found_again;
use tb_rows::read_board;
use tb_sql::store::StoreFault;
use tb_sql_tables::rows::BoardRow;
use tb_values::Shared;

/// The board of a number, if there is one. What is answered is good and has that number, whatever the rows are:
/// rows of another board, or of one that isn't good, are a failure of the store.
pub fn stored_board<S: Alter>(
    alloc: Global,
    conn: &mut Connection<S>,
    number: u32,
) -> Result<Option<Shared<Board>>, StoreFault>
    requires { conn.old.in_transaction ≡ false }
    ensures idle { conn.new.in_transaction ≡ false }
    ensures found { IfOk result (λ board. OfState (state S.Store conn.old) (state S.Store conn.new)
        (λ s. board ≡ find_board s.world number)) }
    ensures good { IfOk result (λ board. IfSome board IsGood) }
    ensures numbered { IfOk result (λ board. IfSome board (λ b. b.number ≡ number)) }
    ensures excused { result ≡ Err StoreFault.Store
        → FailsOfState (state S.Store conn.old) (state S.Store conn.new) }
    ensures faults { KeepsFaults (state S.Store conn.old) (state S.Store conn.new) }
    ensures same { IsAsBefore (state S.Store conn.old) (state S.Store conn.new) }
{
    rows_are_found_again();
    let Some(row) = board_row_at(conn, number)? else {
        return Ok(None);
    };
    let board = read_good(alloc, conn, &row)?;
    if board.get().number != number {
        return Err(StoreFault::Store);
    }
    Ok(Some(board))
}

/// The board of a row, with how far ahead it looks, the tasks and the gone places that are stored for it.
fn read_good<S: Alter>(
    alloc: Global,
    conn: &mut Connection<S>,
    row: &BoardRow,
) -> Result<Shared<Board>, StoreFault>
    requires { conn.old.in_transaction ≡ false }
    ensures idle { conn.new.in_transaction ≡ false }
    ensures found { IfOk result (λ board. OfBoard (state S.Store conn.old) (state S.Store conn.new)
        (λ w b. row.now ≡ board_row b → board ≡ b)) }
    ensures good { IfOk result IsGood }
    ensures excused { result ≡ Err StoreFault.Store
        → FailsOfBoard (state S.Store conn.old) (state S.Store conn.new)
        (λ b. row.now ≡ board_row b) }
    ensures faults { KeepsFaults (state S.Store conn.old) (state S.Store conn.new) }
    ensures same { IsAsBefore (state S.Store conn.old) (state S.Store conn.new) }
{
    let horizon = horizon_row_at(conn, row.id)?;
    let tasks = task_rows(conn, row.id)?;
    let gone = gone_rows(conn, row.id)?;
    match read_board(alloc, row, horizon, tasks.as_slice(), gone.as_slice()) {
        Ok(board) => hold_to_good(alloc, board),
        Err(fault) => Err(fault_of(fault)),
    }
}

/// A board that isn't good by itself is a failure of the store.
fn hold_to_good(alloc: Global, board: Board) -> Result<Shared<Board>, StoreFault>
    ensures same { IfOk result (λ held. held ≡ board) }
    ensures good { IfOk result IsGood }
    ensures refused { result ≡ Err StoreFault.Store → IsGood board → ⊥ }
{
    match is_good_board(alloc, &board) {
        Ok(true) => {}
        Ok(false) => return Err(StoreFault::Store),
        Err(_) => return Err(StoreFault::Memory),
    }
    match Shared::new(alloc, indexed(alloc, board)) {
        Ok(board) => Ok(board),
        Err(_) => Err(StoreFault::Memory),
    }
}

/// The board, with an index of its tasks.
fn indexed(alloc: Global, mut board: Board) -> Board
    ensures { result ≡ board }
{
    board.tasks.make_index(alloc, board.number);
    board
}

/// How many boards there are. They are numbered from 1, so that their number is found by halves.
pub fn count_boards<S: Alter>(conn: &mut Connection<S>) -> Result<usize, StoreFault>
    requires { conn.old.in_transaction ≡ false }
    ensures idle { conn.new.in_transaction ≡ false }
    ensures found { IfOk result (λ count. OfState (state S.Store conn.old) (state S.Store conn.new)
        (λ s. count ≡ length s.world.boards)) }
    ensures excused { result ≡ Err StoreFault.Store
        → FailsByFault (state S.Store conn.old) (state S.Store conn.new)
        (λ content. Stands content (state S.Store conn.old)) }
    ensures faults { KeepsFaults (state S.Store conn.old) (state S.Store conn.new) }
    ensures same { IsAsBefore (state S.Store conn.old) (state S.Store conn.new) }
{
    let mut low = 0;
    let mut above = ABOVE_MOST;
    while low + 1 < above {
        let middle = middle_of(low, above);
        if has_board_at(conn, middle)? {
            low = middle;
        } else {
            above = middle;
        }
    }
    Ok(low as usize)
}
