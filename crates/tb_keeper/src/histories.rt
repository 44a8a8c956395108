//! What is looked up for the views of histories.

ghost use Rattle.std.specs.Prelude.{◌≡◌, IfOk, false};
ghost use Rattle.sqlite.specs.Held.{state};
ghost use Rattle.tb_calls.specs.History.{history_seen};
ghost use Rattle.tb_sql.specs.Opening.{IsAsBefore};
ghost use Rattle.tb_lookup.specs.Reopening.{OfState};

use sqlite::{Alter, Connection};
use std::alloc::Global;
use tb_board::Board;
use tb_history::{HistoryPage, Which};
use tb_lookup::histories::history_page;
use tb_sql::store::StoreFault;

/// A page of a board's history, whose entries name the tasks that the board has at their places.
pub(crate) fn find_history<S: Alter>(
    alloc: Global,
    conn: &mut Connection<S>,
    board: &Board,
    which: Which,
) -> Result<HistoryPage, StoreFault>
    ensures idle { conn.old.in_transaction ≡ false → conn.new.in_transaction ≡ false }
    ensures found { IfOk result
        (λ page. OfState (state S.Store conn.old) (state S.Store conn.new)
        (λ s. page ≡ history_seen s board.now which)) }
    ensures same { IsAsBefore (state S.Store conn.old) (state S.Store conn.new) }
{
    if !conn.is_autocommit() {
        return Err(StoreFault::Store); // Never: each call ends its transaction.
    }
    history_page(alloc, conn, board, which)
}
