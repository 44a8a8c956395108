//! A new file of boards.
ghost use Rattle.std.specs.Prelude.{◌≡◌, false, IfErr, IfOk, true};
ghost use Rattle.sqlite.specs.Files.{file_state};
ghost use Rattle.sqlite.specs.State.{HasCleanDisk};
ghost use Rattle.tb_sql_tables.specs.Failing.{IsAtRest};
ghost use Rattle.tb_calls.specs.Call.{opening};
ghost use Rattle.tb_files.specs.Init.{IsMade, IsNotMade};
ghost use Rattle.tb_files.specs.NotDone.{failure_of};
ghost use Rattle.tb_orders.specs.Faults.{is_of_making};

use crate::fault::fault_of_making;
use crate::file::close_desk;
use crate::not_done::{NotDone, Untaken};
use sqlite::{Connection, FileStore};
use sqlite_disk::Disk;
use std::alloc::Global;
use tb_calls::Keep;
use tb_command_line::InitOrder;
use tb_headline::session::make;
use tb_keeper::SqlKeep;
use tb_orders::{Ending, OrderFault};

/// Makes the tables of a file with one person, who owns its first board.
pub fn make_file<D: Disk + Drop>(
    alloc: Global,
    conn: Connection<FileStore<D>>,
    order: &InitOrder,
) -> Result<Ending, NotDone<Connection<FileStore<D>>>>
    requires idle { conn.in_transaction ≡ false }
    requires opens { HasCleanDisk (file_state conn) → IsAtRest (file_state conn) }
    ensures made { IfOk result (λ ending. (ending ≡ Ending.Accepted)
        × IsMade ⟦<SqlKeep<FileStore<D>> as Keep>⟧ conn
        (opening order.now.name order.now.key)) }
    ensures unmade { IfErr result (IsNotMade ⟦<SqlKeep<FileStore<D>> as Keep>⟧ conn
        (opening order.now.name order.now.key)) }
    ensures fault { IfErr result (λ undone. is_of_making (failure_of undone).fault ≡ true) }
{
    match make(alloc, conn, &order.name, &order.key) {
        Ok(desk) => match close_desk(desk) {
            Ok(()) => Ok(Ending::Accepted),
            Err(fault) => Err(NotDone::Failed(OrderFault { fault, item: None })),
        },
        Err((left, fault)) => Err(NotDone::Untaken(Untaken {
            left,
            fault: fault_of_making(fault),
        })),
    }
}
