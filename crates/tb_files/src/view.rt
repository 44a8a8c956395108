//! Views of a board in a file.
ghost use Rattle.std.specs.Prelude.{◌≡◌, ◌⊎◌, ◌∷◌, [], false, IfErr, IfOk, IsErrOf, None, OnErr, true};
ghost use Rattle.sqlite.specs.Files.{file_state};
ghost use Rattle.sqlite.specs.State.{HasCleanDisk};
ghost use Rattle.tb_sql_tables.specs.Failing.{IsAtRest};
ghost use Rattle.tb_files.specs.Faults.{is_of_showing, is_of_views};
ghost use Rattle.tb_files.specs.File.{InSession};
ghost use Rattle.tb_files.specs.NotDone.{IsNotDone, failure_of};
ghost use Rattle.tb_files.specs.View.{IsCutShort, IsShown};
ghost use Rattle.tb_orders.specs.Moments.{GaveOne};
ghost use Rattle.tb_program.specs.declared.fault.Fault.TheVariants.{NoClock, WriteFailed};

use crate::exporting::print_stored_view;
use crate::file::{close_desk, open_desk};
use crate::not_done::NotDone;
use sqlite::{Connection, FileStore};
use sqlite_disk::Disk;
use std::alloc::Global;
use std::io::Write;
use tb_calls::Keep;
use tb_command_line::ViewOrder;
use tb_desk::Desk;
use tb_keeper::SqlKeep;
use tb_orders::{Ending, OrderFault};
use tb_program::{Clock, Fault};

/// Prints a view of a board at the moment that the clock gives, from the file that a connection was opened to.
#[tactic(auto, using(crate::proofs::Faults::of_view))]
pub fn print_board<D: Disk + Drop, C: Clock, W: Write>(
    rt: &HostRuntime,
    conn: Connection<FileStore<D>>,
    order: &ViewOrder,
    clock: &mut C,
    writer: &mut W,
) -> Result<Ending, NotDone<Connection<FileStore<D>>>>
    requires idle { conn.in_transaction ≡ false }
    requires opens { HasCleanDisk (file_state conn) → IsAtRest (file_state conn) }
    ensures shown { IfOk result (λ ending. InSession ⟦<SqlKeep<FileStore<D>> as Keep>⟧ conn
        (λ old. IsShown ⟦<SqlKeep<FileStore<D>> as Keep>⟧ (GaveOne C.gives clock.old clock.new)
        order.now old (W.contents writer.old) (W.contents writer.new) ending)) }
    ensures unwritten { IfErr result (λ undone. (failure_of undone).fault ≡ WriteFailed
        → InSession ⟦<SqlKeep<FileStore<D>> as Keep>⟧ conn
        (λ old. IsCutShort ⟦<SqlKeep<FileStore<D>> as Keep>⟧ (GaveOne C.gives clock.old clock.new)
        order.now old (W.contents writer.old) (W.contents writer.new))) }
    ensures cut { IfErr result (λ undone. (writer.new ≡ writer.old)
        ⊎ InSession ⟦<SqlKeep<FileStore<D>> as Keep>⟧ conn
        (λ old. IsCutShort ⟦<SqlKeep<FileStore<D>> as Keep>⟧ (GaveOne C.gives clock.old clock.new)
        order.now old (W.contents writer.old) (W.contents writer.new))) }
    ensures timeless { IfErr result (λ undone. (failure_of undone).fault ≡ NoClock
        → C.gives (None ∷ []) clock.old clock.new) }
    ensures undone { IfErr result
        (IsNotDone ⟦<SqlKeep<FileStore<D>> as Keep>⟧ is_of_showing conn) }
    ensures fault { IfErr result (λ undone. is_of_views (failure_of undone).fault ≡ true) }
{
    match open_desk(rt, order.file.as_str(), conn) {
        Ok(desk) => match show_board(rt.alloc(), desk, order, clock, writer) {
            Ok(ending) => Ok(ending),
            Err(fault) => Err(NotDone::Failed(OrderFault { fault, item: None })),
        },
        Err(untaken) => Err(NotDone::Untaken(untaken)),
    }
}

/// Prints a view at the moment that the clock gives, and closes the file.
fn show_board<D: Disk + Drop, C: Clock, W: Write>(
    alloc: Global,
    desk: Desk<SqlKeep<FileStore<D>>>,
    order: &ViewOrder,
    clock: &mut C,
    writer: &mut W,
) -> Result<Ending, Fault>
    ensures shown { IfOk result (IsShown ⟦<SqlKeep<FileStore<D>> as Keep>⟧
        (GaveOne C.gives clock.old clock.new) order.now desk
        (W.contents writer.old) (W.contents writer.new)) }
    ensures unwritten { IsErrOf result WriteFailed → IsCutShort ⟦<SqlKeep<FileStore<D>> as Keep>⟧
        (GaveOne C.gives clock.old clock.new) order.now desk
        (W.contents writer.old) (W.contents writer.new) }
    ensures cut { OnErr result ((writer.new ≡ writer.old)
        ⊎ IsCutShort ⟦<SqlKeep<FileStore<D>> as Keep>⟧ (GaveOne C.gives clock.old clock.new)
        order.now desk (W.contents writer.old) (W.contents writer.new)) }
    ensures timeless { IsErrOf result NoClock → C.gives (None ∷ []) clock.old clock.new }
    ensures fault { IfErr result (λ fault. is_of_showing fault ≡ true) }
{
    let Some(at) = clock.now() else {
        return Err(Fault::NoClock);
    };
    let (desk, end) = print_stored_view(alloc, desk, order, at, writer);
    match end {
        Ok(ending) => {
            close_desk(desk)?;
            Ok(ending)
        }
        Err(fault) => Err(fault),
    }
}
