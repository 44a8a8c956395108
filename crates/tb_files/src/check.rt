//! The comparison of what a file stores with what its tasks say.
ghost use Rattle.std.specs.Prelude.{◌≡◌, ◌⊎◌, false, IfErr, IfOk, OnErr, true};
ghost use Rattle.sqlite.specs.Files.{file_state};
ghost use Rattle.sqlite.specs.State.{HasCleanDisk};
ghost use Rattle.tb_sql_tables.specs.Failing.{IsAtRest};
ghost use Rattle.tb_files.specs.Check.{IsCheckCut, IsChecked};
ghost use Rattle.tb_files.specs.Faults.{is_of_checking};
ghost use Rattle.tb_files.specs.File.{InSession};
ghost use Rattle.tb_files.specs.NotDone.{IsNotDone, failure_of};
ghost use Rattle.tb_orders.specs.Telling.{is_of_answers};

use crate::auditing::print_audit;
use crate::file::{close_keep, open_desk};
use crate::not_done::NotDone;
use sqlite::{Connection, FileStore};
use sqlite_disk::Disk;
use std::alloc::Global;
use std::io::Write;
use tb_calls::Keep;
use tb_keeper::SqlKeep;
use tb_orders::{Ending, OrderFault, fault_of_keep};
use tb_program::Fault;
use tb_values::Text;

/// Prints how many boards and tasks a file has, and how many boards differ from what their tasks say.
#[tactic(auto, using(crate::proofs::Faults::of_keep))]
pub fn check_file<D: Disk + Drop, W: Write>(
    rt: &HostRuntime,
    file: &Text,
    conn: Connection<FileStore<D>>,
    writer: &mut W,
) -> Result<Ending, NotDone<Connection<FileStore<D>>>>
    requires idle { conn.in_transaction ≡ false }
    requires opens { HasCleanDisk (file_state conn) → IsAtRest (file_state conn) }
    ensures checked { IfOk result (λ ending. InSession ⟦<SqlKeep<FileStore<D>> as Keep>⟧ conn
        (λ old. IsChecked old (W.contents writer.old) (W.contents writer.new) ending)) }
    ensures cut { IfErr result (λ undone. (writer.new ≡ writer.old)
        ⊎ InSession ⟦<SqlKeep<FileStore<D>> as Keep>⟧ conn
        (λ old. IsCheckCut old (W.contents writer.old) (W.contents writer.new))) }
    ensures undone { IfErr result
        (IsNotDone ⟦<SqlKeep<FileStore<D>> as Keep>⟧ is_of_answers conn) }
    ensures fault { IfErr result (λ undone. is_of_checking (failure_of undone).fault ≡ true) }
{
    match open_desk(rt, file.as_str(), conn) {
        Ok(desk) => match check_rows(rt.alloc(), desk.into_keep(), writer) {
            Ok(ending) => Ok(ending),
            Err(fault) => Err(NotDone::Failed(OrderFault { fault, item: None })),
        },
        Err(untaken) => Err(NotDone::Untaken(untaken)),
    }
}

/// Prints what an audit found, and closes the file.
#[tactic(auto, using(crate::proofs::Faults::of_audit))]
fn check_rows<D: Disk + Drop, W: Write>(
    alloc: Global,
    keep: SqlKeep<FileStore<D>>,
    writer: &mut W,
) -> Result<Ending, Fault>
    ensures checked { IfOk result
        (IsChecked keep (W.contents writer.old) (W.contents writer.new)) }
    ensures cut { OnErr result ((writer.new ≡ writer.old)
        ⊎ IsCheckCut keep (W.contents writer.old) (W.contents writer.new)) }
    ensures fault { IfErr result (λ fault. is_of_answers fault ≡ true) }
{
    let mut keep = keep;
    let audit = match keep.audit(alloc) {
        Ok(audit) => audit,
        Err(fault) => return Err(fault_of_keep(fault)),
    };
    let ending = print_audit(alloc, &audit, writer)?;
    close_keep(keep)?;
    Ok(ending)
}
