//! The orders over a file, but serving it and imports: the file is opened, and the order carried out over what is found.
ghost use Rattle.std.specs.Prelude.{◌≡◌, IfErr, IfOk, false, true};
ghost use Rattle.sqlite_wal.specs.Files.{image_at};
ghost use Rattle.taskboard.specs.Failing.{IsUnchecked, IsUnmade, IsUnshown};
ghost use Rattle.tb_calls.specs.Call.{opening};
ghost use Rattle.tb_files.specs.Check.{IsChecked};
ghost use Rattle.tb_files.specs.Failed.{may_print};
ghost use Rattle.tb_files.specs.Faults.{is_of_checking, is_of_keys, is_of_views};
ghost use Rattle.tb_files.specs.File.{BeginsSession, IsFoundIn};
ghost use Rattle.tb_files.specs.Init.{IsMade};
ghost use Rattle.tb_files.specs.Key.{IsKeyFailed, IsKeyGiven};
ghost use Rattle.tb_files.specs.View.{IsShown};
ghost use Rattle.tb_orders.specs.Faults.{is_of_making};

use crate::clock::MachineClock;
use sqlite_disk::Start;
use std::io::{Read, Write};
use tb_calls::Keep;
use tb_command_line::{InitOrder, KeyOrder, ViewOrder};
use tb_files::{
    RealFile, check_file, give_key_in_file, make_file, open_file, open_new_file, print_board,
};
use tb_keeper::SqlKeep;
use tb_orders::{Ending, OrderFault};
use tb_program::Fault;
use tb_values::Text;

/// Makes a file of boards.
pub(crate) fn init<S: Start>(
    rt: &HostRuntime,
    order: &InitOrder,
    start: S,
) -> Result<Ending, OrderFault>
    ensures made { IfOk result (λ ending. (found : _) × IsFoundIn (image_at S.Start) found
        × ((ending ≡ Ending.Accepted) × IsMade ⟦<SqlKeep<RealFile<S>> as Keep>⟧ found
        (opening order.now.name order.now.key))) }
    ensures unmade { IfErr result (IsUnmade ⟦<SqlKeep<RealFile<S>> as Keep>⟧ (image_at S.Start)
        (opening order.now.name order.now.key)) }
    ensures fault { IfErr result (λ failed. is_of_making failed.fault ≡ true) }
{
    let conn = open_new_file(rt, order.file.as_str(), start)?;
    Ok(make_file(rt.alloc(), conn, order)?)
}

/// Prints a view of a board in a file, as it is now.
pub(crate) fn view<S: Start, W: Write>(
    rt: &HostRuntime,
    order: &ViewOrder,
    writer: &mut W,
    start: S,
) -> Result<Ending, OrderFault>
    ensures shown { IfOk result (λ ending. BeginsSession ⟦<SqlKeep<RealFile<S>> as Keep>⟧
        (image_at S.Start)
        (λ old. IsShown ⟦<SqlKeep<RealFile<S>> as Keep>⟧ (λ at. Unit {0}) order.now old
        (W.contents writer.old) (W.contents writer.new) ending)) }
    ensures unshown { IfErr result (IsUnshown ⟦<SqlKeep<RealFile<S>> as Keep>⟧
        (image_at S.Start) W.contents
        order.now writer.old writer.new) }
    ensures fault { IfErr result (λ failed. is_of_views failed.fault ≡ true) }
{
    let conn = open_file(rt, order.file.as_str(), start)?;
    let mut clock = MachineClock { rt };
    Ok(print_board(rt, conn, order, &mut clock, writer)?)
}

/// Prints how the rows of a file differ from what its tasks say.
pub(crate) fn check<S: Start, W: Write>(
    rt: &HostRuntime,
    file: &Text,
    writer: &mut W,
    start: S,
) -> Result<Ending, OrderFault>
    ensures checked { IfOk result (λ ending. BeginsSession ⟦<SqlKeep<RealFile<S>> as Keep>⟧
        (image_at S.Start)
        (λ old. IsChecked old (W.contents writer.old) (W.contents writer.new) ending)) }
    ensures unchecked { IfErr result (IsUnchecked ⟦<SqlKeep<RealFile<S>> as Keep>⟧
        (image_at S.Start) W.contents
        writer.old writer.new) }
    ensures fault { IfErr result (λ failed. is_of_checking failed.fault ≡ true) }
{
    let conn = open_file(rt, file.as_str(), start)?;
    Ok(check_file(rt, file, conn, writer)?)
}

/// Gives somebody a new key in a file, now.
pub(crate) fn give_key<S: Start, R: Read + Drop, W: Write>(
    rt: &HostRuntime,
    order: &KeyOrder,
    reader: R,
    writer: &mut W,
    start: S,
) -> Result<Ending, Fault>
    ensures given { IfOk result (IsKeyGiven ⟦<SqlKeep<RealFile<S>> as Keep>⟧
        (image_at S.Start) (λ at. Unit {0})
        order.now (R.remaining reader) (W.contents writer.old) (W.contents writer.new)) }
    ensures failed { IfErr result (IsKeyFailed ⟦<SqlKeep<RealFile<S>> as Keep>⟧
        (image_at S.Start) W.contents
        (λ at. Unit {0}) order.now (R.remaining reader) writer.old writer.new) }
    ensures silent { IfErr result (λ fault. may_print fault ≡ false → writer.new ≡ writer.old) }
    ensures fault { IfErr result (λ fault. is_of_keys fault ≡ true) }
{
    let mut clock = MachineClock { rt };
    give_key_in_file(rt, order, reader, &mut clock, writer, start)
}
