//! Imports of an input into the boards of a file.
ghost use Rattle.std.specs.Prelude.{◌≡◌, ◌∷◌, [], IfErr, IfOk, IfSome, None, false, true};
ghost use Rattle.sqlite_wal.specs.Files.{image_at};
ghost use Rattle.tb_files.specs.Failed.{IsImportCut, IsImportFailed, IsRunCut, IsRunFailed, may_print, may_print_parts};
ghost use Rattle.tb_files.specs.Faults.{is_of_imports};
ghost use Rattle.tb_files.specs.Import.{IsImported, IsImportedInParts, IsImportedInPartsOver, IsImportedOver};
ghost use Rattle.tb_orders.specs.Items.{IsBadAmong, IsBadIn};
ghost use Rattle.tb_orders.specs.Moments.{GaveOne};
ghost use Rattle.tb_program.specs.declared.fault.Fault.TheVariants.{NoClock, ReadFailed};
ghost use Rattle.tb_script.specs.Watching.{IsSpent};

use crate::file::{RealFile, begin, close_after};
use sqlite::FileStore;
use sqlite_disk::{Disk, Start};
use std::io::{IsTerminal, Read, Write};
use tb_calls::Keep;
use tb_command_line::ImportOrder;
use tb_desk::Desk;
use tb_keeper::SqlKeep;
use tb_orders::{Ending, OrderFault, Progress, import_all, import_input};
use tb_program::Clock;
use tb_script::Watched;

/// Imports an input by one call.
#[tactic(auto, using(crate::proofs::Faults::of_opening))]
pub fn import_into_file<S: Start, R: Read + Drop, C: Clock, W: Write>(
    rt: &HostRuntime,
    order: &ImportOrder,
    reader: R,
    clock: &mut C,
    writer: &mut W,
    start: S,
) -> Result<Ending, OrderFault>
    ensures imported { IfOk result (IsImported ⟦<SqlKeep<RealFile<S>> as Keep>⟧ (image_at S.Start)
        (GaveOne C.gives clock.old clock.new)
        order.now (R.remaining reader) (W.contents writer.old) (W.contents writer.new)) }
    ensures failed { IfErr result (λ failed. IsImportFailed ⟦<SqlKeep<RealFile<S>> as Keep>⟧
        (image_at S.Start) W.contents
        (GaveOne C.gives clock.old clock.new) order.now (R.remaining reader)
        writer.old writer.new failed.fault) }
    ensures silent { IfErr result
        (λ failed. may_print failed.fault ≡ false → writer.new ≡ writer.old) }
    ensures timeless { IfErr result
        (λ failed. failed.fault ≡ NoClock → C.gives (None ∷ []) clock.old clock.new) }
    ensures item { IfErr result
        (λ failed. IfSome failed.item (IsBadIn order.now (R.remaining reader))) }
    ensures fault { IfErr result (λ failed. is_of_imports failed.fault ≡ true) }
{
    let mut reader = Watched::new(reader);
    match begin(rt, order.file.as_str(), start) {
        Ok(desk) => import_over(rt, desk, order, &mut reader, clock, writer),
        Err(fault) => Err(OrderFault { fault, item: None }),
    }
}

/// Imports an input by one call in a session, and ends the session.
#[tactic(auto, using(crate::proofs::Faults::of_input))]
fn import_over<D: Disk + Drop, R: Read + Drop, C: Clock, W: Write>(
    rt: &HostRuntime,
    desk: Desk<SqlKeep<FileStore<D>>>,
    order: &ImportOrder,
    reader: &mut Watched<R>,
    clock: &mut C,
    writer: &mut W,
) -> Result<Ending, OrderFault>
    ensures imported { IfOk result
        (λ ending. IsImportedOver ⟦<SqlKeep<FileStore<D>> as Keep>⟧
        (GaveOne C.gives clock.old clock.new) order.now (reader.old.left)
        (W.contents writer.old) (W.contents writer.new) ending desk) }
    ensures failed { IfErr result
        (λ failed. IsImportCut ⟦<SqlKeep<FileStore<D>> as Keep>⟧ W.contents
        (GaveOne C.gives clock.old clock.new) order.now
        (reader.old.left) writer.old writer.new failed.fault desk) }
    ensures silent { IfErr result
        (λ failed. may_print failed.fault ≡ false → writer.new ≡ writer.old) }
    ensures timeless { IfErr result
        (λ failed. failed.fault ≡ NoClock → C.gives (None ∷ []) clock.old clock.new) }
    ensures item { IfErr result
        (λ failed. IfSome failed.item (IsBadIn order.now (reader.old.left))) }
    ensures spent { IfErr result (λ failed. failed.fault ≡ ReadFailed → IsSpent reader.new) }
    ensures fault { IfErr result (λ failed. is_of_imports failed.fault ≡ true) }
{
    let mut desk = desk;
    match import_input(rt.alloc(), &mut desk, order, reader, clock, writer) {
        Ok(ending) => close_after(desk, ending),
        Err(failed) => Err(failed),
    }
}

/// Imports an input in as many parts as its text takes.
#[tactic(auto, using(crate::proofs::Faults::of_opening))]
pub fn import_parts_into_file<S: Start, R: Read + Drop, C: Clock, W: Write>(
    rt: &HostRuntime,
    order: &ImportOrder,
    reader: R,
    clock: &mut C,
    writer: &mut W,
    start: S,
) -> Result<Ending, OrderFault>
    ensures imported { IfOk result (IsImportedInParts ⟦<SqlKeep<RealFile<S>> as Keep>⟧
        (image_at S.Start)
        (GaveOne C.gives clock.old clock.new)
        order.now (R.remaining reader) (W.contents writer.old) (W.contents writer.new)) }
    ensures failed { IfErr result (λ failed. IsRunFailed ⟦<SqlKeep<RealFile<S>> as Keep>⟧
        (image_at S.Start) W.contents
        (GaveOne C.gives clock.old clock.new) order.now (R.remaining reader)
        writer.old writer.new failed.fault) }
    ensures silent { IfErr result
        (λ failed. may_print_parts failed.fault ≡ false → writer.new ≡ writer.old) }
    ensures timeless { IfErr result
        (λ failed. failed.fault ≡ NoClock → C.gives (None ∷ []) clock.old clock.new) }
    ensures item { IfErr result
        (λ failed. IfSome failed.item (IsBadAmong order.now (R.remaining reader))) }
    ensures fault { IfErr result (λ failed. is_of_imports failed.fault ≡ true) }
{
    let mut reader = Watched::new(reader);
    match begin(rt, order.file.as_str(), start) {
        Ok(desk) => import_parts_over(rt, desk, order, &mut reader, clock, writer),
        Err(fault) => Err(OrderFault { fault, item: None }),
    }
}

/// Imports an input in parts in a session, and ends the session.
#[tactic(auto, using(crate::proofs::Faults::of_input))]
fn import_parts_over<D: Disk + Drop, R: Read + Drop, C: Clock, W: Write>(
    rt: &HostRuntime,
    desk: Desk<SqlKeep<FileStore<D>>>,
    order: &ImportOrder,
    reader: &mut Watched<R>,
    clock: &mut C,
    writer: &mut W,
) -> Result<Ending, OrderFault>
    ensures imported { IfOk result
        (λ ending. IsImportedInPartsOver ⟦<SqlKeep<FileStore<D>> as Keep>⟧
        (GaveOne C.gives clock.old clock.new) order.now
        (reader.old.left) (W.contents writer.old) (W.contents writer.new) ending desk) }
    ensures failed { IfErr result
        (λ failed. IsRunCut ⟦<SqlKeep<FileStore<D>> as Keep>⟧ W.contents
        (GaveOne C.gives clock.old clock.new) order.now
        (reader.old.left) writer.old writer.new failed.fault desk) }
    ensures silent { IfErr result
        (λ failed. may_print_parts failed.fault ≡ false → writer.new ≡ writer.old) }
    ensures timeless { IfErr result
        (λ failed. failed.fault ≡ NoClock → C.gives (None ∷ []) clock.old clock.new) }
    ensures item { IfErr result
        (λ failed. IfSome failed.item (IsBadAmong order.now (reader.old.left))) }
    ensures spent { IfErr result (λ failed. failed.fault ≡ ReadFailed → IsSpent reader.new) }
    ensures fault { IfErr result (λ failed. is_of_imports failed.fault ≡ true) }
{
    let mut desk = desk;
    let progress = Counter { rt };
    let alloc = rt.alloc();
    match import_all(alloc, &mut desk, order, reader, clock, writer, &progress) {
        Ok(ending) => close_after(desk, ending),
        Err(failed) => Err(failed),
    }
}

/// Tells on standard error, where that is a terminal, which part of a longer text is begun.
#[derive(Drop)]
struct Counter<'a> {
    rt: &'a HostRuntime,
}

impl<'a> Progress for Counter<'a> {
    fn begin(&self, part: usize, parts: usize) {
        if parts > 1 && self.rt.stderr().is_terminal() {
            let _ = writeln!(self.rt.stderr(), "taskboard: part {part} of {parts}");
        }
    }
}
