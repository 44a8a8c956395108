//! Views of a board over a keeper that exports. An export is written from what is stored, a task at a time.
ghost use Rattle.std.specs.Prelude.{◌≡◌, Err, IfErr, IfOk, IsErrOf, None, OnErr, OnOk, true};
ghost use Rattle.std.specs.Io.KnownBytes.{Appends};
ghost use Rattle.tb_board.specs.World.{find_board};
ghost use Rattle.tb_calls.specs.Call.{State};
ghost use Rattle.tb_calls.specs.Keep.{IsStill};
ghost use Rattle.tb_command_line.specs.declared.order.ViewKind.TheVariants.{Export as Exports};
ghost use Rattle.tb_desk.specs.Admitting.{admission};
ghost use Rattle.tb_keeper.specs.Exporting.{IsCut, IsExported, is_store};
ghost use Rattle.tb_keeper.specs.declared.export_fault.ExportFault.TheVariants.{NoBoard};
ghost use Rattle.tb_orders.specs.Orders.{ending_of, shown_by, view_text};
ghost use Rattle.tb_orders.specs.Telling.{is_of_answers};
ghost use Rattle.tb_program.specs.declared.fault.Fault.TheVariants.{Store};
ghost use Rattle.tb_values.specs.Appends.{AppendsFront};

use sqlite::Alter;
use std::alloc::Global;
use std::io::Write;
use tb_calls::Keep;
use tb_command_line::{ViewKind, ViewOrder};
use tb_desk::Desk;
use tb_keeper::{ExportFault, SqlKeep};
use tb_orders::{Ending, fault_of_keep, print_shown, print_view, view_of};
use tb_program::Fault;
use tb_task::Moment;

/// A keeper that writes a board which it never has as a whole.
pub trait Export: Keep {
    /// Writes all tasks of a board as JSON, as they are at a moment. Returns how many there are.
    fn export_board<W: Write>(
        &mut self,
        alloc: Global,
        board: u32,
        at: Moment,
        writer: &mut W,
    ) -> Result<u64, ExportFault>
        ensures told { Self.is_honest self.new ≡ true → (s : State) → Self.holds self.old s
            → IfOk result (λ count. IsExported (find_board s.world board) at count
            (W.contents writer.old) (W.contents writer.new)) }
        ensures front { Self.is_honest self.new ≡ true → (s : State) → Self.holds self.old s
            → IfErr result (λ fault. IsCut (find_board s.world board) at fault
            (W.contents writer.old) (W.contents writer.new)) }
        ensures unwritten { result ≡ Err NoBoard
            → W.contents writer.new ≡ W.contents writer.old }
        ensures same { IsStill (Self.holds self.old) (Self.after_stop self.old)
            (Self.holds self.new) (Self.after_stop self.new) }
        ensures failed { Self.has_failed self.new ≡ is_store result }
        ensures honest { Self.is_honest self.new ≡ true → Self.is_honest self.old ≡ true };
}

impl<S: Alter> Export for SqlKeep<S> {
    fn export_board<W: Write>(
        &mut self,
        alloc: Global,
        board: u32,
        at: Moment,
        writer: &mut W,
    ) -> Result<u64, ExportFault> {
        self.export(alloc, board, at, writer)
    }
}

/// Prints what a view shows of a board at a moment, or why it is refused. For an export no board is read as a whole.
pub fn print_stored_view<K: Export, W: Write>(
    alloc: Global,
    desk: Desk<K>,
    order: &ViewOrder,
    at: Moment,
    writer: &mut W,
) -> (Desk<K>, Result<Ending, Fault>)
    ensures told { K.is_honest result.0 ≡ true → (s : State) → K.holds desk s
        → OnOk result.1 (Appends (W.contents writer.old) (W.contents writer.new)
        (view_text (shown_by s order.now at))) }
    ensures front { K.is_honest result.0 ≡ true → (s : State) → K.holds desk s
        → OnErr result.1 (AppendsFront (W.contents writer.old) (W.contents writer.new)
        (view_text (shown_by s order.now at))) }
    ensures ending { K.is_honest result.0 ≡ true → (s : State) → K.holds desk s
        → IfOk result.1 (λ ending. ending ≡ ending_of (shown_by s order.now at)) }
    ensures same { IsStill (K.holds desk) (K.after_stop desk) (K.holds result.0)
        (K.after_stop result.0) }
    ensures fault { IfErr result.1 (λ fault. is_of_answers fault ≡ true) }
    ensures store { IsErrOf result.1 Store → K.has_failed result.0 ≡ true }
{
    match order.kind {
        ViewKind::Export => print_export(alloc, desk, order, at, writer),
        ViewKind::Listing | ViewKind::Todo => {
            let mut desk = desk;
            let end = print_view(alloc, &mut desk, order, at, writer);
            (desk, end)
        }
    }
}

/// Prints an export, or why it is refused.
fn print_export<K: Export, W: Write>(
    alloc: Global,
    desk: Desk<K>,
    order: &ViewOrder,
    at: Moment,
    writer: &mut W,
) -> (Desk<K>, Result<Ending, Fault>)
    requires { order.now.kind ≡ Exports }
    ensures told { K.is_honest result.0 ≡ true → (s : State) → K.holds desk s
        → OnOk result.1 (Appends (W.contents writer.old) (W.contents writer.new)
        (view_text (shown_by s order.now at))) }
    ensures front { K.is_honest result.0 ≡ true → (s : State) → K.holds desk s
        → OnErr result.1 (AppendsFront (W.contents writer.old) (W.contents writer.new)
        (view_text (shown_by s order.now at))) }
    ensures ending { K.is_honest result.0 ≡ true → (s : State) → K.holds desk s
        → IfOk result.1 (λ ending. ending ≡ ending_of (shown_by s order.now at)) }
    ensures same { IsStill (K.holds desk) (K.after_stop desk) (K.holds result.0)
        (K.after_stop result.0) }
    ensures fault { IfErr result.1 (λ fault. is_of_answers fault ≡ true) }
    ensures store { IsErrOf result.1 Store → K.has_failed result.0 ≡ true }
{
    let mut desk = desk;
    match desk.admits(alloc, &order.member, &order.key, &view_of(order)) {
        Ok(None) => write_export(alloc, desk.into_keep(), order, at, writer),
        Ok(Some(refusal)) => (desk, print_shown(writer, &refusal)),
        Err(fault) => (desk, Err(fault_of_keep(fault))),
    }
}

/// Writes an export that is accepted. Over an honest disk its board is found, and else the view tells that it isn't.
fn write_export<K: Export, W: Write>(
    alloc: Global,
    keep: K,
    order: &ViewOrder,
    at: Moment,
    writer: &mut W,
) -> (Desk<K>, Result<Ending, Fault>)
    requires { order.now.kind ≡ Exports }
    ensures told { K.is_honest result.0 ≡ true → (s : State) → K.holds keep s
        → None ≡ admission (shown_by s order.now at)
        → OnOk result.1 (Appends (W.contents writer.old) (W.contents writer.new)
        (view_text (shown_by s order.now at))) }
    ensures front { K.is_honest result.0 ≡ true → (s : State) → K.holds keep s
        → None ≡ admission (shown_by s order.now at)
        → OnErr result.1 (AppendsFront (W.contents writer.old) (W.contents writer.new)
        (view_text (shown_by s order.now at))) }
    ensures ending { K.is_honest result.0 ≡ true → (s : State) → K.holds keep s
        → None ≡ admission (shown_by s order.now at)
        → IfOk result.1 (λ ending. ending ≡ ending_of (shown_by s order.now at)) }
    ensures same { IsStill (K.holds keep) (K.after_stop keep) (K.holds result.0)
        (K.after_stop result.0) }
    ensures honest { K.is_honest result.0 ≡ true → K.is_honest keep ≡ true }
    ensures fault { IfErr result.1 (λ fault. is_of_answers fault ≡ true) }
    ensures store { IsErrOf result.1 Store → K.has_failed result.0 ≡ true }
{
    let mut keep = keep;
    let written = keep.export_board(alloc, order.board, at, writer);
    let mut desk = Desk::new(keep);
    match written {
        Ok(_) => (desk, Ok(Ending::Accepted)),
        Err(ExportFault::NoBoard) => {
            let end = print_view(alloc, &mut desk, order, at, writer);
            (desk, end)
        }
        Err(ExportFault::WriteFailed) => (desk, Err(Fault::WriteFailed)),
        Err(ExportFault::Store) => (desk, Err(Fault::Store)),
        Err(ExportFault::Memory) => (desk, Err(Fault::Memory)),
    }
}
