//! Views of a board.
ghost use Rattle.std.specs.Prelude.{◌≡◌, IfErr, IfOk, IsErrOf, OnErr, OnOk, true};
ghost use Rattle.std.specs.Io.KnownBytes.{Appends};
ghost use Rattle.tb_calls.specs.Call.{State};
ghost use Rattle.tb_calls.specs.Keep.{IsStill};
ghost use Rattle.tb_orders.specs.Orders.{ending_of, shown_by, view_of, view_text};
ghost use Rattle.tb_orders.specs.Telling.{is_of_answers};
ghost use Rattle.tb_program.specs.declared.fault.Fault.TheVariants.{Store, WriteFailed};
ghost use Rattle.tb_values.specs.Appends.{AppendsFront};

use crate::ending::{Ending, ending_of, fault_of_keep};
use std::alloc::Global;
use std::io::Write;
use tb_calls::{Keep, Reply, View};
use tb_command_line::{ViewKind, ViewOrder};
use tb_desk::Desk;
use tb_program::{Fault, print_line, print_text};
use tb_task::Moment;

/// Prints what a view shows of a board at a moment, or why it is refused.
pub fn print_view<K: Keep, W: Write>(
    alloc: Global,
    desk: &mut Desk<K>,
    order: &ViewOrder,
    at: Moment,
    writer: &mut W,
) -> Result<Ending, Fault>
    ensures told { K.is_honest desk.new ≡ true → (s : State) → K.holds desk.old s
        → OnOk result (Appends (W.contents writer.old) (W.contents writer.new)
        (view_text (shown_by s order.now at))) }
    ensures front { K.is_honest desk.new ≡ true → (s : State) → K.holds desk.old s
        → OnErr result (AppendsFront (W.contents writer.old) (W.contents writer.new)
        (view_text (shown_by s order.now at))) }
    ensures ending { K.is_honest desk.new ≡ true → (s : State) → K.holds desk.old s
        → IfOk result (λ ending. ending ≡ ending_of (shown_by s order.now at)) }
    ensures same { IsStill (K.holds desk.old) (K.after_stop desk.old) (K.holds desk.new)
        (K.after_stop desk.new) }
    ensures honest { K.is_honest desk.new ≡ true → K.is_honest desk.old ≡ true }
    ensures fault { IfErr result (λ fault. is_of_answers fault ≡ true) }
    ensures store { IsErrOf result Store → K.has_failed desk.new ≡ true }
{
    match desk.view(alloc, &order.member, &order.key, &view_of(order), at) {
        Ok(reply) => print_shown(writer, &reply),
        Err(fault) => Err(fault_of_keep(fault)),
    }
}

pub fn print_shown<W: Write>(writer: &mut W, reply: &Reply) -> Result<Ending, Fault>
    ensures told { OnOk result
        (Appends (W.contents writer.old) (W.contents writer.new) (view_text reply.now)) }
    ensures front { OnErr result
        (AppendsFront (W.contents writer.old) (W.contents writer.new) (view_text reply.now)) }
    ensures ending { IfOk result (λ ending. ending ≡ ending_of reply.now) }
    ensures fault { IfErr result (λ fault. fault ≡ WriteFailed) }
{
    print_body(writer, reply)?;
    Ok(ending_of(reply))
}

fn print_body<W: Write>(writer: &mut W, reply: &Reply) -> Result<(), Fault>
    ensures told { OnOk result
        (Appends (W.contents writer.old) (W.contents writer.new) (view_text reply.now)) }
    ensures front { OnErr result
        (AppendsFront (W.contents writer.old) (W.contents writer.new) (view_text reply.now)) }
    ensures fault { IfErr result (λ fault. fault ≡ WriteFailed) }
{
    if reply.number == 0 {
        print_text(writer, reply.body.as_str())
    } else {
        print_line(writer, reply.body.as_str())
    }
}

pub fn view_of(order: &ViewOrder) -> View
    ensures { result ≡ view_of order.now }
{
    match order.kind {
        ViewKind::Export => View::Export(order.board),
        ViewKind::Listing => View::Listing(order.board),
        ViewKind::Todo => View::Todo(order.board),
    }
}
