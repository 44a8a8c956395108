//! Calls and views that are sent to a server.
ghost use Rattle.std.specs.Prelude.{◌≡◌, IfErr, IfOk, true};
ghost use Rattle.tb_caller.specs.Sent.{IsSentOver, IsUnsentOver};
ghost use Rattle.tb_sending.specs.Faults.{is_of_sending};

use std::io::Write;
use tb_client::Line;
use tb_command_line::SendOrder;
use tb_orders::{Ending, MachineChance};
use tb_program::Fault;
use tb_sending::{MachineDial, ServerLine, send_order};

/// Sends a call or a view until it is answered, over connections that the machine makes.
pub fn send<W: Write>(
    rt: &HostRuntime,
    order: &mut SendOrder,
    writer: &mut W,
) -> Result<Ending, Fault>
    ensures sent { IfOk result
        (IsSentOver ⟦<ServerLine<MachineDial<'static>> as Line>⟧.follows W.contents
        order.old writer.old writer.new) }
    ensures unsent { IfErr result
        (IsUnsentOver ⟦<ServerLine<MachineDial<'static>> as Line>⟧.follows W.contents
        order.old writer.old writer.new) }
    ensures fault { IfErr result (λ fault. is_of_sending fault ≡ true) }
{
    let dial = MachineDial::new(rt);
    send_order(rt, order, dial, &mut MachineChance::new(rt), writer)
}
