//! How the program ends.
ghost use Rattle.std.specs.Prelude.{◌≡◌, IfErr, OnErr, OnOk};
ghost use Rattle.std.specs.Io.KnownBytes.{Appends};
ghost use Rattle.tb_orders.specs.Status.{fault_line, status_at};
ghost use Rattle.tb_program.specs.declared.fault.Fault.TheVariants.{WriteFailed};
ghost use Rattle.tb_values.specs.Appends.{AppendsFront};

use crate::ending::Ending;
use std::io::Write;
use tb_program::{Fault, print_line, print_text};

/// 0 where the order was accepted, 2 where the words are no order, and else 1.
pub fn status_of(end: Result<Ending, Fault>) -> u8
    ensures { result ≡ status_at end }
{
    match end {
        Ok(Ending::Accepted) => 0,
        Ok(Ending::Refused) => 1,
        Err(fault) => fault.status(),
    }
}

/// Tells a fault by its name, on a line after the program's.
pub fn print_fault<W: Write>(fault: Fault, writer: &mut W) -> Result<(), Fault>
    ensures whole { OnOk result
        (Appends (W.contents writer.old) (W.contents writer.new) (fault_line fault)) }
    ensures front { OnErr result
        (AppendsFront (W.contents writer.old) (W.contents writer.new) (fault_line fault)) }
    ensures fault { IfErr result (λ fault. fault ≡ WriteFailed) }
{
    match print_text(writer, "taskboard: ") {
        Ok(()) => print_line(writer, fault.name()),
        Err(fault) => Err(fault),
    }
}
