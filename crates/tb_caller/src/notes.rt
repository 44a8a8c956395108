//! What cleaning a text did, or would do.
ghost use Rattle.std.specs.Io.KnownBytes.{Appends};
ghost use Rattle.std.specs.Prelude.{◌≡◌, IfErr, IfOk};
ghost use Rattle.tb_caller.specs.Ending.{ending_if};
ghost use Rattle.tb_program.specs.declared.fault.Fault.TheVariants.{WriteFailed};
ghost use Rattle.tb_values.specs.Appends.{AppendsFront};

use std::io::Write;
use tb_cleaning::Cleaned;
use tb_orders::Ending;
use tb_program::{Fault, print_text};

/// Prints what cleaning did, or would do, and says whether all tasks can be taken.
pub fn tell_notes<W: Write>(cleaned: &Cleaned, writer: &mut W) -> Result<Ending, Fault>
    ensures told { IfOk result (λ ending. (ending ≡ ending_if cleaned.now.is_whole)
        × Appends (W.contents writer.old) (W.contents writer.new) cleaned.now.notes) }
    ensures cut { IfErr result (λ fault. (fault ≡ WriteFailed)
        × AppendsFront (W.contents writer.old) (W.contents writer.new) cleaned.now.notes) }
{
    print_text(writer, cleaned.notes.as_str())?;
    if cleaned.is_whole {
        Ok(Ending::Accepted)
    } else {
        Ok(Ending::Refused)
    }
}
