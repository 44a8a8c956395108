//! What is printed on standard output.
ghost use Rattle.std.specs.Prelude.{◌≡◌, ◌++◌, ◌∷◌, [], IfErr, OnErr, OnOk};
ghost use Rattle.std.specs.Io.KnownBytes.{Appends};
ghost use Rattle.tb_program.specs.declared.fault.Fault.TheVariants.{WriteFailed};
ghost use Rattle.tb_values.specs.Appends.{AppendsFront};

use crate::fault::Fault;
use std::io::Write;
use tb_values::write_whole;

/// Prints a text as it is. Where the writer fails, a front of the text is out.
pub fn print_text<W: Write>(writer: &mut W, text: &str) -> Result<(), Fault>
    ensures whole { OnOk result (Appends (W.contents writer.old) (W.contents writer.new) text.now) }
    ensures front { OnErr result
        (AppendsFront (W.contents writer.old) (W.contents writer.new) text.now) }
    ensures fault { IfErr result (λ fault. fault ≡ WriteFailed) }
{
    match write_whole(writer, text.as_bytes()) {
        Ok(()) => Ok(()),
        Err(_) => Err(Fault::WriteFailed),
    }
}

/// Prints a text and a line feed.
pub fn print_line<W: Write>(writer: &mut W, text: &str) -> Result<(), Fault>
    ensures whole { OnOk result
        (Appends (W.contents writer.old) (W.contents writer.new) (text.now ++ 10 ∷ [])) }
    ensures front { OnErr result
        (AppendsFront (W.contents writer.old) (W.contents writer.new) (text.now ++ 10 ∷ [])) }
    ensures fault { IfErr result (λ fault. fault ≡ WriteFailed) }
{
    match print_text(writer, text) {
        Ok(()) => print_text(writer, "\n"),
        Err(fault) => Err(fault),
    }
}
