//! What is told: a text of the program, or one that was made for it.
ghost use Rattle.std.specs.Io.KnownBytes.{Appends};
ghost use Rattle.std.specs.Prelude.{◌≡◌, ◌++◌, ◌∷◌, [], IfErr, OnErr, OnOk};
ghost use Rattle.tb_causes.specs.Told.{told_text};
ghost use Rattle.tb_program.specs.declared.fault.Fault.TheVariants.{WriteFailed};
ghost use Rattle.tb_values.specs.Appends.{AppendsFront};

use std::io::Write;
use tb_program::{Fault, print_line};
use tb_values::Text;

/// A line that is told, or more of them, the last without its line feed.
#[derive(Drop)]
pub(crate) enum Told {
    Fixed(&'static str),
    Made(Text),
}

impl Told {
    pub(crate) fn as_str(&self) -> &str
        ensures { result.now ≡ told_text self.now }
    {
        match self {
            Told::Fixed(text) => text,
            Told::Made(text) => text.as_str(),
        }
    }
}

/// Tells a text, on a line or more. Where the writer fails, a front of it is out.
pub(crate) fn tell<W: Write>(writer: &mut W, told: &Told) -> Result<(), Fault>
    ensures whole { OnOk result
        (Appends (W.contents writer.old) (W.contents writer.new) (told_text told.now ++ 10 ∷ [])) }
    ensures front { OnErr result (AppendsFront (W.contents writer.old) (W.contents writer.new)
        (told_text told.now ++ 10 ∷ [])) }
    ensures fault { IfErr result (λ fault. fault ≡ WriteFailed) }
{
    print_line(writer, told.as_str())
}
