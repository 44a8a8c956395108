ghost use Rattle.std.specs.Prelude.{◌≡◌};
ghost use Rattle.tb_todotxt.specs.Line.{IsLine};

use crate::day::Day;
use crate::letter::Letter;
use std::marker::Model;
use tb_values::Text;

/// What a line says.
#[derive(Drop)]
pub struct LineParts {
    pub done: bool,
    pub priority: Option<Letter>,
    /// Where the line is done, the day of its first date.
    pub completion: Option<Day>,
    pub creation: Option<Day>,
    pub body: Text,
}

/// A line of a todo.txt file, without its line feed. Its parts are those that its spelling is read as, so it has one spelling.
#[derive(Drop)]
pub struct Line {
    parts: LineParts,
}

impl Model for Line {
    ghost use Rattle.tb_todotxt.specs.declared.line.LineParts.{LineParts};
    ghost use Rattle.tb_todotxt.specs.Line.{IsLine};

    ghost Value = { LineParts };

    ghost view = { λ l. l.parts };

    ghost invariant = { λ l. IsLine l.parts };
}

impl Line {
    /// The line of these parts, which are those that their spelling is read as.
    pub(crate) fn from_parts(parts: LineParts) -> Line
        requires { IsLine parts }
        ensures { result ≡ parts }
    {
        Line { parts }
    }

    /// What the line says.
    pub fn parts(&self) -> &LineParts
        ensures parts { result.now ≡ self.now }
        ensures line { IsLine self.now }
    {
        &self.parts
    }
}
