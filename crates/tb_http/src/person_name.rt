//! The names of people in paths.
ghost use Rattle.std.specs.Prelude.{◌≡◌, IfOk};
ghost use Rattle.tb_board.specs.Names.{read_name};

use std::alloc::{AllocError, Global};
use std::marker::Model;
use tb_board::Name;

/// A part of a path that has the form of a name. A contract sees its bytes.
#[derive(Debug, Drop)]
pub struct PersonName<'a> {
    text: &'a str,
}

impl<'a> Model for PersonName<'a> {
    ghost use Rattle.std.specs.Prelude.{◌≡◌, ℕ, List, true};
    ghost use Rattle.tb_board.specs.Names.{is_name};

    ghost Value = { List ℕ };

    ghost view = { λ name. name.text.now };

    ghost invariant = { λ name. is_name name.text.now ≡ true };
}

impl<'a> PersonName<'a> {
    /// The name that a part of a path is, if it has the form of one.
    pub(crate) fn read(text: &'a str) -> Option<PersonName<'a>>
        ensures { result ≡ read_name text.now }
    {
        if Name::fits(text) {
            Some(PersonName { text })
        } else {
            None
        }
    }

    /// The name, owned.
    pub fn name(&self, alloc: Global) -> Result<Name, AllocError>
        ensures { IfOk result (λ name. name ≡ self.now) }
    {
        match Name::read(alloc, self.text)? {
            Some(name) => Ok(name),
            None => unreachable!(),
        }
    }
}
