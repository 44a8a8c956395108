ghost use Rattle.std.specs.Prelude.{◌≡◌, true};
ghost use Rattle.tb_task.specs.Mask.{is_mark, mark_in};
ghost use Rattle.tb_task.specs.Status.{mark_of};

use crate::status::{Status, char_of};
use std::alloc::AllocError;
use std::marker::Model;
use tb_values::{Duplicate, Same};

/// A character of a mask: `-` for a pending instance, `W` for a waiting, `+` for a completed and `X` for a deleted one, and `?`
/// where an imported mask doesn't tell. A contract sees the character.
#[derive(Clone, Copy, Debug, PartialEq, Eq)]
pub struct Mark {
    byte: u8,
}

impl Model for Mark {
    ghost use Rattle.std.specs.Prelude.{◌≡◌, ℕ, true};
    ghost use Rattle.tb_task.specs.Mask.{is_mark};

    ghost Value = { ℕ };

    ghost view = { λ m. m.byte };

    ghost invariant = { λ m. is_mark m.byte ≡ true };

    ghost inverse = { λ byte. record { byte = byte } };
}

impl Mark {
    /// The mark of an instance of that status. A recurring task is no instance.
    pub fn of(status: Status) -> Option<Mark>
        ensures { result ≡ mark_of status }
    {
        let byte = char_of(status)?;
        Mark::read(byte)
    }

    /// The mark that is this character.
    pub fn read(byte: u8) -> Option<Mark>
        ensures { result ≡ mark_in byte }
    {
        if is_known(byte) {
            Some(Mark { byte })
        } else {
            None
        }
    }

    /// The character.
    pub fn byte(self) -> u8
        ensures value { result ≡ self }
        ensures known { is_mark result ≡ true }
    {
        self.byte
    }
}

#[tactic(auto, unfolding(crate::specs::Mask::is_mark))]
pub(crate) fn is_known(byte: u8) -> bool
    ensures { result ≡ is_mark byte }
{
    byte == b'-' || byte == b'+' || byte == b'X' || byte == b'W' || byte == b'?'
}

impl Duplicate for Mark {
    fn duplicate(&self) -> Result<Mark, AllocError> {
        Ok(*self)
    }
}

impl Same for Mark {
    fn same(&self, other: &Mark) -> bool {
        *self == *other
    }
}
