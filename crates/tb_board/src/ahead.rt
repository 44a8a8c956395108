ghost use Rattle.std.specs.Prelude.{◌≡◌, true};
ghost use Rattle.tb_board.specs.Ahead.{is_ahead, read_ahead};

use std::marker::Model;

const MOST_AHEAD: u64 = 12;

/// How many instances ahead a board looks: a number from 1 to 12. A contract sees the number.
#[derive(Clone, Copy, Debug, PartialEq, Eq)]
pub struct Ahead {
    number: u8,
}

impl Model for Ahead {
    ghost use Rattle.std.specs.Prelude.{◌≡◌, ℕ, true};
    ghost use Rattle.tb_board.specs.Ahead.{is_ahead};

    ghost Value = { ℕ };

    ghost view = { λ ahead. ahead.number };

    ghost invariant = { λ ahead. is_ahead ahead.number ≡ true };

    ghost inverse = { λ number. record { number = number } };
}

impl Ahead {
    /// What a board begins with: an instance is wanted when the one before it is due.
    pub fn one() -> Ahead
        ensures { result ≡ 1 }
    {
        Ahead { number: 1 }
    }

    /// The number, if a board can look so many ahead.
    pub fn read(number: u64) -> Option<Ahead>
        ensures { result ≡ read_ahead number }
    {
        if number < 1 || number > MOST_AHEAD {
            return None;
        }
        Some(Ahead {
            number: number as u8,
        })
    }

    pub fn number(self) -> u8
        ensures value { result ≡ self }
        ensures ahead { is_ahead result ≡ true }
    {
        self.number
    }
}
