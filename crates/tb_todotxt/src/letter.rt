ghost use Rattle.std.specs.Prelude.{◌≡◌, ◌≤◌, ◌<◌};
ghost use Rattle.tb_todotxt.specs.Letter.{letter_of, letter_for, IsLetter};

use std::marker::Model;
use tb_task::Priority;

/// The letter of a priority, from A to Z. A contract sees its code.
#[derive(Clone, Copy, Debug, PartialEq, Eq)]
pub struct Letter {
    code: u8,
}

impl Model for Letter {
    ghost use Rattle.std.specs.Prelude.{ℕ};
    ghost use Rattle.tb_todotxt.specs.Letter.{IsLetter};

    ghost Value = { ℕ };

    ghost view = { λ l. l.code };

    ghost invariant = { λ l. IsLetter l.code };

    ghost inverse = { λ code. record { code = code } };
}

impl Letter {
    /// The letter between round brackets.
    #[tactic(auto, unfolding(crate::specs::Letter::letter_of))]
    pub fn read(word: &str) -> Option<Letter>
        ensures { result ≡ letter_of word.now }
    {
        let bytes = word.as_bytes();
        if bytes.len() != 3 || bytes[0] != b'(' || bytes[2] != b')' {
            return None;
        }
        let code = bytes[1];
        if code < b'A' || code > b'Z' {
            return None;
        }
        Some(Letter { code })
    }

    /// The letter that stands for a task's priority.
    pub fn of(priority: Priority) -> Letter
        ensures { result ≡ letter_for priority }
    {
        let code = match priority {
            Priority::High => b'A',
            Priority::Medium => b'B',
            Priority::Low => b'C',
        };
        Letter { code }
    }

    /// The letter as a character of ASCII.
    pub fn code(self) -> u8
        ensures value { result ≡ self }
        ensures letter { IsLetter result }
    {
        self.code
    }
}
