ghost use Rattle.std.specs.Prelude.{◌≡◌, ◌==◌, ◌&&◌, true, ◌*◌, ◌/◌, ◌≤◌, length, slice_index, option_map};
ghost use Rattle.std.specs.Str.{IsAscii};
ghost use Rattle.tb_todotxt.specs.Day.{day_text, day_of, first_second, has_hyphens};

use std::marker::Model;
use tb_task::Moment;

const SECONDS: u64 = 86400;

const TEXT_LENGTH: usize = 10;

/// A date from 1970-01-01 to 9999-12-31. A contract sees the days since 1970.
#[derive(Clone, Copy, Debug, PartialEq, Eq)]
pub struct Day {
    number: u32,
}

impl Model for Day {
    ghost use Rattle.std.specs.Prelude.{ℕ, ◌≤◌};

    ghost Value = { ℕ };

    ghost view = { λ d. d.number };

    ghost invariant = { λ d. d.number ≤ 2932896 };

    ghost inverse = { λ number. record { number = number } };
}

impl Day {
    /// The day of a moment.
    pub fn of(moment: Moment) -> Day
        ensures { result ≡ moment / 86400 }
    {
        Day {
            number: (moment.seconds() / SECONDS) as u32,
        }
    }

    /// The first second of the day.
    pub fn start(self) -> Moment
        ensures { result ≡ self * 86400 }
    {
        match Moment::from_seconds(self.number as u64 * SECONDS) {
            Some(moment) => moment,
            None => unreachable!(),
        }
    }

    /// The day that ten bytes write, as `2026-01-31`.
    #[tactic(auto, unfolding(crate::specs::Day::day_of))]
    pub fn read(text: &str) -> Option<Day>
        ensures { result ≡ day_of text.now }
    {
        if !is_formed(text.as_bytes()) {
            return None;
        }
        let moment = Moment::read(&start_text(text.as_bytes()))?;
        Some(Day::of(moment))
    }

    /// The same ten bytes.
    pub fn write(self) -> [u8; 10]
        ensures text { result ≡ day_text self }
        ensures ascii { IsAscii result }
    {
        let digits = self.start().write();
        [
            digits[0], digits[1], digits[2], digits[3], b'-', digits[4], digits[5], b'-',
            digits[6], digits[7],
        ]
    }
}

/// Whether a text has ten bytes, with hyphens where they belong.
fn is_formed(text: &[u8]) -> bool
    ensures { result ≡ has_hyphens text.now }
{
    text.len() == TEXT_LENGTH && text[4] == b'-' && text[7] == b'-'
}

/// The text of the first second of a day.
fn start_text(text: &[u8]) -> [u8; 16]
    requires { has_hyphens text.now ≡ true }
    ensures { result ≡ first_second text.now }
{
    [
        text[0], text[1], text[2], text[3], text[5], text[6], text[8], text[9], b'T', b'0', b'0',
        b'0', b'0', b'0', b'0', b'Z',
    ]
}
