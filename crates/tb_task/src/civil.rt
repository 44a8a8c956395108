ghost use Rattle.std.specs.Prelude.{◌≡◌, ◌≤◌, ◌<◌, ℕ, pos, ◌≤ℤ◌, MatchOption};
ghost use Rattle.jiff_core.specs.Date.{epoch_day};
ghost use Rattle.tb_task.specs.Moment.{IsAt, IsDateOf};

use crate::moment::Moment;
use jiff_core::civil::Date;

const DAY: u64 = 86400;

/// A date and a time of day.
#[derive(Clone, Copy, Debug, PartialEq, Eq)]
pub struct Parts {
    pub year: u16,
    pub month: u8,
    pub day: u8,
    pub hour: u8,
    pub minute: u8,
    pub second: u8,
}

/// The moment with these parts, if they are a date and a time of day from 1970 on.
pub fn moment_in(parts: Parts) -> Option<Moment>
    requires year { parts.year < 10000 }
    requires month { parts.month < 100 }
    requires day { parts.day < 100 }
    ensures { MatchOption result ((m : ℕ) → m ≤ 253402300799 → IsAt parts m → ⊥) (IsAt parts) }
{
    let day = day_number(parts)?;
    if parts.hour > 23 || parts.minute > 59 || parts.second > 59 {
        return None;
    }
    let clock = parts.hour as u64 * 3600 + parts.minute as u64 * 60 + parts.second as u64;
    Moment::from_seconds(day as u64 * DAY + clock)
}

/// The day number of the date, if it is one of the calendar from 1970 on.
fn day_number(parts: Parts) -> Option<u32>
    requires year { parts.year < 10000 }
    requires month { parts.month < 100 }
    requires day { parts.day < 100 }
    ensures { MatchOption result ((n : ℕ) → IsDateOf parts n → ⊥)
        (λ n. IsDateOf parts n × (n ≤ 2932896)) }
{
    match Date::new(parts.year as i16, parts.month as i8, parts.day as i8) {
        Ok(date) => days_since_epoch(date),
        Err(_) => None,
    }
}

fn days_since_epoch(date: Date) -> Option<u32>
    ensures { MatchOption result ((n : ℕ) → epoch_day date ≡ pos n → ⊥)
        (λ n. (epoch_day date ≡ pos n) × (n ≤ 2932896)) }
{
    let day = date.to_unix_epoch_day();
    if day < 0 { None } else { Some(day as u32) }
}

/// The parts of a moment.
pub fn parts_of(moment: Moment) -> Parts
    ensures { IsAt result moment }
{
    let seconds = moment.seconds();
    let date = date_on((seconds / DAY) as u32);
    let clock = seconds % DAY;
    Parts {
        year: year_of(date),
        month: date.month,
        day: date.day,
        hour: (clock / 3600) as u8,
        minute: (clock % 3600 / 60) as u8,
        second: (clock % 60) as u8,
    }
}

fn date_on(day: u32) -> Date
    requires { day ≤ 2932896 }
    ensures { epoch_day result ≡ pos day }
{
    match Date::from_unix_epoch_day(day as i64) {
        Ok(date) => date,
        Err(_) => unreachable!(),
    }
}

/// The year of a date from 1970 on.
fn year_of(date: Date) -> u16
    requires { pos 0 ≤ℤ epoch_day date }
    ensures { pos result ≡ date.year }
{
    date.year.unsigned_abs()
}
