ghost use Rattle.std.specs.Prelude.{◌≡◌, ◌≤◌, ◌<◌, ◌-◌, ◌/◌, ◌^◌, pos, ◌≤ℤ◌, MatchOption};
ghost use Rattle.jiff_core.specs.Date.{epoch_day};
ghost use Rattle.tb_task.specs.Civil.{date_of, day_number};
ghost use Rattle.tb_recur.specs.Months.{IsClamped, months_later};

use jiff_core::civil::Date;
use tb_task::{Moment, parts_of};

/// December of 9999, counted from January of the year 0.
const LAST_MONTH: u64 = 119999;

/// The number of the day so many months after a moment's, or `None` where its month is past the year 9999.
pub(crate) fn months_after(start: Moment, months: u64) -> Option<u64>
    requires { months < 2 ^ 64 - 2 ^ 32 }
    ensures { MatchOption result
        (2932896 < day_number (months_later (date_of (start / 86400)) months))
        (λ day. day ≡ day_number (months_later (date_of (start / 86400)) months)) }
{
    let parts = parts_of(start);
    let later = parts.year as u64 * 12 + (parts.month as u64 - 1) + months;
    if later > LAST_MONTH {
        return None;
    }
    Some(day_of(clamped_date(later as u32, parts.day)))
}

/// The date so many months after January of the year 0, on that day of the month or on its last.
fn clamped_date(months: u32, day: u8) -> Date
    requires months { months < 120000 }
    requires day { 1 ≤ day }
    ensures { IsClamped months day result }
{
    Date::constrain((months / 12) as i16, (months % 12 + 1) as u8, day)
}

fn day_of(date: Date) -> u64
    requires { pos 0 ≤ℤ epoch_day date }
    ensures { pos result ≡ epoch_day date }
{
    date.to_unix_epoch_day().unsigned_abs() as u64
}
