//! Dates of the calendar, counted from 1970-01-01.
ghost use Rattle.std.specs.Prelude.{◌≡◌, ◌≤◌, ◌<◌, ◌+◌, IfSome, length};
ghost use Rattle.std.specs.Str.{IsAscii};
ghost use Rattle.tb_my.specs.Dates.{date_bytes, date_text, day_from, day_in_month, digit_char, digit_in, last_of_month, month_end, months_later, next_such, number_at, read_date, short_date, year_at};

use crate::digits::two_digits;
use std::str;
use tb_task::Moment;
use tb_todotxt::Day;

const DAY: u64 = 86_400;

const LAST_YEAR: u64 = 9_999;

/// The last day of the month of a day.
pub(crate) fn month_end(today: u64) -> Option<u64>
    requires { today ≤ 100000000000 }
    ensures day { result ≡ month_end today }
    ensures most { IfSome result (λ day. day ≤ 1000000000000) }
{
    let text = date_text(today)?;
    last_of_month(year_at(&text), number_at(&text, 5))
}

/// The same day so many months later, or the last of that month.
pub(crate) fn months_later(today: u64, months: u32) -> Option<u64>
    requires today { today ≤ 100000000000 }
    requires months { months ≤ 9999 }
    ensures day { result ≡ months_later today months }
    ensures most { IfSome result (λ day. day ≤ 1000000000000) }
{
    let text = date_text(today)?;
    let month = number_at(&text, 5).saturating_sub(1) + u64::from(months);
    let year = year_at(&text) + month / 12;
    day_in_month(year, month % 12 + 1, number_at(&text, 8))
}

/// The next such date from a day on, of `12-24` or `24.12.`.
pub(crate) fn short_date(today: u64, word: &[u8]) -> Option<u64>
    requires { today ≤ 100000000000 }
    ensures day { result ≡ short_date today word.now }
    ensures most { IfSome result (λ day. day ≤ 1000000000000) }
{
    match word {
        [a, b, mark, c, d] if *mark == b'-' => {
            next_such(today, two_digits(*a, *b)?, two_digits(*c, *d)?)
        }
        [a, b, mark, c, d, end] if *mark == b'.' && *end == b'.' => {
            next_such(today, two_digits(*c, *d)?, two_digits(*a, *b)?)
        }
        _ => None,
    }
}

/// The day of this month and number in the year of a day, or in the next one if that is over.
fn next_such(today: u64, month: u64, day: u64) -> Option<u64>
    requires { today ≤ 100000000000 }
    ensures day { result ≡ next_such today month day }
    ensures most { IfSome result (λ day. day ≤ 1000000000000) }
{
    let year = year_at(&date_text(today)?);
    if let Some(found) = read_date(year, month, day) {
        if today <= found {
            return Some(found);
        }
    }
    read_date(year + 1, month, day)
}

/// A day of a month, or the last one where the month is shorter.
fn day_in_month(year: u64, month: u64, day: u64) -> Option<u64>
    ensures day { result ≡ day_in_month year month day }
    ensures most { IfSome result (λ day. day ≤ 1000000000000) }
{
    match read_date(year, month, day) {
        Some(found) => Some(found),
        None => last_of_month(year, month),
    }
}

fn last_of_month(year: u64, month: u64) -> Option<u64>
    ensures day { result ≡ last_of_month year month }
    ensures most { IfSome result (λ day. day ≤ 1000000000000) }
{
    if let Some(found) = read_date(year, month, 31) {
        return Some(found);
    }
    if let Some(found) = read_date(year, month, 30) {
        return Some(found);
    }
    if let Some(found) = read_date(year, month, 29) {
        return Some(found);
    }
    read_date(year, month, 28)
}

/// The date of a day, as `2026-12-01`.
fn date_text(day: u64) -> Option<[u8; 10]>
    requires { day ≤ 100000000000 }
    ensures { result ≡ date_text day }
{
    let moment = Moment::from_seconds(day * DAY)?;
    Some(Day::of(moment).write())
}

fn year_at(text: &[u8; 10]) -> u64
    ensures year { result ≡ year_at text.now }
    ensures most { result ≤ 300000 }
{
    number_at(text, 0) * 100 + number_at(text, 2)
}

/// The number of the two digits at a place.
fn number_at(text: &[u8; 10], place: usize) -> u64
    requires { place < 9 }
    ensures number { result ≡ number_at text.now place }
    ensures most { result ≤ 2900 }
{
    digit_in(text[place]) * 10 + digit_in(text[place + 1])
}

fn digit_in(byte: u8) -> u64
    ensures digit { result ≡ digit_in byte }
    ensures most { result ≤ 255 }
{
    u64::from(byte.saturating_sub(b'0'))
}

/// The day with these parts, if the calendar has it.
fn read_date(year: u64, month: u64, day: u64) -> Option<u64>
    ensures day { result ≡ read_date year month day }
    ensures most { IfSome result (λ day. day ≤ 1000000000000) }
{
    if year > LAST_YEAR {
        return None;
    }
    match str::from_utf8(&date_bytes(year, month, day)) {
        Ok(text) => Some(Day::read(text)?.start().seconds() / DAY),
        Err(_) => unreachable!(),
    }
}

fn date_bytes(year: u64, month: u64, day: u64) -> [u8; 10]
    ensures bytes { result ≡ date_bytes year month day }
    ensures ascii { IsAscii result }
{
    [
        digit_char(year / 1000),
        digit_char(year / 100),
        digit_char(year / 10),
        digit_char(year),
        b'-',
        digit_char(month / 10),
        digit_char(month),
        b'-',
        digit_char(day / 10),
        digit_char(day),
    ]
}

/// The last digit of a number.
fn digit_char(number: u64) -> u8
    ensures digit { result ≡ digit_char number }
    ensures ascii { result < 128 }
{
    b'0' + (number % 10) as u8
}
