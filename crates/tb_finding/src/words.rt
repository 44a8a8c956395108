//! Days and times in words.
ghost use Rattle.std.specs.Prelude.{◌≡◌, ◌≤◌, ◌<◌, ◌+◌, ◌++◌, OnOk, string_bytes};
ghost use Rattle.tb_finding.specs.Words.{date_word, day_word, moment_word, time_word, weekday_word};
ghost use Rattle.tb_task.specs.MomentText.{two};
ghost use Rattle.tb_todotxt.specs.Day.{day_text};

use std::alloc::AllocError;
use std::str;
use tb_my::Clock;
use tb_task::Moment;
use tb_todotxt::Day;

const DAY: u64 = 86_400;

/// Puts a moment at the end: its day, and the time on it where one is said.
pub(crate) fn push_moment(
    text: &mut String,
    clock: &Clock,
    moment: Moment,
) -> Result<(), AllocError>
    ensures { OnOk result (string_bytes text.new
        ≡ string_bytes text.old ++ moment_word clock.now moment) }
{
    push_day(text, clock.today(), clock.day_at(moment))?;
    if clock.is_timed(moment) {
        text.push(' ')?;
        push_time(text, clock.minute_at(moment))?;
    }
    Ok(())
}

/// Puts a day at the end, by its name where it is near.
fn push_day(text: &mut String, today: u64, day: u64) -> Result<(), AllocError>
    requires today { today ≤ 100000000000 }
    requires day { day ≤ 100000000000 }
    ensures { OnOk result (string_bytes text.new ≡ string_bytes text.old ++ day_word today day) }
{
    if day == today {
        return text.push_str("today");
    }
    if day == today + 1 {
        return text.push_str("tomorrow");
    }
    if day + 1 == today {
        return text.push_str("yesterday");
    }
    if today < day && day < today + 7 {
        return text.push_str(weekday_word((day + 3) % 7));
    }
    push_date(text, day)
}

/// The first letters of a weekday: Monday is 0.
fn weekday_word(weekday: u64) -> &'static str
    ensures { result.now ≡ weekday_word weekday }
{
    match weekday {
        0 => "mon",
        1 => "tue",
        2 => "wed",
        3 => "thu",
        4 => "fri",
        5 => "sat",
        _ => "sun",
    }
}

/// Puts a day at the end, as `2026-12-01`: nothing after the year 9999.
fn push_date(text: &mut String, day: u64) -> Result<(), AllocError>
    requires { day ≤ 100000000000 }
    ensures { OnOk result (string_bytes text.new ≡ string_bytes text.old ++ date_word day) }
{
    match Moment::from_seconds(day * DAY) {
        Some(moment) => push_written(text, Day::of(moment)),
        None => Ok(()),
    }
}

fn push_written(text: &mut String, day: Day) -> Result<(), AllocError>
    ensures { OnOk result (string_bytes text.new ≡ string_bytes text.old ++ day_text day) }
{
    match str::from_utf8(&day.write()) {
        Ok(written) => text.push_str(written),
        Err(_) => unreachable!(),
    }
}

/// Puts a time at the end, as `14:00`.
fn push_time(text: &mut String, minute: u64) -> Result<(), AllocError>
    requires { minute < 1440 }
    ensures { OnOk result (string_bytes text.new ≡ string_bytes text.old ++ time_word minute) }
{
    push_two(text, minute / 60)?;
    text.push(':')?;
    push_two(text, minute % 60)
}

fn push_two(text: &mut String, number: u64) -> Result<(), AllocError>
    requires { number < 100 }
    ensures { OnOk result (string_bytes text.new ≡ string_bytes text.old ++ two number) }
{
    text.push(digit(number / 10))?;
    text.push(digit(number % 10))
}

fn digit(number: u64) -> char
    requires { number < 10 }
    ensures digit { result ≡ 48 + number }
    ensures ascii { result < 128 }
{
    (b'0' + number as u8) as char
}
