//! Days and times by their names.
ghost use Rattle.std.specs.Char.{to_ascii_lowercase};
ghost use Rattle.std.specs.Prelude.{◌≡◌, ◌≤◌, ◌<◌, ◌+◌, ◌-◌, ◌*◌, IfOk, IfSome, Some, length, map, option_map, slice_index, string_bytes, take};
ghost use Rattle.tb_my.specs.Days.{IsNextWeekday, after_key, before_key, count_before, counted, day_before_time, day_by_name, day_in, day_named, end_of_week, minutes_in, moment_in, moment_named, moment_of, singular, stepped, timed, unsigned, until_weekday, weekday_named};
ghost use Rattle.tb_my.specs.Zone.{in_time};
ghost use Rattle.tb_todotxt.specs.Day.{day_of};

use crate::dates::{month_end, months_later, short_date};
use crate::digits::two_below;
use crate::zone::Clock;
use std::alloc::{AllocError, Global};
use tb_task::Moment;
use tb_todotxt::Day;
use tb_values::read_number;

const DAY: u64 = 86_400;

/// The longest step, in days, weeks or months.
const MOST_STEPS: u32 = 9_999;

/// How many bytes a time has, as `14:00`.
const TIME_LENGTH: usize = 5;

/// The moment that a word names: `now`, the first second in UTC of a day, or a time on it, as the clocks show it. Capitals don't count.
pub(crate) fn moment_named(
    alloc: Global,
    clock: &Clock,
    word: &str,
) -> Result<Option<Moment>, AllocError>
    ensures { IfOk result (λ moment. moment ≡ moment_named clock.now word.now) }
{
    let small = word.to_ascii_lowercase(alloc)?;
    Ok(moment_in(clock, small.as_str()))
}

fn moment_in(clock: &Clock, word: &str) -> Option<Moment>
    ensures { result ≡ moment_in clock.now word.now }
{
    if word == "now" {
        return Some(clock.moment);
    }
    match day_in(clock.today(), word) {
        Some(day) => first_second(day),
        None => timed(clock, word),
    }
}

/// The day that a word names, counted from 1970-01-01. Capitals don't count.
pub(crate) fn day_named(alloc: Global, clock: &Clock, word: &str) -> Result<Option<u64>, AllocError>
    ensures { IfOk result (λ day. day ≡ day_named clock.now word.now) }
{
    let small = word.to_ascii_lowercase(alloc)?;
    Ok(day_in(clock.today(), small.as_str()))
}

/// A day by its name, a weekday, which is the next one after today, so many days, weeks or months, or a date.
fn day_in(today: u64, word: &str) -> Option<u64>
    requires { today ≤ 100000000000 }
    ensures day { result ≡ day_in today word.now }
    ensures most { IfSome result (λ day. day ≤ 1000000000000) }
{
    if let Some(day) = day_by_name(today, word) {
        return Some(day);
    }
    if let Some(weekday) = weekday_named(word) {
        return Some(today + u64::from(until_weekday(today, weekday)));
    }
    if let Some(day) = stepped(today, word) {
        return Some(day);
    }
    match written_day(word) {
        Some(day) => Some(day),
        None => short_date(today, word.as_bytes()),
    }
}

#[tactic(auto, unfolding(crate::specs::Days::day_by_name))]
fn day_by_name(today: u64, word: &str) -> Option<u64>
    requires { today ≤ 100000000000 }
    ensures day { result ≡ day_by_name today word.now }
    ensures most { IfSome result (λ day. day ≤ 1000000000000) }
{
    match word {
        "today" | "eod" => Some(today),
        "tomorrow" => Some(today + 1),
        "yesterday" => Some(today.saturating_sub(1)),
        "eow" => Some(end_of_week(today)),
        "eom" => month_end(today),
        "next week" => Some(today + 7),
        "next month" => months_later(today, 1),
        _ => None,
    }
}

/// The Sunday of the week of a day.
fn end_of_week(today: u64) -> u64
    requires { today ≤ 100000000000 }
    ensures { result ≡ end_of_week today }
{
    today + 6 - (today + 3) % 7
}

fn written_day(word: &str) -> Option<u64>
    ensures day { result ≡ day_of word.now }
    ensures most { IfSome result (λ day. day ≤ 1000000000000) }
{
    match Day::read(word) {
        Some(day) => Some(day.start().seconds() / DAY),
        None => None,
    }
}

fn first_second(day: u64) -> Option<Moment>
    requires { day ≤ 1000000000000 }
    ensures { result ≡ in_time (day * 86400) }
{
    Moment::from_seconds(day * DAY)
}

/// A time, after a day and perhaps a `t`, or alone, which is today.
fn timed(clock: &Clock, word: &str) -> Option<Moment>
    ensures { result ≡ timed clock.now word.now }
{
    let bytes = word.as_bytes();
    if bytes.len() < TIME_LENGTH {
        return None;
    }
    let start = bytes.len() - TIME_LENGTH;
    if bytes[start] >= 128 {
        return None;
    }
    let day = day_before_time(clock.today(), front_of(word, start))?;
    let minutes = minutes_in(&bytes[start..])?;
    moment_of(clock, day, minutes)
}

/// What stands before a character of ASCII.
fn front_of(word: &str, start: usize) -> &str
    requires within { start < length word.now }
    requires ascii { slice_index word.now start < 128 }
    ensures { result.now ≡ take start word.now }
{
    &word[..start]
}

fn day_before_time(today: u64, front: &str) -> Option<u64>
    requires { today ≤ 100000000000 }
    ensures day { result ≡ day_before_time today front.now }
    ensures most { IfSome result (λ day. day ≤ 1000000000000) }
{
    if front.is_empty() {
        return Some(today);
    }
    if let Some(day) = day_in(today, front) {
        return Some(day);
    }
    day_in(today, before_key(front, "t")?)
}

/// The moment at which clocks show this minute of a day.
fn moment_of(clock: &Clock, day: u64, minutes: u64) -> Option<Moment>
    requires day { day ≤ 1000000000000 }
    requires minutes { minutes < 1440 }
    ensures { result ≡ moment_of clock.now (Some day) (Some minutes) }
{
    let second = Moment::from_seconds(day * DAY + minutes * 60)?;
    clock.moment_shown(second.seconds())
}

/// `14:00` as minutes.
fn minutes_in(time: &[u8]) -> Option<u64>
    ensures minutes { result ≡ minutes_in time.now }
    ensures most { IfSome result (λ minutes. minutes < 1440) }
{
    let [a, b, colon, c, d] = time else {
        return None;
    };
    if *colon != b':' {
        return None;
    }
    let hours = two_below(24, *a, *b)?;
    let minutes = two_below(60, *c, *d)?;
    Some(hours * 60 + minutes)
}

/// A weekday by its name: Monday is 0.
#[tactic(auto, unfolding(crate::specs::Days::weekday_named))]
fn weekday_named(word: &str) -> Option<u32>
    ensures value { result ≡ weekday_named word.now }
{
    match word {
        "monday" | "mon" => Some(0),
        "tuesday" | "tue" => Some(1),
        "wednesday" | "wed" => Some(2),
        "thursday" | "thu" => Some(3),
        "friday" | "fri" => Some(4),
        "saturday" | "sat" => Some(5),
        "sunday" | "sun" => Some(6),
        _ => None,
    }
}

/// How many days it is from a day to the next of a weekday, 7 where it is the same weekday.
fn until_weekday(day: u64, weekday: u32) -> u32
    requires { day ≤ 100000000000 }
    ensures days { result ≡ until_weekday day weekday }
    ensures most { result ≤ 7 }
{
    let today = (day + 3) % 7;
    ((u64::from(weekday) % 7 + 6 - today) % 7) as u32 + 1
}

/// A day of the weekday that is named comes within a week, and it isn't today.
pub fn weekdays_are_next()
    ensures { IsNextWeekday }
{}

/// So many days, as `3d`, weeks, as `2w`, or months, as `1mo`, after a `+`, an `in` or nothing.
fn stepped(today: u64, word: &str) -> Option<u64>
    requires { today ≤ 100000000000 }
    ensures day { result ≡ stepped today word.now }
    ensures most { IfSome result (λ day. day ≤ 1000000000000) }
{
    let word = unsigned(word);
    if let Some(days) = counted(word, "d", "day") {
        return Some(today + u64::from(days));
    }
    if let Some(weeks) = counted(word, "w", "week") {
        return Some(today + u64::from(weeks) * 7);
    }
    months_later(today, counted(word, "mo", "month")?)
}

/// The number before a unit, in short or in full.
fn counted(word: &str, short: &str, unit: &str) -> Option<u32>
    ensures value { result ≡ counted word.now short.now unit.now }
    ensures few { IfSome result (λ count. count ≤ 9999) }
{
    match count_before(singular(word), unit) {
        Some(count) => Some(count),
        None => count_before(word, short),
    }
}

fn count_before(word: &str, unit: &str) -> Option<u32>
    ensures value { result ≡ count_before word.now unit.now }
    ensures few { IfSome result (λ count. count ≤ 9999) }
{
    read_number(before_key(word, unit)?.trim(), MOST_STEPS)
}

/// A word without the `s` at its end.
fn singular(word: &str) -> &str
    ensures { result.now ≡ singular word.now }
{
    match before_key(word, "s") {
        Some(front) => front,
        None => word,
    }
}

fn unsigned(word: &str) -> &str
    ensures { result.now ≡ unsigned word.now }
{
    if let Some(rest) = after_key(word, "in ") {
        return rest;
    }
    match after_key(word, "+") {
        Some(rest) => rest,
        None => word,
    }
}

/// What follows a key at the front of a word.
pub fn after_key<'t>(word: &'t str, key: &str) -> Option<&'t str>
    ensures { option_map (λ rest. rest.now) result ≡ after_key key.now word.now }
{
    word.strip_prefix(key)
}

/// What stands before a key at the end of a word.
pub fn before_key<'t>(word: &'t str, key: &str) -> Option<&'t str>
    ensures { option_map (λ rest. rest.now) result ≡ before_key key.now word.now }
{
    word.strip_suffix(key)
}
