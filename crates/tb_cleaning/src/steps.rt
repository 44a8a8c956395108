//! Taskwarrior's names of steps, and the steps of a board that mean the same.

ghost use Rattle.std.specs.Prelude.{◌≡◌, ◌≤◌, IfOk, IfSome, option_map};
ghost use Rattle.std.specs.Str.{bytes_eq};
ghost use Rattle.tb_cleaning.specs.Steps.{after_digits, after_spaces, if_step, is_day, is_fortnight, is_month, is_quarter, is_two_years, is_week, is_year, respelled, short_of, times_of, times_on, unit_of, with_digit, word_of};
ghost use Rattle.tb_task.specs.Step.{is_digit};

use std::alloc::{AllocError, Global};
use tb_task::Step;
use tb_values::Text;

/// The step of a board that means the same as a text that is none.
pub(crate) fn respelled(alloc: Global, text: &str) -> Result<Option<Text>, AllocError>
    ensures { IfOk result (λ step. step ≡ respelled text.now) }
{
    if Step::read(text).is_some() {
        return Ok(None);
    }
    match short_of(alloc, text.as_bytes())? {
        Some(short) => if_step(alloc, word_of(short.as_str())),
        None => Ok(None),
    }
}

fn if_step(alloc: Global, word: &str) -> Result<Option<Text>, AllocError>
    ensures { IfOk result (λ step. step ≡ if_step word.now) }
{
    if Step::read(word).is_none() {
        return Ok(None);
    }
    Ok(Some(Text::from_str(alloc, word)?))
}

/// The word for a step, where there is one.
#[tactic(auto, unfolding(crate::specs::Steps::word_of))]
fn word_of(short: &str) -> &str
    ensures { result.now ≡ word_of short.now }
{
    match short {
        "1d" => "daily",
        "7d" => "weekly",
        "14d" => "biweekly",
        "1mo" => "monthly",
        "3mo" => "quarterly",
        "6mo" => "semiannual",
        "1y" => "yearly",
        _ => short,
    }
}

/// A number and the letters of a board, of a number and a unit's name.
fn short_of(alloc: Global, text: &[u8]) -> Result<Option<Text>, AllocError>
    ensures { IfOk result (λ short. short ≡ short_of text.now) }
{
    let name = after_spaces(after_digits(text));
    let Some((count, letters)) = unit_of(name) else {
        return Ok(None);
    };
    let number = count * times_of(text);
    let mut short = String::new(alloc);
    write!(short, "{number}{letters}")?;
    Ok(Some(Text::from_string(short)))
}

fn after_digits(text: &[u8]) -> &[u8]
    ensures { result.now ≡ after_digits text.now }
{
    let mut rest = text;
    while let Some((first, others)) = rest.split_first() {
        if !is_digit(*first) {
            return rest;
        }
        rest = others;
    }
    rest
}

fn after_spaces(text: &[u8]) -> &[u8]
    ensures { result.now ≡ after_spaces text.now }
{
    let mut rest = text;
    while let Some((first, others)) = rest.split_first() {
        if *first != b' ' {
            return rest;
        }
        rest = others;
    }
    rest
}

fn is_digit(byte: u8) -> bool
    ensures { result ≡ is_digit byte }
{
    b'0' <= byte && byte <= b'9'
}

/// The number of the digits at the front, 1,000 at most, and without digits 1.
fn times_of(text: &[u8]) -> u32
    ensures value { result ≡ times_of text.now }
    ensures limit { result ≤ 1000 }
{
    match text.first() {
        Some(first) if is_digit(*first) => times_on(text),
        _ => 1,
    }
}

fn times_on(text: &[u8]) -> u32
    ensures value { result ≡ times_on 0 text.now }
    ensures limit { result ≤ 1000 }
{
    let mut times = 0;
    for byte in text {
        if !is_digit(*byte) {
            return times;
        }
        times = with_digit(times, *byte);
    }
    times
}

fn with_digit(number: u32, byte: u8) -> u32
    requires limit { number ≤ 1000 }
    requires digit { 48 ≤ byte }
    ensures value { result ≡ with_digit number byte }
    ensures limit { result ≤ 1000 }
{
    let longer = number * 10 + u32::from(byte - b'0');
    longer.min(1000)
}

/// A unit, as so many of a board's letters.
#[tactic(auto, unfolding(crate::specs::Steps::unit_of))]
fn unit_of(name: &[u8]) -> Option<(u32, &'static str)>
    ensures value { option_map (λ unit. (unit.0, unit.1.now)) result ≡ unit_of name.now }
    ensures limit { IfSome result (λ unit. unit.0 ≤ 14) }
{
    if is_day(name) {
        Some((1, "d"))
    } else if is_week(name) {
        Some((7, "d"))
    } else if is_fortnight(name) {
        Some((14, "d"))
    } else if is_month(name) {
        Some((1, "mo"))
    } else if is(name, "bimonthly") {
        Some((2, "mo"))
    } else if is_quarter(name) {
        Some((3, "mo"))
    } else if is(name, "semiannual") {
        Some((6, "mo"))
    } else if is_year(name) {
        Some((1, "y"))
    } else if is_two_years(name) {
        Some((2, "y"))
    } else {
        None
    }
}

fn is(name: &[u8], word: &str) -> bool
    ensures { result ≡ bytes_eq name.now word.now }
{
    name == word.as_bytes()
}

#[tactic(auto, unfolding(crate::specs::Steps::is_day))]
fn is_day(name: &[u8]) -> bool
    ensures { result ≡ is_day name.now }
{
    is(name, "d") || is(name, "day") || is(name, "days") || is(name, "daily")
}

#[tactic(auto, unfolding(crate::specs::Steps::is_week))]
fn is_week(name: &[u8]) -> bool
    ensures { result ≡ is_week name.now }
{
    is(name, "w")
        || is(name, "wk")
        || is(name, "wks")
        || is(name, "week")
        || is(name, "weeks")
        || is(name, "weekly")
}

#[tactic(auto, unfolding(crate::specs::Steps::is_fortnight))]
fn is_fortnight(name: &[u8]) -> bool
    ensures { result ≡ is_fortnight name.now }
{
    is(name, "fortnight") || is(name, "sennight") || is(name, "biweekly")
}

#[tactic(auto, unfolding(crate::specs::Steps::is_month))]
fn is_month(name: &[u8]) -> bool
    ensures { result ≡ is_month name.now }
{
    is(name, "m")
        || is(name, "mo")
        || is(name, "mos")
        || is(name, "mth")
        || is(name, "mths")
        || is(name, "mnths")
        || is(name, "month")
        || is(name, "months")
        || is(name, "monthly")
}

#[tactic(auto, unfolding(crate::specs::Steps::is_quarter))]
fn is_quarter(name: &[u8]) -> bool
    ensures { result ≡ is_quarter name.now }
{
    is(name, "q")
        || is(name, "qtr")
        || is(name, "qtrs")
        || is(name, "qrtr")
        || is(name, "qrtrs")
        || is(name, "quarter")
        || is(name, "quarters")
        || is(name, "quarterly")
}

#[tactic(auto, unfolding(crate::specs::Steps::is_year))]
fn is_year(name: &[u8]) -> bool
    ensures { result ≡ is_year name.now }
{
    is(name, "y")
        || is(name, "yr")
        || is(name, "yrs")
        || is(name, "year")
        || is(name, "years")
        || is(name, "annual")
        || is(name, "yearly")
}

#[tactic(auto, unfolding(crate::specs::Steps::is_two_years))]
fn is_two_years(name: &[u8]) -> bool
    ensures { result ≡ is_two_years name.now }
{
    is(name, "biannual") || is(name, "biyearly")
}
