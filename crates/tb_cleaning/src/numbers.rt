//! Numbers that are whole, though they are written with a fraction.

ghost use Rattle.std.specs.Prelude.{◌≡◌};
ghost use Rattle.serde_json.specs.View.{number_view};
ghost use Rattle.tb_cleaning.specs.Numbers.{all_zeros, are_zeros, if_same, if_zeros, is_exact, whole_in, whole_of, whole_on};
ghost use Rattle.tb_json.specs.Numbers.{with_digit as longer};

use serde_json::Number;
use std::num::{nearest_i64_to_f64, saturating_f64_to_i64};

/// 2^53: below it each whole number has a float of its own.
const LIMIT: i64 = 9_007_199_254_740_992;

/// The whole number that a number with a fraction or an exponent is.
pub(crate) fn whole_of(number: &Number) -> Option<i64>
    ensures { result ≡ whole_of (number_view number.now) }
{
    if !number.is_f64() {
        return None;
    }
    match number.as_f64() {
        Some(float) => if_same(float, saturating_f64_to_i64(float)),
        None => None,
    }
}

fn if_same(float: f64, whole: i64) -> Option<i64>
    ensures { result ≡ if_same float whole }
{
    if nearest_i64_to_f64(whole) == float && is_exact(whole) {
        Some(whole)
    } else {
        None
    }
}

fn is_exact(whole: i64) -> bool
    ensures { result ≡ is_exact whole }
{
    -LIMIT < whole && whole < LIMIT
}

fn with_digit(number: u32, byte: u8) -> Option<u32>
    ensures { result ≡ longer number byte }
{
    if !byte.is_ascii_digit() {
        return None;
    }
    number.checked_mul(10)?.checked_add(u32::from(byte - b'0'))
}

fn all_zeros(digits: &[u8]) -> bool
    ensures { result ≡ all_zeros digits.now }
{
    digits.iter().all(|digit| *digit == b'0')
}

fn are_zeros(fraction: &[u8]) -> bool
    ensures { result ≡ are_zeros fraction.now }
{
    match fraction.split_first() {
        Some((first, others)) => *first == b'0' && all_zeros(others),
        None => false,
    }
}

fn if_zeros(number: u32, fraction: &[u8]) -> Option<u32>
    ensures { result ≡ if_zeros number fraction.now }
{
    if are_zeros(fraction) {
        Some(number)
    } else {
        None
    }
}

/// The number with these digits after it, up to a point with zeros alone behind it.
fn whole_on(start: u32, digits: &[u8]) -> Option<u32>
    ensures { result ≡ whole_on start digits.now }
{
    let mut number = start;
    let mut rest = digits;
    while let Some((first, others)) = rest.split_first() {
        if *first == b'.' {
            return if_zeros(number, others);
        }
        number = with_digit(number, *first)?;
        rest = others;
    }
    None
}

/// The whole number that a text with a fraction is, such as `2.000000`.
pub(crate) fn whole_in(text: &[u8]) -> Option<u32>
    ensures { result ≡ whole_in text.now }
{
    let (first, others) = text.split_first()?;
    whole_on(with_digit(0, *first)?, others)
}
