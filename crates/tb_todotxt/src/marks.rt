//! The marks at the front of a line.
ghost use Rattle.std.specs.Prelude.{◌≡◌, true, false, is_some, MatchOption};
ghost use Rattle.tb_todotxt.specs.Day.{day_of};
ghost use Rattle.tb_todotxt.specs.Letter.{letter_of};
ghost use Rattle.tb_todotxt.specs.Line.{is_blank as blank};
ghost use Rattle.tb_todotxt.specs.Reading.{first_word as word_of, after_word, has_more, mark_of, past, is_done, dates_of};

use crate::day::Day;
use crate::letter::Letter;

/// Whether the text has spaces and tabs alone.
pub(crate) fn is_blank(text: &str) -> bool
    ensures { result ≡ blank text.now }
{
    for byte in text.as_bytes() {
        if *byte != b' ' && *byte != b'\t' {
            return false;
        }
    }
    true
}

/// The text up to the first space, and what comes after it, where that isn't blank.
fn first_word(text: &str) -> Option<(&str, &str)>
    ensures { MatchOption result (has_more text.now ≡ false)
        (λ parts. (has_more text.now ≡ true) × (parts.0.now ≡ word_of text.now)
        × (parts.1.now ≡ after_word text.now)) }
{
    let (word, rest) = text.split_once(' ')?;
    if is_blank(rest) {
        return None;
    }
    Some((word, rest))
}

/// Whether the line is done, and what follows the mark.
pub(crate) fn take_done(text: &str) -> (bool, &str)
    ensures done { result.0 ≡ is_done text.now }
    ensures rest { result.1.now ≡ past result.0 text.now }
{
    match first_word(text) {
        Some((word, rest)) if word == "x" => (true, rest),
        _ => (false, text),
    }
}

/// The letter of the priority, and what follows the mark.
pub(crate) fn take_priority(text: &str) -> (Option<Letter>, &str)
    ensures letter { result.0 ≡ mark_of letter_of text.now }
    ensures rest { result.1.now ≡ past (is_some result.0) text.now }
{
    let Some((word, rest)) = first_word(text) else {
        return (None, text);
    };
    match Letter::read(word) {
        Some(letter) => (Some(letter), rest),
        None => (None, text),
    }
}

/// The day of a date, and what follows the mark.
fn take_date(text: &str) -> (Option<Day>, &str)
    ensures day { result.0 ≡ mark_of day_of text.now }
    ensures rest { result.1.now ≡ past (is_some result.0) text.now }
{
    let Some((word, rest)) = first_word(text) else {
        return (None, text);
    };
    match Day::read(word) {
        Some(day) => (Some(day), rest),
        None => (None, text),
    }
}

/// The days of the completion and of the creation, and what follows them.
pub(crate) fn take_dates(done: bool, text: &str) -> (Option<Day>, Option<Day>, &str)
    ensures completion { result.0 ≡ (dates_of done text.now).completion }
    ensures creation { result.1 ≡ (dates_of done text.now).creation }
    ensures body { result.2.now ≡ (dates_of done text.now).body }
{
    let (first, rest) = take_date(text);
    if !done {
        return (None, first, rest);
    }
    if first.is_none() {
        return (None, None, rest);
    }
    let (second, rest) = take_date(rest);
    (first, second, rest)
}
