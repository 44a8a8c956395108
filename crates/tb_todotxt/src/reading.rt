//! A text as a line, and a line as a text.
ghost use Rattle.std.specs.Prelude.{◌≡◌, ◌++◌, [], true, false, IfOk, OnOk, IfSome, string_bytes, MatchResult};
ghost use Rattle.tb_todotxt.specs.declared.fault.LineFault.TheVariants.{Memory};
ghost use Rattle.tb_todotxt.specs.declared.line.LineParts.{LineParts as Parts};
ghost use Rattle.tb_todotxt.specs.Day.{day_text};
ghost use Rattle.tb_todotxt.specs.Line.{spell, IsLine, with_priority, with_date, is_free_of, is_blank as blank, AreSpelledOnce};
ghost use Rattle.tb_todotxt.specs.Reading.{line_of, read_of, Reads, AreRead, AreSpelled};

use crate::day::Day;
use crate::fault::LineFault;
use crate::letter::Letter;
use crate::line::{Line, LineParts};
use crate::marks::{is_blank, take_dates, take_done, take_priority};
use std::alloc::{AllocError, Global};
use std::str;
use tb_values::Text;

/// What a text that isn't blank says.
#[tactic(auto, unfolding(crate::specs::Reading::line_of))]
fn read_parts(alloc: Global, text: &str) -> Result<LineParts, AllocError>
    ensures { IfOk result (λ parts. parts ≡ line_of text.now) }
{
    let (done, rest) = take_done(text);
    let (priority, rest) = take_priority(rest);
    let (completion, creation, rest) = take_dates(done, rest);
    let body = Text::from_str(alloc, rest)?;
    Ok(LineParts {
        done,
        priority,
        completion,
        creation,
        body,
    })
}

/// The line that a text spells that isn't blank.
pub(crate) fn parse_line(alloc: Global, text: &str) -> Result<Line, AllocError>
    requires full { blank text.now ≡ false }
    requires one_line { is_free_of 10 text.now ≡ true }
    ensures { IfOk result (λ line. line ≡ line_of text.now) }
{
    let parts = read_parts(alloc, text)?;
    Ok(Line::from_parts(parts))
}

/// The line that is spelled so.
pub fn read_line(alloc: Global, text: &str) -> Result<Line, LineFault>
    requires { is_free_of 10 text.now ≡ true }
    ensures read { Reads result (read_of text.now) }
    // What is read is spelled so.
    ensures spelled { IfOk result (λ line. text.now ≡ spell line) }
    // What is spelled so is read, unless memory runs out.
    ensures only { (line : Parts) → IsLine line → text.now ≡ spell line
        → MatchResult result (λ read. read ≡ line) (λ fault. fault ≡ Memory) }
{
    if is_blank(text) {
        return Err(LineFault::EmptyLine);
    }
    Ok(parse_line(alloc, text)?)
}

/// The one spelling of a line.
pub fn write_line(alloc: Global, line: &Line) -> Result<Text, AllocError>
    ensures { IfOk result (λ text. text ≡ spell line.now) }
{
    let parts = line.parts();
    let mut text = String::new(alloc);
    if parts.done {
        text.push_str("x ")?;
    }
    push_priority(&mut text, parts.priority)?;
    push_date(&mut text, parts.completion)?;
    push_date(&mut text, parts.creation)?;
    text.push_str(parts.body.as_str())?;
    Ok(Text::from_string(text))
}

fn push_priority(text: &mut String, priority: Option<Letter>) -> Result<(), AllocError>
    ensures { OnOk result
        (string_bytes text.new ≡ string_bytes text.old ++ with_priority priority []) }
{
    if let Some(letter) = priority {
        text.push('(')?;
        text.push(letter.code() as char)?;
        text.push_str(") ")?;
    }
    Ok(())
}

fn push_date(text: &mut String, date: Option<Day>) -> Result<(), AllocError>
    ensures { OnOk result (string_bytes text.new ≡ string_bytes text.old ++ with_date date []) }
{
    if let Some(day) = date {
        push_day(text, day)?;
        text.push(' ')?;
    }
    Ok(())
}

/// Puts the ten bytes of a day at the end.
pub(crate) fn push_day(text: &mut String, day: Day) -> Result<(), AllocError>
    ensures { OnOk result (string_bytes text.new ≡ string_bytes text.old ++ day_text day) }
{
    match str::from_utf8(&day.write()) {
        Ok(written) => text.push_str(written),
        Err(_) => unreachable!(),
    }
}

/// The spelling of a line is read as that line.
pub fn lines_are_read()
    ensures { AreRead }
{}

/// And what is read is spelled so.
pub fn lines_are_spelled()
    ensures { AreSpelled }
{}

/// No two lines are spelled alike.
pub fn one_spelling()
    ensures { AreSpelledOnce }
{}
