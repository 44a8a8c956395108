//! Lines of columns that are as wide as what stands in them.
ghost use Rattle.std.specs.Prelude.{◌≡◌, ◌++◌, IfOk, OnOk, chars, replicate, string_bytes};
ghost use Rattle.std.specs.Str.{encode_utf8_all};
ghost use Rattle.tb_finding.specs.Table.{columns_of, cut, due_column, fitted, front, left, line, no_widths, painted, rest, right, room_after, room_in, table, taken, wider, widest};

use std::alloc::{AllocError, Global};
use tb_values::Text;
use unicode_width::{UnicodeWidthChar, UnicodeWidthStr};

const RED: &str = "\x1b[31m";

const BOLD: &str = "\x1b[1m";

const PLAIN: &str = "\x1b[0m";

/// The columns that the last one has at least.
const LEAST_ROOM: usize = 20;

/// Where a table is shown.
#[derive(Clone, Copy, Debug)]
pub struct Style {
    /// How many columns a terminal has; nothing of a pipe, in which no line is cut.
    pub columns: Option<u32>,
    /// Whether there may be bold and colours.
    pub is_coloured: bool,
}

/// What stands in a line.
#[derive(Drop)]
pub struct Cells {
    pub number: Text,
    pub marks: Text,
    pub due: Text,
    pub project: Text,
    pub person: Text,
    pub what: Text,
    pub is_late: bool,
}

/// How wide each column but the last is: 0 where nothing stands in it.
#[derive(Clone, Copy)]
pub struct Widths {
    pub number: usize,
    pub marks: usize,
    pub due: usize,
    pub project: usize,
    pub person: usize,
}

/// The lines of all cells.
pub fn table(alloc: Global, style: Style, cells: &[Cells]) -> Result<Text, AllocError>
    ensures { IfOk result (λ text. text ≡ table style cells.now) }
{
    let widths = widest(cells);
    let mut text = String::new(alloc);
    for one in cells {
        push_line(alloc, &mut text, style, widths, one)?;
    }
    Ok(Text::from_string(text))
}

fn widest(cells: &[Cells]) -> Widths
    ensures { result ≡ widest no_widths cells.now }
{
    let mut widths = Widths {
        number: 0,
        marks: 0,
        due: 0,
        project: 0,
        person: 0,
    };
    for one in cells {
        widths = wider(widths, one);
    }
    widths
}

fn wider(widths: Widths, cells: &Cells) -> Widths
    ensures { result ≡ wider widths cells.now }
{
    Widths {
        number: widths.number.max(cells.number.as_str().width()),
        marks: widths.marks.max(cells.marks.as_str().width()),
        due: widths.due.max(cells.due.as_str().width()),
        project: widths.project.max(cells.project.as_str().width()),
        person: widths.person.max(cells.person.as_str().width()),
    }
}

fn push_line(
    alloc: Global,
    text: &mut String,
    style: Style,
    widths: Widths,
    cells: &Cells,
) -> Result<(), AllocError>
    ensures { OnOk result (string_bytes text.new
        ≡ string_bytes text.old ++ line style widths cells.now) }
{
    push_front(alloc, text, style.is_coloured, widths, cells)?;
    push_rest(alloc, text, room_in(style.columns, widths), widths, cells)
}

/// The columns up to the due day.
fn push_front(
    alloc: Global,
    text: &mut String,
    is_coloured: bool,
    widths: Widths,
    cells: &Cells,
) -> Result<(), AllocError>
    ensures { OnOk result (string_bytes text.new
        ≡ string_bytes text.old ++ front is_coloured widths cells.now) }
{
    let number = right(alloc, widths.number, cells.number.as_str())?;
    push_painted(text, is_coloured, BOLD, number.as_str())?;
    push_left(text, widths.marks, cells.marks.as_str())?;
    push_due(alloc, text, is_coloured, widths.due, cells)
}

/// The columns after the due day, and the end of the line.
fn push_rest(
    alloc: Global,
    text: &mut String,
    room: Option<usize>,
    widths: Widths,
    cells: &Cells,
) -> Result<(), AllocError>
    ensures { OnOk result (string_bytes text.new
        ≡ string_bytes text.old ++ rest room widths cells.now) }
{
    push_left(text, widths.project, cells.project.as_str())?;
    push_left(text, widths.person, cells.person.as_str())?;
    push_fitted(alloc, text, room, cells.what.as_str())?;
    text.push('\n')
}

fn push_due(
    alloc: Global,
    text: &mut String,
    is_coloured: bool,
    size: usize,
    cells: &Cells,
) -> Result<(), AllocError>
    ensures { OnOk result (string_bytes text.new
        ≡ string_bytes text.old ++ due_column is_coloured size cells.now) }
{
    if !cells.is_late {
        return push_left(text, size, cells.due.as_str());
    }
    let mut due = String::new(alloc);
    push_left(&mut due, size, cells.due.as_str())?;
    push_painted(text, is_coloured, RED, due.as_str())
}

/// Puts a text at the end, in a colour where there may be one.
fn push_painted(
    text: &mut String,
    is_coloured: bool,
    colour: &str,
    what: &str,
) -> Result<(), AllocError>
    ensures { OnOk result (string_bytes text.new
        ≡ string_bytes text.old ++ painted is_coloured colour.now what.now) }
{
    if !is_coloured {
        return text.push_str(what);
    }
    text.push_str(colour)?;
    text.push_str(what)?;
    text.push_str(PLAIN)
}

/// A text at the right of its column, and the gap after it.
fn right(alloc: Global, size: usize, what: &str) -> Result<String, AllocError>
    ensures { IfOk result (λ text. string_bytes text ≡ right size what.now) }
{
    let mut text = String::new(alloc);
    push_spaces(&mut text, size.saturating_sub(what.width()))?;
    text.push_str(what)?;
    text.push_str("  ")?;
    Ok(text)
}

/// Puts a text at the end, at the left of its column, and the gap after it: nothing where the column is left out.
fn push_left(text: &mut String, size: usize, what: &str) -> Result<(), AllocError>
    ensures { OnOk result (string_bytes text.new ≡ string_bytes text.old ++ left size what.now) }
{
    if size == 0 {
        return Ok(());
    }
    text.push_str(what)?;
    push_spaces(text, size.saturating_sub(what.width()))?;
    text.push_str("  ")
}

fn push_spaces(text: &mut String, count: usize) -> Result<(), AllocError>
    ensures { OnOk result (string_bytes text.new ≡ string_bytes text.old ++ replicate count 32) }
{
    for done in 0..count {
        text.push(' ')?;
    }
    Ok(())
}

/// What is left for the last column.
fn room_in(columns: Option<u32>, widths: Widths) -> Option<usize>
    ensures { result ≡ room_in columns widths }
{
    let room = room_after(columns? as usize, widths.number);
    let room = room_after(room, widths.marks);
    let room = room_after(room, widths.due);
    let room = room_after(room, widths.project);
    Some(room_after(room, widths.person).max(LEAST_ROOM))
}

/// What a column and the gap after it leave of a room.
fn room_after(room: usize, size: usize) -> usize
    ensures { result ≡ room_after room size }
{
    if size == 0 {
        room
    } else {
        room.saturating_sub(size).saturating_sub(2)
    }
}

/// Puts a text at the end, cut where it has no room.
pub(crate) fn push_fitted(
    alloc: Global,
    text: &mut String,
    room: Option<usize>,
    what: &str,
) -> Result<(), AllocError>
    ensures { OnOk result (string_bytes text.new
        ≡ string_bytes text.old ++ fitted room what.now) }
{
    match room {
        Some(room) => push_cut(alloc, text, room, what),
        None => text.push_str(what),
    }
}

fn push_cut(alloc: Global, text: &mut String, room: usize, what: &str) -> Result<(), AllocError>
    ensures { OnOk result (string_bytes text.new ≡ string_bytes text.old ++ cut room what.now) }
{
    if what.width() <= room {
        return text.push_str(what);
    }
    let characters = characters_of(alloc, what)?;
    push_taken(text, room.saturating_sub(1), characters.as_slice())?;
    text.push_str("…")
}

fn characters_of(alloc: Global, text: &str) -> Result<Vec<char>, AllocError>
    ensures { IfOk result (λ characters. characters.items ≡ chars text.now) }
{
    text.chars().collect(alloc)
}

/// Puts the characters at the front that have room at the end.
fn push_taken(text: &mut String, room: usize, characters: &[char]) -> Result<(), AllocError>
    ensures { OnOk result (string_bytes text.new
        ≡ string_bytes text.old ++ encode_utf8_all (taken room characters.now)) }
{
    let mut room = room;
    for character in characters {
        let columns = columns_of(*character);
        if columns > room {
            return Ok(());
        }
        text.push(*character)?;
        room -= columns;
    }
    Ok(())
}

fn columns_of(character: char) -> usize
    ensures { result ≡ columns_of character }
{
    character.width().unwrap_or(0)
}
