//! A text in parts of its lines, each of which one import takes.
ghost use Rattle.std.specs.Prelude.{◌≡◌, ◌<◌, ◌∷◌, [], IfOk, map, option_map, true};
ghost use Rattle.tb_orders.specs.Cutting.{Cut, added, closed, cut_on, has_room, is_one, line_in, lines_of, parts_in, parts_of, put, uncut, with_room, without_close, without_open};
ghost use Rattle.tb_task.specs.Limits.{most_items};

use std::alloc::{AllocError, Global};
use std::marker::Model;
use tb_command_line::ImportKind;
use tb_task::{LONGEST_BODY, MOST_ITEMS};
use tb_values::Items;

/// A text that is being cut.
#[derive(Drop)]
struct Cutting {
    full: Vec<Items<u8>>,
    begun: Vec<u8>,
    lines: usize,
    is_long: bool,
}

impl Model for Cutting {
    ghost use Rattle.tb_orders.specs.Cutting.{Cut};

    ghost Value = { Cut };

    ghost view = { λ cut. record {
      full = cut.full.items;
      begun = cut.begun.items;
      lines = cut.lines;
      is_long = cut.is_long;
    } };
}

/// The parts of a text that its lines cut, or none where a line is longer than a part.
pub(crate) fn parts_by_lines(
    alloc: Global,
    kind: ImportKind,
    text: Items<u8>,
) -> Result<Option<Vec<Items<u8>>>, AllocError>
    ensures { IfOk result (λ parts. option_map (λ list. list.items) parts ≡ parts_of kind text) }
{
    if is_one(alloc, text.as_slice())? {
        return Ok(Some(one_part(alloc, text)?));
    }
    let cut = cut_text(alloc, kind, text.as_slice())?;
    parts_in(alloc, cut)
}

pub(crate) fn is_one(alloc: Global, text: &[u8]) -> Result<bool, AllocError>
    ensures { IfOk result (λ is. is ≡ is_one text.now) }
{
    let lines = lines_of(alloc, text)?;
    Ok(text.len() <= LONGEST_BODY && lines.len() <= MOST_ITEMS)
}

fn cut_text(alloc: Global, kind: ImportKind, text: &[u8]) -> Result<Cutting, AllocError>
    ensures { IfOk result (λ cut. cut ≡ cut_on kind uncut (lines_of text.now)) }
{
    let lines = lines_of(alloc, text)?;
    cut_lines(alloc, kind, lines.as_slice())
}

pub(crate) fn one_part(alloc: Global, text: Items<u8>) -> Result<Vec<Items<u8>>, AllocError>
    ensures { IfOk result (λ parts. parts.items ≡ text ∷ []) }
{
    let mut parts = Vec::new(alloc);
    parts.push(text)?;
    Ok(parts)
}

pub(crate) fn lines_of(alloc: Global, text: &[u8]) -> Result<Vec<&[u8]>, AllocError>
    ensures { IfOk result (λ lines. map (λ line. line.now) lines.items ≡ lines_of text.now) }
{
    text.split(|byte| *byte == b'\n').collect(alloc)
}

fn parts_in(alloc: Global, cut: Cutting) -> Result<Option<Vec<Items<u8>>>, AllocError>
    ensures { IfOk result (λ parts. option_map (λ list. list.items) parts ≡ parts_in cut) }
{
    if cut.is_long {
        return Ok(None);
    }
    let cut = closed(alloc, cut)?;
    Ok(Some(cut.full))
}

fn cut_lines(alloc: Global, kind: ImportKind, lines: &[&[u8]]) -> Result<Cutting, AllocError>
    ensures { IfOk result
        (λ cut. cut ≡ cut_on kind uncut (map (λ line. line.now) lines.entry.now)) }
{
    let mut cut = Cutting {
        full: Vec::new(alloc),
        begun: Vec::new(alloc),
        lines: 0,
        is_long: false,
    };
    for line in lines {
        cut = put(alloc, cut, line_in(kind, line))?;
    }
    Ok(cut)
}

/// A line without a bracket of a list.
pub(crate) fn line_in(kind: ImportKind, line: &[u8]) -> &[u8]
    ensures { result.now ≡ line_in kind line.now }
{
    match kind {
        ImportKind::Json => without_close(without_open(line)),
        ImportKind::Todo => line,
    }
}

fn without_open(line: &[u8]) -> &[u8]
    ensures { result.now ≡ without_open line.now }
{
    match line.split_first() {
        Some((first, rest)) if *first == b'[' => rest,
        _ => line,
    }
}

fn without_close(line: &[u8]) -> &[u8]
    ensures { result.now ≡ without_close line.now }
{
    match line.split_first() {
        Some((first, rest)) if *first == b']' && rest.is_empty() => rest,
        _ => line,
    }
}

fn put(alloc: Global, cut: Cutting, line: &[u8]) -> Result<Cutting, AllocError>
    ensures { IfOk result (λ made. made ≡ put cut line.now) }
{
    if line.is_empty() {
        return Ok(cut);
    }
    let cut = with_room(alloc, cut, line)?;
    added(cut, line)
}

fn with_room(alloc: Global, cut: Cutting, line: &[u8]) -> Result<Cutting, AllocError>
    ensures value { IfOk result (λ made. made ≡ with_room cut line.now) }
    ensures room { IfOk result (λ made. made.lines < most_items) }
{
    if has_room(&cut, line) {
        return Ok(cut);
    }
    closed(alloc, cut)
}

fn has_room(cut: &Cutting, line: &[u8]) -> bool
    ensures value { result ≡ has_room cut.now line.now }
    ensures lines { result ≡ true → cut.now.lines < most_items }
{
    cut.lines < MOST_ITEMS
        && line.len() < LONGEST_BODY
        && cut.begun.len() < LONGEST_BODY - line.len()
}

fn added(cut: Cutting, line: &[u8]) -> Result<Cutting, AllocError>
    requires { cut.lines < most_items }
    ensures { IfOk result (λ made. made ≡ added cut line.now) }
{
    let Cutting {
        full,
        mut begun,
        lines,
        is_long,
    } = cut;
    begun.extend_from_slice(line)?;
    begun.push(b'\n')?;
    Ok(Cutting {
        full,
        begun,
        lines: lines + 1,
        is_long: is_long || line.len() >= LONGEST_BODY,
    })
}

fn closed(alloc: Global, cut: Cutting) -> Result<Cutting, AllocError>
    ensures value { IfOk result (λ made. made ≡ closed cut) }
    ensures empty { IfOk result (λ made. made.lines ≡ 0) }
{
    if cut.lines == 0 {
        return Ok(cut);
    }
    let Cutting {
        mut full,
        begun,
        is_long,
        ..
    } = cut;
    full.push(Items::from_vec(begun))?;
    Ok(Cutting {
        full,
        begun: Vec::new(alloc),
        lines: 0,
        is_long,
    })
}
