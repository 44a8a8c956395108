//! The list of the found tasks of a board.
ghost use Rattle.std.specs.Prelude.{◌≡◌, ◌++◌, IfOk, OnOk, slice_get, string_bytes};
ghost use Rattle.tb_finding.specs.Listing.{all_cells, cells_at, count_line, found_text, list_of, told};

use crate::cells::cells_of;
use crate::finding::{Key, found};
use crate::json::json_list;
use crate::look::{Look, read_tasks};
use crate::names::names_text;
use crate::table::{Cells, Style, table};
use std::alloc::{AllocError, Global};
use std::fmt::Write;
use tb_my::{Clock, Listing, Query};
use tb_values::{Items, Text};

/// What is told of an export by a query, if it is one: the found tasks in their order, in lines or as JSON.
pub fn found_text(
    alloc: Global,
    clock: &Clock,
    style: Style,
    query: &Query,
    export: &str,
) -> Result<Option<Text>, AllocError>
    ensures { IfOk result (λ text. text
        ≡ found_text clock.now style query.now export.now) }
{
    let Some(tasks) = read_tasks(alloc, export, clock.moment)? else {
        return Ok(None);
    };
    let look = Look::of(alloc, tasks)?;
    Ok(Some(told(alloc, clock, style, query, &look)?))
}

fn told(
    alloc: Global,
    clock: &Clock,
    style: Style,
    query: &Query,
    look: &Look,
) -> Result<Text, AllocError>
    ensures { IfOk result (λ text. text ≡ told clock.now style query.now look.now) }
{
    let keys = found(alloc, clock, query, look)?;
    if query.is_json {
        return json_list(alloc, look, keys.as_slice());
    }
    match query.listing {
        Listing::Tasks | Listing::Next => list_of(alloc, clock, style, look, keys.as_slice()),
        Listing::Projects | Listing::Tags => {
            names_text(alloc, query.listing, look, keys.as_slice())
        }
    }
}

fn list_of(
    alloc: Global,
    clock: &Clock,
    style: Style,
    look: &Look,
    keys: &[Key],
) -> Result<Text, AllocError>
    ensures { IfOk result (λ text. text ≡ list_of clock.now style look.now keys.now) }
{
    let cells = all_cells(alloc, clock, style, look, keys)?;
    let mut text = table(alloc, style, cells.as_slice())?.into_string();
    push_count(&mut text, keys.len(), look.tasks.len())?;
    Ok(Text::from_string(text))
}

fn push_count(text: &mut String, found: usize, all: usize) -> Result<(), AllocError>
    ensures { OnOk result (string_bytes text.new ≡ string_bytes text.old ++ count_line found all) }
{
    writeln!(text, "{found} of {all} tasks")
}

fn all_cells(
    alloc: Global,
    clock: &Clock,
    style: Style,
    look: &Look,
    keys: &[Key],
) -> Result<Items<Cells>, AllocError>
    ensures { IfOk result (λ cells. cells ≡ all_cells clock.now style look.now keys.now) }
{
    let mut cells = Items::new(alloc);
    for key in keys {
        add_cells(alloc, &mut cells, clock, style, look, *key)?;
    }
    Ok(cells)
}

fn add_cells(
    alloc: Global,
    cells: &mut Items<Cells>,
    clock: &Clock,
    style: Style,
    look: &Look,
    key: Key,
) -> Result<(), AllocError>
    ensures { OnOk result (cells.new ≡ cells.old
        ++ cells_at clock.now style look.now key (slice_get look.now.tasks key.1.1)) }
{
    match look.task(key.1.1) {
        Some(task) => cells.push(cells_of(alloc, clock, style, look, key.1.1, task)?),
        None => Ok(()),
    }
}
