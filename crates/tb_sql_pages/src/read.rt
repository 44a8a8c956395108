//! Entries of a history, read of the rows of a query.

ghost use Rattle.std.specs.Prelude.{◌≡◌, IfOk, map, option_map, slice_get};
ghost use Rattle.sqlite_value.specs.Order.{column};
ghost use Rattle.tb_sql_tables.specs.Read.{number_of, identifier_of};
ghost use Rattle.tb_sql_pages.specs.Read.{place_of, history_of};

use sqlite::types::Type;
use sqlite::{Error, Row};
use std::alloc::Global;
use tb_sql_tables::rows::HistoryRow;
use tb_task::TaskId;
use tb_values::Items;

const IDENTIFIER_LENGTH: usize = 16;

/// Each of the rows, in their order.
pub(crate) fn read_entries(alloc: Global, rows: &[Row]) -> Result<Items<HistoryRow>, Error>
    ensures { IfOk result (λ items. items ≡ map history_of rows.now) }
{
    let mut items = Items::new(alloc);
    'rows: for row in rows {
        items.push(read_entry(row)?)?;
    }
    Ok(items)
}

/// The number in the first of the rows.
pub(crate) fn number_in_first(rows: &[Row]) -> Result<Option<u32>, Error>
    ensures { IfOk result (λ first. first
        ≡ option_map (λ cells. number_of (column cells 0)) (slice_get rows.now 0)) }
{
    match rows.first() {
        Some(row) => Ok(Some(number_at(row, 0)?)),
        None => Ok(None),
    }
}

/// An entry, read of all its columns in their order.
fn read_entry(row: &Row) -> Result<HistoryRow, Error>
    ensures { IfOk result (λ entry. entry ≡ history_of row.now) }
{
    Ok(HistoryRow {
        board: number_at(row, 0)?,
        number: number_at(row, 1)?,
        moment: moment_at(row, 2)?,
        person: number_at(row, 3)?,
        call: identifier_at(row, 4)?,
        what: number_at(row, 5)?,
        task: place_at(row, 6)?,
    })
}

fn number_at(row: &Row, at: usize) -> Result<u32, Error>
    ensures { IfOk result (λ number. number ≡ number_of (column row.now at)) }
{
    row.get(at)
}

fn moment_at(row: &Row, at: usize) -> Result<u64, Error>
    ensures { IfOk result (λ moment. moment ≡ number_of (column row.now at)) }
{
    row.get(at)
}

fn place_at(row: &Row, at: usize) -> Result<Option<u32>, Error>
    ensures { IfOk result (λ place. place ≡ place_of (column row.now at)) }
{
    row.get(at)
}

fn identifier_at(row: &Row, at: usize) -> Result<TaskId, Error>
    ensures { IfOk result (λ id. id ≡ identifier_of (column row.now at)) }
{
    let bytes: Vec<u8> = row.get(at)?;
    if bytes.len() != IDENTIFIER_LENGTH {
        return Err(Error::InvalidColumnType(at, Type::Blob));
    }
    let mut digits = [0u8; IDENTIFIER_LENGTH];
    digits.copy_from_slice(bytes.as_slice());
    Ok(TaskId::of_bytes(digits))
}
