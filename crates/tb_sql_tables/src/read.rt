//! The rows of a query, read as rows of a table.

ghost use Rattle.std.specs.Prelude.{◌≡◌, ◌≢◌, ◌<◌, All, IfErr, IfOk, length, map, option_map, slice_get};
ghost use Rattle.sqlite_value.specs.Order.{column};
ghost use Rattle.sqlite.specs.declared.error.ErrorCode.TheVariants.{OutOfMemory};
ghost use Rattle.tb_sql_tables.specs.Read.{AreBytes, IsBelow, IsBoardRow, IsGoneRow, IsHorizonRow, IsIdentifier, IsInstanceRow, IsKeptRow, IsLinkRow, IsMetaRow, IsNumber, IsPersonRow, IsRoleRow, IsTaskRow, IsText, IsTextOrNone, number_of, words_of, bytes_of, identifier_of, mask_of, meta_of, person_of, board_of, role_of, task_of, link_of, instance_of, gone_of, kept_of, horizon_of};

use crate::rows::{
    BoardRow, GoneRow, HorizonRow, InstanceRow, KeptRow, LinkRow, MetaRow, PersonRow, RoleRow,
    TaskRow,
};
use sqlite::types::Type;
use sqlite::{Error, Row};
use std::alloc::Global;
use tb_task::TaskId;
use tb_values::{Items, Text};

const IDENTIFIER_LENGTH: usize = 16;

/// A row of a table, read of all its columns in their order.
pub trait Stored: Drop + Sized {
    ghost use Rattle.sqlite_value.specs.Order.{Row as Cells};

    ghost read_as: { Cells → Self };

    // Of which rows it is said that they are read.
    ghost is_readable: { Cells → Type 0 };

    fn read(row: &Row) -> Result<Self, Error>
        ensures value { IfOk result (λ it. it ≡ read_as row.now) }
        ensures refused { IfErr result
            (λ e. e ≢ Error.SqliteFailure OutOfMemory → ¬ is_readable row.now) };
}

fn number_at(row: &Row, at: usize) -> Result<u32, Error>
    ensures value { IfOk result (λ number. number ≡ number_of (column row.now at)) }
    ensures refused { IfErr result (λ e. e ≢ Error.SqliteFailure OutOfMemory → at < length row.now
        → ¬ IsNumber (column row.now at)) }
{
    row.get(at)
}

/// A number that fits in a byte.
fn byte_at(row: &Row, at: usize) -> Result<u8, Error>
    ensures value { IfOk result (λ number. number ≡ number_of (column row.now at)) }
    ensures refused { IfErr result (λ e. e ≢ Error.SqliteFailure OutOfMemory → at < length row.now
        → ¬ IsBelow 256 (column row.now at)) }
{
    match u8::try_from(number_at(row, at)?) {
        Ok(number) => Ok(number),
        Err(_) => Err(Error::IntegralValueOutOfRange(at)),
    }
}

/// A number that fits in two bytes.
fn short_at(row: &Row, at: usize) -> Result<u16, Error>
    ensures value { IfOk result (λ number. number ≡ number_of (column row.now at)) }
    ensures refused { IfErr result (λ e. e ≢ Error.SqliteFailure OutOfMemory → at < length row.now
        → ¬ IsBelow 65536 (column row.now at)) }
{
    match u16::try_from(number_at(row, at)?) {
        Ok(number) => Ok(number),
        Err(_) => Err(Error::IntegralValueOutOfRange(at)),
    }
}

fn text_at(row: &Row, at: usize) -> Result<Text, Error>
    ensures value { IfOk result (λ text. text ≡ words_of (column row.now at)) }
    ensures refused { IfErr result (λ e. e ≢ Error.SqliteFailure OutOfMemory → at < length row.now
        → ¬ IsText (column row.now at)) }
{
    let text: String = row.get(at)?;
    Ok(Text::from_string(text))
}

fn bytes_at(row: &Row, at: usize) -> Result<Items<u8>, Error>
    ensures value { IfOk result (λ bytes. bytes ≡ bytes_of (column row.now at)) }
    ensures refused { IfErr result (λ e. e ≢ Error.SqliteFailure OutOfMemory → at < length row.now
        → ¬ AreBytes (column row.now at)) }
{
    let bytes: Vec<u8> = row.get(at)?;
    Ok(Items::from_vec(bytes))
}

fn identifier_at(row: &Row, at: usize) -> Result<TaskId, Error>
    ensures value { IfOk result (λ id. id ≡ identifier_of (column row.now at)) }
    ensures refused { IfErr result (λ e. e ≢ Error.SqliteFailure OutOfMemory → at < length row.now
        → ¬ IsIdentifier (column row.now at)) }
{
    let bytes: Vec<u8> = row.get(at)?;
    if bytes.len() != IDENTIFIER_LENGTH {
        return Err(Error::InvalidColumnType(at, Type::Blob));
    }
    let mut digits = [0u8; IDENTIFIER_LENGTH];
    digits.copy_from_slice(bytes.as_slice());
    Ok(TaskId::of_bytes(digits))
}

fn mask_at(row: &Row, at: usize) -> Result<Option<Text>, Error>
    ensures value { IfOk result (λ mask. mask ≡ mask_of (column row.now at)) }
    ensures refused { IfErr result (λ e. e ≢ Error.SqliteFailure OutOfMemory → at < length row.now
        → ¬ IsTextOrNone (column row.now at)) }
{
    let mask: Option<String> = row.get(at)?;
    match mask {
        Some(mask) => Ok(Some(Text::from_string(mask))),
        None => Ok(None),
    }
}

impl Stored for MetaRow {
    ghost read_as = { meta_of };

    ghost is_readable = { IsMetaRow };

    fn read(row: &Row) -> Result<MetaRow, Error> {
        Ok(MetaRow {
            kind: text_at(row, 0)?,
            version: number_at(row, 1)?,
        })
    }
}

impl Stored for PersonRow {
    ghost read_as = { person_of };

    ghost is_readable = { IsPersonRow };

    fn read(row: &Row) -> Result<PersonRow, Error> {
        Ok(PersonRow {
            id: number_at(row, 0)?,
            name: text_at(row, 1)?,
            secret: text_at(row, 2)?,
        })
    }
}

impl Stored for BoardRow {
    ghost read_as = { board_of };

    ghost is_readable = { IsBoardRow };

    fn read(row: &Row) -> Result<BoardRow, Error> {
        Ok(BoardRow {
            id: number_at(row, 0)?,
            title: text_at(row, 1)?,
            low: number_at(row, 2)?,
        })
    }
}

impl Stored for RoleRow {
    ghost read_as = { role_of };

    ghost is_readable = { IsRoleRow };

    fn read(row: &Row) -> Result<RoleRow, Error> {
        Ok(RoleRow {
            board: number_at(row, 0)?,
            person: number_at(row, 1)?,
            kind: number_at(row, 2)?,
        })
    }
}

impl Stored for TaskRow {
    ghost read_as = { task_of };

    ghost is_readable = { IsTaskRow };

    fn read(row: &Row) -> Result<TaskRow, Error> {
        Ok(TaskRow {
            board: number_at(row, 0)?,
            place: number_at(row, 1)?,
            uuid: identifier_at(row, 2)?,
            body: text_at(row, 3)?,
            mask: mask_at(row, 4)?,
        })
    }
}

impl Stored for LinkRow {
    ghost read_as = { link_of };

    ghost is_readable = { IsLinkRow };

    fn read(row: &Row) -> Result<LinkRow, Error> {
        Ok(LinkRow {
            board: number_at(row, 0)?,
            place: number_at(row, 1)?,
            target: number_at(row, 2)?,
        })
    }
}

impl Stored for InstanceRow {
    ghost read_as = { instance_of };

    ghost is_readable = { IsInstanceRow };

    fn read(row: &Row) -> Result<InstanceRow, Error> {
        Ok(InstanceRow {
            board: number_at(row, 0)?,
            template: number_at(row, 1)?,
            imask: number_at(row, 2)?,
            place: number_at(row, 3)?,
        })
    }
}

impl Stored for GoneRow {
    ghost read_as = { gone_of };

    ghost is_readable = { IsGoneRow };

    fn read(row: &Row) -> Result<GoneRow, Error> {
        Ok(GoneRow {
            board: number_at(row, 0)?,
            template: number_at(row, 1)?,
            imask: number_at(row, 2)?,
            mark: text_at(row, 3)?,
        })
    }
}

impl Stored for KeptRow {
    ghost read_as = { kept_of };

    ghost is_readable = { IsKeptRow };

    fn read(row: &Row) -> Result<KeptRow, Error> {
        Ok(KeptRow {
            person: number_at(row, 0)?,
            id: identifier_at(row, 1)?,
            content: bytes_at(row, 2)?,
            number: byte_at(row, 3)?,
            status: short_at(row, 4)?,
            body: text_at(row, 5)?,
        })
    }
}

impl Stored for HorizonRow {
    ghost read_as = { horizon_of };

    ghost is_readable = { IsHorizonRow };

    fn read(row: &Row) -> Result<HorizonRow, Error> {
        Ok(HorizonRow {
            board: number_at(row, 0)?,
            ahead: number_at(row, 1)?,
        })
    }
}

/// Each of the rows, in their order.
pub fn read_all<T: Stored>(alloc: Global, rows: &[Row]) -> Result<Items<T>, Error>
    ensures value { IfOk result (λ items. items ≡ map T.Stored.read_as rows.now) }
    ensures refused { IfErr result
        (λ e. e ≢ Error.SqliteFailure OutOfMemory → ¬ All T.Stored.is_readable rows.now) }
{
    let mut items = Items::new(alloc);
    'rows: for row in rows {
        items.push(T::read(row)?)?;
    }
    Ok(items)
}

/// The first of the rows.
pub fn read_first<T: Stored>(rows: &[Row]) -> Result<Option<T>, Error>
    ensures value { IfOk result
        (λ first. first ≡ option_map T.Stored.read_as (slice_get rows.now 0)) }
    ensures refused { IfErr result
        (λ e. e ≢ Error.SqliteFailure OutOfMemory → ¬ All T.Stored.is_readable rows.now) }
{
    match rows.first() {
        Some(row) => Ok(Some(T::read(row)?)),
        None => Ok(None),
    }
}
