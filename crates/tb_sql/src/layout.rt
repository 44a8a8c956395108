//! Which tables a database has.

ghost use Rattle.std.specs.Prelude.{◌≡◌, ◌&&◌, [], ◌∷◌, codes};
ghost use Rattle.sqlite_schema.specs.Names.{same_name};
ghost use Rattle.tb_sql.specs.Opening as opening;

use sqlite_schema::names::same_name;
use sqlite_schema::schema::{Column, Kind, Schema, Table};

/// The indexes that the keys of the tables make.
const KEY_INDEXES: usize = 11;

/// The same before there was a history.
const EARLIER_KEY_INDEXES: usize = 9;

fn is_named(name: &[u8], wanted: &str) -> bool
    ensures { result ≡ same_name name.now wanted.now }
{
    same_name(name, wanted.as_bytes())
}

fn is_integer(column: &Column, name: &str) -> bool
    ensures { result ≡ (same_name column.now.name name.now && opening.is_integer column.now.kind) }
{
    is_named(column.name.as_slice(), name) && matches!(column.kind, Kind::Integer)
}

fn is_text(column: &Column, name: &str) -> bool
    ensures { result ≡ (same_name column.now.name name.now && opening.is_text column.now.kind) }
{
    is_named(column.name.as_slice(), name) && matches!(column.kind, Kind::Text)
}

fn is_blob(column: &Column, name: &str) -> bool
    ensures { result ≡ (same_name column.now.name name.now && opening.is_blob column.now.kind) }
{
    is_named(column.name.as_slice(), name) && matches!(column.kind, Kind::Blob)
}

#[tactic(auto, unfolding(crate::specs::Opening::is_meta))]
fn is_meta(table: &Table) -> bool
    ensures { result ≡ opening.is_meta table.now }
{
    let [one_column, kind_column, version_column] = table.columns.as_slice() else {
        return false;
    };
    is_named(table.name.as_slice(), "meta")
        && is_integer(one_column, "one")
        && is_text(kind_column, "kind")
        && is_integer(version_column, "version")
}

#[tactic(auto, unfolding(crate::specs::Opening::is_person))]
fn is_person(table: &Table) -> bool
    ensures { result ≡ opening.is_person table.now }
{
    let [id_column, name_column, secret_column] = table.columns.as_slice() else {
        return false;
    };
    is_named(table.name.as_slice(), "person")
        && is_integer(id_column, "id")
        && is_text(name_column, "name")
        && is_text(secret_column, "secret")
}

#[tactic(auto, unfolding(crate::specs::Opening::is_board))]
fn is_board(table: &Table) -> bool
    ensures { result ≡ opening.is_board table.now }
{
    let [id_column, title_column, low_column] = table.columns.as_slice() else {
        return false;
    };
    is_named(table.name.as_slice(), "board")
        && is_integer(id_column, "id")
        && is_text(title_column, "title")
        && is_integer(low_column, "low")
}

#[tactic(auto, unfolding(crate::specs::Opening::is_role))]
fn is_role(table: &Table) -> bool
    ensures { result ≡ opening.is_role table.now }
{
    let [board_column, person_column, kind_column] = table.columns.as_slice() else {
        return false;
    };
    is_named(table.name.as_slice(), "role")
        && is_integer(board_column, "board")
        && is_integer(person_column, "person")
        && is_integer(kind_column, "kind")
}

fn ends_task(columns: &[Column]) -> bool
    ensures { result
        ≡ opening.are_columns
        ((codes "body", opening.is_text) ∷ (codes "mask", opening.is_text) ∷ []) columns.now }
{
    let [body_column, mask_column] = columns else {
        return false;
    };
    is_text(body_column, "body") && is_text(mask_column, "mask")
}

#[tactic(auto, unfolding(crate::specs::Opening::is_task))]
fn is_task(table: &Table) -> bool
    ensures { result ≡ opening.is_task table.now }
{
    let [board_column, place_column, uuid_column, rest @ ..] = table.columns.as_slice() else {
        return false;
    };
    is_named(table.name.as_slice(), "task")
        && is_integer(board_column, "board")
        && is_integer(place_column, "place")
        && is_blob(uuid_column, "uuid")
        && ends_task(rest)
}

#[tactic(auto, unfolding(crate::specs::Opening::is_link))]
fn is_link(table: &Table) -> bool
    ensures { result ≡ opening.is_link table.now }
{
    let [board_column, place_column, target_column] = table.columns.as_slice() else {
        return false;
    };
    is_named(table.name.as_slice(), "link")
        && is_integer(board_column, "board")
        && is_integer(place_column, "place")
        && is_integer(target_column, "target")
}

#[tactic(auto, unfolding(crate::specs::Opening::is_instance))]
fn is_instance(table: &Table) -> bool
    ensures { result ≡ opening.is_instance table.now }
{
    let [board_column, template_column, imask_column, place_column] = table.columns.as_slice()
    else {
        return false;
    };
    is_named(table.name.as_slice(), "instance")
        && is_integer(board_column, "board")
        && is_integer(template_column, "template")
        && is_integer(imask_column, "imask")
        && is_integer(place_column, "place")
}

#[tactic(auto, unfolding(crate::specs::Opening::is_gone))]
fn is_gone(table: &Table) -> bool
    ensures { result ≡ opening.is_gone table.now }
{
    let [board_column, template_column, imask_column, mark_column] = table.columns.as_slice() else {
        return false;
    };
    is_named(table.name.as_slice(), "gone")
        && is_integer(board_column, "board")
        && is_integer(template_column, "template")
        && is_integer(imask_column, "imask")
        && is_text(mark_column, "mark")
}

fn ends_kept(columns: &[Column]) -> bool
    ensures { result
        ≡ opening.are_columns
        ((codes "number", opening.is_integer) ∷ (codes "status", opening.is_integer)
        ∷ (codes "body", opening.is_text) ∷ []) columns.now }
{
    let [number_column, status_column, body_column] = columns else {
        return false;
    };
    is_integer(number_column, "number")
        && is_integer(status_column, "status")
        && is_text(body_column, "body")
}

#[tactic(auto, unfolding(crate::specs::Opening::is_kept))]
fn is_kept(table: &Table) -> bool
    ensures { result ≡ opening.is_kept table.now }
{
    let [person_column, id_column, content_column, rest @ ..] = table.columns.as_slice() else {
        return false;
    };
    is_named(table.name.as_slice(), "kept")
        && is_integer(person_column, "person")
        && is_blob(id_column, "id")
        && is_blob(content_column, "content")
        && ends_kept(rest)
}

#[tactic(auto, unfolding(crate::specs::Opening::is_horizon))]
fn is_horizon(table: &Table) -> bool
    ensures { result ≡ opening.is_horizon table.now }
{
    let [board_column, ahead_column] = table.columns.as_slice() else {
        return false;
    };
    is_named(table.name.as_slice(), "horizon")
        && is_integer(board_column, "board")
        && is_integer(ahead_column, "ahead")
}

fn ends_history(columns: &[Column]) -> bool
    ensures { result
        ≡ opening.are_columns
        ((codes "person", opening.is_integer) ∷ (codes "call", opening.is_blob)
        ∷ (codes "what", opening.is_integer) ∷ (codes "task", opening.is_integer) ∷ [])
        columns.now }
{
    let [person_column, call_column, what_column, task_column] = columns else {
        return false;
    };
    is_integer(person_column, "person")
        && is_blob(call_column, "call")
        && is_integer(what_column, "what")
        && is_integer(task_column, "task")
}

#[tactic(auto, unfolding(crate::specs::Opening::is_history))]
fn is_history(table: &Table) -> bool
    ensures { result ≡ opening.is_history table.now }
{
    let [board_column, number_column, moment_column, rest @ ..] = table.columns.as_slice() else {
        return false;
    };
    is_named(table.name.as_slice(), "history")
        && is_integer(board_column, "board")
        && is_integer(number_column, "number")
        && is_integer(moment_column, "moment")
        && ends_history(rest)
}

/// Whether the first table tells what the file is.
pub(crate) fn has_meta(schema: &Schema) -> bool
    ensures { result ≡ opening.has_meta schema.now.tables }
{
    match schema.tables.as_slice().first() {
        Some(table) => is_meta(table),
        None => false,
    }
}

#[tactic(auto, using(crate::proofs::Opened::other_length))]
fn are_last(tables: &[Table]) -> bool
    ensures { result
        ≡ opening.are_tables
        (opening.is_instance ∷ opening.is_gone ∷ opening.is_kept ∷ opening.is_horizon
        ∷ opening.is_history ∷ [])
        tables.now }
{
    let [instance, gone, kept, horizon, history] = tables else {
        return false;
    };
    is_instance(instance)
        && is_gone(gone)
        && is_kept(kept)
        && is_horizon(horizon)
        && is_history(history)
}

#[tactic(auto, using(crate::proofs::Opened::other_length))]
fn are_later(tables: &[Table]) -> bool
    ensures { result
        ≡ opening.are_tables
        (opening.is_role ∷ opening.is_task ∷ opening.is_link ∷ opening.is_instance ∷ opening.is_gone
        ∷ opening.is_kept ∷ opening.is_horizon
        ∷ opening.is_history ∷ []) tables.now }
{
    let [role, task, link, last @ ..] = tables else {
        return false;
    };
    is_role(role) && is_task(task) && is_link(link) && are_last(last)
}

#[tactic(auto, using(crate::proofs::Opened::other_length))]
fn are_ours(tables: &[Table]) -> bool
    ensures { result ≡ opening.are_ours tables.now }
{
    let [meta, person, board, later @ ..] = tables else {
        return false;
    };
    is_meta(meta) && is_person(person) && is_board(board) && are_later(later)
}

#[tactic(auto, using(crate::proofs::Opened::other_length))]
fn are_second_last(tables: &[Table]) -> bool
    ensures { result
        ≡ opening.are_tables
        (opening.is_instance ∷ opening.is_gone ∷ opening.is_kept ∷ opening.is_horizon ∷ [])
        tables.now }
{
    let [instance, gone, kept, horizon] = tables else {
        return false;
    };
    is_instance(instance) && is_gone(gone) && is_kept(kept) && is_horizon(horizon)
}

#[tactic(auto, using(crate::proofs::Opened::other_length))]
fn are_second_later(tables: &[Table]) -> bool
    ensures { result
        ≡ opening.are_tables
        (opening.is_role ∷ opening.is_task ∷ opening.is_link ∷ opening.is_instance ∷ opening.is_gone
        ∷ opening.is_kept ∷ opening.is_horizon ∷ []) tables.now }
{
    let [role, task, link, last @ ..] = tables else {
        return false;
    };
    is_role(role) && is_task(task) && is_link(link) && are_second_last(last)
}

#[tactic(auto, using(crate::proofs::Opened::other_length))]
fn are_second(tables: &[Table]) -> bool
    ensures { result ≡ opening.are_second tables.now }
{
    let [meta, person, board, later @ ..] = tables else {
        return false;
    };
    is_meta(meta) && is_person(person) && is_board(board) && are_second_later(later)
}

#[tactic(auto, using(crate::proofs::Opened::other_length))]
fn are_old_last(tables: &[Table]) -> bool
    ensures { result
        ≡ opening.are_tables
        (opening.is_instance ∷ opening.is_gone ∷ opening.is_kept ∷ []) tables.now }
{
    let [instance, gone, kept] = tables else {
        return false;
    };
    is_instance(instance) && is_gone(gone) && is_kept(kept)
}

#[tactic(auto, using(crate::proofs::Opened::other_length))]
fn are_old_later(tables: &[Table]) -> bool
    ensures { result
        ≡ opening.are_tables
        (opening.is_role ∷ opening.is_task ∷ opening.is_link ∷ opening.is_instance ∷ opening.is_gone
        ∷ opening.is_kept ∷ []) tables.now }
{
    let [role, task, link, last @ ..] = tables else {
        return false;
    };
    is_role(role) && is_task(task) && is_link(link) && are_old_last(last)
}

#[tactic(auto, using(crate::proofs::Opened::other_length))]
fn are_old(tables: &[Table]) -> bool
    ensures { result ≡ opening.are_old tables.now }
{
    let [meta, person, board, later @ ..] = tables else {
        return false;
    };
    is_meta(meta) && is_person(person) && is_board(board) && are_old_later(later)
}

/// Whether there are so many indexes, those of the keys, and no further index and no view.
fn has_key_indexes(schema: &Schema, count: usize) -> bool
    ensures { result ≡ opening.has_key_indexes count schema.now }
{
    schema.indexes.len() == count && schema.views.is_empty()
}

/// Whether the tables are those of a store, in the order in which they are made, and nothing else is there.
pub(crate) fn is_ours(schema: &Schema) -> bool
    ensures { result ≡ opening.is_ours schema.now }
{
    are_ours(schema.tables.as_slice()) && has_key_indexes(schema, KEY_INDEXES)
}

/// The same for a store of the second version.
pub(crate) fn is_second(schema: &Schema) -> bool
    ensures { result ≡ opening.is_second schema.now }
{
    are_second(schema.tables.as_slice()) && has_key_indexes(schema, EARLIER_KEY_INDEXES)
}

/// The same for a store of the first version.
pub(crate) fn is_old(schema: &Schema) -> bool
    ensures { result ≡ opening.is_old schema.now }
{
    are_old(schema.tables.as_slice()) && has_key_indexes(schema, EARLIER_KEY_INDEXES)
}
