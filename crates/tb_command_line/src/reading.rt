//! The order that the matches of the command line are.
ghost use Rattle.std.specs.Prelude.{◌≡◌, option_map, codes};
ghost use Rattle.clap.specs.Matches.{found_of};
ghost use Rattle.clap.specs.Simple.{subcommand_rows_of};
ghost use Rattle.clap.specs.Walk.{first_of, rows_of};
ghost use Rattle.tb_board.specs.Names.{read_name};
ghost use Rattle.tb_command_line.specs.Reading.{check_at, connections_at, flag_at, import_at, init_at, key_at, key_order_at, named_at, order_at, serve_at, text_at, value_at, view_at};
ghost use Rattle.tb_command_line.specs.Order.{board_in, is_read_in, key_in, kind_in, port_in};
ghost use Rattle.tb_command_line.specs.Outcome.{Reads, or_bad, or_no_key};
ghost use Rattle.tb_task.specs.TaskId.{read_id};

use crate::order::{
    Connections, ImportKind, ImportOrder, InitOrder, KeyOrder, Order, ServeOrder, ViewKind,
    ViewOrder, WordsFault,
};
use clap::ArgMatches;
use std::alloc::Global;
use tb_board::{Key, Name};
use tb_task::TaskId;
use tb_values::{Duplicate, Text, read_number};

const LAST_PORT: u32 = 65_535;

const MOST_CONNECTIONS: u32 = 1_000_000;

const USUAL_CONNECTIONS: u32 = 1_000;

/// How much a person may add in a second, in KiB, and at once, in MiB.
const USUAL_GROWTH: u32 = 4;

const USUAL_BURST: u32 = 256;

pub(crate) fn read_order(
    alloc: Global,
    matches: &ArgMatches<'_>,
    kept: &Option<Key>,
) -> Result<Order, WordsFault>
    ensures { Reads result (order_at kept.now (subcommand_rows_of matches.now)) }
{
    match matches.subcommand() {
        Some((name, found)) => read_named(alloc, name, found, kept),
        None => Err(WordsFault::Bad),
    }
}

#[tactic(auto, unfolding(crate::specs::Reading::named_at))]
fn read_named(
    alloc: Global,
    name: &str,
    found: &ArgMatches<'_>,
    kept: &Option<Key>,
) -> Result<Order, WordsFault>
    ensures { Reads result (named_at kept.now name.now (rows_of (found_of found.now))) }
{
    match name {
        "init" => read_init(alloc, found, kept),
        "serve" => read_serve(alloc, found),
        "run" => Ok(Order::Run),
        "import" => read_import(alloc, found, kept),
        "export" => read_view(alloc, ViewKind::Export, found, kept),
        "list" => read_view(alloc, ViewKind::Listing, found, kept),
        "todo" => read_view(alloc, ViewKind::Todo, found, kept),
        "check" => read_check(alloc, found),
        "key" => read_key_order(alloc, found),
        _ => Err(WordsFault::Bad),
    }
}

fn read_init(alloc: Global, found: &ArgMatches<'_>, kept: &Option<Key>) -> Result<Order, WordsFault>
    ensures { Reads result (init_at kept.now (rows_of (found_of found.now))) }
{
    let file = file_of(alloc, found)?;
    let name = name_of(alloc, found, "name")?;
    let key = key_of(alloc, found, kept)?;
    Ok(Order::Init(InitOrder { file, name, key }))
}

fn read_serve(alloc: Global, found: &ArgMatches<'_>) -> Result<Order, WordsFault>
    ensures { Reads result (serve_at (rows_of (found_of found.now))) }
{
    let file = file_of(alloc, found)?;
    let port = port_of(found)?;
    let connections = connections_of(found)?;
    let log = has_flag(found, "log");
    Ok(Order::Serve(ServeOrder {
        file,
        port,
        connections,
        page: None,
        growth: USUAL_GROWTH,
        burst: USUAL_BURST,
        log,
    }))
}

fn read_import(
    alloc: Global,
    found: &ArgMatches<'_>,
    kept: &Option<Key>,
) -> Result<Order, WordsFault>
    ensures { Reads result (import_at kept.now (rows_of (found_of found.now))) }
{
    let file = file_of(alloc, found)?;
    let member = name_of(alloc, found, "member")?;
    let key = key_of(alloc, found, kept)?;
    let id = id_of(found)?;
    let board = board_of(found)?;
    let kind = kind_of(found)?;
    let asked = ImportOrder {
        file,
        member,
        key,
        id,
        board,
        kind,
    };
    if has_flag(found, "all") {
        Ok(Order::ImportAll(asked))
    } else {
        Ok(Order::Import(asked))
    }
}

fn read_view(
    alloc: Global,
    kind: ViewKind,
    found: &ArgMatches<'_>,
    kept: &Option<Key>,
) -> Result<Order, WordsFault>
    ensures { Reads result (view_at kept.now kind (rows_of (found_of found.now))) }
{
    let file = file_of(alloc, found)?;
    let member = name_of(alloc, found, "member")?;
    let key = key_of(alloc, found, kept)?;
    let board = board_of(found)?;
    Ok(Order::View(ViewOrder {
        kind,
        file,
        member,
        key,
        board,
    }))
}

fn read_check(alloc: Global, found: &ArgMatches<'_>) -> Result<Order, WordsFault>
    ensures { Reads result (check_at (rows_of (found_of found.now))) }
{
    let file = file_of(alloc, found)?;
    Ok(Order::Check(file))
}

fn read_key_order(alloc: Global, found: &ArgMatches<'_>) -> Result<Order, WordsFault>
    ensures { Reads result (key_order_at (rows_of (found_of found.now))) }
{
    let file = file_of(alloc, found)?;
    let name = name_of(alloc, found, "name")?;
    let is_read = is_read_of(found)?;
    Ok(Order::Key(KeyOrder {
        file,
        name,
        is_read,
    }))
}

fn file_of(alloc: Global, found: &ArgMatches<'_>) -> Result<Text, WordsFault>
    ensures { Reads result (text_at (codes "file") (rows_of (found_of found.now))) }
{
    let Some(text) = text_of(found, "file") else {
        return Err(WordsFault::Bad);
    };
    Ok(Text::from_str(alloc, text)?)
}

fn name_of(alloc: Global, found: &ArgMatches<'_>, id: &str) -> Result<Name, WordsFault>
    ensures { Reads result (value_at read_name id.now (rows_of (found_of found.now))) }
{
    let Some(text) = text_of(found, id) else {
        return Err(WordsFault::Bad);
    };
    match Name::read(alloc, text)? {
        Some(name) => Ok(name),
        None => Err(WordsFault::Bad),
    }
}

fn key_of(alloc: Global, found: &ArgMatches<'_>, kept: &Option<Key>) -> Result<Key, WordsFault>
    ensures { Reads result (key_at kept.now (rows_of (found_of found.now))) }
{
    let Some(text) = text_of(found, "key") else {
        return Err(WordsFault::Bad);
    };
    key_in(alloc, text, kept)
}

fn key_in(alloc: Global, text: &str, kept: &Option<Key>) -> Result<Key, WordsFault>
    ensures { Reads result (key_in kept.now text.now) }
{
    if text == "-" {
        return kept_key(kept);
    }
    match Key::read(alloc, text)? {
        Some(key) => Ok(key),
        None => Err(WordsFault::Bad),
    }
}

fn kept_key(kept: &Option<Key>) -> Result<Key, WordsFault>
    ensures { Reads result (or_no_key kept.now) }
{
    match kept {
        Some(key) => Ok(key.duplicate()?),
        None => Err(WordsFault::NoKey),
    }
}

/// Whether a new key is read, which `-` says.
fn is_read_of(found: &ArgMatches<'_>) -> Result<bool, WordsFault>
    ensures { Reads result
        (or_bad (is_read_in (first_of (codes "key") (rows_of (found_of found.now))))) }
{
    match text_of(found, "key") {
        Some("-") => Ok(true),
        None => Ok(false),
        Some(_) => Err(WordsFault::Bad),
    }
}

fn id_of(found: &ArgMatches<'_>) -> Result<TaskId, WordsFault>
    ensures { Reads result (value_at read_id (codes "id") (rows_of (found_of found.now))) }
{
    let Some(text) = text_of(found, "id") else {
        return Err(WordsFault::Bad);
    };
    TaskId::read(text).ok_or(WordsFault::Bad)
}

fn board_of(found: &ArgMatches<'_>) -> Result<u32, WordsFault>
    ensures { Reads result (value_at board_in (codes "board") (rows_of (found_of found.now))) }
{
    let Some(text) = text_of(found, "board") else {
        return Err(WordsFault::Bad);
    };
    read_number(text, u32::MAX).ok_or(WordsFault::Bad)
}

fn kind_of(found: &ArgMatches<'_>) -> Result<ImportKind, WordsFault>
    ensures { Reads result (value_at kind_in (codes "kind") (rows_of (found_of found.now))) }
{
    match text_of(found, "kind") {
        Some("json") => Ok(ImportKind::Json),
        Some("todo") => Ok(ImportKind::Todo),
        _ => Err(WordsFault::Bad),
    }
}

fn port_of(found: &ArgMatches<'_>) -> Result<u16, WordsFault>
    ensures { Reads result (value_at port_in (codes "port") (rows_of (found_of found.now))) }
{
    let Some(text) = text_of(found, "port") else {
        return Err(WordsFault::Bad);
    };
    match read_number(text, LAST_PORT) {
        Some(port) => Ok(port as u16),
        None => Err(WordsFault::Bad),
    }
}

fn connections_of(found: &ArgMatches<'_>) -> Result<Connections, WordsFault>
    ensures { Reads result (connections_at (rows_of (found_of found.now))) }
{
    let is_forever = has_flag(found, "forever");
    match (text_of(found, "connections"), is_forever) {
        (Some(text), false) => match read_number(text, MOST_CONNECTIONS) {
            Some(count) => Ok(Connections::UpTo(count)),
            None => Err(WordsFault::Bad),
        },
        (None, false) => Ok(Connections::UpTo(USUAL_CONNECTIONS)),
        (None, true) => Ok(Connections::Forever),
        (Some(_), true) => Err(WordsFault::Bad),
    }
}

fn has_flag(found: &ArgMatches<'_>, id: &str) -> bool
    ensures { result ≡ flag_at id.now (rows_of (found_of found.now)) }
{
    matches!(text_of(found, id), Some("true"))
}

fn text_of<'a>(found: &ArgMatches<'a>, id: &str) -> Option<&'a str>
    ensures { option_map (λ text. text.now) result
        ≡ first_of id.now (rows_of (found_of found.now)) }
{
    found.get_str(id)
}
