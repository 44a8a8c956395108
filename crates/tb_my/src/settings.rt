//! The settings of `my`: whom to ask, as whom, and of which board.
ghost use Rattle.std.specs.List.{slice_split};
ghost use Rattle.std.specs.Prelude.{◌≡◌, IfOk, is_some, map, option_map};
ghost use Rattle.tb_board.specs.Names.{read_title};
ghost use Rattle.tb_my.specs.Outcome.{Reads};
ghost use Rattle.tb_my.specs.Settings.{asker_of, board_of, is_note, lines_of, name_of, needed_board, no_settings, or_setting, server_of, settings_of, settings_over, value_of, with_line};

use crate::days::after_key;
use crate::fault::{MyFault, bad_line};
use std::alloc::{AllocError, Global};
use tb_board::{Name, Title};
use tb_command_line::is_server;
use tb_values::{Duplicate, Text};

/// What a setting is of.
#[derive(Clone, Copy, Debug, PartialEq, Eq)]
pub enum SettingName {
    /// The file of the settings itself.
    Config,
    Server,
    Name,
    Board,
    KeyFile,
}

/// The settings that are given.
#[derive(Debug, Drop)]
pub struct Settings {
    pub server: Option<Text>,
    pub name: Option<Text>,
    pub board: Option<Text>,
    pub key_file: Option<Text>,
}

/// Whom to ask, as whom, and of which board.
#[derive(Debug, Drop)]
pub struct Asker {
    /// An address and a port.
    pub server: Text,
    pub name: Name,
    /// The number of a board, or its title.
    pub board: Option<Text>,
    /// Where the key is, if not where `send` reads it.
    pub key_file: Option<Text>,
}

/// The settings of lines such as `server = 127.0.0.1:8080`. Blank lines, and lines that begin with `#`, say nothing; of two lines of
/// the same setting the later counts.
pub fn read_settings(alloc: Global, text: &str) -> Result<Settings, MyFault>
    ensures { Reads result (settings_of text.now) }
{
    let lines = lines_of(alloc, text)?;
    let mut settings = Settings {
        server: None,
        name: None,
        board: None,
        key_file: None,
    };
    for line in &lines {
        settings = with_line(alloc, settings, line.trim())?;
    }
    Ok(settings)
}

pub(crate) fn lines_of(alloc: Global, text: &str) -> Result<Vec<&str>, AllocError>
    ensures { IfOk result (λ lines. map (λ line. line.now) lines.items ≡ lines_of text.now) }
{
    text.split('\n').collect(alloc)
}

/// The settings after a line without the white space around it.
fn with_line(alloc: Global, settings: Settings, line: &str) -> Result<Settings, MyFault>
    ensures { Reads result (with_line settings line.now) }
{
    if is_note(line) {
        return Ok(settings);
    }
    let mut settings = settings;
    if let Some(value) = value_of(line, "server") {
        settings.server = Some(Text::from_str(alloc, value)?);
    } else if let Some(value) = value_of(line, "name") {
        settings.name = Some(Text::from_str(alloc, value)?);
    } else if let Some(value) = value_of(line, "board") {
        settings.board = Some(Text::from_str(alloc, value)?);
    } else if let Some(value) = value_of(line, "key-file") {
        settings.key_file = Some(Text::from_str(alloc, value)?);
    } else {
        return Err(bad_line(alloc, line));
    }
    Ok(settings)
}

pub(crate) fn is_note(line: &str) -> bool
    ensures { result ≡ is_note line.now }
{
    match line.as_bytes() {
        [first, ..] => *first == b'#',
        [] => true,
    }
}

/// What stands behind a name and `=`.
pub(crate) fn value_of<'t>(line: &'t str, name: &str) -> Option<&'t str>
    ensures { option_map (λ value. value.now) result ≡ value_of line.now name.now }
{
    let rest = after_key(line, name)?;
    let value = after_key(rest.trim_start(), "=")?;
    Some(value.trim())
}

/// The settings that go before, and others where those lack them.
pub fn settings_over(first: Settings, other: Settings) -> Settings
    ensures { result ≡ settings_over first other }
{
    Settings {
        server: or_setting(first.server, other.server),
        name: or_setting(first.name, other.name),
        board: or_setting(first.board, other.board),
        key_file: or_setting(first.key_file, other.key_file),
    }
}

fn or_setting(first: Option<Text>, other: Option<Text>) -> Option<Text>
    ensures { result ≡ or_setting first other }
{
    match first {
        Some(text) => Some(text),
        None => other,
    }
}

/// Whom to ask by the settings, where each is there and in its form.
pub fn asker_of(alloc: Global, settings: Settings) -> Result<Asker, MyFault>
    ensures { Reads result (asker_of settings) }
{
    let server = server_of(settings.server)?;
    let name = name_of(alloc, settings.name)?;
    let board = board_of(alloc, settings.board)?;
    Ok(Asker {
        server,
        name,
        board,
        key_file: settings.key_file,
    })
}

fn server_of(setting: Option<Text>) -> Result<Text, MyFault>
    ensures { Reads result (server_of setting) }
{
    let Some(text) = setting else {
        return Err(MyFault::Lacks(SettingName::Server));
    };
    if is_server(text.as_str()) {
        Ok(text)
    } else {
        Err(MyFault::Unfit(SettingName::Server))
    }
}

fn name_of(alloc: Global, setting: Option<Text>) -> Result<Name, MyFault>
    ensures { Reads result (name_of setting) }
{
    let Some(text) = setting else {
        return Err(MyFault::Lacks(SettingName::Name));
    };
    match Name::read(alloc, text.as_str())? {
        Some(name) => Ok(name),
        None => Err(MyFault::Unfit(SettingName::Name)),
    }
}

fn board_of(alloc: Global, setting: Option<Text>) -> Result<Option<Text>, MyFault>
    ensures { Reads result (board_of setting) }
{
    let Some(text) = setting else {
        return Ok(None);
    };
    if is_board(alloc, text.as_str())? {
        Ok(Some(text))
    } else {
        Err(MyFault::Unfit(SettingName::Board))
    }
}

/// The board that is asked of, by a word that asks of one.
pub fn needed_board(asker: &Asker) -> Result<Text, MyFault>
    ensures { Reads result (needed_board asker.now) }
{
    match &asker.board {
        Some(board) => Ok(board.duplicate()?),
        None => Err(MyFault::Lacks(SettingName::Board)),
    }
}

/// Whether a text can be a board's title, as each number can.
fn is_board(alloc: Global, text: &str) -> Result<bool, AllocError>
    ensures { IfOk result (λ is. is ≡ is_some (read_title text.now)) }
{
    Ok(Title::read(alloc, text)?.is_some())
}
