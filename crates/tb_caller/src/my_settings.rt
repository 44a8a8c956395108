//! Where the settings of `my` are: the environment, and a file that its owner alone may read. What they hold isn't known before.
ghost use Rattle.std.specs.Prelude.{◌≡◌, IfErr, IfOk, IfSome, None, Ok, Some, option_copied};
ghost use Rattle.tb_my.specs.declared.fault.MyFault.TheVariants.{Unfit};
ghost use Rattle.tb_my.specs.declared.settings.SettingName.TheVariants.{Config};

use std::env;
use tb_board::Key;
use tb_my::{Asker, MyFault, SettingName, Settings, asker_of, read_settings, settings_over};
use tb_sending::{KeyFolder, key_in_file, path_at_home, private_text};
use tb_values::{Duplicate, Text};

/// The file of the settings, in the folder of the key.
pub(crate) const CONFIG: &str = "config";

/// Whom to ask, by a board that is named before all else, by the environment, and by the file where that lacks a setting.
pub(crate) fn read_asker(rt: &HostRuntime, board: Option<&Text>) -> Result<Asker, MyFault>
    ensures { IfOk result (λ asker. IfSome (option_copied board.entry)
        (λ name. asker.board ≡ Some name)) }
{
    let file = settings_in_file(rt)?;
    let board = match board {
        Some(board) => Some(board.duplicate()?),
        None => variable(rt, "TASKBOARD_BOARD"),
    };
    let first = Settings {
        server: variable(rt, "TASKBOARD_SERVER"),
        name: variable(rt, "TASKBOARD_NAME"),
        board,
        key_file: variable(rt, "TASKBOARD_KEY_FILE"),
    };
    asker_of(rt.alloc(), settings_over(first, file))
}

pub(crate) fn variable(rt: &HostRuntime, name: &str) -> Option<Text> {
    match env::var(rt, name) {
        Ok(text) => Some(Text::from_string(text)),
        Err(_) => None,
    }
}

/// The settings of `~/.config/taskboard/config`: none where there is no such file, or no home.
fn settings_in_file(rt: &HostRuntime) -> Result<Settings, MyFault> {
    let text = config_text(rt)?;
    read_settings(rt.alloc(), text.as_str())
}

/// The text of the file of the settings, empty where there is none.
pub(crate) fn config_text(rt: &HostRuntime) -> Result<Text, MyFault>
    ensures { IfErr result (λ fault. fault ≡ Unfit Config) }
{
    let Some(folder) = KeyFolder::at_home(rt) else {
        return Ok(Text::new(rt.alloc()));
    };
    if !folder.has(CONFIG) {
        return Ok(Text::new(rt.alloc()));
    }
    match folder.private_text(CONFIG) {
        Some(text) => Ok(Text::from_string(text)),
        None => Err(MyFault::Unfit(SettingName::Config)),
    }
}

/// The key in the file that the settings name, or none where they name no file: then it is read where `send` reads it.
pub(crate) fn key_of(rt: &HostRuntime, asker: &Asker) -> Result<Option<Key>, MyFault>
    ensures none { asker.now.key_file ≡ None → result ≡ Ok None }
{
    let Some(path) = &asker.key_file else {
        return Ok(None);
    };
    let path = match path.as_str().strip_prefix("~/") {
        Some(rest) => match path_at_home(rt, rest) {
            Some(path) => path,
            None => return Ok(None),
        },
        None => String::from_str(rt.alloc(), path.as_str())?,
    };
    let Some(text) = private_text(rt, path.as_str()) else {
        return Err(MyFault::Unfit(SettingName::KeyFile));
    };
    match key_in_file(rt.alloc(), text.as_str())? {
        Some(key) => Ok(Some(key)),
        None => Err(MyFault::Unfit(SettingName::KeyFile)),
    }
}
