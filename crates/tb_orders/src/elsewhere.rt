//! The key that is kept elsewhere, so that it stands on no command line.
ghost use Rattle.std.specs.Prelude.{◌≡◌, IfOk, IfSome, true};
ghost use Rattle.std.specs.Str.{trim_end};
ghost use Rattle.tb_board.specs.Names.{is_key, read_key};

use std::alloc::{AllocError, Global};
use std::os::unix::fs::PermissionsExt;
use std::{env, fs};
use tb_board::Key;

/// What others may do to a file.
const OTHERS: u32 = 0o077;

/// The key that is kept in the environment, or else in a file that its owner alone may read. None where neither has one.
pub fn kept_key(rt: &HostRuntime) -> Result<Option<Key>, AllocError>
    ensures { IfOk result (λ found. IfSome found (λ key. is_key key ≡ true)) }
{
    if let Ok(text) = env::var(rt, "TASKBOARD_KEY") {
        return Key::read(rt.alloc(), text.as_str());
    }
    match key_text(rt) {
        Some(text) => key_in_file(rt.alloc(), text.as_str()),
        None => Ok(None),
    }
}

/// The key that the text of a file is, without the white space at its end.
fn key_in_file(alloc: Global, text: &str) -> Result<Option<Key>, AllocError>
    ensures { IfOk result (λ found. found ≡ read_key (trim_end text.now)) }
{
    Key::read(alloc, text.trim_end())
}

/// The text of the file of the key, unless others may read or write it.
fn key_text(rt: &HostRuntime) -> Option<String> {
    let home = env::home_dir(rt).ok()??;
    let path = format!(in rt.alloc(); "{}/.config/taskboard/key", home.as_str()).ok()?;
    let found = fs::metadata(rt, path.as_str()).ok()?;
    if found.permissions().mode() & OTHERS != 0 {
        return None;
    }
    fs::read_to_string(rt, path.as_str()).ok()
}
