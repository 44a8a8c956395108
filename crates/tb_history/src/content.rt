//! What is shown of a call's content.
ghost use Rattle.std.specs.Prelude.{◌≡◌, option_map};
ghost use Rattle.tb_history.specs.Contents.{content_shown, short_text};

use std::str;
use tb_deeds::DeedKind;

/// The longest content that is shown, in bytes.
const LONGEST_SHOWN: usize = 4096;

/// The content of a call that did something on a board, where it is shown: not that of an import, and only a text of 4,096 bytes at
/// most.
pub fn shown_content(content: &[u8], what: DeedKind) -> Option<&str>
    ensures { option_map (λ text. text.now) result ≡ content_shown what content.now }
{
    match what {
        DeedKind::Import | DeedKind::ImportTodo => None,
        _ => short_text(content),
    }
}

fn short_text(content: &[u8]) -> Option<&str>
    ensures { option_map (λ text. text.now) result ≡ short_text content.now }
{
    if content.len() > LONGEST_SHOWN {
        return None;
    }
    match str::from_utf8(content) {
        Ok(text) => Some(text),
        Err(_) => None,
    }
}
