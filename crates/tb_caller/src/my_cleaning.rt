//! Imports of `my` whose text is cleaned first.
ghost use Rattle.std.specs.Prelude.{◌≡◌, IfErr, IfOk, IfSome, Ok, true};
ghost use Rattle.tb_caller.specs.Mine.{IsChecked, IsCleanText};
ghost use Rattle.tb_caller.specs.Faults.{is_of_mine};
ghost use Rattle.tb_cleaning.specs.Cleaning.{Cleans};

use crate::my_deeds::{UNREAD, kind_of, refuse, text_of};
use crate::notes::tell_notes;
use std::io::{Read, Write};
use tb_cleaning::{Cleaned, CleaningFault, clean};
use tb_command_line::ImportKind;
use tb_orders::Ending;
use tb_program::{Fault, print_line, print_text};
use tb_values::Items;

const ONLY_JSON: &str = "--check, --clean and --skip are for JSON alone, and this text isn't.";

const NO_JSON: &str =
    "This isn't what an import takes: one JSON list, one object, or an object on each line.";

const TOO_MANY: &str = "A board takes 10,000 tasks, and this text has more. Cut it.";

const NOTHING_CAME: &str =
    "Nothing was imported. --skip leaves out what can't be taken, and imports the rest.";

/// What cleaning makes of a text; none where it makes nothing of it, which is told.
fn try_cleaning(rt: &HostRuntime, text: &str, skips: bool) -> Result<Option<Cleaned>, Fault>
    ensures cleaned { IfOk result (λ tried. IfSome tried
        (λ cleaned. Cleans skips text.now (Ok cleaned))) }
    ensures fault { IfErr result (λ fault. is_of_mine fault ≡ true) }
{
    if kind_of(text) == ImportKind::Todo {
        refuse(rt, ONLY_JSON);
        return Ok(None);
    }
    let why = match clean(rt.alloc(), text.as_bytes(), skips) {
        Ok(cleaned) => return Ok(Some(cleaned)),
        Err(CleaningFault::NotJson) => NO_JSON,
        Err(CleaningFault::TooMany) => TOO_MANY,
        Err(CleaningFault::Memory) => return Err(Fault::Memory),
    };
    refuse(rt, why);
    Ok(None)
}

/// The cleaned text. Its notes go to standard error, and a text with tasks that can't be taken is refused, unless they are skipped.
pub(crate) fn cleaned_text(
    rt: &HostRuntime,
    text: &str,
    skips: bool,
) -> Result<Option<Items<u8>>, Fault>
    ensures cleaned { IfOk result (λ brought. IfSome brought (IsCleanText skips text.now)) }
    ensures fault { IfErr result (λ fault. is_of_mine fault ≡ true) }
{
    let Some(cleaned) = try_cleaning(rt, text, skips)? else {
        return Ok(None);
    };
    let _ = print_text(&mut rt.stderr(), cleaned.notes.as_str());
    if cleaned.is_whole || skips {
        return Ok(Some(cleaned.text));
    }
    refuse(rt, NOTHING_CAME);
    Ok(None)
}

/// Tells what cleaning does to a file, and whether all its tasks can be taken.
pub(crate) fn check_file<R: Read + Drop, W: Write>(
    rt: &HostRuntime,
    path: &str,
    reader: R,
    writer: &mut W,
) -> Result<Ending, Fault>
    ensures checked { IfOk result (IsChecked path.now (R.remaining reader)
        (W.contents writer.old) (W.contents writer.new)) }
    ensures fault { IfErr result (λ fault. is_of_mine fault ≡ true) }
{
    let Some(text) = text_of(rt, path, reader) else {
        refuse(rt, UNREAD);
        return Ok(Ending::Refused);
    };
    match try_cleaning(rt, text.as_str(), false)? {
        Some(cleaned) => tell_notes(&cleaned, writer),
        None => Ok(Ending::Refused),
    }
}
