//! Imports into a file whose text is cleaned first.
ghost use Rattle.std.specs.Io.KnownBytes.{Appends};
ghost use Rattle.std.specs.Prelude.{◌≡◌, IfErr, IfOk, IfSome, List, Ok, Some, true, ℕ};
ghost use Rattle.sqlite_wal.specs.Files.{image_at};
ghost use Rattle.taskboard.specs.Failing.{IsCutAfter, IsUnbrought, IsUnclean, IsUncleaned, IsUnread};
ghost use Rattle.taskboard.specs.Orders.{IsBrought, IsCleaned, IsCleanedBy, is_skip};
ghost use Rattle.tb_cleaning.specs.Cleaning.{Cleans};
ghost use Rattle.tb_files.specs.Faults.{is_of_imports};
ghost use Rattle.tb_program.specs.declared.fault.Fault.TheVariants.{WriteFailed};
ghost use Rattle.tb_values.specs.Appends.{AppendsFront};

use crate::clock::MachineClock;
use sqlite_disk::Start;
use std::alloc::Global;
use std::io::{ErrorKind, Read, Write};
use tb_caller::tell_notes;
use tb_calls::Keep;
use tb_cleaning::{Cleaned, CleaningFault, clean};
use tb_command_line::{CleanMode, CleanOrder, ImportOrder};
use tb_files::{RealFile, import_into_file, import_parts_into_file};
use tb_keeper::SqlKeep;
use tb_orders::{Ending, OrderFault};
use tb_program::{Fault, print_line, print_text};
use tb_values::Items;

const NOTHING_CAME: &str =
    "Nothing was imported. --skip leaves out what can't be taken, and imports the rest.";

/// Cleans the text of an input and imports it, or tells what cleaning would do.
pub(crate) fn clean_into_file<S: Start, R: Read + Drop, W: Write>(
    rt: &HostRuntime,
    order: &CleanOrder,
    reader: R,
    writer: &mut W,
    start: S,
) -> Result<Ending, OrderFault>
    ensures done { IfOk result (IsCleaned ⟦<SqlKeep<RealFile<S>> as Keep>⟧
        (image_at S.Start) W.contents
        order.now (R.remaining reader) writer.old writer.new) }
    ensures left { IfErr result (IsUncleaned ⟦<SqlKeep<RealFile<S>> as Keep>⟧
        (image_at S.Start) W.contents
        order.now (R.remaining reader) writer.old writer.new) }
    ensures fault { IfErr result (λ failed. is_of_imports failed.fault ≡ true) }
{
    let text = read_all(rt.alloc(), reader)?;
    let cleaned = cleaned(rt.alloc(), &text, is_skip(order.mode))?;
    bring(rt, order, cleaned, writer, start)
}

fn is_skip(mode: CleanMode) -> bool
    ensures { result ≡ is_skip mode }
{
    match mode {
        CleanMode::Check | CleanMode::Clean => false,
        CleanMode::Skip => true,
    }
}

fn cleaned(alloc: Global, text: &Items<u8>, skips: bool) -> Result<Cleaned, Fault>
    ensures cleans { IfOk result (λ cleaned. Cleans skips text.now (Ok cleaned)) }
    ensures unclean { IfErr result (IsUnclean skips text.now) }
    ensures fault { IfErr result (λ fault. is_of_imports fault ≡ true) }
{
    match clean(alloc, text.as_slice(), skips) {
        Ok(cleaned) => Ok(cleaned),
        Err(CleaningFault::NotJson) => Err(Fault::BadBody),
        Err(CleaningFault::TooMany) => Err(Fault::BadBody),
        Err(CleaningFault::Memory) => Err(Fault::Memory),
    }
}

/// Tells the notes, and brings the cleaned text where that is asked for and nothing prevents it.
fn bring<S: Start, W: Write>(
    rt: &HostRuntime,
    order: &CleanOrder,
    cleaned: Cleaned,
    writer: &mut W,
    start: S,
) -> Result<Ending, OrderFault>
    ensures done { IfOk result (IsCleanedBy ⟦<SqlKeep<RealFile<S>> as Keep>⟧
        (image_at S.Start) W.contents
        order.now.mode order.now.is_all order.now.import cleaned writer.old writer.new) }
    ensures left { IfErr result (IsCutAfter ⟦<SqlKeep<RealFile<S>> as Keep>⟧
        (image_at S.Start) W.contents
        order.now.mode order.now.is_all order.now.import cleaned writer.old writer.new) }
    ensures fault { IfErr result (λ failed. is_of_imports failed.fault ≡ true) }
{
    match order.mode {
        CleanMode::Check => Ok(tell_notes(&cleaned, writer)?),
        CleanMode::Clean => {
            let _ = print_text(&mut rt.stderr(), cleaned.notes.as_str());
            if !cleaned.is_whole {
                let _ = print_line(&mut rt.stderr(), NOTHING_CAME);
                return Ok(Ending::Refused);
            }
            bring_text(
                rt,
                order.is_all,
                &order.import,
                &cleaned.text,
                writer,
                start,
            )
        }
        CleanMode::Skip => {
            let _ = print_text(&mut rt.stderr(), cleaned.notes.as_str());
            bring_text(
                rt,
                order.is_all,
                &order.import,
                &cleaned.text,
                writer,
                start,
            )
        }
    }
}

fn bring_text<S: Start, W: Write>(
    rt: &HostRuntime,
    is_all: bool,
    order: &ImportOrder,
    text: &Items<u8>,
    writer: &mut W,
    start: S,
) -> Result<Ending, OrderFault>
    ensures done { IfOk result (IsBrought ⟦<SqlKeep<RealFile<S>> as Keep>⟧
        (image_at S.Start) W.contents
        is_all order.now text.now writer.old writer.new) }
    ensures left { IfErr result (IsUnbrought ⟦<SqlKeep<RealFile<S>> as Keep>⟧
        (image_at S.Start) W.contents
        is_all order.now text.now writer.old writer.new) }
    ensures fault { IfErr result (λ failed. is_of_imports failed.fault ≡ true) }
{
    let mut clock = MachineClock { rt };
    if is_all {
        import_parts_into_file(rt, order, text.as_slice(), &mut clock, writer, start)
    } else {
        import_into_file(rt, order, text.as_slice(), &mut clock, writer, start)
    }
}

/// The whole text of a reader.
fn read_all<R: Read + Drop>(alloc: Global, reader: R) -> Result<Items<u8>, Fault>
    ensures whole { IfSome (R.remaining reader) (λ text. IfOk result (λ read. read ≡ text)) }
    ensures unread { IfErr result IsUnread }
    ensures fault { IfErr result (λ fault. is_of_imports fault ≡ true) }
{
    let mut reader = reader;
    let mut bytes = Vec::new(alloc);
    match reader.read_to_end(&mut bytes) {
        Ok(_) => Ok(Items::from_vec(bytes)),
        Err(error) if error.kind() == ErrorKind::OutOfMemory => Err(Fault::Memory),
        Err(_) => Err(Fault::ReadFailed),
    }
}
