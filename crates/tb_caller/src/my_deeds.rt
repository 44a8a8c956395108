//! The words of `my` that ask for more than one call, or for none: they read and write files.
ghost use Rattle.std.specs.Prelude.{◌≡◌, IfErr, IfOk, IfSome, List, Some, false, true};
ghost use Rattle.std.specs.String.{string_bytes};
ghost use Rattle.tb_caller.specs.Asking.{IsAskedBy};
ghost use Rattle.tb_caller.specs.Mine.{IsBringing, IsImported, IsImportedAt, IsTextOf, IsUndone, IsUndoneIn, IsUsed, IsWritten, kind_of};
ghost use Rattle.tb_caller.specs.Faults.{is_of_mine};
ghost use Rattle.tb_mine.specs.Asked.{Asked};

use crate::mine::{Caller, board_of, unfit};
use crate::my_cleaning::cleaned_text;
use crate::my_settings::{CONFIG, config_text};
use std::fs;
use std::io::{BufRead, BufReader, Read, Write};
use tb_board::Key;
use tb_client::Line;
use tb_command_line::ImportKind;
use tb_mine::{find_board, import_parts, number_of, take_back};
use tb_my::{
    Asker, ImportMode, MyFault, Sent, SettingName, asker_of, is_json, kept_before, kept_over,
    kept_rest, kept_sent, lost_in, read_settings, settings_text, undo_head, undone_in, with_board,
    without_mark,
};
use tb_orders::{Chance, Ending, parts_of};
use tb_program::{Fault, print_line};
use tb_sending::{Folder, KeyFolder, MachineDial, ServerLine};
use tb_values::{Items, Text};

/// What takes back the last calls, in the folder of the key.
const UNDO: &str = "undo";

const KEY: &str = "key";

const NOTHING: &str = "There is nothing to take back.";

const NO_HOME: &str = "This machine tells no home, so nothing can be kept in ~/.config/taskboard.";

pub(crate) const UNREAD: &str = "That file can't be read, or isn't UTF-8.";

const LONG_LINE: &str = "A task is longer than 1,048,576 bytes. Nothing was imported.";

const WRITTEN: &str = "Written: ~/.config/taskboard/config. Try it: tb boards";

/// Keeps what takes back a call that was accepted, behind what takes back those of the command before it, and in front of what was kept of
/// commands before.
pub(crate) fn keep_undo(
    rt: &HostRuntime,
    asker: &Asker,
    sent: &Sent,
    kept: &mut Text,
    before: &mut Text,
) -> Result<(), Fault>
    ensures { IfErr result (λ fault. is_of_mine fault ≡ true) }
{
    let line = kept_sent(rt.alloc(), sent)?;
    if line.is_empty() {
        return Ok(());
    }
    let Some(mut folder) = KeyFolder::at_home(rt) else {
        return Ok(());
    };
    let _ = folder.make();
    folder.hold();
    if kept.is_empty() {
        *kept = undo_head(rt.alloc(), asker.server.as_str(), asker.name.as_str())?;
        if let Some(text) = folder.private_text(UNDO) {
            *before = kept_before(rt.alloc(), text.as_str())?;
        }
    }
    kept.push_str(line.as_str())?;
    let all = kept_over(rt.alloc(), kept, before)?;
    let _ = folder.put(UNDO, all.as_str());
    Ok(())
}

/// Takes back the last calls of this person to this server.
pub(crate) fn undo<G: Chance, W: Write>(
    rt: &HostRuntime,
    caller: &mut Caller<'_, G>,
    writer: &mut W,
) -> Result<bool, Fault>
    ensures asked { IfOk result (λ is_accepted. (asked : List Asked)
        × IsAskedBy ⟦<ServerLine<MachineDial<'static>> as Line>⟧.follows G.gives
        asked caller.old caller.new
        × IsUndone (W.contents writer.old) (W.contents writer.new)
        caller.old.asker asked is_accepted) }
    ensures fault { IfErr result (λ fault. is_of_mine fault ≡ true) }
{
    match KeyFolder::at_home(rt) {
        Some(mut folder) => undo_in(rt, caller, &mut folder, writer),
        None => Ok(refuse(rt, NO_HOME)),
    }
}

/// The same over the folder of the key, in which they are forgotten then.
fn undo_in<F: Folder, G: Chance, W: Write>(
    rt: &HostRuntime,
    caller: &mut Caller<'_, G>,
    folder: &mut F,
    writer: &mut W,
) -> Result<bool, Fault>
    ensures asked { IfOk result (λ is_accepted. (asked : List Asked)
        × IsAskedBy ⟦<ServerLine<MachineDial<'static>> as Line>⟧.follows G.gives
        asked caller.old caller.new
        × IsUndoneIn F.has folder.old folder.new (W.contents writer.old) (W.contents writer.new)
        caller.old.asker asked is_accepted) }
    ensures fault { IfErr result (λ fault. is_of_mine fault ≡ true) }
{
    let Some(kept) = folder.text(UNDO) else {
        return Ok(refuse(rt, NOTHING));
    };
    let server = caller.asker.server.as_str();
    let name = caller.asker.name.as_str();
    let all = undone_in(rt.alloc(), server, name, kept.as_str())?;
    let is_known = tell_lost(rt, server, name, kept.as_str())?;
    if all.is_empty() && !is_known {
        return Ok(refuse(rt, NOTHING));
    }
    let rest = kept_rest(rt.alloc(), kept.as_str())?;
    if all.is_empty() {
        folder.put(UNDO, rest.as_str())?;
        return Ok(false);
    }
    let errors = &mut rt.stderr();
    let is_accepted = take_back(rt.alloc(), caller, all.as_slice(), writer, errors)?;
    folder.put(UNDO, rest.as_str())?;
    Ok(is_accepted)
}

/// Tells what can't be taken back of the last command, and says whether there is something.
fn tell_lost(rt: &HostRuntime, server: &str, name: &str, kept: &str) -> Result<bool, Fault>
    ensures { IfErr result (λ fault. is_of_mine fault ≡ true) }
{
    let lost = lost_in(rt.alloc(), server, name, kept)?;
    for told in lost.as_slice() {
        let told = told.as_str();
        let _ = writeln!(&mut rt.stderr(), "Can't be taken back: {told}");
    }
    Ok(!lost.is_empty())
}

/// Tells why nothing is done, which is a refusal.
pub(crate) fn refuse(rt: &HostRuntime, text: &str) -> bool
    ensures { result ≡ false }
{
    let _ = print_line(&mut rt.stderr(), text);
    false
}

/// Writes another board into the settings, if it is there.
pub(crate) fn use_board<G: Chance, W: Write>(
    rt: &HostRuntime,
    caller: &mut Caller<'_, G>,
    board: &Text,
    writer: &mut W,
) -> Result<bool, Fault>
    ensures asked { IfOk result (λ is_accepted. (asked : List Asked)
        × IsAskedBy ⟦<ServerLine<MachineDial<'static>> as Line>⟧.follows G.gives
        asked caller.old caller.new
        × IsUsed board.now (W.contents writer.old) (W.contents writer.new)
        caller.old.asker asked is_accepted) }
    ensures fault { IfErr result (λ fault. is_of_mine fault ≡ true) }
{
    let Some(_) = number_of(rt.alloc(), caller, board.as_str(), &mut rt.stderr())? else {
        return Ok(false);
    };
    keep_board(rt, board, writer)
}

/// Writes another board into the settings.
fn keep_board<W: Write>(rt: &HostRuntime, board: &Text, writer: &mut W) -> Result<bool, Fault>
    ensures kept { IfOk result (IsWritten board.now
        (W.contents writer.old) (W.contents writer.new)) }
    ensures fault { IfErr result (λ fault. is_of_mine fault ≡ true) }
{
    let Some(folder) = KeyFolder::at_home(rt) else {
        return Ok(refuse(rt, NO_HOME));
    };
    let text = match config_text(rt) {
        Ok(text) => text,
        Err(fault) => return Err(unfit(rt, &fault)),
    };
    folder.make()?;
    let board = board.as_str();
    let text = with_board(rt.alloc(), text.as_str(), board)?;
    folder.put(CONFIG, text.as_str())?;
    let mut line = Text::from_str(rt.alloc(), "From now on: board ")?;
    line.push_str(board)?;
    print_line(writer, line.as_str())?;
    Ok(true)
}

/// Asks whom to ask, and writes it into the settings. Notes in them stay, and where the key is.
pub(crate) fn set_up<R: Read + Drop, W: Write>(
    rt: &HostRuntime,
    reader: R,
    writer: &mut W,
) -> Result<Ending, Fault>
    ensures { IfErr result (λ fault. is_of_mine fault ≡ true) }
{
    let Some(folder) = KeyFolder::at_home(rt) else {
        refuse(rt, NO_HOME);
        return Ok(Ending::Refused);
    };
    let before = match config_text(rt) {
        Ok(text) => text,
        Err(fault) => return Err(unfit(rt, &fault)),
    };
    let Ok(mut reader) = BufReader::new(rt.alloc(), reader) else {
        return Err(Fault::Memory);
    };
    let text = ask_settings(rt, before.as_str(), &mut reader, writer)?;
    let asker = match tried(rt, text.as_str()) {
        Ok(asker) => asker,
        Err(fault) => return Err(unfit(rt, &fault)),
    };
    folder.make()?;
    folder.put(CONFIG, text.as_str())?;
    if asker.key_file.is_some() || folder.has(KEY) {
        print_line(writer, WRITTEN)?;
        return Ok(Ending::Accepted);
    }
    let key = answer_to(rt, &mut reader, writer, "Your key, or nothing: ")?;
    keep_key(rt, &folder, key.as_str(), writer)
}

/// The settings by the answers to questions, after what nobody is asked for.
fn ask_settings<R: Read + Drop, W: Write>(
    rt: &HostRuntime,
    before: &str,
    reader: &mut BufReader<R>,
    writer: &mut W,
) -> Result<Text, Fault>
    ensures { IfErr result (λ fault. is_of_mine fault ≡ true) }
{
    let server = answer_to(rt, reader, writer, "Server, as 127.0.0.1:8080: ")?;
    let name = answer_to(rt, reader, writer, "Your name: ")?;
    let board = answer_to(
        rt,
        reader,
        writer,
        "Board, its number or title, or nothing: ",
    )?;
    Ok(settings_text(
        rt.alloc(),
        before,
        server.as_str(),
        name.as_str(),
        board.as_str(),
    )?)
}

/// Whom settings say to ask, where they can be read and are whole.
fn tried(rt: &HostRuntime, text: &str) -> Result<Asker, MyFault> {
    let settings = read_settings(rt.alloc(), text)?;
    asker_of(rt.alloc(), settings)
}

/// Writes a key that was told, if one was.
fn keep_key<W: Write>(
    rt: &HostRuntime,
    folder: &KeyFolder<'_>,
    key: &str,
    writer: &mut W,
) -> Result<Ending, Fault>
    ensures { IfErr result (λ fault. is_of_mine fault ≡ true) }
{
    if !key.is_empty() {
        if Key::read(rt.alloc(), key)?.is_none() {
            return Err(unfit(rt, &MyFault::Unfit(SettingName::KeyFile)));
        }
        let line = format!(in rt.alloc(); "{key}\n")?;
        folder.put(KEY, line.as_str())?;
    }
    print_line(writer, WRITTEN)?;
    Ok(Ending::Accepted)
}

/// The next line of an input, without the white space around it, after a question.
fn answer_to<R: Read + Drop, W: Write>(
    rt: &HostRuntime,
    reader: &mut BufReader<R>,
    writer: &mut W,
    question: &str,
) -> Result<Text, Fault>
    ensures { IfErr result (λ fault. is_of_mine fault ≡ true) }
{
    if writer.write_all(question.as_bytes()).is_err() || writer.flush().is_err() {
        return Err(Fault::WriteFailed);
    }
    let mut line = String::new(rt.alloc());
    if reader.read_line(&mut line).is_err() {
        return Err(Fault::ReadFailed);
    }
    Ok(Text::from_str(rt.alloc(), line.as_str().trim())?)
}

/// Imports a file, or standard input, of any length, in parts.
pub(crate) fn import_file<G: Chance, R: Read + Drop, W: Write>(
    rt: &HostRuntime,
    caller: &mut Caller<'_, G>,
    path: &str,
    mode: ImportMode,
    reader: R,
    writer: &mut W,
) -> Result<bool, Fault>
    ensures asked { IfOk result (λ is_accepted. (asked : List Asked)
        × IsAskedBy ⟦<ServerLine<MachineDial<'static>> as Line>⟧.follows G.gives
        asked caller.old caller.new
        × IsImported path.now mode (R.remaining reader)
        (W.contents writer.old) (W.contents writer.new) caller.old.asker asked is_accepted) }
    ensures fault { IfErr result (λ fault. is_of_mine fault ≡ true) }
{
    let name = board_of(rt, &caller.asker)?;
    let Some(board) = find_board(rt.alloc(), caller, &name, &mut rt.stderr())? else {
        return Ok(false);
    };
    import_into_board(rt, caller, &board, path, mode, reader, writer)
}

fn import_into_board<G: Chance, R: Read + Drop, W: Write>(
    rt: &HostRuntime,
    caller: &mut Caller<'_, G>,
    board: &Text,
    path: &str,
    mode: ImportMode,
    reader: R,
    writer: &mut W,
) -> Result<bool, Fault>
    ensures asked { IfOk result (λ is_accepted. (asked : List Asked)
        × IsAskedBy ⟦<ServerLine<MachineDial<'static>> as Line>⟧.follows G.gives
        asked caller.old caller.new
        × IsImportedAt (Some board.now) path.now mode (R.remaining reader)
        (W.contents writer.old) (W.contents writer.new) asked is_accepted) }
    ensures fault { IfErr result (λ fault. is_of_mine fault ≡ true) }
{
    let Some(text) = text_of(rt, path, reader) else {
        return Ok(refuse(rt, UNREAD));
    };
    let text = text.as_str();
    let Some(bytes) = text_to_bring(rt, text, mode)? else {
        return Ok(false);
    };
    let Some(parts) = parts_of(rt.alloc(), kind_of(text), bytes)? else {
        return Ok(refuse(rt, LONG_LINE));
    };
    let errors = &mut rt.stderr();
    let parts = parts.as_slice();
    import_parts(
        rt.alloc(),
        caller,
        board,
        is_json(text),
        parts,
        writer,
        errors,
    )
}

/// JSON by its first bracket, or lines of todo.txt.
pub(crate) fn kind_of(text: &str) -> ImportKind
    ensures { result ≡ kind_of text.now }
{
    if is_json(text) {
        ImportKind::Json
    } else {
        ImportKind::Todo
    }
}

/// The text as it is, or cleaned; none where it can't be cleaned, which is told.
fn text_to_bring(rt: &HostRuntime, text: &str, mode: ImportMode) -> Result<Option<Items<u8>>, Fault>
    ensures bringing { IfOk result (λ brought. IfSome brought
        (λ bytes. IsBringing mode text.now bytes)) }
    ensures fault { IfErr result (λ fault. is_of_mine fault ≡ true) }
{
    match mode {
        ImportMode::AsItIs => {
            let bytes = without_mark(text).as_bytes();
            Ok(Some(Items::from_vec(Vec::from_slice(rt.alloc(), bytes)?)))
        }
        ImportMode::Skip => cleaned_text(rt, text, true),
        ImportMode::Check | ImportMode::Clean => cleaned_text(rt, text, false),
    }
}

/// The text of a file, or of standard input where its name is a hyphen.
pub(crate) fn text_of<R: Read + Drop>(rt: &HostRuntime, path: &str, mut reader: R) -> Option<String>
    ensures { IfSome result (λ text. IsTextOf path.now (R.remaining reader) (string_bytes text)) }
{
    if path != "-" {
        return fs::read_to_string(rt, path).ok();
    }
    let mut text = String::new(rt.alloc());
    reader.read_to_string(&mut text).ok()?;
    Some(text)
}
