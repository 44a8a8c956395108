//! Imports in parts.
ghost use Rattle.std.specs.Prelude.{◌≡◌, ◌∷◌, [], IfErr, IfOk, List, true};
ghost use Rattle.std.specs.Io.KnownBytes.{Appends};
ghost use Rattle.tb_mine.specs.Asked.{Asked};
ghost use Rattle.tb_mine.specs.Faults.{is_of_asking};
ghost use Rattle.tb_mine.specs.Imported.{AreImported, IsImport, imported_line};

use crate::asks::{Answer, Asks};
use crate::telling::{refused, text_in};
use std::alloc::Global;
use std::io::Write;
use tb_my::{Sent, import_told, import_words, refusal_text};
use tb_program::{Fault, print_line};
use tb_values::{Items, Text};

/// Imports the parts of a text into a board, each in its order, up to one that is refused, and prints what came of each.
pub fn import_parts<A: Asks, W: Write, E: Write>(
    alloc: Global,
    asks: &mut A,
    board: &Text,
    is_json: bool,
    parts: &[Items<u8>],
    writer: &mut W,
    errors: &mut E,
) -> Result<bool, Fault>
    ensures asked { IfOk result (λ is_accepted. (asked : List Asked)
        × A.follows asked asks.old asks.new
        × AreImported is_json board.now parts.now asked
        (W.contents writer.old) (W.contents writer.new) is_accepted) }
    ensures fault { IfErr result (λ fault. is_of_asking fault ≡ true) }
{
    for part in parts {
        if !import_part(alloc, asks, board, is_json, part, writer, errors)? {
            return Ok(false);
        }
    }
    Ok(true)
}

fn import_part<A: Asks, W: Write, E: Write>(
    alloc: Global,
    asks: &mut A,
    board: &Text,
    is_json: bool,
    part: &Items<u8>,
    writer: &mut W,
    errors: &mut E,
) -> Result<bool, Fault>
    ensures asked { IfOk result (λ is_accepted. (asked : Asked)
        × A.follows (asked ∷ []) asks.old asks.new
        × IsImport is_json board.now part.now asked
        × (is_accepted ≡ asked.answer.is_accepted)
        × Appends (W.contents writer.old) (W.contents writer.new) (imported_line asked.answer)) }
    ensures fault { IfErr result (λ fault. is_of_asking fault ≡ true) }
{
    let words = import_words(alloc, is_json, board, text_in(part)?)?;
    let answer = asks.ask(words, None)?;
    if !answer.is_accepted {
        refused_part(alloc, &answer, errors)?;
        return Ok(false);
    }
    let told = import_told(alloc, text_in(&answer.body)?)?;
    print_line(writer, told.as_str())?;
    asks.keep(&imported(alloc, told))?;
    Ok(true)
}

/// An import, as it is kept: nothing takes it back.
fn imported(alloc: Global, told: Text) -> Sent {
    Sent {
        words: Items::new(alloc),
        told,
        back: Items::new(alloc),
        call: None,
        adds: None,
        is_json: false,
    }
}

/// Tells why a part is refused: as it came, which says of which task, and in words where there are some.
fn refused_part<E: Write>(alloc: Global, answer: &Answer, errors: &mut E) -> Result<(), Fault>
    ensures fault { IfErr result (λ fault. is_of_asking fault ≡ true) }
{
    let body = text_in(&answer.body)?.trim_end();
    if refusal_text(alloc, body)?.as_str() != body {
        let _ = print_line(errors, body);
    }
    refused(alloc, answer, errors)
}
