//! A look at a board, and the list of the tasks that words find.
ghost use Rattle.std.specs.Prelude.{◌≡◌, ◌∷◌, [], IfErr, IfOk, List, OnOk, Some, codes, true, ℕ};
ghost use Rattle.std.specs.Io.KnownBytes.{Appends};
ghost use Rattle.tb_finding.specs.Listing.{found_text};
ghost use Rattle.tb_mine.specs.Asked.{Asked, IsLookAt, IsListedSo};
ghost use Rattle.tb_mine.specs.Faults.{is_of_asking};
ghost use Rattle.tb_my.specs.Query.{query_of};

use crate::asks::Asks;
use crate::context::Context;
use crate::telling::{refused, text_in, wrong};
use std::alloc::{AllocError, Global};
use std::io::Write;
use tb_finding::found_text;
use tb_my::{Listing, Query, query_of};
use tb_program::{Fault, print_text};
use tb_values::{Duplicate, Items, Text};

/// An export of the board, or none where that is refused.
pub(crate) fn look_at<A: Asks, E: Write>(
    alloc: Global,
    asks: &mut A,
    board: &Text,
    errors: &mut E,
) -> Result<Option<Items<u8>>, Fault>
    ensures asked { IfOk result (λ export. (look : Asked) × A.follows (look ∷ []) asks.old asks.new
        × IsLookAt board.now look export) }
    ensures fault { IfErr result (λ fault. is_of_asking fault ≡ true) }
{
    let answer = asks.ask(export_words(alloc, board)?, None)?;
    if !answer.is_accepted {
        refused(alloc, &answer, errors)?;
        return Ok(None);
    }
    Ok(Some(answer.body))
}

/// The words that show a board's tasks.
fn export_words(alloc: Global, board: &Text) -> Result<Items<Text>, AllocError>
    ensures { IfOk result (λ words. words ≡ codes "export" ∷ board.now ∷ []) }
{
    let mut words = Items::new(alloc);
    words.push(Text::from_str(alloc, "export")?)?;
    words.push(board.duplicate()?)?;
    Ok(words)
}

/// Prints the tasks that words find.
pub(crate) fn ask_list<A: Asks, W: Write, E: Write>(
    alloc: Global,
    asks: &mut A,
    context: &Context,
    listing: Listing,
    words: &[Text],
    writer: &mut W,
    errors: &mut E,
) -> Result<bool, Fault>
    ensures asked { IfOk result (λ is_accepted. (asked : List Asked)
        × A.follows asked asks.old asks.new
        × IsListedSo context.now (query_of context.now.clock context.now.me listing words.now)
        asked (W.contents writer.old) (W.contents writer.new) is_accepted) }
    ensures fault { IfErr result (λ fault. is_of_asking fault ≡ true) }
{
    let query = match query_of(alloc, &context.clock, &context.me, listing, words) {
        Ok(query) => query,
        Err(fault) => {
            wrong(alloc, "", 0, &fault, errors)?;
            return Ok(false);
        }
    };
    match look_at(alloc, asks, &context.board, errors)? {
        Some(export) => {
            print_found(alloc, context, &query, &export, writer)?;
            Ok(true)
        }
        None => Ok(false),
    }
}

fn print_found<W: Write>(
    alloc: Global,
    context: &Context,
    query: &Query,
    export: &Items<u8>,
    writer: &mut W,
) -> Result<(), Fault>
    ensures found { OnOk result ((text : List ℕ)
        × (found_text context.now.clock context.now.style query.now export.now ≡ Some text)
        × Appends (W.contents writer.old) (W.contents writer.new) text) }
    ensures fault { IfErr result (λ fault. is_of_asking fault ≡ true) }
{
    let export = text_in(export)?;
    match found_text(alloc, &context.clock, context.style, query, export)? {
        Some(text) => print_text(writer, text.as_str()),
        None => Err(Fault::NoAnswer), // What came is no board.
    }
}
