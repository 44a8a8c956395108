//! Words that ask for something of a board.
ghost use Rattle.std.specs.Prelude.{◌≡◌, IfErr, IfOk, List, Some, true};
ghost use Rattle.tb_mine.specs.Asked.{Asked, IsAskedOfTasks, IsDone};
ghost use Rattle.tb_mine.specs.Faults.{is_of_asking};
ghost use Rattle.tb_mine.specs.Found.{IsDoneOnBoard};
ghost use Rattle.tb_my.specs.Look.{seen_in};

use crate::asks::Asks;
use crate::context::Context;
use crate::listing::{ask_list, look_at};
use crate::naming::find_board;
use crate::sending::ask_seen;
use crate::telling::text_in;
use std::alloc::Global;
use std::io::Write;
use tb_my::{Seen, listed_words, looks, read_seen};
use tb_program::Fault;
use tb_values::{Items, Text};

/// Asks for what words say of the context's board, prints what came of it, and says whether all of it was accepted.
pub fn ask_words<A: Asks, W: Write, E: Write>(
    alloc: Global,
    asks: &mut A,
    context: &Context,
    words: &[Text],
    writer: &mut W,
    errors: &mut E,
) -> Result<bool, Fault>
    ensures asked { IfOk result (λ is_accepted. (asked : List Asked)
        × A.follows asked asks.old asks.new
        × IsDone context.now words.now asked
        (W.contents writer.old) (W.contents writer.new) is_accepted) }
    ensures fault { IfErr result (λ fault. is_of_asking fault ≡ true) }
{
    match listed_words(words) {
        Some((listing, listed)) => {
            ask_list(alloc, asks, context, listing, listed, writer, errors)
        }
        None if looks(words) => ask_of_tasks(alloc, asks, context, words, writer, errors),
        None => ask_seen(alloc, asks, context, &[], words, writer, errors),
    }
}

/// The same of the board that the context names, by its number or its title, which is found first.
pub fn ask_on_board<A: Asks, W: Write, E: Write>(
    alloc: Global,
    asks: &mut A,
    context: Context,
    words: &[Text],
    writer: &mut W,
    errors: &mut E,
) -> Result<bool, Fault>
    ensures asked { IfOk result (λ is_accepted. (asked : List Asked)
        × A.follows asked asks.old asks.new
        × IsDoneOnBoard context words.now asked
        (W.contents writer.old) (W.contents writer.new) is_accepted) }
    ensures fault { IfErr result (λ fault. is_of_asking fault ≡ true) }
{
    match find_board(alloc, asks, &context.board, errors)? {
        Some(board) => {
            let mut found = context;
            found.board = board;
            ask_words(alloc, asks, &found, words, writer, errors)
        }
        None => Ok(false),
    }
}

/// Looks at the board first, whose tasks the words name.
fn ask_of_tasks<A: Asks, W: Write, E: Write>(
    alloc: Global,
    asks: &mut A,
    context: &Context,
    words: &[Text],
    writer: &mut W,
    errors: &mut E,
) -> Result<bool, Fault>
    ensures asked { IfOk result (λ is_accepted. (asked : List Asked)
        × A.follows asked asks.old asks.new
        × IsAskedOfTasks context.now words.now asked
        (W.contents writer.old) (W.contents writer.new) is_accepted) }
    ensures fault { IfErr result (λ fault. is_of_asking fault ≡ true) }
{
    match look_at(alloc, asks, &context.board, errors)? {
        Some(export) => {
            let tasks = seen_of(alloc, &export)?;
            ask_seen(
                alloc,
                asks,
                context,
                tasks.as_slice(),
                words,
                writer,
                errors,
            )
        }
        None => Ok(false),
    }
}

/// The tasks of an export. What is none is no answer.
fn seen_of(alloc: Global, export: &Items<u8>) -> Result<Items<Seen>, Fault>
    ensures seen { IfOk result (λ tasks. seen_in export.now ≡ Some tasks) }
    ensures fault { IfErr result (λ fault. is_of_asking fault ≡ true) }
{
    match read_seen(alloc, text_in(export)?)? {
        Some(tasks) => Ok(tasks),
        None => Err(Fault::NoAnswer),
    }
}
