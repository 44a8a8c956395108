//! Calls and views, one after the other.
ghost use Rattle.std.specs.Prelude.{◌≡◌, ◌∷◌, [], IfErr, IfOk, List, OnOk, true};
ghost use Rattle.std.specs.Io.KnownBytes.{Appends};
ghost use Rattle.tb_mine.specs.Asked.{Asked, IsAskedFor, IsAskedSo, IsCalled, IsOf, adds_of};
ghost use Rattle.tb_mine.specs.Faults.{is_of_asking};
ghost use Rattle.tb_mine.specs.Printed.{printed_of};
ghost use Rattle.tb_my.specs.Sent.{sent_of};

use crate::adding::ask_added;
use crate::asks::Asks;
use crate::context::Context;
use crate::telling::{refused, tell, wrong};
use std::alloc::Global;
use std::io::Write;
use tb_my::{Seen, Sent, sent_of};
use tb_program::Fault;
use tb_values::{Duplicate, Text};

/// Asks for what words say of a board whose tasks were seen, and says whether all of it was accepted.
pub(crate) fn ask_seen<A: Asks, W: Write, E: Write>(
    alloc: Global,
    asks: &mut A,
    context: &Context,
    tasks: &[Seen],
    words: &[Text],
    writer: &mut W,
    errors: &mut E,
) -> Result<bool, Fault>
    ensures asked { IfOk result (λ is_accepted. (asked : List Asked)
        × A.follows asked asks.old asks.new
        × IsAskedSo context.now tasks.now
        (sent_of context.now.clock context.now.me context.now.call context.now.board
        tasks.now words.now)
        asked (W.contents writer.old) (W.contents writer.new) is_accepted) }
    ensures fault { IfErr result (λ fault. is_of_asking fault ≡ true) }
{
    let board = &context.board;
    match sent_of(
        alloc,
        &context.clock,
        &context.me,
        context.call,
        board,
        tasks,
        words,
    ) {
        Ok(all) => ask_calls(alloc, asks, context, tasks, all.as_slice(), writer, errors),
        Err(fault) => {
            wrong(alloc, board.as_str(), tasks.len(), &fault, errors)?;
            Ok(false)
        }
    }
}

/// Asks for all, and for the number of a task that is added.
fn ask_calls<A: Asks, W: Write, E: Write>(
    alloc: Global,
    asks: &mut A,
    context: &Context,
    tasks: &[Seen],
    all: &[Sent],
    writer: &mut W,
    errors: &mut E,
) -> Result<bool, Fault>
    ensures asked { IfOk result (λ is_accepted. (asked : List Asked)
        × A.follows asked asks.old asks.new
        × IsCalled context.now tasks.now all.now (adds_of all.now)
        asked (W.contents writer.old) (W.contents writer.new) is_accepted) }
    ensures fault { IfErr result (λ fault. is_of_asking fault ≡ true) }
{
    if let [sent] = all {
        if let Some(id) = sent.adds {
            return ask_added(alloc, asks, context, sent, id, writer, errors);
        }
    }
    ask_all(alloc, asks, context, tasks, all, writer, errors)
}

/// Asks for each in its order, also after one that is refused.
fn ask_all<A: Asks, W: Write, E: Write>(
    alloc: Global,
    asks: &mut A,
    context: &Context,
    tasks: &[Seen],
    all: &[Sent],
    writer: &mut W,
    errors: &mut E,
) -> Result<bool, Fault>
    ensures asked { IfOk result (λ is_accepted. (asked : List Asked)
        × A.follows asked asks.old asks.new
        × IsAskedFor (printed_of context.now.clock tasks.now) all.now asked
        (W.contents writer.old) (W.contents writer.new) is_accepted) }
    ensures fault { IfErr result (λ fault. is_of_asking fault ≡ true) }
{
    let mut are_accepted = true;
    for sent in all {
        let is_accepted = ask_one(alloc, asks, context, tasks, sent, writer, errors)?;
        are_accepted = is_accepted && are_accepted;
    }
    Ok(are_accepted)
}

/// Asks for one. What takes it back is kept before it is told.
fn ask_one<A: Asks, W: Write, E: Write>(
    alloc: Global,
    asks: &mut A,
    context: &Context,
    tasks: &[Seen],
    sent: &Sent,
    writer: &mut W,
    errors: &mut E,
) -> Result<bool, Fault>
    ensures asked { IfOk result (λ is_accepted. (asked : Asked)
        × A.follows (asked ∷ []) asks.old asks.new
        × IsOf sent.now asked
        × (is_accepted ≡ asked.answer.is_accepted)
        × Appends (W.contents writer.old) (W.contents writer.new)
        (printed_of context.now.clock tasks.now sent.now asked.answer)) }
    ensures fault { IfErr result (λ fault. is_of_asking fault ≡ true) }
{
    let answer = asks.ask(sent.words.duplicate()?, sent.call)?;
    if !answer.is_accepted {
        refused(alloc, &answer, errors)?;
        return Ok(false);
    }
    asks.keep(sent)?;
    tell(alloc, context, tasks, sent, &answer, writer)?;
    Ok(true)
}
