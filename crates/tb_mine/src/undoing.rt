//! Calls that take back others.
ghost use Rattle.std.specs.Prelude.{◌≡◌, ◌∷◌, [], IfErr, IfOk, List, true};
ghost use Rattle.std.specs.Io.KnownBytes.{Appends};
ghost use Rattle.tb_mine.specs.Asked.{Asked, IsAskedFor, IsOf};
ghost use Rattle.tb_mine.specs.Faults.{is_of_asking};
ghost use Rattle.tb_mine.specs.Printed.{told_line};

use crate::asks::Asks;
use crate::telling::refused;
use std::alloc::Global;
use std::io::Write;
use tb_my::Sent;
use tb_program::{Fault, print_line};
use tb_values::{Duplicate, Text};

/// Asks for what takes back other calls, each in its order, also after one that is refused, and prints what is said of each.
pub fn take_back<A: Asks, W: Write, E: Write>(
    alloc: Global,
    asks: &mut A,
    all: &[Sent],
    writer: &mut W,
    errors: &mut E,
) -> Result<bool, Fault>
    ensures asked { IfOk result (λ is_accepted. (asked : List Asked)
        × A.follows asked asks.old asks.new
        × IsAskedFor told_line all.now asked
        (W.contents writer.old) (W.contents writer.new) is_accepted) }
    ensures fault { IfErr result (λ fault. is_of_asking fault ≡ true) }
{
    let mut are_accepted = true;
    for sent in all {
        let is_accepted = take_back_one(alloc, asks, sent, writer, errors)?;
        are_accepted = is_accepted && are_accepted;
    }
    Ok(are_accepted)
}

fn take_back_one<A: Asks, W: Write, E: Write>(
    alloc: Global,
    asks: &mut A,
    sent: &Sent,
    writer: &mut W,
    errors: &mut E,
) -> Result<bool, Fault>
    ensures asked { IfOk result (λ is_accepted. (asked : Asked)
        × A.follows (asked ∷ []) asks.old asks.new
        × IsOf sent.now asked
        × (is_accepted ≡ asked.answer.is_accepted)
        × Appends (W.contents writer.old) (W.contents writer.new)
        (told_line sent.now asked.answer)) }
    ensures fault { IfErr result (λ fault. is_of_asking fault ≡ true) }
{
    let answer = asks.ask(sent.words.duplicate()?, sent.call)?;
    if !answer.is_accepted {
        refused(alloc, &answer, errors)?;
        return Ok(false);
    }
    print_line(writer, sent.told.as_str())?;
    Ok(true)
}
