//! The board that words are about.
ghost use Rattle.std.specs.Prelude.{◌≡◌, ◌∷◌, [], IfErr, IfOk, List, codes, true};
ghost use Rattle.tb_mine.specs.Asked.{Asked};
ghost use Rattle.tb_mine.specs.Faults.{is_of_asking};
ghost use Rattle.tb_mine.specs.Naming.{IsFound, IsNumbered};

use crate::asks::Asks;
use crate::telling::{refused, text_in, wrong};
use std::alloc::{AllocError, Global};
use std::io::Write;
use tb_my::{MyFault, boards_named, is_number};
use tb_program::Fault;
use tb_values::{Duplicate, Items, Text};

/// The number of the board that is named, which is asked for where it is named by its title; none where there is no such board.
pub fn find_board<A: Asks, E: Write>(
    alloc: Global,
    asks: &mut A,
    name: &Text,
    errors: &mut E,
) -> Result<Option<Text>, Fault>
    ensures asked { IfOk result (λ board. (asked : List Asked) × A.follows asked asks.old asks.new
        × IsFound name.now asked board) }
    ensures fault { IfErr result (λ fault. is_of_asking fault ≡ true) }
{
    if is_number(name.as_str()) {
        return Ok(Some(name.duplicate()?));
    }
    number_of(alloc, asks, name.as_str(), errors)
}

/// Asks for the person's boards, and finds the one that has the number, or alone the title.
pub fn number_of<A: Asks, E: Write>(
    alloc: Global,
    asks: &mut A,
    name: &str,
    errors: &mut E,
) -> Result<Option<Text>, Fault>
    ensures asked { IfOk result (λ board. (look : Asked) × A.follows (look ∷ []) asks.old asks.new
        × IsNumbered name.now look board) }
    ensures fault { IfErr result (λ fault. is_of_asking fault ≡ true) }
{
    let answer = asks.ask(me_words(alloc)?, None)?;
    if !answer.is_accepted {
        refused(alloc, &answer, errors)?;
        return Ok(None);
    }
    let numbers = boards_named(alloc, name, text_in(&answer.body)?)?;
    if let [number] = numbers.as_slice() {
        let number = format!(in alloc; "{}", *number)?;
        return Ok(Some(Text::from_string(number)));
    }
    let name = Text::from_str(alloc, name)?;
    let fault = if numbers.is_empty() {
        MyFault::NoBoard(name)
    } else {
        MyFault::TwoBoards(name)
    };
    wrong(alloc, "", 0, &fault, errors)?;
    Ok(None)
}

fn me_words(alloc: Global) -> Result<Items<Text>, AllocError>
    ensures { IfOk result (λ words. words ≡ codes "me" ∷ []) }
{
    let mut words = Items::new(alloc);
    words.push(Text::from_str(alloc, "me")?)?;
    Ok(words)
}
