//! The words that the program was started with, read once more.
ghost use Rattle.std.specs.Prelude.{◌≡◌, IfOk, drop, map};
ghost use Rattle.std.specs.String.{string_bytes};
ghost use Rattle.std.specs.Vec.Iter.{into_iter_items};

use std::alloc::{AllocError, Global};
use std::env::Args;

/// The words behind the first, which names the program.
pub(crate) fn words_behind_first(alloc: Global, words: Args) -> Result<Vec<String>, AllocError>
    ensures { IfOk result (λ rest. rest.items ≡ drop 1 (into_iter_items words)) }
{
    let mut words = words;
    match words.next() {
        Some(_) => collected(alloc, words),
        None => Ok(Vec::new(alloc)),
    }
}

fn collected(alloc: Global, words: Args) -> Result<Vec<String>, AllocError>
    ensures { IfOk result (λ all. all.items ≡ into_iter_items words) }
{
    let mut all = Vec::new(alloc);
    for word in words {
        all.push(word)?;
    }
    Ok(all)
}

pub(crate) fn texts_of<'a>(alloc: Global, words: &'a [String]) -> Result<Vec<&'a str>, AllocError>
    ensures { IfOk result
        (λ texts. map (λ text. text.now) texts.items ≡ map string_bytes words.entry.now) }
{
    let mut texts = Vec::new(alloc);
    for word in words {
        texts.push(word.as_str())?;
    }
    Ok(texts)
}
