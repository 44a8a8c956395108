//! The parts of a text.
ghost use Rattle.std.specs.List.{filter, slice_split};
ghost use Rattle.std.specs.Prelude.{◌≡◌, IfOk, length, map, nat_lt};
ghost use Rattle.tb_my.specs.Splitting.{filled_parts, has_blank, parts_of};
ghost use Rattle.tb_todotxt.specs.Words.{words_of};

use std::alloc::{AllocError, Global};
use tb_todotxt::words_of;
use tb_values::{Items, Text};

/// The parts of a text around its commas.
pub(crate) fn parts_of(alloc: Global, text: &str) -> Result<Vec<&str>, AllocError>
    ensures { IfOk result (λ parts. map (λ part. part.now) parts.items ≡ parts_of text.now) }
{
    text.split(',').collect(alloc)
}

/// Those that aren't empty.
pub(crate) fn filled_parts(alloc: Global, text: &str) -> Result<Items<Text>, AllocError>
    ensures { IfOk result (λ parts. parts ≡ filled_parts text.now) }
{
    let parts = filled(alloc, text)?;
    texts_of(alloc, parts.as_slice())
}

fn filled(alloc: Global, text: &str) -> Result<Vec<&str>, AllocError>
    ensures { IfOk result (λ parts. map (λ part. part.now) parts.items ≡ filled_parts text.now) }
{
    text.split(',').filter(|part| part.len() > 0).collect(alloc)
}

/// The runs of a text without blanks.
pub(crate) fn words_in(alloc: Global, text: &str) -> Result<Items<Text>, AllocError>
    ensures { IfOk result (λ words. words ≡ words_of text.now) }
{
    let words = words_of(alloc, text)?;
    texts_of(alloc, words.as_slice())
}

fn texts_of(alloc: Global, words: &[&str]) -> Result<Items<Text>, AllocError>
    ensures { IfOk result (λ texts. texts ≡ map (λ word. word.now) words.entry.now) }
{
    let mut texts = Items::new(alloc);
    for word in words {
        texts.push(Text::from_str(alloc, word)?)?;
    }
    Ok(texts)
}

pub(crate) fn has_blank(text: &str) -> bool
    ensures { result ≡ has_blank text.now }
{
    for byte in text.as_bytes() {
        if *byte == b' ' {
            return true;
        }
    }
    false
}
