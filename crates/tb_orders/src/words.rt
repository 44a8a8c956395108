//! The words that the program was started with.
ghost use Rattle.std.specs.Prelude.{◌≡◌, ◌∷◌, IfErr, IfOk, List, None, Ok, Some, codes, drop, map, true, ℕ};
ghost use Rattle.std.specs.List.{list_all};
ghost use Rattle.std.specs.String.{string_bytes};
ghost use Rattle.std.specs.Vec.Iter.{into_iter_items};
ghost use Rattle.tb_command_line.specs.Order.{Request, is_plain, order_of, texts_of, words_of};
ghost use Rattle.tb_command_line.specs.Extra.{with_extra, without_extra};
ghost use Rattle.tb_command_line.specs.Sending.{my_of, send_of, told_of};
ghost use Rattle.tb_command_line.specs.declared.order.Order.{Order};
ghost use Rattle.tb_orders.specs.Telling.{ReadsAs, is_of_words};
ghost use Rattle.tb_orders.specs.Words.{IsKeptFor, IsReadOf, has_dash};

use crate::elsewhere::kept_key;
use std::alloc::{AllocError, Global};
use std::env::{self, Args};
use std::io::ErrorKind;
use tb_board::Key;
use tb_command_line::{Order, WordsFault, command_of};
use tb_program::Fault;

/// The words that the program was started with, and the key that is kept elsewhere.
pub trait Started {
    ghost use Rattle.std.specs.Prelude.{List, Option, IfErr, IfOk, true, ◌≡◌, ℕ};
    ghost use Rattle.std.specs.Vec.Iter.{into_iter_items};
    ghost use Rattle.std.specs.declared.alloc.Global.{Global};
    ghost use Rattle.std.specs.declared.string.String.{String};
    ghost use Rattle.tb_orders.specs.Telling.{is_of_words};
    ghost use Rattle.tb_program.specs.declared.fault.Fault.{Fault};

    /// It was started with these words, the first of which names the program.
    ghost gives: { Self → List (String Global) → Type 0 };

    /// The words can't be told, by this fault.
    ghost hides: { Self → Fault → Type 0 };

    /// This key, or none, is kept elsewhere.
    ghost keeps: { Self → Option (List ℕ) → Type 0 };

    fn words(&self) -> Result<Args, Fault>
        ensures given { IfOk result (λ words. gives self.now (into_iter_items words)) }
        ensures hidden { IfErr result (hides self.now) }
        ensures fault { IfErr result (λ fault. is_of_words fault ≡ true) };

    fn kept(&self) -> Result<Option<Key>, AllocError>
        ensures { IfOk result (keeps self.now) };
}

/// What the machine says of the program's start. It isn't known before.
#[derive(Drop)]
pub struct MachineStarted<'a> {
    rt: &'a HostRuntime,
}

impl<'a> MachineStarted<'a> {
    pub fn new(rt: &'a HostRuntime) -> MachineStarted<'a> {
        MachineStarted { rt }
    }
}

impl<'a> Started for MachineStarted<'a> {
    ghost gives = { λ _ _. Unit {0} };

    ghost hides = { λ _ _. Unit {0} };

    ghost keeps = { λ _ _. Unit {0} };

    fn words(&self) -> Result<Args, Fault> {
        match env::args(self.rt) {
            Ok(words) => Ok(words),
            Err(error) if error.kind() == ErrorKind::OutOfMemory => Err(Fault::Memory),
            Err(_) => Err(Fault::Bad),
        }
    }

    fn kept(&self) -> Result<Option<Key>, AllocError> {
        kept_key(self.rt)
    }
}

/// The order that the words after the program's name are. Words that aren't UTF-8 are bad.
pub fn read_order<S: Started>(alloc: Global, started: &S) -> Result<Order, Fault>
    ensures read { IsReadOf S.gives S.hides S.keeps started.now result }
    ensures fault { IfErr result (λ fault. is_of_words fault ≡ true) }
{
    let words = after_first(alloc, started.words()?)?;
    let kept = kept_for(started, words.as_slice())?;
    let texts = texts_of(alloc, words.as_slice())?;
    order_of(alloc, texts.as_slice(), &kept)
}

/// The key that is kept elsewhere, which is looked for where one of the words is `-`.
fn kept_for<S: Started>(started: &S, words: &[String]) -> Result<Option<Key>, AllocError>
    ensures { IfOk result (IsKeptFor S.keeps started.now (has_dash words.now)) }
{
    if has_dash(words) {
        started.kept()
    } else {
        Ok(None)
    }
}

/// Whether a word stands for a key that is kept elsewhere.
fn has_dash(words: &[String]) -> bool
    ensures { result ≡ has_dash words.now }
{
    words.iter().any(|word| word.as_str() == "-")
}

/// The order that words are, with the key that is kept elsewhere, or the program's fault.
pub fn order_of(alloc: Global, words: &[&str], kept: &Option<Key>) -> Result<Order, Fault>
    ensures order { (request : Request)
        → without_extra (map (λ word. word.now) words.entry.now) ≡ words_of request
        → list_all is_plain (texts_of request) ≡ true
        → ReadsAs result
        (with_extra (map (λ word. word.now) words.entry.now)
        (order_of kept.now request)) }
    ensures told { (order : Order) → told_of (map (λ word. word.now) words.entry.now) ≡ Some order
        → result ≡ Ok order }
    ensures sent { (rest : List (List ℕ))
        → map (λ word. word.now) words.entry.now ≡ codes "send" ∷ rest
        → told_of (codes "send" ∷ rest) ≡ None → ReadsAs result (send_of rest) }
    ensures mine { (rest : List (List ℕ))
        → map (λ word. word.now) words.entry.now ≡ codes "my" ∷ rest
        → told_of (codes "my" ∷ rest) ≡ None → ReadsAs result (my_of rest) }
    ensures fault { IfErr result (λ fault. is_of_words fault ≡ true) }
{
    match command_of(alloc, words, kept) {
        Ok(order) => Ok(order),
        Err(WordsFault::Bad) => Err(Fault::Bad),
        Err(WordsFault::NoKey) => Err(Fault::NoKey),
        Err(WordsFault::Memory) => Err(Fault::Memory),
    }
}

fn after_first(alloc: Global, words: Args) -> Result<Vec<String>, AllocError>
    ensures { IfOk result (λ rest. rest.items ≡ drop 1 (into_iter_items words)) }
{
    let mut words = words;
    match words.next() {
        Some(_) => collected(alloc, words),
        None => Ok(Vec::new(alloc)),
    }
}

fn collected(alloc: Global, words: Args) -> Result<Vec<String>, AllocError>
    ensures { IfOk result (λ all. all.items ≡ into_iter_items words) }
{
    let mut all = Vec::new(alloc);
    for word in words {
        all.push(word)?;
    }
    Ok(all)
}

fn texts_of<'a>(alloc: Global, words: &'a [String]) -> Result<Vec<&'a str>, AllocError>
    ensures { IfOk result
        (λ texts. map (λ text. text.now) texts.items ≡ map string_bytes words.entry.now) }
{
    let mut texts = Vec::new(alloc);
    for word in words {
        texts.push(word.as_str())?;
    }
    Ok(texts)
}
