//! The options `--page FOLDER`, `--growth KIB` and `--burst MIB` of a server, which may stand anywhere behind its order, and `--check`,
//! `--clean` and `--skip`, one of which may stand behind all other words of an import.
ghost use Rattle.std.specs.Prelude.{◌≡◌, ◌++◌, ◌+◌, ◌≤◌, ◌<◌, IfOk, Bool, List, codes, drop, false, is_some, length, map, option_map, slice_get, take, true, ℕ};
ghost use Rattle.std.specs.List.{list_all};
ghost use Rattle.tb_command_line.specs.Order.{Request, is_plain, order_of, texts_of, words_of};
ghost use Rattle.tb_command_line.specs.Outcome.{Reads};
ghost use Rattle.tb_command_line.specs.Extra.{burst_in, bursting, cleaned, cleaning, count_without, growth_in, growth_of, grown, has_option, imports, is_option_front, last_word, mode_in, mode_named, option_in, option_place, paged, serves, with_burst, with_extra, with_growth, with_server, without_burst, without_extra, without_growth, without_mode, without_option, without_server};

use crate::order::{CleanMode, CleanOrder, ImportKind, ImportOrder, Order, WordsFault};
use crate::words::read_listed;
use std::alloc::{AllocError, Global};
use tb_board::Key;
use tb_values::{Text, read_number};

const MOST_GROWTH: u32 = 1_048_576;

const MOST_BURST: u32 = 1_048_576;

/// The order that the words without these options are, with what the options say.
pub(crate) fn read_extra(
    alloc: Global,
    words: &[&str],
    kept: &Option<Key>,
) -> Result<Order, WordsFault>
    ensures { (request : Request)
        → without_extra (map (λ word. word.now) words.entry.now) ≡ words_of request
        → list_all is_plain (texts_of request) ≡ true
        → Reads result (with_extra (map (λ word. word.now) words.entry.now)
        (order_of kept.now request)) }
{
    let order = match read_server(alloc, without_mode(words), kept) {
        Ok(order) => order,
        Err(fault) => return Err(fault),
    };
    match mode_in(words) {
        Some(mode) => cleaning(mode, order),
        None => Ok(order),
    }
}

fn mode_in(words: &[&str]) -> Option<CleanMode>
    ensures { result ≡ mode_in (map (λ word. word.now) words.entry.now) }
{
    if !imports(words) {
        return None;
    }
    match last_word(words) {
        Some(word) => mode_named(word),
        None => None,
    }
}

fn imports(words: &[&str]) -> bool
    ensures { result ≡ imports (map (λ word. word.now) words.entry.now) }
{
    match words.first() {
        Some(word) => *word == "import",
        None => false,
    }
}

fn last_word<'t>(words: &[&'t str]) -> Option<&'t str>
    ensures { option_map (λ text. text.now) result
        ≡ last_word (map (λ word. word.now) words.entry.now) }
{
    if words.len() <= 2 {
        return None;
    }
    match words.get(words.len() - 1) {
        Some(text) => Some(*text),
        None => None,
    }
}

#[tactic(auto, unfolding(crate::specs::Extra::mode_named))]
fn mode_named(word: &str) -> Option<CleanMode>
    ensures { result ≡ mode_named word.now }
{
    match word {
        "--check" => Some(CleanMode::Check),
        "--clean" => Some(CleanMode::Clean),
        "--skip" => Some(CleanMode::Skip),
        _ => None,
    }
}

fn count_without_mode(words: &[&str]) -> usize
    ensures count { result
        ≡ count_without (is_some (mode_in (map (λ word. word.now) words.entry.now))) words.now }
    ensures few { result ≤ length words.now }
{
    if mode_in(words).is_some() {
        words.len().saturating_sub(1)
    } else {
        words.len()
    }
}

fn without_mode<'w, 't>(words: &'w [&'t str]) -> &'w [&'t str]
    ensures { map (λ word. word.now) result.now
        ≡ without_mode (map (λ word. word.now) words.entry.now) }
{
    let end = count_without_mode(words);
    &words[..end]
}

/// The import of an order as one whose text is cleaned first.
fn cleaning(mode: CleanMode, order: Order) -> Result<Order, WordsFault>
    ensures { Reads result (cleaning mode order) }
{
    match order {
        Order::Import(import) => cleaned(mode, false, import),
        Order::ImportAll(import) => cleaned(mode, true, import),
        _ => Err(WordsFault::Bad),
    }
}

fn cleaned(mode: CleanMode, is_all: bool, import: ImportOrder) -> Result<Order, WordsFault>
    ensures { Reads result (cleaned mode is_all import) }
{
    match import.kind {
        ImportKind::Json => Ok(Order::Clean(CleanOrder {
            mode,
            is_all,
            import,
        })),
        ImportKind::Todo => Err(WordsFault::Bad),
    }
}

/// The order that the words without the options of a server are, with what these say.
fn read_server(alloc: Global, words: &[&str], kept: &Option<Key>) -> Result<Order, WordsFault>
    ensures { (request : Request)
        → without_server (map (λ word. word.now) words.entry.now) ≡ words_of request
        → list_all is_plain (texts_of request) ≡ true
        → Reads result (with_server (map (λ word. word.now) words.entry.now)
        (order_of kept.now request)) }
{
    let rest = without_option(alloc, words, "--page")?;
    let order = match read_grown(alloc, rest.as_slice(), kept) {
        Ok(order) => order,
        Err(fault) => return Err(fault),
    };
    match option_in(words, "--page") {
        Some(page) => Ok(paged(Text::from_str(alloc, page)?, order)),
        None => Ok(order),
    }
}

// The order that the words without `--growth` and `--burst` are, with what these say.
fn read_grown(alloc: Global, words: &[&str], kept: &Option<Key>) -> Result<Order, WordsFault>
    ensures { (request : Request)
        → without_burst (without_growth (map (λ word. word.now) words.entry.now)) ≡ words_of request
        → list_all is_plain (texts_of request) ≡ true
        → Reads result (with_growth (growth_in (map (λ word. word.now) words.entry.now))
        (with_burst (burst_in (without_growth (map (λ word. word.now) words.entry.now)))
        (order_of kept.now request))) }
{
    let rest = without_option(alloc, words, "--growth")?;
    let order = match read_burst(alloc, rest.as_slice(), kept) {
        Ok(order) => order,
        Err(fault) => return Err(fault),
    };
    let Some(text) = option_in(words, "--growth") else {
        return Ok(order);
    };
    match growth_of(text) {
        Some(growth) => Ok(grown(growth, order)),
        None => Err(WordsFault::Bad),
    }
}

// The order that the words without `--burst` are, with what it says.
fn read_burst(alloc: Global, words: &[&str], kept: &Option<Key>) -> Result<Order, WordsFault>
    ensures { (request : Request)
        → without_burst (map (λ word. word.now) words.entry.now) ≡ words_of request
        → list_all is_plain (texts_of request) ≡ true
        → Reads result (with_burst (burst_in (map (λ word. word.now) words.entry.now))
        (order_of kept.now request)) }
{
    let rest = without_option(alloc, words, "--burst")?;
    let order = match read_listed(alloc, rest.as_slice(), kept) {
        Ok(order) => order,
        Err(fault) => return Err(fault),
    };
    let Some(text) = option_in(words, "--burst") else {
        return Ok(order);
    };
    match read_number(text, MOST_BURST) {
        Some(burst) => Ok(bursting(burst, order)),
        None => Err(WordsFault::Bad),
    }
}

fn growth_of(text: &str) -> Option<u32>
    ensures { result ≡ growth_of text.now }
{
    if text == "0" {
        return Some(0);
    }
    read_number(text, MOST_GROWTH)
}

fn option_in<'t>(words: &[&'t str], name: &str) -> Option<&'t str>
    ensures { option_map (λ text. text.now) result
        ≡ option_in name.now (map (λ word. word.now) words.entry.now) }
{
    if !has_option(words, name) {
        return None;
    }
    match words.get(option_place(words, name) + 1) {
        Some(text) => Some(*text),
        None => None,
    }
}

#[tactic(auto, using(crate::proofs::Leaving::left_out))]
fn without_option<'t>(
    alloc: Global,
    words: &[&'t str],
    name: &str,
) -> Result<Vec<&'t str>, AllocError>
    ensures { IfOk result
        (λ rest. map (λ word. word.now) rest.items
        ≡ without_option name.now (map (λ word. word.now) words.entry.now)) }
{
    if !has_option(words, name) {
        return Vec::from_slice(alloc, words);
    }
    let place = option_place(words, name);
    let mut rest = Vec::from_slice(alloc, &words[..place])?;
    rest.extend_from_slice(&words[place + 2..])?;
    Ok(rest)
}

fn has_option(words: &[&str], name: &str) -> bool
    ensures value { result ≡ has_option name.now (map (λ word. word.now) words.entry.now) }
    ensures within { result ≡ true
        → option_place name.now (map (λ word. word.now) words.entry.now) + 2 ≤ length words.entry.now }
{
    let place = option_place(words, name);
    let is_within = place + 1 < words.len();
    serves(words) && is_within
}

fn serves(words: &[&str]) -> bool
    ensures { result ≡ serves (map (λ word. word.now) words.entry.now) }
{
    match words.first() {
        Some(word) => *word == "serve",
        None => false,
    }
}

fn is_option_front(words: &[&str], name: &str) -> bool
    ensures { result ≡ is_option_front name.now (map (λ word. word.now) words.entry.now) }
{
    let [word, _, ..] = words else {
        return false;
    };
    *word == name
}

// Where the option of this name stands with a word behind it, or how many words there are.
fn option_place(words: &[&str], name: &str) -> usize
    ensures value { result ≡ option_place name.now (map (λ word. word.now) words.entry.now) }
    ensures short { result ≤ length words.entry.now }
{
    let mut place = 0;
    while place < words.len() {
        if is_option_front(words_from(words, place), name) {
            return place;
        }
        place += 1;
    }
    place
}

fn words_from<'w, 't>(words: &'w [&'t str], place: usize) -> &'w [&'t str]
    requires { place ≤ length words.now }
    ensures { map (λ word. word.now) result.now
        ≡ drop place (map (λ word. word.now) words.entry.now) }
{
    &words[place..]
}

fn paged(page: Text, order: Order) -> Order
    ensures { result ≡ paged page order }
{
    match order {
        Order::Serve(mut serve) => {
            serve.page = Some(page);
            Order::Serve(serve)
        }
        order => order,
    }
}

fn grown(growth: u32, order: Order) -> Order
    ensures { result ≡ grown growth order }
{
    match order {
        Order::Serve(mut serve) => {
            serve.growth = growth;
            Order::Serve(serve)
        }
        order => order,
    }
}

fn bursting(burst: u32, order: Order) -> Order
    ensures { result ≡ bursting burst order }
{
    match order {
        Order::Serve(mut serve) => {
            serve.burst = burst;
            Order::Serve(serve)
        }
        order => order,
    }
}
