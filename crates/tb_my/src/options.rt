//! The options in front of words, the words of a list, and what asks for help.
ghost use Rattle.std.specs.Prelude.{◌≡◌, option_copied, option_map};
ghost use Rattle.tb_my.specs.Options.{after_option, asks_help, board_given, first_option, help_asked, help_of, listed_words, listing_named, seconds_given, words_after_options};
ghost use Rattle.tb_my.specs.Outcome.{Reads};

use crate::fault::MyFault;
use crate::help::{HELP, help_text};
use crate::query::Listing;
use crate::word::MyWord;
use tb_values::{Duplicate, Text, read_number};

/// How long a call is sent again, in seconds, where nobody says.
const USUAL_SECONDS: u32 = 60;

const MOST_SECONDS: u32 = 86_400;

/// The board after `--board`, in front of the words.
pub fn board_given(words: &[Text]) -> Option<&Text>
    ensures { option_copied result ≡ board_given words.now }
{
    match first_option(words, "--board") {
        Some(board) => Some(board),
        None => first_option(after_option(words, "--for"), "--board"),
    }
}

/// How long a call is sent again, by the number after `--for`, in front of the words.
pub fn seconds_given(words: &[Text]) -> Result<u32, MyFault>
    ensures { Reads result (seconds_given words.now) }
{
    let Some(text) = first_option(after_option(words, "--board"), "--for") else {
        return Ok(USUAL_SECONDS);
    };
    match read_number(text.as_str(), MOST_SECONDS) {
        Some(seconds) => Ok(seconds),
        None => Err(MyFault::NoSeconds(text.duplicate()?)),
    }
}

/// The words without these options.
pub fn words_after_options(words: &[Text]) -> &[Text]
    ensures { result.now ≡ words_after_options words.now }
{
    let words = after_option(words, "--board");
    after_option(after_option(words, "--for"), "--board")
}

/// What stands after an option in front of the words.
fn first_option<'w>(words: &'w [Text], name: &str) -> Option<&'w Text>
    ensures { option_copied result ≡ first_option name.now words.now }
{
    let [option, value, ..] = words else {
        return None;
    };
    if option.as_str() == name {
        Some(value)
    } else {
        None
    }
}

fn after_option<'w>(words: &'w [Text], name: &str) -> &'w [Text]
    ensures { result.now ≡ after_option name.now words.now }
{
    let [option, _value, rest @ ..] = words else {
        return words;
    };
    if option.as_str() == name { rest } else { words }
}

/// What is listed, and the words after that: none where nothing is.
pub fn listed_words(words: &[Text]) -> Option<(Listing, &[Text])>
    ensures { option_map (λ listed. (listed.0, listed.1.now)) result ≡ listed_words words.now }
{
    let [word, rest @ ..] = words else {
        return Some((Listing::Tasks, words));
    };
    match listing_named(word.as_str()) {
        Some(listing) => Some((listing, rest)),
        None => None,
    }
}

fn listing_named(word: &str) -> Option<Listing>
    ensures { result ≡ listing_named word.now }
{
    match MyWord::read(word)? {
        MyWord::List => Some(Listing::Tasks),
        MyWord::Next => Some(Listing::Next),
        MyWord::Projects => Some(Listing::Projects),
        MyWord::Tags => Some(Listing::Tags),
        _ => None,
    }
}

/// The help that words ask for: `help`, alone or before a word, or a word with `--help` after it, unless that comes after `--`.
pub fn help_asked(words: &[Text]) -> Option<&'static str>
    ensures { option_map (λ text. text.now) result ≡ help_asked words.now }
{
    match words {
        [word] if word.as_str() == "help" => Some(HELP),
        [word, named] if word.as_str() == "help" => help_of(named),
        [word, rest @ ..] if asks_help(rest) => help_of(word),
        _ => None,
    }
}

fn help_of(word: &Text) -> Option<&'static str>
    ensures { option_map (λ text. text.now) result ≡ help_of word.now }
{
    match MyWord::read(word.as_str()) {
        Some(word) => Some(help_text(word)),
        None => None,
    }
}

fn asks_help(words: &[Text]) -> bool
    ensures { result ≡ asks_help words.now }
{
    for word in words {
        if word.as_str() == "--help" {
            return true;
        }
        if word.as_str() == "--" {
            return false;
        }
    }
    false
}
