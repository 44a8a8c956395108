//! What to do where no answer came, or where it couldn't be printed.
ghost use Rattle.std.specs.Prelude.{◌≡◌, ◌++◌, IfOk, OnOk};
ghost use Rattle.std.specs.String.{string_bytes};
ghost use Rattle.tb_causes.specs.Told.{told_text};
ghost use Rattle.tb_causes.specs.Unanswered.{IsUnanswered, IsUnprinted, change_going_on, escaped, first_of, has_body, id_words, may_have_acted, quoted_word, quoted_words, second_of, shown_first, shown_second, shown_words, unanswered_text, unless_none, unprinted_text, with_words, words_again};

use crate::told::Told;
use std::alloc::{AllocError, Global};
use tb_calls::Word;
use tb_client::{Request, is_own_key_alone, places_of, request_of};
use tb_command_line::SendOrder;
use tb_task::TaskId;
use tb_values::{Duplicate, Items, Text};

const UNCHANGED: &str =
    "No answer came in time, and nothing was to change: check that a server runs at ADDRESS:PORT, and ask again.";

const GO_ON: &str =
    "No answer came, and the call may have acted. Resume it under its identifier, with your key for KEY: it acts once.";

const UNPRINTED: &str =
    "Standard output couldn't be written: what was asked for may have been done. Resume a call under its identifier, with your key for KEY: it acts once.";

const GO_ON_KEY: &str =
    "No answer came, and the key may have changed. Both keys are kept: the next order with - as KEY completes the change first, and so does";

/// What is told where no answer came. Without memory it is told as a call, without the words to go on by.
pub(crate) fn told_of_unanswered(alloc: Global, order: &SendOrder) -> Told
    ensures { IsUnanswered order.now (told_text result) }
{
    match told_of_sent(alloc, order) {
        Ok(told) => told,
        Err(_) => Told::Fixed(GO_ON),
    }
}

fn told_of_sent(alloc: Global, order: &SendOrder) -> Result<Told, AllocError>
    ensures { IfOk result (λ told. told_text told ≡ unanswered_text order.now) }
{
    if is_own_key_alone(order.words.as_slice()) {
        return Ok(Told::Made(change_going_on(alloc, order)?));
    }
    if may_have_acted(alloc, order.words.as_slice())? {
        Ok(Told::Made(with_words(alloc, GO_ON, order)?))
    } else {
        Ok(Told::Fixed(UNCHANGED))
    }
}

/// Whether a call may have reached the server. A view changes nothing, and places are looked up before their call is sent.
fn may_have_acted(alloc: Global, words: &[Text]) -> Result<bool, AllocError>
    ensures { IfOk result (λ may. may ≡ may_have_acted words.now) }
{
    let request = request_of(alloc, words)?;
    let places = places_of(alloc, words)?;
    Ok(has_body(&request) && places.is_empty())
}

fn has_body(request: &Option<Request>) -> bool
    ensures { result ≡ has_body request.now }
{
    match request {
        Some(request) => request.body.is_some(),
        None => false,
    }
}

/// How a change of the own key goes on, whose keys are in files.
fn change_going_on(alloc: Global, order: &SendOrder) -> Result<Text, AllocError>
    ensures { IfOk result (λ text. text ≡ change_going_on order.now) }
{
    let server = order.server.as_str();
    let member = order.member.as_str();
    let mut text = String::new(alloc);
    write!(
        text,
        "{GO_ON_KEY}\ntaskboard send {server} {member} - own-key"
    )?;
    Ok(Text::from_string(text))
}

/// What is told where an answer couldn't be printed. Without memory it is told without the words to resume a call by.
pub(crate) fn told_of_unprinted(alloc: Global, order: &SendOrder) -> Told
    ensures { IsUnprinted order.now (told_text result) }
{
    match told_of_answered(alloc, order) {
        Ok(told) => told,
        Err(_) => Told::Fixed(UNPRINTED),
    }
}

fn told_of_answered(alloc: Global, order: &SendOrder) -> Result<Told, AllocError>
    ensures { IfOk result (λ told. told_text told ≡ unprinted_text order.now) }
{
    if may_have_acted(alloc, order.words.as_slice())? {
        Ok(Told::Made(with_words(alloc, UNPRINTED, order)?))
    } else {
        Ok(Told::Fixed(UNPRINTED))
    }
}

/// What happened, and on the next line the words by which a call is resumed.
fn with_words(alloc: Global, told: &str, order: &SendOrder) -> Result<Text, AllocError>
    ensures { IfOk result (λ text. text ≡ with_words told.now order.now) }
{
    let words = words_again(alloc, order)?;
    let words = words.as_str();
    let mut text = String::new(alloc);
    write!(text, "{told}\n{words}")?;
    Ok(Text::from_string(text))
}

fn words_again(alloc: Global, order: &SendOrder) -> Result<Text, AllocError>
    ensures { IfOk result (λ text. text ≡ words_again order.now) }
{
    let id = id_words(alloc, order.id)?;
    let id = id.as_str();
    let server = order.server.as_str();
    let member = order.member.as_str();
    let words = shown_words(alloc, &order.words)?;
    let words = quoted_words(alloc, &words)?;
    let words = words.as_str();
    let mut text = String::new(alloc);
    write!(text, "taskboard send{id} {server} {member} KEY{words}")?;
    Ok(Text::from_string(text))
}

fn id_words(alloc: Global, id: Option<TaskId>) -> Result<Text, AllocError>
    ensures { IfOk result (λ text. text ≡ id_words id) }
{
    let Some(id) = id else {
        return Ok(Text::new(alloc));
    };
    let id = id.text(alloc)?;
    let id = id.as_str();
    let mut text = String::new(alloc);
    write!(text, " --id {id}")?;
    Ok(Text::from_string(text))
}

/// The words, with what names a key in place of each.
fn shown_words(alloc: Global, words: &Items<Text>) -> Result<Items<Text>, AllocError>
    ensures { IfOk result (λ shown. shown ≡ shown_words words.now) }
{
    match words.as_slice() {
        [word, first, second] => {
            let mut shown = Items::new(alloc);
            shown.push(word.duplicate()?)?;
            shown.push(Text::from_str(alloc, shown_first(word.as_str(), first.as_str()))?)?;
            shown.push(Text::from_str(alloc, shown_second(word.as_str(), second.as_str()))?)?;
            Ok(shown)
        }
        _ => words.duplicate(),
    }
}

fn shown_first<'t>(word: &str, first: &'t str) -> &'t str
    ensures { result.now ≡ shown_first word.now first.now }
{
    match Word::read(word) {
        Some(word) => first_of(word, first),
        None => first,
    }
}

fn first_of(word: Word, first: &str) -> &str
    ensures { result.now ≡ first_of word first.now }
{
    match word {
        Word::OwnKey => "OLD",
        Word::List
        | Word::Export
        | Word::Todo
        | Word::Task
        | Word::Add
        | Word::Import
        | Word::ImportTodo
        | Word::Done
        | Word::Delete
        | Word::Reopen
        | Word::Start
        | Word::Stop
        | Word::Annotate
        | Word::Denotate
        | Word::Modify
        | Word::Depend
        | Word::Undepend
        | Word::Sweep
        | Word::Ahead
        | Word::Person
        | Word::Board
        | Word::Role
        | Word::Key
        | Word::Take
        | Word::Title
        | Word::People
        | Word::History
        | Word::HistoryOf
        | Word::Me => first,
    }
}

fn shown_second<'t>(word: &str, second: &'t str) -> &'t str
    ensures { result.now ≡ shown_second word.now second.now }
{
    match Word::read(word) {
        Some(word) => second_of(word, second),
        None => second,
    }
}

fn second_of(word: Word, second: &str) -> &str
    ensures { result.now ≡ second_of word second.now }
{
    match word {
        Word::OwnKey => "NEW",
        Word::Key | Word::Person => unless_none(second),
        Word::List
        | Word::Export
        | Word::Todo
        | Word::Task
        | Word::Add
        | Word::Import
        | Word::ImportTodo
        | Word::Done
        | Word::Delete
        | Word::Reopen
        | Word::Start
        | Word::Stop
        | Word::Annotate
        | Word::Denotate
        | Word::Modify
        | Word::Depend
        | Word::Undepend
        | Word::Sweep
        | Word::Ahead
        | Word::Board
        | Word::Role
        | Word::Take
        | Word::Title
        | Word::People
        | Word::History
        | Word::HistoryOf
        | Word::Me => second,
    }
}

/// A key that is taken away is no key.
fn unless_none(second: &str) -> &str
    ensures { result.now ≡ unless_none second.now }
{
    if second == "none" { second } else { "KEY" }
}

fn quoted_words(alloc: Global, words: &Items<Text>) -> Result<Text, AllocError>
    ensures { IfOk result (λ text. text ≡ quoted_words words.now) }
{
    let mut text = String::new(alloc);
    for word in words.as_slice() {
        push_quoted(&mut text, word.as_str())?;
    }
    Ok(Text::from_string(text))
}

/// Puts a blank and a word at the end, as a shell reads it.
fn push_quoted(text: &mut String, word: &str) -> Result<(), AllocError>
    ensures { OnOk result (string_bytes text.new ≡ string_bytes text.old ++ quoted_word word.now) }
{
    text.push_str(" '")?;
    push_escaped(text, word)?;
    text.push_str("'")
}

/// Puts a word at the end that stands between quotes: around one in it they end and begin again.
fn push_escaped(text: &mut String, word: &str) -> Result<(), AllocError>
    ensures { OnOk result (string_bytes text.new ≡ string_bytes text.old ++ escaped word.now) }
{
    let mut rest = word;
    while let Some((part, behind)) = rest.split_once('\'') {
        text.push_str(part)?;
        text.push_str("'\\''")?;
        rest = behind;
    }
    text.push_str(rest)?;
    Ok(())
}
