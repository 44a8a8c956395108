//! What takes back the calls of a command, and how it is kept.
ghost use Rattle.std.specs.List.{slice_split};
ghost use Rattle.std.specs.Prelude.{◌≡◌, ◌++◌, ◌∷◌, [], IfOk, OnOk, chars, false, map, string_bytes};
ghost use Rattle.std.specs.Str.{encode_utf8_all};
ghost use Rattle.tb_my.specs.Undo.{after_entry, ended, fields_of, is_control, is_empty, is_end, kept_before, kept_char, kept_chars, kept_entries, kept_line, kept_over, kept_rest, kept_sent, kept_word, left_after, lost_from, lost_in, lost_of, opened_char, opened_chars, opened_word, own_lines, tabbed, tabbed_after, taken_back, undo_head, undone_from, undone_in, undone_of};

use crate::sent::{Sent, call_sent};
use crate::settings::lines_of;
use std::alloc::{AllocError, Global};
use tb_values::{Items, Text};

/// What stands before the character for a control character.
const MARK: char = '\u{1}';

/// How far that is behind the control character.
const CONTROLS: u8 = 64;

/// How many commands are kept beside the last one.
const MOST_KEPT: u32 = 49;

/// Who asked which server, as it stands before what takes back their calls.
pub fn undo_head(alloc: Global, server: &str, name: &str) -> Result<Text, AllocError>
    ensures { IfOk result (λ text. text ≡ undo_head server.now name.now) }
{
    let mut text = String::from_str(alloc, server)?;
    text.push('\t')?;
    text.push_str(name)?;
    text.push('\n')?;
    Ok(Text::from_string(text))
}

/// What is told of an accepted call, and what takes it back, on a line: nothing of a view.
pub fn kept_sent(alloc: Global, sent: &Sent) -> Result<Text, AllocError>
    ensures { IfOk result (λ text. text ≡ kept_sent sent.now) }
{
    kept_line(alloc, sent.told.as_str(), sent.back.as_slice())
}

fn kept_line(alloc: Global, told: &str, back: &[Text]) -> Result<Text, AllocError>
    ensures { IfOk result (λ text. text ≡ kept_line told.now back.now) }
{
    if told.is_empty() {
        return Ok(Text::new(alloc));
    }
    let mut text = String::from_str(alloc, told)?;
    push_tabbed(alloc, &mut text, back)?;
    text.push('\n')?;
    Ok(Text::from_string(text))
}

/// The lines of a command, and after them what was kept of the commands before it.
pub fn kept_over(alloc: Global, command: &Text, before: &Text) -> Result<Text, AllocError>
    ensures { IfOk result (λ text. text ≡ kept_over command.now before.now) }
{
    let mut text = Text::from_str(alloc, command.as_str())?;
    text.push_str("\n")?;
    text.push_str(before.as_str())?;
    Ok(text)
}

/// What was kept, as far as it is kept on beside another command.
pub fn kept_before(alloc: Global, kept: &str) -> Result<Text, AllocError>
    ensures { IfOk result (λ text. text ≡ kept_before kept.now) }
{
    let lines = lines_of(alloc, kept)?;
    Ok(Text::from_string(kept_entries(alloc, lines.as_slice())?))
}

/// What was kept before the last command.
pub fn kept_rest(alloc: Global, kept: &str) -> Result<Text, AllocError>
    ensures { IfOk result (λ text. text ≡ kept_rest kept.now) }
{
    let lines = lines_of(alloc, kept)?;
    Ok(Text::from_string(kept_entries(alloc, after_entry(lines.as_slice()))?))
}

/// The lines after the first empty one.
fn after_entry<'l, 't>(lines: &'l [&'t str]) -> &'l [&'t str]
    ensures { map (λ line. line.now) result.now
        ≡ after_entry (map (λ line. line.now) lines.entry.now) }
{
    for (index, line) in lines.iter().enumerate() {
        if is_empty(line) {
            return &lines[index + 1..];
        }
    }
    &[]
}

/// The lines of so many commands, each with an empty one after it.
fn kept_entries(alloc: Global, lines: &[&str]) -> Result<String, AllocError>
    ensures { IfOk result (λ text. string_bytes text
        ≡ kept_entries 49 false (map (λ line. line.now) lines.entry.now)) }
{
    let mut text = String::new(alloc);
    let mut left = MOST_KEPT;
    let mut is_begun = false;
    for line in lines {
        if is_end(left, is_begun, line) {
            return Ok(text);
        }
        push_ended(&mut text, line)?;
        left = left_after(left, line);
        is_begun = !is_empty(line);
    }
    Ok(text)
}

/// Whether so many commands are over, or a line has none before it that it would end.
fn is_end(left: u32, is_begun: bool, line: &str) -> bool
    ensures { result ≡ is_end left is_begun line.now }
{
    left == 0 || (is_empty(line) && !is_begun)
}

fn is_empty(line: &str) -> bool
    ensures { result ≡ is_empty line.now }
{
    match line.as_bytes() {
        [_first, ..] => false,
        [] => true,
    }
}

fn left_after(left: u32, line: &str) -> u32
    ensures { result ≡ left_after left line.now }
{
    if is_empty(line) {
        left.saturating_sub(1)
    } else {
        left
    }
}

fn push_ended(text: &mut String, line: &str) -> Result<(), AllocError>
    ensures { OnOk result (string_bytes text.new ≡ string_bytes text.old ++ ended line.now) }
{
    text.push_str(line)?;
    text.push('\n')
}

fn push_tabbed(alloc: Global, text: &mut String, words: &[Text]) -> Result<(), AllocError>
    ensures { OnOk result (string_bytes text.new
        ≡ string_bytes text.old ++ tabbed_after (map kept_word words.now)) }
{
    for word in words {
        text.push('\t')?;
        push_word(alloc, text, word.as_str())?;
    }
    Ok(())
}

/// Puts a word at the end, with two characters for each control character, so that it is one field.
#[tactic(auto, unfolding(crate::specs::Undo::kept_word))]
fn push_word(alloc: Global, text: &mut String, word: &str) -> Result<(), AllocError>
    ensures value { OnOk result (string_bytes text.new ≡ string_bytes text.old ++ kept_word word.now) }
    ensures again { opened_word (kept_word word.now) ≡ word.now }
{
    let characters = characters_of(alloc, word)?;
    push_characters(text, characters.as_slice())
}

fn characters_of(alloc: Global, text: &str) -> Result<Vec<char>, AllocError>
    ensures { IfOk result (λ characters. characters.items ≡ chars text.now) }
{
    text.chars().collect(alloc)
}

fn push_characters(text: &mut String, characters: &[char]) -> Result<(), AllocError>
    ensures { OnOk result (string_bytes text.new
        ≡ string_bytes text.old ++ encode_utf8_all (kept_chars characters.now)) }
{
    for character in characters {
        push_character(text, *character)?;
    }
    Ok(())
}

fn push_character(text: &mut String, character: char) -> Result<(), AllocError>
    ensures { OnOk result (string_bytes text.new
        ≡ string_bytes text.old ++ encode_utf8_all (kept_char character)) }
{
    if is_control(character) {
        text.push(MARK)?;
        text.push((character as u8 + CONTROLS) as char)
    } else {
        text.push(character)
    }
}

fn is_control(character: char) -> bool
    ensures { result ≡ is_control character }
{
    character < ' '
}

/// The calls that take back the last command, if this person asked this server for it.
pub fn undone_in(
    alloc: Global,
    server: &str,
    name: &str,
    kept: &str,
) -> Result<Items<Sent>, AllocError>
    ensures { IfOk result (λ sent. sent ≡ undone_in server.now name.now kept.now) }
{
    let lines = lines_of(alloc, kept)?;
    let head = undo_head(alloc, server, name)?;
    undone_from(alloc, own_lines(alloc, head.as_str(), lines.as_slice())?)
}

/// What is told of the calls of that command that nothing takes back.
pub fn lost_in(
    alloc: Global,
    server: &str,
    name: &str,
    kept: &str,
) -> Result<Items<Text>, AllocError>
    ensures { IfOk result (λ told. told ≡ lost_in server.now name.now kept.now) }
{
    let lines = lines_of(alloc, kept)?;
    let head = undo_head(alloc, server, name)?;
    lost_from(alloc, own_lines(alloc, head.as_str(), lines.as_slice())?)
}

/// The lines after this first one: none after another.
fn own_lines<'l, 't>(
    alloc: Global,
    head: &str,
    lines: &'l [&'t str],
) -> Result<&'l [&'t str], AllocError>
    ensures { IfOk result (λ own. map (λ line. line.now) own.now
        ≡ own_lines head.now (map (λ line. line.now) lines.entry.now)) }
{
    let Some((first, rest)) = lines.split_first() else {
        return Ok(lines);
    };
    let mut line = String::from_str(alloc, first)?;
    line.push('\n')?;
    if line.as_str() == head {
        Ok(rest)
    } else {
        Ok(&rest[..0])
    }
}

/// The calls of the lines up to an empty one.
fn undone_from(alloc: Global, lines: &[&str]) -> Result<Items<Sent>, AllocError>
    ensures { IfOk result (λ sent. sent
        ≡ undone_from (map (λ line. line.now) lines.entry.now)) }
{
    let mut sent = Items::new(alloc);
    for line in lines {
        if is_empty(line) {
            return Ok(sent);
        }
        push_undone(alloc, &mut sent, line)?;
    }
    Ok(sent)
}

fn lost_from(alloc: Global, lines: &[&str]) -> Result<Items<Text>, AllocError>
    ensures { IfOk result (λ lost. lost
        ≡ lost_from (map (λ line. line.now) lines.entry.now)) }
{
    let mut lost = Items::new(alloc);
    for line in lines {
        if is_empty(line) {
            return Ok(lost);
        }
        push_lost(alloc, &mut lost, line)?;
    }
    Ok(lost)
}

fn push_lost(alloc: Global, lost: &mut Items<Text>, line: &str) -> Result<(), AllocError>
    ensures { OnOk result (lost.new ≡ lost.old ++ lost_of (fields_of line.now)) }
{
    let fields = fields_of(alloc, line)?;
    push_lost_fields(alloc, lost, fields.as_slice())
}

fn push_lost_fields(
    alloc: Global,
    lost: &mut Items<Text>,
    fields: &[&str],
) -> Result<(), AllocError>
    ensures { OnOk result (lost.new
        ≡ lost.old ++ lost_of (map (λ field. field.now) fields.entry.now)) }
{
    let [told] = fields else {
        return Ok(());
    };
    lost.push(Text::from_str(alloc, told)?)
}

fn push_undone(alloc: Global, sent: &mut Items<Sent>, line: &str) -> Result<(), AllocError>
    ensures { OnOk result (sent.new ≡ sent.old ++ undone_of (fields_of line.now)) }
{
    let fields = fields_of(alloc, line)?;
    push_fields(alloc, sent, fields.as_slice())
}

fn push_fields(alloc: Global, sent: &mut Items<Sent>, fields: &[&str]) -> Result<(), AllocError>
    ensures { OnOk result (sent.new
        ≡ sent.old ++ undone_of (map (λ field. field.now) fields.entry.now)) }
{
    let [told, words @ ..] = fields else {
        return Ok(());
    };
    if words.is_empty() {
        return Ok(());
    }
    sent.push(taken_back(alloc, told, words)?)
}

/// The call of these words, and what is told of it.
fn taken_back(alloc: Global, told: &str, words: &[&str]) -> Result<Sent, AllocError>
    ensures { IfOk result (λ sent. sent
        ≡ taken_back told.now (map (λ word. word.now) words.entry.now)) }
{
    let words = words_of(alloc, words)?;
    let mut text = Text::from_str(alloc, "Taken back: ")?;
    text.push_str(told)?;
    Ok(call_sent(words, text, Items::new(alloc)))
}

fn fields_of(alloc: Global, line: &str) -> Result<Vec<&str>, AllocError>
    ensures { IfOk result (λ fields. map (λ field. field.now) fields.items ≡ fields_of line.now) }
{
    line.split('\t').collect(alloc)
}

fn words_of(alloc: Global, fields: &[&str]) -> Result<Items<Text>, AllocError>
    ensures { IfOk result
        (λ words. words ≡ map opened_word (map (λ field. field.now) fields.entry.now)) }
{
    let mut words = Items::new(alloc);
    for field in fields {
        words.push(opened_word(alloc, field)?)?;
    }
    Ok(words)
}

/// The word that a field was kept of.
#[tactic(auto, unfolding(crate::specs::Undo::opened_word))]
fn opened_word(alloc: Global, field: &str) -> Result<Text, AllocError>
    ensures { IfOk result (λ word. word ≡ opened_word field.now) }
{
    let characters = characters_of(alloc, field)?;
    opened_text(alloc, characters.as_slice())
}

fn opened_text(alloc: Global, characters: &[char]) -> Result<Text, AllocError>
    ensures { IfOk result (λ text. text ≡ encode_utf8_all (opened_chars false characters.now)) }
{
    let mut text = String::new(alloc);
    let mut is_marked = false;
    for character in characters {
        if is_marked {
            text.push(opened_char(*character))?;
            is_marked = false;
        } else if *character == MARK {
            is_marked = true;
        } else {
            text.push(*character)?;
        }
    }
    Ok(Text::from_string(text))
}

fn opened_char(character: char) -> char
    ensures { result ≡ opened_char character }
{
    if '@' <= character && character <= '_' {
        (character as u8 - CONTROLS) as char
    } else {
        character
    }
}
