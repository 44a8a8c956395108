//! The words of a body, and what they say.
ghost use Rattle.std.specs.Prelude.{◌≡◌, ◌==◌, ◌<◌, ◌++◌, [], length, slice_index, drop, map, IfOk, OnOk, Some, true, option_map};
ghost use Rattle.std.specs.List.{slice_split};
ghost use Rattle.tb_todotxt.specs.Words.{filled_parts as filled, words_of as all_words, has_sign as sign_of, due_in as day_in, id_in as named_in, kind_of as word_kind, no_words, joined, with_plain, with_kind, with_word, with_words, body_words};
ghost use Rattle.tb_todotxt.specs.declared.words.Kind.TheVariants.{Project, Tag};

use crate::day::Day;
use std::alloc::{AllocError, Global};
use tb_task::TaskId;
use tb_values::{Items, NonEmptyText, Text};

/// The parts of a text around its spaces.
fn parts_of(alloc: Global, text: &str) -> Result<Vec<&str>, AllocError>
    ensures { IfOk result
        (λ v. map (λ part. part.now) v.items ≡ slice_split (λ b. b == 32) text.now) }
{
    text.split(' ').collect(alloc)
}

/// The parts of a text around its tabs that aren't empty.
fn filled_parts(alloc: Global, text: &str) -> Result<Vec<&str>, AllocError>
    ensures { IfOk result (λ v. map (λ part. part.now) v.items ≡ filled text.now) }
{
    text.split('\t')
        .filter(|part| part.len() > 0)
        .collect(alloc)
}

/// The runs of a text without space and tab.
pub fn words_of(alloc: Global, text: &str) -> Result<Vec<&str>, AllocError>
    ensures { IfOk result (λ v. map (λ word. word.now) v.items ≡ all_words text.now) }
{
    let parts = parts_of(alloc, text)?;
    let mut words = Vec::new(alloc);
    for part in &parts {
        let mut more = filled_parts(alloc, part)?;
        words.append(&mut more)?;
    }
    Ok(words)
}

/// What a word is for.
#[derive(Clone, Copy, Debug, PartialEq, Eq)]
pub(crate) enum Kind {
    Project,
    Tag,
    Due(Day),
    Id(TaskId),
    Plain,
}

#[tactic(auto, unfolding(crate::specs::Words::kind_of))]
fn kind_of(word: &str) -> Kind
    ensures { result ≡ word_kind word.now }
{
    if has_sign(word.as_bytes(), b'+') {
        return Kind::Project;
    }
    if has_sign(word.as_bytes(), b'@') {
        return Kind::Tag;
    }
    if let Some(day) = due_in(word) {
        return Kind::Due(day);
    }
    match id_in(word) {
        Some(id) => Kind::Id(id),
        None => Kind::Plain,
    }
}

/// Whether a sign stands first, with at least one character after it.
fn has_sign(word: &[u8], sign: u8) -> bool
    ensures { result ≡ sign_of sign word.now }
{
    word.len() > 1 && word[0] == sign
}

fn due_in(word: &str) -> Option<Day>
    ensures { result ≡ day_in word.now }
{
    Day::read(word.strip_prefix("due:")?)
}

/// The identifier of a word that is `uuid:` with one after it.
pub fn id_in(word: &str) -> Option<TaskId>
    ensures { result ≡ named_in word.now }
{
    TaskId::read(word.strip_prefix("uuid:")?)
}

/// What the words of a body say.
#[derive(Drop)]
pub(crate) struct BodyWords {
    pub project: Option<NonEmptyText>,
    /// In the order of their words.
    pub tags: Items<Text>,
    pub due: Option<Day>,
    pub id: Option<TaskId>,
    /// The other words.
    pub description: Text,
}

impl BodyWords {
    fn new(alloc: Global) -> BodyWords
        ensures { result ≡ no_words }
    {
        BodyWords {
            project: None,
            tags: Items::new(alloc),
            due: None,
            id: None,
            description: Text::new(alloc),
        }
    }

    /// What a body says.
    pub(crate) fn of(alloc: Global, body: &str) -> Result<BodyWords, AllocError>
        ensures { IfOk result (λ said. said ≡ body_words body.now) }
    {
        let words = words_of(alloc, body)?;
        let mut said = BodyWords::new(alloc);
        for word in &words {
            said.take(alloc, word)?;
        }
        Ok(said)
    }

    /// Takes the next word: each tag, and of the others the first of its kind.
    fn take(&mut self, alloc: Global, word: &str) -> Result<(), AllocError>
        ensures { OnOk result (self.new ≡ with_word self.old word.now) }
    {
        match kind_of(word) {
            Kind::Tag => self.tags.push(Text::from_str(alloc, after_sign(word))?),
            Kind::Project if self.project.is_none() => self.take_project(alloc, word),
            Kind::Due(day) if self.due.is_none() => {
                self.due = Some(day);
                Ok(())
            }
            Kind::Id(id) if self.id.is_none() => {
                self.id = Some(id);
                Ok(())
            }
            _ => self.push_word(word),
        }
    }

    fn take_project(&mut self, alloc: Global, word: &str) -> Result<(), AllocError>
        requires { sign_of 43 word.now ≡ true }
        ensures { OnOk result (self.new ≡ record self.old { project = Some (drop 1 word.now) }) }
    {
        self.project = NonEmptyText::from_str(alloc, after_sign(word))?;
        Ok(())
    }

    /// Puts a word at the end of the description.
    fn push_word(&mut self, word: &str) -> Result<(), AllocError>
        ensures { OnOk result (self.new ≡ with_plain self.old word.now) }
    {
        if !self.description.is_empty() {
            self.description.push_str(" ")?;
        }
        self.description.push_str(word)
    }
}

/// What follows the sign of a word.
fn after_sign(word: &str) -> &str
    requires long { 1 < length word.now }
    requires sign { slice_index word.now 0 < 128 }
    ensures { result.now ≡ drop 1 word.now }
{
    &word[1..]
}
