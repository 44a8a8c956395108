//! What the words of `add` and `change` say of a task.
ghost use Rattle.std.specs.Prelude.{◌≡◌, ◌++◌, IfOk, OnOk, false, option_map};
ghost use Rattle.tb_my.specs.Outcome.{Reads};
ghost use Rattle.tb_my.specs.Said.{letter_priority, marked_said, nothing_said, said_from, unmarked, with_part, with_plain, with_priority};

use crate::fault::MyFault;
use crate::part::{Part, Setting, part_of};
use crate::zone::Clock;
use std::alloc::{AllocError, Global};
use tb_values::{Duplicate, Items, Text};

/// What words say: attributes that are set, tags that are added and taken, tasks on which it depends, and the description.
#[derive(Drop)]
pub(crate) struct Said {
    pub(crate) settings: Items<Setting>,
    pub(crate) tags: Items<Text>,
    pub(crate) untagged: Items<Text>,
    pub(crate) needs: Items<Text>,
    pub(crate) is_json: bool,
    pub(crate) description: Text,
}

/// What words say by a clock to the person of a name, after what was said before. After `--` they are all of the description.
#[tactic(auto, unfolding(crate::specs::Said::said_from))]
pub(crate) fn said_of(
    alloc: Global,
    clock: &Clock,
    me: &Text,
    before: Said,
    words: &[Text],
) -> Result<Said, MyFault>
    ensures { Reads result (said_from clock.now me.now before false words.now) }
{
    let mut said = before;
    let mut is_text = false;
    for word in words {
        if is_text {
            said.push_word(word.as_str())?;
        } else if word.as_str() == "--" {
            is_text = true;
        } else {
            let part = part_of(alloc, clock, me, word.as_str())?;
            said.take(part, word.as_str())?;
        }
    }
    Ok(said)
}

/// What the mark of a priority at the front of words says, as `(A)`.
pub(crate) fn marked_said(alloc: Global, words: &[Text]) -> Result<Said, AllocError>
    ensures { IfOk result (λ said. said ≡ marked_said words.now) }
{
    let mut said = Said::new(alloc);
    if let [first, ..] = words {
        if let Some(priority) = letter_priority(first.as_str()) {
            said.push_priority(alloc, priority)?;
        }
    }
    Ok(said)
}

/// The words after that mark.
pub(crate) fn unmarked(words: &[Text]) -> &[Text]
    ensures { result.now ≡ unmarked words.now }
{
    let [first, rest @ ..] = words else {
        return words;
    };
    match letter_priority(first.as_str()) {
        Some(_) => rest,
        None => words,
    }
}

fn letter_priority(word: &str) -> Option<&'static str>
    ensures { option_map (λ letter. letter.now) result ≡ letter_priority word.now }
{
    match word {
        "(A)" => Some("H"),
        "(B)" => Some("M"),
        "(C)" => Some("L"),
        _ => None,
    }
}

impl Said {
    pub(crate) fn new(alloc: Global) -> Said
        ensures { result ≡ nothing_said }
    {
        Said {
            settings: Items::new(alloc),
            tags: Items::new(alloc),
            untagged: Items::new(alloc),
            needs: Items::new(alloc),
            is_json: false,
            description: Text::new(alloc),
        }
    }

    fn push_priority(&mut self, alloc: Global, priority: &str) -> Result<(), AllocError>
        ensures { OnOk result (self.new ≡ with_priority self.old priority.now) }
    {
        self.settings.push(Setting {
            name: Text::from_str(alloc, "priority")?,
            value: Some(Text::from_str(alloc, priority)?),
        })
    }

    fn take(&mut self, part: Part, word: &str) -> Result<(), AllocError>
        ensures { OnOk result (self.new ≡ with_part self.old part word.now) }
    {
        match part {
            Part::Set(setting) => self.settings.push(setting),
            Part::Tags(tags) => push_texts(&mut self.tags, tags.as_slice()),
            Part::Untag(tag) => self.untagged.push(tag),
            Part::Needs(tasks) => self.needs.push(tasks),
            Part::Json => {
                self.is_json = true;
                Ok(())
            }
            Part::Plain => self.push_word(word),
        }
    }

    /// Puts a word at the end of the description.
    fn push_word(&mut self, word: &str) -> Result<(), AllocError>
        ensures { OnOk result (self.new ≡ with_plain self.old word.now) }
    {
        if !self.description.is_empty() {
            self.description.push_str(" ")?;
        }
        self.description.push_str(word)
    }
}

/// Puts texts at the end of others.
pub(crate) fn push_texts(texts: &mut Items<Text>, more: &[Text]) -> Result<(), AllocError>
    ensures { OnOk result (texts.new ≡ texts.old ++ more.now) }
{
    for text in more {
        texts.push(text.duplicate()?)?;
    }
    Ok(())
}
