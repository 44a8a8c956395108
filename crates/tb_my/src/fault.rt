//! Why words of `my` ask for nothing.
ghost use Rattle.std.specs.Prelude.{◌≡◌, Err};
ghost use Rattle.tb_my.specs.Outcome.{Fails};
ghost use Rattle.tb_my.specs.declared.fault.MyFault.{MyFault as Fault};
ghost use Rattle.tb_my.specs.declared.fault.MyFault.TheVariants.{BadLine as Unlined, Memory, NoAttribute as Unattributed, NoDay as Undated, NoFilter as Unfiltered, NoOption as Unoptioned, NoPlace as Unplaced, NoPriority as Unranked, NoStep as Unstepped, NoTask as Untasked, NoWord as Unworded};

use crate::settings::SettingName;
use crate::word::MyWord;
use std::alloc::{AllocError, Global};
use tb_values::Text;

#[derive(Debug, Drop)]
pub enum MyFault {
    Memory,
    /// It isn't one of the words.
    NoWord(Text),
    /// Behind this word belong others.
    NoForm(MyWord),
    /// No day is named so.
    NoDay(Text),
    /// It isn't `H`, `M` or `L`.
    NoPriority(Text),
    /// No template repeats in such steps.
    NoStep(Text),
    /// The word has no such option.
    NoOption(Text),
    /// It looks as an attribute, and none is named so.
    NoAttribute(Text),
    /// It looks as a filter of the list, and none is named so.
    NoFilter(Text),
    /// It isn't a number of seconds.
    NoSeconds(Text),
    /// The board has no task on this place or of this uuid.
    NoTask(Text),
    /// The same of a word that may be one of a text.
    NoPlace(Text),
    /// A new description is for one task.
    OneTask,
    /// What the first task needs it needs already.
    Linked(Text),
    /// Nothing would change.
    Unchanged,
    /// The person has no board of this number or title.
    NoBoard(Text),
    /// The person has more than one board of this title.
    TwoBoards(Text),
    /// It isn't one of the settings.
    BadLine(Text),
    /// The setting is missing.
    Lacks(SettingName),
    /// The setting isn't in its form.
    Unfit(SettingName),
}

impl From<AllocError> for MyFault {
    ghost from_gives = { λ _ e. e ≡ Memory };

    fn from(_e: AllocError) -> MyFault {
        MyFault::Memory
    }
}

pub(crate) fn no_word(alloc: Global, word: &str) -> MyFault
    ensures { Fails {X = Fault} result (Err (Unworded word.now)) }
{
    match Text::from_str(alloc, word) {
        Ok(word) => MyFault::NoWord(word),
        Err(_) => MyFault::Memory,
    }
}

pub(crate) fn no_day(alloc: Global, word: &str) -> MyFault
    ensures { Fails {X = Fault} result (Err (Undated word.now)) }
{
    match Text::from_str(alloc, word) {
        Ok(word) => MyFault::NoDay(word),
        Err(_) => MyFault::Memory,
    }
}

pub(crate) fn no_priority(alloc: Global, word: &str) -> MyFault
    ensures { Fails {X = Fault} result (Err (Unranked word.now)) }
{
    match Text::from_str(alloc, word) {
        Ok(word) => MyFault::NoPriority(word),
        Err(_) => MyFault::Memory,
    }
}

pub(crate) fn no_task(alloc: Global, word: &str) -> MyFault
    ensures { Fails {X = Fault} result (Err (Untasked word.now)) }
{
    match Text::from_str(alloc, word) {
        Ok(word) => MyFault::NoTask(word),
        Err(_) => MyFault::Memory,
    }
}

pub(crate) fn bad_line(alloc: Global, line: &str) -> MyFault
    ensures { Fails {X = Fault} result (Err (Unlined line.now)) }
{
    match Text::from_str(alloc, line) {
        Ok(line) => MyFault::BadLine(line),
        Err(_) => MyFault::Memory,
    }
}

pub(crate) fn no_step(alloc: Global, word: &str) -> MyFault
    ensures { Fails {X = Fault} result (Err (Unstepped word.now)) }
{
    match Text::from_str(alloc, word) {
        Ok(word) => MyFault::NoStep(word),
        Err(_) => MyFault::Memory,
    }
}

pub(crate) fn no_option(alloc: Global, word: &str) -> MyFault
    ensures { Fails {X = Fault} result (Err (Unoptioned word.now)) }
{
    match Text::from_str(alloc, word) {
        Ok(word) => MyFault::NoOption(word),
        Err(_) => MyFault::Memory,
    }
}

pub(crate) fn no_attribute(alloc: Global, word: &str) -> MyFault
    ensures { Fails {X = Fault} result (Err (Unattributed word.now)) }
{
    match Text::from_str(alloc, word) {
        Ok(word) => MyFault::NoAttribute(word),
        Err(_) => MyFault::Memory,
    }
}

pub(crate) fn no_filter(alloc: Global, word: &str) -> MyFault
    ensures { Fails {X = Fault} result (Err (Unfiltered word.now)) }
{
    match Text::from_str(alloc, word) {
        Ok(word) => MyFault::NoFilter(word),
        Err(_) => MyFault::Memory,
    }
}

pub(crate) fn no_place(alloc: Global, word: &str) -> MyFault
    ensures { Fails {X = Fault} result (Err (Unplaced word.now)) }
{
    match Text::from_str(alloc, word) {
        Ok(word) => MyFault::NoPlace(word),
        Err(_) => MyFault::Memory,
    }
}
