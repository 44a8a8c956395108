ghost use Rattle.std.specs.Prelude.{◌≡◌, IfOk, option_map};
ghost use Rattle.tb_history.specs.Pages.{with_content};

use crate::entry::Entry;
use std::alloc::{AllocError, Global};
use tb_board::Name;
use tb_deeds::DeedKind;
use tb_task::{Moment, TaskId};
use tb_values::{Duplicate, Items, Text};

/// Which entries of a board's history are looked at: 100 at most.
#[derive(Clone, Copy, Debug, PartialEq, Eq)]
pub enum Which {
    /// The last ones.
    Last,
    /// Those from a number on.
    From(u32),
    /// The last ones about the task at this place, which is counted from 0.
    OfPlace(usize),
}

/// An entry with its number, as it is shown.
#[derive(Drop)]
pub struct ShownEntry {
    /// The board's first entry has number 1.
    pub number: u32,
    /// When the call came.
    pub moment: Moment,
    pub member: Name,
    /// The identifier that the person gave the call.
    pub call: TaskId,
    pub what: DeedKind,
    /// The one task that it is about.
    pub task: Option<TaskId>,
    /// The content of the call, where it is shown.
    pub content: Option<Text>,
}

/// Entries of a board's history, by number.
#[derive(Drop)]
pub struct HistoryPage {
    /// How many entries the board has.
    pub last: u32,
    pub entries: Items<ShownEntry>,
}

impl ShownEntry {
    /// An entry with its number, its task and what is shown of its call's content.
    pub fn of_entry(
        alloc: Global,
        number: u32,
        entry: &Entry,
        task: Option<TaskId>,
        content: Option<&str>,
    ) -> Result<ShownEntry, AllocError>
        ensures { IfOk result
            (λ shown. shown ≡ with_content number entry.now task
            (option_map (λ text. text.now) content.entry)) }
    {
        let content = match content {
            Some(content) => Some(Text::from_str(alloc, content)?),
            None => None,
        };
        let member = entry.member.duplicate()?;
        Ok(ShownEntry {
            number,
            moment: entry.moment,
            member,
            call: entry.id,
            what: entry.what,
            task,
            content,
        })
    }
}
