use crate::ahead::Ahead;
use crate::gone::Gone;
use crate::key::Key;
use crate::name::Name;
use crate::title::Title;
use crate::world::Role;
use tb_task::{Task, TaskId};
use tb_values::Shared;

/// One step by which a world changes.
#[derive(Drop)]
pub enum Change {
    /// A task of a board, at its place: a changed one, or a new one at the end. Places count from 0.
    PutTask {
        board: u32,
        place: usize,
        task: Shared<Task>,
    },
    /// A person goes last.
    AddPerson {
        name: Name,
        key: Key,
    },
    /// The person of this name has this key, or none.
    SetKey {
        name: Name,
        key: Option<Key>,
    },
    /// A board without tasks goes last.
    AddBoard {
        number: u32,
        title: Title,
    },
    /// A board has this title.
    SetTitle {
        board: u32,
        title: Title,
    },
    /// A person has this role on a board, or none, both by their numbers.
    SetRole {
        board: u32,
        person: usize,
        role: Option<Role>,
    },
    /// A place of a template's mask is gone, and goes last among those that are.
    SetGone {
        board: u32,
        gone: Gone,
    },
    /// A place of a template's mask isn't gone any more.
    TakeGone {
        board: u32,
        template: TaskId,
        place: u32,
    },
    /// A board looks so many instances ahead.
    SetAhead {
        board: u32,
        ahead: Ahead,
    },
}
