//! The rows of the tables, a struct for each.

use tb_task::TaskId;
use tb_values::{Items, Text};

/// The one row of the first table: what the file is, and in which version.
#[derive(Drop)]
pub struct MetaRow {
    pub kind: Text,
    pub version: u32,
}

/// A person, by the number under which the other tables name them.
#[derive(Drop)]
pub struct PersonRow {
    pub id: u32,
    pub name: Text,
    pub secret: Text,
}

/// A board, with the least number from 1 whose made identifier isn't on it.
#[derive(Drop)]
pub struct BoardRow {
    pub id: u32,
    pub title: Text,
    pub low: u32,
}

/// What a person is on a board: 1 is owner, 2 is member, 3 is reader.
#[derive(Clone, Copy, Debug, PartialEq, Eq)]
pub struct RoleRow {
    pub board: u32,
    pub person: u32,
    pub kind: u32,
}

/// A task at its place on a board, as its stored text, and the mask if it is a template.
#[derive(Drop)]
pub struct TaskRow {
    pub board: u32,
    pub place: u32,
    pub uuid: TaskId,
    pub body: Text,
    pub mask: Option<Text>,
}

/// A task depends on another task of the board, both by their places.
#[derive(Clone, Copy, Debug, PartialEq, Eq)]
pub struct LinkRow {
    pub board: u32,
    pub place: u32,
    pub target: u32,
}

/// The task at a place is the instance of this number of a template.
#[derive(Clone, Copy, Debug, PartialEq, Eq)]
pub struct InstanceRow {
    pub board: u32,
    pub template: u32,
    pub imask: u32,
    pub place: u32,
}

/// An instance of a template that isn't on the board, with its character of the mask.
#[derive(Drop)]
pub struct GoneRow {
    pub board: u32,
    pub template: u32,
    pub imask: u32,
    pub mark: Text,
}

/// A reply that is kept under a person and the identifier of a call, with the call's content.
#[derive(Drop)]
pub struct KeptRow {
    pub person: u32,
    pub id: TaskId,
    pub content: Items<u8>,
    pub number: u8,
    pub status: u16,
    pub body: Text,
}

/// How many instances of each template a board has ahead of their time, of a number from 1 to 12.
#[derive(Clone, Copy, Debug, PartialEq, Eq)]
pub struct HorizonRow {
    pub board: u32,
    pub ahead: u32,
}

/// An entry of a board's history: its number on that board, from 1, the moment of its call in seconds, who called and under which
/// identifier, what was done as a number, and the place of the task with which it was done, if it was done with one.
#[derive(Clone, Copy, Debug, PartialEq, Eq)]
pub struct HistoryRow {
    pub board: u32,
    pub number: u32,
    pub moment: u64,
    pub person: u32,
    pub call: TaskId,
    pub what: u32,
    pub task: Option<u32>,
}
