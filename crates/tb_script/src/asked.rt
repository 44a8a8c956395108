//! What a line asks.
use tb_board::{Key, Name};
use tb_calls::{Call, View};
use tb_core::Command;
use tb_task::Moment;

/// What a word asks of its arguments.
#[derive(Drop)]
pub enum Request {
    /// A command, which may change the world.
    Call(Command),
    /// A look, which changes nothing.
    View(View),
}

/// What a line asks of a desk.
#[derive(Drop)]
pub enum Asked {
    Call(Call),
    View(Look),
}

/// A look, by whom and when.
#[derive(Drop)]
pub struct Look {
    pub member: Name,
    pub key: Key,
    pub view: View,
    pub at: Moment,
}
