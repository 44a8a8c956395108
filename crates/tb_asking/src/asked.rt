//! What a message asks for.
use tb_board::{Key, Name};
use tb_calls::{Call, View};

/// Who sends a message.
#[derive(Drop)]
pub struct Sender {
    pub name: Name,
    pub key: Key,
}

/// What a message asks for.
#[derive(Drop)]
pub enum Asked {
    Call(Call),
    /// A view, and who asks for it.
    View(Sender, View),
    /// It doesn't say in a readable way who sends it.
    Unknown,
}
