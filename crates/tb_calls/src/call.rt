use crate::reply::Reply;
use std::alloc::AllocError;
use tb_board::{Key, Name};
use tb_core::Command;
use tb_task::{Moment, TaskId};
use tb_values::{Duplicate, Items};

/// A command of one person, under an identifier that the person gives it. Its name is the two together: two people may use one
/// identifier.
#[derive(Drop)]
pub struct Call {
    pub member: Name,
    pub key: Key,
    pub id: TaskId,
    /// When it came. The moment of the first copy counts.
    pub moment: Moment,
    /// The request as it was sent, by which a copy is told from another request under the same name.
    pub content: Items<u8>,
    pub command: Command,
}

/// What is kept of a call that was answered.
#[derive(Drop)]
pub struct KeptReply {
    pub content: Items<u8>,
    pub reply: Reply,
}

impl Duplicate for KeptReply {
    fn duplicate(&self) -> Result<KeptReply, AllocError> {
        let content = self.content.duplicate()?;
        let reply = self.reply.duplicate()?;
        Ok(KeptReply { content, reply })
    }
}
