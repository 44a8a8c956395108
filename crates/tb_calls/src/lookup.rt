//! What keepers look up and keep.
ghost use Rattle.std.specs.Prelude.{◌≡◌, IfOk};
ghost use Rattle.tb_board.specs.World.{key_of};

use crate::call::{Call, KeptReply};
use crate::reply::Reply;
use std::alloc::AllocError;
use tb_board::{Key, Name, World};
use tb_values::Duplicate;

/// The key of the person of that name, who may have none.
pub fn key_in(world: &World, name: &Name) -> Result<Option<Key>, AllocError>
    ensures { IfOk result (λ key. key ≡ key_of world.now name.now) }
{
    match world.person(name)? {
        Some(person) => Ok(person.key),
        None => Ok(None),
    }
}

/// What is kept of a call that was answered.
pub fn kept_reply(call: &Call, reply: &Reply) -> Result<KeptReply, AllocError>
    ensures { IfOk result
        (λ kept. kept ≡ record { content = call.now.content; reply = reply.now }) }
{
    let content = call.content.duplicate()?;
    let reply = reply.duplicate()?;
    Ok(KeptReply { content, reply })
}
