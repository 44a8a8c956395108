//! The identifier by which a server knows a call that is sent again.
ghost use Rattle.std.specs.Prelude.{◌≡◌, IsNone, IsSome};
ghost use Rattle.tb_sending.specs.Drawing.{IsDrawn};

use tb_command_line::SendOrder;
use tb_orders::{Chance, random_id};
use tb_task::TaskId;

/// Gives the call an identifier, if it has none: a random one of version 4. Where there are no random bytes, it still has none.
pub fn name_call<G: Chance>(chance: &mut G, order: &mut SendOrder)
    ensures given { IsSome order.old.id
        → (order.new ≡ order.old) × (chance.new ≡ chance.old) }
    ensures random { IsNone order.old.id
        → IsDrawn G.gives chance.old chance.new order.new.id }
    ensures others { order.new ≡ record order.old { id = order.new.id } }
{
    if order.id.is_some() {
        return;
    }
    order.id = new_id(chance);
}

/// A random identifier, where there are random bytes.
pub fn new_id<G: Chance>(chance: &mut G) -> Option<TaskId>
    ensures { IsDrawn G.gives chance.old chance.new result }
{
    match chance.draw() {
        Some(bytes) => Some(random_id(bytes)),
        None => None,
    }
}
