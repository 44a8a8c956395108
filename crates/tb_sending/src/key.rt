//! The key under which an order is sent.
ghost use Rattle.std.specs.Prelude.{◌≡◌, IfNone, IfOk, IfSome, None};
ghost use Rattle.tb_sending.specs.Key.{IsKeyOf};

use crate::machine_folder::KeyFolder;
use std::alloc::AllocError;
use std::env;
use tb_board::Key;
use tb_command_line::SendOrder;
use tb_orders::kept_key;
use tb_values::Duplicate;

/// The environment that has the key, before the key file.
const KEY_VARIABLE: &str = "TASKBOARD_KEY";

/// The key of an order: that of its words, or else one that is kept elsewhere.
pub(crate) fn key_of(rt: &HostRuntime, order: &SendOrder) -> Result<Option<Key>, AllocError>
    ensures given { IfOk result (λ found. IfSome found (IsKeyOf order.now.key)) }
    ensures none { IfOk result (λ found. IfNone found (order.now.key ≡ None)) }
{
    match &order.key {
        Some(key) => Ok(Some(key.duplicate()?)),
        None => kept_key(rt),
    }
}

/// The folder of the key file, where an order's key is kept there.
pub(crate) fn folder_of<'a>(rt: &'a HostRuntime, order: &SendOrder) -> Option<KeyFolder<'a>>
    ensures { IfSome result (λ folder. order.now.key ≡ None) }
{
    match &order.key {
        None if env::var(rt, KEY_VARIABLE).is_err() => KeyFolder::at_home(rt),
        _ => None,
    }
}
