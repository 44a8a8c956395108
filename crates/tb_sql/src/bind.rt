//! Values on their way into a statement.

ghost use Rattle.std.specs.Prelude.{◌≡◌, ◌<◌, ◌^◌, option_map};
ghost use Rattle.std.specs.Int.{to_be_bytes, w128};

use tb_task::TaskId;
use tb_values::Text;

/// The 16 bytes of an identifier, as they are kept.
pub(crate) fn identifier_bytes(id: TaskId) -> [u8; 16]
    ensures bytes { result ≡ to_be_bytes w128 id }
    ensures low { id < 2 ^ 128 }
{
    id.bytes()
}

/// The text, if there is one.
pub(crate) fn lent(text: &Option<Text>) -> Option<&str>
    ensures { option_map (λ t. t.now) result ≡ text.now }
{
    match text {
        Some(text) => Some(text.as_str()),
        None => None,
    }
}
