//! Identifiers of random bytes.
ghost use Rattle.std.specs.Prelude.{◌≡◌};
ghost use Rattle.tb_orders.specs.Identifier.{random_id};

use tb_task::TaskId;

/// The identifier of version 4 that these bytes make.
pub fn random_id(bytes: [u8; 16]) -> TaskId
    ensures { result ≡ random_id bytes }
{
    let mut bytes = bytes;
    bytes[6] = bytes[6] & 0x0f | 0x40;
    bytes[8] = bytes[8] & 0x3f | 0x80;
    TaskId::of_bytes(bytes)
}
