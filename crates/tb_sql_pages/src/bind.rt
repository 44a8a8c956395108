//! Values on their way into a statement.

ghost use Rattle.std.specs.Prelude.{◌≡◌, ◌<◌, ◌^◌, IfOk, OnOk, pos};
ghost use Rattle.std.specs.Int.{to_be_bytes, w128};

use sqlite::Error;
use tb_task::TaskId;

/// The place of `moment` among the columns of the table, from 0.
const MOMENT: usize = 2;

/// The 16 bytes of an identifier, as they are kept.
pub(crate) fn identifier_bytes(id: TaskId) -> [u8; 16]
    ensures bytes { result ≡ to_be_bytes w128 id }
    ensures low { id < 2 ^ 128 }
{
    id.bytes()
}

/// The number under which a moment is kept. A table has none for seconds from 2^63 on.
pub(crate) fn moment_number(moment: u64) -> Result<i64, Error>
    ensures value { IfOk result (λ number. number ≡ pos moment) }
    ensures low { OnOk result (moment < 2 ^ 63) }
{
    if moment > i64::MAX as u64 {
        return Err(Error::IntegralValueOutOfRange(MOMENT));
    }
    Ok(moment as i64)
}
