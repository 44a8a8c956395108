//! Kept replies, as the tables tell them.

ghost use Rattle.std.specs.Prelude.{◌≡◌, false, IfOk, Err, ◌<◌, ◌^◌};
ghost use Rattle.sqlite.specs.Held.{state};
ghost use Rattle.tb_sql.specs.Opening.{IsAsBefore};
ghost use Rattle.tb_sql_tables.specs.Failing.{KeepsFaults};
ghost use Rattle.tb_lookup.specs.Reopening.{OfState, FailsOfState};
ghost use Rattle.tb_lookup.specs.Stored.{reply_in};
ghost use Rattle.tb_lookup.specs.Replies.{IsReplyFound};

use crate::by_key::kept_row_at;
use sqlite::{Alter, Connection};
use tb_calls::{KeptReply, Reply};
use tb_sql::store::StoreFault;
use tb_sql_tables::rows::KeptRow;
use tb_task::TaskId;

/// What is kept of a call, by the number of its person and its identifier.
pub fn stored_reply<S: Alter>(
    conn: &mut Connection<S>,
    person: usize,
    id: TaskId,
) -> Result<Option<KeptReply>, StoreFault>
    requires { conn.old.in_transaction ≡ false }
    ensures idle { conn.new.in_transaction ≡ false }
    ensures found { IfOk result (λ kept. OfState (state S.Store conn.old) (state S.Store conn.new)
        (λ s. IsReplyFound s person id kept)) }
    ensures excused { result ≡ Err StoreFault.Store → person < 2 ^ 32
        → FailsOfState (state S.Store conn.old) (state S.Store conn.new) }
    ensures faults { KeepsFaults (state S.Store conn.old) (state S.Store conn.new) }
    ensures same { IsAsBefore (state S.Store conn.old) (state S.Store conn.new) }
{
    let Ok(person) = u32::try_from(person) else {
        return Err(StoreFault::Store); // No person has such a number.
    };
    match kept_row_at(conn, person, id)? {
        Some(row) => Ok(Some(reply_of(row))),
        None => Ok(None),
    }
}

/// What a row keeps.
fn reply_of(row: KeptRow) -> KeptReply
    ensures { result ≡ reply_in row }
{
    let KeptRow {
        content,
        number,
        status,
        body,
        ..
    } = row;
    let reply = Reply {
        number,
        status,
        body,
    };
    KeptReply { content, reply }
}
