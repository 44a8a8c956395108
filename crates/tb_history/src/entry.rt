ghost use Rattle.std.specs.Prelude.{◌≡◌, IfOk};
ghost use Rattle.tb_history.specs.History.{entry_of};

use std::alloc::AllocError;
use tb_board::Name;
use tb_deeds::{Deed, DeedKind};
use tb_task::{Moment, TaskId};
use tb_values::Duplicate;

/// What a call did on a board, as the board's history keeps it.
#[derive(Drop)]
pub struct Entry {
    /// The person whose call it was.
    pub member: Name,
    /// The identifier that this person gave the call.
    pub id: TaskId,
    /// When the call came.
    pub moment: Moment,
    pub what: DeedKind,
    /// The place of the one task that it is about, counted from 0.
    pub place: Option<usize>,
}

impl Entry {
    /// The entry of what a call did, which is known by its person and its identifier.
    pub fn of_deed(
        member: &Name,
        id: TaskId,
        moment: Moment,
        deed: Deed,
    ) -> Result<Entry, AllocError>
        ensures { IfOk result (λ entry. entry ≡ entry_of member.now id moment deed) }
    {
        let member = member.duplicate()?;
        Ok(Entry {
            member,
            id,
            moment,
            what: deed.what,
            place: deed.place,
        })
    }
}
