//! The identifiers of tasks, and where the first task of each is.

ghost use Rattle.std.specs.Prelude.{◌≡◌, ℕ, IfOk, OnOk};
ghost use Rattle.std.specs.BTreeMap.{get};
ghost use Rattle.std.specs.Ordering.{nat_cmp};
ghost use Rattle.tb_cleaning.specs.Places.{AreFirsts, place_of, put_place};

use std::alloc::{AllocError, Global};
use std::collections::BTreeMap;
use std::marker::Model;
use tb_task::TaskId;

/// The identifiers in the order of the tasks, and the first place of each. A contract sees their list.
#[derive(Drop)]
pub(crate) struct Ids {
    ids: Vec<Option<TaskId>>,
    firsts: BTreeMap<TaskId, usize>,
}

impl Model for Ids {
    ghost use Rattle.std.specs.Prelude.{ℕ, List, Option};
    ghost use Rattle.tb_cleaning.specs.Places.{AreFirsts};

    ghost Value = { List (Option ℕ) };

    ghost view = { λ s. s.ids.items };

    ghost invariant = { λ s. AreFirsts 0 s.ids.items s.firsts };
}

impl Ids {
    /// Of these identifiers, in their order.
    pub(crate) fn of(alloc: Global, ids: Vec<Option<TaskId>>) -> Result<Ids, AllocError>
        ensures { IfOk result (λ all. all ≡ ids.items) }
    {
        let firsts = firsts_of(alloc, ids.as_slice())?;
        Ok(Ids { ids, firsts })
    }

    /// The first place of an identifier.
    pub(crate) fn place_of(&self, id: TaskId) -> Option<usize>
        ensures { result ≡ place_of self.now id }
    {
        self.firsts.get(&id).copied()
    }
}

/// The first place of each identifier, which is noted last.
fn firsts_of(alloc: Global, ids: &[Option<TaskId>]) -> Result<BTreeMap<TaskId, usize>, AllocError>
    ensures { IfOk result (AreFirsts 0 ids.now) }
{
    let mut firsts = BTreeMap::new(alloc);
    let mut place = ids.len();
    while place > 0 {
        place -= 1;
        put_place(&mut firsts, ids[place], place)?;
    }
    Ok(firsts)
}

/// Notes the place of an identifier, in place of what was noted of it.
fn put_place(
    firsts: &mut BTreeMap<TaskId, usize>,
    id: Option<TaskId>,
    place: usize,
) -> Result<(), AllocError>
    ensures { OnOk result ((q : ℕ) → get nat_cmp firsts.new q
        ≡ put_place id place q (get nat_cmp firsts.old q)) }
{
    if let Some(id) = id {
        firsts.insert(id, place)?;
    }
    Ok(())
}
