ghost use Rattle.std.specs.Prelude.{◌≡◌, IfOk, map};
ghost use Rattle.std.specs.FinMap.{find};
ghost use Rattle.tb_board.specs.World.{key_of};
ghost use Rattle.tb_calls.specs.Call.{name_cmp, opening};
ghost use Rattle.tb_desk.specs.ListKeep.{call_name, named};

use crate::entry_list::{BoardEntry, entry_by, put_last};
use crate::pages::page_of;
use std::alloc::{AllocError, Global};
use std::collections::BTreeMap;
use tb_board::{Board, Change, Key, Name, World};
use tb_calls::{
    BoardRole, Call, Keep, KeepFault, KeptReply, PersonRole, Reply, Written, boards_of, kept_reply,
    key_in, people_for,
};
use tb_core::{Command, Seen, look_for};
use tb_deeds::Deed;
use tb_history::{HistoryPage, Which};
use tb_task::TaskId;
use tb_values::{Duplicate, Items};

/// The name of a call, under which its reply is kept.
#[derive(PartialEq, Eq, PartialOrd, Ord, Drop)]
pub(crate) struct KeptUnder {
    pub member: String,
    pub id: TaskId,
}

/// Keeps a world, the replies given in the order of their names, and the entries of all boards in the order in which they came. It has
/// no store that could fail.
#[derive(Drop)]
pub struct ListKeep {
    world: World,
    kept: BTreeMap<KeptUnder, KeptReply>,
    entries: Vec<BoardEntry>,
}

impl ListKeep {
    /// One person, who owns the one board.
    pub fn new(alloc: Global, name: &Name, key: &Key) -> Result<ListKeep, AllocError>
        ensures { IfOk result (λ keep. ⟦<ListKeep as Keep>⟧.holds keep (opening name.now key.now)) }
    {
        let world = World::opening(alloc, name, key)?;
        Ok(ListKeep {
            world,
            kept: BTreeMap::new(alloc),
            entries: Vec::new(alloc),
        })
    }
}

impl Keep for ListKeep {
    ghost use Rattle.std.specs.Prelude.{◌≡◌, false, refl, true};
    ghost use Rattle.tb_desk.specs.ListKeep.{IsListed, listed, only};

    ghost holds = { λ k s. IsListed k.world k.kept.entries k.entries.items s };

    ghost after_stop = { λ k s. s ≡ listed k.world k.kept.entries k.entries.items };

    ghost has_failed = { λ _. false };

    ghost is_honest = { λ _. true };

    ghost given = { λ k s good held. held refl };

    ghost leaves = { λ k s left. refl };

    ghost alone = { λ k s held fine t left. only held left };

    ghost good = { λ k s held. held.good };

    fn failures(&self) -> u64 {
        0
    }

    fn person(&mut self, _alloc: Global, name: &Name) -> Result<Option<Key>, KeepFault> {
        Ok(key_in(&self.world, name)?)
    }

    fn kept(
        &mut self,
        alloc: Global,
        name: &Name,
        id: TaskId,
    ) -> Result<Option<KeptReply>, KeepFault> {
        let name = kept_under(alloc, name, id)?;
        Ok(kept_in(&self.kept, &name)?)
    }

    fn look(&mut self, _alloc: Global, name: &Name, command: &Command) -> Result<Seen, KeepFault> {
        Ok(look_for(&self.world, name, command)?)
    }

    fn boards_of(&mut self, alloc: Global, name: &Name) -> Result<Items<BoardRole>, KeepFault> {
        Ok(boards_of(alloc, &self.world, name)?)
    }

    fn people_for(
        &mut self,
        alloc: Global,
        name: &Name,
        board: u32,
    ) -> Result<Option<Items<PersonRole>>, KeepFault> {
        Ok(people_for(alloc, &self.world, name, board)?)
    }

    fn history(
        &mut self,
        alloc: Global,
        board: &Board,
        which: Which,
    ) -> Result<HistoryPage, KeepFault> {
        Ok(page_of(alloc, &self.kept, self.entries.as_slice(), board, which)?)
    }

    fn written(&self) -> Written {
        Written { own: 0, swept: 0 }
    }

    fn commit(
        &mut self,
        alloc: Global,
        changes: &[Change],
        deed: Option<Deed>,
        call: &Call,
        reply: &Reply,
    ) -> Result<(), KeepFault> {
        let name = kept_under(alloc, &call.member, call.id)?;
        let kept = kept_reply(call, reply)?;
        let world = self.world.changed(alloc, changes)?;
        let entry = entry_by(call, deed)?;
        self.entries.reserve(1)?;
        self.kept.insert(name, kept)?;
        put_last(&mut self.entries, entry);
        self.world = world;
        Ok(())
    }
}

pub(crate) fn kept_under(alloc: Global, member: &Name, id: TaskId) -> Result<KeptUnder, AllocError>
    ensures { IfOk result (λ name. call_name name ≡ (member.now, id)) }
{
    let member = String::from_str(alloc, member.as_str())?;
    Ok(KeptUnder { member, id })
}

fn kept_in(
    kept: &BTreeMap<KeptUnder, KeptReply>,
    name: &KeptUnder,
) -> Result<Option<KeptReply>, AllocError>
    ensures { IfOk result
        (λ found. found ≡ find name_cmp (call_name name.now) (map named kept.now.entries)) }
{
    match kept.get(name) {
        Some(reply) => Ok(Some(reply.duplicate()?)),
        None => Ok(None),
    }
}
