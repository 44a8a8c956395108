ghost use Rattle.std.specs.Prelude.{◌≡◌, ◌+◌, ◌<◌, ◌≤◌, ◌==◌, ◌∷◌, [], ℕ, min, length, if◌then◌else◌, IfOk, OnOk, MatchOption};
ghost use Rattle.tb_board.specs.InstancePlaces.{instance_places};
ghost use Rattle.tb_board.specs.Templates.{gone_places};
ghost use Rattle.tb_sweep.specs.Counts.{AreCounts, number_at};

use std::alloc::{AllocError, Global};
use std::collections::BTreeMap;
use tb_board::{Board, Gone};
use tb_task::{Task, TaskId};
use tb_values::Shared;

/// No instance has a due at this place or a later one: the years up to 9999 have fewer days.
pub(crate) const PLACES_END: u32 = 2932898;

/// How many places each template of a board has. A template without any isn't in it.
#[derive(Drop)]
pub struct Counts {
    numbers: BTreeMap<TaskId, u32>,
}

impl Counts {
    fn new(alloc: Global) -> Counts
        ensures { (id : ℕ) → number_at result id ≡ 0 }
    {
        Counts {
            numbers: BTreeMap::new(alloc),
        }
    }

    /// The counts of all templates, in one pass.
    pub fn of(alloc: Global, board: &Board) -> Result<Counts, AllocError>
        ensures { IfOk result (AreCounts board.now) }
    {
        let mut counts = Counts::new(alloc);
        counts.add_gone(board.gone.as_slice())?;
        counts.add_instances(board.tasks.as_slice())?;
        Ok(counts)
    }

    fn number(&self, id: TaskId) -> u32
        ensures { result ≡ number_at self.now id }
    {
        match self.numbers.get(&id) {
            Some(number) => *number,
            None => 0,
        }
    }

    /// One place more.
    pub fn add(&mut self, id: TaskId) -> Result<(), AllocError>
        ensures { OnOk result
            ((q : ℕ) → number_at self.new q
            ≡ (if id == q then min 4294967295 (number_at self.old q + 1)
            else number_at self.old q)) }
    {
        let number = self.number(id).saturating_add(1);
        self.numbers.insert(id, number)?;
        Ok(())
    }

    fn add_gone(&mut self, gone: &[Gone]) -> Result<(), AllocError>
        ensures { OnOk result
            ((q : ℕ) → min 2932898 (number_at self.new q)
            ≡ min 2932898 (number_at self.old q + length (gone_places q gone.now))) }
    {
        for place in gone {
            self.add(place.template)?;
        }
        Ok(())
    }

    fn add_instances(&mut self, tasks: &[Shared<Task>]) -> Result<(), AllocError>
        ensures { OnOk result
            ((q : ℕ) → min 2932898 (number_at self.new q)
            ≡ min 2932898 (number_at self.old q + length (instance_places q tasks.now))) }
    {
        for task in tasks {
            self.add_task(task.get())?;
        }
        Ok(())
    }

    fn add_task(&mut self, task: &Task) -> Result<(), AllocError>
        ensures { OnOk result
            ((q : ℕ) → min 2932898 (number_at self.new q)
            ≡ min 2932898 (number_at self.old q + length (instance_places q (task.now ∷ [])))) }
    {
        match (task.parent, task.imask) {
            (Some(parent), Some(_)) => self.add(parent),
            _ => Ok(()),
        }
    }

    /// How many places a template has, if an instance can be due at the next one.
    pub fn next_place(&self, id: TaskId) -> Option<u32>
        ensures { MatchOption result (2932898 ≤ number_at self.now id)
            (λ n. (n ≡ number_at self.now id) × (n < 2932898)) }
    {
        let number = self.number(id);
        if number >= PLACES_END {
            return None;
        }
        Some(number)
    }
}
