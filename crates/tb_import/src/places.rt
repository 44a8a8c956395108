ghost use Rattle.std.specs.Prelude.{◌≡◌, ◌==◌, ◌&&◌, ◌||◌, not, ℕ, false, IfOk, OnOk};
ghost use Rattle.tb_import.specs.Entering.{is_gone};
ghost use Rattle.tb_import.specs.Sets.{has_place};

use std::alloc::{AllocError, Global};
use std::collections::BTreeSet;
use tb_board::Gone;
use tb_task::TaskId;

/// A set of places of templates' masks.
#[derive(Drop)]
pub struct Places {
    set: BTreeSet<(TaskId, u32)>,
}

impl Places {
    pub fn new(alloc: Global) -> Places
        ensures { (id k : ℕ) → has_place result id k ≡ false }
    {
        Places {
            set: BTreeSet::new(alloc),
        }
    }

    /// The places that are gone.
    pub fn of(alloc: Global, gone: &[Gone]) -> Result<Places, AllocError>
        ensures { IfOk result
            (λ places. (id k : ℕ) → has_place places id k ≡ is_gone gone.now id k) }
    {
        let mut places = Places::new(alloc);
        for item in gone {
            places.insert(item.template, item.place)?;
        }
        Ok(places)
    }

    pub fn has(&self, template: TaskId, place: u32) -> bool
        ensures { result ≡ has_place self.now template place }
    {
        self.set.contains(&(template, place))
    }

    fn insert(&mut self, template: TaskId, place: u32) -> Result<(), AllocError>
        ensures { OnOk result
            ((id k : ℕ) → has_place self.new id k
            ≡ (has_place self.old id k || ((template == id) && (place == k)))) }
    {
        self.set.insert((template, place))?;
        Ok(())
    }

    pub fn remove(&mut self, template: TaskId, place: u32)
        ensures { (id k : ℕ)
            → has_place self.new id k
            ≡ (has_place self.old id k && not ((template == id) && (place == k))) }
    {
        self.set.remove(&(template, place));
    }
}
