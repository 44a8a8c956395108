//! The first person of what is stored, in whose name keys are given while nobody serves it.

ghost use Rattle.std.specs.Prelude.{◌≡◌, IfOk, IsErrOf, Some, true};
ghost use Rattle.sqlite.specs.Held.{state};
ghost use Rattle.tb_calls.specs.Call.{State};
ghost use Rattle.tb_calls.specs.Keep.{IsStill, is_store};
ghost use Rattle.tb_calls.specs.Roles.{person_at};
ghost use Rattle.tb_keeper.specs.Holds.{Holds};
ghost use Rattle.tb_lookup.specs.Stored.{MayLeave};

use crate::looking::find_first;
use crate::sql_keep::SqlKeep;
use sqlite::Alter;
use std::alloc::Global;
use tb_board::Person;
use tb_calls::KeepFault;

impl<S: Alter> SqlKeep<S> {
    /// The first person, with the key that is stored.
    pub fn first_person(&mut self, alloc: Global) -> Result<Person, KeepFault>
        ensures answer { (state S.Store self.new.conn).is_clean ≡ true → (s : State)
            → Holds self.old.failed self.old.people self.old.boards self.old.cache.entries
            (state S.Store self.old.conn) s
            → IfOk result (λ person. person_at s.world 1 ≡ Some person) }
        ensures same { IsStill
            (λ s. Holds self.old.failed self.old.people self.old.boards self.old.cache.entries
            (state S.Store self.old.conn) s)
            (λ t. MayLeave (state S.Store self.old.conn) t)
            (λ s. Holds self.new.failed self.new.people self.new.boards self.new.cache.entries
            (state S.Store self.new.conn) s)
            (λ t. MayLeave (state S.Store self.new.conn) t) }
        ensures failed { self.new.failed ≡ is_store result }
        ensures honest { (state S.Store self.new.conn).is_clean ≡ true
            → (state S.Store self.old.conn).is_clean ≡ true }
        ensures closed { self.old.failed ≡ true → IsErrOf result KeepFault.Store }
    {
        if self.failed {
            return Err(KeepFault::Store);
        }
        let end = find_first(alloc, &mut self.conn);
        self.settle(end)
    }
}
