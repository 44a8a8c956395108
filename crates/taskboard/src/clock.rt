//! The moments of messages and calls.
ghost use Rattle.std.specs.Prelude.{None};

use tb_program::{Clock, machine_moment};
use tb_task::Moment;

/// The machine's clock. What it will tell isn't known.
#[derive(Drop)]
pub(crate) struct MachineClock<'a> {
    pub(crate) rt: &'a HostRuntime,
}

impl<'a> Clock for MachineClock<'a> {
    ghost answers = { λ _. None };

    ghost gives = { λ _ _ _. Unit {0} };

    ghost unasked = { λ _. tt };

    ghost asked = { λ _ _ _ _ _ _ _. tt };

    fn now(&mut self) -> Option<Moment> {
        machine_moment(self.rt)
    }
}
