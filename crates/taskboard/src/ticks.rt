//! How the machine's time goes on.
use std::time::Instant;
use tb_event_loop::Ticks;
use tb_program::machine_moment;
use tb_task::Moment;

/// The machine's clock, from one moment on. What it will show isn't known.
#[derive(Drop)]
pub(crate) struct MachineTicks<'a> {
    rt: &'a HostRuntime,
    started: Option<Instant>,
}

impl<'a> MachineTicks<'a> {
    /// The clock that begins now.
    pub(crate) fn new(rt: &'a HostRuntime) -> MachineTicks<'a> {
        MachineTicks {
            rt,
            started: Instant::now(rt).ok(),
        }
    }
}

impl<'a> Ticks for MachineTicks<'a> {
    ghost shows = { λ _ _ _. Unit {0} };

    fn millis(&mut self) -> u64 {
        if let Some(started) = self.started
            && let Ok(now) = Instant::now(self.rt)
        {
            return u64::try_from(now.duration_since(started).as_millis()).unwrap_or(u64::MAX);
        }
        0
    }

    fn moment(&self) -> Option<Moment> {
        machine_moment(self.rt)
    }
}
