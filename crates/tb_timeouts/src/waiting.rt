//! How long nothing has to be done.
ghost use Rattle.std.specs.Prelude.{◌≡◌, ◌-◌, min};
ghost use Rattle.tb_timeouts.specs.Deciding.{IsLongestWait};

use crate::earliest::earliest;
use crate::limits::Limits;
use crate::stage::Stage;

/// How long to wait, at most so long, so that none stays longer than it may.
pub fn longest_wait(stages: &[Stage], limits: &Limits, now: u64, most: u64) -> u64
    ensures { IsLongestWait limits.now now most stages.now result }
{
    match earliest(stages, limits) {
        None => most,
        Some(first) => until(first.moment, now, most),
    }
}

fn until(end: u128, now: u64, most: u64) -> u64
    ensures { result ≡ min most (end - now) }
{
    match u64::try_from(end.saturating_sub(u128::from(now))) {
        Ok(left) => most.min(left),
        Err(_) => most,
    }
}
