ghost use Rattle.std.specs.Prelude.{◌≡◌, ◌<◌, ◌+◌, ◌*◌, ◌/◌, MatchOption};
ghost use Rattle.tb_recur.specs.Dues.{due, day_after, if_moment};

use crate::months::months_after;
use crate::weekdays::weekdays_later;
use tb_task::{Moment, Step};

const DAY: u64 = 86400;

/// The day number of 9999-12-31.
const LAST_DAY: u64 = 2932896;

/// The moment k steps after another, at the same time of day, if it is within the year 9999.
#[tactic(auto, unfolding(crate::specs::Dues::due))]
pub fn due(start: Moment, step: Step, k: u32) -> Option<Moment>
    ensures { result ≡ due start step k }
{
    let day = steps_later(start, step, k)?;
    moment_on(day, start.seconds() % DAY)
}

fn moment_on(day: u64, second: u64) -> Option<Moment>
    requires { second < 86400 }
    ensures { result ≡ if_moment (day * 86400 + second) }
{
    if day > LAST_DAY {
        return None;
    }
    Moment::from_seconds(day * DAY + second)
}

/// The day k steps after a moment's, or `None` where it is past the year 9999.
#[tactic(auto, unfolding(crate::specs::Dues::day_after))]
fn steps_later(start: Moment, step: Step, k: u32) -> Option<u64>
    ensures { MatchOption result (2932896 < day_after (start / 86400) step k)
        (λ day. day ≡ day_after (start / 86400) step k) }
{
    match step {
        Step::Days(days) => Some(start.seconds() / DAY + days as u64 * k as u64),
        Step::Weekdays => Some(weekdays_later(start.seconds() / DAY, k)),
        Step::Months(months) => months_after(start, months as u64 * k as u64),
    }
}
