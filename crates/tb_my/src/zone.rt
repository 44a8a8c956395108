//! What the clocks of a machine show.
ghost use Rattle.std.specs.Prelude.{◌≡◌, ◌≤◌, ◌<◌};
ghost use Rattle.tb_my.specs.Zone.{ahead_at, begins_day, day_at, in_time, is_timed, minute_at, moment_near, moment_shown, shown_at, today};

use tb_task::Moment;
use tb_values::Items;

const DAY: u64 = 86_400;

/// UTC itself, of which clocks are so far ahead.
const UTC: u32 = 86_400;

/// From a moment on, clocks are so many seconds ahead of UTC, and a day more: 90,000 is an hour ahead, 82,800 an hour behind.
#[derive(Clone, Copy, Debug)]
pub struct Shift {
    pub from: Moment,
    pub ahead: u32,
}

/// A moment, and how far the clocks are ahead of UTC from which moments on, in their order: UTC before the first.
#[derive(Drop)]
pub struct Clock {
    pub moment: Moment,
    pub shifts: Items<Shift>,
}

impl Clock {
    /// The day that it is, counted from 1970-01-01.
    pub fn today(&self) -> u64
        ensures day { result ≡ today self.now }
        ensures most { result ≤ 100000000000 }
    {
        (shown_at(self.shifts.as_slice(), self.moment.seconds()) / DAY).saturating_sub(1)
    }

    /// The day on which a moment falls.
    pub fn day_at(&self, moment: Moment) -> u64
        ensures day { result ≡ day_at self.now.shifts moment }
        ensures most { result ≤ 100000000000 }
    {
        if begins_day(moment.seconds()) {
            return moment.seconds() / DAY;
        }
        (shown_at(self.shifts.as_slice(), moment.seconds()) / DAY).saturating_sub(1)
    }

    /// Whether a moment says more than a day.
    pub fn is_timed(&self, moment: Moment) -> bool
        ensures { result ≡ is_timed self.now.shifts moment }
    {
        !begins_day(moment.seconds())
            && !begins_day(shown_at(self.shifts.as_slice(), moment.seconds()))
    }

    /// The minute of the day that clocks show at a moment.
    pub fn minute_at(&self, moment: Moment) -> u64
        ensures minute { result ≡ minute_at self.now.shifts moment }
        ensures most { result < 1440 }
    {
        shown_at(self.shifts.as_slice(), moment.seconds()) % DAY / 60
    }

    /// The moment at which clocks show a second, counted from 1970.
    pub(crate) fn moment_shown(&self, second: u64) -> Option<Moment>
        requires { second ≤ 253402300799 }
        ensures { result ≡ in_time (moment_shown self.now.shifts second) }
    {
        let shifts = self.shifts.as_slice();
        let near = moment_near(shifts, second, second);
        Moment::from_seconds(moment_near(shifts, second, near))
    }
}

fn begins_day(second: u64) -> bool
    ensures { result ≡ begins_day second }
{
    second % DAY == 0
}

fn shown_at(shifts: &[Shift], moment: u64) -> u64
    requires { moment ≤ 253402300799 }
    ensures shown { result ≡ shown_at shifts.now moment }
    ensures most { result ≤ 300000000000 }
{
    moment + u64::from(ahead_at(shifts, moment))
}

fn moment_near(shifts: &[Shift], second: u64, other: u64) -> u64
    requires { second ≤ 253402300799 }
    ensures { result ≡ moment_near shifts.now second other }
{
    (second + DAY).saturating_sub(u64::from(ahead_at(shifts, other)))
}

/// How far clocks are ahead of UTC at a moment, and a day more.
fn ahead_at(shifts: &[Shift], moment: u64) -> u32
    ensures { result ≡ ahead_at shifts.now moment }
{
    let mut ahead = UTC;
    for shift in shifts {
        if shift.from.seconds() > moment {
            return ahead;
        }
        ahead = shift.ahead;
    }
    ahead
}
