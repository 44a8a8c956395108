ghost use Rattle.std.specs.Prelude.{◌≡◌};
ghost use Rattle.tb_recur.specs.Wanting.{is_by, is_inside, has_come, has_begun, wanted, NeedIsLeast};
ghost use Rattle.tb_recur.specs.AtOnce.{OneAheadIsAtOnce};

use crate::dues::due;
use crate::plan::Plan;
use tb_task::{Moment, Step};

/// Whether the k-th instance of a template is wanted at a moment, on a board that looks so many ahead: it has a due that is
/// not past `until`, and it is one of the first, or the due of the one so many places before it has come.
pub fn wanted(
    first: Moment,
    step: Step,
    until: Option<Moment>,
    ahead: u8,
    k: u32,
    at: Moment,
) -> bool
    ensures { result ≡ wanted (record { due = first; step = step; until = until }) ahead k at }
{
    let plan = Plan {
        due: first,
        step,
        until,
    };
    plan.wants(ahead, k, at)
}

impl Plan {
    /// Whether the k-th instance is wanted at a moment, on a board that looks so many ahead.
    #[tactic(auto, unfolding(crate::specs::Wanting::wanted))]
    pub fn wants(&self, ahead: u8, k: u32, at: Moment) -> bool
        ensures { result ≡ wanted self.now ahead k at }
    {
        is_inside(self.until, due(self.due, self.step, k)) && has_begun(self, ahead, k, at)
    }
}

fn is_inside(until: Option<Moment>, due: Option<Moment>) -> bool
    ensures { result ≡ is_inside until due }
{
    match due {
        Some(moment) => is_by(moment, until),
        None => false,
    }
}

fn is_by(moment: Moment, until: Option<Moment>) -> bool
    ensures { result ≡ is_by moment until }
{
    match until {
        Some(last) => moment <= last,
        None => true,
    }
}

fn has_begun(plan: &Plan, ahead: u8, k: u32, at: Moment) -> bool
    ensures { result ≡ has_begun plan.now ahead k at }
{
    let ahead = ahead as u32;
    if k < ahead {
        return true;
    }
    has_come(due(plan.due, plan.step, k - ahead), at)
}

fn has_come(due: Option<Moment>, at: Moment) -> bool
    ensures { result ≡ has_come due at }
{
    match due {
        Some(moment) => moment <= at,
        None => false,
    }
}

/// The need of a plan isn't wanted, and all before it are.
pub fn need_is_least()
    ensures { NeedIsLeast }
{}

/// A board that looks one ahead wants what boards wanted before they could look ahead.
pub fn one_ahead_is_at_once()
    ensures { OneAheadIsAtOnce }
{}
