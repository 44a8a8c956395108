//! The place whose time is over first.
ghost use Rattle.std.specs.Prelude.{◌≡◌, IfNone, IfSome};
ghost use Rattle.tb_timeouts.specs.Deciding.{HasNone, IsEarliest, earlier_of};
ghost use Rattle.tb_timeouts.specs.Stage.{end_of};

use crate::limits::Limits;
use crate::stage::Stage;

/// A place, and its moment.
#[derive(Clone, Copy)]
pub(crate) struct Candidate {
    pub(crate) place: usize,
    pub(crate) moment: u128,
}

/// The first place that has the least of the moments at which one has stayed too long.
#[tactic(auto, using(crate::proofs::EarliestBelow::first_of_all, crate::proofs::EarliestBelow::none_at_all))]
pub(crate) fn earliest(stages: &[Stage], limits: &Limits) -> Option<Candidate>
    ensures none { IfNone result (HasNone (end_of limits.now) stages.now) }
    ensures some { IfSome result
        (λ found. IsEarliest (end_of limits.now) stages.now found.place found.moment) }
{
    let mut found = None;
    for (place, stage) in stages.iter().enumerate() {
        found = earlier(found, place, stage.end(limits));
    }
    found
}

fn earlier(found: Option<Candidate>, place: usize, moment: Option<u128>) -> Option<Candidate>
    ensures { result ≡ earlier_of found place moment }
{
    match (found, moment) {
        (None, Some(moment)) => Some(Candidate { place, moment }),
        (Some(candidate), Some(moment)) if moment < candidate.moment => {
            Some(Candidate { place, moment })
        }
        _ => found,
    }
}
