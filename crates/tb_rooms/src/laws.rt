//! What follows of the buckets, whatever is charged to them.
ghost use Rattle.tb_rooms.specs.Laws.{IsBounded};

use crate::bucket::Rate;

/// Over any charges of which each was due, from a bucket of which nothing was used: in all they cost at most what may be used at
/// once, what came back between the first and the last, and the last of them.
pub fn growth_is_bounded(rate: &Rate)
    ensures { IsBounded rate.now }
{}
