ghost use Rattle.std.specs.Prelude.{◌≡◌, IfOk};
ghost use Rattle.tb_report.specs.Rank.{rank_order, ordered};

use std::alloc::AllocError;
use std::cmp::Reverse;

/// Where a task stands in the listing: its urgency, the greater first, and then its place on the board, from 0.
pub type Rank = (Reverse<i64>, usize);

/// Puts ranks into the order of the listing.
pub fn in_order(mut ranks: Vec<Rank>) -> Result<Vec<Rank>, AllocError>
    ensures { IfOk result (λ sorted. sorted.items ≡ ordered rank_order ranks.items) }
{
    ranks.sort()?;
    Ok(ranks)
}
