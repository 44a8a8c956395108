//! Lists without repeats.

ghost use Rattle.std.specs.Prelude.{◌↔◌, IsTrue, IfOk};
ghost use Rattle.std.specs.List.{IsDistinct};
ghost use Rattle.std.specs.BTreeSet.{IsFromIterResult};
ghost use Rattle.std.specs.Ordering.{eq_by_cmp};

use std::alloc::{AllocError, Global};
use std::collections::BTreeSet;

/// Whether no two of these keys are equal.
pub(crate) fn are_distinct<K: Ord + Copy>(alloc: Global, keys: &[K]) -> Result<bool, AllocError>
    ensures { IfOk result (λ answer. IsTrue answer ↔ IsDistinct (eq_by_cmp K.cmp) keys.now) }
{
    let set = set_of(alloc, keys)?;
    Ok(set.len() == keys.len())
}

fn set_of<K: Ord + Copy>(alloc: Global, keys: &[K]) -> Result<BTreeSet<K>, AllocError>
    ensures { IfOk result (IsFromIterResult K.cmp keys.now) }
{
    keys.iter().copied().collect(alloc)
}
