ghost use Rattle.std.specs.Prelude.{◌≡◌};
ghost use Rattle.std.specs.Cmp.{IsTotalOrder};
ghost use Rattle.std.proofs.lemmas.Cmp.{nat_list_cmp_total};
ghost use Rattle.std.specs.Cmp.Lexicographic.{slice_cmp};
ghost use Rattle.std.specs.Ordering.{nat_cmp};
ghost use Rattle.std.specs.declared.cmp.Ordering.{Ordering};

use crate::text::Text;
use std::cmp::Ordering;

/// A value with a key that orders it among others. Two values of equal keys need not be equal.
pub trait Keyed {
    ghost order: { Self → Self → Ordering };

    fn compare(&self, other: &Self) -> Ordering
        ensures { result ≡ order self.now other.now };

    ghost total: { IsTotalOrder order };
}

/// Texts are in byte order.
impl Keyed for Text {
    ghost order = { slice_cmp nat_cmp };

    ghost total = { nat_list_cmp_total };

    fn compare(&self, other: &Text) -> Ordering {
        self.as_str().cmp(other.as_str())
    }
}
