//! What a count by halves begins with, and where it looks next.

ghost use Rattle.std.specs.Prelude.{◌+◌, ◌<◌};

/// One more than the most people or boards of a world.
pub(crate) const ABOVE_MOST: u32 = 10001;

/// A number between two.
pub(crate) fn middle_of(low: u32, above: u32) -> u32
    requires { low + 1 < above }
    ensures { (low < result) × (result < above) }
{
    low + (above - low) / 2
}
