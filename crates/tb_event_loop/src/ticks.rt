//! How time goes on.
ghost use Rattle.std.specs.Prelude.{ℕ};

use tb_task::Moment;

/// The clock of the loop.
pub trait Ticks {
    /// One clock comes of another by showing so many milliseconds.
    ghost shows: { ℕ → Self → Self → Type 0 };

    /// How many milliseconds have passed since it was made. Where it can't be read it shows 0.
    fn millis(&mut self) -> u64
        ensures { shows result self.old self.new };

    /// The moment, if it can be read.
    fn moment(&self) -> Option<Moment>;
}
