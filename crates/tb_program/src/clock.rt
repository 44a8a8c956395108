//! Where moments come from.
ghost use Rattle.std.specs.Prelude.{◌≡◌, ◌≤◌, ◌∷◌, [], ◌++◌, ℕ, IfSome, List, Option, Some};
ghost use Rattle.tb_program.specs.Clock.{later, next};

use std::time::{Clock as TimeSource, SystemTime, UNIX_EPOCH};
use tb_task::Moment;

/// Gives the moment at which something comes.
pub trait Clock {
    /// What it will answer, in order, where that is known. At the end of the list it gives no moment.
    ghost answers: { Self → Option (List (Option ℕ)) };

    /// One clock comes of another by giving these moments, in this order.
    ghost gives: { List (Option ℕ) → Self → Self → Type 0 };

    ghost unasked: { (c : Self) → gives [] c c };

    ghost asked: { (first more : List (Option ℕ)) (a b c : Self)
        → gives first a b → gives more b c → gives (first ++ more) a c };

    fn now(&mut self) -> Option<Moment>
        ensures known { IfSome (answers self.old)
            (λ known. (result ≡ next known) × (answers self.new ≡ Some (later known))) }
        ensures given { gives (result ∷ []) self.old self.new };
}

/// The moment that the machine tells: none where its clock can't be read, or tells a time past the year 9999.
pub fn machine_moment(clock: &impl TimeSource) -> Option<Moment>
    ensures { IfSome result (λ moment. moment ≤ 253402300799) }
{
    let now = SystemTime::now(clock).ok()?;
    let since = now.duration_since(UNIX_EPOCH).ok()?;
    Moment::from_seconds(since.as_secs())
}
