//! A clock whose moments are known beforehand.
ghost use Rattle.std.specs.Prelude.{◌≡◌};

use std::marker::Model;
use tb_program::Clock;
use tb_task::Moment;

/// Gives the moments of a list in turn, and none behind its end.
#[derive(Drop)]
pub struct ListClock<'a> {
    moments: &'a [Option<Moment>],
}

impl<'a> Model for ListClock<'a> {
    ghost use Rattle.std.specs.Prelude.{ℕ, List, Option};

    ghost Value = { List (Option ℕ) };

    ghost view = { λ c. c.moments.now };
}

impl<'a> ListClock<'a> {
    /// A clock that gives these moments.
    pub fn new(moments: &'a [Option<Moment>]) -> ListClock<'a>
        ensures { result ≡ moments.now }
    {
        ListClock { moments }
    }
}

impl Clock for ListClock<'_> {
    ghost use Rattle.std.specs.Prelude.{refl, Some};
    ghost use Rattle.tb_program.specs.Clock.{Gave, gave_more};

    ghost answers = { λ c. Some c };

    ghost gives = { Gave };

    ghost unasked = { λ c. refl };

    ghost asked = { gave_more };

    fn now(&mut self) -> Option<Moment> {
        match self.moments.split_first() {
            Some((at, more)) => {
                self.moments = more;
                *at
            }
            None => None,
        }
    }
}
