//! What the connections share: room for messages and answers, and the turns of a round.
ghost use Rattle.std.specs.Prelude.{◌≡◌, ℕ, if◌then◌else◌, length};
ghost use Rattle.tb_event_loop.specs.Places.{LetsGoOne, SetsHold, connection_in, hold_in, stage_in};
ghost use Rattle.tb_event_loop.specs.Sharing.{LetsIn, LetsInBelow, MakesWay, Notes, Shares, counted_out, is_put_back, is_tight_in, owner_at, place_from, taken_in, turned_for, with_cut, with_first, with_round};
ghost use Rattle.tb_rooms.specs.Holding.{after_turn};
ghost use Rattle.tb_rooms.specs.Yielding.{gives_answer_way, gives_room_way};

use crate::places::Places;
use crate::service::Service;
use tb_rooms::{Hold, STRANGER, gives_answer_way, gives_room_way, has_turns_left, is_let_in};

impl Places {
    fn owner(&self, place: usize) -> u64
        ensures { result ≡ owner_at (connection_in self.now place) }
    {
        match self.at(place) {
            Some(connection) => connection.owner,
            None => STRANGER,
        }
    }

    /// What a place holds behind its turn. The service says how many bytes its message needs.
    pub(crate) fn note<V: Service>(&mut self, service: &V, place: usize)
        ensures holds { (wanted : ℕ) × V.wants service.now place wanted
            × Notes self.old self.new place
            (after_turn (owner_at (connection_in self.old place)) (stage_in self.old place) wanted
            (length (V.owed_at service.now place)) (hold_in self.old place)) }
        ensures others { self.new
            ≡ record self.old { holds = self.new.holds; is_tight = self.new.is_tight } }
    {
        let hold = self.hold(place).after_turn(
            self.owner(place),
            self.stage(place),
            service.wanted(place),
            service.unsent(place).len(),
        );
        self.set_hold(place, hold);
        self.is_tight = self.is_tight || hold.out > 0 || hold.wanted > self.rooms.allowance;
    }

    /// An answer of so many bytes was made, and none of them is taken yet.
    pub(crate) fn count_answer(&mut self, place: usize, bytes: usize)
        ensures { SetsHold self.old self.new place (counted_out bytes (hold_in self.old place)) }
    {
        let mut hold = self.hold(place);
        hold.out = bytes;
        self.set_hold(place, hold);
    }

    // Gives the message of a place room, where it is its turn and there is some.
    fn let_in(&mut self, place: usize)
        ensures { LetsIn self.old self.new place }
    {
        let mut hold = self.hold(place);
        if is_let_in(&self.holds, &hold, &self.rooms) {
            hold.room = hold.wanted;
            self.set_hold(place, hold);
        }
    }

    /// Gives messages room, where there is some, and lets go of those who keep it from others for too long.
    pub(crate) fn share(&mut self, now: u64)
        ensures { Shares self.old self.new now }
    {
        if !self.is_tight {
            return;
        }
        self.let_all_in();
        self.make_way(now);
        self.is_tight = is_tight_in(&self.holds);
    }

    fn let_all_in(&mut self)
        ensures { LetsInBelow self.old.end self.old self.new }
    {
        for place in 0..self.end {
            self.let_in(place);
        }
    }

    // Lets go of those who keep room from others for too long.
    fn make_way(&mut self, now: u64)
        ensures { MakesWay self.old self.new now }
    {
        self.end_message_in_the_way(now);
        self.end_answer_in_the_way(now);
    }

    fn end_message_in_the_way(&mut self, now: u64)
        ensures { LetsGoOne self.old self.new
            (gives_room_way self.old.rooms self.old.limits now self.old.holds.items) }
    {
        if let Some(place) = gives_room_way(&self.holds, &self.rooms, &self.limits, now) {
            self.let_go(place);
        }
    }

    fn end_answer_in_the_way(&mut self, now: u64)
        ensures { LetsGoOne self.old self.new
            (gives_answer_way self.old.rooms now self.old.holds.items) }
    {
        if let Some(place) = gives_answer_way(&self.holds, &self.rooms, now) {
            self.let_go(place);
        }
    }

    /// A round begins. Where the last places were left since the one before, it begins at the first.
    pub(crate) fn begin_round(&mut self)
        ensures { self.new ≡ with_round self.old }
    {
        self.round = self.round.saturating_add(1);
        self.first = self.first.min(self.end);
        self.cut = None;
    }

    /// A round ended. The next one begins at the place at which this one was cut.
    pub(crate) fn end_round(&mut self)
        ensures { self.new ≡ with_first self.old }
    {
        self.first = match self.cut {
            Some(place) if place < self.end => place,
            _ => 0,
        };
    }

    /// The place whose turn it is at this step of a round.
    pub(crate) fn place_at(&self, step: usize, end: usize) -> usize
        ensures { result ≡ place_from self.now.first step end }
    {
        let behind = end.saturating_sub(self.first);
        if step < behind {
            self.first + step
        } else {
            step - behind
        }
    }

    /// Whether a place has its turn in a later round, since its owner had enough in this one.
    pub(crate) fn is_put_back(&mut self, place: usize, now: u64) -> bool
        ensures later { result ≡ is_put_back self.old place now }
        ensures cut { self.new ≡ (if result then with_cut self.old place else self.old) }
    {
        if self.end <= self.rooms.turns || !self.has_turn(place, now) {
            return false;
        }
        let owner = self.owner(place);
        if has_turns_left(self.taken(), owner, self.round, &self.rooms) {
            return false;
        }
        self.cut = Some(self.cut.unwrap_or(place));
        true
    }

    fn taken(&self) -> &[Hold]
        ensures { result.now ≡ taken_in self.now }
    {
        match self.holds.get(..self.end) {
            Some(holds) => holds,
            None => &self.holds,
        }
    }

    /// A place had a turn in this round, which took so long.
    pub(crate) fn count_turn(&mut self, place: usize, millis: u64)
        ensures counted { SetsHold self.old self.new place
            (turned_for self.old.round millis (hold_in self.old place)) }
        ensures others { self.new ≡ record self.old { holds = self.new.holds } }
    {
        let mut hold = self.hold(place);
        hold.round = self.round;
        hold.millis = millis;
        self.set_hold(place, hold);
    }
}

// Whether one waits for room, or has left an answer untaken.
fn is_tight_in(holds: &[Hold]) -> bool
    ensures { result ≡ is_tight_in holds.now }
{
    holds.iter().any(|hold| hold.out > 0 || hold.wanted > 0)
}
