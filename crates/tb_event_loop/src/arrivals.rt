//! The listener, and the connections that come.
ghost use Rattle.std.specs.Prelude.{◌≡◌, [], ◌∷◌, false, true};
ghost use Rattle.tb_event_loop.specs.Arrivals.{CountsOne, StaysReady, TriesToAccept, accept_failed, are_held_up, can_go_on, may_accept, listens, ready_after, tells_listener, told_of};
ghost use Rattle.tb_event_loop.specs.Hearing.{Remain};
ghost use Rattle.tb_event_loop.specs.Places.{stage_in};
ghost use Rattle.tb_event_loop.specs.Sockets.{unaccepted};
ghost use Rattle.tb_timeouts.specs.Stage.{is_vacant};
ghost use Rattle.std.specs.IoError.{error_kind};

use crate::journal::Journal;
use crate::places::Places;
use crate::sockets::{Sockets, Told};
use crate::ticks::Ticks;
use std::io;
use std::io::{ErrorKind, Write};
use tb_timeouts::CONNECTIONS;

/// How long there is no further try to accept a connection after one that failed, in milliseconds.
pub(crate) const RETRY: u64 = 100;

#[derive(Drop)]
pub(crate) struct Arrivals {
    /// How many connections are still to come, if not all that do.
    pub(crate) still_to_come: Option<u32>,
    pub(crate) is_ready: bool,
    /// One that was accepted waits for a place.
    pub(crate) is_waiting: bool,
    next_try: u64,
    /// That a try failed was told, and since then there was always one that waits.
    has_told: bool,
}

impl Arrivals {
    pub(crate) fn new(still_to_come: Option<u32>) -> Arrivals
        ensures { result ≡ listens still_to_come }
    {
        Arrivals {
            still_to_come,
            is_ready: true,
            is_waiting: false,
            next_try: 0,
            has_told: false,
        }
    }

    /// Whether one that came has no place, or can't be accepted yet.
    pub(crate) fn are_held_up(&self) -> bool
        ensures { result ≡ are_held_up self.now }
    {
        self.is_waiting || self.is_ready && self.still_to_come != Some(0)
    }

    /// Whether one can be accepted, or put into a place, at once.
    pub(crate) fn can_go_on(&self, places: &Places, now: u64) -> bool
        ensures { result ≡ can_go_on self.now places.now now }
    {
        if self.is_waiting {
            return places.first_vacant().is_some();
        }
        self.is_ready && self.still_to_come != Some(0) && now >= self.next_try
    }

    /// A connection ended, so that another may come.
    pub(crate) fn try_again(&mut self)
        ensures { self.new ≡ record self.old { next_try = 0 } }
    {
        self.next_try = 0;
    }

    /// Whether one can be accepted, as far as the system tells.
    pub(crate) fn hear(&mut self, told: &[Told])
        ensures { self.new ≡ told_of told.now self.old }
    {
        self.is_ready = self.is_ready || tells_listener(told);
    }

    /// Puts those that come into places.
    pub(crate) fn seat_all<N: Sockets, C: Ticks, W: Write>(
        &mut self,
        sockets: &mut N,
        places: &mut Places,
        journal: &mut Journal<C, W>,
        now: u64,
    )
        ensures heard { StaysReady N.follows self.old.is_ready self.new.is_ready
            sockets.old sockets.new }
        ensures tried { self.old.is_waiting ≡ false → may_accept self.old now ≡ true
            → TriesToAccept N.follows sockets.old sockets.new }
        ensures remain { Remain places.old places.new }
    {
        if !self.accept_next(sockets, journal, now) {
            return;
        }
        self.seat_those(sockets, places, journal, now);
    }

    // Puts the one that waits into a place, and those that come then.
    fn seat_those<N: Sockets, C: Ticks, W: Write>(
        &mut self,
        sockets: &mut N,
        places: &mut Places,
        journal: &mut Journal<C, W>,
        now: u64,
    )
        ensures heard { StaysReady N.follows self.old.is_ready self.new.is_ready
            sockets.old sockets.new }
        ensures remain { Remain places.old places.new }
    {
        'seats: for _ in 0..CONNECTIONS {
            let Some(place) = places.first_vacant() else {
                places.make_room(now);
                return;
            };
            self.seat_one(sockets, places, place, now);
            if !self.accept_next(sockets, journal, now) {
                return;
            }
        }
    }

    // Puts the one that waits into a vacant place. Where the system won't tell of it, it ends at once.
    fn seat_one<N: Sockets>(&mut self, sockets: &mut N, places: &mut Places, place: usize, now: u64)
        ensures seated { self.new ≡ record self.old { is_waiting = false } }
        ensures heard { StaysReady N.follows self.old.is_ready self.new.is_ready
            sockets.old sockets.new }
        ensures remain { is_vacant (stage_in places.old place) ≡ true
            → Remain places.old places.new }
    {
        self.is_waiting = false;
        let is_told_of = sockets.seat(place);
        places.seat(place, now);
        if !is_told_of {
            places.let_go(place);
        }
    }

    // Accepts one, unless one waits already or none can be accepted now. Says whether one waits.
    fn accept_next<N: Sockets, C: Ticks, W: Write>(
        &mut self,
        sockets: &mut N,
        journal: &mut Journal<C, W>,
        now: u64,
    ) -> bool
        ensures waits { result ≡ self.new.is_waiting }
        ensures heard { StaysReady N.follows self.old.is_ready self.new.is_ready
            sockets.old sockets.new }
        ensures tried { self.old.is_waiting ≡ false → may_accept self.old now ≡ true
            → TriesToAccept N.follows sockets.old sockets.new }
    {
        if self.is_waiting {
            return true;
        }
        self.accept_one(sockets, journal, now);
        self.is_waiting
    }

    fn accept_one<N: Sockets, C: Ticks, W: Write>(
        &mut self,
        sockets: &mut N,
        journal: &mut Journal<C, W>,
        now: u64,
    )
        requires { self.old.is_waiting ≡ false }
        ensures counted { CountsOne self.old self.new }
        ensures not_yet { may_accept self.old now ≡ false → self.new ≡ self.old }
        ensures silent { may_accept self.old now ≡ false → sockets.new ≡ sockets.old }
        ensures heard { StaysReady N.follows self.old.is_ready self.new.is_ready
            sockets.old sockets.new }
        ensures tried { may_accept self.old now ≡ true
            → TriesToAccept N.follows sockets.old sockets.new }
    {
        if !self.is_ready || self.still_to_come == Some(0) || now < self.next_try {
            return;
        }
        match sockets.accept() {
            Ok(()) => {
                self.is_waiting = true;
                self.still_to_come = self.still_to_come.map(|count| count.saturating_sub(1));
            }
            Err(error) => self.accept_failed(&error, journal, now),
        }
    }

    fn accept_failed<C: Ticks, W: Write>(
        &mut self,
        error: &io::Error,
        journal: &mut Journal<C, W>,
        now: u64,
    )
        ensures failed { self.new ≡ accept_failed (error_kind error.now) now self.old }
        ensures ready { self.new.is_ready
            ≡ ready_after self.old.is_ready (unaccepted (error_kind error.now) ∷ []) }
    {
        if error.kind() == ErrorKind::WouldBlock {
            self.is_ready = false;
            self.has_told = false;
            return;
        }
        self.next_try = now.saturating_add(RETRY);
        if !self.has_told {
            self.has_told = true;
            journal.tell_not_accepted(error);
        }
    }
}

fn tells_listener(told: &[Told]) -> bool
    ensures { result ≡ tells_listener told.now }
{
    told.iter().any(|one| one.place.is_none())
}
