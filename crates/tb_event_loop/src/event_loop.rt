//! The loop over the listener and the connections.
ghost use Rattle.std.specs.Prelude.{◌≡◌, ◌≢◌, ◌<◌, ◌⊎◌, ◌||◌, ◌-◌, ℕ, if◌then◌else◌, IfErr, IfOk, IsErr, [], ◌∷◌, None, OnErr, OnOk, Some, false, is_err, max, take, true};
ghost use Rattle.tb_event_loop.specs.Arrivals.{StaysReady, TriesToAccept, are_held_up, may_accept, tells_listener, told_of};
ghost use Rattle.tb_event_loop.specs.Deeds.{Acts, ActsAt, Has, IsClose, done_in};
ghost use Rattle.tb_event_loop.specs.Done.{ends_in};
ghost use Rattle.tb_event_loop.specs.Ending.{has_stopped};
ghost use Rattle.tb_event_loop.specs.EventLoop.{IsBusy, IsNew, IsWaitOf};
ghost use Rattle.tb_event_loop.specs.Hearing.{Hears};
ghost use Rattle.tb_event_loop.specs.History.{EndsAll, Goes, GoesBy, Leaves, still_to_end};
ghost use Rattle.tb_event_loop.specs.Laps.{IsMadeOfLaps};
ghost use Rattle.tb_event_loop.specs.Noting.{HoldsOn};
ghost use Rattle.tb_event_loop.specs.Places.{IsUntilDue, SetsHold, Spares, Vacates, connection_in, hold_in, is_leaving};
ghost use Rattle.tb_event_loop.specs.Rounds.{IsCutRound, IsRound, IsTurnOrEnd, IsVisited, Visits, VisitsNext, begun};
ghost use Rattle.tb_event_loop.specs.Serving.{IsCutOff, Runs};
ghost use Rattle.tb_event_loop.specs.Sharing.{turned_for};
ghost use Rattle.tb_event_loop.specs.Sockets.{deaf, waited};
ghost use Rattle.tb_event_loop.specs.Watching.{FindsGone, FindsThere};
ghost use Rattle.tb_event_loop.specs.declared.fault.LoopFault.TheVariants.{Moved, Sockets, Store};
ghost use Rattle.tb_timeouts.specs.Deciding.{IsLongestWait};

use crate::arrivals::{Arrivals, RETRY};
use crate::fault::LoopFault;
use crate::journal::Journal;
use crate::places::Places;
use crate::service::{Service, SocketEvent, StoreFailed};
use crate::sockets::Sockets;
use crate::ticks::Ticks;
use crate::watch::Watch;
use std::alloc::{AllocError, Global};
use std::io::Write;
use tb_rooms::Rate;
use tb_timeouts::Limits;

/// How long the loop waits at most, in milliseconds.
const LONGEST_WAIT: u64 = 1_000;

/// The connections that come, and those that came: what the system told of each, and what each is doing. The sockets are handed in.
#[derive(Drop)]
pub struct EventLoop {
    arrivals: Arrivals,
    pub(crate) places: Places,
    /// How many connections have still to end, if the loop ends with them.
    still_to_end: Option<u32>,
    now: u64,
    /// When the last turn ended.
    seen: u64,
}

impl EventLoop {
    /// Serves so many connections, or without end. Persons and boards may write at this rate, in bytes.
    pub fn new(
        alloc: Global,
        connections: Option<u32>,
        limits: Limits,
        rate: Rate,
    ) -> Result<EventLoop, AllocError>
        ensures end { IfOk result (λ event_loop. still_to_end event_loop ≡ connections) }
        ensures new { IfOk result (IsNew connections limits rate) }
    {
        Ok(EventLoop {
            arrivals: Arrivals::new(connections),
            places: Places::new(alloc, limits, rate)?,
            still_to_end: connections,
            now: 0,
            seen: 0,
        })
    }

    /// Serves until all connections that are to come have ended. Each has a turn in each round: one read, one message, one write.
    /// Ok is returned only where there was a limit, and exactly so many connections ended. Before the turns of each new millisecond
    /// it looks whether what is served is still there, and ends where it isn't.
    pub fn serve<N: Sockets, V: Service, C: Ticks, W: Write, P: Watch>(
        &mut self,
        sockets: &mut N,
        service: &mut V,
        journal: &mut Journal<C, W>,
        watch: &mut P,
    ) -> Result<(), LoopFault>
        ensures after { (runs : Runs N.follows V.follows V.owed_at (has_stopped result)
            (sockets.old, service.old) (sockets.new, service.new))
            × EndsAll result (still_to_end self.old) (ends_in (done_in runs.deeds)) }
        ensures laps { IsMadeOfLaps N.follows N.last_told P.looks V.follows V.gives_file V.held_at
            V.owed_at V.wants result self.old
            (sockets.old, service.old, watch.old) (sockets.new, service.new, watch.new) }
        ensures cause { result ≡ Err Sockets → IsCutOff N.follows sockets.old sockets.new }
        ensures moved { result ≡ Err Moved → P.is_gone watch.new }
        ensures fault { IfErr result
            (λ fault. (fault ≡ Store) ⊎ (fault ≡ Sockets) ⊎ (fault ≡ Moved)) }
        ensures failed { result ≡ Err Store → V.has_failed service.new ≡ true }
    {
        'rounds: for _ in 0..u64::MAX {
            if self.has_ended_all() {
                return Ok(());
            }
            if !self.wait(sockets) {
                return Err(LoopFault::Sockets);
            }
            let before = self.now;
            self.prepare(sockets, journal);
            if self.has_moved(before, watch) {
                return Err(LoopFault::Moved);
            }
            if self.round(sockets, service, journal).is_err() {
                self.say_farewell(sockets, service);
                return Err(LoopFault::Store);
            }
        }
        Err(LoopFault::Sockets) // Never: so many rounds take longer than any machine lasts.
    }

    // Whether all connections that are to come have ended.
    fn has_ended_all(&self) -> bool
        ensures { result ≡ true → self.entry.now.still_to_end ≡ Some 0 }
    {
        self.still_to_end == Some(0)
    }

    // Whether a new millisecond has begun, in which what is served isn't there any more.
    fn has_moved<P: Watch>(&self, before: u64, watch: &mut P) -> bool
        ensures moved { result ≡ true
            → FindsGone P.looks before self.entry.now.now watch.old watch.new }
        ensures gone { result ≡ true → P.is_gone watch.new }
        ensures there { result ≡ false
            → FindsThere P.looks before self.entry.now.now watch.old watch.new }
    {
        self.now != before && !watch.is_there()
    }

    // Waits until a socket is ready or a time is over. False where the system doesn't tell.
    fn wait<N: Sockets>(&self, sockets: &mut N) -> bool
        ensures heard { result ≡ true → (millis : ℕ) × IsWaitOf self.entry.now millis
            × N.follows (waited millis (N.last_told sockets.new) ∷ []) sockets.old sockets.new }
        ensures deaf { result ≡ false → N.follows (deaf ∷ []) sockets.old sockets.new }
    {
        sockets.wait(self.idle_millis())
    }

    // How long nothing has to be done, if no socket is ready.
    fn idle_millis(&self) -> u64
        ensures busy { IsBusy self.entry.now → result ≡ 0 }
        ensures idle { let event_loop = self.entry.now in ¬ IsBusy event_loop
            → (most : ℕ) × IsUntilDue event_loop.places event_loop.places.end event_loop.now
            (if are_held_up event_loop.arrivals then RETRY else LONGEST_WAIT) most
            × IsLongestWait event_loop.places.limits event_loop.now most
            (take event_loop.places.end event_loop.places.stages.items) result }
    {
        if self.places.have_turns(self.now) || self.arrivals.can_go_on(&self.places, self.now) {
            return 0;
        }
        let most = if self.arrivals.are_held_up() {
            RETRY
        } else {
            LONGEST_WAIT
        };
        let most = self.places.until_due(self.now, most);
        self.places.longest_wait(self.now, most)
    }

    // Sees what is ready, and puts those that came into places.
    fn prepare<N: Sockets, C: Ticks, W: Write>(
        &mut self,
        sockets: &mut N,
        journal: &mut Journal<C, W>,
    )
        ensures limit { self.new.still_to_end ≡ self.old.still_to_end }
        ensures heard { StaysReady N.follows
            (self.old.arrivals.is_ready || tells_listener (N.last_told sockets.old))
            self.new.arrivals.is_ready sockets.old sockets.new }
        ensures tried { self.old.arrivals.is_waiting ≡ false
            → may_accept (told_of (N.last_told sockets.old) self.old.arrivals) self.new.now ≡ true
            → TriesToAccept N.follows sockets.old sockets.new }
        ensures marks { Hears (N.last_told sockets.old) self.old.places self.new.places }
        ensures moment { (shown : ℕ) × (later : C) × C.shows shown journal.old.ticks later
            × (self.new.now ≡ max journal.old.millis shown) }
    {
        self.now = journal.now();
        self.arrivals.hear(sockets.told());
        self.places.mark_ready(sockets.told());
        self.arrivals
            .seat_all(sockets, &mut self.places, journal, self.now);
    }

    fn round<N: Sockets, V: Service, C: Ticks, W: Write>(
        &mut self,
        sockets: &mut N,
        service: &mut V,
        journal: &mut Journal<C, W>,
    ) -> Result<(), StoreFailed>
        ensures after { Goes (Acts N.follows V.follows V.owed_at) (is_err result)
            self.old.still_to_end self.new.still_to_end
            (sockets.old, service.old) (sockets.new, service.new) }
        ensures failed { IsErr result → V.has_failed service.new ≡ true }
        ensures visits { OnOk result (IsRound N.follows V.follows V.gives_file V.held_at V.owed_at
            V.wants self.old self.new (sockets.old, service.old) (sockets.new, service.new)) }
        ensures cut { OnErr result (IsCutRound N.follows V.follows V.gives_file V.held_at
            V.owed_at V.wants self.old self.new (sockets.old, service.old) (sockets.new, service.new)) }
        ensures each { OnOk result ((place : ℕ) → place < self.old.places.end
            → IsVisited N.follows V.follows V.gives_file V.held_at V.owed_at V.wants
            place (begun self.old) (sockets.old, service.old) (sockets.new, service.new)) }
    {
        self.seen = self.now;
        self.places.begin_round();
        let end = self.places.end;
        'places: for step in 0..end {
            let place = self.places.place_at(step, end);
            self.visit_next(sockets, service, journal, place)?;
        }
        self.places.end_round();
        self.places.share(self.now);
        Ok(())
    }

    // The turn of one place, unless its owner had enough of them in this round.
    fn visit_next<N: Sockets, V: Service, C: Ticks, W: Write>(
        &mut self,
        sockets: &mut N,
        service: &mut V,
        journal: &mut Journal<C, W>,
        place: usize,
    ) -> Result<(), StoreFailed>
        ensures visits { VisitsNext N.follows V.follows V.gives_file V.held_at V.owed_at
            V.wants (is_err result) place self.old self.new
            (sockets.old, service.old) (sockets.new, service.new) }
        ensures failed { IsErr result → V.has_failed service.new ≡ true }
    {
        if self.places.is_put_back(place, self.now) {
            return Ok(());
        }
        self.visit(sockets, service, journal, place)
    }

    // The turn of one place, if it has one.
    fn visit<N: Sockets, V: Service, C: Ticks, W: Write>(
        &mut self,
        sockets: &mut N,
        service: &mut V,
        journal: &mut Journal<C, W>,
        place: usize,
    ) -> Result<(), StoreFailed>
        ensures visits { Visits N.follows V.follows V.gives_file V.held_at V.owed_at V.wants
            (is_err result) place self.old self.new
            (sockets.old, service.old) (sockets.new, service.new) }
        ensures failed { IsErr result → V.has_failed service.new ≡ true }
        ensures left { OnOk result (is_leaving (connection_in self.new.places place) ≡ false) }
    {
        if !self.places.begin_turn(sockets, place, self.now) {
            return Ok(());
        }
        self.take_turn(sockets, service, journal, place)?;
        self.places.note(service, place);
        self.count_time(journal, place);
        Ok(())
    }

    // How long the turn of a place took.
    fn count_time<C: Ticks, W: Write>(&mut self, journal: &mut Journal<C, W>, place: usize)
        ensures seen { (shown : ℕ) × (later : C) × C.shows shown journal.old.ticks later
            × (self.new.seen ≡ max journal.old.millis shown) }
        ensures counted { SetsHold self.old.places self.new.places place
            (turned_for self.old.places.round (self.new.seen - self.old.seen)
            (hold_in self.old.places place)) }
        ensures left { connection_in self.new.places place ≡ connection_in self.old.places place }
        ensures limit { self.new.still_to_end ≡ self.old.still_to_end }
        ensures spares { Spares place self.old.places self.new.places }
        ensures moment { self.new.now ≡ self.old.now }
    {
        let before = self.seen;
        self.seen = journal.now();
        self.places
            .count_turn(place, self.seen.saturating_sub(before));
    }

    fn take_turn<N: Sockets, V: Service, C: Ticks, W: Write>(
        &mut self,
        sockets: &mut N,
        service: &mut V,
        journal: &mut Journal<C, W>,
        place: usize,
    ) -> Result<(), StoreFailed>
        ensures turn { GoesBy (ActsAt place N.follows V.follows V.owed_at) (is_err result)
            (IsTurnOrEnd (V.gives_file service.old) self.old.places place self.old.now
            (V.held_at service.old place) (V.owed_at service.old place) self.old.still_to_end)
            self.old.still_to_end self.new.still_to_end
            (sockets.old, service.old) (sockets.new, service.new) }
        ensures spares { Spares place self.old.places self.new.places }
        ensures held { OnOk result (HoldsOn self.old.places self.new.places place) }
        ensures moment { self.new.now ≡ self.old.now }
        ensures seen { self.new.seen ≡ self.old.seen }
        ensures failed { IsErr result → V.has_failed service.new ≡ true }
        ensures left { OnOk result (is_leaving (connection_in self.new.places place) ≡ false) }
    {
        self.places.act(sockets, service, journal, place, self.now)?;
        if !self.places.is_gone(place) {
            return Ok(());
        }
        self.leave(sockets, service, place)
    }

    // The connection of a place has ended, so that another may come.
    fn leave<N: Sockets, V: Service>(
        &mut self,
        sockets: &mut N,
        service: &mut V,
        place: usize,
    ) -> Result<(), StoreFailed>
        ensures after { GoesBy (ActsAt place N.follows V.follows V.owed_at) (is_err result)
            (λ deeds. self.old.still_to_end ≢ Some 0 → Has (IsClose place) deeds)
            self.old.still_to_end self.new.still_to_end
            (sockets.old, service.old) (sockets.new, service.new) }
        ensures vacated { Vacates self.old.places self.new.places place }
        ensures moment { self.new.now ≡ self.old.now }
        ensures seen { self.new.seen ≡ self.old.seen }
        ensures failed { IsErr result → V.has_failed service.new ≡ true }
        ensures left { connection_in self.new.places place ≡ None }
    {
        self.places.vacate(place);
        self.arrivals.try_again();
        if !count_one(&mut self.still_to_end) {
            return Ok(()); // Never: no more connections come than are to end.
        }
        sockets.close(place);
        service.happen(place, &SocketEvent::Opened)
    }
}

// One connection has ended. False where none had to.
fn count_one(still_to_end: &mut Option<u32>) -> bool
    ensures counted { result ≡ true → Leaves still_to_end.old 1 still_to_end.new }
    ensures none { result ≡ false → still_to_end.new ≡ still_to_end.old }
    ensures only { result ≡ false → still_to_end.old ≡ Some 0 }
{
    match still_to_end {
        Some(0) => false,
        Some(count) => {
            *count -= 1;
            true
        }
        None => true,
    }
}
