//! The places of connections: who is in each, and what each is doing.
ghost use Rattle.std.specs.Prelude.{◌≡◌, ◌↔◌, ℕ, IsTrue, IfOk, position, slice_set, take, true};
ghost use Rattle.tb_event_loop.specs.Places.{Changes, Enters, HasTurn, HaveTurns, IsEmpty, IsEndWithin, IsNeed, LendsConnection, LetsGoOne, NeedsBytes, Seats, SetsHold, SetsStage, Spares, Vacates, connection_in, hold_in, is_leaving, is_read, may_answer_at, may_turn_of, stage_in};
ghost use Rattle.std.specs.Borrow.{sem};
ghost use Rattle.std.specs.Option.{option_copied, option_copied_mut, option_map};
ghost use Rattle.tb_event_loop.specs.Connection.{leaving, marked, short_of_bytes};
ghost use Rattle.tb_event_loop.specs.Hearing.{marked_by, marked_if};
ghost use Rattle.tb_event_loop.specs.Sockets.{Quietly};
ghost use Rattle.tb_rooms.specs.Yielding.{gives_way};
ghost use Rattle.tb_timeouts.specs.Deciding.{IsLongestWait};
ghost use Rattle.tb_timeouts.specs.Stage.{is_vacant, next_stage};

use crate::connection::Connection;
use crate::exchange::drop_some;
use crate::service::Service;
use crate::sockets::{Sockets, Told};
use std::alloc::{AllocError, Global};
use tb_rooms::{Hold, ROOMS, Rate, Rates, Rooms, gives_way, may_turn};
use tb_timeouts::{CONNECTIONS, Limits, Need, Stage, first_vacant, longest_wait};

#[derive(Drop)]
pub(crate) struct Places {
    pub(crate) connections: Vec<Option<Connection>>,
    pub(crate) stages: Vec<Stage>,
    pub(crate) limits: Limits,
    /// Behind the last place that is taken.
    pub(crate) end: usize,
    /// Who has tried how many keys, and whose are known.
    pub(crate) rates: Rates,
    pub(crate) alloc: Global,
    /// What each place holds, and whose it is.
    pub(crate) holds: Vec<Hold>,
    pub(crate) rooms: Rooms,
    /// How many rounds there have been, and where the next one begins.
    pub(crate) round: u64,
    pub(crate) first: usize,
    /// The first place that was put back in this round.
    pub(crate) cut: Option<usize>,
    /// Whether one waits for room, or has left an answer untaken.
    pub(crate) is_tight: bool,
}

impl Places {
    /// Vacant places. Persons and boards may write at this rate, in bytes.
    pub(crate) fn new(alloc: Global, limits: Limits, rate: Rate) -> Result<Places, AllocError>
        ensures { IfOk result (λ places. IsEmpty limits rate places) }
    {
        let mut connections = Vec::with_capacity(alloc, CONNECTIONS)?;
        let mut stages = Vec::with_capacity(alloc, CONNECTIONS)?;
        let mut holds = Vec::with_capacity(alloc, CONNECTIONS)?;
        for _ in 0..CONNECTIONS {
            connections.push(None)?;
            stages.push(Stage::Vacant)?;
            holds.push(Hold::vacant())?;
        }
        Ok(Places {
            connections,
            stages,
            limits,
            end: 0,
            rates: Rates::new(alloc, rate),
            alloc,
            holds,
            rooms: ROOMS,
            round: 0,
            first: 0,
            cut: None,
            is_tight: false,
        })
    }

    pub(crate) fn stage(&self, place: usize) -> Stage
        ensures { result ≡ stage_in self.now place }
    {
        match self.stages.get(place) {
            Some(stage) => *stage,
            None => Stage::Vacant,
        }
    }

    pub(crate) fn set_stage(&mut self, place: usize, stage: Stage)
        ensures { SetsStage self.old self.new place stage }
    {
        if let Some(old) = self.stages.get_mut(place) {
            *old = stage;
        }
    }

    /// The connection of a place, if there is one.
    pub(crate) fn at(&self, place: usize) -> Option<&Connection>
        ensures { option_copied result ≡ connection_in self.now place }
    {
        match self.connections.get(place) {
            Some(Some(connection)) => Some(connection),
            _ => None,
        }
    }

    pub(crate) fn connection(&mut self, place: usize) -> Option<&mut Connection>
        ensures* lends { sem 𝓛 (LendsConnection self.entry place result) }
        ensures value { option_copied_mut result ≡ connection_in self.old place }
    {
        self.connections.get_mut(place)?.as_mut()
    }

    /// How long to wait, at most so long, so that none stays longer than it may.
    pub(crate) fn longest_wait(&self, now: u64, most: u64) -> u64
        ensures { IsLongestWait self.now.limits now most
            (take self.now.end self.now.stages.items) result }
    {
        match self.stages.get(..self.end) {
            Some(stages) => longest_wait(stages, &self.limits, now, most),
            None => longest_wait(&self.stages, &self.limits, now, most),
        }
    }

    pub(crate) fn first_vacant(&self) -> Option<usize>
        ensures { result ≡ position is_vacant self.now.stages.items }
    {
        first_vacant(&self.stages)
    }

    /// Puts a connection into a vacant place.
    pub(crate) fn seat(&mut self, place: usize, now: u64)
        ensures { Seats self.old self.new place now }
    {
        if let Some(slot) = self.connections.get_mut(place) {
            *slot = Some(Connection::new());
        }
        self.set_stage(place, Stage::Idle { since: now });
        self.set_hold(place, Hold::fresh(Stage::Idle { since: now }));
        self.end = self.end.max(place.saturating_add(1));
    }

    /// Lets the connection go that gives way, if one does.
    pub(crate) fn make_room(&mut self, now: u64)
        ensures { LetsGoOne self.old self.new
            (gives_way self.old.rooms self.old.limits now self.old.holds.items) }
    {
        if let Some(place) = gives_way(&self.holds, &self.rooms, &self.limits, now) {
            self.let_go(place);
        }
    }

    pub(crate) fn let_go(&mut self, place: usize)
        ensures { Changes leaving self.old self.new place }
    {
        if let Some(slot) = self.connections.get_mut(place) {
            leave(slot);
        }
    }

    /// What is held for a connection is no whole message.
    pub(crate) fn lack_bytes(&mut self, place: usize)
        ensures { Changes short_of_bytes self.old self.new place }
    {
        if let Some(slot) = self.connections.get_mut(place) {
            lack_bytes(slot);
        }
    }

    /// Reads once from a connection that is closing, and throws it away.
    pub(crate) fn drop_bytes<N: Sockets>(&mut self, sockets: &mut N, place: usize)
        ensures same { self.new ≡ record self.old { connections = self.new.connections } }
        ensures quiet { Quietly N.follows sockets.old sockets.new }
        ensures spares { Spares place self.old self.new }
    {
        if let Some(connection) = self.connection(place) {
            drop_some(connection, sockets, place);
        }
    }

    pub(crate) fn may_answer(&self, place: usize) -> bool
        ensures { result ≡ may_answer_at (connection_in self.now place) }
    {
        match self.at(place) {
            Some(connection) => connection.may_answer,
            None => false,
        }
    }

    /// Whether a connection needs more bytes, and may have them.
    pub(crate) fn needs_bytes(&self, place: usize) -> bool
        ensures { IsTrue result ↔ NeedsBytes self.now place }
    {
        match self.at(place) {
            Some(connection) => connection.needs_bytes() && self.may_read(place),
            None => false,
        }
    }

    pub(crate) fn is_gone(&self, place: usize) -> bool
        ensures { result ≡ is_leaving (connection_in self.now place) }
    {
        match self.at(place) {
            Some(connection) => connection.is_gone,
            None => false,
        }
    }

    /// Takes the connection out of its place.
    pub(crate) fn vacate(&mut self, place: usize)
        ensures vacant { Vacates self.old self.new place }
        ensures end { IsEndWithin self.old.end self.new }
    {
        if let Some(slot) = self.connections.get_mut(place) {
            *slot = None;
        }
        self.set_stage(place, Stage::Vacant);
        self.set_hold(place, Hold::vacant());
        for _ in 0..CONNECTIONS {
            let last = self.end.saturating_sub(1);
            if !self.stage(last).is_vacant() {
                return;
            }
            self.end = last;
        }
    }

    /// What the sockets are ready for.
    pub(crate) fn mark_ready(&mut self, told: &[Told])
        ensures same { self.new ≡ record self.old { connections = self.new.connections } }
        ensures marks { (place : ℕ) → connection_in self.new place
            ≡ option_map (marked_by told.now place) (connection_in self.old place) }
    {
        'news: for event in told {
            self.mark_one(event);
        }
    }

    fn mark_one(&mut self, told: &Told)
        ensures same { self.new ≡ record self.old { connections = self.new.connections } }
        ensures marks { (place : ℕ) → connection_in self.new place
            ≡ option_map (marked_if told.now place) (connection_in self.old place) }
    {
        match told.place {
            Some(place) => self.mark_at(place, told),
            None => (),
        }
    }

    fn mark_at(&mut self, place: usize, told: &Told)
        ensures same { self.new ≡ record self.old { connections = self.new.connections } }
        ensures marks { connection_in self.new place
            ≡ option_map (marked told.now) (connection_in self.old place) }
        ensures spares { Spares place self.old self.new }
    {
        if let Some(connection) = self.connection(place) {
            mark(connection, told);
        }
    }

    /// Whether the connection in this place has something to do at this moment.
    pub(crate) fn has_turn(&self, place: usize, now: u64) -> bool
        ensures { IsTrue result ↔ HasTurn self.now place now }
    {
        let Some(connection) = self.at(place) else {
            return false;
        };
        if connection.is_gone {
            return true;
        }
        match self.stage(place) {
            Stage::Vacant => false,
            Stage::Answering { since: _, taken: _ } => connection.can_write,
            Stage::Closing { since: _, reads: _ } => connection.can_read,
            _ => {
                connection.may_answer && self.may_turn(connection, now)
                    || connection.needs_bytes() && self.may_read(place)
            }
        }
    }

    // Whether what is held for a connection may be turned, as far as it was looked at.
    fn may_turn(&self, connection: &Connection, now: u64) -> bool
        ensures { result ≡ may_turn_of self.now connection.now now }
    {
        !connection.has_asked
            || connection.due <= now && may_turn(&self.holds, connection.owner, &self.rooms)
    }

    pub(crate) fn may_read(&self, place: usize) -> bool
        ensures { result ≡ is_read self.now place }
    {
        self.stage(place).takes_bytes() && !self.hold(place).lacks_room(&self.rooms)
    }

    pub(crate) fn hold(&self, place: usize) -> Hold
        ensures { result ≡ hold_in self.now place }
    {
        match self.holds.get(place) {
            Some(hold) => *hold,
            None => Hold::vacant(),
        }
    }

    pub(crate) fn set_hold(&mut self, place: usize, hold: Hold)
        ensures { SetsHold self.old self.new place hold }
    {
        if let Some(old) = self.holds.get_mut(place) {
            *old = hold;
        }
    }

    /// Whether a connection has something to do at this moment.
    pub(crate) fn have_turns(&self, now: u64) -> bool
        ensures { IsTrue result ↔ HaveTurns self.now now }
    {
        for place in 0..self.end {
            if self.has_turn(place, now) {
                return true;
            }
        }
        false
    }

    /// The stage of a connection by what it needs now.
    pub(crate) fn enter<V: Service>(&mut self, service: &V, place: usize, now: u64)
        ensures { Enters self.old self.new place now (V.owed_at service.now place)
            (V.closes_at service.now place) (V.held_at service.now place) }
    {
        let stage = self.stage(place).next(need_of(service, place), now);
        self.set_stage(place, stage);
    }
}

fn leave(slot: &mut Option<Connection>)
    ensures { slot.new ≡ option_map leaving slot.old }
{
    if let Some(connection) = slot {
        connection.is_gone = true;
    }
}

fn lack_bytes(slot: &mut Option<Connection>)
    ensures { slot.new ≡ option_map short_of_bytes slot.old }
{
    if let Some(connection) = slot {
        connection.lack_bytes();
    }
}

fn mark(connection: &mut Connection, told: &Told)
    ensures { connection.new ≡ marked told.now connection.old }
{
    if told.is_read_closed {
        connection.has_hung_up = true;
    }
    connection.can_read = connection.can_read || told.is_readable || told.is_error;
    connection.can_read = connection.can_read || told.is_read_closed;
    connection.can_write = connection.can_write || told.is_writable || told.is_error;
}

fn need_of<V: Service>(service: &V, place: usize) -> Need
    ensures { IsNeed (V.owed_at service.now place) (V.closes_at service.now place)
        (V.held_at service.now place) result }
{
    if !service.unsent(place).is_empty() {
        Need::Taker
    } else if service.is_closing(place) {
        Need::End
    } else if service.held(place).is_empty() {
        Need::Message
    } else if service.has_head(place) {
        Need::RestOfBody
    } else {
        Need::RestOfHead
    }
}
