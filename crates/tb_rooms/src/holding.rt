//! What each place holds of memory, and who may hold more.
ghost use Rattle.std.specs.Prelude.{◌≡◌, ◌+◌, ◌-◌, ◌^◌, min};
ghost use Rattle.tb_rooms.specs.Holding.{after_turn, fresh_hold, vacant_hold, are_before, begun_sooner, fits, goes_before, has, has_turned, has_turns_left, is_let_in, is_same, lacks_room, may_turn, most_held, millis_if, millis_in, out_if, out_in, room_if, room_in, turn_if, turns_in};

use tb_timeouts::{CONNECTIONS, Stage};

/// How many bytes a connection holds whose message needs no room: its allowance, and two pieces that were read.
const HELD_ALWAYS: usize = 65_536;

/// The owner of what is held for a message whose key isn't known.
pub const STRANGER: u64 = 0;

/// What a place holds, and whose it is.
#[derive(Clone, Copy, Debug, PartialEq, Eq)]
pub struct Hold {
    /// The number of its person among the known ones, or `STRANGER`.
    pub owner: u64,
    /// What its connection did behind its last turn.
    pub stage: Stage,
    /// How many bytes its message has in all, once its head was read, or 0.
    pub wanted: usize,
    /// How many bytes of room its message was given, or 0.
    pub room: usize,
    /// How many bytes its answer has, until all of them are taken, or 0.
    pub out: usize,
    /// The round in which it had its last turn.
    pub round: u64,
    /// How many milliseconds that turn took.
    pub millis: u64,
    /// Its connection hasn't sent anything yet.
    pub is_fresh: bool,
}

impl Hold {
    /// Of a place that no connection has.
    pub fn vacant() -> Hold
        ensures { result ≡ vacant_hold }
    {
        Hold::fresh(Stage::Vacant)
    }

    /// Of a connection that has no message yet.
    pub fn fresh(stage: Stage) -> Hold
        ensures { result ≡ fresh_hold stage }
    {
        Hold {
            owner: STRANGER,
            stage,
            wanted: 0,
            room: 0,
            out: 0,
            round: 0,
            millis: 0,
            is_fresh: true,
        }
    }

    /// What is held behind a turn: the message needs so many bytes in all, and so many of the answer aren't taken.
    pub fn after_turn(self, owner: u64, stage: Stage, wanted: usize, unsent: usize) -> Hold
        ensures { result ≡ after_turn owner stage wanted unsent self }
    {
        Hold {
            owner,
            stage,
            wanted,
            room: if wanted == 0 { 0 } else { self.room },
            out: if unsent == 0 { 0 } else { self.out.max(unsent) },
            round: self.round,
            millis: self.millis,
            is_fresh: self.is_fresh && is_same(self.stage.idle_since(), stage.idle_since()),
        }
    }
}

fn is_same(one: Option<u128>, other: Option<u128>) -> bool
    ensures { result ≡ is_same one other }
{
    match (one, other) {
        (Some(one), Some(other)) => one == other,
        _ => false,
    }
}

/// How much may be held, and how many turns there are. Times are in milliseconds.
#[derive(Clone, Copy, Debug, PartialEq, Eq)]
pub struct Rooms {
    /// How long a message is that needs no room.
    pub allowance: usize,
    /// How many bytes of longer messages are held of a person, of all persons, and of all strangers.
    pub person: usize,
    pub persons: usize,
    pub strangers: usize,
    /// With how many bytes of untaken answers a person waits for them to be taken, and with how many of all answers.
    pub person_answers: usize,
    pub answers: usize,
    /// How many bytes of answers there are at most, unless they are of one.
    pub most_answers: usize,
    /// How long an answer that is in the way is spared where no part of it is taken.
    pub spared: u64,
    /// How long a connection is spared that hasn't sent anything yet.
    pub silent: u64,
    /// How many places one may have before they give way first.
    pub places: usize,
    /// How many turns a person has in a round, and after how long no further ones.
    pub turns: usize,
    pub millis: u64,
}

/// The rooms of the server.
pub const ROOMS: Rooms = Rooms {
    allowance: 32_768,
    person: 2_129_920,
    persons: 67_108_864,
    strangers: 8_388_608,
    person_answers: 8_388_608,
    answers: 67_108_864,
    most_answers: 134_217_728,
    spared: 1_000,
    silent: 1_000,
    places: 8,
    turns: 8,
    millis: 5,
};

/// How many bytes the server holds at most for messages and answers: what each connection may hold without room, the rooms, and the
/// answers. One answer may take more than these.
pub fn most_held(rooms: &Rooms) -> usize
    ensures { result ≡ most_held rooms.now }
{
    let always = CONNECTIONS * HELD_ALWAYS;
    plus(
        plus(always, rooms.most_answers),
        plus(rooms.persons, rooms.strangers),
    )
}

/// Some of all owners.
#[derive(Clone, Copy)]
pub(crate) enum Whose {
    All,
    Persons,
    Of(u64),
}

impl Whose {
    pub(crate) fn has(self, hold: &Hold) -> bool
        ensures { result ≡ has self hold.now }
    {
        match self {
            Whose::All => true,
            Whose::Persons => hold.owner != STRANGER,
            Whose::Of(owner) => hold.owner == owner,
        }
    }
}

pub(crate) fn plus(sum: usize, more: usize) -> usize
    ensures { result ≡ min (sum + more) (2 ^ 64 - 1) }
{
    sum.saturating_add(more)
}

fn longer(sum: u64, more: u64) -> u64
    ensures { result ≡ min (sum + more) (2 ^ 64 - 1) }
{
    sum.saturating_add(more)
}

// ---- messages

impl Hold {
    /// Whether its message waits for room, so that no more of it is read.
    pub fn lacks_room(&self, rooms: &Rooms) -> bool
        ensures { result ≡ lacks_room rooms.now self.now }
    {
        self.room == 0 && self.wanted > rooms.allowance
    }

    fn room_if(&self, whose: Whose) -> usize
        ensures { result ≡ room_if whose self.now }
    {
        if whose.has(self) { self.room } else { 0 }
    }
}

fn room_in(holds: &[Hold], whose: Whose) -> usize
    ensures { result ≡ room_in whose holds.now }
{
    holds
        .iter()
        .fold(0, |sum, hold| plus(sum, hold.room_if(whose)))
}

fn begun_sooner(one: Option<u128>, other: Option<u128>) -> bool
    ensures { result ≡ begun_sooner one other }
{
    match (one, other) {
        (Some(one), Some(other)) => one < other,
        _ => false,
    }
}

// Whether one of the same owner was begun before, and still waits for room.
fn goes_before(one: &Hold, hold: &Hold, rooms: &Rooms) -> bool
    ensures { result ≡ goes_before rooms.now hold.now one.now }
{
    one.lacks_room(rooms)
        && one.owner == hold.owner
        && begun_sooner(one.stage.begun_at(), hold.stage.begun_at())
}

fn are_before(holds: &[Hold], hold: &Hold, rooms: &Rooms) -> bool
    ensures { result ≡ are_before rooms.now hold.now holds.now }
{
    holds.iter().any(|one| goes_before(one, hold, rooms))
}

fn fits(holds: &[Hold], hold: &Hold, rooms: &Rooms) -> bool
    ensures { result ≡ fits rooms.now hold.now holds.now }
{
    if hold.owner == STRANGER {
        return plus(room_in(holds, Whose::Of(STRANGER)), hold.wanted) <= rooms.strangers;
    }
    plus(room_in(holds, Whose::Of(hold.owner)), hold.wanted) <= rooms.person
        && plus(room_in(holds, Whose::Persons), hold.wanted) <= rooms.persons
}

/// Whether the message of this place is given room now, where these are held: the whole of it fits, and none of the same owner waits
/// that was begun before it.
pub fn is_let_in(holds: &[Hold], hold: &Hold, rooms: &Rooms) -> bool
    ensures { result ≡ is_let_in rooms.now hold.now holds.now }
{
    hold.lacks_room(rooms) && !are_before(holds, hold, rooms) && fits(holds, hold, rooms)
}

// ---- answers

impl Hold {
    fn out_if(&self, whose: Whose) -> usize
        ensures { result ≡ out_if whose self.now }
    {
        if whose.has(self) { self.out } else { 0 }
    }
}

pub(crate) fn out_in(holds: &[Hold], whose: Whose) -> usize
    ensures { result ≡ out_in whose holds.now }
{
    holds
        .iter()
        .fold(0, |sum, hold| plus(sum, hold.out_if(whose)))
}

/// Whether a message of this owner may be answered: where its answers are all taken, or where there is room for more, both of its own
/// and of all.
pub fn may_turn(holds: &[Hold], owner: u64, rooms: &Rooms) -> bool
    ensures { result ≡ may_turn rooms.now owner holds.now }
{
    let own = out_in(holds, Whose::Of(owner));
    own == 0 || own < rooms.person_answers && out_in(holds, Whose::All) < rooms.answers
}

// ---- turns

impl Hold {
    fn has_turned(&self, owner: u64, round: u64) -> bool
        ensures { result ≡ has_turned owner round self.now }
    {
        self.owner == owner && self.round == round
    }

    fn turn_if(&self, owner: u64, round: u64) -> usize
        ensures { result ≡ turn_if owner round self.now }
    {
        if self.has_turned(owner, round) { 1 } else { 0 }
    }

    fn millis_if(&self, owner: u64, round: u64) -> u64
        ensures { result ≡ millis_if owner round self.now }
    {
        if self.has_turned(owner, round) {
            self.millis
        } else {
            0
        }
    }
}

fn turns_in(holds: &[Hold], owner: u64, round: u64) -> usize
    ensures { result ≡ turns_in owner round holds.now }
{
    holds
        .iter()
        .fold(0, |count, hold| plus(count, hold.turn_if(owner, round)))
}

fn millis_in(holds: &[Hold], owner: u64, round: u64) -> u64
    ensures { result ≡ millis_in owner round holds.now }
{
    holds
        .iter()
        .fold(0, |sum, hold| longer(sum, hold.millis_if(owner, round)))
}

/// Whether this owner has a further turn in this round.
pub fn has_turns_left(holds: &[Hold], owner: u64, round: u64, rooms: &Rooms) -> bool
    ensures { result ≡ has_turns_left rooms.now owner round holds.now }
{
    turns_in(holds, owner, round) < rooms.turns && millis_in(holds, owner, round) < rooms.millis
}
