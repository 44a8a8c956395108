//! Which connection ends for others.
ghost use Rattle.std.specs.Prelude.{◌≡◌, ◌-◌, max, position};
ghost use Rattle.tb_rooms.specs.Yielding.{crowd_in, do_strangers_wait, does_one_wait, either, gives_answer_way, gives_room_way, gives_way, in_the_way, is_earlier, is_in_the_way, is_needed, is_since, is_stranger_without_room, large_if, larges_in, largest_in_the_way, least_since, lesser, longest, more_places, most_in_the_way, most_places, place_if, places_in, since, since_of, waits_to_answer};

use crate::holding::{Hold, Rooms, STRANGER, Whose, out_in, plus};
use tb_timeouts::Limits;

/// Later than any moment.
const ALWAYS: u128 = u128::MAX;

/// What a place may be doing.
#[derive(Clone, Copy)]
pub(crate) enum Doing {
    /// It came, and hasn't sent anything yet.
    Coming,
    /// It is between two messages.
    Idling,
    /// Its message waits for room, or to be answered.
    Queueing,
    /// Its message has begun.
    Sending,
    /// Its message has room.
    Filling,
    /// Its answer waits to be taken.
    Taking,
    /// The same, of a large answer.
    TakingMuch,
}

// Since when a place does this, if it does.
fn since(hold: &Hold, doing: Doing, rooms: &Rooms) -> Option<u128>
    ensures { result ≡ since doing rooms.now hold.now }
{
    match doing {
        Doing::Coming if hold.is_fresh => hold.stage.idle_since(),
        Doing::Coming => None,
        Doing::Idling if hold.is_fresh => None,
        Doing::Idling => hold.stage.idle_since(),
        Doing::Queueing if hold.lacks_room(rooms) => hold.stage.begun_at(),
        Doing::Queueing => hold.stage.waiting_since(),
        Doing::Sending => hold.stage.begun_at(),
        Doing::Filling if hold.room == 0 => None,
        Doing::Filling => hold.stage.begun_at(),
        Doing::Taking => hold.stage.taken_at(),
        Doing::TakingMuch if hold.out < rooms.person_answers => None,
        Doing::TakingMuch => hold.stage.taken_at(),
    }
}

fn since_of(hold: &Hold, doing: Doing, whose: Whose, rooms: &Rooms) -> Option<u128>
    ensures { result ≡ since_of doing whose rooms.now hold.now }
{
    if whose.has(hold) {
        since(hold, doing, rooms)
    } else {
        None
    }
}

fn lesser(one: Option<u128>, other: Option<u128>) -> Option<u128>
    ensures { result ≡ lesser one other }
{
    match (one, other) {
        (Some(one), Some(other)) => Some(one.min(other)),
        (None, _) => other,
        (_, None) => one,
    }
}

// The moment since which one of these does this longest.
fn least_since(holds: &[Hold], doing: Doing, whose: Whose, rooms: &Rooms) -> Option<u128>
    ensures { result ≡ least_since doing whose rooms.now holds.now }
{
    holds.iter().fold(
        None,
        |least, hold| lesser(least, since_of(hold, doing, whose, rooms)),
    )
}

fn is_since(hold: &Hold, doing: Doing, whose: Whose, rooms: &Rooms, moment: u128) -> bool
    ensures { result ≡ is_since doing whose rooms.now moment hold.now }
{
    since_of(hold, doing, whose, rooms) == Some(moment)
}

// The first place of these that does this since a moment.
fn first_since(
    holds: &[Hold],
    doing: Doing,
    whose: Whose,
    rooms: &Rooms,
    moment: u128,
) -> Option<usize>
    ensures { result ≡ position (is_since doing whose rooms.now moment) holds.now }
{
    holds
        .iter()
        .position(|hold| is_since(hold, doing, whose, rooms, moment))
}

// The one of these that does this longest, if it does so for longer than some time.
fn longest(holds: &[Hold], doing: Doing, whose: Whose, rooms: &Rooms, before: u128) -> Option<usize>
    ensures { result ≡ longest doing whose rooms.now before holds.now }
{
    match least_since(holds, doing, whose, rooms) {
        Some(moment) if moment < before => first_since(holds, doing, whose, rooms, moment),
        _ => None,
    }
}

fn either(one: Option<usize>, other: Option<usize>) -> Option<usize>
    ensures { result ≡ either one other }
{
    match one {
        Some(place) => Some(place),
        None => other,
    }
}

// The moment that lies so long before another.
fn before(now: u64, time: u64) -> u128
    ensures { result ≡ now - time }
{
    u128::from(now.saturating_sub(time))
}

// ---- a place for one that comes

fn place_if(hold: &Hold, owner: u64) -> usize
    ensures { result ≡ place_if owner hold.now }
{
    if hold.owner == owner { 1 } else { 0 }
}

fn places_in(holds: &[Hold], owner: u64) -> usize
    ensures { result ≡ places_in owner holds.now }
{
    holds
        .iter()
        .fold(0, |count, hold| plus(count, place_if(hold, owner)))
}

// The one of two owners that has more places.
fn more_places(holds: &[Hold], most: u64, owner: u64) -> u64
    ensures { result ≡ more_places holds.now most owner }
{
    if owner != most && places_in(holds, owner) > places_in(holds, most) {
        owner
    } else {
        most
    }
}

fn most_places(holds: &[Hold]) -> u64
    ensures { result ≡ most_places holds.now }
{
    holds.iter().fold(STRANGER, |most, hold| more_places(holds, most, hold.owner))
}

// Those of whom one gives way: of the owner that has the most places, unless it has few.
fn crowd_in(holds: &[Hold], rooms: &Rooms) -> Whose
    ensures { result ≡ crowd_in rooms.now holds.now }
{
    let owner = most_places(holds);
    if places_in(holds, owner) > rooms.places {
        Whose::Of(owner)
    } else {
        Whose::All
    }
}

/// The place that is given to another connection, where all are taken. Of the owner that has the most places it is the one that came
/// longest ago and hasn't sent anything, if it isn't spared any more, else the one that is between two messages longest, else the one
/// that waits longest, else the one whose message was begun longest ago, if it isn't spared any more, else the one whose answer was
/// taken least recently.
pub fn gives_way(holds: &[Hold], rooms: &Rooms, limits: &Limits, now: u64) -> Option<usize>
    ensures { result ≡ gives_way rooms.now limits.now now holds.now }
{
    let whose = crowd_in(holds, rooms);
    let came = before(now, rooms.silent);
    let coming = longest(holds, Doing::Coming, whose, rooms, came);
    let idling = longest(holds, Doing::Idling, whose, rooms, ALWAYS);
    let queueing = longest(holds, Doing::Queueing, whose, rooms, ALWAYS);
    let begun = before(now, limits.spared);
    let sending = longest(holds, Doing::Sending, whose, rooms, begun);
    let taken = before(now, rooms.spared);
    let taking = longest(holds, Doing::Taking, whose, rooms, taken);
    either(
        either(coming, either(idling, queueing)),
        either(sending, taking),
    )
}

// ---- room for the message of a stranger

fn is_stranger_without_room(hold: &Hold, rooms: &Rooms) -> bool
    ensures { result ≡ is_stranger_without_room rooms.now hold.now }
{
    hold.owner == STRANGER && hold.lacks_room(rooms)
}

fn do_strangers_wait(holds: &[Hold], rooms: &Rooms) -> bool
    ensures { result ≡ do_strangers_wait rooms.now holds.now }
{
    holds
        .iter()
        .any(|hold| is_stranger_without_room(hold, rooms))
}

/// The stranger whose message gives its room to that of another: the one that was begun longest ago, if it isn't spared any more.
pub fn gives_room_way(holds: &[Hold], rooms: &Rooms, limits: &Limits, now: u64) -> Option<usize>
    ensures { result ≡ gives_room_way rooms.now limits.now now holds.now }
{
    if !do_strangers_wait(holds, rooms) {
        return None;
    }
    let begun = before(now, limits.spared);
    longest(holds, Doing::Filling, Whose::Of(STRANGER), rooms, begun)
}

// ---- room for answers

fn is_earlier(moment: Option<u128>, before: u128) -> bool
    ensures { result ≡ is_earlier moment before }
{
    match moment {
        Some(moment) => moment < before,
        None => false,
    }
}

fn waits_to_answer(hold: &Hold, owner: u64) -> bool
    ensures { result ≡ waits_to_answer owner hold.now }
{
    hold.owner == owner && hold.stage.waiting_since().is_some()
}

fn does_one_wait(holds: &[Hold], owner: u64) -> bool
    ensures { result ≡ does_one_wait owner holds.now }
{
    holds.iter().any(|hold| waits_to_answer(hold, owner))
}

// Whether the room of an answer is needed: by a message of the same owner, or by all.
fn is_needed(holds: &[Hold], owner: u64, rooms: &Rooms) -> bool
    ensures { result ≡ is_needed rooms.now owner holds.now }
{
    out_in(holds, Whose::All) >= rooms.answers
        || out_in(holds, Whose::Of(owner)) >= rooms.person_answers && does_one_wait(holds, owner)
}

// How many bytes of an answer are in the way: those of one of which no part was taken since a moment, where its room is needed.
fn in_the_way(hold: &Hold, holds: &[Hold], rooms: &Rooms, taken: u128) -> usize
    ensures { result ≡ in_the_way holds.now rooms.now taken hold.now }
{
    if is_earlier(hold.stage.taken_at(), taken) && is_needed(holds, hold.owner, rooms) {
        hold.out
    } else {
        0
    }
}

fn most_in_the_way(holds: &[Hold], rooms: &Rooms, taken: u128) -> usize
    ensures { result ≡ most_in_the_way rooms.now taken holds.now }
{
    holds.iter().fold(
        0,
        |most, hold| greater(most, in_the_way(hold, holds, rooms, taken)),
    )
}

fn greater(one: usize, other: usize) -> usize
    ensures { result ≡ max one other }
{
    one.max(other)
}

fn is_in_the_way(hold: &Hold, holds: &[Hold], rooms: &Rooms, taken: u128, bytes: usize) -> bool
    ensures { result ≡ is_in_the_way holds.now rooms.now taken bytes hold.now }
{
    in_the_way(hold, holds, rooms, taken) == bytes
}

fn first_in_the_way(holds: &[Hold], rooms: &Rooms, taken: u128, bytes: usize) -> Option<usize>
    ensures { result ≡ position (is_in_the_way holds.now rooms.now taken bytes) holds.now }
{
    holds
        .iter()
        .position(|hold| is_in_the_way(hold, holds, rooms, taken, bytes))
}

// The answer that is in the way with the most bytes.
fn largest_in_the_way(holds: &[Hold], rooms: &Rooms, taken: u128) -> Option<usize>
    ensures { result ≡ largest_in_the_way rooms.now taken holds.now }
{
    let bytes = most_in_the_way(holds, rooms, taken);
    if bytes == 0 {
        None
    } else {
        first_in_the_way(holds, rooms, taken, bytes)
    }
}

fn large_if(hold: &Hold, rooms: &Rooms) -> usize
    ensures { result ≡ large_if rooms.now hold.now }
{
    if hold.out >= rooms.person_answers {
        1
    } else {
        0
    }
}

fn larges_in(holds: &[Hold], rooms: &Rooms) -> usize
    ensures { result ≡ larges_in rooms.now holds.now }
{
    holds
        .iter()
        .fold(0, |count, hold| plus(count, large_if(hold, rooms)))
}

/// The answer that is let go of, since others need its room. Where all are far too many, and several are large, it is the large one that
/// was taken least recently. Else it is the one with the most bytes of which no part was taken for long, where there are too many of its
/// owner, who waits, or of all.
pub fn gives_answer_way(holds: &[Hold], rooms: &Rooms, now: u64) -> Option<usize>
    ensures { result ≡ gives_answer_way rooms.now now holds.now }
{
    if out_in(holds, Whose::All) > rooms.most_answers && larges_in(holds, rooms) > 1 {
        return longest(holds, Doing::TakingMuch, Whose::All, rooms, ALWAYS);
    }
    largest_in_the_way(holds, rooms, before(now, rooms.spared))
}
