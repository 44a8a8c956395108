//! Which messages wait: those that try a key that hasn't been right with its name, and those of who is in debt.
ghost use Rattle.std.specs.Prelude.{◌≡◌, ◌-◌, false, true, nat_le, OnErr, OnOk, slice_set};
ghost use Rattle.std.specs.Option.{option_map};
ghost use Rattle.std.specs.Str.{bytes_eq};
ghost use Rattle.tb_event_loop.specs.Connection.{asked, unasked};
ghost use Rattle.tb_event_loop.specs.Guesses as guesses;
ghost use Rattle.tb_event_loop.specs.Head.{begun, board_in, is_call_in};
ghost use Rattle.tb_event_loop.specs.Journal.{status_in};
ghost use Rattle.tb_event_loop.specs.Places.{Changes, IsUntilDue, connection_in, has_room_at, is_due_at, is_turned_at, waits_until};

use crate::connection::Connection;
use crate::head;
use crate::head::{begun, has_whole_head, makes_board, target_in, text_of};
use crate::journal::status_in as status_of;
use crate::places::Places;
use crate::service::Service;
use std::alloc::{AllocError, Global};
use tb_rooms::{Asking, Hold, Rates, Rooms, Written, may_turn};

/// How long a guess waits at most, in milliseconds: less than a message that was begun keeps its place.
const LONGEST_HOLD: u64 = 4_900;

/// What a new board counts for, in bytes.
const BOARD_COST: u64 = 1_048_576;

/// A message as far as it came, with what its head says of its sender and of what it asks for.
#[derive(Drop)]
struct Sight<'a> {
    text: &'a [u8],
    asking: Asking<'a>,
    ghost call: { asking.is_call ≡ is_call_in text.now },
    ghost member: { asking.member.now ≡ guesses.member_in text.now },
    ghost key: { asking.key.now ≡ guesses.key_in text.now },
    ghost board: { asking.board.now ≡ board_in text.now },
}

// Reads a head once, for all that is asked of it.
fn sight_of(text: &[u8]) -> Sight<'_>
    ensures { result.text.now ≡ text.now }
{
    Sight {
        text,
        asking: Asking {
            is_call: head::is_call_in(text),
            member: text_of(text, b"x-member"),
            key: text_of(text, b"x-key"),
            board: head::board_in(text),
        },
    }
}

// Whether a message is a guess: it gives a key that isn't known to be right with its name, and asks for no file of the page.
fn is_guess<V: Service>(service: &V, rates: &Rates, sight: &Sight<'_>) -> bool
    ensures { result ≡ guesses.is_guess (V.gives_file service.now) rates.now sight.now.text.now }
{
    !service.is_file(target_in(sight.text)) && rates.is_guess(&sight.asking)
}

// How many milliseconds a message waits as a guess: after those that came before it, and any other not at all.
fn hold_of<V: Service>(service: &V, rates: &Rates, sight: &Sight<'_>, now: u64) -> u64
    ensures hold { result
        ≡ guesses.hold_of (V.gives_file service.now) rates.now sight.now.text.now now }
    ensures known { guesses.is_guess (V.gives_file service.now) rates.now sight.now.text.now ≡ false
        → result ≡ 0 }
{
    if is_guess(service, rates, sight) {
        rates.guess_wait(&sight.asking, now)
    } else {
        0
    }
}

// Counts a guess. Where so many wait that some of them must have left their places, it isn't counted.
fn count<V: Service>(service: &V, rates: &mut Rates, sight: &Sight<'_>, now: u64)
    ensures { rates.new
        ≡ guesses.counted (V.gives_file service.now) sight.now.text.now now rates.old }
{
    if is_guess(service, rates, sight) && hold_of(service, rates, sight, now) < LONGEST_HOLD {
        rates.count_guess(&sight.asking, now);
    }
}

// How many milliseconds a call waits, since its person or its board is in debt.
#[tactic(auto, unfolding(crate::specs::Guesses::debt_of))]
fn debt_of(rates: &Rates, sight: &Sight<'_>, now: u64) -> u64
    ensures { result ≡ guesses.debt_of rates.now sight.now.text.now now }
{
    rates.debt_wait(&sight.asking, now)
}

// The time of a message has come, if it has: a call is put off again where its person or its board is in debt now.
fn look_again(connection: &mut Connection, rates: &Rates, text: &[u8], now: u64) -> bool
    ensures due { result ≡ guesses.is_due_again rates.now text.now now connection.old }
    ensures put_off { connection.new ≡ guesses.put_off_at rates.now text.now now connection.old }
{
    if connection.due > now {
        return false;
    }
    let debt = debt_of(rates, &sight_of(text), now);
    if debt != 0 {
        connection.put_off(now.saturating_add(debt));
    }
    debt == 0
}

// How many milliseconds a message waits when it is looked at first.
#[tactic(auto, unfolding(crate::specs::Guesses::wait_of))]
fn wait_of<V: Service>(service: &V, rates: &Rates, sight: &Sight<'_>, now: u64) -> u64
    ensures wait { result
        ≡ guesses.wait_of (V.gives_file service.now) rates.now sight.now.text.now now }
    ensures known { guesses.is_guess (V.gives_file service.now) rates.now sight.now.text.now ≡ false
        → result ≡ guesses.debt_of rates.now sight.now.text.now now }
{
    hold_of(service, rates, sight, now).max(debt_of(rates, sight, now))
}

// Looks at a message whose head is whole for the first time.
fn look_first<V: Service>(
    connection: &mut Connection,
    rates: &mut Rates,
    service: &V,
    text: &[u8],
    now: u64,
) -> bool
    ensures due { result
        ≡ nat_le (guesses.due_of (V.gives_file service.now) rates.old text.now now) now }
    ensures asked { connection.new
        ≡ asked (guesses.due_of (V.gives_file service.now) rates.old text.now now)
        (guesses.owner_of rates.old text.now) connection.old }
    ensures counted { rates.new
        ≡ guesses.counted (V.gives_file service.now) text.now now rates.old }
    ensures known { guesses.is_guess (V.gives_file service.now) rates.old text.now ≡ false
        → guesses.debt_of rates.old text.now now ≡ 0 → result ≡ true }
{
    let sight = sight_of(text);
    let due = now.saturating_add(wait_of(service, rates, &sight, now));
    connection.ask(due, rates.owner(&sight.asking));
    count(service, rates, &sight, now);
    due <= now
}

// Looks at a message once its head is whole, and says whether it is due.
#[tactic(auto, unfolding(crate::specs::Guesses::counted_by, crate::specs::Guesses::is_due, crate::specs::Guesses::looked_at))]
fn look<V: Service>(
    connection: &mut Connection,
    rates: &mut Rates,
    service: &V,
    held: &[u8],
    now: u64,
) -> bool
    ensures due { result ≡ guesses.is_due (V.gives_file service.now)
        rates.old held.now now connection.old }
    ensures asked { connection.new ≡ guesses.looked_at (V.gives_file service.now)
        rates.old held.now now connection.old }
    ensures counted { rates.new ≡ guesses.counted_by (V.gives_file service.now)
        connection.old held.now now rates.old }
    ensures known { connection.old.has_asked ≡ false
        → guesses.is_guess (V.gives_file service.now) rates.old (begun held.now) ≡ false
        → guesses.debt_of rates.old (begun held.now) now ≡ 0 → result ≡ true }
{
    let text = begun(held);
    if connection.has_asked {
        return look_again(connection, rates, text, now);
    }
    if !has_whole_head(text) {
        return true;
    }
    look_first(connection, rates, service, text, now)
}

// Looks at what is held for a place, where a connection is in it.
fn look_into<V: Service>(
    slot: &mut Option<Connection>,
    rates: &mut Rates,
    service: &V,
    held: &[u8],
    now: u64,
) -> bool
    ensures due { result ≡ is_due_at (V.gives_file service.now) rates.old held.now now slot.old }
    ensures asked { slot.new ≡ option_map (guesses.looked_at (V.gives_file service.now)
        rates.old held.now now) slot.old }
    ensures counted { rates.new ≡ guesses.counted_at (V.gives_file service.now)
        slot.old held.now now rates.old }
{
    match slot {
        Some(connection) => look(connection, rates, service, held, now),
        None => false,
    }
}

fn end_message(slot: &mut Option<Connection>, owner: u64)
    ensures { slot.new ≡ option_map (unasked owner) slot.old }
{
    if let Some(connection) = slot {
        connection.end_message(owner);
    }
}

// Whether a message may be answered beside the answers that aren't taken. One that wasn't looked at yet may be read on.
fn has_room(slot: &Option<Connection>, holds: &[Hold], rooms: &Rooms) -> bool
    ensures { result ≡ has_room_at rooms.now holds.now slot.now }
{
    match slot {
        Some(connection) => !connection.has_asked || may_turn(holds, connection.owner, rooms),
        None => false,
    }
}

// Looks at what is held for a place, and says whether its message is turned now.
fn look_at<V: Service>(
    slot: &mut Option<Connection>,
    rates: &mut Rates,
    holds: &[Hold],
    rooms: &Rooms,
    service: &V,
    held: &[u8],
    now: u64,
) -> bool
    ensures due { result ≡ is_turned_at (V.gives_file service.now) rates.old rooms.now holds.now
        held.now now slot.old }
    ensures asked { slot.new ≡ option_map (guesses.looked_at (V.gives_file service.now)
        rates.old held.now now) slot.old }
    ensures counted { rates.new ≡ guesses.counted_at (V.gives_file service.now)
        slot.old held.now now rates.old }
{
    look_into(slot, rates, service, held, now) && has_room(slot, holds, rooms)
}

fn has_status(answer: &[u8], status: &str) -> bool
    ensures { result ≡ bytes_eq (status_in answer.now) status.now }
{
    status_of(answer) == status.as_bytes()
}

// Whether an answer is one that only a right key gets: what was asked for, or a refusal by the boards.
fn is_of_right_key(answer: &[u8]) -> bool
    ensures { result ≡ guesses.is_of_right_key answer.now }
{
    has_status(answer, "200")
        || has_status(answer, "403")
        || has_status(answer, "409")
        || has_status(answer, "422")
}

// Whose a message is, as its key is known.
fn owner_of(rates: &Rates, text: &[u8]) -> u64
    ensures { result ≡ guesses.owner_of rates.now text.now }
{
    let sight = sight_of(text);
    rates.owner(&sight.asking)
}

/// What a call counts for that wrote so many bytes: a new board for more, since there are 10,000 numbers for all.
fn cost_of(text: &[u8], own: u64) -> u64
    ensures { result ≡ guesses.cost_of text.now own }
{
    if own > 0 && makes_board(text) {
        own.saturating_add(BOARD_COST)
    } else {
        own
    }
}

#[tactic(auto, unfolding(crate::specs::Guesses::person_charged_with))]
fn charge_person(
    rates: &mut Rates,
    alloc: Global,
    sight: &Sight<'_>,
    own: u64,
    swept: u64,
    now: u64,
) -> Result<(), AllocError>
    ensures ok { OnOk result
        (rates.new ≡ guesses.person_charged_with sight.now.text.now own swept now rates.old) }
    ensures err { OnErr result (rates.new ≡ rates.old) }
{
    rates.charge_person(alloc, &sight.asking, own, swept, now)
}

#[tactic(auto, unfolding(crate::specs::Guesses::board_charged_with))]
fn charge_board(
    rates: &mut Rates,
    alloc: Global,
    sight: &Sight<'_>,
    swept: u64,
    now: u64,
) -> Result<(), AllocError>
    ensures ok { OnOk result
        (rates.new ≡ guesses.board_charged_with sight.now.text.now swept now rates.old) }
    ensures err { OnErr result (rates.new ≡ rates.old) }
{
    rates.charge_board(alloc, &sight.asking, swept, now)
}

impl Places {
    /// Looks at what is held for a place, once its head is whole, and says whether its message is turned now. A guess takes its turn
    /// behind those that came before it, a call of who is in debt once the debt is paid, and a message of who leaves answers untaken
    /// once they are taken.
    pub(crate) fn hold_back<V: Service>(&mut self, service: &V, place: usize, now: u64) -> bool
        ensures due { result ≡ is_turned_at (V.gives_file service.now) self.old.rates self.old.rooms
            self.old.holds.items (V.held_at service.now place) now
            (connection_in self.old place) }
        ensures asked { self.new.connections.items ≡ slice_set self.old.connections.items place
            (option_map (guesses.looked_at (V.gives_file service.now) self.old.rates
            (V.held_at service.now place) now) (connection_in self.old place)) }
        ensures counted { self.new.rates ≡ guesses.counted_at (V.gives_file service.now)
            (connection_in self.old place) (V.held_at service.now place) now self.old.rates }
        ensures others { self.new
            ≡ record self.old { connections = self.new.connections; rates = self.new.rates } }
    {
        match self.connections.get_mut(place) {
            Some(slot) => look_at(
                slot,
                &mut self.rates,
                &self.holds,
                &self.rooms,
                service,
                service.held(place),
                now,
            ),
            None => false,
        }
    }

    /// The message of a place was answered, and is of this owner.
    pub(crate) fn await_next(&mut self, place: usize, owner: u64)
        ensures { Changes (unasked owner) self.old self.new place }
    {
        if let Some(slot) = self.connections.get_mut(place) {
            end_message(slot, owner);
        }
    }

    /// How long it is until a message is due, at most so long.
    pub(crate) fn until_due(&self, now: u64, most: u64) -> u64
        ensures { IsUntilDue self.now self.now.end now most result }
    {
        let mut wait = most;
        'places: for place in 0..self.end {
            wait = self.until_at(place, now, wait);
        }
        wait
    }

    // The lesser of so long and the time until the message of a place is due, where it waits.
    fn until_at(&self, place: usize, now: u64, most: u64) -> u64
        ensures { result
            ≡ guesses.until_one (waits_until now (connection_in self.now place)) now most }
    {
        match self.at(place) {
            Some(connection) if connection.may_answer && !connection.may_go(now) => {
                most.min(connection.due.saturating_sub(now))
            }
            _ => most,
        }
    }

    /// What an answer says of the key of its message: a guess that was right is known from now on, and a key that is wrong no more.
    /// Without memory nothing changes.
    pub(crate) fn heed<V: Service>(
        &mut self,
        service: &V,
        held: &[u8],
        answer: &[u8],
    ) -> Result<(), AllocError>
        ensures ok { OnOk result (self.new ≡ record self.old {
          rates = guesses.heeded
              (V.gives_file service.now) held.now answer.now self.old.rates;
        }) }
        ensures err { OnErr result (self.new ≡ self.old) }
    {
        let sight = sight_of(begun(held));
        if has_status(answer, "401") {
            self.rates.forget(&sight.asking);
            return Ok(());
        }
        if is_of_right_key(answer) && is_guess(service, &self.rates, &sight) {
            return self.rates.learn(self.alloc, &sight.asking);
        }
        Ok(())
    }

    /// The owner of what was held, as its key is known now.
    pub(crate) fn owner_of(&self, held: &[u8]) -> u64
        ensures { result ≡ guesses.owner_of self.now.rates (begun held.now) }
    {
        owner_of(&self.rates, begun(held))
    }

    /// What a message wrote is charged to its person, and what its sweep made to its board. Without memory some of it isn't.
    pub(crate) fn charge(
        &mut self,
        held: &[u8],
        before: Written,
        after: Written,
        now: u64,
    ) -> Result<(), AllocError>
        ensures ok { OnOk result (self.new ≡ record self.old {
          rates = guesses.charged_with held.now
              (after.own - before.own) (after.swept - before.swept) now self.old.rates;
        }) }
        ensures others { self.new ≡ record self.old { rates = self.new.rates } }
    {
        let own = after.own.saturating_sub(before.own);
        let swept = after.swept.saturating_sub(before.swept);
        let text = begun(held);
        let sight = sight_of(text);
        let cost = cost_of(text, own);
        charge_person(&mut self.rates, self.alloc, &sight, cost, swept, now)?;
        charge_board(&mut self.rates, self.alloc, &sight, swept, now)
    }
}
