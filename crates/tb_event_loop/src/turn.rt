//! The turn of one connection: at most one read, one message and one write.
ghost use Rattle.std.specs.Prelude.{◌≡◌, ◌↔◌, ◌⊎◌, ◌-◌, [], ◌∷◌, IsErr, IsOk, IsTrue, OnOk, false, is_err, is_ok, slice_set, true};
ghost use Rattle.tb_event_loop.specs.Answering.{Answers, EndsMessage, accounted};
ghost use Rattle.tb_event_loop.specs.Deeds.{ActsAt, Begins, Did, GivesTurn, IsRead, IsWrite, OwesBytes, TurnsOrNot};
ghost use Rattle.tb_event_loop.specs.Done.{turned};
ghost use Rattle.std.specs.Io.KnownBytes.{Appends};
ghost use Rattle.tb_event_loop.specs.Journal.{IsLogged};
ghost use Rattle.tb_event_loop.specs.Heard.{ReadsAt, WritesAt};
ghost use Rattle.tb_event_loop.specs.Noting.{CountsOut};
ghost use Rattle.tb_event_loop.specs.Places.{Ends, GoesOn, HasTurn, IsAnswered, IsHeard, IsWritten, LacksAll, NeedsBytes, SetsStage, Settles, Spares, can_write_at, connection_in, is_leaving, is_over_at, is_turned_in, is_waiting, may_answer_at, stage_in};
ghost use Rattle.tb_event_loop.specs.Sockets.{Quietly};
ghost use Rattle.tb_timeouts.specs.Stage.{next_stage, read_stage, waiting_stage};
ghost use Rattle.tb_timeouts.specs.declared.stage.Need.TheVariants.{End};

use crate::exchange::{read_some, write_some};
use crate::journal::Journal;
use crate::places::Places;
use crate::service::{Service, SocketEvent, StoreFailed};
use crate::sockets::Sockets;
use crate::ticks::Ticks;
use std::alloc::AllocError;
use std::io::Write;
use tb_rooms::Written;
use tb_timeouts::{Need, Stage};

impl Places {
    /// Ends a connection that has stayed too long. Says whether it has something to do now.
    pub(crate) fn begin_turn<N: Sockets>(&mut self, sockets: &mut N, place: usize, now: u64) -> bool
        ensures turn { IsTrue result
            ↔ (IsTrue (is_over_at self.old place now) ⊎ HasTurn self.old place now) }
        ensures over { is_over_at self.old place now ≡ true → Ends self.old self.new place now }
        ensures same { is_over_at self.old place now ≡ false → self.new ≡ self.old }
        ensures quiet { Quietly N.follows sockets.old sockets.new }
        ensures silent { is_over_at self.old place now ≡ false → sockets.new ≡ sockets.old }
    {
        if self.stage(place).is_over(&self.limits, now) {
            self.end_one(sockets, place, now);
            return true;
        }
        self.has_turn(place, now)
    }

    // Ends a connection in stages, or at once where it is at the last.
    fn end_one<N: Sockets>(&mut self, sockets: &mut N, place: usize, now: u64)
        ensures ends { Ends self.old self.new place now }
        ensures quiet { Quietly N.follows sockets.old sockets.new }
    {
        let stage = self.stage(place);
        if let Stage::Closing { since: _, reads: _ } = stage {
            self.let_go(place);
        } else {
            self.close(sockets, place, now);
        }
    }

    fn close<N: Sockets>(&mut self, sockets: &mut N, place: usize, now: u64)
        ensures stage { SetsStage self.old self.new place
            (next_stage now End (stage_in self.old place)) }
        ensures quiet { Quietly N.follows sockets.old sockets.new }
    {
        self.stop_sending(sockets, place);
        let stage = self.stage(place).next(Need::End, now);
        self.set_stage(place, stage);
    }

    // Nothing more is sent, where a connection is there.
    fn stop_sending<N: Sockets>(&self, sockets: &mut N, place: usize)
        ensures { Quietly N.follows sockets.old sockets.new }
    {
        match self.connections.get(place) {
            Some(Some(_)) => sockets.stop_sending(place),
            _ => (),
        }
    }

    /// Does what a connection has to do, by its stage, unless it is to leave.
    pub(crate) fn act<N: Sockets, V: Service, C: Ticks, W: Write>(
        &mut self,
        sockets: &mut N,
        service: &mut V,
        journal: &mut Journal<C, W>,
        place: usize,
        now: u64,
    ) -> Result<(), StoreFailed>
        ensures after { Did (ActsAt place N.follows V.follows V.owed_at) (is_err result) 0
            (sockets.old, service.old) (sockets.new, service.new) }
        ensures failed { IsErr result → V.has_failed service.new ≡ true }
        ensures turned { IsAnswered (V.gives_file service.old) self.old place now
            (V.held_at service.old place)
            → GivesTurn (ActsAt place N.follows V.follows V.owed_at) (is_err result) place
            (sockets.old, service.old) (sockets.new, service.new) }
        ensures written { IsWritten self.old place (V.owed_at service.old place)
            → Begins (ActsAt place N.follows V.follows V.owed_at) (is_err result) (IsWrite place)
            (sockets.old, service.old) (sockets.new, service.new) }
        ensures heard { IsHeard self.old place
            → Begins (ActsAt place N.follows V.follows V.owed_at) (is_err result) (IsRead place)
            (sockets.old, service.old) (sockets.new, service.new) }
        ensures gone { is_leaving (connection_in self.old place) ≡ true
            → (self.new ≡ self.old) × IsOk result }
        ensures spares { Spares place self.old self.new }
        ensures counts { CountsOut self.old self.new place }
    {
        if self.is_gone(place) {
            return Ok(());
        }
        match self.stage(place) {
            Stage::Vacant => Ok(()),
            Stage::Closing { since: _, reads: _ } => {
                self.drop_some(sockets, place);
                Ok(())
            }
            Stage::Answering { since: _, taken: _ } => self.reply(sockets, service, place, now),
            _ => self.converse(sockets, service, journal, place, now),
        }
    }

    // Reads, answers and writes.
    fn converse<N: Sockets, V: Service, C: Ticks, W: Write>(
        &mut self,
        sockets: &mut N,
        service: &mut V,
        journal: &mut Journal<C, W>,
        place: usize,
        now: u64,
    ) -> Result<(), StoreFailed>
        ensures after { Did (ActsAt place N.follows V.follows V.owed_at) (is_err result) 0
            (sockets.old, service.old) (sockets.new, service.new) }
        ensures failed { IsErr result → V.has_failed service.new ≡ true }
        ensures turned { IsTrue (may_answer_at (connection_in self.old place))
            → IsTrue (is_turned_in (V.gives_file service.old) self.old place now
            (V.held_at service.old place))
            → GivesTurn (ActsAt place N.follows V.follows V.owed_at) (is_err result) place
            (sockets.old, service.old) (sockets.new, service.new) }
        ensures heard { NeedsBytes self.old place
            → Begins (ActsAt place N.follows V.follows V.owed_at) (is_err result) (IsRead place)
            (sockets.old, service.old) (sockets.new, service.new) }
        ensures spares { Spares place self.old self.new }
        ensures counts { CountsOut self.old self.new place }
    {
        self.read(sockets, service, place, now)?;
        self.respond(sockets, service, journal, place, now)
    }

    // Answers and writes.
    fn respond<N: Sockets, V: Service, C: Ticks, W: Write>(
        &mut self,
        sockets: &mut N,
        service: &mut V,
        journal: &mut Journal<C, W>,
        place: usize,
        now: u64,
    ) -> Result<(), StoreFailed>
        ensures after { Did (ActsAt place N.follows V.follows V.owed_at) (is_err result) 0
            (sockets.old, service.old) (sockets.new, service.new) }
        ensures failed { IsErr result → V.has_failed service.new ≡ true }
        ensures turned { IsTrue (may_answer_at (connection_in self.old place))
            → IsTrue (is_turned_in (V.gives_file service.old) self.old place now
            (V.held_at service.old place))
            → GivesTurn (ActsAt place N.follows V.follows V.owed_at) (is_err result) place
            (sockets.old, service.old) (sockets.new, service.new) }
        ensures spares { Spares place self.old self.new }
        ensures counts { CountsOut self.old self.new place }
    {
        self.answer(service, journal, place, now)?;
        self.reply(sockets, service, place, now)
    }

    fn reply<N: Sockets, V: Service>(
        &mut self,
        sockets: &mut N,
        service: &mut V,
        place: usize,
        now: u64,
    ) -> Result<(), StoreFailed>
        ensures after { Did (ActsAt place N.follows V.follows V.owed_at) (is_err result) 0
            (sockets.old, service.old) (sockets.new, service.new) }
        ensures failed { IsErr result → V.has_failed service.new ≡ true }
        ensures writes { OwesBytes (V.owed_at service.old place)
            → can_write_at (connection_in self.old place) ≡ true
            → Begins (ActsAt place N.follows V.follows V.owed_at) (is_err result) (IsWrite place)
            (sockets.old, service.old) (sockets.new, service.new) }
        ensures keeps { self.new
            ≡ record self.old { connections = self.new.connections; stages = self.new.stages } }
        ensures spares { Spares place self.old self.new }
    {
        self.write(sockets, service, place, now)?;
        self.settle(sockets, service, place, now);
        Ok(())
    }

    // Throws away what comes behind the last answer.
    fn drop_some<N: Sockets>(&mut self, sockets: &mut N, place: usize)
        ensures read { self.new.stages.items
            ≡ slice_set self.old.stages.items place (read_stage (stage_in self.old place)) }
        ensures others { self.new
            ≡ record self.old { connections = self.new.connections; stages = self.new.stages } }
        ensures quiet { Quietly N.follows sockets.old sockets.new }
        ensures spares { Spares place self.old self.new }
    {
        self.drop_bytes(sockets, place);
        let stage = self.stage(place).bytes_dropped();
        self.set_stage(place, stage);
    }

    // Reads where more bytes are needed and may be held.
    fn read<N: Sockets, V: Service>(
        &mut self,
        sockets: &mut N,
        service: &mut V,
        place: usize,
        now: u64,
    ) -> Result<(), StoreFailed>
        ensures after { Did (ActsAt place N.follows V.follows V.owed_at) (is_err result) 0
            (sockets.old, service.old) (sockets.new, service.new) }
        ensures failed { IsErr result → V.has_failed service.new ≡ true }
        ensures well { ¬ NeedsBytes self.old place → IsOk result }
        ensures passed { ¬ NeedsBytes self.old place → service.new ≡ service.old }
        ensures same { ¬ NeedsBytes self.old place → self.new ≡ self.old }
        ensures silent { ¬ NeedsBytes self.old place → sockets.new ≡ sockets.old }
        ensures reads { NeedsBytes self.old place
            → Begins (ActsAt place N.follows V.follows V.owed_at) (is_err result)
            (ReadsAt place self.old self.new)
            (sockets.old, service.old) (sockets.new, service.new) }
        ensures keeps { self.new
            ≡ record self.old { connections = self.new.connections; stages = self.new.stages } }
        ensures spares { Spares place self.old self.new }
    {
        if !self.needs_bytes(place) {
            return Ok(());
        }
        self.read_bytes(sockets, service, place)?;
        self.enter(service, place, now);
        Ok(())
    }

    // Reads, where a connection is there.
    fn read_bytes<N: Sockets, V: Service>(
        &mut self,
        sockets: &mut N,
        service: &mut V,
        place: usize,
    ) -> Result<(), StoreFailed>
        ensures after { Did (ActsAt place N.follows V.follows V.owed_at) (is_err result) 0
            (sockets.old, service.old) (sockets.new, service.new) }
        ensures failed { IsErr result → V.has_failed service.new ≡ true }
        ensures reads { NeedsBytes self.old place
            → Begins (ActsAt place N.follows V.follows V.owed_at) (is_err result)
            (ReadsAt place self.old self.new)
            (sockets.old, service.old) (sockets.new, service.new) }
        ensures same { self.new ≡ record self.old { connections = self.new.connections } }
        ensures spares { Spares place self.old self.new }
    {
        match self.connection(place) {
            Some(connection) => read_some(connection, sockets, service, place),
            None => Ok(()),
        }
    }

    // Answers the next message, if it is whole.
    fn answer<V: Service, C: Ticks, W: Write>(
        &mut self,
        service: &mut V,
        journal: &mut Journal<C, W>,
        place: usize,
        now: u64,
    ) -> Result<(), StoreFailed>
        ensures after { TurnsOrNot V.follows (is_err result) place service.old service.new }
        ensures failed { IsErr result → V.has_failed service.new ≡ true }
        ensures turned { IsTrue (may_answer_at (connection_in self.old place))
            → IsTrue (is_turned_in (V.gives_file service.old) self.old place now
            (V.held_at service.old place))
            → V.follows (is_err result) ((place, turned) ∷ []) service.old service.new }
        ensures passed { may_answer_at (connection_in self.old place) ≡ false
            → service.new ≡ service.old }
        ensures waits { is_turned_in (V.gives_file service.old) self.old place now
            (V.held_at service.old place) ≡ false → service.new ≡ service.old }
        ensures same { may_answer_at (connection_in self.old place) ≡ false
            → self.new ≡ self.old }
        ensures answers { IsTrue (may_answer_at (connection_in self.old place))
            → IsTrue (is_turned_in (V.gives_file service.old) self.old place now
            (V.held_at service.old place))
            → OnOk result (Answers (V.gives_file service.old) (V.gives_file service.new) place now
            (V.held_at service.old place) (V.owed_at service.new place)
            (V.held_at service.new place) (V.closes_at service.new place)
            self.old self.new) }
        ensures spares { Spares place self.old self.new }
        ensures counts { CountsOut self.old self.new place }
    {
        if !self.may_answer(place) {
            return Ok(());
        }
        if !self.hold_back(service, place, now) {
            self.await_turn(place, now);
            return Ok(());
        }
        journal.begin(service.held(place));
        let before = service.written();
        if service.happen(place, &SocketEvent::Turn).is_err() {
            journal.tell_failed();
            return Err(StoreFailed);
        }
        let after = service.written();
        let _ = self.end_message(service, journal, place, before, after, now);
        self.enter(service, place, now);
        Ok(())
    }

    // The message of a connection is turned later.
    fn await_turn(&mut self, place: usize, now: u64)
        ensures { SetsStage self.old self.new place (waiting_stage now (stage_in self.old place)) }
    {
        let stage = self.stage(place).waiting(now);
        self.set_stage(place, stage);
    }

    // What is left to do behind the turn of a message, if it was whole. Without memory it isn't charged, or its key not learned.
    fn end_message<V: Service, C: Ticks, W: Write>(
        &mut self,
        service: &V,
        journal: &mut Journal<C, W>,
        place: usize,
        before: Written,
        after: Written,
        now: u64,
    ) -> Result<(), AllocError>
        ensures ends { EndsMessage (V.gives_file service.now) journal.old.head.items
            (V.owed_at service.now place) (after.own - before.own) (after.swept - before.swept)
            now (is_ok result) self.old self.new place }
        ensures logged { OwesBytes (V.owed_at service.now place) → journal.old.is_logged ≡ true
            → IsLogged journal.old.head.items (V.owed_at service.now place)
            (journal.new.millis - journal.old.began) journal.old.missed journal.new.missed
            (Appends (W.contents journal.old.errors) (W.contents journal.new.errors)) }
    {
        let answer = service.unsent(place);
        if answer.is_empty() {
            self.lack_bytes(place);
            return Ok(());
        }
        let kept = self.account(service, journal.head(), answer, before, after, now);
        let owner = self.owner_of(journal.head());
        self.await_next(place, owner);
        self.count_answer(place, answer.len());
        journal.end(answer);
        kept
    }

    // Charges what a message wrote, and then heeds what its answer says of its key. Without memory one of both isn't done.
    fn account<V: Service>(
        &mut self,
        service: &V,
        head: &[u8],
        answer: &[u8],
        before: Written,
        after: Written,
        now: u64,
    ) -> Result<(), AllocError>
        ensures ok { OnOk result (self.new.rates ≡ accounted (V.gives_file service.now) head.now
            answer.now (after.own - before.own) (after.swept - before.swept) now self.old.rates) }
        ensures others { self.new ≡ record self.old { rates = self.new.rates } }
    {
        let charged = self.charge(head, before, after, now);
        self.heed(service, head, answer)?;
        charged
    }

    // Writes where an answer is there.
    fn write<N: Sockets, V: Service>(
        &mut self,
        sockets: &mut N,
        service: &mut V,
        place: usize,
        now: u64,
    ) -> Result<(), StoreFailed>
        ensures after { Did (ActsAt place N.follows V.follows V.owed_at) (is_err result) 0
            (sockets.old, service.old) (sockets.new, service.new) }
        ensures failed { IsErr result → V.has_failed service.new ≡ true }
        ensures writes { OwesBytes (V.owed_at service.old place)
            → can_write_at (connection_in self.old place) ≡ true
            → Begins (ActsAt place N.follows V.follows V.owed_at) (is_err result)
            (WritesAt place self.old self.new)
            (sockets.old, service.old) (sockets.new, service.new) }
        ensures keeps { self.new
            ≡ record self.old { connections = self.new.connections; stages = self.new.stages } }
        ensures spares { Spares place self.old self.new }
    {
        let before = service.unsent(place).len();
        self.write_bytes(sockets, service, place)?;
        if service.unsent(place).len() < before {
            let stage = self.stage(place).part_taken(now);
            self.set_stage(place, stage);
        }
        Ok(())
    }

    // Writes, where an answer is there and the socket takes bytes.
    fn write_bytes<N: Sockets, V: Service>(
        &mut self,
        sockets: &mut N,
        service: &mut V,
        place: usize,
    ) -> Result<(), StoreFailed>
        ensures after { Did (ActsAt place N.follows V.follows V.owed_at) (is_err result) 0
            (sockets.old, service.old) (sockets.new, service.new) }
        ensures failed { IsErr result → V.has_failed service.new ≡ true }
        ensures writes { OwesBytes (V.owed_at service.old place)
            → can_write_at (connection_in self.old place) ≡ true
            → Begins (ActsAt place N.follows V.follows V.owed_at) (is_err result)
            (WritesAt place self.old self.new)
            (sockets.old, service.old) (sockets.new, service.new) }
        ensures same { self.new ≡ record self.old { connections = self.new.connections } }
        ensures spares { Spares place self.old self.new }
    {
        if service.unsent(place).is_empty() {
            return Ok(());
        }
        if !self.can_write(place) {
            return Ok(());
        }
        match self.connection(place) {
            Some(connection) => write_some(connection, sockets, service, place),
            None => Ok(()),
        }
    }

    fn can_write(&self, place: usize) -> bool
        ensures { result ≡ can_write_at (connection_in self.now place) }
    {
        match self.at(place) {
            Some(connection) => connection.can_write,
            None => false,
        }
    }

    // Whether the message of a connection is turned later.
    fn is_waiting(&self, place: usize) -> bool
        ensures { result ≡ is_waiting (stage_in self.now place) }
    {
        matches!(self.stage(place), Stage::Waiting { since: _ })
    }

    // What the connection does behind its turn.
    fn settle<N: Sockets, V: Service>(
        &mut self,
        sockets: &mut N,
        service: &V,
        place: usize,
        now: u64,
    )
        ensures settled { Settles self.old self.new place now (V.owed_at service.now place)
            (V.closes_at service.now place) (V.held_at service.now place) }
        ensures quiet { Quietly N.follows sockets.old sockets.new }
    {
        if self.is_waiting(place) || !service.unsent(place).is_empty() {
            return;
        }
        if service.is_closing(place) {
            self.close(sockets, place, now);
            return;
        }
        self.go_on(service, place, now);
    }

    // The next message is awaited, or the rest of one.
    fn go_on<V: Service>(&mut self, service: &V, place: usize, now: u64)
        ensures { GoesOn self.old self.new place now (V.owed_at service.now place)
            (V.closes_at service.now place) (V.held_at service.now place) }
    {
        self.lack_all(service, place);
        self.enter(service, place, now);
    }

    // Where nothing is held there is no message.
    fn lack_all<V: Service>(&mut self, service: &V, place: usize)
        ensures { LacksAll (V.held_at service.now place) self.old self.new place }
    {
        if service.held(place).is_empty() {
            self.lack_bytes(place);
        }
    }
}
