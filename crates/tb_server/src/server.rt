//! The connections of a server over a desk.
ghost use Rattle.std.specs.Prelude.{◌≡◌, ℕ, IfOk, length};
ghost use Rattle.tb_event_loop.specs.History.{done_of as done_to};
ghost use Rattle.tb_serve.specs.Server.{done_of, talk_at};
ghost use Rattle.tb_http.specs.Inbox.{Wants};
ghost use Rattle.tb_http.specs.Route.{kind_of};
ghost use Rattle.tb_server.specs.Files.{gives_file as gives_file_so, is_free_file};
ghost use Rattle.tb_server.specs.Serves.{IsTimed, Serves, moment_of};
ghost use Rattle.tb_site.specs.Site.{file_at};
ghost use Rattle.tb_server.specs.Joining.{serves_none, serves_then};
ghost use Rattle.tb_serve.specs.Turns.{silent};

use std::alloc::{AllocError, Global};
use tb_calls::{Keep, Written as KeptBytes};
use tb_desk::Desk;
use tb_event_loop::{Service, SocketEvent, StoreFailed};
use tb_program::Clock;
use tb_rooms::Written;
use tb_serve::{Peer, PeerEvent, Tools, happen, stops_all};
use tb_site::{Paths, Site};
use tb_timeouts::CONNECTIONS;

/// Answers the messages of many connections over the boards of a desk, each at the moment that its clock tells.
#[derive(Drop)]
pub struct Server<K: Keep, C: Clock> {
    alloc: Global,
    pub(crate) desk: Desk<K>,
    clock: C,
    tools: Tools,
    pub(crate) paths: Paths,
    pub(crate) peers: Vec<Peer>,
}

impl<K: Keep + Drop, C: Clock + Drop> Server<K, C> {
    /// A server of a page over a desk, whose places are all empty.
    pub fn new(
        alloc: Global,
        desk: Desk<K>,
        clock: C,
        site: Site,
    ) -> Result<Server<K, C>, AllocError>
        ensures desk { IfOk result (λ server. server.desk ≡ desk) }
        ensures page { IfOk result (λ server. server.paths.site ≡ site) }
        ensures silent { IfOk result (λ server. (c : ℕ) → talk_at server.peers.items c ≡ silent) }
        ensures places { IfOk result (λ server. length server.peers.items ≡ CONNECTIONS) }
    {
        Ok(Server {
            alloc,
            desk,
            clock,
            tools: Tools::new(alloc)?,
            paths: Paths::new(alloc, site)?,
            peers: silent_peers(alloc)?,
        })
    }

    /// The desk, once all connections are gone.
    pub fn into_desk(self) -> Desk<K>
        ensures { result ≡ self.desk }
    {
        let Server {
            alloc: _,
            desk,
            clock: _,
            tools: _,
            paths: _,
            peers: _,
        } = self;
        desk
    }
}

// The connections of all places, to which nothing came yet.
fn silent_peers(alloc: Global) -> Result<Vec<Peer>, AllocError>
    ensures silent { IfOk result (λ peers. (c : ℕ) → talk_at peers.items c ≡ silent) }
    ensures places { IfOk result (λ peers. length peers.items ≡ CONNECTIONS) }
{
    let mut peers = Vec::with_capacity(alloc, CONNECTIONS)?;
    'places: for _ in 0..CONNECTIONS {
        peers.push(Peer::new(alloc))?;
    }
    Ok(peers)
}

// Whether a file has this target, and no route has it as well.
fn is_file_of(paths: &Paths, target: &str) -> bool
    ensures { result ≡ is_free_file (file_at paths.now.site target.now) (kind_of target.now) }
{
    match paths.site.file(target) {
        Some(_) => paths.routes.find(target).is_none(),
        None => false,
    }
}

fn gives_file(paths: &Paths, target: &[u8]) -> bool
    ensures { result ≡ gives_file_so paths.now.site target.now }
{
    match str::from_utf8(target) {
        Ok(text) => is_file_of(paths, text),
        Err(_) => false,
    }
}

// What calls have written, as those count it who make them wait.
fn sums_of(written: KeptBytes) -> Written
    ensures { result ≡ record { own = written.own; swept = written.swept } }
{
    Written {
        own: written.own,
        swept: written.swept,
    }
}

// What happens, at a moment where it is a turn.
fn at_moment<'a, C: Clock>(clock: &mut C, happening: &SocketEvent<'a>) -> PeerEvent<'a>
    ensures timed { IsTimed (done_to happening.now) (done_of result) }
    ensures asked { C.gives (moment_of (done_of result)) clock.old clock.new }
{
    match happening {
        SocketEvent::Opened => PeerEvent::Opened,
        SocketEvent::Came(piece) => PeerEvent::Came(*piece),
        SocketEvent::Turn => PeerEvent::Turn(clock.now()),
        SocketEvent::Went(count) => PeerEvent::Went(*count),
    }
}

impl<K: Keep, C: Clock> Service for Server<K, C> {
    ghost follows = { λ stopped history old new. Serves C.gives old.clock new.clock
        old.paths.site new.paths.site stopped history old.peers.items new.peers.items
        (K.is_honest old.desk) (K.is_honest new.desk)
        (K.holds old.desk) (K.after_stop old.desk) (K.holds new.desk) (K.after_stop new.desk) };

    ghost has_failed = { λ server. K.has_failed server.desk };

    ghost held_at = { λ server place. (talk_at server.peers.items place).bytes };

    ghost owed_at = { λ server place. (talk_at server.peers.items place).out };

    ghost wants = { λ server place wanted. Wants (talk_at server.peers.items place).bytes wanted };

    ghost closes_at = { λ server place. (talk_at server.peers.items place).is_closing };

    ghost gives_file = { λ server target. gives_file_so server.paths.site target };

    ghost unchanged = { λ s. serves_none C.gives C.unasked s.clock s.paths.site s.peers.items
        (K.is_honest s.desk)
        (K.holds s.desk) (K.after_stop s.desk) };

    ghost joined = { λ stopped first more a b c. serves_then C.gives C.asked a.clock b.clock c.clock
        a.paths.site b.paths.site c.paths.site
        stopped first more a.peers.items b.peers.items c.peers.items
        (K.is_honest a.desk) (K.is_honest b.desk) (K.is_honest c.desk)
        (K.holds a.desk) (K.after_stop a.desk) (K.holds b.desk) (K.after_stop b.desk)
        (K.holds c.desk) (K.after_stop c.desk) };

    fn happen(&mut self, place: usize, happening: &SocketEvent<'_>) -> Result<(), StoreFailed> {
        let what = at_moment(&mut self.clock, happening);
        if place >= self.peers.len() {
            return Ok(());
        }
        let outcome = happen(
            self.alloc,
            &mut self.tools,
            &self.paths,
            &mut self.peers,
            &mut self.desk,
            place,
            &what,
        );
        if stops_all(outcome) {
            return Err(StoreFailed);
        }
        Ok(())
    }

    fn held(&self, place: usize) -> &[u8] {
        match self.peers.get(place) {
            Some(peer) => peer.held(),
            None => &[],
        }
    }

    fn unsent(&self, place: usize) -> &[u8] {
        match self.peers.get(place) {
            Some(peer) => peer.unsent(),
            None => &[],
        }
    }

    fn has_head(&self, place: usize) -> bool {
        match self.peers.get(place) {
            Some(peer) => peer.has_head(),
            None => false,
        }
    }

    fn wanted(&self, place: usize) -> usize {
        match self.peers.get(place) {
            Some(peer) => peer.wanted(),
            None => 0,
        }
    }

    fn written(&self) -> Written {
        sums_of(self.desk.written())
    }

    fn is_file(&self, target: &[u8]) -> bool {
        gives_file(&self.paths, target)
    }

    fn is_closing(&self, place: usize) -> bool {
        match self.peers.get(place) {
            Some(peer) => peer.is_closing(),
            None => false,
        }
    }
}
