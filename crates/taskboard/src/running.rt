//! The loop over a server whose desk is over a file: what it leaves is a session of the headline, however it ends.
ghost use Rattle.std.specs.Prelude.{◌≡◌, ◌≢◌, Err, IfErr, IfOk, Ok, false, true};
ghost use Rattle.sqlite.specs.Held.{state};
ghost use Rattle.sqlite.specs.State.{HasCleanDisk};
ghost use Rattle.taskboard.specs.Running.{HasLaps, IsRun};
ghost use Rattle.tb_event_loop.specs.Deeds.{done_in};
ghost use Rattle.tb_event_loop.specs.Ending.{has_stopped};
ghost use Rattle.tb_event_loop.specs.History.{still_to_end};
ghost use Rattle.tb_event_loop.specs.Serving.{IsCutOff, Runs};
ghost use Rattle.tb_event_loop.specs.declared.fault.LoopFault.TheVariants.{Memory, Moved, Sockets, Store};
ghost use Rattle.tb_headline.specs.Headline.{IsAt};

use sqlite::Alter;
use std::io::Write;
use tb_calls::Keep;
use tb_desk::Desk;
use tb_event_loop::{EventLoop, Journal, LoopFault, Service, Sockets, Ticks, Watch};
use tb_headline::session::serves_session;
use tb_keeper::SqlKeep;
use tb_program::Clock;
use tb_server::Server;

/// Serves the connections that come to sockets, until the loop ends. However it ends, the desk is handed back: `later` is the server at
/// its end, and `runs` what was done in between, with the bytes that came and went.
pub(crate) fn run_server<S, C, N, T, W, P>(
    event_loop: &mut EventLoop,
    sockets: &mut N,
    server: Server<SqlKeep<S>, C>,
    journal: &mut Journal<T, W>,
    watch: &mut P,
) -> Result<Desk<SqlKeep<S>>, (LoopFault, Desk<SqlKeep<S>>)>
where
    S: Alter + Drop,
    C: Clock + Drop,
    N: Sockets,
    T: Ticks,
    W: Write,
    P: Watch,
    ensures run { IfOk result (λ desk. (later : _) × (later.desk ≡ desk)
        × (runs : Runs N.follows ⟦<Server<SqlKeep<S>, C> as Service>⟧.follows
        ⟦<Server<SqlKeep<S>, C> as Service>⟧.owed_at false
        (sockets.old, server) (sockets.new, later))
        × IsRun ⟦<SqlKeep<S> as Keep>⟧ {E = Unit {0}} C.gives server.clock
        server.paths.site later.paths.site server.peers.items later.peers.items
        (still_to_end event_loop.old) (Ok tt) (done_in runs.deeds) server.desk later.desk
        (state S.Store later.desk.conn)
        × HasLaps {E = Unit {0}} N.follows N.last_told P.looks
        ⟦<Server<SqlKeep<S>, C> as Service>⟧ (Ok tt) event_loop.old
        (sockets.old, server, watch.old) (sockets.new, later, watch.new)) }
    ensures cut { IfErr result (λ e. (later : _) × (later.desk ≡ e.1)
        × (runs : Runs N.follows ⟦<Server<SqlKeep<S>, C> as Service>⟧.follows
        ⟦<Server<SqlKeep<S>, C> as Service>⟧.owed_at (has_stopped {T = Unit {0}} (Err e.0))
        (sockets.old, server) (sockets.new, later))
        × IsRun ⟦<SqlKeep<S> as Keep>⟧ {E = Unit {0}} C.gives server.clock
        server.paths.site later.paths.site server.peers.items later.peers.items
        (still_to_end event_loop.old) (Err e.0) (done_in runs.deeds) server.desk later.desk
        (state S.Store later.desk.conn)
        × HasLaps {E = Unit {0}} N.follows N.last_told P.looks
        ⟦<Server<SqlKeep<S>, C> as Service>⟧ (Err e.0) event_loop.old
        (sockets.old, server, watch.old) (sockets.new, later, watch.new)) }
    ensures cause { IfErr result (λ e. e.0 ≡ Sockets
        → IsCutOff N.follows sockets.old sockets.new) }
    ensures moved { IfErr result (λ e. e.0 ≡ Moved → P.is_gone watch.new) }
    ensures memory { IfErr result (λ e. e.0 ≢ Memory) }
    ensures failed { IfErr result (λ e. e.0 ≡ Store
        → ⟦<SqlKeep<S> as Keep>⟧.has_failed e.1 ≡ true) }
{
    let mut server = server;
    let end = event_loop.serve(sockets, &mut server, journal, watch);
    let desk = server.into_desk();
    serves_session(&desk);
    match end {
        Ok(()) => Ok(desk),
        Err(fault) => Err((fault, desk)),
    }
}
