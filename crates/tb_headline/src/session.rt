//! A session over a file: it begins with an empty database or with a store that stands, and handles
//! calls, or serves connections, until it stops.
ghost use Rattle.std.specs.Prelude.{◌≡◌, ◌≢◌, ◌⊎◌, ℕ, false, length, take, true, IfErr, IfOk, IsErr, List, MatchResult, None, Ok, OnErr, OnOk, Option, Some};
ghost use Rattle.sqlite.specs.Held.{state};
ghost use Rattle.sqlite.specs.State.{HasCleanDisk, IsLive};
ghost use Rattle.tb_sql_tables.specs.Failing.{IsAtRest};
ghost use Rattle.tb_calls.specs.declared.fault.KeepFault.TheVariants.{Store};
ghost use Rattle.tb_calls.specs.declared.call.Call.{Call};
ghost use Rattle.tb_calls.specs.Call.{State, once, plain, opening};
ghost use Rattle.tb_calls.specs.Leaving.{StandsAfter};
ghost use Rattle.tb_headline.specs.Refusals.{IsFilled, IsRefused, IsUnmade, Says};
ghost use Rattle.tb_headline.specs.Headline.{IsAt, IsCut, IsFileOf, IsPlayed, IsSession, Leaves, StopLeaves, WhileHonest};
ghost use Rattle.tb_sql.specs.Opening.{has_tables, is_old, is_second, IsAsBefore};
ghost use Rattle.tb_lookup.specs.Stored.{AreTreesOf};
ghost use Rattle.tb_serve.specs.Server.{IsStopped, Plays, done_at, talk_at};
ghost use Rattle.tb_serve.specs.Turns.{Happening, Talk};
ghost use Rattle.tb_site.specs.declared.site.Site.{Site};

use sqlite::{Alter, Connection};
use std::alloc::Global;
use tb_board::{Key, Name};
use tb_calls::{Call, Keep};
use tb_desk::{Desk, RunEnd};
use tb_keeper::{CreateFault, SqlKeep};
use tb_serve::{Peer, PeerEvent, ServeFault, Tools, play};
use tb_site::Paths;
use tb_sql::opening::OpenFault;

/// Makes a store in an empty database, for one person, who owns the one board, and begins a session over it.
pub fn make<S: Alter>(
    alloc: Global,
    conn: Connection<S>,
    name: &Name,
    key: &Key,
) -> Result<Desk<SqlKeep<S>>, (Connection<S>, CreateFault)>
    requires { conn.in_transaction ≡ false }
    ensures begun { IfOk result (λ desk. IsAtRest (state S.Store conn)
        → IsAt (opening name.now key.now) (⟦<SqlKeep<S> as Keep>⟧.holds desk)
        (⟦<SqlKeep<S> as Keep>⟧.after_stop desk)) }
    ensures fresh { IfOk result (λ desk. desk.failed ≡ false) }
    ensures filled { IsFilled (state S.Store conn)
        → MatchResult result (λ desk. ⊥) (λ e. (e.0 ≡ conn) × (e.1 ≡ CreateFault.NotEmpty)) }
    ensures unmade { IfErr result (λ e. IsUnmade S.Store (opening name.now key.now) conn e.0 e.1) }
    ensures idle { IfErr result (λ e. e.0.in_transaction ≡ false) }
{
    match SqlKeep::create(alloc, conn, name, key) {
        Ok(keep) => Ok(Desk::new(keep)),
        Err(unmade) => Err(unmade),
    }
}

/// Begins a session over the store that a database is. One of a version before becomes one of this version then; whenever a stop
/// comes, all of it is there in the tables of one of the two, and either opens as the same.
pub fn resume<S: Alter>(
    alloc: Global,
    conn: Connection<S>,
) -> Result<Desk<SqlKeep<S>>, (Connection<S>, OpenFault)>
    requires { conn.in_transaction ≡ false }
    ensures begun { IfOk result (λ desk. IsAtRest (state S.Store conn)
        → (s : State) → IsFileOf s (state S.Store conn).now.trees
        → IsAt s (⟦<SqlKeep<S> as Keep>⟧.holds desk) (⟦<SqlKeep<S> as Keep>⟧.after_stop desk)) }
    ensures stopped { IsAtRest (state S.Store conn) → (s : State)
        → IsFileOf s (state S.Store conn).now.trees
        → MatchResult result (λ desk. StopLeaves (state S.Store desk.conn) (AreTreesOf s))
        (λ e. StopLeaves (state S.Store e.0) (IsFileOf s)) }
    ensures ours { IfOk result
        (λ desk. has_tables desk.found (state S.Store conn).now.schema ≡ true) }
    ensures said { IfOk result (λ desk. WhileHonest (state S.Store desk.conn)
        (Says S.Store conn (Ok desk.found))) }
    ensures refused { IfErr result (λ e. IsRefused S.Store conn (state S.Store e.0) e.1) }
    ensures same { IfErr result (λ e.
        (e.1 ≢ OpenFault.Store) ⊎ ((is_old (state S.Store conn).now.schema ≡ false)
        × (is_second (state S.Store conn).now.schema ≡ false))
        → IsAsBefore (state S.Store conn) (state S.Store e.0)) }
    ensures idle { IfErr result (λ e. e.0.in_transaction ≡ false) }
{
    is_live(&conn);
    match SqlKeep::open(alloc, conn) {
        Ok(keep) => Ok(Desk::new(keep)),
        Err(refused) => Err(refused),
    }
}

/// The tables that a connection sees are those of its schema.
fn is_live<S: Alter>(conn: &Connection<S>)
    ensures { IsLive (state S.Store conn.now) }
{
    let _schema = conn.schema();
}

/// Handles calls in order, up to the first fault: whenever the session stops then, what is left is the rows of a state after some
/// first calls, no fewer than were answered.
pub fn run<S: Alter>(alloc: Global, desk: &mut Desk<SqlKeep<S>>, calls: &[Call]) -> RunEnd
    ensures session { WhileHonest (state S.Store desk.new.conn) ((s : State)
        → IsAt s (⟦<SqlKeep<S> as Keep>⟧.holds desk.old)
        (⟦<SqlKeep<S> as Keep>⟧.after_stop desk.old)
        → IsSession s calls.now result.replies (⟦<SqlKeep<S> as Keep>⟧.holds desk.new)
        (state S.Store desk.new.conn)) }
    ensures honest { HasCleanDisk (state S.Store desk.new.conn)
        → HasCleanDisk (state S.Store desk.old.conn) }
    ensures all { result.fault ≡ None → length result.replies ≡ length calls.now }
    ensures left { (s : State) → ⟦<SqlKeep<S> as Keep>⟧.holds desk.old s → result.fault ≢ Some Store
        → ⟦<SqlKeep<S> as Keep>⟧.holds desk.new
        (plain s (once s (take (length result.replies) calls.now))) }
    ensures failed { result.fault ≡ Some Store → ⟦<SqlKeep<S> as Keep>⟧.has_failed desk.new ≡ true }
{
    desk.run(alloc, calls)
}

/// What a stop leaves of a desk's file: where the desk stands after some calls, the rows of the state after all that were answered,
/// and after one more at most.
pub fn leaves_rows<S: Alter>(desk: &Desk<SqlKeep<S>>)
    ensures { WhileHonest (state S.Store desk.now.conn) ((s : State) (calls : List Call) (answered : ℕ)
        → StandsAfter s calls answered (⟦<SqlKeep<S> as Keep>⟧.holds desk.now)
        (⟦<SqlKeep<S> as Keep>⟧.after_stop desk.now)
        → Leaves s calls answered (state S.Store desk.now.conn)) }
{}

/// A server that was run over a desk, by whatever loop: what was made of all that was done to its connections is a session, to its end
/// or up to a failure of the store.
pub fn serves_session<S: Alter>(desk: &Desk<SqlKeep<S>>)
    ensures played { (site : Site) (s : State) (done : List (ℕ × Happening (Option ℕ)))
        (talks later : ℕ → Talk)
        → (⟦<SqlKeep<S> as Keep>⟧.is_honest desk.now ≡ true
        → Plays site s done talks later (⟦<SqlKeep<S> as Keep>⟧.holds desk.now)
        (⟦<SqlKeep<S> as Keep>⟧.after_stop desk.now))
        → WhileHonest (state S.Store desk.now.conn) (IsPlayed site s done talks later
        (⟦<SqlKeep<S> as Keep>⟧.holds desk.now) (⟦<SqlKeep<S> as Keep>⟧.after_stop desk.now)
        (state S.Store desk.now.conn)) }
    ensures cut { (site : Site) (s : State) (done : List (ℕ × Happening (Option ℕ)))
        (talks later : ℕ → Talk)
        → (⟦<SqlKeep<S> as Keep>⟧.is_honest desk.now ≡ true
        → IsStopped site s done talks later (⟦<SqlKeep<S> as Keep>⟧.holds desk.now)
        (⟦<SqlKeep<S> as Keep>⟧.after_stop desk.now))
        → WhileHonest (state S.Store desk.now.conn) (IsCut site s done talks later
        (⟦<SqlKeep<S> as Keep>⟧.holds desk.now) (⟦<SqlKeep<S> as Keep>⟧.after_stop desk.now)
        (state S.Store desk.now.conn)) }
{}

/// Serves connections: things are done to them, one after the other, up to a failure of the store.
/// Each connection is told what its own messages ask for, and whenever the session stops then, what
/// is left is the rows of the state after all calls that were answered, in the order in which they
/// were handled, and after one more at most.
pub fn serve_connections<S: Alter>(
    alloc: Global,
    tools: &mut Tools,
    paths: &Paths,
    peers: &mut [Peer],
    desk: &mut Desk<SqlKeep<S>>,
    happenings: &[(usize, PeerEvent<'_>)],
) -> Result<(), ServeFault>
    ensures played { WhileHonest (state S.Store desk.new.conn) ((s : State)
        → IsAt s (⟦<SqlKeep<S> as Keep>⟧.holds desk.old)
        (⟦<SqlKeep<S> as Keep>⟧.after_stop desk.old)
        → OnOk result (IsPlayed paths.now.site s (done_at (length peers.old) happenings.now)
        (talk_at peers.old) (talk_at peers.new)
        (⟦<SqlKeep<S> as Keep>⟧.holds desk.new) (⟦<SqlKeep<S> as Keep>⟧.after_stop desk.new)
        (state S.Store desk.new.conn))) }
    ensures cut { WhileHonest (state S.Store desk.new.conn) ((s : State)
        → IsAt s (⟦<SqlKeep<S> as Keep>⟧.holds desk.old)
        (⟦<SqlKeep<S> as Keep>⟧.after_stop desk.old)
        → OnErr result (IsCut paths.now.site s (done_at (length peers.old) happenings.now)
        (talk_at peers.old) (talk_at peers.new)
        (⟦<SqlKeep<S> as Keep>⟧.holds desk.new) (⟦<SqlKeep<S> as Keep>⟧.after_stop desk.new)
        (state S.Store desk.new.conn))) }
    ensures honest { HasCleanDisk (state S.Store desk.new.conn)
        → HasCleanDisk (state S.Store desk.old.conn) }
    ensures fault { IfErr result (λ fault. fault ≡ ServeFault.Store) }
    ensures failed { IsErr result → ⟦<SqlKeep<S> as Keep>⟧.has_failed desk.new ≡ true }
{
    play(alloc, tools, paths, peers, desk, happenings)
}
