//! One thing after the other.
ghost use Rattle.std.specs.Prelude.{◌≡◌, ◌∷◌, [], length, IfErr, IsErr, OnErr, OnOk, true};
ghost use Rattle.tb_calls.specs.Call.{State};
ghost use Rattle.tb_calls.specs.Leaving.{Only};
ghost use Rattle.tb_serve.specs.Server.{IsStopped, Plays, done_at, talk_at};

use crate::happening::{PeerEvent, happen, stops_all};
use crate::peer::Peer;
use crate::serving::ServeFault;
use crate::tools::Tools;
use std::alloc::Global;
use tb_calls::Keep;
use tb_desk::Desk;
use tb_site::Paths;

// One thing is done, where there is such a place. Only a failure of the store ends all.
fn play_one<K: Keep>(
    alloc: Global,
    tools: &mut Tools,
    paths: &Paths,
    peers: &mut [Peer],
    desk: &mut Desk<K>,
    entry: &(usize, PeerEvent<'_>),
) -> Result<(), ServeFault>
    ensures plays { K.is_honest desk.new ≡ true → (s : State) → K.holds desk.old s
        → Only s (K.after_stop desk.old)
        → OnOk result (Plays paths.now.site s (done_at (length peers.old) (entry.now ∷ []))
        (talk_at peers.old) (talk_at peers.new)
        (K.holds desk.new) (K.after_stop desk.new)) }
    ensures stopped { K.is_honest desk.new ≡ true → (s : State) → K.holds desk.old s
        → Only s (K.after_stop desk.old)
        → OnErr result (IsStopped paths.now.site s (done_at (length peers.old) (entry.now ∷ []))
        (talk_at peers.old) (talk_at peers.new)
        (K.holds desk.new) (K.after_stop desk.new)) }
    ensures fault { IfErr result (λ fault. fault ≡ ServeFault.Store) }
    ensures honest { K.is_honest desk.new ≡ true → K.is_honest desk.old ≡ true }
    ensures failed { IsErr result → K.has_failed desk.new ≡ true }
    ensures count { length peers.new ≡ length peers.old }
{
    let (place, happening) = entry;
    if *place >= peers.len() {
        return Ok(());
    }
    let outcome = happen(alloc, tools, paths, peers, desk, *place, happening);
    if stops_all(outcome) {
        return Err(ServeFault::Store);
    }
    Ok(())
}

/// Things are done to connections, one after the other, up to a failure of the store. What names a place that isn't
/// there is passed over.
pub fn play<K: Keep>(
    alloc: Global,
    tools: &mut Tools,
    paths: &Paths,
    peers: &mut [Peer],
    desk: &mut Desk<K>,
    happenings: &[(usize, PeerEvent<'_>)],
) -> Result<(), ServeFault>
    ensures plays { K.is_honest desk.new ≡ true → (s : State) → K.holds desk.old s
        → Only s (K.after_stop desk.old)
        → OnOk result (Plays paths.now.site s (done_at (length peers.old) happenings.now)
        (talk_at peers.old) (talk_at peers.new)
        (K.holds desk.new) (K.after_stop desk.new)) }
    ensures stopped { K.is_honest desk.new ≡ true → (s : State) → K.holds desk.old s
        → Only s (K.after_stop desk.old)
        → OnErr result (IsStopped paths.now.site s (done_at (length peers.old) happenings.now)
        (talk_at peers.old) (talk_at peers.new)
        (K.holds desk.new) (K.after_stop desk.new)) }
    ensures fault { IfErr result (λ fault. fault ≡ ServeFault.Store) }
    ensures honest { K.is_honest desk.new ≡ true → K.is_honest desk.old ≡ true }
    ensures failed { IsErr result → K.has_failed desk.new ≡ true }
{
    for entry in happenings {
        play_one(alloc, tools, paths, peers, desk, entry)?;
    }
    Ok(())
}
