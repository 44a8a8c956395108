//! One step over the connections of a server.
ghost use Rattle.std.specs.Prelude.{◌≡◌, ◌<◌, length, IfErr, Err, None, true};
ghost use Rattle.tb_calls.specs.Call.{State};
ghost use Rattle.tb_calls.specs.Leaving.{Only};
ghost use Rattle.tb_serve.specs.Following.{Follows, has_stopped};
ghost use Rattle.tb_serve.specs.Server.{Comes, Happens, HappensTo, done_of, talk_at};
ghost use Rattle.tb_site.specs.declared.site.Site.{Site};
ghost use Rattle.tb_serve.specs.Turns.{opens, comes, goes};

use crate::peer::Peer;
use crate::serving::ServeFault;
use crate::tools::Tools;
use std::alloc::Global;
use tb_calls::Keep;
use tb_desk::Desk;
use tb_site::Paths;
use tb_task::Moment;

/// What is done to a connection.
#[derive(Clone, Copy)]
pub enum PeerEvent<'a> {
    /// It is opened, in the place of one that is gone.
    Opened,
    /// These bytes came.
    Came(&'a [u8]),
    /// It has its turn, at a moment.
    Turn(Option<Moment>),
    /// So many bytes of what it is to be sent were handed to its socket.
    Went(usize),
}

fn open<K: Keep>(alloc: Global, peer: &mut Peer, desk: &Desk<K>)
    ensures { (site : Site) → (s : State) → K.holds desk.now s → Only s (K.after_stop desk.now)
        → Comes site None s opens peer.old peer.new (K.holds desk.now) (K.after_stop desk.now) }
{
    *peer = Peer::new(alloc);
}

fn come<K: Keep>(peer: &mut Peer, desk: &Desk<K>, piece: &[u8]) -> Result<(), ServeFault>
    ensures happens { (site : Site) → (s : State) → K.holds desk.now s
        → Only s (K.after_stop desk.now)
        → HappensTo site result s (comes piece.now) peer.old peer.new (K.holds desk.now)
        (K.after_stop desk.now) }
    ensures memory { IfErr result (λ fault. fault ≡ ServeFault.Memory) }
{
    match peer.take(piece) {
        Ok(()) => Ok(()),
        Err(_) => Err(ServeFault::Memory),
    }
}

fn go<K: Keep>(alloc: Global, peer: &mut Peer, desk: &Desk<K>, count: usize)
    ensures { (site : Site) → (s : State) → K.holds desk.now s → Only s (K.after_stop desk.now)
        → Comes site None s (goes count) peer.old peer.new (K.holds desk.now)
        (K.after_stop desk.now) }
{
    peer.mark_sent(alloc, count);
}

// One thing is done to a connection.
fn happen_to<K: Keep>(
    alloc: Global,
    tools: &mut Tools,
    paths: &Paths,
    peer: &mut Peer,
    desk: &mut Desk<K>,
    happening: &PeerEvent<'_>,
) -> Result<(), ServeFault>
    ensures happens { K.is_honest desk.new ≡ true → (s : State) → K.holds desk.old s
        → Only s (K.after_stop desk.old)
        → HappensTo paths.now.site result s (done_of happening.now) peer.old peer.new
        (K.holds desk.new) (K.after_stop desk.new) }
    ensures follows { Follows (has_stopped result) (K.holds desk.old) (K.after_stop desk.old)
        (K.holds desk.new) (K.after_stop desk.new) }
    ensures honest { K.is_honest desk.new ≡ true → K.is_honest desk.old ≡ true }
    ensures failed { result ≡ Err ServeFault.Store → K.has_failed desk.new ≡ true }
{
    match happening {
        PeerEvent::Opened => {
            open(alloc, peer, desk);
            Ok(())
        }
        PeerEvent::Came(piece) => come(peer, desk, piece),
        PeerEvent::Turn(at) => peer.answer_next(alloc, tools, paths, desk, *at),
        PeerEvent::Went(count) => {
            go(alloc, peer, desk, *count);
            Ok(())
        }
    }
}

/// One thing is done to the connection of a place: it is opened, bytes came, it has its turn, or bytes went. Nothing
/// else changes any of the connections. Without memory that one connection takes no more, and all else goes on; where
/// the store failed, all ends.
pub fn happen<K: Keep>(
    alloc: Global,
    tools: &mut Tools,
    paths: &Paths,
    peers: &mut [Peer],
    desk: &mut Desk<K>,
    place: usize,
    happening: &PeerEvent<'_>,
) -> Result<(), ServeFault>
    requires { place < length peers.old }
    ensures happens { K.is_honest desk.new ≡ true → (s : State) → K.holds desk.old s
        → Only s (K.after_stop desk.old)
        → Happens paths.now.site result s place (done_of happening.now) (talk_at peers.old)
        (talk_at peers.new)
        (K.holds desk.new) (K.after_stop desk.new) }
    ensures follows { Follows (has_stopped result) (K.holds desk.old) (K.after_stop desk.old)
        (K.holds desk.new) (K.after_stop desk.new) }
    ensures honest { K.is_honest desk.new ≡ true → K.is_honest desk.old ≡ true }
    ensures failed { result ≡ Err ServeFault.Store → K.has_failed desk.new ≡ true }
{
    happen_to(alloc, tools, paths, &mut peers[place], desk, happening)
}

/// Whether the store failed, so that nothing more is served.
pub fn stops_all(outcome: Result<(), ServeFault>) -> bool
    ensures { result ≡ has_stopped outcome }
{
    matches!(outcome, Err(ServeFault::Store))
}
