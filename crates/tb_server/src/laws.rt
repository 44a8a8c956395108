//! A law of what a server makes of a history.
ghost use Rattle.tb_server.specs.Laws.{MakesTurns};

use crate::server::Server;
use tb_calls::Keep;
use tb_program::Clock;

/// Where one server comes of another by what was done to its connections, this decides which calls the boards saw, and what each
/// connection is told.
pub fn makes_turns<K: Keep, C: Clock>(before: &Server<K, C>, later: &Server<K, C>)
    ensures { MakesTurns C.gives before.now.clock later.now.clock
        before.now.paths.site later.now.paths.site before.now.peers.items
        later.now.peers.items
        (K.is_honest before.now.desk) (K.is_honest later.now.desk)
        (K.holds before.now.desk) (K.after_stop before.now.desk)
        (K.holds later.now.desk) (K.after_stop later.now.desk) }
{}
