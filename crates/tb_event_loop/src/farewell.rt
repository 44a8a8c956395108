//! The end of all connections where the store failed.
ghost use Rattle.tb_event_loop.specs.Farewell.{SaysFarewell, SendsAll, SendsBelow, SendsTo, WritesLast, WritesOnce};
ghost use Rattle.tb_event_loop.specs.Places.{connection_in};
ghost use Rattle.tb_timeouts.specs.declared.limits.TheConstants.{CONNECTIONS};
ghost use Rattle.tb_event_loop.specs.Sockets.{Quietly};

use crate::connection::Connection;
use crate::event_loop::EventLoop;
use crate::exchange::drop_some;
use crate::service::Service;
use crate::sockets::Sockets;
use tb_timeouts::CONNECTIONS;

/// How often the sockets are looked at before they are let go, and how long each time, in milliseconds.
const LOOKS: usize = 10;

const LOOK_MILLIS: u64 = 100;

impl EventLoop {
    /// Sends what is there to be sent, and lets the clients read it.
    pub(crate) fn say_farewell<N: Sockets, V: Service>(&mut self, sockets: &mut N, service: &V)
        ensures says { SaysFarewell N.follows (V.owed_at service.now) sockets.old sockets.new }
        ensures sends { SendsAll N.follows (V.owed_at service.now) self.old.places
            sockets.old sockets.new }
    {
        self.send_all(sockets, service);
        self.let_read(sockets);
    }

    // Sends to each connection what is there to be sent, and nothing more.
    fn send_all<N: Sockets, V: Service>(&self, sockets: &mut N, service: &V)
        ensures says { SaysFarewell N.follows (V.owed_at service.now) sockets.old sockets.new }
        ensures sends { SendsBelow N.follows (V.owed_at service.now) CONNECTIONS
            self.entry.now.places sockets.old sockets.new }
    {
        'places: for place in 0..CONNECTIONS {
            self.send_to(sockets, service, place);
        }
    }

    // Sends to the connection of a place, if there is one.
    fn send_to<N: Sockets, V: Service>(&self, sockets: &mut N, service: &V, place: usize)
        ensures says { SaysFarewell N.follows (V.owed_at service.now) sockets.old sockets.new }
        ensures sends { SendsTo N.follows (V.owed_at service.now)
            (connection_in self.entry.now.places place) place sockets.old sockets.new }
    {
        match self.places.connections.get(place) {
            Some(Some(_)) => send_last(sockets, service, place),
            _ => (),
        }
    }

    // Lets the clients read, for a while.
    fn let_read<N: Sockets>(&mut self, sockets: &mut N)
        ensures { Quietly N.follows sockets.old sockets.new }
    {
        'looks: for _ in 0..LOOKS {
            if self.drop_all(sockets) {
                return;
            }
            if !sockets.wait(LOOK_MILLIS) {
                return;
            }
            self.places.mark_ready(sockets.told());
        }
    }

    // Throws away what came, and says whether all have ended.
    fn drop_all<N: Sockets>(&mut self, sockets: &mut N) -> bool
        ensures { Quietly N.follows sockets.old sockets.new }
    {
        let mut have_ended = true;
        'places: for place in 0..CONNECTIONS {
            have_ended = self.drop_at(sockets, place) && have_ended;
        }
        have_ended
    }

    // Throws away what came to a place, and says whether its connection has ended.
    fn drop_at<N: Sockets>(&mut self, sockets: &mut N, place: usize) -> bool
        ensures { Quietly N.follows sockets.old sockets.new }
    {
        match self.places.connection(place) {
            Some(connection) => {
                drop_rest(connection, sockets, place);
                connection.is_gone
            }
            None => true,
        }
    }
}

fn drop_rest<N: Sockets>(connection: &mut Connection, sockets: &mut N, place: usize)
    ensures { Quietly N.follows sockets.old sockets.new }
{
    if !connection.can_read {
        return;
    }
    if connection.is_gone {
        return;
    }
    drop_some(connection, sockets, place);
}

fn send_last<N: Sockets, V: Service>(sockets: &mut N, service: &V, place: usize)
    ensures says { SaysFarewell N.follows (V.owed_at service.now) sockets.old sockets.new }
    ensures sends { WritesLast N.follows (V.owed_at service.now place) place
        sockets.old sockets.new }
{
    send_bytes(sockets, service, place);
    sockets.stop_sending(place);
}

// Writes once of what is there to be sent.
fn send_bytes<N: Sockets, V: Service>(sockets: &mut N, service: &V, place: usize)
    ensures says { SaysFarewell N.follows (V.owed_at service.now) sockets.old sockets.new }
    ensures writes { WritesOnce N.follows (V.owed_at service.now place) place
        sockets.old sockets.new }
{
    let bytes = service.unsent(place);
    if bytes.is_empty() {
        return;
    }
    match sockets.write(place, bytes) {
        Ok(_) => (),
        Err(_) => (),
    }
}
