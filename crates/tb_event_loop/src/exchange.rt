//! The bytes between a socket and the service.
ghost use Rattle.std.specs.Prelude.{◌≡◌, IsErr, is_err, true};
ghost use Rattle.tb_event_loop.specs.Deeds.{ActsAt, Begins, Did};
ghost use Rattle.tb_event_loop.specs.Heard.{Reads, Writes};
ghost use Rattle.tb_event_loop.specs.Sockets.{Quietly};

use crate::connection::{Connection, PIECE};
use crate::service::{Service, SocketEvent, StoreFailed};
use crate::sockets::Sockets;

/// Reads once, and hands what came to the service.
pub(crate) fn read_some<N: Sockets, V: Service>(
    connection: &mut Connection,
    sockets: &mut N,
    service: &mut V,
    place: usize,
) -> Result<(), StoreFailed>
    ensures after { Did (ActsAt place N.follows V.follows V.owed_at) (is_err result) 0
        (sockets.old, service.old) (sockets.new, service.new) }
    ensures failed { IsErr result → V.has_failed service.new ≡ true }
    ensures reads { Begins (ActsAt place N.follows V.follows V.owed_at) (is_err result)
        (Reads place connection.old connection.new)
        (sockets.old, service.old) (sockets.new, service.new) }
{
    let mut piece = [0u8; PIECE];
    match sockets.read(place, &mut piece) {
        Ok(0) => {
            connection.end_input();
            Ok(())
        }
        Ok(count) => {
            connection.bytes_came(count);
            service.happen(place, &SocketEvent::Came(&piece[..count]))
        }
        Err(error) => {
            connection.read_failed(&error);
            Ok(())
        }
    }
}

/// Reads once from a connection that is closing, and throws it away.
pub(crate) fn drop_some<N: Sockets>(connection: &mut Connection, sockets: &mut N, place: usize)
    ensures quiet { Quietly N.follows sockets.old sockets.new }
{
    match sockets.drop_some(place) {
        Ok(0) => connection.is_gone = true,
        Ok(_) => (),
        Err(error) => connection.read_failed(&error),
    }
}

/// Writes once of what the service has to send.
pub(crate) fn write_some<N: Sockets, V: Service>(
    connection: &mut Connection,
    sockets: &mut N,
    service: &mut V,
    place: usize,
) -> Result<(), StoreFailed>
    ensures after { Did (ActsAt place N.follows V.follows V.owed_at) (is_err result) 0
        (sockets.old, service.old) (sockets.new, service.new) }
    ensures failed { IsErr result → V.has_failed service.new ≡ true }
    ensures writes { Begins (ActsAt place N.follows V.follows V.owed_at) (is_err result)
        (Writes place connection.old connection.new)
        (sockets.old, service.old) (sockets.new, service.new) }
{
    match sockets.write(place, service.unsent(place)) {
        Ok(0) => {
            connection.is_gone = true;
            Ok(())
        }
        Ok(count) => service.happen(place, &SocketEvent::Went(count)),
        Err(error) => {
            connection.write_failed(&error);
            Ok(())
        }
    }
}
