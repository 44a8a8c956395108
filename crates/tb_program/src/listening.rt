//! The address that is listened on.
ghost use Rattle.std.specs.Net.Socket.{socket_port};
ghost use Rattle.std.specs.Prelude.{◌≡◌, ◌∷◌, [], Some};
ghost use Rattle.tb_program.specs.Listening.{ipv4_octets_of};

use std::net::{Ipv4Addr, SocketAddr, SocketAddrV4};

/// The address of a port on which this machine alone is heard.
pub fn loopback(port: u16) -> SocketAddr
    ensures ip { ipv4_octets_of result ≡ Some (127 ∷ 0 ∷ 0 ∷ 1 ∷ []) }
    ensures port { socket_port result ≡ port }
{
    SocketAddr::V4(SocketAddrV4::new(Ipv4Addr::new(127, 0, 0, 1), port))
}
