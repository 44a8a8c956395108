//! The address and the port of a server.
ghost use Rattle.std.specs.List.{list_all};
ghost use Rattle.std.specs.Path.{rsplit_once};
ghost use Rattle.std.specs.Prelude.{◌≡◌};
ghost use Rattle.tb_board.specs.Names.{is_key_byte};
ghost use Rattle.tb_command_line.specs.Sending.{are_address_and_port, has_address_and_port, is_server};

use tb_values::read_number;

const LAST_PORT: u32 = 65_535;

/// Whether a text has an address and behind its last colon a port, all of it in visible ASCII.
#[tactic(auto, unfolding(crate::specs::Sending::is_server))]
pub fn is_server(text: &str) -> bool
    ensures { result ≡ is_server text.now }
{
    is_visible(text.as_bytes()) && has_address_and_port(text)
}

fn has_address_and_port(text: &str) -> bool
    ensures { result ≡ has_address_and_port (rsplit_once 58 text.now) }
{
    match text.rsplit_once(':') {
        Some((address, port)) => are_address_and_port(address, port),
        None => false,
    }
}

fn are_address_and_port(address: &str, port: &str) -> bool
    ensures { result ≡ are_address_and_port address.now port.now }
{
    !address.is_empty() && read_number(port, LAST_PORT).is_some()
}

fn is_visible(bytes: &[u8]) -> bool
    ensures { result ≡ list_all is_key_byte bytes.now }
{
    bytes.iter().all(|byte| is_visible_byte(*byte))
}

fn is_visible_byte(byte: u8) -> bool
    ensures { result ≡ is_key_byte byte }
{
    (0x21..=0x7E).contains(&byte)
}
