//! A server that is asked over connections of the machine.
ghost use Rattle.std.specs.Prelude.{◌≡◌, [], IfOk, refl};
ghost use Rattle.tb_sending.specs.Wires.{Leads, leads_joined, seconds_left};

use crate::dial::Dial;
use std::alloc::AllocError;
use tb_client::Line;
use tb_command_line::SendOrder;
use tb_values::{Duplicate, Items, Text};

/// The longest answer that is taken.
const LONGEST_ANSWER: u64 = 268_435_456;

/// Connections to a server, one after the other, up to a time.
#[derive(Drop)]
pub struct ServerLine<D: Dial> {
    dial: D,
    server: Text,
    seconds: u32,
}

impl<D: Dial + Drop> ServerLine<D> {
    pub(crate) fn new(dial: D, order: &SendOrder) -> Result<ServerLine<D>, AllocError>
        ensures dial { IfOk result (λ line. line.dial ≡ dial) }
        ensures server { IfOk result (λ line. line.server ≡ order.now.server) }
        ensures seconds { IfOk result (λ line. line.seconds ≡ order.now.seconds) }
    {
        Ok(ServerLine {
            dial,
            server: order.server.duplicate()?,
            seconds: order.seconds,
        })
    }
}

/// How long a server may still be asked, and a second at least.
fn seconds_left(seconds: u32, passed: u64) -> u64
    ensures { result ≡ seconds_left seconds passed }
{
    u64::from(seconds).saturating_sub(passed).max(1)
}

impl<D: Dial> Line for ServerLine<D> {
    ghost follows = { λ events a b.
        Leads D.follows events a.server b.server a.seconds b.seconds a.dial b.dial };

    ghost unchanged = { λ line. (refl, refl, [], D.unchanged line.dial, refl) };

    ghost joined = { λ first more a b c. leads_joined D.follows D.joined first more
        a.server b.server c.server a.seconds b.seconds c.seconds a.dial b.dial c.dial };

    fn ask(&mut self, message: &[u8]) -> Option<Items<u8>> {
        let passed = self.dial.passed();
        let left = seconds_left(self.seconds, passed);
        if !self.dial.open(self.server.as_str(), left) {
            return None;
        }
        if self.dial.send(message) < message.len() {
            return None;
        }
        let came = self.dial.receive(LONGEST_ANSWER);
        Some(came)
    }

    fn pause(&mut self, milliseconds: u32) -> bool {
        if self.dial.passed() >= u64::from(self.seconds) {
            return false;
        }
        self.dial.sleep(milliseconds);
        true
    }
}
