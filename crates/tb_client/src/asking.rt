//! A message that is sent until it is answered.
ghost use Rattle.std.specs.Prelude.{◌≡◌, List, [], ◌∷◌, ◌++◌, false, true, IfNone, IfOk, IfSome, OnErr, ℕ};
ghost use Rattle.tb_client.specs.Answer.{IsWholeAnswer, asks_again};
ghost use Rattle.tb_client.specs.Asking.{Event, EndsBy, IsFront, IsTry, asked, late, torn, waited};
ghost use Rattle.tb_client.specs.declared.asking.AskFault.TheVariants.{Memory};

use crate::answer::{Reply, read_reply};
use std::alloc::{AllocError, Global};
use tb_values::Items;

/// Why a message has no answer.
#[derive(Clone, Copy, Debug, PartialEq, Eq)]
pub enum AskFault {
    /// None came while it was sent again.
    NoAnswer,
    Memory,
}

impl From<AllocError> for AskFault {
    ghost from_gives = { λ _ e. e ≡ Memory };

    fn from(_e: AllocError) -> AskFault {
        AskFault::Memory
    }
}

/// What a client has of a server.
pub trait Line {
    /// One line comes of another by these events, in this order.
    ghost follows: { List Event → Self → Self → Type 0 };

    ghost unchanged: { (line : Self) → follows [] line line };

    ghost joined: { (first more : List Event) (a b c : Self) → follows first a b → follows more b c
        → follows (first ++ more) a c };

    /// Sends a message on a new connection, and takes what comes until the connection ends: none where the message wasn't sent whole.
    fn ask(&mut self, message: &[u8]) -> Option<Items<u8>>
        ensures whole { IfSome result
            (λ came. follows (asked message.now came ∷ []) self.old self.new) }
        ensures front { IfNone result
            ((sent : List ℕ) × IsFront sent message.now
            × follows (torn sent ∷ []) self.old self.new) };

    /// Lets so many milliseconds go by, unless the time for asking is over.
    fn pause(&mut self, milliseconds: u32) -> bool
        ensures waited { result ≡ true → follows (waited milliseconds ∷ []) self.old self.new }
        ensures late { result ≡ false → follows (late ∷ []) self.old self.new };
}

/// The most often that a message is sent.
const MOST_TRIES: u32 = 1_000_000;

const FIRST_PAUSE: u32 = 100;

const LONGEST_PAUSE: u32 = 5_000;

/// Sends a message again and again, the same each time, until a whole answer comes, with a pause behind each try that doubles from
/// a tenth of a second to 5 seconds. A server that couldn't take it and a proxy that couldn't reach the server are asked again too.
pub fn ask_until_answered<L: Line>(
    alloc: Global,
    line: &mut L,
    message: &[u8],
) -> Result<Reply, AskFault>
    ensures { (happened : List Event) × L.follows happened line.old line.new
        × EndsBy message.now happened result }
{
    let mut pause = FIRST_PAUSE;
    let mut tries = 0;
    'turns: while tries < MOST_TRIES {
        if let Some(reply) = ask_once(alloc, line, message)? {
            return Ok(reply);
        }
        if !line.pause(pause) {
            return Err(AskFault::NoAnswer);
        }
        pause = LONGEST_PAUSE.min(pause * 2);
        tries += 1;
    }
    Err(AskFault::NoAnswer)
}

/// Sends a message once: the answer by which the asking ends, if it came.
fn ask_once<L: Line>(
    alloc: Global,
    line: &mut L,
    message: &[u8],
) -> Result<Option<Reply>, AllocError>
    ensures answer { IfOk result
        (λ found. IfSome found
        (λ reply. (came : List ℕ) × IsWholeAnswer came reply × (asks_again reply.status ≡ false)
        × L.follows (asked message.now came ∷ []) line.old line.new)) }
    ensures none { IfOk result (λ found. IfNone found ((event : Event) × IsTry message.now event
        × L.follows (event ∷ []) line.old line.new)) }
    ensures memory { OnErr result
        ((came : List ℕ) × L.follows (asked message.now came ∷ []) line.old line.new) }
{
    let Some(came) = line.ask(message) else {
        return Ok(None);
    };
    let Some(reply) = read_reply(alloc, came.as_slice())? else {
        return Ok(None);
    };
    if asks_again(reply.status) {
        return Ok(None);
    }
    Ok(Some(reply))
}

fn asks_again(status: u16) -> bool
    ensures { result ≡ asks_again status }
{
    matches!(status, 500 | 502 | 503 | 504)
}
