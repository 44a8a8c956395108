//! Who asks a server.
ghost use Rattle.std.specs.Prelude.{◌≡◌, ◌∷◌, ◌++◌, [], IfErr, IfOk, List, true};
ghost use Rattle.tb_mine.specs.Asked.{Asked, asked_of};
ghost use Rattle.tb_mine.specs.Faults.{is_of_asking};

use tb_my::Sent;
use tb_program::Fault;
use tb_task::TaskId;
use tb_values::{Items, Text};

/// How a call or a view was answered.
#[derive(Drop)]
pub struct Answer {
    /// It wasn't refused.
    pub is_accepted: bool,
    pub body: Items<u8>,
}

/// Asks one server under one name.
pub trait Asks {
    /// One comes of another by what was asked and answered, in this order.
    ghost follows: { List Asked → Self → Self → Type 0 };

    ghost unchanged: { (asks : Self) → follows [] asks asks };

    ghost joined: { (first more : List Asked) (a b c : Self) → follows first a b → follows more b c
        → follows (first ++ more) a c };

    /// Sends words of `send` until they are answered, under an identifier if one is given.
    fn ask(&mut self, words: Items<Text>, call: Option<TaskId>) -> Result<Answer, Fault>
        ensures asked { IfOk result
            (λ answer. follows (asked_of words call answer ∷ []) self.old self.new) }
        ensures fault { IfErr result (λ fault. is_of_asking fault ≡ true) };

    /// Keeps what takes back a call that was accepted.
    fn keep(&mut self, sent: &Sent) -> Result<(), Fault>
        ensures kept { follows [] self.old self.new }
        ensures fault { IfErr result (λ fault. is_of_asking fault ≡ true) };
}
