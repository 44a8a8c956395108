//! Which message waits, and what a message is charged with.
ghost use Rattle.std.specs.Prelude.{◌≡◌, OnErr, OnOk};
ghost use Rattle.tb_rooms.specs.Claims.{forgotten, number_under, taught};
ghost use Rattle.tb_rooms.specs.Rates.{board_charged, call_cost, debt_wait, fresh, guess_counted, guess_wait, is_guess, person_charged};

use crate::bucket::{Bucket, Rate};
use crate::claims::Claims;
use crate::ledger::Ledger;
use std::alloc::{AllocError, Global};

/// How many turns messages with unknown keys have at once, and in a second, all of them together.
pub(crate) const STRANGERS: Rate = Rate {
    burst: 500,
    per_second: 100,
};

/// How much of what a sweep made its caller is charged with at most, in bytes. Its board is charged with all of it.
pub(crate) const MOST_SWEPT: u64 = 4_194_304;

/// What a message says of itself before it is answered. A word that it doesn't give is empty.
#[derive(Clone, Copy)]
pub struct Asking<'a> {
    /// Whether it may change something.
    pub is_call: bool,
    pub member: &'a str,
    pub key: &'a str,
    /// The board that it is about.
    pub board: &'a str,
}

/// How many bytes calls have written since the start.
#[derive(Clone, Copy, Debug, PartialEq, Eq)]
pub struct Written {
    /// By what their callers gave.
    pub own: u64,
    /// By the sweeps that they caused.
    pub swept: u64,
}

/// Who used how much, and whose keys are known.
#[derive(Drop)]
pub struct Rates {
    pub persons: Ledger,
    pub boards: Ledger,
    pub strangers: Bucket,
    pub claims: Claims,
}

impl Rates {
    /// Nobody used anything, and no key is known. Persons and boards have this rate, in bytes.
    pub fn new(alloc: Global, rate: Rate) -> Rates
        ensures { result ≡ fresh rate }
    {
        Rates {
            persons: Ledger::new(alloc, rate),
            boards: Ledger::new(alloc, rate),
            strangers: Bucket::new(),
            claims: Claims::new(alloc),
        }
    }

    /// Whether a message gives a key that isn't known to be right with its name.
    pub fn is_guess(&self, asking: &Asking<'_>) -> bool
        ensures { result ≡ is_guess self.now asking.now }
    {
        !asking.key.is_empty() && !self.claims.has(asking.member, asking.key)
    }

    /// The number of the person of a message among those whose keys are known, or 0 where its key isn't known.
    pub fn owner(&self, asking: &Asking<'_>) -> u64
        ensures { result ≡ number_under asking.now.member.now asking.now.key.now
            self.now.claims.claims }
    {
        self.claims.number(asking.member, asking.key)
    }

    /// How many milliseconds a message waits for what its person and its board used. Only calls wait.
    pub fn debt_wait(&self, asking: &Asking<'_>, now: u64) -> u64
        ensures { result ≡ debt_wait self.now asking.now now }
    {
        if !asking.is_call {
            return 0;
        }
        let person = self.persons.wait(asking.member, now);
        person.max(self.boards.wait(asking.board, now))
    }

    /// How many milliseconds a message with an unknown key waits for the others that have one.
    pub fn guess_wait(&self, asking: &Asking<'_>, now: u64) -> u64
        ensures { result ≡ guess_wait self.now asking.now now }
    {
        if self.is_guess(asking) {
            self.strangers.wait(STRANGERS, now)
        } else {
            0
        }
    }

    /// Charges the caller of a call with what it wrote itself, and with some of what its sweep made. Where it wrote nothing nobody is
    /// charged: its name and key needn't be right. Without memory nothing changes.
    pub fn charge_person(
        &mut self,
        alloc: Global,
        asking: &Asking<'_>,
        own: u64,
        swept: u64,
        now: u64,
    ) -> Result<(), AllocError>
        ensures ok { OnOk result (self.new ≡ person_charged asking.now own swept now self.old) }
        ensures err { OnErr result (self.new ≡ self.old) }
    {
        if own == 0 {
            return Ok(());
        }
        self.persons
            .charge(alloc, asking.member, call_cost(own, swept), now)
    }

    /// Charges the board of a call with what its sweep made. Without memory nothing changes.
    pub fn charge_board(
        &mut self,
        alloc: Global,
        asking: &Asking<'_>,
        swept: u64,
        now: u64,
    ) -> Result<(), AllocError>
        ensures ok { OnOk result (self.new ≡ board_charged asking.now swept now self.old) }
        ensures err { OnErr result (self.new ≡ self.old) }
    {
        if swept == 0 {
            return Ok(());
        }
        self.boards.charge(alloc, asking.board, swept, now)
    }

    /// A message was answered: one that gives an unknown key is counted.
    pub fn count_guess(&mut self, asking: &Asking<'_>, now: u64)
        ensures { self.new ≡ guess_counted asking.now now self.old }
    {
        if self.is_guess(asking) {
            self.strangers = self.strangers.charged(STRANGERS, 1, now);
        }
    }

    /// The key of a message was right with its name. Without memory nothing changes.
    pub fn learn(&mut self, alloc: Global, asking: &Asking<'_>) -> Result<(), AllocError>
        ensures ok { OnOk result (self.new ≡ record self.old {
          claims = taught asking.now.member.now asking.now.key.now self.old.claims;
        }) }
        ensures err { OnErr result (self.new ≡ self.old) }
    {
        self.claims.learn(alloc, asking.member, asking.key)
    }

    /// The key of a message was wrong with its name.
    pub fn forget(&mut self, asking: &Asking<'_>)
        ensures { self.new ≡ record self.old {
          claims = record self.old.claims {
            claims = forgotten asking.now.member.now asking.now.key.now
                self.old.claims.claims;
          };
        } }
    {
        self.claims.forget(asking.member, asking.key);
    }
}

#[tactic(auto, unfolding(crate::specs::Rates::call_cost))]
fn call_cost(own: u64, swept: u64) -> u64
    ensures { result ≡ call_cost own swept }
{
    own.saturating_add(swept.min(MOST_SWEPT))
}
