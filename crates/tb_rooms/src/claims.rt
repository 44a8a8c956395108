//! The names and keys that have been right.
ghost use Rattle.std.specs.Prelude.{◌≡◌, [], OnErr, OnOk, find, position};
ghost use Rattle.std.specs.Option.{option_copied};
ghost use Rattle.tb_rooms.specs.Claims.{forgotten, is_claimed, is_under, number_under, taught};
ghost use Rattle.tb_rooms.specs.Ledger.{trimmed};

use crate::ledger::MOST;
use std::alloc::{AllocError, Global};
use tb_values::{Items, Text};

/// A name, and the key that was last right with it.
#[derive(Drop)]
pub struct Claim {
    pub name: Text,
    pub key: Text,
    /// How many were learned before it, and it. No two have the same.
    pub number: u64,
}

/// The names and keys that have been right: one key for each name.
#[derive(Drop)]
pub struct Claims {
    pub claims: Items<Claim>,
    /// The number of the one that was learned last, or 0.
    pub last: u64,
}

impl Claims {
    pub fn new(alloc: Global) -> Claims
        ensures { result ≡ record { claims = []; last = 0 } }
    {
        Claims {
            claims: Items::new(alloc),
            last: 0,
        }
    }

    fn place_of(&self, name: &str) -> Option<usize>
        ensures { result ≡ position (is_under name.now) self.now.claims }
    {
        self.claims
            .as_slice()
            .iter()
            .position(|claim| is_under(claim, name))
    }

    fn claim(&self, name: &str) -> Option<&Claim>
        ensures { option_copied result ≡ find (is_under name.now) self.now.claims }
    {
        self.claims
            .as_slice()
            .iter()
            .find(|claim| is_under(claim, name))
    }

    /// Whether this key was the last that was right with this name.
    pub fn has(&self, name: &str, key: &str) -> bool
        ensures { result ≡ is_claimed name.now key.now self.now.claims }
    {
        match self.claim(name) {
            Some(claim) => claim.key.as_str() == key,
            None => false,
        }
    }

    /// The number under which this key was learned, where it was the last that was right with this name, or else 0.
    pub fn number(&self, name: &str, key: &str) -> u64
        ensures { result ≡ number_under name.now key.now self.now.claims }
    {
        match self.claim(name) {
            Some(claim) if claim.key.as_str() == key => claim.number,
            _ => 0,
        }
    }

    /// This key was right with this name. Without memory nothing changes.
    pub fn learn(&mut self, alloc: Global, name: &str, key: &str) -> Result<(), AllocError>
        ensures ok { OnOk result (self.new ≡ taught name.now key.now self.old) }
        ensures err { OnErr result (self.new ≡ self.old) }
    {
        let number = self.last.saturating_add(1);
        let claim = Claim {
            name: Text::from_str(alloc, name)?,
            key: Text::from_str(alloc, key)?,
            number,
        };
        match self.place_of(name) {
            Some(place) => {
                self.claims.set(place, claim);
                self.last = number;
                Ok(())
            }
            None => {
                self.claims.push(claim)?;
                trim(&mut self.claims);
                self.last = number;
                Ok(())
            }
        }
    }

    /// This key was wrong with this name. Where it was the right one, the name is forgotten.
    pub fn forget(&mut self, name: &str, key: &str)
        ensures { self.new ≡ record self.old { claims = forgotten name.now key.now self.old.claims } }
    {
        if !self.has(name, key) {
            return;
        }
        if let Some(place) = self.place_of(name) {
            self.claims.remove(place);
        }
    }
}

fn is_under(claim: &Claim, name: &str) -> bool
    ensures { result ≡ is_under name.now claim.now }
{
    claim.name.as_str() == name
}

fn trim(claims: &mut Items<Claim>)
    ensures { claims.new ≡ trimmed claims.old }
{
    if claims.len() > MOST {
        claims.remove(0);
    }
}
