//! What each of many used, by name.
ghost use Rattle.std.specs.Prelude.{◌≡◌, [], OnErr, OnOk, find, position};
ghost use Rattle.std.specs.Option.{option_copied};
ghost use Rattle.tb_rooms.specs.Bucket.{wait};
ghost use Rattle.tb_rooms.specs.Ledger.{bucket_in, charged_in, is_of, trimmed};

use crate::bucket::{Bucket, Rate};
use std::alloc::{AllocError, Global};
use tb_values::{Items, Text};

/// How many are known at once. Where there are more, the one that came first is forgotten.
pub(crate) const MOST: usize = 10_000;

/// What one of them used.
#[derive(Drop)]
pub struct Account {
    pub name: Text,
    pub bucket: Bucket,
}

/// What each used at one rate. One that isn't known used nothing.
#[derive(Drop)]
pub struct Ledger {
    pub rate: Rate,
    pub accounts: Items<Account>,
}

impl Ledger {
    pub fn new(alloc: Global, rate: Rate) -> Ledger
        ensures { result ≡ record { rate = rate; accounts = [] } }
    {
        Ledger {
            rate,
            accounts: Items::new(alloc),
        }
    }

    fn place_of(&self, name: &str) -> Option<usize>
        ensures { result ≡ position (is_of name.now) self.now.accounts }
    {
        self.accounts
            .as_slice()
            .iter()
            .position(|account| is_of(account, name))
    }

    fn account(&self, name: &str) -> Option<&Account>
        ensures { option_copied result ≡ find (is_of name.now) self.now.accounts }
    {
        self.accounts
            .as_slice()
            .iter()
            .find(|account| is_of(account, name))
    }

    /// What the one of this name used.
    pub fn bucket(&self, name: &str) -> Bucket
        ensures { result ≡ bucket_in name.now self.now.accounts }
    {
        match self.account(name) {
            Some(account) => account.bucket,
            None => Bucket::new(),
        }
    }

    /// How many milliseconds the one of this name has to wait.
    pub fn wait(&self, name: &str, now: u64) -> u64
        ensures { result ≡ wait self.now.rate (bucket_in name.now self.now.accounts) now }
    {
        self.bucket(name).wait(self.rate, now)
    }

    /// Charges the one of this name with so much. Without memory nothing changes.
    pub fn charge(
        &mut self,
        alloc: Global,
        name: &str,
        cost: u64,
        now: u64,
    ) -> Result<(), AllocError>
        ensures ok { OnOk result (self.new ≡ record self.old {
          accounts = charged_in self.old.rate name.now cost now self.old.accounts;
        }) }
        ensures err { OnErr result (self.new ≡ self.old) }
    {
        let account = Account {
            name: Text::from_str(alloc, name)?,
            bucket: self.bucket(name).charged(self.rate, cost, now),
        };
        match self.place_of(name) {
            Some(place) => {
                self.accounts.set(place, account);
                Ok(())
            }
            None => {
                self.accounts.push(account)?;
                trim(&mut self.accounts);
                Ok(())
            }
        }
    }
}

fn is_of(account: &Account, name: &str) -> bool
    ensures { result ≡ is_of name.now account.now }
{
    account.name.as_str() == name
}

fn trim(accounts: &mut Items<Account>)
    ensures { accounts.new ≡ trimmed accounts.old }
{
    if accounts.len() > MOST {
        accounts.remove(0);
    }
}
