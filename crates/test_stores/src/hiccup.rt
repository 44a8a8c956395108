//! A disk that fails one of its calls, and goes on as if nothing had been.

ghost use Rattle.std.specs.Prelude.{◌≡◌, ◌==◌, ◌+◌, ◌-◌, ◌^◌, ◌↔◌, ◌&&◌, not, false, IsErr, OnErr};
ghost use Rattle.sqlite_disk.specs.Disk.{CountsFault};
ghost use Rattle.sqlite_disk.specs.Refusal.{finds_no_room};

use sqlite_disk::{Crash, Disk, Tally};
use std::io;

/// Fails the call behind so many others, which does nothing then. After a sync that failed the file has to be opened again.
#[derive(Drop)]
pub(crate) struct Hiccup<D: Disk> {
    inner: D,
    calls_left: u64,
    failed: u64,
    sync_failed: bool,
}

impl<D: Disk> Hiccup<D> {
    pub(crate) fn new(inner: D, calls: u64) -> Hiccup<D>
        ensures inner { result.inner ≡ inner }
        ensures calls { result.calls_left ≡ calls }
        ensures fresh { result.failed ≡ 0 }
        ensures usable { result.sync_failed ≡ false }
    {
        Hiccup {
            inner,
            calls_left: calls,
            failed: 0,
            sync_failed: false,
        }
    }

    pub(crate) fn inner(&self) -> &D
        ensures { result.now ≡ self.now.inner }
    {
        &self.inner
    }

    /// Whether it has failed a call by itself.
    pub(crate) fn has_hiccuped(&self) -> bool
        ensures { result ≡ not (self.now.failed == 0) }
    {
        self.failed != 0
    }
}

/// Comes to the next call.
fn call(calls_left: &mut u64, failed: &mut u64) -> io::Result<()>
    ensures faults { CountsFault result failed.old failed.new }
    ensures kind { finds_no_room result ≡ false }
    ensures fails { IsErr result ↔ (calls_left.old ≡ 0) }
    ensures goes_on { OnErr result (calls_left.new ≡ 2 ^ 64 - 1) }
{
    if *calls_left == 0 {
        *calls_left = u64::MAX;
        *failed = failed.saturating_add(1);
        return Err(io::Error::other("the call fails"));
    }
    *calls_left -= 1;
    Ok(())
}

impl<D: Disk> Disk for Hiccup<D> {
    ghost seen = { λ h. D.Disk.seen h.inner };

    ghost may_leave = { λ h. D.Disk.may_leave h.inner };

    ghost is_usable = { λ h. D.Disk.is_usable h.inner && not h.sync_failed };

    ghost faults = { λ h. D.Disk.faults h.inner + h.failed };

    ghost tally_of = { λ h. D.Disk.tally_of h.inner };

    ghost is_rotten = { λ h. D.Disk.is_rotten h.inner };

    ghost key_of = { λ h. D.Disk.key_of h.inner };

    ghost is_clean = { λ h. D.Disk.is_clean h.inner };

    ghost is_fair = { λ h. D.Disk.is_fair h.inner };

    ghost fair_if_clean = { λ h. D.Disk.fair_if_clean h.inner };

    ghost seen_may_stay = { λ h. D.Disk.seen_may_stay h.inner };

    ghost is_mixing = { λ h. D.Disk.is_mixing h.inner };

    fn mixes(&self) -> bool {
        self.inner.mixes()
    }

    fn key(&self) -> u64 {
        self.inner.key()
    }

    fn tally(&self) -> Tally {
        self.inner.tally()
    }

    fn may_be_used(&self) -> bool {
        self.inner.may_be_used() && !self.sync_failed
    }

    fn len(&mut self) -> io::Result<usize> {
        call(&mut self.calls_left, &mut self.failed)?;
        self.inner.len()
    }

    fn read_at(&mut self, at: usize, buf: &mut [u8]) -> io::Result<()> {
        call(&mut self.calls_left, &mut self.failed)?;
        self.inner.read_at(at, buf)
    }

    fn read_checked(&mut self, key: u64, want: u64, at: usize, buf: &mut [u8]) -> io::Result<()> {
        call(&mut self.calls_left, &mut self.failed)?;
        self.inner.read_checked(key, want, at, buf)
    }

    fn write_at(&mut self, at: usize, bytes: &[u8]) -> io::Result<()> {
        call(&mut self.calls_left, &mut self.failed)?;
        self.inner.write_at(at, bytes)
    }

    fn set_len(&mut self, len: usize) -> io::Result<()> {
        call(&mut self.calls_left, &mut self.failed)?;
        self.inner.set_len(len)
    }

    fn sync(&mut self) -> io::Result<()> {
        if let Err(error) = call(&mut self.calls_left, &mut self.failed) {
            self.sync_failed = true;
            return Err(error);
        }
        self.inner.sync()
    }
}

/// The machine comes back, and no call fails any more.
impl<D: Crash> Crash for Hiccup<D> {
    fn crash(&mut self) {
        self.inner.crash();
        self.calls_left = u64::MAX;
        self.sync_failed = false;
    }
}
