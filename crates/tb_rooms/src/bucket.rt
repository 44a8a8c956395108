//! How much was used of what may be used, and how long to wait for more.
ghost use Rattle.std.specs.Prelude.{◌≡◌};
ghost use Rattle.tb_rooms.specs.Bucket.{charged, is_due, untouched, used_at, wait};

/// How much may be used at once, and how much comes back in a second. Where none comes back, nothing is bounded.
#[derive(Clone, Copy, Debug, PartialEq, Eq)]
pub struct Rate {
    pub burst: u64,
    pub per_second: u64,
}

/// What was used and didn't come back yet, in thousandths, and when that was so.
#[derive(Clone, Copy, Debug, PartialEq, Eq)]
pub struct Bucket {
    pub used: u128,
    pub at: u64,
}

impl Bucket {
    /// Nothing was used yet.
    pub fn new() -> Bucket
        ensures { result ≡ untouched }
    {
        Bucket { used: 0, at: 0 }
    }

    /// What was used and didn't come back by this moment, in thousandths. No more comes back than was used.
    pub fn used_at(&self, rate: Rate, now: u64) -> u128
        ensures { result ≡ used_at rate self.now now }
    {
        let passed = u128::from(now.saturating_sub(self.at));
        self.used
            .saturating_sub(u128::from(rate.per_second) * passed)
    }

    /// Whether some is left, so that more may be used.
    pub fn is_due(&self, rate: Rate, now: u64) -> bool
        ensures { result ≡ is_due rate self.now now }
    {
        self.used_at(rate, now) < 1_000 * u128::from(rate.burst)
    }

    /// How many milliseconds to wait until some is left: 0 where it is, or where nothing is bounded.
    pub fn wait(&self, rate: Rate, now: u64) -> u64
        ensures { result ≡ wait rate self.now now }
    {
        if rate.per_second == 0 || self.is_due(rate, now) {
            return 0;
        }
        let over = self.used_at(rate, now) - 1_000 * u128::from(rate.burst);
        let millis = over / u128::from(rate.per_second);
        u64::try_from(millis).unwrap_or(u64::MAX).saturating_add(1)
    }

    /// The bucket once so much more was used. More than is left may be used: it is waited for afterwards.
    pub fn charged(&self, rate: Rate, cost: u64, now: u64) -> Bucket
        ensures { result ≡ charged rate self.now cost now }
    {
        Bucket {
            used: self
                .used_at(rate, now)
                .saturating_add(1_000 * u128::from(cost)),
            at: self.at.max(now),
        }
    }
}
