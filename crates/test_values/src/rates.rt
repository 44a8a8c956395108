//! How long one waits, and which keys are known.

use crate::finding::Finding;
use crate::given::halves;
use std::alloc::Global;
use std::io;
use tb_rooms::{Bucket, Claims, Rate};

/// How long one has to wait after each charge: BURST PER_SECOND COST@MOMENT..
pub(crate) fn waits(alloc: Global, given: &str) -> Finding {
    let (burst, rest) = halves(given);
    let (per_second, steps) = halves(rest);
    let rate = Rate {
        burst: read_long(burst),
        per_second: read_long(per_second),
    };
    let mut bucket = Bucket::new();
    let mut told = String::from_str(alloc, "waits:")?;
    for step in steps.split_whitespace() {
        let (cost, moment) = step.split_once('@').unwrap_or((step, "0"));
        let now = read_long(moment);
        bucket = bucket.charged(rate, read_long(cost), now);
        write!(told, " {}", bucket.wait(rate, now))?;
    }
    Ok(told)
}

/// Which keys are known: `NAME=KEY` was right, `NAME-KEY` was wrong, and `NAME?KEY` asks.
pub(crate) fn keys(alloc: Global, given: &str) -> Finding {
    let mut claims = Claims::new(alloc);
    let mut told = String::from_str(alloc, "keys:")?;
    for step in given.split_whitespace() {
        take_step(alloc, &mut claims, &mut told, step)?;
    }
    Ok(told)
}

fn take_step(alloc: Global, claims: &mut Claims, told: &mut String, step: &str) -> io::Result<()> {
    if let Some((name, key)) = step.split_once('=') {
        claims.learn(alloc, name, key)?;
    } else if let Some((name, key)) = step.split_once('-') {
        claims.forget(name, key);
    } else if let Some((name, key)) = step.split_once('?') {
        let word = if claims.has(name, key) { "yes" } else { "no" };
        write!(told, " {word}")?;
    }
    Ok(())
}

fn read_long(text: &str) -> u64 {
    text.parse().unwrap_or(0)
}
