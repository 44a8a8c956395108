//! Stores in files that stop or fail, that another hand changes and that are opened again, and lines that are answered over stores.
//!
//! It owns the steps over such files, as they are read from a file of steps, and the sessions that are stopped at each call of a disk;
//! `crates/tests/data/README.md` says what they mean. It stands on `tb_keeper` and `tb_sql` for stores, and on `sqlite_disk` for disks.
#![tactic(auto)]

mod files;
mod hiccup;
mod looks;
mod openings;
mod stage;
mod steps;
mod stops;
mod store;
mod tables;

use files::FrailMemory;
use std::io;
pub use store::answer_in;
use test_scenes::Owner;

/// Takes the steps of a file. What is told of them, with the lines for readers, has to be the file.
pub fn run_steps(owner: &Owner, text: &str) -> io::Result<()> {
    steps::take_all::<FrailMemory>(owner, text)
}

/// Sends lines over files that stop or fail, as these words say, at one of their calls after the other, and tells how often they did.
pub fn stop_each(owner: &Owner, lines: &[&str], words: &str) -> io::Result<u64> {
    stops::stop_each::<FrailMemory>(owner, lines, words)
}

/// The same in one way, at calls that are so far apart; which these are depends on how many bytes are sent.
pub fn stop_at_some(owner: &Owner, lines: &[&str], bytes: usize, step: u64) -> io::Result<()> {
    stops::stop_at_some::<FrailMemory>(owner, lines, bytes, step)
}
