//! Two files in memory, a log and a database file, of which one stops or fails.

use crate::hiccup::Hiccup;
use sqlite::Files;
use sqlite_disk::{Crash, Disk, Fuse, Memory};
use std::alloc::Global;
use std::io;
use test_scenes::lines::{read_count, unreadable};

/// The ways of a file: it stops after some calls, or fails the call behind these and goes on.
pub(crate) const WAYS: [&str; 4] = ["log", "file", "log_once", "file_once"];

/// A file in memory that may stop, and may fail one call.
pub(crate) trait Frail: Crash + Drop {
    /// A file with this content, with so many calls until it stops, and so many until it fails one.
    fn holding(content: Memory, until_stop: u64, until_failure: u64) -> Self;

    fn bytes(&self) -> &[u8];

    /// Whether it has failed a call by itself.
    fn has_failed(&self) -> bool;
}

/// The file over which all is played. What handles files is proved for any that are frail, which is cheaper than for this one.
pub(crate) type FrailMemory = Hiccup<Fuse<Memory>>;

impl Frail for FrailMemory {
    fn holding(content: Memory, until_stop: u64, until_failure: u64) -> FrailMemory {
        Hiccup::new(Fuse::new(content, until_stop), until_failure)
    }

    fn bytes(&self) -> &[u8] {
        self.inner().inner().bytes()
    }

    fn has_failed(&self) -> bool {
        self.has_hiccuped()
    }
}

/// New files, with which nothing happens, or what the words `WAY CALLS` say.
pub(crate) fn read_files<D: Frail>(alloc: Global, words: &str) -> io::Result<Files<D>> {
    let (way, calls) = match words.split_once(' ') {
        None if words.is_empty() => ("", 0),
        Some((way, calls)) if WAYS.contains(&way) => (way, read_count(calls)? as u64),
        _ => return Err(unreadable()),
    };
    Ok(going(Memory::new(alloc), Memory::new(alloc), way, calls))
}

/// Files of which one goes this way after so many calls.
fn going<D: Frail>(log: Memory, db: Memory, way: &str, calls: u64) -> Files<D> {
    let after = |one| if one == way { calls } else { u64::MAX };
    Files {
        log: D::holding(log, after("log"), after("log_once")),
        db: D::holding(db, after("file"), after("file_once")),
    }
}

/// Files with the same content, of which one goes this way after so many calls.
pub(crate) fn copies<D: Frail>(
    alloc: Global,
    files: &Files<D>,
    way: &str,
    calls: u64,
) -> io::Result<Files<D>> {
    let log = content(alloc, files.log.bytes())?;
    let db = content(alloc, files.db.bytes())?;
    Ok(going(log, db, way, calls))
}

fn content(alloc: Global, bytes: &[u8]) -> io::Result<Memory> {
    let mut memory = Memory::new(alloc);
    memory.write_at(0, bytes)?;
    memory.sync()?;
    Ok(memory)
}

/// Whether two pairs of files hold the same bytes.
pub(crate) fn are_same<D: Frail>(files: &Files<D>, others: &Files<D>) -> bool {
    files.log.bytes() == others.log.bytes() && files.db.bytes() == others.db.bytes()
}

/// The files as the next session finds them, and whether a call of them failed: those of which one failed once as they are, where they may
/// be used, and others as a machine that comes back finds them.
pub(crate) fn left_by<D: Frail>(files: Files<D>) -> (Files<D>, bool) {
    let has_failed = files.log.has_failed() || files.db.has_failed();
    if has_failed && files.may_be_used() {
        (files, has_failed)
    } else {
        (stopped(files), has_failed)
    }
}

/// The files after a stop of the machine. From then on they don't stop.
pub(crate) fn stopped<D: Crash>(mut files: Files<D>) -> Files<D> {
    files.log.crash();
    files.db.crash();
    files
}
