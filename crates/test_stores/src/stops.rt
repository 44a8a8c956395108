//! Lines that are sent over files that stop or fail at one of their calls after the other, compared with what lists answer.

use crate::files::{Frail, are_same, copies, left_by, read_files};
use crate::looks::{audited, count_kept};
use crate::stage::{Stage, close};
use sqlite::{Alter, Files};
use sqlite_disk::Disk;
use std::alloc::{AllocError, Global};
use std::fmt::Display;
use std::io;
use tb_calls::Keep;
use tb_desk::{Desk, ListKeep};
use tb_keeper::SqlKeep;
use test_scenes::Owner;
use test_scenes::lines::{answer_line, read_count, unreadable};

/// The lines that show the boards and their histories: as the first person sees them, whether that person has the key `root-key-2`, and as
/// another person sees them.
const LOOKS: [&str; 6] = [
    "20260201T000000Z\troot\troot-key-1\t00000009-0000-8000-8000-000000000999\texport\t1",
    "20260201T000000Z\troot\troot-key-1\t00000009-0000-8000-8000-000000000999\texport\t2",
    "20260201T000000Z\troot\troot-key-1\t00000009-0000-8000-8000-000000000999\thistory\t1",
    "20260201T000000Z\troot\troot-key-1\t00000009-0000-8000-8000-000000000999\thistory\t2",
    "20260201T000000Z\troot\troot-key-2\t00000009-0000-8000-8000-000000000999\tme",
    "20260201T000000Z\tbob\tbob-key-01\t00000009-0000-8000-8000-000000000999\tlist\t1",
];

/// What a store is told to answer that has failed.
const FAILED: &str = "Store";

/// Sends lines over files that go one way after no call, after one and so on, for the words `WAY`. For `WAY WAY STEP` they go the second
/// way behind that, both after numbers of calls that are so far apart. Tells how often a file went its way.
pub(crate) fn stop_each<D: Frail>(owner: &Owner, lines: &[&str], words: &str) -> io::Result<u64> {
    let trial = Trial::<D>::new(owner, lines)?;
    match words.split_once(' ') {
        None => trial.stop_once(words, 0, 1),
        Some((first, rest)) => {
            let (second, step) = rest.split_once(' ').ok_or(unreadable())?;
            trial.stop_twice(first, second, read_count(step)? as u64)
        }
    }
}

/// Sends lines over files that go one way, after some numbers of calls, so far apart; which these are depends on how many bytes are sent.
pub(crate) fn stop_at_some<D: Frail>(
    owner: &Owner,
    lines: &[&str],
    bytes: usize,
    step: u64,
) -> io::Result<()> {
    let way = match bytes % 4 {
        0 => "log",
        1 => "file",
        2 => "log_once",
        _ => "file_once",
    };
    let first = (bytes as u64).checked_rem(step).unwrap_or(0);
    Trial::<D>::new(owner, lines)?.stop_once(way, first, step)?;
    Ok(())
}

/// Files behind some sessions, in each of which the same lines were sent.
#[derive(Drop)]
struct Trial<'t, D: Disk> {
    owner: &'t Owner,
    lines: &'t [&'t str],
    /// What stands of all that was sent.
    stood: Vec<&'t str>,
    files: Files<D>,
    /// In the last session all lines were answered, and no call failed.
    is_whole: bool,
}

/// What a desk answers to lines.
fn answers_to<K: Keep>(
    alloc: Global,
    desk: &mut Desk<K>,
    lines: &[&str],
) -> Result<String, AllocError> {
    let mut all = String::new(alloc);
    for line in lines {
        all.push_str(&answer_line(alloc, desk, line)?)?;
    }
    Ok(all)
}

/// What is seen of the boards of a keeper, and how many of the lines have a kept reply.
fn seen_in<K: Keep + Drop>(
    alloc: Global,
    mut keep: K,
    lines: &[&str],
) -> Result<(K, String), AllocError> {
    let mut seen = count_kept(alloc, &mut keep, lines)?;
    let mut desk = Desk::new(keep);
    seen.push_str(&answers_to(alloc, &mut desk, &LOOKS)?)?;
    Ok((desk.into_keep(), seen))
}

/// How a line ended: answered as lists answer it, refused since it is no line, or unanswered by a keeper that has failed.
#[derive(Clone, Copy, PartialEq)]
enum End {
    Answered,
    Refused,
    Failed,
}

/// Sends a line to a desk, and to one over lists, which has to answer the same.
fn send_line<K: Keep>(
    alloc: Global,
    desk: &mut Desk<K>,
    lists: &mut Desk<ListKeep>,
    line: &str,
) -> io::Result<End> {
    let told = answer_line(alloc, desk, line)?;
    let wanted = answer_line(alloc, lists, line)?;
    if told.as_str() == FAILED {
        Ok(End::Failed)
    } else if told.as_str() != wanted.as_str() {
        Err(io::Error::other("an answer that is not of the lists"))
    } else if wanted.starts_with("400 - ") {
        Ok(End::Refused)
    } else {
        Ok(End::Answered)
    }
}

/// What is seen of a store, where an audit of it has no fault.
fn seen_in_store<S: Alter + Drop>(
    alloc: Global,
    keep: SqlKeep<S>,
    lines: &[&str],
) -> io::Result<(SqlKeep<S>, String)> {
    let (mut keep, seen) = seen_in(alloc, keep, lines)?;
    if audited(alloc, &mut keep)?.ends_with(", faults 0") {
        Ok((keep, seen))
    } else {
        Err(io::Error::other("the audit has faults"))
    }
}

impl<'t, D: Frail> Trial<'t, D> {
    /// New files, to which nothing was sent.
    fn new(owner: &'t Owner, lines: &'t [&'t str]) -> io::Result<Trial<'t, D>> {
        Ok(Trial {
            owner,
            lines,
            stood: Vec::new(owner.alloc),
            files: read_files(owner.alloc, "")?,
            is_whole: true,
        })
    }

    /// Sends the lines once more, after each number of calls from the first on, in steps, up to one that isn't come to. Behind each stop all
    /// have to be answered, which is tried once where the last stop left the same.
    fn stop_once(&self, way: &str, first: u64, step: u64) -> io::Result<u64> {
        let mut last: Option<Trial<'t, D>> = None;
        for count in 0..u64::MAX {
            let calls = first.saturating_add(count.saturating_mul(step));
            let stopped = self.session(way, calls)?;
            if stopped.is_whole {
                return Ok(count);
            }
            let is_tried = match &last {
                Some(before) => before.left_as(&stopped),
                None => false,
            };
            if !is_tried && !stopped.session("", 0)?.is_whole {
                let what = "not all are answered again";
                return Err(fault_after(self.owner.alloc, way, calls, &what));
            }
            last = Some(stopped);
        }
        Ok(u64::MAX)
    }

    fn stop_twice(&self, first: &str, second: &str, step: u64) -> io::Result<u64> {
        let mut tried = Vec::new(self.owner.alloc);
        let mut count = 0u64;
        for turn in 0..u64::MAX {
            let from = turn.checked_rem(step).ok_or(unreadable())?;
            let stopped = self.session(first, turn.saturating_mul(step))?;
            if stopped.is_whole {
                break;
            }
            count = count.saturating_add(stopped.stop_behind(&mut tried, second, from, step)?);
        }
        Ok(count)
    }

    /// How often a file goes the second way behind this stop, from a number of calls on: the sessions that follow depend on what it left
    /// alone, so they aren't gone through again where an earlier stop, from the same number on, left the same.
    fn stop_behind(
        self,
        tried: &mut Vec<(Trial<'t, D>, u64, u64)>,
        second: &str,
        from: u64,
        step: u64,
    ) -> io::Result<u64> {
        for (trial, earlier, count) in tried.as_slice() {
            if *earlier == from && trial.left_as(&self) {
                return Ok(*count);
            }
        }
        let count = self.stop_once(second, from, step)?;
        tried.push((self, from, count))?;
        Ok(count)
    }

    /// Whether two trials of the same lines, behind sessions that are the same, left the same bytes, and the same lines stand.
    fn left_as(&self, other: &Trial<'t, D>) -> bool {
        self.stood.len() == other.stood.len() && are_same(&self.files, &other.files)
    }

    /// Sends the lines over files with the same content, of which one goes this way after so many calls.
    fn session(&self, way: &str, calls: u64) -> io::Result<Trial<'t, D>> {
        let alloc = self.owner.alloc;
        match self.send(copies(alloc, &self.files, way, calls)?) {
            Ok(trial) => Ok(trial),
            Err(error) => Err(fault_after(alloc, way, calls, &error)),
        }
    }

    /// Sends the lines over these files. When they are opened again the audit has no fault, and as many lines stand as were answered, or one more.
    fn send(&self, files: Files<D>) -> io::Result<Trial<'t, D>> {
        let (stage, _) = Stage::Files(files).open_frail(self.owner, "open")?;
        let (files, answered, is_whole) = self.send_to(stage)?;
        let (left, has_failed) = left_by(files);
        let (files, seen) = self.look(left)?;
        Ok(Trial {
            owner: self.owner,
            lines: self.lines,
            stood: self.standing(&seen, answered)?,
            files,
            is_whole: is_whole && !has_failed,
        })
    }

    /// Sends the lines over these files where they are a store, and closes it. Tells how many are answered before it fails, and whether all
    /// are and it is closed.
    fn send_to(&self, stage: Stage<D>) -> io::Result<(Files<D>, usize, bool)> {
        match stage {
            Stage::Store(keep) => {
                let (keep, answered, has_failed) = self.send_each(keep)?;
                let (files, word) = close(keep.close());
                Ok((files, answered, !has_failed && word.is_empty()))
            }
            stage => Ok((stage.into_files(), 0, false)),
        }
    }

    /// Sends the lines to a keeper, and to lists. Tells how many are answered before the keeper fails, and whether it does.
    fn send_each<K: Keep + Drop>(&self, keep: K) -> io::Result<(K, usize, bool)> {
        let (mut desk, mut lists) = (Desk::new(keep), self.lists()?);
        let (mut answered, mut has_failed) = (0usize, false);
        for line in self.lines {
            let end = send_line(self.owner.alloc, &mut desk, &mut lists, line)?;
            has_failed = has_failed || end == End::Failed;
            if !has_failed {
                answered = answered.saturating_add(1);
            } else if end == End::Answered {
                return Err(io::Error::other("a store that has failed answers"));
            }
        }
        Ok((desk.into_keep(), answered, has_failed))
    }

    /// What is seen in the files, where an audit has no fault. They are stopped then.
    fn look(&self, files: Files<D>) -> io::Result<(Files<D>, String)> {
        match Stage::Files(files).open(self.owner, "open") {
            (Stage::Store(keep), _) => {
                let (keep, seen) = seen_in_store(self.owner.alloc, keep, self.lines)?;
                Ok((Stage::Store(keep).stop().into_files(), seen))
            }
            (_, word) => Err(io::Error::other(word)),
        }
    }

    /// What stands, where this is seen after so many answers.
    fn standing(&self, seen: &str, answered: usize) -> io::Result<Vec<&'t str>> {
        for count in [answered, answered.saturating_add(1)] {
            let Some(front) = self.lines.get(..count) else {
                continue;
            };
            if self.wanted(front)?.as_str() == seen {
                let mut stood = Vec::from_slice(self.owner.alloc, self.stood.as_slice())?;
                stood.extend_from_slice(front)?;
                return Ok(stood);
            }
        }
        Err(io::Error::other("another state stands"))
    }

    /// What is seen of lists that were sent what stands, and then these lines.
    fn wanted(&self, lines: &[&str]) -> io::Result<String> {
        let mut lists = self.lists()?;
        answers_to(self.owner.alloc, &mut lists, lines)?;
        Ok(seen_in(self.owner.alloc, lists.into_keep(), self.lines)?.1)
    }

    /// A desk over lists, which was sent what stands.
    fn lists(&self) -> io::Result<Desk<ListKeep>> {
        let mut desk = Desk::new(self.owner.lists()?);
        answers_to(self.owner.alloc, &mut desk, self.stood.as_slice())?;
        Ok(desk)
    }
}

/// An error that tells which way a file went.
pub(crate) fn fault_after<T: Display>(alloc: Global, way: &str, calls: u64, what: &T) -> io::Error {
    match format!(in alloc; "{way} after {calls} calls: {what}") {
        Ok(text) => io::Error::other(text.as_str()),
        Err(error) => error.into(),
    }
}
