//! What a log says before it is opened.
ghost use Rattle.std.specs.Prelude.{◌≡◌, ◌+◌, ◌<◌, ◌≤◌, ◌↔◌, ℕ, IsTrue, length};
ghost use Rattle.sqlite_wal.specs.Recovery.{frame_at};
ghost use Rattle.tb_wal.specs.Looking.{HasCommit, HasCommitOf, HasLostHeader, IsDamaged, IsTornInside};

use crate::frames::{
    FRAME_HEADER, HEADER, begins_commit, ends_commit, header_of, is_signed, number_at, passes,
};

/// The length of a page, where the header that would say it is lost.
const PAGE: usize = 4096;

/// Whether opening the file would take a commit from this log.
pub fn has_commit(log: &[u8]) -> bool
    ensures { IsTrue result ↔ HasCommit log.now }
{
    if log.len() < HEADER || !is_signed(header_of(log)) {
        return false;
    }
    has_commit_of(log, number_at(log, 8) as usize)
}

/// Whether bytes of this log, before a commit that began later, aren't those that were written.
pub fn is_damaged(log: &[u8]) -> bool
    ensures { IsTrue result ↔ IsDamaged log.now }
{
    if log.len() < HEADER {
        return false;
    }
    if !is_signed(header_of(log)) {
        return log[0] != 0 && log.len() >= HEADER + FRAME_HEADER + PAGE;
    }
    is_torn_inside(log, number_at(log, 8) as usize)
}

/// How many frames are in the log.
fn frames_in(log: &[u8], page_size: usize) -> usize
    requires header { 32 ≤ length log.now }
    requires page { page_size < 0x1_0000_0000 }
    ensures within { (i : ℕ) → i < result
        → frame_at page_size i + (24 + page_size) ≤ length log.now }
    ensures all { (i : ℕ) → frame_at page_size i + (24 + page_size) ≤ length log.now
        → i < result }
{
    (log.len() - HEADER) / (FRAME_HEADER + page_size)
}

fn has_commit_of(log: &[u8], page_size: usize) -> bool
    requires header { 32 ≤ length log.now }
    requires page { page_size < 0x1_0000_0000 }
    ensures { IsTrue result ↔ HasCommitOf page_size log.now }
{
    for place in 0..frames_in(log, page_size) {
        if ends_commit(log, page_size, place) {
            return true;
        }
        if !passes(log, page_size, place) {
            return false;
        }
    }
    false
}

fn is_torn_inside(log: &[u8], page_size: usize) -> bool
    requires header { 32 ≤ length log.now }
    requires page { page_size < 0x1_0000_0000 }
    ensures { IsTrue result ↔ IsTornInside page_size log.now }
{
    let mut is_torn = false;
    for place in 0..frames_in(log, page_size) {
        if is_torn && begins_commit(log, page_size, place) {
            return true;
        }
        is_torn = is_torn || !passes(log, page_size, place);
    }
    false
}
