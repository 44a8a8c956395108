//! A file of boards and the log beside it, before they are opened.
ghost use Rattle.std.specs.Prelude.{IfOk};
ghost use Rattle.tb_wal.specs.Looking.{HasFault, IsFound};

use crate::log::{has_commit, is_damaged};
use std::alloc::AllocError;

/// Why a file of boards isn't opened with the log beside it.
#[derive(Clone, Copy, Debug, PartialEq, Eq)]
pub enum LogFault {
    /// The file isn't there, or is empty, and the log has commits.
    Left,
    /// Bytes of the log, before a commit that began later, aren't those that were written.
    Damaged,
    /// The file is younger than its log, which has commits: of another file, or of this one before it was restored.
    Foreign,
}

/// What is seen of a file and the log beside it.
#[derive(Drop)]
pub struct Seen {
    /// The file is there, and isn't empty.
    pub is_there: bool,
    /// It is younger than its log.
    pub is_younger: bool,
    /// The bytes of the log.
    pub log: Vec<u8>,
}

/// A file and the log beside it.
pub trait Beside {
    ghost use Rattle.std.specs.Prelude.{Bool, IfOk, List, ℕ};

    /// Whether the file is there, whether it is younger than its log, and the bytes of the log.
    ghost shows: { Self → Bool → Bool → List ℕ → Type 0 };

    fn look(&self) -> Result<Seen, AllocError>
        ensures { IfOk result
            (λ seen. shows self.now seen.is_there seen.is_younger seen.log.items) };

    /// The file was made for its owner alone, unless it was there or can't be made.
    ghost is_private: { Self → Type 0 };

    /// Makes the file, empty, where there is none. Its log is made with the same mode.
    fn make_private(&mut self)
        ensures { is_private self.new };
}

/// Looks at a file and its log.
pub fn find_log_fault<B: Beside>(beside: &B) -> Result<Option<LogFault>, AllocError>
    ensures { IfOk result (IsFound (B.shows beside.now)) }
{
    let seen = beside.look()?;
    Ok(fault_of(seen.is_there, seen.is_younger, seen.log.as_slice()))
}

fn fault_of(is_there: bool, is_younger: bool, log: &[u8]) -> Option<LogFault>
    ensures { HasFault is_there is_younger log.now result }
{
    let has_commit = has_commit(log);
    if !is_there && has_commit {
        return Some(LogFault::Left);
    }
    if is_damaged(log) {
        return Some(LogFault::Damaged);
    }
    if is_younger && has_commit {
        return Some(LogFault::Foreign);
    }
    None
}
