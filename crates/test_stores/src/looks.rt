//! What an open store shows: its audit, the boards at hand, kept replies, exports, and the rows that it lends.

use sqlite::Alter;
use std::alloc::{AllocError, Global};
use std::io;
use tb_board::{Key, Name};
use tb_calls::{Keep, Reply, View};
use tb_desk::Desk;
use tb_keeper::{Lent, SqlKeep, StoredRow};
use tb_task::{Moment, TaskId};
use test_scenes::Owner;
use test_scenes::lines::unreadable;

/// The last board that may be told to be at hand.
const LAST: u32 = 20;

/// The line of an audit.
pub(crate) fn audited<S: Alter>(
    alloc: Global,
    keep: &mut SqlKeep<S>,
) -> Result<String, AllocError> {
    let Ok(found) = keep.audit(alloc) else {
        return String::from_str(alloc, "NotAudited");
    };
    let (boards, tasks, faults) = (found.boards, found.tasks, found.faults);
    format!(in alloc; "boards {boards}, tasks {tasks}, faults {faults}")
}

/// The boards at hand.
pub(crate) fn at_hand<S: Alter>(alloc: Global, keep: &SqlKeep<S>) -> Result<String, AllocError> {
    let mut told = String::new(alloc);
    for number in 1..=LAST {
        if keep.cached(number).is_some() {
            let gap = if told.is_empty() { "" } else { " " };
            write!(told, "{gap}{number}")?;
        }
    }
    if told.is_empty() {
        told.push_str("none")?;
    }
    Ok(told)
}

/// How many of these lines have a kept reply.
pub(crate) fn count_kept<K: Keep>(
    alloc: Global,
    keep: &mut K,
    lines: &[&str],
) -> Result<String, AllocError> {
    let mut count = 0usize;
    for line in lines {
        if is_kept(alloc, keep, line).unwrap_or(false) {
            count = count.saturating_add(1);
        }
    }
    format!(in alloc; "{count} of {}", lines.len())
}

/// Whether a reply is kept for a line, which names its sender and its identifier.
fn is_kept<K: Keep>(alloc: Global, keep: &mut K, line: &str) -> Option<bool> {
    let mut fields = line.split('\t').skip(1);
    let name = Name::read(alloc, fields.next()?).ok()??;
    let id = TaskId::read(fields.skip(1).next()?)?;
    Some(matches!(keep.kept(alloc, &name, id), Ok(Some(_))))
}

/// The export of a board at a moment, `MOMENT BOARD`, as it is written from the rows, and whether the owner is shown the same.
pub(crate) fn exported<S: Alter + Drop>(
    owner: &Owner,
    mut keep: SqlKeep<S>,
    words: &str,
) -> io::Result<(SqlKeep<S>, String)> {
    let (moment, board) = words.split_once(' ').ok_or(unreadable())?;
    let at = Moment::read(moment.as_bytes()).ok_or(unreadable())?;
    let board = read_number(board)?;
    let mut text = Vec::new(owner.alloc);
    match keep.export(owner.alloc, board, at, &mut text) {
        Ok(count) => {
            let mut desk = Desk::new(keep);
            let word = compare_view(owner, &mut desk, board, at, text.as_slice());
            let text = str::from_utf8(text.as_slice()).unwrap_or("NotText");
            let told = format!(in owner.alloc; "{count} tasks, {word}\n{text}")?;
            Ok((desk.into_keep(), told))
        }
        Err(fault) => {
            let count = text.len();
            Ok((
                keep,
                format!(in owner.alloc; "{fault:?} behind {count} bytes")?,
            ))
        }
    }
}

/// Whether the owner is shown these bytes as the export of a board at a moment.
fn compare_view<K: Keep>(
    owner: &Owner,
    desk: &mut Desk<K>,
    board: u32,
    at: Moment,
    text: &[u8],
) -> &'static str {
    let view = View::Export(board);
    match desk.view(owner.alloc, &owner.name, &owner.key, &view, at) {
        Ok(reply) if reply.body.as_str().as_bytes() == text => "as viewed",
        _ => "not as viewed",
    }
}

/// The rows of a board that the store lends, `BOARD COUNT`, so many at most, behind which they are let go: place, mask and description.
pub(crate) fn lent<S: Alter>(
    alloc: Global,
    keep: &mut SqlKeep<S>,
    words: &str,
) -> io::Result<String> {
    let (board, count) = words.split_once(' ').ok_or(unreadable())?;
    let (board, count) = (read_number(board)?, read_number(count)?);
    match keep.rows(board) {
        Ok(mut lent) => Ok(lent_rows(alloc, &mut lent, count)?),
        Err(fault) => Ok(format!(in alloc; "{fault:?}")?),
    }
}

fn lent_rows<S: Alter>(
    alloc: Global,
    lent: &mut Lent<'_, S>,
    count: u32,
) -> Result<String, AllocError> {
    let mut told = String::new(alloc);
    for _ in 0..count {
        match lent.next(alloc) {
            Ok(Some(row)) => push_row(&mut told, &row)?,
            Ok(None) => {
                told.push_str("no more")?;
                break;
            }
            Err(fault) => {
                write!(told, "{fault:?}")?;
                break;
            }
        }
    }
    Ok(told)
}

fn push_row(told: &mut String, row: &StoredRow) -> Result<(), AllocError> {
    let mask = match &row.mask {
        Some(mask) => mask.as_str(),
        None => "none",
    };
    let (place, description) = (row.place, row.task.description.as_str());
    writeln!(told, "{place} {mask} {description}")
}

/// What a person with a key is told who asks for an export, `NAME KEY BOARD`, where it is refused.
pub(crate) fn admission<K: Keep>(
    alloc: Global,
    desk: &mut Desk<K>,
    words: &str,
) -> io::Result<String> {
    let (name, rest) = words.split_once(' ').ok_or(unreadable())?;
    let (key, board) = rest.split_once(' ').ok_or(unreadable())?;
    let name = Name::read(alloc, name)?.ok_or(unreadable())?;
    let key = Key::read(alloc, key)?.ok_or(unreadable())?;
    let view = View::Export(read_number(board)?);
    Ok(match desk.admits(alloc, &name, &key, &view) {
        Ok(None) => String::from_str(alloc, "accepted")?,
        Ok(Some(refusal)) => line_of(alloc, &refusal)?,
        Err(fault) => format!(in alloc; "{fault:?}")?,
    })
}

/// A reply as the line of a script is answered.
fn line_of(alloc: Global, reply: &Reply) -> Result<String, AllocError> {
    let (status, number, body) = (reply.status, reply.number, reply.body.as_str());
    format!(in alloc; "{status} {number} {body}")
}

fn read_number(text: &str) -> io::Result<u32> {
    text.parse::<u32>().or(Err(unreadable()))
}
