//! The opening of a store of the first version, stopped or failed at one of its calls after the other.

use crate::files::{Frail, WAYS, copies, left_by};
use crate::stage::Stage;
use crate::steps::Steps;
use crate::stops::fault_after;
use sqlite::Files;
use std::io;
use test_scenes::Owner;
use test_scenes::lines::unreadable;

/// The steps that show all of a store: its audit, the boards and a history as two people see them, and the rows of its tables.
const SEEN: [&str; 7] = [
    "take",
    "audit",
    "20260201T000000Z\troot\troot-key-1\t00000009-0000-8000-8000-000000000999\texport\t1",
    "20260201T000000Z\troot\troot-key-1\t00000009-0000-8000-8000-000000000999\texport\t2",
    "20260201T000000Z\troot\troot-key-1\t00000009-0000-8000-8000-000000000999\thistory\t1",
    "20260201T000000Z\tbob\tbob-key-01\t00000009-0000-8000-8000-000000000999\texport\t3",
    "rows",
];

/// Opens the store of copies of these files, of which one goes this way after no call, after one and so on, up to a number that isn't come
/// to. Opened again, they show what they show where nothing fails. Tells how often a file went its way.
pub(crate) fn open_each<D: Frail>(owner: &Owner, files: &Files<D>, way: &str) -> io::Result<u64> {
    if !WAYS.contains(&way) {
        return Err(unreadable());
    }
    let wanted = look(owner, copies(owner.alloc, files, "", 0)?)?;
    for calls in 0..u64::MAX {
        let copied = copies(owner.alloc, files, way, calls)?;
        let (stage, word) = Stage::Files(copied).open_frail(owner, "take")?;
        let (left, has_failed) = left_by(stage.into_files());
        if look(owner, left)?.as_str() != wanted.as_str() {
            return Err(fault_after(owner.alloc, way, calls, &"it shows otherwise"));
        }
        if word.is_empty() && !has_failed {
            return Ok(calls);
        }
    }
    Ok(u64::MAX)
}

/// What the store of these files shows.
fn look<D: Frail>(owner: &Owner, files: Files<D>) -> io::Result<String> {
    let mut steps = Steps::new(owner);
    let mut stage = Stage::Files(files);
    for step in SEEN {
        stage = steps.take(stage, step)?;
    }
    Ok(steps.told.text)
}
