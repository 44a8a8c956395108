//! Scenes, each over lists of its own.

use std::io;
use test_scenes::{Owner, play_over_lists, read_scenes};

/// Plays the scenes of a file, and tells how many there are.
pub(crate) fn run(owner: &Owner, text: &str) -> io::Result<String> {
    let scenes = read_scenes(owner.alloc, text)?;
    let mut orders = 0usize;
    for (index, scene) in scenes.iter().enumerate() {
        match play_over_lists(owner, scene.as_slice()) {
            Ok(count) => orders = orders.saturating_add(count),
            Err(error) => return Ok(format!(in owner.alloc; "in scene {index}: {error}")?),
        }
    }
    let count = scenes.len();
    match orders {
        0 => Ok(format!(in owner.alloc; "scenes as written: {count}")?),
        _ => Ok(format!(in owner.alloc; "scenes as written: {count}, in {orders} orders")?),
    }
}
