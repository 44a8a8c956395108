//! The tags of a task after some are added and some are taken.
ghost use Rattle.std.specs.Prelude.{◌≡◌, ◌++◌, IfOk};
ghost use Rattle.tb_my.specs.Tags.{is_among, kept_tags, tags_after};

use std::alloc::{AllocError, Global};
use tb_values::{Duplicate, Items, Text};

/// Those that aren't taken, and those that are added.
pub(crate) fn tags_after(
    alloc: Global,
    tags: &[Text],
    added: &[Text],
    taken: &[Text],
) -> Result<Items<Text>, AllocError>
    ensures { IfOk result (λ after. after ≡ tags_after tags.now added.now taken.now) }
{
    let mut after = kept_tags(alloc, tags, taken)?;
    for tag in added {
        after.push(tag.duplicate()?)?;
    }
    Ok(after)
}

fn kept_tags(alloc: Global, tags: &[Text], taken: &[Text]) -> Result<Items<Text>, AllocError>
    ensures { IfOk result (λ kept. kept ≡ kept_tags tags.now taken.now) }
{
    let mut kept = Items::new(alloc);
    for tag in tags {
        if !is_among(tag, taken) {
            kept.push(tag.duplicate()?)?;
        }
    }
    Ok(kept)
}

pub(crate) fn is_among(tag: &Text, tags: &[Text]) -> bool
    ensures { result ≡ is_among tag.now tags.now }
{
    for other in tags {
        if tag.is(other) {
            return true;
        }
    }
    false
}
