//! Tags in byte order.
ghost use Rattle.std.specs.Prelude.{◌≡◌, IfOk};
ghost use Rattle.tb_todotxt.specs.Tags.{in_order as ordered};

use std::alloc::{AllocError, Global};
use tb_values::{Ordered, Text, TextSet};

/// The tags in byte order, each once. Many tags cost no more than their sorting.
pub(crate) fn in_order(alloc: Global, tags: &[Text]) -> Result<Ordered<Text>, AllocError>
    ensures { IfOk result (λ list. list ≡ ordered tags.now) }
{
    let mut set = TextSet::new(alloc);
    for tag in tags {
        set.insert(alloc, tag.as_str())?;
    }
    set.into_ordered(alloc)
}
