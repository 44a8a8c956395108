ghost use Rattle.std.specs.Prelude.{◌≡◌, [], IfOk, OnErr, OnOk};
ghost use Rattle.std.specs.BTreeSet.{insert_key};
ghost use Rattle.std.specs.Cmp.Lexicographic.{slice_cmp};
ghost use Rattle.std.specs.Ordering.{nat_cmp};

use crate::items::Items;
use crate::ordered::Ordered;
use crate::text::Text;
use std::alloc::{AllocError, Global};
use std::collections::BTreeSet;
use std::marker::Model;

/// Texts that come in any order, each kept once. A contract sees them in byte order. Many texts cost no more than their sorting.
#[derive(Drop)]
pub struct TextSet {
    texts: BTreeSet<String>,
}

impl Model for TextSet {
    ghost use Rattle.std.specs.Prelude.{ℕ, List, map};
    ghost use Rattle.std.specs.String.{string_bytes};

    ghost Value = { List (List ℕ) };

    ghost view = { λ s. map string_bytes s.texts.keys };
}

impl TextSet {
    pub fn new(alloc: Global) -> TextSet
        ensures { result ≡ [] }
    {
        TextSet {
            texts: BTreeSet::new(alloc),
        }
    }

    /// Puts the text at its place in byte order, unless it is there. Out of memory, nothing changes.
    pub fn insert(&mut self, alloc: Global, text: &str) -> Result<(), AllocError>
        ensures ok { OnOk result (self.new ≡ insert_key (slice_cmp nat_cmp) self.old text.now) }
        ensures err { OnErr result (self.new ≡ self.old) }
    {
        self.texts.insert(String::from_str(alloc, text)?)?;
        Ok(())
    }

    /// The texts, which are in byte order.
    pub fn into_ordered(self, alloc: Global) -> Result<Ordered<Text>, AllocError>
        ensures { IfOk result (λ list. list ≡ self) }
    {
        let TextSet { texts } = self;
        let mut list = Items::new(alloc);
        for text in texts {
            list.push(Text::from_string(text))?;
        }
        Ok(Ordered::from_increasing(list))
    }
}
