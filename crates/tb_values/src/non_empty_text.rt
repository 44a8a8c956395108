ghost use Rattle.std.specs.Prelude.{◌≡◌, ◌≤◌, [], length, IfOk, SomeIff};
ghost use Rattle.std.proofs.lemmas.Cmp.{nat_list_cmp_total};
ghost use Rattle.std.specs.Cmp.Lexicographic.{slice_cmp};
ghost use Rattle.std.specs.Ordering.{nat_cmp};

use crate::duplicate::Duplicate;
use crate::keyed::Keyed;
use crate::same::Same;
use crate::text::Text;
use std::alloc::{AllocError, Global};
use std::cmp::Ordering;
use std::marker::Model;

/// An owned text of one byte at least. A contract sees its bytes.
#[derive(Debug, Drop)]
pub struct NonEmptyText {
    text: Text,
}

impl Model for NonEmptyText {
    ghost use Rattle.std.specs.Prelude.{◌≤◌, ℕ, List, length};

    ghost Value = { List ℕ };

    ghost view = { λ t. t.text };

    ghost invariant = { λ t. 1 ≤ length t.text };
}

impl NonEmptyText {
    /// The text, if it has a byte.
    pub fn from_text(text: Text) -> Option<NonEmptyText>
        ensures { SomeIff result (1 ≤ length text) text }
    {
        if text.is_empty() {
            return None;
        }
        Some(NonEmptyText { text })
    }

    pub fn from_str(alloc: Global, text: &str) -> Result<Option<NonEmptyText>, AllocError>
        ensures { IfOk result (λ t. SomeIff t (1 ≤ length text.now) text.now) }
    {
        let text = Text::from_str(alloc, text)?;
        Ok(NonEmptyText::from_text(text))
    }

    pub fn into_text(self) -> Text
        ensures { result ≡ self }
    {
        let NonEmptyText { text } = self;
        text
    }

    pub fn as_str(&self) -> &str
        ensures bytes { result.now ≡ self.now }
        ensures has_byte { 1 ≤ length self.now }
    {
        self.text.as_str()
    }

    pub fn as_bytes(&self) -> &[u8]
        ensures bytes { result.now ≡ self.now }
        ensures has_byte { 1 ≤ length self.now }
    {
        self.text.as_bytes()
    }

    pub fn len(&self) -> usize
        ensures count { result ≡ length self.now }
        ensures has_byte { 1 ≤ length self.now }
    {
        self.text.len()
    }
}

impl Duplicate for NonEmptyText {
    fn duplicate(&self) -> Result<NonEmptyText, AllocError> {
        let text = self.text.duplicate()?;
        Ok(NonEmptyText { text })
    }
}

impl Same for NonEmptyText {
    fn same(&self, other: &NonEmptyText) -> bool {
        self.as_str() == other.as_str()
    }
}

/// Texts are in byte order.
impl Keyed for NonEmptyText {
    ghost order = { slice_cmp nat_cmp };

    ghost total = { nat_list_cmp_total };

    fn compare(&self, other: &NonEmptyText) -> Ordering {
        self.as_str().cmp(other.as_str())
    }
}
