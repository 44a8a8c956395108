ghost use Rattle.std.specs.Prelude.{◌≡◌, ◌<◌, [], ◌∷◌, ◌++◌, length, slice_index, IfOk, OnOk, OnErr, IsTrue, ◌↔◌};
ghost use Rattle.std.specs.List.{list_all};
ghost use Rattle.tb_task.specs.Mask.{is_mark, mask_in};

use crate::mark::{Mark, is_known};
use std::alloc::{AllocError, Global};
use std::marker::Model;
use tb_values::{Duplicate, Same};

/// The marks of a template's instances by their places. A contract sees the characters.
#[derive(Drop)]
pub struct Mask {
    text: String,
}

impl Model for Mask {
    ghost use Rattle.std.specs.Prelude.{◌≡◌, ℕ, List, true};
    ghost use Rattle.std.specs.List.{list_all};
    ghost use Rattle.std.specs.String.{string_bytes};
    ghost use Rattle.tb_task.specs.Mask.{is_mark};

    ghost Value = { List ℕ };

    ghost view = { λ m. string_bytes m.text };

    ghost invariant = { λ m. list_all is_mark (string_bytes m.text) ≡ true };
}

impl Mask {
    pub fn new(alloc: Global) -> Mask
        ensures { result ≡ [] }
    {
        Mask {
            text: String::new(alloc),
        }
    }

    /// The mask that a text is, if each of its characters is a mark.
    pub fn read(alloc: Global, text: &str) -> Result<Option<Mask>, AllocError>
        ensures { IfOk result (λ mask. mask ≡ mask_in text.now) }
    {
        if !are_marks(text.as_bytes()) {
            return Ok(None);
        }
        let text = String::from_str(alloc, text)?;
        Ok(Some(Mask { text }))
    }

    pub fn as_str(&self) -> &str
        ensures { result.now ≡ self.now }
    {
        self.text.as_str()
    }

    pub fn len(&self) -> usize
        ensures { result ≡ length self.now }
    {
        self.text.len()
    }

    pub fn is_empty(&self) -> bool
        ensures { IsTrue result ↔ (self.now ≡ []) }
    {
        self.text.is_empty()
    }

    /// The mark at a place.
    pub fn at(&self, place: usize) -> Mark
        requires { place < length self.now }
        ensures { result ≡ slice_index self.now place }
    {
        match Mark::read(self.text.as_bytes()[place]) {
            Some(mark) => mark,
            None => unreachable!(),
        }
    }

    /// Puts the mark at the next place. Without memory nothing changes.
    pub fn push(&mut self, mark: Mark) -> Result<(), AllocError>
        ensures ok { OnOk result (self.new ≡ self.old ++ mark ∷ []) }
        ensures err { OnErr result (self.new ≡ self.old) }
    {
        self.text.push(mark.byte() as char)
    }
}

fn are_marks(bytes: &[u8]) -> bool
    ensures { result ≡ list_all is_mark bytes.now }
{
    bytes.iter().all(|byte| is_known(*byte))
}

impl Duplicate for Mask {
    fn duplicate(&self) -> Result<Mask, AllocError> {
        let text = self.text.clone()?;
        Ok(Mask { text })
    }
}

impl Same for Mask {
    fn same(&self, other: &Mask) -> bool {
        self.text.as_str() == other.text.as_str()
    }
}
