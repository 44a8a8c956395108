ghost use Rattle.std.specs.Prelude.{◌≡◌, ◌&&◌, nat_le, length, true, IfOk};
ghost use Rattle.std.specs.List.{list_all};
ghost use Rattle.tb_board.specs.Names.{is_name, is_name_byte, read_name};

use std::alloc::{AllocError, Global};
use std::marker::Model;
use tb_values::{Duplicate, Same, Text};

const LONGEST: usize = 32;

/// The name of a person: 1 to 32 bytes of `a` to `z`, `0` to `9`, `_` and `-`. A contract sees its bytes.
#[derive(Debug, Drop)]
pub struct Name {
    text: Text,
}

impl Model for Name {
    ghost use Rattle.std.specs.Prelude.{◌≡◌, ℕ, List, true};
    ghost use Rattle.tb_board.specs.Names.{is_name};

    ghost Value = { List ℕ };

    ghost view = { λ name. name.text };

    ghost invariant = { λ name. is_name name.text ≡ true };
}

impl Name {
    /// Whether a text has the form of a name.
    pub fn fits(text: &str) -> bool
        ensures { result ≡ is_name text.now }
    {
        is_name(text.as_bytes())
    }

    /// The name that a text is, if it has the form of one.
    pub fn read(alloc: Global, text: &str) -> Result<Option<Name>, AllocError>
        ensures { IfOk result (λ name. name ≡ read_name text.now) }
    {
        if !Name::fits(text) {
            return Ok(None);
        }
        let text = Text::from_str(alloc, text)?;
        Ok(Some(Name { text }))
    }

    pub fn as_str(&self) -> &str
        ensures { result.now ≡ self.now }
    {
        self.text.as_str()
    }

    /// Does nothing: its contract is that the bytes have the form of a name.
    pub fn has_form(&self)
        ensures { is_name self.now ≡ true }
    {
        let _text = self.text.as_str();
    }
}

#[tactic(auto, unfolding(crate::specs::Names::is_name))]
fn is_name(bytes: &[u8]) -> bool
    ensures { result ≡ is_name bytes.now }
{
    !bytes.is_empty() && bytes.len() <= LONGEST && has_name_bytes(bytes)
}

fn has_name_bytes(bytes: &[u8]) -> bool
    ensures { result ≡ list_all is_name_byte bytes.now }
{
    bytes.iter().all(|byte| is_byte_of_name(*byte))
}

#[tactic(auto, unfolding(crate::specs::Names::is_name_byte))]
fn is_byte_of_name(byte: u8) -> bool
    ensures { result ≡ is_name_byte byte }
{
    byte.is_ascii_lowercase() || byte.is_ascii_digit() || byte == b'_' || byte == b'-'
}

impl Duplicate for Name {
    fn duplicate(&self) -> Result<Name, AllocError> {
        let text = self.text.duplicate()?;
        Ok(Name { text })
    }
}

impl Same for Name {
    fn same(&self, other: &Name) -> bool {
        self.text.same(&other.text)
    }
}
