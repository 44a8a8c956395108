ghost use Rattle.std.specs.Prelude.{◌≡◌, ◌&&◌, nat_le, length, true, IfOk};
ghost use Rattle.std.specs.List.{list_all};
ghost use Rattle.tb_board.specs.Names.{is_key, is_key_byte, read_key};

use std::alloc::{AllocError, Global};
use std::marker::Model;
use tb_values::{Duplicate, Same, Text};

const SHORTEST: usize = 8;

const LONGEST: usize = 64;

/// The key by which a person is known: 8 to 64 bytes from 0x21 to 0x7E. A contract sees its bytes.
#[derive(Debug, Drop)]
pub struct Key {
    text: Text,
}

impl Model for Key {
    ghost use Rattle.std.specs.Prelude.{◌≡◌, ℕ, List, true};
    ghost use Rattle.tb_board.specs.Names.{is_key};

    ghost Value = { List ℕ };

    ghost view = { λ key. key.text };

    ghost invariant = { λ key. is_key key.text ≡ true };
}

impl Key {
    /// The key that a text is, if it has the form of one.
    pub fn read(alloc: Global, text: &str) -> Result<Option<Key>, AllocError>
        ensures { IfOk result (λ key. key ≡ read_key text.now) }
    {
        if !is_key(text.as_bytes()) {
            return Ok(None);
        }
        let text = Text::from_str(alloc, text)?;
        Ok(Some(Key { text }))
    }

    pub fn as_str(&self) -> &str
        ensures { result.now ≡ self.now }
    {
        self.text.as_str()
    }

    /// Does nothing: its contract is that the bytes have the form of a key.
    pub fn has_form(&self)
        ensures { is_key self.now ≡ true }
    {
        let _text = self.text.as_str();
    }
}

#[tactic(auto, unfolding(crate::specs::Names::is_key))]
fn is_key(bytes: &[u8]) -> bool
    ensures { result ≡ is_key bytes.now }
{
    bytes.len() >= SHORTEST && bytes.len() <= LONGEST && has_key_bytes(bytes)
}

fn has_key_bytes(bytes: &[u8]) -> bool
    ensures { result ≡ list_all is_key_byte bytes.now }
{
    bytes.iter().all(|byte| is_byte_of_key(*byte))
}

fn is_byte_of_key(byte: u8) -> bool
    ensures { result ≡ is_key_byte byte }
{
    (0x21..=0x7E).contains(&byte)
}

impl Duplicate for Key {
    fn duplicate(&self) -> Result<Key, AllocError> {
        let text = self.text.duplicate()?;
        Ok(Key { text })
    }
}

impl Same for Key {
    fn same(&self, other: &Key) -> bool {
        self.text.same(&other.text)
    }
}
