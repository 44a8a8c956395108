ghost use Rattle.std.specs.Prelude.{◌≡◌, ◌&&◌, nat_le, length, true, IfOk};
ghost use Rattle.std.specs.List.{list_all};
ghost use Rattle.tb_board.specs.Names.{is_title, is_title_byte, read_title};

use std::alloc::{AllocError, Global};
use std::marker::Model;
use tb_values::{Duplicate, Same, Text};

const LONGEST: usize = 200;

/// The title of a board: 1 to 200 bytes without characters below U+0020. A contract sees its bytes.
#[derive(Debug, Drop)]
pub struct Title {
    text: Text,
}

impl Model for Title {
    ghost use Rattle.std.specs.Prelude.{◌≡◌, ℕ, List, true};
    ghost use Rattle.tb_board.specs.Names.{is_title};

    ghost Value = { List ℕ };

    ghost view = { λ title. title.text };

    ghost invariant = { λ title. is_title title.text ≡ true };
}

impl Title {
    /// The title that a text is, if it has the form of one.
    pub fn read(alloc: Global, text: &str) -> Result<Option<Title>, AllocError>
        ensures { IfOk result (λ title. title ≡ read_title text.now) }
    {
        if !is_title(text.as_bytes()) {
            return Ok(None);
        }
        let text = Text::from_str(alloc, text)?;
        Ok(Some(Title { text }))
    }

    pub fn as_str(&self) -> &str
        ensures { result.now ≡ self.now }
    {
        self.text.as_str()
    }

    /// Does nothing: its contract is that the bytes have the form of a title.
    pub fn has_form(&self)
        ensures { is_title self.now ≡ true }
    {
        let _text = self.text.as_str();
    }
}

#[tactic(auto, unfolding(crate::specs::Names::is_title))]
fn is_title(bytes: &[u8]) -> bool
    ensures { result ≡ is_title bytes.now }
{
    !bytes.is_empty() && bytes.len() <= LONGEST && has_title_bytes(bytes)
}

fn has_title_bytes(bytes: &[u8]) -> bool
    ensures { result ≡ list_all is_title_byte bytes.now }
{
    bytes.iter().all(|byte| is_byte_of_title(*byte))
}

fn is_byte_of_title(byte: u8) -> bool
    ensures { result ≡ is_title_byte byte }
{
    byte >= b' '
}

impl Duplicate for Title {
    fn duplicate(&self) -> Result<Title, AllocError> {
        let text = self.text.duplicate()?;
        Ok(Title { text })
    }
}

impl Same for Title {
    fn same(&self, other: &Title) -> bool {
        self.text.same(&other.text)
    }
}
