//! The words that ask for another own key.
ghost use Rattle.std.specs.Prelude.{◌≡◌, IfOk};
ghost use Rattle.tb_client.specs.OwnKey.{is_own_key_alone, own_key_words};

use std::alloc::{AllocError, Global};
use tb_values::{Items, Text};

const OWN_KEY: &str = "own-key";

/// Whether the words are `own-key` without the keys.
pub fn is_own_key_alone(words: &[Text]) -> bool
    ensures { result ≡ is_own_key_alone words.now }
{
    let [word] = words else {
        return false;
    };
    word.as_str() == OWN_KEY
}

/// `own-key OLD NEW`.
pub fn own_key_words(alloc: Global, old: &str, new: &str) -> Result<Items<Text>, AllocError>
    ensures { IfOk result (λ words. words ≡ own_key_words old.now new.now) }
{
    let mut words = Items::new(alloc);
    words.push(Text::from_str(alloc, OWN_KEY)?)?;
    words.push(Text::from_str(alloc, old)?)?;
    words.push(Text::from_str(alloc, new)?)?;
    Ok(words)
}
