//! What the words of an import ask for.
ghost use Rattle.std.specs.Prelude.{◌≡◌, option_map};
ghost use Rattle.tb_my.specs.Bringing.{import_of, mode_named};

use tb_values::Text;

/// What an import does with tasks that it would refuse or read otherwise than they were meant.
#[derive(Clone, Copy, Debug, PartialEq, Eq)]
pub enum ImportMode {
    AsItIs,
    /// Tells what cleaning would do, and imports nothing.
    Check,
    /// Cleans the text, and imports it if nothing is refused.
    Clean,
    /// Cleans the text, and imports what isn't refused.
    Skip,
}

/// The file that is to be imported, and how.
pub fn import_of(words: &[Text]) -> Option<(&Text, ImportMode)>
    ensures { option_map (λ asked. (asked.0.now, asked.1)) result ≡ import_of words.now }
{
    match words {
        [word, path] if word.as_str() == "import" => Some((path, ImportMode::AsItIs)),
        [word, path, option] if word.as_str() == "import" => {
            Some((path, mode_named(option.as_str())?))
        }
        _ => None,
    }
}

#[tactic(auto, unfolding(crate::specs::Bringing::mode_named))]
fn mode_named(option: &str) -> Option<ImportMode>
    ensures { result ≡ mode_named option.now }
{
    match option {
        "--check" => Some(ImportMode::Check),
        "--clean" => Some(ImportMode::Clean),
        "--skip" => Some(ImportMode::Skip),
        _ => None,
    }
}
