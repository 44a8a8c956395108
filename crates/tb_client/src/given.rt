//! The identifier that a line of todo.txt gives its task.
ghost use Rattle.std.specs.Prelude.{◌≡◌, IfOk, map};
ghost use Rattle.tb_client.specs.Line.{given_id, id_among};

use std::alloc::{AllocError, Global};
use tb_task::TaskId;
use tb_todotxt::{id_in, words_of};

/// The identifier of the first word that is `uuid:` with one after it.
pub(crate) fn given_id(alloc: Global, body: &str) -> Result<Option<TaskId>, AllocError>
    ensures { IfOk result (λ id. id ≡ given_id body.now) }
{
    let words = words_of(alloc, body)?;
    Ok(id_among(&words))
}

fn id_among(words: &[&str]) -> Option<TaskId>
    ensures { result ≡ id_among (map (λ word. word.now) words.entry.now) }
{
    for word in words {
        if let Some(id) = id_in(word) {
            return Some(id);
        }
    }
    None
}
