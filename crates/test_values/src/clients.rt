//! A client: what words ask a server for, and the tasks that their places are.

use crate::finding::{Finding, missing};
use crate::given::text_of;
use crate::lists::words_of;
use std::alloc::{AllocError, Global};
use tb_client::{named_words, read_tasks, request_of};
use tb_values::Text;

/// The words of a text, which a tab parts.
pub(crate) fn parts_of(alloc: Global, given: &str) -> Result<Vec<Text>, AllocError> {
    let text = text_of(alloc, given)?;
    let mut words = Vec::new(alloc);
    for word in text.split('\t') {
        words.push(Text::from_str(alloc, word)?)?;
    }
    Ok(words)
}

/// What words ask for: a view, or a call with its body.
pub(crate) fn request(alloc: Global, given: &str) -> Finding {
    let words = parts_of(alloc, given)?;
    let request = request_of(alloc, &words)?.ok_or(missing())?;
    let target = request.target.as_str();
    Ok(match &request.body {
        Some(body) => format!(in alloc; "POST {target}\n{}", body.as_str())?,
        None => format!(in alloc; "GET {target}")?,
    })
}

/// How many tasks an export has, and each of them.
pub(crate) fn exported(alloc: Global, given: &str) -> Finding {
    let text = text_of(alloc, given)?;
    let tasks = read_tasks(alloc, text.as_bytes())?.ok_or(missing())?;
    let mut told = format!(in alloc; "{} tasks\n", tasks.len())?;
    for task in tasks.as_slice() {
        let id = task.id.text(alloc)?;
        writeln!(told, "{} {}", id.as_str(), task.description.as_str())?;
    }
    Ok(told)
}

/// Words behind an export, with its identifiers in place of their places.
pub(crate) fn named(alloc: Global, given: &str) -> Finding {
    let parts = parts_of(alloc, given)?;
    let (body, words) = parts.split_first().ok_or(missing())?;
    let tasks = read_tasks(alloc, body.as_bytes())?.ok_or(missing())?;
    let named = named_words(alloc, &tasks, words)?.ok_or(missing())?;
    words_of(alloc, named.as_slice())
}
