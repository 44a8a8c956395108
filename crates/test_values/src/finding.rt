//! Answers, and what they are told of.

use bstr::ByteVec;
use std::alloc::Global;
use std::fmt::Debug;
use std::io;

/// The answer to a question. One whose parts can't be read, or that asks for what there isn't, is answered by `missing`.
pub type Finding = io::Result<String>;

/// Finding as `none`.
pub fn missing() -> io::Error {
    io::Error::from(io::ErrorKind::NotFound)
}

/// A text as it is.
pub fn say(alloc: Global, text: &str) -> Finding {
    Ok(String::from_str(alloc, text)?)
}

/// A value as it is shown.
pub fn show<T: Debug>(alloc: Global, value: &T) -> Finding {
    Ok(format!(in alloc; "{value:?}")?)
}

/// How something ended, and what was written until then.
pub fn ended<T: Debug>(alloc: Global, end: &T, written: Vec<u8>) -> Finding {
    let text = written.into_string_lossy()?;
    Ok(format!(in alloc; "{end:?} {text:?}")?)
}

/// Adds what is told, unless that alone has been told so far.
pub fn push_other(all: &mut String, told: &str) -> io::Result<()> {
    if all.as_str() != told {
        all.push_str(told)?;
    }
    Ok(())
}
