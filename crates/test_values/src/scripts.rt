//! Scripts that come in pieces, aren't text, or fail, and answers that find no room.
use crate::finding::{Finding, push_other};
use crate::given::{bytes_of, halves, read_count};
use bstr::ByteVec;
use std::alloc::Global;
use tb_script::{Watched, run_lines};
use test_scenes::ends::{Narrow, Pieces};

pub(crate) fn script(alloc: Global, word: &str, given: &str) -> Finding {
    let (first, rest) = halves(given);
    let bytes = bytes_of(alloc, rest)?;
    match word {
        "script_fails" => played(alloc, bytes.as_slice(), first, true, usize::MAX),
        "script_room" => played(alloc, bytes.as_slice(), "8192", false, read_count(first)),
        _ => played(alloc, bytes.as_slice(), first, false, usize::MAX),
    }
}

/// How a script in pieces of each of the sizes ends, and what was answered until then, told once where it is the same.
fn played(alloc: Global, bytes: &[u8], sizes: &str, fails: bool, room: usize) -> Finding {
    let mut told = String::new(alloc);
    for size in sizes.split(',') {
        let size = read_count(size);
        let mut writer = Narrow::of(alloc, room);
        let mut script = Watched::new(Pieces::of(bytes, size, fails));
        let ended = run_lines(alloc, &mut script, &mut writer);
        let answers = writer.taken.into_string_lossy()?;
        let one = format!(in alloc; "{ended:?}\n{answers}")?;
        push_other(&mut told, one.as_str())?;
    }
    Ok(told)
}
