//! Scripts, each answered over stores.

use std::alloc::AllocError;
use std::{fs, io};
use test_scenes::Owner;
use test_scenes::lines::{compare, unreadable};
use test_stores::{answer_in, stop_at_some, stop_each};

/// A script of more bytes is answered over a store in memory alone.
const MOST_BYTES: usize = 8192;

/// A script of more bytes isn't sent over files that stop.
const MOST_STOPPED: usize = 2048;

/// How far the calls at which its files stop or fail are apart. `tests/stops.sh` stops them at each.
const STEP: u64 = 47;

const STORE: &str = "boards.db";

const LOG: &str = "boards.db-wal";

/// A script, and what it has to be answered.
#[derive(Drop)]
struct Case<'o> {
    owner: &'o Owner,
    script: Vec<u8>,
    answers: Vec<u8>,
}

/// Answers the script of that name in every way.
pub fn run(rt: &HostRuntime, owner: &Owner, name: &str) -> io::Result<String> {
    let case = Case {
        owner,
        script: fs::read(rt, format!(in owner.alloc; "{name}.script")?)?,
        answers: fs::read(rt, format!(in owner.alloc; "{name}.answers")?)?,
    };
    case.answer_in_memory(rt)?;
    if case.script.len() <= MOST_BYTES {
        case.answer_by_line(rt)?;
    }
    if case.script.len() <= MOST_STOPPED {
        let lines = lines_of(owner, case.script.as_slice())?;
        stop_at_some(owner, lines.as_slice(), case.script.len(), STEP)?;
    }
    Ok(String::from_str(owner.alloc, "ok")?)
}

/// Sends the script in that file over files that stop or fail, as these words say, and tells how often they did.
pub fn stop(rt: &HostRuntime, owner: &Owner, file: &str, words: &str) -> io::Result<()> {
    let script = fs::read(rt, file)?;
    let count = stop_each(owner, lines_of(owner, script.as_slice())?.as_slice(), words)?;
    println!(rt; "{count}")
}

/// The lines of a script that isn't strange: no line is empty.
fn lines_of<'s>(owner: &Owner, script: &'s [u8]) -> io::Result<Vec<&'s str>> {
    let text = str::from_utf8(script).or(Err(unreadable()))?;
    let lines = text.split('\n').filter(|line| !line.is_empty());
    let lines: Vec<&str> = lines.collect(owner.alloc)?;
    Ok(lines)
}

impl Case<'_> {
    /// Over a store in memory.
    fn answer_in_memory(&self, rt: &HostRuntime) -> io::Result<()> {
        let answers = answer_in(rt, self.owner, "--memory", self.script.as_slice())?;
        self.expect("over memory", answers.as_slice())
    }

    /// Over a file that is opened anew for each line.
    fn answer_by_line(&self, rt: &HostRuntime) -> io::Result<()> {
        let mut answers = Vec::new(self.owner.alloc);
        remove_store(rt);
        for line in self.lines()?.as_slice() {
            let answer = answer_in(rt, self.owner, STORE, *line)?;
            answers.extend_from_slice(answer.as_slice())?;
        }
        remove_store(rt);
        self.expect("over a file", answers.as_slice())
    }

    fn expect(&self, way: &str, answers: &[u8]) -> io::Result<()> {
        let alloc = self.owner.alloc;
        match compare(alloc, self.answers.as_slice(), answers) {
            Ok(()) => Ok(()),
            Err(error) => Err(io::Error::other(format!(in alloc; "{way}: {error}")?.as_str())),
        }
    }

    fn lines(&self) -> Result<Vec<&[u8]>, AllocError> {
        self.script
            .as_slice()
            .split(|byte| *byte == b'\n')
            .filter(|line| !line.is_empty())
            .collect(self.owner.alloc)
    }
}

/// Removes the file of a store and its log, where they are there.
fn remove_store(rt: &HostRuntime) {
    let _ = fs::remove_file(rt, STORE);
    let _ = fs::remove_file(rt, LOG);
}
