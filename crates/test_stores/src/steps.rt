//! Steps over boards in two files, as they are read from a file of steps.

use crate::files::{Frail, read_files};
use crate::looks::{admission, at_hand, audited, count_kept, exported, lent};
use crate::openings::open_each;
use crate::stage::{Stage, close};
use crate::stops::stop_each;
use crate::tables::{change, rows_of};
use sqlite::Alter;
use std::io;
use tb_calls::Keep;
use tb_desk::Desk;
use tb_keeper::SqlKeep;
use tb_sql::opening::Version;
use test_scenes::Owner;
use test_scenes::lines::{Transcript, answer_line, compare, unreadable};

/// The lines that were sent since the files were new, and what is told of the steps.
#[derive(Drop)]
pub(crate) struct Steps<'o, 't> {
    owner: &'o Owner,
    sent: Vec<&'t str>,
    pub told: Transcript,
}

/// Takes the steps of a file. What is told of them, with the lines for readers, has to be the file.
pub(crate) fn take_all<D: Frail>(owner: &Owner, text: &str) -> io::Result<()> {
    let mut steps = Steps::new(owner);
    let mut stage: Stage<D> = Stage::Files(read_files(owner.alloc, "")?);
    for line in text.lines() {
        if line.starts_with('<') {
            continue;
        }
        steps.told.line("", line)?;
        if !line.is_empty() && !line.starts_with('#') {
            stage = match steps.take_line(stage, line) {
                Ok(stage) => stage,
                Err(error) => {
                    let text = format!(in owner.alloc; "{line}: {error}")?;
                    return Err(io::Error::other(text.as_str()));
                }
            };
        }
    }
    compare(owner.alloc, text.as_bytes(), steps.told.text.as_bytes())
}

impl<'o, 't> Steps<'o, 't> {
    pub(crate) fn new(owner: &'o Owner) -> Steps<'o, 't> {
        Steps {
            owner,
            sent: Vec::new(owner.alloc),
            told: Transcript::new(owner.alloc),
        }
    }

    /// Takes a step of a file, which may need new files.
    fn take_line<D: Frail>(&mut self, stage: Stage<D>, line: &'t str) -> io::Result<Stage<D>> {
        let (word, rest) = line.split_once(' ').unwrap_or((line, ""));
        match word {
            "new" => {
                self.sent.clear();
                Ok(Stage::Files(read_files(self.owner.alloc, rest)?))
            }
            "each" => {
                let count = stop_each::<D>(self.owner, self.sent.as_slice(), rest);
                self.tell_trial(count)?;
                Ok(stage)
            }
            "each_open" => {
                let files = stage.into_files();
                let count = open_each(self.owner, &files, rest);
                self.tell_trial(count)?;
                Ok(Stage::Files(files))
            }
            _ => self.take(stage, line),
        }
    }

    /// Tells that all stood, where a file went its way at least once, or what went otherwise.
    fn tell_trial(&mut self, count: io::Result<u64>) -> io::Result<()> {
        let text = match count {
            Ok(0) => String::from_str(self.owner.alloc, "NeverStopped")?,
            Ok(_) => String::from_str(self.owner.alloc, "stands")?,
            Err(error) => format!(in self.owner.alloc; "{error}")?,
        };
        Ok(self.told.answer(&text)?)
    }

    /// Takes a step over the files that are there.
    pub(crate) fn take<D: Frail>(
        &mut self,
        stage: Stage<D>,
        step: &'t str,
    ) -> io::Result<Stage<D>> {
        let (word, rest) = step.split_once(' ').unwrap_or((step, ""));
        let (stage, text) = match word {
            "open" | "make" | "take" => stage.open(self.owner, word),
            "make_first" => stage.make_first(self.owner),
            "stop" => (stage.stop(), ""),
            "close" => {
                let (files, text) = close(stage.into_database()?);
                (Stage::Files(files), text)
            }
            "hand" => {
                let (conn, text) = change(stage.into_database()?, rest);
                (Stage::Database(conn), text)
            }
            "rows" => {
                let (conn, text) = rows_of(self.owner.alloc, stage.into_database()?)?;
                self.told.answer(&text)?;
                (Stage::Database(conn), "")
            }
            _ => return self.ask(stage, step)
        };
        self.told.answer(text)?;
        Ok(stage)
    }

    /// Asks the open store.
    fn ask<D: Frail>(&mut self, stage: Stage<D>, step: &'t str) -> io::Result<Stage<D>> {
        match stage {
            Stage::Store(keep) => Ok(Stage::Store(self.ask_store(keep, step)?)),
            _ => Err(unreadable()),
        }
    }

    fn ask_store<S: Alter + Drop>(
        &mut self,
        mut keep: SqlKeep<S>,
        step: &'t str,
    ) -> io::Result<SqlKeep<S>> {
        let alloc = self.owner.alloc;
        let (word, rest) = step.split_once(' ').unwrap_or((step, ""));
        let text = match word {
            "audit" => audited(alloc, &mut keep)?,
            "found" => String::from_str(alloc, found(&keep))?,
            "kept" => count_kept(alloc, &mut keep, self.sent.as_slice())?,
            "at_hand" => at_hand(alloc, &keep)?,
            "lend" => lent(alloc, &mut keep, rest)?,
            "export" => {
                let (left, text) = exported(self.owner, keep, rest)?;
                keep = left;
                text
            }
            _ => {
                let mut desk = Desk::new(keep);
                let text = self.ask_desk(&mut desk, step)?;
                keep = desk.into_keep();
                text
            }
        };
        self.told.answer(&text)?;
        Ok(keep)
    }

    /// Asks a desk whether a person may see an export, or sends it a line.
    fn ask_desk<K: Keep>(&mut self, desk: &mut Desk<K>, step: &'t str) -> io::Result<String> {
        let alloc = self.owner.alloc;
        if let Some(words) = step.strip_prefix("admits ") {
            return admission(alloc, desk, words);
        }
        self.sent.push(step)?;
        Ok(answer_line(alloc, desk, step)?)
    }
}

/// Of which version the store was before it was opened.
fn found<S: Alter>(keep: &SqlKeep<S>) -> &'static str {
    match keep.found() {
        Version::First => "first",
        Version::Second => "second",
        Version::Third => "third",
    }
}
