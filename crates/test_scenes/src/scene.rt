//! Scenes, as they are read from a file: the connections that the same boards are sent, one after the other.

use crate::lines::{push_line, read_count, unreadable};
use std::alloc::{AllocError, Global};
use std::io;
use tb_site::{FoundFile, Paths, Site, make_page};
use tb_task::Moment;
use tb_values::{Items, Text};

/// The words of the lines that hold no bytes.
const WORDS: [&str; 11] = [
    "", "#", "again", "cuts", "end", "file", "fronts", "moments", "pieces", "reader", "writer",
];

/// When messages come, where nothing else is written.
pub(crate) const USUAL: &[u8] = b"20260101T000000Z";

/// A connection takes no more messages.
const MOST_MESSAGES: usize = 1000;

/// How many bytes come, in which pieces, and how many bytes of the answers are taken.
#[derive(Clone, Copy)]
pub(crate) struct Way {
    pub len: usize,
    pub cut: usize,
    pub size: usize,
    pub room: usize,
}

/// What is sent and answered on one connection.
#[derive(Drop)]
pub struct Connection<'t> {
    pub(crate) sent: Vec<u8>,
    pub(crate) wanted: Vec<u8>,
    /// Its parts, where it is played at once with others.
    pub(crate) parts: Vec<&'t str>,
    /// The words of its other lines, each with what stands behind it.
    words: Vec<(&'t str, &'t str)>,
}

/// The scenes of a file.
pub fn read_scenes(alloc: Global, text: &str) -> io::Result<Vec<Vec<Connection<'_>>>> {
    let mut scenes = Vec::new(alloc);
    let mut connection = Connection::new(alloc);
    for line in text.lines() {
        connection.read_line(alloc, line)?;
        if line.starts_with("end ") {
            add(alloc, &mut scenes, connection)?;
            connection = Connection::new(alloc);
        }
    }
    if connection.sent.is_empty() {
        Ok(scenes)
    } else {
        Err(unreadable())
    }
}

fn add<'t>(
    alloc: Global,
    scenes: &mut Vec<Vec<Connection<'t>>>,
    connection: Connection<'t>,
) -> io::Result<()> {
    if connection.get("again").is_none() {
        scenes.push(Vec::new(alloc))?;
    }
    match scenes.last_mut() {
        Some(scene) => Ok(scene.push(connection)?),
        None => Err(unreadable()),
    }
}

impl<'t> Connection<'t> {
    fn new(alloc: Global) -> Connection<'t> {
        Connection {
            sent: Vec::new(alloc),
            wanted: Vec::new(alloc),
            parts: Vec::new(alloc),
            words: Vec::new(alloc),
        }
    }

    fn read_line(&mut self, alloc: Global, line: &'t str) -> io::Result<()> {
        let (word, rest) = line.split_once(' ').unwrap_or((line, ""));
        if let Some(mark) = word.strip_prefix('>') {
            return push_line(alloc, &mut self.sent, mark, rest);
        }
        if let Some(mark) = word.strip_prefix('<') {
            return push_line(alloc, &mut self.wanted, mark, rest);
        }
        if word == "parts" {
            return push_parts(&mut self.parts, rest);
        }
        if !WORDS.contains(&word) {
            return Err(unreadable());
        }
        Ok(self.words.push((word, rest))?)
    }

    /// What stands behind this word, in the first line that has it.
    pub(crate) fn get(&self, word: &str) -> Option<&'t str> {
        for (found, rest) in self.words.iter() {
            if *found == word {
                return Some(*rest);
            }
        }
        None
    }

    /// What paths lead to on the server of its scene: a file of the page for each line `file`.
    pub(crate) fn paths(&self, alloc: Global) -> io::Result<Paths> {
        let mut found = Vec::new(alloc);
        for (word, rest) in self.words.iter() {
            if *word == "file" {
                found.push(found_file(alloc, rest)?)?;
            }
        }
        if found.is_empty() {
            return Ok(Paths::new(alloc, Site::none(alloc))?);
        }
        match make_page(alloc, &found) {
            Ok(site) => Ok(Paths::new(alloc, site)?),
            Err(fault) => Err(io::Error::other(format!(in alloc; "{fault:?}")?.as_str())),
        }
    }

    /// As it is, with bytes that all come at once.
    pub(crate) fn whole(&self) -> io::Result<Way> {
        Ok(Way {
            len: self.sent.len(),
            cut: 0,
            size: usize::MAX,
            room: match self.room() {
                "" => usize::MAX,
                "each" => 0,
                room => read_count(room)?,
            },
        })
    }

    /// How many bytes of the answers the writer takes, or `each`: each number in turn that is too small.
    fn room(&self) -> &'t str {
        let writer = self.get("writer").unwrap_or("");
        writer.split_once(" after ").unwrap_or(("", "")).1
    }

    /// The ways in which it is played.
    pub(crate) fn ways(&self, alloc: Global) -> io::Result<Vec<Way>> {
        let whole = self.whole()?;
        let mut ways = Vec::new(alloc);
        if self.room() == "each" {
            ways.extend((0..self.wanted.len()).map(|room| Way { room, ..whole }))?;
            return Ok(ways);
        }
        ways.push(whole)?;
        for size in self.get("pieces").unwrap_or("").split_whitespace() {
            let size = read_count(size)?;
            ways.push(Way { size, ..whole })?;
        }
        if self.get("cuts").is_some() {
            ways.extend((0..whole.len).map(|cut| Way { cut, ..whole }))?;
        }
        if self.get("fronts").is_some() {
            ways.extend((0..whole.len).map(|len| Way { len, ..whole }))?;
        }
        Ok(ways)
    }

    /// What the clock answers to its messages.
    pub(crate) fn moments(&self, alloc: Global) -> Result<Vec<Option<Moment>>, AllocError> {
        let Some(rest) = self.get("moments") else {
            return vec![in alloc; Moment::read(USUAL); MOST_MESSAGES];
        };
        let words = rest.split(' ');
        words
            .map(|word| Moment::read(word.as_bytes()))
            .collect(alloc)
    }

    /// What it is to bring in that way: what is answered, and in a last line how it ends. To a front nothing is answered.
    pub(crate) fn wanted(&self, alloc: Global, way: Way) -> Result<Vec<u8>, AllocError> {
        let is_front = way.len < self.sent.len();
        let (room, end) = match self.get("reader") {
            Some(_) if is_front => (0, "0 0 ReadFailed"),
            None if is_front => (0, "0 0"),
            _ => (way.room, self.get("end").unwrap_or("")),
        };
        let all = self.wanted.as_slice();
        let mut wanted = Vec::from_slice(alloc, all.get(..room).unwrap_or(all))?;
        wanted.push(b'\n')?;
        wanted.extend_from_slice(end.as_bytes())?;
        Ok(wanted)
    }
}

/// A file of a page: its name, a space and its bytes.
fn found_file(alloc: Global, line: &str) -> io::Result<FoundFile> {
    let (name, text) = line.split_once(' ').unwrap_or((line, ""));
    let mut body = Vec::new(alloc);
    push_line(alloc, &mut body, ">", text)?;
    Ok(FoundFile {
        name: Text::from_str(alloc, name)?,
        body: Items::from_vec(body),
    })
}

/// Adds parts, which stand in a line behind their number.
fn push_parts<'t>(parts: &mut Vec<&'t str>, line: &'t str) -> io::Result<()> {
    let (count, part) = line.split_once(' ').ok_or(unreadable())?;
    for _ in 0..read_count(count)? {
        parts.push(part)?;
    }
    Ok(())
}
