//! A reader and a writer in memory, which stand in for the ends of a connection.

use std::alloc::Global;
use std::io::{self, Read, Write};

/// Gives the bytes up to `cut` first, then the others, and never more than `size` at a time; behind them it ends or is interrupted.
#[derive(Drop)]
pub struct Pieces<'a> {
    pub bytes: &'a [u8],
    pub cut: usize,
    pub size: usize,
    pub fails: bool,
}

impl Pieces<'_> {
    pub fn of(bytes: &[u8], size: usize, fails: bool) -> Pieces<'_> {
        let cut = 0;
        Pieces {
            bytes,
            cut,
            size,
            fails,
        }
    }
}

impl Read for Pieces<'_> {
    fn read(&mut self, buf: &mut [u8]) -> io::Result<usize> {
        if self.fails && self.bytes.is_empty() {
            return Err(io::Error::from(io::ErrorKind::Interrupted));
        }
        let piece = if self.cut == 0 {
            self.size
        } else {
            self.size.min(self.cut)
        };
        let count = piece.min(self.bytes.len()).min(buf.len());
        let mut front = &self.bytes[..count];
        let read = front.read(buf)?;
        self.bytes = &self.bytes[read.min(self.bytes.len())..];
        self.cut = self.cut.saturating_sub(read);
        Ok(read)
    }
}

/// Takes so many bytes, never more than `size` at a time, and then none, or fails.
#[derive(Drop)]
pub struct Narrow {
    pub taken: Vec<u8>,
    pub room: usize,
    pub size: usize,
    pub fails: bool,
}

impl Narrow {
    /// A writer that takes at once what it has room for, and then none.
    pub fn of(alloc: Global, room: usize) -> Narrow {
        Narrow {
            taken: Vec::new(alloc),
            room,
            size: usize::MAX,
            fails: false,
        }
    }
}

impl Write for Narrow {
    fn write(&mut self, buf: &[u8]) -> io::Result<usize> {
        if self.fails && self.room == 0 {
            return Err(io::Error::from(io::ErrorKind::BrokenPipe));
        }
        let count = buf.len().min(self.room).min(self.size);
        self.taken.extend_from_slice(&buf[..count])?;
        self.room -= count;
        Ok(count)
    }

    fn flush(&mut self) -> io::Result<()> {
        Ok(())
    }
}
