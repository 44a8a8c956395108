//! Reads and writes that a signal interrupts are made again.
ghost use Rattle.std.specs.Prelude.{◌≡◌, true, IsErr};
ghost use Rattle.std.specs.Io.{ReadsAtMost, WritesAtMost};
ghost use Rattle.std.specs.Io.KnownBytes.{ReadConsumes, WriteAppends};

use std::io::{self, ErrorKind, Read, Write};

/// How often such a call is made at most, so that a system that interrupts each one is a fault too.
const TRIES: u32 = 65_536;

/// Reads once.
pub(crate) fn read_again<R: Read>(reader: &mut R, buf: &mut [u8]) -> io::Result<usize>
    ensures bound { ReadsAtMost result buf.new }
    ensures bytes { ReadConsumes (R.remaining reader.old) (R.remaining reader.new) result buf.new }
{
    'tries: for _tried in 1..TRIES {
        let read = reader.read(buf);
        if !is_interrupted(&read) {
            return read;
        }
    }
    reader.read(buf)
}

/// Writes once.
pub(crate) fn write_again<W: Write>(writer: &mut W, bytes: &[u8]) -> io::Result<usize>
    ensures bound { WritesAtMost result bytes.now }
    ensures bytes { WriteAppends (W.contents writer.old) (W.contents writer.new) result bytes.now }
{
    'tries: for _tried in 1..TRIES {
        let written = writer.write(bytes);
        if !is_interrupted(&written) {
            return written;
        }
    }
    writer.write(bytes)
}

fn is_interrupted(done: &io::Result<usize>) -> bool
    ensures { result ≡ true → IsErr done.now }
{
    match done {
        Ok(_) => false,
        Err(error) => error.kind() == ErrorKind::Interrupted,
    }
}
