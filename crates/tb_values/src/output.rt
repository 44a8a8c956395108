ghost use Rattle.std.specs.Prelude.{◌<◌, length, take, OnOk, IfErr};
ghost use Rattle.std.specs.Io.KnownBytes.{Appends};

use std::io::Write;

/// A write that failed, or took nothing, and the count of bytes that had gone out by then.
#[derive(Debug, Drop)]
pub struct WriteFault {
    pub written: usize,
}

/// Writes all the bytes, or a front of them that is known. A write that fails, or takes nothing, ends it, and so does
/// one that was interrupted.
pub fn write_whole<W: Write>(writer: &mut W, bytes: &[u8]) -> Result<(), WriteFault>
    ensures whole { OnOk result
        (Appends (W.contents writer.old) (W.contents writer.new) bytes.now) }
    ensures cut { IfErr result (λ fault. (fault.written < length bytes.now)
        × Appends (W.contents writer.old) (W.contents writer.new) (take fault.written bytes.now)) }
{
    let mut written = 0;
    while written < bytes.len() {
        match writer.write(&bytes[written..]) {
            Ok(taken) if taken > 0 => written += taken,
            _ => return Err(WriteFault { written }),
        }
    }
    Ok(())
}
