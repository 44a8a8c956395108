//! A reader whose reads are counted, and the writes that answer it.
ghost use Rattle.std.specs.Prelude.{◌≡◌, ◌⊎◌, ◌<◌, ◌≤◌, ◌+◌, ◌-◌, ◌^◌, ◌||◌, false, true, is_err, length, min, IfErr, IfOk, IfSome, OnErr, OnOk};
ghost use Rattle.std.specs.Io.{ReadsAtMost};
ghost use Rattle.std.specs.Io.KnownBytes.{Appends, ReadConsumes, WriteAppends};
ghost use Rattle.tb_script.specs.declared.fault.LinesFault.TheVariants.{Memory, ReadFailed, WriteFailed};
ghost use Rattle.tb_script.specs.Fault.{is_unread};
ghost use Rattle.tb_script.specs.Watching.{IsSpent, IsWholeOrLong};
ghost use Rattle.tb_values.specs.Appends.{AppendsFront};

use crate::again::{read_again, write_again};
use crate::fault::LinesFault;
use std::alloc::Global;
use std::io::{Read, Write};
use std::marker::Model;
use tb_values::Items;

/// How many reads may be taken.
pub(crate) const READ_LIMIT: u64 = 1_099_511_627_776;

/// A reader, how many reads were taken of it, whether one has failed, and whether a write of the answers to it has. Only a read and a
/// write change these fields, so no function that is handed one can make up that one of them failed.
#[derive(Drop)]
pub struct Watched<R: Read + Drop> {
    reader: R,
    reads: u64,
    read_failed: bool,
    write_failed: bool,
}

impl<R: Read + Drop> Model for Watched<R> {
    ghost use Rattle.tb_script.specs.Watching.{Watching};

    ghost Value = { Watching };

    ghost view = { λ w. record {
      left = R.remaining w.reader;
      reads = w.reads;
      read_failed = w.read_failed;
      write_failed = w.write_failed;
    } };
}

impl<R: Read + Drop> Watched<R> {
    pub fn new(reader: R) -> Watched<R>
        ensures left { result.left ≡ R.remaining reader }
        ensures unread { result.reads ≡ 0 }
        ensures fresh { (result.read_failed ≡ false) × (result.write_failed ≡ false) }
    {
        Watched {
            reader,
            reads: 0,
            read_failed: false,
            write_failed: false,
        }
    }

    /// Reads once, and again where a signal interrupts it. Why a read failed isn't told.
    pub fn read(&mut self, buf: &mut [u8]) -> Result<usize, LinesFault>
        ensures bound { ReadsAtMost result buf.new }
        ensures bytes { ReadConsumes self.old.left self.new.left result buf.new }
        ensures counted { self.new.reads ≡ min (self.old.reads + 1) (2 ^ 64 - 1) }
        ensures failed { self.new.read_failed ≡ (is_err result || self.old.read_failed) }
        ensures unwritten { self.new.write_failed ≡ self.old.write_failed }
        ensures fault { IfErr result (λ fault. fault ≡ ReadFailed) }
    {
        self.reads = self.reads.saturating_add(1);
        match read_again(&mut self.reader, buf) {
            Ok(count) => Ok(count),
            Err(_) => {
                self.read_failed = true;
                Err(LinesFault::ReadFailed)
            }
        }
    }

    /// Reads to the end, or until more bytes have come than that.
    pub fn read_whole(&mut self, alloc: Global, most: usize) -> Result<Items<u8>, LinesFault>
        ensures whole { IfSome self.old.left (λ text. IfOk result (IsWholeOrLong most text)) }
        ensures unread { is_unread result ≡ true → IsSpent self.new }
        ensures unwritten { self.new.write_failed ≡ self.old.write_failed }
        ensures fault { IfErr result (λ fault. (fault ≡ ReadFailed) ⊎ (fault ≡ Memory)) }
    {
        let mut bytes = Vec::new(alloc);
        let mut chunk = [0u8; 8192];
        'reads: for _taken in 0..READ_LIMIT {
            let count = self.read(&mut chunk)?;
            bytes.extend_from_slice(&chunk[..count])?;
            if count == 0 || bytes.len() > most {
                return Ok(Items::from_vec(bytes));
            }
        }
        Err(LinesFault::ReadFailed)
    }

    /// Writes all of the answers, or a front of them.
    pub(crate) fn answer<W: Write>(
        &mut self,
        writer: &mut W,
        answers: &[u8],
    ) -> Result<(), LinesFault>
        ensures whole { OnOk result
            (Appends (W.contents writer.old) (W.contents writer.new) answers.now) }
        ensures front { OnErr result
            (AppendsFront (W.contents writer.old) (W.contents writer.new) answers.now) }
        ensures failed { self.new.write_failed ≡ (is_err result || self.old.write_failed) }
        ensures fault { IfErr result (λ fault. fault ≡ WriteFailed) }
        ensures reads { (self.new.left ≡ self.old.left) × (self.new.reads ≡ self.old.reads)
            × (self.new.read_failed ≡ self.old.read_failed) }
    {
        let mut written = 0;
        while written < answers.len() {
            let taken = self.write(writer, &answers[written..])?;
            written += taken;
        }
        Ok(())
    }

    /// Writes once, and again where a signal interrupts it. A write that takes nothing has failed.
    fn write<W: Write>(&mut self, writer: &mut W, bytes: &[u8]) -> Result<usize, LinesFault>
        requires some { 0 < length bytes.now }
        ensures taken { IfOk result (λ taken. (0 < taken) × (taken ≤ length bytes.now)) }
        ensures bytes { WriteAppends (W.contents writer.old) (W.contents writer.new)
            result bytes.now }
        ensures failed { self.new.write_failed ≡ (is_err result || self.old.write_failed) }
        ensures fault { IfErr result (λ fault. fault ≡ WriteFailed) }
        ensures reads { (self.new.left ≡ self.old.left) × (self.new.reads ≡ self.old.reads)
            × (self.new.read_failed ≡ self.old.read_failed) }
    {
        match write_again(writer, bytes) {
            Ok(taken) if taken > 0 => Ok(taken),
            _ => {
                self.write_failed = true;
                Err(LinesFault::WriteFailed)
            }
        }
    }
}
