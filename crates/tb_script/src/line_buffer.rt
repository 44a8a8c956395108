//! The line that has begun, and the answers to those before it.
ghost use Rattle.std.specs.Prelude.{◌≡◌, ◌⊎◌, ◌||◌, ◌++◌, [], ℕ, false, true, IfOk, OnOk, OnErr, take};
ghost use Rattle.tb_calls.specs.Call.{State};
ghost use Rattle.tb_script.specs.Answering.{answer};
ghost use Rattle.tb_script.specs.Fault.{is_store, is_unread, is_unwritten};
ghost use Rattle.tb_script.specs.Runs.{fed, fed_byte, from};

use crate::answering::answer_line;
use crate::fault::LinesFault;
use std::alloc::Global;
use tb_calls::Keep;
use tb_desk::Desk;
use tb_task::LONGEST_BODY;

const LINE_FEED: u8 = b'\n';

/// `line` has what came since the last line feed, of a line that is too long the first bytes alone.
#[derive(Drop)]
pub(crate) struct LineBuffer {
    alloc: Global,
    line: Vec<u8>,
}

impl LineBuffer {
    pub(crate) fn new(alloc: Global) -> LineBuffer
        ensures { result.line.items ≡ [] }
    {
        LineBuffer {
            alloc,
            line: Vec::new(alloc),
        }
    }

    /// Answers the lines that the chunk ends.
    pub(crate) fn feed<K: Keep>(
        &mut self,
        desk: &mut Desk<K>,
        chunk: &[u8],
        output: &mut Vec<u8>,
    ) -> Result<(), LinesFault>
        ensures line { (s : State)
            → OnOk result (self.new.line.items
            ≡ (fed (from s self.old.line.items output.old.items) chunk.now).line) }
        ensures told { K.is_honest desk.new ≡ true → (s : State) → K.holds desk.old s
            → OnOk result (output.new.items
            ≡ (fed (from s self.old.line.items output.old.items) chunk.now).told) }
        ensures left { K.is_honest desk.new ≡ true → (s : State) → K.holds desk.old s
            → OnOk result (K.holds desk.new
            (fed (from s self.old.line.items output.old.items) chunk.now).state) }
        ensures held { K.is_honest desk.new ≡ true → (s : State) → K.holds desk.old s
            → (n : ℕ) × K.holds desk.new
            (fed (from s self.old.line.items output.old.items) (take n chunk.now)).state }
        ensures honest { K.is_honest desk.new ≡ true → K.is_honest desk.old ≡ true }
        ensures failed { K.has_failed desk.new ≡ (is_store result || K.has_failed desk.old) }
        ensures read { is_unread result ≡ false }
        ensures written { is_unwritten result ≡ false }
    {
        for byte in chunk {
            self.take_byte(desk, *byte, output)?;
        }
        Ok(())
    }

    fn take_byte<K: Keep>(
        &mut self,
        desk: &mut Desk<K>,
        byte: u8,
        output: &mut Vec<u8>,
    ) -> Result<(), LinesFault>
        ensures line { (s : State)
            → OnOk result (self.new.line.items
            ≡ (fed_byte (from s self.old.line.items output.old.items) byte).line) }
        ensures told { K.is_honest desk.new ≡ true → (s : State) → K.holds desk.old s
            → OnOk result (output.new.items
            ≡ (fed_byte (from s self.old.line.items output.old.items) byte).told) }
        ensures left { K.is_honest desk.new ≡ true → (s : State) → K.holds desk.old s
            → OnOk result (K.holds desk.new
            (fed_byte (from s self.old.line.items output.old.items) byte).state) }
        ensures held { K.is_honest desk.new ≡ true → (s : State) → K.holds desk.old s
            → K.holds desk.new s
            ⊎ K.holds desk.new (fed_byte (from s self.old.line.items output.old.items) byte).state }
        ensures honest { K.is_honest desk.new ≡ true → K.is_honest desk.old ≡ true }
        ensures failed { K.has_failed desk.new ≡ (is_store result || K.has_failed desk.old) }
        ensures read { is_unread result ≡ false }
        ensures written { is_unwritten result ≡ false }
    {
        if byte == LINE_FEED {
            self.end_line(desk, output)?;
            self.line.clear();
        } else if self.line.len() <= LONGEST_BODY {
            self.line.push(byte)?;
        }
        Ok(())
    }

    /// Answers the line that has begun, which is the last one at the end of the input.
    #[tactic(auto, unfolding(crate::specs::Answering::answer))]
    pub(crate) fn end_line<K: Keep>(
        &mut self,
        desk: &mut Desk<K>,
        output: &mut Vec<u8>,
    ) -> Result<(), LinesFault>
        ensures line { OnOk result (self.new.line.items ≡ self.old.line.items) }
        ensures told { K.is_honest desk.new ≡ true → (s : State) → K.holds desk.old s
            → OnOk result (output.new.items
            ≡ output.old.items ++ (answer s self.old.line.items).text) }
        ensures left { K.is_honest desk.new ≡ true → (s : State) → K.holds desk.old s
            → OnOk result (K.holds desk.new (answer s self.old.line.items).state) }
        ensures held { K.is_honest desk.new ≡ true → (s : State) → K.holds desk.old s
            → K.holds desk.new s ⊎ K.holds desk.new (answer s self.old.line.items).state }
        ensures honest { K.is_honest desk.new ≡ true → K.is_honest desk.old ≡ true }
        ensures failed { K.has_failed desk.new ≡ (is_store result || K.has_failed desk.old) }
        ensures read { is_unread result ≡ false }
        ensures written { is_unwritten result ≡ false }
    {
        if self.line.is_empty() {
            return Ok(());
        }
        let text = answer_line(self.alloc, desk, self.line.as_slice())?;
        output.extend_from_slice(text.as_str().as_bytes())?;
        Ok(())
    }
}
