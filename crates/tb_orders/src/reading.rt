//! The text of an input.
ghost use Rattle.std.specs.Prelude.{◌≡◌, ◌≢◌, ◌≤◌, ◌<◌, length, Err, IfErr, IfOk, IfSome, IsErrOf, true};
ghost use Rattle.tb_program.specs.Fault.{is_of_reading};
ghost use Rattle.tb_program.specs.declared.fault.Fault.TheVariants.{BadBody, ReadFailed};
ghost use Rattle.tb_script.specs.Watching.{IsSpent};
ghost use Rattle.tb_task.specs.Limits.{longest_body};

use std::alloc::Global;
use std::io::Read;
use tb_program::Fault;
use tb_script::{LinesFault, Watched};
use tb_task::LONGEST_BODY;
use tb_values::Items;

/// The whole text of a reader, of up to 1,048,576 bytes; a longer one is `BadBody`.
pub(crate) fn read_text<R: Read + Drop>(
    alloc: Global,
    reader: &mut Watched<R>,
) -> Result<Items<u8>, Fault>
    ensures whole { IfSome reader.old.left
        (λ text. IfOk result (λ read. (read ≡ text) × (length text ≤ longest_body))) }
    ensures long { IfSome reader.old.left
        (λ text. IsErrOf result BadBody → longest_body < length text) }
    ensures spent { IsErrOf result ReadFailed → IsSpent reader.new }
    ensures fault { IfErr result (λ fault. is_of_reading fault ≡ true) }
{
    match reader.read_whole(alloc, LONGEST_BODY) {
        Ok(text) if text.len() > LONGEST_BODY => Err(Fault::BadBody),
        Ok(text) => Ok(text),
        Err(LinesFault::ReadFailed) => Err(Fault::ReadFailed),
        Err(_) => Err(Fault::Memory),
    }
}

/// The whole text of a reader.
pub(crate) fn read_all<R: Read + Drop>(
    alloc: Global,
    reader: &mut Watched<R>,
) -> Result<Items<u8>, Fault>
    ensures whole { IfSome reader.old.left (λ text. IfOk result (λ read. read ≡ text)) }
    ensures long { result ≢ Err BadBody }
    ensures spent { IsErrOf result ReadFailed → IsSpent reader.new }
    ensures fault { IfErr result (λ fault. is_of_reading fault ≡ true) }
{
    match reader.read_whole(alloc, usize::MAX) {
        Ok(text) => Ok(text),
        Err(LinesFault::ReadFailed) => Err(Fault::ReadFailed),
        Err(_) => Err(Fault::Memory),
    }
}
