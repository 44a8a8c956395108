//! Standard input, whole.
ghost use Rattle.std.specs.Prelude.{◌≡◌, ◌≤◌, ◌<◌, length, IfErr, IfOk, IfSome, IsErrOf, true};
ghost use Rattle.tb_program.specs.declared.fault.Fault.TheVariants.{BadBody};
ghost use Rattle.tb_program.specs.Fault.{is_of_reading};
ghost use Rattle.tb_task.specs.Limits.{longest_body};

use crate::fault::Fault;
use std::alloc::Global;
use std::io::{ErrorKind, Read};
use tb_task::LONGEST_BODY;
use tb_values::Items;

/// The whole text of a reader, of up to 1,048,576 bytes; a longer one is `BadBody`.
pub fn read_text<R: Read + Drop>(alloc: Global, reader: R) -> Result<Items<u8>, Fault>
    ensures whole { IfSome (R.remaining reader)
        (λ text. IfOk result (λ read. (read ≡ text) × (length text ≤ longest_body))) }
    ensures long { IfSome (R.remaining reader)
        (λ text. IsErrOf result BadBody → longest_body < length text) }
    ensures fault { IfErr result (λ fault. is_of_reading fault ≡ true) }
{
    let mut bytes = Vec::new(alloc);
    match reader.take(LONGEST_BODY as u64 + 1).read_to_end(&mut bytes) {
        Ok(_) => (),
        Err(error) if error.kind() == ErrorKind::OutOfMemory => return Err(Fault::Memory),
        Err(_) => return Err(Fault::ReadFailed),
    }
    let text = Items::from_vec(bytes);
    if text.len() > LONGEST_BODY {
        return Err(Fault::BadBody);
    }
    Ok(text)
}
