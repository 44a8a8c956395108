//! New keys in a file.
ghost use Rattle.std.specs.Prelude.{◌≡◌, ◌∷◌, [], IfErr, IfOk, IsErrOf, None, false, true};
ghost use Rattle.sqlite_wal.specs.Files.{image_at};
ghost use Rattle.tb_files.specs.Failed.{may_print};
ghost use Rattle.tb_files.specs.Faults.{is_of_keys};
ghost use Rattle.tb_files.specs.Key.{IsKeyFailed, IsKeyGiven};
ghost use Rattle.tb_orders.specs.Moments.{GaveOne};
ghost use Rattle.tb_program.specs.declared.fault.Fault.TheVariants.{NoClock};

use crate::file::{RealFile, begin, close_desk};
use crate::giving::give_key;
use sqlite_disk::Start;
use std::io::{Read, Write};
use tb_calls::Keep;
use tb_command_line::KeyOrder;
use tb_keeper::SqlKeep;
use tb_orders::{Ending, MachineChance, new_key_of};
use tb_program::{Clock, Fault};

/// Gives somebody a new key, which is read, or made and printed. The file isn't opened where there is no key to give.
#[tactic(auto, using(crate::proofs::Faults::of_new_key, crate::proofs::Faults::of_keyed, crate::proofs::Faults::of_giving))]
pub fn give_key_in_file<S: Start, R: Read + Drop, C: Clock, W: Write>(
    rt: &HostRuntime,
    order: &KeyOrder,
    reader: R,
    clock: &mut C,
    writer: &mut W,
    start: S,
) -> Result<Ending, Fault>
    ensures given { IfOk result (IsKeyGiven ⟦<SqlKeep<RealFile<S>> as Keep>⟧ (image_at S.Start)
        (GaveOne C.gives clock.old clock.new) order.now (R.remaining reader)
        (W.contents writer.old) (W.contents writer.new)) }
    ensures failed { IfErr result (IsKeyFailed ⟦<SqlKeep<RealFile<S>> as Keep>⟧
        (image_at S.Start) W.contents
        (GaveOne C.gives clock.old clock.new) order.now (R.remaining reader)
        writer.old writer.new) }
    ensures silent { IfErr result (λ fault. may_print fault ≡ false → writer.new ≡ writer.old) }
    ensures timeless { IsErrOf result NoClock → C.gives (None ∷ []) clock.old clock.new }
    ensures fault { IfErr result (λ fault. is_of_keys fault ≡ true) }
{
    let mut chance = MachineChance::new(rt);
    let asked = new_key_of(rt.alloc(), order, reader, &mut chance, clock)?;
    let desk = begin(rt, order.file.as_str(), start)?;
    let (desk, end) = give_key(rt.alloc(), desk.into_keep(), &asked, writer);
    match end {
        Ok(ending) => {
            close_desk(desk)?;
            Ok(ending)
        }
        Err(fault) => Err(fault),
    }
}
