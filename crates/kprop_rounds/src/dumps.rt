//! A dump that came, read and loaded.
ghost use Rattle.std.specs.Prelude.{◌≡◌, false, Err, OnOk};
ghost use Rattle.dump_text.specs.Judged.{judged as dump_judged};
ghost use Rattle.kdb_disk.specs.Frames.{IsCall, IsCrashSafe};
ghost use Rattle.kprop_rounds.specs.Rounds.{EndsAs, IsReadAs, LeavesSome, end_of_dump};
ghost use Rattle.replica_core.specs.Opened.{IsHeldOn, LeavesMade, is_broken, place_of};

use crate::words::{RoundHalt, RoundWord};
use dump_text::{Dump, DumpReader, DumpStop};
use kdb_disk::Disk;
use replica_core::Replica;
use std::alloc::Global;

/// The dump that a text spells, or its first bad line.
pub fn read_dump(alloc: Global, text: &[u8]) -> Result<Dump, DumpStop>
    ensures { IsReadAs result (dump_judged text.now) }
{
    match DumpReader::new(alloc) {
        Ok(reader) => {
            let mut reader = reader;
            match reader.feed(text) {
                Ok(()) => reader.finish(),
                Err(stop) => Err(stop),
            }
        }
        Err(_) => Err(DumpStop::MemoryOut),
    }
}

/// Loads the dump that a text spells into a replica. A bad line changes nothing.
pub fn install<D: Disk>(
    alloc: Global,
    replica: &mut Replica,
    disk: &mut D,
    text: &[u8],
) -> Result<RoundWord, RoundHalt>
    requires on { D.tells → IsHeldOn replica.old.database (D.view disk.old) }
    requires whole { is_broken replica.old.database replica.old.failed ≡ false }
    ensures ends { EndsAs result (end_of_dump replica.old.size (place_of replica.old) (dump_judged text.now))
        (place_of replica.old) (place_of replica.new) }
    ensures crash { IsCrashSafe D.Disk disk.old disk.new (LeavesMade (place_of replica.old)
        (end_of_dump replica.old.size (place_of replica.old) (dump_judged text.now)).made) }
    ensures some { IsCrashSafe D.Disk disk.old disk.new (LeavesSome replica.old.size (place_of replica.old)) }
    ensures on { D.tells → OnOk result (IsHeldOn replica.new.database (D.view disk.new)) }
    ensures whole { OnOk result (is_broken replica.new.database replica.new.failed ≡ false) }
    ensures size { replica.new.size ≡ replica.old.size }
    ensures call { IsCall D.Disk disk.old disk.new (result ≡ Err RoundHalt.DiskFault) }
    ensures no_link { result ≡ Err RoundHalt.LinkFault → ⊥ }
    ensures no_input { result ≡ Err RoundHalt.InputTooLong → ⊥ }
{
    match read_dump(alloc, text) {
        Ok(dump) => match replica.load(alloc, disk, dump) {
            Ok(_) => Ok(RoundWord::Loaded),
            Err(halt) => Err(RoundHalt::from(halt)),
        },
        Err(DumpStop::DumpBad { line }) => Ok(RoundWord::DumpBad(line)),
        Err(DumpStop::WriteFault) => Err(RoundHalt::MemoryOut),
        Err(DumpStop::MemoryOut) => Err(RoundHalt::MemoryOut),
    }
}
