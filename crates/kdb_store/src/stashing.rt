//! Another stash.
ghost use Rattle.std.specs.Prelude.{◌≡◌, ◌≢◌, ◌∷◌, [], ℕ, false, true, Some, Err, OnOk, OnErr};
ghost use Rattle.kdb_base.specs.declared.outcomes.Halt.TheVariants.{MemoryOut as IsMemoryOut, DiskFault as IsDiskFault};
ghost use Rattle.kdb_disk.specs.View.{View};
ghost use Rattle.kdb_disk.specs.Frames.{IsCall, IsCrashSafe};
ghost use Rattle.kdb_disk.specs.Moments.{LeavesOnly};
ghost use Rattle.kdb_control.specs.declared.force.Force.TheVariants.{Is};
ghost use Rattle.kdb_control.specs.Moments.{HasInForce};
ghost use Rattle.kdb_places.specs.Places.{restashed};
ghost use Rattle.store_files.specs.Kept.{Kept, IsOnDisk, place_kept};
ghost use Rattle.store_files.specs.Recovery.{LeavesPart};
ghost use Rattle.store_files.specs.Switches.{stash_choice};
ghost use Rattle.store_switches.specs.Switched.{with_stash, IsUnder};

use crate::database::Database;
use kdb_base::{Blob, Halt};
use kdb_control::Control;
use kdb_disk::Disk;
use std::alloc::Global;
use store_switches::{restash_files, stash_control};

// Puts these bytes into force as the stash, and does so in memory. Memory is taken before the first device
// call. After an error nothing of it is in memory.
fn restash_parts<D: Disk>(
    alloc: Global,
    disk: &mut D,
    control: &mut Control,
    stash: &mut Option<Blob>,
    bytes: &[u8],
) -> Result<(), Halt>
    requires force { D.tells → HasInForce (Is control.old) (D.view disk.old) }
    ensures control { OnOk result (control.new ≡ stash_choice control.new.stash control.old) }
    ensures first { OnOk result (control.old.stash ≡ 0 → control.new.stash ≡ 5) }
    ensures stash { OnOk result (stash.new ≡ Some bytes.now) }
    ensures same_control { OnErr result (control.new ≡ control.old) }
    ensures same_stash { OnErr result (stash.new ≡ stash.old) }
    ensures crash { D.tells → (k : Kept) → IsUnder control.old k (D.view disk.old) → LeavesOnly (D.view disk.old)
        (D.view disk.new) (LeavesPart (place_kept k) (restashed bytes.now (place_kept k) ∷ [])) }
    ensures on { D.tells → (k : Kept) → IsUnder control.old k (D.view disk.old)
        → OnOk result (IsOnDisk (with_stash control.new bytes.now k) (D.view disk.new)) }
    ensures others { D.tells → OnOk result ((g : ℕ) → g ≢ 0 → g ≢ control.new.stash
        → (D.view disk.new).seen g ≡ (D.view disk.old).seen g) }
    ensures memory { result ≡ Err IsMemoryOut → disk.new ≡ disk.old }
    ensures call { IsCall D.Disk disk.old disk.new (result ≡ Err IsDiskFault) }
{
    let copy = match Blob::from_bytes(alloc, bytes) {
        Ok(copy) => copy,
        Err(_) => return Err(Halt::MemoryOut),
    };
    let next = stash_control(control);
    match restash_files(disk, control, &next, bytes) {
        Ok(()) => {
            *control = next;
            *stash = Some(copy);
            Ok(())
        }
        Err(_) => Err(Halt::DiskFault),
    }
}

impl Database {
    /// Makes these bytes the stash, in place of what was the stash or of none. No change of the rows is
    /// made. Memory is taken before the first device call.
    ///
    /// At each moment a crash leaves the place before, or the one with the new stash. After `DiskFault`
    /// the disk is to be opened again.
    pub fn put_stash<D: Disk>(
        &mut self,
        alloc: Global,
        disk: &mut D,
        bytes: &[u8],
    ) -> Result<(), Halt>
        requires on { D.tells → IsOnDisk self.old (D.view disk.old) }
        requires whole { self.old.broken ≡ false }
        ensures place { OnOk result (place_kept self.new ≡ restashed bytes.now (place_kept self.old)) }
        // The first stash of a database without one stands in the first of the two files.
        ensures first { OnOk result (self.old.control.stash ≡ 0 → self.new.control.stash ≡ 5) }
        ensures on { D.tells → OnOk result (IsOnDisk self.new (D.view disk.new)) }
        // No file is written but the one that now has the stash, and the choice of files.
        ensures others { D.tells → OnOk result ((g : ℕ) → g ≢ 0 → g ≢ self.new.control.stash
            → (D.view disk.new).seen g ≡ (D.view disk.old).seen g) }
        ensures crash { IsCrashSafe D.Disk disk.old disk.new
            (LeavesPart (place_kept self.old) (restashed bytes.now (place_kept self.old) ∷ [])) }
        ensures err { OnErr result (place_kept self.new ≡ place_kept self.old) }
        ensures memory { result ≡ Err IsMemoryOut → disk.new ≡ disk.old }
        // Where memory ran out, the database stands on the disk as before.
        ensures still { D.tells → result ≡ Err IsMemoryOut → IsOnDisk self.new (D.view disk.new) }
        ensures whole { OnOk result (self.new.broken ≡ false) }
        ensures whole_still { result ≡ Err IsMemoryOut → self.new.broken ≡ false }
        ensures broken { result ≡ Err IsDiskFault → self.new.broken ≡ true }
        ensures call { IsCall D.Disk disk.old disk.new (result ≡ Err IsDiskFault) }
    {
        match restash_parts(alloc, disk, &mut self.control, &mut self.stash, bytes) {
            Ok(()) => Ok(()),
            Err(Halt::DiskFault) => {
                self.broken = true;
                Err(Halt::DiskFault)
            }
            Err(Halt::MemoryOut) => Err(Halt::MemoryOut),
        }
    }
}
