//! The log of a database begun anew, and one change behind it.
ghost use Rattle.std.specs.Prelude.{◌≡◌, ◌≢◌, ◌≤◌, ◌<◌, ◌-◌, ◌+◌, ◌⊎◌, ◌∷◌, [], ℕ, true, false, Some, Err, IfOk, OnOk, OnErr};
ghost use Rattle.kdb_base.specs.Moments.{micros};
ghost use Rattle.kdb_base.specs.declared.outcomes.Halt.TheVariants.{MemoryOut as IsMemoryOut, DiskFault as IsDiskFault};
ghost use Rattle.kdb_disk.specs.View.{View};
ghost use Rattle.kdb_disk.specs.Frames.{IsCall, IsCrashSafe};
ghost use Rattle.princ_rows.specs.Entries.{IsOp, entry_len};
ghost use Rattle.kdb_places.specs.Applying.{may_apply};
ghost use Rattle.kdb_places.specs.Places.{committed, log_anew};
ghost use Rattle.update_log.specs.Logs.{begun};
ghost use Rattle.store_files.specs.Kept.{IsOnDisk, place_kept};
ghost use Rattle.store_files.specs.Recovery.{LeavesPart};
ghost use Rattle.kdb_store.specs.Anew.{point_behind};
ghost use Rattle.kdb_store.specs.Writes.{HasEntered};

use crate::database::Database;
use crate::reset_changes::{behind, reset_change};
use kdb_base::{Halt, Point, Time};
use kdb_disk::Disk;
use kdb_places::laws::what_may_be_applied;
use princ_rows::Op;
use std::alloc::Global;

impl Database {
    /// Begins the log anew at this base, with as many entries at most as before and in blocks of `block` bytes
    /// (2048 to 16384), and makes the change behind it, at this time, which is not before the base's. It gives
    /// the point of the change. All memory is taken before the first device call.
    ///
    /// At each moment a crash leaves the place before, the one with the log begun anew, or the one with the
    /// change behind it. After `DiskFault` the disk is to be opened again.
    pub fn reset_and_commit<D: Disk>(
        &mut self,
        alloc: Global,
        disk: &mut D,
        base: Point,
        block: u32,
        op: Op,
        time: Time,
    ) -> Result<Point, Halt>
        requires on { D.tells → IsOnDisk self.old (D.view disk.old) }
        requires whole { self.old.broken ≡ false }
        requires format { (place_kept self.old).format ≡ 2 }
        requires block { (2048 ≤ block) × (block ≤ 16384) }
        requires op { IsOp (Some op) }
        requires fits { entry_len (Some op) ≤ block - 1 }
        requires applies { may_apply op self.old.rows ≡ true }
        requires serial { base.sno < 4294967295 }
        requires time { micros base.time ≤ micros time }
        ensures point { IfOk result (λ p. p ≡ point_behind base time) }
        ensures place { OnOk result (place_kept self.new
            ≡ committed op time (log_anew base (place_kept self.old).size block (place_kept self.old))) }
        // The entry behind the marker names the unit of its row: the one that the row has, the least free one for a
        // new row, or none.
        ensures entered { OnOk result (HasEntered op (point_behind base time)
            (begun self.new.control.log base (place_kept self.old).size block) self.new.log
            self.old.cells self.old.rows) }
        ensures on { D.tells → OnOk result (IsOnDisk self.new (D.view disk.new)) }
        // No file is written but those that now have the log and the rows, and the choice of files.
        ensures others { D.tells → OnOk result
            ((g : ℕ) → g ≢ 0 → g ≢ self.new.control.log → g ≢ self.old.control.image
            → (D.view disk.new).seen g ≡ (D.view disk.old).seen g) }
        ensures err { OnErr result ((place_kept self.new ≡ place_kept self.old)
            ⊎ (place_kept self.new ≡ log_anew base (place_kept self.old).size block (place_kept self.old))) }
        ensures crash { IsCrashSafe D.Disk disk.old disk.new
            (LeavesPart (place_kept self.old) (log_anew base (place_kept self.old).size block (place_kept self.old)
            ∷ committed op time (log_anew base (place_kept self.old).size block (place_kept self.old)) ∷ [])) }
        ensures memory { result ≡ Err IsMemoryOut → disk.new ≡ disk.old }
        ensures memory_place { result ≡ Err IsMemoryOut → place_kept self.new ≡ place_kept self.old }
        // Where memory ran out, the database stands on the disk as before.
        ensures still { D.tells → result ≡ Err IsMemoryOut → IsOnDisk self.new (D.view disk.new) }
        ensures whole { OnOk result (self.new.broken ≡ false) }
        ensures whole_still { result ≡ Err IsMemoryOut → self.new.broken ≡ false }
        ensures broken { result ≡ Err IsDiskFault → self.new.broken ≡ true }
        ensures call { IsCall D.Disk disk.old disk.new (result ≡ Err IsDiskFault) }
    {
        what_may_be_applied();
        let point = behind(&base, time);
        match reset_change(
            alloc,
            disk,
            &mut self.control,
            &mut self.log,
            &mut self.cells,
            &mut self.rows,
            base,
            block,
            op,
            time,
        ) {
            Ok(()) => Ok(point),
            Err(Halt::DiskFault) => {
                self.broken = true;
                Err(Halt::DiskFault)
            }
            Err(Halt::MemoryOut) => Err(Halt::MemoryOut),
        }
    }
}
