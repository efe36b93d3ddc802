//! A change of a database.
ghost use Rattle.std.specs.Prelude.{◌≡◌, ◌≢◌, ◌≤◌, ◌<◌, ◌-◌, ◌+◌, ◌∷◌, [], ℕ, true, false};
ghost use Rattle.std.specs.Prelude.{Some, Err, IfOk, OnOk, OnErr, length, slice_index_or};
ghost use Rattle.kdb_base.specs.Moments.{micros};
ghost use Rattle.kdb_base.specs.declared.outcomes.Halt.TheVariants.{MemoryOut as IsMemoryOut, DiskFault as IsDiskFault};
ghost use Rattle.kdb_disk.specs.View.{View};
ghost use Rattle.kdb_disk.specs.Frames.{IsCall, IsCrashSafe};
ghost use Rattle.princ_rows.specs.Entries.{IsOp, entry_len};
ghost use Rattle.princ_rows.specs.declared.entries.Logged.{Logged};
ghost use Rattle.princ_rows.specs.Effects.{effect, IsRoom};
ghost use Rattle.princ_rows.specs.Undoing.{IsNewName};
ghost use Rattle.kdb_places.specs.Applying.{may_apply};
ghost use Rattle.kdb_places.specs.Places.{point_of, next_point, committed};
ghost use Rattle.store_files.specs.Kept.{IsOnDisk, place_kept};
ghost use Rattle.store_files.specs.Recovery.{LeavesPart};
ghost use Rattle.kdb_store.specs.Writes.{HasEntered};

use crate::changing::change;
use crate::database::Database;
use kdb_base::{Halt, Point, Time};
use kdb_control::Control;
use kdb_disk::Disk;
use kdb_places::laws::what_may_be_applied;
use princ_rows::Op;
use std::alloc::Global;
use update_log::Log;

// The point of the change that comes next in the log.
fn next_in(log: &Log, time: Time) -> Point
    requires { (d : Logged) → (slice_index_or log.now.held (length log.now.held - 1) d).entry.point.sno < 4294967295 }
    ensures sno { (d : Logged)
        → result.sno ≡ (slice_index_or log.now.held (length log.now.held - 1) d).entry.point.sno + 1 }
    ensures time { result.time ≡ time }
{
    let (_, last) = log.held();
    Point {
        sno: last.sno + 1,
        time,
    }
}

// Tells a proof that the file of cells is one of the first two, and does nothing.
#[tactic(auto, using(crate::proofs::Ranges::image_high))]
fn image_file(control: &Control) -> u8
    ensures value { result ≡ control.now.image }
    ensures high { control.now.image ≤ 2 }
{
    control.image
}

impl Database {
    /// Does one change at a time, and gives its point. Memory is taken before the first device call. A change
    /// makes at most four writes and four syncs.
    ///
    /// At each moment a crash leaves the place before the change or the one after it. After `DiskFault` the
    /// disk is to be opened again.
    pub fn commit<D: Disk>(
        &mut self,
        alloc: Global,
        disk: &mut D,
        op: Op,
        time: Time,
    ) -> Result<Point, Halt>
        requires on { D.tells → IsOnDisk self.old (D.view disk.old) }
        requires whole { self.old.broken ≡ false }
        requires op { IsOp (Some op) }
        requires fits { entry_len (Some op) ≤ (place_kept self.old).block - 1 }
        requires applies { may_apply op self.old.rows ≡ true }
        requires serial { (point_of (place_kept self.old)).sno < 4294967295 }
        requires time { micros (point_of (place_kept self.old)).time ≤ micros time }
        requires format { (place_kept self.old).format ≡ 2 }
        ensures point { IfOk result (λ point. point ≡ next_point time (place_kept self.old)) }
        ensures place { OnOk result (place_kept self.new ≡ committed op time (place_kept self.old)) }
        ensures control { self.new.control ≡ self.old.control }
        // The entry names the unit of its row: the one that the row has, the least free one for a new row, or none.
        ensures entered { OnOk result (HasEntered op (next_point time (place_kept self.old)) self.old.log self.new.log
            self.old.cells self.old.rows) }
        ensures on { D.tells → OnOk result (IsOnDisk self.new (D.view disk.new)) }
        // No file is written but the log and the file of cells that are in force.
        ensures others { D.tells → OnOk result ((g : ℕ) → g ≢ self.old.control.log → g ≢ self.old.control.image
            → (D.view disk.new).seen g ≡ (D.view disk.old).seen g) }
        ensures crash { IsCrashSafe D.Disk disk.old disk.new
            (LeavesPart (place_kept self.old) (committed op time (place_kept self.old) ∷ [])) }
        ensures err { OnErr result (place_kept self.new ≡ place_kept self.old) }
        ensures memory { result ≡ Err IsMemoryOut → disk.new ≡ disk.old }
        // Where memory ran out, the database stands on the disk as before.
        ensures still { D.tells → result ≡ Err IsMemoryOut → IsOnDisk self.new (D.view disk.new) }
        ensures whole { OnOk result (self.new.broken ≡ false) }
        ensures whole_still { result ≡ Err IsMemoryOut → self.new.broken ≡ false }
        ensures broken { result ≡ Err IsDiskFault → self.new.broken ≡ true }
        ensures call { IsCall D.Disk disk.old disk.new (result ≡ Err IsDiskFault) }
    {
        self.log.holds_journal();
        what_may_be_applied();
        let _file = image_file(&self.control);
        let point = next_in(&self.log, time);
        let next = next_in(&self.log, time);
        match change(
            alloc,
            disk,
            &mut self.log,
            &mut self.cells,
            &mut self.rows,
            op,
            next,
        ) {
            Ok(()) => Ok(point),
            Err(Halt::DiskFault) => {
                self.broken = true;
                Err(Halt::DiskFault)
            }
            Err(Halt::MemoryOut) => Err(Halt::MemoryOut),
        }
    }
}
