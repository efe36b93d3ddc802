//! The log of a database begun anew.
ghost use Rattle.std.specs.Prelude.{◌≡◌, ◌≢◌, ◌≤◌, ◌∷◌, [], ℕ, false, true, Err, OnOk, OnErr, IfOk, IsErr};
ghost use Rattle.kdb_base.specs.declared.outcomes.Halt.TheVariants.{MemoryOut as IsMemoryOut, DiskFault as IsDiskFault};
ghost use Rattle.kdb_disk.specs.View.{View};
ghost use Rattle.kdb_disk.specs.Frames.{IsCall, IsCrashSafe};
ghost use Rattle.kdb_disk.specs.Moments.{LeavesOnly};
ghost use Rattle.kdb_control.specs.declared.force.Force.TheVariants.{Is};
ghost use Rattle.kdb_control.specs.Moments.{HasInForce};
ghost use Rattle.kdb_places.specs.Places.{log_anew};
ghost use Rattle.update_log.specs.Logs.{begun};
ghost use Rattle.store_files.specs.Kept.{Kept, IsOnDisk, place_kept};
ghost use Rattle.store_files.specs.Recovery.{LeavesPart};
ghost use Rattle.store_files.specs.Switches.{IsSpareFor, reset_choice};
ghost use Rattle.store_switches.specs.Switched.{with_log, IsUnder};

use crate::database::Database;
use kdb_base::{Halt, Point};
use kdb_control::Control;
use kdb_disk::{Disk, DiskFailed};
use std::alloc::Global;
use store_switches::controls::log_file;
use store_switches::{reset_control, reset_files};
use update_log::{Log, NewLog};

// Writes a log that was begun anew, and puts the choice that names it into force.
fn put_log<D: Disk>(
    disk: &mut D,
    now: &Control,
    next: &Control,
    log: NewLog,
) -> Result<Log, DiskFailed>
    requires force { D.tells → HasInForce (Is now.now) (D.view disk.old) }
    requires format { now.now.format ≡ 2 }
    requires next { next.now ≡ reset_choice next.now.log next.now.base next.now.size next.now.block now.now }
    requires spare { IsSpareFor now.now next.now.log }
    requires size { 2 ≤ next.now.size }
    requires log { log ≡ begun next.now.log next.now.base next.now.size next.now.block }
    ensures ok { IfOk result (λ put. put ≡ log) }
    ensures crash { D.tells → (k : Kept)
        → IsUnder now.now k (D.view disk.old) → LeavesOnly (D.view disk.old) (D.view disk.new)
        (LeavesPart (place_kept k) (log_anew next.now.base next.now.size next.now.block (place_kept k) ∷ [])) }
    ensures on { D.tells → (k : Kept) → IsUnder now.now k (D.view disk.old)
        → OnOk result (IsOnDisk (with_log next.now log k) (D.view disk.new)) }
    ensures others { D.tells
        → OnOk result ((g : ℕ) → g ≢ 0 → g ≢ next.now.log → (D.view disk.new).seen g ≡ (D.view disk.old).seen g) }
    ensures call { IsCall D.Disk disk.old disk.new (IsErr result) }
{
    match reset_files(disk, now, next, &log) {
        Ok(()) => Ok(log.into_log()),
        Err(failed) => Err(failed),
    }
}

// Begins the log anew, in memory and on the disk. Memory is taken before the first device call.
fn reset_parts<D: Disk>(
    alloc: Global,
    disk: &mut D,
    control: &mut Control,
    log: &mut Log,
    base: Point,
    size: u32,
    block: u32,
) -> Result<(), Halt>
    requires force { D.tells → HasInForce (Is control.old) (D.view disk.old) }
    requires format { control.old.format ≡ 2 }
    requires size { (2 ≤ size) × (size ≤ 10000) }
    requires block { (2048 ≤ block) × (block ≤ 16384) }
    ensures control { OnOk result (control.new ≡ reset_choice control.new.log base size block control.old) }
    ensures log { OnOk result (log.new ≡ begun control.new.log base size block) }
    ensures same_control { OnErr result (control.new ≡ control.old) }
    ensures same_log { OnErr result (log.new ≡ log.old) }
    ensures crash { D.tells → (k : Kept) → IsUnder control.old k (D.view disk.old) → LeavesOnly (D.view disk.old)
        (D.view disk.new) (LeavesPart (place_kept k) (log_anew base size block (place_kept k) ∷ [])) }
    ensures on { D.tells → (k : Kept) → IsUnder control.old k (D.view disk.old)
        → OnOk result (IsOnDisk (with_log control.new log.new k) (D.view disk.new)) }
    ensures others { D.tells → OnOk result ((g : ℕ) → g ≢ 0 → g ≢ control.new.log
        → (D.view disk.new).seen g ≡ (D.view disk.old).seen g) }
    ensures memory { result ≡ Err IsMemoryOut → disk.new ≡ disk.old }
    ensures call { IsCall D.Disk disk.old disk.new (result ≡ Err IsDiskFault) }
{
    let next = reset_control(control, &base, size, block);
    match NewLog::new(alloc, log_file(&next), base, size, block, None) {
        Ok(new) => match put_log(disk, control, &next, new) {
            Ok(put) => {
                *control = next;
                *log = put;
                Ok(())
            }
            Err(_) => Err(Halt::DiskFault),
        },
        Err(_) => Err(Halt::MemoryOut),
    }
}

impl Database {
    /// Begins the log anew at this base, with `size` entries at most (2 to 10000) in blocks of `block`
    /// bytes (2048 to 16384). The rows and the stash stay. Memory is taken before the first device call.
    ///
    /// At each moment a crash leaves the place before, or the one with the log begun anew. After
    /// `DiskFault` the disk is to be opened again.
    pub fn reset<D: Disk>(
        &mut self,
        alloc: Global,
        disk: &mut D,
        base: Point,
        size: u32,
        block: u32,
    ) -> Result<(), Halt>
        requires on { D.tells → IsOnDisk self.old (D.view disk.old) }
        requires whole { self.old.broken ≡ false }
        requires format { (place_kept self.old).format ≡ 2 }
        requires size { (2 ≤ size) × (size ≤ 10000) }
        requires block { (2048 ≤ block) × (block ≤ 16384) }
        ensures place { OnOk result (place_kept self.new ≡ log_anew base size block (place_kept self.old)) }
        ensures on { D.tells → OnOk result (IsOnDisk self.new (D.view disk.new)) }
        // No file is written but the one that now has the log, and the choice of files.
        ensures others { D.tells → OnOk result ((g : ℕ) → g ≢ 0 → g ≢ self.new.control.log
            → (D.view disk.new).seen g ≡ (D.view disk.old).seen g) }
        ensures crash { IsCrashSafe D.Disk disk.old disk.new
            (LeavesPart (place_kept self.old) (log_anew base size block (place_kept self.old) ∷ [])) }
        ensures err { OnErr result (place_kept self.new ≡ place_kept self.old) }
        ensures memory { result ≡ Err IsMemoryOut → disk.new ≡ disk.old }
        // Where memory ran out, the database stands on the disk as before.
        ensures still { D.tells → result ≡ Err IsMemoryOut → IsOnDisk self.new (D.view disk.new) }
        ensures whole { OnOk result (self.new.broken ≡ false) }
        ensures whole_still { result ≡ Err IsMemoryOut → self.new.broken ≡ false }
        ensures broken { result ≡ Err IsDiskFault → self.new.broken ≡ true }
        ensures call { IsCall D.Disk disk.old disk.new (result ≡ Err IsDiskFault) }
    {
        match reset_parts(
            alloc,
            disk,
            &mut self.control,
            &mut self.log,
            base,
            size,
            block,
        ) {
            Ok(()) => Ok(()),
            Err(Halt::DiskFault) => {
                self.broken = true;
                Err(Halt::DiskFault)
            }
            Err(Halt::MemoryOut) => Err(Halt::MemoryOut),
        }
    }
}
