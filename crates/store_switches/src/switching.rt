//! A spare file written whole, and the choice that names it put into force.
ghost use Rattle.std.specs.Prelude.{◌≡◌, ◌≢◌, ◌≤◌, ◌<◌, ◌∷◌, [], ℕ, OnOk, IsErr};
ghost use Rattle.kdb_disk.specs.View.{View};
ghost use Rattle.kdb_disk.specs.Frames.{IsCall};
ghost use Rattle.kdb_disk.specs.Moments.{LeavesOnly};
ghost use Rattle.kdb_control.specs.declared.force.Force.TheVariants.{Is};
ghost use Rattle.kdb_control.specs.Moments.{HasInForce};
ghost use Rattle.kdb_places.specs.Places.{log_anew, restashed};
ghost use Rattle.update_log.specs.Logs.{begun};
ghost use Rattle.store_files.specs.Kept.{Kept, IsOnDisk, place_kept};
ghost use Rattle.store_files.specs.Recovery.{LeavesPart};
ghost use Rattle.store_files.specs.Switches.{IsSpareFor, reset_choice, stash_choice};
ghost use Rattle.store_switches.specs.Switched.{with_log, with_stash, IsUnder};

use crate::controls::stash_file;
use kdb_control::{Control, switch};
use kdb_disk::{Disk, DiskFailed, replace_file};
use update_log::NewLog;

/// Writes the log that is to be begun anew into its file, and puts the choice that names it into force. It
/// takes no memory.
///
/// At each moment a crash leaves the place before, or the one with the log begun anew.
pub fn reset_files<D: Disk>(
    disk: &mut D,
    now: &Control,
    next: &Control,
    log: &NewLog,
) -> Result<(), DiskFailed>
    requires force { D.tells → HasInForce (Is now.now) (D.view disk.old) }
    requires format { now.now.format ≡ 2 }
    requires next { next.now ≡ reset_choice next.now.log next.now.base next.now.size next.now.block now.now }
    requires spare { IsSpareFor now.now next.now.log }
    requires size { 0 < next.now.size }
    requires log { log.now ≡ begun next.now.log next.now.base next.now.size next.now.block }
    ensures crash { D.tells → (k : Kept)
        → IsUnder now.now k (D.view disk.old) → LeavesOnly (D.view disk.old) (D.view disk.new)
        (LeavesPart (place_kept k) (log_anew next.now.base next.now.size next.now.block (place_kept k) ∷ [])) }
    ensures on { D.tells → (k : Kept) → IsUnder now.now k (D.view disk.old)
        → OnOk result (IsOnDisk (with_log next.now log.now k) (D.view disk.new)) }
    ensures others { D.tells
        → OnOk result ((g : ℕ) → g ≢ 0 → g ≢ next.now.log → (D.view disk.new).seen g ≡ (D.view disk.old).seen g) }
    ensures call { IsCall D.Disk disk.old disk.new (IsErr result) }
{
    log.write(disk)?;
    switch(disk, Some(now), next)
}

/// Writes these bytes into the spare stash file, and puts the choice that names it into force. It takes no
/// memory.
///
/// At each moment a crash leaves the place before, or the one with the new stash.
pub fn restash_files<D: Disk>(
    disk: &mut D,
    now: &Control,
    next: &Control,
    bytes: &[u8],
) -> Result<(), DiskFailed>
    requires force { D.tells → HasInForce (Is now.now) (D.view disk.old) }
    requires next { next.now ≡ stash_choice next.now.stash now.now }
    requires spare { IsSpareFor now.now next.now.stash }
    requires file { next.now.stash < 7 }
    ensures crash { D.tells → (k : Kept) → IsUnder now.now k (D.view disk.old) → LeavesOnly (D.view disk.old)
        (D.view disk.new) (LeavesPart (place_kept k) (restashed bytes.now (place_kept k) ∷ [])) }
    ensures on { D.tells → (k : Kept) → IsUnder now.now k (D.view disk.old)
        → OnOk result (IsOnDisk (with_stash next.now bytes.now k) (D.view disk.new)) }
    ensures others { D.tells
        → OnOk result ((g : ℕ) → g ≢ 0 → g ≢ next.now.stash → (D.view disk.new).seen g ≡ (D.view disk.old).seen g) }
    ensures call { IsCall D.Disk disk.old disk.new (IsErr result) }
{
    replace_file(disk, stash_file(next), bytes)?;
    switch(disk, Some(now), next)
}
