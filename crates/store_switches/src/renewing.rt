//! Rows and a log written anew into the spare files, and the choice that names both put into force.
ghost use Rattle.std.specs.Prelude.{◌≡◌, ◌≢◌, ◌≤◌, ◌-◌, ◌∷◌, [], true, List, ℕ, OnOk, IsErr};
ghost use Rattle.kdb_disk.specs.View.{View};
ghost use Rattle.kdb_disk.specs.Frames.{IsCall};
ghost use Rattle.kdb_disk.specs.Moments.{LeavesOnly};
ghost use Rattle.kdb_control.specs.declared.force.Force.TheVariants.{Is};
ghost use Rattle.kdb_control.specs.Moments.{HasInForce};
ghost use Rattle.princ_rows.specs.Rows.{RowLists};
ghost use Rattle.update_log.specs.Logs.{begun};
ghost use Rattle.kdb_cells.specs.CellFiles.{is_image};
ghost use Rattle.store_files.specs.Kept.{Kept, IsOnDisk, place_kept};
ghost use Rattle.store_files.specs.Recovery.{LeavesPart};
ghost use Rattle.store_switches.specs.Renewed.{renewed_choice, renewed, place_renewed, IsRenewal, HasRows};
ghost use Rattle.store_switches.specs.Switched.{IsUnder};

use crate::controls::spare_log;
use cell_files::NewFile;
use kdb_base::Point;
use kdb_control::{Control, switch};
use kdb_disk::{Disk, DiskFailed};
use update_log::NewLog;

// The file of cells that is not in force.
#[tactic(auto, using(crate::proofs::Ranges::image_low, crate::proofs::Ranges::image_high))]
fn spare_image(now: &Control) -> u8
    ensures other { result ≡ 3 - now.now.image }
    ensures low { 1 ≤ result }
    ensures high { result ≤ 2 }
{
    3 - now.image
}

/// The choice of files with the rows written anew in the other file of cells, and the log begun anew at
/// this base in the other log file.
///
/// `size` is the number of entries that the log holds, and `block` the length of their slots in bytes.
pub fn renewed_control(now: &Control, base: &Point, size: u32, block: u32) -> Control
    requires size { (2 ≤ size) × (size ≤ 10000) }
    requires block { (2048 ≤ block) × (block ≤ 16384) }
    ensures value { result ≡ renewed_choice result.image result.log base.now size block now.now }
    ensures renewal { IsRenewal now.now result }
    ensures image { is_image result.image ≡ true }
    ensures log { (3 ≤ result.log) × (result.log ≤ 4) }
{
    Control {
        format: 2,
        turn: now.turn_after(),
        image: spare_image(now),
        log: spare_log(now),
        stash: now.stash,
        size,
        block,
        base: *base,
    }
}

/// Writes the rows and the log that is to be begun anew into their files, and then puts the choice that
/// names both into force. It takes no memory.
///
/// At each moment a crash leaves the place before, or the one with these rows and the log begun anew.
pub fn renew_files<D: Disk>(
    disk: &mut D,
    now: &Control,
    next: &Control,
    image: &mut NewFile,
    log: &NewLog,
) -> Result<(), DiskFailed>
    requires force { D.tells → HasInForce (Is now.now) (D.view disk.old) }
    requires next { IsRenewal now.now next.now }
    requires image { image.old.cells.file ≡ next.now.image }
    requires log { log.now ≡ begun next.now.log next.now.base next.now.size next.now.block }
    ensures crash { D.tells → (k : Kept) → (realm : List ℕ) → (rows : RowLists) → IsUnder now.now k (D.view disk.old)
        → HasRows realm rows image.old
        → LeavesOnly (D.view disk.old) (D.view disk.new) (LeavesPart (place_kept k)
        (place_renewed next.now.base next.now.size next.now.block realm rows (place_kept k) ∷ [])) }
    ensures on { D.tells → (k : Kept) → (realm : List ℕ) → (rows : RowLists) → IsUnder now.now k (D.view disk.old)
        → HasRows realm rows image.old
        → OnOk result (IsOnDisk (renewed next.now log.now image.old.cells realm rows k) (D.view disk.new)) }
    ensures written { D.tells → OnOk result ((D.view disk.new).seen next.now.image ≡ image.old.content) }
    ensures others { D.tells → OnOk result ((g : ℕ) → g ≢ 0 → g ≢ next.now.image → g ≢ next.now.log
        → (D.view disk.new).seen g ≡ (D.view disk.old).seen g) }
    ensures stays { image.new ≡ image.old }
    ensures call { IsCall D.Disk disk.old disk.new (IsErr result) }
{
    image.write(disk)?;
    log.write(disk)?;
    switch(disk, Some(now), next)
}
