//! A database opened: its files are read, and the last entry is done again.
ghost use Rattle.std.specs.Prelude.{◌≡◌, ◌≢◌, ◌⊎◌, ℕ, IfOk, IfErr, IsErr, Err};
ghost use Rattle.kdb_base.specs.declared.outcomes.Halt.TheVariants.{MemoryOut as IsMemoryOut, DiskFault as IsDiskFault};
ghost use Rattle.kdb_base.specs.declared.outcomes.Refusal.{Refusal as Refuses};
ghost use Rattle.kdb_base.specs.declared.outcomes.Stop.TheVariants.{Refused, Halt as Halts};
ghost use Rattle.kdb_disk.specs.Frames.{IsCall};
ghost use Rattle.kdb_disk.specs.Moments.{Keeps, LeavesOnly, IsSettled};
ghost use Rattle.kdb_disk.specs.View.{View};
ghost use Rattle.update_log.specs.Moments.{HasLog};
ghost use Rattle.store_files.specs.Found.{found_in};
ghost use Rattle.store_files.specs.Kept.{IsKept, IsOnDisk};
ghost use Rattle.store_files.specs.Recovery.{IsLike};
ghost use Rattle.store_opening.specs.Looking.{AreLooked, StopsOpening};
ghost use Rattle.store_opening.specs.Parts.{kept_of};
ghost use Rattle.store_opening.specs.Reading.{IsFoundOf};

use crate::looking::{Again, look};
use crate::parts::Parts;
use crate::unit_writes::write_unit;
use kdb_base::{Halt, Stop};
use kdb_control::Control;
use kdb_disk::{Disk, DiskFailed, settle_all};
use std::alloc::Global;

// Tells a proof that the file of cells is one of the first two, and does nothing.
fn holds_image(control: &Control)
    ensures { (control.now.image ≡ 1) ⊎ (control.now.image ≡ 2) }
{
    let _image = control.image;
}

// Does the last entry again in its unit. It takes no memory, and makes two device calls at most.
fn write_again<D: Disk>(disk: &mut D, again: Again) -> Result<Parts, DiskFailed>
    requires looked { AreLooked D.tells again (D.view disk.old).seen }
    requires log { D.tells → HasLog again.parts.log (D.view disk.old) }
    requires settled { D.tells → IsSettled (D.view disk.old) }
    ensures kept { IfOk result (λ p. IsKept (kept_of p)) }
    ensures found { D.tells → IfOk result (λ p. IsFoundOf (kept_of p) (found_in (D.view disk.old).seen)) }
    ensures on { D.tells → IfOk result (λ p. IsOnDisk (kept_of p) (D.view disk.new)) }
    ensures moments { D.tells → LeavesOnly (D.view disk.old) (D.view disk.new) (IsLike (D.view disk.old)) }
    ensures others { D.tells → (g : ℕ) → g ≢ 1 → g ≢ 2 → (D.view disk.new).seen g ≡ (D.view disk.old).seen g }
    ensures image { D.tells → IfOk result (λ p. (g : ℕ) → g ≢ p.control.image
        → (D.view disk.new).seen g ≡ (D.view disk.old).seen g) }
    ensures call { IsCall D.Disk disk.old disk.new (IsErr result) }
{
    let Again { mut parts, write } = again;
    holds_image(&parts.control);
    match write_unit(disk, &mut parts.cells, write) {
        Ok(()) => Ok(parts),
        Err(failed) => {
            drop(parts);
            Err(failed)
        }
    }
}

// Opens the database of files that were synced.
fn recover_settled<D: Disk>(alloc: Global, disk: &mut D) -> Result<Parts, Stop>
    requires settled { D.tells → IsSettled (D.view disk.old) }
    ensures found { D.tells → IfOk result (λ p. IsFoundOf (kept_of p) (found_in (D.view disk.old).seen)) }
    ensures refused { D.tells → (r : Refuses) → result ≡ Err (Refused r) → found_in (D.view disk.old).seen ≡ Err r }
    ensures stops { IfErr result StopsOpening }
    ensures kept { IfOk result (λ p. IsKept (kept_of p)) }
    ensures on { D.tells → IfOk result (λ p. IsOnDisk (kept_of p) (D.view disk.new)) }
    ensures moments { D.tells → LeavesOnly (D.view disk.old) (D.view disk.new) (IsLike (D.view disk.old)) }
    ensures refused_keeps { D.tells → (r : Refuses) → result ≡ Err (Refused r)
        → Keeps (D.view disk.old) (D.view disk.new) }
    ensures memory_keeps { D.tells → result ≡ Err (Halts IsMemoryOut) → Keeps (D.view disk.old) (D.view disk.new) }
    ensures others { D.tells → (g : ℕ) → g ≢ 1 → g ≢ 2 → (D.view disk.new).seen g ≡ (D.view disk.old).seen g }
    ensures image { D.tells → IfOk result (λ p. (g : ℕ) → g ≢ p.control.image
        → (D.view disk.new).seen g ≡ (D.view disk.old).seen g) }
    ensures refused_settled { D.tells → (r : Refuses) → result ≡ Err (Refused r) → IsSettled (D.view disk.new) }
    ensures call { IsCall D.Disk disk.old disk.new (result ≡ Err (Halts IsDiskFault)) }
{
    let again = match look(alloc, disk) {
        Ok(again) => again,
        Err(stop) => return Err(stop),
    };
    match write_again(disk, again) {
        Ok(parts) => Ok(parts),
        Err(_) => Err(Stop::Halt(Halt::DiskFault)),
    }
}

/// Opens the database that the files stand for, in whichever format it is. Every file is synced first. The
/// last entry of the log is done again in its unit, which may have any bytes; all else is only read.
/// `NotADatabase` comes where no control slot is open, and `Damaged` at the place where a file breaks its
/// grammar: the control file first, then the log, the number of the last entry's unit, the cells, and the
/// last entry against them. Memory is taken before the unit is written.
///
/// At each moment a crash leaves files that stand for what they stood for.
pub fn recover_parts<D: Disk>(alloc: Global, disk: &mut D) -> Result<Parts, Stop>
    ensures found { D.tells → IfOk result (λ p. IsFoundOf (kept_of p) (found_in (D.view disk.old).seen)) }
    ensures refused { D.tells → (r : Refuses) → result ≡ Err (Refused r) → found_in (D.view disk.old).seen ≡ Err r }
    ensures stops { IfErr result StopsOpening }
    ensures kept { IfOk result (λ p. IsKept (kept_of p)) }
    ensures on { D.tells → IfOk result (λ p. IsOnDisk (kept_of p) (D.view disk.new)) }
    ensures moments { D.tells → LeavesOnly (D.view disk.old) (D.view disk.new) (IsLike (D.view disk.old)) }
    ensures refused_keeps { D.tells → (r : Refuses) → result ≡ Err (Refused r)
        → Keeps (D.view disk.old) (D.view disk.new) }
    ensures memory_keeps { D.tells → result ≡ Err (Halts IsMemoryOut) → Keeps (D.view disk.old) (D.view disk.new) }
    // Whatever the answer is, no file is written but one of the two of cells.
    ensures others { D.tells → (g : ℕ) → g ≢ 1 → g ≢ 2 → (D.view disk.new).seen g ≡ (D.view disk.old).seen g }
    // Where it was opened, it is the one that is in force.
    ensures image { D.tells → IfOk result (λ p. (g : ℕ) → g ≢ p.control.image
        → (D.view disk.new).seen g ≡ (D.view disk.old).seen g) }
    ensures refused_settled { D.tells → (r : Refuses) → result ≡ Err (Refused r) → IsSettled (D.view disk.new) }
    ensures call { IsCall D.Disk disk.old disk.new (result ≡ Err (Halts IsDiskFault)) }
{
    match settle_all(disk) {
        Ok(()) => recover_settled(alloc, disk),
        Err(_) => Err(Stop::Halt(Halt::DiskFault)),
    }
}
