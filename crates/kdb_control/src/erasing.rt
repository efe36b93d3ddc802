ghost use Rattle.std.specs.Prelude.{◌≡◌, ◌≤◌, ◌<◌, ◌-◌, ℕ, [], OnOk, IsErr};
ghost use Rattle.kdb_disk.specs.View.{View};
ghost use Rattle.kdb_disk.specs.Frames.{IsCall, IsCrashSafe};
ghost use Rattle.kdb_control.specs.declared.force.Force.TheVariants.{Nothing, Is};
ghost use Rattle.kdb_control.specs.Force.{in_force};
ghost use Rattle.kdb_control.specs.Moments.{control_file, IsDurable, IsPlace, HasInForce, HasNothing};
ghost use Rattle.kdb_control.specs.Moments.{Erases, LeavesEither, IsInForce};

use crate::choice::Control;
use crate::force::{FIRST, SECOND};
use crate::front::CONTROL;
use crate::slots::shut_slot;
use crate::spare::spare_place;
use kdb_disk::{Disk, DiskFailed, FILES, empty_file};

// The place of the other slot.
fn other_place(at: u64) -> u64
    requires { IsPlace at }
    ensures other { result ≡ 64 - at }
    ensures place { IsPlace result }
{
    if at == FIRST { SECOND } else { FIRST }
}

// Closes the gate of the older slot, and then that of the newer one.
fn shut_both<D: Disk>(disk: &mut D, now: &Control) -> Result<(), DiskFailed>
    requires durable { D.tells → IsDurable (D.view disk.old) }
    requires now { D.tells → in_force (control_file D.Disk disk.old) ≡ Is now.now }
    ensures crash { IsCrashSafe D.Disk disk.old disk.new (LeavesEither (Is now.now) Nothing (D.view disk.old)) }
    ensures ok { D.tells → OnOk result (IsInForce Nothing (D.view disk.old) (D.view disk.new)) }
    ensures call { IsCall D.Disk disk.old disk.new (IsErr result) }
{
    let older = spare_place(disk, now)?;
    shut_slot(disk, older)?;
    shut_slot(disk, other_place(older))
}

// Cuts every file but the control file to nothing.
fn cut_files<D: Disk>(disk: &mut D) -> Result<(), DiskFailed>
    requires { D.tells → HasInForce Nothing (D.view disk.old) }
    ensures crash { IsCrashSafe D.Disk disk.old disk.new HasNothing }
    ensures empty { D.tells → OnOk result ((g : ℕ) → 1 ≤ g → g < 7 → (D.view disk.new).seen g ≡ []) }
    ensures call { IsCall D.Disk disk.old disk.new (IsErr result) }
{
    for file in 1..FILES {
        empty_file(disk, file)?;
    }
    Ok(())
}

/// Takes what is in force out of force, and then cuts all other files to nothing. It takes no
/// memory.
///
/// At each moment a crash leaves it in force with all other files as before, or nothing in force.
pub fn erase<D: Disk>(disk: &mut D, now: &Control) -> Result<(), DiskFailed>
    requires { D.tells → HasInForce (Is now.now) (D.view disk.old) }
    ensures crash { IsCrashSafe D.Disk disk.old disk.new (Erases now.now (D.view disk.old)) }
    ensures nothing { D.tells → OnOk result (HasInForce Nothing (D.view disk.new)) }
    ensures empty { D.tells → OnOk result ((g : ℕ) → 1 ≤ g → g < 7 → (D.view disk.new).seen g ≡ []) }
    ensures call { IsCall D.Disk disk.old disk.new (IsErr result) }
{
    disk.sync(CONTROL)?;
    shut_both(disk, now)?;
    cut_files(disk)
}
