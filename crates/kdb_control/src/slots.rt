ghost use Rattle.std.specs.Prelude.{◌≡◌, ◌≤◌, ◌<◌, ◌+◌, [], ◌∷◌, length, slice_index, OnOk, IsErr, Option};
ghost use Rattle.kdb_disk.specs.View.{View};
ghost use Rattle.kdb_disk.specs.Moments.{LeavesOnly, Stands};
ghost use Rattle.kdb_disk.specs.Frames.{IsCall};
ghost use Rattle.kdb_control.specs.declared.force.Force.TheVariants.{Is};
ghost use Rattle.kdb_control.specs.Choice.{Choice};
ghost use Rattle.kdb_control.specs.Moments.{control_file, force_of, IsPlace, IsDurable, IsLonger};
ghost use Rattle.kdb_control.specs.Moments.{ChangesSlot, SparesForce, LeavesEither, IsShut, IsFilled};
ghost use Rattle.kdb_control.specs.Moments.{MayOpen, IsInForce};

use crate::body::write_body;
use crate::choice::Control;
use crate::front::CONTROL;
use kdb_disk::{Disk, DiskFailed, close_gate, fill_body, open_gate, shut_gate};

// Closes the gate at this place where it reads open.
pub(crate) fn shut_slot<D: Disk>(disk: &mut D, at: u64) -> Result<(), DiskFailed>
    requires place { IsPlace at }
    requires within { D.tells → at ≤ length (control_file D.Disk disk.old) }
    requires durable { D.tells → IsDurable (D.view disk.old) }
    ensures crash { D.tells → ChangesSlot at (D.view disk.old) (D.view disk.new) }
    ensures ok { D.tells → OnOk result (IsShut at (D.view disk.old) (D.view disk.new)) }
    ensures length { D.tells → OnOk result (IsLonger 0 (D.view disk.old) (D.view disk.new)) }
    ensures call { IsCall D.Disk disk.old disk.new (IsErr result) }
{
    shut_gate(disk, CONTROL, at)
}

// Begins the slot at the file's end by its closed gate.
fn close_slot<D: Disk>(disk: &mut D, at: u64) -> Result<(), DiskFailed>
    requires place { IsPlace at }
    requires end { D.tells → at ≡ length (control_file D.Disk disk.old) }
    requires durable { D.tells → IsDurable (D.view disk.old) }
    ensures crash { D.tells → ChangesSlot at (D.view disk.old) (D.view disk.new) }
    ensures ok { D.tells → OnOk result (IsShut at (D.view disk.old) (D.view disk.new)) }
    ensures length { D.tells → OnOk result (IsLonger (at + 1) (D.view disk.old) (D.view disk.new)) }
    ensures zero { D.tells → length (control_file D.Disk disk.old) ≤ at
        → OnOk result (slice_index (control_file D.Disk disk.new) at ≡ 0) }
    ensures call { IsCall D.Disk disk.old disk.new (IsErr result) }
{
    close_gate(disk, CONTROL, at)
}

// Sees to it that the slot at this place begins with a closed gate.
pub(crate) fn begin_slot<D: Disk>(disk: &mut D, at: u64) -> Result<(), DiskFailed>
    requires place { IsPlace at }
    requires within { D.tells → at ≤ length (control_file D.Disk disk.old) }
    requires durable { D.tells → IsDurable (D.view disk.old) }
    ensures crash { D.tells → ChangesSlot at (D.view disk.old) (D.view disk.new) }
    ensures ok { D.tells → OnOk result (IsShut at (D.view disk.old) (D.view disk.new)) }
    ensures length { D.tells → OnOk result (IsLonger (at + 1) (D.view disk.old) (D.view disk.new)) }
    ensures zero { D.tells → length (control_file D.Disk disk.old) ≤ at
        → OnOk result (slice_index (control_file D.Disk disk.new) at ≡ 0) }
    ensures call { IsCall D.Disk disk.old disk.new (IsErr result) }
{
    match disk.length(CONTROL) {
        Ok(end) if at < end => shut_slot(disk, at),
        Ok(_) => close_slot(disk, at),
        Err(failed) => Err(failed),
    }
}

// Writes the body into the slot at this place, behind a closed gate.
pub(crate) fn fill_slot<D: Disk>(disk: &mut D, at: u64, next: &Control) -> Result<(), DiskFailed>
    requires place { IsPlace at }
    requires within { D.tells → at ≤ length (control_file D.Disk disk.old) }
    requires durable { D.tells → IsDurable (D.view disk.old) }
    ensures crash { D.tells → SparesForce at (D.view disk.old) (D.view disk.new) }
    ensures ok { D.tells → OnOk result (IsFilled at next.now (D.view disk.old) (D.view disk.new)) }
    ensures length { D.tells → OnOk result (IsLonger (at + 64) (D.view disk.old) (D.view disk.new)) }
    ensures call { IsCall D.Disk disk.old disk.new (IsErr result) }
{
    begin_slot(disk, at)?;
    fill_body(disk, CONTROL, at, &write_body(next))
}

// Opens the gate at this place.
pub(crate) fn open_slot<D: Disk>(disk: &mut D, at: u64) -> Result<(), DiskFailed>
    requires place { IsPlace at }
    requires within { D.tells → at < length (control_file D.Disk disk.old) }
    ensures crash { D.tells → (now : Option Choice) (next : Choice) → MayOpen at now next (D.view disk.old)
        → LeavesOnly (D.view disk.old) (D.view disk.new) (LeavesEither (force_of now) (Is next) (D.view disk.old)) }
    ensures ok { D.tells → (now : Option Choice) (next : Choice) → MayOpen at now next (D.view disk.old)
        → OnOk result (IsInForce (Is next) (D.view disk.old) (D.view disk.new)) }
    ensures stands { D.tells → OnOk result (Stands 0 at (165 ∷ []) (D.view disk.old) (D.view disk.new)) }
    ensures call { IsCall D.Disk disk.old disk.new (IsErr result) }
{
    open_gate(disk, CONTROL, at)
}
