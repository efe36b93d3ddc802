ghost use Rattle.std.specs.Prelude.{◌≡◌, ◌≤◌, ◌<◌, ◌+◌, length, take, IfOk, IsErr};
ghost use Rattle.kdb_disk.specs.View.{View, Looks};
ghost use Rattle.kdb_disk.specs.Moments.{Keeps};
ghost use Rattle.kdb_disk.specs.Frames.{IsCall};
ghost use Rattle.kdb_control.specs.Force.{in_force as force_of, slot, slot_bytes};
ghost use Rattle.kdb_control.specs.Moments.{control_file, StartAlike};

use crate::force::{Force, Slot, in_force, slot_at};
use kdb_disk::{Disk, DiskFailed};

/// The number of the control file.
pub const CONTROL: u8 = 0;

// The length of both slots.
const FRONT: usize = 128;

// Reads a piece behind the bytes that were read, and gives its length.
fn read_piece<D: Disk>(disk: &mut D, front: &mut [u8], count: usize) -> Result<usize, DiskFailed>
    requires room { count < length front.old }
    requires at { D.tells → count ≤ length (control_file D.Disk disk.old) }
    ensures count { IfOk result (λ n. count + n ≤ length front.old) }
    ensures within { D.tells → IfOk result (λ n. count + n ≤ length (control_file D.Disk disk.old)) }
    ensures bytes { D.tells → StartAlike count front.old (control_file D.Disk disk.old)
        → IfOk result (λ n. StartAlike (count + n) front.new (control_file D.Disk disk.old)) }
    ensures all { D.tells → IfOk result (λ n. n ≡ 0 → length (control_file D.Disk disk.old) ≤ count) }
    ensures looks { D.tells → Looks (D.view disk.old) (D.view disk.new) }
    ensures call { IsCall D.Disk disk.old disk.new (IsErr result) }
{
    disk.read(CONTROL, count as u64, &mut front[count..])
}

// Reads the bytes of both slots, as far as the file goes, and gives their number.
fn read_front<D: Disk>(disk: &mut D, front: &mut [u8]) -> Result<usize, DiskFailed>
    requires { length front.old ≡ 128 }
    ensures count { IfOk result (λ n. n ≤ 128) }
    ensures bytes { D.tells → IfOk result (λ n. take n front.new ≡ take 128 (control_file D.Disk disk.old)) }
    ensures keeps { D.tells → Keeps (D.view disk.old) (D.view disk.new) }
    ensures call { IsCall D.Disk disk.old disk.new (IsErr result) }
{
    let mut count = 0;
    while count < FRONT {
        match read_piece(disk, front, count) {
            Ok(0) => return Ok(count),
            Ok(more) => count += more,
            Err(failed) => return Err(failed),
        }
    }
    Ok(count)
}

// What the control file has in force.
pub(crate) fn find<D: Disk>(disk: &mut D) -> Result<Force, DiskFailed>
    ensures force { D.tells → IfOk result (λ force. force ≡ force_of (control_file D.Disk disk.old)) }
    ensures keeps { D.tells → Keeps (D.view disk.old) (D.view disk.new) }
    ensures call { IsCall D.Disk disk.old disk.new (IsErr result) }
{
    let mut front = [0; FRONT];
    match read_front(disk, &mut front) {
        Ok(count) => Ok(in_force(&front[..count])),
        Err(failed) => Err(failed),
    }
}

// What stands in the first slot.
pub(crate) fn first_slot<D: Disk>(disk: &mut D) -> Result<Slot, DiskFailed>
    ensures slot { D.tells → IfOk result (λ first. first ≡ slot (slot_bytes 0 (control_file D.Disk disk.old))) }
    ensures keeps { D.tells → Keeps (D.view disk.old) (D.view disk.new) }
    ensures call { IsCall D.Disk disk.old disk.new (IsErr result) }
{
    let mut front = [0; FRONT];
    match read_front(disk, &mut front) {
        Ok(count) => Ok(slot_at(&front[..count], 0)),
        Err(failed) => Err(failed),
    }
}
