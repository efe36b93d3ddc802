//! The gate by which a body is written so that a crash leaves it whole or not at all.
//!
//! A gate is one byte before its body: a5 hexadecimal is open, and all else is closed. The gate is
//! closed on the disk, the body is filled and synced, and the gate is opened by a write of its own.
//! Each of the three is one call with one written range, so that what a crash inside it may leave is
//! an image from before but for that range.
//!
//! A gate that reads closed is not closed again: a crash inside that write might leave it open over
//! a body that an earlier crash left torn. [`shut_gate`] looks first.
ghost use Rattle.std.specs.Prelude.{◌≡◌, ◌≢◌, ◌≤◌, ◌<◌, ◌+◌, ◌^◌, ◌↔◌, [], ◌∷◌};
ghost use Rattle.std.specs.Prelude.{length, max, slice_index, IfOk, OnOk, IsTrue};
ghost use Rattle.kdb_base.specs.Causes.{HasCause};
ghost use Rattle.kdb_disk.specs.View.{View, Looks};
ghost use Rattle.kdb_disk.specs.Moments.{LeavesTorn, Stands, Keeps};

use crate::disk::{Disk, DiskFailed};

/// A gate that is open. Every other byte is closed.
pub const OPEN: u8 = 0xa5;

/// The byte by which a gate is closed.
pub const CLOSED: u8 = 0;

/// Writes the bytes at `at`, over what is there and past the end, and syncs the file.
pub fn write_synced<D: Disk>(
    disk: &mut D,
    file: u8,
    at: u64,
    bytes: &[u8],
) -> Result<(), DiskFailed>
    requires file { file < 7 }
    requires at { D.tells → at ≤ length ((D.view disk.old).seen file) }
    requires fits { at + length bytes.now < 2 ^ 64 }
    ensures moments { D.tells → LeavesTorn file at (length bytes.now) (D.view disk.old) (D.view disk.new) }
    ensures ok { D.tells → OnOk result (Stands file at bytes.now (D.view disk.old) (D.view disk.new)) }
    ensures length { D.tells → OnOk result
        (length ((D.view disk.new).seen file) ≡ max (length ((D.view disk.old).seen file)) (at + length bytes.now)) }
    ensures same { D.loans disk.new ≡ D.loans disk.old }
    ensures cause { HasCause (D.faults disk.old) (D.faults disk.new) result }
{
    disk.write_at(file, at, bytes)?;
    disk.sync(file)
}

/// Closes the gate at `at`, on the disk. Two device calls.
///
/// Over a gate that reads closed, call [`shut_gate`].
pub fn close_gate<D: Disk>(disk: &mut D, file: u8, at: u64) -> Result<(), DiskFailed>
    requires file { file < 7 }
    requires at { D.tells → at ≤ length ((D.view disk.old).seen file) }
    requires fits { at + 1 < 2 ^ 64 }
    ensures moments { D.tells → LeavesTorn file at 1 (D.view disk.old) (D.view disk.new) }
    ensures ok { D.tells → OnOk result (Stands file at (0 ∷ []) (D.view disk.old) (D.view disk.new)) }
    ensures length { D.tells
        → OnOk result (length ((D.view disk.new).seen file) ≡ max (length ((D.view disk.old).seen file)) (at + 1)) }
    ensures same { D.loans disk.new ≡ D.loans disk.old }
    ensures cause { HasCause (D.faults disk.old) (D.faults disk.new) result }
{
    write_synced(disk, file, at, &[CLOSED])
}

/// Fills the body behind the gate at `at`, on the disk. Two device calls.
pub fn fill_body<D: Disk>(disk: &mut D, file: u8, at: u64, body: &[u8]) -> Result<(), DiskFailed>
    requires file { file < 7 }
    requires body { 0 < length body.now }
    requires at { D.tells → at < length ((D.view disk.old).seen file) }
    requires fits { at + length body.now + 1 < 2 ^ 64 }
    ensures moments { D.tells → LeavesTorn file (at + 1) (length body.now) (D.view disk.old) (D.view disk.new) }
    ensures ok { D.tells → OnOk result (Stands file (at + 1) body.now (D.view disk.old) (D.view disk.new)) }
    ensures length { D.tells → OnOk result
        (length ((D.view disk.new).seen file) ≡ max (length ((D.view disk.old).seen file)) (at + 1 + length body.now)) }
    ensures same { D.loans disk.new ≡ D.loans disk.old }
    ensures cause { HasCause (D.faults disk.old) (D.faults disk.new) result }
{
    write_synced(disk, file, at + 1, body)
}

/// Opens the gate at `at`, on the disk. Two device calls.
pub fn open_gate<D: Disk>(disk: &mut D, file: u8, at: u64) -> Result<(), DiskFailed>
    requires file { file < 7 }
    requires at { D.tells → at < length ((D.view disk.old).seen file) }
    requires fits { at + 1 < 2 ^ 64 }
    ensures moments { D.tells → LeavesTorn file at 1 (D.view disk.old) (D.view disk.new) }
    ensures ok { D.tells → OnOk result (Stands file at (165 ∷ []) (D.view disk.old) (D.view disk.new)) }
    ensures length { D.tells
        → OnOk result (length ((D.view disk.new).seen file) ≡ length ((D.view disk.old).seen file)) }
    ensures same { D.loans disk.new ≡ D.loans disk.old }
    ensures cause { HasCause (D.faults disk.old) (D.faults disk.new) result }
{
    write_synced(disk, file, at, &[OPEN])
}

/// Whether the gate at `at` reads open. Where the file ends there, it is closed.
pub fn is_open<D: Disk>(disk: &mut D, file: u8, at: u64) -> Result<bool, DiskFailed>
    requires file { file < 7 }
    requires at { D.tells → at ≤ length ((D.view disk.old).seen file) }
    ensures open { D.tells
        → IfOk result (λ reads. IsTrue reads ↔ (slice_index ((D.view disk.old).seen file) at ≡ 165)) }
    ensures looks { D.tells → Looks (D.view disk.old) (D.view disk.new) }
    ensures same { D.loans disk.new ≡ D.loans disk.old }
    ensures cause { HasCause (D.faults disk.old) (D.faults disk.new) result }
{
    let mut gate = [CLOSED];
    match disk.read(file, at, &mut gate) {
        Ok(0) => Ok(false),
        Ok(_) => Ok(gate[0] == OPEN),
        Err(failed) => Err(failed),
    }
}

/// Closes the gate at `at`, on the disk, where it reads open. One that reads anything else is closed
/// already, and is not written.
pub fn shut_gate<D: Disk>(disk: &mut D, file: u8, at: u64) -> Result<(), DiskFailed>
    requires file { file < 7 }
    requires at { D.tells → at ≤ length ((D.view disk.old).seen file) }
    requires fits { at + 1 < 2 ^ 64 }
    ensures moments { D.tells → LeavesTorn file at 1 (D.view disk.old) (D.view disk.new) }
    // a closed gate is looked at alone
    ensures closed { D.tells → slice_index ((D.view disk.old).seen file) at ≢ 165
        → Keeps (D.view disk.old) (D.view disk.new) }
    ensures open { D.tells → slice_index ((D.view disk.old).seen file) at ≡ 165
        → OnOk result (Stands file at (0 ∷ []) (D.view disk.old) (D.view disk.new)) }
    ensures ok { D.tells → OnOk result (slice_index ((D.view disk.new).seen file) at ≢ 165) }
    ensures length { D.tells
        → OnOk result (length ((D.view disk.new).seen file) ≡ length ((D.view disk.old).seen file)) }
    ensures same { D.loans disk.new ≡ D.loans disk.old }
    ensures cause { HasCause (D.faults disk.old) (D.faults disk.new) result }
{
    match is_open(disk, file, at) {
        Ok(true) => close_gate(disk, file, at),
        Ok(false) => Ok(()),
        Err(failed) => Err(failed),
    }
}
