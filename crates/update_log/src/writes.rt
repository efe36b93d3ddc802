ghost use Rattle.std.specs.Prelude.{◌≡◌, ◌≤◌, ◌<◌, ◌*◌, ◌+◌, ◌-◌, ◌^◌, length, ℕ, OnOk, IsErr};
ghost use Rattle.kdb_base.specs.declared.moments.Point.{Point};
ghost use Rattle.kdb_disk.specs.View.{View, IsAfter};
ghost use Rattle.kdb_disk.specs.Moments.{LeavesOnly, Differs};
ghost use Rattle.kdb_disk.specs.Frames.{IsCall, IsCrashSafe};
ghost use Rattle.princ_rows.specs.declared.entries.Logged.{Logged};
ghost use Rattle.update_log.specs.Logs.{Journal, begun};
ghost use Rattle.update_log.specs.Moments.{IsDurable, MayShut, IsShut, IsFilled, HasLog};
ghost use Rattle.update_log.specs.Moments.{LeavesLog, IsNext, IsMarker, Prepares, ReadsOthers};

use kdb_disk::{Disk, DiskFailed, close_gate, empty_file, fill_body, open_gate, shut_gate};

// Closes the gate at this place, where it reads open.
fn shut_slot<D: Disk>(disk: &mut D, file: u8, at: u64) -> Result<(), DiskFailed>
    requires file { file < 7 }
    requires fits { at + 1 < 2 ^ 64 }
    requires within { D.tells → at < length ((D.view disk.old).seen file) }
    requires durable { D.tells → IsDurable file (D.view disk.old) }
    ensures moments { D.tells → (block slot : ℕ) → 2 ≤ block → at ≡ slot * block
        → LeavesOnly (D.view disk.old) (D.view disk.new) (MayShut file block slot (D.view disk.old)) }
    ensures ok { D.tells → (block slot : ℕ) → 2 ≤ block → at ≡ slot * block
        → OnOk result (IsShut file block slot (D.view disk.old) (D.view disk.new)) }
    ensures begun { D.tells → OnOk result (at < length ((D.view disk.new).seen file)) }
    ensures call { IsCall D.Disk disk.old disk.new (IsErr result) }
{
    shut_gate(disk, file, at)
}

// Begins the slot at the file's end by its closed gate.
fn close_slot<D: Disk>(disk: &mut D, file: u8, at: u64) -> Result<(), DiskFailed>
    requires file { file < 7 }
    requires fits { at + 1 < 2 ^ 64 }
    requires end { D.tells → at ≡ length ((D.view disk.old).seen file) }
    requires durable { D.tells → IsDurable file (D.view disk.old) }
    ensures moments { D.tells → (block slot : ℕ) → 2 ≤ block → at ≡ slot * block
        → LeavesOnly (D.view disk.old) (D.view disk.new) (MayShut file block slot (D.view disk.old)) }
    ensures ok { D.tells → (block slot : ℕ) → 2 ≤ block → at ≡ slot * block
        → OnOk result (IsShut file block slot (D.view disk.old) (D.view disk.new)) }
    ensures begun { D.tells → OnOk result (at < length ((D.view disk.new).seen file)) }
    ensures call { IsCall D.Disk disk.old disk.new (IsErr result) }
{
    close_gate(disk, file, at)
}

// Sees to it that the slot at this place begins with a closed gate.
fn begin_slot<D: Disk>(disk: &mut D, file: u8, at: u64) -> Result<(), DiskFailed>
    requires file { file < 7 }
    requires fits { at + 1 < 2 ^ 64 }
    requires within { D.tells → at ≤ length ((D.view disk.old).seen file) }
    requires durable { D.tells → IsDurable file (D.view disk.old) }
    ensures moments { D.tells → (block slot : ℕ) → 2 ≤ block → at ≡ slot * block
        → LeavesOnly (D.view disk.old) (D.view disk.new) (MayShut file block slot (D.view disk.old)) }
    ensures ok { D.tells → (block slot : ℕ) → 2 ≤ block → at ≡ slot * block
        → OnOk result (IsShut file block slot (D.view disk.old) (D.view disk.new)) }
    ensures begun { D.tells → OnOk result (at < length ((D.view disk.new).seen file)) }
    ensures call { IsCall D.Disk disk.old disk.new (IsErr result) }
{
    match disk.length(file) {
        Ok(end) if at < end => shut_slot(disk, file, at),
        Ok(_) => close_slot(disk, file, at),
        Err(failed) => Err(failed),
    }
}

/// Writes the body into the slot at this place, behind a closed gate.
pub(crate) fn fill_slot<D: Disk>(
    disk: &mut D,
    file: u8,
    at: u64,
    body: &[u8],
) -> Result<(), DiskFailed>
    requires file { file < 7 }
    requires fits { at < 2 ^ 32 }
    requires body { (1 ≤ length body.now) × (length body.now < 2 ^ 32) }
    requires within { D.tells → at ≤ length ((D.view disk.old).seen file) }
    requires durable { D.tells → IsDurable file (D.view disk.old) }
    ensures moments { D.tells → (block slot : ℕ) → length body.now + 1 ≡ block → at ≡ slot * block
        → LeavesOnly (D.view disk.old) (D.view disk.new) (MayShut file block slot (D.view disk.old)) }
    ensures ok { D.tells → (block slot : ℕ) → length body.now + 1 ≡ block → at ≡ slot * block
        → OnOk result (IsFilled file block slot body.now (D.view disk.old) (D.view disk.new)) }
    ensures call { IsCall D.Disk disk.old disk.new (IsErr result) }
{
    begin_slot(disk, file, at)?;
    fill_body(disk, file, at, body)
}

/// Writes the body of the next entry behind a closed gate.
pub(crate) fn write_next<D: Disk>(
    disk: &mut D,
    file: u8,
    at: u64,
    body: &[u8],
) -> Result<(), DiskFailed>
    requires file { file < 7 }
    requires fits { at < 2 ^ 32 }
    requires body { (1 ≤ length body.now) × (length body.now < 2 ^ 32) }
    requires within { D.tells → at ≤ length ((D.view disk.old).seen file) }
    requires durable { D.tells → IsDurable file (D.view disk.old) }
    ensures crash { D.tells → (log : Journal) (next : Logged)
        → IsNext log next file at body.now → HasLog log (D.view disk.old)
        → LeavesOnly (D.view disk.old) (D.view disk.new) (LeavesLog log (D.view disk.old)) }
    ensures ok { D.tells → (log : Journal) (next : Logged) → IsNext log next file at body.now
        → HasLog log (D.view disk.old) → OnOk result (Prepares log next (D.view disk.old) (D.view disk.new)) }
    ensures call { IsCall D.Disk disk.old disk.new (IsErr result) }
{
    fill_slot(disk, file, at, body)
}

/// Empties the file, and writes the body of the base marker into its first slot by the gate.
pub(crate) fn write_first<D: Disk>(disk: &mut D, file: u8, body: &[u8]) -> Result<(), DiskFailed>
    requires file { file < 7 }
    requires body { (1 ≤ length body.now) × (length body.now < 2 ^ 32) }
    ensures crash { IsCrashSafe D.Disk disk.old disk.new (IsAfter (Differs file) (D.view disk.old)) }
    ensures ok { D.tells → (base : Point) (size block : ℕ) (marker : Logged) → IsMarker base size block marker body.now
        → OnOk result (HasLog (begun file base size block) (D.view disk.new)) }
    ensures durable { D.tells → OnOk result (IsDurable file (D.view disk.new)) }
    ensures others { D.tells → OnOk result (ReadsOthers file (D.view disk.old) (D.view disk.new)) }
    ensures call { IsCall D.Disk disk.old disk.new (IsErr result) }
{
    empty_file(disk, file)?;
    fill_slot(disk, file, 0, body)?;
    open_gate(disk, file, 0)
}
