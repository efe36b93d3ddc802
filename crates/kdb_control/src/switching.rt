ghost use Rattle.std.specs.Prelude.{◌≡◌, OnOk, IsErr, IfSome, Some, None, option_map};
ghost use Rattle.kdb_disk.specs.View.{View};
ghost use Rattle.kdb_disk.specs.Frames.{IsCall, IsCrashSafe};
ghost use Rattle.kdb_control.specs.declared.force.Force.TheVariants.{Nothing, Is};
ghost use Rattle.kdb_control.specs.Force.{in_force, turn_after};
ghost use Rattle.kdb_control.specs.Moments.{control_file, force_of, next_turn, IsDurable, HasInForce, IsInForce};
ghost use Rattle.kdb_control.specs.Moments.{LeavesEither, IsFirst, StillHolds};

use crate::choice::Control;
use crate::force::{FIRST, SECOND};
use crate::front::CONTROL;
use crate::slots::{begin_slot, fill_slot, open_slot};
use crate::spare::spare_place;
use kdb_disk::{Disk, DiskFailed};

// Puts the first choice into force.
fn switch_first<D: Disk>(disk: &mut D, next: &Control) -> Result<(), DiskFailed>
    requires durable { D.tells → IsDurable (D.view disk.old) }
    requires now { D.tells → in_force (control_file D.Disk disk.old) ≡ Nothing }
    requires turn { next.now.turn ≡ 0 }
    ensures crash { IsCrashSafe D.Disk disk.old disk.new (LeavesEither Nothing (Is next.now) (D.view disk.old)) }
    ensures ok { D.tells → OnOk result (IsInForce (Is next.now) (D.view disk.old) (D.view disk.new)) }
    ensures first { D.tells
        → OnOk result (IsFirst next.now (control_file D.Disk disk.old) (control_file D.Disk disk.new)) }
    ensures call { IsCall D.Disk disk.old disk.new (IsErr result) }
{
    fill_slot(disk, FIRST, next)?;
    begin_slot(disk, SECOND)?;
    open_slot(disk, FIRST)
}

// Puts the next choice into force.
fn switch_next<D: Disk>(disk: &mut D, now: &Control, next: &Control) -> Result<(), DiskFailed>
    requires durable { D.tells → IsDurable (D.view disk.old) }
    requires now { D.tells → in_force (control_file D.Disk disk.old) ≡ Is now.now }
    requires turn { next.now.turn ≡ turn_after now.now.turn }
    ensures crash { IsCrashSafe D.Disk disk.old disk.new (LeavesEither (Is now.now) (Is next.now) (D.view disk.old)) }
    ensures ok { D.tells → OnOk result (IsInForce (Is next.now) (D.view disk.old) (D.view disk.new)) }
    ensures kept { D.tells → OnOk result (StillHolds now.now (control_file D.Disk disk.new)) }
    ensures call { IsCall D.Disk disk.old disk.new (IsErr result) }
{
    let at = spare_place(disk, now)?;
    fill_slot(disk, at, next)?;
    open_slot(disk, at)
}

/// Puts `next` into force in place of `now`, or of nothing. It takes no memory.
///
/// At each moment a crash leaves the one or the other in force, and all other files as before. The
/// slot that is not the newer one is written, and the other one says `now` still. A gate that reads
/// closed is not closed again. The first choice goes into the first slot, and the closed gate of the
/// second is written before it opens: a control file that had no second slot then ends with that gate.
pub fn switch<D: Disk>(
    disk: &mut D,
    now: Option<&Control>,
    next: &Control,
) -> Result<(), DiskFailed>
    requires now { D.tells → HasInForce (force_of (option_map (λ c. c.now) now)) (D.view disk.old) }
    requires turn { next.now.turn ≡ next_turn (option_map (λ c. c.now) now) }
    ensures crash { IsCrashSafe D.Disk disk.old disk.new
        (LeavesEither (force_of (option_map (λ c. c.now) now.entry)) (Is next.now) (D.view disk.old)) }
    ensures ok { D.tells → OnOk result (IsInForce (Is next.now) (D.view disk.old) (D.view disk.new)) }
    ensures kept { D.tells → IfSome now.entry (λ before.
        OnOk result (StillHolds before.now (control_file D.Disk disk.new))) }
    ensures first { D.tells → option_map (λ c. c.now) now.entry ≡ None
        → OnOk result (IsFirst next.now (control_file D.Disk disk.old) (control_file D.Disk disk.new)) }
    ensures call { IsCall D.Disk disk.old disk.new (IsErr result) }
{
    disk.sync(CONTROL)?;
    match now {
        Some(now) => switch_next(disk, now, next),
        None => switch_first(disk, next),
    }
}
