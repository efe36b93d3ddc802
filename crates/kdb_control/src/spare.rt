ghost use Rattle.std.specs.Prelude.{◌≡◌, ◌≤◌, ◌<◌, length, IfOk, IsErr, nat_eq, if◌then◌else◌};
ghost use Rattle.kdb_disk.specs.View.{View};
ghost use Rattle.kdb_disk.specs.Moments.{Keeps};
ghost use Rattle.kdb_disk.specs.Frames.{IsCall};
ghost use Rattle.kdb_control.specs.declared.force.Force.TheVariants.{Is};
ghost use Rattle.kdb_control.specs.Force.{slot, slot_bytes, in_force};
ghost use Rattle.kdb_control.specs.Moments.{IsPlace, control_file, without, spare_at};

use crate::choice::Control;
use crate::force::{FIRST, SECOND, Slot};
use crate::front::first_slot;
use kdb_disk::{Disk, DiskFailed};

// The place of the slot that is not the newer one, by what stands in the first.
#[tactic(auto, using(crate::proofs::Choices::turn_below), unfolding(crate::specs::Moments::spare_at))]
fn place_by(first: Slot, now: &Control) -> u64
    ensures place { result ≡ spare_at first now.now.turn }
    ensures turn { now.now.turn < 3 }
{
    let turn = now.turn;
    match first {
        Slot::Holds(control) => place_by_turn(control.turn, turn),
        Slot::Closed | Slot::Torn => FIRST,
    }
}

fn place_by_turn(turn: u8, now: u8) -> u64
    ensures { result ≡ (if nat_eq turn now then 64 else 0) }
{
    if turn == now { SECOND } else { FIRST }
}

// The place of the slot that is not the newer one.
pub(crate) fn spare_place<D: Disk>(disk: &mut D, now: &Control) -> Result<u64, DiskFailed>
    requires now { D.tells → in_force (control_file D.Disk disk.old) ≡ Is now.now }
    ensures place { IfOk result IsPlace }
    ensures turn { IfOk result (λ _. now.now.turn < 3) }
    ensures spare { D.tells → IfOk result (λ at. without at (control_file D.Disk disk.old) ≡ Is now.now) }
    ensures within { D.tells → IfOk result (λ at. at ≤ length (control_file D.Disk disk.old)) }
    ensures keeps { D.tells → Keeps (D.view disk.old) (D.view disk.new) }
    ensures call { IsCall D.Disk disk.old disk.new (IsErr result) }
{
    match first_slot(disk) {
        Ok(first) => Ok(place_by(first, now)),
        Err(failed) => Err(failed),
    }
}
