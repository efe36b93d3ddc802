ghost use Rattle.std.specs.Prelude.{◌≡◌, IsErrOf};
ghost use Rattle.kdb_disk.specs.View.{View};
ghost use Rattle.kdb_disk.specs.Moments.{Keeps};
ghost use Rattle.kdb_disk.specs.Frames.{IsCall};
ghost use Rattle.kdb_control.specs.Force.{in_force};
ghost use Rattle.kdb_control.specs.Answers.{Answers};
ghost use Rattle.kdb_control.specs.Moments.{control_file};
ghost use Rattle.kdb_control.specs.declared.reading.ControlStop.TheVariants.{DiskFault};

use crate::choice::Control;
use crate::force::Force;
use crate::front::{CONTROL, find};
use kdb_disk::Disk;
use thiserror::Error;

/// Why nothing could be read of what is in force.
#[derive(Clone, Copy, Debug, PartialEq, Eq, Error)]
pub enum ControlStop {
    /// No slot is whole and open.
    #[error("not a database")]
    NotADatabase,
    /// An open slot has no body, or both slots have the same turn. The place is the slot's.
    #[error("file {file} is damaged at {place}")]
    Damaged { file: u8, place: u64 },
    #[error("the disk failed")]
    DiskFault,
}

/// What the control file has in force. It changes no file, and takes no memory.
pub fn read<D: Disk>(disk: &mut D) -> Result<Control, ControlStop>
    ensures force { D.tells → Answers result (in_force (control_file D.Disk disk.old)) }
    ensures keeps { D.tells → Keeps (D.view disk.old) (D.view disk.new) }
    ensures call { IsCall D.Disk disk.old disk.new (IsErrOf result DiskFault) }
{
    match find(disk) {
        Ok(force) => answer(force),
        Err(_) => Err(ControlStop::DiskFault),
    }
}

// What is answered where this is in force.
fn answer(force: Force) -> Result<Control, ControlStop>
    ensures force { Answers result force }
    ensures cause { IsErrOf result DiskFault → ⊥ }
{
    match force {
        Force::Is(control) => Ok(control),
        Force::Nothing => Err(ControlStop::NotADatabase),
        Force::Broken(place) => Err(ControlStop::Damaged {
            file: CONTROL,
            place,
        }),
    }
}
