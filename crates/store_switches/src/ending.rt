//! The end of a database.
ghost use Rattle.std.specs.Prelude.{◌≡◌, ◌≤◌, ℕ, [], Err, IfErr, OnOk, IsErr};
ghost use Rattle.kdb_base.specs.declared.outcomes.Halt.TheVariants.{MemoryOut, DiskFault};
ghost use Rattle.kdb_base.specs.declared.outcomes.Refusal.{Refusal as Refuses};
ghost use Rattle.kdb_base.specs.declared.outcomes.Stop.TheVariants.{Refused, Halt as Halts};
ghost use Rattle.kdb_disk.specs.View.{View};
ghost use Rattle.kdb_disk.specs.Frames.{IsCall, IsCrashSafe};
ghost use Rattle.kdb_disk.specs.Moments.{Keeps};
ghost use Rattle.kdb_control.specs.declared.force.Force.TheVariants.{Is};
ghost use Rattle.kdb_control.specs.Force.{in_force};
ghost use Rattle.kdb_control.specs.Moments.{HasInForce, IsDurable};
ghost use Rattle.store_files.specs.Recovery.{Destroys, RecoversToNone};
ghost use Rattle.store_switches.specs.Ending.{AnswersEnded, Chooses, IsChosen, StopsEnding};

use crate::controls::holds_files;
use kdb_base::{Halt, Refusal, Stop};
use kdb_control::{Control, ControlStop, erase, read};
use kdb_disk::{Disk, DiskFailed};

// The control file.
const CONTROL: u8 = 0;

// What is in force, or why nothing is.
fn read_control<D: Disk>(disk: &mut D) -> Result<Control, Stop>
    ensures force { D.tells → Chooses result (in_force ((D.view disk.old).seen 0)) }
    ensures stops { IfErr result StopsEnding }
    ensures memory { result ≡ Err (Halts MemoryOut) → ⊥ }
    ensures keeps { D.tells → Keeps (D.view disk.old) (D.view disk.new) }
    ensures call { IsCall D.Disk disk.old disk.new (result ≡ Err (Halts DiskFault)) }
{
    match read(disk) {
        Ok(control) => Ok(control),
        Err(ControlStop::NotADatabase) => Err(Stop::Refused(Refusal::NotADatabase)),
        Err(ControlStop::Damaged { file, place }) => {
            Err(Stop::Refused(Refusal::Damaged { file, place }))
        }
        Err(ControlStop::DiskFault) => Err(Stop::Halt(Halt::DiskFault)),
    }
}

// Ends the database that this choice of files stands for.
fn end_chosen<D: Disk>(disk: &mut D, control: &Control) -> Result<(), DiskFailed>
    requires { D.tells → HasInForce (Is control.now) (D.view disk.old) }
    ensures none { D.tells → OnOk result (RecoversToNone (D.view disk.new)) }
    ensures empty { D.tells → OnOk result ((g : ℕ) → 1 ≤ g → g ≤ 6 → (D.view disk.new).seen g ≡ []) }
    ensures crash { IsCrashSafe D.Disk disk.old disk.new (Destroys (D.view disk.old)) }
    ensures call { IsCall D.Disk disk.old disk.new (IsErr result) }
{
    holds_files(control);
    erase(disk, control)
}

// Ends the database, where the control file is synced.
fn end_synced<D: Disk>(disk: &mut D) -> Result<(), Stop>
    requires { D.tells → IsDurable (D.view disk.old) }
    ensures answer { D.tells → AnswersEnded result (in_force ((D.view disk.old).seen 0)) }
    ensures stops { IfErr result StopsEnding }
    ensures none { D.tells → OnOk result (RecoversToNone (D.view disk.new)) }
    ensures empty { D.tells → OnOk result ((g : ℕ) → 1 ≤ g → g ≤ 6 → (D.view disk.new).seen g ≡ []) }
    ensures crash { IsCrashSafe D.Disk disk.old disk.new (Destroys (D.view disk.old)) }
    ensures refused { D.tells → (refusal : Refuses) → result ≡ Err (Refused refusal)
        → Keeps (D.view disk.old) (D.view disk.new) }
    ensures unchosen { D.tells → (IsChosen (in_force ((D.view disk.old).seen 0)) → ⊥)
        → Keeps (D.view disk.old) (D.view disk.new) }
    ensures memory { result ≡ Err (Halts MemoryOut) → ⊥ }
    ensures call { IsCall D.Disk disk.old disk.new (result ≡ Err (Halts DiskFault)) }
{
    match read_control(disk) {
        Ok(control) => match end_chosen(disk, &control) {
            Ok(()) => Ok(()),
            Err(_) => Err(Stop::Halt(Halt::DiskFault)),
        },
        Err(stop) => Err(stop),
    }
}

/// Ends the database that the files hold: its slots are closed, the older one first, and then all other
/// files are cut to nothing. The control file is synced first, and no other file is read. It takes no
/// memory.
///
/// `NotADatabase` comes exactly where no control slot is whole and open, and `Damaged` exactly where
/// the control file breaks its grammar.
pub fn destroy_files<D: Disk>(disk: &mut D) -> Result<(), Stop>
    ensures answer { D.tells → AnswersEnded result (in_force ((D.view disk.old).seen 0)) }
    // whatever the disk tells
    ensures stops { IfErr result StopsEnding }
    ensures none { D.tells → OnOk result (RecoversToNone (D.view disk.new)) }
    ensures empty { D.tells → OnOk result ((g : ℕ) → 1 ≤ g → g ≤ 6 → (D.view disk.new).seen g ≡ []) }
    ensures crash { IsCrashSafe D.Disk disk.old disk.new (Destroys (D.view disk.old)) }
    ensures refused { D.tells → (refusal : Refuses) → result ≡ Err (Refused refusal)
        → Keeps (D.view disk.old) (D.view disk.new) }
    ensures unchosen { D.tells → (IsChosen (in_force ((D.view disk.old).seen 0)) → ⊥)
        → Keeps (D.view disk.old) (D.view disk.new) }
    ensures memory { result ≡ Err (Halts MemoryOut) → ⊥ }
    ensures call { IsCall D.Disk disk.old disk.new (result ≡ Err (Halts DiskFault)) }
{
    match disk.sync(CONTROL) {
        Ok(()) => end_synced(disk),
        Err(_) => Err(Stop::Halt(Halt::DiskFault)),
    }
}
