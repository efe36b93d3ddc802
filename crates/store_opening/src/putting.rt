//! The files of a new database written while nothing is in force, and then put into force.
ghost use Rattle.std.specs.Prelude.{◌≡◌, ◌≤◌, ℕ, List, Option, OnOk, IsErr, option_map};
ghost use Rattle.kdb_disk.specs.Frames.{IsCall};
ghost use Rattle.kdb_disk.specs.Moments.{LeavesOnly};
ghost use Rattle.kdb_disk.specs.View.{View};
ghost use Rattle.kdb_control.specs.Choice.{Choice};
ghost use Rattle.kdb_control.specs.declared.force.Force.TheVariants.{Nothing};
ghost use Rattle.kdb_control.specs.Moments.{HasInForce};
ghost use Rattle.update_log.specs.Moments.{HasLog, IsDurable};
ghost use Rattle.store_files.specs.Standing.{Holds};
ghost use Rattle.store_opening.specs.Made.{Making, first_stash, made_found};
ghost use Rattle.store_opening.specs.Moments.{HasFile, HasStash, IsQuiet, FindsMade};
ghost use Rattle.store_opening.specs.Parts.{IsToBeMade};

use cell_files::NewFile;
use kdb_control::{Control, switch};
use kdb_disk::{Disk, DiskFailed, replace_file};
use update_log::NewLog;

/// The first of the stash files.
pub(crate) const FIRST_STASH: u8 = 5;

// Writes the stash into its first file, where there is one, while nothing is in force.
fn write_stash<D: Disk>(disk: &mut D, stash: Option<&[u8]>) -> Result<(), DiskFailed>
    requires { D.tells → HasInForce Nothing (D.view disk.old) }
    ensures quiet { D.tells → IsQuiet (D.view disk.old) (D.view disk.new) }
    ensures stash { D.tells → (choice : Choice) → choice.stash ≡ first_stash (option_map (λ s. s.now) stash.entry)
        → OnOk result (HasStash choice (option_map (λ s. s.now) stash.entry) (D.view disk.new)) }
    ensures call { IsCall D.Disk disk.old disk.new (IsErr result) }
{
    match stash {
        Some(bytes) => replace_file(disk, FIRST_STASH, bytes),
        None => Ok(()),
    }
}

/// Writes the stash, the file of cells and the log, where nothing is in force, and puts them into force.
///
/// At each moment a crash leaves no database, or the one that was made.
pub(crate) fn put_first<D: Disk>(
    disk: &mut D,
    control: &Control,
    image: &mut NewFile,
    log: &NewLog,
    stash: Option<&[u8]>,
) -> Result<(), DiskFailed>
    requires made { (m : Making) × IsToBeMade m control.now image.old log.now (option_map (λ s. s.now) stash) }
    requires nothing { D.tells → HasInForce Nothing (D.view disk.old) }
    ensures moments { D.tells → (m : Making)
        → IsToBeMade m control.now image.old log.now (option_map (λ s. s.now) stash.entry)
        → LeavesOnly (D.view disk.old) (D.view disk.new) (FindsMade (made_found m)) }
    ensures holds { D.tells
        → (m : Making) → IsToBeMade m control.now image.old log.now (option_map (λ s. s.now) stash.entry)
        → OnOk result (Holds (made_found m) (D.view disk.new)) }
    ensures image { D.tells → OnOk result (HasFile 1 image.old.content (D.view disk.new)) }
    ensures log { D.tells → OnOk result (HasLog log.now (D.view disk.new)) }
    ensures durable { D.tells → OnOk result (IsDurable 3 (D.view disk.new)) }
    ensures stays { image.new ≡ image.old }
    ensures call { IsCall D.Disk disk.old disk.new (IsErr result) }
{
    write_stash(disk, stash)?;
    image.write(disk)?;
    log.write(disk)?;
    switch(disk, None, control)
}
