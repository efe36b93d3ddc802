//! A database made anew.
ghost use Rattle.std.specs.Prelude.{◌≡◌, ◌≢◌, ◌&&◌, true, false, nat_le, Err, IfErr, IfOk, OnOk, option_map};
ghost use Rattle.std.specs.List.{All};
ghost use Rattle.kdb_base.specs.declared.outcomes.Halt.TheVariants.{MemoryOut as IsMemoryOut, DiskFault as IsDiskFault};
ghost use Rattle.kdb_base.specs.declared.outcomes.Refusal.{Refusal as Refuses};
ghost use Rattle.kdb_base.specs.declared.outcomes.Stop.TheVariants.{Refused, Halt as Halts};
ghost use Rattle.kdb_disk.specs.Frames.{IsCall};
ghost use Rattle.kdb_disk.specs.Moments.{Keeps, LeavesOnly};
ghost use Rattle.kdb_disk.specs.View.{View};
ghost use Rattle.kdb_control.specs.declared.force.Force.TheVariants.{Nothing};
ghost use Rattle.kdb_control.specs.Force.{in_force};
ghost use Rattle.princ_name.specs.Realms.{IsRealm};
ghost use Rattle.cell_files.specs.NewFiles.{file_text};
ghost use Rattle.kdb_cells.specs.Cells.{IsRowOf};
ghost use Rattle.kdb_cells.specs.CellFiles.{is_format};
ghost use Rattle.kdb_places.specs.Places.{created};
ghost use Rattle.store_files.specs.Kept.{IsKept, IsOnDisk, place_kept};
ghost use Rattle.store_files.specs.Recovery.{Creates};
ghost use Rattle.store_files.specs.Switches.{first_choice};
ghost use Rattle.store_opening.specs.Made.{AnswersMade, StopsMaking, first_stash};
ghost use Rattle.store_opening.specs.Moments.{HasFile};
ghost use Rattle.store_opening.specs.Parts.{kept_of};

use crate::database::Database;
use kdb_base::{Point, Stop};
use kdb_disk::Disk;
use princ_rows::Rows;
use std::alloc::Global;
use store_opening::{Parts, create_parts};

/// The database of the parts that were made or read.
pub(crate) fn database_of(parts: Parts) -> Database
    requires { IsKept (kept_of parts) }
    ensures { result ≡ kept_of parts }
{
    Database::of_parts(
        parts.control,
        parts.log,
        parts.cells,
        parts.rows,
        parts.realm,
        parts.stash,
    )
}

impl Database {
    /// Makes a database of these rows, with this stash or none. `AlreadyThere` comes exactly where a control
    /// slot is open. Memory is taken before the first device call. `format` is that of the files, 1 or 2;
    /// `base` is the point at which the log begins, `size` the number of entries that it holds, and `block`
    /// the length of their slots in bytes.
    ///
    /// Every file is synced first. From then on, and until the control slot is in force, a crash leaves no
    /// database.
    pub fn create<D: Disk>(
        alloc: Global,
        disk: &mut D,
        format: u16,
        realm: &[u8],
        rows: Rows,
        base: Point,
        size: u32,
        block: u32,
        stash: Option<&[u8]>,
    ) -> Result<Database, Stop>
        requires format { is_format format ≡ true }
        requires realm { IsRealm realm.now }
        requires size { nat_le 2 size && nat_le size 10000 ≡ true }
        requires block { nat_le 2048 block && nat_le block 16384 ≡ true }
        // in format 1 rows are shorter, and have no string attributes
        requires rows { All (IsRowOf format) rows.princs }
        ensures answer { D.tells → AnswersMade result (in_force ((D.view disk.old).seen 0)) }
        // whatever the disk tells
        ensures stops { IfErr result StopsMaking }
        ensures place { IfOk result
            (λ d. place_kept d ≡ created realm.now rows base size block (option_map (λ s. s.now) stash.entry) format) }
        ensures whole { IfOk result (λ d. d.broken ≡ false) }
        // The files are the first of each kind, and so is the turn of the slot.
        ensures control { IfOk result
            (λ d. d.control ≡ first_choice format (first_stash (option_map (λ s. s.now) stash.entry)) base size block) }
        // The rows stand one behind the other from the first unit on, in their order, whatever a crash leaves.
        ensures written { D.tells → OnOk result (HasFile 1 (file_text format realm.now base rows) (D.view disk.new)) }
        ensures on { D.tells → IfOk result (λ d. IsOnDisk d (D.view disk.new)) }
        ensures moments { D.tells → LeavesOnly (D.view disk.old) (D.view disk.new) (Creates (D.view disk.old)
            (created realm.now rows base size block (option_map (λ s. s.now) stash.entry) format)) }
        ensures refused { D.tells → (refusal : Refuses) → result ≡ Err (Refused refusal)
            → Keeps (D.view disk.old) (D.view disk.new) }
        ensures there { D.tells → in_force ((D.view disk.old).seen 0) ≢ Nothing
            → Keeps (D.view disk.old) (D.view disk.new) }
        ensures memory { result ≡ Err (Halts IsMemoryOut) → disk.new ≡ disk.old }
        ensures call { IsCall D.Disk disk.old disk.new (result ≡ Err (Halts IsDiskFault)) }
    {
        match create_parts(alloc, disk, format, realm, rows, base, size, block, stash) {
            Ok(parts) => Ok(database_of(parts)),
            Err(stop) => Err(stop),
        }
    }
}
