//! A primary made anew.

ghost use Rattle.std.specs.Prelude.{◌≡◌, ◌≢◌, false, Err, IfErr, IfOk, OnOk, Some, length};
ghost use Rattle.std.specs.List.{All};
ghost use Rattle.cell_files.specs.NewFiles.{file_text};
ghost use Rattle.first_rows.specs.Creation.{first_point, first_rows, first_state};
ghost use Rattle.kdb_base.specs.declared.outcomes.Halt.TheVariants.{MemoryOut as IsMemoryOut, DiskFault as IsDiskFault};
ghost use Rattle.kdb_base.specs.declared.outcomes.Refusal.{Refusal as Refuses};
ghost use Rattle.kdb_base.specs.declared.outcomes.Stop.TheVariants.{Refused, Halt as Halts};
ghost use Rattle.kdb_cells.specs.Cells.{IsRowOf};
ghost use Rattle.kdb_control.specs.Force.{in_force};
ghost use Rattle.kdb_control.specs.declared.force.Force.TheVariants.{Nothing};
ghost use Rattle.kdb_disk.specs.Frames.{IsCall};
ghost use Rattle.kdb_disk.specs.Moments.{Keeps, LeavesOnly};
ghost use Rattle.kdb_places.specs.Places.{created};
ghost use Rattle.primary_core.specs.Opened.{HasState, place_of};
ghost use Rattle.primary_core.specs.Opening.{first_control, first_file, first_place};
ghost use Rattle.stash_file.specs.Written.{stash_text};
ghost use Rattle.store_files.specs.Kept.{IsOnDisk, place_kept};
ghost use Rattle.store_files.specs.Recovery.{Creates};
ghost use Rattle.store_opening.specs.Made.{AnswersMade, StopsMaking};
ghost use Rattle.store_opening.specs.Moments.{HasFile};

use crate::primary::Primary;
use first_rows::laws::{first_rows_show_the_first_state, first_state_is_valid};
use first_rows::{CreateSpec, first_rows};
use kdb_base::{Blob, Halt, Masters, MemoryOut, Point, Stop, Time};
use kdb_disk::Disk;
use kdb_store::Database;
use princ_rows::Rows;
use stash_file::write_stash;
use std::alloc::Global;

// How many bytes a block of the log of a new database has.
const BLOCK: u32 = 2048;

// Tells a proof that rows may stand in files of format 2. It does nothing.
fn holds_rows(rows: &Rows)
    ensures { All (IsRowOf 2) rows.now.princs }
{
    let _ = rows.princs();
}

// The bytes as an array.
fn block_of(random: &[u8]) -> &[u8; 2048]
    requires { length random.now ≡ 2048 }
    ensures { result.now ≡ random.now }
{
    random.as_array::<2048>().unwrap()
}

// The rows, the master keys and the stash of a creation.
fn first_parts(
    alloc: Global,
    spec: &CreateSpec,
    now: Time,
    random: &[u8],
) -> Result<(Rows, Masters, Blob), MemoryOut>
    requires { length random.now ≡ 2048 }
    ensures rows { IfOk result (λ parts. parts.0 ≡ first_rows spec.now now random.now) }
    ensures masters { IfOk result (λ parts. parts.1 ≡ (first_state spec.now now random.now).masters) }
    ensures stash { IfOk result
        (λ parts. parts.2 ≡ stash_text spec.now.realm now.secs (first_state spec.now now random.now).masters) }
{
    let (rows, masters) = first_rows(alloc, spec, now, block_of(random))?;
    let stash = write_stash(alloc, spec.realm(), now.secs(), &masters)?;
    Ok((rows, masters, stash))
}

// Makes the files of a creation.
fn make_database<D: Disk>(
    alloc: Global,
    disk: &mut D,
    spec: &CreateSpec,
    now: Time,
    rows: Rows,
    stash: &[u8],
) -> Result<Database, Stop>
    ensures answer { D.tells → AnswersMade result (in_force ((D.view disk.old).seen 0)) }
    ensures stops { IfErr result StopsMaking }
    ensures place { IfOk result
        (λ d. place_kept d ≡ created spec.now.realm rows (first_point now) spec.now.size 2048 (Some stash.now) 2) }
    ensures control { IfOk result (λ d. d.control ≡ first_control spec.now now) }
    ensures written { D.tells
        → OnOk result (HasFile 1 (file_text 2 spec.now.realm (first_point now) rows) (D.view disk.new)) }
    ensures whole { IfOk result (λ d. d.broken ≡ false) }
    ensures on { D.tells → IfOk result (λ d. IsOnDisk d (D.view disk.new)) }
    ensures moments { D.tells → LeavesOnly (D.view disk.old) (D.view disk.new) (Creates (D.view disk.old)
        (created spec.now.realm rows (first_point now) spec.now.size 2048 (Some stash.now) 2)) }
    ensures refused { D.tells → (refusal : Refuses) → result ≡ Err (Refused refusal)
        → Keeps (D.view disk.old) (D.view disk.new) }
    ensures there { D.tells → in_force ((D.view disk.old).seen 0) ≢ Nothing
        → Keeps (D.view disk.old) (D.view disk.new) }
    ensures memory { result ≡ Err (Halts IsMemoryOut) → disk.new ≡ disk.old }
    ensures call { IsCall D.Disk disk.old disk.new (result ≡ Err (Halts IsDiskFault)) }
{
    holds_rows(&rows);
    let base = Point { sno: 1, time: now };
    Database::create(
        alloc,
        disk,
        2,
        spec.realm(),
        rows,
        base,
        spec.size(),
        BLOCK,
        Some(stash),
    )
}

// The primary of a database that was created so.
fn primary_of(
    spec: &CreateSpec,
    now: Time,
    random: &[u8],
    database: Database,
    masters: Masters,
) -> Primary
    requires random { length random.now ≡ 2048 }
    requires place { place_kept database ≡ first_place spec.now now random.now }
    requires masters { masters ≡ (first_state spec.now now random.now).masters }
    ensures value { result ≡ record { kept = database; masters = masters; dumps = 0; room = 1 } }
    ensures state { HasState result (first_state spec.now now random.now) }
{
    let _first = random[0];
    first_state_is_valid();
    first_rows_show_the_first_state();
    let _realm = spec.realm();
    Primary::of_parts(database, masters, 1)
}

impl Primary {
    /// Makes a database as the creation asks, at a moment of the clock, with the keys of a block of random bytes, and a
    /// stash that has its master key. It has one place for dumps. Memory is taken before the first device call.
    ///
    /// # Errors
    ///
    /// `AlreadyThere` exactly where a control slot is open; `Halt` where memory is wanted and not given, or the disk
    /// failed.
    pub fn create<D: Disk>(
        alloc: Global,
        disk: &mut D,
        spec: &CreateSpec,
        now: Time,
        random: &[u8],
    ) -> Result<Primary, Stop>
        requires random { length random.now ≡ 2048 }
        ensures answer { D.tells → AnswersMade result (in_force ((D.view disk.old).seen 0)) }
        // Nothing else is refused, whatever the disk tells.
        ensures stops { IfErr result StopsMaking }
        ensures place { IfOk result (λ o. place_of o ≡ first_place spec.now now random.now) }
        // The files are the first of each kind, and so is the turn of the slot.
        ensures control { IfOk result (λ o. o.kept.control ≡ first_control spec.now now) }
        // The rows stand one behind the other from unit 1 on, in their order, whatever a crash leaves.
        ensures written { D.tells → OnOk result (HasFile 1 (first_file spec.now now random.now) (D.view disk.new)) }
        ensures state { IfOk result (λ o. HasState o (first_state spec.now now random.now)) }
        ensures room { IfOk result (λ o. (o.dumps ≡ 0) × (o.room ≡ 1)) }
        ensures whole { IfOk result (λ o. o.kept.broken ≡ false) }
        ensures on { D.tells → IfOk result (λ o. IsOnDisk o.kept (D.view disk.new)) }
        ensures moments { D.tells → LeavesOnly (D.view disk.old) (D.view disk.new)
            (Creates (D.view disk.old) (first_place spec.now now random.now)) }
        ensures refused { D.tells → (refusal : Refuses) → result ≡ Err (Refused refusal)
            → Keeps (D.view disk.old) (D.view disk.new) }
        ensures there { D.tells → in_force ((D.view disk.old).seen 0) ≢ Nothing
            → Keeps (D.view disk.old) (D.view disk.new) }
        ensures memory { result ≡ Err (Halts IsMemoryOut) → disk.new ≡ disk.old }
        ensures call { IsCall D.Disk disk.old disk.new (result ≡ Err (Halts IsDiskFault)) }
    {
        match first_parts(alloc, spec, now, random) {
            Ok((rows, masters, stash)) => {
                match make_database(alloc, disk, spec, now, rows, stash.as_slice()) {
                    Ok(database) => Ok(primary_of(spec, now, random, database, masters)),
                    Err(stop) => Err(stop),
                }
            }
            Err(_) => Err(Stop::Halt(Halt::MemoryOut)),
        }
    }
}
