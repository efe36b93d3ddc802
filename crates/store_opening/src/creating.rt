//! A database made anew.
ghost use Rattle.std.specs.Prelude.{◌≡◌, ◌≢◌, ◌≤◌, ◌&&◌, ◌||◌, true, nat_le};
ghost use Rattle.std.specs.Prelude.{nat_eq, ℕ, Err, IfOk, IfErr, OnOk, option_map};
ghost use Rattle.std.specs.List.{All};
ghost use Rattle.kdb_base.specs.declared.outcomes.Halt.TheVariants.{MemoryOut as IsMemoryOut, DiskFault as IsDiskFault};
ghost use Rattle.kdb_base.specs.declared.outcomes.Refusal.{Refusal as Refuses};
ghost use Rattle.kdb_base.specs.declared.outcomes.Stop.TheVariants.{Refused, Halt as Halts};
ghost use Rattle.kdb_disk.specs.Frames.{IsCall};
ghost use Rattle.kdb_disk.specs.Moments.{Keeps, LeavesOnly, IsSettled};
ghost use Rattle.kdb_disk.specs.View.{View};
ghost use Rattle.kdb_control.specs.declared.force.Force.TheVariants.{Nothing};
ghost use Rattle.kdb_control.specs.Force.{in_force};
ghost use Rattle.princ_name.specs.Realms.{IsRealm};
ghost use Rattle.princ_rows.specs.Rows.{AreRows};
ghost use Rattle.cell_files.specs.NewFiles.{file_text};
ghost use Rattle.kdb_cells.specs.Cells.{IsRowOf};
ghost use Rattle.kdb_cells.specs.CellFiles.{is_format};
ghost use Rattle.kdb_places.specs.Places.{created};
ghost use Rattle.store_files.specs.Found.{place_of};
ghost use Rattle.store_files.specs.Kept.{IsKept, IsOnDisk, place_kept};
ghost use Rattle.store_files.specs.Recovery.{Creates};
ghost use Rattle.store_files.specs.Standing.{Holds};
ghost use Rattle.store_files.specs.Switches.{first_choice};
ghost use Rattle.update_log.specs.Moments.{HasLog, IsDurable};
ghost use Rattle.store_opening.specs.Made.{Making, first_stash, made_choice, made_found, AnswersMade, StopsMaking};
ghost use Rattle.store_opening.specs.Moments.{HasFile};
ghost use Rattle.store_opening.specs.Parts.{IsToBeMade, IsPlan, kept_of, kept_made};

use crate::parts::{Parts, Plan};
use crate::putting::{FIRST_STASH, put_first};
use cell_files::NewFile;
use kdb_base::{Blob, Halt, MemoryOut, Point, Refusal, Stop};
use kdb_control::{Control, ControlStop, read};
use kdb_disk::{Disk, settle_all};
use princ_name::Realm;
use princ_rows::Rows;
use std::alloc::Global;
use update_log::NewLog;

// The first of the files of cells.
const FIRST_IMAGE: u8 = 1;

// The first of the logs.
const FIRST_LOG: u8 = 3;

// The stash file of a database that is made anew, or 0 for none.
fn first_stash(stash: Option<&[u8]>) -> u8
    ensures value { result ≡ first_stash (option_map (λ s. s.now) stash.entry) }
    ensures range { (nat_eq result 0 || nat_eq result 5 || nat_eq result 6) ≡ true }
{
    match stash {
        Some(_) => FIRST_STASH,
        None => 0,
    }
}

// The first choice of files.
#[tactic(auto, unfolding(kdb_control::specs::Choice::in_ranges))]
fn first_control(format: u16, base: &Point, size: u32, block: u32, stash: Option<&[u8]>) -> Control
    requires format { is_format format ≡ true }
    requires size { nat_le 2 size && nat_le size 10000 ≡ true }
    requires block { nat_le 2048 block && nat_le block 16384 ≡ true }
    ensures value { result ≡ record {
      format = format;
      turn = 0;
      image = 1;
      log = 3;
      stash = first_stash (option_map (λ s. s.now) stash.entry);
      size = size;
      block = block;
      base = base.now;
    } }
{
    Control {
        format,
        turn: 0,
        image: 1,
        log: 3,
        stash: first_stash(stash),
        size,
        block,
        base: *base,
    }
}

// A copy of these bytes, where there are such.
fn copy_of(alloc: Global, bytes: Option<&[u8]>) -> Result<Option<Blob>, MemoryOut>
    ensures { IfOk result (λ copy. copy ≡ option_map (λ b. b.now) bytes.entry) }
{
    match bytes {
        Some(bytes) => Ok(Some(Blob::from_bytes(alloc, bytes)?)),
        None => Ok(None),
    }
}

// Tells a proof that rows are in order, and does nothing.
fn holds_rows(rows: &Rows)
    ensures { AreRows rows.now }
{
    let _princs = rows.princs();
}

// What is to be written, with all memory that is needed.
fn plan_files(
    alloc: Global,
    format: u16,
    realm: &[u8],
    rows: Rows,
    base: Point,
    size: u32,
    block: u32,
    stash: Option<&[u8]>,
) -> Result<Plan, MemoryOut>
    requires format { is_format format ≡ true }
    requires realm { IsRealm realm.now }
    requires size { nat_le 2 size && nat_le size 10000 ≡ true }
    requires block { nat_le 2048 block && nat_le block 16384 ≡ true }
    requires rows { All (IsRowOf format) rows.princs }
    ensures { IfOk result (λ plan. IsPlan (record {
      format = format;
      realm = realm.now;
      rows = rows;
      base = base;
      size = size;
      block = block;
      stash = option_map (λ s. s.now) stash.entry;
    }) plan) }
{
    holds_rows(&rows);
    let control = first_control(format, &base, size, block, stash);
    let realm = Realm::from_bytes(alloc, realm)?;
    let stash = copy_of(alloc, stash)?;
    let log = NewLog::new(alloc, FIRST_LOG, base, size, block, None)?;
    let image = NewFile::new(alloc, FIRST_IMAGE, format, &realm, &base, &rows)?;
    Ok(Plan {
        control,
        image,
        log,
        rows,
        realm,
        stash,
    })
}

// Writes the files and puts them into force, unless a slot is open.
fn make_settled<D: Disk>(
    disk: &mut D,
    control: &Control,
    image: &mut NewFile,
    log: &NewLog,
    stash: Option<&[u8]>,
) -> Result<(), Stop>
    requires made { (m : Making) × IsToBeMade m control.now image.old log.now (option_map (λ s. s.now) stash) }
    requires settled { D.tells → IsSettled (D.view disk.old) }
    ensures answer { D.tells → AnswersMade result (in_force ((D.view disk.old).seen 0)) }
    ensures stops { IfErr result StopsMaking }
    ensures holds { D.tells
        → (m : Making) → IsToBeMade m control.now image.old log.now (option_map (λ s. s.now) stash.entry)
        → OnOk result (Holds (made_found m) (D.view disk.new)) }
    ensures moments { D.tells → (m : Making)
        → IsToBeMade m control.now image.old log.now (option_map (λ s. s.now) stash.entry)
        → LeavesOnly (D.view disk.old) (D.view disk.new) (Creates (D.view disk.old) (place_of (made_found m))) }
    ensures image { D.tells → OnOk result (HasFile 1 image.old.content (D.view disk.new)) }
    ensures log { D.tells → OnOk result (HasLog log.now (D.view disk.new)) }
    ensures durable { D.tells → OnOk result (IsDurable 3 (D.view disk.new)) }
    ensures refused { D.tells → (refusal : Refuses) → result ≡ Err (Refused refusal)
        → Keeps (D.view disk.old) (D.view disk.new) }
    ensures there { D.tells → in_force ((D.view disk.old).seen 0) ≢ Nothing
        → Keeps (D.view disk.old) (D.view disk.new) }
    ensures memory { result ≡ Err (Halts IsMemoryOut) → ⊥ }
    ensures stays { image.new ≡ image.old }
    ensures call { IsCall D.Disk disk.old disk.new (result ≡ Err (Halts IsDiskFault)) }
{
    match read(disk) {
        Ok(_) | Err(ControlStop::Damaged { .. }) => Err(Stop::Refused(Refusal::AlreadyThere)),
        Err(ControlStop::NotADatabase) => match put_first(disk, control, image, log, stash) {
            Ok(()) => Ok(()),
            Err(_) => Err(Stop::Halt(Halt::DiskFault)),
        },
        Err(ControlStop::DiskFault) => Err(Stop::Halt(Halt::DiskFault)),
    }
}

// Syncs every file, and then makes the database, unless a slot is open.
fn make_files<D: Disk>(
    disk: &mut D,
    control: &Control,
    image: &mut NewFile,
    log: &NewLog,
    stash: Option<&[u8]>,
) -> Result<(), Stop>
    requires made { (m : Making) × IsToBeMade m control.now image.old log.now (option_map (λ s. s.now) stash) }
    ensures answer { D.tells → AnswersMade result (in_force ((D.view disk.old).seen 0)) }
    ensures stops { IfErr result StopsMaking }
    ensures holds { D.tells
        → (m : Making) → IsToBeMade m control.now image.old log.now (option_map (λ s. s.now) stash.entry)
        → OnOk result (Holds (made_found m) (D.view disk.new)) }
    ensures moments { D.tells → (m : Making)
        → IsToBeMade m control.now image.old log.now (option_map (λ s. s.now) stash.entry)
        → LeavesOnly (D.view disk.old) (D.view disk.new) (Creates (D.view disk.old) (place_of (made_found m))) }
    ensures image { D.tells → OnOk result (HasFile 1 image.old.content (D.view disk.new)) }
    ensures log { D.tells → OnOk result (HasLog log.now (D.view disk.new)) }
    ensures durable { D.tells → OnOk result (IsDurable 3 (D.view disk.new)) }
    ensures refused { D.tells → (refusal : Refuses) → result ≡ Err (Refused refusal)
        → Keeps (D.view disk.old) (D.view disk.new) }
    ensures there { D.tells → in_force ((D.view disk.old).seen 0) ≢ Nothing
        → Keeps (D.view disk.old) (D.view disk.new) }
    ensures memory { result ≡ Err (Halts IsMemoryOut) → ⊥ }
    ensures stays { image.new ≡ image.old }
    ensures call { IsCall D.Disk disk.old disk.new (result ≡ Err (Halts IsDiskFault)) }
{
    match settle_all(disk) {
        Ok(()) => make_settled(disk, control, image, log, stash),
        Err(_) => Err(Stop::Halt(Halt::DiskFault)),
    }
}

// Makes the database of the plan.
fn make_plan<D: Disk>(disk: &mut D, plan: Plan, stash: Option<&[u8]>) -> Result<Parts, Stop>
    requires plan { (m : Making) × (IsPlan m plan × (m.stash ≡ option_map (λ s. s.now) stash)) }
    ensures answer { D.tells → AnswersMade result (in_force ((D.view disk.old).seen 0)) }
    ensures stops { IfErr result StopsMaking }
    ensures kept { (m : Making) → IsPlan m plan → IfOk result (λ p. kept_of p ≡ kept_made m plan.image.cells) }
    ensures on { D.tells → (m : Making) → IsPlan m plan → m.stash ≡ option_map (λ s. s.now) stash.entry
        → OnOk result (IsOnDisk (kept_made m plan.image.cells) (D.view disk.new)) }
    ensures written { D.tells → OnOk result (HasFile 1 plan.image.content (D.view disk.new)) }
    ensures moments { D.tells → (m : Making) → IsPlan m plan → m.stash ≡ option_map (λ s. s.now) stash.entry
        → LeavesOnly (D.view disk.old) (D.view disk.new) (Creates (D.view disk.old) (place_of (made_found m))) }
    ensures refused { D.tells → (refusal : Refuses) → result ≡ Err (Refused refusal)
        → Keeps (D.view disk.old) (D.view disk.new) }
    ensures there { D.tells → in_force ((D.view disk.old).seen 0) ≢ Nothing
        → Keeps (D.view disk.old) (D.view disk.new) }
    ensures memory { result ≡ Err (Halts IsMemoryOut) → ⊥ }
    ensures call { IsCall D.Disk disk.old disk.new (result ≡ Err (Halts IsDiskFault)) }
{
    let mut plan = plan;
    match make_files(disk, &plan.control, &mut plan.image, &plan.log, stash) {
        Ok(()) => Ok(Parts {
            control: plan.control,
            log: plan.log.into_log(),
            cells: plan.image.into_cells(),
            rows: plan.rows,
            realm: plan.realm,
            stash: plan.stash,
        }),
        Err(stop) => Err(stop),
    }
}

/// Makes a database of these rows, with this stash or none. `AlreadyThere` comes exactly where a control
/// slot is open. Memory is taken before the first device call. `format` is that of the files, 1 or 2;
/// `base` is the point at which the log begins, `size` the number of entries that it holds, and `block`
/// the length of their slots in bytes.
///
/// Every file is synced first. From then on, and until the control slot is in force, a crash leaves no
/// database.
pub fn create_parts<D: Disk>(
    alloc: Global,
    disk: &mut D,
    format: u16,
    realm: &[u8],
    rows: Rows,
    base: Point,
    size: u32,
    block: u32,
    stash: Option<&[u8]>,
) -> Result<Parts, Stop>
    requires format { is_format format ≡ true }
    requires realm { IsRealm realm.now }
    requires size { nat_le 2 size && nat_le size 10000 ≡ true }
    requires block { nat_le 2048 block && nat_le block 16384 ≡ true }
    // in format 1 rows are shorter, and have no string attributes
    requires rows { All (IsRowOf format) rows.princs }
    ensures answer { D.tells → AnswersMade result (in_force ((D.view disk.old).seen 0)) }
    // whatever the disk tells
    ensures stops { IfErr result StopsMaking }
    ensures place { IfOk result (λ p.
        place_kept (kept_of p) ≡ created realm.now rows base size block (option_map (λ s. s.now) stash.entry) format) }
    // The files are the first of each kind, and so is the turn of the slot.
    ensures control { IfOk result
        (λ p. p.control ≡ first_choice format (first_stash (option_map (λ s. s.now) stash.entry)) base size block) }
    ensures kept { IfOk result (λ p. IsKept (kept_of p)) }
    ensures on { D.tells → IfOk result (λ p. IsOnDisk (kept_of p) (D.view disk.new)) }
    // The rows stand one behind the other from the first unit on, in their order, whatever a crash leaves.
    ensures written { D.tells → OnOk result (HasFile 1 (file_text format realm.now base rows) (D.view disk.new)) }
    ensures moments { D.tells → LeavesOnly (D.view disk.old) (D.view disk.new) (Creates (D.view disk.old)
        (created realm.now rows base size block (option_map (λ s. s.now) stash.entry) format)) }
    ensures refused { D.tells → (refusal : Refuses) → result ≡ Err (Refused refusal)
        → Keeps (D.view disk.old) (D.view disk.new) }
    ensures there { D.tells → in_force ((D.view disk.old).seen 0) ≢ Nothing
        → Keeps (D.view disk.old) (D.view disk.new) }
    ensures memory { result ≡ Err (Halts IsMemoryOut) → disk.new ≡ disk.old }
    ensures call { IsCall D.Disk disk.old disk.new (result ≡ Err (Halts IsDiskFault)) }
{
    match plan_files(alloc, format, realm, rows, base, size, block, stash) {
        Ok(plan) => make_plan(disk, plan, stash),
        Err(_) => Err(Stop::Halt(Halt::MemoryOut)),
    }
}
