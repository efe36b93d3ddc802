//! All rows written anew, with a log begun anew.
ghost use Rattle.std.specs.Prelude.{◌≡◌, ◌≢◌, ◌≤◌, ◌∷◌, [], List, ℕ, false, true, Err, IfOk, OnOk, OnErr, IsErr};
ghost use Rattle.kdb_base.specs.declared.outcomes.Halt.TheVariants.{MemoryOut as IsMemoryOut, DiskFault as IsDiskFault};
ghost use Rattle.kdb_disk.specs.View.{View};
ghost use Rattle.kdb_disk.specs.Frames.{IsCall, IsCrashSafe};
ghost use Rattle.kdb_disk.specs.Moments.{LeavesOnly};
ghost use Rattle.kdb_control.specs.declared.force.Force.TheVariants.{Is};
ghost use Rattle.kdb_control.specs.Moments.{HasInForce};
ghost use Rattle.princ_rows.specs.Rows.{RowLists};
ghost use Rattle.update_log.specs.Logs.{begun};
ghost use Rattle.cell_files.specs.NewFiles.{file_text};
ghost use Rattle.kdb_cells.specs.CellFiles.{is_image};
ghost use Rattle.kdb_places.specs.Places.{log_anew, replaced};
ghost use Rattle.store_files.specs.Kept.{Kept, IsOnDisk, place_kept};
ghost use Rattle.store_files.specs.Recovery.{LeavesPart};
ghost use Rattle.store_switches.specs.Renewed.{renewed, place_renewed, IsRenewal, HasRows};
ghost use Rattle.store_switches.specs.Switched.{IsUnder};
ghost use Rattle.kdb_store.specs.Renewals.{IsPlanned, AreRenewed};

use crate::changing::holds_rows;
use crate::database::Database;
use cell_files::NewFile;
use kdb_base::{Halt, MemoryOut, Point};
use kdb_cells::Cells;
use kdb_control::Control;
use kdb_disk::{Disk, DiskFailed};
use princ_name::Realm;
use princ_rows::Rows;
use std::alloc::Global;
use store_switches::{renew_files, renewed_control};
use update_log::{Log, NewLog};

// The format of the files that are written.
const FORMAT: u16 = 2;

// What is to be written, with all memory that is needed.
#[derive(Drop)]
pub(crate) struct Renewal {
    pub(crate) image: NewFile,
    pub(crate) log: NewLog,
}

// The files that this choice names.
fn plan_renewal(
    alloc: Global,
    next: &Control,
    realm: &Realm,
    rows: &Rows,
) -> Result<Renewal, MemoryOut>
    requires image { is_image next.now.image ≡ true }
    requires log { (3 ≤ next.now.log) × (next.now.log ≤ 4) }
    requires size { (2 ≤ next.now.size) × (next.now.size ≤ 10000) }
    requires block { (2048 ≤ next.now.block) × (next.now.block ≤ 16384) }
    ensures { IfOk result (λ plan. IsPlanned next.now realm.now rows.now plan) }
{
    holds_rows(rows);
    let log = NewLog::new(alloc, next.log, next.base, next.size, next.block, None)?;
    let image = NewFile::new(alloc, next.image, FORMAT, realm, &next.base, rows)?;
    Ok(Renewal { image, log })
}

// Writes the files of the plan and puts the choice that names them into force. They are then kept.
fn put_renewal<D: Disk>(
    disk: &mut D,
    now: &Control,
    next: &Control,
    plan: Renewal,
    log: &mut Log,
    cells: &mut Cells,
) -> Result<(), DiskFailed>
    requires force { D.tells → HasInForce (Is now.now) (D.view disk.old) }
    requires next { IsRenewal now.now next.now }
    requires image { plan.image.cells.file ≡ next.now.image }
    requires log { plan.log ≡ begun next.now.log next.now.base next.now.size next.now.block }
    ensures log { OnOk result (log.new ≡ plan.log) }
    ensures cells { OnOk result (cells.new ≡ plan.image.cells) }
    ensures same_log { OnErr result (log.new ≡ log.old) }
    ensures same_cells { OnErr result (cells.new ≡ cells.old) }
    ensures crash { D.tells → (k : Kept) → (realm : List ℕ) → (rows : RowLists) → IsUnder now.now k (D.view disk.old)
        → HasRows realm rows plan.image
        → LeavesOnly (D.view disk.old) (D.view disk.new) (LeavesPart (place_kept k)
        (place_renewed next.now.base next.now.size next.now.block realm rows (place_kept k) ∷ [])) }
    ensures on { D.tells → (k : Kept) → (realm : List ℕ) → (rows : RowLists) → IsUnder now.now k (D.view disk.old)
        → HasRows realm rows plan.image
        → OnOk result (IsOnDisk (renewed next.now log.new cells.new realm rows k) (D.view disk.new)) }
    ensures written { D.tells → OnOk result ((D.view disk.new).seen next.now.image ≡ plan.image.content) }
    ensures others { D.tells → OnOk result ((g : ℕ) → g ≢ 0 → g ≢ next.now.image → g ≢ next.now.log
        → (D.view disk.new).seen g ≡ (D.view disk.old).seen g) }
    ensures call { IsCall D.Disk disk.old disk.new (IsErr result) }
{
    let mut plan = plan;
    match renew_files(disk, now, next, &mut plan.image, &plan.log) {
        Ok(()) => {
            *log = plan.log.into_log();
            *cells = plan.image.into_cells();
            Ok(())
        }
        Err(failed) => {
            drop(plan);
            Err(failed)
        }
    }
}

// Writes these rows and begins the log, in memory and on the disk, all but the rows in memory. Memory is
// taken before the first device call.
fn renew_parts<D: Disk>(
    alloc: Global,
    disk: &mut D,
    control: &mut Control,
    log: &mut Log,
    cells: &mut Cells,
    realm: &Realm,
    rows: &Rows,
    base: Point,
    size: u32,
    block: u32,
) -> Result<(), Halt>
    requires force { D.tells → HasInForce (Is control.old) (D.view disk.old) }
    requires size { (2 ≤ size) × (size ≤ 10000) }
    requires block { (2048 ≤ block) × (block ≤ 16384) }
    ensures renewed { OnOk result (AreRenewed base size block rows.now control.old control.new log.new cells.new) }
    ensures same_control { OnErr result (control.new ≡ control.old) }
    ensures same_log { OnErr result (log.new ≡ log.old) }
    ensures same_cells { OnErr result (cells.new ≡ cells.old) }
    ensures crash { D.tells → (k : Kept) → IsUnder control.old k (D.view disk.old)
        → LeavesOnly (D.view disk.old) (D.view disk.new)
        (LeavesPart (place_kept k) (place_renewed base size block realm.now rows.now (place_kept k) ∷ [])) }
    ensures on { D.tells → (k : Kept) → IsUnder control.old k (D.view disk.old)
        → OnOk result (IsOnDisk (renewed control.new log.new cells.new realm.now rows.now k) (D.view disk.new)) }
    ensures written { D.tells
        → OnOk result ((D.view disk.new).seen control.new.image ≡ file_text 2 realm.now base rows.now) }
    ensures others { D.tells → OnOk result ((g : ℕ) → g ≢ 0 → g ≢ control.new.image → g ≢ control.new.log
        → (D.view disk.new).seen g ≡ (D.view disk.old).seen g) }
    ensures memory { result ≡ Err IsMemoryOut → disk.new ≡ disk.old }
    ensures call { IsCall D.Disk disk.old disk.new (result ≡ Err IsDiskFault) }
{
    let next = renewed_control(control, &base, size, block);
    match plan_renewal(alloc, &next, realm, rows) {
        Ok(plan) => match put_renewal(disk, control, &next, plan, log, cells) {
            Ok(()) => {
                *control = next;
                Ok(())
            }
            Err(_) => Err(Halt::DiskFault),
        },
        Err(_) => Err(Halt::MemoryOut),
    }
}

// Puts this realm and these rows in the place of the realm and of all rows, in memory and on the disk.
fn replace_parts<D: Disk>(
    alloc: Global,
    disk: &mut D,
    control: &mut Control,
    log: &mut Log,
    cells: &mut Cells,
    realm: &mut Realm,
    rows: &mut Rows,
    new_realm: Realm,
    new: Rows,
    base: Point,
) -> Result<(), Halt>
    requires force { D.tells → HasInForce (Is control.old) (D.view disk.old) }
    ensures realm { OnOk result (realm.new ≡ new_realm) }
    ensures rows { OnOk result (rows.new ≡ new) }
    ensures renewed { OnOk result
        (AreRenewed base control.old.size control.old.block new control.old control.new log.new cells.new) }
    ensures same_realm { OnErr result (realm.new ≡ realm.old) }
    ensures same_rows { OnErr result (rows.new ≡ rows.old) }
    ensures same_control { OnErr result (control.new ≡ control.old) }
    ensures same_log { OnErr result (log.new ≡ log.old) }
    ensures same_cells { OnErr result (cells.new ≡ cells.old) }
    ensures crash { D.tells → (k : Kept) → IsUnder control.old k (D.view disk.old)
        → LeavesOnly (D.view disk.old) (D.view disk.new) (LeavesPart (place_kept k)
        (place_renewed base control.old.size control.old.block new_realm new (place_kept k) ∷ [])) }
    ensures on { D.tells → (k : Kept) → IsUnder control.old k (D.view disk.old)
        → OnOk result (IsOnDisk (renewed control.new log.new cells.new realm.new rows.new k) (D.view disk.new)) }
    ensures written { D.tells
        → OnOk result ((D.view disk.new).seen control.new.image ≡ file_text 2 new_realm base new) }
    ensures others { D.tells → OnOk result ((g : ℕ) → g ≢ 0 → g ≢ control.new.image → g ≢ control.new.log
        → (D.view disk.new).seen g ≡ (D.view disk.old).seen g) }
    ensures memory { result ≡ Err IsMemoryOut → disk.new ≡ disk.old }
    ensures call { IsCall D.Disk disk.old disk.new (result ≡ Err IsDiskFault) }
{
    let size = control.size;
    let block = control.block;
    match renew_parts(
        alloc, disk, control, log, cells, &new_realm, &new, base, size, block,
    ) {
        Ok(()) => {
            *realm = new_realm;
            *rows = new;
            Ok(())
        }
        Err(halt) => Err(halt),
    }
}

impl Database {
    /// Writes the files of a database anew in format 2, with a log that begins at this base and holds
    /// `size` entries at most (2 to 10000) in blocks of `block` bytes (2048 to 16384). The rows and the
    /// stash stay. It is for files of format 1, which take no change. Memory is taken before the first
    /// device call.
    ///
    /// At each moment a crash leaves the place before, or the one with the log begun anew. After
    /// `DiskFault` the disk is to be opened again.
    pub fn migrate<D: Disk>(
        &mut self,
        alloc: Global,
        disk: &mut D,
        base: Point,
        size: u32,
        block: u32,
    ) -> Result<(), Halt>
        requires on { D.tells → IsOnDisk self.old (D.view disk.old) }
        requires whole { self.old.broken ≡ false }
        requires size { (2 ≤ size) × (size ≤ 10000) }
        requires block { (2048 ≤ block) × (block ≤ 16384) }
        ensures place { OnOk result (place_kept self.new ≡ log_anew base size block (place_kept self.old)) }
        ensures on { D.tells → OnOk result (IsOnDisk self.new (D.view disk.new)) }
        // The rows stand one behind the other from the first unit on, in their order.
        ensures written { D.tells → OnOk result
            ((D.view disk.new).seen self.new.control.image ≡ file_text 2 self.old.realm base self.old.rows) }
        // No file is written but those that now have the rows and the log, and the choice of files.
        ensures others { D.tells → OnOk result
            ((g : ℕ) → g ≢ 0 → g ≢ self.new.control.image → g ≢ self.new.control.log
            → (D.view disk.new).seen g ≡ (D.view disk.old).seen g) }
        ensures crash { IsCrashSafe D.Disk disk.old disk.new
            (LeavesPart (place_kept self.old) (log_anew base size block (place_kept self.old) ∷ [])) }
        ensures err { OnErr result (place_kept self.new ≡ place_kept self.old) }
        ensures memory { result ≡ Err IsMemoryOut → disk.new ≡ disk.old }
        // Where memory ran out, the database stands on the disk as before.
        ensures still { D.tells → result ≡ Err IsMemoryOut → IsOnDisk self.new (D.view disk.new) }
        ensures whole { OnOk result (self.new.broken ≡ false) }
        ensures whole_still { result ≡ Err IsMemoryOut → self.new.broken ≡ false }
        ensures broken { result ≡ Err IsDiskFault → self.new.broken ≡ true }
        ensures call { IsCall D.Disk disk.old disk.new (result ≡ Err IsDiskFault) }
    {
        match renew_parts(
            alloc,
            disk,
            &mut self.control,
            &mut self.log,
            &mut self.cells,
            &self.realm,
            &self.rows,
            base,
            size,
            block,
        ) {
            Ok(()) => Ok(()),
            Err(Halt::DiskFault) => {
                self.broken = true;
                Err(Halt::DiskFault)
            }
            Err(Halt::MemoryOut) => Err(Halt::MemoryOut),
        }
    }

    /// Puts this realm and these rows in the place of the realm and of all rows, and begins the log anew at
    /// this base. The stash, the number of entries that the log holds and the length of their slots stay, and
    /// the files are then of format 2. Memory is taken before the first device call.
    ///
    /// At each moment a crash leaves the place before, or the one with this realm and these rows. After `DiskFault` the
    /// disk is to be opened again.
    pub fn replace<D: Disk>(
        &mut self,
        alloc: Global,
        disk: &mut D,
        realm: Realm,
        rows: Rows,
        base: Point,
    ) -> Result<(), Halt>
        requires on { D.tells → IsOnDisk self.old (D.view disk.old) }
        requires whole { self.old.broken ≡ false }
        ensures place { OnOk result (place_kept self.new ≡ replaced realm rows base (place_kept self.old)) }
        ensures on { D.tells → OnOk result (IsOnDisk self.new (D.view disk.new)) }
        // The rows stand one behind the other from the first unit on, in their order.
        ensures written { D.tells
            → OnOk result ((D.view disk.new).seen self.new.control.image ≡ file_text 2 realm base rows) }
        // No file is written but those that now have the rows and the log, and the choice of files.
        ensures others { D.tells → OnOk result
            ((g : ℕ) → g ≢ 0 → g ≢ self.new.control.image → g ≢ self.new.control.log
            → (D.view disk.new).seen g ≡ (D.view disk.old).seen g) }
        ensures crash { IsCrashSafe D.Disk disk.old disk.new
            (LeavesPart (place_kept self.old) (replaced realm rows base (place_kept self.old) ∷ [])) }
        ensures err { OnErr result (place_kept self.new ≡ place_kept self.old) }
        ensures memory { result ≡ Err IsMemoryOut → disk.new ≡ disk.old }
        // Where memory ran out, the database stands on the disk as before.
        ensures still { D.tells → result ≡ Err IsMemoryOut → IsOnDisk self.new (D.view disk.new) }
        ensures whole { OnOk result (self.new.broken ≡ false) }
        ensures whole_still { result ≡ Err IsMemoryOut → self.new.broken ≡ false }
        ensures broken { result ≡ Err IsDiskFault → self.new.broken ≡ true }
        ensures call { IsCall D.Disk disk.old disk.new (result ≡ Err IsDiskFault) }
    {
        match replace_parts(
            alloc,
            disk,
            &mut self.control,
            &mut self.log,
            &mut self.cells,
            &mut self.realm,
            &mut self.rows,
            realm,
            rows,
            base,
        ) {
            Ok(()) => Ok(()),
            Err(Halt::DiskFault) => {
                self.broken = true;
                Err(Halt::DiskFault)
            }
            Err(Halt::MemoryOut) => Err(Halt::MemoryOut),
        }
    }
}
