//! Whole databases, loaded by a replica.

ghost use Rattle.std.specs.Prelude.{◌≡◌, ◌≤◌, ◌↔◌, ◌∷◌, [], true, false, Err, IfOk, None, OnErr, OnOk, Some};
ghost use Rattle.std.specs.List.{All};
ghost use Rattle.kdb_base.specs.declared.outcomes.Halt.TheVariants.{MemoryOut as IsMemoryOut, DiskFault as IsDiskFault};
ghost use Rattle.kdb_base.specs.declared.outcomes.Stop.TheVariants.{Halt as Halts};
ghost use Rattle.kdb_cells.specs.Cells.{IsRowOf};
ghost use Rattle.kdb_disk.specs.Frames.{IsCall, IsCrashSafe};
ghost use Rattle.kdb_places.specs.Places.{created};
ghost use Rattle.replica_core.specs.Opened.{HasSize, IsHeldOn, IsWhole, LeavesMade, MayBeFaulty};
ghost use Rattle.replica_core.specs.Opened.{halted, is_broken, place_in, place_of, told_dump};
ghost use Rattle.replica_steps.specs.Replicas.{Install, loaded, place_after, task_makes};
ghost use Rattle.store_files.specs.Kept.{IsOnDisk, place_kept};
ghost use Rattle.store_files.specs.Recovery.{RecoversToNone};

use crate::replica::Replica;
use dump_text::Dump;
use kdb_base::{Halt, Point, Stop};
use kdb_disk::Disk;
use kdb_store::Database;
use princ_name::Realm;
use princ_rows::Rows;
use std::alloc::Global;

// How many bytes a block of the log of a new database has.
const BLOCK: u32 = 2048;

// Tells a proof that rows may stand in files of format 2. It does nothing.
fn holds_rows(rows: &Rows)
    ensures { All (IsRowOf 2) rows.now.princs }
{
    let _ = rows.princs();
}

// The early end of a creation. Where a control slot is open in files that are not told, it is as if memory ran out.
fn halt_of(stop: Stop) -> Halt
    ensures fault { (result ≡ IsDiskFault) ↔ (stop ≡ Halts IsDiskFault) }
    ensures value { result ≡ halted stop }
{
    match stop {
        Stop::Halt(halt) => halt,
        Stop::Refused(_) => Halt::MemoryOut,
    }
}

// Makes the database of a dump, where there is none.
fn make<D: Disk>(
    alloc: Global,
    disk: &mut D,
    realm: &Realm,
    rows: Rows,
    base: Point,
    size: u32,
) -> Result<Database, Halt>
    requires none { D.tells → RecoversToNone (D.view disk.old) }
    requires size { (2 ≤ size) × (size ≤ 10000) }
    ensures place { IfOk result (λ d. place_kept d ≡ created realm.now rows base size 2048 None 2) }
    ensures whole { IfOk result (λ d. d.broken ≡ false) }
    ensures on { D.tells → IfOk result (λ d. IsOnDisk d (D.view disk.new)) }
    ensures crash { IsCrashSafe D.Disk disk.old disk.new
        (LeavesMade None (created realm.now rows base size 2048 None 2 ∷ [])) }
    ensures memory { D.tells → result ≡ Err IsMemoryOut → disk.new ≡ disk.old }
    ensures call { IsCall D.Disk disk.old disk.new (result ≡ Err IsDiskFault) }
{
    holds_rows(&rows);
    match Database::create(
        alloc,
        disk,
        2,
        realm.as_slice(),
        rows,
        base,
        size,
        BLOCK,
        None,
    ) {
        Ok(database) => Ok(database),
        Err(stop) => Err(halt_of(stop)),
    }
}

// Puts a whole database in the place of what there is.
fn load_parts<D: Disk>(
    alloc: Global,
    database: &mut Option<Database>,
    disk: &mut D,
    dump: Dump,
    size: u32,
) -> Result<(), Halt>
    requires on { D.tells → IsHeldOn database.old (D.view disk.old) }
    requires whole { IsWhole database.old }
    requires sized { HasSize size database.old }
    requires size { (2 ≤ size) × (size ≤ 10000) }
    ensures place { OnOk result (place_in database.new ≡ Some (loaded size (place_in database.old) (told_dump dump))) }
    ensures err { OnErr result (place_in database.new ≡ place_in database.old) }
    ensures sized { HasSize size database.new }
    ensures crash { IsCrashSafe D.Disk disk.old disk.new
        (LeavesMade (place_in database.old) (loaded size (place_in database.old) (told_dump dump) ∷ [])) }
    ensures on { D.tells → OnOk result (IsHeldOn database.new (D.view disk.new)) }
    ensures memory { D.tells → result ≡ Err IsMemoryOut → disk.new ≡ disk.old }
    ensures still { D.tells → result ≡ Err IsMemoryOut → IsHeldOn database.new (D.view disk.new) }
    ensures whole { OnOk result (IsWhole database.new) }
    ensures whole_still { result ≡ Err IsMemoryOut → IsWhole database.new }
    ensures broken { result ≡ Err IsDiskFault → MayBeFaulty database.new }
    ensures call { IsCall D.Disk disk.old disk.new (result ≡ Err IsDiskFault) }
{
    let Dump { realm, point, rows } = dump;
    match database {
        Some(database) => database.replace(alloc, disk, realm, rows, point),
        None => match make(alloc, disk, &realm, rows, point, size) {
            Ok(made) => {
                drop(database.replace(made));
                Ok(())
            }
            Err(halt) => Err(halt),
        },
    }
}

impl Replica {
    /// Loads a whole database: its realm, its rows and its point take the place of what there was, and the log begins
    /// anew at that point. It gives the point. Without a database the log gets blocks of 2048 bytes. Memory is taken
    /// before the first device call.
    ///
    /// At each moment a crash leaves the place before, or the one with these rows.
    ///
    /// # Errors
    ///
    /// `MemoryOut` where memory is wanted and not given; `DiskFault` where the disk failed, which is then to be opened
    /// again.
    pub fn load<D: Disk>(&mut self, alloc: Global, disk: &mut D, dump: Dump) -> Result<Point, Halt>
        requires on { D.tells → IsHeldOn self.old.database (D.view disk.old) }
        requires whole { is_broken self.old.database self.old.failed ≡ false }
        ensures point { IfOk result (λ p. p ≡ dump.point) }
        ensures place { OnOk result (place_of self.new ≡ place_after (place_of self.old)
            (task_makes self.old.size (place_of self.old) (Install (told_dump dump)))) }
        ensures err { OnErr result (place_of self.new ≡ place_of self.old) }
        ensures crash { IsCrashSafe D.Disk disk.old disk.new
            (LeavesMade (place_of self.old) (task_makes self.old.size (place_of self.old) (Install (told_dump dump)))) }
        ensures on { D.tells → OnOk result (IsHeldOn self.new.database (D.view disk.new)) }
        ensures memory { D.tells → result ≡ Err IsMemoryOut → disk.new ≡ disk.old }
        // Where memory ran out, the replica stands on the disk as before.
        ensures still { D.tells → result ≡ Err IsMemoryOut → IsHeldOn self.new.database (D.view disk.new) }
        ensures size { self.new.size ≡ self.old.size }
        ensures whole { OnOk result (is_broken self.new.database self.new.failed ≡ false) }
        ensures whole_still { result ≡ Err IsMemoryOut → is_broken self.new.database self.new.failed ≡ false }
        ensures broken { result ≡ Err IsDiskFault → is_broken self.new.database self.new.failed ≡ true }
        ensures call { IsCall D.Disk disk.old disk.new (result ≡ Err IsDiskFault) }
    {
        let point = dump.point;
        match load_parts(alloc, &mut self.database, disk, dump, self.size) {
            Ok(()) => Ok(point),
            Err(Halt::DiskFault) => {
                self.failed = true;
                Err(Halt::DiskFault)
            }
            Err(Halt::MemoryOut) => Err(Halt::MemoryOut),
        }
    }
}
