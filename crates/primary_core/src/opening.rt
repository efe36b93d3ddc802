//! A primary opened.

ghost use Rattle.std.specs.Prelude.{◌≡◌, ◌≢◌, ◌≤◌, ◌⊎◌, ◌&&◌, ◌∷◌, [], false, Err};
ghost use Rattle.std.specs.Prelude.{IfErr, IfOk, IfSome, List, MatchResult, Ok, OnOk, nat_eq};
ghost use Rattle.iprop_truths.specs.Parts.{end_of};
ghost use Rattle.kdb_base.specs.declared.outcomes.Halt.{Halt as Halting};
ghost use Rattle.kdb_base.specs.declared.outcomes.Halt.TheVariants.{MemoryOut as IsMemoryOut, DiskFault as IsDiskFault};
ghost use Rattle.kdb_base.specs.declared.outcomes.Refusal.{Refusal as Refuses};
ghost use Rattle.kdb_base.specs.declared.outcomes.Stop.TheVariants.{Refused, Halt as Halts};
ghost use Rattle.kdb_base.specs.declared.versions.Master.{Master as Masterly};
ghost use Rattle.kdb_disk.specs.Frames.{IsCall, IsCrashSafe};
ghost use Rattle.kdb_disk.specs.Moments.{LeavesOnly};
ghost use Rattle.kdb_histories.specs.Calls.{HasTimeLeft, resized, size_or};
ghost use Rattle.kdb_histories.specs.Seen.{reset_point};
ghost use Rattle.kdb_histories.specs.Stages.{places};
ghost use Rattle.kdb_places.specs.Places.{log_anew};
ghost use Rattle.kdb_store.specs.Reading.{IsFoundAs};
ghost use Rattle.primary_core.specs.Opened.{IsShown, IsWrittenAnew};
ghost use Rattle.primary_core.specs.Opening.{EndsTime, IsHalt, IsRefusedAs, MayOpen, OpeningRefused};
ghost use Rattle.primary_core.specs.Opening.{OpensAt, OpensFrom, OpensHaving, OpensTo, OpensWith};
ghost use Rattle.primary_core.specs.Opening.{RecoversAs, RefusesAt, RowsRefused, StopsPrimary, StopsRows};
ghost use Rattle.primary_core.specs.Opening.{place_found};
ghost use Rattle.stash_opening.specs.Answers.{Gives, Refuses as RefusesFor};
ghost use Rattle.store_files.specs.Found.{Found, found_in};
ghost use Rattle.store_files.specs.Kept.{IsOnDisk, place_kept};
ghost use Rattle.store_files.specs.Recovery.{IsLike, LeavesPart};

use crate::moments::{holds_moment, holds_point, is_last, reset_point};
use crate::primary::Primary;
use kdb_base::{Halt, Masters, Point, Refusal, Stop, Time};
use kdb_disk::Disk;
use kdb_plain::laws::valid_later;
use kdb_store::Database;
use row_keys::laws::sound_rows_show_one_state;
use stash_opening::find_masters;
use std::alloc::Global;
use store_files::laws::what_is_kept_is_recovered;

// The master keys by which the rows are read, which are sound under them at the time of the last change.
fn masters_of(alloc: Global, database: &Database) -> Result<Masters, Stop>
    ensures opens { IfOk result (OpensAt (place_kept database.now)) }
    ensures complete { (masters : List Masterly) → OpensAt (place_kept database.now) masters → Gives result masters }
    ensures refused { (why : Refuses) → result ≡ Err (Refused why)
        → RefusesAt (place_kept database.now) database.now.control.stash why }
    ensures only_refused { (why : Refuses) → RefusesAt (place_kept database.now) database.now.control.stash why
        → RefusesFor result why }
    ensures halted { (halt : Halting) → result ≡ Err (Halts halt) → halt ≡ IsMemoryOut }
{
    find_masters(
        alloc,
        database.rows(),
        database.realm().as_slice(),
        database.stash(),
        database.stash_file(),
        database.point().time.secs(),
    )
}

// The database that the files stand for, and the master keys by which its rows are read.
fn open_rows<D: Disk>(alloc: Global, disk: &mut D) -> Result<(Database, Masters), Stop>
    ensures found { D.tells → IfOk result (λ both. IsFoundAs both.0 (found_in (D.view disk.old).seen)) }
    ensures opens { IfOk result (λ both. OpensAt (place_kept both.0) both.1) }
    ensures refused { D.tells → (why : Refuses) → result ≡ Err (Refused why)
        → RowsRefused (found_in (D.view disk.old).seen) why }
    ensures complete { D.tells → (f : Found) (masters : List Masterly) → found_in (D.view disk.old).seen ≡ Ok f
        → OpensWith f masters → MatchResult result (λ both. both.1 ≡ masters) IsHalt }
    ensures only_refused { D.tells → (why : Refuses) → RowsRefused (found_in (D.view disk.old).seen) why
        → IsRefusedAs result why }
    // whatever the disk tells
    ensures stops { IfErr result StopsRows }
    ensures whole { IfOk result (λ both. both.0.broken ≡ false) }
    ensures on { D.tells → IfOk result (λ both. IsOnDisk both.0 (D.view disk.new)) }
    ensures refused_stays { D.tells → (why : Refuses) → result ≡ Err (Refused why)
        → RecoversAs (D.view disk.old).seen (D.view disk.new) }
    ensures moments { D.tells → LeavesOnly (D.view disk.old) (D.view disk.new) (IsLike (D.view disk.old)) }
    ensures call { IsCall D.Disk disk.old disk.new (result ≡ Err (Halts IsDiskFault)) }
{
    let database = match Database::recover(alloc, disk) {
        Ok(database) => database,
        Err(stop) => return Err(stop),
    };
    what_is_kept_is_recovered(disk);
    match masters_of(alloc, &database) {
        Ok(masters) => Ok((database, masters)),
        Err(stop) => {
            drop(database);
            Err(stop)
        }
    }
}

// The size of the log that is asked for, or that it has.
fn size_or(size: Option<u32>, database: &Database) -> u32
    requires { IfSome size (λ n. (2 ≤ n) × (n ≤ 10000)) }
    ensures value { result ≡ size_or size (place_kept database.now) }
    ensures range { (2 ≤ result) × (result ≤ 10000) }
{
    database.holds_kept();
    database.log().holds_journal();
    match size {
        Some(size) => size,
        None => database.log_size(),
    }
}

// Whether the log has this size, and the files are of format 2.
fn is_same(database: &Database, size: u32) -> bool
    ensures { result ≡ (nat_eq (place_kept database.now).format 2 && nat_eq size (place_kept database.now).size) }
{
    database.format() == 2 && size == database.log_size()
}

// Begins the log anew with this size, in format 2.
fn begin_anew<D: Disk>(
    alloc: Global,
    database: &mut Database,
    disk: &mut D,
    base: Point,
    size: u32,
) -> Result<(), Halt>
    requires on { D.tells → IsOnDisk database.old (D.view disk.old) }
    requires whole { database.old.broken ≡ false }
    requires size { (2 ≤ size) × (size ≤ 10000) }
    ensures place { OnOk result
        (place_kept database.new ≡ log_anew base size (place_kept database.old).block (place_kept database.old)) }
    ensures on { D.tells → OnOk result (IsOnDisk database.new (D.view disk.new)) }
    // Files of format 1 are written whole.
    ensures written { D.tells → (place_kept database.old).format ≢ 2
        → OnOk result (IsWrittenAnew (D.view disk.new) database.new base) }
    ensures crash { IsCrashSafe D.Disk disk.old disk.new (LeavesPart (place_kept database.old)
        (log_anew base size (place_kept database.old).block (place_kept database.old) ∷ [])) }
    ensures memory { result ≡ Err IsMemoryOut → disk.new ≡ disk.old }
    ensures whole { OnOk result (database.new.broken ≡ false) }
    ensures call { IsCall D.Disk disk.old disk.new (result ≡ Err IsDiskFault) }
{
    let block = database.block();
    if database.format() == 2 {
        return database.reset(alloc, disk, base, size, block);
    }
    database.migrate(alloc, disk, base, size, block)
}

// Begins the log anew where another size is asked for, or the files are of format 1.
fn renew<D: Disk>(
    alloc: Global,
    database: &mut Database,
    disk: &mut D,
    size: Option<u32>,
    now: Time,
) -> Result<(), Stop>
    requires on { D.tells → IsOnDisk database.old (D.view disk.old) }
    requires whole { database.old.broken ≡ false }
    requires size { IfSome size (λ n. (2 ≤ n) × (n ≤ 10000)) }
    ensures place { OnOk result (place_kept database.new
        ≡ end_of (place_kept database.old) (places (resized size now (place_kept database.old)))) }
    ensures left { OnOk result
        (resized size now (place_kept database.old) ≢ [] → HasTimeLeft (place_kept database.old)) }
    ensures refused { (why : Refuses) → result ≡ Err (Refused why) → EndsTime size now (place_kept database.old) why }
    // Where no later time is left, nothing is written.
    ensures late { (resized size now (place_kept database.old) ≢ [] → HasTimeLeft (place_kept database.old))
        ⊎ (disk.new ≡ disk.old) }
    ensures on { D.tells → OnOk result (IsOnDisk database.new (D.view disk.new)) }
    // Files of format 1 are written whole.
    ensures written { D.tells → (place_kept database.old).format ≢ 2
        → OnOk result (IsWrittenAnew (D.view disk.new) database.new (reset_point now (place_kept database.old))) }
    ensures crash { IsCrashSafe D.Disk disk.old disk.new
        (LeavesPart (place_kept database.old) (places (resized size now (place_kept database.old)))) }
    ensures memory { result ≡ Err (Halts IsMemoryOut) → disk.new ≡ disk.old }
    ensures whole { OnOk result (database.new.broken ≡ false) }
    ensures call { IsCall D.Disk disk.old disk.new (result ≡ Err (Halts IsDiskFault)) }
{
    what_is_kept_is_recovered(disk);
    let size = size_or(size, database);
    if is_same(database, size) {
        return Ok(());
    }
    holds_point(database.point());
    let last = database.point();
    if is_last(last.time) {
        return Err(Stop::Refused(Refusal::TimeEnd));
    }
    let base = reset_point(last, now);
    match begin_anew(alloc, database, disk, base, size) {
        Ok(()) => Ok(()),
        Err(halt) => Err(Stop::Halt(halt)),
    }
}

// Tells a proof that rows which are sound under master keys show a state with them. It does nothing.
fn holds_state(database: &Database, masters: &Masters)
    requires { OpensAt (place_kept database.now) masters.now }
    ensures { IsShown (place_kept database.now) masters.now }
{
    sound_rows_show_one_state();
    let _ = masters;
    let _realm = database.realm().as_slice();
    let _princs = database.rows().princs();
}

// The primary of a database that was read, with its log begun anew where that is asked for.
fn open_as<D: Disk>(
    alloc: Global,
    disk: &mut D,
    mut database: Database,
    masters: Masters,
    size: Option<u32>,
    room: u32,
    now: Time,
) -> Result<Primary, Stop>
    requires on { D.tells → IsOnDisk database (D.view disk.old) }
    requires whole { database.broken ≡ false }
    requires opens { OpensAt (place_kept database) masters }
    requires size { IfSome size (λ n. (2 ≤ n) × (n ≤ 10000)) }
    requires room { (1 ≤ room) × (room ≤ 16) }
    ensures opens { IfOk result (OpensFrom (place_kept database) masters size now) }
    ensures refused { (why : Refuses) → result ≡ Err (Refused why) → EndsTime size now (place_kept database) why }
    ensures late { (resized size now (place_kept database) ≢ [] → HasTimeLeft (place_kept database))
        ⊎ (disk.new ≡ disk.old) }
    ensures room { IfOk result (λ o. (o.dumps ≡ 0) × (o.room ≡ room)) }
    ensures whole { IfOk result (λ o. o.kept.broken ≡ false) }
    ensures on { D.tells → IfOk result (λ o. IsOnDisk o.kept (D.view disk.new)) }
    // Files of format 1 are written whole.
    ensures written { D.tells → (place_kept database).format ≢ 2
        → IfOk result (λ o. IsWrittenAnew (D.view disk.new) o.kept (reset_point now (place_kept database))) }
    ensures crash { IsCrashSafe D.Disk disk.old disk.new
        (LeavesPart (place_kept database) (places (resized size now (place_kept database)))) }
    ensures memory { result ≡ Err (Halts IsMemoryOut) → disk.new ≡ disk.old }
    ensures call { IsCall D.Disk disk.old disk.new (result ≡ Err (Halts IsDiskFault)) }
{
    valid_later();
    holds_state(&database, &masters);
    holds_moment(now);
    match renew(alloc, &mut database, disk, size, now) {
        Ok(()) => Ok(Primary::of_parts(database, masters, room)),
        Err(stop) => Err(stop),
    }
}

impl Primary {
    /// Opens the database that the files stand for, with a log of so many entries (2 to 10000) where a size is given,
    /// and so many places for dumps (1 to 16). Every key of it is unwrapped once. Another size, or files of format 1,
    /// begin the log anew, at the clock's time or a microsecond behind the last change.
    ///
    /// # Errors
    ///
    /// `NotADatabase` and `Damaged` of the files, `StashMissing`, `UnknownMaster` and `StashWrong` of the stash and the
    /// rows, `TimeEnd` where a log is to begin anew and no later time is left; `Halt` where memory is wanted and not
    /// given, or the disk failed.
    pub fn recover<D: Disk>(
        alloc: Global,
        disk: &mut D,
        size: Option<u32>,
        room: u32,
        now: Time,
    ) -> Result<Primary, Stop>
        requires size { IfSome size (λ n. (2 ≤ n) × (n ≤ 10000)) }
        requires room { (1 ≤ room) × (room ≤ 16) }
        ensures opens { D.tells → IfOk result (OpensTo (found_in (D.view disk.old).seen) size now) }
        ensures refused { D.tells → (why : Refuses) → result ≡ Err (Refused why)
            → OpeningRefused (found_in (D.view disk.old).seen) size now why }
        // Where there is a cause it is told, and where there is none it opens, unless memory runs out or the disk
        // fails.
        ensures only_refused { D.tells → (why : Refuses) → OpeningRefused (found_in (D.view disk.old).seen) size now why
            → IsRefusedAs result why }
        ensures complete { D.tells → (f : Found) (masters : List Masterly) → found_in (D.view disk.old).seen ≡ Ok f
            → OpensWith f masters → (resized size now (place_found f) ≢ [] → HasTimeLeft (place_found f))
            → OpensHaving result masters }
        // It stops for a cause, whatever the disk tells.
        ensures stops { IfErr result (StopsPrimary size now) }
        ensures room { IfOk result (λ o. (o.dumps ≡ 0) × (o.room ≡ room)) }
        ensures whole { IfOk result (λ o. o.kept.broken ≡ false) }
        ensures on { D.tells → IfOk result (λ o. IsOnDisk o.kept (D.view disk.new)) }
        // Files of format 1 are written whole, in format 2.
        ensures written { D.tells → (f : Found) → found_in (D.view disk.old).seen ≡ Ok f → (place_found f).format ≢ 2
            → IfOk result (λ o. IsWrittenAnew (D.view disk.new) o.kept (reset_point now (place_found f))) }
        ensures moments { D.tells → LeavesOnly (D.view disk.old) (D.view disk.new)
            (MayOpen (D.view disk.old) (found_in (D.view disk.old).seen) size now) }
        // Want of memory begins no log anew.
        ensures memory { D.tells → result ≡ Err (Halts IsMemoryOut)
            → LeavesOnly (D.view disk.old) (D.view disk.new) (IsLike (D.view disk.old)) }
        ensures refusals { D.tells → (why : Refuses) → OpeningRefused (found_in (D.view disk.old).seen) size now why
            → LeavesOnly (D.view disk.old) (D.view disk.new) (IsLike (D.view disk.old)) }
        // After a refusal whatever a crash leaves recovers to what was read.
        ensures refused_stays { D.tells → (why : Refuses) → result ≡ Err (Refused why)
            → RecoversAs (D.view disk.old).seen (D.view disk.new) }
        ensures call { IsCall D.Disk disk.old disk.new (result ≡ Err (Halts IsDiskFault)) }
    {
        match open_rows(alloc, disk) {
            Ok((database, masters)) => {
                what_is_kept_is_recovered(disk);
                open_as(alloc, disk, database, masters, size, room, now)
            }
            Err(stop) => Err(stop),
        }
    }
}
