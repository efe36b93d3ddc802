//! A dump loaded by a primary.

ghost use Rattle.std.specs.Prelude.{◌≡◌, true, false, ◌∷◌, [], Err, IfOk, List, MatchResult, OnErr, OnOk};
ghost use Rattle.kdb_base.specs.declared.outcomes.Halt.{Halt as Halting};
ghost use Rattle.kdb_base.specs.declared.outcomes.Halt.TheVariants.{MemoryOut as IsMemoryOut, DiskFault as IsDiskFault};
ghost use Rattle.kdb_base.specs.declared.outcomes.Refusal.{Refusal as Refuses};
ghost use Rattle.kdb_base.specs.declared.outcomes.Stop.TheVariants as stops;
ghost use Rattle.kdb_base.specs.declared.versions.Master.{Master};
ghost use Rattle.kdb_disk.specs.Frames.{IsCall, IsCrashSafe};
ghost use Rattle.kdb_histories.specs.Asks.{Answer as Answers};
ghost use Rattle.kdb_histories.specs.Calls.{Load};
ghost use Rattle.kdb_histories.specs.Leaving.{Does, MayReach};
ghost use Rattle.kdb_histories.specs.Seen.{reset_point};
ghost use Rattle.kdb_places.specs.Places.{replaced};
ghost use Rattle.kdb_plain.specs.declared.states.State.{State};
ghost use Rattle.primary_core.specs.Opened.{IsWrittenAnew, MayLeave, place_of};
ghost use Rattle.primary_loading.specs.Loading.{HasLoaded, IsFilled, LoadRefused, LoadsWith, MayLoad, load_time};
ghost use Rattle.row_keys.specs.Sound.{AreSound, HasState as HasStateOf, judged};
ghost use Rattle.stash_opening.specs.Answers.{Refuses as RefusesFor};
ghost use Rattle.store_files.specs.Kept.{IsOnDisk};
ghost use Rattle.store_files.specs.Recovery.{LeavesPart};

use crate::judging::judge_dump;
use dump_text::Dump;
use kdb_base::{Halt, Masters, Point, Refusal, Stop, Time};
use kdb_disk::Disk;
use primary_core::Primary;
use princ_name::Realm;
use princ_rows::Rows;
use row_keys::laws::sound_rows_show_one_state;
use std::alloc::Global;
use store_files::laws::what_is_kept_is_recovered;

// The seconds at which the rows of a dump are judged.
fn load_secs(primary: &Primary, now: Time) -> u32
    ensures { result ≡ (load_time now (place_of primary.now)).secs }
{
    match primary.base_point(now) {
        Some(base) => base.time.secs(),
        None => primary.point().time.secs(),
    }
}

// The master keys of a dump that may be loaded at this moment of the clock, and the point at which the log begins anew.
fn judge_load(
    alloc: Global,
    primary: &Primary,
    dump: &Dump,
    now: Time,
) -> Result<(Masters, Point), Stop>
    requires whole { primary.now.kept.broken ≡ false }
    ensures may { IfOk result (λ both. MayLoad primary.now now dump.now both.0) }
    ensures base { IfOk result (λ both. both.1 ≡ reset_point now (place_of primary.now)) }
    ensures complete { (masters : List Master) → MayLoad primary.now now dump.now masters
        → MatchResult result (λ both. both.0 ≡ masters) (λ stop. stop ≡ stops.Halt IsMemoryOut) }
    ensures refused { (why : Refuses) → result ≡ Err (stops.Refused why) → LoadRefused primary.now now dump.now why }
    ensures only_refused { (why : Refuses) → LoadRefused primary.now now dump.now why → RefusesFor result why }
    ensures halted { (halt : Halting) → result ≡ Err (stops.Halt halt) → halt ≡ IsMemoryOut }
{
    let database = primary.database();
    let masters = match judge_dump(
        alloc,
        dump,
        primary.realm().as_slice(),
        database.stash(),
        database.stash_file(),
        load_secs(primary, now),
    ) {
        Ok(masters) => masters,
        Err(stop) => return Err(stop),
    };
    match primary.base_point(now) {
        Some(base) => Ok((masters, base)),
        None => Err(Stop::Refused(Refusal::TimeEnd)),
    }
}

// Tells a proof that rows which are sound under master keys show a state with them. It does nothing.
fn holds_state(rows: &Rows, realm: &Realm, masters: &Masters, base: &Point)
    requires { AreSound (judged masters.now realm.now base.now.time.secs) rows.now }
    ensures { HasStateOf (judged masters.now realm.now base.now.time.secs) rows.now base.now }
{
    sound_rows_show_one_state();
    let _ = masters;
    let _base = base;
    let _realm = realm.as_slice();
    let _princs = rows.princs();
}

// Puts rows that are sound at the base in the place of all rows.
fn put_rows<D: Disk>(
    alloc: Global,
    primary: &mut Primary,
    disk: &mut D,
    rows: Rows,
    masters: Masters,
    base: Point,
) -> Result<Point, Stop>
    requires on { D.tells → IsOnDisk primary.old.kept (D.view disk.old) }
    requires whole { primary.old.kept.broken ≡ false }
    requires sound { AreSound (judged masters primary.old.kept.realm base.time.secs) rows }
    ensures point { IfOk result (λ point. point ≡ base) }
    ensures filled { OnOk result (IsFilled primary.old primary.new rows masters base) }
    ensures shown { HasStateOf (judged masters primary.old.kept.realm base.time.secs) rows base }
    ensures refused { (why : Refuses) → result ≡ Err (stops.Refused why) → ⊥ }
    ensures err { OnErr result (place_of primary.new ≡ place_of primary.old) }
    ensures err_masters { OnErr result (primary.new.masters ≡ primary.old.masters) }
    ensures dumps { (primary.new.dumps ≡ primary.old.dumps) × (primary.new.room ≡ primary.old.room) }
    ensures on { D.tells → OnOk result (IsOnDisk primary.new.kept (D.view disk.new)) }
    ensures written { D.tells → OnOk result (IsWrittenAnew (D.view disk.new) primary.new.kept base) }
    ensures crash { IsCrashSafe D.Disk disk.old disk.new (LeavesPart (place_of primary.old)
        (replaced (place_of primary.old).realm rows base (place_of primary.old) ∷ [])) }
    ensures memory { result ≡ Err (stops.Halt IsMemoryOut) → disk.new ≡ disk.old }
    ensures still { D.tells → result ≡ Err (stops.Halt IsMemoryOut) → IsOnDisk primary.new.kept (D.view disk.new) }
    ensures whole { OnOk result (primary.new.kept.broken ≡ false) }
    ensures whole_still { result ≡ Err (stops.Halt IsMemoryOut) → primary.new.kept.broken ≡ false }
    ensures broken { result ≡ Err (stops.Halt IsDiskFault) → primary.new.kept.broken ≡ true }
    ensures call { IsCall D.Disk disk.old disk.new (result ≡ Err (stops.Halt IsDiskFault)) }
{
    holds_state(&rows, primary.realm(), &masters, &base);
    match primary.fill(alloc, disk, rows, masters, base) {
        Ok(()) => Ok(primary.point()),
        Err(halt) => Err(Stop::Halt(halt)),
    }
}

/// Loads a dump: its rows are put in the place of all rows, and the log begins anew, at the clock's time or a
/// microsecond behind the last change. The dump is to be of the database's realm, the stash is to open the master keys
/// among its rows, and these are to be sound at that time. The dump's own point is not used. The stash, the size of the
/// log and the length of its blocks stay, and so do the dumps that are under way. It gives the point of the log's base
/// marker.
///
/// # Errors
///
/// In this order: `Closed` after a fault of the disk; `Damaged` and `StashMissing` of the stash; `DumpBad` with the
/// line of another realm; `UnknownMaster` and `StashWrong` of the stash and the dump's K/M; `DumpBad` with the line of
/// the first record that is not sound, or with that of the end where K/M or kadmin/history is missing; `TimeEnd` where
/// no later time is left. `Halt` where memory is wanted and not given, and then nothing is changed, or the disk failed,
/// after which the primary is closed.
pub fn load<D: Disk>(
    alloc: Global,
    primary: &mut Primary,
    disk: &mut D,
    dump: Dump,
    now: Time,
) -> Result<Point, Stop>
    requires on { D.tells → primary.old.kept.broken ≡ false → IsOnDisk primary.old.kept (D.view disk.old) }
    // A history leaves the answer to it free: it is the point.
    ensures does { (s : State) (answer : Answers)
        → OnOk result (Does (place_of primary.old) s (Load dump.rows now) answer (place_of primary.new)) }
    ensures point { IfOk result (λ point. point ≡ reset_point now (place_of primary.old)) }
    ensures loaded { OnOk result (HasLoaded primary.old primary.new dump.rows now) }
    // The master keys are those that the stash opens.
    ensures taken { OnOk result (MayLoad primary.old now dump primary.new.masters) }
    // A dump that may be loaded is loaded, unless memory runs out or the disk fails.
    ensures complete { (masters : List Master) → MayLoad primary.old now dump masters
        → LoadsWith result primary.new.masters masters }
    ensures refused { (why : Refuses) → result ≡ Err (stops.Refused why) → LoadRefused primary.old now dump why }
    // Where there is a cause it is told, unless memory runs out.
    ensures only_refused { (why : Refuses) → LoadRefused primary.old now dump why → RefusesFor result why }
    ensures refused_keeps { (why : Refuses) → result ≡ Err (stops.Refused why)
        → (primary.new ≡ primary.old) × (disk.new ≡ disk.old) }
    ensures crash { (s : State) → primary.old.kept.broken ≡ false
        → IsCrashSafe D.Disk disk.old disk.new (MayLeave (place_of primary.old) s (Load dump.rows now)) }
    ensures reach { (s : State)
        → OnErr result (MayReach (place_of primary.old) s (Load dump.rows now) (place_of primary.new)) }
    ensures err { OnErr result (place_of primary.new ≡ place_of primary.old) }
    ensures err_masters { OnErr result (primary.new.masters ≡ primary.old.masters) }
    ensures dumps { (primary.new.dumps ≡ primary.old.dumps) × (primary.new.room ≡ primary.old.room) }
    ensures on { D.tells → OnOk result (IsOnDisk primary.new.kept (D.view disk.new)) }
    // The file of cells is written whole, in format 2.
    ensures written { D.tells
        → OnOk result (IsWrittenAnew (D.view disk.new) primary.new.kept (reset_point now (place_of primary.old))) }
    ensures memory { result ≡ Err (stops.Halt IsMemoryOut) → disk.new ≡ disk.old }
    ensures still { D.tells → result ≡ Err (stops.Halt IsMemoryOut) → IsOnDisk primary.new.kept (D.view disk.new) }
    ensures whole { OnOk result (primary.new.kept.broken ≡ false) }
    ensures whole_still { result ≡ Err (stops.Halt IsMemoryOut) → primary.new.kept.broken ≡ false }
    ensures broken { result ≡ Err (stops.Halt IsDiskFault) → primary.new.kept.broken ≡ true }
    ensures call { IsCall D.Disk disk.old disk.new (result ≡ Err (stops.Halt IsDiskFault)) }
{
    what_is_kept_is_recovered(disk);
    if primary.is_closed() {
        return Err(Stop::Refused(Refusal::Closed));
    }
    match judge_load(alloc, primary, &dump, now) {
        Ok((masters, base)) => put_rows(alloc, primary, disk, dump.rows, masters, base),
        Err(stop) => Err(stop),
    }
}
