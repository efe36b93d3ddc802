//! A primary made anew, or opened, on a disk that is handed over. An error hands it back.

ghost use Rattle.std.specs.Prelude.{◌≡◌, ◌≢◌, ◌≤◌, [], false, Err, IfErr, IfOk, IfSome, List, Ok};
ghost use Rattle.first_rows.specs.Creation.{first_state};
ghost use Rattle.kdb_base.specs.declared.outcomes.Halt.TheVariants.{MemoryOut as IsMemoryOut, DiskFault as IsDiskFault};
ghost use Rattle.kdb_base.specs.declared.outcomes.Refusal.{Refusal as Refuses};
ghost use Rattle.kdb_base.specs.declared.outcomes.Stop.TheVariants.{Refused, Halt as Halts};
ghost use Rattle.kdb_base.specs.declared.versions.Master.{Master as Masterly};
ghost use Rattle.kdb_control.specs.Force.{in_force};
ghost use Rattle.kdb_control.specs.declared.force.Force.TheVariants.{Nothing};
ghost use Rattle.kdb_disk.specs.Frames.{IsCall};
ghost use Rattle.kdb_disk.specs.Moments.{Keeps, LeavesOnly};
ghost use Rattle.kdb_histories.specs.Calls.{HasTimeLeft, resized};
ghost use Rattle.kdb_histories.specs.Seen.{reset_point};
ghost use Rattle.primary_core.specs.Opened.{HasState, IsWrittenAnew};
ghost use Rattle.primary_core.specs.Opening.{IsRefusedAs, MayOpen, OpeningRefused, OpensHaving, OpensTo, OpensWith};
ghost use Rattle.primary_core.specs.Opening.{RecoversAs, StopsPrimary, first_control, first_file, first_place};
ghost use Rattle.primary_core.specs.Opening.{place_found};
ghost use Rattle.primary_disk.specs.Handing.{disk_behind, opened_in};
ghost use Rattle.primary_disk.specs.Held.{is_broken, place_in};
ghost use Rattle.store_files.specs.Found.{Found, found_in};
ghost use Rattle.store_files.specs.Recovery.{Creates, IsLike};
ghost use Rattle.store_opening.specs.Made.{AnswersMade, StopsMaking};
ghost use Rattle.store_opening.specs.Moments.{HasFile};

use crate::primary::DiskPrimary;
use first_rows::CreateSpec;
use kdb_base::{Stop, Time};
use kdb_disk::Disk;
use primary_core::Primary;
use std::alloc::Global;

impl<D: Disk> DiskPrimary<D> {
    /// Makes a database as the creation asks, at a moment of the clock, with the keys of a block of random bytes, and a
    /// stash that has its master key. It has one place for dumps. Memory is taken before the first device call.
    ///
    /// # Errors
    ///
    /// `AlreadyThere` exactly where a control slot is open; `Halt` where memory is wanted and not given, or the disk
    /// failed. The disk is handed back.
    pub fn create(
        alloc: Global,
        mut disk: D,
        spec: &CreateSpec,
        now: Time,
        random: &[u8; 2048],
    ) -> Result<DiskPrimary<D>, (D, Stop)>
        ensures answer { D.tells → AnswersMade (opened_in result) (in_force ((D.view disk).seen 0)) }
        // Nothing else is refused, whatever the disk tells.
        ensures stops { IfErr (opened_in result) StopsMaking }
        ensures place { IfOk result (λ h. place_in h ≡ first_place spec.now now random.now) }
        // The files are the first of each kind, and so is the turn of the slot.
        ensures control { IfOk result (λ h. h.opened.kept.control ≡ first_control spec.now now) }
        // The rows stand one behind the other from unit 1 on, in their order, whatever a crash leaves.
        ensures written { D.tells → IfOk result (λ h. HasFile 1 (first_file spec.now now random.now) (D.view h.disk)) }
        ensures state { IfOk result (λ h. HasState h.opened (first_state spec.now now random.now)) }
        ensures room { IfOk result (λ h. (h.opened.dumps ≡ 0) × (h.opened.room ≡ 1)) }
        ensures whole { IfOk result (λ h. is_broken h ≡ false) }
        ensures moments { D.tells → LeavesOnly (D.view disk) (D.view (disk_behind result))
            (Creates (D.view disk) (first_place spec.now now random.now)) }
        ensures refused { D.tells → (why : Refuses) → opened_in result ≡ Err (Refused why)
            → Keeps (D.view disk) (D.view (disk_behind result)) }
        ensures there { D.tells → in_force ((D.view disk).seen 0) ≢ Nothing
            → Keeps (D.view disk) (D.view (disk_behind result)) }
        ensures memory { opened_in result ≡ Err (Halts IsMemoryOut) → disk_behind result ≡ disk }
        ensures call { IsCall D.Disk disk (disk_behind result) (opened_in result ≡ Err (Halts IsDiskFault)) }
    {
        match Primary::create(alloc, &mut disk, spec, now, random) {
            Ok(primary) => Ok(DiskPrimary { disk, primary }),
            Err(stop) => Err((disk, stop)),
        }
    }

    /// Opens the database that the files of the disk stand for, with a log of so many entries (2 to 10000) where a size
    /// is given, and so many places for dumps (1 to 16). Another size, or files of format 1, begin the log anew, at the
    /// clock's time or a microsecond behind the last change.
    ///
    /// # Errors
    ///
    /// `NotADatabase` and `Damaged` of the files, `StashMissing`, `UnknownMaster` and `StashWrong` of the stash and the
    /// rows, `TimeEnd` where a log is to begin anew and no later time is left; `Halt` where memory is wanted and not
    /// given, or the disk failed. The disk is handed back.
    pub fn recover(
        alloc: Global,
        mut disk: D,
        size: Option<u32>,
        places: u32,
        now: Time,
    ) -> Result<DiskPrimary<D>, (D, Stop)>
        requires size { IfSome size (λ n. (2 ≤ n) × (n ≤ 10000)) }
        requires places { (1 ≤ places) × (places ≤ 16) }
        ensures opens { D.tells → IfOk result (λ h. OpensTo (found_in (D.view disk).seen) size now h.opened) }
        ensures refused { D.tells → (why : Refuses) → opened_in result ≡ Err (Refused why)
            → OpeningRefused (found_in (D.view disk).seen) size now why }
        // Where there is a cause it is told, and where there is none it opens, unless memory runs out or the disk
        // fails.
        ensures only_refused { D.tells → (why : Refuses) → OpeningRefused (found_in (D.view disk).seen) size now why
            → IsRefusedAs (opened_in result) why }
        ensures complete { D.tells → (f : Found) (masters : List Masterly) → found_in (D.view disk).seen ≡ Ok f
            → OpensWith f masters → (resized size now (place_found f) ≢ [] → HasTimeLeft (place_found f))
            → OpensHaving (opened_in result) masters }
        // It stops for a cause, whatever the disk tells.
        ensures stops { IfErr (opened_in result) (StopsPrimary size now) }
        ensures room { IfOk result (λ h. (h.opened.dumps ≡ 0) × (h.opened.room ≡ places)) }
        ensures whole { IfOk result (λ h. is_broken h ≡ false) }
        // Files of format 1 are written whole, in format 2.
        ensures written { D.tells → (f : Found) → found_in (D.view disk).seen ≡ Ok f → (place_found f).format ≢ 2
            → IfOk result (λ h. IsWrittenAnew (D.view h.disk) h.opened.kept (reset_point now (place_found f))) }
        ensures moments { D.tells → LeavesOnly (D.view disk) (D.view (disk_behind result))
            (MayOpen (D.view disk) (found_in (D.view disk).seen) size now) }
        // Want of memory begins no log anew.
        ensures memory { D.tells → opened_in result ≡ Err (Halts IsMemoryOut)
            → LeavesOnly (D.view disk) (D.view (disk_behind result)) (IsLike (D.view disk)) }
        ensures refusals { D.tells → (why : Refuses) → OpeningRefused (found_in (D.view disk).seen) size now why
            → LeavesOnly (D.view disk) (D.view (disk_behind result)) (IsLike (D.view disk)) }
        // After a refusal whatever a crash leaves recovers to what was read.
        ensures refused_stays { D.tells → (why : Refuses) → opened_in result ≡ Err (Refused why)
            → RecoversAs (D.view disk).seen (D.view (disk_behind result)) }
        ensures call { IsCall D.Disk disk (disk_behind result) (opened_in result ≡ Err (Halts IsDiskFault)) }
    {
        match Primary::recover(alloc, &mut disk, size, places, now) {
            Ok(primary) => Ok(DiskPrimary { disk, primary }),
            Err(stop) => Err((disk, stop)),
        }
    }
}
