//! What is changed by no command: the log begun anew, the stash written, and a dump loaded.

ghost use Rattle.std.specs.Prelude.{◌≡◌, true, false, Err, IfOk, List, OnErr, OnOk, Some};
ghost use Rattle.kdb_base.specs.declared.outcomes.Halt.TheVariants.{MemoryOut as IsMemoryOut, DiskFault as IsDiskFault};
ghost use Rattle.kdb_base.specs.declared.outcomes.Refusal.{Refusal as Refuses};
ghost use Rattle.kdb_base.specs.declared.outcomes.Refusal.TheVariants.{Closed};
ghost use Rattle.kdb_base.specs.declared.outcomes.Stop.TheVariants as stops;
ghost use Rattle.kdb_base.specs.declared.versions.Master.{Master};
ghost use Rattle.kdb_disk.specs.Frames.{IsCrashSafe};
ghost use Rattle.kdb_histories.specs.Asks.{Answer as Answers};
ghost use Rattle.kdb_histories.specs.Calls.{Load, ResetLog, Stash};
ghost use Rattle.kdb_histories.specs.Leaving.{Does, MayReach};
ghost use Rattle.kdb_histories.specs.Seen.{reset_point};
ghost use Rattle.kdb_model.specs.Laws.{at_point};
ghost use Rattle.kdb_plain.specs.declared.states.State.{State};
ghost use Rattle.primary_core.specs.Opened.{HasState, IsWrittenAnew, MayLeave};
ghost use Rattle.primary_core.specs.Refusing.{reset_refused, stash_refused};
ghost use Rattle.primary_disk.specs.Held.{is_broken, place_in};
ghost use Rattle.primary_disk.specs.Leaving.{Leaves, MayStop};
ghost use Rattle.primary_loading.specs.Loading.{HasLoaded, LoadRefused, LoadsWith, MayLoad};
ghost use Rattle.stash_opening.specs.Answers.{Refuses as RefusesFor};

use crate::primary::DiskPrimary;
use dump_text::Dump;
use kdb_base::{Point, Stop, Time};
use kdb_disk::Disk;
use primary_loading::load;
use std::alloc::Global;

impl<D: Disk> DiskPrimary<D> {
    /// Begins the log anew, at the clock's time or a microsecond behind the last change. The rows, the log's size and
    /// the length of its blocks stay. It gives the point of the log's base marker.
    ///
    /// # Errors
    ///
    /// `Closed` after a fault of the disk, `TimeEnd` where no later time is left, and `Halt` where memory is wanted and
    /// not given, and then nothing is changed, or the disk failed, after which the primary is closed.
    pub fn reset_log(&mut self, alloc: Global, now: Time) -> Result<Point, Stop>
        // A history leaves the answer to it free: it is the point.
        ensures does { (s : State) (answer : Answers) → HasState self.old.opened s
            → OnOk result (Does (place_in self.old) s (ResetLog now) answer (place_in self.new)) }
        ensures point { IfOk result (λ point. point ≡ reset_point now (place_in self.old)) }
        ensures state { (s : State) → HasState self.old.opened s
            → OnOk result (HasState self.new.opened (at_point (reset_point now (place_in self.old)) s)) }
        ensures refused { (why : Refuses) → result ≡ Err (stops.Refused why)
            → reset_refused self.old.opened ≡ Some why }
        ensures only_refused { (why : Refuses) → reset_refused self.old.opened ≡ Some why
            → result ≡ Err (stops.Refused why) }
        ensures refused_keeps { (why : Refuses) → result ≡ Err (stops.Refused why) → self.new ≡ self.old }
        ensures stops { (s : State) → HasState self.old.opened s
            → MayStop D.Disk self.old self.new s (ResetLog now) result }
        ensures err { OnErr result (place_in self.new ≡ place_in self.old) }
        ensures masters { self.new.opened.masters ≡ self.old.opened.masters }
        ensures whole { OnOk result (is_broken self.new ≡ false) }
        ensures leaves { Leaves D.Disk self.old self.new (result ≡ Err (stops.Halt IsMemoryOut))
            (result ≡ Err (stops.Halt IsDiskFault)) }
    {
        self.primary.reset_log(alloc, &mut self.disk, now)
    }

    /// Writes the stash anew with all master keys, in place of what was the stash or of none. No change of the rows is
    /// made, and the point stays.
    ///
    /// # Errors
    ///
    /// `Closed` after a fault of the disk, and `Halt` where memory is wanted and not given, and then nothing is
    /// changed, or the disk failed, after which the primary is closed.
    pub fn write_stash(&mut self, alloc: Global, now: Time) -> Result<(), Stop>
        // A history leaves the answer to it free.
        ensures does { (s : State) (answer : Answers) → HasState self.old.opened s
            → OnOk result (Does (place_in self.old) s (Stash now) answer (place_in self.new)) }
        ensures state { (s : State) → HasState self.old.opened s → HasState self.new.opened s }
        ensures refused { (why : Refuses) → result ≡ Err (stops.Refused why)
            → stash_refused self.old.opened ≡ Some why }
        ensures closed { is_broken self.old ≡ true → result ≡ Err (stops.Refused Closed) }
        ensures refused_keeps { (why : Refuses) → result ≡ Err (stops.Refused why) → self.new ≡ self.old }
        ensures stops { (s : State) → HasState self.old.opened s
            → MayStop D.Disk self.old self.new s (Stash now) result }
        ensures err { OnErr result (place_in self.new ≡ place_in self.old) }
        ensures masters { self.new.opened.masters ≡ self.old.opened.masters }
        ensures whole { OnOk result (is_broken self.new ≡ false) }
        ensures leaves { Leaves D.Disk self.old self.new (result ≡ Err (stops.Halt IsMemoryOut))
            (result ≡ Err (stops.Halt IsDiskFault)) }
    {
        self.primary.write_stash(alloc, &mut self.disk, now)
    }

    /// Loads a dump: its rows are put in the place of all rows, and the log begins anew, at the clock's time or a
    /// microsecond behind the last change. The dump is to be of the database's realm, the stash is to open the master
    /// keys among its rows, and these are to be sound at that time. The dump's own point is not used. The stash, the
    /// size of the log and the length of its blocks stay, and so do the dumps that are under way. It gives the point of
    /// the log's base marker.
    ///
    /// # Errors
    ///
    /// In this order: `Closed` after a fault of the disk; `Damaged` and `StashMissing` of the stash; `DumpBad` with the
    /// line of another realm; `UnknownMaster` and `StashWrong` of the stash and the dump's K/M; `DumpBad` with the line
    /// of the first record that is not sound, or with that of the end where K/M or kadmin/history is missing; `TimeEnd`
    /// where no later time is left. `Halt` where memory is wanted and not given, and then nothing is changed, or the
    /// disk failed, after which the primary is closed.
    pub fn load(&mut self, alloc: Global, dump: Dump, now: Time) -> Result<Point, Stop>
        // A history leaves the answer to it free: it is the point.
        ensures does { (s : State) (answer : Answers)
            → OnOk result (Does (place_in self.old) s (Load dump.rows now) answer (place_in self.new)) }
        ensures point { IfOk result (λ point. point ≡ reset_point now (place_in self.old)) }
        ensures loaded { OnOk result (HasLoaded self.old.opened self.new.opened dump.rows now) }
        // The master keys are those that the stash opens.
        ensures taken { OnOk result (MayLoad self.old.opened now dump self.new.opened.masters) }
        // A dump that may be loaded is loaded, unless memory runs out or the disk fails.
        ensures complete { (masters : List Master) → MayLoad self.old.opened now dump masters
            → LoadsWith result self.new.opened.masters masters }
        ensures refused { (why : Refuses) → result ≡ Err (stops.Refused why)
            → LoadRefused self.old.opened now dump why }
        // Where there is a cause it is told, unless memory runs out.
        ensures only_refused { (why : Refuses) → LoadRefused self.old.opened now dump why → RefusesFor result why }
        ensures refused_keeps { (why : Refuses) → result ≡ Err (stops.Refused why) → self.new ≡ self.old }
        ensures crash { (s : State) → is_broken self.old ≡ false
            → IsCrashSafe D.Disk self.old.disk self.new.disk (MayLeave (place_in self.old) s (Load dump.rows now)) }
        ensures reach { (s : State)
            → OnErr result (MayReach (place_in self.old) s (Load dump.rows now) (place_in self.new)) }
        ensures err { OnErr result (place_in self.new ≡ place_in self.old) }
        ensures err_masters { OnErr result (self.new.opened.masters ≡ self.old.opened.masters) }
        // The file of cells is written whole, in format 2.
        ensures written { D.tells → OnOk result
            (IsWrittenAnew (D.view self.new.disk) self.new.opened.kept (reset_point now (place_in self.old))) }
        ensures whole { OnOk result (is_broken self.new ≡ false) }
        ensures leaves { Leaves D.Disk self.old self.new (result ≡ Err (stops.Halt IsMemoryOut))
            (result ≡ Err (stops.Halt IsDiskFault)) }
    {
        load(alloc, &mut self.primary, &mut self.disk, dump, now)
    }
}
