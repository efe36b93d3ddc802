//! The log begun anew on request.

ghost use Rattle.std.specs.Prelude.{◌≡◌, ◌∷◌, [], true, false, Err, IfOk, OnErr, OnOk, Some};
ghost use Rattle.kdb_base.specs.declared.outcomes.Halt.TheVariants.{MemoryOut as IsMemoryOut, DiskFault as IsDiskFault};
ghost use Rattle.kdb_base.specs.declared.outcomes.Refusal.{Refusal as Refuses};
ghost use Rattle.kdb_base.specs.declared.outcomes.Stop.TheVariants as stops;
ghost use Rattle.kdb_disk.specs.Frames.{IsCall, IsCrashSafe};
ghost use Rattle.kdb_histories.specs.Asks.{Answer as Answers};
ghost use Rattle.kdb_histories.specs.Calls.{ResetLog};
ghost use Rattle.kdb_histories.specs.Leaving.{Does, MayReach};
ghost use Rattle.kdb_histories.specs.Seen.{reset_point};
ghost use Rattle.kdb_model.specs.Calls.{is_last};
ghost use Rattle.kdb_model.specs.Laws.{at_point};
ghost use Rattle.kdb_places.specs.Places.{log_anew, point_of};
ghost use Rattle.kdb_plain.specs.declared.states.State.{State};
ghost use Rattle.primary_core.specs.Opened.{HasState, MayLeave, place_of};
ghost use Rattle.primary_core.specs.Refusing.{reset_refused};
ghost use Rattle.store_files.specs.Kept.{IsOnDisk};
ghost use Rattle.store_files.specs.Recovery.{LeavesPart};

use crate::moments::{holds_moment, holds_point, is_last, reset_point};
use crate::primary::Primary;
use kdb_base::{Halt, Point, Refusal, Stop, Time};
use kdb_disk::Disk;
use kdb_plain::laws::valid_later;
use std::alloc::Global;
use store_files::laws::what_is_kept_is_recovered;

impl Primary {
    // Begins the log anew behind the last change, with its size and blocks.
    fn begin_log<D: Disk>(&mut self, alloc: Global, disk: &mut D, now: Time) -> Result<(), Halt>
        requires on { D.tells → IsOnDisk self.old.kept (D.view disk.old) }
        requires whole { self.old.kept.broken ≡ false }
        requires left { is_last (point_of (place_of self.old)).time ≡ false }
        ensures place { OnOk result (place_of self.new ≡ log_anew (reset_point now (place_of self.old))
            (place_of self.old).size (place_of self.old).block (place_of self.old)) }
        ensures err { OnErr result (place_of self.new ≡ place_of self.old) }
        ensures state { (s : State) → HasState self.old s
            → OnOk result (HasState self.new (at_point (reset_point now (place_of self.old)) s)) }
        ensures masters { self.new.masters ≡ self.old.masters }
        ensures dumps { (self.new.dumps ≡ self.old.dumps) × (self.new.room ≡ self.old.room) }
        ensures on { D.tells → OnOk result (IsOnDisk self.new.kept (D.view disk.new)) }
        ensures crash { IsCrashSafe D.Disk disk.old disk.new
            (LeavesPart (place_of self.old) (log_anew (reset_point now (place_of self.old)) (place_of self.old).size
            (place_of self.old).block (place_of self.old) ∷ [])) }
        ensures memory { result ≡ Err IsMemoryOut → disk.new ≡ disk.old }
        ensures still { D.tells → result ≡ Err IsMemoryOut → IsOnDisk self.new.kept (D.view disk.new) }
        ensures whole { OnOk result (self.new.kept.broken ≡ false) }
        ensures whole_still { result ≡ Err IsMemoryOut → self.new.kept.broken ≡ false }
        ensures broken { result ≡ Err IsDiskFault → self.new.kept.broken ≡ true }
        ensures call { IsCall D.Disk disk.old disk.new (result ≡ Err IsDiskFault) }
    {
        valid_later();
        holds_moment(now);
        self.database.holds_kept();
        self.database.log().holds_journal();
        let base = reset_point(self.database.point(), now);
        let size = self.database.log_size();
        let block = self.database.block();
        self.database.reset(alloc, disk, base, size, block)
    }

    /// Begins the log anew, at the clock's time or a microsecond behind the last change. The rows, the log's size and
    /// the length of its blocks stay. It gives the point of the log's base marker.
    ///
    /// # Errors
    ///
    /// `Closed` after a fault of the disk, `TimeEnd` where no later time is left, and `Halt` where memory is wanted and
    /// not given, and then nothing is changed, or the disk failed, after which the primary is closed.
    pub fn reset_log<D: Disk>(
        &mut self,
        alloc: Global,
        disk: &mut D,
        now: Time,
    ) -> Result<Point, Stop>
        requires on { D.tells → self.old.kept.broken ≡ false → IsOnDisk self.old.kept (D.view disk.old) }
        // A history leaves the answer to it free: it is the point.
        ensures does { (s : State) (answer : Answers) → HasState self.old s
            → OnOk result (Does (place_of self.old) s (ResetLog now) answer (place_of self.new)) }
        ensures point { IfOk result (λ point. point ≡ reset_point now (place_of self.old)) }
        ensures state { (s : State) → HasState self.old s
            → OnOk result (HasState self.new (at_point (reset_point now (place_of self.old)) s)) }
        ensures refused { (why : Refuses) → result ≡ Err (stops.Refused why) → reset_refused self.old ≡ Some why }
        ensures only_refused { (why : Refuses) → reset_refused self.old ≡ Some why → result ≡ Err (stops.Refused why) }
        ensures refused_keeps { (why : Refuses) → result ≡ Err (stops.Refused why)
            → (self.new ≡ self.old) × (disk.new ≡ disk.old) }
        ensures crash { (s : State) → self.old.kept.broken ≡ false → HasState self.old s
            → IsCrashSafe D.Disk disk.old disk.new (MayLeave (place_of self.old) s (ResetLog now)) }
        ensures reach { (s : State) → HasState self.old s
            → OnErr result (MayReach (place_of self.old) s (ResetLog now) (place_of self.new)) }
        ensures err { OnErr result (place_of self.new ≡ place_of self.old) }
        ensures masters { self.new.masters ≡ self.old.masters }
        ensures dumps { (self.new.dumps ≡ self.old.dumps) × (self.new.room ≡ self.old.room) }
        ensures on { D.tells → OnOk result (IsOnDisk self.new.kept (D.view disk.new)) }
        ensures memory { result ≡ Err (stops.Halt IsMemoryOut) → disk.new ≡ disk.old }
        ensures still { D.tells → result ≡ Err (stops.Halt IsMemoryOut) → IsOnDisk self.new.kept (D.view disk.new) }
        ensures whole { OnOk result (self.new.kept.broken ≡ false) }
        ensures whole_still { result ≡ Err (stops.Halt IsMemoryOut) → self.new.kept.broken ≡ false }
        ensures broken { result ≡ Err (stops.Halt IsDiskFault) → self.new.kept.broken ≡ true }
        ensures call { IsCall D.Disk disk.old disk.new (result ≡ Err (stops.Halt IsDiskFault)) }
    {
        what_is_kept_is_recovered(disk);
        if self.is_closed() {
            return Err(Stop::Refused(Refusal::Closed));
        }
        holds_point(self.point());
        if is_last(self.point().time) {
            return Err(Stop::Refused(Refusal::TimeEnd));
        }
        match self.begin_log(alloc, disk, now) {
            Ok(()) => Ok(self.point()),
            Err(halt) => Err(Stop::Halt(halt)),
        }
    }
}
