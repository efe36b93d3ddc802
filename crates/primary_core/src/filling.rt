//! All rows and the master keys put in the place of those that there are.

ghost use Rattle.std.specs.Prelude.{◌≡◌, ◌∷◌, [], true, false, Err, IfSome, None, OnErr, OnOk};
ghost use Rattle.kdb_base.specs.declared.outcomes.Halt.TheVariants.{MemoryOut as IsMemoryOut, DiskFault as IsDiskFault};
ghost use Rattle.kdb_disk.specs.Frames.{IsCall, IsCrashSafe};
ghost use Rattle.kdb_histories.specs.Calls.{HasTimeLeft};
ghost use Rattle.kdb_histories.specs.Seen.{reset_point};
ghost use Rattle.kdb_model.specs.Calls.{is_last};
ghost use Rattle.kdb_places.specs.Places.{point_of, replaced};
ghost use Rattle.kdb_plain.specs.declared.states.State.{State};
ghost use Rattle.primary_core.specs.Opened.{HasState, IsWrittenAnew, place_of};
ghost use Rattle.row_keys.specs.Sound.{HasState as HasStateOf, ShowsValid, judged};
ghost use Rattle.store_files.specs.Kept.{IsOnDisk};
ghost use Rattle.store_files.specs.Recovery.{LeavesPart};

use crate::moments::{holds_point, is_last, reset_point};
use crate::primary::Primary;
use kdb_base::{Halt, Masters, Point, Time};
use kdb_disk::Disk;
use princ_name::Realm;
use princ_rows::Rows;
use std::alloc::Global;
use store_files::laws::what_is_kept_is_recovered;

impl Primary {
    /// The point at which a log begins anew at a moment of the clock: at that, or a microsecond behind the last change.
    /// None where no later time is left.
    #[tactic(auto, using(crate::proofs::Renewed::time_ended, crate::proofs::Decisions::time_left))]
    pub fn base_point(&self, now: Time) -> Option<Point>
        ensures some { IfSome result (λ base. base ≡ reset_point now (place_of self.now)) }
        ensures before { IfSome result (λ base. is_last (point_of (place_of self.now)).time ≡ false) }
        ensures left { IfSome result (λ base. HasTimeLeft (place_of self.now)) }
        ensures none { result ≡ None → is_last (point_of (place_of self.now)).time ≡ true }
        ensures ended { result ≡ None → HasTimeLeft (place_of self.now) → ⊥ }
    {
        holds_point(self.point());
        if is_last(self.point().time) {
            return None;
        }
        Some(reset_point(self.point(), now))
    }

    // The same with a copy of the realm, which stays.
    fn fill_with<D: Disk>(
        &mut self,
        alloc: Global,
        disk: &mut D,
        realm: Realm,
        rows: Rows,
        masters: Masters,
        base: Point,
    ) -> Result<(), Halt>
        requires on { D.tells → IsOnDisk self.old.kept (D.view disk.old) }
        requires realm { realm ≡ self.old.kept.realm }
        requires whole { self.old.kept.broken ≡ false }
        // The rows show a state with these master keys, which is valid at the base.
        requires shown { HasStateOf (judged masters self.old.kept.realm base.time.secs) rows base }
        ensures place { OnOk result
            (place_of self.new ≡ replaced (place_of self.old).realm rows base (place_of self.old)) }
        ensures masters { OnOk result (self.new.masters ≡ masters) }
        ensures state { (t : State) → ShowsValid (judged masters self.old.kept.realm base.time.secs) rows base t
            → OnOk result (HasState self.new t) }
        ensures err { OnErr result (place_of self.new ≡ place_of self.old) }
        ensures err_masters { OnErr result (self.new.masters ≡ self.old.masters) }
        ensures dumps { (self.new.dumps ≡ self.old.dumps) × (self.new.room ≡ self.old.room) }
        ensures on { D.tells → OnOk result (IsOnDisk self.new.kept (D.view disk.new)) }
        // The file of cells is written whole, in format 2.
        ensures written { D.tells → OnOk result (IsWrittenAnew (D.view disk.new) self.new.kept base) }
        ensures crash { IsCrashSafe D.Disk disk.old disk.new
            (LeavesPart (place_of self.old) (replaced (place_of self.old).realm rows base (place_of self.old) ∷ [])) }
        ensures memory { result ≡ Err IsMemoryOut → disk.new ≡ disk.old }
        ensures still { D.tells → result ≡ Err IsMemoryOut → IsOnDisk self.new.kept (D.view disk.new) }
        ensures whole { OnOk result (self.new.kept.broken ≡ false) }
        ensures whole_still { result ≡ Err IsMemoryOut → self.new.kept.broken ≡ false }
        ensures broken { result ≡ Err IsDiskFault → self.new.kept.broken ≡ true }
        ensures call { IsCall D.Disk disk.old disk.new (result ≡ Err IsDiskFault) }
    {
        match self.database.replace(alloc, disk, realm, rows, base) {
            Ok(()) => {
                self.masters = masters;
                Ok(())
            }
            Err(halt) => Err(halt),
        }
    }

    /// Puts these rows in the place of all rows, and these master keys in the place of those by which rows were read,
    /// and begins the log anew at this base. The realm, the stash, the size of the log and the length of its blocks
    /// stay, and so do the dumps that are under way.
    ///
    /// # Errors
    ///
    /// `MemoryOut`, and then nothing is changed, and `DiskFault`, after which the primary is closed.
    pub fn fill<D: Disk>(
        &mut self,
        alloc: Global,
        disk: &mut D,
        rows: Rows,
        masters: Masters,
        base: Point,
    ) -> Result<(), Halt>
        requires on { D.tells → IsOnDisk self.old.kept (D.view disk.old) }
        requires whole { self.old.kept.broken ≡ false }
        // The rows show a state with these master keys, which is valid at the base.
        requires shown { HasStateOf (judged masters self.old.kept.realm base.time.secs) rows base }
        ensures place { OnOk result
            (place_of self.new ≡ replaced (place_of self.old).realm rows base (place_of self.old)) }
        ensures masters { OnOk result (self.new.masters ≡ masters) }
        ensures state { (t : State) → ShowsValid (judged masters self.old.kept.realm base.time.secs) rows base t
            → OnOk result (HasState self.new t) }
        ensures err { OnErr result (place_of self.new ≡ place_of self.old) }
        ensures err_masters { OnErr result (self.new.masters ≡ self.old.masters) }
        ensures dumps { (self.new.dumps ≡ self.old.dumps) × (self.new.room ≡ self.old.room) }
        ensures on { D.tells → OnOk result (IsOnDisk self.new.kept (D.view disk.new)) }
        // The file of cells is written whole, in format 2.
        ensures written { D.tells → OnOk result (IsWrittenAnew (D.view disk.new) self.new.kept base) }
        ensures crash { IsCrashSafe D.Disk disk.old disk.new
            (LeavesPart (place_of self.old) (replaced (place_of self.old).realm rows base (place_of self.old) ∷ [])) }
        ensures memory { result ≡ Err IsMemoryOut → disk.new ≡ disk.old }
        ensures still { D.tells → result ≡ Err IsMemoryOut → IsOnDisk self.new.kept (D.view disk.new) }
        ensures whole { OnOk result (self.new.kept.broken ≡ false) }
        ensures whole_still { result ≡ Err IsMemoryOut → self.new.kept.broken ≡ false }
        ensures broken { result ≡ Err IsDiskFault → self.new.kept.broken ≡ true }
        ensures call { IsCall D.Disk disk.old disk.new (result ≡ Err IsDiskFault) }
    {
        what_is_kept_is_recovered(disk);
        match Realm::from_bytes(alloc, self.database.realm().as_slice()) {
            Ok(realm) => self.fill_with(alloc, disk, realm, rows, masters, base),
            Err(_) => Err(Halt::MemoryOut),
        }
    }
}
