//! Principals rekeyed one by one: taken, settled, or at once.

ghost use Rattle.std.specs.Prelude.{◌≡◌, ◌≢◌, true, false, Err, IfOk, None, Ok, OnErr, OnOk, Some};
ghost use Rattle.kdb_base.specs.declared.outcomes.Halt.TheVariants.{MemoryOut as IsMemoryOut, DiskFault as IsDiskFault};
ghost use Rattle.kdb_base.specs.declared.outcomes.Refusal.{Refusal as Refuses};
ghost use Rattle.kdb_base.specs.declared.outcomes.Refusal.TheVariants.{Closed};
ghost use Rattle.kdb_base.specs.declared.outcomes.Stop.TheVariants as stops;
ghost use Rattle.kdb_histories.specs.Asks.{Answer as Answers, RekeyedNow, Settles, at_clock};
ghost use Rattle.kdb_histories.specs.Calls.{Perform};
ghost use Rattle.kdb_model.specs.Rekeying.{take_of};
ghost use Rattle.kdb_plain.specs.declared.states.State.{State};
ghost use Rattle.primary_core.specs.Opened.{HasState};
ghost use Rattle.primary_disk.specs.Held.{is_broken, place_in};
ghost use Rattle.primary_disk.specs.Leaving.{IsDone, Leaves, MayStop};
ghost use Rattle.primary_rekeying.specs.Moving.{IsTake, answer_of, is_updated};
ghost use Rattle.primary_rekeying.specs.declared.taking.TakeAnswer.TheVariants.{Closed as IsClosed};
ghost use Rattle.princ_name.specs.Names.{NameParts, printed};
ghost use Rattle.princ_name.specs.Printed.{is_master};
ghost use Rattle.rekey_work.specs.declared.works.Settled.{Settled as Found};
ghost use Rattle.rekey_work.specs.declared.works.Settled.TheVariants.{Gone};
ghost use Rattle.row_keys.specs.Lookups.{record_named};

use crate::primary::DiskPrimary;
use kdb_base::{Halt, MemoryOut, Refusal, Stop, Time};
use kdb_disk::Disk;
use primary_rekeying::{TakeAnswer, rekey_now, rekey_settle, rekey_take};
use rekey_work::{Rewrapped, Settled};
use row_keys::MasterRing;
use std::alloc::Global;
use store_files::laws::what_is_kept_is_recovered;

impl<D: Disk> DiskPrimary<D> {
    /// Takes the principal of this printed name, to be rekeyed outside: its record, the version that is active at the
    /// clock's moment, and the master keys of both. Nothing is changed. The name is not K/M's.
    ///
    /// # Errors
    ///
    /// `MemoryOut` where memory is wanted and not given.
    pub fn rekey_take(&self, alloc: Global, name: &[u8], now: Time) -> Result<TakeAnswer, MemoryOut>
        requires { is_master name.now ≡ false }
        ensures take { (s : State) → is_broken self.now ≡ false → HasState self.now.opened s → IfOk result (λ answer.
            IsTake answer (take_of s (at_clock now false) (record_named name.now self.now.opened.kept.rows.princs))) }
        ensures closed { is_broken self.now ≡ true → result ≡ Ok IsClosed }
    {
        rekey_take(alloc, &self.primary, name, now)
    }

    /// Stores what was made of a principal that was taken, where it is still the one that was taken, the version is
    /// still active and both master keys are the same; else it tells what is another. It answers the record that is
    /// stored.
    ///
    /// # Errors
    ///
    /// `Closed` after a fault of the disk; where it would be stored `RecordTooLarge`, and `TimeEnd` where the log is to
    /// begin anew and no later time is left; `Halt` where memory is wanted and not given, and then nothing is changed,
    /// or the disk failed, after which the primary is closed.
    pub fn rekey_settle(
        &mut self,
        alloc: Global,
        made: Rewrapped,
        now: Time,
    ) -> Result<Settled, Stop>
        ensures does { (s : State) (who : NameParts) (answer : Answers) → is_broken self.old ≡ false
            → HasState self.old.opened s → printed who ≡ made.taken.princ.name → answer_of result ≡ Some answer
            → IsDone self.old self.new s (Settles who now made) answer }
        ensures closed { is_broken self.old ≡ true → result ≡ Err (stops.Refused Closed) }
        ensures keeps { (told : Found) → result ≡ Ok told → is_updated told ≡ false → self.new ≡ self.old }
        ensures refused_keeps { (why : Refuses) → result ≡ Err (stops.Refused why) → self.new ≡ self.old }
        ensures stops { (s : State) (who : NameParts) → HasState self.old.opened s → printed who ≡ made.taken.princ.name
            → MayStop D.Disk self.old self.new s (Perform (Settles who now made)) result }
        ensures rows { OnErr result ((place_in self.new).rows ≡ (place_in self.old).rows) }
        ensures masters { self.new.opened.masters ≡ self.old.opened.masters }
        ensures whole { OnOk result (is_broken self.new ≡ false) }
        ensures leaves { Leaves D.Disk self.old self.new (result ≡ Err (stops.Halt IsMemoryOut))
            (result ≡ Err (stops.Halt IsDiskFault)) }
    {
        rekey_settle(alloc, &mut self.primary, &mut self.disk, made, now)
    }

    /// Rekeys the principal of this printed name at once: its keys are wrapped under the version of the master key that
    /// is active at the clock's moment, with a block of random bytes. The name is none of K/M. It answers the record
    /// that is stored.
    ///
    /// # Errors
    ///
    /// Those of `rekey_settle`.
    pub fn rekey_now(
        &mut self,
        alloc: Global,
        name: &[u8],
        now: Time,
        random: &[u8; 512],
    ) -> Result<Settled, Stop>
        requires { is_master name.now ≡ false }
        ensures does { (s : State) (who : NameParts) (answer : Answers) → is_broken self.old ≡ false
            → HasState self.old.opened s → printed who ≡ name.now → answer_of result ≡ Some answer
            → IsDone self.old self.new s (RekeyedNow who now random.now) answer }
        ensures closed { is_broken self.old ≡ true → result ≡ Err (stops.Refused Closed) }
        ensures absent { is_broken self.old ≡ false → record_named name.now self.old.opened.kept.rows.princs ≡ None
            → result ≢ Err (stops.Halt IsMemoryOut) → result ≡ Ok Gone }
        ensures keeps { (told : Found) → result ≡ Ok told → is_updated told ≡ false → self.new ≡ self.old }
        ensures refused_keeps { (why : Refuses) → result ≡ Err (stops.Refused why) → self.new ≡ self.old }
        ensures stops { (s : State) (who : NameParts) → HasState self.old.opened s → printed who ≡ name.now
            → MayStop D.Disk self.old self.new s (Perform (RekeyedNow who now random.now)) result }
        ensures rows { OnErr result ((place_in self.new).rows ≡ (place_in self.old).rows) }
        ensures masters { self.new.opened.masters ≡ self.old.opened.masters }
        ensures whole { OnOk result (is_broken self.new ≡ false) }
        ensures leaves { Leaves D.Disk self.old self.new (result ≡ Err (stops.Halt IsMemoryOut))
            (result ≡ Err (stops.Halt IsDiskFault)) }
    {
        what_is_kept_is_recovered(&self.disk);
        if self.primary.is_closed() {
            return Err(Stop::Refused(Refusal::Closed));
        }
        match MasterRing::new(alloc, self.primary.masters()) {
            Ok(ring) => rekey_now(
                alloc,
                &mut self.primary,
                &mut self.disk,
                &ring,
                name,
                now,
                random,
            ),
            Err(_) => Err(Stop::Halt(Halt::MemoryOut)),
        }
    }
}
