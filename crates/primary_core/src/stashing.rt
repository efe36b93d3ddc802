//! The stash written anew, with all master keys.

ghost use Rattle.std.specs.Prelude.{◌≡◌, ◌∷◌, [], true, false, Err, Ok, IfErr};
ghost use Rattle.std.specs.Prelude.{IfOk, OnErr, OnOk, List, ℕ, Some, option_map};
ghost use Rattle.kadm_commands.specs.declared.commands.Command.TheVariants.{Stash as StashLine};
ghost use Rattle.kadm_commands.specs.declared.replies.Reply.TheVariants.{Refused};
ghost use Rattle.kdb_base.specs.declared.outcomes.Halt.{Halt as Halts};
ghost use Rattle.kdb_base.specs.declared.outcomes.Halt.TheVariants.{MemoryOut as IsMemoryOut, DiskFault as IsDiskFault};
ghost use Rattle.kdb_base.specs.declared.outcomes.Refusal.{Refusal as Refuses};
ghost use Rattle.kdb_base.specs.declared.outcomes.Refusal.TheVariants.{Closed};
ghost use Rattle.kdb_base.specs.declared.outcomes.Stop.TheVariants as stops;
ghost use Rattle.kdb_disk.specs.Frames.{IsCall, IsCrashSafe};
ghost use Rattle.kdb_histories.specs.Asks.{Answer as Answers, Replied};
ghost use Rattle.kdb_histories.specs.Calls.{Perform, Stash};
ghost use Rattle.kdb_histories.specs.Leaving.{Does, MayReach};
ghost use Rattle.kdb_histories.specs.Seen.{moment_at};
ghost use Rattle.kdb_places.specs.Places.{restashed};
ghost use Rattle.kdb_plain.specs.declared.states.State.{State};
ghost use Rattle.primary_core.specs.Opened.{HasState, MayLeave, command_ask, place_of};
ghost use Rattle.primary_core.specs.Refusing.{IsStashReply, restashed_at, stash_refused};
ghost use Rattle.stash_file.specs.Written.{stash_text};
ghost use Rattle.store_files.specs.Kept.{IsOnDisk};
ghost use Rattle.store_files.specs.Recovery.{LeavesPart};

use crate::primary::Primary;
use acl_text::Acl;
use kadm_commands::Reply;
use kdb_base::{Blob, Halt, MemoryOut, Refusal, Stop, Time};
use kdb_disk::Disk;
use princ_name::Name;
use stash_file::write_stash;
use std::alloc::Global;
use store_files::laws::what_is_kept_is_recovered;

// What is answered where the client was not admitted: a refusal is told.
fn told(stop: Stop) -> Result<Reply, Halt>
    ensures refused { (why : Refuses) → stop ≡ stops.Refused why → result ≡ Ok (Refused why) }
    ensures halted { (halt : Halts) → stop ≡ stops.Halt halt → result ≡ Err halt }
    ensures told { IfOk result IsStashReply }
{
    match stop {
        Stop::Refused(why) => Ok(Reply::Refused(why)),
        Stop::Halt(halt) => Err(halt),
    }
}

impl Primary {
    // The bytes of a stash with the master keys, at the clock's moment.
    fn stash_text(&self, alloc: Global, now: Time) -> Result<Blob, MemoryOut>
        ensures { IfOk result
            (λ text. text ≡ stash_text self.now.kept.realm (moment_at now (place_of self.now)).secs self.now.masters) }
    {
        let moment = self.database.point().time.later(now);
        let realm = self.database.realm().as_slice();
        write_stash(alloc, realm, moment.secs(), &self.masters)
    }

    // Makes these bytes the stash.
    fn put_stash<D: Disk>(&mut self, alloc: Global, disk: &mut D, text: &Blob) -> Result<(), Halt>
        requires on { D.tells → IsOnDisk self.old.kept (D.view disk.old) }
        requires whole { self.old.kept.broken ≡ false }
        ensures place { OnOk result (place_of self.new ≡ restashed text.now (place_of self.old)) }
        ensures err { OnErr result (place_of self.new ≡ place_of self.old) }
        ensures state { (s : State) → HasState self.old s → HasState self.new s }
        ensures masters { self.new.masters ≡ self.old.masters }
        ensures dumps { (self.new.dumps ≡ self.old.dumps) × (self.new.room ≡ self.old.room) }
        ensures on { D.tells → OnOk result (IsOnDisk self.new.kept (D.view disk.new)) }
        ensures crash { IsCrashSafe D.Disk disk.old disk.new
            (LeavesPart (place_of self.old) (restashed text.now (place_of self.old) ∷ [])) }
        ensures memory { result ≡ Err IsMemoryOut → disk.new ≡ disk.old }
        ensures still { D.tells → result ≡ Err IsMemoryOut → IsOnDisk self.new.kept (D.view disk.new) }
        ensures whole { OnOk result (self.new.kept.broken ≡ false) }
        ensures whole_still { result ≡ Err IsMemoryOut → self.new.kept.broken ≡ false }
        ensures broken { result ≡ Err IsDiskFault → self.new.kept.broken ≡ true }
        ensures call { IsCall D.Disk disk.old disk.new (result ≡ Err IsDiskFault) }
    {
        self.database.put_stash(alloc, disk, text.as_slice())
    }

    // Writes the stash with the master keys.
    fn restash<D: Disk>(&mut self, alloc: Global, disk: &mut D, now: Time) -> Result<(), Halt>
        requires on { D.tells → IsOnDisk self.old.kept (D.view disk.old) }
        requires whole { self.old.kept.broken ≡ false }
        ensures place { OnOk result (place_of self.new ≡ restashed_at now self.old) }
        ensures err { OnErr result (place_of self.new ≡ place_of self.old) }
        ensures state { (s : State) → HasState self.old s → HasState self.new s }
        ensures masters { self.new.masters ≡ self.old.masters }
        ensures dumps { (self.new.dumps ≡ self.old.dumps) × (self.new.room ≡ self.old.room) }
        ensures on { D.tells → OnOk result (IsOnDisk self.new.kept (D.view disk.new)) }
        ensures crash { IsCrashSafe D.Disk disk.old disk.new
            (LeavesPart (place_of self.old) (restashed_at now self.old ∷ [])) }
        ensures memory { result ≡ Err IsMemoryOut → disk.new ≡ disk.old }
        ensures still { D.tells → result ≡ Err IsMemoryOut → IsOnDisk self.new.kept (D.view disk.new) }
        ensures whole { OnOk result (self.new.kept.broken ≡ false) }
        ensures whole_still { result ≡ Err IsMemoryOut → self.new.kept.broken ≡ false }
        ensures broken { result ≡ Err IsDiskFault → self.new.kept.broken ≡ true }
        ensures call { IsCall D.Disk disk.old disk.new (result ≡ Err IsDiskFault) }
    {
        what_is_kept_is_recovered(disk);
        match self.stash_text(alloc, now) {
            Ok(text) => self.put_stash(alloc, disk, &text),
            Err(_) => Err(Halt::MemoryOut),
        }
    }

    /// Writes the stash anew with all master keys, in place of what was the stash or of none. No change of the rows is
    /// made, and the point stays.
    ///
    /// # Errors
    ///
    /// `Closed` after a fault of the disk, and `Halt` where memory is wanted and not given, and then nothing is
    /// changed, or the disk failed, after which the primary is closed.
    pub fn write_stash<D: Disk>(
        &mut self,
        alloc: Global,
        disk: &mut D,
        now: Time,
    ) -> Result<(), Stop>
        requires on { D.tells → self.old.kept.broken ≡ false → IsOnDisk self.old.kept (D.view disk.old) }
        // A history leaves the answer to it free.
        ensures does { (s : State) (answer : Answers) → HasState self.old s
            → OnOk result (Does (place_of self.old) s (Stash now) answer (place_of self.new)) }
        ensures state { (s : State) → HasState self.old s → HasState self.new s }
        ensures refused { (why : Refuses) → result ≡ Err (stops.Refused why) → stash_refused self.old ≡ Some why }
        ensures closed { self.old.kept.broken ≡ true → result ≡ Err (stops.Refused Closed) }
        ensures refused_keeps { (why : Refuses) → result ≡ Err (stops.Refused why)
            → (self.new ≡ self.old) × (disk.new ≡ disk.old) }
        ensures crash { (s : State) → self.old.kept.broken ≡ false → HasState self.old s
            → IsCrashSafe D.Disk disk.old disk.new (MayLeave (place_of self.old) s (Stash now)) }
        ensures reach { (s : State) → HasState self.old s
            → OnErr result (MayReach (place_of self.old) s (Stash now) (place_of self.new)) }
        ensures err { OnErr result (place_of self.new ≡ place_of self.old) }
        ensures masters { self.new.masters ≡ self.old.masters }
        ensures dumps { (self.new.dumps ≡ self.old.dumps) × (self.new.room ≡ self.old.room) }
        ensures on { D.tells → OnOk result (IsOnDisk self.new.kept (D.view disk.new)) }
        ensures memory { result ≡ Err (stops.Halt IsMemoryOut) → disk.new ≡ disk.old }
        ensures still { D.tells → result ≡ Err (stops.Halt IsMemoryOut) → IsOnDisk self.new.kept (D.view disk.new) }
        ensures whole { OnOk result (self.new.kept.broken ≡ false) }
        ensures whole_still { result ≡ Err (stops.Halt IsMemoryOut) → self.new.kept.broken ≡ false }
        ensures broken { result ≡ Err (stops.Halt IsDiskFault) → self.new.kept.broken ≡ true }
        ensures call { IsCall D.Disk disk.old disk.new (result ≡ Err (stops.Halt IsDiskFault)) }
    {
        what_is_kept_is_recovered(disk);
        if self.is_closed() {
            return Err(Stop::Refused(Refusal::Closed));
        }
        match self.restash(alloc, disk, now) {
            Ok(()) => Ok(()),
            Err(halt) => Err(Stop::Halt(halt)),
        }
    }

    /// The command `stash`: it writes the stash anew with all master keys. It draws no random bytes. After a fault of
    /// the disk it is refused by `Closed`.
    ///
    /// # Errors
    ///
    /// `MemoryOut`, and then nothing is changed, and `DiskFault`, after which the primary is closed.
    pub fn perform_stash<D: Disk>(
        &mut self,
        alloc: Global,
        disk: &mut D,
        client: &Name,
        acl: Option<&Acl>,
        now: Time,
    ) -> Result<Reply, Halt>
        requires on { D.tells → self.old.kept.broken ≡ false → IsOnDisk self.old.kept (D.view disk.old) }
        ensures does { (s : State) (random : List ℕ) → self.old.kept.broken ≡ false → HasState self.old s
            → IfOk result (λ reply. Does (place_of self.old) s
            (Perform (command_ask client.now (option_map (λ acl. acl.now) acl.entry) StashLine now random))
            (Replied reply) (place_of self.new)) }
        ensures state { (s : State) → HasState self.old s → HasState self.new s }
        ensures closed { self.old.kept.broken ≡ true → result ≡ Ok (Refused Closed) }
        ensures closed_keeps { self.old.kept.broken ≡ true → (self.new ≡ self.old) × (disk.new ≡ disk.old) }
        ensures told { IfOk result IsStashReply }
        ensures refused_keeps { (why : Refuses) → result ≡ Ok (Refused why)
            → (self.new ≡ self.old) × (disk.new ≡ disk.old) }
        ensures crash { (s : State) (random : List ℕ) → self.old.kept.broken ≡ false
            → HasState self.old s → IsCrashSafe D.Disk disk.old disk.new (MayLeave (place_of self.old) s
            (Perform (command_ask client.now (option_map (λ acl. acl.now) acl.entry) StashLine now random))) }
        ensures reach { (s : State) (random : List ℕ) → HasState self.old s → OnErr result (MayReach (place_of self.old)
            s (Perform (command_ask client.now (option_map (λ acl. acl.now) acl.entry) StashLine now random))
            (place_of self.new)) }
        ensures err { OnErr result (place_of self.new ≡ place_of self.old) }
        ensures masters { self.new.masters ≡ self.old.masters }
        ensures dumps { (self.new.dumps ≡ self.old.dumps) × (self.new.room ≡ self.old.room) }
        ensures on { D.tells → self.old.kept.broken ≡ false → OnOk result (IsOnDisk self.new.kept (D.view disk.new)) }
        ensures memory { result ≡ Err IsMemoryOut → disk.new ≡ disk.old }
        ensures still { D.tells → result ≡ Err IsMemoryOut → IsOnDisk self.new.kept (D.view disk.new) }
        ensures whole { self.old.kept.broken ≡ false → OnOk result (self.new.kept.broken ≡ false) }
        ensures whole_still { result ≡ Err IsMemoryOut → self.new.kept.broken ≡ false }
        ensures broken { result ≡ Err IsDiskFault → self.new.kept.broken ≡ true }
        ensures call { IsCall D.Disk disk.old disk.new (result ≡ Err IsDiskFault) }
    {
        what_is_kept_is_recovered(disk);
        match self.admit_setting(alloc, client, acl) {
            Ok(()) => match self.restash(alloc, disk, now) {
                Ok(()) => Ok(Reply::Stashed),
                Err(halt) => Err(halt),
            },
            Err(stop) => told(stop),
        }
    }
}
