//! Commands: what each comes to is made.

ghost use Rattle.std.specs.Prelude.{◌≡◌, ◌≢◌, [], true, false, Err, Ok, IfErr, IfOk};
ghost use Rattle.std.specs.Prelude.{None, OnErr, OnOk, Some, length, option_map};
ghost use Rattle.iprop_truths.specs.Parts.{IsPart, end_of};
ghost use Rattle.kadm_commands.specs.Commands.{IsCommand};
ghost use Rattle.kadm_commands.specs.declared.replies.Reply.TheVariants.{Refused};
ghost use Rattle.kdb_base.specs.declared.outcomes.Halt.TheVariants.{MemoryOut as IsMemoryOut, DiskFault as IsDiskFault};
ghost use Rattle.kdb_base.specs.declared.outcomes.Refusal.TheVariants.{Closed};
ghost use Rattle.kdb_disk.specs.Frames.{IsCall, IsCrashSafe};
ghost use Rattle.kdb_histories.specs.Asks.{Replied};
ghost use Rattle.kdb_histories.specs.Calls.{Perform};
ghost use Rattle.kdb_histories.specs.Leaving.{Does, MayReach};
ghost use Rattle.kdb_histories.specs.Moves.{IsLeft};
ghost use Rattle.kdb_histories.specs.Seen.{after_ask, entry_point, made_at, seen};
ghost use Rattle.kdb_plain.specs.declared.states.State.{State};
ghost use Rattle.performed_plans.specs.Changes.{change_places};
ghost use Rattle.primary_core.specs.Deciding.{change_of, is_judged, places_decided, reply_of};
ghost use Rattle.primary_core.specs.Opened.{HasState, MayLeave, MayMake, command_ask, masters_behind, place_of};
ghost use Rattle.primary_core.specs.declared.decided.DecidedChange.{DecidedChange as ToMake};
ghost use Rattle.store_files.specs.Kept.{IsOnDisk};
ghost use Rattle.store_files.specs.Recovery.{LeavesPart};

use crate::changing::make_change;
use crate::decided::{Decided, DecidedChange};
use crate::moments::holds_moment;
use crate::primary::Primary;
use acl_text::Acl;
use kadm_commands::Reply;
use kdb_base::{Halt, Time};
use kdb_disk::Disk;
use kdb_plain::laws::valid_later;
use performed_plans::Ready;
use princ_name::Name;
use std::alloc::Global;
use store_files::laws::what_is_kept_is_recovered;

impl Primary {
    /// Makes a change that was decided at this moment of the clock, behind a log that is begun anew where that is due.
    ///
    /// # Errors
    ///
    /// `MemoryOut`, and then nothing is changed, and `DiskFault`, after which the primary is closed.
    pub fn make<D: Disk>(
        &mut self,
        alloc: Global,
        disk: &mut D,
        change: DecidedChange,
        now: Time,
    ) -> Result<(), Halt>
        requires on { D.tells → IsOnDisk self.old.kept (D.view disk.old) }
        requires whole { self.old.kept.broken ≡ false }
        requires may { MayMake self.old now change }
        ensures place { OnOk result
            (place_of self.new ≡ end_of (place_of self.old) (change_places now change.op (place_of self.old))) }
        ensures masters { OnOk result (self.new.masters ≡ masters_behind self.old change.masters) }
        ensures masters_stay { OnErr result (self.new.masters ≡ self.old.masters) }
        ensures dumps { (self.new.dumps ≡ self.old.dumps) × (self.new.room ≡ self.old.room) }
        ensures state { (t : State) → IsLeft (place_of self.old).realm (entry_point now change.op (place_of self.old))
            change.op (place_of self.old).rows t → t.masters ≡ masters_behind self.old change.masters
            → OnOk result (HasState self.new t) }
        ensures on { D.tells → OnOk result (IsOnDisk self.new.kept (D.view disk.new)) }
        ensures crash { IsCrashSafe D.Disk disk.old disk.new
            (LeavesPart (place_of self.old) (change_places now change.op (place_of self.old))) }
        ensures part { OnErr result
            (IsPart (place_of self.old) (change_places now change.op (place_of self.old)) (place_of self.new)) }
        ensures rows { OnErr result ((place_of self.new).rows ≡ (place_of self.old).rows) }
        ensures memory { result ≡ Err IsMemoryOut → disk.new ≡ disk.old }
        ensures memory_place { result ≡ Err IsMemoryOut → place_of self.new ≡ place_of self.old }
        ensures still { D.tells → result ≡ Err IsMemoryOut → IsOnDisk self.new.kept (D.view disk.new) }
        ensures whole { OnOk result (self.new.kept.broken ≡ false) }
        ensures whole_still { result ≡ Err IsMemoryOut → self.new.kept.broken ≡ false }
        ensures broken { result ≡ Err IsDiskFault → self.new.kept.broken ≡ true }
        ensures call { IsCall D.Disk disk.old disk.new (result ≡ Err IsDiskFault) }
    {
        valid_later();
        self.holds_size();
        holds_moment(now);
        make_change(
            alloc,
            &mut self.database,
            &mut self.masters,
            disk,
            change,
            now,
        )
    }

    // Makes what was decided, and answers.
    fn carry_out<D: Disk>(
        &mut self,
        alloc: Global,
        disk: &mut D,
        decided: Decided,
        now: Time,
    ) -> Result<Reply, Halt>
        requires on { D.tells → self.old.kept.broken ≡ false → IsOnDisk self.old.kept (D.view disk.old) }
        requires whole { change_of decided ≢ None → self.old.kept.broken ≡ false }
        requires may { (change : ToMake) → change_of decided ≡ Some change → MayMake self.old now change }
        ensures reply { IfOk result (λ reply. reply ≡ reply_of decided) }
        ensures keeps { change_of decided ≡ None
            → (result ≡ Ok (reply_of decided)) × (self.new ≡ self.old) × (disk.new ≡ disk.old) }
        ensures place { OnOk result (place_of self.new
            ≡ end_of (place_of self.old) (places_decided now (change_of decided) (place_of self.old))) }
        ensures masters { OnErr result (self.new.masters ≡ self.old.masters) }
        ensures dumps { (self.new.dumps ≡ self.old.dumps) × (self.new.room ≡ self.old.room) }
        ensures state { (change : ToMake) (t : State) → change_of decided ≡ Some change
            → IsLeft (place_of self.old).realm (entry_point now change.op (place_of self.old)) change.op
            (place_of self.old).rows t → t.masters ≡ masters_behind self.old change.masters
            → OnOk result (HasState self.new t) }
        ensures on { D.tells → self.old.kept.broken ≡ false → OnOk result (IsOnDisk self.new.kept (D.view disk.new)) }
        ensures crash { self.old.kept.broken ≡ false → IsCrashSafe D.Disk disk.old disk.new
            (LeavesPart (place_of self.old) (places_decided now (change_of decided) (place_of self.old))) }
        ensures part { OnErr result (IsPart (place_of self.old)
            (places_decided now (change_of decided) (place_of self.old)) (place_of self.new)) }
        ensures rows { OnErr result ((place_of self.new).rows ≡ (place_of self.old).rows) }
        ensures memory { result ≡ Err IsMemoryOut → disk.new ≡ disk.old }
        ensures memory_place { result ≡ Err IsMemoryOut → place_of self.new ≡ place_of self.old }
        ensures still { D.tells → result ≡ Err IsMemoryOut → IsOnDisk self.new.kept (D.view disk.new) }
        ensures whole { self.old.kept.broken ≡ false → OnOk result (self.new.kept.broken ≡ false) }
        ensures whole_still { result ≡ Err IsMemoryOut → self.new.kept.broken ≡ false }
        ensures broken { result ≡ Err IsDiskFault → self.new.kept.broken ≡ true }
        ensures call { IsCall D.Disk disk.old disk.new (result ≡ Err IsDiskFault) }
    {
        what_is_kept_is_recovered(disk);
        match decided {
            Decided::Answer(reply) => Ok(reply),
            Decided::Change(change, reply) => match self.make(alloc, disk, change, now) {
                Ok(()) => Ok(reply),
                Err(fault) => Err(fault),
            },
        }
    }

    /// Does a command at a moment of the clock, with a block of random bytes: it is judged against the rows, and its
    /// change is made, behind a log that is begun anew where that is due. After a fault of the disk every command is
    /// refused by `Closed`.
    ///
    /// # Errors
    ///
    /// `MemoryOut`, and then nothing is changed, and `DiskFault`, after which the primary is closed.
    pub fn perform<D: Disk>(
        &mut self,
        alloc: Global,
        disk: &mut D,
        client: &Name,
        acl: Option<&Acl>,
        ready: &Ready,
        now: Time,
        random: &[u8; 2048],
    ) -> Result<Reply, Halt>
        requires on { D.tells → self.old.kept.broken ≡ false → IsOnDisk self.old.kept (D.view disk.old) }
        requires command { IsCommand self.old.kept.realm ready.now.command }
        requires judged { is_judged ready.now.command ≡ true }
        ensures does { (s : State)
            → self.old.kept.broken ≡ false → HasState self.old s → IfOk result (λ reply. Does (place_of self.old) s
            (Perform (command_ask client.now (option_map (λ acl. acl.now) acl.entry) ready.now.command now random.now))
            (Replied reply) (place_of self.new)) }
        ensures state { (s : State)
            → self.old.kept.broken ≡ false → HasState self.old s → OnOk result (HasState self.new
            (after_ask (command_ask client.now (option_map (λ acl. acl.now) acl.entry) ready.now.command now random.now)
            (seen (place_of self.old) s)).state) }
        ensures closed { self.old.kept.broken ≡ true → result ≡ Ok (Refused Closed) }
        ensures closed_keeps { self.old.kept.broken ≡ true → (self.new ≡ self.old) × (disk.new ≡ disk.old) }
        // A command that makes no place, as one that is refused or that reads, changes nothing.
        ensures keeps { (s : State) → self.old.kept.broken ≡ false → HasState self.old s
            → made_at (command_ask client.now (option_map (λ acl. acl.now) acl.entry) ready.now.command now random.now)
            (seen (place_of self.old) s) ≡ []
            → (self.new ≡ self.old) × (disk.new ≡ disk.old) }
        ensures crash { (s : State) → self.old.kept.broken ≡ false
            → HasState self.old s → IsCrashSafe D.Disk disk.old disk.new (MayLeave (place_of self.old) s (Perform
            (command_ask client.now (option_map (λ acl. acl.now) acl.entry) ready.now.command now random.now))) }
        ensures reach { (s : State) → HasState self.old s → OnErr result (MayReach (place_of self.old) s
            (Perform (command_ask client.now (option_map (λ acl. acl.now) acl.entry) ready.now.command now random.now))
            (place_of self.new)) }
        ensures rows { OnErr result ((place_of self.new).rows ≡ (place_of self.old).rows) }
        ensures masters { OnErr result (self.new.masters ≡ self.old.masters) }
        ensures dumps { (self.new.dumps ≡ self.old.dumps) × (self.new.room ≡ self.old.room) }
        ensures on { D.tells → self.old.kept.broken ≡ false → OnOk result (IsOnDisk self.new.kept (D.view disk.new)) }
        ensures memory { result ≡ Err IsMemoryOut → disk.new ≡ disk.old }
        ensures memory_place { result ≡ Err IsMemoryOut → place_of self.new ≡ place_of self.old }
        ensures still { D.tells → result ≡ Err IsMemoryOut → IsOnDisk self.new.kept (D.view disk.new) }
        ensures whole { self.old.kept.broken ≡ false → OnOk result (self.new.kept.broken ≡ false) }
        ensures whole_still { result ≡ Err IsMemoryOut → self.new.kept.broken ≡ false }
        ensures broken { result ≡ Err IsDiskFault → self.new.kept.broken ≡ true }
        ensures call { IsCall D.Disk disk.old disk.new (result ≡ Err IsDiskFault) }
    {
        what_is_kept_is_recovered(disk);
        match self.decide(alloc, client, acl, ready, now, random) {
            Ok(decided) => self.carry_out(alloc, disk, decided, now),
            Err(halt) => Err(halt),
        }
    }
}
