//! Commands, that of the stash among them.

ghost use Rattle.std.specs.Prelude.{◌≡◌, [], true, false, Err, IfOk, Ok, OnErr, OnOk, option_map};
ghost use Rattle.kadm_commands.specs.Commands.{IsCommand};
ghost use Rattle.kadm_commands.specs.declared.replies.Reply.TheVariants.{Refused};
ghost use Rattle.kdb_base.specs.declared.outcomes.Halt.TheVariants.{MemoryOut as IsMemoryOut, DiskFault as IsDiskFault};
ghost use Rattle.kdb_base.specs.declared.outcomes.Refusal.{Refusal as Refuses};
ghost use Rattle.kdb_base.specs.declared.outcomes.Refusal.TheVariants.{Closed};
ghost use Rattle.kdb_histories.specs.Asks.{Replied};
ghost use Rattle.kdb_histories.specs.Calls.{Perform};
ghost use Rattle.kdb_histories.specs.Seen.{made_at, seen};
ghost use Rattle.kdb_model.specs.Steps.{is_one_step};
ghost use Rattle.kdb_plain.specs.declared.states.State.{State};
ghost use Rattle.primary_core.specs.Opened.{HasState, command_ask};
ghost use Rattle.primary_disk.specs.Held.{is_broken, is_stash, place_in};
ghost use Rattle.primary_disk.specs.Leaving.{IsDone, Leaves, MayStop};

use crate::primary::DiskPrimary;
use acl_text::Acl;
use kadm_commands::{Command, Reply};
use kdb_base::{Halt, Time};
use kdb_disk::Disk;
use primary_core::Ready;
use princ_name::Name;
use std::alloc::Global;

// Whether a command is the one that writes the stash.
fn is_stash(command: &Command) -> bool
    ensures { result ≡ is_stash command.now }
{
    matches!(command, Command::Stash)
}

impl<D: Disk> DiskPrimary<D> {
    /// Does a command at a moment of the clock, with a block of random bytes: it is judged against the rows, and its
    /// change is made, behind a log that is begun anew where that is due, or the stash is written. It is given neither
    /// `update_princ_encryption` nor `dump`, which are several calls. After a fault of the disk every command is
    /// refused by `Closed`.
    ///
    /// # Errors
    ///
    /// `MemoryOut`, and then nothing is changed, and `DiskFault`, after which the primary is closed.
    pub fn perform(
        &mut self,
        alloc: Global,
        client: &Name,
        acl: Option<&Acl>,
        ready: &Ready,
        now: Time,
        random: &[u8; 2048],
    ) -> Result<Reply, Halt>
        requires command { IsCommand self.old.opened.kept.realm ready.now.command }
        requires one { is_one_step ready.now.command ≡ true }
        ensures does { (s : State) → is_broken self.old ≡ false
            → HasState self.old.opened s → IfOk result (λ reply. IsDone self.old self.new s (command_ask client.now
            (option_map (λ acl. acl.now) acl.entry) ready.now.command now random.now) (Replied reply)) }
        ensures closed { is_broken self.old ≡ true → result ≡ Ok (Refused Closed) }
        ensures closed_keeps { is_broken self.old ≡ true → self.new ≡ self.old }
        // A command that makes no place, as one that is refused or that reads, changes nothing.
        ensures keeps { (s : State) → is_stash ready.now.command ≡ false → is_broken self.old ≡ false
            → HasState self.old.opened s
            → made_at (command_ask client.now (option_map (λ acl. acl.now) acl.entry) ready.now.command now random.now)
            (seen (place_in self.old) s) ≡ []
            → self.new ≡ self.old }
        ensures stash_keeps { (why : Refuses) → is_stash ready.now.command ≡ true → result ≡ Ok (Refused why)
            → self.new ≡ self.old }
        ensures stops { (s : State) → HasState self.old.opened s → MayStop D.Disk self.old self.new s (Perform
            (command_ask client.now (option_map (λ acl. acl.now) acl.entry) ready.now.command now random.now)) result }
        ensures rows { OnErr result ((place_in self.new).rows ≡ (place_in self.old).rows) }
        ensures masters { OnErr result (self.new.opened.masters ≡ self.old.opened.masters) }
        ensures whole { is_broken self.old ≡ false → OnOk result (is_broken self.new ≡ false) }
        ensures leaves { Leaves D.Disk self.old self.new (result ≡ Err IsMemoryOut) (result ≡ Err IsDiskFault) }
    {
        if is_stash(ready.command()) {
            return self
                .primary
                .perform_stash(alloc, &mut self.disk, client, acl, now);
        }
        self.primary
            .perform(alloc, &mut self.disk, client, acl, ready, now, random)
    }
}
