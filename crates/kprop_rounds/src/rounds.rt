//! A round of a replica.
ghost use Rattle.std.specs.Prelude.{◌≡◌, ◌≤◌, ◌⊎◌, ◌∷◌, [], false, length, List};
ghost use Rattle.std.specs.Prelude.{ℕ, None, Ok, Some, Err, IfOk, OnErr, OnOk};
ghost use Rattle.iprop_links.specs.Arriving.{Counts, IsUnended, coming, in_all};
ghost use Rattle.iprop_links.specs.Asking.{later_in, sent_in};
ghost use Rattle.iprop_wire.specs.Decoding.{fresh};
ghost use Rattle.iprop_wire.specs.Frames.{most_behind};
ghost use Rattle.iprop_wire.specs.Messages.{message_text};
ghost use Rattle.iprop_wire.specs.declared.due.Due.TheVariants.{Dump as DumpIsDue};
ghost use Rattle.iprop_wire.specs.declared.messages.Message.TheVariants.{Ask};
ghost use Rattle.kdb_disk.specs.Frames.{IsCall, IsCrashSafe};
ghost use Rattle.kdb_ports.specs.Links.{Wire, after_sent, first_of};
ghost use Rattle.kprop_rounds.specs.Rounds.{EndsAs, GivesNoEnd, IsRound, LeavesSome, MayAsk, NoEndBehind};
ghost use Rattle.kprop_rounds.specs.Rounds.{after_asking, end_of_asking, end_of_reply, round_end};
ghost use Rattle.kprop_rounds.specs.Words.{word_of};
ghost use Rattle.replica_core.specs.Opened.{IsHeldOn, LeavesMade, is_broken, place_of};
ghost use Rattle.replica_core.specs.Taking.{judgement_of, told_reply};
ghost use Rattle.replica_steps.specs.Bridges.{MayBePart};
ghost use Rattle.replica_steps.specs.Judging.{judged};
ghost use Rattle.replica_steps.specs.Replicas.{Take as Takes, place_after, task_makes};

use crate::dumps::install;
use crate::hearing::{heard_dump, heard_reply};
use crate::words::{RoundHalt, RoundWord};
use iprop_links::{Inbox, ask_dump, poll_peer};
use kdb_disk::Disk;
use kdb_ports::Link;
use princ_rows::PollReply;
use replica_core::{Replica, ReplicaStop, Taken4};
use std::alloc::Global;

/// The word of a reply that was taken. None where a dump is to be asked for.
fn word_of(taken: Taken4) -> Option<RoundWord>
    ensures { result ≡ word_of (judgement_of taken) }
{
    match taken {
        Taken4::Nil => Some(RoundWord::Nil),
        Taken4::Updated(count) => Some(RoundWord::Updated(count)),
        Taken4::Resync => None,
        Taken4::Busy => Some(RoundWord::Busy),
        Taken4::Denied => Some(RoundWord::Denied),
    }
}

/// Takes the reply to a poll. None where a dump is to be asked for, and nothing was done.
pub fn take<D: Disk>(
    alloc: Global,
    replica: &mut Replica,
    disk: &mut D,
    reply: PollReply,
) -> Result<Option<RoundWord>, RoundHalt>
    requires on { D.tells → IsHeldOn replica.old.database (D.view disk.old) }
    requires whole { is_broken replica.old.database replica.old.failed ≡ false }
    ensures word { IfOk result (λ w. w ≡ word_of (judged replica.old.size (place_of replica.old) (told_reply reply))) }
    ensures place { OnOk result (place_of replica.new ≡ place_after (place_of replica.old)
        (task_makes replica.old.size (place_of replica.old) (Takes (told_reply reply)))) }
    ensures part { OnErr result (MayBePart (place_of replica.old)
        (task_makes replica.old.size (place_of replica.old) (Takes (told_reply reply))) (place_of replica.new)) }
    ensures crash { IsCrashSafe D.Disk disk.old disk.new (LeavesMade (place_of replica.old)
        (task_makes replica.old.size (place_of replica.old) (Takes (told_reply reply)))) }
    ensures untouched { result ≡ Ok None → disk.new ≡ disk.old }
    ensures same { result ≡ Ok None → place_of replica.new ≡ place_of replica.old }
    ensures on { D.tells → OnOk result (IsHeldOn replica.new.database (D.view disk.new)) }
    ensures whole { OnOk result (is_broken replica.new.database replica.new.failed ≡ false) }
    ensures size { replica.new.size ≡ replica.old.size }
    ensures call { IsCall D.Disk disk.old disk.new (result ≡ Err RoundHalt.DiskFault) }
    ensures no_link { result ≡ Err RoundHalt.LinkFault → ⊥ }
    ensures no_input { result ≡ Err RoundHalt.InputTooLong → ⊥ }
{
    match replica.take_reply(alloc, disk, reply) {
        Ok(taken) => Ok(word_of(taken)),
        Err(ReplicaStop::WrongPoint { .. }) => Ok(Some(RoundWord::WrongPoint)),
        Err(ReplicaStop::Gap { .. }) => Ok(Some(RoundWord::Gap)),
        Err(ReplicaStop::Halt(halt)) => Err(RoundHalt::from(halt)),
    }
}

/// Asks for a dump on the same connection, and loads it.
pub fn pull<L: Link, D: Disk>(
    alloc: Global,
    replica: &mut Replica,
    inbox: &mut Inbox,
    link: &mut L,
    disk: &mut D,
) -> Result<RoundWord, RoundHalt>
    requires on { D.tells → IsHeldOn replica.old.database (D.view disk.old) }
    requires whole { is_broken replica.old.database replica.old.failed ≡ false }
    requires inbox { inbox.old.state ≡ fresh }
    ensures ends { (rest : List ℕ) → coming inbox.old.pending (L.wire link.old) ≡ Some rest
        → EndsAs result (end_of_asking replica.old.size (place_of replica.old) rest) (place_of replica.old)
        (place_of replica.new) }
    ensures crash { (rest : List ℕ) → coming inbox.old.pending (L.wire link.old) ≡ Some rest
        → IsCrashSafe D.Disk disk.old disk.new
        (LeavesMade (place_of replica.old) (end_of_asking replica.old.size (place_of replica.old) rest).made) }
    ensures some { IsCrashSafe D.Disk disk.old disk.new (LeavesSome replica.old.size (place_of replica.old)) }
    ensures said { OnOk result (sent_in (L.wire link.new) ≡ sent_in (after_sent (L.wire link.old) (message_text Ask))) }
    ensures part { OnErr result ((sent_in (L.wire link.new) ≡ sent_in (L.wire link.old))
        ⊎ (sent_in (L.wire link.new) ≡ sent_in (after_sent (L.wire link.old) (message_text Ask)))) }
    ensures later { later_in (L.wire link.new) ≡ later_in (L.wire link.old) }
    ensures too_long { (n : ℕ) → in_all inbox.old.received (L.wire link.old) ≡ Some n
        → result ≡ Err RoundHalt.InputTooLong → 4294967296 ≤ n }
    ensures unended { (rest : List ℕ) (n : ℕ) → coming inbox.old.pending (L.wire link.old) ≡ Some rest
        → in_all inbox.old.received (L.wire link.old) ≡ Some n
        → result ≡ Err RoundHalt.InputTooLong → IsUnended DumpIsDue rest n }
    ensures in_time { (rest : List ℕ) (n : ℕ) → coming inbox.old.pending (L.wire link.old) ≡ Some rest
        → in_all inbox.old.received (L.wire link.old) ≡ Some n
        → OnOk result (IsUnended DumpIsDue rest n → ⊥) }
    ensures on { D.tells → OnOk result (IsHeldOn replica.new.database (D.view disk.new)) }
    ensures whole { OnOk result (is_broken replica.new.database replica.new.failed ≡ false) }
    ensures size { replica.new.size ≡ replica.old.size }
    ensures call { IsCall D.Disk disk.old disk.new (result ≡ Err RoundHalt.DiskFault) }
    ensures faults { Counts (L.faults link.old) (L.faults link.new) (result ≡ Err RoundHalt.LinkFault) }
{
    match ask_dump(alloc, link, inbox) {
        Ok(arrival) => match heard_dump(arrival) {
            Ok(text) => install(alloc, replica, disk, text.as_slice()),
            Err(word) => Ok(word),
        },
        Err(halt) => Err(RoundHalt::from(halt)),
    }
}

/// Takes the reply to a poll, and pulls the dump that it asks for.
fn answer<L: Link, D: Disk>(
    alloc: Global,
    replica: &mut Replica,
    inbox: &mut Inbox,
    link: &mut L,
    disk: &mut D,
    reply: PollReply,
) -> Result<RoundWord, RoundHalt>
    requires on { D.tells → IsHeldOn replica.old.database (D.view disk.old) }
    requires whole { is_broken replica.old.database replica.old.failed ≡ false }
    requires inbox { inbox.old.state ≡ fresh }
    ensures ends { (rest : List ℕ) → coming inbox.old.pending (L.wire link.old) ≡ Some rest
        → EndsAs result (end_of_reply replica.old.size (place_of replica.old) rest reply) (place_of replica.old)
        (place_of replica.new) }
    ensures crash { (rest : List ℕ) → coming inbox.old.pending (L.wire link.old) ≡ Some rest
        → IsCrashSafe D.Disk disk.old disk.new
        (LeavesMade (place_of replica.old) (end_of_reply replica.old.size (place_of replica.old) rest reply).made) }
    ensures some { IsCrashSafe D.Disk disk.old disk.new (LeavesSome replica.old.size (place_of replica.old)) }
    ensures said { (rest : List ℕ) → coming inbox.old.pending (L.wire link.old) ≡ Some rest
        → OnOk result (sent_in (L.wire link.new) ≡ sent_in
        (after_asking (end_of_reply replica.old.size (place_of replica.old) rest reply).asks (L.wire link.old))) }
    ensures part { (rest : List ℕ) → coming inbox.old.pending (L.wire link.old) ≡ Some rest
        → OnErr result (MayAsk (end_of_reply replica.old.size (place_of replica.old) rest reply).asks (L.wire link.old)
        (L.wire link.new)) }
    ensures later { later_in (L.wire link.new) ≡ later_in (L.wire link.old) }
    ensures too_long { (n : ℕ) → in_all inbox.old.received (L.wire link.old) ≡ Some n
        → result ≡ Err RoundHalt.InputTooLong → 4294967296 ≤ n }
    ensures unended { (rest : List ℕ) (n : ℕ) → coming inbox.old.pending (L.wire link.old) ≡ Some rest
        → in_all inbox.old.received (L.wire link.old) ≡ Some n
        → result ≡ Err RoundHalt.InputTooLong → NoEndBehind replica.old.size (place_of replica.old) reply rest n }
    ensures in_time { (rest : List ℕ) (n : ℕ) → coming inbox.old.pending (L.wire link.old) ≡ Some rest
        → in_all inbox.old.received (L.wire link.old) ≡ Some n
        → OnOk result (NoEndBehind replica.old.size (place_of replica.old) reply rest n → ⊥) }
    ensures on { D.tells → OnOk result (IsHeldOn replica.new.database (D.view disk.new)) }
    ensures whole { OnOk result (is_broken replica.new.database replica.new.failed ≡ false) }
    ensures size { replica.new.size ≡ replica.old.size }
    ensures call { IsCall D.Disk disk.old disk.new (result ≡ Err RoundHalt.DiskFault) }
    ensures faults { Counts (L.faults link.old) (L.faults link.new) (result ≡ Err RoundHalt.LinkFault) }
{
    match take(alloc, replica, disk, reply) {
        Ok(Some(word)) => Ok(word),
        Ok(None) => pull(alloc, replica, inbox, link, disk),
        Err(halt) => Err(halt),
    }
}

/// A round in an inbox to which nothing came yet.
fn round_in<L: Link, D: Disk>(
    alloc: Global,
    replica: &mut Replica,
    inbox: &mut Inbox,
    link: &mut L,
    disk: &mut D,
    name: &[u8],
) -> Result<RoundWord, RoundHalt>
    requires on { D.tells → IsHeldOn replica.old.database (D.view disk.old) }
    requires whole { is_broken replica.old.database replica.old.failed ≡ false }
    requires name { length name.now ≤ most_behind }
    requires inbox { inbox.old ≡ record { state = fresh; pending = []; received = 0 } }
    ensures round { (w : Wire) → L.wire link.old ≡ Some w
        → IsRound result name.now replica.old.size w (place_of replica.old) (place_of replica.new) (L.wire link.new) }
    ensures crash { (w : Wire) → L.wire link.old ≡ Some w
        → IsCrashSafe D.Disk disk.old disk.new (LeavesMade (place_of replica.old)
        (round_end replica.old.size (place_of replica.old) (first_of w.to_come)).made) }
    ensures some { IsCrashSafe D.Disk disk.old disk.new (LeavesSome replica.old.size (place_of replica.old)) }
    ensures on { D.tells → OnOk result (IsHeldOn replica.new.database (D.view disk.new)) }
    ensures whole { OnOk result (is_broken replica.new.database replica.new.failed ≡ false) }
    ensures size { replica.new.size ≡ replica.old.size }
    ensures too_long { (w : Wire) → L.wire link.old ≡ Some w → result ≡ Err RoundHalt.InputTooLong
        → 4294967296 ≤ length (first_of w.to_come) }
    ensures unended { (w : Wire) → L.wire link.old ≡ Some w → result ≡ Err RoundHalt.InputTooLong
        → GivesNoEnd replica.old.size (place_of replica.old) (first_of w.to_come) }
    ensures in_time { (w : Wire) → L.wire link.old ≡ Some w
        → OnOk result (GivesNoEnd replica.old.size (place_of replica.old) (first_of w.to_come) → ⊥) }
    ensures call { IsCall D.Disk disk.old disk.new (result ≡ Err RoundHalt.DiskFault) }
    ensures faults { Counts (L.faults link.old) (L.faults link.new) (result ≡ Err RoundHalt.LinkFault) }
{
    match poll_peer(alloc, link, inbox, name, &replica.poll_message()) {
        Ok(arrival) => match heard_reply(arrival) {
            Ok(reply) => answer(alloc, replica, inbox, link, disk, reply),
            Err(word) => Ok(word),
        },
        Err(halt) => Err(RoundHalt::from(halt)),
    }
}

/// A round: on a new connection the replica says who it is and polls at its own point; the reply is taken, and where
/// it has to load a whole database, it asks for the dump on the same connection and loads it.
///
/// # Errors
///
/// `LinkFault` and `DiskFault` where one of them failed, and then the replica is to be opened again; `InputTooLong`
/// where 4294967296 bytes were received and no end had come; `MemoryOut` where memory is wanted and not given.
pub fn round<L: Link, D: Disk>(
    alloc: Global,
    replica: &mut Replica,
    link: &mut L,
    disk: &mut D,
    name: &[u8],
) -> Result<RoundWord, RoundHalt>
    requires on { D.tells → IsHeldOn replica.old.database (D.view disk.old) }
    requires whole { is_broken replica.old.database replica.old.failed ≡ false }
    requires name { length name.now ≤ most_behind }
    // By the bytes that the next connection gives, where the link tells them.
    ensures round { (w : Wire) → L.wire link.old ≡ Some w
        → IsRound result name.now replica.old.size w (place_of replica.old) (place_of replica.new) (L.wire link.new) }
    ensures crash { (w : Wire) → L.wire link.old ≡ Some w
        → IsCrashSafe D.Disk disk.old disk.new (LeavesMade (place_of replica.old)
        (round_end replica.old.size (place_of replica.old) (first_of w.to_come)).made) }
    // Of any link: what some reply or dump makes.
    ensures some { IsCrashSafe D.Disk disk.old disk.new (LeavesSome replica.old.size (place_of replica.old)) }
    ensures on { D.tells → OnOk result (IsHeldOn replica.new.database (D.view disk.new)) }
    ensures whole { OnOk result (is_broken replica.new.database replica.new.failed ≡ false) }
    ensures size { replica.new.size ≡ replica.old.size }
    ensures too_long { (w : Wire) → L.wire link.old ≡ Some w → result ≡ Err RoundHalt.InputTooLong
        → 4294967296 ≤ length (first_of w.to_come) }
    ensures unended { (w : Wire) → L.wire link.old ≡ Some w → result ≡ Err RoundHalt.InputTooLong
        → GivesNoEnd replica.old.size (place_of replica.old) (first_of w.to_come) }
    ensures in_time { (w : Wire) → L.wire link.old ≡ Some w
        → OnOk result (GivesNoEnd replica.old.size (place_of replica.old) (first_of w.to_come) → ⊥) }
    ensures call { IsCall D.Disk disk.old disk.new (result ≡ Err RoundHalt.DiskFault) }
    ensures faults { Counts (L.faults link.old) (L.faults link.new) (result ≡ Err RoundHalt.LinkFault) }
{
    match Inbox::new(alloc) {
        Ok(inbox) => {
            let mut inbox = inbox;
            round_in(alloc, replica, &mut inbox, link, disk, name)
        }
        Err(_) => Err(RoundHalt::MemoryOut),
    }
}
