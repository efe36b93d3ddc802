//! Many principals rekeyed one after another, each as an event of its own.

ghost use Rattle.std.specs.Prelude.{◌≡◌, ◌<◌, ◌≤◌, ◌+◌, false, Err, IfOk, Some, List, ℕ, length};
ghost use Rattle.std.specs.List.{All};
ghost use Rattle.kadm_replies.specs.Replies.{reply_text};
ghost use Rattle.kadm_session.specs.Deciding.{Decides, IsLineSafe};
ghost use Rattle.session_base.specs.Draws.{told_draws};
ghost use Rattle.kadm_session.specs.Rekeying.{counted, rekey_ask};
ghost use Rattle.kadm_session.specs.RekeyedNames.{IsMoved, IsMovedBy, IsMoveSafe, IsRekeyed};
ghost use Rattle.kadm_session.specs.RekeyedNames.{IsRekeyedPart, IsRekeyedSafe, sum_of};
ghost use Rattle.kadm_session.specs.Serving.{CountsOne, HasDiskCauses, HasDrawCauses, MayRekey};
ghost use Rattle.kadm_session.specs.Serving.{RestsBefore, RestsHalfway, StaysOpen};
ghost use Rattle.kadm_session.specs.declared.intake.Asked.TheVariants.{Rekeys};
ghost use Rattle.kdb_disk.specs.Frames.{IsCrashSafe};
ghost use Rattle.kdb_histories.specs.Calls.{Perform};
ghost use Rattle.kdb_histories.specs.Seen.{seen};
ghost use Rattle.kdb_plain.specs.Lists.{princ_names};
ghost use Rattle.kdb_plain.specs.declared.states.State.{State};
ghost use Rattle.primary_answers.specs.Listing.{names_told};
ghost use Rattle.primary_core.specs.Opened.{HasState, MayLeave, place_of};
ghost use Rattle.princ_name.specs.Printed.{IsPrinted, is_master};
ghost use Rattle.store_files.specs.Kept.{IsOnDisk};

use crate::clients::local_client;
use crate::moments::holds_moment;
use kadm_commands::{NameList, Reply, Totals};
use kdb_base::{Blob, MemoryOut, Refusal, Stop, Time};
use kdb_disk::Disk;
use kdb_ports::{Clock, Entropy};
use primary_core::Primary;
use primary_rekeying::rekey_now;
use princ_name::laws::printed_form_spells_the_name;
use rekey_work::Settled;
use row_keys::MasterRing;
use session_base::{Printed, SessionHalt, draw, print};
use std::alloc::Global;
use store_files::laws::what_is_kept_is_recovered;

// The totals with one more.
fn counted(settled: &Settled, totals: Totals) -> Totals
    requires { sum_of totals < 4294967295 }
    ensures value { result ≡ counted settled.now totals }
    ensures few { sum_of result ≤ sum_of totals + 1 }
{
    let mut totals = totals;
    match settled {
        Settled::Updated(_) => totals.updated += 1,
        Settled::Already => totals.already += 1,
        Settled::Gone => totals.gone += 1,
        Settled::Changed(_, _) => {}
    }
    totals
}

// The bytes as an array.
fn block_of(random: &[u8]) -> &[u8; 512]
    requires { length random.now ≡ 512 }
    ensures { result.now ≡ random.now }
{
    random.as_array::<512>().unwrap()
}

// Rekeys the principal of this name with a block of random bytes. The totals with it, or the refusal.
fn rekey_with<D: Disk>(
    alloc: Global,
    primary: &mut Primary,
    disk: &mut D,
    ring: &MasterRing,
    name: &[u8],
    now: Time,
    random: &[u8],
    totals: Totals,
) -> Result<Result<Totals, Refusal>, SessionHalt>
    requires may { MayRekey name.now ring.now primary.old totals }
    requires random { length random.now ≡ 512 }
    requires on { D.tells → IsOnDisk primary.old.kept (D.view disk.old) }
    requires whole { primary.old.kept.broken ≡ false }
    ensures done { (s : State) → HasState primary.old s → IfOk result
        (λ done. IsMoved (rekey_ask now random.now name.now) totals (seen (place_of primary.old) s) done primary.new) }
    ensures crash { (s : State) → HasState primary.old s → IsCrashSafe D.Disk disk.old disk.new
        (MayLeave (place_of primary.old) s (Perform (rekey_ask now random.now name.now))) }
    ensures counts { CountsOne totals primary.old primary.new result }
    ensures stays { StaysOpen D.Disk primary.old primary.new disk.new result }
    // It draws nothing.
    ensures rests { RestsBefore D.Disk primary.old primary.new disk.new ⊥ result }
    ensures causes { HasDiskCauses D.Disk disk.old disk.new result }
{
    primary.holds_opened();
    printed_form_spells_the_name();
    match rekey_now(alloc, primary, disk, ring, name, now, block_of(random)) {
        Ok(settled) => Ok(Ok(counted(&settled, totals))),
        Err(Stop::Refused(why)) => Ok(Err(why)),
        Err(Stop::Halt(halt)) => Err(SessionHalt::from(halt)),
    }
}

// Draws a block of random bytes, and rekeys the principal of this name.
fn rekey_one<D: Disk, E: Entropy>(
    alloc: Global,
    primary: &mut Primary,
    disk: &mut D,
    entropy: &mut E,
    ring: &MasterRing,
    name: &[u8],
    now: Time,
    totals: Totals,
) -> Result<Result<Totals, Refusal>, SessionHalt>
    requires may { MayRekey name.now ring.now primary.old totals }
    requires on { D.tells → IsOnDisk primary.old.kept (D.view disk.old) }
    requires whole { primary.old.kept.broken ≡ false }
    ensures done { (s : State) → HasState primary.old s
        → IfOk result (λ done. IsMovedBy D.Disk disk.old disk.new name.now now (E.stream entropy.old) totals
        (seen (place_of primary.old) s) done primary.new (E.stream entropy.new)) }
    ensures safe { (s : State) → HasState primary.old s
        → IsMoveSafe D.Disk disk.old disk.new name.now now (E.stream entropy.old) (seen (place_of primary.old) s) }
    ensures counts { CountsOne totals primary.old primary.new result }
    ensures stays { StaysOpen D.Disk primary.old primary.new disk.new result }
    ensures rests { RestsBefore D.Disk primary.old primary.new disk.new
        ((disk.new ≡ disk.old) × (primary.new ≡ primary.old)) result }
    ensures causes { HasDrawCauses D.Disk disk.old disk.new (E.faults entropy.old) (E.faults entropy.new) result }
{
    what_is_kept_is_recovered(disk);
    match draw(alloc, entropy, 512) {
        Ok(random) => rekey_with(
            alloc,
            primary,
            disk,
            ring,
            name,
            now,
            random.as_slice(),
            totals,
        ),
        Err(halt) => Err(halt),
    }
}

// Rekeys the principals of these names one after another, up to the first that is refused. The totals, or that refusal.
fn rekey_all<D: Disk, E: Entropy>(
    alloc: Global,
    primary: &mut Primary,
    disk: &mut D,
    entropy: &mut E,
    ring: &MasterRing,
    names: &[Blob],
    now: Time,
) -> Result<Reply, SessionHalt>
    requires printed { All IsPrinted names.now }
    requires others { All (λ name. is_master name ≡ false) names.now }
    requires ring { ring.now ≡ primary.old.masters }
    requires few { length names.now < 4294967295 }
    requires on { D.tells → IsOnDisk primary.old.kept (D.view disk.old) }
    requires whole { primary.old.kept.broken ≡ false }
    ensures done { (s : State) → HasState primary.old s → IfOk result (λ reply. IsRekeyed names.now now
        (E.stream entropy.old) (seen (place_of primary.old) s) reply primary.new (E.stream entropy.new)) }
    ensures safe { (s : State) → HasState primary.old s
        → IsRekeyedSafe D.Disk disk.old disk.new names.now now (E.stream entropy.old) (seen (place_of primary.old) s) }
    ensures stays { StaysOpen D.Disk primary.old primary.new disk.new result }
    ensures memory { (s : State) → HasState primary.old s → result ≡ Err SessionHalt.MemoryOut
        → IsRekeyedPart D.Disk disk.new names.now now (E.stream entropy.old) (seen (place_of primary.old) s) }
    ensures drawn { (s : State) → HasState primary.old s → result ≡ Err SessionHalt.DrawFault
        → IsRekeyedPart D.Disk disk.new names.now now (E.stream entropy.old) (seen (place_of primary.old) s) }
    ensures causes { HasDrawCauses D.Disk disk.old disk.new (E.faults entropy.old) (E.faults entropy.new) result }
{
    what_is_kept_is_recovered(disk);
    let mut totals = Totals {
        updated: 0,
        already: 0,
        gone: 0,
    };
    for name in names {
        match rekey_one(
            alloc,
            primary,
            disk,
            entropy,
            ring,
            name.as_slice(),
            now,
            totals,
        ) {
            Ok(Ok(more)) => totals = more,
            Ok(Err(why)) => return Ok(Reply::Refused(why)),
            Err(halt) => {
                what_is_kept_is_recovered(disk);
                return Err(halt);
            }
        }
    }
    Ok(Reply::Rekeyed(totals))
}

// The names of the principals that a glob matches, as a rekeying goes through them.
fn names_of(alloc: Global, primary: &Primary, glob: &Option<Blob>) -> Result<NameList, MemoryOut>
    requires whole { primary.now.kept.broken ≡ false }
    ensures names { (s : State) → HasState primary.now s
        → IfOk result (λ names. names ≡ names_told glob.now (princ_names s.princs)) }
    ensures printed { IfOk result (All IsPrinted) }
    ensures others { IfOk result (λ names. All (λ name. is_master name ≡ false) names) }
    ensures few { IfOk result (λ names. length names < 4294967295) }
{
    let _ = primary.database().rows().princs();
    match local_client(alloc, primary.realm().as_slice()) {
        Ok(client) => match primary.names(alloc, &client, None, glob) {
            Ok(names) => Ok(names),
            // An open primary tells the names where no access list is asked.
            Err(_) => Err(MemoryOut),
        },
        Err(_) => Err(MemoryOut),
    }
}

// What a rekeying of many goes by: the names of the principals, and the master keys, from each of which what it wraps
// with is derived once.
#[derive(Drop)]
struct Rekeying {
    names: NameList,
    ring: MasterRing,
}

// What a rekeying of the principals that a glob matches goes by.
fn rekeying_of(alloc: Global, primary: &Primary, glob: &Option<Blob>) -> Result<Rekeying, MemoryOut>
    requires whole { primary.now.kept.broken ≡ false }
    ensures names { (s : State) → HasState primary.now s
        → IfOk result (λ begun. begun.names ≡ names_told glob.now (princ_names s.princs)) }
    ensures printed { IfOk result (λ begun. All IsPrinted begun.names) }
    ensures others { IfOk result (λ begun. All (λ name. is_master name ≡ false) begun.names) }
    ensures few { IfOk result (λ begun. length begun.names < 4294967295) }
    ensures ring { IfOk result (λ begun. begun.ring ≡ primary.now.masters) }
{
    let names = names_of(alloc, primary, glob)?;
    let ring = MasterRing::new(alloc, primary.masters())?;
    Ok(Rekeying { names, ring })
}

// Rekeys the principals that a glob matches, and gives the reply. The clock is read once.
fn rekey_matching<D: Disk, C: Clock, E: Entropy>(
    alloc: Global,
    primary: &mut Primary,
    disk: &mut D,
    clock: &mut C,
    entropy: &mut E,
    glob: &Option<Blob>,
) -> Result<Reply, SessionHalt>
    requires on { D.tells → IsOnDisk primary.old.kept (D.view disk.old) }
    requires whole { primary.old.kept.broken ≡ false }
    ensures decided { (s : State) → HasState primary.old s → IfOk result (λ reply. Decides (Rekeys glob.now)
        (told_draws (C.moments clock.old) (E.stream entropy.old)) (seen (place_of primary.old) s)
        (Some reply) primary.new (told_draws (C.moments clock.new) (E.stream entropy.new))) }
    ensures safe { (s : State) → HasState primary.old s → IsLineSafe D.Disk disk.old disk.new (Rekeys glob.now)
        (told_draws (C.moments clock.old) (E.stream entropy.old)) (seen (place_of primary.old) s) }
    ensures stays { StaysOpen D.Disk primary.old primary.new disk.new result }
    ensures rests { (s : State) → HasState primary.old s → RestsHalfway D.Disk disk.new (Rekeys glob.now)
        (told_draws (C.moments clock.old) (E.stream entropy.old)) (seen (place_of primary.old) s) result }
    ensures causes { HasDrawCauses D.Disk disk.old disk.new (E.faults entropy.old) (E.faults entropy.new) result }
{
    what_is_kept_is_recovered(disk);
    match rekeying_of(alloc, primary, glob) {
        Ok(begun) => {
            let now = clock.now();
            holds_moment(now);
            rekey_all(
                alloc,
                primary,
                disk,
                entropy,
                &begun.ring,
                begun.names.as_slice(),
                now,
            )
        }
        Err(_) => Err(SessionHalt::MemoryOut),
    }
}

/// Rekeys the principals that a glob matches, each as an event of its own, and gives the reply, which is printed behind
/// them. Where memory is wanted and not there, or no random bytes are given, those that were rekeyed before stay so.
pub(crate) fn rekey<D: Disk, C: Clock, E: Entropy>(
    alloc: Global,
    primary: &mut Primary,
    disk: &mut D,
    clock: &mut C,
    entropy: &mut E,
    glob: &Option<Blob>,
) -> Result<Printed, SessionHalt>
    requires on { D.tells → IsOnDisk primary.old.kept (D.view disk.old) }
    requires whole { primary.old.kept.broken ≡ false }
    ensures decided { (s : State) → HasState primary.old s → IfOk result (λ printed. Decides (Rekeys glob.now)
        (told_draws (C.moments clock.old) (E.stream entropy.old)) (seen (place_of primary.old) s)
        (Some printed.reply) primary.new (told_draws (C.moments clock.new) (E.stream entropy.new))) }
    ensures safe { (s : State) → HasState primary.old s → IsLineSafe D.Disk disk.old disk.new (Rekeys glob.now)
        (told_draws (C.moments clock.old) (E.stream entropy.old)) (seen (place_of primary.old) s) }
    ensures text { IfOk result (λ printed. printed.text ≡ reply_text printed.reply) }
    ensures stays { StaysOpen D.Disk primary.old primary.new disk.new result }
    ensures rests { (s : State) → HasState primary.old s → RestsHalfway D.Disk disk.new (Rekeys glob.now)
        (told_draws (C.moments clock.old) (E.stream entropy.old)) (seen (place_of primary.old) s) result }
    ensures causes { HasDrawCauses D.Disk disk.old disk.new (E.faults entropy.old) (E.faults entropy.new) result }
{
    match rekey_matching(alloc, primary, disk, clock, entropy, glob) {
        Ok(reply) => {
            what_is_kept_is_recovered(disk);
            match print(alloc, reply) {
                Ok(printed) => Ok(printed),
                Err(_) => Err(SessionHalt::MemoryOut),
            }
        }
        Err(halt) => Err(halt),
    }
}
