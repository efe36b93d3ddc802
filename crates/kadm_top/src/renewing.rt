//! New keys of a principal, added to a keytab that is read from the input.

ghost use Rattle.std.specs.Prelude.{◌≡◌, ◌≤◌, Bool, true, false, ℕ, length, Some, Ok, Err, IfOk, OnOk};
ghost use Rattle.kadm_commands.specs.Commands.{IsOwnName};
ghost use Rattle.kadm_keytabs.specs.Renewals.{wanted};
ghost use Rattle.kadm_session.specs.Steps.{local_client};
ghost use Rattle.kadm_top.specs.Openings.{HasAddingNew, HasRenewal, HasRenewalBy, Opening};
ghost use Rattle.kadm_top.specs.Openings.{ReadsInput, Renewing, RenewsBy, RenewsTold, adds_new_for};
ghost use Rattle.kadm_top.specs.Reads.{InputIsRead};
ghost use Rattle.kadm_top.specs.Run.{HasRenewed, HasRun, told};
ghost use Rattle.kdb_disk.specs.Frames.{IsCall};
ghost use Rattle.kdb_histories.specs.Seen.{seen};
ghost use Rattle.kdb_plain.specs.declared.states.State.{State};
ghost use Rattle.keytab_words.specs.Words.{AreTypes};
ghost use Rattle.primary_core.specs.Opened.{HasState, IsOpened, place_of};
ghost use Rattle.princ_name.specs.Names.{NameParts};
ghost use Rattle.princ_name.specs.Readings.{own_name_in};
ghost use Rattle.session_base.specs.Draws.{Draws, told_draws};
ghost use Rattle.session_base.specs.Halts.{Counts};
ghost use Rattle.session_base.specs.Wholes.{IsReadWhole, WereTaken};
ghost use Rattle.store_files.specs.Found.{found_in};
ghost use Rattle.store_files.specs.Kept.{IsOnDisk};
ghost use Rattle.store_files.specs.Recovery.{RecoversTo};

use crate::making::refuse;
use crate::run::DUMPS;
use kadm_keytabs::ktadd_renewing;
use kadm_session::local_client;
use kdb_base::{Etype, Refusal, Stop};
use kdb_disk::Disk;
use kdb_ports::{Clock, Entropy, Sink, Source};
use keytab_words::read_own_name;
use primary_core::Primary;
use princ_name::Name;
use session_base::SessionHalt;
use std::alloc::Global;
use store_files::laws::what_is_kept_is_recovered;

/// Makes new keys of this name as this client, over a database that is open, and writes the keytab that the input is
/// with them behind it. It answers whether a refusal was written.
fn write_for<S: Source, K: Sink, D: Disk, C: Clock, E: Entropy>(
    alloc: Global,
    primary: &mut Primary,
    client: &Name,
    name: &Name,
    etypes: &[Etype],
    source: &mut S,
    sink: &mut K,
    disk: &mut D,
    clock: &mut C,
    entropy: &mut E,
) -> Result<bool, SessionHalt>
    requires name { IsOwnName primary.old.kept.realm name.now }
    requires types { AreTypes etypes.now }
    requires on { D.tells → IsOnDisk primary.old.kept (D.view disk.old) }
    requires whole { primary.old.kept.broken ≡ false }
    requires stands { D.tells → RecoversTo (place_of primary.old) (D.view disk.old) }
    ensures renewed { D.tells → (s : State) (draws : Draws) (what : Renewing) → HasState primary.old s
        → told_draws (C.moments clock.old) (E.stream entropy.old) ≡ Some draws
        → RenewsTold (wanted client.now name.now etypes.now) (S.left source.old) draws
        (seen (place_of primary.old) s) what
        → HasRenewed what (seen (place_of primary.old) s) (D.view disk.old) (D.view disk.new) (K.taken sink.old)
        (K.taken sink.new) (told_draws (C.moments clock.new) (E.stream entropy.new)) result }
    ensures renewal { (s : State) (draws : Draws) → HasState primary.old s
        → told_draws (C.moments clock.old) (E.stream entropy.old) ≡ Some draws
        → OnOk result
        (HasRenewal (wanted client.now name.now etypes.now) (S.left source.old) draws (seen (place_of primary.old) s)) }
    ensures read { OnOk result (IsReadWhole (S.left source.old) (S.left source.new)) }
    ensures too_long { result ≡ Err SessionHalt.InputTooLong
        → WereTaken 4294967296 (S.left source.old) (S.left source.new) }
    ensures call { IsCall D.Disk disk.old disk.new (result ≡ Err SessionHalt.DiskFault) }
    ensures reads { Counts (S.faults source.old) (S.faults source.new) (result ≡ Err SessionHalt.ReadFault) }
    ensures writes { Counts (K.faults sink.old) (K.faults sink.new) (result ≡ Err SessionHalt.WriteFault) }
    ensures draws { Counts (E.faults entropy.old) (E.faults entropy.new) (result ≡ Err SessionHalt.DrawFault) }
{
    let answered = ktadd_renewing(
        alloc, primary, disk, clock, entropy, source, sink, client, name, etypes,
    );
    what_is_kept_is_recovered(disk);
    answered
}

/// The same as the administrator at the machine itself.
fn write_renewed<S: Source, K: Sink, D: Disk, C: Clock, E: Entropy>(
    alloc: Global,
    primary: &mut Primary,
    name: &Name,
    etypes: &[Etype],
    source: &mut S,
    sink: &mut K,
    disk: &mut D,
    clock: &mut C,
    entropy: &mut E,
) -> Result<bool, SessionHalt>
    requires name { IsOwnName primary.old.kept.realm name.now }
    requires types { AreTypes etypes.now }
    requires on { D.tells → IsOnDisk primary.old.kept (D.view disk.old) }
    requires whole { primary.old.kept.broken ≡ false }
    ensures renewed { D.tells → (s : State) (draws : Draws) (what : Renewing) → HasState primary.old s
        → told_draws (C.moments clock.old) (E.stream entropy.old) ≡ Some draws
        → RenewsTold (wanted (local_client primary.old.kept.realm) name.now etypes.now) (S.left source.old) draws
        (seen (place_of primary.old) s) what
        → HasRenewed what (seen (place_of primary.old) s) (D.view disk.old) (D.view disk.new) (K.taken sink.old)
        (K.taken sink.new) (told_draws (C.moments clock.new) (E.stream entropy.new)) result }
    ensures renewal { (s : State) (draws : Draws) → HasState primary.old s
        → told_draws (C.moments clock.old) (E.stream entropy.old) ≡ Some draws
        → OnOk result (HasRenewal (wanted (local_client primary.old.kept.realm) name.now etypes.now)
        (S.left source.old) draws (seen (place_of primary.old) s)) }
    ensures read { OnOk result (IsReadWhole (S.left source.old) (S.left source.new)) }
    ensures too_long { result ≡ Err SessionHalt.InputTooLong
        → WereTaken 4294967296 (S.left source.old) (S.left source.new) }
    ensures call { IsCall D.Disk disk.old disk.new (result ≡ Err SessionHalt.DiskFault) }
    ensures reads { Counts (S.faults source.old) (S.faults source.new) (result ≡ Err SessionHalt.ReadFault) }
    ensures writes { Counts (K.faults sink.old) (K.faults sink.new) (result ≡ Err SessionHalt.WriteFault) }
    ensures draws { Counts (E.faults entropy.old) (E.faults entropy.new) (result ≡ Err SessionHalt.DrawFault) }
{
    what_is_kept_is_recovered(disk);
    match local_client(alloc, primary.realm().as_slice()) {
        Ok(client) => write_for(
            alloc, primary, &client, name, etypes, source, sink, disk, clock, entropy,
        ),
        Err(_) => Err(SessionHalt::MemoryOut),
    }
}

/// Writes the keytab with new keys of this name, or refuses the word that is none at this place, and reads no input.
fn renew_named<S: Source, K: Sink, D: Disk, C: Clock, E: Entropy>(
    alloc: Global,
    primary: &mut Primary,
    name: &Result<Name, u32>,
    etypes: &[Etype],
    source: &mut S,
    sink: &mut K,
    disk: &mut D,
    clock: &mut C,
    entropy: &mut E,
) -> Result<bool, SessionHalt>
    requires name { IfOk name.now (IsOwnName primary.old.kept.realm) }
    requires types { AreTypes etypes.now }
    requires on { D.tells → IsOnDisk primary.old.kept (D.view disk.old) }
    requires whole { primary.old.kept.broken ≡ false }
    ensures renewed { D.tells → (s : State) (draws : Draws) (reads : Bool) (what : Renewing) → HasState primary.old s
        → told_draws (C.moments clock.old) (E.stream entropy.old) ≡ Some draws
        → RenewsBy name.now etypes.now (S.left source.old) draws (seen (place_of primary.old) s) reads what
        → HasRenewed what (seen (place_of primary.old) s) (D.view disk.old) (D.view disk.new) (K.taken sink.old)
        (K.taken sink.new) (told_draws (C.moments clock.new) (E.stream entropy.new)) result }
    ensures renewal { (s : State) (draws : Draws) → HasState primary.old s
        → told_draws (C.moments clock.old) (E.stream entropy.old) ≡ Some draws
        → OnOk result (HasRenewalBy name.now etypes.now (S.left source.old) draws (seen (place_of primary.old) s)) }
    ensures read { (name_is : NameParts) → name.now ≡ Ok name_is
        → OnOk result (IsReadWhole (S.left source.old) (S.left source.new)) }
    ensures unread { (offset : ℕ) → name.now ≡ Err offset → source.new ≡ source.old }
    ensures input { InputIsRead S.left source.old source.new (result ≡ Ok false) (result ≡ Ok true)
        (result ≡ Err SessionHalt.InputTooLong) }
    ensures call { IsCall D.Disk disk.old disk.new (result ≡ Err SessionHalt.DiskFault) }
    ensures reads { Counts (S.faults source.old) (S.faults source.new) (result ≡ Err SessionHalt.ReadFault) }
    ensures writes { Counts (K.faults sink.old) (K.faults sink.new) (result ≡ Err SessionHalt.WriteFault) }
    ensures draws { Counts (E.faults entropy.old) (E.faults entropy.new) (result ≡ Err SessionHalt.DrawFault) }
{
    what_is_kept_is_recovered(disk);
    match name {
        Ok(name) => write_renewed(
            alloc, primary, name, etypes, source, sink, disk, clock, entropy,
        ),
        Err(offset) => match refuse(alloc, sink, Refusal::BadName { offset: *offset }) {
            Ok(()) => Ok(true),
            Err(halt) => Err(halt),
        },
    }
}

/// Reads the word as a name of the realm, and then writes the keytab with new keys of it.
fn renew_opened<S: Source, K: Sink, D: Disk, C: Clock, E: Entropy>(
    alloc: Global,
    word: &[u8],
    etypes: &[Etype],
    opened: Primary,
    source: &mut S,
    sink: &mut K,
    disk: &mut D,
    clock: &mut C,
    entropy: &mut E,
) -> Result<bool, SessionHalt>
    requires short { length word.now ≤ 65536 }
    requires types { AreTypes etypes.now }
    requires on { D.tells → IsOnDisk opened.kept (D.view disk.old) }
    requires whole { opened.kept.broken ≡ false }
    ensures renewed { D.tells → (s : State) (draws : Draws) (reads : Bool) (what : Renewing) → HasState opened s
        → told_draws (C.moments clock.old) (E.stream entropy.old) ≡ Some draws
        → RenewsBy (own_name_in word.now opened.kept.realm) etypes.now (S.left source.old) draws
        (seen (place_of opened) s) reads what
        → HasRenewed what (seen (place_of opened) s) (D.view disk.old) (D.view disk.new) (K.taken sink.old)
        (K.taken sink.new) (told_draws (C.moments clock.new) (E.stream entropy.new)) result }
    ensures renewal { (s : State) (draws : Draws) → HasState opened s
        → told_draws (C.moments clock.old) (E.stream entropy.old) ≡ Some draws
        → OnOk result (HasRenewalBy (own_name_in word.now opened.kept.realm) etypes.now (S.left source.old) draws
        (seen (place_of opened) s)) }
    ensures read { (name : NameParts) → own_name_in word.now opened.kept.realm ≡ Ok name
        → OnOk result (IsReadWhole (S.left source.old) (S.left source.new)) }
    ensures unread { (offset : ℕ) → own_name_in word.now opened.kept.realm ≡ Err offset → source.new ≡ source.old }
    ensures input { InputIsRead S.left source.old source.new (result ≡ Ok false) (result ≡ Ok true)
        (result ≡ Err SessionHalt.InputTooLong) }
    ensures opened { IsOpened opened }
    ensures call { IsCall D.Disk disk.old disk.new (result ≡ Err SessionHalt.DiskFault) }
    ensures reads { Counts (S.faults source.old) (S.faults source.new) (result ≡ Err SessionHalt.ReadFault) }
    ensures writes { Counts (K.faults sink.old) (K.faults sink.new) (result ≡ Err SessionHalt.WriteFault) }
    ensures draws { Counts (E.faults entropy.old) (E.faults entropy.new) (result ≡ Err SessionHalt.DrawFault) }
{
    what_is_kept_is_recovered(disk);
    opened.holds_opened();
    let name = match read_own_name(alloc, word, opened.realm().as_slice()) {
        Ok(name) => name,
        Err(_) => return Err(SessionHalt::MemoryOut),
    };
    let mut primary = opened;
    renew_named(
        alloc,
        &mut primary,
        &name,
        etypes,
        source,
        sink,
        disk,
        clock,
        entropy,
    )
}

/// Opens the database, makes new keys of a name, and adds them to the keytab that the input is. It answers whether a
/// refusal was written. The clock is read for the opening, and then for the change.
pub(crate) fn renew<S: Source, K: Sink, D: Disk, C: Clock, E: Entropy>(
    alloc: Global,
    word: &[u8],
    etypes: &[Etype],
    source: &mut S,
    sink: &mut K,
    disk: &mut D,
    clock: &mut C,
    entropy: &mut E,
) -> Result<bool, SessionHalt>
    requires short { length word.now ≤ 65536 }
    requires types { AreTypes etypes.now }
    ensures run { D.tells → (o : Opening)
        → adds_new_for word.now etypes.now (S.left source.old) (found_in (D.view disk.old).seen)
        (told_draws (C.moments clock.old) (E.stream entropy.old)) o
        → HasRun o (D.view disk.old) (D.view disk.new)
        (told (K.taken sink.old) (S.left source.old) (told_draws (C.moments clock.old) (E.stream entropy.old)))
        (told (K.taken sink.new) (S.left source.new) (told_draws (C.moments clock.new) (E.stream entropy.new))) result }
    ensures opening { D.tells → (draws : Draws) → told_draws (C.moments clock.old) (E.stream entropy.old) ≡ Some draws
        → OnOk result (HasAddingNew word.now etypes.now (S.left source.old) (found_in (D.view disk.old).seen)
        (told_draws (C.moments clock.old) (E.stream entropy.old))) }
    ensures input { InputIsRead S.left source.old source.new (result ≡ Ok false) (result ≡ Ok true)
        (result ≡ Err SessionHalt.InputTooLong) }
    ensures unread { D.tells → (o : Opening)
        → adds_new_for word.now etypes.now (S.left source.old) (found_in (D.view disk.old).seen)
        (told_draws (C.moments clock.old) (E.stream entropy.old)) o
        → (ReadsInput o → ⊥) → source.new ≡ source.old }
    ensures call { IsCall D.Disk disk.old disk.new (result ≡ Err SessionHalt.DiskFault) }
    ensures reads { Counts (S.faults source.old) (S.faults source.new) (result ≡ Err SessionHalt.ReadFault) }
    ensures writes { Counts (K.faults sink.old) (K.faults sink.new) (result ≡ Err SessionHalt.WriteFault) }
    ensures draws { Counts (E.faults entropy.old) (E.faults entropy.new) (result ≡ Err SessionHalt.DrawFault) }
{
    let moment = clock.now();
    match Primary::recover(alloc, disk, None, DUMPS, moment) {
        Ok(opened) => renew_opened(
            alloc, word, etypes, opened, source, sink, disk, clock, entropy,
        ),
        Err(Stop::Refused(refusal)) => match refuse(alloc, sink, refusal) {
            Ok(()) => Ok(true),
            Err(halt) => Err(halt),
        },
        Err(Stop::Halt(halt)) => Err(SessionHalt::from(halt)),
    }
}
