//! The database opened, and the dump that the input is loaded into it.

ghost use Rattle.std.specs.Prelude.{◌≡◌, ◌≢◌, ℕ, Option, Some, true, false, Err, IfErr, IfOk, Ok, OnOk};
ghost use Rattle.session_base.specs.Wholes.{IsReadWhole, WereTaken};
ghost use Rattle.kadm_loading.specs.Loads.{LoadEnd};
ghost use Rattle.session_base.specs.Draws.{Draws, moment_in, told_draws};
ghost use Rattle.session_base.specs.Halts.{Counts};
ghost use Rattle.kadm_top.specs.Openings.{HasLoaded, HasLoading, LoadsAt, Opening, ReadsInput, loads_for};
ghost use Rattle.kadm_top.specs.Reads.{InputIsRead};
ghost use Rattle.kadm_top.specs.Run.{HasLoad, HasRun, told};
ghost use Rattle.kdb_disk.specs.Frames.{IsCall};
ghost use Rattle.primary_core.specs.Opened.{IsOpened, place_of};
ghost use Rattle.store_files.specs.Found.{found_in};
ghost use Rattle.store_files.specs.Kept.{IsOnDisk};

use crate::making::refuse;
use crate::run::DUMPS;
use kadm_loading::load_input;
use kdb_base::Stop;
use kdb_disk::Disk;
use kdb_ports::{Clock, Sink, Source};
use primary_core::Primary;
use session_base::SessionHalt;
use std::alloc::Global;
use store_files::laws::what_is_kept_is_recovered;

/// Loads the dump that the input is into a database that was opened.
fn load_opened<S: Source, K: Sink, D: Disk, C: Clock>(
    alloc: Global,
    opened: Primary,
    source: &mut S,
    sink: &mut K,
    disk: &mut D,
    clock: &mut C,
) -> Result<bool, SessionHalt>
    requires on { D.tells → IsOnDisk opened.kept (D.view disk.old) }
    requires whole { opened.kept.broken ≡ false }
    ensures load { D.tells → (stream : Option (ℕ → ℕ)) (draws : Draws) (what : Option LoadEnd)
        → told_draws (C.moments clock.old) stream ≡ Some draws
        → LoadsAt (S.left source.old) (place_of opened) opened.kept.control.stash (moment_in draws) what
        → HasLoad what (Some draws) (place_of opened) (D.view disk.old) (D.view disk.new)
        (told (K.taken sink.old) (S.left source.old) (told_draws (C.moments clock.old) stream))
        (told (K.taken sink.new) (S.left source.new) (told_draws (C.moments clock.new) stream)) result }
    ensures comes { (draws : Draws) (stream : Option (ℕ → ℕ)) → told_draws (C.moments clock.old) stream ≡ Some draws
        → OnOk result (HasLoaded (S.left source.old) (place_of opened) opened.kept.control.stash (moment_in draws)) }
    ensures opened { IsOpened opened }
    ensures read { OnOk result (IsReadWhole (S.left source.old) (S.left source.new)) }
    ensures too_long { result ≡ Err SessionHalt.InputTooLong
        → WereTaken 4294967296 (S.left source.old) (S.left source.new) }
    ensures not_drawn { IfErr result (λ halt. halt ≢ SessionHalt.DrawFault) }
    ensures call { IsCall D.Disk disk.old disk.new (result ≡ Err SessionHalt.DiskFault) }
    ensures reads { Counts (S.faults source.old) (S.faults source.new) (result ≡ Err SessionHalt.ReadFault) }
    ensures writes { Counts (K.faults sink.old) (K.faults sink.new) (result ≡ Err SessionHalt.WriteFault) }
{
    opened.holds_opened();
    let mut primary = opened;
    what_is_kept_is_recovered(disk);
    let loaded = load_input(alloc, &mut primary, source, sink, disk, clock);
    what_is_kept_is_recovered(disk);
    loaded
}

/// Opens the database and loads the dump that the input is. It answers whether a refusal was written. The clock is
/// read for the opening, and again behind the end of the input.
pub(crate) fn load<S: Source, K: Sink, D: Disk, C: Clock>(
    alloc: Global,
    source: &mut S,
    sink: &mut K,
    disk: &mut D,
    clock: &mut C,
) -> Result<bool, SessionHalt>
    ensures run { D.tells → (stream : Option (ℕ → ℕ)) (o : Opening)
        → loads_for (S.left source.old) (found_in (D.view disk.old).seen) (told_draws (C.moments clock.old) stream) o
        → HasRun o (D.view disk.old) (D.view disk.new)
        (told (K.taken sink.old) (S.left source.old) (told_draws (C.moments clock.old) stream))
        (told (K.taken sink.new) (S.left source.new) (told_draws (C.moments clock.new) stream)) result }
    ensures opening { D.tells → (stream : Option (ℕ → ℕ)) (draws : Draws)
        → told_draws (C.moments clock.old) stream ≡ Some draws
        → OnOk result
        (HasLoading (S.left source.old) (found_in (D.view disk.old).seen) (told_draws (C.moments clock.old) stream)) }
    ensures input { InputIsRead S.left source.old source.new (result ≡ Ok false) (result ≡ Ok true)
        (result ≡ Err SessionHalt.InputTooLong) }
    ensures unread { D.tells → (stream : Option (ℕ → ℕ)) (o : Opening)
        → loads_for (S.left source.old) (found_in (D.view disk.old).seen) (told_draws (C.moments clock.old) stream) o
        → (ReadsInput o → ⊥) → source.new ≡ source.old }
    ensures not_drawn { IfErr result (λ halt. halt ≢ SessionHalt.DrawFault) }
    ensures call { IsCall D.Disk disk.old disk.new (result ≡ Err SessionHalt.DiskFault) }
    ensures reads { Counts (S.faults source.old) (S.faults source.new) (result ≡ Err SessionHalt.ReadFault) }
    ensures writes { Counts (K.faults sink.old) (K.faults sink.new) (result ≡ Err SessionHalt.WriteFault) }
{
    let moment = clock.now();
    match Primary::recover(alloc, disk, None, DUMPS, moment) {
        Ok(opened) => load_opened(alloc, opened, source, sink, disk, clock),
        Err(Stop::Refused(refusal)) => match refuse(alloc, sink, refusal) {
            Ok(()) => Ok(true),
            Err(halt) => Err(halt),
        },
        Err(Stop::Halt(halt)) => Err(SessionHalt::from(halt)),
    }
}
