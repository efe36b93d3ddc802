//! A load: what the input holds takes the place of all that is open.

ghost use Rattle.std.specs.Prelude.{◌≡◌, ◌≢◌, ℕ, List, Option, Some, true, false};
ghost use Rattle.std.specs.Prelude.{Err, IfErr, IfOk, OnErr, OnOk, Ok, option_map};
ghost use Rattle.kadm_loading.specs.Halts.{SparesOutput};
ghost use Rattle.session_base.specs.Wholes.{IsReadWhole, WereTaken};
ghost use Rattle.kadm_loading.specs.Loads.{ComesTo, HasComeTo, LeavesSome, LoadEnd, LoadsAs, load_stage, places_loaded};
ghost use Rattle.session_base.specs.Stages.{IsStopped};
ghost use Rattle.session_base.specs.Halts.{Counts};
ghost use Rattle.kdb_base.specs.Moment.{Moment};
ghost use Rattle.kdb_disk.specs.Frames.{IsCall};
ghost use Rattle.kdb_disk.specs.Moments.{LeavesOnly};
ghost use Rattle.kdb_ports.specs.Told.{later_moments};
ghost use Rattle.primary_loading.specs.Opened.{place_of};
ghost use Rattle.store_files.specs.Kept.{IsOnDisk};
ghost use Rattle.store_files.specs.Recovery.{LeavesPart};

use crate::answering::answer;
use crate::reading::read_dump;
use kdb_disk::Disk;
use kdb_ports::{Clock, Sink, Source};
use primary_loading::Primary;
use session_base::SessionHalt;
use std::alloc::Global;
use store_files::laws::what_is_kept_is_recovered;

/// Reads the input to its end and loads the dump that it is: the dump's rows are put in the place of all rows, and the
/// log begins anew, at the clock's time or a microsecond behind the last change. The clock is read once, behind the end
/// of the input, and no random bytes are drawn. The reply is `ok` with the point of the log begun anew, or the refusal.
/// It answers whether a refusal was written.
///
/// A text that is no dump is refused by its first bad line, before all else; a dump that may not be taken as
/// `primary_loading::load` says. A refusal changes nothing.
///
/// # Errors
///
/// `ReadFault`, `WriteFault` and `DiskFault` where that failed, `InputTooLong` where 4294967296 bytes were taken and no
/// end had come, and `MemoryOut` where memory is wanted and not given. After `MemoryOut`, `ReadFault` and
/// `InputTooLong` nothing was written, and nothing was loaded.
pub fn load_input<S: Source, K: Sink, D: Disk, C: Clock>(
    alloc: Global,
    primary: &mut Primary,
    source: &mut S,
    sink: &mut K,
    disk: &mut D,
    clock: &mut C,
) -> Result<bool, SessionHalt>
    requires on { D.tells → IsOnDisk primary.old.kept (D.view disk.old) }
    requires whole { primary.old.kept.broken ≡ false }
    // Where the input and the clock are told, it goes through as the text, what is open and the moment have it: the
    // reply, and the place with its state.
    ensures ended { (now : Moment) (end : LoadEnd)
        → ComesTo primary.old (S.left source.old) (C.moments clock.old) now end
        → IfOk result (LoadsAs end now primary.old primary.new (K.taken sink.old) (K.taken sink.new)) }
    ensures comes { (text : List ℕ) (told : ℕ → Moment) → S.left source.old ≡ Some text
        → C.moments clock.old ≡ Some told
        → OnOk result (HasComeTo primary.old (S.left source.old) (C.moments clock.old)) }
    // A refusal changes nothing.
    ensures kept { result ≡ Ok true → (primary.new ≡ primary.old) × (disk.new ≡ disk.old) }
    // Where it stopped, nothing was written, and a crash leaves the place before or the loaded one; or a part of the
    // reply was, and it leaves the last place alone.
    ensures stopped { D.tells → (now : Moment) (end : LoadEnd)
        → ComesTo primary.old (S.left source.old) (C.moments clock.old) now end
        → OnErr result (IsStopped (load_stage end now (place_of primary.old) (K.taken sink.old)) (K.taken sink.new)
        (D.view disk.new)) }
    // Where neither the sink nor the disk failed, nothing was written and nothing was done.
    ensures rests { IfErr result
        (λ halt. SparesOutput halt → (K.taken sink.new ≡ K.taken sink.old) × (disk.new ≡ disk.old)) }
    // A crash at any moment leaves the place before or the loaded one.
    ensures moments { D.tells → (now : Moment) (end : LoadEnd)
        → ComesTo primary.old (S.left source.old) (C.moments clock.old) now end
        → LeavesOnly (D.view disk.old) (D.view disk.new)
        (LeavesPart (place_of primary.old) (places_loaded end now (place_of primary.old))) }
    // Whatever the input is, it leaves the place before, or that with other rows and a log begun anew.
    ensures crash { D.tells → LeavesOnly (D.view disk.old) (D.view disk.new) (LeavesSome (place_of primary.old)) }
    ensures on { D.tells → OnOk result (IsOnDisk primary.new.kept (D.view disk.new)) }
    ensures whole { OnOk result (primary.new.kept.broken ≡ false) }
    ensures clock { OnOk result (C.moments clock.new ≡ option_map later_moments (C.moments clock.old)) }
    ensures read { OnOk result (IsReadWhole (S.left source.old) (S.left source.new)) }
    ensures too_long { result ≡ Err SessionHalt.InputTooLong
        → WereTaken 4294967296 (S.left source.old) (S.left source.new) }

    // The causes.
    ensures not_drawn { IfErr result (λ halt. halt ≢ SessionHalt.DrawFault) }
    ensures call { IsCall D.Disk disk.old disk.new (result ≡ Err SessionHalt.DiskFault) }
    ensures reads { Counts (S.faults source.old) (S.faults source.new) (result ≡ Err SessionHalt.ReadFault) }
    ensures writes { Counts (K.faults sink.old) (K.faults sink.new) (result ≡ Err SessionHalt.WriteFault) }
{
    what_is_kept_is_recovered(disk);
    match read_dump(alloc, source) {
        Ok(read) => {
            let moment = clock.now();
            answer(alloc, primary, sink, disk, read, moment)
        }
        Err(halt) => Err(halt),
    }
}
