//! A database opened.
ghost use Rattle.std.specs.Prelude.{◌≡◌, ◌≢◌, ℕ, false, IfOk, IfErr, Err};
ghost use Rattle.kdb_base.specs.declared.outcomes.Halt.TheVariants.{MemoryOut as IsMemoryOut, DiskFault as IsDiskFault};
ghost use Rattle.kdb_base.specs.declared.outcomes.Refusal.{Refusal as Refuses};
ghost use Rattle.kdb_base.specs.declared.outcomes.Stop.TheVariants.{Refused, Halt as Halts};
ghost use Rattle.kdb_disk.specs.Frames.{IsCall};
ghost use Rattle.kdb_disk.specs.Moments.{IsSettled, Keeps, LeavesOnly};
ghost use Rattle.kdb_disk.specs.View.{View};
ghost use Rattle.store_files.specs.Found.{recovers, found_in};
ghost use Rattle.store_files.specs.Kept.{IsOnDisk, place_kept};
ghost use Rattle.store_files.specs.Recovery.{IsLike};
ghost use Rattle.store_opening.specs.Looking.{AnswersFound, StopsOpening};
ghost use Rattle.kdb_store.specs.Reading.{IsFoundAs};

use crate::database::Database;
use crate::opening::database_of;
use kdb_base::Stop;
use kdb_disk::Disk;
use std::alloc::Global;
use store_opening::recover_parts;

impl Database {
    /// Opens the database that the files stand for, in whichever format it is. `NotADatabase` comes exactly
    /// where no control slot is open, and `Damaged` at the place where a file breaks its grammar.
    ///
    /// Every file is synced first, and read once. The last entry of the log is done again in its unit, which
    /// a crash may have torn; nothing else is written, and at each moment a crash leaves files that stand for
    /// what they stood for. Memory is taken before that write.
    pub fn recover<D: Disk>(alloc: Global, disk: &mut D) -> Result<Database, Stop>
        ensures answer { D.tells → AnswersFound place_kept result (recovers (D.view disk.old).seen) }
        // what is kept is what the reading finds
        ensures found { D.tells → IfOk result (λ d. IsFoundAs d (found_in (D.view disk.old).seen)) }
        ensures refused { D.tells → (why : Refuses) → result ≡ Err (Refused why)
            → found_in (D.view disk.old).seen ≡ Err why }
        // whatever the disk tells
        ensures stops { IfErr result StopsOpening }
        ensures whole { IfOk result (λ d. d.broken ≡ false) }
        ensures on { D.tells → IfOk result (λ d. IsOnDisk d (D.view disk.new)) }
        ensures moments { D.tells → LeavesOnly (D.view disk.old) (D.view disk.new) (IsLike (D.view disk.old)) }
        ensures refused_keeps { D.tells → (why : Refuses) → result ≡ Err (Refused why)
            → Keeps (D.view disk.old) (D.view disk.new) }
        ensures memory_keeps { D.tells → result ≡ Err (Halts IsMemoryOut) → Keeps (D.view disk.old) (D.view disk.new) }
        // Whatever the answer is, no file is written but one of the two of cells.
        ensures others { D.tells → (g : ℕ) → g ≢ 1 → g ≢ 2 → (D.view disk.new).seen g ≡ (D.view disk.old).seen g }
        // Where it was opened, it is the one that is in force.
        ensures image { D.tells → IfOk result (λ d. (g : ℕ) → g ≢ d.control.image
            → (D.view disk.new).seen g ≡ (D.view disk.old).seen g) }
        // after a refusal no crash leaves anything but what is read
        ensures refused_settled { D.tells → (why : Refuses) → result ≡ Err (Refused why) → IsSettled (D.view disk.new) }
        ensures call { IsCall D.Disk disk.old disk.new (result ≡ Err (Halts IsDiskFault)) }
    {
        match recover_parts(alloc, disk) {
            Ok(parts) => Ok(database_of(parts)),
            Err(stop) => Err(stop),
        }
    }
}
