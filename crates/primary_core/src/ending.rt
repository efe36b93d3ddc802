//! The end of a database.

ghost use Rattle.std.specs.Prelude.{◌≡◌, false, Err, IfErr, OnOk};
ghost use Rattle.kdb_base.specs.declared.outcomes.Halt.TheVariants.{DiskFault as IsDiskFault, MemoryOut as IsMemoryOut};
ghost use Rattle.kdb_base.specs.declared.outcomes.Refusal.{Refusal as Refuses};
ghost use Rattle.kdb_base.specs.declared.outcomes.Stop.TheVariants as stops;
ghost use Rattle.kdb_disk.specs.Frames.{IsCall, IsCrashSafe};
ghost use Rattle.kdb_disk.specs.Moments.{Keeps};
ghost use Rattle.primary_core.specs.Ending.{IsCut, MayEnd};
ghost use Rattle.primary_core.specs.Opened.{place_of};
ghost use Rattle.store_files.specs.Kept.{IsOnDisk};
ghost use Rattle.store_files.specs.Recovery.{Destroys, RecoversToNone};
ghost use Rattle.store_opening.specs.Looking.{StopsOpening};

use crate::primary::Primary;
use kdb_base::Stop;
use kdb_disk::Disk;
use store_files::laws::what_is_kept_is_recovered;
use store_switches::destroy_files;

impl Primary {
    /// Ends the database: its slots are closed, the older one first, and then all its files are cut to nothing. No
    /// memory is taken.
    ///
    /// # Errors
    ///
    /// `DiskFault` where the disk failed. Of a primary that is not closed, on a disk that tells of its files, nothing
    /// is refused. Of a closed one the files may have gone or be damaged, which is refused, and changes none of them.
    pub fn destroy<D: Disk>(self, disk: &mut D) -> Result<(), Stop>
        requires on { D.tells → self.kept.broken ≡ false → IsOnDisk self.kept (D.view disk.old) }
        ensures none { D.tells → OnOk result (RecoversToNone (D.view disk.new)) }
        ensures empty { D.tells → OnOk result (IsCut (D.view disk.new)) }
        ensures ends { IsCrashSafe D.Disk disk.old disk.new (Destroys (D.view disk.old)) }
        ensures keeps { D.tells → (why : Refuses) → result ≡ Err (stops.Refused why)
            → Keeps (D.view disk.old) (D.view disk.new) }
        ensures crash { self.kept.broken ≡ false → IsCrashSafe D.Disk disk.old disk.new (MayEnd (place_of self)) }
        ensures refused { D.tells → self.kept.broken ≡ false → (why : Refuses) → result ≡ Err (stops.Refused why) → ⊥ }
        // A refusal is one of an opening of the files, whatever the disk tells.
        ensures stops { IfErr result StopsOpening }
        ensures memory { result ≡ Err (stops.Halt IsMemoryOut) → ⊥ }
        ensures call { IsCall D.Disk disk.old disk.new (result ≡ Err (stops.Halt IsDiskFault)) }
    {
        what_is_kept_is_recovered(disk);
        destroy_files(disk)
    }
}
