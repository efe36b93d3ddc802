//! The end of a database, and the disk handed back.

ghost use Rattle.std.specs.Prelude.{◌≡◌, false, Err, IfErr, IfOk};
ghost use Rattle.kdb_base.specs.declared.outcomes.Halt.TheVariants.{DiskFault as IsDiskFault, MemoryOut as IsMemoryOut};
ghost use Rattle.kdb_base.specs.declared.outcomes.Refusal.{Refusal as Refuses};
ghost use Rattle.kdb_base.specs.declared.outcomes.Stop.TheVariants as stops;
ghost use Rattle.kdb_disk.specs.Frames.{IsCall, IsCrashSafe};
ghost use Rattle.kdb_disk.specs.Moments.{Keeps};
ghost use Rattle.primary_core.specs.Ending.{IsCut, MayEnd};
ghost use Rattle.primary_disk.specs.Handing.{disk_back, ended_in};
ghost use Rattle.primary_disk.specs.Held.{Stands, is_broken, place_in};
ghost use Rattle.store_files.specs.Recovery.{Destroys, RecoversToNone};
ghost use Rattle.store_opening.specs.Looking.{StopsOpening};

use crate::primary::DiskPrimary;
use kdb_base::Stop;
use kdb_disk::Disk;

impl<D: Disk> DiskPrimary<D> {
    /// Ends the database: its slots are closed, the older one first, and then all its files are cut to nothing. No
    /// memory is taken. The disk is handed back in any case.
    ///
    /// # Errors
    ///
    /// `DiskFault` where the disk failed. Of a primary that is not closed, on a disk that tells of its files, nothing
    /// is refused. Of a closed one the files may have gone or be damaged, which is refused, and changes none of them.
    pub fn destroy(self) -> Result<D, (D, Stop)>
        ensures none { D.tells → IfOk result (λ disk. RecoversToNone (D.view disk)) }
        ensures empty { D.tells → IfOk result (λ disk. IsCut (D.view disk)) }
        ensures ends { IsCrashSafe D.Disk self.disk (disk_back result) (Destroys (D.view self.disk)) }
        ensures keeps { D.tells → (why : Refuses) → ended_in result ≡ Err (stops.Refused why)
            → Keeps (D.view self.disk) (D.view (disk_back result)) }
        ensures crash { is_broken self ≡ false
            → IsCrashSafe D.Disk self.disk (disk_back result) (MayEnd (place_in self)) }
        ensures refused { D.tells → is_broken self ≡ false → (why : Refuses)
            → ended_in result ≡ Err (stops.Refused why) → ⊥ }
        // A refusal is one of an opening of the files, whatever the disk tells.
        ensures stops { IfErr (ended_in result) StopsOpening }
        ensures memory { ended_in result ≡ Err (stops.Halt IsMemoryOut) → ⊥ }
        ensures call { IsCall D.Disk self.disk (disk_back result) (ended_in result ≡ Err (stops.Halt IsDiskFault)) }
    {
        let DiskPrimary { mut disk, primary } = self;
        match primary.destroy(&mut disk) {
            Ok(()) => Ok(disk),
            Err(stop) => Err((disk, stop)),
        }
    }

    /// Closes the database and hands its disk back, as it is.
    pub fn into_disk(self) -> D
        ensures value { result ≡ self.disk }
        ensures stands { Stands D.Disk result self.opened }
    {
        drop(self.primary);
        self.disk
    }
}
