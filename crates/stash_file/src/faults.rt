ghost use Rattle.std.specs.Prelude.{◌≡◌};
ghost use Rattle.stash_file.specs.declared.faults.StashFault.TheVariants.{MemoryOut as IsMemoryOut};

use kdb_base::MemoryOut;
use std::alloc::AllocFailed;
use thiserror::Error;

/// Why a stash could not be read.
#[derive(Clone, Copy, Debug, PartialEq, Eq, Error)]
pub enum StashFault {
    /// The bytes are no keytab of version 0502 (place 0), or what stands at the place, counted in bytes
    /// from the start, is no hole and no entry.
    #[error("bad stash at byte {place}")]
    BadStash { place: u64 },
    #[error("out of memory")]
    MemoryOut,
}

impl From<MemoryOut> for StashFault {
    ghost from_gives = { λ _ e. e ≡ IsMemoryOut };

    fn from(_: MemoryOut) -> StashFault {
        StashFault::MemoryOut
    }
}

impl<T: Drop> From<AllocFailed<T>> for StashFault {
    ghost from_gives = { λ _ e. e ≡ IsMemoryOut };

    fn from(_: AllocFailed<T>) -> StashFault {
        StashFault::MemoryOut
    }
}
