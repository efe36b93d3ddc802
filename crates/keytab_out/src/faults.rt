ghost use Rattle.std.specs.Prelude.{◌≡◌};
ghost use Rattle.keytab_out.specs.declared.faults.KeytabFault.TheVariants.{MemoryOut as IsMemoryOut};

use kdb_base::MemoryOut;
use std::alloc::AllocFailed;
use thiserror::Error;

/// Why a keytab could not be read.
#[derive(Clone, Copy, Debug, PartialEq, Eq, Error)]
pub enum KeytabFault {
    /// The bytes are no keytab of version 0502 (place 0), or what stands at the place, counted in bytes
    /// from the start, is no hole and no entry.
    #[error("bad keytab at byte {place}")]
    BadKeytab { place: u64 },
    #[error("out of memory")]
    MemoryOut,
}

impl From<MemoryOut> for KeytabFault {
    ghost from_gives = { λ _ e. e ≡ IsMemoryOut };

    fn from(_: MemoryOut) -> KeytabFault {
        KeytabFault::MemoryOut
    }
}

impl<T: Drop> From<AllocFailed<T>> for KeytabFault {
    ghost from_gives = { λ _ e. e ≡ IsMemoryOut };

    fn from(_: AllocFailed<T>) -> KeytabFault {
        KeytabFault::MemoryOut
    }
}
