ghost use Rattle.std.specs.Prelude.{◌≡◌};
ghost use Rattle.kdb_format.specs.declared.faults.FormatFault.TheVariants.{Malformed as IsMalformed};
ghost use Rattle.kdb_format.specs.declared.faults.FormatFault.TheVariants.{MemoryOut as IsMemoryOut};

use kdb_base::MemoryOut;
use std::alloc::{AllocError, AllocFailed};
use thiserror::Error;

/// The bytes are not of the format. The caller knows which slot, row or record they came from.
#[derive(Clone, Copy, Debug, PartialEq, Eq, Error)]
#[error("malformed")]
pub struct Malformed;

/// Why a value that owns memory could not be read.
#[derive(Clone, Copy, Debug, PartialEq, Eq, Error)]
pub enum FormatFault {
    /// The bytes are not of the format.
    #[error("malformed")]
    Malformed,
    #[error("out of memory")]
    MemoryOut,
}

impl From<Malformed> for FormatFault {
    ghost from_gives = { λ _ e. e ≡ IsMalformed };

    fn from(_: Malformed) -> FormatFault {
        FormatFault::Malformed
    }
}

impl From<MemoryOut> for FormatFault {
    ghost from_gives = { λ _ e. e ≡ IsMemoryOut };

    fn from(_: MemoryOut) -> FormatFault {
        FormatFault::MemoryOut
    }
}

impl From<AllocError> for FormatFault {
    ghost from_gives = { λ _ e. e ≡ IsMemoryOut };

    fn from(_: AllocError) -> FormatFault {
        FormatFault::MemoryOut
    }
}

impl<T: Drop> From<AllocFailed<T>> for FormatFault {
    ghost from_gives = { λ _ e. e ≡ IsMemoryOut };

    fn from(_: AllocFailed<T>) -> FormatFault {
        FormatFault::MemoryOut
    }
}
