ghost use Rattle.std.specs.Prelude.{◌≡◌};
ghost use Rattle.princ_name.specs.declared.faults.NameFault.TheVariants.{MemoryOut as IsMemoryOut};

use kdb_base::MemoryOut;
use std::alloc::{AllocError, AllocFailed};
use thiserror::Error;

/// Why a word was not read as a name or a pattern.
#[derive(Clone, Copy, Debug, PartialEq, Eq, Error)]
pub enum NameFault {
    /// The word breaks the grammar of names or their limits. The offset is that of a byte of the word,
    /// or the word's length.
    #[error("bad name at {offset}")]
    BadName { offset: usize },
    #[error("out of memory")]
    MemoryOut,
}

impl From<MemoryOut> for NameFault {
    ghost from_gives = { λ _ e. e ≡ IsMemoryOut };

    fn from(_: MemoryOut) -> NameFault {
        NameFault::MemoryOut
    }
}

impl From<AllocError> for NameFault {
    ghost from_gives = { λ _ e. e ≡ IsMemoryOut };

    fn from(_: AllocError) -> NameFault {
        NameFault::MemoryOut
    }
}

impl<T: Drop> From<AllocFailed<T>> for NameFault {
    ghost from_gives = { λ _ e. e ≡ IsMemoryOut };

    fn from(_: AllocFailed<T>) -> NameFault {
        NameFault::MemoryOut
    }
}
