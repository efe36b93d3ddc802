ghost use Rattle.std.specs.Prelude.{◌≡◌};
ghost use Rattle.iprop_wire.specs.Answers.{as_frame_fault};
ghost use Rattle.iprop_wire.specs.declared.faults.FrameFault.TheVariants.{MemoryOut as IsMemoryOut};

use kdb_base::MemoryOut;
use kdb_format::FormatFault;
use std::alloc::{AllocError, AllocFailed};
use thiserror::Error;

/// Why bytes were not taken.
#[derive(Clone, Copy, Debug, PartialEq, Eq, Error)]
pub enum FrameFault {
    /// No message goes on with these bytes behind those that were taken.
    #[error("bad frame")]
    BadFrame,
    #[error("out of memory")]
    MemoryOut,
}

impl From<FormatFault> for FrameFault {
    ghost from_gives = { λ fault e. e ≡ as_frame_fault fault };

    fn from(fault: FormatFault) -> FrameFault {
        match fault {
            FormatFault::Malformed => FrameFault::BadFrame,
            FormatFault::MemoryOut => FrameFault::MemoryOut,
        }
    }
}

impl From<MemoryOut> for FrameFault {
    ghost from_gives = { λ _ e. e ≡ IsMemoryOut };

    fn from(_: MemoryOut) -> FrameFault {
        FrameFault::MemoryOut
    }
}

impl From<AllocError> for FrameFault {
    ghost from_gives = { λ _ e. e ≡ IsMemoryOut };

    fn from(_: AllocError) -> FrameFault {
        FrameFault::MemoryOut
    }
}

impl<T: Drop> From<AllocFailed<T>> for FrameFault {
    ghost from_gives = { λ _ e. e ≡ IsMemoryOut };

    fn from(_: AllocFailed<T>) -> FrameFault {
        FrameFault::MemoryOut
    }
}
