ghost use Rattle.std.specs.Prelude.{◌≡◌};
ghost use Rattle.acl_text.specs.declared.faults.AclFault.TheVariants.{MemoryOut as IsMemoryOut};

use std::alloc::AllocFailed;
use thiserror::Error;

/// Why a text was not read as rules.
#[derive(Clone, Copy, Debug, PartialEq, Eq, Error)]
pub enum AclFault {
    /// The first line that is no rule, counted from 1; of a joined line the number of its first line.
    #[error("bad rule in line {line}")]
    BadAcl { line: u32 },
    #[error("out of memory")]
    MemoryOut,
}

impl<T: Drop> From<AllocFailed<T>> for AclFault {
    ghost from_gives = { λ _ e. e ≡ IsMemoryOut };

    fn from(_: AllocFailed<T>) -> AclFault {
        AclFault::MemoryOut
    }
}
