ghost use Rattle.std.specs.Prelude.{◌≡◌};
ghost use Rattle.master_keys.specs.Faults.{chain_fault, unopened_by};

use krb_profile::UnsealFault;
use std::alloc::AllocFailed;
use thiserror::Error;

/// Why master keys are not opened.
#[derive(Clone, Copy, Debug, PartialEq, Eq, Error)]
pub enum ChainFault {
    /// There is no master key of the version that was asked for.
    #[error("no master key of version {version}")]
    UnknownMaster { version: u16 },
    /// The key in hand does not open it, or it is nothing that a master key opens.
    #[error("not opened by this master key")]
    StashWrong,
    #[error("out of memory")]
    MemoryOut,
}

/// Why keys are not unwrapped.
#[derive(Clone, Copy, Debug, PartialEq, Eq, Error)]
pub enum Unopened {
    /// No key of this type was wrapped so under the master key in hand.
    #[error("not wrapped under this master key")]
    Wrong,
    #[error("out of memory")]
    MemoryOut,
}

impl<T: Drop> From<AllocFailed<T>> for Unopened {
    ghost use Rattle.master_keys.specs.declared.faults.Unopened.TheVariants as unopened;

    ghost from_gives = { λ _ e. e ≡ unopened.MemoryOut };

    fn from(_: AllocFailed<T>) -> Unopened {
        Unopened::MemoryOut
    }
}

impl From<UnsealFault> for Unopened {
    ghost from_gives = { λ fault e. e ≡ unopened_by fault };

    fn from(fault: UnsealFault) -> Unopened {
        match fault {
            UnsealFault::Short | UnsealFault::BadTag => Unopened::Wrong,
            UnsealFault::MemoryOut => Unopened::MemoryOut,
        }
    }
}

impl From<Unopened> for ChainFault {
    ghost from_gives = { λ fault e. e ≡ chain_fault fault };

    fn from(fault: Unopened) -> ChainFault {
        match fault {
            Unopened::Wrong => ChainFault::StashWrong,
            Unopened::MemoryOut => ChainFault::MemoryOut,
        }
    }
}
