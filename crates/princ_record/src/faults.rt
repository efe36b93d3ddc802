ghost use Rattle.std.specs.Prelude.{◌≡◌};
ghost use Rattle.princ_record.specs.Answers.{fault_of};

use kdb_format::FormatFault;
use thiserror::Error;

/// Why a record could not be decoded.
#[derive(Clone, Copy, Debug, PartialEq, Eq, Error)]
pub enum RowFault {
    /// The bytes are the spelling of no record.
    #[error("bad record")]
    BadRecord,
    #[error("out of memory")]
    MemoryOut,
}

impl From<FormatFault> for RowFault {
    ghost from_gives = { λ fault e. e ≡ fault_of fault };

    fn from(fault: FormatFault) -> RowFault {
        match fault {
            FormatFault::Malformed => RowFault::BadRecord,
            FormatFault::MemoryOut => RowFault::MemoryOut,
        }
    }
}
