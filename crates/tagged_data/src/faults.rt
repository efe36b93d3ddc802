ghost use Rattle.std.specs.Prelude.{◌≡◌};
ghost use Rattle.tagged_data.specs.Answers.{fault_of};

use kdb_format::FormatFault;
use thiserror::Error;

/// Why a tagged list, or an item's content, could not be read.
#[derive(Clone, Copy, Debug, PartialEq, Eq, Error)]
pub enum TagFault {
    /// The bytes are no tagged list, or there is no such item, or its content is not of its form.
    #[error("bad tagged list")]
    BadTagged,
    #[error("out of memory")]
    MemoryOut,
}

impl From<FormatFault> for TagFault {
    ghost from_gives = { λ fault e. e ≡ fault_of fault };

    fn from(fault: FormatFault) -> TagFault {
        match fault {
            FormatFault::Malformed => TagFault::BadTagged,
            FormatFault::MemoryOut => TagFault::MemoryOut,
        }
    }
}
