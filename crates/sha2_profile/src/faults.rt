//! Why a text is not unsealed.

use thiserror::Error;

/// Why a text is not unsealed.
#[derive(Clone, Copy, Debug, PartialEq, Eq, Error)]
pub enum UnsealFault {
    /// It is shorter than a confounder and a tag.
    #[error("sealed text too short")]
    Short,
    /// Its tag is not the tag of what it holds.
    #[error("wrong tag")]
    BadTag,
    #[error("out of memory")]
    MemoryOut,
}
