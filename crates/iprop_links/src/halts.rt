use thiserror::Error;

/// What ends a call over a link early.
#[derive(Clone, Copy, Debug, PartialEq, Eq, Error)]
pub enum LinkHalt {
    #[error("out of memory")]
    MemoryOut,
    /// The link failed.
    #[error("the link failed")]
    LinkFault,
    /// 4294967296 bytes were received, and no end had come.
    #[error("the input is too long")]
    InputTooLong,
}
