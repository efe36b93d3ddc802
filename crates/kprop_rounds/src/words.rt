//! What a round came to.
ghost use Rattle.std.specs.Prelude.{◌≡◌};
ghost use Rattle.kprop_rounds.specs.Words.{disk_as_round, link_as_round};

use iprop_links::LinkHalt;
use kdb_base::Halt;
use thiserror::Error;

/// What a round came to.
#[derive(Clone, Copy, Debug, PartialEq, Eq)]
pub enum RoundWord {
    /// Nothing came after the replica's point.
    Nil,
    /// So many updates were made.
    Updated(u32),
    /// A whole database was loaded.
    Loaded,
    /// A dump is needed, and is not given now.
    Busy,
    /// The replica may not ask.
    Denied,
    /// The peer ended before the end of its reply or its dump.
    Cut,
    /// The reply answers another point than the replica's.
    WrongPoint,
    /// An update does not follow on the replica's point, or may not be made of its rows.
    Gap,
    /// This line of the dump is bad.
    DumpBad(u32),
    /// The peer's bytes are no message that may come here.
    BadFrame,
}

/// What ends a round early.
#[derive(Clone, Copy, Debug, PartialEq, Eq, Error)]
pub enum RoundHalt {
    #[error("out of memory")]
    MemoryOut,
    #[error("the disk failed")]
    DiskFault,
    #[error("the link failed")]
    LinkFault,
    /// 4294967296 bytes were received in the round, and no end had come.
    #[error("the input is too long")]
    InputTooLong,
}

impl From<LinkHalt> for RoundHalt {
    ghost from_gives = { λ halt made. made ≡ link_as_round halt };

    fn from(halt: LinkHalt) -> RoundHalt {
        match halt {
            LinkHalt::MemoryOut => RoundHalt::MemoryOut,
            LinkHalt::LinkFault => RoundHalt::LinkFault,
            LinkHalt::InputTooLong => RoundHalt::InputTooLong,
        }
    }
}

impl From<Halt> for RoundHalt {
    ghost from_gives = { λ halt made. made ≡ disk_as_round halt };

    fn from(halt: Halt) -> RoundHalt {
        match halt {
            Halt::MemoryOut => RoundHalt::MemoryOut,
            Halt::DiskFault => RoundHalt::DiskFault,
        }
    }
}
