ghost use Rattle.std.specs.Prelude.{◌≡◌};
ghost use Rattle.dump_text.specs.Stops.{as_dump_stop, as_line_stop};

use kdb_base::MemoryOut;
use kdb_format::FormatFault;
use std::alloc::{AllocError, AllocFailed};
use thiserror::Error;

/// Why a dump was not written, or not read.
#[derive(Clone, Copy, Debug, PartialEq, Eq, Error)]
pub enum DumpStop {
    /// No dump goes on with this line behind the lines before it. Lines count from 1, up to the last
    /// number of a u32.
    #[error("line {line} of the dump is bad")]
    DumpBad { line: u32 },
    /// The sink failed.
    #[error("the write failed")]
    WriteFault,
    #[error("out of memory")]
    MemoryOut,
}

/// Why a dump was not written.
#[derive(Clone, Copy, Debug, PartialEq, Eq)]
pub(crate) enum WriteStop {
    WriteFault,
    MemoryOut,
}

impl From<MemoryOut> for WriteStop {
    ghost use Rattle.dump_text.specs.declared.stops.WriteStop.TheVariants as write;

    ghost from_gives = { λ _ stop. stop ≡ write.MemoryOut };

    fn from(_: MemoryOut) -> WriteStop {
        WriteStop::MemoryOut
    }
}

impl From<WriteStop> for DumpStop {
    ghost from_gives = { λ from stop. stop ≡ as_dump_stop from };

    fn from(stop: WriteStop) -> DumpStop {
        match stop {
            WriteStop::WriteFault => DumpStop::WriteFault,
            WriteStop::MemoryOut => DumpStop::MemoryOut,
        }
    }
}

/// Why a line was not read.
#[derive(Clone, Copy, Debug, PartialEq, Eq)]
pub(crate) enum LineStop {
    /// No dump goes on with the line.
    Bad,
    MemoryOut,
}

impl From<MemoryOut> for LineStop {
    ghost use Rattle.dump_text.specs.declared.stops.LineStop.TheVariants as line;

    ghost from_gives = { λ _ stop. stop ≡ line.MemoryOut };

    fn from(_: MemoryOut) -> LineStop {
        LineStop::MemoryOut
    }
}

impl From<AllocError> for LineStop {
    ghost use Rattle.dump_text.specs.declared.stops.LineStop.TheVariants as line;

    ghost from_gives = { λ _ stop. stop ≡ line.MemoryOut };

    fn from(_: AllocError) -> LineStop {
        LineStop::MemoryOut
    }
}

impl<T: Drop> From<AllocFailed<T>> for LineStop {
    ghost use Rattle.dump_text.specs.declared.stops.LineStop.TheVariants as line;

    ghost from_gives = { λ _ stop. stop ≡ line.MemoryOut };

    fn from(_: AllocFailed<T>) -> LineStop {
        LineStop::MemoryOut
    }
}

impl From<FormatFault> for LineStop {
    ghost from_gives = { λ from stop. stop ≡ as_line_stop from };

    fn from(fault: FormatFault) -> LineStop {
        match fault {
            FormatFault::Malformed => LineStop::Bad,
            FormatFault::MemoryOut => LineStop::MemoryOut,
        }
    }
}
