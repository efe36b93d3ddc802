//! How a replica's run ends early, and its status.
ghost use Rattle.std.specs.Prelude.{◌≡◌};
ghost use Rattle.kprop_runs.specs.Halts.{disk_as_run, round_as_run, status_after, status_of};

use kdb_base::{Halt, Status};
use kprop_rounds::RoundHalt;
use thiserror::Error;

/// What ends a run early.
#[derive(Clone, Copy, Debug, PartialEq, Eq, Error)]
pub enum RunHalt {
    #[error("out of memory")]
    MemoryOut,
    #[error("the write failed")]
    WriteFault,
    #[error("the disk failed")]
    DiskFault,
    #[error("the link failed")]
    LinkFault,
    /// 4294967296 bytes were received in a round, and no end had come.
    #[error("the input is too long")]
    InputTooLong,
}

impl From<RoundHalt> for RunHalt {
    ghost from_gives = { λ halt made. made ≡ round_as_run halt };

    fn from(halt: RoundHalt) -> RunHalt {
        match halt {
            RoundHalt::MemoryOut => RunHalt::MemoryOut,
            RoundHalt::DiskFault => RunHalt::DiskFault,
            RoundHalt::LinkFault => RunHalt::LinkFault,
            RoundHalt::InputTooLong => RunHalt::InputTooLong,
        }
    }
}

impl From<Halt> for RunHalt {
    ghost from_gives = { λ halt made. made ≡ disk_as_run halt };

    fn from(halt: Halt) -> RunHalt {
        match halt {
            Halt::MemoryOut => RunHalt::MemoryOut,
            Halt::DiskFault => RunHalt::DiskFault,
        }
    }
}

/// The status of a run that was stopped.
fn status_of(halt: RunHalt) -> Status
    ensures { result ≡ status_of halt }
{
    match halt {
        RunHalt::MemoryOut => Status::MemoryOut,
        RunHalt::WriteFault => Status::WriteFault,
        RunHalt::DiskFault => Status::DiskFault,
        RunHalt::LinkFault => Status::LinkFault,
        RunHalt::InputTooLong => Status::InputTooLong,
    }
}

/// The status of a run that went through, by whether a refusal was written, or was stopped.
pub(crate) fn status_after(ended: Result<bool, RunHalt>) -> Status
    ensures { result ≡ status_after ended }
{
    match ended {
        Ok(true) => Status::Refused,
        Ok(false) => Status::Done,
        Err(halt) => status_of(halt),
    }
}
