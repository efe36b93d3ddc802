//! Why a session ends early.

ghost use Rattle.std.specs.Prelude.{◌≡◌};
ghost use Rattle.session_base.specs.Halts.{disk_as_session};

use kdb_base::Halt;

/// Why a session ended before its input did.
#[derive(Clone, Copy, Debug, PartialEq, Eq)]
pub enum SessionHalt {
    MemoryOut,
    ReadFault,
    WriteFault,
    DiskFault,
    DrawFault,
    InputTooLong,
}

impl From<Halt> for SessionHalt {
    ghost from_gives = { λ from halt. halt ≡ disk_as_session from };

    fn from(halt: Halt) -> SessionHalt {
        match halt {
            Halt::MemoryOut => SessionHalt::MemoryOut,
            Halt::DiskFault => SessionHalt::DiskFault,
        }
    }
}
