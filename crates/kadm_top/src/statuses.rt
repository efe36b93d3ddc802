//! The status of a run.

ghost use Rattle.std.specs.Prelude.{◌≡◌};
ghost use Rattle.kadm_top.specs.Statuses.{status_after, status_of};

use kdb_base::Status;
use session_base::SessionHalt;

/// The status of a run that was stopped.
fn status_of(halt: SessionHalt) -> Status
    ensures { result ≡ status_of halt }
{
    match halt {
        SessionHalt::MemoryOut => Status::MemoryOut,
        SessionHalt::ReadFault => Status::ReadFault,
        SessionHalt::WriteFault => Status::WriteFault,
        SessionHalt::DiskFault => Status::DiskFault,
        // The source of random bytes is read too.
        SessionHalt::DrawFault => Status::ReadFault,
        SessionHalt::InputTooLong => Status::InputTooLong,
    }
}

/// The status of a run that went through or was stopped.
pub(crate) fn status_after(ended: Result<bool, SessionHalt>) -> Status
    ensures { result ≡ status_after ended }
{
    match ended {
        Ok(true) => Status::Refused,
        Ok(false) => Status::Done,
        Err(halt) => status_of(halt),
    }
}
