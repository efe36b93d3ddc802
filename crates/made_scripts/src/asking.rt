//! The lines of a script as what they ask for.

ghost use Rattle.std.specs.Prelude.{◌≡◌, List, ℕ, IfOk};
ghost use Rattle.kadm_commands.specs.Commands.{IsCommand};
ghost use Rattle.kadm_session.specs.Input.{IsAsked, asked_else, asked_for, is_event};
ghost use Rattle.made_scripts.specs.Plays.{asked_line};

use kadm_commands::Command;
use kadm_session::Asked;
use kadm_wire::parse_line;
use kdb_base::{MemoryOut, Refusal, Stop};
use std::alloc::Global;

// Whether a command is one event of a primary.
fn is_event(command: &Command) -> bool
    ensures { result ≡ is_event command.now }
{
    !matches!(command, Command::RekeyPrincs(_) | Command::Dump)
}

// A rekeying of many is an event for each of them, and a dump is none; each other command is one event.
fn asked_else(command: Command) -> Asked
    ensures value { result ≡ asked_else command }
    ensures valid { (realm : List ℕ) → IsAsked realm result }
{
    match command {
        Command::RekeyPrincs(glob) => Asked::Rekeys(glob),
        Command::Dump => Asked::WritesDump,
        _ => Asked::Refused(Refusal::BadLine),
    }
}

// A command that is one event is done.
fn asked_for(command: Command) -> Asked
    ensures value { result ≡ asked_for command }
    ensures valid { (realm : List ℕ) → IsCommand realm command → IsAsked realm result }
{
    if is_event(&command) {
        Asked::Does(command)
    } else {
        asked_else(command)
    }
}

/// What a line asks for in a database of this realm. Only want of memory can refuse it.
pub(crate) fn read_line(alloc: Global, line: &[u8], realm: &[u8]) -> Result<Asked, MemoryOut>
    ensures value { IfOk result (λ asked. asked ≡ asked_line realm.now line.now) }
    ensures valid { IfOk result (IsAsked realm.now) }
{
    match parse_line(alloc, line, realm) {
        Ok(Some(command)) => Ok(asked_for(command)),
        Ok(None) => Ok(Asked::Nothing),
        Err(Stop::Refused(refusal)) => Ok(Asked::Refused(refusal)),
        Err(Stop::Halt(_)) => Err(MemoryOut),
    }
}
