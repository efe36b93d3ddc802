//! Lines as what they ask for.

ghost use Rattle.std.specs.Prelude.{◌≡◌, ◌≢◌, ◌<◌, List, ℕ, Option, Some, Ok, Err, IfErr, IfOk, IsTrue};
ghost use Rattle.kadm_commands.specs.Commands.{IsCommand};
ghost use Rattle.kadm_lines.specs.Reader.{work_left};
ghost use Rattle.session_base.specs.Halts.{Counts, IsReadHalt};
ghost use Rattle.kadm_session.specs.Input.{asked_else, asked_for, asked_in, is_event};
ghost use Rattle.kadm_session.specs.Input.{line_bytes, without_return, IsAsked};
ghost use Rattle.kadm_session.specs.Intake.{coming, Comes, IsValid, HasTaken};

use kadm_commands::Command;
use kadm_lines::{IntakeFault, LineReader, NextLine};
use kadm_wire::parse_line;
use kdb_base::{Blob, MemoryOut, Refusal, Stop};
use kdb_ports::Source;
use session_base::SessionHalt;
use std::alloc::Global;

/// What a session is asked for. It does not print itself: what it would print may be a password.
#[derive(Drop)]
pub enum Asked {
    /// The line is skipped.
    Nothing,
    /// The line is not of the grammar, or too long.
    Refused(Refusal),
    /// The line gives a command that is one event of a primary.
    Does(Command),
    /// The line rekeys the principals that this glob matches, or all without one, each as an event of its own.
    Rekeys(Option<Blob>),
    /// The log is begun anew on request. No line of an input gives it.
    ResetsLog,
    /// The line asks for the whole database as text.
    WritesDump,
}

/// What comes next of the input.
#[derive(Drop)]
pub enum Next {
    Line(Asked),
    /// The input has ended.
    End,
}

/// The bytes without one carriage return at their end.
fn without_return(text: &[u8]) -> &[u8]
    ensures { result.now ≡ without_return text.now }
{
    match text.strip_suffix(b"\r") {
        Some(front) => front,
        None => text,
    }
}

/// The bytes of a line: a carriage return belongs to the line feed behind it.
fn line_bytes(text: &[u8], ended: bool) -> &[u8]
    ensures { result.now ≡ line_bytes text.now ended }
{
    if ended { without_return(text) } else { text }
}

/// Whether a command is one event of a primary.
fn is_event(command: &Command) -> bool
    ensures { result ≡ is_event command.now }
{
    match command {
        Command::RekeyPrincs(_) | Command::Dump => false,
        Command::AddPrinc(_)
        | Command::ModPrinc(_)
        | Command::ChangeKeys(_)
        | Command::RenPrinc(_)
        | Command::DelPrinc(_)
        | Command::GetPrinc(_)
        | Command::ListPrincs(_)
        | Command::PurgeKeys(_)
        | Command::SetString(_)
        | Command::DelString(_)
        | Command::GetStrings(_)
        | Command::Extract(_)
        | Command::AddPolicy(_)
        | Command::ModPolicy(_)
        | Command::DelPolicy(_)
        | Command::GetPolicy(_)
        | Command::ListPolicies
        | Command::GetPrivs
        | Command::AddMaster(_)
        | Command::UseMaster(_)
        | Command::ListMasters
        | Command::PurgeMasters
        | Command::Stash => true,
    }
}

/// A rekeying of many is an event for each of them, and a dump is none; each other command is one event.
fn asked_else(command: Command) -> Asked
    ensures value { result ≡ asked_else command }
    ensures valid { (realm : List ℕ) → IsAsked realm result }
{
    match command {
        Command::RekeyPrincs(glob) => Asked::Rekeys(glob),
        Command::Dump => Asked::WritesDump,
        _ => Asked::Refused(Refusal::BadLine),
    }
}

/// A command that is one event is done.
fn asked_for(command: Command) -> Asked
    ensures value { result ≡ asked_for command }
    ensures valid { (realm : List ℕ) → IsCommand realm command → IsAsked realm result }
{
    if is_event(&command) {
        Asked::Does(command)
    } else {
        asked_else(command)
    }
}

/// What a line of this text asks for, in a database of this realm.
#[tactic(auto, unfolding(crate::specs::Input::asked_in))]
fn read_line(alloc: Global, text: &[u8], ended: bool, realm: &[u8]) -> Result<Asked, MemoryOut>
    ensures value { IfOk result (λ asked. asked ≡ asked_in realm.now (record { text = Some text.now; ended = ended })) }
    ensures valid { IfOk result (λ asked. IsAsked realm.now asked) }
{
    match parse_line(alloc, line_bytes(text, ended), realm) {
        Ok(Some(command)) => Ok(asked_for(command)),
        Ok(None) => Ok(Asked::Nothing),
        Err(Stop::Refused(refusal)) => Ok(Asked::Refused(refusal)),
        Err(Stop::Halt(_)) => Err(MemoryOut),
    }
}

/// Goes on to the next line, and reads what it asks for in a database of this realm.
pub fn next_command<S: Source>(
    alloc: Global,
    reader: &mut LineReader,
    source: &mut S,
    realm: &[u8],
) -> Result<Next, SessionHalt>
    ensures next { IfOk result (λ next. Comes next (coming realm.now reader.old (S.left source.old))
        (coming realm.now reader.new (S.left source.new))) }
    ensures valid { IfOk result (IsValid realm.now) }
    ensures end { result ≡ Ok Next.End → IsTrue reader.new.over }
    ensures takes { (first : Option (List ℕ)) → HasTaken first reader.old (S.left source.old)
        → HasTaken first reader.new (S.left source.new) }
    ensures too_long { result ≡ Err SessionHalt.InputTooLong → reader.new.taken ≡ 4294967296 }
    ensures falls { IfOk result (λ next. next ≢ Next.End → work_left reader.new < work_left reader.old) }
    ensures halt { IfErr result IsReadHalt }
    ensures faults { Counts (S.faults source.old) (S.faults source.new) (result ≡ Err SessionHalt.ReadFault) }
{
    match reader.advance(source) {
        Ok(NextLine::Line { ended }) => match read_line(alloc, reader.text(), ended, realm) {
            Ok(asked) => Ok(Next::Line(asked)),
            Err(_) => Err(SessionHalt::MemoryOut),
        },
        Ok(NextLine::TooLong { .. }) => Ok(Next::Line(Asked::Refused(Refusal::LineTooLong))),
        Ok(NextLine::End) => Ok(Next::End),
        Err(IntakeFault::ReadFault) => Err(SessionHalt::ReadFault),
        Err(IntakeFault::InputTooLong) => Err(SessionHalt::InputTooLong),
    }
}
