//! What a database is asked, once its realm is known.

ghost use Rattle.std.specs.Prelude.{◌≡◌, List, ℕ, IfOk};
ghost use Rattle.kadm_commands.specs.Commands.{IsCommand};
ghost use Rattle.kadm_session.specs.Input.{IsAsked, asked_by, asked_else, asked_for, is_event};
ghost use Rattle.kadm_wire.specs.LineReadings.{words_answer};

use kadm_commands::Command;
use kadm_session::Asked;
use kadm_wire::parse_words;
use kdb_base::{Blob, MemoryOut, Refusal};
use std::alloc::Global;
use std::marker::Model;

/// The words of a line. They do not print themselves: one may be a password.
#[derive(Drop)]
pub struct LineWords {
    items: Vec<Blob>,
}

impl Model for LineWords {
    ghost use Rattle.std.specs.Prelude.{List, ℕ};

    ghost Value = { List (List ℕ) };

    ghost view = { λ w. w.items.items };
}

impl LineWords {
    /// A copy of these words.
    pub(crate) fn copied(alloc: Global, words: &[Blob]) -> Result<LineWords, MemoryOut>
        ensures { IfOk result (λ copies. copies ≡ words.now) }
    {
        let mut items = Vec::new(alloc);
        for word in words {
            items.push(Blob::from_bytes(alloc, word.as_slice())?)?;
        }
        Ok(LineWords { items })
    }

    fn as_slice(&self) -> &[Blob]
        ensures { result.now ≡ self.now }
    {
        &self.items
    }
}

/// What a database is asked.
#[derive(Drop)]
pub enum Asking {
    /// What the lines of the input ask for.
    Input,
    /// What a line of these words asks for, which is read in the realm of the database.
    Line(LineWords),
    /// Its log is to be begun anew.
    ResetsLog,
}

// Whether a command is one event of a primary.
fn is_event(command: &Command) -> bool
    ensures { result ≡ is_event command.now }
{
    !matches!(command, Command::RekeyPrincs(_) | Command::Dump)
}

// A rekeying of many is an event for each of them, and a dump is none; each other command is one event.
fn asked_else(command: Command) -> Asked
    ensures value { result ≡ asked_else command }
    ensures valid { (realm : List ℕ) → IsAsked realm result }
{
    match command {
        Command::RekeyPrincs(glob) => Asked::Rekeys(glob),
        Command::Dump => Asked::WritesDump,
        _ => Asked::Refused(Refusal::BadLine),
    }
}

// A command that is one event is done.
fn asked_for(command: Command) -> Asked
    ensures value { result ≡ asked_for command }
    ensures valid { (realm : List ℕ) → IsCommand realm command → IsAsked realm result }
{
    if is_event(&command) {
        Asked::Does(command)
    } else {
        asked_else(command)
    }
}

/// What a line of these words asks for in a database of this realm. Only want of memory can refuse it.
pub(crate) fn asked_by(alloc: Global, words: &LineWords, realm: &[u8]) -> Result<Asked, MemoryOut>
    ensures value { IfOk result (λ asked. asked ≡ asked_by (words_answer realm.now words.now)) }
    ensures valid { IfOk result (IsAsked realm.now) }
{
    match parse_words(alloc, words.as_slice(), realm)? {
        Ok(Some(command)) => Ok(asked_for(command)),
        Ok(None) => Ok(Asked::Nothing),
        Err(refusal) => Ok(Asked::Refused(refusal)),
    }
}
