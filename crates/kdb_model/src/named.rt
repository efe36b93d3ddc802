//! What a command names, and what is found by it.

ghost use Rattle.std.specs.Prelude.{ℕ, List, Some, ◌≡◌, IfOk, IfSome, option_and_then, option_map};
ghost use Rattle.kdb_model.specs.Access.{master_parts};
ghost use Rattle.kdb_model.specs.Refusals.{needed_name, needed_policy, new_keys, new_name};
ghost use Rattle.kdb_plain.specs.States.{princ_named};
ghost use Rattle.princ_name.specs.Names.{IsName, NameParts, printed};
ghost use Rattle.princ_name.specs.Realms.{IsRealm};

use kadm_commands::Command;
use kdb_base::{Blob, MemoryOut};
use kdb_plain::{PlainPrinc, PlainPrincs, master_name, princ_named};
use plain_keys::NewKeys;
use princ_name::laws::{printed_form_spells_the_name, word_spells_one_name};
use princ_name::{Name, parse_name, print_name};
use std::alloc::Global;

/// The principal that has to be there.
pub(crate) fn needed_name(command: &Command) -> Option<&Name>
    ensures { option_map (λ n. n.now) result ≡ needed_name command.now }
{
    match command {
        Command::ModPrinc(c) => Some(&c.name),
        Command::ChangeKeys(c) => Some(&c.name),
        Command::RenPrinc(c) => Some(&c.name),
        Command::DelPrinc(name) => Some(name),
        Command::GetPrinc(name) => Some(name),
        Command::PurgeKeys(c) => Some(&c.name),
        Command::SetString(c) => Some(&c.name),
        Command::DelString(c) => Some(&c.name),
        Command::GetStrings(name) => Some(name),
        Command::Extract(name) => Some(name),
        _ => None,
    }
}

/// The principal that is to be new.
pub(crate) fn new_name(command: &Command) -> Option<&Name>
    ensures { option_map (λ n. n.now) result ≡ new_name command.now }
{
    match command {
        Command::AddPrinc(c) => Some(&c.name),
        Command::RenPrinc(c) => Some(&c.new_name),
        _ => None,
    }
}

/// The policy that has to be there, beside that of a principal.
pub(crate) fn needed_policy(command: &Command) -> Option<&Blob>
    ensures { option_map (λ n. n.now) result ≡ needed_policy command.now }
{
    match command {
        Command::ModPolicy(c) => Some(&c.name),
        Command::DelPolicy(name) => Some(name),
        Command::GetPolicy(name) => Some(name),
        _ => None,
    }
}

/// The keys that a command makes.
pub(crate) fn new_keys(command: &Command) -> Option<&NewKeys>
    ensures { option_map (λ k. k.now) result ≡ new_keys command.now }
{
    match command {
        Command::AddPrinc(c) => c.keys.as_ref(),
        Command::ChangeKeys(c) => Some(&c.keys),
        _ => None,
    }
}

/// The printed form of a name, where there is one.
pub(crate) fn print_some(alloc: Global, name: Option<&Name>) -> Result<Option<Blob>, MemoryOut>
    ensures { IfOk result (λ text. text ≡ option_map printed (option_map (λ n. n.now) name.entry)) }
{
    match name {
        Some(name) => {
            let text = print_name(alloc, name)?;
            Ok(Some(text))
        }
        None => Ok(None),
    }
}

/// The principal of a printed name, where there is one.
pub(crate) fn find_some<'a>(princs: &'a PlainPrincs, name: &Option<Blob>) -> Option<&'a PlainPrinc>
    ensures { option_map (λ q. q.now) result ≡ option_and_then (λ n. princ_named n princs.now) name.now }
{
    match name {
        Some(name) => princ_named(princs, name.as_slice()),
        None => None,
    }
}

/// The name that a text is the printed form of.
pub(crate) fn read_printed(alloc: Global, text: &[u8], realm: &[u8]) -> Result<Name, MemoryOut>
    ensures { (who : NameParts) → IsName who → printed who ≡ text.now → IfOk result (λ name. name ≡ who) }
{
    printed_form_spells_the_name();
    word_spells_one_name();
    match parse_name(alloc, text, realm) {
        Ok(name) => Ok(name),
        Err(_) => Err(MemoryOut),
    }
}

/// The name of K/M, whose keys are the master keys.
pub(crate) fn master_parts(alloc: Global, realm: &[u8]) -> Result<Name, MemoryOut>
    requires { IsRealm realm.now }
    ensures { IfOk result (λ name. name ≡ master_parts realm.now) }
{
    let text = master_name(alloc, realm)?;
    read_printed(alloc, text.as_slice(), realm)
}
