//! What the access list says of a command.

ghost use Rattle.std.specs.Prelude.{◌≡◌, ◌∷◌, [], ℕ, List, Some, None, false, true, IfOk, codes, filter, option_map};
ghost use Rattle.acl_text.specs.Decisions.{decision};
ghost use Rattle.kdb_model.specs.Access.{asks, denied_in, is_own, master_parts, privileges};
ghost use Rattle.kdb_model.specs.Asking.{call_in, state_in};
ghost use Rattle.kdb_model.specs.Refusals.{denied, needed_name};
ghost use Rattle.princ_name.specs.Names.{NameParts, printed};

use crate::asked::Asked;
use acl_text::Acl;
use kadm_commands::Command;
use kdb_base::{Blob, MemoryOut, Refusal};
use princ_name::Name;
use std::alloc::Global;

/// The letters of operations, in the order in which they are told.
const LETTERS: &[u8; 9] = b"admcilspe";

/// The refusal of one operation, where it is not allowed, or where `plainly` is set and the line has restrictions.
#[tactic(auto, unfolding(crate::specs::Access::denied_in))]
fn denial(
    acl: &Acl,
    client: &Name,
    letter: u8,
    target: Option<&Name>,
    plainly: bool,
) -> Option<Refusal>
    ensures { result ≡ denied_in acl.now client.now
        (record { letter = letter; target = option_map (λ t. t.now) target.entry; plainly = plainly } ∷ []) }
{
    let verdict = acl.decide(client, letter, target);
    if verdict.allowed && !(plainly && verdict.limits.is_some()) {
        None
    } else {
        Some(Refusal::Denied { line: verdict.line })
    }
}

/// The refusal of a rename: a deletion, and then an addition without restrictions.
#[tactic(auto, unfolding(crate::specs::Access::denied_in))]
fn rename_denial(acl: &Acl, client: &Name, old: &Name, new: &Name) -> Option<Refusal>
    ensures { result ≡ denied_in acl.now client.now (record { letter = 100; target = Some old.now; plainly = false }
        ∷ record { letter = 97; target = Some new.now; plainly = true } ∷ []) }
{
    match denial(acl, client, b'd', Some(old), false) {
        Some(refusal) => Some(refusal),
        None => denial(acl, client, b'a', Some(new), true),
    }
}

/// The refusal of a command that is on no principal.
fn alone_denial(acl: &Acl, client: &Name, letter: u8) -> Option<Refusal>
    ensures { result ≡ denied_in acl.now client.now (record { letter = letter; target = None; plainly = false } ∷ []) }
{
    denial(acl, client, letter, None, false)
}

/// The refusal of a command, whoever it is of.
#[tactic(auto, unfolding(crate::specs::Access::asks, crate::specs::Access::denied_in))]
fn asked_denial(acl: &Acl, client: &Name, command: &Command, master: &Name) -> Option<Refusal>
    ensures { (realm : List ℕ) → master.now ≡ master_parts realm
        → result ≡ denied_in acl.now client.now (asks realm command.now) }
{
    match command {
        Command::AddPrinc(c) => denial(acl, client, b'a', Some(&c.name), false),
        Command::ModPrinc(c) => denial(acl, client, b'm', Some(&c.name), false),
        Command::ChangeKeys(c) => denial(acl, client, b'c', Some(&c.name), false),
        Command::RenPrinc(c) => rename_denial(acl, client, &c.name, &c.new_name),
        Command::DelPrinc(name) => denial(acl, client, b'd', Some(name), false),
        Command::GetPrinc(name) => denial(acl, client, b'i', Some(name), false),
        Command::ListPrincs(_) => alone_denial(acl, client, b'l'),
        Command::PurgeKeys(c) => denial(acl, client, b'm', Some(&c.name), false),
        Command::SetString(c) => denial(acl, client, b'm', Some(&c.name), false),
        Command::DelString(c) => denial(acl, client, b'm', Some(&c.name), false),
        Command::GetStrings(name) => denial(acl, client, b'i', Some(name), false),
        Command::Extract(name) => denial(acl, client, b'e', Some(name), false),
        Command::AddPolicy(_) => alone_denial(acl, client, b'a'),
        Command::ModPolicy(_) => alone_denial(acl, client, b'm'),
        Command::DelPolicy(_) => alone_denial(acl, client, b'd'),
        Command::GetPolicy(_) => alone_denial(acl, client, b'i'),
        Command::ListPolicies => alone_denial(acl, client, b'l'),
        Command::GetPrivs => None,
        Command::Dump => alone_denial(acl, client, b'p'),
        _ => denial(acl, client, b's', Some(master), false),
    }
}

/// Whether everybody may give the command, since it is on the own name. Both names are printed ones.
pub(crate) fn is_own(command: &Command, needed: &Option<Blob>, client: &[u8]) -> bool
    ensures { (who : NameParts) → needed.now ≡ option_map printed (needed_name command.now) → client.now ≡ printed who
        → result ≡ is_own who command.now }
{
    match command {
        Command::ChangeKeys(_) | Command::GetPrinc(_) => match needed {
            Some(name) => client == name.as_slice(),
            None => false,
        },
        _ => false,
    }
}

/// Whether the access list denies the command, where everybody may not give it.
pub(crate) fn denied(asked: &Asked, master: &Name, own: bool) -> Option<Refusal>
    requires master { master.now ≡ master_parts (state_in asked.now).realm }
    requires own { own ≡ is_own asked.now.client.now asked.now.command.now }
    ensures { result ≡ denied (state_in asked.now) (call_in asked.now) }
{
    match asked.acl {
        Some(acl) => {
            if own {
                return None;
            }
            asked_denial(acl, asked.client, asked.command, master)
        }
        None => None,
    }
}

/// The letters that a client has for operations without a target.
fn granted(alloc: Global, acl: &Acl, client: &Name) -> Result<Vec<u8>, MemoryOut>
    ensures { IfOk result (λ letters.
        letters.items ≡ filter (λ letter. (decision acl.now client.now letter None).allowed) (codes "admcilspe")) }
{
    let letters = LETTERS
        .iter()
        .copied()
        .filter(|letter| acl.decide(client, *letter, None).allowed)
        .collect(alloc)?;
    Ok(letters)
}

/// The letters that the client has for operations without a target, and all without an access list.
#[tactic(auto, unfolding(crate::specs::Access::privileges))]
pub(crate) fn privileges(alloc: Global, asked: &Asked) -> Result<Blob, MemoryOut>
    ensures { IfOk result (λ letters. letters ≡ privileges (call_in asked.now)) }
{
    match asked.acl {
        Some(acl) => {
            let letters = granted(alloc, acl, asked.client)?;
            Ok(Blob::from_vec(letters))
        }
        None => Blob::from_bytes(alloc, LETTERS),
    }
}
