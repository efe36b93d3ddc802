//! What is found in a state by name and by version.

ghost use Rattle.std.specs.Prelude.{◌≡◌, ◌≤◌, IfOk, find, option_map};
ghost use Rattle.std.specs.Str.{bytes_eq};
ghost use Rattle.kdb_base.specs.Limits.{most_rows};
ghost use Rattle.master_keys.specs.First.{master_name};
ghost use Rattle.kdb_plain.specs.States.{first_key, has_policy, history_key, history_name, is_version};
ghost use Rattle.kdb_plain.specs.States.{master_of, policy_named, princ_named, users_of, uses};

use crate::lists::{PlainPrincs, PolicyList};
use crate::princs::PlainPrinc;
use crate::states::State;
use kdb_base::{Blob, Master, Masters, MemoryOut, PlainKey};
use plain_keys::PlainItem;
use policy_rules::Policy;
use princ_rows::sorted::find_row;
use std::alloc::Global;

/// The principal of this printed name.
#[tactic(auto, unfolding(crate::specs::States::princ_named))]
pub fn princ_named<'a>(princs: &'a PlainPrincs, name: &[u8]) -> Option<&'a PlainPrinc>
    ensures { option_map (λ q. q.now) result ≡ princ_named name.now princs.now }
{
    find_row(princs.as_slice(), name)
}

/// The policy of this name.
#[tactic(auto, unfolding(crate::specs::States::policy_named))]
pub fn policy_named<'a>(policies: &'a PolicyList, name: &[u8]) -> Option<&'a Policy>
    ensures { option_map (λ p. p.now) result ≡ policy_named name.now policies.now }
{
    find_row(policies.as_slice(), name)
}

/// Whether there is a policy of this name.
pub fn has_policy(policies: &PolicyList, name: &[u8]) -> bool
    ensures { result ≡ has_policy name.now policies.now }
{
    policy_named(policies, name).is_some()
}

fn uses(princ: &PlainPrinc, name: &[u8]) -> bool
    ensures { result ≡ uses name.now princ.now }
{
    match &princ.policy {
        Some(policy) => policy.as_slice() == name,
        None => false,
    }
}

/// How many principals name this policy.
#[tactic(auto, unfolding(crate::specs::States::users_of))]
pub fn users_of(princs: &PlainPrincs, name: &[u8]) -> usize
    ensures count { result ≡ users_of name.now princs.now }
    ensures few { result ≤ most_rows }
{
    princs
        .as_slice()
        .iter()
        .filter(|princ| uses(princ, name))
        .count()
}

fn master_named(masters: &[Master], version: u16) -> Option<Master>
    ensures { result ≡ find (is_version version) masters.now }
{
    masters
        .iter()
        .copied()
        .find(|master| master.version == version)
}

/// The master key of this version.
#[tactic(auto, unfolding(crate::specs::States::master_of))]
pub fn master_of(masters: &Masters, version: u16) -> Option<PlainKey>
    ensures { result ≡ master_of masters.now version }
{
    match master_named(masters.as_slice(), version) {
        Some(master) => Some(master.key),
        None => None,
    }
}

/// The first of the keys.
pub fn first_key(keys: &[PlainItem]) -> Option<PlainKey>
    ensures { result ≡ first_key keys.now }
{
    match keys {
        [] => None,
        [first, ..] => Some(first.key),
    }
}

/// Whether the printed name is that of K/M, whose keys are the master keys, in a database of this realm.
#[tactic(auto, unfolding(master_keys::specs::First::master_name))]
pub fn is_master_name(realm: &[u8], name: &[u8]) -> bool
    ensures { result ≡ bytes_eq name.now (master_name realm.now) }
{
    match name.strip_prefix(b"K/M@") {
        Some(rest) => rest == realm,
        None => false,
    }
}

/// Whether the printed name is that of kadmin/history, whose key protects remembered keys, in a database of this
/// realm.
#[tactic(auto, unfolding(crate::specs::States::history_name))]
pub fn is_history_name(realm: &[u8], name: &[u8]) -> bool
    ensures { result ≡ bytes_eq name.now (history_name realm.now) }
{
    match name.strip_prefix(b"kadmin/history@") {
        Some(rest) => rest == realm,
        None => false,
    }
}

/// The printed name of K/M in a database of this realm.
///
/// # Errors
///
/// `MemoryOut` where memory is wanted and not given.
#[tactic(auto, unfolding(master_keys::specs::First::master_name))]
pub fn master_name(alloc: Global, realm: &[u8]) -> Result<Blob, MemoryOut>
    ensures { IfOk result (λ name. name ≡ master_name realm.now) }
{
    let mut name = Vec::new(alloc);
    name.extend_from_slice(b"K/M@")?;
    name.extend_from_slice(realm)?;
    Ok(Blob::from_vec(name))
}

/// The printed name of the principal whose key protects remembered keys, in a database of this realm.
///
/// # Errors
///
/// `MemoryOut` where memory is wanted and not given.
#[tactic(auto, unfolding(crate::specs::States::history_name))]
pub fn history_name(alloc: Global, realm: &[u8]) -> Result<Blob, MemoryOut>
    ensures { IfOk result (λ name. name ≡ history_name realm.now) }
{
    let mut name = Vec::new(alloc);
    name.extend_from_slice(b"kadmin/history@")?;
    name.extend_from_slice(realm)?;
    Ok(Blob::from_vec(name))
}

/// The key that protects the remembered keys of a state: the first one of kadmin/history.
///
/// # Errors
///
/// `MemoryOut` where memory is wanted and not given.
#[tactic(auto, unfolding(crate::specs::States::history_key))]
pub fn history_key(alloc: Global, state: &State) -> Result<Option<PlainKey>, MemoryOut>
    ensures { IfOk result (λ key. key ≡ history_key state.now.realm state.now.princs) }
{
    let name = history_name(alloc, state.realm.as_slice())?;
    let key = match princ_named(&state.princs, name.as_slice()) {
        Some(princ) => first_key(princ.keys.as_slice()),
        None => None,
    };
    Ok(key)
}
