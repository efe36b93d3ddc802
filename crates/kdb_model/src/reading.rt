//! What commands that make no change answer.

ghost use Rattle.std.specs.Prelude.{◌≡◌, IfOk, Option, Some, false, filter, map, option_map, true};
ghost use Rattle.kadm_values.specs.Globs.{matches};
ghost use Rattle.kdb_model.specs.Asking.{call_in, reads_princ, state_in};
ghost use Rattle.kdb_model.specs.Refusals.{target as needed_target};
ghost use Rattle.kdb_model.specs.Steps.{is_special, key_shown, names_in, policy_shown, reading, reading_of, shown_of};
ghost use Rattle.plain_keys.specs.Keys.{extract_of, extracts, has_kvno};
ghost use Rattle.kdb_plain.specs.Lists.{princ_names};
ghost use Rattle.kdb_plain.specs.States.{policy_named};
ghost use Rattle.kdb_plain.specs.declared.princs.PlainPrinc.{PlainPrinc};
ghost use Rattle.princ_rows.specs.Rows.{policy_keys};

use crate::access::privileges;
use crate::asked::{Asked, secs_of};
use crate::heads::copy_policy;
use crate::masters::{master_rows, purge_rows};
use kadm_commands::{Command, KeyShown, KeysShown, NameList, PrincShown, Reply};
use kadm_values::glob_matches;
use kdb_base::{Blob, Extract, ExtractList, MemoryOut, Refusal, Salt};
use kdb_plain::{PlainPrinc, PlainPrincs, PolicyList, copy_princ, policy_named};
use plain_keys::{PlainItem, newest_kvno};
use policy_rules::Policy;
use princ_record::copy_policy as kept_policy;
use std::alloc::Global;

fn is_special(salt: &Salt) -> bool
    ensures { result ≡ is_special salt.now }
{
    match salt {
        Salt::Normal => false,
        Salt::Special(_) => true,
    }
}

fn key_shown(item: &PlainItem) -> KeyShown
    ensures { result ≡ key_shown item.now }
{
    KeyShown {
        kvno: item.kvno,
        etype: item.key.etype(),
        special: is_special(&item.salt),
    }
}

fn keys_shown(alloc: Global, items: &[PlainItem]) -> Result<KeysShown, MemoryOut>
    ensures { IfOk result (λ keys. keys ≡ map key_shown items.now) }
{
    let mut keys = Vec::with_capacity(alloc, items.len())?;
    for item in items {
        keys.push(key_shown(item))?;
    }
    Ok(KeysShown::from_vec(keys))
}

/// `getprinc`.
#[tactic(auto, unfolding(crate::specs::Steps::shown_of))]
fn shown_of(alloc: Global, princ: &PlainPrinc) -> Result<PrincShown, MemoryOut>
    ensures { IfOk result (λ shown. shown ≡ shown_of princ.now) }
{
    let name = Blob::from_bytes(alloc, princ.name.as_slice())?;
    let modifier = Blob::from_bytes(alloc, princ.modifier.as_slice())?;
    let policy = copy_policy(alloc, &princ.policy)?;
    let keys = keys_shown(alloc, princ.keys.as_slice())?;
    Ok(PrincShown {
        name,
        expire: princ.expire,
        pw_expire: princ.pw_expire,
        pw_changed: princ.pw_changed,
        max_life: princ.max_life,
        max_renew: princ.max_renew,
        modified: princ.modified,
        modifier,
        mkvno: princ.mkvno,
        attributes: princ.attributes,
        policy,
        keys,
    })
}

fn extract_of(item: &PlainItem) -> Extract
    ensures { result ≡ extract_of item.now }
{
    Extract {
        kvno: item.kvno,
        key: item.key,
    }
}

/// The keys of a version, for a keytab.
fn extracts_of(alloc: Global, kvno: u16, items: &[PlainItem]) -> Result<Vec<Extract>, MemoryOut>
    ensures { IfOk result (λ list. list.items ≡ map extract_of (filter (has_kvno kvno) items.now)) }
{
    let list = items
        .iter()
        .filter(|item| item.kvno == kvno)
        .map(|item| extract_of(item))
        .collect(alloc)?;
    Ok(list)
}

/// `extract`: the keys of the greatest version.
#[tactic(auto, unfolding(plain_keys::specs::Keys::extracts))]
fn extracts(alloc: Global, items: &[PlainItem]) -> Result<ExtractList, MemoryOut>
    ensures { IfOk result (λ list. list ≡ extracts items.now) }
{
    let list = extracts_of(alloc, newest_kvno(items), items)?;
    Ok(ExtractList::from_vec(list))
}

/// The names of principals, in their order.
fn princ_names(alloc: Global, princs: &[PlainPrinc]) -> Result<Vec<Blob>, MemoryOut>
    ensures { IfOk result (λ names. names.items ≡ princ_names princs.now) }
{
    let mut names = Vec::with_capacity(alloc, princs.len())?;
    for princ in princs {
        let name = Blob::from_bytes(alloc, princ.name.as_slice())?;
        names.push(name)?;
    }
    Ok(names)
}

/// The names that a glob matches.
fn matching(glob: &Blob, names: Vec<Blob>) -> Vec<Blob>
    ensures { result.items ≡ filter (matches glob.now) names.items }
{
    let mut left = names;
    left.retain(|name| glob_matches(glob.as_slice(), name.as_slice()));
    left
}

/// The names that a glob matches, all without one.
#[tactic(auto, unfolding(crate::specs::Steps::names_in))]
fn names_in(glob: &Option<Blob>, names: Vec<Blob>) -> Vec<Blob>
    ensures { result.items ≡ names_in glob.now names.items }
{
    match glob {
        Some(glob) => matching(glob, names),
        None => names,
    }
}

/// `listprincs`.
fn princs_listed(
    alloc: Global,
    princs: &PlainPrincs,
    glob: &Option<Blob>,
) -> Result<NameList, MemoryOut>
    ensures { IfOk result (λ names. names ≡ names_in glob.now (princ_names princs.now)) }
{
    let all = princ_names(alloc, princs.as_slice())?;
    let found = names_in(glob, all);
    Ok(NameList::from_vec(found))
}

/// The names of policies, in their order.
fn policy_keys(alloc: Global, policies: &[Policy]) -> Result<Vec<Blob>, MemoryOut>
    ensures { IfOk result (λ names. names.items ≡ policy_keys policies.now) }
{
    let mut names = Vec::with_capacity(alloc, policies.len())?;
    for policy in policies {
        let name = Blob::from_bytes(alloc, policy.name())?;
        names.push(name)?;
    }
    Ok(names)
}

/// `listpols`.
fn policies_listed(alloc: Global, policies: &PolicyList) -> Result<NameList, MemoryOut>
    ensures { IfOk result (λ names. names ≡ policy_keys policies.now) }
{
    let names = policy_keys(alloc, policies.as_slice())?;
    Ok(NameList::from_vec(names))
}

/// `getpol`.
fn policy_shown(alloc: Global, policies: &PolicyList, name: &[u8]) -> Result<Reply, MemoryOut>
    ensures { IfOk result (λ r. r ≡ policy_shown (policy_named name.now policies.now)) }
{
    match policy_named(policies, name) {
        Some(policy) => {
            let policy = kept_policy(alloc, policy)?;
            Ok(Reply::PolicyShown(policy))
        }
        None => Ok(Reply::Refused(Refusal::UnknownPolicy)),
    }
}

/// What is told of the principal that a command needs.
#[tactic(auto, unfolding(crate::specs::Steps::reading_of))]
fn princ_reading(alloc: Global, asked: &Asked, princ: &PlainPrinc) -> Result<Reply, MemoryOut>
    ensures { reads_princ asked.now.command.now ≡ true → IfOk result
        (λ r. r ≡ reading_of (state_in asked.now) (call_in asked.now) asked.now.command.now (Some princ.now)) }
{
    match asked.command {
        Command::GetPrinc(_) => {
            let shown = shown_of(alloc, princ)?;
            Ok(Reply::Shown(shown))
        }
        Command::GetStrings(_) => {
            let was = copy_princ(alloc, princ)?;
            Ok(Reply::Strings(was.strings))
        }
        Command::Extract(_) => {
            let keys = extracts(alloc, princ.keys.as_slice())?;
            Ok(Reply::Extracted(keys))
        }
        _ => Ok(Reply::Refused(Refusal::UnknownPrincipal)),
    }
}

/// What is told of the state.
#[tactic(auto, unfolding(crate::specs::Steps::reading_of))]
fn state_reading(alloc: Global, asked: &Asked) -> Result<Reply, MemoryOut>
    ensures { (found : Option PlainPrinc) → reads_princ asked.now.command.now ≡ false
        → IfOk result (λ r. r ≡ reading_of (state_in asked.now) (call_in asked.now) asked.now.command.now found) }
{
    let state = asked.state;
    match asked.command {
        Command::ListPrincs(glob) => {
            let names = princs_listed(alloc, &state.princs, glob)?;
            Ok(Reply::Listed(names))
        }
        Command::GetPolicy(name) => policy_shown(alloc, &state.policies, name.as_slice()),
        Command::ListPolicies => {
            let names = policies_listed(alloc, &state.policies)?;
            Ok(Reply::Listed(names))
        }
        Command::GetPrivs => {
            let letters = privileges(alloc, asked)?;
            Ok(Reply::Privileges(letters))
        }
        Command::ListMasters => {
            let rows = master_rows(alloc, state, secs_of(asked))?;
            Ok(Reply::MastersListed(rows))
        }
        Command::PurgeMasters => {
            let rows = purge_rows(alloc, state, secs_of(asked))?;
            Ok(Reply::MastersPurged(None, rows))
        }
        Command::Stash => Ok(Reply::Stashed),
        _ => Ok(Reply::Refused(Refusal::UnknownPrincipal)),
    }
}

fn reads_princ(command: &Command) -> bool
    ensures { result ≡ reads_princ command.now }
{
    matches!(
        command,
        Command::GetPrinc(_) | Command::GetStrings(_) | Command::Extract(_)
    )
}

/// The answer to a command that makes no change.
#[tactic(auto, unfolding(crate::specs::Steps::reading_of))]
pub(crate) fn reading(
    alloc: Global,
    asked: &Asked,
    target: Option<&PlainPrinc>,
) -> Result<Reply, MemoryOut>
    requires { option_map (λ q. q.now) target ≡ needed_target (state_in asked.now) asked.now.command.now }
    ensures { IfOk result (λ r. r ≡ reading (state_in asked.now) (call_in asked.now)) }
{
    if !reads_princ(asked.command) {
        return state_reading(alloc, asked);
    }
    match target {
        Some(princ) => princ_reading(alloc, asked, princ),
        None => Ok(Reply::Refused(Refusal::UnknownPrincipal)),
    }
}
