//! Names and privileges, listed.

ghost use Rattle.std.specs.Prelude.{◌≡◌, IfOk, None, codes, filter, option_map};
ghost use Rattle.acl_text.specs.Decisions.{decision};
ghost use Rattle.kadm_commands.specs.declared.commands.Command.TheVariants as command;
ghost use Rattle.command_plans.specs.Given.{IsJudged};
ghost use Rattle.kadm_values.specs.Globs.{matches};
ghost use Rattle.kdb_model.specs.Access.{privileges_by};
ghost use Rattle.kdb_model.specs.Steps.{names_in};
ghost use Rattle.princ_rows.specs.Rows.{policy_keys, princ_keys};

use crate::causes::denial;
use crate::given::Given;
use crate::planned::Planned;
use acl_text::Acl;
use kadm_commands::{NameList, Reply};
use kadm_values::glob_matches;
use kdb_base::{Blob, MemoryOut, Refusal};
use policy_rules::Policy;
use princ_name::Name;
use princ_record::Princ;
use princ_rows::Boxed;
use std::alloc::Global;

/// The letters of operations, in the order in which they are told.
const LETTERS: &[u8; 9] = b"admcilspe";

/// The names of principals, in their order.
fn princ_keys(alloc: Global, princs: &[Boxed<Princ>]) -> Result<Vec<Blob>, MemoryOut>
    ensures { IfOk result (λ names. names.items ≡ princ_keys princs.now) }
{
    let mut names = Vec::with_capacity(alloc, princs.len())?;
    for princ in princs {
        let name = Blob::from_bytes(alloc, princ.get().name.as_slice())?;
        names.push(name)?;
    }
    Ok(names)
}

/// The names that a glob matches.
fn matching(glob: &Blob, names: Vec<Blob>) -> Vec<Blob>
    ensures { result.items ≡ filter (matches glob.now) names.items }
{
    let mut left = names;
    left.retain(|name| glob_matches(glob.as_slice(), name.as_slice()));
    left
}

/// The names that a glob matches, all without one.
#[tactic(auto, unfolding(kdb_model::specs::Steps::names_in))]
fn names_in(glob: &Option<Blob>, names: Vec<Blob>) -> Vec<Blob>
    ensures { result.items ≡ names_in glob.now names.items }
{
    match glob {
        Some(glob) => matching(glob, names),
        None => names,
    }
}

/// The names of principals that a glob matches.
fn list_princs(alloc: Global, given: &Given, glob: &Option<Blob>) -> Result<NameList, MemoryOut>
    ensures { IfOk result (λ names. names ≡ names_in glob.now (princ_keys given.now.rows.now.princs)) }
{
    let all = princ_keys(alloc, given.rows.princs())?;
    let found = names_in(glob, all);
    Ok(NameList::from_vec(found))
}

/// `listprincs`.
pub fn plan_list(
    alloc: Global,
    given: &Given,
    glob: &Option<Blob>,
) -> Result<Result<Planned, Refusal>, MemoryOut>
    ensures { IfOk result (λ plan. IsJudged given.now (command.ListPrincs glob.now) plan) }
{
    match denial(given, b'l', None) {
        Some(why) => Ok(Err(why)),
        None => {
            let names = list_princs(alloc, given, glob)?;
            Ok(Ok(Planned::Answer(Reply::Listed(names))))
        }
    }
}

/// The names of policies, in their order.
fn policy_keys(alloc: Global, policies: &[Boxed<Policy>]) -> Result<Vec<Blob>, MemoryOut>
    ensures { IfOk result (λ names. names.items ≡ policy_keys policies.now) }
{
    let mut names = Vec::with_capacity(alloc, policies.len())?;
    for policy in policies {
        let name = Blob::from_bytes(alloc, policy.get().name())?;
        names.push(name)?;
    }
    Ok(names)
}

/// The names of all policies.
fn list_policies(alloc: Global, given: &Given) -> Result<NameList, MemoryOut>
    ensures { IfOk result (λ names. names ≡ policy_keys given.now.rows.now.policies) }
{
    let names = policy_keys(alloc, given.rows.policies())?;
    Ok(NameList::from_vec(names))
}

/// `listpols`.
pub fn plan_list_policies(
    alloc: Global,
    given: &Given,
) -> Result<Result<Planned, Refusal>, MemoryOut>
    ensures { IfOk result (λ plan. IsJudged given.now command.ListPolicies plan) }
{
    match denial(given, b'l', None) {
        Some(why) => Ok(Err(why)),
        None => {
            let names = list_policies(alloc, given)?;
            Ok(Ok(Planned::Answer(Reply::Listed(names))))
        }
    }
}

/// The letters that a client has for operations without a target.
fn granted(alloc: Global, acl: &Acl, client: &Name) -> Result<Vec<u8>, MemoryOut>
    ensures { IfOk result (λ letters.
        letters.items ≡ filter (λ letter. (decision acl.now client.now letter None).allowed) (codes "admcilspe")) }
{
    let letters = LETTERS
        .iter()
        .copied()
        .filter(|letter| acl.decide(client, *letter, None).allowed)
        .collect(alloc)?;
    Ok(letters)
}

/// The letters that the client has for operations without a target, and all without an access list.
fn privileges(alloc: Global, given: &Given) -> Result<Blob, MemoryOut>
    ensures { IfOk result
        (λ letters. letters ≡ privileges_by given.now.client.now (option_map (λ acl. acl.now) given.now.acl)) }
{
    match given.acl {
        Some(acl) => {
            let letters = granted(alloc, acl, given.client)?;
            Ok(Blob::from_vec(letters))
        }
        None => Blob::from_bytes(alloc, LETTERS),
    }
}

/// `getprivs`.
pub fn plan_privileges(alloc: Global, given: &Given) -> Result<Result<Planned, Refusal>, MemoryOut>
    ensures { IfOk result (λ plan. IsJudged given.now command.GetPrivs plan) }
{
    let letters = privileges(alloc, given)?;
    Ok(Ok(Planned::Answer(Reply::Privileges(letters))))
}
