//! Copies of plain principals and of states.

ghost use Rattle.std.specs.Prelude.{◌≡◌, IfOk};
ghost use Rattle.kdb_plain.specs.Lists.{ArePolicies, ArePrincs};

use crate::lists::{PlainPrincs, PolicyList};
use crate::princs::PlainPrinc;
use crate::states::State;
use kdb_base::{Blob, Masters, MemoryOut};
use plain_keys::{PlainItems, PlainSets};
use policy_rules::Policy;
use princ_record::copy_policy;
use std::alloc::Global;
use tagged_data::{Copied, copy_all};

pub(crate) fn copy_name(alloc: Global, name: &Option<Blob>) -> Result<Option<Blob>, MemoryOut>
    ensures { IfOk result (λ x. x ≡ name.now) }
{
    match name {
        Some(name) => {
            let name = name.copied(alloc)?;
            Ok(Some(name))
        }
        None => Ok(None),
    }
}

impl Copied for PlainPrinc {
    fn copied(&self, alloc: Global) -> Result<PlainPrinc, MemoryOut> {
        copy_princ(alloc, self)
    }
}

/// The same principal. Only want of memory can refuse it.
pub fn copy_princ(alloc: Global, value: &PlainPrinc) -> Result<PlainPrinc, MemoryOut>
    ensures { IfOk result (λ q. q ≡ value.now) }
{
    let name = value.name.copied(alloc)?;
    let modifier = value.modifier.copied(alloc)?;
    let keys = copy_all(alloc, value.keys.as_slice())?;
    let policy = copy_name(alloc, &value.policy)?;
    let old = copy_all(alloc, value.old.as_slice())?;
    let strings = value.strings.copied(alloc)?;
    Ok(PlainPrinc {
        name,
        attributes: value.attributes,
        max_life: value.max_life,
        max_renew: value.max_renew,
        expire: value.expire,
        pw_expire: value.pw_expire,
        pw_changed: value.pw_changed,
        modified: value.modified,
        modifier,
        mkvno: value.mkvno,
        keys: PlainItems::from_vec(keys),
        policy,
        old: PlainSets::from_vec(old),
        strings,
    })
}

fn copy_princs(alloc: Global, princs: &PlainPrincs) -> Result<PlainPrincs, MemoryOut>
    ensures { IfOk result (λ x. x ≡ princs.now) }
{
    let items = copy_all(alloc, princs.as_slice())?;
    Ok(PlainPrincs::of_vec(items))
}

fn copy_items(alloc: Global, policies: &[Policy]) -> Result<Vec<Policy>, MemoryOut>
    ensures { IfOk result (λ v. v.items ≡ policies.now) }
{
    let mut out = Vec::with_capacity(alloc, policies.len())?;
    for policy in policies {
        let policy = copy_policy(alloc, policy)?;
        out.push(policy)?;
    }
    Ok(out)
}

fn copy_policies(alloc: Global, policies: &PolicyList) -> Result<PolicyList, MemoryOut>
    ensures { IfOk result (λ x. x ≡ policies.now) }
{
    let items = copy_items(alloc, policies.as_slice())?;
    Ok(PolicyList::of_vec(items))
}

fn copy_masters(alloc: Global, masters: &Masters) -> Result<Masters, MemoryOut>
    ensures { IfOk result (λ x. x ≡ masters.now) }
{
    let items = masters.as_slice().to_vec(alloc)?;
    Ok(Masters::from_vec(items))
}

/// The same state. Only want of memory can refuse it.
pub fn copy_state(alloc: Global, state: &State) -> Result<State, MemoryOut>
    ensures { IfOk result (λ s. s ≡ state.now) }
{
    let realm = state.realm.copied(alloc)?;
    let masters = copy_masters(alloc, &state.masters)?;
    let activations = state.activations.copied(alloc)?;
    let princs = copy_princs(alloc, &state.princs)?;
    let policies = copy_policies(alloc, &state.policies)?;
    Ok(State {
        realm,
        masters,
        activations,
        princs,
        policies,
        point: state.point,
    })
}
