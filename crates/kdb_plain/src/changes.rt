//! Changes of a state.

ghost use Rattle.std.specs.Prelude.{◌≡◌, ◌+◌, ◌≤◌, IfOk, length};
ghost use Rattle.kdb_base.specs.Limits.{most_rows};
ghost use Rattle.princ_rows.specs.Effects.{drop_by, put_by};
ghost use Rattle.kdb_plain.specs.Changes.{HasRoom, effect_on, name_of, policy_name};

use crate::lists::{PlainPrincs, PolicyList};
use crate::princs::PlainPrinc;
use crate::states::State;
use kdb_base::{Activations, Blob, Masters, MemoryOut};
use policy_rules::Policy;
use princ_rows::sorted::{drop_row, put_row};

/// What a command changes. It does not print itself: what it would print are keys.
#[derive(Drop)]
pub enum PlainOp {
    PutPrinc(PlainPrinc),
    DropPrinc(Blob),
    /// The principal of this name goes, and the other stands in its place.
    Rename(Blob, PlainPrinc),
    PutPolicy(Policy),
    DropPolicy(Blob),
    /// K/M, the master keys that it keeps, and their activations.
    PutMasters(PlainPrinc, Masters, Activations),
}

/// Puts the principal in its place, or in that of the one with its name.
///
/// # Errors
///
/// `MemoryOut` where memory is wanted and not given.
#[tactic(auto, using(crate::proofs::ChangedLists::princs_with))]
fn put_princ(princs: PlainPrincs, princ: PlainPrinc) -> Result<PlainPrincs, MemoryOut>
    requires { length (put_by name_of princ princs) ≤ most_rows }
    ensures { IfOk result (λ p. p ≡ put_by name_of princ princs) }
{
    let mut items = princs.into_vec();
    put_row(&mut items, princ)?;
    Ok(PlainPrincs::of_vec(items))
}

/// Takes the principal of the name away, where it is there.
fn drop_princ(princs: PlainPrincs, name: &[u8]) -> PlainPrincs
    ensures { result ≡ drop_by name_of name.now princs }
{
    let mut items = princs.into_vec();
    drop_row(&mut items, name);
    PlainPrincs::of_vec(items)
}

#[tactic(auto, using(crate::proofs::ChangedLists::policies_with))]
fn put_policy(policies: PolicyList, policy: Policy) -> Result<PolicyList, MemoryOut>
    requires { length (put_by policy_name policy policies) ≤ most_rows }
    ensures { IfOk result (λ p. p ≡ put_by policy_name policy policies) }
{
    let mut items = policies.into_vec();
    put_row(&mut items, policy)?;
    Ok(PolicyList::of_vec(items))
}

fn drop_policy(policies: PolicyList, name: &[u8]) -> PolicyList
    ensures { result ≡ drop_by policy_name name.now policies }
{
    let mut items = policies.into_vec();
    drop_row(&mut items, name);
    PolicyList::of_vec(items)
}

/// The state behind a change, without a copy. There is room for what it adds.
///
/// # Errors
///
/// `MemoryOut` where memory is wanted and not given.
#[tactic(auto, unfolding(crate::specs::Changes::effect_on))]
pub fn apply(mut state: State, op: PlainOp) -> Result<State, MemoryOut>
    requires { HasRoom (effect_on op state) }
    ensures { IfOk result (λ s. s ≡ effect_on op state) }
{
    match op {
        PlainOp::PutPrinc(princ) => {
            state.princs = put_princ(state.princs, princ)?;
        }
        PlainOp::DropPrinc(name) => {
            state.princs = drop_princ(state.princs, name.as_slice());
        }
        PlainOp::Rename(old, princ) => {
            let left = drop_princ(state.princs, old.as_slice());
            state.princs = put_princ(left, princ)?;
        }
        PlainOp::PutPolicy(policy) => {
            state.policies = put_policy(state.policies, policy)?;
        }
        PlainOp::DropPolicy(name) => {
            state.policies = drop_policy(state.policies, name.as_slice());
        }
        PlainOp::PutMasters(princ, masters, activations) => {
            state.princs = put_princ(state.princs, princ)?;
            state.masters = masters;
            state.activations = activations;
        }
    }
    Ok(state)
}
