//! How many principals name each policy, counted in one pass over the principals, each of which finds its policy by a
//! binary search.

ghost use Rattle.std.specs.Prelude.{◌≡◌, ◌+◌, ◌<◌, ◌^◌, ℕ, Err, IfOk, IfSome, None, Ok, get_or, length, map, set};
ghost use Rattle.std.specs.List.{All};
ghost use Rattle.princ_rows.specs.Rows.{AreRows, IsAt, IsGap, policy_keys};
ghost use Rattle.tagged_data.specs.KeyOrder.{AreInOrder, key_cmp};
ghost use Rattle.policy_rules.specs.Rules.{Rules};
ghost use Rattle.tab_reports.specs.Noting.{AreCounted, IsNamed, IsNoted, NamesNone};

use kdb_base::MemoryOut;
use policy_rules::Policy;
use princ_record::Princ;
use princ_rows::{Boxed, Rows};
use std::alloc::Global;
use std::cmp::Ordering;

fn compare(policy: &Policy, name: &[u8]) -> Ordering
    ensures { result ≡ key_cmp policy.now.name name.now }
{
    policy.name().cmp(name)
}

/// Where the policy of a name is, or else where it would go.
fn place_of(policies: &[Boxed<Policy>], name: &[u8]) -> Result<usize, usize>
    requires { AreInOrder (policy_keys policies.now) }
    ensures found { (at : ℕ) → result ≡ Ok at → IsAt (λ (q : Rules). q.name) policies.now name.now at }
    ensures absent { (at : ℕ) → result ≡ Err at → IsGap (λ (q : Rules). q.name) policies.now name.now at }
{
    policies.binary_search_by(|row| compare(row.get(), name))
}

/// Where the policy is that the principal names.
fn place_named(policies: &[Boxed<Policy>], princ: &Princ) -> Option<usize>
    requires { AreInOrder (policy_keys policies.now) }
    ensures some { IfSome result (λ at. IsNamed princ.now policies.now at) }
    ensures none { result ≡ None → NamesNone princ.now policies.now }
{
    let Some(name) = &princ.policy else {
        return None;
    };
    match place_of(policies, name.as_slice()) {
        Ok(at) => Some(at),
        Err(_) => None,
    }
}

/// One more at this place.
fn add_one(users: &mut Vec<u32>, at: usize)
    requires bound { at < length users.old.items }
    requires few { All (λ count. count < 2 ^ 31) users.old.items }
    ensures { users.new.items ≡ set users.old.items at (get_or users.old.items at 0 + 1) }
{
    users[at] += 1;
}

/// One more beside the policy that the principal names.
#[tactic(auto, using(crate::proofs::Noted::noted_at, crate::proofs::Noted::noted_none, crate::proofs::Noted::named_bound))]
fn note(policies: &[Boxed<Policy>], princ: &Princ, users: &mut Vec<u32>)
    requires order { AreInOrder (policy_keys policies.now) }
    requires long { length users.old.items ≡ length policies.now }
    requires few { All (λ count. count < 2 ^ 31) users.old.items }
    ensures { IsNoted princ.now policies.now users.old.items users.new.items }
{
    match place_named(policies, princ) {
        Some(at) => add_one(users, at),
        None => {}
    }
}

/// As many zeros as there are policies.
fn zeros(alloc: Global, policies: &[Boxed<Policy>]) -> Result<Vec<u32>, MemoryOut>
    ensures { IfOk result (λ v. v.items ≡ map (λ _. 0) policies.now) }
{
    let mut users = Vec::with_capacity(alloc, policies.len())?;
    for _ in policies {
        users.push(0)?;
    }
    Ok(users)
}

/// How many principals name each policy, in the order of the policies.
pub fn users_of_each(alloc: Global, rows: &Rows) -> Result<Vec<u32>, MemoryOut>
    ensures { IfOk result (λ users. AreCounted users.items rows.now.policies rows.now.princs) }
{
    let policies = rows.policies();
    let mut users = zeros(alloc, policies)?;
    for row in rows.princs() {
        note(policies, row.get(), &mut users);
    }
    Ok(users)
}
