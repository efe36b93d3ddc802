//! Copies of rows. Only want of memory can refuse one.

ghost use Rattle.std.specs.Prelude.{◌≡◌, IfOk};

use kdb_base::MemoryOut;
use policy_rules::Policy;
use princ_record::{Princ, copy, copy_policy};
use princ_rows::{Boxed, Rows, push_boxed};
use std::alloc::Global;

fn copy_princs(alloc: Global, princs: &[Boxed<Princ>]) -> Result<Vec<Boxed<Princ>>, MemoryOut>
    ensures { IfOk result (λ v. v.items ≡ princs.now) }
{
    let mut out = Vec::with_capacity(alloc, princs.len())?;
    for princ in princs {
        let princ = copy(alloc, princ.get())?;
        push_boxed(&mut out, princ)?;
    }
    Ok(out)
}

fn copy_policies(alloc: Global, policies: &[Boxed<Policy>]) -> Result<Vec<Boxed<Policy>>, MemoryOut>
    ensures { IfOk result (λ v. v.items ≡ policies.now) }
{
    let mut out = Vec::with_capacity(alloc, policies.len())?;
    for policy in policies {
        let policy = copy_policy(alloc, policy.get())?;
        push_boxed(&mut out, policy)?;
    }
    Ok(out)
}

/// The same rows. They are in order as the others are, so that they are never refused.
pub fn copy_rows(alloc: Global, rows: &Rows) -> Result<Rows, MemoryOut>
    ensures { IfOk result (λ r. r ≡ rows.now) }
{
    let princs = copy_princs(alloc, rows.princs())?;
    let policies = copy_policies(alloc, rows.policies())?;
    Rows::from_vecs(princs, policies).ok_or(MemoryOut)
}
