//! The report of policies.

ghost use Rattle.std.specs.Prelude.{◌≡◌, ◌++◌, OnOk};
ghost use Rattle.std.specs.List.{flat_map};
ghost use Rattle.tab_reports.specs.Noting.{AreCounted};
ghost use Rattle.tab_reports.specs.Policies.{policies_header, policies_text, policy_line};
ghost use Rattle.tab_reports.specs.Policies.{rules_front, rules_line, rules_rest};

use crate::counting::users_of_each;
use kadm_replies::texts::push;
use kdb_base::MemoryOut;
use policy_rules::Policy;
use princ_rows::Rows;
use std::alloc::Global;

/// The name and the lives of passwords.
#[tactic(auto, unfolding(crate::specs::Policies::rules_front))]
fn push_front(alloc: Global, out: &mut Vec<u8>, policy: &Policy) -> Result<(), MemoryOut>
    ensures { OnOk result (out.new.items ≡ out.old.items ++ rules_front policy.now) }
{
    let max_life = policy.max_life();
    let min_life = policy.min_life();
    let text = format!(in alloc; "\t{max_life}\t{min_life}\t")?;
    push(out, policy.name())?;
    push(out, text.as_bytes())?;
    Ok(())
}

/// What the policy asks of passwords, and how many principals name it.
#[tactic(auto, unfolding(crate::specs::Policies::rules_rest))]
fn push_rest(alloc: Global, out: &mut Vec<u8>, users: u32, policy: &Policy) -> Result<(), MemoryOut>
    ensures { OnOk result (out.new.items ≡ out.old.items ++ rules_rest users policy.now) }
{
    let min_length = policy.min_length();
    let min_classes = policy.min_classes();
    let history = policy.history();
    let text = format!(in alloc; "{min_length}\t{min_classes}\t{history}\t{users}\n")?;
    push(out, text.as_bytes())?;
    Ok(())
}

/// A policy that so many principals name.
fn push_policy(
    alloc: Global,
    out: &mut Vec<u8>,
    users: u32,
    policy: &Policy,
) -> Result<(), MemoryOut>
    ensures { OnOk result (out.new.items ≡ out.old.items ++ rules_line users policy.now) }
{
    push_front(alloc, out, policy)?;
    push_rest(alloc, out, users, policy)
}

/// A line for each policy, with the count that stands beside it.
#[tactic(auto, using(crate::proofs::Noted::counted_bound))]
fn push_counted(
    alloc: Global,
    out: &mut Vec<u8>,
    rows: &Rows,
    users: &[u32],
) -> Result<(), MemoryOut>
    requires { AreCounted users.now rows.now.policies rows.now.princs }
    ensures { OnOk result (out.new.items ≡ out.old.items ++ flat_map (policy_line rows.now.princs) rows.now.policies) }
{
    let policies = rows.policies();
    for (at, row) in policies.iter().enumerate() {
        push_policy(alloc, out, users[at], row.get())?;
    }
    Ok(())
}

#[tactic(auto, unfolding(crate::specs::Policies::policies_header))]
fn policies_header() -> &'static [u8]
    ensures { result.now ≡ policies_header }
{
    b"name\tmaxlife\tminlife\tminlength\tminclasses\thistory\tprincipals\n"
}

/// A header, and a line for each policy.
#[tactic(auto, unfolding(crate::specs::Policies::policies_text))]
pub(crate) fn push_policies(alloc: Global, out: &mut Vec<u8>, rows: &Rows) -> Result<(), MemoryOut>
    ensures { OnOk result (out.new.items ≡ out.old.items ++ policies_text rows.now.princs rows.now.policies) }
{
    push(out, policies_header())?;
    let users = users_of_each(alloc, rows)?;
    push_counted(alloc, out, rows, &users)?;
    Ok(())
}
