//! Policies that are not there.

ghost use Rattle.std.specs.Prelude.{◌≡◌};
ghost use Rattle.princ_plans.specs.Policies.{lacks, lacks_named, missing_policy};

use command_plans::causes::when;
use kadm_commands::PolicyChoice;
use kdb_base::{Blob, Refusal};
use princ_rows::Rows;
use row_keys::has_policy_row;

fn lacks(rows: &Rows, policy: &Option<Blob>) -> bool
    ensures { result ≡ lacks rows.now.policies policy.now }
{
    match policy {
        Some(name) => !has_policy_row(rows, name.as_slice()),
        None => false,
    }
}

fn lacks_named(rows: &Rows, choice: &Option<PolicyChoice>) -> bool
    ensures { result ≡ lacks_named rows.now.policies choice.now }
{
    match choice {
        Some(PolicyChoice::Named(name)) => !has_policy_row(rows, name.as_slice()),
        Some(PolicyChoice::Cleared) => false,
        None => false,
    }
}

/// The policy that a line names is not there, or the one that the principal comes to have.
pub(crate) fn missing_policy(
    rows: &Rows,
    choice: &Option<PolicyChoice>,
    policy: &Option<Blob>,
) -> Option<Refusal>
    ensures { result ≡ missing_policy rows.now.policies choice.now policy.now }
{
    when(
        lacks_named(rows, choice) || lacks(rows, policy),
        Refusal::UnknownPolicy,
    )
}
