//! What is found among rows by name, and how many records there are of a kind.

ghost use Rattle.std.specs.Prelude.{◌≡◌, ◌≤◌, option_map};
ghost use Rattle.kdb_base.specs.Limits.{most_rows};
ghost use Rattle.kdb_plain.specs.States.{has_policy, policy_named};
ghost use Rattle.row_keys.specs.Lookups.{is_protected, names_policy, record_named, records_under, records_with_policy};

use kdb_plain::is_master_name;
use policy_rules::Policy;
use princ_record::Princ;
use princ_rows::Rows;

/// The record of this printed name.
#[tactic(auto, unfolding(crate::specs::Lookups::record_named))]
pub fn record_named<'a>(rows: &'a Rows, name: &[u8]) -> Option<&'a Princ>
    ensures { option_map (λ p. p.now) result ≡ record_named name.now rows.now.princs }
{
    let _ = rows.princs();
    rows.princ(name)
}

/// The policy of this name.
#[tactic(auto, unfolding(kdb_plain::specs::States::policy_named))]
pub fn policy_row<'a>(rows: &'a Rows, name: &[u8]) -> Option<&'a Policy>
    ensures { option_map (λ p. p.now) result ≡ policy_named name.now rows.now.policies }
{
    let _ = rows.policies();
    rows.policy(name)
}

/// Whether there is a policy of this name.
pub fn has_policy_row(rows: &Rows, name: &[u8]) -> bool
    ensures { result ≡ has_policy name.now rows.now.policies }
{
    policy_row(rows, name).is_some()
}

fn names_policy(princ: &Princ, name: &[u8]) -> bool
    ensures { result ≡ names_policy name.now princ.now }
{
    match &princ.policy {
        Some(policy) => policy.as_slice() == name,
        None => false,
    }
}

/// How many records name this policy.
#[tactic(auto, unfolding(crate::specs::Lookups::records_with_policy))]
pub fn records_with_policy(rows: &Rows, name: &[u8]) -> usize
    ensures count { result ≡ records_with_policy name.now rows.now.princs }
    ensures few { result ≤ most_rows }
{
    rows.princs()
        .iter()
        .filter(|row| names_policy(row.get(), name))
        .count()
}

fn is_protected(realm: &[u8], version: u16, princ: &Princ) -> bool
    ensures { result ≡ is_protected realm.now version princ.now }
{
    princ.mkvno == version && !is_master_name(realm, princ.name.as_slice())
}

/// How many records of other principals than K/M a version of the master key protects, in rows of this realm.
#[tactic(auto, unfolding(crate::specs::Lookups::records_under))]
pub fn records_under(rows: &Rows, realm: &[u8], version: u16) -> u32
    ensures count { result ≡ records_under realm.now rows.now.princs version }
    ensures few { result ≤ most_rows }
{
    rows.princs()
        .iter()
        .filter(|row| is_protected(realm, version, row.get()))
        .count() as u32
}
