//! Causes that many commands share, each by itself, and the first of them.

ghost use Rattle.std.specs.Prelude.{◌≡◌, ◌+◌, ◌&&◌, ◌∷◌, [], ℕ, List, None, Some, Ok, Err, false};
ghost use Rattle.std.specs.Prelude.{is_none, is_some, length, nat_le, nat_lt, option_map};
ghost use Rattle.std.specs.List.{list_any};
ghost use Rattle.kdb_base.specs.Limits.{most_rows};
ghost use Rattle.kdb_base.specs.declared.outcomes.Refusal.{Refusal};
ghost use Rattle.kdb_model.specs.Access.{denied_in};
ghost use Rattle.kdb_model.specs.Fields.{has_bit, lockdown_keys};
ghost use Rattle.kdb_model.specs.Refusals.{first, is_protected, when};
ghost use Rattle.command_plans.specs.Causes.{denial_of, denial_unless, is_locked_record};
ghost use Rattle.princ_name.specs.Names.{NameParts, printed};
ghost use Rattle.princ_rows.specs.Rows.{AreRows};
ghost use Rattle.row_keys.specs.Lookups.{record_named, records_with_policy};

use crate::given::Given;
use acl_text::Acl;
use kdb_base::Refusal;
use kdb_base::limits::MAX_ROWS;
use kdb_plain::{is_history_name, is_master_name};
use princ_name::Name;
use princ_record::Princ;
use row_keys::{record_named, records_with_policy};

/// The keys may be taken and set by nobody over a connection.
pub const LOCKDOWN_KEYS: u32 = 0x800000;

pub fn when(holds: bool, refusal: Refusal) -> Option<Refusal>
    ensures { result ≡ when holds refusal }
{
    if holds { Some(refusal) } else { None }
}

/// The first cause that holds.
#[tactic(auto, unfolding(kdb_model::specs::Refusals::first))]
pub fn first(causes: &[Option<Refusal>]) -> Option<Refusal>
    ensures { result ≡ first causes.now }
{
    for cause in causes {
        if cause.is_some() {
            return *cause;
        }
    }
    None
}

pub fn has_bit(bit: u32, attributes: u32) -> bool
    ensures { result ≡ has_bit bit attributes }
{
    attributes & bit == bit
}

/// The refusal of one operation by an access list, where it is not allowed, or where `plainly` is set and the line has
/// restrictions.
#[tactic(auto, unfolding(kdb_model::specs::Access::denied_in))]
pub fn denied_in(
    acl: &Acl,
    client: &Name,
    letter: u8,
    target: Option<&Name>,
    plainly: bool,
) -> Option<Refusal>
    ensures { result ≡ denied_in acl.now client.now
        (record { letter = letter; target = option_map (λ t. t.now) target.entry; plainly = plainly } ∷ []) }
{
    let verdict = acl.decide(client, letter, target);
    if verdict.allowed && !(plainly && verdict.limits.is_some()) {
        None
    } else {
        Some(Refusal::Denied { line: verdict.line })
    }
}

/// The refusal of one operation, where an access list does not allow it.
pub fn denial(given: &Given, letter: u8, target: Option<&Name>) -> Option<Refusal>
    ensures { result ≡ denial_of (option_map (λ acl. acl.now) given.now.acl) given.now.client.now
        (record { letter = letter; target = option_map (λ t. t.now) target.entry; plainly = false } ∷ []) }
{
    match given.acl {
        Some(acl) => denied_in(acl, given.client, letter, target, false),
        None => None,
    }
}

/// The refusal of an operation on a principal that everybody has on the own one.
pub fn own_denial(given: &Given, own: bool, letter: u8, name: &Name) -> Option<Refusal>
    ensures { result ≡ denial_unless own (option_map (λ acl. acl.now) given.now.acl) given.now.client.now
        (record { letter = letter; target = Some name.now; plainly = false } ∷ []) }
{
    match given.acl {
        Some(acl) => {
            if own {
                return None;
            }
            denied_in(acl, given.client, letter, Some(name), false)
        }
        None => None,
    }
}

/// A change or an extraction is of a principal with the database's own keys.
#[tactic(auto, unfolding(kdb_model::specs::Refusals::is_protected))]
pub fn protection(given: &Given, text: &[u8]) -> Option<Refusal>
    ensures { (name : NameParts) → text.now ≡ printed name
        → result ≡ when (list_any (is_protected given.now.realm.now) (name ∷ [])) Refusal.Protected }
{
    let own = is_master_name(given.realm, text) || is_history_name(given.realm, text);
    when(own, Refusal::Protected)
}

/// The record of this printed name.
pub fn found<'a>(given: &Given<'a>, text: &[u8]) -> Option<&'a Princ>
    ensures found { option_map (λ p. p.now) result ≡ record_named text.now given.now.rows.now.princs }
    ensures rows { AreRows given.now.rows.now }
{
    let _ = given.rows.princs();
    record_named(given.rows, text)
}

/// What is found, where there is no cause before that it is missing.
#[tactic(auto, unfolding(kdb_model::specs::Refusals::first))]
pub fn present<T: Copy>(
    before: Option<Refusal>,
    found: Option<T>,
    missing: Refusal,
) -> Result<T, Refusal>
    ensures ok { (x : T) → result ≡ Ok x → (before ≡ None) × (found ≡ Some x) }
    ensures err { (why : Refusal) → result ≡ Err why → first (before ∷ when (is_none found) missing ∷ []) ≡ Some why }
{
    match before {
        Some(why) => Err(why),
        None => match found {
            Some(found) => Ok(found),
            None => Err(missing),
        },
    }
}

/// There are as many rows as there may be.
pub fn fullness(given: &Given) -> Option<Refusal>
    ensures { result ≡ when (nat_le most_rows (length given.now.rows.now.princs + length given.now.rows.now.policies))
        (Refusal.RowsFull most_rows) }
{
    let rows = given.rows.princs().len() + given.rows.policies().len();
    when(
        rows >= MAX_ROWS,
        Refusal::RowsFull {
            limit: MAX_ROWS as u32,
        },
    )
}

/// Principals name the policy.
pub fn use_of(given: &Given, policy: &[u8]) -> Option<Refusal>
    ensures { result ≡ when (nat_lt 0 (records_with_policy policy.now given.now.rows.now.princs))
        (Refusal.PolicyInUse (records_with_policy policy.now given.now.rows.now.princs)) }
{
    let count = records_with_policy(given.rows, policy) as u32;
    when(count > 0, Refusal::PolicyInUse { count })
}

/// The principal is not there.
pub fn absence(found: Option<&Princ>) -> Option<Refusal>
    ensures { result ≡ when (is_none (option_map (λ p. p.now) found.entry)) Refusal.UnknownPrincipal }
{
    when(found.is_none(), Refusal::UnknownPrincipal)
}

fn is_locked(found: Option<&Princ>) -> bool
    ensures { result ≡ is_locked_record (option_map (λ p. p.now) found.entry) }
{
    match found {
        Some(princ) => has_bit(LOCKDOWN_KEYS, princ.attributes),
        None => false,
    }
}

/// The keys of the principal are locked down, over a connection.
pub fn lockdown(given: &Given, found: Option<&Princ>) -> Option<Refusal>
    ensures { result ≡ when (is_some (option_map (λ acl. acl.now) given.now.acl)
        && is_locked_record (option_map (λ p. p.now) found.entry)) Refusal.LockedDown }
{
    when(given.acl.is_some() && is_locked(found), Refusal::LockedDown)
}
