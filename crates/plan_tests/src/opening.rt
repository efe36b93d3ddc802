//! The plain state that the rows of a creation show, with whatever policies they have.

ghost use Rattle.std.specs.Prelude.{◌≡◌, IfOk};
ghost use Rattle.kdb_plain.specs.declared.states.State.{State as PlainState};
ghost use Rattle.plan_tests.specs.Opened.{AreActivations, AreAlone, IsAlone};
ghost use Rattle.princ_name.specs.Realms.{IsRealm};
ghost use Rattle.row_keys.specs.Sound.{ShowsValid, judged};

use kdb_base::{Activations, Blob, Masters, Point, Time};
use kdb_plain::{PlainPrinc, PlainPrincs, PolicyList, State, master_name, master_of};
use master_keys::MasterKey;
use policy_rules::Policy;
use princ_record::{Princ, copy_policy};
use princ_rows::{Boxed, Rows};
use row_keys::{open_princ, record_named};
use std::alloc::Global;
use std::test::Fail;

/// The second of the creation, and of every line where no other is told, 2023-11-14T22:13:20Z.
pub(crate) const SECS: u32 = 1_700_000_000;

/// The principal of a record that remembers no keys.
#[tactic(auto, using(crate::proofs::Alone::opened_alone))]
fn opened(alloc: Global, masters: &Masters, princ: &Princ) -> Result<PlainPrinc, Fail>
    ensures { IfOk result (λ q. IsAlone masters.now princ.now q) }
{
    let [] = princ.old.as_slice() else {
        return Err(Fail::from("no remembered keys"));
    };
    let Some(key) = master_of(masters, princ.mkvno) else {
        return Err(Fail::from("a master key"));
    };
    let master = MasterKey::new(&key);
    match open_princ(alloc, &master, &master, princ) {
        Ok(plain) => Ok(plain),
        Err(_) => Err(Fail::from("keys that open")),
    }
}

/// The principals of a creation: K/M, kadmin/history and krbtgt.
fn opened_all(alloc: Global, rows: &Rows, masters: &Masters) -> Result<PlainPrincs, Fail>
    ensures { IfOk result (λ plain. AreAlone masters.now rows.now.princs plain) }
{
    let [first, second, third] = rows.princs() else {
        return Err(Fail::from("three records"));
    };
    let first = opened(alloc, masters, first.get())?;
    let second = opened(alloc, masters, second.get())?;
    let third = opened(alloc, masters, third.get())?;
    let princs = vec![in alloc; first, second, third]?;
    match PlainPrincs::from_vec(princs) {
        Some(princs) => Ok(princs),
        None => Err(Fail::from("the order of names")),
    }
}

/// The activations of the master keys.
#[tactic(auto, using(crate::proofs::Alone::activations_alone))]
fn activations(alloc: Global, rows: &Rows, realm: &[u8]) -> Result<Activations, Fail>
    ensures { IfOk result (λ a. AreActivations realm.now rows.now.princs a) }
{
    let name = master_name(alloc, realm)?;
    let Some(entry) = record_named(rows, name.as_slice()) else {
        return Err(Fail::from("K/M"));
    };
    let Some(part) = &entry.chain else {
        return Err(Fail::from("a chain"));
    };
    let items = part.activations.as_slice().to_vec(alloc)?;
    Ok(Activations::from_vec(items))
}

fn copied(alloc: Global, policies: &[Boxed<Policy>]) -> Result<Vec<Policy>, Fail>
    ensures { IfOk result (λ v. v.items ≡ policies.now) }
{
    let mut out = Vec::with_capacity(alloc, policies.len())?;
    for policy in policies {
        let policy = copy_policy(alloc, policy.get())?;
        out.push(policy)?;
    }
    Ok(out)
}

/// The policies, as the rows have them.
fn policies(alloc: Global, rows: &Rows) -> Result<PolicyList, Fail>
    ensures { IfOk result (λ p. p ≡ rows.now.policies) }
{
    let policies = copied(alloc, rows.policies())?;
    match PolicyList::from_vec(policies) {
        Some(policies) => Ok(policies),
        None => Err(Fail::from("the order of policies")),
    }
}

/// The state that the rows of a creation show.
pub(crate) fn opened_state(
    alloc: Global,
    rows: &Rows,
    masters: &Masters,
    realm: &[u8],
) -> Result<State, Fail>
    ensures { (s : PlainState) → ShowsValid (judged masters.now realm.now 1700000000) rows.now
        (record { sno = 1; time = record { secs = 1700000000; usecs = 0 } }) s → IfOk result (λ t. t ≡ s) }
{
    let princs = opened_all(alloc, rows, masters)?;
    let activations = activations(alloc, rows, realm)?;
    let policies = policies(alloc, rows)?;
    let masters = masters.as_slice().to_vec(alloc)?;
    Ok(State {
        realm: Blob::from_bytes(alloc, realm)?,
        masters: Masters::from_vec(masters),
        activations,
        princs,
        policies,
        point: Point {
            sno: 1,
            time: Time::new(SECS, 0),
        },
    })
}
