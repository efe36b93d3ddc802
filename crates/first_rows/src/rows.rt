//! The rows of a creation.

ghost use Rattle.std.specs.Prelude.{◌≡◌, ◌+◌, ◌∷◌, ◌≤◌, [], drop, length, IfOk};
ghost use Rattle.kdb_plain.specs.States.{history_name};
ghost use Rattle.princ_record.specs.RowLimits.{IsRow};
ghost use Rattle.first_rows.specs.Creation.{behind_history, behind_master, first_rows, first_state};
ghost use Rattle.first_rows.specs.Creation.{first_wrapped, history_types, ticket_name, ticket_types};

use crate::create_spec::CreateSpec;
use crate::first_keys::{behind_master, master_key};
use crate::records::{history_record, master_record, ticket_record};
use kdb_base::{Masters, MemoryOut, PlainKey, Time};
use master_keys::MasterKey;
use princ_record::Princ;
use princ_rows::{Boxed, Rows, push_boxed};
use std::alloc::Global;

/// The bytes of the block that the key of kadmin/history takes.
const HISTORY_LEN: usize = 48;

/// What stands in the block behind the key of kadmin/history, where this stands behind the master key.
fn behind_key(random: &[u8]) -> &[u8]
    requires { 48 ≤ length random.now }
    ensures value { result.now ≡ drop 48 random.now }
    ensures long { length random.now ≤ length result.now + 48 }
{
    let (_, behind) = random.split_at(HISTORY_LEN);
    behind
}

/// The records of kadmin/history and of krbtgt.
#[tactic(auto, unfolding(crate::specs::Creation::behind_history))]
fn other_records(
    alloc: Global,
    spec: &CreateSpec,
    key: &PlainKey,
    secs: u32,
    random: &[u8],
) -> Result<(Princ, Princ), MemoryOut>
    requires { length random.now ≡ 2048 }
    ensures history { IfOk result (λ both. both.0 ≡ first_wrapped key.now spec.now.realm
        (history_name spec.now.realm) secs history_types (behind_master spec.now random.now)) }
    ensures ticket { IfOk result (λ both. both.1 ≡ first_wrapped key.now spec.now.realm
        (ticket_name spec.now.realm) secs ticket_types (behind_history spec.now random.now)) }
    ensures history_row { IfOk result (λ both. IsRow both.0) }
    ensures ticket_row { IfOk result (λ both. IsRow both.1) }
{
    let master = MasterKey::new(key);
    let behind = behind_master(spec, random);
    let history = history_record(alloc, spec, &master, secs, behind)?;
    let ticket = ticket_record(alloc, spec, &master, secs, behind_key(behind))?;
    Ok((history, ticket))
}

/// Three records, each behind a box.
fn boxed(
    alloc: Global,
    first: Princ,
    second: Princ,
    third: Princ,
) -> Result<Vec<Boxed<Princ>>, MemoryOut>
    ensures { IfOk result (λ v. v.items ≡ first ∷ second ∷ third ∷ []) }
{
    let mut records = Vec::new(alloc);
    push_boxed(&mut records, first)?;
    push_boxed(&mut records, second)?;
    push_boxed(&mut records, third)?;
    Ok(records)
}

/// The first rows of a database, created at this moment with the random bytes of this block: K/M, kadmin/history and
/// krbtgt of the realm, and the master keys, of which there is one. The master key is that of the password, or the
/// front of the block; every other key is a random one. No policy is made. The stash of the database has these
/// master keys.
///
/// # Errors
///
/// `MemoryOut` where memory is wanted and not given.
#[tactic(auto, unfolding(crate::specs::Creation::first_rows, crate::specs::Creation::first_records, crate::specs::Creation::first_state))]
pub fn first_rows(
    alloc: Global,
    spec: &CreateSpec,
    now: Time,
    random: &[u8; 2048],
) -> Result<(Rows, Masters), MemoryOut>
    ensures rows { IfOk result (λ both. both.0 ≡ first_rows spec.now now random.now) }
    ensures masters { IfOk result (λ both. both.1 ≡ (first_state spec.now now random.now).masters) }
{
    let block: &[u8] = random;
    let secs = now.secs();
    let key = master_key(alloc, spec, block)?;
    let (master, masters) = master_record(alloc, spec, &key, secs, block)?;
    let (history, ticket) = other_records(alloc, spec, &key, secs, block)?;
    let records = boxed(alloc, master, history, ticket)?;
    let rows = Rows::from_vecs(records, Vec::new(alloc)).unwrap();
    Ok((rows, masters))
}
