//! What is kept of the units of a file while they are read.
ghost use Rattle.std.specs.Prelude.{◌≡◌, ◌≢◌, ◌≤◌, ◌<◌, ◌+◌, ◌++◌, ◌^◌, ℕ, true, false, Some, None, Err, OnOk, IfOk};
ghost use Rattle.kdb_base.specs.Limits.{most_rows};
ghost use Rattle.kdb_format.specs.declared.faults.FormatFault.TheVariants.{Malformed as IsMalformed};
ghost use Rattle.kdb_cells.specs.Cells.{name_of};
ghost use Rattle.kdb_cells.specs.Indexes.{units, count};
ghost use Rattle.kdb_cells.specs.Leads.{no_units, more_led, more_free, more_given};
ghost use Rattle.kdb_cells.specs.Scanning.{princ_in, policy_in, IsRefused};
ghost use Rattle.kdb_cells.specs.Sheets.{last_unit};

use crate::index::UnitIndex;
use crate::units::StoredRow;
use kdb_base::limits::MAX_ROWS;
use kdb_base::{Blob, MemoryOut};
use kdb_format::FormatFault;
use policy_rules::Policy;
use princ_record::Princ;
use princ_rows::{Boxed, push_boxed};
use std::alloc::Global;

/// To which units keys lead, and the rows in the order of their units.
#[derive(Drop)]
pub(crate) struct Gathered {
    pub(crate) index: UnitIndex,
    pub(crate) princs: Vec<Boxed<Princ>>,
    pub(crate) policies: Vec<Boxed<Policy>>,
}

// The key of a row.
fn key_of(row: &StoredRow) -> &[u8]
    ensures { result.now ≡ name_of row.now }
{
    match row {
        StoredRow::Princ(princ) => princ.name.as_slice(),
        StoredRow::Policy(policy) => policy.name(),
    }
}

/// The first unit, in which no row stands.
pub(crate) fn gather_first(alloc: Global) -> Gathered
    ensures units { units result.index ≡ no_units }
    ensures count { count result.index ≡ 0 }
    ensures princs { result.princs.items ≡ princ_in None }
    ensures policies { result.policies.items ≡ policy_in None }
{
    Gathered {
        index: UnitIndex::new(alloc),
        princs: Vec::new(alloc),
        policies: Vec::new(alloc),
    }
}

// Whether the row may stand in the next unit, beside those that were read.
fn may_stand(index: &UnitIndex, key: &[u8]) -> bool
    ensures may { result ≡ true
        → (index.now.next ≤ last_unit) × ((count index.now < most_rows) × ((units index.now).of key.now ≡ None)) }
    ensures refused { result ≡ false → IsRefused (units index.now) (count index.now) key.now }
{
    if index.next() > u64::from(u32::MAX) {
        return false;
    }
    if index.len() >= MAX_ROWS {
        return false;
    }
    !index.holds(key)
}

// Puts the row behind the others of its kind.
fn push_row(
    princs: &mut Vec<Boxed<Princ>>,
    policies: &mut Vec<Boxed<Policy>>,
    row: StoredRow,
) -> Result<(), MemoryOut>
    ensures princs { OnOk result (princs.new.items ≡ princs.old.items ++ princ_in (Some row)) }
    ensures policies { OnOk result (policies.new.items ≡ policies.old.items ++ policy_in (Some row)) }
{
    match row {
        StoredRow::Princ(princ) => push_boxed(princs, princ),
        StoredRow::Policy(policy) => push_boxed(policies, policy),
    }
}

/// Adds the row of the next unit. Malformed where it may not stand there.
pub(crate) fn gather_row(
    alloc: Global,
    gathered: &mut Gathered,
    row: StoredRow,
) -> Result<(), FormatFault>
    requires other { (unit : ℕ) → gathered.old.index.placed ≡ Some unit → unit < gathered.old.index.next }
    ensures units { OnOk result (units gathered.new.index ≡ more_led (name_of row) (units gathered.old.index)) }
    ensures count { OnOk result (count gathered.new.index ≡ count gathered.old.index + 1) }
    ensures near { OnOk result (gathered.old.index.next ≤ last_unit) }
    ensures few { OnOk result (count gathered.old.index < most_rows) }
    ensures new { OnOk result ((units gathered.old.index).of (name_of row) ≡ None) }
    ensures princs { OnOk result (gathered.new.princs.items ≡ gathered.old.princs.items ++ princ_in (Some row)) }
    ensures policies { OnOk result (gathered.new.policies.items ≡ gathered.old.policies.items ++ policy_in (Some row)) }
    ensures refused { result ≡ Err IsMalformed
        → IsRefused (units gathered.old.index) (count gathered.old.index) (name_of row) }
{
    let key = Blob::from_bytes(alloc, key_of(&row))?;
    if !may_stand(&gathered.index, key.as_slice()) {
        return Err(FormatFault::Malformed);
    }
    gathered.index.add_led(key)?;
    push_row(&mut gathered.princs, &mut gathered.policies, row)?;
    Ok(())
}
