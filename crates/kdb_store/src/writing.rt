//! What a change writes into its unit: planned with the memory that it needs, and written.
ghost use Rattle.std.specs.Prelude.{◌≡◌, ◌≢◌, ◌≤◌, ◌*◌, List, ℕ, Some, None, IfOk, length};
ghost use Rattle.princ_rows.specs.Entries.{IsOp, key_of};
ghost use Rattle.princ_record.specs.RowLimits.{IsRow};
ghost use Rattle.princ_record.specs.Policies.{IsPolicy};
ghost use Rattle.kdb_cells.specs.CellFiles.{units};
ghost use Rattle.kdb_cells.specs.Cells.{IsRowText};
ghost use Rattle.kdb_cells.specs.Changes.{cell_after};
ghost use Rattle.kdb_cells.specs.Leads.{giving};
ghost use Rattle.kdb_cells.specs.Sheets.{last_unit};
ghost use Rattle.kdb_cells.specs.declared.units.StoredRow.TheVariants as stored;
ghost use Rattle.princ_rows.specs.declared.entries.Op.TheVariants as op;
ghost use Rattle.store_files.specs.Standing.{IsGivenFor};
ghost use Rattle.kdb_store.specs.Writes.{number_of, Writes, IsGivenTo, HasNoRow};
ghost use Rattle.kdb_store.specs.Parts.{LeadsAlike};

use kdb_base::{Blob, MemoryOut};
use kdb_cells::Cells;
use kdb_cells::units::{POLICY, PRINC};
use policy_rules::Policy;
use princ_record::Princ;
use princ_record::policies::encode_policy;
use princ_record::princs::encode;
use princ_rows::{Op, Rows};
use std::alloc::Global;
use store_opening::UnitWrite;

// The unit for the row of this key.
fn place(cells: &mut Cells, key: &[u8]) -> Result<u32, MemoryOut>
    ensures given { IfOk result (λ cell. IsGivenFor key.now cell (units cells.old)) }
    ensures ready { IfOk result (λ cell. (units cells.new).placed ≡ Some cell) }
    ensures near { IfOk result (λ cell. cell ≤ last_unit) }
    ensures alike { LeadsAlike cells.old cells.new }
{
    cells.place(key)
}

// Puts a principal's row into the unit for the row of this key.
#[tactic(auto, unfolding(kdb_cells::specs::Cells::row_text))]
fn put_princ(
    alloc: Global,
    cells: &mut Cells,
    at: &[u8],
    princ: &Princ,
) -> Result<UnitWrite, MemoryOut>
    requires { IsRow princ.now }
    ensures writes { IfOk result (λ w. Writes w (Some (stored.Princ princ.now))) }
    ensures given { IfOk result (λ w. IsGivenFor at.now (number_of w) (units cells.old)) }
    ensures ready { IfOk result (λ w. IsGivenTo w cells.new) }
    ensures near { IfOk result (λ w. number_of w ≤ last_unit) }
    ensures alike { LeadsAlike cells.old cells.new }
{
    let row = encode(alloc, princ)?;
    let key = Blob::from_bytes(alloc, princ.name.as_slice())?;
    let cell = place(cells, at)?;
    Ok(UnitWrite::Put(cell, key, row, PRINC))
}

// Puts a policy's row into its unit.
#[tactic(auto, unfolding(kdb_cells::specs::Cells::row_text))]
fn put_policy(alloc: Global, cells: &mut Cells, policy: &Policy) -> Result<UnitWrite, MemoryOut>
    requires { IsPolicy policy.now }
    ensures writes { IfOk result (λ w. Writes w (Some (stored.Policy policy.now))) }
    ensures given { IfOk result (λ w. IsGivenFor policy.now.name (number_of w) (units cells.old)) }
    ensures ready { IfOk result (λ w. IsGivenTo w cells.new) }
    ensures near { IfOk result (λ w. number_of w ≤ last_unit) }
    ensures alike { LeadsAlike cells.old cells.new }
{
    let row = encode_policy(alloc, policy)?;
    let key = Blob::from_bytes(alloc, policy.name())?;
    let cell = place(cells, policy.name())?;
    Ok(UnitWrite::Put(cell, key, row, POLICY))
}

// Frees the unit of the row of this key.
fn take_out(cells: &mut Cells, key: &[u8]) -> Result<UnitWrite, MemoryOut>
    ensures writes { IfOk result (λ w. Writes w None) }
    ensures given { IfOk result (λ w. IsGivenFor key.now (number_of w) (units cells.old)) }
    ensures ready { IfOk result (λ w. IsGivenTo w cells.new) }
    ensures near { IfOk result (λ w. number_of w ≤ last_unit) }
    ensures alike { LeadsAlike cells.old cells.new }
{
    let cell = place(cells, key)?;
    Ok(UnitWrite::Free(cell))
}

// Takes the principal of this name out of its unit, where there is one.
fn drop_princ(cells: &mut Cells, rows: &Rows, name: &[u8]) -> Result<UnitWrite, MemoryOut>
    ensures writes { IfOk result (λ w. Writes w None) }
    ensures given { IfOk result (λ w. number_of w ≢ 0 → IsGivenFor name.now (number_of w) (units cells.old)) }
    ensures none { IfOk result (λ w. number_of w ≡ 0 → HasNoRow (op.DropPrinc name.now) rows.now) }
    ensures only { IfOk result (λ w. HasNoRow (op.DropPrinc name.now) rows.now → number_of w ≡ 0) }
    ensures ready { IfOk result (λ w. IsGivenTo w cells.new) }
    ensures near { IfOk result (λ w. number_of w ≤ last_unit) }
    ensures alike { LeadsAlike cells.old cells.new }
{
    match rows.princ(name) {
        Some(_) => take_out(cells, name),
        None => Ok(UnitWrite::Nothing),
    }
}

// Takes the policy of this name out of its unit, where there is one.
fn drop_policy(cells: &mut Cells, rows: &Rows, name: &[u8]) -> Result<UnitWrite, MemoryOut>
    ensures writes { IfOk result (λ w. Writes w None) }
    ensures given { IfOk result (λ w. number_of w ≢ 0 → IsGivenFor name.now (number_of w) (units cells.old)) }
    ensures none { IfOk result (λ w. number_of w ≡ 0 → HasNoRow (op.DropPolicy name.now) rows.now) }
    ensures only { IfOk result (λ w. HasNoRow (op.DropPolicy name.now) rows.now → number_of w ≡ 0) }
    ensures ready { IfOk result (λ w. IsGivenTo w cells.new) }
    ensures near { IfOk result (λ w. number_of w ≤ last_unit) }
    ensures alike { LeadsAlike cells.old cells.new }
{
    match rows.policy(name) {
        Some(_) => take_out(cells, name),
        None => Ok(UnitWrite::Nothing),
    }
}

/// What the change writes, with the memory that the write needs.
#[tactic(auto, unfolding(princ_rows::specs::Entries::key_of))]
pub(crate) fn plan(
    alloc: Global,
    cells: &mut Cells,
    rows: &Rows,
    op: &Op,
) -> Result<UnitWrite, MemoryOut>
    requires op { IsOp (Some op.now) }
    ensures writes { IfOk result (λ w. Writes w (cell_after op.now)) }
    ensures given { IfOk result
        (λ w. number_of w ≢ 0 → IsGivenFor (key_of (Some op.now)) (number_of w) (units cells.old)) }
    ensures none { IfOk result (λ w. number_of w ≡ 0 → HasNoRow op.now rows.now) }
    ensures only { IfOk result (λ w. HasNoRow op.now rows.now → number_of w ≡ 0) }
    ensures ready { IfOk result (λ w. IsGivenTo w cells.new) }
    ensures near { IfOk result (λ w. number_of w ≤ last_unit) }
    ensures alike { LeadsAlike cells.old cells.new }
{
    match op {
        Op::PutPrinc(princ) => put_princ(alloc, cells, princ.name.as_slice(), princ),
        Op::DropPrinc(name) => drop_princ(cells, rows, name.as_slice()),
        Op::Rename(old, princ) => put_princ(alloc, cells, old.as_slice(), princ),
        Op::PutPolicy(policy) => put_policy(alloc, cells, policy),
        Op::DropPolicy(name) => drop_policy(cells, rows, name.as_slice()),
    }
}
