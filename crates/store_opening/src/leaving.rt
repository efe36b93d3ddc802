//! What the last entry of a log leaves in its unit, with the memory that it wants.
ghost use Rattle.std.specs.Prelude.{◌≡◌, ◌≤◌, ℕ, Some, None, IfOk};
ghost use Rattle.princ_rows.specs.Entries.{IsOp};
ghost use Rattle.princ_record.specs.Policies.{IsPolicy};
ghost use Rattle.princ_record.specs.RowLimits.{IsRow};
ghost use Rattle.kdb_cells.specs.Cells.{IsCell, IsRowOf};
ghost use Rattle.kdb_cells.specs.Changes.{cell_after};
ghost use Rattle.kdb_cells.specs.declared.units.StoredRow.TheVariants as stored;
ghost use Rattle.store_files.specs.Found.{left_by};
ghost use Rattle.store_opening.specs.Looking.{IsLeft};

use crate::unit_writes::UnitWrite;
use kdb_base::{Blob, MemoryOut};
use kdb_cells::units::{POLICY, PRINC};
use policy_rules::Policy;
use princ_record::Princ;
use princ_record::policies::encode_policy;
use princ_record::princs::encode;
use princ_rows::{Entry, Op};
use std::alloc::Global;

// A principal's row for the unit of this number.
#[tactic(auto, unfolding(kdb_cells::specs::Cells::row_text))]
fn princ_write(alloc: Global, cell: u32, princ: &Princ) -> Result<UnitWrite, MemoryOut>
    requires row { IsRow princ.now }
    requires some { 1 ≤ cell }
    ensures { (format : ℕ) → IsRowOf format princ.now
        → IfOk result (λ w. IsLeft format cell (Some (stored.Princ princ.now)) w) }
{
    let row = encode(alloc, princ)?;
    let key = Blob::from_bytes(alloc, princ.name.as_slice())?;
    Ok(UnitWrite::Put(cell, key, row, PRINC))
}

// A policy's row for the unit of this number.
#[tactic(auto, unfolding(kdb_cells::specs::Cells::row_text))]
fn policy_write(alloc: Global, cell: u32, policy: &Policy) -> Result<UnitWrite, MemoryOut>
    requires row { IsPolicy policy.now }
    requires some { 1 ≤ cell }
    ensures { (format : ℕ) → IfOk result (λ w. IsLeft format cell (Some (stored.Policy policy.now)) w) }
{
    let row = encode_policy(alloc, policy)?;
    let key = Blob::from_bytes(alloc, policy.name())?;
    Ok(UnitWrite::Put(cell, key, row, POLICY))
}

// What the change leaves in the unit of this number.
fn op_write(alloc: Global, cell: u32, op: &Op) -> Result<UnitWrite, MemoryOut>
    requires op { IsOp (Some op.now) }
    requires some { 1 ≤ cell }
    ensures { (format : ℕ) → IsCell format (cell_after op.now)
        → IfOk result (λ w. IsLeft format cell (cell_after op.now) w) }
{
    match op {
        Op::PutPrinc(princ) => princ_write(alloc, cell, princ),
        Op::Rename(_, princ) => princ_write(alloc, cell, princ),
        Op::PutPolicy(policy) => policy_write(alloc, cell, policy),
        Op::DropPrinc(_) => Ok(UnitWrite::Free(cell)),
        Op::DropPolicy(_) => Ok(UnitWrite::Free(cell)),
    }
}

/// What the entry leaves in the unit of this number, or nothing where the number is 0.
pub(crate) fn left_write(alloc: Global, entry: &Entry, cell: u32) -> Result<UnitWrite, MemoryOut>
    requires op { IsOp entry.now.op }
    requires none { cell ≡ 0 → left_by entry.now.op ≡ None }
    ensures { (format : ℕ) → IsCell format (left_by entry.now.op)
        → IfOk result (λ w. IsLeft format cell (left_by entry.now.op) w) }
{
    if cell == 0 {
        return Ok(UnitWrite::Nothing);
    }
    match &entry.op {
        Some(op) => op_write(alloc, cell, op),
        None => Ok(UnitWrite::Free(cell)),
    }
}
