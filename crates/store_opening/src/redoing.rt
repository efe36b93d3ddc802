//! The last entry of a log done again: whether what it leaves may stand in its unit, and the rows that
//! there then are.
ghost use Rattle.std.specs.Prelude.{◌≡◌, ◌++◌, ◌∷◌, [], ℕ, List, Option, true, false, IfOk, OnOk};
ghost use Rattle.kdb_cells.specs.Cells.{Cell, IsCell};
ghost use Rattle.kdb_cells.specs.CellFiles.{units, count};
ghost use Rattle.kdb_cells.specs.Changes.{cell_after, rows_of};
ghost use Rattle.kdb_cells.specs.Scanning.{princ_in, policy_in, princs_of, policies_of, AreApart};
ghost use Rattle.store_files.specs.Found.{left_by, with_unit, is_placed as is_placed_in};
ghost use Rattle.store_opening.specs.Redoing.{AreUnits, IsHeld, MayJoin, MayHold};

use cell_files::rows_from;
use kdb_base::MemoryOut;
use kdb_base::limits::MAX_ROWS;
use kdb_cells::Cells;
use policy_rules::Policy;
use princ_record::{Princ, copy, copy_policy};
use princ_rows::{Boxed, Op, Rows, push_boxed};
use std::alloc::Global;

// Whether there is a unit for the row of this key, which no other row has.
fn has_place(cells: &Cells, unit: Option<u32>, key: &[u8]) -> bool
    ensures yes { result ≡ true → IsHeld unit key.now (units cells.now) (count cells.now) }
    ensures no { result ≡ false → IsHeld unit key.now (units cells.now) (count cells.now) → ⊥ }
{
    match unit {
        Some(_) => !cells.holds(key) && cells.len() < MAX_ROWS,
        None => false,
    }
}

// Whether what the change leaves may stand in its unit.
fn may_stand(cells: &Cells, unit: Option<u32>, op: &Op) -> bool
    ensures { (format : ℕ) (all : List Cell) → AreUnits format cells.now all → IsCell format (cell_after op.now)
        → result ≡ is_placed_in unit (cell_after op.now) all }
{
    match op {
        Op::PutPrinc(princ) => has_place(cells, unit, princ.name.as_slice()),
        Op::Rename(_, princ) => has_place(cells, unit, princ.name.as_slice()),
        Op::PutPolicy(policy) => has_place(cells, unit, policy.name()),
        Op::DropPrinc(_) => true,
        Op::DropPolicy(_) => true,
    }
}

/// Whether what the last entry leaves may stand in its unit, beside the cells of the other units: a row
/// has a unit, its key is that of no other row, and there are not too many.
pub fn is_placed(cells: &Cells, unit: Option<u32>, op: &Option<Op>) -> bool
    ensures { (format : ℕ) (all : List Cell) → AreUnits format cells.now all → IsCell format (left_by op.now)
        → result ≡ is_placed_in unit (left_by op.now) all }
{
    match op {
        Some(op) => may_stand(cells, unit, op),
        None => true,
    }
}

// Puts a copy of the row that the change leaves behind those of its kind.
fn push_left(
    alloc: Global,
    op: &Op,
    princs: &mut Vec<Boxed<Princ>>,
    policies: &mut Vec<Boxed<Policy>>,
) -> Result<(), MemoryOut>
    ensures princs { OnOk result (princs.new.items ≡ princs.old.items ++ princ_in (cell_after op.now)) }
    ensures policies { OnOk result (policies.new.items ≡ policies.old.items ++ policy_in (cell_after op.now)) }
{
    match op {
        Op::PutPrinc(princ) => push_princ(alloc, princ, princs),
        Op::Rename(_, princ) => push_princ(alloc, princ, princs),
        Op::PutPolicy(policy) => push_policy(alloc, policy, policies),
        Op::DropPrinc(_) => Ok(()),
        Op::DropPolicy(_) => Ok(()),
    }
}

// Puts a copy of the principal behind all others.
fn push_princ(alloc: Global, princ: &Princ, princs: &mut Vec<Boxed<Princ>>) -> Result<(), MemoryOut>
    ensures { OnOk result (princs.new.items ≡ princs.old.items ++ (princ.now ∷ [])) }
{
    let copied = copy(alloc, princ)?;
    push_boxed(princs, copied)
}

// Puts a copy of the policy behind all others.
fn push_policy(
    alloc: Global,
    policy: &Policy,
    policies: &mut Vec<Boxed<Policy>>,
) -> Result<(), MemoryOut>
    ensures { OnOk result (policies.new.items ≡ policies.old.items ++ (policy.now ∷ [])) }
{
    let copied = copy_policy(alloc, policy)?;
    push_boxed(policies, copied)
}

// Puts a copy of the row that the last entry leaves behind those of its kind.
fn add_left(
    alloc: Global,
    op: &Option<Op>,
    princs: &mut Vec<Boxed<Princ>>,
    policies: &mut Vec<Boxed<Policy>>,
) -> Result<(), MemoryOut>
    ensures princs { OnOk result (princs.new.items ≡ princs.old.items ++ princ_in (left_by op.now)) }
    ensures policies { OnOk result (policies.new.items ≡ policies.old.items ++ policy_in (left_by op.now)) }
{
    match op {
        Some(op) => push_left(alloc, op, princs, policies),
        None => Ok(()),
    }
}

/// The rows of a file of cells with what the last entry leaves in its unit. The records are those that
/// were read while the unit was passed over, in any order; they are sorted once.
pub fn rows_after(
    alloc: Global,
    op: &Option<Op>,
    princs: Vec<Boxed<Princ>>,
    policies: Vec<Boxed<Policy>>,
) -> Result<Rows, MemoryOut>
    requires apart { AreApart princs.items policies.items }
    requires joins { MayJoin (left_by op.now) princs.items policies.items }
    ensures { (unit : Option ℕ) (all : List Cell)
        → MayHold unit (left_by op.now) all → princs.items ≡ princs_of all → policies.items ≡ policies_of all
        → IfOk result (λ rows. rows ≡ rows_of (with_unit unit (left_by op.now) all)) }
{
    let mut princs = princs;
    let mut policies = policies;
    add_left(alloc, op, &mut princs, &mut policies)?;
    Ok(rows_from(princs, policies))
}
