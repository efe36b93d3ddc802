//! The bytes of rows, as their units have them.
ghost use Rattle.std.specs.Prelude.{◌≡◌, IfOk};
ghost use Rattle.princ_record.specs.Policies.{IsPolicy};
ghost use Rattle.princ_record.specs.RowLimits.{IsRow};
ghost use Rattle.kdb_cells.specs.Cells.{kind_of, row_text, name_of};
ghost use Rattle.kdb_cells.specs.declared.units.StoredRow.{StoredRow as Stored};
ghost use Rattle.kdb_cells.specs.declared.units.StoredRow.TheVariants as variants;

use kdb_base::{Blob, MemoryOut};
use kdb_cells::units::{POLICY, PRINC};
use policy_rules::Policy;
use princ_record::{Princ, encode, encode_policy};
use std::alloc::Global;

/// A row's kind and its bytes.
#[derive(Drop)]
pub(crate) struct RowText {
    pub(crate) kind: u8,
    pub(crate) row: Blob,
}

/// A record that has a unit in a file of cells.
pub(crate) trait UnitRow {
    // The record has a spelling.
    ghost fits: { Self → Type 0 };

    // The row that it is.
    ghost row_of: { Self → Stored };

    /// The key that leads to the unit.
    fn unit_key(&self) -> &[u8]
        ensures { result.now ≡ name_of (row_of self.now) };

    /// The row's bytes.
    fn text(&self, alloc: Global) -> Result<RowText, MemoryOut>
        requires { fits self.now }
        ensures kind { IfOk result (λ t. t.kind ≡ kind_of (row_of self.now)) }
        ensures row { IfOk result (λ t. t.row ≡ row_text (row_of self.now)) };
}

impl UnitRow for Princ {
    ghost fits = { IsRow };

    ghost row_of = { λ p. variants.Princ p };

    fn unit_key(&self) -> &[u8] {
        self.name.as_slice()
    }

    #[tactic(auto, unfolding(kdb_cells::specs::Cells::row_text))]
    fn text(&self, alloc: Global) -> Result<RowText, MemoryOut> {
        let row = encode(alloc, self)?;
        Ok(RowText { kind: PRINC, row })
    }
}

impl UnitRow for Policy {
    ghost fits = { IsPolicy };

    ghost row_of = { λ p. variants.Policy p };

    fn unit_key(&self) -> &[u8] {
        self.name()
    }

    #[tactic(auto, unfolding(kdb_cells::specs::Cells::row_text))]
    fn text(&self, alloc: Global) -> Result<RowText, MemoryOut> {
        let row = encode_policy(alloc, self)?;
        Ok(RowText { kind: POLICY, row })
    }
}
