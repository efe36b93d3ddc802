//! Laws of files of cells. They do no work.

ghost use Rattle.std.specs.Prelude.{◌≡◌, ℕ, List, true, Ok};
ghost use Rattle.policy_rules.specs.Names.{is_policy_name};
ghost use Rattle.princ_name.specs.Printed.{IsPrinted};
ghost use Rattle.kdb_base.specs.Limits.{most_rows};
ghost use Rattle.kdb_cells.specs.Cells.{Cell, name_of, IsStored};
ghost use Rattle.kdb_cells.specs.Sheets.{Sheet, sheet_in, put_cell, same_key};
ghost use Rattle.kdb_cells.specs.FileCells.{MayStand, with_cell};
ghost use Rattle.kdb_cells.specs.declared.units.StoredRow.{StoredRow};

/// No policy has a principal's printed name, so that one index of keys serves both kinds of rows.
pub fn kinds_share_no_key()
    ensures names { (name : List ℕ) → IsPrinted name → is_policy_name name ≡ true → ⊥ }
    ensures rows { (format : ℕ) (r s : StoredRow) → IsStored format r → IsStored format s → name_of r ≡ name_of s
        → same_key r s ≡ true }
{}

/// Where one unit is written, the file holds the other cells as before.
pub fn one_cell_is_put()
    ensures { (format unit : ℕ) (c : Cell) (file : List ℕ) (sheet : Sheet)
        → sheet_in format file ≡ Ok sheet → MayStand format unit c sheet.cells
        → sheet_in format (put_cell format unit c file) ≡ Ok (with_cell unit c sheet) }
{}
