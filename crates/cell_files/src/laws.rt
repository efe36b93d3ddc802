//! Laws of whole files of cells. They do no work.

ghost use Rattle.std.specs.Prelude.{◌≡◌, ℕ, List};
ghost use Rattle.princ_rows.specs.Rows.{RowLists, AreRows};
ghost use Rattle.kdb_cells.specs.Changes.{rows_of};
ghost use Rattle.cell_files.specs.NewFiles.{sheet_for};

/// The cells of a file that is written anew hold the rows that it was made of.
pub fn rows_are_kept()
    ensures { (realm : List ℕ) (r : RowLists) → AreRows r → rows_of (sheet_for realm r).cells ≡ r }
{}
