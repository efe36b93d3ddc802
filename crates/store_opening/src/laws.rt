//! Laws of an opening. They do no work.

ghost use Rattle.std.specs.Prelude.{◌≡◌, ◌*◌, ℕ, List, Option, Some, Ok};
ghost use Rattle.kdb_disk.specs.Files.{Files, written};
ghost use Rattle.kdb_disk.specs.View.{Torn};
ghost use Rattle.kdb_control.specs.Choice.{Choice};
ghost use Rattle.princ_rows.specs.declared.entries.Logged.{Logged};
ghost use Rattle.kdb_cells.specs.Cells.{unit_size, unit_text};
ghost use Rattle.kdb_cells.specs.FileCells.{MayStand};
ghost use Rattle.kdb_cells.specs.Sheets.{Sheet};
ghost use Rattle.store_files.specs.Found.{unit_changed, left_by, found_in};
ghost use Rattle.store_files.specs.Standing.{HasFiles, StandsOnDisk};
ghost use Rattle.store_opening.specs.Redoing.{IsLookedAt, found_again};

/// An opening does the last entry again. What the files hold with its unit passed over tells what is found;
/// wherever a crash tears the unit, the same is found; and once the unit is written, all stands.
pub fn the_last_entry_is_done_again()
    ensures found { (choice : Choice) (held : List Logged) (last : Logged)
        (sheet : Sheet) (stash : Option (List ℕ)) (a : Files) → IsLookedAt choice held last sheet stash a
        → found_in a ≡ Ok (found_again choice held last sheet stash) }
    ensures torn { (choice : Choice) (held : List Logged) (last : Logged) (sheet : Sheet) (stash : Option (List ℕ))
        (i : ℕ) (a c : Files) → HasFiles choice → unit_changed last ≡ Some i → IsLookedAt choice held last sheet stash a
        → Torn choice.image (i * unit_size choice.format) (unit_size choice.format) a c → found_in c ≡ found_in a }
    ensures stands { (choice : Choice) (held : List Logged) (last : Logged) (sheet : Sheet) (stash : Option (List ℕ))
        (i : ℕ) (a : Files) → HasFiles choice → unit_changed last ≡ Some i → IsLookedAt choice held last sheet stash a
        → MayStand choice.format i (left_by last.entry.op) sheet.cells
        → StandsOnDisk (found_again choice held last sheet stash)
        (written choice.image (i * unit_size choice.format) (unit_text choice.format (left_by last.entry.op)) a) }
{}
