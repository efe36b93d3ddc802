//! Laws of the files of a database. They do no work.

ghost use Rattle.std.specs.Prelude.{◌≡◌, ◌≢◌, ◌≤◌, ◌<◌, ◌∷◌, [], ℕ, List, Option, Some, None, Ok};
ghost use Rattle.kdb_base.specs.declared.moments.Point.{Point};
ghost use Rattle.kdb_control.specs.Force.{in_force};
ghost use Rattle.kdb_control.specs.declared.force.Force.TheVariants.{Is};
ghost use Rattle.update_log.specs.Logs.{HoldsIn, marker_of};
ghost use Rattle.kdb_base.specs.Moment.{Moment};
ghost use Rattle.kdb_disk.specs.Files.{Files};
ghost use Rattle.kdb_disk.specs.View.{View};
ghost use Rattle.princ_rows.specs.Rows.{RowLists};
ghost use Rattle.princ_rows.specs.Effects.{effect, IsRoom};
ghost use Rattle.princ_rows.specs.Undoing.{IsNewName};
ghost use Rattle.princ_rows.specs.Entries.{IsOp, key_of};
ghost use Rattle.princ_rows.specs.declared.entries.Op.{Op};
ghost use Rattle.princ_rows.specs.declared.entries.Logged.{Logged};
ghost use Rattle.kdb_cells.specs.Cells.{Cell};
ghost use Rattle.kdb_cells.specs.Sheets.{Sheet, last_unit, set_cell};
ghost use Rattle.kdb_cells.specs.Changes.{rows_of, cell_after};
ghost use Rattle.kdb_cells.specs.FileCells.{MayStand};
ghost use Rattle.kdb_cells.specs.Leads.{Units};
ghost use Rattle.kdb_places.specs.Places.{Place, change, next_point, committed, log_anew, replaced, restashed, created};
ghost use Rattle.store_files.specs.Found.{Found, unit_changed, left_by, redone, found_in, place_of};
ghost use Rattle.store_files.specs.Kept.{Kept, place_kept, IsOnDisk};
ghost use Rattle.store_files.specs.Switches.{IsSpareFor, after_reset, after_replace};
ghost use Rattle.store_files.specs.Switches.{after_stash, first_choice, first_found};
ghost use Rattle.store_files.specs.Recovery.{RecoversTo};
ghost use Rattle.store_files.specs.Standing.{IsDone, HasFiles, Would, StandsOnDisk, MayChange, IsUnderWay};
ghost use Rattle.store_files.specs.Standing.{FindsEither, IsUnitFor, IsGivenFor, AreRowCells, after};

use kdb_disk::Disk;

/// Where each unit is as it is to be, the files are found to hold it.
pub fn what_stands_is_found()
    ensures { (o : Found) (c : Files) → IsDone o → StandsOnDisk o c → found_in c ≡ Ok o }
{}

/// What is kept in memory and stands on the disk is recovered, whatever a crash leaves.
pub fn what_is_kept_is_recovered<D: Disk>(_disk: &D)
    ensures { (k : Kept) → IsOnDisk k (D.view _disk.now) → RecoversTo (place_kept k) (D.view _disk.now) }
{}

/// While a change is under way, the files are found to be as before it or as after it.
pub fn changes_are_whole()
    ensures { (l : Logged) (o : Found) (c : Files) → IsDone o → 0 < o.control.size
        → MayChange o.control.format (unit_changed l) (left_by l.entry.op) o.sheet.cells → IsUnderWay l o c
        → FindsEither o (after l o) c }
{}

/// What a change leaves may stand in the unit that is given for its key, and the cells then have the rows
/// of the change's effect.
pub fn units_are_given()
    ensures stands { (u : Units) (cells : List Cell) (rows : RowLists) (op : Op) (i : ℕ)
        → AreRowCells u cells rows → IsOp (Some op) → IsNewName op rows → IsRoom (effect (Some op) rows) → i ≤ last_unit
        → IsGivenFor (key_of (Some op)) i u → MayStand 2 i (cell_after op) cells }
    ensures rows { (u : Units) (cells : List Cell) (rows : RowLists) (op : Op) (i : ℕ)
        → AreRowCells u cells rows → IsOp (Some op) → IsNewName op rows → IsGivenFor (key_of (Some op)) i u
        → rows_of (set_cell i (cell_after op) cells) ≡ effect (Some op) rows }
{}

/// The place after a change is that of its entry and of its effect.
pub fn changes_have_their_places()
    ensures { (l : Logged) (o : Found) (op : Op) (time : Moment) → l.entry ≡ change op (next_point time (place_of o))
        → rows_of (redone l o.sheet.cells) ≡ effect (Some op) (rows_of o.sheet.cells)
        → place_of (after l o) ≡ committed op time (place_of o) }
{}

/// A switch is whole: what the next choice names stands once that choice is in force, and a file that a choice
/// does not name may have any bytes.
pub fn switches_are_whole()
    ensures switched { (o : Found) (c d : Files) → HasFiles o.control → Would o d → ((g : ℕ) → g ≢ 0 → c g ≡ d g)
        → in_force (c 0) ≡ Is o.control → StandsOnDisk o c }
    ensures spare { (o : Found) (c d : Files) (file : ℕ) → IsSpareFor o.control file → StandsOnDisk o d
        → ((g : ℕ) → g ≢ file → c g ≡ d g) → StandsOnDisk o c }
    // A log that was begun anew, and a stash that was written, would stand with all else.
    ensures reset { (o : Found) (c : Files) (file : ℕ) (base : Point) (size block : ℕ)
        → o.control.format ≡ 2 → Would o c → HoldsIn base size block (marker_of base ∷ []) (c file)
        → Would (after_reset file base size block o) c }
    ensures stash { (o : Found) (c : Files) (file : ℕ) (bytes : List ℕ) → file ≢ 0 → Would o c → c file ≡ bytes
        → Would (after_stash file bytes o) c }
{}

/// What each switch leads to is its place.
pub fn switches_have_their_places()
    ensures reset { (file : ℕ) (base : Point) (size block : ℕ) (o : Found)
        → place_of (after_reset file base size block o) ≡ log_anew base size block (place_of o) }
    ensures replaced { (image log : ℕ) (base : Point) (sheet : Sheet) (o : Found)
        → place_of (after_replace image log base sheet o)
        ≡ replaced sheet.realm (rows_of sheet.cells) base (place_of o) }
    ensures stash { (file : ℕ) (bytes : List ℕ) (o : Found)
        → place_of (after_stash file bytes o) ≡ restashed bytes (place_of o) }
    ensures created { (format stash : ℕ) (base : Point) (size block : ℕ) (sheet : Sheet) (bytes : Option (List ℕ))
        → place_of (first_found (first_choice format stash base size block) sheet bytes)
        ≡ created sheet.realm (rows_of sheet.cells) base size block bytes format }
{}
