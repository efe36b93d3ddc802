//! Laws of places. They do no work.

ghost use Rattle.std.specs.Prelude.{◌≡◌, ◌<◌, ◌≤◌, ℕ, List, true, Option, Some, length};
ghost use Rattle.kdb_base.specs.Moment.{Moment};
ghost use Rattle.kdb_base.specs.declared.moments.Point.{Point};
ghost use Rattle.princ_rows.specs.Effects.{effect, IsRoom};
ghost use Rattle.princ_rows.specs.Rows.{RowLists};
ghost use Rattle.princ_rows.specs.Undoing.{IsNewName};
ghost use Rattle.princ_rows.specs.declared.entries.Op.{Op};
ghost use Rattle.kdb_places.specs.Places.{Place, point_of, next_point, committed};
ghost use Rattle.kdb_places.specs.Places.{log_anew, replaced, restashed, created};
ghost use Rattle.kdb_places.specs.Applying.{may_apply};

/// At which point each place stands: a change stands behind the one before, at its own time, and where
/// the log is begun anew the place stands at its base. A stash keeps the point.
pub fn places_have_points()
    ensures committed { (op : Op) (time : Moment) (p : Place) → 0 < p.size
        → point_of (committed op time p) ≡ next_point time p }
    ensures anew { (base : Point) (size block : ℕ) (p : Place) → point_of (log_anew base size block p) ≡ base }
    ensures replaced { (realm : List ℕ) (rows : RowLists) (base : Point) (p : Place)
        → point_of (replaced realm rows base p) ≡ base }
    ensures restashed { (bytes : List ℕ) (p : Place) → point_of (restashed bytes p) ≡ point_of p }
    ensures created { (realm : List ℕ) (rows : RowLists) (base : Point) (size block : ℕ) (stash : Option (List ℕ))
        (format : ℕ) → point_of (created realm rows base size block stash format) ≡ base }
{}

/// A log never holds more entries than its size.
pub fn few_are_held()
    ensures { (op : Op) (time : Moment) (p : Place) → length (committed op time p).held ≤ p.size }
{}

/// A change may be made exactly where there is room for it and its name is new.
pub fn what_may_be_applied()
    ensures room { (op : Op) (rows : RowLists) → may_apply op rows ≡ true → IsRoom (effect (Some op) rows) }
    ensures name { (op : Op) (rows : RowLists) → may_apply op rows ≡ true → IsNewName op rows }
    ensures may { (op : Op) (rows : RowLists) → IsRoom (effect (Some op) rows) → IsNewName op rows
        → may_apply op rows ≡ true }
{}
