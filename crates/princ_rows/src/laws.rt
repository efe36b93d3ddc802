//! Laws of rows. They do no work.

ghost use Rattle.std.specs.Prelude.{◌≡◌, filter};
ghost use Rattle.princ_rows.specs.Rows.{RowLists, AreRows};
ghost use Rattle.princ_rows.specs.Undoing.{finished, dropped_princ, dropped_policy, is_left};
ghost use Rattle.princ_rows.specs.declared.begun.Begun.{Begun};

/// Who goes over the rows in their order, and leaves out the names that `Begun` tells, has the rows of the
/// finished change.
pub fn dropping_is_leaving_out()
    ensures princs { (b : Begun) (r : RowLists) → AreRows r
        → (finished b r).princs ≡ filter (is_left (λ p. p.name) (dropped_princ b)) r.princs }
    ensures policies { (b : Begun) (r : RowLists) → AreRows r
        → (finished b r).policies ≡ filter (is_left (λ p. p.name) (dropped_policy b)) r.policies }
{}
