//! The rows of a file of cells in the order of their keys.
ghost use Rattle.std.specs.Prelude.{◌≡◌, ℕ, List};
ghost use Rattle.std.specs.List.Sorted.{IsPermutation, IsSortedBy};
ghost use Rattle.std.specs.Ordering.{is_lt};
ghost use Rattle.tagged_data.specs.KeyOrder.{key_cmp};
ghost use Rattle.kdb_cells.specs.Cells.{Cell};
ghost use Rattle.kdb_cells.specs.Changes.{rows_of};
ghost use Rattle.kdb_cells.specs.Scanning.{AreApart, princs_of, policies_of};

use policy_rules::Policy;
use princ_record::Princ;
use princ_rows::{Boxed, Keyed, Rows};
use std::cmp::Ordering;

fn compare<T: Keyed>(left: &T, right: &T) -> Ordering
    ensures { result ≡ key_cmp (T.key_of left.now) (T.key_of right.now) }
{
    left.key().cmp(right.key())
}

// Sorts the records by their keys. Memory is not asked for.
fn sort_rows<T: Keyed>(items: &mut Vec<T>)
    ensures moved { IsPermutation items.old.items items.new.items }
    ensures sorted { IsSortedBy (λ x y. is_lt (key_cmp (T.key_of x) (T.key_of y))) items.new.items }
{
    items.sort_unstable_by(|left, right| compare(left, right));
}

/// The rows of these records, which may stand in any order, as those of a scan. They are sorted once, and
/// no record is copied. Memory is not asked for.
pub fn rows_from(princs: Vec<Boxed<Princ>>, policies: Vec<Boxed<Policy>>) -> Rows
    requires { AreApart princs.items policies.items }
    // They are the rows of whatever cells have these records, in any order.
    ensures { (cells : List Cell) → IsPermutation princs.items (princs_of cells)
        → IsPermutation policies.items (policies_of cells) → result ≡ rows_of cells }
{
    let mut princs = princs;
    let mut policies = policies;
    sort_rows(&mut princs);
    sort_rows(&mut policies);
    Rows::from_vecs(princs, policies).unwrap()
}
