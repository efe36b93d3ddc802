//! Whether a change may be made of rows.
ghost use Rattle.std.specs.Prelude.{◌≡◌, Some};
ghost use Rattle.std.specs.List.{list_any};
ghost use Rattle.std.specs.Str.{bytes_eq};
ghost use Rattle.princ_rows.specs.Effects.{effect};
ghost use Rattle.princ_rows.specs.declared.entries.Op.TheVariants as variants;
ghost use Rattle.kdb_places.specs.Applying.{is_room, is_new_name, may_apply};

use princ_record::Princ;
use princ_rows::{Op, Rows};

// Whether the change leaves no more rows than there may be.
fn is_room(rows: &Rows, op: &Op) -> bool
    ensures { result ≡ is_room (effect (Some op.now) rows.now) }
{
    rows.has_room_for(op)
}

// Whether a principal has this name.
fn holds_name(rows: &Rows, name: &[u8]) -> bool
    ensures { result ≡ list_any (λ q. bytes_eq q.name name.now) rows.now.princs }
{
    match rows.princ(name) {
        Some(_) => true,
        None => false,
    }
}

// Whether the principal has the old name, or one that no row has.
fn is_free(rows: &Rows, old: &[u8], princ: &Princ) -> bool
    ensures { result ≡ is_new_name (variants.Rename old.now princ.now) rows.now }
{
    princ.name.as_slice() == old || !holds_name(rows, princ.name.as_slice())
}

// Whether the change keeps the name of a row, or gives it one that no row has.
fn is_new_name(rows: &Rows, op: &Op) -> bool
    ensures { result ≡ is_new_name op.now rows.now }
{
    match op {
        Op::Rename(old, princ) => is_free(rows, old.as_slice(), princ),
        _ => true,
    }
}

/// Whether the change may be made of the rows: it leaves no more than there may be, and a rename keeps
/// the name or takes one that no row has.
#[tactic(auto, unfolding(crate::specs::Applying::may_apply))]
pub fn may_apply(rows: &Rows, op: &Op) -> bool
    ensures { result ≡ may_apply op.now rows.now }
{
    is_room(rows, op) && is_new_name(rows, op)
}
