//! Laws of the equality of keys. They do no work.

ghost use Rattle.std.specs.Prelude.{◌≡◌, ◌↔◌, List, true};
ghost use Rattle.std.specs.Cmp.Lexicographic.{pointwise};
ghost use Rattle.princ_keys.specs.KeyEquality.{same_item};
ghost use Rattle.princ_keys.specs.declared.keys.KeyItem.{KeyItem};

/// Keys are equal exactly where they are one in every part, and lists of keys where each key is.
pub fn equal_keys_are_one()
    ensures key { (a b : KeyItem) → (same_item a b ≡ true) ↔ (a ≡ b) }
    ensures list { (xs ys : List KeyItem) → (pointwise same_item xs ys ≡ true) ↔ (xs ≡ ys) }
{}
