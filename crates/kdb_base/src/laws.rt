//! Laws of keys. They do no work.

ghost use Rattle.std.specs.Prelude.{◌≡◌, ◌↔◌, IsTrue};
ghost use Rattle.kdb_base.specs.Key.{Key, is_same_key};

/// Keys that the test of equality takes for the same are one key, and it takes no two for the same.
pub fn equal_keys_are_one()
    ensures { (a b : Key) → IsTrue (is_same_key a b) ↔ (a ≡ b) }
{}
