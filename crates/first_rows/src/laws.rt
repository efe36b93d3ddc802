//! Laws of creations. They do no work.

ghost use Rattle.std.specs.Prelude.{◌≡◌, ℕ, List, length};
ghost use Rattle.aes_cts.specs.BlockKeys.{AreBytes};
ghost use Rattle.kdb_base.specs.Moment.{Moment};
ghost use Rattle.kdb_plain.specs.States.{IsValid};
ghost use Rattle.row_keys.specs.Shows.{Shows};
ghost use Rattle.first_rows.specs.Creation.{first_point, first_rows, first_state};
ghost use Rattle.first_rows.specs.Parts.{IsSpec, SpecParts};

/// The state of a creation is one of its realm, at serial 1 and the clock, and valid then.
pub fn first_state_is_valid()
    ensures realm { (spec : SpecParts) (now : Moment) (random : List ℕ)
        → (first_state spec now random).realm ≡ spec.realm }
    ensures point { (spec : SpecParts) (now : Moment) (random : List ℕ)
        → (first_state spec now random).point ≡ first_point now }
    ensures valid { (spec : SpecParts) (now : Moment) (random : List ℕ) → IsSpec spec
        → IsValid now (first_state spec now random) }
{}

/// The rows of a creation show its state, whatever the block of random bytes is.
pub fn first_rows_show_the_first_state()
    ensures { (spec : SpecParts) (now : Moment) (random : List ℕ) → length random ≡ 2048 → AreBytes random
        → Shows (first_rows spec now random) (first_state spec now random) }
{}
