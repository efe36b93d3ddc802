//! Laws of keys in the plain. They do no work.

ghost use Rattle.std.specs.Prelude.{◌≤◌, List};
ghost use Rattle.std.specs.List.{sum_by};
ghost use Rattle.kdb_base.specs.declared.keys.Etype.{Etype};
ghost use Rattle.plain_keys.specs.Keys.{AreOnce, drawn_len};

/// Random keys of distinct encryption types want at most 160 bytes of a random block, each with the 16 behind it.
pub fn distinct_types_want_little()
    ensures { (etypes : List Etype) → AreOnce etypes → sum_by drawn_len etypes ≤ 160 }
{}
