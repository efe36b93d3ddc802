//! Laws of logs. They do no work.

ghost use Rattle.std.specs.Prelude.{◌≡◌, ◌<◌, ◌++◌, true, All, List, ℕ, Ok};
ghost use Rattle.kdb_base.specs.declared.moments.Point.{Point};
ghost use Rattle.princ_rows.specs.declared.entries.Logged.{Logged};
ghost use Rattle.update_log.specs.Logs.{HoldsIn};
ghost use Rattle.update_log.specs.Runs.{log_in, stands_in};

/// What a log holds is what its bytes are read as, where each of its entries may stand in the format,
/// and what they are read as is what it holds.
pub fn logs_are_read()
    ensures reads { (format : ℕ) (base : Point) (size block : ℕ) (held : List Logged) (file : List ℕ)
        (holds : HoldsIn base size block held file)
        → All (λ l. stands_in format l ≡ true) (holds.older ++ held) → log_in format base size block file ≡ Ok held }
    ensures holds { (format : ℕ) (base : Point) (size block : ℕ) (held : List Logged) (file : List ℕ) → 0 < size
        → log_in format base size block file ≡ Ok held → HoldsIn base size block held file }
{}
