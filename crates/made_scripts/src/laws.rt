//! Laws of scripts. They do no work.

ghost use Rattle.std.specs.Prelude.{◌≡◌, List, ℕ, length, map};
ghost use Rattle.kadm_session.specs.Steps.{said};
ghost use Rattle.made_scripts.specs.Plays.{Progress, asked_line, played};
ghost use Rattle.made_scripts.specs.Scripts.{lines_from};

/// A script that is played is a session of its lines, in the realm of the database at first: it ends at the same place
/// and in the same state, and the clock and the source of random bytes have the same left.
pub fn scripts_are_sessions()
    ensures at { (lines : List (List ℕ)) (p : Progress)
        → (played lines p).at ≡ (said (map (asked_line p.at.place.realm) lines) p.draws p.at).at }
    ensures draws { (lines : List (List ℕ)) (p : Progress)
        → (played lines p).draws ≡ (said (map (asked_line p.at.place.realm) lines) p.draws p.at).draws }
{}

/// A script has as many lines as it is asked to have.
pub fn scripts_have_their_lines()
    ensures { (seed number count : ℕ) → length (lines_from seed number count) ≡ count }
{}
