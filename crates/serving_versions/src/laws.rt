//! Laws of the versions of the master key that serve. They do no work.

ghost use Rattle.std.specs.Prelude.{◌≡◌, ◌↔◌, ℕ, map, true};
ghost use Rattle.kdb_base.specs.Versions.{AreRising};
ghost use Rattle.kdb_base.specs.declared.versions.Master.{Master};
ghost use Rattle.kdb_plain.specs.declared.states.State.{State};
ghost use Rattle.master_keys.specs.Purging.{live_masters};
ghost use Rattle.master_keys.specs.Versions.{last_version};
ghost use Rattle.serving_versions.specs.Versions.{HasCause, dead_versions, serves, serving_masters};

/// A version serves where it protects a principal other than K/M, is active, is the newest, or is yet to become active,
/// and nowhere else. The newest master key serves always, and a purge of the versions that do not serve leaves the
/// master keys that do. Those that do not serve are told by rising versions.
pub fn serving_versions_stay()
    ensures causes { (s : State) (secs version : ℕ) → (serves s secs version ≡ true) ↔ HasCause s secs version }
    ensures newest { (s : State) (secs : ℕ) → serves s secs (last_version s.masters) ≡ true }
    ensures rising { (s : State) (secs : ℕ) → AreRising (map (λ (m : Master). m.version) s.masters)
        → AreRising (dead_versions s secs) }
    ensures purged { (s : State) (secs : ℕ) → live_masters (dead_versions s secs) s.masters ≡ serving_masters s secs }
{}
