//! Laws of changes of the master keys. They do no work.

ghost use Rattle.std.specs.Prelude.{◌≡◌, ◌<◌, ℕ, Some, is_some, true};
ghost use Rattle.kdb_base.specs.Moment.{Moment};
ghost use Rattle.kdb_base.specs.declared.versions.Master.{Master};
ghost use Rattle.key_activation.specs.Activations.{active, with_activation};
ghost use Rattle.master_keys.specs.First.{master_name};
ghost use Rattle.master_keys.specs.Versions.{last_version};
ghost use Rattle.kdb_plain.specs.Changes.{effect_on};
ghost use Rattle.serving_versions.specs.MasterChanges.{adds_master, purges_masters, serving_activations, uses_version};
ghost use Rattle.kdb_plain.specs.States.{IsListed, IsValid, princ_named};
ghost use Rattle.serving_versions.specs.Versions.{serves, serving_masters};
ghost use Rattle.kdb_plain.specs.declared.princs.PlainPrinc.{PlainPrinc};
ghost use Rattle.kdb_plain.specs.declared.states.State.{State};

/// A master key behind the greatest version may be added to a valid state, a listed version may be given an activation
/// where some version is active then, and the versions that do not serve may be purged.
pub fn master_changes_keep_states_valid()
    ensures add { (time : Moment) (s : State) (entry : PlainPrinc) (m : Master)
        → IsValid time s → princ_named (master_name s.realm) s.princs ≡ Some entry → last_version s.masters < m.version
        → IsValid time (effect_on (adds_master s m entry) s) }
    ensures activate { (time : Moment) (s : State) (entry : PlainPrinc) (version secs : ℕ)
        → IsValid time s → princ_named (master_name s.realm) s.princs ≡ Some entry
        → IsListed s.masters version → is_some (active (with_activation version secs s.activations) time.secs) ≡ true
        → IsValid time (effect_on (uses_version s version secs entry) s) }
    ensures purge { (time : Moment) (s : State) (entry : PlainPrinc)
        → IsValid time s → princ_named (master_name s.realm) s.princs ≡ Some entry
        → IsValid time (effect_on (purges_masters s time.secs entry) s) }
{}

/// A purge leaves every version that serves listed, and the version active that is.
pub fn purges_leave_what_serves()
    ensures listed { (s : State) (secs version : ℕ) → serves s secs version ≡ true → IsListed s.masters version
        → IsListed (serving_masters s secs) version }
    ensures active { (s : State) (secs : ℕ) → active (serving_activations s secs) secs ≡ active s.activations secs }
{}

/// The version that is active is listed.
pub fn active_version_is_listed()
    ensures { (time : Moment) (s : State) (secs version : ℕ) → IsValid time s → active s.activations secs ≡ Some version
        → IsListed s.masters version }
{}
