//! Laws of settling. They do no work.

ghost use Rattle.std.specs.Prelude.{◌≡◌, ℕ, Option, Some};
ghost use Rattle.kdb_model.specs.Rekeying.{At, Work, active_at, settle};
ghost use Rattle.kdb_plain.specs.declared.states.State.{State};
ghost use Rattle.princ_name.specs.Names.{NameParts};
ghost use Rattle.princ_record.specs.declared.princs.Princ.{Princ};
ghost use Rattle.rekey_work.specs.Works.{as_modelled, settled_with};

/// What becomes of work that comes back is what the model settles, in a state with these master keys and this active
/// version, whatever record stands by the name: what is gone or has changed is told alike, and what is to be stored is
/// a rekeying of the state, or refused as one.
pub fn work_is_settled_as_modelled()
    ensures { (s : State) (name : NameParts) (at : At) (stored : Option Princ) (version : ℕ) (work : Work)
        → active_at s at ≡ Some version
        → settle s name at stored work ≡ as_modelled s name at (settled_with stored s.masters version work) }
{}
