//! Laws of plain states. They do no work.

ghost use Rattle.std.specs.Prelude.{◌≡◌, ◌≢◌, ◌+◌, ◌≤◌, ◌↔◌, ℕ, List, [], ◌∷◌};
ghost use Rattle.std.specs.Prelude.{Some, None, true, IsTrue, codes, length, map};
ghost use Rattle.kdb_base.specs.Limits.{most_rows};
ghost use Rattle.kdb_base.specs.Moment.{Moment};
ghost use Rattle.kdb_base.specs.declared.moments.Point.{Point};
ghost use Rattle.master_keys.specs.First.{master_name};
ghost use Rattle.policy_rules.specs.Rules.{Rules};
ghost use Rattle.princ_name.specs.Names.{printed};
ghost use Rattle.princ_name.specs.RealmNames.{name_in};
ghost use Rattle.princ_name.specs.Realms.{IsRealm};
ghost use Rattle.princ_record.specs.Policies.{IsPolicy};
ghost use Rattle.princ_name.specs.Printed.{IsPrinted};
ghost use Rattle.kdb_plain.specs.Changes.{IsOrdinary, MayBePut, Spares, drop_policy};
ghost use Rattle.kdb_plain.specs.Changes.{drop_princ, effect_on, put_policy, put_princ};
ghost use Rattle.kdb_plain.specs.States.{HasItsPolicy, IsListed, IsValid, history_name};
ghost use Rattle.kdb_plain.specs.States.{policy_named, princ_named, users_of};
ghost use Rattle.kdb_plain.specs.Strings.{has_room_for, with_string, without_string};
ghost use Rattle.kdb_plain.specs.declared.changes.PlainOp.{PlainOp};
ghost use Rattle.kdb_plain.specs.declared.princs.PlainPrinc.{PlainPrinc};
ghost use Rattle.kdb_plain.specs.declared.states.State.{State};
ghost use Rattle.tagged_data.specs.Strings.{AreStrings, is_string_key, is_string_value};
ghost use Rattle.tagged_data.specs.declared.string_attributes.StringAttribute.{StringAttribute};

use key_activation::laws::some_version_stays_active;

/// A state that is valid at one time is valid at every later one, whatever its point is.
pub fn valid_later()
    ensures later { (s : State) (early late : Moment) → early.secs ≤ late.secs → IsValid early s → IsValid late s }
    ensures point { (s : State) (time : Moment) (point : Point) → IsValid time s
        → IsValid time (record s { point = point }) }
{
    some_version_stays_active();
}

/// What was put is found by its name, what was dropped is not, and every other name finds what it found before.
pub fn changes_are_found()
    ensures put { (q : PlainPrinc) (s : State) → princ_named q.name (put_princ q s).princs ≡ Some q }
    ensures others { (name : List ℕ) (q : PlainPrinc) (s : State) → name ≢ q.name
        → princ_named name (put_princ q s).princs ≡ princ_named name s.princs }
    ensures dropped { (name : List ℕ) (s : State) → princ_named name (drop_princ name s).princs ≡ None }
    ensures left { (name gone : List ℕ) (s : State) → name ≢ gone
        → princ_named name (drop_princ gone s).princs ≡ princ_named name s.princs }
    ensures put_policy { (p : Rules) (s : State) → policy_named p.name (put_policy p s).policies ≡ Some p }
    ensures other_policies { (name : List ℕ) (p : Rules) (s : State) → name ≢ p.name
        → policy_named name (put_policy p s).policies ≡ policy_named name s.policies }
    ensures dropped_policy { (name : List ℕ) (s : State) → policy_named name (drop_policy name s).policies ≡ None }
    ensures left_policies { (name gone : List ℕ) (s : State) → name ≢ gone
        → policy_named name (drop_policy gone s).policies ≡ policy_named name s.policies }
{}

/// A principal other than K/M whose keys' versions never rise, kadmin/history with one key too, may be put into a
/// valid state where its master key and its policy are there and there is room. One other than both may be dropped.
pub fn principals_keep_states_valid()
    ensures put { (time : Moment) (s : State) (q : PlainPrinc)
        → IsValid time s → MayBePut s.realm q → IsListed s.masters q.mkvno → HasItsPolicy s.policies q
        → length (put_princ q s).princs + length s.policies ≤ most_rows → IsValid time (put_princ q s) }
    ensures drop { (time : Moment) (s : State) (name : List ℕ) → IsValid time s → IsOrdinary s.realm name
        → IsValid time (drop_princ name s) }
{}

/// A policy may be put into a valid state where there is room, and dropped where no principal names it.
pub fn policies_keep_states_valid()
    ensures put { (time : Moment) (s : State) (p : Rules) → IsValid time s → IsPolicy p
        → length s.princs + length (put_policy p s).policies ≤ most_rows → IsValid time (put_policy p s) }
    ensures drop { (time : Moment) (s : State) (name : List ℕ) → IsValid time s → users_of name s.princs ≡ 0
        → IsValid time (drop_policy name s) }
{}

/// The names of the principals that hold the database's own keys are the printed forms of K/M and of kadmin/history
/// in the realm.
pub fn own_names_are_printed()
    ensures master { (realm : List ℕ) → IsRealm realm
        → master_name realm ≡ printed (name_in (codes "K" ∷ codes "M" ∷ []) realm) }
    ensures history { (realm : List ℕ) → IsRealm realm
        → history_name realm ≡ printed (name_in (codes "kadmin" ∷ codes "history" ∷ []) realm) }
    ensures history_fits { (realm : List ℕ) → IsRealm realm → IsPrinted (history_name realm) }
{}

/// Attributes that a principal may have stay so with one more where there is room for it, and without one.
pub fn strings_stay_in_form()
    ensures set { (key value : List ℕ) (strings : List StringAttribute) → AreStrings strings
        → IsTrue (is_string_key key) → IsTrue (is_string_value value) → has_room_for key strings ≡ true
        → AreStrings (with_string key value strings) }
    ensures taken { (key : List ℕ) (strings : List StringAttribute) → AreStrings strings
        → AreStrings (without_string key strings) }
{}

/// A change that spares K/M and kadmin/history leaves both as they are, and the master keys and their activations.
pub fn spared_keys_stay()
    ensures master { (s : State) (op : PlainOp) → Spares s.realm op
        → princ_named (master_name s.realm) (effect_on op s).princs ≡ princ_named (master_name s.realm) s.princs }
    ensures history { (s : State) (op : PlainOp) → Spares s.realm op
        → princ_named (history_name s.realm) (effect_on op s).princs ≡ princ_named (history_name s.realm) s.princs }
    ensures masters { (s : State) (op : PlainOp) → Spares s.realm op → (effect_on op s).masters ≡ s.masters }
    ensures activations { (s : State) (op : PlainOp) → Spares s.realm op
        → (effect_on op s).activations ≡ s.activations }
{}
