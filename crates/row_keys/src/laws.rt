//! Laws of rows that show a state. They do no work.

ghost use Rattle.std.specs.Prelude.{◌≡◌, ◌+◌, ◌*◌, ◌≤◌, ◌<◌, ◌↔◌, ℕ, Bool, true};
ghost use Rattle.std.specs.Prelude.{false, List, ◌++◌, Some, None, length, map};
ghost use Rattle.std.specs.List.{AllZip, sum_by};
ghost use Rattle.kdb_base.specs.Key.{Key};
ghost use Rattle.kdb_base.specs.Limits.{most_keys};
ghost use Rattle.kdb_base.specs.Moment.{Moment};
ghost use Rattle.kdb_base.specs.declared.keys.Etype.{Etype};
ghost use Rattle.kdb_base.specs.declared.moments.Point.{Point};
ghost use Rattle.kdb_base.specs.declared.versions.Activation.{Activation};
ghost use Rattle.kdb_base.specs.declared.versions.Master.{Master};
ghost use Rattle.master_keys.specs.Rewrapping.{Holds, IsRewrapped, with_keys};
ghost use Rattle.princ_keys.specs.declared.keys.KeyItem.{KeyItem};
ghost use Rattle.princ_name.specs.Names.{IsName, NameParts};
ghost use Rattle.princ_record.specs.Princs.{IsPrinc, princ};
ghost use Rattle.princ_record.specs.declared.princs.Princ.{Princ};
ghost use Rattle.princ_rows.specs.Effects.{effect};
ghost use Rattle.princ_name.specs.Realms.{IsRealm};
ghost use Rattle.princ_rows.specs.Rows.{AreRows, RowLists};
ghost use Rattle.princ_rows.specs.declared.entries.Op.{Op};
ghost use Rattle.kdb_plain.specs.Changes.{Spares, effect_on};
ghost use Rattle.kdb_plain.specs.declared.changes.PlainOp.{PlainOp};
ghost use Rattle.plain_keys.specs.Keys.{AreOnce, drawn_len, items_of, kept_keys, keys_from, newest_kvno};
ghost use Rattle.plain_keys.specs.Keys.{password_keys, random_keys, remembered, settled_items};
ghost use Rattle.kdb_plain.specs.Lengths.{chain_len, row_len};
ghost use Rattle.kdb_plain.specs.States.{IsValid, history_key, princ_named, users_of};
ghost use Rattle.serving_versions.specs.Versions.{protected_by};
ghost use Rattle.plain_keys.specs.declared.items.PlainItem.{PlainItem};
ghost use Rattle.plain_keys.specs.declared.items.PlainSet.{PlainSet};
ghost use Rattle.kdb_plain.specs.declared.princs.PlainPrinc.{PlainPrinc};
ghost use Rattle.kdb_plain.specs.declared.states.State.{State};
ghost use Rattle.row_keys.specs.Formed.{AreItems, AreSets, IsFormed};
ghost use Rattle.row_keys.specs.Lookups.{record_named, records_under, records_with_policy};
ghost use Rattle.row_keys.specs.ShownChanges.{ShowsOp, SparesKeys};
ghost use Rattle.row_keys.specs.Shows.{Shows, ShowsChain, ShowsItem, ShowsPrinc, ShowsUnder};
ghost use Rattle.row_keys.specs.Sides.{AreBoth, IsBeside};
ghost use Rattle.row_keys.specs.Sound.{AreSound, HasState, Judged, judged};
ghost use Rattle.row_keys.specs.Wraps.{taken_lens, wrapped_items};

use master_keys::laws::blobs_hold_one_key;

/// The row of a record is as long as is told of the plain principal that it shows; at K/M, which has a chain beside, as
/// is told of the master keys and their activations too.
pub fn records_have_their_lengths()
    ensures row { (master history : Key) (p : Princ) (q : PlainPrinc) → ShowsUnder master history p q → p.chain ≡ None
        → length (princ p) ≡ row_len master.etype history.etype q }
    ensures master { (master history : Key) (p : Princ) (q : PlainPrinc) (masters : List Master)
        (activations : List Activation) → ShowsUnder master history p q → ShowsChain masters activations p
        → length (princ p) ≡ row_len master.etype history.etype q + chain_len masters activations }
{}

/// A name finds a record where it finds a principal of the state that the rows show, and that is the record's.
pub fn names_find_alike()
    ensures both { (masters : List Master) (history : Key) (princs : List Princ)
        (plain : List PlainPrinc) (name : List ℕ) → AllZip (ShowsPrinc masters history) princs plain
        → AreBoth (ShowsPrinc masters history) (record_named name princs) (princ_named name plain) }
    ensures found { (masters : List Master) (history : Key) (princs : List Princ) (plain : List PlainPrinc)
        (name : List ℕ) (p : Princ) → AllZip (ShowsPrinc masters history) princs plain
        → record_named name princs ≡ Some p → IsBeside (ShowsPrinc masters history) p (princ_named name plain) }
    ensures none { (masters : List Master) (history : Key) (princs : List Princ) (plain : List PlainPrinc)
        (name : List ℕ) → AllZip (ShowsPrinc masters history) princs plain → record_named name princs ≡ None
        → princ_named name plain ≡ None }
{}

/// There are as many records as principals of the state that the rows show, as many that name a policy, and as many
/// that a version of the master key protects.
pub fn rows_count_alike()
    ensures princs { (masters : List Master) (history : Key) (princs : List Princ) (plain : List PlainPrinc)
        → AllZip (ShowsPrinc masters history) princs plain → length princs ≡ length plain }
    ensures users { (masters : List Master) (history : Key) (princs : List Princ)
        (plain : List PlainPrinc) (name : List ℕ) → AllZip (ShowsPrinc masters history) princs plain
        → records_with_policy name princs ≡ users_of name plain }
    ensures protected { (masters : List Master) (history : Key) (princs : List Princ)
        (plain : List PlainPrinc) (realm : List ℕ) (version : ℕ) → AllZip (ShowsPrinc masters history) princs plain
        → records_under realm princs version ≡ protected_by realm plain version }
{}

/// Rows that show a state show the changed one behind a change that shows the state's, where it leaves the database's
/// own keys, as one of other principals than K/M and kadmin/history does.
pub fn changed_rows_show()
    ensures shows { (rows : RowLists) (s : State) (history : Key) (o : Op) (plain : PlainOp) → Shows rows s
        → history_key s.realm s.princs ≡ Some history → ShowsOp s.masters history o plain → SparesKeys s plain
        → Shows (effect (Some o) rows) (effect_on plain s) }
    ensures ordinary { (s : State) (plain : PlainOp) → Spares s.realm plain → SparesKeys s plain }
{}

/// A record without a chain has a spelling exactly where the plain principal that it shows is formed.
pub fn formed_records_have_a_spelling()
    ensures { (master history : Key) (p : Princ) (q : PlainPrinc) → ShowsUnder master history p q → p.chain ≡ None
        → IsPrinc p ↔ IsFormed q }
{}

/// Sound rows of a realm show a state of it at every point, with the master keys by which they were judged, and it is
/// valid at the seconds of the judgement; rows that show a valid state are sound; and rows show one state of a realm,
/// a point and master keys. The master keys have to be named, since nothing forbids that a blob is sealed under two
/// keys.
pub fn sound_rows_show_one_state()
    ensures shows { (j : Judged) (rows : RowLists) (point : Point) → AreRows rows → IsRealm j.realm → AreSound j rows
        → HasState j rows point }
    ensures sound { (rows : RowLists) (s : State) (time : Moment) → Shows rows s → IsValid time s
        → AreSound (judged s.masters s.realm time.secs) rows }
    ensures one { (rows : RowLists) (s t : State) → Shows rows s → Shows rows t → s.realm ≡ t.realm → s.point ≡ t.point
        → s.masters ≡ t.masters → s ≡ t }
{
    blobs_hold_one_key();
}

/// Keys that a principal may have stay so: new ones of the next version and of distinct types before old ones, where
/// there is room; those of a version and of later ones; those of a principal that gets another name. Sets that a
/// principal may remember stay so too.
pub fn keys_stay_in_form()
    ensures fresh { (keys : List Key) (old : List PlainItem) (keep : Bool) → AreItems old → newest_kvno old < 65535
        → AreOnce (map (λ k. k.etype) keys) → length keys + length (kept_keys keep old) ≤ most_keys
        → AreItems (items_of (newest_kvno old + 1) keys ++ kept_keys keep old) }
    ensures later { (kvno : ℕ) (keys : List PlainItem) → AreItems keys → AreItems (keys_from kvno keys) }
    ensures settled { (name : NameParts) (keys : List PlainItem) → IsName name → AreItems keys
        → AreItems (settled_items name keys) }
    ensures remembered { (count : ℕ) (keys : List PlainItem) (old : List PlainSet) → count ≤ 16 → AreItems keys
        → AreSets old → AreSets (remembered count keys old) }
{}

/// New keys have the types that were asked for, in their order.
pub fn new_keys_have_their_types()
    ensures random { (random : List ℕ) (etypes : List Etype) → map (λ k. k.etype) (random_keys random etypes) ≡ etypes }
    ensures password { (password salt : List ℕ) (etypes : List Etype)
        → map (λ k. k.etype) (password_keys password salt etypes) ≡ etypes }
{}

/// What keys take of a block: 16 bytes each where they are not drawn from it, at most 48 each where they are, and as
/// many as making them wants where they are new random keys.
pub fn keys_take_little_of_a_block()
    ensures kept { (keys : List PlainItem) → taken_lens false keys ≡ 16 * length keys }
    ensures few { (drawn : Bool) (keys : List PlainItem) → taken_lens drawn keys ≤ 48 * length keys }
    ensures drawn { (random : List ℕ) (etypes : List Etype) (kvno : ℕ)
        → taken_lens true (items_of kvno (random_keys random etypes)) ≡ sum_by drawn_len etypes }
{}

/// A record that was rewrapped under the master key of another version shows the same principal under that version, its
/// keys wrapped with the bytes of the block in their order.
pub fn rewrapped_records_show()
    ensures held { (master history : Key) (p : Princ) (q : PlainPrinc) → ShowsUnder master history p q
        → AllZip (Holds master) p.keys (map (λ k. k.key) q.keys) }
    ensures shows { (old fresh history : Key) (p r : Princ) (q : PlainPrinc) (version : ℕ) (random : List ℕ)
        → ShowsUnder old history p q
        → IsRewrapped p old version fresh random r → AllZip (Holds fresh) r.keys (map (λ k. k.key) q.keys)
        → ShowsUnder fresh history r (record q { mkvno = version }) }
    ensures exact { (master fresh : Key) (random : List ℕ) (items : List KeyItem) (keys : List PlainItem)
        → AllZip (ShowsItem master) items keys
        → with_keys fresh random 0 items (map (λ k. k.key) keys) ≡ wrapped_items fresh false random keys }
{}
