//! Laws of stashes and of keytabs. They do no work.

ghost use Rattle.std.specs.Prelude.{◌≡◌, ◌<◌, ◌≤◌, ◌^◌, ℕ, List, length};
ghost use Rattle.std.specs.List.{All, flat_map};
ghost use Rattle.kdb_base.specs.declared.versions.Master.{Master};
ghost use Rattle.kdb_format.specs.Fields.{IsBytes};
ghost use Rattle.stash_file.specs.Keytabs.{IsBadKeytab, IsJudgedKeytab, IsKeytab};
ghost use Rattle.stash_file.specs.Pieces.{Told};
ghost use Rattle.stash_file.specs.Stashes.{IsStash, IsBadAt, IsJudged, key_of};
ghost use Rattle.stash_file.specs.Written.{IsStashed, stash_keys, stash_text};
ghost use Rattle.stash_file.specs.declared.keys.StashKey.{StashKey};

/// A stash has one list of keys.
pub fn stash_has_one_list_of_keys()
    ensures { (text : List ℕ) (a b : List StashKey) → IsStash text a → IsStash text b → a ≡ b }
{}

/// Each text of bytes is a stash, or it is bad somewhere.
pub fn each_text_is_judged()
    ensures { (text : List ℕ) → IsBytes text → IsJudged text }
{}

/// A stash is bad nowhere.
pub fn stash_is_bad_nowhere()
    ensures { (text : List ℕ) (keys : List StashKey) (place : ℕ) → IsStash text keys → IsBadAt text place → ⊥ }
{}

/// A text that is no stash is bad at one place.
pub fn bad_text_has_one_place()
    ensures { (text : List ℕ) (a b : ℕ) → IsBadAt text a → IsBadAt text b → a ≡ b }
{}

/// A keytab is a stash: its keys are those of its entries of K/M.
pub fn keytab_is_a_stash()
    ensures { (text : List ℕ) (entries : List Told) → IsKeytab text entries → IsStash text (flat_map key_of entries) }
{}

/// What is written is a stash of the keys that it is written of, whoever writes it.
pub fn what_is_written_is_read()
    ensures { (realm : List ℕ) (secs : ℕ) (masters : List Master) → length realm ≤ 64 → secs < 2 ^ 32
        → All IsStashed masters
        → IsStash (stash_text realm secs masters) (stash_keys masters) }
{}

/// A keytab has one list of entries.
pub fn keytab_has_one_list_of_entries()
    ensures { (text : List ℕ) (a b : List Told) → IsKeytab text a → IsKeytab text b → a ≡ b }
{}

/// Each text of bytes is a keytab, or it is bad somewhere.
pub fn each_text_is_a_keytab_or_bad()
    ensures { (text : List ℕ) → IsBytes text → IsJudgedKeytab text }
{}

/// A keytab is bad nowhere.
pub fn keytab_is_bad_nowhere()
    ensures { (text : List ℕ) (entries : List Told) (place : ℕ) → IsKeytab text entries → IsBadKeytab text place → ⊥ }
{}

/// A text that is no keytab is bad at one place.
pub fn bad_keytab_has_one_place()
    ensures { (text : List ℕ) (a b : ℕ) → IsBadKeytab text a → IsBadKeytab text b → a ≡ b }
{}
