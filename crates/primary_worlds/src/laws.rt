//! Laws that tie what a primary makes to worlds. They do no work.

ghost use Rattle.std.specs.Prelude.{◌≡◌, ◌<◌, ◌^◌, ℕ, List, Some, length};
ghost use Rattle.std.specs.List.{All};
ghost use Rattle.aes_cts.specs.BlockKeys.{AreBytes};
ghost use Rattle.first_rows.specs.Creation.{first_state};
ghost use Rattle.first_rows.specs.Parts.{IsSpec, SpecParts};
ghost use Rattle.kdb_base.specs.Moment.{Moment};
ghost use Rattle.kdb_base.specs.Moments.{micros};
ghost use Rattle.kdb_histories.specs.Histories.{IsCreation};
ghost use Rattle.kdb_places.specs.Places.{Place, point_of};
ghost use Rattle.kdb_worlds.specs.Examples.{LeadsToCopy, first_events};
ghost use Rattle.kdb_base.specs.declared.versions.Master.{Master as Masterly};
ghost use Rattle.kdb_histories.specs.Stages.{ShowsAt};
ghost use Rattle.kdb_plain.specs.declared.states.State.{State};
ghost use Rattle.master_keys.specs.Chain.{Lists};
ghost use Rattle.primary_core.specs.Opening.{OpensAt, first_place};
ghost use Rattle.stash_file.specs.Stashes.{IsStash};
ghost use Rattle.stash_file.specs.Written.{stash_keys};
ghost use Rattle.stash_file.specs.declared.keys.StashKey.{StashKey as Stashed};
ghost use Rattle.stash_opening.specs.Finding.{first_listed, keys_in, own_record};
ghost use Rattle.primary_worlds.specs.Creations.{first_stage};
ghost use Rattle.princ_name.specs.Names.{NameParts};

use first_rows::laws::{first_rows_show_the_first_state, first_state_is_valid};
use kdb_worlds::laws::worlds_run;
use row_keys::laws::sound_rows_show_one_state;
use stash_file::laws::what_is_written_is_read;

/// What `Primary::create` makes is the first place of a history, whatever the spec, the clock and the block of random
/// bytes are, if the clock is behind all places of databases that were destroyed.
pub fn creations_are_events()
    ensures { (spec : SpecParts) (now : Moment) (random : List ℕ) (before : List Place) → IsSpec spec
        → length random ≡ 2048 → AreBytes random
        → All (λ p. micros (point_of p).time < micros now) before → IsCreation before (first_stage spec now random) }
{
    first_state_is_valid();
    first_rows_show_the_first_state();
}

/// There is a run of a world for each creation: a dump of what it makes is taken, and a replica loads it.
pub fn new_databases_are_copied()
    ensures { (spec : SpecParts) (now : Moment) (random : List ℕ) (client : NameParts) → IsSpec spec
        → length random ≡ 2048 → AreBytes random
        → LeadsToCopy (first_events (first_stage spec now random) client) (first_place spec now random) }
{
    creations_are_events();
    worlds_run();
}

/// A place whose rows show a state opens with its master keys, where the stash has them all, or where the first key of
/// the stash that K/M lists is one of them: each listed master key, stashed, opens every key.
pub fn stashed_places_open()
    ensures any { (p : Place) (s : State) (text : List ℕ) (keys : List Stashed) (found : Masterly) → ShowsAt p s
        → p.stash ≡ Some text → IsStash text keys
        → first_listed (keys_in (own_record p.realm p.rows)) keys ≡ Some found → Lists s.masters found.version found.key
        → OpensAt p s.masters }
    ensures all { (p : Place) (s : State) (text : List ℕ) → ShowsAt p s → p.stash ≡ Some text
        → IsStash text (stash_keys s.masters) → OpensAt p s.masters }
{
    sound_rows_show_one_state();
}

/// What `Primary::create` makes opens with its master key, whatever the spec, the clock and the block of random bytes
/// are.
pub fn new_databases_open()
    ensures { (spec : SpecParts) (now : Moment) (random : List ℕ) → IsSpec spec → now.secs < 2 ^ 32
        → length random ≡ 2048 → AreBytes random
        → OpensAt (first_place spec now random) (first_state spec now random).masters }
{
    sound_rows_show_one_state();
    what_is_written_is_read();
}
