//! Laws of the lengths of entries. They do no work.

ghost use Rattle.std.specs.Prelude.{◌≡◌, ℕ, Bool, List, option_map};
ghost use Rattle.command_plans.specs.Given.{IsApplied, IsChange};
ghost use Rattle.entry_lengths.specs.Lengths.{IsAsLong, entry_len_in};
ghost use Rattle.entry_lengths.specs.Rekeyings.{MayRekey, MaySettle, rekeyed_in};
ghost use Rattle.entry_lengths.specs.Resets.{HasItsBlock, block_in, due_in, rekeying_due_in};
ghost use Rattle.iprop_truths.specs.Blocks.{block_for};
ghost use Rattle.kadm_commands.specs.Commands.{IsCommand};
ghost use Rattle.kdb_base.specs.Moment.{Moment};
ghost use Rattle.kdb_histories.specs.Asks.{Commanded, RekeyedNow, Settles, at_clock, kept_op};
ghost use Rattle.kdb_histories.specs.Seen.{due_at, seen};
ghost use Rattle.kdb_histories.specs.Stages.{ShowsAt};
ghost use Rattle.kdb_model.specs.Calls.{Call, point_after};
ghost use Rattle.kdb_model.specs.Rekeying.{Updated, Work, rekey};
ghost use Rattle.kdb_model.specs.Steps.{with_point};
ghost use Rattle.kdb_places.specs.Places.{Place};
ghost use Rattle.kdb_plain.specs.Changes.{effect_on};
ghost use Rattle.kdb_plain.specs.States.{IsValid};
ghost use Rattle.kdb_plain.specs.declared.states.State.{State};
ghost use Rattle.mkey_admin.specs.Plans.{IsMasterChange};
ghost use Rattle.mkey_admin.specs.declared.planned.MasterChange.{MasterChange};
ghost use Rattle.princ_rows.specs.Entries.{entry_len};
ghost use Rattle.princ_rows.specs.declared.entries.Op.{Op};
ghost use Rattle.princ_name.specs.Names.{NameParts};
ghost use Rattle.princ_name.specs.Realms.{IsRealm};
ghost use Rattle.princ_rows.specs.Rows.{AreRows, RowLists};
ghost use Rattle.rekey_work.specs.Works.{IsWork};
ghost use Rattle.row_keys.specs.Shows.{Shows};
ghost use Rattle.row_keys.specs.Sides.{AreBoth};

use princ_record::laws::principals_have_their_own_spellings;

/// The entry of a change that a judge names is as long as is told of the state that the rows show. The realm is one and
/// the command is one that a line can give in it, as the judges ask, and the change has a spelling, as they tell.
pub fn entries_have_their_lengths()
    ensures change { (rows : RowLists) (s : State) (call : Call) (op : Op) (c : IsChange rows s call op)
        → Shows rows s → IsApplied rows op → IsRealm s.realm → IsCommand s.realm call.command
        → entry_len (Some op) ≡ entry_len_in s c.plain }
    ensures master { (rows : RowLists) (s : State) (call : Call) (m : MasterChange) (c : IsMasterChange rows s call m)
        → Shows rows s → IsApplied rows m.op → IsRealm s.realm → IsCommand s.realm call.command
        → entry_len (Some m.op) ≡ entry_len_in s c.plain }
{}

/// A rekeying that is made has the effect of the change that is told of the state.
pub fn rekeyings_have_their_effects()
    ensures { (s after : State) (clock : Moment) (due : Bool) (name : NameParts)
        → rekey s name (at_clock clock due) ≡ Updated after
        → option_map (λ op. with_point (point_after s clock due) (effect_on op s)) (rekeyed_in s name clock)
        ≡ Some after }
{}

/// The entry of a rekeying is as long as is told of the principal under the version that is active; so it is where the
/// rekeying is done at once, and where work comes back and nothing of what was taken has changed. The change of rows is
/// there exactly where that of the state is.
pub fn rekeyings_have_their_lengths()
    ensures rekeyed { (rows : RowLists) (s : State) (time clock : Moment) (name : NameParts) (random : List ℕ)
        → Shows rows s → IsValid time s → AreRows rows → MayRekey name random
        → AreBoth (IsAsLong s) (kept_op rows s (RekeyedNow name clock random)) (rekeyed_in s name clock) }
    ensures settled { (rows : RowLists) (s : State) (clock : Moment) (name : NameParts) (work : Work)
        → Shows rows s → AreRows rows → IsWork work → MaySettle rows s name clock work
        → AreBoth (IsAsLong s) (kept_op rows s (Settles name clock work)) (rekeyed_in s name clock) }
{
    principals_have_their_own_spellings();
}

/// Whether a change that a judge names begins the log anew, and how long the blocks are behind it, is told of the state
/// and of how long the blocks are.
pub fn resets_are_facts_of_states()
    ensures due { (p : Place) (s : State) (call : Call) (op : Op) → IsChange p.rows s call op
        → ShowsAt p s → IsApplied p.rows op → IsCommand s.realm call.command
        → due_at (Commanded call) (seen p s) ≡ due_in p.block s call }
    ensures block { (p : Place) (s : State) (call : Call) (op : Op) (c : IsChange p.rows s call op) → ShowsAt p s
        → IsApplied p.rows op → IsCommand s.realm call.command → block_for op p ≡ block_in p.block s c.plain }
    ensures master_due { (p : Place) (s : State) (call : Call) (m : MasterChange)
        → IsMasterChange p.rows s call m → ShowsAt p s → IsApplied p.rows m.op → IsCommand s.realm call.command
        → due_at (Commanded call) (seen p s) ≡ due_in p.block s call }
    ensures master_block { (p : Place) (s : State) (call : Call) (m : MasterChange) (c : IsMasterChange p.rows s call m)
        → ShowsAt p s → IsApplied p.rows m.op → IsCommand s.realm call.command
        → block_for m.op p ≡ block_in p.block s c.plain }
{}

/// Whether a rekeying begins the log anew, and how long the blocks are behind it, is told of the state and of how long
/// the blocks are; so it is of work that comes back, where nothing of what was taken has changed.
pub fn resets_by_rekeyings_are_facts_of_states()
    ensures rekeyed_due { (p : Place) (s : State) (clock : Moment) (name : NameParts) (random : List ℕ)
        → ShowsAt p s → AreRows p.rows → MayRekey name random
        → due_at (RekeyedNow name clock random) (seen p s) ≡ rekeying_due_in p.block s name clock }
    ensures rekeyed_block { (p : Place) (s : State) (clock : Moment) (name : NameParts) (random : List ℕ)
        → ShowsAt p s → AreRows p.rows → MayRekey name random
        → AreBoth (HasItsBlock p s) (kept_op p.rows s (RekeyedNow name clock random)) (rekeyed_in s name clock) }
    ensures settled_due { (p : Place) (s : State) (clock : Moment) (name : NameParts) (work : Work)
        → ShowsAt p s → AreRows p.rows → IsWork work → MaySettle p.rows s name clock work
        → due_at (Settles name clock work) (seen p s) ≡ rekeying_due_in p.block s name clock }
    ensures settled_block { (p : Place) (s : State) (clock : Moment) (name : NameParts) (work : Work)
        → ShowsAt p s → AreRows p.rows → IsWork work → MaySettle p.rows s name clock work
        → AreBoth (HasItsBlock p s) (kept_op p.rows s (Settles name clock work)) (rekeyed_in s name clock) }
{
    rekeyings_have_their_lengths();
}
