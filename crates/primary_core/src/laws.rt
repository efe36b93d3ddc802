//! Laws of an open primary. They do no work.

ghost use Rattle.std.specs.Prelude.{◌≡◌, ℕ, true, false, List, [], Option, Some, None};
ghost use Rattle.acl_text.specs.declared.rules.AclLine.{AclLine};
ghost use Rattle.command_plans.specs.Given.{IsChange};
ghost use Rattle.iprop_truths.specs.Parts.{end_of};
ghost use Rattle.kadm_commands.specs.declared.commands.Command.{Command};
ghost use Rattle.kadm_commands.specs.declared.replies.Reply.{Reply};
ghost use Rattle.kadm_commands.specs.declared.replies.Reply.TheVariants.{Refused};
ghost use Rattle.performed_plans.specs.Ready.{is_planned};
ghost use Rattle.kdb_base.specs.Moment.{Moment};
ghost use Rattle.kdb_base.specs.declared.outcomes.Refusal.TheVariants.{TimeEnd};
ghost use Rattle.kdb_histories.specs.Asks.{Ask, Commanded, Replied, clock_of};
ghost use Rattle.kdb_histories.specs.Calls.{Performs};
ghost use Rattle.kdb_histories.specs.Moves.{IsLeft};
ghost use Rattle.kdb_histories.specs.Seen.{after_ask, answer_at, entry_point, is_due, seen};
ghost use Rattle.kdb_histories.specs.Stages.{places};
ghost use Rattle.kdb_model.specs.Calls.{Call, call_of, is_last};
ghost use Rattle.kdb_model.specs.Steps.{step};
ghost use Rattle.kdb_places.specs.Places.{Place};
ghost use Rattle.kdb_plain.specs.declared.states.State.{State};
ghost use Rattle.mkey_admin.specs.Plans.{IsMasterChange, is_master_command};
ghost use Rattle.mkey_admin.specs.declared.planned.MasterChange.{MasterChange};
ghost use Rattle.primary_core.specs.Opened.{HasState, IsDecided, Opened, made_for};
ghost use Rattle.primary_core.specs.Opened.{masters_behind, masters_brought, place_of};
ghost use Rattle.primary_core.specs.declared.decided.DecidedChange.{DecidedChange};
ghost use Rattle.princ_rows.specs.declared.entries.Op.{Op};
ghost use Rattle.princ_name.specs.Names.{NameParts};

use kdb_model::laws::{
    accepted_change_takes_effect, changes_spare_the_own_keys, new_log_moves_the_point_alone,
    reading_command_changes_nothing, refused_command_changes_nothing,
};
use kdb_plain::laws::spared_keys_stay;

/// What was decided is what the ask comes to, in the state that the rows show: the answer is its own, the places that
/// are made end at its place, and the state behind it is the one that the rows show there, with the master keys behind
/// the change.
pub fn decisions_are_asked()
    ensures answers { (o : Opened) (ask : Ask) (reply : Reply) (change : Option DecidedChange) (s : State)
        → IsDecided o ask reply change → HasState o s → answer_at ask (seen (place_of o) s) ≡ Replied reply }
    ensures place { (o : Opened) (ask : Ask) (reply : Reply) (change : Option DecidedChange) (s : State)
        → IsDecided o ask reply change → HasState o s → (after_ask ask (seen (place_of o) s)).place
        ≡ end_of (place_of o) (places (made_for ask change (place_of o))) }
    ensures keeps { (o : Opened) (ask : Ask) (reply : Reply) (s : State) → IsDecided o ask reply None → HasState o s
        → after_ask ask (seen (place_of o) s) ≡ seen (place_of o) s }
    ensures leaves { (o : Opened) (ask : Ask) (reply : Reply) (change : DecidedChange) (s : State)
        → IsDecided o ask reply (Some change) → HasState o s
        → IsLeft (place_of o).realm (entry_point (clock_of ask) change.op (place_of o)) change.op (place_of o).rows
        (after_ask ask (seen (place_of o) s)).state }
    ensures masters { (o : Opened) (ask : Ask) (reply : Reply) (change : Option DecidedChange) (s : State)
        → IsDecided o ask reply change → HasState o s
        → (after_ask ask (seen (place_of o) s)).state.masters ≡ masters_behind o (masters_brought change) }
{}

/// A command that rows alone decide leaves the master keys as they are.
pub(crate) fn planned_commands_keep_the_masters()
    ensures { (s : State) (call : Call) → is_planned call.command ≡ true → (step s call).state.masters ≡ s.masters }
{
    refused_command_changes_nothing();
    reading_command_changes_nothing();
    accepted_change_takes_effect();
    changes_spare_the_own_keys();
    spared_keys_stay();
}

/// A change for which the log is to begin anew is refused where no later time is left, and makes no place.
pub(crate) fn changes_end_with_time()
    ensures { (p : Place) (s : State) (client : NameParts) (access : Option (List AclLine)) (cmd : Command)
        (clock : Moment) (random : List ℕ) (op : Op)
        → is_due op p ≡ true → is_last s.point.time ≡ true
        → IsChange p.rows s (call_of client access cmd clock random false) op
        → Performs p s (Commanded (call_of client access cmd clock random false)) (Replied (Refused TimeEnd)) [] }
{
    new_log_moves_the_point_alone();
    refused_command_changes_nothing();
}

/// The same of a change of master keys.
pub(crate) fn master_changes_end_with_time()
    ensures { (p : Place) (s : State) (client : NameParts) (access : Option (List AclLine)) (cmd : Command)
        (clock : Moment) (random : List ℕ) (c : MasterChange)
        → is_master_command cmd ≡ true → is_due c.op p ≡ true → is_last s.point.time ≡ true
        → IsMasterChange p.rows s (call_of client access cmd clock random false) c
        → Performs p s (Commanded (call_of client access cmd clock random false)) (Replied (Refused TimeEnd)) [] }
{
    new_log_moves_the_point_alone();
    refused_command_changes_nothing();
}
