//! Laws of plans and of what is performed. They do no work.

ghost use Rattle.std.specs.Prelude.{◌≡◌, ℕ, [], List, Option, Some, false, true};
ghost use Rattle.acl_text.specs.declared.rules.AclLine.{AclLine};
ghost use Rattle.command_plans.specs.Given.{IsAnswer, IsChange};
ghost use Rattle.kadm_commands.specs.declared.commands.Command.{Command};
ghost use Rattle.kadm_commands.specs.declared.replies.Reply.{Reply};
ghost use Rattle.kadm_commands.specs.declared.replies.Reply.TheVariants.{Done, Refused};
ghost use Rattle.kadm_plan.specs.Ready.{is_planned};
ghost use Rattle.kdb_base.specs.Moment.{Moment};
ghost use Rattle.kdb_base.specs.declared.outcomes.Refusal.{Refusal};
ghost use Rattle.kdb_histories.specs.Asks.{Ask, Commanded, Replied, clock_of};
ghost use Rattle.kdb_histories.specs.Calls.{Performs};
ghost use Rattle.kdb_histories.specs.Seen.{changed, entry_point, outcome_at, seen};
ghost use Rattle.kdb_histories.specs.Stages.{places};
ghost use Rattle.kdb_model.specs.Calls.{call_of};
ghost use Rattle.kdb_model.specs.Refusals.{refusal};
ghost use Rattle.kdb_places.specs.Places.{Place};
ghost use Rattle.kdb_plain.specs.declared.states.State.{State};
ghost use Rattle.mkey_admin.specs.Plans.{IsMasterChange, is_master_command, reply_at};
ghost use Rattle.mkey_admin.specs.declared.planned.MasterChange.{MasterChange};
ghost use Rattle.performed_plans.specs.Changes.{IsReady, change_places};
ghost use Rattle.princ_rows.specs.declared.entries.Op.{Op};
ghost use Rattle.princ_name.specs.Names.{NameParts};

use kdb_model::laws::{
    changes_spare_the_own_keys, new_log_moves_the_point_alone, step_keeps_states_valid,
};
use row_keys::laws::changed_rows_show;

/// What a plan says of a state is what a primary performs of a place, for every command that rows alone decide: a
/// refusal and an answer make no place, whether or not the log is to begin anew, and a change makes the place of its
/// entry, behind that of a log begun anew where one is due.
pub fn plans_are_performed()
    ensures refused { (p : Place) (s : State) (client : NameParts) (access : Option (List AclLine)) (cmd : Command)
        (clock : Moment) (random : List ℕ) (why : Refusal)
        → refusal s (call_of client access cmd clock random false) ≡ Some why
        → Performs p s (Commanded (call_of client access cmd clock random false)) (Replied (Refused why)) [] }
    ensures answers { (p : Place) (s : State) (client : NameParts) (access : Option (List AclLine)) (cmd : Command)
        (clock : Moment) (random : List ℕ) (reply : Reply)
        → is_planned cmd ≡ true → IsAnswer s (call_of client access cmd clock random false) reply
        → Performs p s (Commanded (call_of client access cmd clock random false)) (Replied reply) [] }
    ensures changes { (p : Place) (s : State) (client : NameParts) (access : Option (List AclLine)) (cmd : Command)
        (clock : Moment) (random : List ℕ) (op : Op)
        → is_planned cmd ≡ true → IsReady p s cmd clock random op
        → IsChange p.rows s (call_of client access cmd clock random false) op
        → Performs p s (Commanded (call_of client access cmd clock random false)) (Replied
        (Done (entry_point clock op p))) (changed (Commanded (call_of client access cmd clock random false)) op p) }
{
    new_log_moves_the_point_alone();
    step_keeps_states_valid();
    changes_spare_the_own_keys();
    changed_rows_show();
}

/// The same of the commands of master keys. What they answer has the point of their entry, and the master keys behind a
/// change are those that its plan tells.
pub fn master_plans_are_performed()
    ensures answers { (p : Place) (s : State) (client : NameParts) (access : Option (List AclLine)) (cmd : Command)
        (clock : Moment) (random : List ℕ) (reply : Reply)
        → is_master_command cmd ≡ true → IsAnswer s (call_of client access cmd clock random false) reply
        → Performs p s (Commanded (call_of client access cmd clock random false)) (Replied reply) [] }
    ensures changes { (p : Place) (s : State) (client : NameParts) (access : Option (List AclLine)) (cmd : Command)
        (clock : Moment) (random : List ℕ) (c : MasterChange)
        → is_master_command cmd ≡ true → IsReady p s cmd clock random c.op
        → IsMasterChange p.rows s (call_of client access cmd clock random false) c
        → Performs p s (Commanded (call_of client access cmd clock random false))
        (Replied (reply_at (entry_point clock c.op p) c.told))
        (changed (Commanded (call_of client access cmd clock random false)) c.op p) }
    ensures masters { (p : Place) (s : State) (client : NameParts) (access : Option (List AclLine)) (cmd : Command)
        (clock : Moment) (random : List ℕ) (c : MasterChange)
        → is_master_command cmd ≡ true → IsReady p s cmd clock random c.op
        → IsMasterChange p.rows s (call_of client access cmd clock random false) c
        → (outcome_at (Commanded (call_of client access cmd clock random false)) (seen p s)).state.masters ≡ c.masters }
{
    new_log_moves_the_point_alone();
    step_keeps_states_valid();
    changes_spare_the_own_keys();
    changed_rows_show();
}

/// The places of the stages that a change makes.
pub fn changes_make_places()
    ensures { (ask : Ask) (op : Op) (p : Place) → places (changed ask op p) ≡ change_places (clock_of ask) op p }
{}
