//! Laws of steps. They do no work.

ghost use Rattle.std.specs.Prelude.{◌≡◌, ◌+◌, ◌<◌, ◌≤◌, ◌≢◌, ◌++◌, Bool, List, Some, None, true, false};
ghost use Rattle.kadm_commands.specs.declared.replies.Reply.{Reply};
ghost use Rattle.kdb_base.specs.Moments.{ComesBefore, later_moment, micros};
ghost use Rattle.kdb_base.specs.declared.outcomes.Refusal.{Refusal};
ghost use Rattle.kdb_model.specs.Calls.{Call, is_last, next_moment};
ghost use Rattle.kdb_model.specs.Entries.{entry};
ghost use Rattle.kdb_model.specs.Laws.{IsPoint, IsStep, at_point, is_master_line, reply_at, told};
ghost use Rattle.kdb_model.specs.Refusals.{refusal};
ghost use Rattle.kdb_model.specs.Steps.{fold, step};
ghost use Rattle.kdb_plain.specs.Changes.{Spares, effect_on};
ghost use Rattle.kdb_plain.specs.declared.changes.PlainOp.{PlainOp};
ghost use Rattle.kdb_plain.specs.States.{IsValidState};
ghost use Rattle.kdb_plain.specs.declared.states.State.{State};

use kdb_plain::laws::valid_later;

/// A command that is refused changes nothing, and its answer is the refusal.
pub fn refused_command_changes_nothing()
    ensures { (s : State) (call : Call) (why : Refusal) → refusal s call ≡ Some why
        → step s call ≡ record { state = s; reply = Reply.Refused why } }
{}

/// A command that makes no change leaves the state as it is.
pub fn reading_command_changes_nothing()
    ensures { (s : State) (call : Call) → entry s call ≡ None → (step s call).state ≡ s }
{}

/// A change that is not refused takes effect. It gets the next serial and the later of the last change's time and the
/// clock's; where the log is to start anew before it, serial 2, at the later of the clock's time and the microsecond
/// behind the last change. Its point is never an earlier time.
pub fn accepted_change_takes_effect()
    ensures state { (s : State) (call : Call) (op : PlainOp) → refusal s call ≡ None → entry s call ≡ Some op
        → (step s call).state ≡ at_point (step s call).state.point (effect_on op s) }
    ensures next { (s : State) (call : Call) (op : PlainOp)
        → call.due ≡ false → refusal s call ≡ None → entry s call ≡ Some op
        → (step s call).state.point ≡ record { sno = s.point.sno + 1; time = later_moment s.point.time call.moment } }
    ensures anew { (s : State) (call : Call) (op : PlainOp)
        → call.due ≡ true → refusal s call ≡ None → entry s call ≡ Some op
        → (step s call).state.point ≡ record { sno = 2; time = later_moment call.moment (next_moment s.point.time) } }
    ensures later { (s : State) (call : Call) → IsStep s call
        → micros s.point.time ≤ micros (step s call).state.point.time }
{}

/// A step keeps a valid state valid, gives it a point that is one, and keeps its realm.
pub fn step_keeps_states_valid()
    ensures valid { (s : State) (call : Call) → IsStep s call → IsValidState (step s call).state }
    ensures point { (s : State) (call : Call) → IsStep s call → IsPoint (step s call).state.point }
    ensures realm { (s : State) (call : Call) → (step s call).state.realm ≡ s.realm }
{
    valid_later();
}

/// Whether the log is to start anew before a change decides on nothing but its point, and on a refusal where no later
/// time is left.
pub fn new_log_moves_the_point_alone()
    ensures refused { (s : State) (call : Call) (why : Refusal) → refusal s (told false call) ≡ Some why
        → refusal s (told true call) ≡ Some why }
    ensures reading { (s : State) (call : Call) → refusal s (told false call) ≡ None → entry s call ≡ None
        → step s (told true call) ≡ step s (told false call) }
    ensures ended { (s : State) (call : Call) (op : PlainOp) → refusal s (told false call) ≡ None
        → entry s call ≡ Some op → is_last s.point.time ≡ true → refusal s (told true call) ≡ Some Refusal.TimeEnd }
    ensures state { (s : State) (call : Call) (op : PlainOp) → refusal s (told false call) ≡ None
        → entry s call ≡ Some op → is_last s.point.time ≡ false → (step s (told true call)).state
        ≡ at_point (step s (told true call)).state.point (step s (told false call)).state }
    ensures entry { (s : State) (call : Call) (due : Bool) → entry s (told due call) ≡ entry s call }
    ensures accepted { (s : State) (call : Call) (op : PlainOp) → refusal s (told false call) ≡ None
        → entry s call ≡ Some op → is_last s.point.time ≡ false → refusal s (told true call) ≡ None }
    ensures reply { (s : State) (call : Call) (op : PlainOp) → refusal s (told false call) ≡ None
        → entry s call ≡ Some op → is_last s.point.time ≡ false → (step s (told true call)).reply
        ≡ reply_at (step s (told true call)).state.point (step s (told false call)).reply }
{}

/// An accepted change that is none of the master keys is of another principal than K/M and kadmin/history, or of a
/// policy.
pub fn changes_spare_the_own_keys()
    ensures { (s : State) (call : Call) (op : PlainOp) → refusal s call ≡ None → entry s call ≡ Some op
        → is_master_line call.command ≡ false → Spares s.realm op }
{}

/// Two lists of commands, one behind the other, do what the second does behind the first.
pub fn commands_go_on()
    ensures { (s : State) (calls others : List Call) → fold s (calls ++ others) ≡ record {
      replies = (fold s calls).replies ++ (fold (fold s calls).state others).replies;
      state = (fold (fold s calls).state others).state;
    } }
{}
