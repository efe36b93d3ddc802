//! What a planned change leads to. No law does any work.

ghost use Rattle.std.specs.Prelude.{◌≡◌, Some, true};
ghost use Rattle.command_plans.specs.Given.{IsChange};
ghost use Rattle.kadm_plan.specs.Ready.{is_planned};
ghost use Rattle.kdb_model.specs.Calls.{Call};
ghost use Rattle.kdb_model.specs.Steps.{step};
ghost use Rattle.kdb_plain.specs.declared.states.State.{State};
ghost use Rattle.princ_rows.specs.Effects.{effect};
ghost use Rattle.princ_rows.specs.Rows.{RowLists};
ghost use Rattle.princ_rows.specs.declared.entries.Op.{Op};
ghost use Rattle.row_keys.specs.Shows.{Shows};

use kdb_model::laws::{accepted_change_takes_effect, changes_spare_the_own_keys};
use row_keys::laws::changed_rows_show;

/// Rows that show a state show the next one behind the change that is planned: the change has the effect of the
/// model's step.
pub fn changes_show_the_next_state()
    ensures { (rows : RowLists) (s : State) (call : Call) (op : Op) → is_planned call.command ≡ true → Shows rows s
        → IsChange rows s call op → Shows (effect (Some op) rows) (step s call).state }
{
    accepted_change_takes_effect();
    changes_spare_the_own_keys();
    changed_rows_show();
}
