//! What a command of master keys comes to.

ghost use Rattle.std.specs.Prelude.{◌≡◌, Err, IfOk, Ok, Some, length, option_map, true};
ghost use Rattle.command_plans.specs.Given.{IsAnswer, IsApplied, IsCallOf, IsSeenBy};
ghost use Rattle.kadm_commands.specs.Commands.{IsCommand};
ghost use Rattle.kadm_commands.specs.declared.replies.Reply.{Reply as Replies};
ghost use Rattle.kdb_base.specs.declared.outcomes.Halt.{Halt as Halts};
ghost use Rattle.kdb_base.specs.declared.outcomes.Halt.TheVariants.{MemoryOut as IsMemoryOut};
ghost use Rattle.kdb_base.specs.declared.outcomes.Refusal.{Refusal as Refuses};
ghost use Rattle.kdb_base.specs.declared.outcomes.Stop.TheVariants as stop;
ghost use Rattle.kdb_model.specs.Calls.{Call};
ghost use Rattle.kdb_model.specs.Refusals.{refusal};
ghost use Rattle.kdb_plain.specs.declared.states.State.{State};
ghost use Rattle.mkey_admin.specs.Plans.{IsMasterChange, IsMasterJudged, is_master_command};
ghost use Rattle.mkey_admin.specs.declared.planned.MasterChange.{MasterChange as Changes};
ghost use Rattle.mkey_admin.specs.declared.planned.MasterPlan.TheVariants.{Answer, Change};
ghost use Rattle.princ_name.specs.Realms.{IsRealm};

use crate::activating::plan_use;
use crate::adding::plan_add;
use crate::listing::list;
use crate::planned::MasterPlan;
use crate::purging::plan_purge;
use acl_text::Acl;
use command_plans::View;
use command_plans::given::Given;
use kadm_commands::Command;
use kdb_base::{Halt, MemoryOut, Refusal, Stop, Time};
use princ_name::Name;
use std::alloc::Global;

/// The command, judged by all that is given.
fn judged(
    alloc: Global,
    given: &Given,
    command: &Command,
) -> Result<Result<MasterPlan, Refusal>, MemoryOut>
    requires realm { IsRealm given.now.realm.now }
    requires command { IsCommand given.now.realm.now command.now }
    requires random { length given.now.random.now ≡ 2048 }
    ensures { is_master_command command.now ≡ true → IfOk result (λ plan. IsMasterJudged given.now command.now plan) }
{
    match command {
        Command::AddMaster(etype) => plan_add(alloc, given, *etype),
        Command::UseMaster(c) => plan_use(alloc, given, c),
        Command::ListMasters => list(alloc, given),
        Command::PurgeMasters => plan_purge(alloc, given),
        _ => Err(MemoryOut),
    }
}

/// What a command of master keys comes to, in rows that are kept under these master keys: a refusal, an answer, or one
/// change of K/M's record. `moment` is the later of the clock's time and that of the last change; a new key and the
/// confounders are taken of `random`. That the log starts anew, and a refusal for want of a later time, are of whoever
/// holds the log.
///
/// # Errors
///
/// `Refused` with the first cause that holds, and `Halt` where memory is wanted and not given, or the rows show no
/// state under the master keys.
pub fn plan(
    alloc: Global,
    command: &Command,
    view: &View,
    client: &Name,
    acl: Option<&Acl>,
    moment: Time,
    random: &[u8],
) -> Result<MasterPlan, Stop>
    requires realm { IsRealm view.now.realm.now }
    requires command { IsCommand view.now.realm.now command.now }
    requires planned { is_master_command command.now ≡ true }
    requires random { length random.now ≡ 2048 }
    ensures refused { (s : State) (call : Call) (why : Refuses)
        → IsSeenBy view.now.rows.now view.now.masters.now view.now.realm.now moment s
        → IsCallOf s client.now (option_map (λ acl. acl.now) acl.entry) command.now moment random.now call
        → result ≡ Err (stop.Refused why) → refusal s call ≡ Some why }
    ensures answer { (s : State) (call : Call) (reply : Replies)
        → IsSeenBy view.now.rows.now view.now.masters.now view.now.realm.now moment s
        → IsCallOf s client.now (option_map (λ acl. acl.now) acl.entry) command.now moment random.now call
        → result ≡ Ok (Answer reply) → IsAnswer s call reply }
    ensures change { (s : State) (call : Call) (c : Changes)
        → IsSeenBy view.now.rows.now view.now.masters.now view.now.realm.now moment s
        → IsCallOf s client.now (option_map (λ acl. acl.now) acl.entry) command.now moment random.now call
        → result ≡ Ok (Change c) → IsMasterChange view.now.rows.now s call c }
    // The change has a spelling, and may be made whatever the rows show.
    ensures applies { (c : Changes) → result ≡ Ok (Change c) → IsApplied view.now.rows.now c.op }
    ensures halted { (halt : Halts) → result ≡ Err (stop.Halt halt) → halt ≡ IsMemoryOut }
{
    let given = Given {
        rows: view.rows,
        masters: view.masters,
        realm: view.realm,
        client,
        acl,
        moment,
        random,
    };
    match judged(alloc, &given, command) {
        Ok(plan) => match plan {
            Ok(planned) => Ok(planned),
            Err(why) => Err(Stop::Refused(why)),
        },
        Err(_) => Err(Stop::Halt(Halt::MemoryOut)),
    }
}
