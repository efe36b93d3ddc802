//! What a command comes to.

ghost use Rattle.std.specs.Prelude.{◌≡◌, Err, IfOk, Ok, Some, length, option_map, true};
ghost use Rattle.command_plans.specs.Given.{IsAnswer, IsApplied, IsCallOf, IsChange, IsJudged, IsSeenBy};
ghost use Rattle.command_plans.specs.declared.planned.Planned.TheVariants.{Answer, Change};
ghost use Rattle.kadm_commands.specs.Commands.{IsCommand};
ghost use Rattle.kadm_commands.specs.declared.replies.Reply.{Reply as Replies};
ghost use Rattle.kadm_plan.specs.Ready.{is_planned};
ghost use Rattle.kdb_base.specs.declared.outcomes.Halt.{Halt as Halts};
ghost use Rattle.kdb_base.specs.declared.outcomes.Halt.TheVariants.{MemoryOut as IsMemoryOut};
ghost use Rattle.kdb_base.specs.declared.outcomes.Refusal.{Refusal as Refuses};
ghost use Rattle.kdb_base.specs.declared.outcomes.Stop.TheVariants as stop;
ghost use Rattle.kdb_model.specs.Calls.{Call};
ghost use Rattle.kdb_model.specs.Refusals.{refusal};
ghost use Rattle.kdb_plain.specs.declared.states.State.{State};
ghost use Rattle.princ_rows.specs.declared.entries.Op.{Op as Operation};
ghost use Rattle.princ_name.specs.Realms.{IsRealm};

use crate::ready::Ready;
use acl_text::Acl;
use command_plans::dropping::plan_drop;
use command_plans::given::Given;
use command_plans::listing::{plan_list, plan_list_policies, plan_privileges};
use command_plans::policies::{
    plan_add_policy, plan_drop_policy, plan_modify_policy, plan_show_policy,
};
use command_plans::purging::plan_purge;
use command_plans::reading::{plan_extract, plan_show, plan_strings};
use command_plans::renaming::plan_rename;
use command_plans::strings::{plan_drop_string, plan_set_string};
use command_plans::{Planned, View};
use kadm_commands::Command;
use kdb_base::{Halt, MemoryOut, Refusal, Stop, Time};
use key_plans::plan_change_keys;
use princ_name::Name;
use princ_plans::{plan_add, plan_modify};
use std::alloc::Global;

/// The command, judged by all that is given.
fn judged(
    alloc: Global,
    given: &Given,
    ready: &Ready,
) -> Result<Result<Planned, Refusal>, MemoryOut>
    requires realm { IsRealm given.now.realm.now }
    requires command { IsCommand given.now.realm.now ready.now.command }
    requires random { length given.now.random.now ≡ 2048 }
    ensures { is_planned ready.now.command ≡ true → IfOk result (λ plan. IsJudged given.now ready.now.command plan) }
{
    match ready.command() {
        Command::AddPrinc(c) => plan_add(alloc, given, c, ready.keys()),
        Command::ModPrinc(c) => plan_modify(alloc, given, c),
        Command::ChangeKeys(c) => plan_change_keys(alloc, given, c, ready.keys().as_slice()),
        Command::RenPrinc(c) => plan_rename(alloc, given, c),
        Command::DelPrinc(name) => plan_drop(alloc, given, name),
        Command::GetPrinc(name) => plan_show(alloc, given, name),
        Command::ListPrincs(glob) => plan_list(alloc, given, glob),
        Command::PurgeKeys(c) => plan_purge(alloc, given, c),
        Command::SetString(c) => plan_set_string(alloc, given, c),
        Command::DelString(c) => plan_drop_string(alloc, given, c),
        Command::GetStrings(name) => plan_strings(alloc, given, name),
        Command::Extract(name) => plan_extract(alloc, given, name),
        Command::AddPolicy(policy) => plan_add_policy(alloc, given, policy),
        Command::ModPolicy(c) => plan_modify_policy(alloc, given, c),
        Command::DelPolicy(name) => plan_drop_policy(alloc, given, name),
        Command::GetPolicy(name) => plan_show_policy(alloc, given, name),
        Command::ListPolicies => plan_list_policies(alloc, given),
        Command::GetPrivs => plan_privileges(alloc, given),
        _ => Err(MemoryOut),
    }
}

/// What a command comes to, in rows that are kept under these master keys: a refusal, an answer, or one change of
/// the rows. `moment` is the later of the clock's time and that of the last change; new keys and confounders are taken
/// of `random`. That the log starts anew, and a refusal for want of a later time, are of whoever holds the log.
///
/// # Errors
///
/// `Refused` with the first cause that holds, and `Halt` where memory is wanted and not given, or a key of the rows
/// does not open, as none does in rows that show a state.
pub fn plan(
    alloc: Global,
    ready: &Ready,
    view: &View,
    client: &Name,
    acl: Option<&Acl>,
    moment: Time,
    random: &[u8],
) -> Result<Planned, Stop>
    requires realm { IsRealm view.now.realm.now }
    requires command { IsCommand view.now.realm.now ready.now.command }
    requires planned { is_planned ready.now.command ≡ true }
    requires random { length random.now ≡ 2048 }
    ensures refused { (s : State) (call : Call) (why : Refuses)
        → IsSeenBy view.now.rows.now view.now.masters.now view.now.realm.now moment s
        → IsCallOf s client.now (option_map (λ acl. acl.now) acl.entry) ready.now.command moment random.now call
        → result ≡ Err (stop.Refused why) → refusal s call ≡ Some why }
    ensures answer { (s : State) (call : Call) (reply : Replies)
        → IsSeenBy view.now.rows.now view.now.masters.now view.now.realm.now moment s
        → IsCallOf s client.now (option_map (λ acl. acl.now) acl.entry) ready.now.command moment random.now call
        → result ≡ Ok (Answer reply) → IsAnswer s call reply }
    ensures change { (s : State) (call : Call) (op : Operation)
        → IsSeenBy view.now.rows.now view.now.masters.now view.now.realm.now moment s
        → IsCallOf s client.now (option_map (λ acl. acl.now) acl.entry) ready.now.command moment random.now call
        → result ≡ Ok (Change op) → IsChange view.now.rows.now s call op }
    // The change has a spelling, and may be made whatever the rows show.
    ensures applies { (op : Operation) → result ≡ Ok (Change op) → IsApplied view.now.rows.now op }
    ensures halted { (halt : Halts) → result ≡ Err (stop.Halt halt) → halt ≡ IsMemoryOut }
{
    let given = Given {
        rows: view.rows,
        masters: view.masters,
        realm: view.realm,
        client,
        acl,
        moment,
        random,
    };
    match judged(alloc, &given, ready) {
        Ok(plan) => match plan {
            Ok(planned) => Ok(planned),
            Err(why) => Err(Stop::Refused(why)),
        },
        Err(_) => Err(Stop::Halt(Halt::MemoryOut)),
    }
}
