//! What a command does to a state and answers.

ghost use Rattle.std.specs.Prelude.{◌≡◌, ◌<◌, IfOk, None, Option, Some, false, length, option_map, true};
ghost use Rattle.kadm_commands.specs.Commands.{IsCommand};
ghost use Rattle.kdb_model.specs.Access.{is_own, master_parts};
ghost use Rattle.kdb_model.specs.Asking.{IsDecided, call_in, state_in};
ghost use Rattle.kdb_model.specs.Calls.{call_of, change_point, moment_of};
ghost use Rattle.kdb_model.specs.Refusals.{causes_with, first, needed_name, new_name};
ghost use Rattle.kdb_model.specs.Refusals.{target as needed_target, too_many_masters};
ghost use Rattle.kdb_model.specs.Steps.{change_reply, committed, is_one_step, performed, step};
ghost use Rattle.kdb_plain.specs.Changes.{HasRoom, effect_on};
ghost use Rattle.kdb_plain.specs.States.{IsValid, IsValidState};
ghost use Rattle.kdb_plain.specs.declared.changes.PlainOp.{PlainOp};
ghost use Rattle.princ_name.specs.Names.{IsName, NameParts, printed};
ghost use Rattle.princ_name.specs.Printed.{IsPrinted};

use crate::access::{denied, is_own};
use crate::asked::{Asked, moment_of, secs_of};
use crate::entries::entry;
use crate::masters::{last_version, purge_rows, use_secs};
use crate::named::{find_some, master_parts, needed_name, new_name, print_some, read_printed};
use crate::reading::reading;
use crate::refusals::{
    duplicate, few_classes, first, keys_full, locked_down, no_active_master, pass_reused, password,
    password_numbers, policy_in_use, protected, rows_full, strings_full, too_large,
    too_many_masters, too_short, too_soon, unknown_master, unknown_policy, unknown_principal,
    unknown_string,
};
use acl_text::Acl;
use kadm_commands::{Command, Reply};
use kdb_base::{Blob, MemoryOut, Point, Refusal, Time};
use kdb_plain::laws::valid_later;
use kdb_plain::{PlainOp, PlainPrinc, State, apply, copy_state};
use princ_name::Name;
use std::alloc::Global;

/// The point of the next change.
#[tactic(auto, unfolding(crate::specs::Calls::point_after))]
fn next_point(asked: &Asked) -> Point
    requires { (state_in asked.now).point.sno < 4294967295 }
    ensures { result ≡ change_point (state_in asked.now) (call_in asked.now) }
{
    Point {
        sno: asked.state.point.sno + 1,
        time: moment_of(asked),
    }
}

/// The answer to a command that made its change.
#[tactic(auto, unfolding(crate::specs::Steps::change_reply, master_keys::specs::Adding::next_version))]
fn change_reply(alloc: Global, asked: &Asked) -> Result<Reply, MemoryOut>
    requires { (state_in asked.now).point.sno < 4294967295 }
    ensures { too_many_masters (state_in asked.now) asked.now.command.now ≡ None
        → IfOk result (λ r. r ≡ change_reply (state_in asked.now) (call_in asked.now)
        (change_point (state_in asked.now) (call_in asked.now)) asked.now.command.now) }
{
    match asked.command {
        Command::AddMaster(_) => {
            let version = last_version(&asked.state.masters).saturating_add(1);
            Ok(Reply::MasterAdded(next_point(asked), version))
        }
        Command::UseMaster(c) => Ok(Reply::MasterUsed(
            next_point(asked),
            c.version,
            use_secs(asked, c),
        )),
        Command::PurgeMasters => {
            let rows = purge_rows(alloc, asked.state, secs_of(asked))?;
            Ok(Reply::MastersPurged(Some(next_point(asked)), rows))
        }
        _ => Ok(Reply::Done(next_point(asked))),
    }
}

/// The same state, with this answer.
fn answered(alloc: Global, state: &State, reply: Reply) -> Result<(State, Reply), MemoryOut>
    ensures state { IfOk result (λ r. r.0 ≡ state.now) }
    ensures reply { IfOk result (λ r. r.1 ≡ reply) }
{
    let same = copy_state(alloc, state)?;
    Ok((same, reply))
}

/// The state behind a change.
fn changed(alloc: Global, asked: &Asked, op: PlainOp) -> Result<State, MemoryOut>
    requires serial { (state_in asked.now).point.sno < 4294967295 }
    requires room { HasRoom (effect_on op (state_in asked.now)) }
    ensures { IfOk result (λ s. s ≡ record (effect_on op (state_in asked.now))
        { point = change_point (state_in asked.now) (call_in asked.now) }) }
{
    let copy = copy_state(alloc, asked.state)?;
    let mut next = apply(copy, op)?;
    next.point = next_point(asked);
    Ok(next)
}

/// The state behind a change that is not refused, and its answer.
fn committed(alloc: Global, asked: &Asked, op: PlainOp) -> Result<(State, Reply), MemoryOut>
    requires serial { (state_in asked.now).point.sno < 4294967295 }
    requires room { HasRoom (effect_on op (state_in asked.now)) }
    requires masters { too_many_masters (state_in asked.now) asked.now.command.now ≡ None }
    ensures state { IfOk result (λ r. r.0 ≡ (committed (state_in asked.now) (call_in asked.now) op).state) }
    ensures reply { IfOk result (λ r. r.1 ≡ (committed (state_in asked.now) (call_in asked.now) op).reply) }
{
    let reply = change_reply(alloc, asked)?;
    let next = changed(alloc, asked, op)?;
    Ok((next, reply))
}

/// What a command does and answers that is not refused, where it makes this change.
#[tactic(auto, unfolding(crate::specs::Steps::performed))]
fn performed(
    alloc: Global,
    asked: &Asked,
    target: Option<&PlainPrinc>,
    change: Option<PlainOp>,
) -> Result<(State, Reply), MemoryOut>
    requires target { option_map (λ q. q.now) target ≡ needed_target (state_in asked.now) asked.now.command.now }
    requires serial { (state_in asked.now).point.sno < 4294967295 }
    requires room { (op : PlainOp) → change ≡ Some op → HasRoom (effect_on op (state_in asked.now)) }
    requires masters { too_many_masters (state_in asked.now) asked.now.command.now ≡ None }
    ensures state { IfOk result (λ r. r.0 ≡ (performed (state_in asked.now) (call_in asked.now) change).state) }
    ensures reply { IfOk result (λ r. r.1 ≡ (performed (state_in asked.now) (call_in asked.now) change).reply) }
{
    match change {
        Some(op) => committed(alloc, asked, op),
        None => {
            let reply = reading(alloc, asked, target)?;
            answered(alloc, asked.state, reply)
        }
    }
}

/// What a command names, and what stands by these names.
#[derive(Clone, Copy)]
struct Names<'a> {
    /// The name of the principal that has to be there.
    needed: &'a Option<Blob>,
    /// The name of the principal that is to be new.
    fresh: &'a Option<Blob>,
    /// The name of K/M.
    master: &'a Name,
    /// Whether everybody may give the command, since it is on the own name.
    own: bool,
}

/// The first cause to refuse a command that would make this change.
#[tactic(auto, unfolding(crate::specs::Refusals::causes_with))]
fn refusal(
    alloc: Global,
    asked: &Asked,
    names: &Names,
    target: Option<&PlainPrinc>,
    change: &Option<PlainOp>,
) -> Result<Option<Refusal>, MemoryOut>
    requires needed { names.now.needed.now ≡ option_map printed (needed_name asked.now.command.now) }
    requires fresh { names.now.fresh.now ≡ option_map printed (new_name asked.now.command.now) }
    requires master { names.now.master.now ≡ master_parts (state_in asked.now).realm }
    requires own { names.now.own ≡ is_own asked.now.client.now asked.now.command.now }
    requires target { option_map (λ q. q.now) target ≡ needed_target (state_in asked.now) asked.now.command.now }
    requires command { IsCommand (state_in asked.now).realm asked.now.command.now }
    requires random { length asked.now.random.now ≡ 2048 }
    ensures { IfOk result (λ r. r ≡ first (causes_with (state_in asked.now) (call_in asked.now) change.now)) }
{
    let numbers = password_numbers(alloc, asked, target)?;
    let text = password(asked.command);
    let reused = pass_reused(alloc, asked, target)?;
    let inactive = no_active_master(alloc, asked)?;
    let large = too_large(alloc, asked, change)?;
    let causes = [
        unknown_master(asked),
        denied(asked, names.master, names.own),
        protected(asked, names.needed, names.fresh),
        duplicate(asked, names.fresh),
        unknown_principal(asked, target),
        locked_down(asked, target, change),
        unknown_policy(asked, change),
        policy_in_use(asked),
        too_short(&numbers, text),
        few_classes(&numbers, text),
        reused,
        too_soon(asked, names.own, target),
        keys_full(asked, target, change),
        unknown_string(asked, target),
        strings_full(asked, target),
        too_many_masters(asked),
        inactive,
        rows_full(asked),
        large,
    ];
    Ok(first(&causes))
}

/// What the command does and answers, given its change and its refusal.
fn decided(
    alloc: Global,
    asked: &Asked,
    target: Option<&PlainPrinc>,
    change: Option<PlainOp>,
    why: Option<Refusal>,
) -> Result<(State, Reply), MemoryOut>
    requires target { option_map (λ q. q.now) target ≡ needed_target (state_in asked.now) asked.now.command.now }
    requires serial { (state_in asked.now).point.sno < 4294967295 }
    requires decision { IsDecided (state_in asked.now) (call_in asked.now) change why }
    ensures state { IfOk result (λ r. r.0 ≡ (step (state_in asked.now) (call_in asked.now)).state) }
    ensures reply { IfOk result (λ r. r.1 ≡ (step (state_in asked.now) (call_in asked.now)).reply) }
{
    match why {
        Some(refusal) => answered(alloc, asked.state, Reply::Refused(refusal)),
        None => performed(alloc, asked, target, change),
    }
}

/// What a command of a client does and answers. The text is the client's printed name.
fn step_named(alloc: Global, asked: &Asked, client: &[u8]) -> Result<(State, Reply), MemoryOut>
    requires client { client.now ≡ printed asked.now.client.now }
    requires valid { IsValid (moment_of (state_in asked.now) (call_in asked.now)) (state_in asked.now) }
    requires serial { (state_in asked.now).point.sno < 4294967295 }
    requires command { IsCommand (state_in asked.now).realm asked.now.command.now }
    requires random { length asked.now.random.now ≡ 2048 }
    ensures state { IfOk result (λ r. r.0 ≡ (step (state_in asked.now) (call_in asked.now)).state) }
    ensures reply { IfOk result (λ r. r.1 ≡ (step (state_in asked.now) (call_in asked.now)).reply) }
{
    let needed = print_some(alloc, needed_name(asked.command))?;
    let fresh = print_some(alloc, new_name(asked.command))?;
    let master = master_parts(alloc, asked.state.realm.as_slice())?;
    let target = find_some(&asked.state.princs, &needed);
    let names = Names {
        needed: &needed,
        fresh: &fresh,
        master: &master,
        own: is_own(asked.command, &needed, client),
    };
    let change = entry(alloc, asked, target)?;
    let why = refusal(alloc, asked, &names, target, &change)?;
    decided(alloc, asked, target, change, why)
}

/// Does one command of a client, whose printed name is given, and gives the state behind it and its answer. The
/// moment is what the clock says: a change is made then, or at the time of the last change where that is later. New
/// keys are made of the random bytes. No new log is due, so that the end of time refuses nothing. The given state
/// stays as it is, and a refused command gives a copy of it.
///
/// # Errors
///
/// `MemoryOut` where memory is wanted and not given.
pub fn step_plain(
    alloc: Global,
    state: &State,
    client: &[u8],
    command: &Command,
    acl: Option<&Acl>,
    moment: Time,
    random: &[u8],
) -> Result<(State, Reply), MemoryOut>
    requires valid { IsValidState state.now }
    requires serial { state.now.point.sno < 4294967295 }
    requires command { IsCommand state.now.realm command.now }
    requires one { is_one_step command.now ≡ true }
    requires client { IsPrinted client.now }
    requires random { length random.now ≡ 2048 }
    ensures state { (who : NameParts) → IsName who → printed who ≡ client.now → IfOk result (λ r. r.0 ≡ (step state.now
        (call_of who (option_map (λ a. a.now) acl.entry) command.now moment random.now false)).state) }
    ensures reply { (who : NameParts) → IsName who → printed who ≡ client.now → IfOk result (λ r. r.1 ≡ (step state.now
        (call_of who (option_map (λ a. a.now) acl.entry) command.now moment random.now false)).reply) }
{
    valid_later();
    // A moment's microseconds are below a second's, so that the later of two has no earlier second.
    let _micros = moment.usecs();
    let name = read_printed(alloc, client, state.realm.as_slice())?;
    let asked = Asked {
        state,
        client: &name,
        acl,
        command,
        moment,
        random,
    };
    step_named(alloc, &asked, client)
}
