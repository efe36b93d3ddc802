//! What a command changes.

ghost use Rattle.std.specs.Prelude.{◌≡◌, IfOk, Some, None, false, true, length, option_map};
ghost use Rattle.kadm_commands.specs.Commands.{IsCommand};
ghost use Rattle.kadm_commands.specs.declared.commands.Command.TheVariants as command;
ghost use Rattle.kdb_model.specs.Asking.{HasVersions, call_in, changes_state, princ_change, state_in};
ghost use Rattle.kdb_model.specs.Entries.{entry, entry_of};
ghost use Rattle.kdb_model.specs.Laws.{is_master_line};
ghost use Rattle.kdb_model.specs.Refusals.{has_last_kvno, target as needed_target, too_many_masters};
ghost use Rattle.kdb_plain.specs.States.{princ_named};
ghost use Rattle.kdb_plain.specs.Strings.{with_string, without_string};
ghost use Rattle.master_keys.specs.First.{master_name};

use crate::asked::{Asked, secs_of};
use crate::masters::{added_master, last_version, newest_master, purged_masters, used_master};
use crate::records::{added, changed_policy, modified, purged, rekeyed, renamed, restrung};
use kadm_commands::{AddPrinc, Command, DelString, ModPolicy, SetString, UseMaster};
use kdb_base::{Blob, Etype, MemoryOut};
use kdb_plain::{
    PlainOp, PlainPrinc, copy_princ, master_name, policy_named, princ_named, with_string,
    without_string,
};
use policy_rules::Policy;
use princ_name::print_name;
use princ_record::copy_policy;
use serving_versions::dead_versions;
use std::alloc::Global;
use tagged_data::StringAttributes;

/// The attributes of a principal with one more.
fn with_one(alloc: Global, c: &SetString, princ: &PlainPrinc) -> Result<StringAttributes, MemoryOut>
    ensures { IfOk result (λ list. list ≡ with_string c.now.key c.now.value princ.now.strings) }
{
    let was = copy_princ(alloc, princ)?;
    let key = Blob::from_bytes(alloc, c.key.as_slice())?;
    let value = Blob::from_bytes(alloc, c.value.as_slice())?;
    with_string(was.strings, key, value)
}

/// The attributes of a principal without one.
fn without_one(
    alloc: Global,
    c: &DelString,
    princ: &PlainPrinc,
) -> Result<StringAttributes, MemoryOut>
    ensures { IfOk result (λ list. list ≡ without_string c.now.key princ.now.strings) }
{
    let was = copy_princ(alloc, princ)?;
    Ok(without_string(was.strings, c.key.as_slice()))
}

/// What the command changes of the principal that it needs.
#[tactic(auto, unfolding(crate::specs::Asking::princ_change))]
fn princ_change(
    alloc: Global,
    asked: &Asked,
    princ: &PlainPrinc,
) -> Result<Option<PlainOp>, MemoryOut>
    requires command { IsCommand (state_in asked.now).realm asked.now.command.now }
    requires random { length asked.now.random.now ≡ 2048 }
    ensures { has_last_kvno asked.now.command.now (Some princ.now) ≡ false → IfOk result
        (λ op. op ≡ princ_change (state_in asked.now) (call_in asked.now) asked.now.command.now princ.now) }
{
    match asked.command {
        Command::ModPrinc(c) => {
            let princ = modified(alloc, asked, c, princ)?;
            Ok(Some(PlainOp::PutPrinc(princ)))
        }
        Command::ChangeKeys(c) => {
            let princ = rekeyed(alloc, asked, c, princ)?;
            Ok(Some(PlainOp::PutPrinc(princ)))
        }
        Command::RenPrinc(c) => {
            let old = print_name(alloc, &c.name)?;
            let princ = renamed(alloc, asked, c, princ)?;
            Ok(Some(PlainOp::Rename(old, princ)))
        }
        Command::DelPrinc(name) => {
            let name = print_name(alloc, name)?;
            Ok(Some(PlainOp::DropPrinc(name)))
        }
        Command::PurgeKeys(c) => {
            let princ = purged(alloc, asked, c, princ)?;
            Ok(Some(PlainOp::PutPrinc(princ)))
        }
        Command::SetString(c) => {
            let strings = with_one(alloc, c, princ)?;
            let princ = restrung(alloc, asked, strings, princ)?;
            Ok(Some(PlainOp::PutPrinc(princ)))
        }
        Command::DelString(c) => {
            let strings = without_one(alloc, c, princ)?;
            let princ = restrung(alloc, asked, strings, princ)?;
            Ok(Some(PlainOp::PutPrinc(princ)))
        }
        _ => Ok(None),
    }
}

/// `addprinc`.
#[tactic(auto, unfolding(crate::specs::Entries::entry_of))]
fn princ_added(alloc: Global, asked: &Asked, c: &AddPrinc) -> Result<Option<PlainOp>, MemoryOut>
    requires command { IsCommand (state_in asked.now).realm (command.AddPrinc c.now) }
    requires random { length asked.now.random.now ≡ 2048 }
    ensures { IfOk result (λ op. op ≡ entry_of (state_in asked.now) (call_in asked.now) (command.AddPrinc c.now)) }
{
    let princ = added(alloc, asked, c)?;
    Ok(Some(PlainOp::PutPrinc(princ)))
}

/// `addpol`.
#[tactic(auto, unfolding(crate::specs::Entries::entry_of))]
fn policy_added(alloc: Global, asked: &Asked, policy: &Policy) -> Result<Option<PlainOp>, MemoryOut>
    ensures { IfOk result
        (λ op. op ≡ entry_of (state_in asked.now) (call_in asked.now) (command.AddPolicy policy.now)) }
{
    let policy = copy_policy(alloc, policy)?;
    Ok(Some(PlainOp::PutPolicy(policy)))
}

/// `modpol`.
#[tactic(auto, unfolding(crate::specs::Entries::entry_of))]
fn policy_changed(alloc: Global, asked: &Asked, c: &ModPolicy) -> Result<Option<PlainOp>, MemoryOut>
    requires { IsCommand (state_in asked.now).realm (command.ModPolicy c.now) }
    ensures { IfOk result (λ op. op ≡ entry_of (state_in asked.now) (call_in asked.now) (command.ModPolicy c.now)) }
{
    match policy_named(&asked.state.policies, c.name.as_slice()) {
        Some(policy) => {
            let policy = changed_policy(alloc, c, policy)?;
            Ok(Some(PlainOp::PutPolicy(policy)))
        }
        None => Ok(None),
    }
}

/// `delpol`.
#[tactic(auto, unfolding(crate::specs::Entries::entry_of))]
fn policy_dropped(alloc: Global, asked: &Asked, name: &Blob) -> Result<Option<PlainOp>, MemoryOut>
    ensures { IfOk result (λ op. op ≡ entry_of (state_in asked.now) (call_in asked.now) (command.DelPolicy name.now)) }
{
    match policy_named(&asked.state.policies, name.as_slice()) {
        Some(_) => {
            let name = Blob::from_bytes(alloc, name.as_slice())?;
            Ok(Some(PlainOp::DropPolicy(name)))
        }
        None => Ok(None),
    }
}

/// `add_mkey`, where K/M is there and a version is left.
#[tactic(auto, unfolding(crate::specs::Entries::entry_of))]
fn master_added(
    alloc: Global,
    asked: &Asked,
    etype: Option<Etype>,
    entry: &PlainPrinc,
) -> Result<Option<PlainOp>, MemoryOut>
    requires there { princ_named (master_name (state_in asked.now).realm) (state_in asked.now).princs ≡ Some entry.now }
    requires random { length asked.now.random.now ≡ 2048 }
    ensures { too_many_masters (state_in asked.now) (command.AddMaster etype) ≡ None
        → IfOk result (λ op. op ≡ entry_of (state_in asked.now) (call_in asked.now) (command.AddMaster etype)) }
{
    if last_version(&asked.state.masters) == u16::MAX {
        return Ok(None);
    }
    match newest_master(&asked.state.masters) {
        Some(newest) => {
            let change = added_master(alloc, asked, etype, &newest, entry)?;
            Ok(Some(change))
        }
        None => Ok(None),
    }
}

/// `use_mkey`, where K/M is there.
#[tactic(auto, unfolding(crate::specs::Entries::entry_of))]
fn master_used(
    alloc: Global,
    asked: &Asked,
    c: &UseMaster,
    entry: &PlainPrinc,
) -> Result<Option<PlainOp>, MemoryOut>
    requires there { princ_named (master_name (state_in asked.now).realm) (state_in asked.now).princs ≡ Some entry.now }
    requires command { IsCommand (state_in asked.now).realm (command.UseMaster c.now) }
    ensures { IfOk result (λ op. op ≡ entry_of (state_in asked.now) (call_in asked.now) (command.UseMaster c.now)) }
{
    let change = used_master(alloc, asked, c, entry)?;
    Ok(Some(change))
}

/// `purge_mkeys`, where K/M is there.
#[tactic(auto, unfolding(crate::specs::Entries::entry_of))]
fn masters_purged(
    alloc: Global,
    asked: &Asked,
    entry: &PlainPrinc,
) -> Result<Option<PlainOp>, MemoryOut>
    requires { princ_named (master_name (state_in asked.now).realm) (state_in asked.now).princs ≡ Some entry.now }
    ensures { IfOk result (λ op. op ≡ entry_of (state_in asked.now) (call_in asked.now) command.PurgeMasters) }
{
    let secs = secs_of(asked);
    let dead = dead_versions(alloc, asked.state, secs)?;
    if dead.is_empty() {
        return Ok(None);
    }
    let change = purged_masters(alloc, asked.state, secs, entry)?;
    Ok(Some(change))
}

/// What a command of master keys changes, where K/M is there.
fn master_change(
    alloc: Global,
    asked: &Asked,
    own: &PlainPrinc,
) -> Result<Option<PlainOp>, MemoryOut>
    requires there { princ_named (master_name (state_in asked.now).realm) (state_in asked.now).princs ≡ Some own.now }
    requires command { IsCommand (state_in asked.now).realm asked.now.command.now }
    requires random { length asked.now.random.now ≡ 2048 }
    ensures { too_many_masters (state_in asked.now) asked.now.command.now ≡ None → is_master_line asked.now.command.now
        ≡ true → IfOk result (λ op. op ≡ entry (state_in asked.now) (call_in asked.now)) }
{
    match asked.command {
        Command::AddMaster(etype) => master_added(alloc, asked, *etype, own),
        Command::UseMaster(c) => master_used(alloc, asked, c, own),
        Command::PurgeMasters => masters_purged(alloc, asked, own),
        _ => Ok(None),
    }
}

/// What a command of master keys changes.
fn masters_changed(alloc: Global, asked: &Asked) -> Result<Option<PlainOp>, MemoryOut>
    requires command { IsCommand (state_in asked.now).realm asked.now.command.now }
    requires random { length asked.now.random.now ≡ 2048 }
    ensures { too_many_masters (state_in asked.now) asked.now.command.now ≡ None → is_master_line asked.now.command.now
        ≡ true → IfOk result (λ op. op ≡ entry (state_in asked.now) (call_in asked.now)) }
{
    let name = master_name(alloc, asked.state.realm.as_slice())?;
    match princ_named(&asked.state.princs, name.as_slice()) {
        Some(own) => master_change(alloc, asked, own),
        None => Ok(None),
    }
}

/// Whether the command changes something else than a principal that has to be there.
fn changes_state(command: &Command) -> bool
    ensures { result ≡ changes_state command.now }
{
    matches!(
        command,
        Command::AddPrinc(_)
            | Command::AddPolicy(_)
            | Command::ModPolicy(_)
            | Command::DelPolicy(_)
            | Command::AddMaster(_)
            | Command::UseMaster(_)
            | Command::PurgeMasters
    )
}

/// What such a command changes.
fn state_change(alloc: Global, asked: &Asked) -> Result<Option<PlainOp>, MemoryOut>
    requires command { IsCommand (state_in asked.now).realm asked.now.command.now }
    requires random { length asked.now.random.now ≡ 2048 }
    ensures { too_many_masters (state_in asked.now) asked.now.command.now ≡ None → changes_state asked.now.command.now
        ≡ true → IfOk result (λ op. op ≡ entry (state_in asked.now) (call_in asked.now)) }
{
    match asked.command {
        Command::AddPrinc(c) => princ_added(alloc, asked, c),
        Command::AddPolicy(policy) => policy_added(alloc, asked, policy),
        Command::ModPolicy(c) => policy_changed(alloc, asked, c),
        Command::DelPolicy(name) => policy_dropped(alloc, asked, name),
        Command::AddMaster(_) => masters_changed(alloc, asked),
        Command::UseMaster(_) => masters_changed(alloc, asked),
        Command::PurgeMasters => masters_changed(alloc, asked),
        _ => Ok(None),
    }
}

/// What the command changes, where it is not refused for want of a version.
pub(crate) fn entry(
    alloc: Global,
    asked: &Asked,
    target: Option<&PlainPrinc>,
) -> Result<Option<PlainOp>, MemoryOut>
    requires target { option_map (λ q. q.now) target ≡ needed_target (state_in asked.now) asked.now.command.now }
    requires command { IsCommand (state_in asked.now).realm asked.now.command.now }
    requires random { length asked.now.random.now ≡ 2048 }
    ensures { HasVersions (state_in asked.now) asked.now.command.now
        → IfOk result (λ op. op ≡ entry (state_in asked.now) (call_in asked.now)) }
{
    match target {
        Some(princ) => princ_change(alloc, asked, princ),
        None => {
            if !changes_state(asked.command) {
                return Ok(None);
            }
            state_change(alloc, asked)
        }
    }
}
