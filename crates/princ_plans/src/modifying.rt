//! `modprinc`.

ghost use Rattle.std.specs.Prelude.{◌≡◌, IfOk};
ghost use Rattle.command_plans.specs.Given.{IsJudged};
ghost use Rattle.command_plans.specs.Targets.{IsTarget};
ghost use Rattle.kadm_commands.specs.Commands.{IsCommand};
ghost use Rattle.kadm_commands.specs.declared.commands.Command.TheVariants as command;
ghost use Rattle.kdb_model.specs.Access.{modifying};
ghost use Rattle.kdb_model.specs.Refusals.{first};
ghost use Rattle.princ_name.specs.Realms.{IsRealm};
ghost use Rattle.princ_plans.specs.Modifying.{IsModified, modify_causes, unlocking};

use crate::limits::limits_given;
use crate::policies::missing_policy;
use crate::puts::{put_unless, with_lives};
use command_plans::Planned;
use command_plans::causes::{LOCKDOWN_KEYS, first, has_bit, when};
use command_plans::given::Given;
use command_plans::targets::{marked_by, target};
use kadm_commands::ModPrinc;
use kdb_base::{MemoryOut, Refusal};
use kdb_model::heads::{chosen, limited, with_options};
use princ_name::print_name;
use princ_record::{Princ, copy};
use std::alloc::Global;

/// The record with other fields.
#[tactic(auto, unfolding(kdb_model::specs::Fields::modified_head))]
fn modified(alloc: Global, given: &Given, c: &ModPrinc, princ: &Princ) -> Result<Princ, MemoryOut>
    ensures { IfOk result (λ made. IsModified given.now c.now princ.now made) }
{
    let mut head = copy(alloc, princ)?;
    let policy = chosen(alloc, &c.policy, head.policy)?;
    head.policy = policy;
    let head = with_options(head, &c.options);
    let head = marked_by(alloc, given, head)?;
    let limits = limits_given(given, b'm', &c.name);
    let made = limited(alloc, head, limits, given.moment)?;
    Ok(with_lives(made))
}

/// Over a connection, the keys would not be locked down any more.
fn unlocking(given: &Given, princ: &Princ, made: &Princ) -> Option<Refusal>
    ensures { result ≡ unlocking given.now princ.now made.now }
{
    let locked = has_bit(LOCKDOWN_KEYS, princ.attributes);
    let stays = has_bit(LOCKDOWN_KEYS, made.attributes);
    when(given.acl.is_some() && locked && !stays, Refusal::LockedDown)
}

/// Why the record is not put, before its length.
fn cause(given: &Given, c: &ModPrinc, princ: &Princ, made: &Princ) -> Option<Refusal>
    ensures { result ≡ first (modify_causes given.now c.now princ.now made.now) }
{
    let causes = [
        unlocking(given, princ, made),
        missing_policy(given.rows, &c.policy, &made.policy),
    ];
    first(&causes)
}

/// `modprinc` of this record.
fn modify(
    alloc: Global,
    given: &Given,
    c: &ModPrinc,
    princ: &Princ,
) -> Result<Result<Planned, Refusal>, MemoryOut>
    requires realm { IsRealm given.now.realm.now }
    requires command { IsCommand given.now.realm.now (command.ModPrinc c.now) }
    requires target { IsTarget given.now modifying c.now.name princ.now }
    ensures { IfOk result (λ plan. IsJudged given.now (command.ModPrinc c.now) plan) }
{
    let made = modified(alloc, given, c, princ)?;
    let before = cause(given, c, princ, &made);
    Ok(put_unless(before, made))
}

/// `modprinc`: the plan of a change of fields, judged against rows with wrapped keys.
///
/// # Errors
///
/// `MemoryOut` where memory is wanted and not given.
pub fn plan_modify(
    alloc: Global,
    given: &Given,
    c: &ModPrinc,
) -> Result<Result<Planned, Refusal>, MemoryOut>
    requires realm { IsRealm given.now.realm.now }
    requires command { IsCommand given.now.realm.now (command.ModPrinc c.now) }
    ensures { IfOk result (λ plan. IsJudged given.now (command.ModPrinc c.now) plan) }
{
    let text = print_name(alloc, &c.name)?;
    match target(given, b'm', &c.name, text.as_slice()) {
        Ok(princ) => modify(alloc, given, c, princ),
        Err(why) => Ok(Err(why)),
    }
}
