//! `cpw`.

ghost use Rattle.std.specs.Prelude.{◌≡◌, Err, IfOk, length};
ghost use Rattle.command_plans.specs.Given.{IsJudged};
ghost use Rattle.kadm_commands.specs.Commands.{IsCommand};
ghost use Rattle.kadm_commands.specs.declared.commands.Command.TheVariants as command;
ghost use Rattle.kdb_base.specs.declared.outcomes.Refusal.{Refusal};
ghost use Rattle.kdb_model.specs.Access.{same_name};
ghost use Rattle.princ_plans.specs.Ready.{password_made};
ghost use Rattle.key_plans.specs.Targets.{IsKeyTarget, key_target_refusal};
ghost use Rattle.princ_name.specs.Names.{printed};
ghost use Rattle.princ_name.specs.Realms.{IsRealm};
ghost use Rattle.princ_rows.specs.Rows.{AreRows};
ghost use Rattle.std.specs.Prelude.{Some};

use crate::causes::{cause, numbers_for};
use crate::opening::{active_master, history_key, opened};
use crate::rekeying::{With, fresh_keys, rekeyed};
use command_plans::Planned;
use command_plans::causes::{first, found, own_denial, present, protection};
use command_plans::given::Given;
use command_plans::targets::put;
use kadm_commands::ChangeKeys;
use kdb_base::{MemoryOut, PlainKey, Refusal};
use princ_name::{Name, print_name};
use princ_record::Princ;
use std::alloc::Global;

/// The record whose keys the client may change. `own` says that it is the client's own.
fn key_target<'a>(
    given: &Given<'a>,
    own: bool,
    name: &Name,
    text: &[u8],
) -> Result<&'a Princ, Refusal>
    requires text { text.now ≡ printed name.now }
    requires own { own ≡ same_name given.now.client.now name.now }
    ensures ok { IfOk result (λ p. IsKeyTarget given.now name.now p.now) }
    ensures err { (why : Refusal) → result ≡ Err why → key_target_refusal given.now name.now ≡ Some why }
    ensures rows { AreRows given.now.rows.now }
{
    let before = [own_denial(given, own, b'c', name), protection(given, text)];
    present(
        first(&before),
        found(given, text),
        Refusal::UnknownPrincipal,
    )
}

/// `cpw` of this record.
fn change_keys(
    alloc: Global,
    given: &Given,
    own: bool,
    c: &ChangeKeys,
    ready: &[PlainKey],
    princ: &Princ,
) -> Result<Result<Planned, Refusal>, MemoryOut>
    requires realm { IsRealm given.now.realm.now }
    requires command { IsCommand given.now.realm.now (command.ChangeKeys c.now) }
    requires block { length given.now.random.now ≡ 2048 }
    requires ready { ready.now ≡ password_made c.now.name c.now.keys }
    requires own { own ≡ same_name given.now.client.now c.now.name }
    requires target { IsKeyTarget given.now c.now.name princ.now }
    ensures { IfOk result (λ plan. IsJudged given.now (command.ChangeKeys c.now) plan) }
{
    let fresh = fresh_keys(alloc, given, c, ready)?;
    let history = history_key(alloc, given)?;
    let plain = opened(alloc, given, &history, princ)?;
    let numbers = numbers_for(given, &plain.policy);
    if let Some(why) = cause(given, own, &numbers, c, fresh.as_slice(), &plain) {
        return Ok(Err(why));
    }
    let active = active_master(alloc, given)?;
    let with = With {
        active,
        history,
        numbers,
    };
    let made = rekeyed(alloc, given, &with, c, fresh.as_slice(), &plain, princ)?;
    Ok(put(made))
}

/// `cpw`. The keys of a password are given, since they take long to derive: `ready` is `plain_keys::made_keys` of it,
/// and empty where the keys are random.
///
/// # Errors
///
/// `MemoryOut` where memory is wanted and not given, and where a key of the rows does not open, as none does in rows
/// that show a state.
pub fn plan_change_keys(
    alloc: Global,
    given: &Given,
    c: &ChangeKeys,
    ready: &[PlainKey],
) -> Result<Result<Planned, Refusal>, MemoryOut>
    requires realm { IsRealm given.now.realm.now }
    requires command { IsCommand given.now.realm.now (command.ChangeKeys c.now) }
    requires block { length given.now.random.now ≡ 2048 }
    requires ready { ready.now ≡ password_made c.now.name c.now.keys }
    ensures { IfOk result (λ plan. IsJudged given.now (command.ChangeKeys c.now) plan) }
{
    let text = print_name(alloc, &c.name)?;
    let client = print_name(alloc, given.client)?;
    let own = client.as_slice() == text.as_slice();
    match key_target(given, own, &c.name, text.as_slice()) {
        Ok(princ) => change_keys(alloc, given, own, c, ready, princ),
        Err(why) => Ok(Err(why)),
    }
}
