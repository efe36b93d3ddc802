//! `purgekeys`.

ghost use Rattle.std.specs.Prelude.{◌≡◌, IfOk, unwrap_or};
ghost use Rattle.kadm_commands.specs.Commands.{IsCommand};
ghost use Rattle.kadm_commands.specs.declared.commands.Command.TheVariants as command;
ghost use Rattle.command_plans.specs.Given.{IsJudged};
ghost use Rattle.command_plans.specs.Targets.{IsBy, IsTarget, by_given};
ghost use Rattle.kdb_model.specs.Access.{modifying};
ghost use Rattle.kdb_model.specs.Fields.{marked};
ghost use Rattle.princ_name.specs.Realms.{IsRealm};
ghost use Rattle.row_keys.specs.KeptKeys.{kept_from};
ghost use Rattle.row_keys.specs.Lookups.{newest_version};

use crate::given::Given;
use crate::planned::Planned;
use crate::targets::{marked_by, put, target};
use kadm_commands::PurgeKeys;
use kdb_base::{MemoryOut, Refusal};
use princ_keys::KeyItem;
use princ_name::print_name;
use princ_record::{Princ, copy};
use row_keys::{kept_from, newest_version};
use std::alloc::Global;

/// The least version that stays: the one that is named, or the greatest.
fn least_version(named: Option<u16>, items: &[KeyItem]) -> u16
    ensures { result ≡ unwrap_or named (newest_version items.now) }
{
    match named {
        Some(version) => version,
        None => newest_version(items),
    }
}

/// The record without keys of earlier versions.
fn purged(alloc: Global, given: &Given, c: &PurgeKeys, princ: &Princ) -> Result<Princ, MemoryOut>
    ensures princ { IfOk result (λ p. p ≡ record (marked (by_given given.now) princ.now)
        { keys = kept_from (unwrap_or c.now.keep (newest_version princ.now.keys)) princ.now.keys }) }
    ensures by { IfOk result (λ p. IsBy (by_given given.now)) }
{
    let least = least_version(c.keep, princ.keys.as_slice());
    let mut made = copy(alloc, princ)?;
    made.keys = kept_from(least, made.keys);
    marked_by(alloc, given, made)
}

/// `purgekeys` of this record.
fn purge(
    alloc: Global,
    given: &Given,
    c: &PurgeKeys,
    princ: &Princ,
) -> Result<Result<Planned, Refusal>, MemoryOut>
    requires realm { IsRealm given.now.realm.now }
    requires command { IsCommand given.now.realm.now (command.PurgeKeys c.now) }
    requires target { IsTarget given.now modifying c.now.name princ.now }
    ensures { IfOk result (λ plan. IsJudged given.now (command.PurgeKeys c.now) plan) }
{
    let made = purged(alloc, given, c, princ)?;
    Ok(put(made))
}

/// `purgekeys`.
pub fn plan_purge(
    alloc: Global,
    given: &Given,
    c: &PurgeKeys,
) -> Result<Result<Planned, Refusal>, MemoryOut>
    requires realm { IsRealm given.now.realm.now }
    requires command { IsCommand given.now.realm.now (command.PurgeKeys c.now) }
    ensures { IfOk result (λ plan. IsJudged given.now (command.PurgeKeys c.now) plan) }
{
    let text = print_name(alloc, &c.name)?;
    match target(given, b'm', &c.name, text.as_slice()) {
        Ok(princ) => purge(alloc, given, c, princ),
        Err(why) => Ok(Err(why)),
    }
}
