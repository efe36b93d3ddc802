//! `setstr` and `delstr`.

ghost use Rattle.std.specs.Prelude.{◌≡◌, IfOk};
ghost use Rattle.kadm_commands.specs.Commands.{IsCommand};
ghost use Rattle.kadm_commands.specs.declared.commands.Command.TheVariants as command;
ghost use Rattle.command_plans.specs.Given.{IsJudged};
ghost use Rattle.command_plans.specs.Targets.{IsBy, IsTarget, by_given};
ghost use Rattle.kdb_model.specs.Access.{modifying};
ghost use Rattle.kdb_model.specs.Fields.{marked};
ghost use Rattle.kdb_plain.specs.Strings.{with_string, without_string};
ghost use Rattle.princ_name.specs.Realms.{IsRealm};

use crate::given::Given;
use crate::planned::Planned;
use crate::targets::{marked_by, put, target};
use kadm_commands::{DelString, SetString};
use kdb_base::limits::MAX_STRINGS;
use kdb_base::{Blob, MemoryOut, Refusal};
use kdb_plain::{has_room_for, has_string, with_string, without_string};
use princ_name::print_name;
use princ_record::{Princ, copy};
use std::alloc::Global;

/// The record with one more attribute.
fn with_one(alloc: Global, given: &Given, c: &SetString, princ: &Princ) -> Result<Princ, MemoryOut>
    ensures princ { IfOk result (λ p. p ≡ record (marked (by_given given.now) princ.now)
        { strings = with_string c.now.key c.now.value princ.now.strings }) }
    ensures by { IfOk result (λ p. IsBy (by_given given.now)) }
{
    let mut made = copy(alloc, princ)?;
    let key = Blob::from_bytes(alloc, c.key.as_slice())?;
    let value = Blob::from_bytes(alloc, c.value.as_slice())?;
    let strings = with_string(made.strings, key, value)?;
    made.strings = strings;
    marked_by(alloc, given, made)
}

/// `setstr` of this record.
fn set_string(
    alloc: Global,
    given: &Given,
    c: &SetString,
    princ: &Princ,
) -> Result<Result<Planned, Refusal>, MemoryOut>
    requires realm { IsRealm given.now.realm.now }
    requires command { IsCommand given.now.realm.now (command.SetString c.now) }
    requires target { IsTarget given.now modifying c.now.name princ.now }
    ensures { IfOk result (λ plan. IsJudged given.now (command.SetString c.now) plan) }
{
    if !has_room_for(&princ.strings, c.key.as_slice()) {
        let limit = MAX_STRINGS as u32;
        return Ok(Err(Refusal::StringsFull { limit }));
    }
    let made = with_one(alloc, given, c, princ)?;
    Ok(put(made))
}

/// `setstr`.
pub fn plan_set_string(
    alloc: Global,
    given: &Given,
    c: &SetString,
) -> Result<Result<Planned, Refusal>, MemoryOut>
    requires realm { IsRealm given.now.realm.now }
    requires command { IsCommand given.now.realm.now (command.SetString c.now) }
    ensures { IfOk result (λ plan. IsJudged given.now (command.SetString c.now) plan) }
{
    let text = print_name(alloc, &c.name)?;
    match target(given, b'm', &c.name, text.as_slice()) {
        Ok(princ) => set_string(alloc, given, c, princ),
        Err(why) => Ok(Err(why)),
    }
}

/// The record without one attribute.
fn without_one(
    alloc: Global,
    given: &Given,
    c: &DelString,
    princ: &Princ,
) -> Result<Princ, MemoryOut>
    ensures princ { IfOk result (λ p.
        p ≡ record (marked (by_given given.now) princ.now) { strings = without_string c.now.key princ.now.strings }) }
    ensures by { IfOk result (λ p. IsBy (by_given given.now)) }
{
    let mut made = copy(alloc, princ)?;
    made.strings = without_string(made.strings, c.key.as_slice());
    marked_by(alloc, given, made)
}

/// `delstr` of this record.
fn drop_string(
    alloc: Global,
    given: &Given,
    c: &DelString,
    princ: &Princ,
) -> Result<Result<Planned, Refusal>, MemoryOut>
    requires realm { IsRealm given.now.realm.now }
    requires command { IsCommand given.now.realm.now (command.DelString c.now) }
    requires target { IsTarget given.now modifying c.now.name princ.now }
    ensures { IfOk result (λ plan. IsJudged given.now (command.DelString c.now) plan) }
{
    if !has_string(&princ.strings, c.key.as_slice()) {
        return Ok(Err(Refusal::UnknownString));
    }
    let made = without_one(alloc, given, c, princ)?;
    Ok(put(made))
}

/// `delstr`.
pub fn plan_drop_string(
    alloc: Global,
    given: &Given,
    c: &DelString,
) -> Result<Result<Planned, Refusal>, MemoryOut>
    requires realm { IsRealm given.now.realm.now }
    requires command { IsCommand given.now.realm.now (command.DelString c.now) }
    ensures { IfOk result (λ plan. IsJudged given.now (command.DelString c.now) plan) }
{
    let text = print_name(alloc, &c.name)?;
    match target(given, b'm', &c.name, text.as_slice()) {
        Ok(princ) => drop_string(alloc, given, c, princ),
        Err(why) => Ok(Err(why)),
    }
}
