//! The commands of policies.

ghost use Rattle.std.specs.Prelude.{◌≡◌, IfOk, unwrap_or};
ghost use Rattle.kadm_commands.specs.Commands.{IsCommand, IsModPolicy};
ghost use Rattle.kadm_commands.specs.declared.commands.Command.TheVariants as command;
ghost use Rattle.command_plans.specs.Given.{IsJudged};
ghost use Rattle.kdb_model.specs.Records.{changed_policy};
ghost use Rattle.policy_rules.specs.Numbers.{numbers_of};

use crate::causes::{denial, first, fullness, present, use_of, when};
use crate::given::Given;
use crate::planned::Planned;
use kadm_commands::{ModPolicy, Reply};
use kdb_base::{Blob, MemoryOut, Refusal};
use policy_rules::{Numbers, Policy};
use princ_record::copy_policy;
use princ_rows::Op;
use row_keys::{has_policy_row, policy_row};
use std::alloc::Global;

/// `addpol`.
pub fn plan_add_policy(
    alloc: Global,
    given: &Given,
    policy: &Policy,
) -> Result<Result<Planned, Refusal>, MemoryOut>
    requires { IsCommand given.now.realm.now (command.AddPolicy policy.now) }
    ensures { IfOk result (λ plan. IsJudged given.now (command.AddPolicy policy.now) plan) }
{
    let causes = [
        denial(given, b'a', None),
        when(
            has_policy_row(given.rows, policy.name()),
            Refusal::Duplicate,
        ),
        fullness(given),
    ];
    match first(&causes) {
        Some(why) => Ok(Err(why)),
        None => {
            let policy = copy_policy(alloc, policy)?;
            Ok(Ok(Planned::Change(Op::PutPolicy(policy))))
        }
    }
}

/// The value that is given, or the standing one.
fn life_or(value: Option<u32>, standing: u32) -> u32
    ensures { result ≡ unwrap_or value standing }
{
    match value {
        Some(value) => value,
        None => standing,
    }
}

/// The same of the other numbers.
fn number_or(value: Option<u16>, standing: u16) -> u16
    ensures { result ≡ unwrap_or value standing }
{
    match value {
        Some(value) => value,
        None => standing,
    }
}

/// The numbers of a policy behind `modpol`.
#[tactic(auto, unfolding(kdb_model::specs::Records::changed_policy))]
fn changed_numbers(c: &ModPolicy, standing: &Policy) -> Numbers
    requires { IsModPolicy c.now }
    ensures { result ≡ numbers_of (changed_policy c.now standing.now) }
{
    Numbers::new(
        life_or(c.max_life, standing.max_life()),
        life_or(c.min_life, standing.min_life()),
        number_or(c.min_length, standing.min_length()),
        number_or(c.min_classes, standing.min_classes()),
        number_or(c.history, standing.history()),
    )
}

/// The policy with other numbers.
#[tactic(auto, unfolding(kdb_model::specs::Records::changed_policy))]
fn changed_policy(alloc: Global, c: &ModPolicy, policy: &Policy) -> Result<Policy, MemoryOut>
    requires { IsModPolicy c.now }
    ensures { IfOk result (λ p. p ≡ changed_policy c.now policy.now) }
{
    let name = Blob::from_bytes(alloc, policy.name())?;
    Ok(Policy::from_numbers(name, changed_numbers(c, policy)))
}

/// `modpol`.
pub fn plan_modify_policy(
    alloc: Global,
    given: &Given,
    c: &ModPolicy,
) -> Result<Result<Planned, Refusal>, MemoryOut>
    requires { IsCommand given.now.realm.now (command.ModPolicy c.now) }
    ensures { IfOk result (λ plan. IsJudged given.now (command.ModPolicy c.now) plan) }
{
    let _ = given.rows.policies();
    let denied = denial(given, b'm', None);
    let found = policy_row(given.rows, c.name.as_slice());
    match present(denied, found, Refusal::UnknownPolicy) {
        Ok(policy) => {
            let policy = changed_policy(alloc, c, policy)?;
            Ok(Ok(Planned::Change(Op::PutPolicy(policy))))
        }
        Err(why) => Ok(Err(why)),
    }
}

/// `delpol`.
pub fn plan_drop_policy(
    alloc: Global,
    given: &Given,
    name: &Blob,
) -> Result<Result<Planned, Refusal>, MemoryOut>
    requires { IsCommand given.now.realm.now (command.DelPolicy name.now) }
    ensures { IfOk result (λ plan. IsJudged given.now (command.DelPolicy name.now) plan) }
{
    let _ = given.rows.policies();
    let causes = [
        denial(given, b'd', None),
        when(
            policy_row(given.rows, name.as_slice()).is_none(),
            Refusal::UnknownPolicy,
        ),
        use_of(given, name.as_slice()),
    ];
    match first(&causes) {
        Some(why) => Ok(Err(why)),
        None => {
            let name = Blob::from_bytes(alloc, name.as_slice())?;
            Ok(Ok(Planned::Change(Op::DropPolicy(name))))
        }
    }
}

/// `getpol`.
pub fn plan_show_policy(
    alloc: Global,
    given: &Given,
    name: &Blob,
) -> Result<Result<Planned, Refusal>, MemoryOut>
    ensures { IfOk result (λ plan. IsJudged given.now (command.GetPolicy name.now) plan) }
{
    let denied = denial(given, b'i', None);
    let found = policy_row(given.rows, name.as_slice());
    match present(denied, found, Refusal::UnknownPolicy) {
        Ok(policy) => {
            let policy = copy_policy(alloc, policy)?;
            Ok(Ok(Planned::Answer(Reply::PolicyShown(policy))))
        }
        Err(why) => Ok(Err(why)),
    }
}
