//! `delprinc`.

ghost use Rattle.std.specs.Prelude.{◌≡◌, ℕ, List, IfOk};
ghost use Rattle.kadm_commands.specs.Commands.{IsCommand};
ghost use Rattle.kadm_commands.specs.declared.commands.Command.TheVariants as command;
ghost use Rattle.command_plans.specs.Given.{IsJudged};

use crate::causes::{absence, denial, first, found, lockdown, protection};
use crate::given::Given;
use crate::planned::Planned;
use kdb_base::{MemoryOut, Refusal};
use princ_name::{Name, print_name};
use princ_rows::Op;
use std::alloc::Global;

/// `delprinc`.
pub fn plan_drop(
    alloc: Global,
    given: &Given,
    name: &Name,
) -> Result<Result<Planned, Refusal>, MemoryOut>
    requires { IsCommand given.now.realm.now (command.DelPrinc name.now) }
    ensures { IfOk result (λ plan. IsJudged given.now (command.DelPrinc name.now) plan) }
{
    let text = print_name(alloc, name)?;
    let found = found(given, text.as_slice());
    let causes = [
        denial(given, b'd', Some(name)),
        protection(given, text.as_slice()),
        absence(found),
        lockdown(given, found),
    ];
    match first(&causes) {
        Some(why) => Ok(Err(why)),
        None => Ok(Ok(Planned::Change(Op::DropPrinc(text)))),
    }
}
