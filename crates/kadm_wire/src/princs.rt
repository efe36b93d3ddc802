//! Commands on one principal.

ghost use Rattle.std.specs.Prelude.{◌≡◌, IfOk};
ghost use Rattle.kadm_wire.specs.Commands.{fields_given, princ_command};
ghost use Rattle.kadm_wire.specs.declared.verbs.PrincVerb.TheVariants as princ;

use crate::keys::{keys_given, new_keys};
use crate::policies::{chosen_policy, number_given};
use crate::verbs::PrincVerb;
use kadm_commands::{
    AddPrinc, ChangeKeys, Command, FlagChanges, ModPrinc, PrincOptions, PurgeKeys,
};
use kadm_options::{Given, OptionName, find_seconds, flags_among, is_given};
use kdb_base::MemoryOut;
use princ_name::Name;
use std::alloc::Global;

fn fields_given(alloc: Global, options: &[Given]) -> Result<PrincOptions, MemoryOut>
    ensures { IfOk result (λ fields. fields ≡ fields_given options.now) }
{
    let flags = flags_among(alloc, options)?;
    Ok(PrincOptions {
        expire: find_seconds(OptionName::Expire, options),
        pw_expire: find_seconds(OptionName::PwExpire, options),
        max_life: find_seconds(OptionName::MaxLife, options),
        max_renew: find_seconds(OptionName::MaxRenewLife, options),
        flags: FlagChanges::from_vec(flags),
    })
}

#[tactic(auto, unfolding(crate::specs::Commands::princ_command))]
fn add_princ(alloc: Global, options: &[Given], name: Name) -> Result<Command, MemoryOut>
    ensures { IfOk result (λ command. command ≡ princ_command princ.Add options.now name) }
{
    let keys = keys_given(alloc, options)?;
    let policy = chosen_policy(alloc, options)?;
    let options = fields_given(alloc, options)?;
    Ok(Command::AddPrinc(AddPrinc {
        name,
        keys,
        policy,
        options,
    }))
}

#[tactic(auto, unfolding(crate::specs::Commands::princ_command))]
fn mod_princ(alloc: Global, options: &[Given], name: Name) -> Result<Command, MemoryOut>
    ensures { IfOk result (λ command. command ≡ princ_command princ.Modify options.now name) }
{
    let policy = chosen_policy(alloc, options)?;
    let options = fields_given(alloc, options)?;
    Ok(Command::ModPrinc(ModPrinc {
        name,
        policy,
        options,
    }))
}

#[tactic(auto, unfolding(crate::specs::Commands::princ_command))]
fn change_keys(alloc: Global, options: &[Given], name: Name) -> Result<Command, MemoryOut>
    ensures { IfOk result (λ command. command ≡ princ_command princ.ChangeKeys options.now name) }
{
    let keys = new_keys(alloc, options)?;
    Ok(Command::ChangeKeys(ChangeKeys {
        name,
        keys,
        keep_old: is_given(OptionName::KeepOld, options),
    }))
}

#[tactic(auto, unfolding(crate::specs::Commands::princ_command))]
fn purge_keys(options: &[Given], name: Name) -> Command
    ensures { result ≡ princ_command princ.PurgeKeys options.now name }
{
    Command::PurgeKeys(PurgeKeys {
        name,
        keep: number_given(OptionName::KeepKvno, 1, 65_535, options),
    })
}

/// The command on the principal of this name.
#[tactic(auto, unfolding(crate::specs::Commands::princ_command))]
pub(crate) fn princ_command(
    alloc: Global,
    verb: PrincVerb,
    options: &[Given],
    name: Name,
) -> Result<Command, MemoryOut>
    ensures { IfOk result (λ command. command ≡ princ_command verb options.now name) }
{
    match verb {
        PrincVerb::Add => add_princ(alloc, options, name),
        PrincVerb::Modify => mod_princ(alloc, options, name),
        PrincVerb::ChangeKeys => change_keys(alloc, options, name),
        PrincVerb::Delete => Ok(Command::DelPrinc(name)),
        PrincVerb::Show => Ok(Command::GetPrinc(name)),
        PrincVerb::PurgeKeys => Ok(purge_keys(options, name)),
        PrincVerb::ShowStrings => Ok(Command::GetStrings(name)),
        PrincVerb::Extract => Ok(Command::Extract(name)),
    }
}
