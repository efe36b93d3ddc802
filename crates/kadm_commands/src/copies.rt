//! Copies of commands. Only want of memory can refuse one.

ghost use Rattle.std.specs.Prelude.{◌≡◌, IfOk};

use crate::commands::{
    AddPrinc, ChangeKeys, Command, DelString, ModPrinc, PurgeKeys, RenPrinc, SetString,
};
use crate::options::{FlagChanges, PrincOptions};
use crate::policies::{ModPolicy, PolicyChoice};
use kdb_base::{Blob, MemoryOut};
use plain_keys::{Etypes, NewKeys};
use princ_record::copy_policy;
use std::alloc::Global;
use tagged_data::Copied;

fn copy_glob(alloc: Global, glob: &Option<Blob>) -> Result<Option<Blob>, MemoryOut>
    ensures { IfOk result (λ x. x ≡ glob.now) }
{
    match glob {
        Some(glob) => {
            let glob = glob.copied(alloc)?;
            Ok(Some(glob))
        }
        None => Ok(None),
    }
}

fn copy_etypes(alloc: Global, etypes: &Etypes) -> Result<Etypes, MemoryOut>
    ensures { IfOk result (λ x. x ≡ etypes.now) }
{
    let items = etypes.as_slice().to_vec(alloc)?;
    Ok(Etypes::from_vec(items))
}

fn copy_new_keys(alloc: Global, keys: &NewKeys) -> Result<NewKeys, MemoryOut>
    ensures { IfOk result (λ x. x ≡ keys.now) }
{
    match keys {
        NewKeys::Random(etypes) => {
            let etypes = copy_etypes(alloc, etypes)?;
            Ok(NewKeys::Random(etypes))
        }
        NewKeys::Password(password, etypes) => {
            let password = password.copied(alloc)?;
            let etypes = copy_etypes(alloc, etypes)?;
            Ok(NewKeys::Password(password, etypes))
        }
    }
}

fn copy_keys_asked(alloc: Global, keys: &Option<NewKeys>) -> Result<Option<NewKeys>, MemoryOut>
    ensures { IfOk result (λ x. x ≡ keys.now) }
{
    match keys {
        Some(keys) => {
            let keys = copy_new_keys(alloc, keys)?;
            Ok(Some(keys))
        }
        None => Ok(None),
    }
}

fn copy_choice(
    alloc: Global,
    choice: &Option<PolicyChoice>,
) -> Result<Option<PolicyChoice>, MemoryOut>
    ensures { IfOk result (λ x. x ≡ choice.now) }
{
    match choice {
        Some(PolicyChoice::Named(name)) => {
            let name = name.copied(alloc)?;
            Ok(Some(PolicyChoice::Named(name)))
        }
        Some(PolicyChoice::Cleared) => Ok(Some(PolicyChoice::Cleared)),
        None => Ok(None),
    }
}

fn copy_options(alloc: Global, options: &PrincOptions) -> Result<PrincOptions, MemoryOut>
    ensures { IfOk result (λ x. x ≡ options.now) }
{
    let flags = options.flags.as_slice().to_vec(alloc)?;
    Ok(PrincOptions {
        expire: options.expire,
        pw_expire: options.pw_expire,
        max_life: options.max_life,
        max_renew: options.max_renew,
        flags: FlagChanges::from_vec(flags),
    })
}

fn copy_add(alloc: Global, c: &AddPrinc) -> Result<AddPrinc, MemoryOut>
    ensures { IfOk result (λ x. x ≡ c.now) }
{
    let name = c.name.copied(alloc)?;
    let keys = copy_keys_asked(alloc, &c.keys)?;
    let policy = copy_choice(alloc, &c.policy)?;
    let options = copy_options(alloc, &c.options)?;
    Ok(AddPrinc {
        name,
        keys,
        policy,
        options,
    })
}

fn copy_modification(alloc: Global, c: &ModPrinc) -> Result<ModPrinc, MemoryOut>
    ensures { IfOk result (λ x. x ≡ c.now) }
{
    let name = c.name.copied(alloc)?;
    let policy = copy_choice(alloc, &c.policy)?;
    let options = copy_options(alloc, &c.options)?;
    Ok(ModPrinc {
        name,
        policy,
        options,
    })
}

fn copy_key_change(alloc: Global, c: &ChangeKeys) -> Result<ChangeKeys, MemoryOut>
    ensures { IfOk result (λ x. x ≡ c.now) }
{
    let name = c.name.copied(alloc)?;
    let keys = copy_new_keys(alloc, &c.keys)?;
    Ok(ChangeKeys {
        name,
        keys,
        keep_old: c.keep_old,
    })
}

fn copy_rename(alloc: Global, c: &RenPrinc) -> Result<RenPrinc, MemoryOut>
    ensures { IfOk result (λ x. x ≡ c.now) }
{
    let name = c.name.copied(alloc)?;
    let new_name = c.new_name.copied(alloc)?;
    Ok(RenPrinc { name, new_name })
}

fn copy_purge(alloc: Global, c: &PurgeKeys) -> Result<PurgeKeys, MemoryOut>
    ensures { IfOk result (λ x. x ≡ c.now) }
{
    let name = c.name.copied(alloc)?;
    Ok(PurgeKeys { name, keep: c.keep })
}

fn copy_set_string(alloc: Global, c: &SetString) -> Result<SetString, MemoryOut>
    ensures { IfOk result (λ x. x ≡ c.now) }
{
    let name = c.name.copied(alloc)?;
    let key = c.key.copied(alloc)?;
    let value = c.value.copied(alloc)?;
    Ok(SetString { name, key, value })
}

fn copy_drop_string(alloc: Global, c: &DelString) -> Result<DelString, MemoryOut>
    ensures { IfOk result (λ x. x ≡ c.now) }
{
    let name = c.name.copied(alloc)?;
    let key = c.key.copied(alloc)?;
    Ok(DelString { name, key })
}

fn copy_policy_change(alloc: Global, c: &ModPolicy) -> Result<ModPolicy, MemoryOut>
    ensures { IfOk result (λ x. x ≡ c.now) }
{
    let name = c.name.copied(alloc)?;
    Ok(ModPolicy {
        name,
        max_life: c.max_life,
        min_life: c.min_life,
        min_length: c.min_length,
        min_classes: c.min_classes,
        history: c.history,
    })
}

/// The same command.
///
/// # Errors
///
/// `MemoryOut` where memory is wanted and not given.
pub fn copy_command(alloc: Global, command: &Command) -> Result<Command, MemoryOut>
    ensures { IfOk result (λ c. c ≡ command.now) }
{
    match command {
        Command::AddPrinc(c) => {
            let copy = copy_add(alloc, c)?;
            Ok(Command::AddPrinc(copy))
        }
        Command::ModPrinc(c) => {
            let copy = copy_modification(alloc, c)?;
            Ok(Command::ModPrinc(copy))
        }
        Command::ChangeKeys(c) => {
            let copy = copy_key_change(alloc, c)?;
            Ok(Command::ChangeKeys(copy))
        }
        Command::RenPrinc(c) => {
            let copy = copy_rename(alloc, c)?;
            Ok(Command::RenPrinc(copy))
        }
        Command::DelPrinc(name) => {
            let copy = name.copied(alloc)?;
            Ok(Command::DelPrinc(copy))
        }
        Command::GetPrinc(name) => {
            let copy = name.copied(alloc)?;
            Ok(Command::GetPrinc(copy))
        }
        Command::ListPrincs(glob) => {
            let copy = copy_glob(alloc, glob)?;
            Ok(Command::ListPrincs(copy))
        }
        Command::PurgeKeys(c) => {
            let copy = copy_purge(alloc, c)?;
            Ok(Command::PurgeKeys(copy))
        }
        Command::SetString(c) => {
            let copy = copy_set_string(alloc, c)?;
            Ok(Command::SetString(copy))
        }
        Command::DelString(c) => {
            let copy = copy_drop_string(alloc, c)?;
            Ok(Command::DelString(copy))
        }
        Command::GetStrings(name) => {
            let copy = name.copied(alloc)?;
            Ok(Command::GetStrings(copy))
        }
        Command::Extract(name) => {
            let copy = name.copied(alloc)?;
            Ok(Command::Extract(copy))
        }
        Command::AddPolicy(policy) => {
            let copy = copy_policy(alloc, policy)?;
            Ok(Command::AddPolicy(copy))
        }
        Command::ModPolicy(c) => {
            let copy = copy_policy_change(alloc, c)?;
            Ok(Command::ModPolicy(copy))
        }
        Command::DelPolicy(name) => {
            let copy = name.copied(alloc)?;
            Ok(Command::DelPolicy(copy))
        }
        Command::GetPolicy(name) => {
            let copy = name.copied(alloc)?;
            Ok(Command::GetPolicy(copy))
        }
        Command::ListPolicies => Ok(Command::ListPolicies),
        Command::GetPrivs => Ok(Command::GetPrivs),
        Command::AddMaster(etype) => Ok(Command::AddMaster(*etype)),
        Command::UseMaster(c) => Ok(Command::UseMaster(*c)),
        Command::ListMasters => Ok(Command::ListMasters),
        Command::PurgeMasters => Ok(Command::PurgeMasters),
        Command::RekeyPrincs(glob) => {
            let copy = copy_glob(alloc, glob)?;
            Ok(Command::RekeyPrincs(copy))
        }
        Command::Stash => Ok(Command::Stash),
        Command::Dump => Ok(Command::Dump),
    }
}
