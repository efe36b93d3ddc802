//! The keys of a new principal.

ghost use Rattle.std.specs.Prelude.{◌≡◌, IfOk, length};
ghost use Rattle.std.specs.List.{AllZip};
ghost use Rattle.command_plans.specs.KeptEntries.{is_drawn, wrapped_new};
ghost use Rattle.kadm_commands.specs.Commands.{IsCommand, IsNewKeys};
ghost use Rattle.kadm_commands.specs.declared.commands.Command.TheVariants as command;
ghost use Rattle.plain_keys.specs.Keys.{items_of, made_keys};
ghost use Rattle.princ_name.specs.Names.{NameParts};
ghost use Rattle.princ_plans.specs.Adding.{items_given};
ghost use Rattle.princ_plans.specs.Ready.{password_made, ready_keys};
ghost use Rattle.row_keys.specs.Shows.{ShowsItem};

use command_plans::given::Given;
use kadm_commands::AddPrinc;
use kdb_base::{MemoryOut, PlainKey};
use master_keys::MasterKey;
use plain_keys::{NewKeys, PlainItem, PlainItems, PlainKeys, items_of, random_keys};
use princ_keys::Keys;
use row_keys::wrapped_items;
use std::alloc::Global;

/// Keys in the plain, of version 1: those of the password, which are ready, or random ones of the block.
fn items_made(
    alloc: Global,
    random: &[u8],
    keys: &NewKeys,
    ready: &PlainKeys,
) -> Result<PlainItems, MemoryOut>
    requires keys { IsNewKeys keys.now }
    requires random { length random.now ≡ 2048 }
    ensures { (name : NameParts) → ready.now ≡ password_made name keys.now
        → IfOk result (λ items. items ≡ items_of 1 (made_keys random.now name keys.now)) }
{
    match keys {
        NewKeys::Random(etypes) => {
            let keys = random_keys(alloc, random, etypes.as_slice())?;
            items_of(alloc, 1, keys.as_slice())
        }
        NewKeys::Password(_, _) => items_of(alloc, 1, ready.as_slice()),
    }
}

/// The keys of a new principal in the plain.
pub(crate) fn new_items(
    alloc: Global,
    given: &Given,
    c: &AddPrinc,
    ready: &PlainKeys,
) -> Result<PlainItems, MemoryOut>
    requires command { IsCommand given.now.realm.now (command.AddPrinc c.now) }
    requires random { length given.now.random.now ≡ 2048 }
    requires ready { ready.now ≡ ready_keys (command.AddPrinc c.now) }
    ensures { IfOk result (λ items. items ≡ items_given given.now c.now) }
{
    match &c.keys {
        Some(keys) => items_made(alloc, given.random, keys, ready),
        None => Ok(PlainItems::from_vec(Vec::new(alloc))),
    }
}

/// Random keys stand in the block before their confounders.
fn is_drawn(keys: &NewKeys) -> bool
    ensures { result ≡ is_drawn keys.now }
{
    match keys {
        NewKeys::Random(_) => true,
        NewKeys::Password(_, _) => false,
    }
}

/// The keys, wrapped under the master key.
pub(crate) fn wrapped_new(
    alloc: Global,
    master: &PlainKey,
    given: &Given,
    c: &AddPrinc,
    items: &[PlainItem],
) -> Result<Keys, MemoryOut>
    requires command { IsCommand given.now.realm.now (command.AddPrinc c.now) }
    requires random { length given.now.random.now ≡ 2048 }
    requires items { items.now ≡ items_given given.now c.now }
    ensures keys { IfOk result (λ keys. keys ≡ wrapped_new master.now given.now.random.now items.now c.now.keys) }
    ensures shows { IfOk result (λ keys. AllZip (ShowsItem master.now) keys items.now) }
{
    match &c.keys {
        Some(keys) => {
            let ready = MasterKey::new(master);
            let wrapped = wrapped_items(alloc, &ready, is_drawn(keys), given.random, items)?;
            Ok(Keys::from_vec(wrapped))
        }
        None => Ok(Keys::from_vec(Vec::new(alloc))),
    }
}
