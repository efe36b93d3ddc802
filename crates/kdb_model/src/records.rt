//! The records that commands put: principals with their keys, and policies.

ghost use Rattle.std.specs.Prelude.{◌≡◌, ◌++◌, ◌+◌, ◌<◌, ◌≤◌, IfOk, IfSome};
ghost use Rattle.std.specs.Prelude.{if◌then◌else◌, length, option_map, unwrap_or};
ghost use Rattle.kadm_commands.specs.Commands.{IsModPolicy};
ghost use Rattle.kdb_model.specs.Access.{adding, limits_for, modifying};
ghost use Rattle.kdb_model.specs.Asking.{call_in, state_in};
ghost use Rattle.kdb_model.specs.Calls.{secs_of};
ghost use Rattle.kdb_model.specs.Fields.{added_head, blank_head, keyed_by, marked};
ghost use Rattle.kdb_model.specs.Fields.{modified_head, rekeyed_head, renamed_head};
ghost use Rattle.kdb_model.specs.Records.{active_in, added, added_keys, added_life, added_policy};
ghost use Rattle.kdb_model.specs.Records.{by_of, changed_policy, default_given, line_policy};
ghost use Rattle.kdb_model.specs.Records.{modified, numbers_for, purged, rekeyed, renamed, restrung};
ghost use Rattle.kdb_plain.specs.Heads.{plain_head};
ghost use Rattle.plain_keys.specs.Keys.{bytes_to_make, is_password, items_of, kept_keys, keys_from, least_kvno};
ghost use Rattle.plain_keys.specs.Keys.{made_keys, newest_kvno, remembered, settled_item, settled_items};
ghost use Rattle.kdb_plain.specs.States.{has_policy};
ghost use Rattle.policy_rules.specs.Numbers.{numbers_of};
ghost use Rattle.princ_name.specs.Names.{printed};

use crate::asked::{Asked, active_in, limits_for, moment_of, secs_of};
use crate::heads::{
    blank_head, chosen, forced, keyed, limited, marked, or_standing, with_options,
    without_needchange,
};
use kadm_commands::{AddPrinc, ChangeKeys, ModPolicy, ModPrinc, PurgeKeys, RenPrinc};
use kdb_base::{Blob, MemoryOut};
use kdb_plain::{
    PlainPrinc, PolicyList, copy_princ, has_policy, plain_head, plain_of, policy_named,
};
use plain_keys::{
    NewKeys, PlainItem, PlainItems, PlainSets, items_of, newest_kvno, remembered, settled_salt,
};
use policy_rules::{Numbers, Policy};
use princ_name::{Name, print_name};
use princ_record::Princ;
use std::alloc::Global;
use tagged_data::StringAttributes;

/// What a policy asks; without one, or where it is not there, the defaults.
pub(crate) fn numbers_for(policy: &Option<Blob>, policies: &PolicyList) -> Numbers
    ensures { result ≡ numbers_for policy.now policies.now }
{
    match policy {
        Some(name) => match policy_named(policies, name.as_slice()) {
            Some(policy) => policy.numbers(),
            None => Numbers::without_policy(),
        },
        None => Numbers::without_policy(),
    }
}

/// The record with the command's client as who changed it.
fn changed_by(alloc: Global, asked: &Asked, head: Princ) -> Result<Princ, MemoryOut>
    ensures { IfOk result (λ h. h ≡ marked (by_of (state_in asked.now) (call_in asked.now)) head) }
{
    let client = print_name(alloc, asked.client)?;
    Ok(marked(head, client, secs_of(asked)))
}

// ---- addprinc

/// The policy of a database that is given where a line says nothing of policies.
fn default_policy(alloc: Global, policies: &PolicyList) -> Result<Option<Blob>, MemoryOut>
    ensures { IfOk result (λ p. p ≡ default_given policies.now) }
{
    if has_policy(policies, b"default") {
        let name = Blob::from_bytes(alloc, b"default")?;
        Ok(Some(name))
    } else {
        Ok(None)
    }
}

/// The policy of the line.
fn line_policy(alloc: Global, asked: &Asked, c: &AddPrinc) -> Result<Option<Blob>, MemoryOut>
    ensures { IfOk result (λ p. p ≡ line_policy c.now (state_in asked.now).policies) }
{
    let standing = default_policy(alloc, &asked.state.policies)?;
    chosen(alloc, &c.policy, standing)
}

/// What the policy asks that a new principal gets, behind restrictions.
pub(crate) fn added_numbers(
    alloc: Global,
    asked: &Asked,
    c: &AddPrinc,
) -> Result<Numbers, MemoryOut>
    ensures { IfOk result (λ n.
        n ≡ numbers_for (added_policy (state_in asked.now) (call_in asked.now) c.now) (state_in asked.now).policies) }
{
    let policy = line_policy(alloc, asked, c)?;
    let policy = forced(alloc, limits_for(asked, b'a', &c.name), policy)?;
    Ok(numbers_for(&policy, &asked.state.policies))
}

/// The head of a new principal, before its options.
fn keyed_head(alloc: Global, asked: &Asked, c: &AddPrinc) -> Result<Princ, MemoryOut>
    ensures { IfOk result (λ h. h ≡ keyed_by (added_life (state_in asked.now) (call_in asked.now) c.now)
        (secs_of (state_in asked.now) (call_in asked.now)) (blank_head (printed c.now.name)
        (active_in (state_in asked.now) (call_in asked.now)) (line_policy c.now (state_in asked.now).policies))) }
{
    let name = print_name(alloc, &c.name)?;
    let policy = line_policy(alloc, asked, c)?;
    let head = blank_head(alloc, name, active_in(asked), policy);
    if c.keys.is_none() {
        return Ok(head);
    }
    let numbers = added_numbers(alloc, asked, c)?;
    Ok(keyed(head, numbers.max_life(), secs_of(asked)))
}

/// The head of a new principal.
#[tactic(auto, unfolding(crate::specs::Fields::added_head))]
fn added_head(alloc: Global, asked: &Asked, c: &AddPrinc) -> Result<Princ, MemoryOut>
    ensures { IfOk result (λ h. h ≡ added_head (printed c.now.name) (active_in (state_in asked.now) (call_in asked.now))
        (line_policy c.now (state_in asked.now).policies) (added_life (state_in asked.now) (call_in asked.now) c.now)
        (limits_for (call_in asked.now) adding c.now.name) c.now.options
        (by_of (state_in asked.now) (call_in asked.now))) }
{
    let head = keyed_head(alloc, asked, c)?;
    let head = with_options(head, &c.options);
    let head = changed_by(alloc, asked, head)?;
    limited(
        alloc,
        head,
        limits_for(asked, b'a', &c.name),
        moment_of(asked),
    )
}

/// The keys that a command makes, as keys of a principal of this version.
fn made_items(
    alloc: Global,
    random: &[u8],
    name: &Name,
    keys: &NewKeys,
    kvno: u16,
) -> Result<PlainItems, MemoryOut>
    requires { bytes_to_make keys.now ≤ length random.now }
    ensures { IfOk result (λ items. items ≡ items_of kvno (made_keys random.now name.now keys.now)) }
{
    let made = plain_keys::made_keys(alloc, random, name, keys)?;
    items_of(alloc, kvno, made.as_slice())
}

/// The keys of a new principal.
fn added_keys(alloc: Global, asked: &Asked, c: &AddPrinc) -> Result<PlainItems, MemoryOut>
    requires { IfSome c.now.keys (λ keys. bytes_to_make keys ≤ length asked.now.random.now) }
    ensures { IfOk result (λ items. items ≡ added_keys (call_in asked.now) c.now) }
{
    match &c.keys {
        Some(keys) => made_items(alloc, asked.random, &c.name, keys, 1),
        None => Ok(PlainItems::from_vec(Vec::new(alloc))),
    }
}

/// `addprinc`: the new principal.
#[tactic(auto, unfolding(crate::specs::Records::added))]
pub(crate) fn added(alloc: Global, asked: &Asked, c: &AddPrinc) -> Result<PlainPrinc, MemoryOut>
    requires { IfSome c.now.keys (λ keys. bytes_to_make keys ≤ length asked.now.random.now) }
    ensures { IfOk result (λ q. q ≡ added (state_in asked.now) (call_in asked.now) c.now) }
{
    let head = added_head(alloc, asked, c)?;
    let keys = added_keys(alloc, asked, c)?;
    Ok(plain_of(head, keys, PlainSets::from_vec(Vec::new(alloc))))
}

// ---- changes of a principal

/// `modprinc`: the principal with other fields.
#[tactic(auto, unfolding(crate::specs::Records::modified, crate::specs::Fields::modified_head))]
pub(crate) fn modified(
    alloc: Global,
    asked: &Asked,
    c: &ModPrinc,
    princ: &PlainPrinc,
) -> Result<PlainPrinc, MemoryOut>
    ensures { IfOk result (λ q. q ≡ modified (state_in asked.now) (call_in asked.now) c.now princ.now) }
{
    let mut head = plain_head(alloc, princ)?;
    let policy = chosen(alloc, &c.policy, head.policy)?;
    head.policy = policy;
    let head = with_options(head, &c.options);
    let head = changed_by(alloc, asked, head)?;
    let limits = limits_for(asked, b'm', &c.name);
    let head = limited(alloc, head, limits, moment_of(asked))?;
    let was = copy_princ(alloc, princ)?;
    Ok(plain_of(head, was.keys, was.old))
}

/// New keys before those that stay.
fn with_kept(fresh: PlainItems, keep: bool, old: PlainItems) -> Result<PlainItems, MemoryOut>
    ensures { IfOk result (λ items. items ≡ fresh ++ kept_keys keep old) }
{
    if !keep {
        return Ok(fresh);
    }
    let mut items = fresh.into_vec();
    let mut kept = old.into_vec();
    items.append(&mut kept)?;
    Ok(PlainItems::from_vec(items))
}

/// What the principal remembers behind new keys: more where they are a password's.
fn rekeyed_old(
    alloc: Global,
    history: u16,
    password: bool,
    princ: &PlainPrinc,
) -> Result<PlainSets, MemoryOut>
    ensures { IfOk result
        (λ old. old ≡ (if password then remembered history princ.now.keys princ.now.old else princ.now.old)) }
{
    if password {
        return remembered(alloc, history, princ.keys.as_slice(), princ.old.as_slice());
    }
    let was = copy_princ(alloc, princ)?;
    Ok(was.old)
}

pub(crate) fn is_password(keys: &NewKeys) -> bool
    ensures { result ≡ is_password keys.now }
{
    match keys {
        NewKeys::Random(_) => false,
        NewKeys::Password(_, _) => true,
    }
}

/// The keys of the principal behind `cpw`.
fn rekeyed_keys(
    alloc: Global,
    asked: &Asked,
    c: &ChangeKeys,
    princ: &PlainPrinc,
) -> Result<PlainItems, MemoryOut>
    requires { bytes_to_make c.now.keys ≤ length asked.now.random.now }
    ensures { newest_kvno princ.now.keys < 65535
        → IfOk result (λ items. items ≡ items_of (newest_kvno princ.now.keys + 1)
        (made_keys asked.now.random.now c.now.name c.now.keys) ++ kept_keys c.now.keep_old princ.now.keys) }
{
    let kvno = newest_kvno(princ.keys.as_slice()).saturating_add(1);
    let fresh = made_items(alloc, asked.random, &c.name, &c.keys, kvno)?;
    let was = copy_princ(alloc, princ)?;
    with_kept(fresh, c.keep_old, was.keys)
}

/// `cpw`: the principal with new keys.
#[tactic(auto, unfolding(crate::specs::Records::rekeyed, crate::specs::Fields::rekeyed_head))]
pub(crate) fn rekeyed(
    alloc: Global,
    asked: &Asked,
    c: &ChangeKeys,
    princ: &PlainPrinc,
) -> Result<PlainPrinc, MemoryOut>
    requires { bytes_to_make c.now.keys ≤ length asked.now.random.now }
    ensures { newest_kvno princ.now.keys < 65535
        → IfOk result (λ q. q ≡ rekeyed (state_in asked.now) (call_in asked.now) c.now princ.now) }
{
    let numbers = numbers_for(&princ.policy, &asked.state.policies);
    let mut head = plain_head(alloc, princ)?;
    head.mkvno = active_in(asked);
    let head = without_needchange(head);
    let head = keyed(head, numbers.max_life(), secs_of(asked));
    let head = changed_by(alloc, asked, head)?;
    let keys = rekeyed_keys(alloc, asked, c, princ)?;
    let old = rekeyed_old(alloc, numbers.history(), is_password(&c.keys), princ)?;
    Ok(plain_of(head, keys, old))
}

fn settled_item(alloc: Global, name: &Name, item: &PlainItem) -> Result<PlainItem, MemoryOut>
    ensures { IfOk result (λ k. k ≡ settled_item name.now item.now) }
{
    let salt = settled_salt(alloc, name, &item.salt)?;
    Ok(PlainItem {
        kvno: item.kvno,
        salt,
        key: item.key,
    })
}

/// The keys of a principal that had this name, under another one.
#[tactic(auto, unfolding(plain_keys::specs::Keys::settled_items))]
fn settled_items(alloc: Global, name: &Name, items: &[PlainItem]) -> Result<PlainItems, MemoryOut>
    ensures { IfOk result (λ k. k ≡ settled_items name.now items.now) }
{
    let mut settled = Vec::with_capacity(alloc, items.len())?;
    for item in items {
        let item = settled_item(alloc, name, item)?;
        settled.push(item)?;
    }
    Ok(PlainItems::from_vec(settled))
}

/// `renprinc`: the principal under its new name.
#[tactic(auto, unfolding(crate::specs::Records::renamed))]
pub(crate) fn renamed(
    alloc: Global,
    asked: &Asked,
    c: &RenPrinc,
    princ: &PlainPrinc,
) -> Result<PlainPrinc, MemoryOut>
    ensures { IfOk result (λ q. q ≡ renamed (state_in asked.now) (call_in asked.now) c.now princ.now) }
{
    let name = print_name(alloc, &c.new_name)?;
    let mut head = plain_head(alloc, princ)?;
    head.name = name;
    let head = changed_by(alloc, asked, head)?;
    let keys = settled_items(alloc, &c.name, princ.keys.as_slice())?;
    let was = copy_princ(alloc, princ)?;
    Ok(plain_of(head, keys, was.old))
}

/// The keys of this version and of later ones.
#[tactic(auto, unfolding(plain_keys::specs::Keys::keys_from))]
fn keys_from(kvno: u16, items: PlainItems) -> PlainItems
    ensures { result ≡ keys_from kvno items }
{
    let mut items = items.into_vec();
    items.retain(|item| kvno <= item.kvno);
    PlainItems::from_vec(items)
}

fn least_kvno(named: Option<u16>, keys: &[PlainItem]) -> u16
    ensures { result ≡ least_kvno named keys.now }
{
    match named {
        Some(kvno) => kvno,
        None => newest_kvno(keys),
    }
}

/// `purgekeys`: the principal without keys of earlier versions.
#[tactic(auto, unfolding(crate::specs::Records::purged))]
pub(crate) fn purged(
    alloc: Global,
    asked: &Asked,
    c: &PurgeKeys,
    princ: &PlainPrinc,
) -> Result<PlainPrinc, MemoryOut>
    ensures { IfOk result (λ q. q ≡ purged (state_in asked.now) (call_in asked.now) c.now princ.now) }
{
    let head = plain_head(alloc, princ)?;
    let head = changed_by(alloc, asked, head)?;
    let was = copy_princ(alloc, princ)?;
    let least = least_kvno(c.keep, princ.keys.as_slice());
    Ok(plain_of(head, keys_from(least, was.keys), was.old))
}

/// `setstr` and `delstr`: the principal with these attributes.
#[tactic(auto, unfolding(crate::specs::Records::restrung))]
pub(crate) fn restrung(
    alloc: Global,
    asked: &Asked,
    strings: StringAttributes,
    princ: &PlainPrinc,
) -> Result<PlainPrinc, MemoryOut>
    ensures { IfOk result (λ q. q ≡ restrung (state_in asked.now) (call_in asked.now) strings princ.now) }
{
    let mut head = plain_head(alloc, princ)?;
    head.strings = strings;
    let head = changed_by(alloc, asked, head)?;
    let was = copy_princ(alloc, princ)?;
    Ok(plain_of(head, was.keys, was.old))
}

// ---- modpol

fn number_or(given: Option<u16>, standing: u16) -> u16
    ensures { result ≡ unwrap_or given standing }
{
    match given {
        Some(value) => value,
        None => standing,
    }
}

/// The numbers of a policy behind `modpol`.
#[tactic(auto, unfolding(crate::specs::Records::changed_policy))]
fn changed_numbers(c: &ModPolicy, standing: &Policy) -> Numbers
    requires { IsModPolicy c.now }
    ensures { result ≡ numbers_of (changed_policy c.now standing.now) }
{
    Numbers::new(
        or_standing(c.max_life, standing.max_life()),
        or_standing(c.min_life, standing.min_life()),
        number_or(c.min_length, standing.min_length()),
        number_or(c.min_classes, standing.min_classes()),
        number_or(c.history, standing.history()),
    )
}

/// `modpol`: the policy with other numbers.
#[tactic(auto, unfolding(crate::specs::Records::changed_policy))]
pub(crate) fn changed_policy(
    alloc: Global,
    c: &ModPolicy,
    policy: &Policy,
) -> Result<Policy, MemoryOut>
    requires { IsModPolicy c.now }
    ensures { IfOk result (λ p. p ≡ changed_policy c.now policy.now) }
{
    let name = Blob::from_bytes(alloc, policy.name())?;
    Ok(Policy::from_numbers(name, changed_numbers(c, policy)))
}
