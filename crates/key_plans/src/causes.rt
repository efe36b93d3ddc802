//! Why the keys of a principal are not changed, each cause by itself.

ghost use Rattle.std.specs.Prelude.{◌≡◌, IfOk, is_some, length, option_map, ◌&&◌};
ghost use Rattle.kdb_base.specs.declared.outcomes.Refusal.{Refusal};
ghost use Rattle.kdb_model.specs.Fields.{has_bit, lockdown_keys};
ghost use Rattle.kdb_model.specs.Records.{numbers_for};
ghost use Rattle.kdb_model.specs.Refusals.{first, password_of, when};
ghost use Rattle.key_plans.specs.Changing.{change_causes, lacks_room, soon_after, soon_again};
ghost use Rattle.plain_keys.specs.Keys.{is_password, is_reused, kept_keys};

use command_plans::causes::{LOCKDOWN_KEYS, first, has_bit, when};
use command_plans::given::Given;
use kadm_commands::ChangeKeys;
use kdb_base::limits::MAX_KEYS;
use kdb_base::{Blob, PlainKey, Refusal};
use kdb_model::refusals::{few_classes, too_short};
use kdb_plain::PlainPrinc;
use plain_keys::{NewKeys, Password, PlainItem, is_reused, newest_kvno};
use policy_rules::Numbers;
use row_keys::policy_row;

/// The password has to be changed at the next use.
pub(crate) const NEEDCHANGE: u32 = 0x200;

/// What the policy of a principal asks; without one, or where it is not there, the defaults.
pub(crate) fn numbers_for(given: &Given, policy: &Option<Blob>) -> Numbers
    ensures { result ≡ numbers_for policy.now given.now.rows.now.policies }
{
    match policy {
        Some(name) => match policy_row(given.rows, name.as_slice()) {
            Some(policy) => policy.numbers(),
            None => Numbers::without_policy(),
        },
        None => Numbers::without_policy(),
    }
}

pub(crate) fn is_password(keys: &NewKeys) -> bool
    ensures { result ≡ is_password keys.now }
{
    match keys {
        NewKeys::Random(_) => false,
        NewKeys::Password(_, _) => true,
    }
}

fn password_of(keys: &NewKeys) -> Option<&Password>
    ensures { option_map (λ text. text.now) result ≡ password_of keys.now }
{
    match keys {
        NewKeys::Random(_) => None,
        NewKeys::Password(password, _) => Some(password),
    }
}

/// The old keys that stay.
pub(crate) fn kept_keys(keep: bool, keys: &[PlainItem]) -> &[PlainItem]
    ensures { result.now ≡ kept_keys keep keys.now }
{
    if keep { keys } else { &[] }
}

/// The keys are locked down, over a connection.
fn lock(given: &Given, c: &ChangeKeys, plain: &PlainPrinc) -> Option<Refusal>
    ensures { result ≡ when (is_some (option_map (λ acl. acl.now) given.now.acl)
        && has_bit lockdown_keys plain.now.attributes && is_password c.now.keys) Refusal.LockedDown }
{
    let locked = given.acl.is_some() && has_bit(LOCKDOWN_KEYS, plain.attributes);
    when(locked && is_password(&c.keys), Refusal::LockedDown)
}

/// A key of the password was in use before.
fn reused(c: &ChangeKeys, fresh: &[PlainKey], plain: &PlainPrinc) -> Option<Refusal>
    ensures { result
        ≡ when (is_password c.now.keys && is_reused fresh.now plain.now.keys plain.now.old) Refusal.PassReused }
{
    let reused = is_password(&c.keys)
        && is_reused(fresh, plain.keys.as_slice(), plain.old.as_slice());
    when(reused, Refusal::PassReused)
}

/// Why keys that were set at `changed` may not be changed yet.
fn soon_after(secs: u32, life: u32, attributes: u32, changed: u32) -> Option<Refusal>
    ensures { result ≡ soon_after secs life attributes changed }
{
    let until = u64::from(changed) + u64::from(life);
    let soon = u64::from(secs) < until;
    when(
        !has_bit(NEEDCHANGE, attributes) && soon,
        Refusal::PassTooSoon {
            until: changed.saturating_add(life),
        },
    )
}

/// The own keys are changed again before the least life of the standing ones is over, over a connection.
fn soon_again(given: &Given, own: bool, life: u32, plain: &PlainPrinc) -> Option<Refusal>
    ensures { result
        ≡ soon_again (is_some (option_map (λ acl. acl.now) given.now.acl)) own given.now.moment.secs life plain.now }
{
    if given.acl.is_none() || !own {
        return None;
    }
    match plain.pw_changed {
        Some(changed) => soon_after(given.moment.secs(), life, plain.attributes, changed),
        None => None,
    }
}

/// Whether no version is left for new keys, or there would be more than a principal may have.
fn lacks_room(count: usize, keep: bool, plain: &PlainPrinc) -> bool
    ensures { result ≡ lacks_room count keep plain.now }
{
    let keys = plain.keys.as_slice();
    let kept = kept_keys(keep, keys).len();
    newest_kvno(keys) == u16::MAX || kept > MAX_KEYS || count > MAX_KEYS - kept
}

/// The first cause for which the keys of a principal are not changed for these. `own` says that the command is on the
/// client's own name.
pub(crate) fn cause(
    given: &Given,
    own: bool,
    numbers: &Numbers,
    c: &ChangeKeys,
    fresh: &[PlainKey],
    plain: &PlainPrinc,
) -> Option<Refusal>
    ensures { result ≡ first (change_causes (is_some (option_map (λ acl. acl.now) given.now.acl)) own
        given.now.moment.secs numbers.now c.now fresh.now plain.now) }
{
    let password = password_of(&c.keys);
    let full = lacks_room(fresh.len(), c.keep_old, plain);
    let causes = [
        lock(given, c, plain),
        too_short(numbers, password),
        few_classes(numbers, password),
        reused(c, fresh, plain),
        soon_again(given, own, numbers.min_life(), plain),
        when(full, Refusal::KeysFull),
    ];
    first(&causes)
}
