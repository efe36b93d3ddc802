//! The record with new keys.

ghost use Rattle.std.specs.Prelude.{◌≡◌, ◌+◌, ◌*◌, ◌<◌, ◌≤◌, ◌++◌, IfOk, List, false, length};
ghost use Rattle.std.specs.List.{AllZip};
ghost use Rattle.command_plans.specs.KeptEntries.{is_drawn};
ghost use Rattle.command_plans.specs.Targets.{IsBy, by_given};
ghost use Rattle.kdb_base.specs.Key.{Key};
ghost use Rattle.kdb_model.specs.Fields.{expiry, rekeyed_head};
ghost use Rattle.key_plans.specs.Changing.{kept_items, kept_sets, kept_with, next_items, plain_sets, plain_with};
ghost use Rattle.key_plans.specs.Opening.{IsOpened};
ghost use Rattle.princ_plans.specs.Ready.{password_made};
ghost use Rattle.plain_keys.specs.Keys.{bytes_to_make, kept_keys, made_keys, newest_keys, newest_kvno};
ghost use Rattle.plain_keys.specs.declared.items.PlainSet.{PlainSet};
ghost use Rattle.row_keys.specs.Shows.{ShowsItem, ShowsSet, ShowsUnder};
ghost use Rattle.row_keys.specs.Wraps.{taken_lens};

use crate::causes::{NEEDCHANGE, is_password, kept_keys};
use command_plans::given::Given;
use command_plans::targets::marked_by;
use kadm_commands::ChangeKeys;
use kdb_base::{Master, MemoryOut, PlainKey};
use kdb_plain::PlainPrinc;
use master_keys::MasterKey;
use plain_keys::{NewKeys, PlainItem, PlainItems, PlainKeys, items_of, newest_kvno, random_keys};
use policy_rules::Numbers;
use princ_keys::{Keys, OldSets};
use princ_record::{Princ, copy};
use row_keys::{behind_items, rekeyed_items, remembered_sets};
use std::alloc::Global;

/// What a change of keys is made with.
#[derive(Clone, Copy)]
pub struct With {
    /// The master key under which keys are kept.
    pub active: Master,
    /// The key under which remembered keys are kept.
    pub history: PlainKey,
    /// What the policy of the principal asks.
    pub numbers: Numbers,
}

/// The new keys: those of the password, which are made before, or random ones of the block.
pub(crate) fn fresh_keys(
    alloc: Global,
    given: &Given,
    c: &ChangeKeys,
    ready: &[PlainKey],
) -> Result<PlainKeys, MemoryOut>
    requires ready { ready.now ≡ password_made c.now.name c.now.keys }
    requires block { bytes_to_make c.now.keys ≤ length given.now.random.now }
    ensures { IfOk result (λ keys. keys ≡ made_keys given.now.random.now c.now.name c.now.keys) }
{
    match &c.keys {
        NewKeys::Random(etypes) => random_keys(alloc, given.random, etypes.as_slice()),
        NewKeys::Password(_, _) => {
            let keys = ready.to_vec(alloc)?;
            Ok(PlainKeys::from_vec(keys))
        }
    }
}

/// When a password that is set at `secs` expires, under a policy of this greatest life; 0 for never.
#[tactic(auto, unfolding(kdb_model::specs::Fields::expiry))]
fn expiry(life: u32, secs: u32) -> u32
    ensures { result ≡ expiry life secs }
{
    if life == 0 {
        0
    } else {
        secs.saturating_add(life)
    }
}

/// The record under the active master key, with keys that are set now.
#[tactic(auto, unfolding(kdb_model::specs::Fields::rekeyed_head))]
fn rekeyed_head(
    alloc: Global,
    given: &Given,
    with: &With,
    mut head: Princ,
) -> Result<Princ, MemoryOut>
    ensures head { IfOk result
        (λ h. h ≡ rekeyed_head with.now.active.version with.now.numbers.max_life (by_given given.now) head) }
    ensures by { IfOk result (λ h. IsBy (by_given given.now)) }
{
    let secs = given.moment.secs();
    head.attributes &= !NEEDCHANGE;
    head.mkvno = with.active.version;
    head.pw_changed = Some(secs);
    head.pw_expire = expiry(with.numbers.max_life(), secs);
    marked_by(alloc, given, head)
}

/// The new keys as keys of the principal, of the next version.
fn next_items(
    alloc: Global,
    fresh: &[PlainKey],
    plain: &PlainPrinc,
) -> Result<PlainItems, MemoryOut>
    requires { newest_kvno plain.now.keys < 65535 }
    ensures { IfOk result (λ items. items ≡ next_items fresh.now plain.now.keys) }
{
    let kvno = newest_kvno(plain.keys.as_slice());
    items_of(alloc, kvno + 1, fresh)
}

/// The keys, wrapped under the active master key.
fn kept_items(
    alloc: Global,
    with: &With,
    random: &[u8],
    c: &ChangeKeys,
    items: &[PlainItem],
    plain: &PlainPrinc,
) -> Result<Keys, MemoryOut>
    requires { taken_lens (is_drawn c.now.keys) items.now + taken_lens false (kept_keys c.now.keep_old plain.now.keys)
        ≤ length random.now }
    ensures keys { (fresh : List Key) → items.now ≡ next_items fresh plain.now.keys
        → IfOk result (λ keys. keys ≡ kept_items with.now.active.key random.now c.now fresh plain.now) }
    ensures shows { IfOk result
        (λ keys. AllZip (ShowsItem with.now.active.key) keys (items.now ++ kept_keys c.now.keep_old plain.now.keys)) }
{
    let master = MasterKey::new(&with.active.key);
    let kept = kept_keys(c.keep_old, plain.keys.as_slice());
    let drawn = !is_password(&c.keys);
    let keys = rekeyed_items(alloc, &master, drawn, random, items, kept)?;
    Ok(Keys::from_vec(keys))
}

/// What the record remembers, wrapped under the history key. A random key leaves it as it is.
fn kept_sets(
    alloc: Global,
    with: &With,
    random: &[u8],
    c: &ChangeKeys,
    items: &[PlainItem],
    plain: &PlainPrinc,
    old: OldSets,
) -> Result<OldSets, MemoryOut>
    requires { taken_lens (is_drawn c.now.keys) items.now + taken_lens false (kept_keys c.now.keep_old plain.now.keys)
        + 16 * length (newest_keys plain.now.keys) ≤ length random.now }
    ensures sets { (fresh : List Key) → items.now ≡ next_items fresh plain.now.keys → IfOk result
        (λ s. s ≡ kept_sets with.now.history with.now.numbers.history random.now c.now fresh plain.now old) }
    ensures shows { AllZip (ShowsSet with.now.history) old plain.now.old → IfOk result
        (λ s. AllZip (ShowsSet with.now.history) s (plain_sets with.now.numbers.history c.now plain.now)) }
{
    if !is_password(&c.keys) {
        return Ok(old);
    }
    let behind = behind_items(!is_password(&c.keys), random, items);
    let behind = behind_items(false, behind, kept_keys(c.keep_old, plain.keys.as_slice()));
    let history = MasterKey::new(&with.history);
    remembered_sets(
        alloc,
        &history,
        with.numbers.history(),
        behind,
        plain.keys.as_slice(),
        old,
    )
}

/// The record with new keys: those that are given before the old ones that stay, and what a password replaces
/// remembered.
pub(crate) fn rekeyed(
    alloc: Global,
    given: &Given,
    with: &With,
    c: &ChangeKeys,
    fresh: &[PlainKey],
    plain: &PlainPrinc,
    princ: &Princ,
) -> Result<Princ, MemoryOut>
    requires opened { IsOpened given.now.masters.now with.now.history princ.now plain.now }
    requires version { newest_kvno plain.now.keys < 65535 }
    requires block { taken_lens (is_drawn c.now.keys) (next_items fresh.now plain.now.keys)
        + taken_lens false (kept_keys c.now.keep_old plain.now.keys) + 16 * length (newest_keys plain.now.keys)
        ≤ length given.now.random.now }
    ensures princ { IfOk result
        (λ p. p ≡ kept_with with.now given.now.random.now (by_given given.now) c.now fresh.now plain.now princ.now) }
    ensures shows { IfOk result (λ p. ShowsUnder with.now.active.key with.now.history p
        (plain_with with.now (by_given given.now) c.now fresh.now plain.now)) }
    ensures by { IfOk result (λ p. IsBy (by_given given.now)) }
{
    let items = next_items(alloc, fresh, plain)?;
    let mut made = copy(alloc, princ)?;
    let keys = kept_items(alloc, with, given.random, c, items.as_slice(), plain)?;
    let old = kept_sets(
        alloc,
        with,
        given.random,
        c,
        items.as_slice(),
        plain,
        made.old,
    )?;
    made.keys = keys;
    made.old = old;
    rekeyed_head(alloc, given, with, made)
}
