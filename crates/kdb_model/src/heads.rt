//! What commands make of the fields of a principal, as records without keys.

ghost use Rattle.std.specs.Prelude.{◌≡◌, Some, IfOk, option_map, unwrap_or};
ghost use Rattle.kdb_model.specs.Fields.{blank_head, chosen, expiry, forced, has_bit, keyed};
ghost use Rattle.kdb_model.specs.Fields.{limited, marked, needchange, with_options, without_bit};

use acl_text::{Limits, Wanted, restrict};
use kadm_commands::{PolicyChoice, PrincOptions};
use kadm_values::with_flags;
use kdb_base::{Blob, MemoryOut, Time};
use princ_record::{Keys, OldSets, Princ};
use std::alloc::Global;
use tagged_data::StringAttributes;

/// The password has to be changed at the next use.
pub(crate) const NEEDCHANGE: u32 = 0x200;
/// The keys may be taken and set by nobody over a connection.
pub(crate) const LOCKDOWN_KEYS: u32 = 0x800000;

pub(crate) fn has_bit(bit: u32, attributes: u32) -> bool
    ensures { result ≡ has_bit bit attributes }
{
    attributes & bit == bit
}

pub(crate) fn copy_policy(alloc: Global, name: &Option<Blob>) -> Result<Option<Blob>, MemoryOut>
    ensures { IfOk result (λ x. x ≡ name.now) }
{
    match name {
        Some(name) => {
            let name = Blob::from_bytes(alloc, name.as_slice())?;
            Ok(Some(name))
        }
        None => Ok(None),
    }
}

/// Who changed the record last, and when.
pub(crate) fn marked(mut head: Princ, client: Blob, secs: u32) -> Princ
    ensures { result ≡ marked (record { client = client; secs = secs }) head }
{
    head.modified = secs;
    head.modifier = client;
    head
}

/// The value that is given, or the standing one.
pub(crate) fn or_standing(given: Option<u32>, standing: u32) -> u32
    ensures { result ≡ unwrap_or given standing }
{
    match given {
        Some(value) => value,
        None => standing,
    }
}

/// The options of a line, over a record.
#[tactic(auto, unfolding(crate::specs::Fields::with_options))]
pub fn with_options(mut head: Princ, options: &PrincOptions) -> Princ
    ensures { result ≡ with_options options.now head }
{
    head.attributes = with_flags(head.attributes, options.flags.as_slice());
    head.max_life = or_standing(options.max_life, head.max_life);
    head.max_renew = or_standing(options.max_renew, head.max_renew);
    head.expire = or_standing(options.expire, head.expire);
    head.pw_expire = or_standing(options.pw_expire, head.pw_expire);
    head
}

/// The policy of a line's options, or the standing one.
///
/// # Errors
///
/// `MemoryOut` where memory is wanted and not given.
pub fn chosen(
    alloc: Global,
    choice: &Option<PolicyChoice>,
    standing: Option<Blob>,
) -> Result<Option<Blob>, MemoryOut>
    ensures { IfOk result (λ x. x ≡ chosen choice.now standing) }
{
    match choice {
        Some(PolicyChoice::Named(name)) => {
            let name = Blob::from_bytes(alloc, name.as_slice())?;
            Ok(Some(name))
        }
        Some(PolicyChoice::Cleared) => Ok(None),
        None => Ok(standing),
    }
}

/// What restrictions leave of the policy.
///
/// # Errors
///
/// `MemoryOut` where memory is wanted and not given.
pub fn forced(
    alloc: Global,
    limits: Option<&Limits>,
    policy: Option<Blob>,
) -> Result<Option<Blob>, MemoryOut>
    ensures { IfOk result (λ x. x ≡ forced (option_map (λ l. l.now) limits.entry) policy) }
{
    match limits {
        Some(limits) => match &limits.policy {
            Some(forced) => copy_policy(alloc, forced),
            None => Ok(policy),
        },
        None => Ok(policy),
    }
}

/// What restrictions leave of the fields of a record that is changed at this moment.
fn restricted(
    alloc: Global,
    mut head: Princ,
    limits: &Limits,
    moment: Time,
) -> Result<Princ, MemoryOut>
    ensures { IfOk result (λ h. h ≡ limited (Some limits.now) moment.secs head) }
{
    let mut wanted = Wanted {
        attributes: head.attributes,
        policy: head.policy,
        expire: head.expire,
        pw_expire: head.pw_expire,
        max_life: head.max_life,
        max_renew: head.max_renew,
    };
    restrict(alloc, limits, &mut wanted, moment)?;
    head.attributes = wanted.attributes;
    head.policy = wanted.policy;
    head.expire = wanted.expire;
    head.pw_expire = wanted.pw_expire;
    head.max_life = wanted.max_life;
    head.max_renew = wanted.max_renew;
    Ok(head)
}

/// What restrictions, where there are some, leave of the fields of a record that is changed at this moment.
///
/// # Errors
///
/// `MemoryOut` where memory is wanted and not given.
pub fn limited(
    alloc: Global,
    head: Princ,
    limits: Option<&Limits>,
    moment: Time,
) -> Result<Princ, MemoryOut>
    ensures { IfOk result (λ h. h ≡ limited (option_map (λ l. l.now) limits.entry) moment.secs head) }
{
    match limits {
        Some(limits) => restricted(alloc, head, limits, moment),
        None => Ok(head),
    }
}

/// When a password that is set at `secs` expires, under a policy of this greatest life; 0 for never.
#[tactic(auto, unfolding(crate::specs::Fields::expiry))]
fn expiry(life: u32, secs: u32) -> u32
    ensures { result ≡ expiry life secs }
{
    if life == 0 {
        0
    } else {
        secs.saturating_add(life)
    }
}

/// New keys were set at `secs`, under a policy of this greatest life.
pub fn keyed(mut head: Princ, life: u32, secs: u32) -> Princ
    ensures { result ≡ keyed life secs head }
{
    head.pw_changed = Some(secs);
    head.pw_expire = expiry(life, secs);
    head
}

/// The password need not be changed at the next use.
pub fn without_needchange(mut head: Princ) -> Princ
    ensures { result ≡ record head { attributes = without_bit needchange head.attributes } }
{
    head.attributes &= !NEEDCHANGE;
    head
}

/// A new principal of this printed name, under this version of the master key.
#[tactic(auto, unfolding(crate::specs::Fields::blank_head))]
pub fn blank_head(alloc: Global, name: Blob, active: u16, policy: Option<Blob>) -> Princ
    ensures { result ≡ blank_head name active policy }
{
    Princ {
        name,
        attributes: 0,
        max_life: 0,
        max_renew: 0,
        expire: 0,
        pw_expire: 0,
        pw_changed: None,
        modified: 0,
        modifier: Blob::from_vec(Vec::new(alloc)),
        mkvno: active,
        keys: Keys::from_vec(Vec::new(alloc)),
        policy,
        old: OldSets::from_vec(Vec::new(alloc)),
        chain: None,
        strings: StringAttributes::new(alloc),
    }
}
