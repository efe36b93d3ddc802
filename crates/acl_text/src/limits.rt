//! What restrictions put in force.

ghost use Rattle.std.specs.Prelude.{◌≡◌, IfOk, OnErr, OnOk, is_some, option_map, true, unwrap_or};
ghost use Rattle.acl_text.specs.Restricting.{counted_from, lesser, names_policy, restricted};
ghost use Rattle.acl_text.specs.Restrictions.{are_restrictions, limits_among, limits_by, limits_of, restrictions};

use kadm_options::{
    Given, Opening, OptionName, Setting, ValueKind, are_single, find_policy, find_seconds,
    first_bad, flags_among, read_options,
};
use kadm_values::with_flags;
use kdb_base::{Blob, Field, MemoryOut, Time};
use std::alloc::Global;

/// The restrictions of a line. No bit is forced both on and off.
#[derive(Debug, Drop)]
pub struct Limits {
    /// Attribute bits that are forced on.
    pub set: u32,
    /// Attribute bits that are forced off.
    pub clear: u32,
    /// The policy that is forced, or `Some(None)` where it is taken away.
    pub policy: Option<Option<Blob>>,
    /// How long the principal lives at most, in seconds from the moment of the change on.
    pub expire: Option<u32>,
    /// How long its password serves at most, in seconds from the moment of the change on.
    pub pw_expire: Option<u32>,
    /// The longest life of a ticket, in seconds.
    pub max_life: Option<u32>,
    /// The longest life of a ticket with its renewals, in seconds.
    pub max_renew: Option<u32>,
}

/// The fields of a principal that addprinc or modprinc is to write.
#[derive(Debug, Drop)]
pub struct Wanted {
    /// Attribute bits.
    pub attributes: u32,
    /// The name of the policy.
    pub policy: Option<Blob>,
    /// When the principal expires, in seconds since 1970; 0 for never.
    pub expire: u32,
    /// When its password expires, in seconds since 1970; 0 for never.
    pub pw_expire: u32,
    /// The longest life of a ticket, in seconds; 0 is endless.
    pub max_life: u32,
    /// The longest life of a ticket with its renewals, in seconds; 0 is endless.
    pub max_renew: u32,
}

// What a line may have behind its target, beside flags.
static RESTRICTIONS: [Opening; 6] = [
    Opening::Alone(OptionName::ClearPolicy),
    Opening::Value(Setting {
        option: OptionName::Policy,
        kind: ValueKind::PolicyName,
        field: Field::Policy,
    }),
    Opening::Value(Setting {
        option: OptionName::Expire,
        kind: ValueKind::Duration,
        field: Field::Expire,
    }),
    Opening::Value(Setting {
        option: OptionName::PwExpire,
        kind: ValueKind::Duration,
        field: Field::PwExpire,
    }),
    Opening::Value(Setting {
        option: OptionName::MaxLife,
        kind: ValueKind::Duration,
        field: Field::MaxLife,
    }),
    Opening::Value(Setting {
        option: OptionName::MaxRenewLife,
        kind: ValueKind::Duration,
        field: Field::MaxRenewLife,
    }),
];

#[tactic(auto, unfolding(crate::specs::Restrictions::restrictions))]
fn known_restrictions() -> &'static [Opening; 6]
    ensures { result.now ≡ restrictions }
{
    &RESTRICTIONS
}

// The flags are those of a command: what they leave of no bits is forced on, and what they take of all bits is
// forced off.
#[tactic(auto, unfolding(crate::specs::Restrictions::limits_of))]
fn limits_of(alloc: Global, options: &[Given]) -> Result<Limits, MemoryOut>
    ensures { IfOk result (λ limits. limits ≡ limits_of options.now) }
{
    let changes = flags_among(alloc, options)?;
    let policy = find_policy(alloc, options)?;
    Ok(Limits {
        set: with_flags(0, &changes),
        clear: !with_flags(u32::MAX, &changes),
        policy,
        expire: find_seconds(OptionName::Expire, options),
        pw_expire: find_seconds(OptionName::PwExpire, options),
        max_life: find_seconds(OptionName::MaxLife, options),
        max_renew: find_seconds(OptionName::MaxRenewLife, options),
    })
}

// Whether the options are restrictions: each has its value, and each setting stands at most once.
#[tactic(auto, unfolding(crate::specs::Restrictions::are_restrictions))]
fn are_restrictions(alloc: Global, options: &[Given]) -> Result<bool, MemoryOut>
    ensures { IfOk result (λ are. are ≡ are_restrictions options.now) }
{
    let bad = first_bad(alloc, options)?;
    Ok(are_single(options) && bad.is_none())
}

// What the options put in force, of which no words are left.
#[tactic(auto, unfolding(crate::specs::Restrictions::limits_by))]
fn limits_by(alloc: Global, options: &[Given], left: usize) -> Result<Option<Limits>, MemoryOut>
    ensures { IfOk result (λ limits. limits ≡ limits_by options.now left) }
{
    let whole = are_restrictions(alloc, options)?;
    if left != 0 || !whole {
        return Ok(None);
    }
    let limits = limits_of(alloc, options)?;
    Ok(Some(limits))
}

/// The restrictions of at least one word, of which each setting has one at most.
pub(crate) fn read_limits(alloc: Global, words: &[Blob]) -> Result<Option<Limits>, MemoryOut>
    ensures { IfOk result (λ limits. limits ≡ limits_among words.now) }
{
    match read_options(alloc, known_restrictions(), true, words)? {
        Some(found) => limits_by(alloc, &found.options, words.len() - found.count),
        None => Ok(None),
    }
}

// The lesser of a time, of which 0 is endless, and a stated one.
fn lesser(own: u32, stated: Option<u32>) -> u32
    ensures { result ≡ lesser own stated }
{
    match stated {
        Some(stated) => {
            if own == 0 || stated < own {
                stated
            } else {
                own
            }
        }
        None => own,
    }
}

// A duration from a moment on, at most the greatest time.
fn counted_from(secs: u32, duration: Option<u32>) -> Option<u32>
    ensures { result ≡ option_map (counted_from secs) duration }
{
    match duration {
        Some(duration) => Some(secs.saturating_add(duration)),
        None => None,
    }
}

fn copy_policy(alloc: Global, policy: &Option<Blob>) -> Result<Option<Blob>, MemoryOut>
    ensures copy { IfOk result (λ copy. copy ≡ policy.now) }
    ensures memory { OnErr result (is_some policy.now ≡ true) }
{
    match policy {
        Some(name) => {
            let name = Blob::from_bytes(alloc, name.as_slice())?;
            Ok(Some(name))
        }
        None => Ok(None),
    }
}

// Puts the policy in force.
fn restrict_policy(alloc: Global, limits: &Limits, wanted: &mut Wanted) -> Result<(), MemoryOut>
    ensures ok { OnOk result
        (wanted.new ≡ record wanted.old { policy = unwrap_or limits.now.policy wanted.old.policy }) }
    ensures kept { OnErr result (wanted.new ≡ wanted.old) }
    ensures memory { OnErr result (names_policy limits.now.policy ≡ true) }
{
    match &limits.policy {
        Some(policy) => {
            let policy = copy_policy(alloc, policy)?;
            wanted.policy = policy;
            Ok(())
        }
        None => Ok(()),
    }
}

#[tactic(auto, unfolding(crate::specs::Restricting::restricted))]
fn restrict_numbers(limits: &Limits, secs: u32, wanted: &mut Wanted)
    ensures { wanted.new ≡ record (restricted limits.now secs wanted.old) { policy = wanted.old.policy } }
{
    wanted.attributes = (wanted.attributes | limits.set) & !limits.clear;
    wanted.expire = lesser(wanted.expire, counted_from(secs, limits.expire));
    wanted.pw_expire = lesser(wanted.pw_expire, counted_from(secs, limits.pw_expire));
    wanted.max_life = lesser(wanted.max_life, limits.max_life);
    wanted.max_renew = lesser(wanted.max_renew, limits.max_renew);
}

/// Puts restrictions in force on the fields of a change that is made at this moment. Only want of memory
/// for the name of a policy refuses it, and then the fields stay as they are.
#[tactic(auto, unfolding(crate::specs::Restricting::restricted))]
pub fn restrict(
    alloc: Global,
    limits: &Limits,
    wanted: &mut Wanted,
    moment: Time,
) -> Result<(), MemoryOut>
    ensures ok { OnOk result (wanted.new ≡ restricted limits.now moment.secs wanted.old) }
    ensures kept { OnErr result (wanted.new ≡ wanted.old) }
    ensures memory { OnErr result (names_policy limits.now.policy ≡ true) }
{
    restrict_policy(alloc, limits, wanted)?;
    restrict_numbers(limits, moment.secs(), wanted);
    Ok(())
}
