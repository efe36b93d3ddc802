//! The lines of a principal. Nothing tells a key itself.

ghost use Rattle.std.specs.Prelude.{◌≡◌, ◌++◌, OnOk};
ghost use Rattle.std.specs.List.{flat_map};
ghost use Rattle.kadm_replies.specs.Princs.{key_line, lives_text, modified_text, policy_text, rest_text};
ghost use Rattle.kadm_replies.specs.Princs.{salt_text, shown_key_line, shown_text, times_text};

use crate::flags::flags_text;
use crate::texts::{etype_text, push, push_field, push_number, push_time, time_text};
use kadm_commands::{KeyShown, PrincShown};
use kdb_base::{Blob, Etype, MemoryOut};
use std::alloc::Global;

/// When a principal and its password expire, and when the password was changed last, all in seconds since 1970.
#[tactic(auto, unfolding(crate::specs::Princs::times_text))]
pub fn push_times(
    alloc: Global,
    out: &mut Vec<u8>,
    expire: u32,
    pw_expire: u32,
    pw_changed: Option<u32>,
) -> Result<(), MemoryOut>
    ensures { OnOk result (out.new.items ≡ out.old.items ++ times_text expire pw_expire pw_changed) }
{
    push_time(alloc, out, b"expires", expire)?;
    push_time(alloc, out, b"pwexpires", pw_expire)?;
    push_time(alloc, out, b"pwchanged", pw_changed.unwrap_or(0))?;
    Ok(())
}

/// The greatest life and the greatest renewable life, in seconds.
#[tactic(auto, unfolding(crate::specs::Princs::lives_text))]
pub fn push_lives(
    alloc: Global,
    out: &mut Vec<u8>,
    max_life: u32,
    max_renew: u32,
) -> Result<(), MemoryOut>
    ensures { OnOk result (out.new.items ≡ out.old.items ++ lives_text max_life max_renew) }
{
    push_number(alloc, out, b"maxlife", max_life)?;
    push_number(alloc, out, b"maxrenewlife", max_renew)?;
    Ok(())
}

/// When a principal was changed last, in seconds since 1970, and the printed name of who changed it.
#[tactic(auto, unfolding(crate::specs::Princs::modified_text))]
pub fn push_modified(
    alloc: Global,
    out: &mut Vec<u8>,
    secs: u32,
    modifier: &[u8],
) -> Result<(), MemoryOut>
    ensures { OnOk result (out.new.items ≡ out.old.items ++ modified_text secs modifier.now) }
{
    let time = time_text(alloc, secs)?;
    let mut text = Vec::new(alloc);
    push(&mut text, time.as_slice())?;
    push(&mut text, b" ")?;
    push(&mut text, modifier)?;
    push_field(out, b"modified", &text)?;
    Ok(())
}

fn policy_text(policy: &Option<Blob>) -> &[u8]
    ensures { result.now ≡ policy_text policy.now }
{
    match policy {
        Some(name) => name.as_slice(),
        None => b"-",
    }
}

/// The version of the master key, the flags and the policy.
#[tactic(auto, unfolding(crate::specs::Princs::rest_text))]
pub fn push_rest(
    alloc: Global,
    out: &mut Vec<u8>,
    mkvno: u16,
    attributes: u32,
    policy: &Option<Blob>,
) -> Result<(), MemoryOut>
    ensures { OnOk result (out.new.items ≡ out.old.items ++ rest_text mkvno attributes policy.now) }
{
    push_number(alloc, out, b"mkvno", u32::from(mkvno))?;
    let flags = flags_text(alloc, attributes)?;
    push_field(out, b"flags", flags.as_slice())?;
    push_field(out, b"policy", policy_text(policy))?;
    Ok(())
}

#[tactic(auto, unfolding(crate::specs::Princs::salt_text))]
fn salt_text(special: bool) -> &'static str
    ensures { result.now ≡ salt_text special }
{
    if special { "special" } else { "normal" }
}

/// A key's version and encryption type, and whether its salt is a special one.
#[tactic(auto, unfolding(crate::specs::Princs::key_line))]
pub fn push_key(
    alloc: Global,
    out: &mut Vec<u8>,
    kvno: u16,
    etype: Etype,
    special: bool,
) -> Result<(), MemoryOut>
    ensures { OnOk result (out.new.items ≡ out.old.items ++ key_line kvno etype special) }
{
    let etype = etype_text(etype);
    let salt = salt_text(special);
    let text = format!(in alloc; "{kvno} {etype} {salt}")?;
    push_field(out, b"key", text.as_bytes())?;
    Ok(())
}

fn push_keys(alloc: Global, out: &mut Vec<u8>, keys: &[KeyShown]) -> Result<(), MemoryOut>
    ensures { OnOk result (out.new.items ≡ out.old.items ++ flat_map shown_key_line keys.now) }
{
    for key in keys {
        push_key(alloc, out, key.kvno, key.etype, key.special)?;
    }
    Ok(())
}

#[tactic(auto, unfolding(crate::specs::Princs::shown_text))]
pub(crate) fn push_shown(
    alloc: Global,
    out: &mut Vec<u8>,
    princ: &PrincShown,
) -> Result<(), MemoryOut>
    ensures { OnOk result (out.new.items ≡ out.old.items ++ shown_text princ.now) }
{
    push_field(out, b"principal", princ.name.as_slice())?;
    push_times(alloc, out, princ.expire, princ.pw_expire, princ.pw_changed)?;
    push_lives(alloc, out, princ.max_life, princ.max_renew)?;
    push_modified(alloc, out, princ.modified, princ.modifier.as_slice())?;
    push_rest(alloc, out, princ.mkvno, princ.attributes, &princ.policy)?;
    push_keys(alloc, out, princ.keys.as_slice())?;
    Ok(())
}
