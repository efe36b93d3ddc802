ghost use Rattle.std.specs.Prelude.{◌≡◌, ◌++◌, Some, IfOk, OnOk};
ghost use Rattle.kdb_format.specs.Answers.{Gives, Reads};
ghost use Rattle.kdb_format.specs.Spellings.{counted};
ghost use Rattle.princ_record.specs.Answers.{Finds};
ghost use Rattle.princ_record.specs.Princs.{lives_at, policy_name_at, are_attributes, lives};
ghost use Rattle.princ_record.specs.Princs.{lives_of, name_of, IsPolicyOr, princ_at, princ, IsPrinc};
ghost use Rattle.princ_record.specs.PrincLaws.{princ_field};
ghost use Rattle.princ_record.specs.declared.princs.Princ.{Princ};

use crate::facts::{ChainPart, push_facts, read_facts};
use crate::faults::RowFault;
use kdb_base::{Blob, MemoryOut};
use kdb_format::writing::{push_counted, push_u32};
use kdb_format::{Format, FormatFault, Malformed, Reader, read_whole};
use policy_rules::is_policy_name;
use princ_keys::keys::{Keys, fit_name, push_keys, read_keys};
use princ_keys::remembered::{OldSets, push_sets, read_sets};
use princ_name::{is_master, is_printed};
use std::alloc::Global;
use tagged_data::StringAttributes;

/// A principal's record. Times are in seconds since 1970 and lives in seconds.
#[derive(Debug, Drop, PartialEq, Eq)]
pub struct Princ {
    /// The name in its printed form.
    pub name: Blob,
    /// Bits of KNOWN_BITS alone.
    pub attributes: u32,
    pub max_life: u32,
    pub max_renew: u32,
    /// 0 for never.
    pub expire: u32,
    /// When the password expires, 0 for never.
    pub pw_expire: u32,
    /// The last time at which a password or a random key was set.
    pub pw_changed: Option<u32>,
    /// When the record was changed last.
    pub modified: u32,
    /// The printed name of who changed it last.
    pub modifier: Blob,
    /// The version of the master key that wraps the keys, not 0.
    pub mkvno: u16,
    /// At most `kdb_base::limits::MAX_KEYS`, by versions that never rise. K/M has at least one: the master
    /// keys by falling versions, of which the first is `mkvno`.
    pub keys: Keys,
    pub policy: Option<Blob>,
    /// Keys of earlier passwords, newest first.
    pub old: OldSets,
    /// There for K/M alone.
    pub chain: Option<ChainPart>,
    /// At most `kdb_base::limits::MAX_STRINGS`, and none for K/M.
    pub strings: StringAttributes,
}

/// Every attribute that a flag of kadmin sets or clears.
pub const KNOWN_BITS: u32 = 0x00f0_33ff;

/// Whether only bits of flags stand.
#[tactic(auto, unfolding(crate::specs::Princs::are_attributes))]
pub fn are_attributes(attributes: u32) -> bool
    ensures { result ≡ are_attributes attributes }
{
    attributes & KNOWN_BITS == attributes
}

/// Lives and expirations of a principal.
#[derive(Clone, Copy)]
struct Lives {
    max_life: u32,
    max_renew: u32,
    expire: u32,
    pw_expire: u32,
}

#[tactic(auto, unfolding(crate::specs::Princs::lives_at))]
fn read_lives(reader: &mut Reader) -> Result<Lives, Malformed>
    ensures { Reads result reader.new (lives_at reader.old) }
{
    Ok(Lives {
        max_life: reader.u32()?,
        max_renew: reader.u32()?,
        expire: reader.u32()?,
        pw_expire: reader.u32()?,
    })
}

#[tactic(auto, unfolding(crate::specs::Princs::policy_name_at, crate::specs::Princs::policy_of, kdb_format::specs::Readings::checked))]
fn read_policy_name(alloc: Global, reader: &mut Reader) -> Result<Option<Blob>, FormatFault>
    ensures { Gives result reader.new (policy_name_at reader.old) }
{
    let name = reader.counted()?;
    if name.is_empty() {
        return Ok(None);
    }
    if !is_policy_name(name) {
        return Err(FormatFault::Malformed);
    }
    let name = Blob::from_bytes(alloc, name)?;
    Ok(Some(name))
}

#[tactic(auto, unfolding(crate::specs::Princs::princ_at, kdb_format::specs::Readings::checked))]
fn read_princ(alloc: Global, reader: &mut Reader) -> Result<Princ, FormatFault>
    ensures { Gives result reader.new (princ_at reader.old) }
{
    let name = reader.counted()?;
    if !is_printed(name) {
        return Err(FormatFault::Malformed);
    }
    let attributes = reader.u32()?;
    if !are_attributes(attributes) {
        return Err(FormatFault::Malformed);
    }
    let lives = read_lives(reader)?;
    let master = is_master(name);
    let facts = read_facts(alloc, reader, master)?;
    let keys = read_keys(alloc, reader)?;
    if !fit_name(master, facts.mkvno, keys.as_slice()) {
        return Err(FormatFault::Malformed);
    }
    let policy = read_policy_name(alloc, reader)?;
    let old = read_sets(alloc, reader)?;
    let name = Blob::from_bytes(alloc, name)?;
    Ok(Princ {
        name,
        attributes,
        max_life: lives.max_life,
        max_renew: lives.max_renew,
        expire: lives.expire,
        pw_expire: lives.pw_expire,
        pw_changed: facts.pw_changed,
        modified: facts.modified,
        modifier: facts.modifier,
        mkvno: facts.mkvno,
        keys,
        policy,
        old,
        chain: facts.chain,
        strings: facts.strings,
    })
}

#[tactic(auto, unfolding(crate::specs::Princs::lives))]
fn push_lives(out: &mut Vec<u8>, princ: &Princ) -> Result<(), MemoryOut>
    ensures { OnOk result (out.new.items ≡ out.old.items ++ lives (lives_of princ.now)) }
{
    push_u32(out, princ.max_life)?;
    push_u32(out, princ.max_renew)?;
    push_u32(out, princ.expire)?;
    push_u32(out, princ.pw_expire)?;
    Ok(())
}

#[tactic(auto, using(crate::proofs::ShortNames::short_policy_name), unfolding(crate::specs::Princs::name_of))]
fn push_policy_name(out: &mut Vec<u8>, policy: &Option<Blob>) -> Result<(), MemoryOut>
    requires { IsPolicyOr policy.now }
    ensures { OnOk result (out.new.items ≡ out.old.items ++ counted (name_of policy.now)) }
{
    match policy {
        Some(name) => {
            push_counted(out, name.as_slice())?;
            Ok(())
        }
        None => {
            push_counted(out, &[])?;
            Ok(())
        }
    }
}

/// Appends the spelling of the principal.
#[tactic(auto, using(crate::proofs::Heads::short_printed), unfolding(crate::specs::Princs::princ))]
pub fn push_princ(out: &mut Vec<u8>, value: &Princ) -> Result<(), MemoryOut>
    requires { IsPrinc value.now }
    ensures { OnOk result (out.new.items ≡ out.old.items ++ princ value.now) }
{
    push_counted(out, value.name.as_slice())?;
    push_u32(out, value.attributes)?;
    push_lives(out, value)?;
    push_facts(out, value)?;
    push_keys(out, &value.keys)?;
    push_policy_name(out, &value.policy)?;
    push_sets(out, &value.old)?;
    Ok(())
}

/// The format of a principal: its counted name, its attributes, lives and expirations in four bytes each,
/// its tagged list, its keys, the counted name of its policy, and its remembered sets.
pub enum PrincFormat {}

impl Format for PrincFormat {
    type Value = Princ;

    ghost reading = { princ_at };

    ghost spelling = { princ };

    ghost fits = { IsPrinc };

    ghost is_field = { princ_field };

    fn read(alloc: Global, reader: &mut Reader) -> Result<Princ, FormatFault> {
        read_princ(alloc, reader)
    }

    fn write(out: &mut Vec<u8>, value: &Princ) -> Result<(), MemoryOut> {
        push_princ(out, value)
    }
}

/// The spelling of the principal, also where it is longer than a row may be.
pub fn encode(alloc: Global, value: &Princ) -> Result<Blob, MemoryOut>
    requires { IsPrinc value.now }
    ensures { IfOk result (λ bytes. bytes ≡ princ value.now) }
{
    let mut out = Vec::new(alloc);
    push_princ(&mut out, value)?;
    Ok(Blob::from_vec(out))
}

/// The principal that the bytes spell, each byte of them. BadRecord where they spell none.
pub fn decode(alloc: Global, bytes: &[u8]) -> Result<Princ, RowFault>
    // What is decoded is spelled so.
    ensures found { IfOk result (λ p. (bytes.now ≡ princ p) × IsPrinc p) }
    // What is spelled so is decoded, unless memory runs out.
    ensures only { (p : Princ) → IsPrinc p → bytes.now ≡ princ p → Finds result (Some p) }
{
    match read_whole::<PrincFormat>(alloc, bytes) {
        Ok(value) => Ok(value),
        Err(fault) => Err(RowFault::from(fault)),
    }
}
