// The speed of keys under master keys: one key wrapped, a record wrapped anew, a chain of three opened.

ghost use Rattle.std.specs.Prelude.{◌≡◌, ◌+◌, ◌<◌, ◌≤◌, IfOk, length};
ghost use Rattle.kdb_base.specs.Limits.{most_keys};
ghost use Rattle.master_keys.specs.Chain.{IsChain};
ghost use Rattle.master_keys.specs.Versions.{last_version};

use crate::records;
use crate::timing::{print_time, seconds_since};
use anyhow::Result;
use kdb_base::{Etype, Masters, MemoryOut, PlainKey, Salt};
use master_keys::{MasterKey, add, new_chain, open_with, rewrap, rewrap_by};
use princ_record::{KeyItem, Keys, Princ};
use std::alloc::Global;
use std::time::CpuClock;

/// Keys wrapped that one figure is taken over.
const WRAPS: u32 = 100_000;
/// Records wrapped anew that one figure is taken over.
const RECORDS: u32 = 20_000;
/// Chains opened that one figure is taken over.
const CHAINS: u32 = 20_000;

/// A key of one byte, again and again.
fn key_of(etype: Etype, byte: u8) -> PlainKey {
    PlainKey::from_bytes(etype, &[byte; 32][..etype.key_len()])
}

/// Bytes for confounders.
fn confounders<const N: usize>() -> [u8; N] {
    [8; N]
}

fn wrapped_item(alloc: Global, master: &MasterKey, etype: Etype) -> Result<KeyItem, MemoryOut> {
    let wrapped = master.wrap(alloc, &key_of(etype, 2), &[3; 16])?;
    Ok(KeyItem {
        kvno: 1,
        etype,
        salt: Salt::Normal,
        wrapped,
    })
}

/// A record with two keys under this master key.
fn record_under(alloc: Global, master: &MasterKey) -> Result<Princ, MemoryOut>
    ensures { IfOk result (λ p. length p.keys ≤ most_keys) }
{
    let mut princ = records::sample(alloc)?;
    let mut keys = Vec::new(alloc);
    keys.push(wrapped_item(alloc, master, Etype::Aes256)?)?;
    keys.push(wrapped_item(alloc, master, Etype::Aes128)?)?;
    princ.keys = Keys::from_vec(keys);
    Ok(princ)
}

/// K/M's record with one version, and that version's key.
#[tactic(auto, unfolding(master_keys::specs::Versions::last_version))]
fn first_chain(alloc: Global, key: &PlainKey) -> Result<(Princ, Masters), MemoryOut>
    ensures one { IfOk result (λ both. length both.1 ≡ 1) }
    ensures last { IfOk result (λ both. last_version both.1 ≡ 1) }
    ensures chain { IfOk result (λ both. IsChain both.0 both.1) }
{
    let both = new_chain(alloc, b"R", key, 1_700_000_000, &[5; 16])?;
    Ok(both)
}

/// One more master key.
fn grown(
    alloc: Global,
    entry: &Princ,
    masters: &Masters,
    key: &PlainKey,
) -> Result<(Princ, Masters), MemoryOut>
    requires chain { IsChain entry.now masters.now }
    requires few { length masters.now < 32 }
    requires greatest { last_version masters.now < 65535 }
    ensures more { IfOk result (λ both. length both.1 ≡ length masters.now + 1) }
    ensures last { IfOk result (λ both. last_version both.1 ≡ last_version masters.now + 1) }
    ensures chain { IfOk result (λ both. IsChain both.0 both.1) }
{
    let both = add(alloc, entry, masters, key, &confounders())?;
    Ok(both)
}

/// K/M's record with three versions, of which the first key is the given one.
fn chain_of_three(alloc: Global, first: &PlainKey) -> Result<Princ, MemoryOut> {
    let (entry, masters) = first_chain(alloc, first)?;
    let key = key_of(Etype::Aes256Sha2, 4);
    let (entry, masters) = grown(alloc, &entry, &masters, &key)?;
    let key = key_of(Etype::Aes128, 5);
    let (entry, _) = grown(alloc, &entry, &masters, &key)?;
    Ok(entry)
}

fn wrap_again(alloc: Global, master: &MasterKey, key: &PlainKey, turns: u32) {
    for _ in 0..turns {
        let _ = master.wrap(alloc, key, &[3; 16]);
    }
}

fn rewrap_again(alloc: Global, princ: &Princ, old: &PlainKey, fresh: &PlainKey, turns: u32)
    requires { length princ.now.keys ≤ most_keys }
{
    let random = confounders();
    for _ in 0..turns {
        let _ = rewrap(alloc, princ, old, 2, fresh, &random);
    }
}

/// The same by master keys that are ready, as those who go through many records have them.
fn rewrap_ready(alloc: Global, princ: &Princ, old: &MasterKey, fresh: &MasterKey, turns: u32)
    requires { length princ.now.keys ≤ most_keys }
{
    let random = confounders();
    for _ in 0..turns {
        let _ = rewrap_by(alloc, princ, old, 2, fresh, &random);
    }
}

fn open_again(alloc: Global, entry: &Princ, key: &PlainKey, turns: u32) {
    for _ in 0..turns {
        let _ = open_with(alloc, entry, 1, key);
    }
}

/// Prints the time of a record wrapped anew, by master keys of which nothing is derived yet, and by ready ones.
fn report_rewraps<R: CpuClock + Print>(
    rt: &R,
    alloc: Global,
    old: &PlainKey,
    master: &MasterKey,
) -> Result<()> {
    let princ = record_under(alloc, master)?;
    let fresh = key_of(Etype::Aes256, 3);
    let start = rt.process_cpu_time()?;
    rewrap_again(alloc, &princ, old, &fresh, RECORDS);
    let took = seconds_since(rt, start)?;
    print_time(rt, "  wrap a record of two keys anew", RECORDS, took)?;
    let fresh = MasterKey::new(&fresh);
    let start = rt.process_cpu_time()?;
    rewrap_ready(alloc, &princ, master, &fresh, RECORDS);
    let took = seconds_since(rt, start)?;
    let name = "  wrap a record of two keys anew, kept master keys";
    print_time(rt, name, RECORDS, took)?;
    Ok(())
}

/// Prints all figures of master keys.
pub fn report<R: CpuClock + Print>(rt: &R, alloc: Global) -> Result<()> {
    println!(rt; "keys under a master key of type 18")?;
    let old = key_of(Etype::Aes256, 1);
    let master = MasterKey::new(&old);
    let start = rt.process_cpu_time()?;
    wrap_again(alloc, &master, &key_of(Etype::Aes256, 2), WRAPS);
    print_time(
        rt,
        "  wrap a key of 32 bytes",
        WRAPS,
        seconds_since(rt, start)?,
    )?;
    report_rewraps(rt, alloc, &old, &master)?;
    let entry = chain_of_three(alloc, &old)?;
    let start = rt.process_cpu_time()?;
    open_again(alloc, &entry, &old, CHAINS);
    print_time(
        rt,
        "  open a chain of three from the oldest",
        CHAINS,
        seconds_since(rt, start)?,
    )?;
    Ok(())
}
