// The rows a second that are encoded and decoded, of a principal with two keys.

ghost use Rattle.std.specs.Prelude.{◌≡◌, ◌<◌, ◌^◌, length, IfOk};
ghost use Rattle.princ_keys.specs.Keys.{IsKey, AreKeys};
ghost use Rattle.princ_record.specs.Princs.{IsPrinc};

use crate::timing::{print_rate, seconds_since};
use anyhow::Result;
use kdb_base::{Blob, Etype, MemoryOut, Salt};
use princ_record::{KeyItem, Keys, OldSets, Princ, decode, encode};
use std::alloc::Global;
use std::time::CpuClock;
use tagged_data::string_attributes::StringAttributes;

/// Rows that one figure is taken over.
const ROWS: u32 = 200_000;

fn sample_key(alloc: Global, etype: Etype, wrapped: &[u8]) -> Result<KeyItem, MemoryOut>
    requires { length wrapped.now < 2 ^ 16 }
    ensures key { IfOk result IsKey }
    ensures version { IfOk result (λ k. k.kvno ≡ 2) }
    ensures etype { IfOk result (λ k. k.etype ≡ etype) }
{
    Ok(KeyItem {
        kvno: 2,
        etype,
        salt: Salt::Normal,
        wrapped: Blob::from_bytes(alloc, wrapped)?,
    })
}

fn sample_keys(alloc: Global) -> Result<Keys, MemoryOut>
    ensures { IfOk result AreKeys }
{
    let mut keys = Vec::new(alloc);
    keys.push(sample_key(alloc, Etype::Aes256, &[7; 60])?)?;
    keys.push(sample_key(alloc, Etype::Aes128, &[7; 44])?)?;
    Ok(Keys::from_vec(keys))
}

/// A principal with two keys.
pub fn sample(alloc: Global) -> Result<Princ, MemoryOut>
    ensures { IfOk result IsPrinc }
{
    let name = Blob::from_bytes(alloc, b"raeburn@ATHENA.MIT.EDU")?;
    let modifier = Blob::from_bytes(alloc, b"root/admin@ATHENA.MIT.EDU")?;
    let keys = sample_keys(alloc)?;
    Ok(Princ {
        name,
        attributes: 0,
        max_life: 36_000,
        max_renew: 604_800,
        expire: 0,
        pw_expire: 0,
        pw_changed: Some(1_700_000_000),
        modified: 1_700_000_000,
        modifier,
        mkvno: 1,
        keys,
        policy: None,
        old: OldSets::from_vec(Vec::new(alloc)),
        chain: None,
        strings: StringAttributes::new(alloc),
    })
}

fn encode_again(alloc: Global, princ: &Princ, turns: u32)
    requires { IsPrinc princ.now }
{
    for _ in 0..turns {
        let _ = encode(alloc, princ);
    }
}

fn decode_again(alloc: Global, bytes: &[u8], turns: u32) {
    for _ in 0..turns {
        let _ = decode(alloc, bytes);
    }
}

fn time_encoding<R: CpuClock + Print>(rt: &R, alloc: Global, princ: &Princ) -> Result<()>
    requires { IsPrinc princ.now }
{
    let start = rt.process_cpu_time()?;
    encode_again(alloc, princ, ROWS);
    print_rate(rt, "  encode", ROWS, seconds_since(rt, start)?)?;
    Ok(())
}

fn time_decoding<R: CpuClock + Print>(rt: &R, alloc: Global, bytes: &[u8]) -> Result<()> {
    let start = rt.process_cpu_time()?;
    decode_again(alloc, bytes, ROWS);
    print_rate(rt, "  decode", ROWS, seconds_since(rt, start)?)?;
    Ok(())
}

/// Prints all figures of the records.
pub fn report<R: CpuClock + Print>(rt: &R, alloc: Global) -> Result<()> {
    println!(rt; "a principal with two keys")?;
    let princ = sample(alloc)?;
    time_encoding(rt, alloc, &princ)?;
    let bytes = encode(alloc, &princ)?;
    time_decoding(rt, alloc, bytes.as_slice())
}
