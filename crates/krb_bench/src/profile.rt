// The speed of PBKDF2, of string-to-key, and of sealing and unsealing a key of 32 bytes.

use crate::kept;
use crate::timing::{print_time, seconds_since};
use kdb_base::{Etype, PlainKey};
use krb_hmac::pbkdf2;
use krb_profile::{seal, string_to_key, unseal};
use std::alloc::Global;
use std::io;
use std::time::CpuClock;

/// The rounds of the figure that stands beside hashlib's.
const ROUNDS: u32 = 4096;
/// Keys from passwords that one figure is taken over.
const KEYS: u32 = 300;
/// The same under the types that take eight times as many rounds.
const SLOW_KEYS: u32 = 40;
/// Seals that one figure is taken over.
pub const SEALS: u32 = 100_000;

fn derive_again(bytes: &mut [u8; 32], turns: u32) {
    for _ in 0..turns {
        pbkdf2(b"password", b"ATHENA.MIT.EDUraeburn", ROUNDS, bytes);
    }
}

fn key_again(etype: Etype, turns: u32) {
    for _ in 0..turns {
        string_to_key(
            etype,
            b"password",
            b"ATHENA.MIT.EDUraeburn",
            etype.product_rounds(),
        );
    }
}

fn seal_again(alloc: Global, key: &PlainKey, turns: u32) {
    for _ in 0..turns {
        let _ = seal(alloc, key, 0, &[7; 16], &[1; 32]);
    }
}

fn unseal_again(alloc: Global, key: &PlainKey, blob: &[u8], turns: u32) {
    for _ in 0..turns {
        let _ = unseal(alloc, key, 0, blob);
    }
}

/// Prints the time of a key from a password, in the product's rounds.
fn report_keys<R: CpuClock + Print>(rt: &R, etype: Etype, turns: u32) -> io::Result<()> {
    let start = rt.process_cpu_time()?;
    key_again(etype, turns);
    let took = seconds_since(rt, start)?;
    print_time(rt, "  string-to-key, the product's rounds", turns, took)
}

fn report_etype<R: CpuClock + Print>(
    rt: &R,
    alloc: Global,
    name: &str,
    etype: Etype,
    keys: u32,
) -> io::Result<()> {
    println!(rt; "{name}")?;
    report_keys(rt, etype, keys)?;
    let key = string_to_key(etype, b"password", b"ATHENA.MIT.EDUraeburn", 1);
    let start = rt.process_cpu_time()?;
    seal_again(alloc, &key, SEALS);
    print_time(rt, "  seal 32 bytes", SEALS, seconds_since(rt, start)?)?;
    if let Ok(blob) = seal(alloc, &key, 0, &[7; 16], &[1; 32]) {
        let start = rt.process_cpu_time()?;
        unseal_again(alloc, &key, blob.as_slice(), SEALS);
        print_time(rt, "  unseal 32 bytes", SEALS, seconds_since(rt, start)?)?;
    }
    kept::report(rt, alloc, &key)
}

/// Prints all figures of the profile.
pub fn report<R: CpuClock + Print>(rt: &R, alloc: Global) -> io::Result<()> {
    let mut bytes = [0; 32];
    let start = rt.process_cpu_time()?;
    derive_again(&mut bytes, KEYS);
    print_time(
        rt,
        "pbkdf2, 4096 rounds, 32 bytes",
        KEYS,
        seconds_since(rt, start)?,
    )?;
    report_etype(rt, alloc, "aes128-cts-hmac-sha1-96", Etype::Aes128, KEYS)?;
    report_etype(rt, alloc, "aes256-cts-hmac-sha1-96", Etype::Aes256, KEYS)?;
    report_etype(
        rt,
        alloc,
        "aes128-cts-hmac-sha256-128",
        Etype::Aes128Sha2,
        SLOW_KEYS,
    )?;
    report_etype(
        rt,
        alloc,
        "aes256-cts-hmac-sha384-192",
        Etype::Aes256Sha2,
        SLOW_KEYS,
    )
}
