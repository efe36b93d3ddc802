// The speed of sealing and unsealing a key of 32 bytes where the keys of the usage are kept.

use crate::profile::SEALS;
use crate::timing::{print_time, seconds_since};
use kdb_base::PlainKey;
use krb_profile::UsageKeys;
use std::alloc::Global;
use std::io;
use std::time::CpuClock;

fn seal_again(alloc: Global, keys: &UsageKeys, turns: u32) {
    for _ in 0..turns {
        let _ = keys.seal(alloc, &[7; 16], &[1; 32]);
    }
}

fn unseal_again(alloc: Global, keys: &UsageKeys, blob: &[u8], turns: u32) {
    for _ in 0..turns {
        let _ = keys.unseal(alloc, blob);
    }
}

/// Prints the figures of kept keys.
pub fn report<R: CpuClock + Print>(rt: &R, alloc: Global, key: &PlainKey) -> io::Result<()> {
    let keys = UsageKeys::new(key, 0);
    let start = rt.process_cpu_time()?;
    seal_again(alloc, &keys, SEALS);
    let took = seconds_since(rt, start)?;
    print_time(rt, "  seal 32 bytes, kept keys", SEALS, took)?;
    if let Ok(blob) = keys.seal(alloc, &[7; 16], &[1; 32]) {
        let start = rt.process_cpu_time()?;
        unseal_again(alloc, &keys, blob.as_slice(), SEALS);
        let took = seconds_since(rt, start)?;
        print_time(rt, "  unseal 32 bytes, kept keys", SEALS, took)?;
    }
    Ok(())
}
