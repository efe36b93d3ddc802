// The speed of SHA-2 by itself, over as many blocks as the tag of a sealed key takes.

use crate::timing::{print_time, seconds_since};
use sha2::{Digest, Sha256, Sha384};
use std::io;
use std::time::CpuClock;

/// Digests that one figure is taken over.
const DIGESTS: u32 = 200_000;
/// The bytes of a text that is three blocks of SHA-256 and two of SHA-384 with what pads it. The tag of a sealed key of
/// 32 bytes is an HMAC over 64 bytes: where the states behind the padded key are kept, it takes two blocks and one of
/// SHA-256, or one and one of SHA-384.
const TEXT_LEN: usize = 128;

/// Digests, each over a text that begins with the one before it.
fn sha256_again(text: &mut [u8; TEXT_LEN], turns: u32) {
    for _ in 0..turns {
        let mut hash = Sha256::new();
        hash.update(&text[..]);
        text[..32].copy_from_slice(&hash.finalize());
    }
}

fn sha384_again(text: &mut [u8; TEXT_LEN], turns: u32) {
    for _ in 0..turns {
        let mut hash = Sha384::new();
        hash.update(&text[..]);
        text[..48].copy_from_slice(&hash.finalize());
    }
}

/// Prints the time of three blocks of SHA-256, and of two of SHA-384.
pub fn report<R: CpuClock + Print>(rt: &R) -> io::Result<()> {
    let mut text = [5; TEXT_LEN];
    let start = rt.process_cpu_time()?;
    sha256_again(&mut text, DIGESTS);
    let took = seconds_since(rt, start)?;
    print_time(rt, "sha256, three blocks", DIGESTS, took)?;
    let start = rt.process_cpu_time()?;
    sha384_again(&mut text, DIGESTS);
    let took = seconds_since(rt, start)?;
    print_time(rt, "sha384, two blocks", DIGESTS, took)
}
