//! Scripts that are made and run, and words that are read.

use crate::{Script, read_script, run_script};
use kdb_base::{Blob, Field, Refusal};
use std::alloc::Global;
use std::test::*;

const TWENTY: &[u8] =
    b"- lines 20\n- accepted 14\n- refused 6\n- principals 10\n- keys 16\nok 15 1700000000.000000\n";

/// A script of this seed and so many lines is told so.
fn is_told(alloc: Global, seed: u32, count: u32, told: &[u8]) -> Result<bool, Fail> {
    let text = run_script(alloc, Script { seed, count })?;
    Ok(text.as_slice() == told)
}

fn words_of(alloc: Global, texts: &[&[u8]]) -> Result<Vec<Blob>, Fail> {
    let mut words = Vec::new(alloc);
    for text in texts {
        words.push(Blob::from_bytes(alloc, text)?)?;
    }
    Ok(words)
}

fn is_read(alloc: Global, texts: &[&[u8]], told: Result<Script, Refusal>) -> Result<bool, Fail> {
    let words = words_of(alloc, texts)?;
    Ok(read_script(&words) == told)
}

#[test]
fn twenty_lines_of_the_seed_7(rt: HostRuntime) -> Result<(), Fail> {
    assert!(rt; is_told(rt.alloc(), 7, 20, TWENTY)?);
    Ok(())
}

const THOUSAND: &[u8] =
    b"- lines 1000\n- accepted 805\n- refused 195\n- principals 61\n- keys 76\nok 806 1700000000.000000\n";

#[test]
fn a_thousand_lines_of_the_seed_7(rt: HostRuntime) -> Result<(), Fail> {
    assert!(rt; is_told(rt.alloc(), 7, 1000, THOUSAND)?);
    Ok(())
}

#[test]
fn words_in_their_ranges(rt: HostRuntime) -> Result<(), Fail> {
    let last = Script {
        seed: 4_294_967_295,
        count: 1000,
    };
    assert!(rt; is_read(rt.alloc(), &[b"4294967295", b"1000"], Ok(last))?);
    assert!(rt; is_read(rt.alloc(), &[b"--", b"4294967295", b"1000"], Ok(last))?);
    Ok(())
}

#[test]
fn words_out_of_their_ranges(rt: HostRuntime) -> Result<(), Fail> {
    let seed = Err(Refusal::BadValue { field: Field::Seed });
    let count = Err(Refusal::BadValue {
        field: Field::Count,
    });
    assert!(rt; is_read(rt.alloc(), &[b"4294967296", b"0"], seed)?);
    assert!(rt; is_read(rt.alloc(), &[b"7", b"0"], count)?);
    assert!(rt; is_read(rt.alloc(), &[b"7", b"1001"], count)?);
    assert!(rt; is_read(rt.alloc(), &[b"7"], Err(Refusal::BadLine))?);
    Ok(())
}
