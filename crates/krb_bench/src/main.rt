//! Measures the ciphers under the product's keys, and the records of principals. `bench/crypto.sh` runs it
//! beside OpenSSL.
#![tactic(auto)]

mod ciphers;
mod digests;
mod dumps;
mod kept;
mod masters;
mod profile;
mod records;
mod timing;

use anyhow::Result;
use std::env;

const USAGE: &str =
    "usage: krb_bench run    measures for some seconds, and prints a line for each figure
       krb_bench rows   reads a dump from the input, and prints how many rows are then in memory";

fn main(rt: HostRuntime) -> Result<()> {
    let mut words = env::args(&rt)?;
    words.next();
    match words.next() {
        Some(word) if word.as_str() == "run" => report(&rt),
        Some(word) if word.as_str() == "rows" => dumps::hold(&rt, rt.alloc()),
        _ => {
            println!(rt; "{USAGE}")?;
            Ok(())
        }
    }
}

fn report(rt: &HostRuntime) -> Result<()> {
    ciphers::report(rt)?;
    digests::report(rt)?;
    profile::report(rt, rt.alloc())?;
    masters::report(rt, rt.alloc())?;
    records::report(rt, rt.alloc())?;
    dumps::report(rt, rt.alloc())
}
