//! A rekeying of a record without keys, and what is told where something changed meanwhile.

ghost use Rattle.princ_record.specs.Princs.{IsPrinc};

use kdb_base::{Etype, Master, Masters, MemoryOut, PlainKey};
use kdb_plain::master_of;
use princ_record::{Princ, decode};
use rekey_work::{Rewrapped, Settled, Taken, rewrap_outside, settle, take};
use std::alloc::Global;
use std::process::Abort;
use std::test::Fail;

/// joe@R under version 1, without keys.
const ROW: &[u8] = b"\0\x05joe@R\0\0\0\0\0\0\0\0\0\0\0\0\0\0\0\0\0\0\0\0\
\0\x02\0\x02\0\x08\0\0\0\0a@R\0\0\x08\0\x02\x01\0\0\0\0\0\0\0";

fn key_of(byte: u8) -> PlainKey {
    PlainKey::from_bytes(Etype::Aes128, &[byte; 16])
}

/// Master keys of versions 1 and 2.
fn two_masters(alloc: Global) -> Result<Masters, MemoryOut> {
    let items = vec![in alloc;
        Master {
            version: 1,
            key: key_of(1),
        },
        Master {
            version: 2,
            key: key_of(2),
        },
    ]?;
    Ok(Masters::from_vec(items))
}

/// Takes a record without keys.
#[tactic(auto, using(rekey_work::proofs::ItemLemmas::bare_is_opened))]
fn take_bare(
    rt: &HostRuntime,
    princ: &Princ,
    masters: &Masters,
    active: u16,
) -> Result<Option<Taken>, Fail>
    requires { IsPrinc princ.now }
{
    let bare = princ.keys.as_slice().len() == 0;
    if !bare || princ.chain.is_some() || active == 0 {
        return Err(Fail::from("not a record without keys"));
    }
    if master_of(masters, princ.mkvno).is_none() || master_of(masters, active).is_none() {
        return Err(Fail::from("not a listed version"));
    }
    let found = take(rt.alloc(), princ, masters, active)?;
    Ok(found)
}

/// Whether the record stays under its own version.
fn stays(rt: &HostRuntime, princ: &Princ, masters: &Masters) -> Result<bool, Fail>
    requires { IsPrinc princ.now }
{
    let taken = take_bare(rt, princ, masters, 1)?;
    Ok(taken.is_none())
}

/// The record, taken for version 2.
fn taken_for_2(rt: &HostRuntime, princ: &Princ, masters: &Masters) -> Result<Taken, Fail>
    requires { IsPrinc princ.now }
{
    match take_bare(rt, princ, masters, 2)? {
        Some(taken) => Ok(taken),
        None => Err(Fail::from("a record")),
    }
}

fn rewrapped(alloc: Global, taken: Taken) -> Result<Rewrapped, Fail> {
    match rewrap_outside(alloc, taken, &[7; 512]) {
        Ok(made) => Ok(made),
        Err(_) => Err(Fail::from("no memory")),
    }
}

fn check_stored(rt: &impl Abort, settled: &Settled) -> Result<(), Fail> {
    match settled {
        Settled::Updated(stored) => assert_eq!(rt; stored.mkvno, 2),
        _ => return Err(Fail::from("not stored")),
    }
    Ok(())
}

/// What was taken is stored under version 2.
fn check_settled(
    rt: &impl Abort,
    alloc: Global,
    princ: &Princ,
    masters: &Masters,
    taken: Taken,
) -> Result<(), Fail>
    requires { IsPrinc princ.now }
{
    let made = rewrapped(alloc, taken)?;
    let settled = settle(alloc, Some(princ), masters, 2, made)?;
    check_stored(rt, &settled)
}

#[test]
fn a_record_is_taken_and_settled(rt: HostRuntime) -> Result<(), Fail> {
    let masters = two_masters(rt.alloc())?;
    let princ = decode(rt.alloc(), ROW)?;
    assert!(rt; stays(&rt, &princ, &masters)?);
    let taken = taken_for_2(&rt, &princ, &masters)?;
    assert_eq!(rt; taken.version(), 2);
    check_settled(&rt, rt.alloc(), &princ, &masters, taken)
}
