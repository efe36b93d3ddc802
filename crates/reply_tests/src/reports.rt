//! The reports of the rows that a creation makes.

use first_rows::{CreateSpec, first_rows};
use kdb_base::{Etype, Time};
use princ_name::{Realm, is_realm};
use princ_rows::Rows;
use std::alloc::Global;
use std::process::Abort;
use std::test::*;
use tab_reports::{ReportKind, report};

/// The second of the creation.
const CREATED: u32 = 1_700_000_000;

const MASTERS: &[u8] = b"version\tenctype\tactivation\tactive\tprotects\tcause\n\
1\taes256-cts-hmac-sha1-96\t1700000000\tyes\t2\tprotects\n";

const KEYS: &[u8] = b"name\tindex\tkvno\tenctype\tsalt\twrapped\n\
K/M@EXAMPLE.ORG\t0\t1\taes256-cts-hmac-sha1-96\tnormal\t62\n\
kadmin/history@EXAMPLE.ORG\t0\t1\taes256-cts-hmac-sha1-96\tnormal\t62\n\
krbtgt/EXAMPLE.ORG@EXAMPLE.ORG\t0\t1\taes256-cts-hmac-sha1-96\tnormal\t62\n\
krbtgt/EXAMPLE.ORG@EXAMPLE.ORG\t1\t1\taes128-cts-hmac-sha1-96\tnormal\t46\n";

const POLICIES: &[u8] = b"name\tmaxlife\tminlife\tminlength\tminclasses\thistory\tprincipals\n";

fn realm(alloc: Global) -> Result<Realm, Fail> {
    let text = b"EXAMPLE.ORG";
    if !is_realm(text) {
        return Err(Fail::from("a realm"));
    }
    Ok(Realm::from_bytes(alloc, text)?)
}

fn spec_of(alloc: Global) -> Result<CreateSpec, Fail> {
    let example = realm(alloc)?;
    Ok(CreateSpec::new(example, None, Etype::Aes256, 1000))
}

/// A database with K/M, kadmin/history and krbtgt, under one master key.
fn created(alloc: Global) -> Result<Rows, Fail> {
    let spec = spec_of(alloc)?;
    let (rows, _) = first_rows(alloc, &spec, Time::new(CREATED, 0), &[7; 2048])?;
    Ok(rows)
}

fn check_report(
    rt: &impl Abort,
    alloc: Global,
    rows: &Rows,
    kind: ReportKind,
    text: &[u8],
) -> Result<(), Fail> {
    let told = report(alloc, kind, rows, Time::new(CREATED, 0))?;
    assert_eq!(rt; told.as_slice(), text);
    Ok(())
}

fn check_reports(rt: &impl Abort, alloc: Global, rows: &Rows) -> Result<(), Fail> {
    check_report(rt, alloc, rows, ReportKind::Masters, MASTERS)?;
    check_report(rt, alloc, rows, ReportKind::Keys, KEYS)?;
    check_report(rt, alloc, rows, ReportKind::Policies, POLICIES)
}

#[test]
fn masters_keys_and_policies_of_a_creation(rt: HostRuntime) -> Result<(), Fail> {
    let rows = created(rt.alloc())?;
    check_reports(&rt, rt.alloc(), &rows)
}

fn check_principals(rt: &impl Abort, alloc: Global, rows: &Rows) -> Result<(), Fail> {
    let kind = ReportKind::Principals;
    let told = report(alloc, kind, rows, Time::new(CREATED, 0))?;
    let lines = told
        .as_slice()
        .iter()
        .filter(|byte| **byte == b'\n')
        .count();
    assert_eq!(rt; lines, 4);
    assert!(rt; told.as_slice().starts_with(b"name\tattributes\tmaxlife\t"));
    Ok(())
}

#[test]
fn principals_of_a_creation(rt: HostRuntime) -> Result<(), Fail> {
    let rows = created(rt.alloc())?;
    check_principals(&rt, rt.alloc(), &rows)
}
