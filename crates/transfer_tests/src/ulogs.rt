//! Logs as lines.

ghost use Rattle.std.specs.Prelude.{◌≡◌, IfOk, OnOk, Some};
ghost use Rattle.princ_record.specs.RowLimits.{IsRow};
ghost use Rattle.princ_rows.specs.Entries.{IsOp};

use crate::filled_logs::{append, begun, printed};
use kdb_base::Blob;
use policy_rules::is_policy_name;
use princ_record::{Princ, decode, decode_policy, is_row};
use princ_rows::Op;
use std::alloc::Global;
use std::process::Abort;
use std::test::*;
use ulog_text::print_ulog;
use update_log::Log;

// A principal's name with its length, no attributes, four numbers of lives, a modification of 1700000000 by a@R, no
// keys, no policy, and nothing remembered.
const PRINC: &[u8] = b"\0\x0dc@EXAMPLE.ORG\
    \0\0\0\0\0\0\0\0\0\0\0\0\0\0\0\0\0\0\0\0\0\x02\0\x02\0\x08\0\xf1\x53\x65a@R\0\0\x08\0\x02\x01\0\0\0\0\0\0\0";

// A policy's name with its length, no lives, passwords of eight bytes of three classes, and a history of two.
const POLICY: &[u8] = b"\0\x03std\0\0\0\0\0\0\0\0\0\x08\0\x03\0\x02";

const BASE: &str = "- first 3 1700000000.000000
- last 3 1700000000.000000
- size 2 block 2048
- 3 1700000000.000000 base
ok
";

const CHANGES: &str = "- first 3 1700000000.000000
- last 8 1700000000.000000
- size 10 block 2048
- 3 1700000000.000000 base
- 4 1700000000.000000 put c@EXAMPLE.ORG
- 5 1700000000.000000 delete d@EXAMPLE.ORG
- 6 1700000000.000000 rename d@EXAMPLE.ORG c@EXAMPLE.ORG
- 7 1700000000.000000 putpol std
- 8 1700000000.000000 delpol std
ok
";

/// The lines of a log that is to hold at most so many entries.
fn check_lines(
    rt: &impl Abort,
    alloc: Global,
    log: &Log,
    size: u32,
    lines: &str,
) -> Result<(), Fail> {
    let text = print_ulog(alloc, log, size, 2048)?;
    assert!(rt; text.as_slice() == lines.as_bytes());
    Ok(())
}

#[test]
fn a_log_of_its_base_marker(rt: HostRuntime) -> Result<(), Fail> {
    let log = begun(rt.alloc(), 3, 2)?;
    let checked = check_lines(&rt, rt.alloc(), &log, 2, BASE);
    drop(log);
    checked
}

fn princ(alloc: Global) -> Result<Princ, Fail>
    ensures { IfOk result IsRow }
{
    let princ = decode(alloc, PRINC)?;
    if !is_row(&princ) {
        drop(princ);
        return Err(Fail::from("a row"));
    }
    Ok(princ)
}

fn policy_drop(alloc: Global, name: &[u8]) -> Result<Op, Fail>
    ensures { IfOk result (λ op. IsOp (Some op)) }
{
    if !is_policy_name(name) {
        return Err(Fail::from("a name of a policy"));
    }
    Ok(Op::DropPolicy(Blob::from_bytes(alloc, name)?))
}

fn append_put(alloc: Global, log: &mut Log) -> Result<(), Fail>
    requires { log.old.block ≡ 2048 }
    ensures { OnOk result (log.new.block ≡ 2048) }
{
    append(alloc, log, Op::PutPrinc(princ(alloc)?))
}

fn append_drop(alloc: Global, log: &mut Log) -> Result<(), Fail>
    requires { log.old.block ≡ 2048 }
    ensures { OnOk result (log.new.block ≡ 2048) }
{
    append(alloc, log, Op::DropPrinc(printed(alloc, b"d@EXAMPLE.ORG")?))
}

fn append_rename(alloc: Global, log: &mut Log) -> Result<(), Fail>
    requires { log.old.block ≡ 2048 }
    ensures { OnOk result (log.new.block ≡ 2048) }
{
    let old = printed(alloc, b"d@EXAMPLE.ORG")?;
    append(alloc, log, Op::Rename(old, princ(alloc)?))
}

fn append_policy(alloc: Global, log: &mut Log) -> Result<(), Fail>
    requires { log.old.block ≡ 2048 }
    ensures { OnOk result (log.new.block ≡ 2048) }
{
    append(alloc, log, Op::PutPolicy(decode_policy(alloc, POLICY)?))
}

/// One change of each kind.
fn append_each(alloc: Global, log: &mut Log) -> Result<(), Fail>
    requires { log.old.block ≡ 2048 }
    ensures { OnOk result (log.new.block ≡ 2048) }
{
    append_put(alloc, log)?;
    append_drop(alloc, log)?;
    append_rename(alloc, log)?;
    append_policy(alloc, log)?;
    append(alloc, log, policy_drop(alloc, b"std")?)
}

/// A log with one change of each kind.
fn with_each(alloc: Global) -> Result<Log, Fail> {
    let mut log = begun(alloc, 3, 10)?;
    match append_each(alloc, &mut log) {
        Ok(()) => Ok(log),
        Err(fail) => {
            drop(log);
            Err(fail)
        }
    }
}

#[test]
fn a_log_of_each_change(rt: HostRuntime) -> Result<(), Fail> {
    let log = with_each(rt.alloc())?;
    let checked = check_lines(&rt, rt.alloc(), &log, 10, CHANGES);
    drop(log);
    checked
}
