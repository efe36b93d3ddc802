//! Dumps that are under way.

use crate::bench::{ANY, Bench, T};
use crate::texts::{count_lines, is_bad_at, read_text, written_dump};
use crate::turns::Turn::{
    Added, Ask, BeginDump, Create, End, EndDump, Load, Log, Names, Open, Poll,
};
use crate::turns::{Turn, play, play_on};
use kdb_base::Fails;
use princ_rows::ReplyCode::{Busy, FullResyncNeeded};
use std::alloc::Global;
use std::process::Abort;
use std::test::Fail;

/// A denial is told before that all places are taken.
static TWO_PLACES: [Turn; 14] = [
    Create(1000, "ok 1 1700000000.000000"),
    Open(None, 2, "ok 1 1700000000.000000"),
    Ask(ANY, "joe", T),
    BeginDump("ok 1 1700000000.000000", 3),
    Poll((0, (0, 0)), FullResyncNeeded, &[]),
    BeginDump("ok 1 1700000000.000000", 3),
    Poll((0, (0, 0)), Busy, &[]),
    BeginDump("err 25 Busy", 0),
    Ask(Some("joe P\n"), "joe", T),
    BeginDump("err 7 Denied 1", 0),
    EndDump,
    EndDump,
    Ask(ANY, "joe", T),
    Poll((0, (0, 0)), FullResyncNeeded, &[]),
];

/// The ticket of a database that was ended ends no dump of the next one: there is one place, and none less than none is
/// under way.
static NONE_BELOW_NONE: [Turn; 11] = [
    Create(1000, "ok 1 1700000000.000000"),
    BeginDump("ok 1 1700000000.000000", 3),
    End,
    Create(1000, "ok 1 1700000000.000000"),
    EndDump,
    BeginDump("ok 1 1700000000.000000", 3),
    Ask(ANY, "joe", T),
    Poll((0, (0, 0)), Busy, &[]),
    BeginDump("err 25 Busy", 0),
    EndDump,
    BeginDump("ok 1 1700000000.000000", 3),
];

/// A database is filled with its own dump: the log is begun anew.
static LOADED: [Turn; 6] = [
    Create(1000, "ok 1 1700000000.000000"),
    BeginDump("ok 1 1700000000.000000", 3),
    EndDump,
    Load(b"", "ok 1 1700000000.000001"),
    Log(1000, 2048, (1, (1_700_000_000, 1)), (1, (1_700_000_000, 1))),
    Names(
        "*",
        "- kadmin/history@EXAMPLE.ORG\n- krbtgt/EXAMPLE.ORG@EXAMPLE.ORG\nok",
    ),
];

#[test]
fn dumps_under_way_are_counted(rt: HostRuntime) -> Result<(), Fail> {
    play(&rt, rt.alloc(), &TWO_PLACES)?;
    play(&rt, rt.alloc(), &NONE_BELOW_NONE)?;
    play(&rt, rt.alloc(), &LOADED)
}

// ---- a dump of many

/// A database with 500 principals more than a new one has.
static OF_MANY: [Turn; 4] = [
    Create(1000, "ok 1 1700000000.000000"),
    Added(500, "ok 501 1700000000.000000"),
    BeginDump("ok 501 1700000000.000000", 503),
    EndDump,
];

static FILLED: [Turn; 5] = [
    End,
    Create(1000, "ok 1 1700000000.000000"),
    Load(b"", "ok 1 1700000000.000001"),
    BeginDump("ok 1 1700000000.000001", 503),
    EndDump,
];

/// The dump that was begun last, as a text.
fn kept_text(alloc: Global, bench: &Bench) -> Result<Vec<u8>, Fail> {
    match &bench.dump {
        Some(dump) => written_dump(alloc, dump.realm.as_slice(), dump.point, &dump.rows),
        None => Err(Fail::from("a dump")),
    }
}

/// Three lines stand before those of 503 principals, and one behind them.
fn check_lines(rt: &impl Abort, alloc: Global, text: &[u8]) -> Result<(), Fail> {
    assert_eq!(rt; count_lines(text), 507);
    let Some(rows) = text.strip_suffix(b"end 503\n") else {
        return Err(Fail::from("the end of 503 rows"));
    };
    assert!(rt; is_bad_at(alloc, rows, 507));
    let mut more = text.to_vec(alloc)?;
    more.push(b'x')?;
    assert!(rt; is_bad_at(alloc, &more, 508));
    Ok(())
}

/// Keeps the dump that the text says, in place of the one that was begun last.
fn read_anew(alloc: Global, bench: &mut Bench, text: &[u8]) -> Result<(), Fail> {
    let dump = read_text(alloc, text)?;
    drop(bench.dump.replace(dump));
    Ok(())
}

fn check_many(rt: &impl Abort, alloc: Global, bench: &mut Bench) -> Result<(), Fail> {
    play_on(rt, alloc, bench, &OF_MANY)?;
    let text = kept_text(alloc, bench)?;
    read_anew(alloc, bench, &text)?;
    play_on(rt, alloc, bench, &FILLED)?;
    check_lines(rt, alloc, &text)
}

#[test]
fn a_dump_of_many_is_read_and_loaded(rt: HostRuntime) -> Result<(), Fail> {
    let alloc = rt.alloc();
    let mut bench = Bench::new(alloc, Fails::none(alloc))?;
    let checked = check_many(&rt, alloc, &mut bench);
    drop(bench);
    checked
}
