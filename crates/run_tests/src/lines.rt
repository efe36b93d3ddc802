//! Lines of administrators and their replies.

use crate::runs::{NO_FAULTS, Turn, check_last, check_outcome, check_session, created, repeated};
use kdb_base::Status;
use std::alloc::Global;
use std::process::Abort;
use std::test::Fail;

/// Names that are added one after another, each with its reply.
const NAMES: [Turn; 9] = [
    ("addprinc -nokey bob", "ok 2 1700000000.000000"),
    ("addprinc -nokey bob", "err 3 Duplicate"),
    ("addprinc -nokey a\\/b", "ok 3 1700000000.000000"),
    ("addprinc -nokey a/b", "ok 4 1700000000.000000"),
    ("addprinc -nokey host/", "ok 5 1700000000.000000"),
    ("addprinc -nokey a@", "err 2 BadName 2"),
    ("addprinc -nokey a@X@Y", "err 2 BadName 3"),
    ("addprinc -nokey a@OTHER", "err 2 BadName 2"),
    ("renprinc bob b@X@Y", "err 2 BadName 3"),
];

/// The front of a line that adds a name of so many letters.
fn addition(alloc: Global, count: usize) -> Result<Vec<u8>, Fail> {
    let name = repeated(alloc, b'n', count)?;
    let mut input = b"addprinc -nokey ".as_slice().to_vec(alloc)?;
    input.extend_from_slice(&name)?;
    Ok(input)
}

#[test]
fn a_printed_name_has_at_most_255_bytes(rt: HostRuntime) -> Result<(), Fail> {
    let alloc = rt.alloc();
    let mut input = addition(alloc, 243)?;
    check_last(&rt, alloc, &input, b"ok 2 1700000000.000000\n")?;
    input.push(b'n')?;
    check_last(&rt, alloc, &input, b"err 2 BadName 244\n")
}

/// Lines without a reply, quoted words, synonyms, `--`, a carriage return, and what is no line; the last
/// line lacks its line feed.
const LINES: &[u8] = b"\n# note\n   \taddprinc -nokey \"a b\"\nadd_principal -nokey c\r\n\
delprinc -force c\n\"a\nfrob\nmodprinc -maxlife x bob\nmodprinc -maxlife 1h a\\ b\n\
addprinc -nokey -nokey d\naddprinc d\naddprinc -pw x -randkey d\naddprinc -nokey -- -d\n\
ank -nokey -e aes256-sha2 d";

const REPLIES: &[u8] = b"ok 2 1700000000.000000\nok 3 1700000000.000000\n\
ok 4 1700000000.000000\nerr 1 BadLine\nerr 1 BadLine\nerr 13 BadValue maxlife\n\
err 1 BadLine\nerr 1 BadLine\nerr 1 BadLine\nerr 1 BadLine\nok 5 1700000000.000000\nok 6 1700000000.000000\n";

/// Runs `admin` with an input of which a line is refused, and compares all replies.
fn check_refused(rt: &impl Abort, alloc: Global, input: &[u8], replies: &[u8]) -> Result<(), Fail> {
    let mut disk = created(alloc, &[])?;
    let refused = Status::Refused;
    check_outcome(
        rt, alloc, &mut disk, "admin", input, &NO_FAULTS, refused, replies,
    )
}

#[test]
fn lines_go_by_the_grammar(rt: HostRuntime) -> Result<(), Fail> {
    check_refused(&rt, rt.alloc(), LINES, REPLIES)
}

#[test]
fn a_line_that_is_too_long_is_refused_once(rt: HostRuntime) -> Result<(), Fail> {
    let alloc = rt.alloc();
    let mut input = repeated(alloc, b'n', 65_537)?;
    input.extend_from_slice(b"\n# note\n")?;
    check_refused(&rt, alloc, &input, b"err 27 LineTooLong\n")
}

/// A principal's life, and the names at its end.
const CHANGES: [Turn; 11] = [
    (
        "addprinc -nokey -expire 2106-02-07T06:28:15Z -maxlife 1d2s alice",
        "ok 2 1700000000.000000",
    ),
    (
        "modprinc -expire never +requires_preauth -allow_tix +allow_svr -maxrenewlife 60 alice",
        "ok 3 1700000000.000000",
    ),
    (
        "getprinc alice",
        "- principal alice@EXAMPLE.ORG\n- expires never\n- pwexpires never\n- pwchanged never\n\
- maxlife 86402\n- maxrenewlife 60\n- modified 2023-11-14T22:13:20Z admin/local@EXAMPLE.ORG\n\
- mkvno 1\n- flags -allow_tix +requires_preauth\n- policy -\nok",
    ),
    ("addprinc -nokey carol", "ok 4 1700000000.000000"),
    ("addprinc -nokey bob", "ok 5 1700000000.000000"),
    (
        "listprincs",
        "- K/M@EXAMPLE.ORG\n- alice@EXAMPLE.ORG\n- bob@EXAMPLE.ORG\n- carol@EXAMPLE.ORG\n\
- kadmin/history@EXAMPLE.ORG\n- krbtgt/EXAMPLE.ORG@EXAMPLE.ORG\nok",
    ),
    ("listprincs ?o*", "- bob@EXAMPLE.ORG\nok"),
    ("delprinc carol", "ok 6 1700000000.000000"),
    ("getprinc carol", "err 4 UnknownPrincipal"),
    ("modprinc carol", "err 4 UnknownPrincipal"),
    ("listprincs [a]", "err 13 BadValue glob"),
];

/// A line that other programs of the kind have, and this one has not.
const NO_LINES: [Turn; 1] = [("client admin/local", "err 1 BadLine")];

#[test]
fn names_are_added_changed_shown_and_deleted(rt: HostRuntime) -> Result<(), Fail> {
    check_session(&rt, rt.alloc(), &NAMES)?;
    check_session(&rt, rt.alloc(), &CHANGES)?;
    check_session(&rt, rt.alloc(), &NO_LINES)
}
