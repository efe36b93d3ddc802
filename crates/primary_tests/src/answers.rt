//! What calls answer, compared with what they are to answer. Replies are compared as they are printed.

ghost use Rattle.std.specs.Prelude.{IfOk};
ghost use Rattle.princ_record.specs.RowLimits.{IsRow};

use crate::calls::{Asker, At, Primary, give, names, rekey, take, time};
use kadm_commands::{NameList, Reply, Totals};
use kadm_replies::print_reply;
use kdb_base::{Blob, Halt, Point, Refusal, Stop};
use primary_rekeying::TakeAnswer;
use princ_record::{Princ, encoded_len};
use princ_rows::{Entry, ReplyCode, Rows};
use rekey_work::Settled;
use std::alloc::Global;
use std::test::Fail;
use ulog_text::print_ulog;

/// A serial and its time.
pub(crate) type Place = (u32, At);

pub(crate) fn point(place: Place) -> Point {
    Point {
        sno: place.0,
        time: time(place.1),
    }
}

// ---- replies

// Whether the text is this one and a line feed.
fn is_line(text: &[u8], wanted: &str) -> bool {
    match text.strip_suffix(b"\n") {
        Some(said) => said == wanted.as_bytes(),
        None => false,
    }
}

/// What is printed for the reply.
pub(crate) fn printed(alloc: Global, reply: Reply) -> Result<Blob, Fail> {
    let said = print_reply(alloc, &reply);
    drop(reply);
    Ok(said?)
}

/// Whether the reply is printed so, before its last line feed.
pub(crate) fn is_printed(alloc: Global, reply: Reply, wanted: &str) -> Result<bool, Fail> {
    let said = printed(alloc, reply)?;
    Ok(is_line(said.as_slice(), wanted))
}

/// Whether it is a refusal that is printed so.
pub(crate) fn is_refused(alloc: Global, stop: Stop, wanted: &str) -> Result<bool, Fail> {
    match stop {
        Stop::Refused(why) => is_printed(alloc, Reply::Refused(why), wanted),
        Stop::Halt(halt) => Err(Fail::from(halt)),
    }
}

/// Whether the answer is the point of a change, or a refusal, that is printed so.
pub(crate) fn is_done(
    alloc: Global,
    answer: Result<Point, Stop>,
    wanted: &str,
) -> Result<bool, Fail> {
    match answer {
        Ok(point) => is_printed(alloc, Reply::Done(point), wanted),
        Err(stop) => is_refused(alloc, stop, wanted),
    }
}

/// Gives a line. No text is wanted where the disk is to fail by it.
pub(crate) fn is_answered(
    alloc: Global,
    primary: &mut Primary,
    asker: &Asker,
    line: &[u8],
    wanted: &str,
) -> Result<bool, Fail> {
    match give(alloc, primary, asker, line)? {
        Ok(reply) => is_printed(alloc, reply, wanted),
        Err(Halt::DiskFault) => Ok(wanted.is_empty()),
        Err(halt) => Err(Fail::from(halt)),
    }
}

// Gives a line, whatever its reply is.
fn pass(alloc: Global, primary: &mut Primary, asker: &Asker, line: &[u8]) -> Result<(), Fail> {
    match give(alloc, primary, asker, line)? {
        Ok(reply) => {
            drop(reply);
            Ok(())
        }
        Err(halt) => Err(Fail::from(halt)),
    }
}

/// Gives a line so many times, and compares the last reply.
pub(crate) fn is_answered_last(
    alloc: Global,
    primary: &mut Primary,
    asker: &Asker,
    count: u32,
    line: &[u8],
    wanted: &str,
) -> Result<bool, Fail> {
    for _ in 1..count {
        pass(alloc, primary, asker, line)?;
    }
    is_answered(alloc, primary, asker, line, wanted)
}

/// Adds so many principals without keys, p0 the last of them, and compares the last reply.
pub(crate) fn are_added(
    alloc: Global,
    primary: &mut Primary,
    asker: &Asker,
    count: u32,
    wanted: &str,
) -> Result<bool, Fail> {
    for number in 1..count {
        let line = format!(in alloc; "addprinc -nokey p{number}")?;
        pass(alloc, primary, asker, line.as_bytes())?;
    }
    is_answered(alloc, primary, asker, b"addprinc -nokey p0", wanted)
}

/// Gives `setstr bob` with this key and 1024 letters.
pub(crate) fn is_long_answered(
    alloc: Global,
    primary: &mut Primary,
    asker: &Asker,
    key: &str,
    wanted: &str,
) -> Result<bool, Fail> {
    let mut line = b"setstr bob ".to_vec(alloc)?;
    line.extend_from_slice(key.as_bytes())?;
    line.push(b' ')?;
    for _ in 0..1024 {
        line.push(b'x')?;
    }
    is_answered(alloc, primary, asker, &line, wanted)
}

/// Writes the stash anew.
pub(crate) fn is_stashed(
    alloc: Global,
    primary: &mut Primary,
    asker: &Asker,
    wanted: &str,
) -> Result<bool, Fail> {
    match primary.write_stash(alloc, asker.now) {
        Ok(()) => is_printed(alloc, Reply::Stashed, wanted),
        Err(stop) => is_refused(alloc, stop, wanted),
    }
}

/// Whether the names that the glob matches are told so.
pub(crate) fn is_listed(
    alloc: Global,
    primary: &Primary,
    asker: &Asker,
    glob: &str,
    wanted: &str,
) -> Result<bool, Fail> {
    let glob = Some(Blob::from_bytes(alloc, glob.as_bytes())?);
    match names(alloc, primary, asker, &glob) {
        Ok(names) => is_printed(alloc, Reply::Listed(names), wanted),
        Err(stop) => is_refused(alloc, stop, wanted),
    }
}

// ---- polls

fn has_serials(updates: &[Entry], serials: &[u32]) -> bool {
    if updates.len() != serials.len() {
        return false;
    }
    for (entry, sno) in updates.iter().zip(serials) {
        if entry.point.sno != *sno {
            return false;
        }
    }
    true
}

/// Polls from this place, and compares the code of the reply and the serials of its updates. No code is wanted of a
/// primary that is closed.
pub(crate) fn is_polled(
    alloc: Global,
    primary: &Primary,
    asker: &Asker,
    place: Place,
    code: Option<ReplyCode>,
    serials: &[u32],
) -> Result<bool, Fail> {
    let asked = point(place);
    match primary.poll(alloc, &asker.client, asker.acl.as_ref(), asked) {
        Ok(reply) => Ok(
            Some(reply.code()) == code
                && reply.asked() == asked
                && has_serials(reply.updates(), serials),
        ),
        Err(Stop::Refused(Refusal::Closed)) => Ok(code.is_none()),
        Err(stop) => Err(Fail::from(stop)),
    }
}

// ---- the database

/// How many entries the log holds at most, the length of its blocks, and its first and last points.
pub(crate) fn has_log(primary: &Primary, size: u32, block: u32, first: Place, last: Place) -> bool {
    let store = primary.store();
    store.log_size() == size
        && store.block() == block
        && store.held() == (point(first), point(last))
}

/// Whether the log is told by these lines.
pub(crate) fn is_log_told(alloc: Global, primary: &Primary, wanted: &str) -> Result<bool, Fail> {
    let store = primary.store();
    let text = print_ulog(alloc, store.log(), store.log_size(), store.block())?;
    Ok(is_line(text.as_slice(), wanted))
}

// The record at this place, in the order of names.
fn stored(rows: &Rows, at: usize) -> Result<&Princ, Fail>
    ensures { IfOk result (λ p. IsRow p.now) }
{
    match rows.princs().get(at) {
        Some(row) => Ok(row.get()),
        None => Err(Fail::from("a record")),
    }
}

/// How many bytes the record at this place has, in the order of names.
pub(crate) fn has_row(primary: &Primary, at: usize, length: usize) -> Result<bool, Fail> {
    let princ = stored(primary.store().rows(), at)?;
    Ok(encoded_len(princ) == length)
}

/// How long the wrapped keys of the principal are.
pub(crate) fn has_keys(primary: &Primary, name: &[u8], lengths: &[usize]) -> bool {
    let Some(princ) = primary.store().rows().princ(name) else {
        return false;
    };
    let keys = princ.keys.as_slice();
    if keys.len() != lengths.len() {
        return false;
    }
    for (item, length) in keys.iter().zip(lengths) {
        if item.wrapped.len() != *length {
            return false;
        }
    }
    true
}

// ---- rekeyings

/// What a principal comes to that is taken, settled or rekeyed.
#[derive(Clone, Copy, PartialEq)]
pub(crate) enum Became {
    /// Its record is stored under this version.
    Stored(u16),
    Already,
    Gone,
    /// The record that stands now was found in place of the one that was taken, and this version is active in place of
    /// its.
    AnotherRecord(Option<u16>),
    /// A record was told that does not stand now.
    StrangeRecord,
    SameRecord(Option<u16>),
    Closed,
    Ready,
}

// What was told, where this record stands by the name now.
fn outcome_of(settled: &Settled, now: Option<&Princ>) -> Became {
    match settled {
        Settled::Updated(made) => Became::Stored(made.mkvno),
        Settled::Already => Became::Already,
        Settled::Gone => Became::Gone,
        Settled::Changed(None, version) => Became::SameRecord(*version),
        Settled::Changed(Some(found), version) => {
            if now == Some(found) {
                Became::AnotherRecord(*version)
            } else {
                Became::StrangeRecord
            }
        }
    }
}

/// What was answered of the principal of this name.
pub(crate) fn became_of(
    primary: &Primary,
    name: &[u8],
    answer: Result<Settled, Stop>,
) -> Result<Became, Fail> {
    match answer {
        Ok(settled) => {
            let became = outcome_of(&settled, primary.store().rows().princ(name));
            drop(settled);
            Ok(became)
        }
        Err(Stop::Refused(Refusal::Closed)) => Ok(Became::Closed),
        Err(stop) => Err(Fail::from(stop)),
    }
}

/// What taking the principal of this name comes to.
pub(crate) fn taken(
    alloc: Global,
    primary: &Primary,
    asker: &Asker,
    name: &[u8],
) -> Result<Became, Fail> {
    match take(alloc, primary, name, asker.now)? {
        TakeAnswer::Ready(taken) => {
            drop(taken);
            Ok(Became::Ready)
        }
        TakeAnswer::Already => Ok(Became::Already),
        TakeAnswer::Gone => Ok(Became::Gone),
        TakeAnswer::Closed => Ok(Became::Closed),
    }
}

/// Rekeys the principal of this name at once.
pub(crate) fn rekeyed(
    alloc: Global,
    primary: &mut Primary,
    asker: &Asker,
    name: &[u8],
) -> Result<Became, Fail> {
    let answer = rekey(alloc, primary, name, asker.now)?;
    became_of(primary, name, answer)
}

fn rekeyed_each(
    alloc: Global,
    primary: &mut Primary,
    asker: &Asker,
    names: &NameList,
) -> Result<Totals, Fail> {
    let (mut updated, mut already) = (0u32, 0u32);
    for name in names.as_slice() {
        match rekeyed(alloc, primary, asker, name.as_slice())? {
            Became::Stored(_) => updated = updated.saturating_add(1),
            Became::Already => already = already.saturating_add(1),
            _ => return Err(Fail::from("an answer to one that is there")),
        }
    }
    Ok(Totals {
        updated,
        already,
        gone: 0,
    })
}

/// Rekeys all principals, and compares how many there are.
pub(crate) fn are_rekeyed(
    alloc: Global,
    primary: &mut Primary,
    asker: &Asker,
    wanted: &str,
) -> Result<bool, Fail> {
    match names(alloc, primary, asker, &None) {
        Ok(names) => {
            let totals = rekeyed_each(alloc, primary, asker, &names)?;
            is_printed(alloc, Reply::Rekeyed(totals), wanted)
        }
        Err(stop) => Err(Fail::from(stop)),
    }
}
