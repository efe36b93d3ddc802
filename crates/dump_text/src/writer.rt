//! A dump, written to a sink through a buffer.
ghost use Rattle.std.specs.Prelude.{◌≡◌, ◌≢◌, ◌≤◌, ◌++◌, [], ℕ, Err, IfOk, OnErr, OnOk};
ghost use Rattle.std.specs.List.{All, flat_map};
ghost use Rattle.kdb_base.specs.Causes.{HasCause, Rose};
ghost use Rattle.kdb_ports.specs.Parts.{SaidPart};
ghost use Rattle.kdb_ports.specs.Told.{after_told};
ghost use Rattle.princ_record.specs.RowLimits.{IsRow};
ghost use Rattle.princ_record.specs.Princs.{IsPrinc};
ghost use Rattle.dump_text.specs.Dumps.{dump_text, end_line, marked, marked_head, marked_rows};
ghost use Rattle.dump_text.specs.Dumps.{marked_text, policy_line, princ_line, row_count};
ghost use Rattle.dump_text.specs.declared.versions.Version.TheVariants.{Two};
ghost use Rattle.dump_text.specs.Parts.{Holds};

use crate::lines::{push_end, push_head, push_policy, push_princ};
use crate::stops::{DumpStop, WriteStop};
use kdb_base::limits::MAX_ROW_LEN;
use kdb_base::{MemoryOut, Point};
use kdb_ports::{Sink, WriteFailed, write_whole};
use policy_rules::Policy;
use princ_record::Princ;
use princ_rows::{Boxed, Rows};
use std::alloc::Global;

/// So many bytes are written at once, but for the last ones.
const PAGE: usize = 65536;

/// What the buffer holds at most: a page, and behind it a line, which spells a row in hexadecimal behind a mark of a
/// few bytes and a word.
const ROOM: usize = PAGE + 2 * MAX_ROW_LEN + 64;

/// Writes what is held, once it is a page.
fn pass_on<K: Sink>(sink: &mut K, out: &mut Vec<u8>) -> Result<(), WriteFailed>
    ensures ok { OnOk result (Holds out.old.items (K.taken sink.old) (K.taken sink.new) out.new.items) }
    ensures err { OnErr result (SaidPart out.old.items (K.taken sink.old) (K.taken sink.new)) }
    ensures cause { HasCause (K.faults sink.old) (K.faults sink.new) result }
{
    if out.len() < PAGE {
        return Ok(());
    }
    write_whole(sink, out)?;
    out.clear();
    Ok(())
}

/// Writes the line of a principal.
fn write_princ<K: Sink>(
    alloc: Global,
    mark: &[u8],
    princ: &Princ,
    sink: &mut K,
    out: &mut Vec<u8>,
) -> Result<(), WriteStop>
    requires { IsPrinc princ.now }
    ensures ok { OnOk result (Holds (out.old.items ++ marked mark.now (princ_line princ.now)) (K.taken sink.old)
        (K.taken sink.new) out.new.items) }
    ensures err { OnErr result
        (SaidPart (out.old.items ++ marked mark.now (princ_line princ.now)) (K.taken sink.old) (K.taken sink.new)) }
    ensures later { K.faults sink.old ≤ K.faults sink.new }
    ensures fault { result ≡ Err WriteStop.WriteFault → Rose (K.faults sink.old) (K.faults sink.new) }
{
    match push_princ(alloc, out, mark, princ) {
        Ok(()) => match pass_on(sink, out) {
            Ok(()) => Ok(()),
            Err(_) => Err(WriteStop::WriteFault),
        },
        Err(_) => Err(WriteStop::MemoryOut),
    }
}

/// Writes the line of a policy.
fn write_policy<K: Sink>(
    alloc: Global,
    mark: &[u8],
    policy: &Policy,
    sink: &mut K,
    out: &mut Vec<u8>,
) -> Result<(), WriteStop>
    ensures ok { OnOk result (Holds (out.old.items ++ marked mark.now (policy_line policy.now)) (K.taken sink.old)
        (K.taken sink.new) out.new.items) }
    ensures err { OnErr result
        (SaidPart (out.old.items ++ marked mark.now (policy_line policy.now)) (K.taken sink.old) (K.taken sink.new)) }
    ensures later { K.faults sink.old ≤ K.faults sink.new }
    ensures fault { result ≡ Err WriteStop.WriteFault → Rose (K.faults sink.old) (K.faults sink.new) }
{
    match push_policy(alloc, out, mark, policy) {
        Ok(()) => match pass_on(sink, out) {
            Ok(()) => Ok(()),
            Err(_) => Err(WriteStop::WriteFault),
        },
        Err(_) => Err(WriteStop::MemoryOut),
    }
}

/// Writes the lines of principals.
fn write_princs<K: Sink>(
    alloc: Global,
    mark: &[u8],
    princs: &[Boxed<Princ>],
    sink: &mut K,
    out: &mut Vec<u8>,
) -> Result<(), WriteStop>
    requires { All IsRow princs.now }
    ensures ok { OnOk result (Holds (out.old.items ++ flat_map (λ p. marked mark.now (princ_line p)) princs.now)
        (K.taken sink.old) (K.taken sink.new) out.new.items) }
    ensures err { OnErr result (SaidPart (out.old.items ++ flat_map (λ p. marked mark.now (princ_line p)) princs.now)
        (K.taken sink.old) (K.taken sink.new)) }
    ensures later { K.faults sink.old ≤ K.faults sink.new }
    ensures fault { result ≡ Err WriteStop.WriteFault → Rose (K.faults sink.old) (K.faults sink.new) }
{
    for princ in princs {
        match write_princ(alloc, mark, princ.get(), sink, out) {
            Ok(()) => {}
            Err(stop) => return Err(stop),
        }
    }
    Ok(())
}

/// Writes the lines of policies.
fn write_policies<K: Sink>(
    alloc: Global,
    mark: &[u8],
    policies: &[Boxed<Policy>],
    sink: &mut K,
    out: &mut Vec<u8>,
) -> Result<(), WriteStop>
    ensures ok { OnOk result (Holds (out.old.items ++ flat_map (λ p. marked mark.now (policy_line p)) policies.now)
        (K.taken sink.old) (K.taken sink.new) out.new.items) }
    ensures err { OnErr result (SaidPart (out.old.items ++ flat_map (λ p. marked mark.now (policy_line p)) policies.now)
        (K.taken sink.old) (K.taken sink.new)) }
    ensures later { K.faults sink.old ≤ K.faults sink.new }
    ensures fault { result ≡ Err WriteStop.WriteFault → Rose (K.faults sink.old) (K.faults sink.new) }
{
    for policy in policies {
        match write_policy(alloc, mark, policy.get(), sink, out) {
            Ok(()) => {}
            Err(stop) => return Err(stop),
        }
    }
    Ok(())
}

/// Writes the lines of the rows.
#[tactic(auto, unfolding(crate::specs::Dumps::marked_rows))]
fn write_rows<K: Sink>(
    alloc: Global,
    mark: &[u8],
    rows: &Rows,
    sink: &mut K,
    out: &mut Vec<u8>,
) -> Result<(), WriteStop>
    ensures ok { OnOk result
        (Holds (out.old.items ++ marked_rows mark.now rows.now) (K.taken sink.old) (K.taken sink.new) out.new.items) }
    ensures err { OnErr result
        (SaidPart (out.old.items ++ marked_rows mark.now rows.now) (K.taken sink.old) (K.taken sink.new)) }
    ensures later { K.faults sink.old ≤ K.faults sink.new }
    ensures fault { result ≡ Err WriteStop.WriteFault → Rose (K.faults sink.old) (K.faults sink.new) }
{
    match write_princs(alloc, mark, rows.princs(), sink, out) {
        Ok(()) => match write_policies(alloc, mark, rows.policies(), sink, out) {
            Ok(()) => Ok(()),
            Err(stop) => Err(stop),
        },
        Err(stop) => Err(stop),
    }
}

/// Writes the last line, and all that is held.
fn write_end<K: Sink>(
    alloc: Global,
    mark: &[u8],
    count: usize,
    sink: &mut K,
    out: &mut Vec<u8>,
) -> Result<(), WriteStop>
    ensures ok { OnOk result
        (K.taken sink.new ≡ after_told (K.taken sink.old) (out.old.items ++ marked mark.now (end_line count))) }
    ensures err { OnErr result
        (SaidPart (out.old.items ++ marked mark.now (end_line count)) (K.taken sink.old) (K.taken sink.new)) }
    ensures later { K.faults sink.old ≤ K.faults sink.new }
    ensures fault { result ≡ Err WriteStop.WriteFault → Rose (K.faults sink.old) (K.faults sink.new) }
{
    match push_end(alloc, out, mark, count) {
        Ok(()) => match write_whole(sink, out) {
            Ok(()) => Ok(()),
            Err(_) => Err(WriteStop::WriteFault),
        },
        Err(_) => Err(WriteStop::MemoryOut),
    }
}

/// Takes the buffer, and puts into it what stands before the rows.
fn begin(alloc: Global, mark: &[u8], realm: &[u8], point: &Point) -> Result<Vec<u8>, MemoryOut>
    ensures { IfOk result (λ out. out.items ≡ marked_head mark.now Two realm.now point.now) }
{
    let mut out = Vec::with_capacity(alloc, ROOM)?;
    push_head(alloc, &mut out, mark, realm, point)?;
    Ok(out)
}

/// How many rows there are.
fn count_rows(rows: &Rows) -> usize
    ensures { result ≡ row_count rows.now }
{
    rows.princs().len() + rows.policies().len()
}

/// Writes the rows and the last line behind what is held.
fn write_body<K: Sink>(
    alloc: Global,
    mark: &[u8],
    rows: &Rows,
    sink: &mut K,
    out: &mut Vec<u8>,
) -> Result<(), WriteStop>
    ensures ok { OnOk result (K.taken sink.new ≡ after_told (K.taken sink.old)
        (out.old.items ++ (marked_rows mark.now rows.now ++ marked mark.now (end_line (row_count rows.now))))) }
    ensures err { OnErr result
        (SaidPart (out.old.items ++ (marked_rows mark.now rows.now ++ marked mark.now (end_line (row_count rows.now))))
        (K.taken sink.old) (K.taken sink.new)) }
    ensures later { K.faults sink.old ≤ K.faults sink.new }
    ensures fault { result ≡ Err WriteStop.WriteFault → Rose (K.faults sink.old) (K.faults sink.new) }
{
    let count = count_rows(rows);
    match write_rows(alloc, mark, rows, sink, out) {
        Ok(()) => match write_end(alloc, mark, count, sink, out) {
            Ok(()) => Ok(()),
            Err(stop) => Err(stop),
        },
        Err(stop) => Err(stop),
    }
}

/// Writes the dump of a database in the second version with a mark before each line, line by line through a buffer of
/// some 64 KB. After an error the sink has taken a front of it. WriteFault where the sink failed; only want of memory
/// can refuse it otherwise.
#[tactic(auto, unfolding(crate::specs::Dumps::marked_text))]
pub fn write_marked<K: Sink>(
    alloc: Global,
    mark: &[u8],
    realm: &[u8],
    point: Point,
    rows: &Rows,
    sink: &mut K,
) -> Result<(), DumpStop>
    // The sink took these lines, and nothing else.
    ensures ok { OnOk result
        (K.taken sink.new ≡ after_told (K.taken sink.old) (marked_text mark.now Two realm.now point rows.now)) }
    // The sink took a front of them, and nothing else.
    ensures err { OnErr result
        (SaidPart (marked_text mark.now Two realm.now point rows.now) (K.taken sink.old) (K.taken sink.new)) }
    ensures later { K.faults sink.old ≤ K.faults sink.new }
    ensures fault { result ≡ Err DumpStop.WriteFault → Rose (K.faults sink.old) (K.faults sink.new) }
    ensures not_bad { (line : ℕ) → result ≢ Err (DumpStop.DumpBad line) }
{
    match begin(alloc, mark, realm, &point) {
        Ok(mut out) => match write_body(alloc, mark, rows, sink, &mut out) {
            Ok(()) => Ok(()),
            Err(stop) => Err(DumpStop::from(stop)),
        },
        Err(_) => Err(DumpStop::MemoryOut),
    }
}

/// Writes the dump of a database in the second version, line by line through a buffer of some 64 KB. After an error the
/// sink has taken a front of it. WriteFault where the sink failed; only want of memory can refuse it otherwise.
#[tactic(auto, unfolding(crate::specs::Dumps::dump_text, crate::specs::Dumps::head_text, crate::specs::Dumps::marked_head, crate::specs::Dumps::marked_rows, crate::specs::Dumps::marked_text, crate::specs::Dumps::rows_text))]
pub fn write_dump<K: Sink>(
    alloc: Global,
    realm: &[u8],
    point: Point,
    rows: &Rows,
    sink: &mut K,
) -> Result<(), DumpStop>
    // The sink took the dump, and nothing else.
    ensures ok { OnOk result
        (K.taken sink.new ≡ after_told (K.taken sink.old) (dump_text Two realm.now point rows.now)) }
    // The sink took a front of the dump, and nothing else.
    ensures err { OnErr result
        (SaidPart (dump_text Two realm.now point rows.now) (K.taken sink.old) (K.taken sink.new)) }
    ensures later { K.faults sink.old ≤ K.faults sink.new }
    ensures fault { result ≡ Err DumpStop.WriteFault → Rose (K.faults sink.old) (K.faults sink.new) }
    ensures not_bad { (line : ℕ) → result ≢ Err (DumpStop.DumpBad line) }
{
    write_marked(alloc, b"", realm, point, rows, sink)
}
