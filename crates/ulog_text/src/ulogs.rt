//! A log as lines.

ghost use Rattle.std.specs.Prelude.{◌≡◌, ◌++◌, ◌-◌, IfOk, OnOk, drop, length, map, slice_index_or};
ghost use Rattle.kadm_replies.specs.Texts.{field_line};
ghost use Rattle.kadm_values.specs.Points.{point_text};
ghost use Rattle.iprop_reply.specs.Polls.{AreHeld};
ghost use Rattle.kdb_base.specs.declared.moments.Point.{Point as At};
ghost use Rattle.princ_rows.specs.declared.entries.Entry.{Entry as Held};
ghost use Rattle.ulog_text.specs.Ulogs.{entries_text, size_text, ulog_text};
ghost use Rattle.update_log.specs.Logs.{entry_of};

use crate::entries::push_entry;
use kadm_replies::texts::{push, push_line};
use kadm_values::push_point;
use kdb_base::{Blob, MemoryOut, Point};
use std::alloc::Global;
use update_log::Log;

// The lines of the entries behind the first one. What the log does not hold is answered by want of memory: it holds all
// that come behind one that it holds.
fn push_behind(
    alloc: Global,
    out: &mut Vec<u8>,
    log: &Log,
    first: u32,
    last: u32,
) -> Result<(), MemoryOut>
    ensures { (begin end : At) → AreHeld begin end (map entry_of log.now.held) → begin.sno ≡ first → end.sno ≡ last
        → OnOk result (out.new.items ≡ out.old.items ++ entries_text (drop 1 (map entry_of log.now.held))) }
{
    for behind in first..last {
        match log.entry(behind + 1) {
            Some(entry) => push_entry(alloc, out, entry)?,
            None => return Err(MemoryOut),
        }
    }
    Ok(())
}

// The lines of the entries, from the first one on.
fn push_entries(alloc: Global, out: &mut Vec<u8>, log: &Log) -> Result<(), MemoryOut>
    ensures { OnOk result (out.new.items ≡ out.old.items ++ entries_text (map entry_of log.now.held)) }
{
    log.holds_journal();
    let held = log.held();
    match log.entry(held.0.sno) {
        Some(entry) => push_entry(alloc, out, entry)?,
        None => return Err(MemoryOut),
    }
    push_behind(alloc, out, log, held.0.sno, held.1.sno)
}

// A line of a word and a point.
#[tactic(auto, unfolding(kadm_replies::specs::Texts::field_line, kadm_replies::specs::Texts::data_line))]
fn push_field_point(
    alloc: Global,
    out: &mut Vec<u8>,
    word: &[u8],
    point: &Point,
) -> Result<(), MemoryOut>
    ensures { OnOk result (out.new.items ≡ out.old.items ++ field_line word.now (point_text point.now)) }
{
    push(out, b"- ")?;
    push(out, word)?;
    push(out, b" ")?;
    push_point(alloc, out, point)?;
    push(out, b"\n")?;
    Ok(())
}

#[tactic(auto, unfolding(crate::specs::Ulogs::size_text))]
fn push_size(alloc: Global, out: &mut Vec<u8>, size: u32, block: u32) -> Result<(), MemoryOut>
    ensures { OnOk result (out.new.items ≡ out.old.items ++ size_text size block) }
{
    let text = format!(in alloc; "size {size} block {block}")?;
    push_line(out, text.as_bytes())
}

/// The log as lines: its first and its last point, the most entries that it holds and the length of its blocks, and
/// each entry that it holds, from its base marker or the oldest of the last changes on.
///
/// # Errors
///
/// `MemoryOut` where memory is wanted and not given.
pub fn print_ulog(alloc: Global, log: &Log, size: u32, block: u32) -> Result<Blob, MemoryOut>
    ensures { (d : Held) → IfOk result (λ text. text ≡ ulog_text (slice_index_or (map entry_of log.now.held) 0 d).point
        (slice_index_or (map entry_of log.now.held) (length log.now.held - 1) d).point size block
        (map entry_of log.now.held)) }
{
    log.holds_journal();
    let held = log.held();
    let mut out = Vec::new(alloc);
    push_field_point(alloc, &mut out, b"first", &held.0)?;
    push_field_point(alloc, &mut out, b"last", &held.1)?;
    push_size(alloc, &mut out, size, block)?;
    push_entries(alloc, &mut out, log)?;
    push(&mut out, b"ok\n")?;
    Ok(Blob::from_vec(out))
}
