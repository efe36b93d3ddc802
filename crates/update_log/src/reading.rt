//! What one slot of a log's file holds, read from its bytes.
ghost use Rattle.std.specs.Prelude.{◌≡◌, ◌≤◌, true, length, Some, IfOk};
ghost use Rattle.kdb_format.specs.Answers.{Finds};
ghost use Rattle.princ_rows.specs.Entries.{IsOp};
ghost use Rattle.princ_rows.specs.declared.entries.Logged.{Logged as LoggedEntry};
ghost use Rattle.update_log.specs.Slots.{IsSpelled};
ghost use Rattle.update_log.specs.Runs.{is_open, spelled_in, stands_in_1, stands_in};
ghost use Rattle.update_log.specs.Runs.{is_marker, is_marked, belongs, slot_in};
ghost use Rattle.update_log.specs.Scanning.{IsRead};

use crate::slots::slot_of;
use kdb_base::Point;
use kdb_control::Control;
use kdb_disk::OPEN;
use kdb_format::format::read_padded;
use kdb_format::{FormatFault, Reader};
use princ_record::is_row_1;
use princ_rows::entries::{LoggedFormat, kind_of};
use princ_rows::{Logged, Op};
use std::alloc::Global;

// A slot is open where it is whole and its gate is.
#[tactic(auto, unfolding(crate::specs::Runs::is_open))]
fn is_open(block: u32, bytes: &[u8]) -> bool
    requires { 1 ≤ block }
    ensures value { result ≡ is_open block bytes.now }
    ensures whole { result ≡ true → length bytes.now ≡ block }
{
    bytes.len() == block as usize && bytes[0] == OPEN
}

// The entry behind the gate, with zeros behind it.
fn read_entry(alloc: Global, block: u32, bytes: &[u8]) -> Result<Logged, FormatFault>
    requires some { 1 ≤ block }
    requires whole { length bytes.now ≡ block }
    ensures found { Finds result (spelled_in block bytes.now) }
    ensures spelled { IfOk result (λ l. IsSpelled block l) }
{
    let mut reader = Reader::new(&bytes[1..]);
    reader.holds_bytes();
    read_padded::<LoggedFormat>(alloc, &mut reader, bytes.len() - 1)
}

// Whether the change's row may stand in format 1.
#[tactic(auto, unfolding(crate::specs::Runs::stands_in_1))]
fn stands_in_1(op: &Option<Op>) -> bool
    requires { IsOp op.now }
    ensures { result ≡ stands_in_1 op.now }
{
    match op {
        Some(Op::PutPrinc(princ)) => is_row_1(princ),
        Some(Op::Rename(_, princ)) => is_row_1(princ),
        _ => true,
    }
}

// Whether the entry's row may stand in this format.
fn stands_in(format: u16, logged: &Logged) -> bool
    requires { IsOp logged.now.entry.op }
    ensures { result ≡ stands_in format logged.now }
{
    format != 1 || stands_in_1(&logged.entry.op)
}

// Whether the entry, which has the base's serial, is the base marker.
fn is_marker(base: &Point, logged: &Logged) -> bool
    ensures { result ≡ is_marker base.now logged.now }
{
    let time = &logged.entry.point.time;
    kind_of(&logged.entry.op) == 0
        && logged.cell == 0
        && time.secs() == base.time.secs()
        && time.usecs() == base.time.usecs()
}

// Whether the entry is the base marker exactly where it has the base's serial.
fn is_marked(base: &Point, logged: &Logged) -> bool
    ensures { result ≡ is_marked base.now logged.now }
{
    if logged.entry.point.sno == base.sno {
        is_marker(base, logged)
    } else {
        0 < kind_of(&logged.entry.op)
    }
}

// Whether the entry is of this slot.
#[tactic(auto, unfolding(crate::specs::Runs::belongs, kdb_control::specs::Choice::in_ranges))]
fn belongs(control: &Control, slot: u32, logged: &Logged) -> bool
    requires { IsOp logged.now.entry.op }
    ensures { result ≡ belongs control.now.format control.now.base control.now.size slot logged.now }
{
    control.base.sno <= logged.entry.point.sno
        && slot_of(&control.base, control.size, logged.entry.point.sno) == slot
        && is_marked(&control.base, logged)
        && stands_in(control.format, logged)
}

/// The entry that a slot of these bytes holds, or None where it is closed. Malformed where it is open
/// and no entry of this slot stands in it.
#[tactic(auto, unfolding(crate::specs::Runs::slot_in, kdb_control::specs::Choice::in_ranges))]
pub(crate) fn read_slot(
    alloc: Global,
    control: &Control,
    slot: u32,
    bytes: &[u8],
) -> Result<Option<Logged>, FormatFault>
    ensures found { Finds result
        (slot_in control.now.format control.now.base control.now.size control.now.block slot bytes.now) }
    ensures read { (l : LoggedEntry) → IfOk result (λ o. o ≡ Some l → IsRead control.now slot l) }
{
    if !is_open(control.block, bytes) {
        return Ok(None);
    }
    let logged = read_entry(alloc, control.block, bytes)?;
    if !belongs(control, slot, &logged) {
        drop(logged);
        return Err(FormatFault::Malformed);
    }
    Ok(Some(logged))
}
