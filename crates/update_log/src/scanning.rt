//! The slots of a log's file, read from a disk.
ghost use Rattle.std.specs.Prelude.{◌≡◌, ◌≤◌, ◌<◌, ◌+◌, ◌/◌, ◌∷◌, ◌++◌, [], ℕ};
ghost use Rattle.std.specs.Prelude.{Some, Err, length, take, drop, IfOk, OnOk};
ghost use Rattle.kdb_base.specs.declared.outcomes.Refusal.{Refusal};
ghost use Rattle.kdb_base.specs.declared.outcomes.Stop.TheVariants.{Refused, Halt as Halts};
ghost use Rattle.kdb_base.specs.declared.outcomes.Halt.TheVariants.{DiskFault as IsDiskFault};
ghost use Rattle.kdb_disk.specs.Frames.{IsCall};
ghost use Rattle.kdb_disk.specs.Moments.{Keeps};
ghost use Rattle.kdb_disk.specs.Reader.{left_of, IsOver};
ghost use Rattle.kdb_disk.specs.View.{View};
ghost use Rattle.princ_rows.specs.declared.entries.Logged.{Logged as LoggedEntry};
ghost use Rattle.update_log.specs.Runs.{slot_in};
ghost use Rattle.update_log.specs.Scanning.{scanned, AreRead, HasSlots, IsRead, SlotAnswers};

use crate::reading::read_slot;
use crate::running::damaged;
use kdb_base::{Halt, MemoryOut, Stop};
use kdb_control::Control;
use kdb_disk::{Disk, FileReader};
use kdb_format::FormatFault;
use princ_rows::Logged;
use std::alloc::Global;
use std::cmp::min;

// Reads the next slot.
#[tactic(auto, unfolding(kdb_control::specs::Choice::in_ranges))]
fn next_slot<D: Disk>(
    alloc: Global,
    disk: &mut D,
    control: &Control,
    reader: &mut FileReader,
    slot: usize,
) -> Result<Option<Logged>, Stop>
    requires slot { slot ≤ control.now.size }
    requires over { D.tells → IsOver reader.old (D.view disk.old).seen }
    ensures found { D.tells → SlotAnswers result control.now slot (slot_in control.now.format control.now.base
        control.now.size control.now.block slot (take control.now.block (left_of reader.old (D.view disk.old).seen))) }
    ensures read { (l : LoggedEntry) → IfOk result (λ o. o ≡ Some l → IsRead control.now slot l) }
    ensures left { D.tells → OnOk result (left_of reader.new (D.view disk.new).seen
        ≡ drop control.now.block (left_of reader.old (D.view disk.old).seen)) }
    ensures over { D.tells → IsOver reader.new (D.view disk.new).seen }
    ensures keeps { D.tells → Keeps (D.view disk.old) (D.view disk.new) }
    ensures call { IsCall D.Disk disk.old disk.new (result ≡ Err (Halts IsDiskFault)) }
{
    let block = control.block as usize;
    match reader.fill(disk, block) {
        Ok(()) => {}
        Err(halt) => return Err(Stop::Halt(halt)),
    }
    let count = min(block, reader.held().len());
    let found = match read_slot(alloc, control, slot as u32, &reader.held()[..count]) {
        Ok(found) => found,
        Err(FormatFault::Malformed) => return Err(damaged(control, slot)),
        Err(FormatFault::MemoryOut) => return Err(Stop::Halt(Halt::MemoryOut)),
    };
    reader.take(count);
    Ok(found)
}

// Adds what was read in a slot.
fn push_slot(slots: &mut Vec<Option<Logged>>, found: Option<Logged>) -> Result<(), MemoryOut>
    ensures { OnOk result (slots.new.items ≡ slots.old.items ++ found ∷ []) }
{
    slots.push(found)?;
    Ok(())
}

// How many whole slots a file of this length has, as far as the log goes.
#[tactic(auto, unfolding(kdb_control::specs::Choice::in_ranges))]
fn slot_count(control: &Control, length: u64) -> usize
    ensures most { result ≤ control.now.size + 1 }
    ensures past { (k : ℕ) → result ≤ k → k ≤ control.now.size → length / control.now.block ≤ k }
    ensures some { 0 < control.now.block }
{
    let whole = length / u64::from(control.block);
    if whole < u64::from(control.size) + 1 {
        whole as usize
    } else {
        control.size as usize + 1
    }
}

/// The entries in the slots of the log's file, in one reading of the file.
#[tactic(auto, unfolding(kdb_control::specs::Choice::in_ranges))]
pub(crate) fn read_slots<D: Disk>(
    alloc: Global,
    disk: &mut D,
    control: &Control,
) -> Result<Vec<Option<Logged>>, Stop>
    ensures slots { D.tells
        → IfOk result (λ slots. HasSlots control.now ((D.view disk.old).seen control.now.log) slots.items) }
    ensures read { IfOk result (λ slots. AreRead control.now slots.items) }
    ensures few { IfOk result (λ slots. length slots.items ≤ control.now.size + 1) }
    ensures refused { D.tells → (r : Refusal) → result ≡ Err (Refused r)
        → scanned control.now ((D.view disk.old).seen control.now.log) ≡ Err r }
    ensures keeps { D.tells → Keeps (D.view disk.old) (D.view disk.new) }
    ensures call { IsCall D.Disk disk.old disk.new (result ≡ Err (Halts IsDiskFault)) }
{
    let length = match disk.length(control.log) {
        Ok(length) => length,
        Err(_) => return Err(Stop::Halt(Halt::DiskFault)),
    };
    let mut reader = match FileReader::open(alloc, disk, control.log, 0) {
        Ok(reader) => reader,
        Err(_) => return Err(Stop::Halt(Halt::DiskFault)),
    };
    let count = slot_count(control, length);
    let mut slots = Vec::new(alloc);
    for slot in 0..count {
        let found = match next_slot(alloc, disk, control, &mut reader, slot) {
            Ok(found) => found,
            Err(stop) => return Err(stop),
        };
        match push_slot(&mut slots, found) {
            Ok(()) => {}
            Err(_) => return Err(Stop::Halt(Halt::MemoryOut)),
        }
    }
    Ok(slots)
}
