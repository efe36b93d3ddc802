//! The entries that run on to the last one of a log, among those that stand in its slots.
ghost use Rattle.std.specs.Prelude.{◌≡◌, ◌≢◌, ◌≤◌, ◌+◌, ◌*◌, ℕ, true, Ok, Err};
ghost use Rattle.std.specs.Prelude.{length, min, option_map, IfOk, IfErr, IfSome};
ghost use Rattle.std.specs.List.{All};
ghost use Rattle.std.specs.VecDeque.{deque_len};
ghost use Rattle.kdb_base.specs.Moments.{micros as micros_of};
ghost use Rattle.kdb_base.specs.declared.outcomes.Stop.TheVariants.{Refused, Halt as Halts};
ghost use Rattle.kdb_base.specs.declared.outcomes.Halt.TheVariants.{DiskFault as IsDiskFault};
ghost use Rattle.kdb_base.specs.declared.outcomes.Refusal.TheVariants.{Damaged};
ghost use Rattle.update_log.specs.Logs.{log_of, IsJournal};
ghost use Rattle.update_log.specs.Runs.{stands_in, later, goes_before, if_before, before, is_left, first_of};
ghost use Rattle.update_log.specs.Scanning.{log_found, read_at, AreRead, run_to, last_in, held_in, IsRunEnd};

use crate::slots::slot_of;
use kdb_base::{Halt, MemoryOut, Refusal, Stop, Time};
use kdb_control::Control;
use princ_rows::Logged;
use std::alloc::Global;
use std::collections::VecDeque;

/// The run to the last entry of a log: the serial of that entry, and how many there are.
#[derive(Debug, Drop)]
struct Run {
    last: u32,
    len: u32,
}

/// Tells a proof that the numbers of the log are in their ranges, and does nothing.
#[tactic(auto, unfolding(kdb_control::specs::Choice::in_ranges))]
pub(crate) fn holds_ranges(control: &Control)
    ensures file { (3 ≤ control.now.log) × (control.now.log ≤ 4) }
    ensures size { (2 ≤ control.now.size) × (control.now.size ≤ 10000) }
    ensures block { (2048 ≤ control.now.block) × (control.now.block ≤ 16384) }
{
    let _size = control.size;
}

// The entry that was read in this slot.
fn read_at(slots: &[Option<Logged>], slot: usize) -> Option<&Logged>
    ensures { option_map (λ l. l.now) result ≡ read_at slots.now slot }
{
    if slot >= slots.len() {
        return None;
    }
    match &slots[slot] {
        Some(logged) => Some(logged),
        None => None,
    }
}

// The one with the greater serial.
fn later<'a>(last: Option<&'a Logged>, other: Option<&'a Logged>) -> Option<&'a Logged>
    ensures { option_map (λ l. l.now) result
        ≡ later (option_map (λ l. l.now) last.entry) (option_map (λ l. l.now) other.entry) }
{
    match last {
        None => other,
        Some(a) => match other {
            Some(b) if a.entry.point.sno < b.entry.point.sno => Some(b),
            _ => Some(a),
        },
    }
}

// The entry of the greatest serial.
fn last_entry<'a>(control: &Control, slots: &'a [Option<Logged>]) -> Option<&'a Logged>
    requires { length slots.now ≤ control.now.size + 1 }
    ensures { option_map (λ l. l.now) result ≡ last_in control.now slots.now }
{
    let mut last = None;
    for slot in 0..slots.len() {
        last = later(last, read_at(slots, slot));
    }
    last
}

// The microseconds since 1970.
fn micros(time: &Time) -> u64
    ensures { result ≡ micros_of time.now }
{
    u64::from(time.secs()) * 1_000_000 + u64::from(time.usecs())
}

// Whether the entry comes directly before the other, and not at a later time.
fn goes_before(logged: &Logged, next: &Logged) -> bool
    ensures { result ≡ goes_before logged.now next.now }
{
    u64::from(logged.entry.point.sno) + 1 == u64::from(next.entry.point.sno)
        && micros(&logged.entry.point.time) <= micros(&next.entry.point.time)
}

// The entry, where it comes directly before the other.
fn if_before<'a>(next: &Logged, logged: Option<&'a Logged>) -> Option<&'a Logged>
    ensures { option_map (λ l. l.now) result ≡ if_before next.now (option_map (λ l. l.now) logged.entry) }
{
    match logged {
        Some(logged) if goes_before(logged, next) => Some(logged),
        _ => None,
    }
}

// The entry directly before this one.
#[tactic(auto, unfolding(crate::specs::Runs::before, kdb_control::specs::Choice::in_ranges))]
fn before<'a>(control: &Control, slots: &'a [Option<Logged>], next: &Logged) -> Option<&'a Logged>
    ensures { option_map (λ l. l.now) result ≡ before control.now.base control.now.size (read_at slots.now) next.now }
{
    if next.entry.point.sno <= control.base.sno {
        return None;
    }
    let slot = slot_of(&control.base, control.size, next.entry.point.sno - 1);
    if_before(next, read_at(slots, slot as usize))
}

// How many entries run on to this one.
fn run_len(control: &Control, slots: &[Option<Logged>], last: &Logged) -> u32
    ensures value { result ≡ length (run_to control.now slots.now last.now) }
    ensures some { 1 ≤ result }
{
    holds_ranges(control);
    let mut next = last;
    let mut len = 1;
    for _ in 0..control.size {
        match before(control, slots, next) {
            Some(logged) => next = logged,
            None => return len,
        }
        len += 1;
    }
    len
}

// Whether the run of this length to the entry of this serial leaves the entry out.
fn is_left(run: &Run, logged: Option<&Logged>) -> bool
    ensures { result ≡ is_left run.now.last run.now.len (option_map (λ l. l.now) logged.entry) }
{
    match logged {
        Some(logged) => {
            u64::from(logged.entry.point.sno) + u64::from(run.len) <= u64::from(run.last)
        }
        None => false,
    }
}

// The first slot whose entry the run leaves out.
fn first_left(control: &Control, slots: &[Option<Logged>], run: &Run) -> Option<usize>
    requires { length slots.now ≤ control.now.size + 1 }
    ensures place { IfSome result (λ slot. slot ≤ control.now.size) }
    ensures first { result
        ≡ first_of (λ k. is_left run.now.last run.now.len (read_at slots.now k)) 0 (control.now.size + 1) }
{
    for slot in 0..slots.len() {
        if is_left(run, read_at(slots, slot)) {
            return Some(slot);
        }
    }
    None
}

// The run to the last entry, or the slot that it leaves out.
fn find_run(control: &Control, slots: &[Option<Logged>]) -> Result<Run, usize>
    requires { length slots.now ≤ control.now.size + 1 }
    ensures run { IfOk result (λ run. IsRunEnd control.now slots.now run.last run.len) }
    ensures left { (slot : ℕ) → result ≡ Err slot → held_in control.now slots.now ≡ Err (slot * control.now.block) }
    ensures place { IfErr result (λ slot. slot ≤ control.now.size) }
{
    let last = match last_entry(control, slots) {
        Some(last) => last,
        None => return Err(0),
    };
    let run = Run {
        last: last.entry.point.sno,
        len: run_len(control, slots, last),
    };
    match first_left(control, slots, &run) {
        Some(slot) => Err(slot),
        None => Ok(run),
    }
}

// How many entries of the run the log holds.
fn held_count(run: &Run, size: u32) -> u32
    ensures { result ≡ min run.now.len size }
{
    if run.len < size { run.len } else { size }
}

// Takes the entry out of this slot.
fn take_at(slots: &mut Vec<Option<Logged>>, slot: usize) -> Option<Logged>
    ensures taken { result ≡ read_at slots.old.items slot }
    ensures others { (k : ℕ) → k ≢ slot → read_at slots.new.items k ≡ read_at slots.old.items k }
{
    match slots.get_mut(slot) {
        Some(place) => place.take(),
        None => None,
    }
}

// The last entries of the run, of which the log holds so many, taken out of their slots.
#[tactic(auto, unfolding(kdb_control::specs::Choice::in_ranges))]
fn take_run(
    alloc: Global,
    control: &Control,
    mut slots: Vec<Option<Logged>>,
    run: &Run,
) -> Result<VecDeque<Logged>, MemoryOut>
    requires read { AreRead control.now slots.items }
    requires run { IsRunEnd control.now slots.items run.now.last run.now.len }
    ensures held { IfOk result (λ held. held_in control.now slots.items ≡ Ok held.items) }
    ensures len { IfOk result (λ held. deque_len held ≡ length held.items) }
    ensures journal { IfOk result
        (λ held. IsJournal (log_of control.now.log control.now.base control.now.size control.now.block held.items)) }
    ensures stands { IfOk result (λ held. All (λ l. stands_in control.now.format l ≡ true) held.items) }
{
    holds_ranges(control);
    let count = held_count(run, control.size);
    let mut held = VecDeque::with_capacity(alloc, count as usize)?;
    for more in 0..count {
        let sno = run.last - (count - 1 - more);
        let slot = slot_of(&control.base, control.size, sno);
        if let Some(logged) = take_at(&mut slots, slot as usize) {
            held.push_back(logged)?;
        }
    }
    Ok(held)
}

/// The slot of the log's file is damaged.
#[tactic(auto, unfolding(kdb_control::specs::Choice::in_ranges))]
pub(crate) fn damaged(control: &Control, slot: usize) -> Stop
    requires { slot ≤ control.now.size }
    ensures { result ≡ Refused (Damaged control.now.log (slot * control.now.block)) }
{
    Stop::Refused(Refusal::Damaged {
        file: control.log,
        place: slot as u64 * u64::from(control.block),
    })
}

/// The entries that the log holds where these were read, oldest first, or the place of the slot that
/// is damaged.
pub(crate) fn hold(
    alloc: Global,
    control: &Control,
    slots: Vec<Option<Logged>>,
) -> Result<VecDeque<Logged>, Stop>
    requires read { AreRead control.now slots.items }
    requires few { length slots.items ≤ control.now.size + 1 }
    ensures held { IfOk result (λ held. held_in control.now slots.items ≡ Ok held.items) }
    ensures len { IfOk result (λ held. deque_len held ≡ length held.items) }
    ensures journal { IfOk result
        (λ held. IsJournal (log_of control.now.log control.now.base control.now.size control.now.block held.items)) }
    ensures stands { IfOk result (λ held. All (λ l. stands_in control.now.format l ≡ true) held.items) }
    ensures refused { (r : Refusal) → result ≡ Err (Refused r)
        → log_found control.now (held_in control.now slots.items) ≡ Err r }
    ensures cause { result ≡ Err (Halts IsDiskFault) → ⊥ }
{
    let run = match find_run(control, &slots) {
        Ok(run) => run,
        Err(slot) => return Err(damaged(control, slot)),
    };
    match take_run(alloc, control, slots, &run) {
        Ok(held) => Ok(held),
        Err(_) => Err(Stop::Halt(Halt::MemoryOut)),
    }
}
