ghost use Rattle.std.specs.Prelude.{◌≡◌, take, drop};
ghost use Rattle.kdb_control.specs.Force.{slot, newer, newer_of, in_force, slot_bytes};
ghost use Rattle.kdb_control.specs.declared.force.Slot.TheVariants.{Closed, Holds};

use crate::body::read_body;
use crate::choice::Control;
use kdb_disk::OPEN;
use kdb_format::Reader;

/// The length of a slot.
pub const SLOT: usize = 64;

/// The place of the first slot.
pub const FIRST: u64 = 0;

/// The place of the second slot.
pub const SECOND: u64 = 64;

/// What stands in a slot.
#[derive(Clone, Copy, Debug, PartialEq, Eq)]
pub enum Slot {
    /// It is not whole, or its gate is closed.
    Closed,
    /// It is open, and says this.
    Holds(Control),
    /// It is open, and its body is none.
    Torn,
}

/// What the control file has in force.
#[derive(Clone, Copy, Debug, PartialEq, Eq)]
pub enum Force {
    /// No slot is whole and open.
    Nothing,
    /// What the newer open slot says.
    Is(Control),
    /// The open slot at this place has no body, or the slots have the same turn, of which this is the
    /// place of the second.
    Broken(u64),
}

// What stands in a slot of these bytes.
#[tactic(auto, unfolding(crate::specs::Force::slot))]
pub(crate) fn read_slot(bytes: &[u8]) -> Slot
    ensures { result ≡ slot bytes.now }
{
    if bytes.len() < SLOT || bytes[0] != OPEN {
        return Slot::Closed;
    }
    match read_body(&mut Reader::new(&bytes[1..])) {
        Ok(control) => Slot::Holds(control),
        Err(_) => Slot::Torn,
    }
}

// The newer of two open slots.
#[tactic(auto, unfolding(crate::specs::Force::newer_of))]
fn newer_of(first: Control, second: Control) -> Force
    ensures { result ≡ newer_of first second }
{
    if second.turn == first.turn_after() {
        return Force::Is(second);
    }
    if first.turn == second.turn_after() {
        return Force::Is(first);
    }
    Force::Broken(SECOND)
}

// What an open slot and the one behind it have in force.
#[tactic(auto, unfolding(crate::specs::Force::newer))]
fn newer_with(first: Control, second: Slot) -> Force
    ensures { result ≡ newer (Holds first) second }
{
    match second {
        Slot::Closed => Force::Is(first),
        Slot::Holds(second) => newer_of(first, second),
        Slot::Torn => Force::Broken(SECOND),
    }
}

// What a closed slot and the one behind it have in force.
#[tactic(auto, unfolding(crate::specs::Force::newer))]
fn second_alone(second: Slot) -> Force
    ensures { result ≡ newer Closed second }
{
    match second {
        Slot::Closed => Force::Nothing,
        Slot::Holds(second) => Force::Is(second),
        Slot::Torn => Force::Broken(SECOND),
    }
}

// What two slots have in force.
#[tactic(auto, unfolding(crate::specs::Force::newer))]
fn newer(first: Slot, second: Slot) -> Force
    ensures { result ≡ newer first second }
{
    match first {
        Slot::Closed => second_alone(second),
        Slot::Holds(first) => newer_with(first, second),
        Slot::Torn => Force::Broken(FIRST),
    }
}

// What the first 128 bytes of the control file have in force.
#[tactic(auto, unfolding(crate::specs::Force::in_force))]
pub(crate) fn in_force(front: &[u8]) -> Force
    ensures { result ≡ in_force front.now }
{
    newer(slot_at(front, 0), slot_at(front, SLOT))
}

// What stands at this place.
pub(crate) fn slot_at(front: &[u8], at: usize) -> Slot
    ensures { result ≡ slot (slot_bytes at front.now) }
{
    read_slot(bytes_at(front, at))
}

// The bytes of the slot at this place, as far as there are bytes.
#[tactic(auto, unfolding(crate::specs::Force::slot_bytes))]
fn bytes_at(front: &[u8], at: usize) -> &[u8]
    ensures { result.now ≡ slot_bytes at front.now }
{
    front_of(behind(front, at), SLOT)
}

// The bytes from this place on.
fn behind(bytes: &[u8], at: usize) -> &[u8]
    ensures { result.now ≡ drop at bytes.now }
{
    match bytes.get(at..) {
        Some(rest) => rest,
        None => &[],
    }
}

// The first so many bytes, or all.
fn front_of(bytes: &[u8], count: usize) -> &[u8]
    ensures { result.now ≡ take count bytes.now }
{
    match bytes.get(..count) {
        Some(front) => front,
        None => bytes,
    }
}
