//! The units of a file of cells in memory: to which unit each key leads, and which units are free.
ghost use Rattle.std.specs.Prelude.{◌≡◌, ◌≢◌, ◌≤◌, ◌<◌, ◌+◌, ◌^◌, ℕ, true, false, List, Some};
ghost use Rattle.std.specs.Prelude.{None, length, max, if◌then◌else◌, IfOk, OnOk, OnErr};
ghost use Rattle.std.specs.Str.{bytes_eq};
ghost use Rattle.std.specs.BinaryHeap.{heap_items, heap_len, heap_capacity};
ghost use Rattle.indexmap.specs.IndexMap.{spare};
ghost use Rattle.kdb_base.specs.Limits.{most_rows};
ghost use Rattle.kdb_cells.specs.Leads.{IsFree, IsLeastFree, no_units, giving, unless};
ghost use Rattle.kdb_cells.specs.Leads.{freed, leading, more_led, more_free, more_given};
ghost use Rattle.kdb_cells.specs.Sheets.{last_unit};
ghost use Rattle.kdb_cells.specs.Indexes.{Entries, unit_of, unit_given, units, count, taken, IsIndex};
ghost use Rattle.kdb_cells.specs.declared.index.Spot.TheVariants as spot;

use indexmap::IndexMap;
use kdb_base::{Blob, MemoryOut};
use std::alloc::Global;
use std::cmp::Reverse;
use std::collections::BinaryHeap;
use std::marker::Model;

/// Where a unit that was given stands.
#[derive(Clone, Copy, Debug)]
enum Spot {
    /// The entry at this index leads to it.
    Led(usize),
    /// It was taken from the free units.
    Taken,
    /// It is the first one past the file's end.
    Next,
}

/// A unit that was given for the change that comes next.
#[derive(Clone, Copy, Debug)]
struct Placed {
    unit: u32,
    spot: Spot,
}

/// The units of a file: to which unit each key leads, the free units below the file's end, and the
/// unit that was given for the change that comes next.
#[derive(Drop)]
pub struct UnitIndex {
    entries: IndexMap<Vec<u8>, u32>,
    free: BinaryHeap<Reverse<u32>>,
    next: u64,
    // where there is one, there is room for an entry more and for a free unit more
    placed: Option<Placed>,
}

impl Model for UnitIndex {
    ghost use Rattle.std.specs.BinaryHeap.{heap_items, heap_len, heap_capacity};
    ghost use Rattle.indexmap.specs.IndexMap.{spare};
    ghost use Rattle.kdb_cells.specs.Indexes.{Index, unit_given, IsIndex, HasRoom};

    ghost Value = { Index };

    ghost view = { λ x. record { entries = x.entries.entries; next = x.next; placed = unit_given x.placed } };

    ghost invariant = { λ x. IsIndex x.entries.entries (heap_items x.free) x.next x.placed
        × HasRoom (spare x.entries) (heap_len x.free) (heap_capacity x.free) x.placed };
}

// Whether the key leads to a unit.
fn leads(entries: &IndexMap<Vec<u8>, u32>, key: &[u8]) -> bool
    ensures led { result ≡ true → unit_of entries.now.entries key.now ≢ None }
    ensures not_led { result ≡ false → unit_of entries.now.entries key.now ≡ None }
{
    match entries.get(key) {
        Some(_) => true,
        None => false,
    }
}

// The unit that was taken, and to which no key leads, is free.
fn set_free(free: &mut BinaryHeap<Reverse<u32>>, unit: u32)
    requires room { heap_len free.old < heap_capacity free.old }
    ensures { (entries : Entries) (next : ℕ)
        → IsIndex entries (heap_items free.old) next (Some (record { unit = unit; spot = spot.Taken }))
        → IsIndex entries (heap_items free.new) next None }
{
    free.push(Reverse(unit)).unwrap();
}

// Gives back the unit that was taken from the free ones, where one was.
fn give_back(free: &mut BinaryHeap<Reverse<u32>>, placed: Option<Placed>)
    requires room { 0 < taken placed → heap_len free.old < heap_capacity free.old }
    ensures { (entries : Entries) (next : ℕ) → IsIndex entries (heap_items free.old) next placed
        → IsIndex entries (heap_items free.new) next None }
{
    match placed {
        Some(
            Placed {
                unit,
                spot: Spot::Taken,
            },
        ) => set_free(free, unit),
        _ => {}
    }
}

// Takes memory for one entry more, and for one free unit more.
fn make_room(
    entries: &mut IndexMap<Vec<u8>, u32>,
    free: &mut BinaryHeap<Reverse<u32>>,
) -> Result<(), MemoryOut>
    ensures entries { entries.new.entries ≡ entries.old.entries }
    ensures free { heap_items free.new ≡ heap_items free.old }
    ensures spare { OnOk result (0 < spare entries.new) }
    ensures capacity { OnOk result (heap_len free.new < heap_capacity free.new) }
{
    entries.reserve(1)?;
    free.reserve(1)?;
    Ok(())
}

// Takes the least free unit, or the first one past the end.
fn take_free(
    entries: &IndexMap<Vec<u8>, u32>,
    free: &mut BinaryHeap<Reverse<u32>>,
    next: u64,
) -> Placed
    requires index { IsIndex entries.now.entries (heap_items free.old) next None }
    ensures index { IsIndex entries.now.entries (heap_items free.new) next (Some result) }
    ensures least { IsLeastFree result.unit
        (units (record { entries = entries.now.entries; next = next; placed = None })) }
    ensures high { result.unit ≤ next }
    ensures room { heap_len free.old < heap_capacity free.old → heap_len free.new < heap_capacity free.new }
{
    let _count = entries.len();
    match free.pop() {
        Some(Reverse(unit)) => Placed {
            unit,
            spot: Spot::Taken,
        },
        None => Placed {
            unit: next as u32,
            spot: Spot::Next,
        },
    }
}

// The key's unit, or the least free one.
fn pick(
    entries: &IndexMap<Vec<u8>, u32>,
    free: &mut BinaryHeap<Reverse<u32>>,
    next: u64,
    key: &[u8],
) -> Placed
    requires index { IsIndex entries.now.entries (heap_items free.old) next None }
    ensures index { IsIndex entries.now.entries (heap_items free.new) next (Some result) }
    ensures own { (i : ℕ) → unit_of entries.now.entries key.now ≡ Some i → result.unit ≡ i }
    ensures new { unit_of entries.now.entries key.now ≡ None
        → IsLeastFree result.unit (units (record { entries = entries.now.entries; next = next; placed = None })) }
    ensures low { 1 ≤ result.unit }
    ensures high { result.unit ≤ next }
    ensures room { heap_len free.old < heap_capacity free.old → heap_len free.new < heap_capacity free.new }
{
    match entries.get_full(key) {
        Some((at, _, unit)) => Placed {
            unit: *unit,
            spot: Spot::Led(at),
        },
        None => take_free(entries, free, next),
    }
}

// Has no key lead to the unit, which is then in the file. The first unit past the end is told.
fn detach(
    entries: &mut IndexMap<Vec<u8>, u32>,
    free: &BinaryHeap<Reverse<u32>>,
    next: u64,
    placed: &Placed,
) -> u64
    requires index { IsIndex entries.old.entries (heap_items free.now) next (Some placed.now) }
    ensures index { IsIndex entries.new.entries (heap_items free.now) result
        (Some (record { unit = placed.now.unit; spot = spot.Taken })) }
    ensures of { (key : List ℕ)
        → unit_of entries.new.entries key ≡ unless placed.now.unit (unit_of entries.old.entries key) }
    ensures next { result ≡ max next (placed.now.unit + 1) }
    ensures spare { spare entries.old ≤ spare entries.new }
    ensures as_many { IsFree placed.now.unit
        (units (record { entries = entries.old.entries; next = next; placed = None }))
        → length entries.new.entries ≡ length entries.old.entries }
    ensures few { (IsFree placed.now.unit (units (record { entries = entries.old.entries; next = next; placed = None }))
        → length entries.old.entries < most_rows) → length entries.new.entries < most_rows }
    ensures fewer { (key : List ℕ) → unit_of entries.old.entries key ≡ Some placed.now.unit
        → length entries.new.entries + 1 ≡ length entries.old.entries }
{
    let _count = entries.len();
    match placed.spot {
        Spot::Led(at) => {
            let _entry = entries.swap_remove_index(at);
            next
        }
        Spot::Taken => next,
        Spot::Next => next + 1,
    }
}

// Has the key lead to the unit, to which no key leads.
fn attach(
    entries: &mut IndexMap<Vec<u8>, u32>,
    free: &BinaryHeap<Reverse<u32>>,
    next: u64,
    unit: u32,
    key: Vec<u8>,
)
    requires spare { 0 < spare entries.old }
    requires index { IsIndex entries.old.entries (heap_items free.now) next
        (Some (record { unit = unit; spot = spot.Taken })) }
    requires new { unit_of entries.old.entries key.items ≡ None }
    requires few { length entries.old.entries < most_rows }
    ensures index { IsIndex entries.new.entries (heap_items free.now) next None }
    ensures of { (k : List ℕ)
        → unit_of entries.new.entries k ≡ (if bytes_eq key.items k then Some unit else unit_of entries.old.entries k) }
    ensures more { length entries.new.entries ≡ length entries.old.entries + 1 }
{
    let _old = entries.insert(key, unit).unwrap();
}

// The unit past the end joins the file, and the key leads to it. The unit that is then past the end
// is told.
fn extend(
    entries: &mut IndexMap<Vec<u8>, u32>,
    free: &BinaryHeap<Reverse<u32>>,
    next: u64,
    placed: &Option<Placed>,
    key: Vec<u8>,
) -> u64
    requires spare { 2 ≤ spare entries.old }
    requires index { IsIndex entries.old.entries (heap_items free.now) next placed.now }
    requires other { (unit : ℕ) → unit_given placed.now ≡ Some unit → unit < next }
    requires near { next ≤ last_unit }
    requires new { unit_of entries.old.entries key.items ≡ None }
    requires few { length entries.old.entries < most_rows }
    ensures index { IsIndex entries.new.entries (heap_items free.now) result placed.now }
    ensures of { (k : List ℕ)
        → unit_of entries.new.entries k ≡ (if bytes_eq key.items k then Some next else unit_of entries.old.entries k) }
    ensures next { result ≡ next + 1 }
    ensures more { length entries.new.entries ≡ length entries.old.entries + 1 }
    ensures spare { 1 ≤ spare entries.new }
{
    let _old = entries.insert(key, next as u32).unwrap();
    next + 1
}

// The unit past the end joins the file, and is free. The unit that is then past the end is told.
fn extend_free(
    entries: &IndexMap<Vec<u8>, u32>,
    free: &mut BinaryHeap<Reverse<u32>>,
    next: u64,
    placed: &Option<Placed>,
) -> u64
    requires room { heap_len free.old + 2 ≤ heap_capacity free.old }
    requires end { next + 1 < 2 ^ 64 }
    requires index { IsIndex entries.now.entries (heap_items free.old) next placed.now }
    requires other { (unit : ℕ) → unit_given placed.now ≡ Some unit → unit < next }
    ensures index { IsIndex entries.now.entries (heap_items free.new) result placed.now }
    ensures next { result ≡ next + 1 }
    ensures room { heap_len free.new < heap_capacity free.new }
{
    if next > u64::from(u32::MAX) {
        return next + 1;
    }
    free.push(Reverse(next as u32)).unwrap();
    next + 1
}

impl UnitIndex {
    /// No keys, and the file's first unit, in which no row stands.
    pub fn new(alloc: Global) -> UnitIndex
        ensures units { units result ≡ no_units }
        ensures count { count result ≡ 0 }
    {
        UnitIndex {
            entries: IndexMap::new(alloc),
            free: BinaryHeap::new(alloc),
            next: 1,
            placed: None,
        }
    }

    /// How many keys there are.
    pub fn len(&self) -> usize
        ensures { result ≡ count self.now }
    {
        self.entries.len()
    }

    /// The first unit past the file's end.
    pub fn next(&self) -> u64
        ensures { result ≡ self.now.next }
    {
        self.next
    }

    /// The unit that was given for the change that comes next.
    pub fn given(&self) -> Option<u32>
        ensures { result ≡ self.now.placed }
    {
        match self.placed {
            Some(placed) => Some(placed.unit),
            None => None,
        }
    }

    /// Whether the key leads to a unit.
    pub fn holds(&self, key: &[u8]) -> bool
        ensures led { result ≡ true → (units self.now).of key.now ≢ None }
        ensures not_led { result ≡ false → (units self.now).of key.now ≡ None }
    {
        leads(&self.entries, key)
    }

    /// Gives a unit for the change that comes next: the key's own, or the least free one, or the
    /// first one past the file's end. What that change needs of memory is taken here.
    pub fn place(&mut self, key: &[u8]) -> Result<u32, MemoryOut>
        // at an error, no unit is given
        ensures err { OnErr result (units self.new ≡ giving None (units self.old)) }
        ensures ready { IfOk result (λ unit. units self.new ≡ giving (Some unit) (units self.old)) }
        ensures low { IfOk result (λ unit. 1 ≤ unit) }
        ensures high { IfOk result (λ unit. unit ≤ self.old.next) }
        ensures own { (i : ℕ) → (units self.old).of key.now ≡ Some i → IfOk result (λ unit. unit ≡ i) }
        ensures new { (units self.old).of key.now ≡ None → IfOk result (λ unit. IsLeastFree unit (units self.old)) }
        ensures count { count self.new ≡ count self.old }
    {
        let placed = self.placed.take();
        give_back(&mut self.free, placed);
        make_room(&mut self.entries, &mut self.free)?;
        let placed = pick(&self.entries, &mut self.free, self.next, key);
        let unit = placed.unit;
        self.placed = Some(placed);
        Ok(unit)
    }

    /// The first unit past the file's end joins the file, and this key leads to it.
    pub fn add_led(&mut self, key: Blob) -> Result<(), MemoryOut>
        requires near { self.old.next ≤ last_unit }
        requires new { (units self.old).of key ≡ None }
        requires few { count self.old < most_rows }
        requires other { (unit : ℕ) → self.old.placed ≡ Some unit → unit < self.old.next }
        ensures units { OnOk result (units self.new ≡ more_led key (units self.old)) }
        ensures count { OnOk result (count self.new ≡ count self.old + 1) }
    {
        self.entries.reserve(2)?;
        self.next = extend(
            &mut self.entries,
            &self.free,
            self.next,
            &self.placed,
            key.into_vec(),
        );
        Ok(())
    }

    /// The first unit past the file's end joins the file, and no key leads to it.
    pub fn add_free(&mut self) -> Result<(), MemoryOut>
        requires end { self.old.next + 1 < 2 ^ 64 }
        requires other { (unit : ℕ) → self.old.placed ≡ Some unit → unit < self.old.next }
        ensures units { OnOk result (units self.new ≡ more_free (units self.old)) }
        ensures count { OnOk result (count self.new ≡ count self.old) }
    {
        self.free.reserve(2)?;
        self.next = extend_free(&self.entries, &mut self.free, self.next, &self.placed);
        Ok(())
    }

    /// The first unit past the file's end joins the file, and is given for the change that comes next.
    /// What that change needs of memory is taken here.
    pub fn add_given(&mut self) -> Result<(), MemoryOut>
        requires near { self.old.next ≤ last_unit }
        requires none { self.old.placed ≡ None }
        ensures units { OnOk result (units self.new ≡ more_given (units self.old)) }
        ensures count { OnOk result (count self.new ≡ count self.old) }
    {
        make_room(&mut self.entries, &mut self.free)?;
        self.placed = Some(Placed {
            unit: self.next as u32,
            spot: Spot::Taken,
        });
        self.next += 1;
        Ok(())
    }

    /// Has the key lead to the unit that was given, and no other key. It takes no memory.
    pub fn lead(&mut self, unit: u32, key: Blob)
        requires ready { self.old.placed ≡ Some unit }
        // the key leads to no other unit
        requires alone { (i : ℕ) → (units self.old).of key ≡ Some i → i ≡ unit }
        requires few { IsFree unit (units self.old) → count self.old < most_rows }
        ensures units { units self.new ≡ leading key unit (units self.old) }
        ensures more { IsFree unit (units self.old) → count self.new ≡ count self.old + 1 }
        ensures as_many { (k : List ℕ) → (units self.old).of k ≡ Some unit → count self.new ≡ count self.old }
    {
        match self.placed.take() {
            Some(placed) => {
                self.next = detach(&mut self.entries, &self.free, self.next, &placed);
                attach(
                    &mut self.entries,
                    &self.free,
                    self.next,
                    unit,
                    key.into_vec(),
                );
            }
            None => {}
        }
    }

    /// Frees the unit that was given: no key leads to it. It takes no memory.
    pub fn free(&mut self, unit: u32)
        requires ready { self.old.placed ≡ Some unit }
        ensures units { units self.new ≡ freed unit (units self.old) }
        ensures as_many { IsFree unit (units self.old) → count self.new ≡ count self.old }
        ensures fewer { (k : List ℕ) → (units self.old).of k ≡ Some unit → count self.new + 1 ≡ count self.old }
    {
        match self.placed.take() {
            Some(placed) => {
                self.next = detach(&mut self.entries, &self.free, self.next, &placed);
                set_free(&mut self.free, unit);
            }
            None => {}
        }
    }
}
