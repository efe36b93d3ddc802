ghost use Rattle.std.specs.Prelude.{◌≡◌, ◌≢◌, ◌≤◌, ◌<◌, ◌-◌, ◌+◌, ◌*◌, ◌^◌, ◌∷◌, ◌++◌, All, Contains};
ghost use Rattle.std.specs.Prelude.{length, map, slice_index_or, IfSome, IfOk, OnOk, OnErr, IsErr};
ghost use Rattle.std.specs.Prelude.{IsErrOf, IsTrue, option_to_list, None, Some, Err, [], ℕ, true};
ghost use Rattle.kdb_base.specs.declared.outcomes.Halt.TheVariants.{MemoryOut as IsMemoryOut, DiskFault as IsDiskFault};
ghost use Rattle.kdb_disk.specs.View.{View, IsAfter};
ghost use Rattle.kdb_base.specs.declared.outcomes.Stop.TheVariants.{Halt as Halts};
ghost use Rattle.kdb_disk.specs.Moments.{Differs, Keeps};
ghost use Rattle.kdb_disk.specs.Frames.{IsCall, IsCrashSafe};
ghost use Rattle.princ_rows.specs.declared.entries.Logged.{Logged};
ghost use Rattle.std.specs.VecDeque.{deque_len, deque_capacity};
ghost use Rattle.princ_rows.specs.Entries.{IsOp, logged};
ghost use Rattle.update_log.specs.Slots.{slot_of, Spells, IsSpelled};
ghost use Rattle.update_log.specs.Logs.{IsJournal, ComesNext, entry_of, log_of, marker_of};
ghost use Rattle.update_log.specs.Logs.{with_prepared, log_committed, newest, begun};
ghost use Rattle.update_log.specs.Moments.{HasLog, HasPrepared, IsBodyFor, IsDurable};
ghost use Rattle.update_log.specs.Moments.{LeavesLog, LeavesEither, ReadsOthers};
ghost use Rattle.update_log.specs.Runs.{stands_in};
ghost use Rattle.update_log.specs.Scanning.{scanned, Scans};

use crate::bodies::{holds_entry, write_body};
use crate::running::{hold, holds_ranges};
use crate::scanning::read_slots;
use crate::slots::place_of;
use crate::writes::{write_first, write_next};
use kdb_base::{Halt, MemoryOut, Point, Stop};
use kdb_control::Control;
use kdb_disk::{Disk, DiskFailed, open_gate};
use princ_rows::entry_laws::entries_have_their_lengths;
use princ_rows::{Entry, Logged, Op, copy_entry};
use std::alloc::Global;
use std::collections::VecDeque;
use std::marker::Model;

/// The log of a database's last changes: the entries that its file holds, oldest first, and the one
/// that is prepared and wants no more than an open gate.
#[derive(Debug, Drop)]
pub struct Log {
    file: u8,
    base: Point,
    size: u32,
    block: u32,
    held: VecDeque<Logged>,
    // the queue has room for it
    prepared: Option<Logged>,
}

impl Model for Log {
    ghost use Rattle.std.specs.VecDeque.{deque_len, deque_capacity};
    ghost use Rattle.update_log.specs.Logs.{Journal, IsJournal, HasRoom};

    ghost Value = { Journal };

    ghost view = { λ l. record {
      file = l.file;
      base = l.base;
      size = l.size;
      block = l.block;
      held = l.held.items;
      prepared = l.prepared;
    } };

    ghost invariant = { λ l. IsJournal (record {
      file = l.file;
      base = l.base;
      size = l.size;
      block = l.block;
      held = l.held.items;
      prepared = l.prepared;
    }) × HasRoom (record {
      file = l.file;
      base = l.base;
      size = l.size;
      block = l.block;
      held = l.held.items;
      prepared = l.prepared;
    }) (deque_len l.held) (deque_capacity l.held) };
}

// The base marker.
fn marker_of(base: &Point) -> Logged
    ensures { result ≡ marker_of base.now }
{
    Logged {
        entry: Entry {
            point: *base,
            op: None,
        },
        cell: 0,
    }
}

// Tells a proof that a slot has room for the base marker, and does nothing.
#[tactic(auto, unfolding(princ_rows::specs::Entries::key_of, princ_rows::specs::Entries::row_of))]
fn holds_marker(marker: &Logged, base: &Point, block: u32)
    requires block { 2048 ≤ block }
    requires marker { marker.now ≡ marker_of base.now }
    ensures { IsSpelled block (marker_of base.now) }
{
    entries_have_their_lengths();
    holds_entry(&marker.entry, marker.cell, block);
}

// What is written for the base marker.
pub(crate) fn marker_body(alloc: Global, base: &Point, block: u32) -> Result<Vec<u8>, MemoryOut>
    requires block { (2048 ≤ block) × (block ≤ 16384) }
    ensures long { IfOk result (λ body. length body.items + 1 ≡ block) }
    ensures range { IfOk result (λ body. (1 ≤ length body.items) × (length body.items < 2 ^ 32)) }
    ensures spelled { IfOk result (λ body. Spells block (0 ∷ body.items) (marker_of base.now)) }
{
    let marker = marker_of(base);
    holds_marker(&marker, base, block);
    let body = write_body(alloc, &marker.entry, marker.cell, block);
    drop(marker);
    body
}

// The base marker alone, with room for the entry that comes next, where one is to come.
pub(crate) fn queue_of(
    alloc: Global,
    base: &Point,
    with_next: bool,
) -> Result<VecDeque<Logged>, MemoryOut>
    ensures items { IfOk result (λ held. held.items ≡ marker_of base.now ∷ []) }
    ensures len { IfOk result (λ held. deque_len held ≡ 1) }
    ensures room { IfOk result (λ held. IsTrue with_next → 2 ≤ deque_capacity held) }
{
    let room = if with_next { 2 } else { 1 };
    let mut held = VecDeque::with_capacity(alloc, room)?;
    held.push_back(marker_of(base))?;
    Ok(held)
}

// The log of these entries.
#[tactic(auto, unfolding(kdb_control::specs::Choice::in_ranges))]
fn log_under(control: &Control, held: VecDeque<Logged>) -> Log
    requires len { deque_len held ≡ length held.items }
    requires journal { IsJournal
        (log_of control.now.log control.now.base control.now.size control.now.block held.items) }
    ensures { result ≡ log_of control.now.log control.now.base control.now.size control.now.block held.items }
{
    Log {
        file: control.log,
        base: control.base,
        size: control.size,
        block: control.block,
        held,
        prepared: None,
    }
}

// The log of the base marker alone.
pub(crate) fn log_of(file: u8, base: Point, size: u32, block: u32, held: VecDeque<Logged>) -> Log
    requires file { (3 ≤ file) × (file ≤ 4) }
    requires size { (2 ≤ size) × (size ≤ 10000) }
    requires block { (2048 ≤ block) × (block ≤ 16384) }
    requires items { held.items ≡ marker_of base ∷ [] }
    requires len { deque_len held ≡ 1 }
    ensures { result ≡ begun file base size block }
{
    let marker = marker_of(&base);
    holds_marker(&marker, &base, block);
    drop(marker);
    Log {
        file,
        base,
        size,
        block,
        held,
        prepared: None,
    }
}

// Makes room for one entry more, and gives the entry back.
fn make_room(held: &mut VecDeque<Logged>, entry: Logged) -> Result<Logged, MemoryOut>
    ensures entry { IfOk result (λ e. e ≡ entry) }
    ensures items { held.new.items ≡ held.old.items }
    ensures len { deque_len held.new ≡ deque_len held.old }
    ensures room { OnOk result (deque_len held.new < deque_capacity held.new) }
{
    held.reserve(1)?;
    Ok(entry)
}

fn set(place: &mut Option<Logged>, entry: Logged)
    ensures { place.new ≡ Some entry }
{
    drop(place.replace(entry));
}

// Takes what is prepared as the newest entry.
fn add_prepared(held: &mut VecDeque<Logged>, prepared: &mut Option<Logged>)
    requires { (next : Logged) → prepared.old ≡ Some next → deque_len held.old < deque_capacity held.old }
    ensures items { held.new.items ≡ held.old.items ++ option_to_list prepared.old }
    ensures len { deque_len held.old ≡ length held.old.items → deque_len held.new ≡ length held.new.items }
    ensures prepared { prepared.new ≡ None }
{
    if let Some(entry) = prepared.take() {
        held.push_back_reserved(entry);
    }
}

// Lets go of the oldest entry, where there is one too many.
fn keep_newest(held: &mut VecDeque<Logged>, size: usize)
    requires len { deque_len held.old ≡ length held.old.items }
    requires few { length held.old.items ≤ size + 1 }
    ensures items { held.new.items ≡ newest size held.old.items }
    ensures len { deque_len held.new ≡ length held.new.items }
{
    if held.len() > size {
        drop(held.pop_front());
    }
}

impl Log {
    /// Makes the log anew: its file is cut to nothing, on the disk, and the base marker is written by
    /// the gate. Memory is taken before the first device call.
    ///
    /// At each moment a crash leaves all other files as before. After `Ok` it leaves of the log's file
    /// what a read gives. Where `next` is given, the entry of
    /// this change is to be prepared next, and its place among those that are held is reserved.
    ///
    /// `file` is 3 or 4, `size` the number of entries that the log holds, and `block` the length of
    /// their slots in bytes.
    pub fn make<D: Disk>(
        alloc: Global,
        disk: &mut D,
        file: u8,
        base: Point,
        size: u32,
        block: u32,
        next: Option<&Op>,
    ) -> Result<Log, Halt>
        requires file { (3 ≤ file) × (file ≤ 4) }
        requires size { (2 ≤ size) × (size ≤ 10000) }
        requires block { (2048 ≤ block) × (block ≤ 16384) }
        ensures crash { IsCrashSafe D.Disk disk.old disk.new (IsAfter (Differs file) (D.view disk.old)) }
        ensures ok { IfOk result (λ log. log ≡ begun file base size block) }
        ensures log { D.tells → OnOk result (HasLog (begun file base size block) (D.view disk.new)) }
        ensures durable { D.tells → OnOk result (IsDurable file (D.view disk.new)) }
        ensures others { D.tells → OnOk result (ReadsOthers file (D.view disk.old) (D.view disk.new)) }
        ensures memory { IsErrOf result IsMemoryOut → disk.new ≡ disk.old }
        ensures call { IsCall D.Disk disk.old disk.new (IsErrOf result IsDiskFault) }
    {
        let body = match marker_body(alloc, &base, block) {
            Ok(body) => body,
            Err(_) => return Err(Halt::MemoryOut),
        };
        let held = match queue_of(alloc, &base, next.is_some()) {
            Ok(held) => held,
            Err(_) => return Err(Halt::MemoryOut),
        };
        match write_first(disk, file, &body) {
            Ok(()) => Ok(log_of(file, base, size, block, held)),
            Err(_) => Err(Halt::DiskFault),
        }
    }

    /// The log of a database whose control file has this in force, read from its file. Refused as damaged
    /// where a slot is open and no entry of its own stands in it, or one that doesn't run on to the
    /// last entry, or where no slot is open: at the place of the first such slot.
    ///
    /// The file is read once, in pieces, and its entries are kept in memory.
    pub fn scan<D: Disk>(alloc: Global, disk: &mut D, control: &Control) -> Result<Log, Stop>
        ensures answer { D.tells → Scans result (scanned control.now ((D.view disk.old).seen control.now.log)) }
        ensures log { D.tells → IsDurable control.now.log (D.view disk.old)
            → IfOk result (λ log. HasLog log (D.view disk.new)) }
        // whatever the disk tells
        ensures chosen { IfOk result
            (λ log. log ≡ log_of control.now.log control.now.base control.now.size control.now.block log.held) }
        ensures stands { IfOk result (λ log. All (λ l. stands_in control.now.format l ≡ true) log.held) }
        ensures keeps { D.tells → Keeps (D.view disk.old) (D.view disk.new) }
        ensures call { IsCall D.Disk disk.old disk.new (result ≡ Err (Halts IsDiskFault)) }
    {
        holds_ranges(control);
        let slots = match read_slots(alloc, disk, control) {
            Ok(slots) => slots,
            Err(stop) => return Err(stop),
        };
        match hold(alloc, control, slots) {
            Ok(held) => Ok(log_under(control, held)),
            Err(stop) => Err(stop),
        }
    }

    /// The points of the first and of the last entry that the log holds.
    pub fn held(&self) -> (Point, Point)
        ensures first { (d : Logged) → result.0 ≡ (slice_index_or self.now.held 0 d).entry.point }
        ensures last { (d : Logged)
            → result.1 ≡ (slice_index_or self.now.held (length self.now.held - 1) d).entry.point }
        ensures serials { (i : ℕ) (d : Logged) → i < length self.now.held
            → (slice_index_or self.now.held i d).entry.point.sno ≡ result.0.sno + i }
    {
        let first = self.held[0].entry.point;
        let last = self.held[self.held.len() - 1].entry.point;
        (first, last)
    }

    /// Tells a proof that the log's numbers are in their ranges, and that the entries that it holds run
    /// on one by one, never back in time, and have their spellings. It does nothing.
    pub fn holds_journal(&self)
        ensures { IsJournal self.now }
    {
        let _ = &self.held;
    }

    /// The entry of this serial, where the log holds it.
    pub fn entry(&self, sno: u32) -> Option<&Entry>
        ensures some { IfSome result (λ e. Contains (map entry_of self.now.held) e.now × (e.now.point.sno ≡ sno)) }
        ensures none { result ≡ None → All (λ l. l.entry.point.sno ≢ sno) self.now.held }
    {
        match self.find(sno) {
            Some(found) => Some(&found.entry),
            None => None,
        }
    }

    // The entry of this serial with the number of its unit.
    fn find(&self, sno: u32) -> Option<&Logged>
        ensures some { IfSome result (λ l. Contains self.now.held l.now × (l.now.entry.point.sno ≡ sno)) }
        ensures none { result ≡ None → All (λ l. l.entry.point.sno ≢ sno) self.now.held }
    {
        let first = self.held[0].entry.point.sno;
        if sno < first {
            return None;
        }
        self.held.get((sno - first) as usize)
    }

    /// The number of the unit that the last entry changes, 0 where it changes none.
    pub fn last_cell(&self) -> u32
        ensures { (d : Logged) → result ≡ (slice_index_or self.now.held (length self.now.held - 1) d).cell }
    {
        self.held[self.held.len() - 1].cell
    }

    /// The last entry.
    pub fn last(&self) -> &Entry
        ensures { (d : Logged) → result.now ≡ (slice_index_or self.now.held (length self.now.held - 1) d).entry }
    {
        &self.held[self.held.len() - 1].entry
    }

    /// The file of the log, 3 or 4.
    pub fn in_file(&self) -> u8
        ensures value { result ≡ self.now.file }
        ensures low { 3 ≤ result }
        ensures high { result ≤ 4 }
    {
        self.file
    }

    // Tells a proof that what is prepared comes next, and does nothing.
    fn holds_prepared(&self)
        ensures { (next : Logged) → self.now.prepared ≡ Some next → ComesNext self.now.held next }
    {
        let _ = &self.held;
    }

    // Forgets what is prepared.
    fn forget(&mut self)
        ensures { self.new ≡ with_prepared None self.old }
    {
        drop(self.prepared.take());
    }

    // Notes that the entry is prepared, with room for it among those that are held.
    fn note(&mut self, entry: Logged) -> Result<(), MemoryOut>
        requires comes { ComesNext self.old.held entry }
        requires spelled { IsSpelled self.old.block entry }
        ensures ok { OnOk result (self.new ≡ with_prepared (Some entry) self.old) }
        ensures err { OnErr result (self.new ≡ with_prepared None self.old) }
    {
        self.forget();
        match make_room(&mut self.held, entry) {
            Ok(entry) => {
                set(&mut self.prepared, entry);
                Ok(())
            }
            Err(memory) => Err(memory),
        }
    }

    /// Prepares the next entry in memory, and gives what is written for it by [`Log::write_ready`]. All memory
    /// that the entry needs is taken. What was prepared before is prepared no more.
    ///
    /// `cell` is the number of the unit that the entry changes, 0 where it changes none.
    pub fn ready(&mut self, alloc: Global, entry: &Entry, cell: u32) -> Result<Vec<u8>, MemoryOut>
        requires comes { ComesNext self.old.held (record { entry = entry.now; cell = cell }) }
        requires fits { IsOp entry.now.op }
        requires short { length (logged (record { entry = entry.now; cell = cell })) ≤ self.old.block - 1 }
        ensures ok { OnOk result
            (self.new ≡ with_prepared (Some (record { entry = entry.now; cell = cell })) self.old) }
        ensures err { OnErr result (self.new ≡ with_prepared None self.old) }
        ensures body { IfOk result
            (λ body. IsBodyFor (record { entry = entry.now; cell = cell }) self.old.block body.items) }
    {
        holds_entry(entry, cell, self.block);
        self.forget();
        let body = write_body(alloc, entry, cell, self.block)?;
        let entry = copy_entry(alloc, entry)?;
        self.note(Logged { entry, cell })?;
        Ok(body)
    }

    // The place of the slot of an entry that comes next.
    fn place(&self, entry: &Entry, cell: u32) -> u64
        requires { ComesNext self.now.held (record { entry = entry.now; cell = cell }) }
        ensures value { result ≡ slot_of self.now.base self.now.size entry.now.point.sno * self.now.block }
        ensures small { result < 2 ^ 32 }
    {
        place_of(&self.base, self.size, self.block, entry.point.sno)
    }

    /// Writes the entry that is prepared behind a closed gate, on the disk: [`Log::open_prepared`] opens it.
    /// `body` is what [`Log::ready`] gave for it. It takes no memory.
    ///
    /// At each moment a crash leaves the entries that are held, and all other files as before. The
    /// log's file is not synced first: it is durable after [`NewLog::write`] and after [`Log::open_prepared`].
    ///
    /// [`NewLog::write`]: crate::NewLog::write
    pub fn write_ready<D: Disk>(
        &self,
        disk: &mut D,
        entry: &Entry,
        cell: u32,
        body: &[u8],
    ) -> Result<(), DiskFailed>
        requires ready { self.now.prepared ≡ Some (record { entry = entry.now; cell = cell }) }
        requires body { IsBodyFor (record { entry = entry.now; cell = cell }) self.now.block body.now }
        requires log { D.tells → HasLog self.now (D.view disk.old) }
        requires durable { D.tells → IsDurable self.now.file (D.view disk.old) }
        ensures crash { IsCrashSafe D.Disk disk.old disk.new (LeavesLog self.now (D.view disk.old)) }
        ensures prepared { D.tells → OnOk result (HasPrepared self.now (D.view disk.new)) }
        ensures others { D.tells → OnOk result (ReadsOthers self.now.file (D.view disk.old) (D.view disk.new)) }
        ensures call { IsCall D.Disk disk.old disk.new (IsErr result) }
    {
        self.holds_journal();
        self.holds_prepared();
        let at = self.place(entry, cell);
        write_next(disk, self.in_file(), at, body)
    }

    /// Writes the next entry behind a closed gate, on the disk: [`Log::commit`] opens it. Memory is
    /// taken before the first device call. What was prepared before is prepared no more.
    ///
    /// At each moment a crash leaves the entries that are held, and all other files as before. The
    /// log's file is not synced first: it is durable after [`Log::make`] and after [`Log::commit`].
    ///
    /// `cell` is the number of the unit that the entry changes, 0 where it changes none.
    pub fn prepare<D: Disk>(
        &mut self,
        alloc: Global,
        disk: &mut D,
        entry: &Entry,
        cell: u32,
    ) -> Result<(), Halt>
        requires comes { ComesNext self.old.held (record { entry = entry.now; cell = cell }) }
        requires fits { IsOp entry.now.op }
        requires short { length (logged (record { entry = entry.now; cell = cell })) ≤ self.old.block - 1 }
        requires log { D.tells → HasLog self.old (D.view disk.old) }
        requires durable { D.tells → IsDurable self.old.file (D.view disk.old) }
        ensures crash { IsCrashSafe D.Disk disk.old disk.new (LeavesLog self.old (D.view disk.old)) }
        ensures prepared { D.tells → OnOk result (HasPrepared self.new (D.view disk.new)) }
        ensures others { D.tells → OnOk result (ReadsOthers self.old.file (D.view disk.old) (D.view disk.new)) }
        ensures ok { OnOk result
            (self.new ≡ with_prepared (Some (record { entry = entry.now; cell = cell })) self.old) }
        ensures err { OnErr result (self.new ≡ with_prepared None self.old) }
        ensures memory { result ≡ Err IsMemoryOut → disk.new ≡ disk.old }
        ensures call { IsCall D.Disk disk.old disk.new (result ≡ Err IsDiskFault) }
    {
        let body = match self.ready(alloc, entry, cell) {
            Ok(body) => body,
            Err(_) => return Err(Halt::MemoryOut),
        };
        match self.write_ready(disk, entry, cell, &body) {
            Ok(()) => Ok(()),
            Err(_) => {
                self.forget();
                Err(Halt::DiskFault)
            }
        }
    }

    /// Takes what is prepared as the newest entry, and lets go of the oldest where there are too many. It
    /// takes no memory.
    pub fn take_prepared(&mut self)
        ensures { self.new ≡ log_committed self.old }
    {
        add_prepared(&mut self.held, &mut self.prepared);
        keep_newest(&mut self.held, self.size as usize);
    }

    // The place of the slot of the entry that is prepared.
    fn prepared_place(&self) -> u64
        ensures value { (next : Logged) → self.now.prepared ≡ Some next
            → result ≡ slot_of self.now.base self.now.size next.entry.point.sno * self.now.block }
        ensures small { result < 2 ^ 32 }
        ensures size { 0 < self.now.size }
        ensures block { 0 < self.now.block }
    {
        match &self.prepared {
            Some(next) => place_of(&self.base, self.size, self.block, next.entry.point.sno),
            None => 0,
        }
    }

    /// Opens the gate of the entry that is prepared, on the disk. In memory it is prepared still, until
    /// [`Log::take_prepared`]. It takes no memory.
    ///
    /// At each moment a crash leaves the old entries or the new ones, and all other files as before.
    /// After `Ok` it leaves of the log's file what a read gives.
    pub fn open_prepared<D: Disk>(&self, disk: &mut D) -> Result<(), DiskFailed>
        requires ready { self.now.prepared ≢ None }
        requires log { D.tells → HasPrepared self.now (D.view disk.old) }
        ensures crash { IsCrashSafe D.Disk disk.old disk.new
            (LeavesEither self.now (log_committed self.now) (D.view disk.old)) }
        ensures log { D.tells → OnOk result (HasLog (log_committed self.now) (D.view disk.new)) }
        ensures durable { D.tells → OnOk result (IsDurable self.now.file (D.view disk.new)) }
        ensures others { D.tells → OnOk result (ReadsOthers self.now.file (D.view disk.old) (D.view disk.new)) }
        ensures call { IsCall D.Disk disk.old disk.new (IsErr result) }
    {
        let at = self.prepared_place();
        open_gate(disk, self.in_file(), at)
    }

    /// Opens the gate of the entry that is prepared, and takes it as the newest. It takes no memory.
    ///
    /// At each moment a crash leaves the old entries or the new ones, and all other files as before.
    /// After `Ok` it leaves of the log's file what a read gives.
    pub fn commit<D: Disk>(&mut self, disk: &mut D) -> Result<(), DiskFailed>
        requires ready { self.old.prepared ≢ None }
        requires log { D.tells → HasPrepared self.old (D.view disk.old) }
        ensures crash { IsCrashSafe D.Disk disk.old disk.new
            (LeavesEither self.old (log_committed self.old) (D.view disk.old)) }
        ensures log { D.tells → OnOk result (HasLog self.new (D.view disk.new)) }
        ensures durable { D.tells → OnOk result (IsDurable self.new.file (D.view disk.new)) }
        ensures others { D.tells → OnOk result (ReadsOthers self.old.file (D.view disk.old) (D.view disk.new)) }
        ensures ok { OnOk result (self.new ≡ log_committed self.old) }
        ensures err { OnErr result (self.new ≡ self.old) }
        ensures call { IsCall D.Disk disk.old disk.new (IsErr result) }
    {
        match self.open_prepared(disk) {
            Ok(()) => {
                self.take_prepared();
                Ok(())
            }
            Err(failed) => Err(failed),
        }
    }
}
