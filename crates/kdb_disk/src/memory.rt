//! A disk in memory, for tests of what stands above a disk.
ghost use Rattle.std.specs.Prelude.{◌≡◌, ◌≤◌, ◌<◌, ◌+◌, ◌-◌, ◌∷◌, [], ℕ, List, Vec, ◌^◌, length};
ghost use Rattle.std.specs.Prelude.{take, drop, Contains, IfOk, IsErr, IsTrue, OnOk, OnErr, ◌↔◌};
ghost use Rattle.std.specs.declared.alloc.Global.{Global};
ghost use Rattle.std.proofs.Props.{props};
ghost use Rattle.kdb_base.specs.Causes.{Rose, HasCause};
ghost use Rattle.kdb_disk.specs.Files.{Files, written, with_file};
ghost use Rattle.kdb_disk.specs.View.{View, Torn, Frayed, Follows, Elapses, Looks};
ghost use Rattle.kdb_disk.specs.declared.record.Call.TheVariants.{Wrote, Cut, Synced, Looked};
ghost use Rattle.kdb_disk.specs.Memory.{contents, view_of, IsKept, Fits-prop, image_of};
ghost use Rattle.kdb_disk.specs.Calls.{counted_up, AddsWrite, LooksAtMost};

use crate::contents::{copy_from, cut_file, file_at, write_file};
use crate::disk::{Disk, DiskFailed};
use crate::record::{Call, Pick};
use crate::replay::redo;
use crate::whole::FILES;
use kdb_base::{Fails, MemoryOut};
use std::alloc::Global;
use std::collections::VecDeque;

/// Seven files in memory. A crash may leave of them what it may leave of a disk: it keeps what they
/// held at first and each call since.
#[derive(Drop)]
pub struct MemoryDisk {
    alloc: Global,
    // what the files held at first
    start: Vec<Vec<u8>>,
    // what they read now
    files: Vec<Vec<u8>>,
    // each call, the newest first
    calls: VecDeque<Call>,
    fails: Fails,
    faults: u64,

    ghost kept: { IsKept start.items files.items calls.items } by { Prim.hlevel (props, Fits-prop) },
}

// Puts a call into the record, where there is memory for it.
fn record(calls: &mut VecDeque<Call>, call: Call) -> Result<(), DiskFailed>
    ensures call { OnOk result (calls.new.items ≡ call ∷ calls.old.items) }
    ensures same { OnErr result (calls.new.items ≡ calls.old.items) }
{
    match calls.push_front(call) {
        Ok(()) => Ok(()),
        Err(_) => Err(DiskFailed),
    }
}

// Records a call that changes nothing, where there is memory for it.
fn record_look(calls: &mut VecDeque<Call>) -> Result<(), DiskFailed>
    ensures call { OnOk result (calls.new.items ≡ Looked ∷ calls.old.items) }
    ensures same { OnErr result (calls.new.items ≡ calls.old.items) }
    ensures at_most { LooksAtMost calls.old.items calls.new.items }
    ensures looks { (start : Files) → Looks (view_of start calls.old.items) (view_of start calls.new.items) }
    ensures kept { (start files : List (Vec ℕ Global)) → IsKept start files calls.old.items
        → IsKept start files calls.new.items }
{
    record(calls, Call::Looked)
}

// Records a write and does it, or does neither.
fn record_write(
    calls: &mut VecDeque<Call>,
    files: &mut Vec<Vec<u8>>,
    file: u8,
    at: u64,
    bytes: &[u8],
    copy: Vec<u8>,
) -> Result<(), DiskFailed>
    requires file { file < 7 }
    requires files { length files.old.items ≡ 7 }
    requires at { at ≤ length (contents files.old.items file) }
    requires copy { copy.items ≡ bytes.now }
    ensures call { OnOk result (calls.new.items ≡ Wrote file at copy ∷ calls.old.items) }
    ensures same { OnErr result (calls.new.items ≡ calls.old.items) }
    ensures kept { (start : List (Vec ℕ Global)) → IsKept start files.old.items calls.old.items
        → IsKept start files.new.items calls.new.items }
{
    let call = Call::Wrote {
        file,
        at,
        bytes: copy,
    };
    record(calls, call)?;
    match write_file(files, file, at as usize, bytes) {
        Ok(()) => Ok(()),
        Err(_) => {
            let _unwritten = calls.pop_front();
            Err(DiskFailed)
        }
    }
}

// As many files with nothing in them as a disk has.
fn empty_files(alloc: Global) -> Result<Vec<Vec<u8>>, MemoryOut>
    ensures seven { IfOk result (λ files. length files.items ≡ 7) }
    ensures empty { IfOk result (λ files. (f : ℕ) → contents files.items f ≡ []) }
{
    let mut files = Vec::new(alloc);
    for _ in 0..FILES {
        files.push(Vec::new(alloc))?;
    }
    Ok(files)
}

fn copy_files(alloc: Global, files: &Vec<Vec<u8>>) -> Result<Vec<Vec<u8>>, MemoryOut>
    ensures long { IfOk result (λ copy. length copy.items ≡ length files.now.items) }
    ensures same { IfOk result (λ copy. (f : ℕ) → contents copy.items f ≡ contents files.now.items f) }
{
    let mut copy = Vec::new(alloc);
    for file in files {
        copy.push(file.to_vec(alloc)?)?;
    }
    Ok(copy)
}

impl MemoryDisk {
    ghost use Rattle.kdb_disk.specs.Parts.{start_of, calls_of, next_call, fails_of, faults_of, known_of};
    ghost use Rattle.kdb_disk.specs.Moments.{IsSettled};
    ghost use Rattle.kdb_disk.specs.Inside.{calls_inside, pending_inside, MayLeaveInside, IsPicked};

    /// Seven empty files with nothing pending, of which these calls are to fail: their numbers are
    /// counted from 0 over all calls of the disk.
    pub fn new(alloc: Global, fails: Fails) -> Result<MemoryDisk, MemoryOut>
        ensures empty { IfOk result (λ d. (f : ℕ) → (⟦<MemoryDisk as Disk>⟧.view d).seen f ≡ []) }
        ensures settled { IfOk result (λ d. IsSettled (⟦<MemoryDisk as Disk>⟧.view d)) }
        ensures calls { IfOk result (λ d. (⟦<MemoryDisk as Disk>⟧.view d).moment ≡ 0) }
        ensures faults { IfOk result (λ d. ⟦<MemoryDisk as Disk>⟧.faults d ≡ 0) }
        ensures fails { IfOk result (λ d. fails_of d ≡ fails) }
    {
        let start = empty_files(alloc)?;
        let files = empty_files(alloc)?;
        Ok(MemoryDisk {
            alloc,
            start,
            files,
            calls: VecDeque::new(alloc),
            fails,
            faults: 0,
        })
    }

    // A disk with these files and nothing pending.
    fn holding(alloc: Global, files: Vec<Vec<u8>>) -> Result<MemoryDisk, MemoryOut>
        requires { length files.items ≡ 7 }
        ensures seen { IfOk result (λ d. (f : ℕ) → (⟦<MemoryDisk as Disk>⟧.view d).seen f ≡ contents files.items f) }
        ensures settled { IfOk result (λ d. IsSettled (⟦<MemoryDisk as Disk>⟧.view d)) }
        ensures calls { IfOk result (λ d. (⟦<MemoryDisk as Disk>⟧.view d).moment ≡ 0) }
        ensures faults { IfOk result (λ d. ⟦<MemoryDisk as Disk>⟧.faults d ≡ 0) }
        ensures fails { IfOk result (λ d. fails_of d ≡ []) }
    {
        let start = copy_files(alloc, &files)?;
        Ok(MemoryDisk {
            alloc,
            start,
            files,
            calls: VecDeque::new(alloc),
            fails: Fails::none(alloc),
            faults: 0,
        })
    }

    /// How many calls are in the record.
    pub fn calls(&self) -> u64
        ensures { result ≡ (⟦<MemoryDisk as Disk>⟧.view self.now).moment }
    {
        self.calls.len() as u64
    }

    // How many calls count inside a call: a sync has done nothing yet.
    fn count_inside(&self, call: usize) -> usize
        requires { call < length self.now.calls.items }
        ensures count { result ≤ length self.now.calls.items }
        ensures at_least { call ≤ result }
        ensures calls { drop (length self.now.calls.items - result) self.now.calls.items ≡ calls_inside self.now call }
    {
        match &self.calls[self.calls.len() - 1 - call] {
            Call::Synced { .. } => call,
            _ => call + 1,
        }
    }

    /// A disk that is one image of the moment inside the call of this number, counted from 0. It has
    /// nothing pending, and none of its calls is to fail.
    pub fn image_at(&self, alloc: Global, call: u64, pick: Pick) -> Result<MemoryDisk, MemoryOut>
        requires { call < (⟦<MemoryDisk as Disk>⟧.view self.now).moment }
        // a crash inside that call may leave it
        ensures inside { IfOk result (λ d. MayLeaveInside self.now call (⟦<MemoryDisk as Disk>⟧.view d).seen) }
        ensures left { IfOk result
            (λ d. (⟦<MemoryDisk as Disk>⟧.view self.now).left_since call (⟦<MemoryDisk as Disk>⟧.view d).seen) }
        ensures picked { IfOk result (λ d. (f : ℕ) → f < 7
            → IsPicked pick (pending_inside self.now call f) ((⟦<MemoryDisk as Disk>⟧.view d).seen f)) }
        ensures settled { IfOk result (λ d. IsSettled (⟦<MemoryDisk as Disk>⟧.view d)) }
        ensures calls { IfOk result (λ d. (⟦<MemoryDisk as Disk>⟧.view d).moment ≡ 0) }
        ensures faults { IfOk result (λ d. ⟦<MemoryDisk as Disk>⟧.faults d ≡ 0) }
        ensures fails { IfOk result (λ d. fails_of d ≡ []) }
    {
        let count = self.count_inside(call as usize);
        let mut files = Vec::new(alloc);
        for file in 0..FILES {
            let redone = redo(alloc, file_at(&self.start, file), &self.calls, count, file)?;
            files.push(redone.image(alloc, pick)?)?;
        }
        MemoryDisk::holding(alloc, files)
    }

    /// What a file reads.
    pub fn bytes(&self, file: u8) -> &[u8]
        requires { file < 7 }
        ensures { result.now ≡ (⟦<MemoryDisk as Disk>⟧.view self.now).seen file }
    {
        file_at(&self.files, file)
    }

    // Whether the next call is to fail.
    fn is_due(&self) -> bool
        ensures { IsTrue result ↔ Contains (fails_of self.now) (next_call self.now) }
    {
        self.fails.contains(self.calls.len() as u64)
    }

    // A call that fails. Where there is memory for it, it is in the record as one that changes nothing.
    fn fail(&mut self) -> DiskFailed
        ensures looks { Looks (known_of self.old) (known_of self.new) }
        ensures refused { LooksAtMost (calls_of self.old) (calls_of self.new) }
        ensures start { start_of self.new ≡ start_of self.old }
        ensures fails { fails_of self.new ≡ fails_of self.old }
        ensures failed { faults_of self.new ≡ counted_up (faults_of self.old) }
        ensures rose { Rose (faults_of self.old) (faults_of self.new) }
        ensures later { faults_of self.old ≤ faults_of self.new }
    {
        let _recorded = record_look(&mut self.calls);
        self.faults = self.faults.saturating_add(1);
        DiskFailed
    }

    // A call that changes nothing.
    fn look(&mut self) -> Result<(), DiskFailed>
        ensures looks { Looks (known_of self.old) (known_of self.new) }
        ensures cause { HasCause (faults_of self.old) (faults_of self.new) result }
        ensures call { OnOk result (calls_of self.new ≡ Looked ∷ calls_of self.old) }
        ensures refused { OnErr result (LooksAtMost (calls_of self.old) (calls_of self.new)) }
        ensures due { Contains (fails_of self.old) (next_call self.old) → IsErr result }
        ensures start { start_of self.new ≡ start_of self.old }
        ensures fails { fails_of self.new ≡ fails_of self.old }
        ensures failed { OnErr result (faults_of self.new ≡ counted_up (faults_of self.old)) }
        ensures whole { OnOk result (faults_of self.new ≡ faults_of self.old) }
    {
        if self.is_due() {
            return Err(self.fail());
        }
        let Ok(()) = record_look(&mut self.calls) else {
            return Err(self.fail());
        };
        Ok(())
    }
}

// Beside what holds of every disk, each call says what it adds to the record. Which calls fail is then
// known by number, and so is what an image holds.
impl Disk for MemoryDisk {
    ghost use Rattle.kdb_disk.specs.Parts.{start_of, calls_of, next_call, fails_of, faults_of, known_of};

    ghost tells = { Unit {0} };

    ghost view = { λ d. view_of (contents d.start.items) d.calls.items };

    ghost faults = { λ d. d.faults };

    ghost loans = { λ d. [] };

    fn length(&mut self, file: u8) -> Result<u64, DiskFailed>
        requires { file < 7 }
        ensures value { IfOk result (λ n. n ≡ length ((known_of self.old).seen file)) }
        ensures looks { Looks (known_of self.old) (known_of self.new) }
        ensures cause { HasCause (faults_of self.old) (faults_of self.new) result }

        ensures call { OnOk result (calls_of self.new ≡ Looked ∷ calls_of self.old) }
        ensures refused { OnErr result (LooksAtMost (calls_of self.old) (calls_of self.new)) }
        ensures due { Contains (fails_of self.old) (next_call self.old) → IsErr result }
        ensures start { start_of self.new ≡ start_of self.old }
        ensures fails { fails_of self.new ≡ fails_of self.old }
        ensures failed { OnErr result (faults_of self.new ≡ counted_up (faults_of self.old)) }
        ensures whole { OnOk result (faults_of self.new ≡ faults_of self.old) }
    {
        match self.look() {
            Ok(()) => Ok(self.bytes(file).len() as u64),
            Err(failed) => Err(failed),
        }
    }

    fn read(&mut self, file: u8, at: u64, into: &mut [u8]) -> Result<usize, DiskFailed>
        requires file { file < 7 }
        requires at { at ≤ length ((known_of self.old).seen file) }
        ensures count { IfOk result (λ n. n ≤ length into.old) }
        ensures bytes { IfOk result (λ n. take n into.new ≡ take n (drop at ((known_of self.old).seen file))) }
        ensures within { IfOk result (λ n. at + n ≤ length ((known_of self.old).seen file)) }
        ensures some { 0 < length into.old → at < length ((known_of self.old).seen file) → IfOk result (λ n. 0 < n) }
        ensures looks { Looks (known_of self.old) (known_of self.new) }
        ensures cause { HasCause (faults_of self.old) (faults_of self.new) result }

        ensures call { OnOk result (calls_of self.new ≡ Looked ∷ calls_of self.old) }
        ensures refused { OnErr result (LooksAtMost (calls_of self.old) (calls_of self.new)) }
        ensures due { Contains (fails_of self.old) (next_call self.old) → IsErr result }
        ensures start { start_of self.new ≡ start_of self.old }
        ensures fails { fails_of self.new ≡ fails_of self.old }
        ensures failed { OnErr result (faults_of self.new ≡ counted_up (faults_of self.old)) }
        ensures whole { OnOk result (faults_of self.new ≡ faults_of self.old) }
    {
        match self.look() {
            Ok(()) => Ok(copy_from(self.bytes(file), at as usize, into)),
            Err(failed) => Err(failed),
        }
    }

    fn write_at(&mut self, file: u8, at: u64, bytes: &[u8]) -> Result<(), DiskFailed>
        requires file { file < 7 }
        requires at { at ≤ length ((known_of self.old).seen file) }
        requires fits { at + length bytes.now < 2 ^ 64 }
        ensures seen { OnOk result ((known_of self.new).seen ≡ written file at bytes.now (known_of self.old).seen) }
        ensures crash { Follows (Torn file at (length bytes.now)) (known_of self.old) (known_of self.new) }
        ensures time { Elapses (known_of self.old) (known_of self.new) }
        ensures cause { HasCause (faults_of self.old) (faults_of self.new) result }

        ensures call { OnOk result (AddsWrite file at bytes.now (calls_of self.old) (calls_of self.new)) }
        ensures unchanged { OnErr result ((known_of self.new).seen ≡ (known_of self.old).seen) }
        ensures refused { OnErr result (LooksAtMost (calls_of self.old) (calls_of self.new)) }
        ensures due { Contains (fails_of self.old) (next_call self.old) → IsErr result }
        ensures start { start_of self.new ≡ start_of self.old }
        ensures fails { fails_of self.new ≡ fails_of self.old }
        ensures failed { OnErr result (faults_of self.new ≡ counted_up (faults_of self.old)) }
        ensures whole { OnOk result (faults_of self.new ≡ faults_of self.old) }
    {
        if self.is_due() {
            return Err(self.fail());
        }
        let Ok(copy) = bytes.to_vec(self.alloc) else {
            return Err(self.fail());
        };
        match record_write(&mut self.calls, &mut self.files, file, at, bytes, copy) {
            Ok(()) => Ok(()),
            Err(_) => Err(self.fail()),
        }
    }

    fn cut(&mut self, file: u8, len: u64) -> Result<(), DiskFailed>
        requires file { file < 7 }
        requires len { len ≤ length ((known_of self.old).seen file) }
        ensures seen { OnOk result ((known_of self.new).seen
            ≡ with_file file (take len ((known_of self.old).seen file)) (known_of self.old).seen) }
        ensures crash { Follows (Frayed file len) (known_of self.old) (known_of self.new) }
        ensures time { Elapses (known_of self.old) (known_of self.new) }
        ensures cause { HasCause (faults_of self.old) (faults_of self.new) result }

        ensures call { OnOk result (calls_of self.new ≡ Cut file len ∷ calls_of self.old) }
        ensures unchanged { OnErr result ((known_of self.new).seen ≡ (known_of self.old).seen) }
        ensures refused { OnErr result (LooksAtMost (calls_of self.old) (calls_of self.new)) }
        ensures due { Contains (fails_of self.old) (next_call self.old) → IsErr result }
        ensures start { start_of self.new ≡ start_of self.old }
        ensures fails { fails_of self.new ≡ fails_of self.old }
        ensures failed { OnErr result (faults_of self.new ≡ counted_up (faults_of self.old)) }
        ensures whole { OnOk result (faults_of self.new ≡ faults_of self.old) }
    {
        if self.is_due() {
            return Err(self.fail());
        }
        let Ok(()) = record(&mut self.calls, Call::Cut { file, len }) else {
            return Err(self.fail());
        };
        cut_file(&mut self.files, file, len as usize);
        Ok(())
    }

    fn sync(&mut self, file: u8) -> Result<(), DiskFailed>
        requires { file < 7 }
        ensures durable { OnOk result
            ((c : Files) → (known_of self.new).images c → c file ≡ (known_of self.old).seen file) }
        ensures looks { Looks (known_of self.old) (known_of self.new) }
        ensures cause { HasCause (faults_of self.old) (faults_of self.new) result }

        ensures call { OnOk result (calls_of self.new ≡ Synced file ∷ calls_of self.old) }
        ensures refused { OnErr result (LooksAtMost (calls_of self.old) (calls_of self.new)) }
        ensures due { Contains (fails_of self.old) (next_call self.old) → IsErr result }
        ensures start { start_of self.new ≡ start_of self.old }
        ensures fails { fails_of self.new ≡ fails_of self.old }
        ensures failed { OnErr result (faults_of self.new ≡ counted_up (faults_of self.old)) }
        ensures whole { OnOk result (faults_of self.new ≡ faults_of self.old) }
    {
        if self.is_due() {
            return Err(self.fail());
        }
        let Ok(()) = record(&mut self.calls, Call::Synced { file }) else {
            return Err(self.fail());
        };
        Ok(())
    }

    ghost reads_as_image = { λ d tells. image_of d.start.items d.files.items d.calls.items d.kept };
}
