//! The calls of a disk in memory done again, for an image of a moment inside one of them.
ghost use Rattle.std.specs.Prelude.{◌≡◌, ◌≤◌, ◌<◌, ◌+◌, ◌-◌, ◌∷◌, ◌↔◌, ℕ, List};
ghost use Rattle.std.specs.Prelude.{length, drop, slice_index, IfOk, OnOk, IsTrue};
ghost use Rattle.kdb_disk.specs.declared.record.Call.{Call};
ghost use Rattle.kdb_disk.specs.Files.{Files};
ghost use Rattle.kdb_disk.specs.Replays.{pending_of};
ghost use Rattle.kdb_disk.specs.Memory.{settled_at, after_write, after_cut, after_sync, file_after, IsApart};

use crate::contents::write_in;
use crate::record::{Call, Pick};
use kdb_base::MemoryOut;
use std::alloc::Global;
use std::cmp::{max, min};
use std::collections::VecDeque;

// A byte that an image has where it may have any.
const NOISE: u8 = 0xa5;

// A file since its last sync, as far as the calls were done again.
#[derive(Drop)]
pub(crate) struct Replay {
    bytes: Vec<u8>,
    base: Vec<u8>,
    least: usize,
    greatest: usize,
    // each range that was written since, by its offset and its length, the newest first
    ranges: Vec<(usize, usize)>,
}

impl Replay {
    ghost use Rattle.kdb_disk.specs.Inside.{IsNoise, IsPicked};

    fn begin(alloc: Global, start: &[u8]) -> Result<Replay, MemoryOut>
        ensures { IfOk result (λ r. pending_of r ≡ settled_at start.now) }
    {
        let bytes = start.to_vec(alloc)?;
        let base = start.to_vec(alloc)?;
        Ok(Replay {
            bytes,
            base,
            least: start.len(),
            greatest: start.len(),
            ranges: Vec::new(alloc),
        })
    }

    fn write(&mut self, at: usize, bytes: &[u8]) -> Result<(), MemoryOut>
        ensures { OnOk result (pending_of self.new ≡ after_write at bytes.now (pending_of self.old)) }
    {
        write_in(&mut self.bytes, at, bytes)?;
        self.ranges.insert(0, (at, bytes.len()))?;
        self.greatest = max(self.greatest, self.bytes.len());
        Ok(())
    }

    fn cut(&mut self, len: usize)
        ensures { pending_of self.new ≡ after_cut len (pending_of self.old) }
    {
        self.bytes.truncate(len);
        self.least = min(len, self.least);
    }

    fn sync(&mut self, alloc: Global) -> Result<(), MemoryOut>
        ensures { OnOk result (pending_of self.new ≡ after_sync (pending_of self.old)) }
    {
        self.base = self.bytes.to_vec(alloc)?;
        self.least = self.bytes.len();
        self.greatest = self.bytes.len();
        self.ranges.clear();
        Ok(())
    }

    // The image that is picked.
    pub(crate) fn image(self, alloc: Global, pick: Pick) -> Result<Vec<u8>, MemoryOut>
        requires least { self.least ≤ length self.base.items }
        requires greatest { length self.base.items ≤ self.greatest }
        ensures { IfOk result (λ v. IsPicked pick (pending_of self) v.items) }
    {
        match pick {
            Pick::Written => Ok(self.bytes),
            Pick::Old => Ok(self.base),
            Pick::Noise => self.noise(alloc),
        }
    }

    // The longest image, with noise in each byte that may be any byte.
    fn noise(&self, alloc: Global) -> Result<Vec<u8>, MemoryOut>
        requires least { self.now.least ≤ length self.now.base.items }
        requires greatest { length self.now.base.items ≤ self.now.greatest }
        ensures { IfOk result (λ v. IsNoise (pending_of self.now) v.items) }
    {
        let mut bytes = Vec::new(alloc);
        for place in 0..self.greatest {
            bytes.push(noise_at(&self.base, self.least, &self.ranges, place))?;
        }
        Ok(bytes)
    }

    // Does a call again, where it is one of this file.
    fn step(&mut self, alloc: Global, call: &Call, file: u8) -> Result<(), MemoryOut>
        ensures { (start : Files) (calls : List Call) → pending_of self.old ≡ file_after start calls file
            → OnOk result (pending_of self.new ≡ file_after start (call.now ∷ calls) file) }
    {
        match call {
            Call::Wrote {
                file: of,
                at,
                bytes,
            } => {
                if *of != file {
                    return Ok(());
                }
                self.write(*at as usize, bytes)
            }
            Call::Cut { file: of, len } => {
                if *of == file {
                    self.cut(*len as usize);
                }
                Ok(())
            }
            Call::Synced { file: of } => {
                if *of != file {
                    return Ok(());
                }
                self.sync(alloc)
            }
            Call::Looked => Ok(()),
        }
    }
}

// Whether a place is in none of the ranges.
fn is_apart(ranges: &[(usize, usize)], place: usize) -> bool
    ensures { IsTrue result ↔ IsApart place ranges.now }
{
    let mut rest = ranges;
    while let [(at, count), after @ ..] = rest {
        if *at <= place && place - *at < *count {
            return false;
        }
        rest = after;
    }
    true
}

// The byte at a place, or noise where it may be any byte.
fn noise_at(base: &[u8], least: usize, ranges: &[(usize, usize)], place: usize) -> u8
    requires { least ≤ length base.now }
    ensures stays { place < least → IsApart place ranges.now → result ≡ slice_index base.now place }
    ensures free { (place < least → IsApart place ranges.now → ⊥) → result ≡ 165 }
{
    if place >= least {
        return NOISE;
    }
    if !is_apart(ranges, place) {
        return NOISE;
    }
    base[place]
}

// Does the first so many calls again, as far as they are of this file.
pub(crate) fn redo(
    alloc: Global,
    start: &[u8],
    calls: &VecDeque<Call>,
    count: usize,
    file: u8,
) -> Result<Replay, MemoryOut>
    requires { count ≤ length calls.now.items }
    ensures { (starts : Files) → starts file ≡ start.now → IfOk result
        (λ r. pending_of r ≡ file_after starts (drop (length calls.now.items - count) calls.now.items) file) }
{
    let mut replay = Replay::begin(alloc, start)?;
    for done in 0..count {
        replay.step(alloc, &calls[calls.len() - 1 - done], file)?;
    }
    Ok(replay)
}
