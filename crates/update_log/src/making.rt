//! A log that is made anew in two steps: the memory is taken first, and then the file is written.
ghost use Rattle.std.specs.Prelude.{◌≡◌, ◌≤◌, IfOk, OnOk, IsErr};
ghost use Rattle.kdb_disk.specs.Frames.{IsCall, IsCrashSafe};
ghost use Rattle.kdb_disk.specs.Moments.{Differs};
ghost use Rattle.kdb_disk.specs.View.{View, IsAfter};
ghost use Rattle.update_log.specs.Logs.{begun};
ghost use Rattle.update_log.specs.Moments.{HasLog, IsDurable, ReadsOthers};

use crate::log::{Log, log_of, marker_body, queue_of};
use crate::writes::write_first;
use kdb_base::{MemoryOut, Point};
use kdb_disk::{Disk, DiskFailed};
use princ_rows::{Logged, Op};
use std::alloc::Global;
use std::collections::VecDeque;
use std::marker::Model;

/// A log that is to be made: it holds its base marker alone.
#[derive(Drop)]
pub struct NewLog {
    file: u8,
    base: Point,
    size: u32,
    block: u32,
    // what is written for the base marker
    body: Vec<u8>,
    held: VecDeque<Logged>,
}

impl Model for NewLog {
    ghost use Rattle.std.specs.VecDeque.{deque_len};
    ghost use Rattle.update_log.specs.Logs.{Journal, begun};
    ghost use Rattle.update_log.specs.Moments.{IsMaking};

    ghost Value = { Journal };

    ghost view = { λ n. begun n.file n.base n.size n.block };

    ghost invariant = { λ n. IsMaking n.file n.base n.size n.block n.body.items n.held.items (deque_len n.held) };
}

impl NewLog {
    /// The log of the base marker alone, which takes all memory that is needed to make it. Where `next`
    /// is given, the entry of this change is to be prepared next, and its place among those that are held
    /// is reserved.
    ///
    /// `file` is 3 or 4, `size` the number of entries that the log holds, and `block` the length of
    /// their slots in bytes.
    pub fn new(
        alloc: Global,
        file: u8,
        base: Point,
        size: u32,
        block: u32,
        next: Option<&Op>,
    ) -> Result<NewLog, MemoryOut>
        requires file { (3 ≤ file) × (file ≤ 4) }
        requires size { (2 ≤ size) × (size ≤ 10000) }
        requires block { (2048 ≤ block) × (block ≤ 16384) }
        ensures { IfOk result (λ log. log ≡ begun file base size block) }
    {
        let body = marker_body(alloc, &base, block)?;
        let held = queue_of(alloc, &base, next.is_some())?;
        Ok(NewLog {
            file,
            base,
            size,
            block,
            body,
            held,
        })
    }

    /// Makes the log: its file is cut to nothing, on the disk, and the base marker is written by the gate.
    /// Memory is not asked for.
    ///
    /// At each moment a crash leaves all other files as before. After `Ok` it leaves of the log's file
    /// what a read gives.
    pub fn write<D: Disk>(&self, disk: &mut D) -> Result<(), DiskFailed>
        ensures crash { IsCrashSafe D.Disk disk.old disk.new (IsAfter (Differs self.now.file) (D.view disk.old)) }
        ensures log { D.tells → OnOk result (HasLog self.now (D.view disk.new)) }
        ensures durable { D.tells → OnOk result (IsDurable self.now.file (D.view disk.new)) }
        ensures others { D.tells → OnOk result (ReadsOthers self.now.file (D.view disk.old) (D.view disk.new)) }
        ensures call { IsCall D.Disk disk.old disk.new (IsErr result) }
    {
        write_first(disk, self.file, &self.body)
    }

    /// The log in memory, to prepare an entry in before the file is written. It is a log of its own.
    pub fn to_log(&self, alloc: Global) -> Result<Log, MemoryOut>
        ensures { IfOk result (λ log. log ≡ self.now) }
    {
        let held = queue_of(alloc, &self.base, true)?;
        Ok(log_of(self.file, self.base, self.size, self.block, held))
    }

    /// The log, once it is made.
    pub fn into_log(self) -> Log
        ensures { result ≡ self }
    {
        log_of(self.file, self.base, self.size, self.block, self.held)
    }
}
