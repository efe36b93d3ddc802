ghost use Rattle.std.specs.Prelude.{◌≡◌, ◌≤◌, ◌<◌, ◌+◌, ◌++◌, [], List, ℕ, length};
ghost use Rattle.std.specs.Prelude.{take, drop, min, IfOk, OnOk, OnErr, IsErrOf};
ghost use Rattle.kdb_base.specs.declared.outcomes.Halt.TheVariants.{DiskFault};
ghost use Rattle.kdb_base.specs.Causes.{Rose, HasCause};
ghost use Rattle.kdb_disk.specs.Files.{Files};
ghost use Rattle.kdb_disk.specs.View.{View, Looks};
ghost use Rattle.kdb_disk.specs.Moments.{Keeps};

use crate::disk::{Disk, DiskFailed};
use kdb_base::Halt;
use std::alloc::Global;
use std::cmp::min;

// The most bytes that one device call reads.
const PIECE: u64 = 65536;

/// The bytes of a file from a place on, read in pieces of at most 65536 bytes.
#[derive(Drop)]
pub struct FileReader {
    file: u8,
    // how far the file was read, and where it ends
    at: u64,
    end: u64,
    // what was read, of which the first bytes were taken
    buffer: Vec<u8>,
    from: usize,

    ghost one_of_seven: { file < 7 },
    ghost within: { at ≤ end },
    ghost taken: { from ≤ length buffer.items },
}

// Reads a piece behind what the buffer has.
fn read_piece<D: Disk>(
    disk: &mut D,
    file: u8,
    at: u64,
    room: usize,
    buffer: &mut Vec<u8>,
) -> Result<usize, Halt>
    requires file { file < 7 }
    requires room { room ≤ 65536 }
    requires at { D.tells → at ≤ length ((D.view disk.old).seen file) }
    ensures bytes { D.tells
        → IfOk result (λ n. buffer.new.items ≡ buffer.old.items ++ take n (drop at ((D.view disk.old).seen file))) }
    ensures length { IfOk result (λ n. length buffer.new.items ≡ length buffer.old.items + n) }
    ensures count { IfOk result (λ n. n ≤ room) }
    ensures some { D.tells → 0 < room → at < length ((D.view disk.old).seen file) → IfOk result (λ n. 0 < n) }
    ensures unread { OnErr result (buffer.new.items ≡ buffer.old.items) }
    ensures looks { D.tells → Looks (D.view disk.old) (D.view disk.new) }
    ensures same { D.loans disk.new ≡ D.loans disk.old }
    ensures later { D.faults disk.old ≤ D.faults disk.new }
    ensures cause { IsErrOf result DiskFault → Rose (D.faults disk.old) (D.faults disk.new) }
{
    let start = buffer.len();
    match buffer.resize(start + room, 0) {
        Ok(()) => {}
        Err(_) => return Err(Halt::MemoryOut),
    }
    match disk.read(file, at, &mut buffer[start..]) {
        Ok(count) => {
            buffer.truncate(start + count);
            Ok(count)
        }
        Err(_) => {
            buffer.truncate(start);
            Err(Halt::DiskFault)
        }
    }
}

impl FileReader {
    ghost use Rattle.kdb_disk.specs.Reader.{held_of, left_of, IsOver};

    /// The bytes of a file from `at` on.
    pub fn open<D: Disk>(
        alloc: Global,
        disk: &mut D,
        file: u8,
        at: u64,
    ) -> Result<FileReader, DiskFailed>
        requires file { file < 7 }
        requires at { D.tells → at ≤ length ((D.view disk.old).seen file) }
        ensures left { D.tells
            → IfOk result (λ r. left_of r (D.view disk.new).seen ≡ drop at ((D.view disk.old).seen file)) }
        ensures over { D.tells → IfOk result (λ r. IsOver r (D.view disk.new).seen) }
        ensures looks { D.tells → Looks (D.view disk.old) (D.view disk.new) }
        ensures same { D.loans disk.new ≡ D.loans disk.old }
        ensures cause { HasCause (D.faults disk.old) (D.faults disk.new) result }
    {
        match disk.length(file) {
            Ok(end) => Ok(FileReader {
                file,
                at: min(at, end),
                end,
                buffer: Vec::new(alloc),
                from: 0,
            }),
            Err(failed) => Err(failed),
        }
    }

    /// The bytes that were read and not yet taken. They are the first of those that are left.
    pub fn held(&self) -> &[u8]
        ensures { result.now ≡ held_of self.now }
    {
        &self.buffer[self.from..]
    }

    /// Takes the first so many of the bytes that are held.
    pub fn take(&mut self, count: usize)
        requires { count ≤ length (held_of self.old) }
        ensures held { held_of self.new ≡ drop count (held_of self.old) }
        ensures left { (files : Files) → left_of self.new files ≡ drop count (left_of self.old files) }
        ensures over { (files : Files) → IsOver self.old files → IsOver self.new files }
    {
        self.from += count;
    }

    // Lets go of what was taken.
    fn forget(&mut self)
        ensures held { held_of self.new ≡ held_of self.old }
        ensures left { (files : Files) → left_of self.new files ≡ left_of self.old files }
        ensures over { (files : Files) → IsOver self.old files → IsOver self.new files }
        ensures taken { self.new.from ≡ 0 }
    {
        self.buffer.rotate_left(self.from);
        self.buffer.truncate(self.buffer.len() - self.from);
        self.from = 0;
    }

    // Reads a piece more, and gives its length. It is 0 where all was read.
    fn read_on<D: Disk>(&mut self, disk: &mut D) -> Result<usize, Halt>
        requires over { D.tells → IsOver self.old (D.view disk.old).seen }
        ensures left { D.tells → left_of self.new (D.view disk.new).seen ≡ left_of self.old (D.view disk.old).seen }
        ensures over { D.tells → IsOver self.new (D.view disk.new).seen }
        ensures more { IfOk result (λ n. length (held_of self.new) ≡ length (held_of self.old) + n) }
        ensures all { D.tells
            → IfOk result (λ n. n ≡ 0 → length (left_of self.old (D.view disk.old).seen) ≤ length (held_of self.new)) }
        ensures looks { D.tells → Looks (D.view disk.old) (D.view disk.new) }
        ensures same { D.loans disk.new ≡ D.loans disk.old }
        ensures later { D.faults disk.old ≤ D.faults disk.new }
        ensures cause { IsErrOf result DiskFault → Rose (D.faults disk.old) (D.faults disk.new) }
    {
        let room = min(PIECE, self.end - self.at) as usize;
        match read_piece(disk, self.file, self.at, room, &mut self.buffer) {
            Ok(count) => {
                self.at += count as u64;
                Ok(count)
            }
            Err(halt) => Err(halt),
        }
    }

    /// Reads until at least so many bytes are held, or all that are left. After an error the same
    /// bytes are left.
    pub fn fill<D: Disk>(&mut self, disk: &mut D, count: usize) -> Result<(), Halt>
        requires over { D.tells → IsOver self.old (D.view disk.old).seen }
        ensures enough { D.tells
            → OnOk result (min count (length (left_of self.old (D.view disk.old).seen)) ≤ length (held_of self.new)) }
        ensures left { D.tells → left_of self.new (D.view disk.new).seen ≡ left_of self.old (D.view disk.old).seen }
        ensures over { D.tells → IsOver self.new (D.view disk.new).seen }
        ensures keeps { D.tells → Keeps (D.view disk.old) (D.view disk.new) }
        ensures same { D.loans disk.new ≡ D.loans disk.old }
        ensures later { D.faults disk.old ≤ D.faults disk.new }
        ensures cause { IsErrOf result DiskFault → Rose (D.faults disk.old) (D.faults disk.new) }
    {
        if self.held().len() >= count {
            return Ok(());
        }
        self.forget();
        while self.held().len() < count {
            match self.read_on(disk) {
                Ok(0) => return Ok(()),
                Ok(_) => {}
                Err(halt) => return Err(halt),
            }
        }
        Ok(())
    }
}
