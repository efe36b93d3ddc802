//! Whole files: every file synced, and one file's content replaced.
ghost use Rattle.std.specs.Prelude.{◌≡◌, ◌<◌, [], OnOk};
ghost use Rattle.kdb_base.specs.Causes.{HasCause};
ghost use Rattle.kdb_disk.specs.Files.{written};
ghost use Rattle.kdb_disk.specs.View.{View, IsAfter};
ghost use Rattle.kdb_disk.specs.Moments.{IsSettled, LeavesOnly, Keeps, Differs, Replaced};

use crate::disk::{Disk, DiskFailed};
use std::cmp::min;

// The most bytes that one device call writes.
const PIECE: usize = 65536;

/// How many files a disk has.
pub const FILES: u8 = 7;

/// Syncs every file, so that no crash leaves anything but what a read gives.
pub fn settle_all<D: Disk>(disk: &mut D) -> Result<(), DiskFailed>
    ensures keeps { D.tells → Keeps (D.view disk.old) (D.view disk.new) }
    ensures settled { D.tells → OnOk result (IsSettled (D.view disk.new)) }
    ensures same { D.loans disk.new ≡ D.loans disk.old }
    ensures cause { HasCause (D.faults disk.old) (D.faults disk.new) result }
{
    for file in 0..FILES {
        disk.sync(file)?;
    }
    Ok(())
}

/// Cuts a file to nothing, on the disk. Two device calls.
pub fn empty_file<D: Disk>(disk: &mut D, file: u8) -> Result<(), DiskFailed>
    requires { file < 7 }
    ensures moments { D.tells
        → LeavesOnly (D.view disk.old) (D.view disk.new) (IsAfter (Differs file) (D.view disk.old)) }
    ensures ok { D.tells → OnOk result (Replaced file [] (D.view disk.old) (D.view disk.new)) }
    ensures same { D.loans disk.new ≡ D.loans disk.old }
    ensures cause { HasCause (D.faults disk.old) (D.faults disk.new) result }
{
    disk.cut(file, 0)?;
    disk.sync(file)
}

// Writes the content into a file that has none, in pieces. Nothing is synced.
fn write_pieces<D: Disk>(disk: &mut D, file: u8, content: &[u8]) -> Result<(), DiskFailed>
    requires file { file < 7 }
    requires empty { D.tells → (D.view disk.old).seen file ≡ [] }
    ensures moments { D.tells
        → LeavesOnly (D.view disk.old) (D.view disk.new) (IsAfter (Differs file) (D.view disk.old)) }
    ensures seen { D.tells → OnOk result ((D.view disk.new).seen ≡ written file 0 content.now (D.view disk.old).seen) }
    ensures same { D.loans disk.new ≡ D.loans disk.old }
    ensures cause { HasCause (D.faults disk.old) (D.faults disk.new) result }
{
    let mut at = 0;
    while at < content.len() {
        let count = min(PIECE, content.len() - at);
        disk.write_at(file, at as u64, &content[at..at + count])?;
        at += count;
    }
    Ok(())
}

/// Gives a file this content, on the disk: it is cut to nothing and synced, written in pieces of at
/// most 65536 bytes, and synced. Until then, a crash may leave any content of this file.
pub fn replace_file<D: Disk>(disk: &mut D, file: u8, content: &[u8]) -> Result<(), DiskFailed>
    requires { file < 7 }
    ensures moments { D.tells
        → LeavesOnly (D.view disk.old) (D.view disk.new) (IsAfter (Differs file) (D.view disk.old)) }
    ensures ok { D.tells → OnOk result (Replaced file content.now (D.view disk.old) (D.view disk.new)) }
    ensures same { D.loans disk.new ≡ D.loans disk.old }
    ensures cause { HasCause (D.faults disk.old) (D.faults disk.new) result }
{
    empty_file(disk, file)?;
    write_pieces(disk, file, content)?;
    disk.sync(file)
}
