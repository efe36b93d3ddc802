ghost use Rattle.std.specs.Prelude.{◌≡◌, ◌≤◌, ◌<◌, ◌+◌, ◌-◌, length, take, drop, min, OnOk, OnErr};
ghost use Rattle.kdb_disk.specs.Files.{put, with_file, written};
ghost use Rattle.kdb_disk.specs.Memory.{contents};

use std::alloc::AllocError;
use std::cmp::min;

// What one of these files reads.
pub(crate) fn file_at(files: &Vec<Vec<u8>>, file: u8) -> &[u8]
    requires { file < length files.now.items }
    ensures { result.now ≡ contents files.now.items file }
{
    &files[file as usize]
}

// Writes over what is there.
pub(crate) fn overwrite(file: &mut [u8], at: usize, bytes: &[u8])
    requires { at + length bytes.now ≤ length file.old }
    ensures written { file.new ≡ put at bytes.now file.old }
{
    file[at..at + bytes.len()].copy_from_slice(bytes);
}

// Writes the bytes into a file, over what is there and past the end.
pub(crate) fn write_in(file: &mut Vec<u8>, at: usize, bytes: &[u8]) -> Result<(), AllocError>
    ensures written { OnOk result (file.new.items ≡ put at bytes.now file.old.items) }
    ensures refused { OnErr result (file.new.items ≡ file.old.items) }
{
    let from = min(at, file.len());
    let over = min(bytes.len(), file.len() - from);
    file.extend_from_slice(&bytes[over..])?;
    overwrite(file, from, &bytes[..over]);
    Ok(())
}

pub(crate) fn write_file(
    files: &mut Vec<Vec<u8>>,
    file: u8,
    at: usize,
    bytes: &[u8],
) -> Result<(), AllocError>
    requires { file < length files.old.items }
    ensures written { OnOk result (contents files.new.items ≡ written file at bytes.now (contents files.old.items)) }
    ensures refused { OnErr result (contents files.new.items ≡ contents files.old.items) }
    ensures length { length files.new.items ≡ length files.old.items }
{
    write_in(&mut files[file as usize], at, bytes)
}

pub(crate) fn cut_file(files: &mut Vec<Vec<u8>>, file: u8, len: usize)
    requires { file < length files.old.items }
    ensures cut { contents files.new.items
        ≡ with_file file (take len (contents files.old.items file)) (contents files.old.items) }
    ensures length { length files.new.items ≡ length files.old.items }
{
    files[file as usize].truncate(len);
}

// Fills the front of `into` by what stands from `at` on, as far as there are bytes.
pub(crate) fn copy_from(file: &[u8], at: usize, into: &mut [u8]) -> usize
    requires { at ≤ length file.now }
    ensures count { result ≡ min (length file.now - at) (length into.old) }
    ensures bytes { take result into.new ≡ take result (drop at file.now) }
{
    let from = &file[at..];
    let count = min(from.len(), into.len());
    into[..count].copy_from_slice(&from[..count]);
    count
}
