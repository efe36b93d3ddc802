//! Files of a database that is closed, with other bytes.

use crate::bench::{Bench, shut};
use kdb_disk::{MemoryDisk, replace_file};
use std::alloc::Global;
use std::test::Fail;

/// Other bytes at places of a file.
pub(crate) type Patch = &'static [(usize, u8)];

fn patched(alloc: Global, bytes: &[u8], patch: Patch) -> Result<Vec<u8>, Fail> {
    let mut changed = bytes.to_vec(alloc)?;
    for (at, byte) in patch {
        if let Some(place) = changed.get_mut(*at) {
            *place = *byte;
        }
    }
    Ok(changed)
}

pub(crate) fn patch_file(
    alloc: Global,
    disk: &mut MemoryDisk,
    file: u8,
    patch: Patch,
) -> Result<(), Fail> {
    if file > 6 {
        return Err(Fail::from("a file"));
    }
    let bytes = patched(alloc, disk.bytes(file), patch)?;
    replace_file(disk, file, &bytes)?;
    Ok(())
}

/// Leaves so many bytes of the stash of a creation, with others at these places.
pub(crate) fn patch_stash(
    alloc: Global,
    bench: &mut Bench,
    length: usize,
    patch: Patch,
) -> Result<bool, Fail> {
    let mut disk = shut(bench)?;
    let bytes = patched(alloc, disk.bytes(5), patch)?;
    let left = bytes.as_slice().get(..length).ok_or("a stash")?;
    replace_file(&mut disk, 5, left)?;
    bench.disk = Some(disk);
    Ok(true)
}
