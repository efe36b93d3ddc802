//! A disk in memory, what a stop leaves of it, and a disk over a folder.

ghost use Rattle.std.specs.Prelude.{◌<◌};

use kdb_base::Fails;
use kdb_disk::{
    Disk, DiskFailed, FileReader, Folder, Lent, MemoryDisk, Pick, close_gate, empty_file,
    fill_body, open_gate, replace_file, settle_all, shut_gate,
};
use std::alloc::Global;
use std::fs;
use std::process::Abort;
use std::test::Fail;

// A body of 7 and 8 behind a gate at the start of file 3, in six calls.
fn gated(disk: &mut MemoryDisk) -> Result<(), DiskFailed> {
    close_gate(disk, 3, 0)?;
    fill_body(disk, 3, 0, &[7, 8])?;
    open_gate(disk, 3, 0)
}

// What file 3 holds in an image of the disk inside this call.
fn check_image(
    rt: &impl Abort,
    alloc: Global,
    disk: &MemoryDisk,
    call: u64,
    pick: Pick,
    want: &[u8],
) -> Result<(), Fail> {
    assert!(rt; call < disk.calls());
    let image = disk.image_at(alloc, call, pick)?;
    assert_eq!(rt; image.bytes(3), want, "inside call {call}");
    Ok(())
}

#[test]
fn images_of_a_disk_in_memory(rt: HostRuntime) -> Result<(), Fail> {
    let alloc = rt.alloc();
    let mut disk = MemoryDisk::new(alloc, Fails::none(alloc))?;
    gated(&mut disk)?;
    assert_eq!(rt; disk.calls(), 6);
    assert_eq!(rt; disk.bytes(3), [0xa5, 7, 8].as_slice());
    empty_file(&mut disk, 3)?;
    // What file 3 may hold inside a call: 0, 2 and 4 write, 6 cuts, the others sync.
    let table: [(u64, Pick, &[u8]); 14] = [
        (0, Pick::Written, &[0]),
        (0, Pick::Old, &[]),
        (0, Pick::Noise, &[0xa5]),
        (1, Pick::Old, &[]),
        (2, Pick::Written, &[0, 7, 8]),
        (2, Pick::Old, &[0]),
        (2, Pick::Noise, &[0, 0xa5, 0xa5]),
        (3, Pick::Noise, &[0, 0xa5, 0xa5]),
        (4, Pick::Old, &[0, 7, 8]),
        (4, Pick::Noise, &[0xa5, 7, 8]),
        (5, Pick::Old, &[0, 7, 8]),
        (6, Pick::Written, &[]),
        (6, Pick::Old, &[0xa5, 7, 8]),
        (6, Pick::Noise, &[0xa5, 0xa5, 0xa5]),
    ];
    for (call, pick, want) in table {
        check_image(&rt, alloc, &disk, call, pick, want)?;
    }
    Ok(())
}

// A look and a write with its sync close the gate, and then a look finds it closed.
fn shut_twice(disk: &mut MemoryDisk) -> Result<(), DiskFailed> {
    let mut lent = Lent::new(disk);
    shut_gate(&mut lent, 3, 0)?;
    shut_gate(&mut lent, 3, 0)
}

// What file 4 has behind its first two bytes.
fn check_behind(rt: &impl Abort, alloc: Global, disk: &mut MemoryDisk) -> Result<(), Fail> {
    replace_file(disk, 4, b"abcde")?;
    settle_all(disk)?;
    let bytes = read_behind(alloc, disk, 4)?;
    assert_eq!(rt; bytes.as_slice(), b"cde".as_slice());
    Ok(())
}

#[test]
fn calls_on_a_disk_in_memory(rt: HostRuntime) -> Result<(), Fail> {
    let alloc = rt.alloc();
    let fails = Fails::from_vec(vec![in alloc; 1u64]?);
    let mut disk = MemoryDisk::new(alloc, fails)?;
    assert!(rt; gated(&mut disk).is_err());
    assert_eq!(rt; disk.calls(), 2);
    gated(&mut disk)?;
    shut_twice(&mut disk)?;
    assert_eq!(rt; disk.calls(), 12);
    assert_eq!(rt; disk.bytes(3), [0, 7, 8].as_slice());
    check_behind(&rt, alloc, &mut disk)
}

// What a file has from its third byte on.
fn read_behind<D: Disk>(alloc: Global, disk: &mut D, file: u8) -> Result<Vec<u8>, Fail>
    requires { file < 7 }
{
    let mut reader = FileReader::open(alloc, disk, file, 0)?;
    reader.fill(disk, 2)?;
    if reader.held().len() < 2 {
        return Err(Fail::from(DiskFailed));
    }
    reader.take(2);
    reader.fill(disk, 9)?;
    Ok(reader.held().to_vec(alloc)?)
}

// A new folder under the one for temporary files.
fn new_folder(rt: &HostRuntime) -> Result<String, Fail> {
    let alloc = rt.alloc();
    let place = std::env::temp_dir(rt)?;
    for number in 0..1000 {
        let path = format!(in alloc; "{}/kdb_disk-{number}", place.as_str())?;
        if fs::create_dir(rt, path.as_str()).is_ok() {
            return Ok(path);
        }
    }
    Err(Fail::from(DiskFailed))
}

// Whether a disk over the folder, of which file 4 is written, keeps another opening from it.
fn keeps_others(rt: &HostRuntime, path: &str) -> Result<bool, Fail> {
    let alloc = rt.alloc();
    let mut disk = Folder::new(rt, alloc, path);
    replace_file(&mut disk, 4, b"abcdefg")?;
    disk.cut(4, 5)?;
    settle_all(&mut disk)?;
    let mut second = Folder::new(rt, alloc, path);
    Ok(second.length(0).is_err())
}

// The lengths of files 0 and 4, and what file 4 has from its third byte on.
fn found_in(rt: &HostRuntime, path: &str) -> Result<((u64, u64), Vec<u8>), Fail> {
    let alloc = rt.alloc();
    let mut disk = Folder::new(rt, alloc, path);
    let found = (disk.length(0)?, disk.length(4)?);
    let bytes = read_behind(alloc, &mut disk, 4)?;
    Ok((found, bytes))
}

#[test]
fn a_disk_over_a_folder(rt: HostRuntime) -> Result<(), Fail> {
    let alloc = rt.alloc();
    let path = new_folder(&rt)?;
    // it is open, so that another opening fails
    assert!(rt; keeps_others(&rt, path.as_str())?);
    // what was written is there
    let (found, bytes) = found_in(&rt, path.as_str())?;
    fs::remove_dir_all(&rt, path.as_str())?;
    assert_eq!(rt; found, (0, 5));
    assert_eq!(rt; bytes.as_slice(), b"cde".as_slice());
    // and a folder that is not there has no files
    let mut none = Folder::new(&rt, alloc, path.as_str());
    assert!(rt; settle_all(&mut none).is_err());
    Ok(())
}
