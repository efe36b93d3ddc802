//! Runs over a real folder, and what stands in it afterwards.
ghost use Rattle.std.specs.Prelude.{◌<◌};

use crate::rim::Still;
use crate::runs::words_of;
use kadm_top::run_local;
use kdb_base::Status;
use kdb_disk::folder::NAMES;
use kdb_disk::{Disk, DiskFailed, FILES, FileReader, Folder};
use kdb_ports::{ReaderSource, SeededEntropy, SystemClock, WriterSink};
use std::alloc::Global;
use std::fs;
use std::fs::{File, Permissions};
use std::os::unix::fs::{MetadataExt, PermissionsExt, symlink};
use std::process::Abort;
use std::rt::Files;
use std::test::Fail;
use std::time::Duration;

/// The folder of this number, where it could be made.
fn made_folder(rt: &HostRuntime, place: &str, number: u32) -> Result<Option<String>, Fail> {
    let alloc = rt.alloc();
    let path = format!(in alloc; "{place}/run_tests-{number}")?;
    if fs::create_dir(rt, path.as_str()).is_ok() {
        return Ok(Some(path));
    }
    Ok(None)
}

/// A new folder under this one.
fn new_folder_in(rt: &HostRuntime, place: &str) -> Result<String, Fail> {
    for number in 0..10_000 {
        if let Some(path) = made_folder(rt, place, number)? {
            return Ok(path);
        }
    }
    Err(Fail::from(DiskFailed))
}

/// A new folder under the one for temporary files.
fn new_folder(rt: &HostRuntime) -> Result<String, Fail> {
    let place = std::env::temp_dir(rt)?;
    new_folder_in(rt, place.as_str())
}

/// The path of a file of a folder.
fn path_of(alloc: Global, folder: &str, name: &str) -> Result<String, Fail> {
    Ok(format!(in alloc; "{folder}/{name}")?)
}

/// Whether there is a file of this name.
fn is_there(rt: &HostRuntime, folder: &str, name: &str) -> Result<bool, Fail> {
    let path = path_of(rt.alloc(), folder, name)?;
    Ok(fs::exists(rt, path.as_str())?)
}

/// How many of a database's files are in a folder.
fn count_files(rt: &HostRuntime, folder: &str) -> Result<usize, Fail> {
    let mut count = 0;
    for name in NAMES {
        if is_there(rt, folder, name)? && count < 7 {
            count += 1;
        }
    }
    Ok(count)
}

/// The bits of a file by which anybody but its owner may read or write it, or anybody run it.
fn wide_bits(rt: &HostRuntime, folder: &str, name: &str) -> Result<u32, Fail> {
    let path = path_of(rt.alloc(), folder, name)?;
    Ok(fs::metadata(rt, path.as_str())?.mode() & 0o7177)
}

/// A run over a folder with random bytes of the system: its status, and what it wrote.
fn run_in(
    rt: &HostRuntime,
    folder: &str,
    words: &str,
    input: &[u8],
) -> Result<(Status, Vec<u8>), Fail> {
    let alloc = rt.alloc();
    let words = words_of(alloc, words)?;
    let mut source = ReaderSource::new(input);
    let mut sink = WriterSink::new(Vec::new(alloc));
    let mut disk = Folder::new(rt, alloc, folder);
    let since_1970 = Some(Duration::new(1_700_000_000, 123_456_789));
    let mut clock = SystemClock::new(Still { since_1970 });
    let mut entropy = SeededEntropy::new(rt);
    let status = run_local(
        alloc,
        &words,
        &mut source,
        &mut sink,
        &mut disk,
        &mut clock,
        &mut entropy,
    );
    Ok((status, sink.into_writer()))
}

/// Compares the status and the replies of a run.
fn check_ended(
    rt: &impl Abort,
    words: &str,
    ended: Status,
    written: &[u8],
    status: Status,
    replies: &[u8],
) {
    assert_eq!(rt; ended, status, "{words}");
    assert_eq!(rt; written, replies);
}

/// What stands in a file, from outside, and the bits by which others may use it.
fn file_of(rt: &HostRuntime, folder: &str, name: &str) -> Result<(Vec<u8>, u32), Fail> {
    let path = path_of(rt.alloc(), folder, name)?;
    let held = fs::read(rt, path.as_str())?;
    Ok((held, wide_bits(rt, folder, name)?))
}

/// Compares what stands in a file, and that it is closed to others.
fn check_file(rt: &impl Abort, held: &[u8], bits: u32, content: &[u8]) {
    assert_eq!(rt; held, content);
    assert_eq!(rt; bits, 0);
}

/// Runs one after another in a folder: words, input, status and replies.
const RUNS: [(&str, &[u8], Status, &[u8]); 10] = [
    (
        "admin",
        b"addprinc -nokey a\n",
        Status::Refused,
        b"err 20 NotADatabase\n",
    ),
    ("destroy", b"", Status::Refused, b"err 20 NotADatabase\n"),
    ("frob", b"", Status::Refused, b"err 1 BadLine\n"),
    (
        "create EXAMPLE_ORG",
        b"",
        Status::Refused,
        b"err 13 BadValue realm\n",
    ),
    (
        "create EXAMPLE.ORG",
        b"",
        Status::Done,
        b"ok 1 1700000000.123456\n",
    ),
    (
        "admin",
        b"addprinc -nokey a\naddprinc -nokey a\n",
        Status::Refused,
        b"ok 2 1700000000.123456\nerr 3 Duplicate\n",
    ),
    (
        "create EXAMPLE.ORG",
        b"",
        Status::Refused,
        b"err 21 AlreadyThere\n",
    ),
    (
        "admin",
        b"delprinc a\nlistprincs a*\n",
        Status::Done,
        b"ok 3 1700000000.123456\nok\n",
    ),
    ("destroy", b"", Status::Done, b"ok\n"),
    (
        "admin",
        b"listprincs\n",
        Status::Refused,
        b"err 20 NotADatabase\n",
    ),
];

fn check_count(rt: &impl Abort, files: usize, words: &str, none: bool) {
    assert!(rt; none == (files == 0), "{files} files after {words}");
}

#[test]
fn a_database_in_a_folder(rt: HostRuntime) -> Result<(), Fail> {
    let folder = new_folder(&rt)?;
    let mut number = 0;
    for (words, input, status, replies) in RUNS {
        let (ended, written) = run_in(&rt, folder.as_str(), words, input)?;
        check_ended(&rt, words, ended, written.as_slice(), status, replies);
        number = if number < 20 { number + 1 } else { number };
        // The first four make no file.
        let files = count_files(&rt, folder.as_str())?;
        check_count(&rt, files, words, number <= 4);
    }
    assert_eq!(rt; wide_bits(&rt, folder.as_str(), "control")?, 0);
    assert_eq!(rt; wide_bits(&rt, folder.as_str(), "image.0")?, 0);
    assert_eq!(rt; wide_bits(&rt, folder.as_str(), "log.0")?, 0);
    assert_eq!(rt; wide_bits(&rt, folder.as_str(), "stash.0")?, 0);
    fs::remove_dir_all(&rt, folder.as_str())?;
    Ok(())
}

/// What each file is to hold, by its number: as many dots as the number and one more, and its own word.
const CONTENTS: [&[u8]; 7] = [
    b".zero",
    b"..one",
    b"...two",
    b"....three",
    b".....four",
    b"......five",
    b".......six",
];

/// Writes the dots of a file, and then its word behind them.
fn write_both<R: Files<File = File>>(
    disk: &mut Folder<'_, R>,
    file: u8,
    content: &[u8],
) -> Result<(), Fail>
    requires { file < 7 }
{
    let at = file as usize + 1;
    if content.len() >= at {
        let (dots, word) = content.split_at(at);
        disk.write_at(file, 0, dots)?;
        disk.write_at(file, at as u64, word)?;
        disk.sync(file)?;
    }
    Ok(())
}

fn write_contents(disk: &mut Folder<'_, HostRuntime>) -> Result<(), Fail> {
    for file in 0..FILES {
        write_both(disk, file, CONTENTS[file as usize])?;
    }
    Ok(())
}

fn check_held(
    rt: &impl Abort,
    alloc: Global,
    disk: &mut Folder<'_, HostRuntime>,
    file: u8,
    content: &[u8],
) -> Result<(), Fail>
    requires { file < 7 }
{
    let mut reader = FileReader::open(alloc, disk, file, 0)?;
    reader.fill(disk, 20)?;
    assert_eq!(rt; reader.held(), content);
    Ok(())
}

fn check_contents(
    rt: &impl Abort,
    alloc: Global,
    disk: &mut Folder<'_, HostRuntime>,
) -> Result<(), Fail> {
    for file in 0..FILES {
        check_held(rt, alloc, disk, file, CONTENTS[file as usize])?;
    }
    Ok(())
}

#[test]
fn each_file_of_a_folder_has_its_own_bytes(rt: HostRuntime) -> Result<(), Fail> {
    let folder = new_folder(&rt)?;
    let mut disk = Folder::new(&rt, rt.alloc(), folder.as_str());
    write_contents(&mut disk)?;
    // From outside, by name.
    for (name, content) in NAMES.into_iter().zip(CONTENTS) {
        let (held, bits) = file_of(&rt, folder.as_str(), name)?;
        check_file(&rt, held.as_slice(), bits, content);
    }
    drop(disk);
    // And by another opening.
    let mut disk = Folder::new(&rt, rt.alloc(), folder.as_str());
    check_contents(&rt, rt.alloc(), &mut disk)?;
    fs::remove_dir_all(&rt, folder.as_str())?;
    Ok(())
}

fn check_missing_files(rt: &impl Abort, disk: &mut Folder<'_, HostRuntime>) {
    for file in 0..FILES {
        assert_eq!(rt; disk.length(file), Ok(0));
        assert_eq!(rt; disk.read(file, 0, &mut [0; 3]), Ok(0));
        assert_eq!(rt; disk.cut(file, 0), Ok(()));
        assert_eq!(rt; disk.write_at(file, 0, b""), Ok(()));
        assert_eq!(rt; disk.sync(file), Ok(()));
    }
    assert_eq!(rt; disk.cut(3, 1), Err(DiskFailed));
}

#[test]
fn a_missing_file_stays_missing(rt: HostRuntime) -> Result<(), Fail> {
    let folder = new_folder(&rt)?;
    let mut disk = Folder::new(&rt, rt.alloc(), folder.as_str());
    check_missing_files(&rt, &mut disk);
    assert_eq!(rt; count_files(&rt, folder.as_str())?, 0);
    // The lock is there though there is no file.
    let mut second = Folder::new(&rt, rt.alloc(), folder.as_str());
    assert_eq!(rt; second.length(0), Err(DiskFailed));
    fs::remove_dir_all(&rt, folder.as_str())?;
    Ok(())
}

/// Makes a file that everybody may read.
fn make_open_file(rt: &HostRuntime, folder: &str) -> Result<(), Fail> {
    let path = path_of(rt.alloc(), folder, "stash.1")?;
    fs::write(rt, path.as_str(), b"old")?;
    fs::set_permissions(rt, path.as_str(), Permissions::from_mode(0o666))?;
    Ok(())
}

#[test]
fn a_file_that_others_may_read_is_closed_to_them(rt: HostRuntime) -> Result<(), Fail> {
    let folder = new_folder(&rt)?;
    make_open_file(&rt, folder.as_str())?;
    let mut disk = Folder::new(&rt, rt.alloc(), folder.as_str());
    assert_eq!(rt; disk.length(6), Ok(3));
    disk.write_at(6, 3, b"new")?;
    let (held, bits) = file_of(&rt, folder.as_str(), "stash.1")?;
    check_file(&rt, held.as_slice(), bits, b"oldnew");
    fs::remove_dir_all(&rt, folder.as_str())?;
    Ok(())
}

/// Makes a link to a file that is not there.
fn make_link(rt: &HostRuntime, folder: &str) -> Result<(), Fail> {
    let path = path_of(rt.alloc(), folder, "image.1")?;
    let other = path_of(rt.alloc(), folder, "other")?;
    symlink(rt, other.as_str(), path.as_str())?;
    Ok(())
}

#[test]
fn a_link_is_no_file(rt: HostRuntime) -> Result<(), Fail> {
    let folder = new_folder(&rt)?;
    make_link(&rt, folder.as_str())?;
    let words = "create EXAMPLE.ORG";
    let (ended, written) = run_in(&rt, folder.as_str(), words, b"")?;
    let fault = Status::DiskFault;
    check_ended(&rt, words, ended, written.as_slice(), fault, b"");
    assert!(rt; !is_there(&rt, folder.as_str(), "other")?);
    fs::remove_dir_all(&rt, folder.as_str())?;
    Ok(())
}

/// Writes into a file and syncs it, twice, where another file takes its name meanwhile.
fn write_twice<R: Files<File = File>>(
    rt: &R,
    disk: &mut Folder<'_, R>,
    path: &str,
) -> Result<(), Fail> {
    disk.write_at(1, 0, b"abc")?;
    disk.sync(1)?;
    fs::remove_file(rt, path)?;
    fs::write(rt, path, b"xyz")?;
    disk.write_at(1, 3, b"def")?;
    Ok(())
}

fn check_failing(rt: &impl Abort, disk: &mut Folder<'_, HostRuntime>) {
    assert_eq!(rt; disk.sync(1), Err(DiskFailed));
    assert_eq!(rt; disk.sync(2), Err(DiskFailed));
    assert_eq!(rt; disk.length(1), Err(DiskFailed));
    assert_eq!(rt; disk.read(1, 0, &mut [0; 3]), Err(DiskFailed));
    assert_eq!(rt; disk.write_at(1, 0, b"abc"), Err(DiskFailed));
    assert_eq!(rt; disk.cut(2, 0), Err(DiskFailed));
}

#[test]
fn after_a_failed_sync_every_call_fails(rt: HostRuntime) -> Result<(), Fail> {
    let folder = new_folder(&rt)?;
    let path = path_of(rt.alloc(), folder.as_str(), "image.0")?;
    let mut disk = Folder::new(&rt, rt.alloc(), folder.as_str());
    write_twice(&rt, &mut disk, path.as_str())?;
    check_failing(&rt, &mut disk);
    fs::remove_dir_all(&rt, folder.as_str())?;
    Ok(())
}
