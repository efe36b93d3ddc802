//! A disk over a folder. It tells nothing of its content: that a real folder is a disk of which a
//! crash leaves no more than [`Disk`] says is a premise.
ghost use Rattle.std.specs.Prelude.{◌≡◌, ◌≤◌, []};
ghost use Rattle.kdb_base.specs.Causes.{Rose, HasCause};
ghost use Rattle.kdb_disk.specs.Untold.{untold};

use crate::disk::{Disk, DiskFailed};
use crate::opening::{Held, lock_folder, make_new, open_there};
use std::alloc::Global;
use std::fs::File;
use std::io;
use std::io::ErrorKind;
use std::os::unix::fs::FileExt;
use std::rt::Files;

/// The name of each file, by its number.
pub const NAMES: [&str; 7] = [
    "control", "image.0", "image.1", "log.0", "log.1", "stash.0", "stash.1",
];

/// A disk over the seven files of a folder, which is opened by the first call.
///
/// It has the folder for itself, by a lock on the folder that every other opening meets as a fault. The
/// lock is taken before the first look at a file. Of a folder that could not be opened and locked,
/// and of one with something else than a file in the place of a file, a symbolic link say, every call
/// fails.
///
/// A file that is missing reads as empty, and only a write into it makes it. Each file is open under
/// a descriptor that belongs to no standard stream, whichever of those are closed, and its owner alone
/// may read it once it was written.
///
/// After a sync that failed, every call fails: the system may have let go of what it could not
/// write, and a later sync would answer that all is there.
#[derive(Drop)]
pub struct Folder<'a, R: Files<File = File>> {
    runtime: &'a R,
    alloc: Global,
    path: &'a str,
    asked: bool,
    // the folder itself, under its lock; none where it is not open
    folder: Option<File>,
    // each file, or none where it is missing; empty where the folder is not open
    files: Vec<Option<Held>>,
    // the names in the folder are on the disk
    named: bool,
    // a sync has failed
    broken: bool,
    faults: u64,
}

impl<'a, R: Files<File = File>> Folder<'a, R> {
    /// The disk over the folder at this path. The first call opens it, and makes no file.
    ///
    /// Where that fails, or another process has the folder open, each call fails.
    pub fn new(runtime: &'a R, alloc: Global, path: &'a str) -> Folder<'a, R>
        ensures { result.faults ≡ 0 }
    {
        Folder {
            runtime,
            alloc,
            path,
            asked: false,
            folder: None,
            files: Vec::new(alloc),
            named: false,
            broken: false,
            faults: 0,
        }
    }

    // Locks the folder and opens its files, the first time.
    fn open_once(&mut self)
        ensures { self.new.faults ≡ self.old.faults }
    {
        if self.asked {
            return;
        }
        self.asked = true;
        if let Ok(folder) = lock_folder(self.runtime, self.path) {
            if let Ok(files) = open_files(self.runtime, self.alloc, self.path) {
                self.folder = Some(folder);
                self.files = files;
            }
        }
    }

    // The place of a file, where the folder is open and no sync has failed.
    fn held(&self, file: u8) -> io::Result<&Option<Held>> {
        match self.files.get(file as usize) {
            Some(held) if !self.broken => Ok(held),
            _ => Err(not_open()),
        }
    }

    // Counts a fault.
    fn fail(&mut self) -> DiskFailed
        ensures rose { Rose self.old.faults self.new.faults }
        ensures later { self.old.faults ≤ self.new.faults }
    {
        self.faults = self.faults.saturating_add(1);
        DiskFailed
    }

    // What a system call answered, with a fault counted where it failed.
    fn counted<T: Drop>(&mut self, answer: io::Result<T>) -> Result<T, DiskFailed>
        ensures { HasCause self.old.faults self.new.faults result }
    {
        match answer {
            Ok(value) => Ok(value),
            Err(_) => Err(self.fail()),
        }
    }

    fn length_of(&self, file: u8) -> io::Result<u64> {
        match self.held(file)? {
            Some(held) => Ok(held.file().metadata()?.len()),
            None => Ok(0),
        }
    }

    // Makes a file, where it is missing.
    fn make(&mut self, file: u8) -> io::Result<()>
        ensures { self.new.faults ≡ self.old.faults }
    {
        if self.held(file)?.is_some() {
            return Ok(());
        }
        let made = make_new(self.runtime, self.alloc, self.path, name_of(file)?)?;
        self.named = false;
        match self.files.get_mut(file as usize) {
            Some(place) => {
                *place = Some(made);
                Ok(())
            }
            None => Err(not_open()),
        }
    }

    fn write_into(&self, file: u8, at: u64, bytes: &[u8]) -> io::Result<()> {
        match self.held(file)? {
            Some(held) => {
                held.close_to_others()?;
                held.file().write_all_at(bytes, at)
            }
            // Nothing is to be written there.
            None => Ok(()),
        }
    }

    fn cut_to(&self, file: u8, len: u64) -> io::Result<()> {
        match self.held(file)? {
            Some(held) => {
                held.close_to_others()?;
                held.file().set_len(len)
            }
            None if len == 0 => Ok(()),
            None => Err(io::Error::from(ErrorKind::InvalidInput)),
        }
    }

    // Has the content of a file on the disk, and that it has its name still.
    fn sync_content(&self, file: u8) -> io::Result<()> {
        match self.held(file)? {
            Some(held) => {
                held.file().sync_data()?;
                held.check_name(self.runtime, self.alloc, self.path, name_of(file)?)
            }
            None => Ok(()),
        }
    }

    // Has the names in the folder on the disk.
    fn sync_names(&self) -> io::Result<()> {
        match &self.folder {
            Some(_) if self.named => Ok(()),
            Some(folder) => folder.sync_all(),
            None => Err(not_open()),
        }
    }
}

/// The answer of a folder that is not open.
fn not_open() -> io::Error {
    io::Error::from(ErrorKind::NotFound)
}

fn name_of(file: u8) -> io::Result<&'static str> {
    match NAMES.get(file as usize) {
        Some(name) => Ok(*name),
        None => Err(not_open()),
    }
}

/// The files that there are, by their numbers.
fn open_files<R: Files<File = File>>(
    rt: &R,
    alloc: Global,
    path: &str,
) -> io::Result<Vec<Option<Held>>> {
    let mut files = Vec::new(alloc);
    for name in NAMES {
        files.push(open_there(rt, alloc, path, name)?)?;
    }
    Ok(files)
}

impl<'a, R: Files<File = File>> Disk for Folder<'a, R> {
    ghost tells = { ⊥ };

    ghost view = { λ d. untold };

    ghost faults = { λ d. d.faults };

    ghost loans = { λ d. [] };

    fn length(&mut self, file: u8) -> Result<u64, DiskFailed> {
        self.open_once();
        let answer = self.length_of(file);
        self.counted(answer)
    }

    /// A file that is missing has nothing to give.
    fn read(&mut self, file: u8, at: u64, into: &mut [u8]) -> Result<usize, DiskFailed> {
        self.open_once();
        match self.held(file) {
            Ok(Some(held)) => match held.file().read_at(into, at) {
                Ok(count) => Ok(count),
                Err(_) => Err(self.fail()),
            },
            Ok(None) => Ok(0),
            Err(_) => Err(self.fail()),
        }
    }

    /// Makes a file that is missing. Where nothing is to be written, none is made.
    fn write_at(&mut self, file: u8, at: u64, bytes: &[u8]) -> Result<(), DiskFailed> {
        self.open_once();
        if !bytes.is_empty() {
            let made = self.make(file);
            self.counted(made)?;
        }
        let written = self.write_into(file, at, bytes);
        self.counted(written)
    }

    /// Makes no file: one that is missing can be cut to nothing alone.
    fn cut(&mut self, file: u8, len: u64) -> Result<(), DiskFailed> {
        self.open_once();
        let answer = self.cut_to(file, len);
        self.counted(answer)
    }

    /// Answers `Ok` once the content and the names in the folder are on the disk. Where that fails,
    /// or the file has lost its name, the folder is closed for good.
    fn sync(&mut self, file: u8) -> Result<(), DiskFailed> {
        self.open_once();
        let content = self.sync_content(file);
        let names = self.sync_names();
        match (content, names) {
            (Ok(()), Ok(())) => {
                self.named = true;
                Ok(())
            }
            _ => {
                self.broken = true;
                Err(self.fail())
            }
        }
    }

    ghost reads_as_image = { λ d tells. absurd tells };
}
