//! The files of a folder: how each is opened and made, so that none of them is taken for a standard
//! stream, read by others, or a link to somewhere else.
ghost use Rattle.std.specs.Prelude.{◌≡◌, IfOk};
ghost use Rattle.std.specs.Fd.{file_raw_fd};
ghost use Rattle.kdb_disk.specs.Descriptors.{IsAboveStreams};

use std::alloc::Global;
use std::fs::{File, Metadata, OpenOptions, Permissions};
use std::io::ErrorKind;
use std::marker::Model;
use std::os::fd::AsRawFd;
use std::os::unix::fs::{MetadataExt, OpenOptionsExt, PermissionsExt};
use std::path::Path;
use std::rt::Files;
use std::{fs, io};

/// The last of the descriptors that belong to the standard streams.
const LAST_STREAM: i32 = 2;

/// Its owner reads and writes a file, and nobody else does.
const MODE: u32 = 0o600;

/// The permissions of a file, with the bits that change who a program runs as.
const PERMISSIONS: u32 = 0o7777;

/// What is in the place of a file is none that a database may have.
fn refused() -> io::Error {
    io::Error::from(ErrorKind::InvalidInput)
}

/// The file under a descriptor that belongs to no standard stream. A lower one, which the system gives
/// where a stream was closed, is closed again.
fn above_streams(file: File) -> io::Result<File>
    ensures { IfOk result (λ file. IsAboveStreams (file_raw_fd file)) }
{
    if file.as_raw_fd() > LAST_STREAM {
        return Ok(file);
    }
    let copy = file.try_clone()?;
    if copy.as_raw_fd() > LAST_STREAM {
        Ok(copy)
    } else {
        Err(refused())
    }
}

/// Whether two looks found the same file.
fn is_same(one: &Metadata, other: &Metadata) -> bool {
    one.dev() == other.dev() && one.ino() == other.ino()
}

/// An open file of the folder, and which file it is. By its type, its descriptor belongs to no standard
/// stream.
#[derive(Drop)]
pub(crate) struct Held {
    file: File,
    found: Metadata,
}

impl Model for Held {
    ghost use Rattle.std.specs.Fd.{file_raw_fd};
    ghost use Rattle.std.specs.Prelude.{ℤ};
    ghost use Rattle.kdb_disk.specs.Descriptors.{IsAboveStreams};

    ghost Value = { ℤ };

    ghost view = { λ held. file_raw_fd held.file };

    ghost invariant = { λ held. IsAboveStreams (file_raw_fd held.file) };
}

impl Held {
    /// The open file.
    pub(crate) fn file(&self) -> &File
        ensures same { file_raw_fd result.now ≡ self.now }
        ensures above { IsAboveStreams (file_raw_fd result.now) }
    {
        &self.file
    }

    /// Refuses where this file no longer has its name.
    pub(crate) fn check_name<R: Files<File = File>>(
        &self,
        rt: &R,
        alloc: Global,
        folder: &str,
        name: &str,
    ) -> io::Result<()> {
        let place = Path::new(folder).join(alloc, name)?;
        let found = fs::symlink_metadata(rt, place.as_path())?;
        if is_same(&found, &self.found) {
            Ok(())
        } else {
            Err(refused())
        }
    }

    /// Takes away whatever permission another than the owner has.
    pub(crate) fn close_to_others(&self) -> io::Result<()> {
        let found = self.file.metadata()?;
        if found.mode() & PERMISSIONS & !MODE == 0 {
            return Ok(());
        }
        self.file.set_permissions(Permissions::from_mode(MODE))
    }
}

/// The folder, locked against every other opening of it, under a descriptor of its own.
pub(crate) fn lock_folder<R: Files<File = File>>(rt: &R, folder: &str) -> io::Result<File>
    ensures { IfOk result (λ file. IsAboveStreams (file_raw_fd file)) }
{
    let opened = OpenOptions::new().read(true).open(rt, folder)?;
    let file = above_streams(opened)?;
    file.try_lock()?;
    Ok(file)
}

/// The file of this name, or nothing where there is none. It is opened for reading and writing.
///
/// What is no file is refused, a symbolic link too, and so is a name that has come to another file
/// meanwhile.
pub(crate) fn open_there<R: Files<File = File>>(
    rt: &R,
    alloc: Global,
    folder: &str,
    name: &str,
) -> io::Result<Option<Held>> {
    let place = Path::new(folder).join(alloc, name)?;
    let found = match fs::symlink_metadata(rt, place.as_path()) {
        Ok(found) => found,
        Err(error) if error.kind() == ErrorKind::NotFound => return Ok(None),
        Err(error) => return Err(error),
    };
    if !found.is_file() {
        return Err(refused());
    }
    let opened = OpenOptions::new()
        .read(true)
        .write(true)
        .open(rt, place.as_path())?;
    let file = above_streams(opened)?;
    if !is_same(&found, &file.metadata()?) {
        return Err(refused());
    }
    Ok(Some(Held { file, found }))
}

/// Makes the file of this name, which its owner alone may read. It is refused where there is
/// something of this name.
pub(crate) fn make_new<R: Files<File = File>>(
    rt: &R,
    alloc: Global,
    folder: &str,
    name: &str,
) -> io::Result<Held> {
    let place = Path::new(folder).join(alloc, name)?;
    let opened = OpenOptions::new()
        .read(true)
        .write(true)
        .create_new(true)
        .mode(MODE)
        .open(rt, place.as_path())?;
    let file = above_streams(opened)?;
    let found = file.metadata()?;
    Ok(Held { file, found })
}
