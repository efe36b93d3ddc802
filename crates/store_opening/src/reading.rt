//! What is in force on a disk, read piece by piece. Nothing here changes a file.
ghost use Rattle.std.specs.Prelude.{◌≡◌, ◌≤◌, ◌<◌, nat_le, IfOk, IfErr, IsErr, Err};
ghost use Rattle.kdb_base.specs.declared.outcomes.Halt.TheVariants.{DiskFault as IsDiskFault};
ghost use Rattle.kdb_base.specs.declared.outcomes.Refusal.{Refusal as Refuses};
ghost use Rattle.kdb_base.specs.declared.outcomes.Stop.TheVariants.{Refused, Halt as Halts};
ghost use Rattle.kdb_disk.specs.Frames.{IsCall};
ghost use Rattle.kdb_disk.specs.Moments.{Keeps};
ghost use Rattle.kdb_disk.specs.Reader.{held_of};
ghost use Rattle.kdb_disk.specs.View.{View};
ghost use Rattle.kdb_control.specs.declared.force.Force.TheVariants.{Is};
ghost use Rattle.kdb_control.specs.Force.{in_force};
ghost use Rattle.kdb_cells.specs.Sheets.{count_of};
ghost use Rattle.store_files.specs.Found.{found_in, stash_in};
ghost use Rattle.store_files.specs.Standing.{HasFiles};
ghost use Rattle.store_opening.specs.Looking.{StopsOpening};

use kdb_base::{Blob, Halt, Refusal, Stop};
use kdb_cells::unit_size;
use kdb_control::{Control, ControlStop, read};
use kdb_disk::{Disk, DiskFailed, FileReader};
use std::alloc::Global;

/// Tells a proof that the files of a choice are apart, and does nothing.
pub(crate) fn holds_files(control: &Control)
    ensures { HasFiles control.now }
{
    let _image = control.image;
}

/// What is in force, or why nothing is.
pub(crate) fn read_control<D: Disk>(disk: &mut D) -> Result<Control, Stop>
    ensures force { D.tells → IfOk result (λ control. in_force ((D.view disk.old).seen 0) ≡ Is control) }
    ensures refused { D.tells → (r : Refuses) → result ≡ Err (Refused r) → found_in (D.view disk.old).seen ≡ Err r }
    ensures stops { IfErr result StopsOpening }
    ensures keeps { D.tells → Keeps (D.view disk.old) (D.view disk.new) }
    ensures call { IsCall D.Disk disk.old disk.new (result ≡ Err (Halts IsDiskFault)) }
{
    match read(disk) {
        Ok(control) => Ok(control),
        Err(ControlStop::NotADatabase) => Err(Stop::Refused(Refusal::NotADatabase)),
        Err(ControlStop::Damaged { file, place }) => {
            Err(Stop::Refused(Refusal::Damaged { file, place }))
        }
        Err(ControlStop::DiskFault) => Err(Stop::Halt(Halt::DiskFault)),
    }
}

// All bytes of a file.
fn read_file<D: Disk>(alloc: Global, disk: &mut D, file: u8) -> Result<FileReader, Halt>
    requires { file < 7 }
    ensures bytes { D.tells → IfOk result (λ r. held_of r ≡ (D.view disk.old).seen file) }
    ensures keeps { D.tells → Keeps (D.view disk.old) (D.view disk.new) }
    ensures call { IsCall D.Disk disk.old disk.new (result ≡ Err IsDiskFault) }
{
    let length = match disk.length(file) {
        Ok(length) => length as usize,
        Err(_) => return Err(Halt::DiskFault),
    };
    let mut reader = match FileReader::open(alloc, disk, file, 0) {
        Ok(reader) => reader,
        Err(_) => return Err(Halt::DiskFault),
    };
    match reader.fill(disk, length) {
        Ok(()) => Ok(reader),
        Err(halt) => Err(halt),
    }
}

// A copy of all bytes of a file.
fn copy_file<D: Disk>(alloc: Global, disk: &mut D, file: u8) -> Result<Blob, Halt>
    requires { file < 7 }
    ensures found { D.tells → IfOk result (λ copy. copy ≡ (D.view disk.old).seen file) }
    ensures keeps { D.tells → Keeps (D.view disk.old) (D.view disk.new) }
    ensures call { IsCall D.Disk disk.old disk.new (result ≡ Err IsDiskFault) }
{
    match read_file(alloc, disk, file) {
        Ok(reader) => match Blob::from_bytes(alloc, reader.held()) {
            Ok(copy) => Ok(copy),
            Err(_) => Err(Halt::MemoryOut),
        },
        Err(halt) => Err(halt),
    }
}

// The file of the stash, or 0 for none.
#[tactic(auto, using(crate::proofs::Ranges::stash_high))]
fn stash_file(control: &Control) -> u8
    ensures value { result ≡ control.now.stash }
    ensures high { result ≤ 6 }
{
    control.stash
}

/// The bytes of the stash, where the choice names its file.
#[tactic(auto, unfolding(store_files::specs::Found::stash_in))]
pub(crate) fn read_stash<D: Disk>(
    alloc: Global,
    disk: &mut D,
    control: &Control,
) -> Result<Option<Blob>, Halt>
    ensures found { D.tells → IfOk result (λ stash. stash ≡ stash_in control.now (D.view disk.old).seen) }
    ensures keeps { D.tells → Keeps (D.view disk.old) (D.view disk.new) }
    ensures call { IsCall D.Disk disk.old disk.new (result ≡ Err IsDiskFault) }
{
    let file = stash_file(control);
    if file == 0 {
        return Ok(None);
    }
    match copy_file(alloc, disk, file) {
        Ok(stash) => Ok(Some(stash)),
        Err(halt) => Err(halt),
    }
}

// The file of cells, and that it is one of the first two.
#[tactic(auto, using(crate::proofs::Ranges::image_high))]
fn image_file(control: &Control) -> u8
    ensures value { result ≡ control.now.image }
    ensures high { result ≤ 2 }
{
    control.image
}

/// Whether the unit of this number is in the file of cells, or the next one.
#[tactic(auto, unfolding(kdb_cells::specs::Sheets::count_of))]
pub(crate) fn may_have_unit<D: Disk>(
    disk: &mut D,
    control: &Control,
    cell: u32,
) -> Result<bool, DiskFailed>
    ensures value { D.tells → IfOk result
        (λ within. within ≡ nat_le cell (count_of control.now.format ((D.view disk.old).seen control.now.image))) }
    ensures keeps { D.tells → Keeps (D.view disk.old) (D.view disk.new) }
    ensures call { IsCall D.Disk disk.old disk.new (IsErr result) }
{
    let length = disk.length(image_file(control))?;
    Ok(u64::from(cell) <= length / unit_size(control.format) as u64)
}
