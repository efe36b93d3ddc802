//! Whole files of cells, read from a disk.
ghost use Rattle.std.specs.Prelude.{◌≡◌, ◌≤◌, ◌<◌, ◌+◌, ◌*◌, ◌/◌, ◌^◌, ℕ, List, true, Some};
ghost use Rattle.std.specs.Prelude.{None, Err, length, take, drop, max, IfOk, IfErr, OnOk};
ghost use Rattle.kdb_base.specs.declared.outcomes.Refusal.{Refusal as Refuses};
ghost use Rattle.kdb_base.specs.declared.outcomes.Refusal.TheVariants.{Damaged};
ghost use Rattle.kdb_base.specs.declared.outcomes.Stop.TheVariants.{Refused, Halt as Halts};
ghost use Rattle.kdb_base.specs.declared.outcomes.Halt.TheVariants.{DiskFault as IsDiskFault};
ghost use Rattle.kdb_disk.specs.Frames.{IsCall};
ghost use Rattle.kdb_disk.specs.Moments.{Keeps};
ghost use Rattle.kdb_disk.specs.Reader.{left_of, IsOver};
ghost use Rattle.kdb_disk.specs.View.{View};
ghost use Rattle.kdb_cells.specs.Cells.{unit_size as size_of_unit};
ghost use Rattle.kdb_cells.specs.CellFiles.{is_image, is_format};
ghost use Rattle.kdb_cells.specs.Scanning.{heading_of, end_of, MaySkip, IsDamage};
ghost use Rattle.kdb_cells.specs.Scanning.{IsDamaged, AreApart, AreScanned, IsScanned};

use crate::cells::{Cells, unit_size};
use crate::headings::read_first;
use crate::scanning::{gather, is_torn};
use kdb_base::{Halt, Refusal, Stop};
use kdb_disk::{Disk, FileReader};
use kdb_format::FormatFault;
use policy_rules::Policy;
use princ_name::Realm;
use princ_record::Princ;
use princ_rows::Boxed;
use std::alloc::Global;
use std::cmp::{max, min};

/// What a file of cells holds: its cells, its realm, and its rows in the order of their units.
#[derive(Drop)]
pub struct Scanned {
    pub cells: Cells,
    pub realm: Realm,
    pub princs: Vec<Boxed<Princ>>,
    pub policies: Vec<Boxed<Policy>>,
}

// Reads the realm in the first unit.
fn read_realm<D: Disk>(
    alloc: Global,
    disk: &mut D,
    file: u8,
    format: u16,
    reader: &mut FileReader,
) -> Result<Realm, Stop>
    requires format { is_format format ≡ true }
    requires over { D.tells → IsOver reader.old (D.view disk.old).seen }
    ensures found { D.tells → IfOk result (λ realm.
        heading_of format (take (size_of_unit format) (left_of reader.old (D.view disk.old).seen)) ≡ Some realm) }
    ensures refused { D.tells → (r : Refuses) → result ≡ Err (Refused r) → (r ≡ Damaged file 0)
        × (heading_of format (take (size_of_unit format) (left_of reader.old (D.view disk.old).seen)) ≡ None) }
    ensures damage { IfErr result IsDamage }
    ensures left { D.tells → OnOk result (left_of reader.new (D.view disk.new).seen
        ≡ drop (size_of_unit format) (left_of reader.old (D.view disk.old).seen)) }
    ensures over { D.tells → IsOver reader.new (D.view disk.new).seen }
    ensures keeps { D.tells → Keeps (D.view disk.old) (D.view disk.new) }
    ensures call { IsCall D.Disk disk.old disk.new (result ≡ Err (Halts IsDiskFault)) }
{
    let size = unit_size(format);
    match reader.fill(disk, size) {
        Ok(()) => {}
        Err(halt) => return Err(Stop::Halt(halt)),
    }
    let count = min(size, reader.held().len());
    let realm = match read_first(alloc, format, &reader.held()[..count]) {
        Ok(realm) => realm,
        Err(FormatFault::Malformed) => {
            return Err(Stop::Refused(Refusal::Damaged { file, place: 0 }));
        }
        Err(FormatFault::MemoryOut) => return Err(Stop::Halt(Halt::MemoryOut)),
    };
    reader.take(count);
    Ok(realm)
}

// How many units of this format a file of this length has, with one passed over.
fn unit_end(format: u16, torn: Option<u32>, length: u64) -> u64
    ensures value { result ≡ max 1 (end_of torn (length / size_of_unit format)) }
    ensures first { 1 ≤ result }
    ensures fits { result * size_of_unit format < 2 ^ 64 }
{
    let count = length / unit_size(format) as u64;
    if is_torn(torn, count) {
        max(1, count + 1)
    } else {
        max(1, count)
    }
}

/// The cells, the realm and the rows of a file. `torn` is the number of a unit that is passed over, as
/// though it were free: it may have any bytes. It is then given for the [`Cells::put`] or
/// [`Cells::take_out`] that comes next. Damaged at the place of the first unit that breaks the grammar
/// of its format, stands too far, has the key of one before it, or is one row too many; a file whose
/// first unit names no realm is damaged at its begin.
///
/// The file is read once, in pieces.
pub fn scan<D: Disk>(
    alloc: Global,
    disk: &mut D,
    file: u8,
    format: u16,
    torn: Option<u32>,
) -> Result<Scanned, Stop>
    requires image { is_image file ≡ true }
    requires format { is_format format ≡ true }
    requires low { (i : ℕ) → torn ≡ Some i → 1 ≤ i }
    requires torn { D.tells → MaySkip format torn ((D.view disk.old).seen file) }
    ensures scanned { D.tells → IfOk result
        (λ s. IsScanned s.cells s.realm s.princs.items s.policies.items torn ((D.view disk.old).seen file)) }
    ensures gathered { IfOk result
        (λ s. AreScanned D.tells s.cells s.realm s.princs.items s.policies.items torn ((D.view disk.old).seen file)) }
    ensures apart { IfOk result (λ s. AreApart s.princs.items s.policies.items) }
    ensures file { IfOk result (λ s. s.cells.file ≡ file) }
    ensures format { IfOk result (λ s. s.cells.format ≡ format) }
    ensures refused { D.tells → (r : Refuses) → result ≡ Err (Refused r)
        → IsDamaged file format torn ((D.view disk.old).seen file) r }
    // whatever the disk tells
    ensures damage { IfErr result IsDamage }
    ensures keeps { D.tells → Keeps (D.view disk.old) (D.view disk.new) }
    ensures call { IsCall D.Disk disk.old disk.new (result ≡ Err (Halts IsDiskFault)) }
{
    let length = match disk.length(file) {
        Ok(length) => length,
        Err(_) => return Err(Stop::Halt(Halt::DiskFault)),
    };
    let mut reader = match FileReader::open(alloc, disk, file, 0) {
        Ok(reader) => reader,
        Err(_) => return Err(Stop::Halt(Halt::DiskFault)),
    };
    let realm = match read_realm(alloc, disk, file, format, &mut reader) {
        Ok(realm) => realm,
        Err(stop) => return Err(stop),
    };
    let end = unit_end(format, torn, length);
    let gathered = match gather(alloc, disk, file, format, torn, end, &mut reader) {
        Ok(gathered) => gathered,
        Err(stop) => return Err(stop),
    };
    match Cells::with_index(alloc, file, format, gathered.index) {
        Ok(cells) => Ok(Scanned {
            cells,
            realm,
            princs: gathered.princs,
            policies: gathered.policies,
        }),
        Err(_) => Err(Stop::Halt(Halt::MemoryOut)),
    }
}
