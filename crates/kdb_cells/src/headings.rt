//! The first unit of a file of cells, which names the realm.
ghost use Rattle.std.specs.Prelude.{◌≡◌, ◌≤◌, ◌++◌, true, length, OnOk};
ghost use Rattle.kdb_format.specs.Answers.{Finds, Gives, ReadsAs};
ghost use Rattle.kdb_format.specs.Readings.{literal_at, checked, counted_at};
ghost use Rattle.princ_name.specs.Realms.{is_realm as is_realm_text};
ghost use Rattle.kdb_cells.specs.CellFiles.{is_format};
ghost use Rattle.kdb_cells.specs.Cells.{unit_size as size_of_unit};
ghost use Rattle.kdb_cells.specs.Sheets.{magic, heading_at, heading};
ghost use Rattle.kdb_cells.specs.Scanning.{heading_of};

use crate::cells::unit_size;
use kdb_base::{MemoryOut, Point};
use kdb_format::moments::{push_point, read_point};
use kdb_format::reader::is_zero;
use kdb_format::writing::{push_bytes, push_counted};
use kdb_format::{FormatFault, Malformed, Reader};
use princ_name::{Realm, is_realm};
use std::alloc::Global;

// The text KDBC, and the format.
const MAGIC_1: [u8; 6] = [75, 68, 66, 67, 0, 1];

const MAGIC_2: [u8; 6] = [75, 68, 66, 67, 0, 2];

#[tactic(auto, unfolding(crate::specs::Sheets::magic, kdb_format::specs::Spellings::big))]
fn read_magic_1(reader: &mut Reader) -> Result<(), Malformed>
    ensures { ReadsAs (λ _. tt) result reader.new (literal_at (magic 1) reader.old) }
{
    reader.literal(&MAGIC_1)
}

#[tactic(auto, unfolding(crate::specs::Sheets::magic, kdb_format::specs::Spellings::big))]
fn read_magic_2(reader: &mut Reader) -> Result<(), Malformed>
    ensures { ReadsAs (λ _. tt) result reader.new (literal_at (magic 2) reader.old) }
{
    reader.literal(&MAGIC_2)
}

fn read_magic(format: u16, reader: &mut Reader) -> Result<(), Malformed>
    requires { is_format format ≡ true }
    ensures { ReadsAs (λ _. tt) result reader.new (literal_at (magic format) reader.old) }
{
    if format == 1 {
        read_magic_1(reader)
    } else {
        read_magic_2(reader)
    }
}

#[tactic(auto, unfolding(crate::specs::Sheets::magic, kdb_format::specs::Spellings::big))]
fn push_magic_1(out: &mut Vec<u8>) -> Result<(), MemoryOut>
    ensures { OnOk result (out.new.items ≡ out.old.items ++ magic 1) }
{
    push_bytes(out, &MAGIC_1)
}

#[tactic(auto, unfolding(crate::specs::Sheets::magic, kdb_format::specs::Spellings::big))]
fn push_magic_2(out: &mut Vec<u8>) -> Result<(), MemoryOut>
    ensures { OnOk result (out.new.items ≡ out.old.items ++ magic 2) }
{
    push_bytes(out, &MAGIC_2)
}

fn push_magic(format: u16, out: &mut Vec<u8>) -> Result<(), MemoryOut>
    requires { is_format format ≡ true }
    ensures { OnOk result (out.new.items ≡ out.old.items ++ magic format) }
{
    if format == 1 {
        push_magic_1(out)
    } else {
        push_magic_2(out)
    }
}

/// Adds what the first unit of a file of this format has before its zeros: the realm, and the point at
/// which the file is made. Only want of memory can refuse it.
#[tactic(auto, unfolding(crate::specs::Sheets::heading), using(princ_name::specs::Realms::realm_length))]
pub fn push_heading(
    out: &mut Vec<u8>,
    format: u16,
    realm: &Realm,
    made: &Point,
) -> Result<(), MemoryOut>
    requires { is_format format ≡ true }
    ensures { OnOk result (out.new.items ≡ out.old.items ++ heading format realm.now made.now) }
{
    push_magic(format, out)?;
    push_counted(out, realm.as_slice())?;
    push_point(out, *made)?;
    Ok(())
}

// A realm with its length in two bytes.
#[tactic(auto, unfolding(kdb_format::specs::Readings::checked))]
fn read_realm(alloc: Global, reader: &mut Reader) -> Result<Realm, FormatFault>
    ensures { Gives result reader.new (checked is_realm_text counted_at reader.old) }
{
    let bytes = reader.counted()?;
    if !is_realm(bytes) {
        return Err(FormatFault::Malformed);
    }
    Ok(Realm::from_bytes(alloc, bytes)?)
}

#[tactic(auto, unfolding(crate::specs::Sheets::heading_at))]
fn read_heading(alloc: Global, format: u16, reader: &mut Reader) -> Result<Realm, FormatFault>
    requires { is_format format ≡ true }
    ensures { Gives result reader.new (heading_at format reader.old) }
{
    read_magic(format, reader)?;
    let realm = read_realm(alloc, reader)?;
    let _made = read_point(reader)?;
    Ok(realm)
}

// Reads the heading with zeros behind it.
fn read_padded(alloc: Global, format: u16, reader: &mut Reader) -> Result<Realm, FormatFault>
    requires format { is_format format ≡ true }
    requires long { length reader.old ≡ size_of_unit format }
    ensures { Finds result (heading_of format reader.old) }
{
    let realm = read_heading(alloc, format, reader)?;
    if !is_zero(reader.rest()) {
        return Err(FormatFault::Malformed);
    }
    Ok(realm)
}

/// The realm that the first unit of a file of this format names. Malformed where it is not whole, or has
/// another format, no realm, or a byte behind the point that is not zero.
pub(crate) fn read_first(alloc: Global, format: u16, unit: &[u8]) -> Result<Realm, FormatFault>
    requires format { is_format format ≡ true }
    requires most { length unit.now ≤ size_of_unit format }
    ensures { Finds result (heading_of format unit.now) }
{
    if unit.len() < unit_size(format) {
        return Err(FormatFault::Malformed);
    }
    let mut reader = Reader::new(unit);
    read_padded(alloc, format, &mut reader)
}
