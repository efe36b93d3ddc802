//! What a unit holds, read from its bytes and written into them.
ghost use Rattle.std.specs.Prelude.{◌≡◌, ◌≤◌, ◌<◌, ◌+◌, ◌^◌, Some, length, IfOk};
ghost use Rattle.kdb_format.specs.Answers.{Finds, Gives};
ghost use Rattle.kdb_format.specs.Readings.{checked};
ghost use Rattle.kdb_format.specs.Spellings.{counted, zeros};
ghost use Rattle.princ_record.specs.Policies.{policy, IsPolicy};
ghost use Rattle.princ_record.specs.Princs.{princ};
ghost use Rattle.princ_record.specs.RowLimits.{IsRow, row_at, policy_row_at};
ghost use Rattle.princ_record.specs.RowLaws.{row_field, policy_row_field};
ghost use Rattle.kdb_cells.specs.Cells.{Cell, unit_size, is_row_of, IsCell, in_state};
ghost use Rattle.kdb_cells.specs.Cells.{cell_at, cell_of, unit_text, unit_with};

use kdb_base::MemoryOut;
use kdb_base::limits::MAX_ROW_LEN;
use kdb_format::placing::{put_bytes, put_u8, put_u16};
use kdb_format::reader::is_zero;
use kdb_format::writing::push_u16;
use kdb_format::{Format, FormatFault, Reader, read_inside, read_next};
use policy_rules::Policy;
use princ_record::policies::push_policy;
use princ_record::princs::push_princ;
use princ_record::{PolicyFormat, Princ, PrincFormat, encoded_len, is_row_1};
use std::alloc::Global;

/// A row of a file of cells.
#[derive(Debug, Drop)]
pub enum StoredRow {
    Princ(Princ),
    Policy(Policy),
}

/// The state of a unit that has no row.
pub const FREE: u8 = 0;

/// The state of a unit that has a principal's row.
pub const PRINC: u8 = 1;

/// The state of a unit that has a policy's row.
pub const POLICY: u8 = 2;

/// A principal's row with its length in two bytes.
enum PrincRow {}

impl Format for PrincRow {
    type Value = Princ;

    ghost reading = { row_at };

    ghost spelling = { λ p. counted (princ p) };

    ghost fits = { IsRow };

    ghost is_field = { row_field };

    #[tactic(auto, unfolding(princ_record::specs::RowLimits::row_at, kdb_format::specs::Readings::checked))]
    fn read(alloc: Global, reader: &mut Reader) -> Result<Princ, FormatFault> {
        let len = usize::from(reader.u16()?);
        if len > MAX_ROW_LEN {
            return Err(FormatFault::Malformed);
        }
        let princ = read_inside::<PrincFormat>(alloc, reader, len)?;
        Ok(princ)
    }

    #[tactic(auto, unfolding(kdb_format::specs::Spellings::counted))]
    fn write(out: &mut Vec<u8>, value: &Princ) -> Result<(), MemoryOut> {
        push_u16(out, encoded_len(value) as u16)?;
        push_princ(out, value)?;
        Ok(())
    }
}

#[tactic(auto, unfolding(princ_record::specs::RowLimits::policy_row_at))]
fn read_policy(alloc: Global, reader: &mut Reader) -> Result<Policy, FormatFault>
    ensures { Gives result reader.new (policy_row_at reader.old) }
{
    let len = reader.u16()?;
    let policy = read_inside::<PolicyFormat>(alloc, reader, usize::from(len))?;
    Ok(policy)
}

// Whether files of this format may have the row.
fn is_row_of(format: u16, princ: &Princ) -> bool
    requires { IsRow princ.now }
    ensures { result ≡ is_row_of format princ.now }
{
    format != 1 || is_row_1(princ)
}

#[tactic(auto, unfolding(kdb_format::specs::Readings::checked))]
fn read_princ(alloc: Global, format: u16, reader: &mut Reader) -> Result<Princ, FormatFault>
    ensures { Gives result reader.new (checked (is_row_of format) row_at reader.old) }
{
    let princ = read_next::<PrincRow>(alloc, reader)?;
    if !is_row_of(format, &princ) {
        return Err(FormatFault::Malformed);
    }
    Ok(princ)
}

// Reads what stands behind the state.
#[tactic(auto, unfolding(crate::specs::Cells::in_state))]
fn read_in_state(
    alloc: Global,
    format: u16,
    reader: &mut Reader,
    state: u8,
) -> Result<Option<StoredRow>, FormatFault>
    ensures { Gives result reader.new (in_state format state reader.old) }
{
    match state {
        FREE => Ok(None),
        PRINC => {
            let princ = read_princ(alloc, format, reader)?;
            Ok(Some(StoredRow::Princ(princ)))
        }
        POLICY => {
            let policy = read_policy(alloc, reader)?;
            Ok(Some(StoredRow::Policy(policy)))
        }
        _ => Err(FormatFault::Malformed),
    }
}

#[tactic(auto, unfolding(crate::specs::Cells::cell_at))]
fn read_cell(
    alloc: Global,
    format: u16,
    reader: &mut Reader,
) -> Result<Option<StoredRow>, FormatFault>
    ensures { Gives result reader.new (cell_at format reader.old) }
{
    let state = reader.u8()?;
    read_in_state(alloc, format, reader, state)
}

// Reads a cell with zeros behind it.
fn read_padded(
    alloc: Global,
    format: u16,
    reader: &mut Reader,
) -> Result<Option<StoredRow>, FormatFault>
    requires long { length reader.old ≡ unit_size format }
    ensures { Finds result (cell_of format reader.old) }
{
    let cell = read_cell(alloc, format, reader)?;
    if !is_zero(reader.rest()) {
        return Err(FormatFault::Malformed);
    }
    Ok(cell)
}

/// The row that the bytes of a unit spell in files of this format, or None where the unit is free.
/// Malformed where they spell no unit: a state above 2, a row that breaks its grammar or that the
/// format does not have, or a byte behind the row that is not zero.
pub fn read_unit(alloc: Global, format: u16, unit: &[u8]) -> Result<Option<StoredRow>, FormatFault>
    requires long { length unit.now ≡ unit_size format }
    // What is read is spelled so.
    ensures found { IfOk result (λ c. (unit.now ≡ unit_text format c) × IsCell format c) }
    // What is spelled so is read, unless memory runs out.
    ensures only { (c : Cell) → IsCell format c → unit.now ≡ unit_text format c → Finds result (Some c) }
    ensures exact { Finds result (cell_of format unit.now) }
{
    let mut reader = Reader::new(unit);
    read_padded(alloc, format, &mut reader)
}

/// Writes zeros over the unit, as a free one has.
#[tactic(auto, unfolding(kdb_format::specs::Spellings::zeros))]
pub fn clear_unit(unit: &mut [u8])
    ensures { unit.new ≡ zeros (length unit.old) }
{
    unit.fill(0);
}

/// Writes the row into the unit: its kind, its length, its bytes, and zeros to the unit's end.
pub fn fill_unit(unit: &mut [u8], kind: u8, row: &[u8])
    requires counted { length row.now < 2 ^ 16 }
    requires room { 3 + length row.now ≤ length unit.old }
    ensures { unit.new ≡ unit_with (length unit.old) kind row.now }
{
    clear_unit(unit);
    put_u8(unit, 0, kind);
    put_u16(unit, 1, row.len() as u16);
    put_bytes(unit, 3, row);
}
