//! Lists of items of one format, with or without a count in front. A count that was read is never
//! trusted for an allocation: a list grows as its items are read.

ghost use Rattle.std.specs.Prelude.{◌≡◌, ◌++◌, ◌<◌, ◌^◌, length, OnOk};
ghost use Rattle.std.specs.List.{All, flat_map};
ghost use Rattle.kdb_format.specs.Answers.{GivesAs};
ghost use Rattle.kdb_format.specs.Readings.{list_at, counted_list_at};
ghost use Rattle.kdb_format.specs.Spellings.{counted_list};

use crate::faults::FormatFault;
use crate::format::Format;
use crate::reader::Reader;
use crate::writing::{push_u16, push_u32};
use kdb_base::MemoryOut;
use std::alloc::Global;

/// Reads `count` items.
pub fn read_items<F: Format>(
    alloc: Global,
    reader: &mut Reader,
    count: u32,
) -> Result<Vec<F::Value>, FormatFault>
    ensures { GivesAs (λ v. v.items) result reader.new (list_at F.reading count reader.old) }
{
    let mut items = Vec::new(alloc);
    for _ in 0..count {
        let item = F::read(alloc, reader)?;
        items.push(item)?;
    }
    Ok(items)
}

/// Reads a count in two bytes, and that many items.
#[tactic(auto, unfolding(crate::specs::Readings::counted_list_at))]
pub fn read_list_u16<F: Format>(
    alloc: Global,
    reader: &mut Reader,
) -> Result<Vec<F::Value>, FormatFault>
    ensures { GivesAs (λ v. v.items) result reader.new (counted_list_at 2 F.reading reader.old) }
{
    let count = reader.u16()?;
    read_items::<F>(alloc, reader, u32::from(count))
}

/// Reads a count in four bytes, and that many items.
#[tactic(auto, unfolding(crate::specs::Readings::counted_list_at))]
pub fn read_list_u32<F: Format>(
    alloc: Global,
    reader: &mut Reader,
) -> Result<Vec<F::Value>, FormatFault>
    ensures { GivesAs (λ v. v.items) result reader.new (counted_list_at 4 F.reading reader.old) }
{
    let count = reader.u32()?;
    read_items::<F>(alloc, reader, count)
}

/// Appends the items one after the other.
pub fn write_items<F: Format>(out: &mut Vec<u8>, items: &[F::Value]) -> Result<(), MemoryOut>
    requires { All F.fits items.now }
    ensures { OnOk result (out.new.items ≡ out.old.items ++ flat_map F.spelling items.now) }
{
    for item in items {
        F::write(out, item)?;
    }
    Ok(())
}

/// Appends the number of items in two bytes, and the items.
#[tactic(auto, unfolding(crate::specs::Spellings::counted_list))]
pub fn write_list_u16<F: Format>(out: &mut Vec<u8>, items: &[F::Value]) -> Result<(), MemoryOut>
    requires count { length items.now < 2 ^ 16 }
    requires fit { All F.fits items.now }
    ensures { OnOk result (out.new.items ≡ out.old.items ++ counted_list 2 F.spelling items.now) }
{
    push_u16(out, items.len() as u16)?;
    write_items::<F>(out, items)?;
    Ok(())
}

/// Appends the number of items in four bytes, and the items.
#[tactic(auto, unfolding(crate::specs::Spellings::counted_list))]
pub fn write_list_u32<F: Format>(out: &mut Vec<u8>, items: &[F::Value]) -> Result<(), MemoryOut>
    requires count { length items.now < 2 ^ 32 }
    requires fit { All F.fits items.now }
    ensures { OnOk result (out.new.items ≡ out.old.items ++ counted_list 4 F.spelling items.now) }
{
    push_u32(out, items.len() as u32)?;
    write_items::<F>(out, items)?;
    Ok(())
}
