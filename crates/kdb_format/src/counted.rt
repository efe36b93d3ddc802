ghost use Rattle.kdb_format.specs.Readings.{counted_at as counted_reading};
ghost use Rattle.kdb_format.specs.Spellings.{counted as counted_spelling};
ghost use Rattle.kdb_format.specs.Laws.{counted_field};
ghost use Rattle.std.specs.Prelude.{◌<◌, ◌^◌, length};

use crate::faults::FormatFault;
use crate::format::Format;
use crate::reader::Reader;
use crate::writing::push_counted;
use kdb_base::{Blob, MemoryOut};
use std::alloc::Global;

/// A counted text: its length in two bytes, and its bytes.
pub enum Counted {}

impl Format for Counted {
    type Value = Blob;

    ghost reading = { counted_reading };

    ghost spelling = { counted_spelling };

    ghost fits = { λ bytes. length bytes < 2 ^ 16 };

    ghost is_field = { counted_field };

    fn read(alloc: Global, reader: &mut Reader) -> Result<Blob, FormatFault> {
        Ok(Blob::from_bytes(alloc, reader.counted()?)?)
    }

    fn write(out: &mut Vec<u8>, value: &Blob) -> Result<(), MemoryOut> {
        push_counted(out, value.as_slice())
    }
}
