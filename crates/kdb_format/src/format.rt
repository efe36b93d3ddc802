ghost use Rattle.std.specs.Prelude.{◌≡◌, ◌≤◌, ◌++◌, List, ℕ, length, IfOk, OnOk, Some};
ghost use Rattle.kdb_format.specs.Answers.{Finds, Gives};
ghost use Rattle.kdb_format.specs.Fields.{IsAtMost, IsBytes, IsField};
ghost use Rattle.kdb_format.specs.Readings.{Reading, inside, padded, whole};

use crate::faults::FormatFault;
use crate::reader::{Reader, is_zero};
use kdb_base::MemoryOut;
use std::alloc::Global;

/// A format of values: a reading, a spelling, and which values have one. An enum with no variants
/// stands for it, so that a type may have several formats.
pub trait Format {
    type Value: Drop;

    // The value at the front of bytes, and the bytes after it.
    ghost reading: { Reading Self.Value };

    // The bytes that stand for a value.
    ghost spelling: { Self.Value → List ℕ };

    // The value has a spelling.
    ghost fits: { Self.Value → Type 0 };

    /// Reads the next value. After an `Err` the reader stands somewhere in it.
    fn read(alloc: Global, reader: &mut Reader) -> Result<Self::Value, FormatFault>
        ensures { Gives result reader.new (reading reader.old) };

    /// Appends the spelling of the value. After an `Err` a part of it may stand there.
    fn write(out: &mut Vec<u8>, value: &Self::Value) -> Result<(), MemoryOut>
        requires { fits value.now }
        ensures { OnOk result (out.new.items ≡ out.old.items ++ spelling value.now) };

    // What is read is spelled so, and what is spelled so is read.
    ghost is_field: { IsField reading spelling fits };
}

/// The next value. After an `Err` the reader stands somewhere in it.
pub fn read_next<F: Format>(alloc: Global, reader: &mut Reader) -> Result<F::Value, FormatFault>
    // What is read is spelled so.
    ensures found { IfOk result (λ x. (reader.old ≡ F.spelling x ++ reader.new) × F.fits x) }
    // What is spelled so is read, whatever follows, unless memory runs out.
    ensures only { (x : F.Value) (rest : List ℕ) → F.fits x → reader.old ≡ F.spelling x ++ rest
        → Gives result reader.new (Some (x, rest)) }
    // Where the longest value would be held, the answer is that of a reader of all the bytes.
    ensures window { (longest : ℕ) (more : List ℕ) → IsAtMost longest F.spelling F.fits → IsBytes more
        → longest ≤ length reader.old → Gives result (reader.new ++ more) (F.reading (reader.old ++ more)) }
    ensures exact { Gives result reader.new (F.reading reader.old) }
{
    reader.holds_bytes();
    read_front::<F>(alloc, reader)
}

fn read_front<F: Format>(alloc: Global, reader: &mut Reader) -> Result<F::Value, FormatFault>
    ensures { Gives result reader.new (F.reading reader.old) }
{
    F::read(alloc, reader)
}

/// The value that the next n bytes spell, each byte of them.
#[tactic(auto, unfolding(crate::specs::Readings::inside))]
pub fn read_inside<F: Format>(
    alloc: Global,
    reader: &mut Reader,
    n: usize,
) -> Result<F::Value, FormatFault>
    ensures { Gives result reader.new (inside n F.reading reader.old) }
{
    let bytes = reader.bytes(n)?;
    let value = read_all::<F>(alloc, bytes)?;
    Ok(value)
}

/// The value in the next n bytes, with zeros behind it.
#[tactic(auto, unfolding(crate::specs::Readings::padded))]
pub fn read_padded<F: Format>(
    alloc: Global,
    reader: &mut Reader,
    n: usize,
) -> Result<F::Value, FormatFault>
    ensures { Gives result reader.new (padded n F.reading reader.old) }
{
    let mut part = Reader::new(reader.bytes(n)?);
    let value = F::read(alloc, &mut part)?;
    if !is_zero(part.rest()) {
        return Err(FormatFault::Malformed);
    }
    Ok(value)
}

/// The value that the bytes spell, each byte of them.
#[tactic(auto, unfolding(crate::specs::Readings::whole))]
fn read_all<F: Format>(alloc: Global, bytes: &[u8]) -> Result<F::Value, FormatFault>
    ensures { Finds result (whole F.reading bytes.now) }
{
    let mut reader = Reader::new(bytes);
    let value = F::read(alloc, &mut reader)?;
    if !reader.is_empty() {
        return Err(FormatFault::Malformed);
    }
    Ok(value)
}

/// The value that the bytes spell, each byte of them.
pub fn read_whole<F: Format>(alloc: Global, bytes: &[u8]) -> Result<F::Value, FormatFault>
    // What is read is spelled so.
    ensures found { IfOk result (λ x. (bytes.now ≡ F.spelling x) × F.fits x) }
    // What is spelled so is read, unless memory runs out.
    ensures only { (x : F.Value) → F.fits x → bytes.now ≡ F.spelling x → Finds result (Some x) }
    ensures exact { Finds result (whole F.reading bytes.now) }
{
    read_all::<F>(alloc, bytes)
}
