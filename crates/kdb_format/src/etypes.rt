//! Encryption types as bytes: each by its number, in two bytes, in either order of bytes.

ghost use Rattle.std.specs.Prelude.{◌≡◌, ◌++◌, OnErr, OnOk};
ghost use Rattle.kdb_format.specs.Answers.{Reads};
ghost use Rattle.kdb_format.specs.Etypes.{etype_at, etype_text, etype_le_at, etype_le_text};
ghost use Rattle.kdb_format.specs.Fields.{IsField};

use crate::faults::Malformed;
use crate::reader::Reader;
use crate::writing::{push_u16, push_u16_le};
use kdb_base::{Etype, MemoryOut};

/// An encryption type by its number, the highest byte first. At an `Err` the number may have been
/// read.
#[tactic(auto, unfolding(crate::specs::Etypes::etype_at))]
pub fn read_etype(reader: &mut Reader) -> Result<Etype, Malformed>
    ensures { Reads result reader.new (etype_at reader.old) }
{
    let number = reader.u16()?;
    match Etype::from_number(number) {
        Some(etype) => Ok(etype),
        None => Err(Malformed),
    }
}

/// An encryption type by its number, the lowest byte first. At an `Err` the number may have been
/// read.
#[tactic(auto, unfolding(crate::specs::Etypes::etype_le_at))]
pub fn read_etype_le(reader: &mut Reader) -> Result<Etype, Malformed>
    ensures { Reads result reader.new (etype_le_at reader.old) }
{
    let number = reader.u16_le()?;
    match Etype::from_number(number) {
        Some(etype) => Ok(etype),
        None => Err(Malformed),
    }
}

/// Appends the number of the type, the highest byte first.
#[tactic(auto, unfolding(crate::specs::Etypes::etype_text))]
pub fn push_etype(out: &mut Vec<u8>, etype: Etype) -> Result<(), MemoryOut>
    ensures ok { OnOk result (out.new.items ≡ out.old.items ++ etype_text etype) }
    ensures err { OnErr result (out.new.items ≡ out.old.items) }
{
    push_u16(out, etype.number())
}

/// Appends the number of the type, the lowest byte first.
#[tactic(auto, unfolding(crate::specs::Etypes::etype_le_text))]
pub fn push_etype_le(out: &mut Vec<u8>, etype: Etype) -> Result<(), MemoryOut>
    ensures ok { OnOk result (out.new.items ≡ out.old.items ++ etype_le_text etype) }
    ensures err { OnErr result (out.new.items ≡ out.old.items) }
{
    push_u16_le(out, etype.number())
}

/// What is read as a type is spelled so, and what is spelled so is read, in either order of bytes. A
/// law, and no work.
pub fn types_are_read_as_spelled()
    ensures big { IsField etype_at etype_text (λ _. Unit {0}) }
    ensures little { IsField etype_le_at etype_le_text (λ _. Unit {0}) }
{}
