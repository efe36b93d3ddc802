ghost use Rattle.std.specs.Prelude.{◌≡◌, ◌++◌, [], ◌∷◌, None, map, IfOk, IfSome, OnOk};
ghost use Rattle.princ_name.specs.Bytes.{printed_byte};
ghost use Rattle.princ_name.specs.Names.{printed, printed_parts, printed_text, behind_parts};

use crate::names::Name;
use kdb_base::{Blob, MemoryOut};
use std::alloc::Global;

/// The byte that a backslash stands before, where this one is printed with a backslash.
#[tactic(auto, unfolding(crate::specs::Bytes::printed_byte, crate::specs::Bytes::is_sign))]
fn letter_of(byte: u8) -> Option<u8>
    ensures some { IfSome result (λ letter. printed_byte byte ≡ 92 ∷ letter ∷ []) }
    ensures none { result ≡ None → printed_byte byte ≡ byte ∷ [] }
{
    match byte {
        b'\n' => Some(b'n'),
        b'\t' => Some(b't'),
        8 => Some(b'b'),
        0 => Some(b'0'),
        b'/' | b'@' | b'\\' => Some(byte),
        _ => None,
    }
}

fn push(out: &mut Vec<u8>, byte: u8) -> Result<(), MemoryOut>
    ensures { OnOk result (out.new.items ≡ out.old.items ++ byte ∷ []) }
{
    out.push(byte)?;
    Ok(())
}

fn push_byte(out: &mut Vec<u8>, byte: u8) -> Result<(), MemoryOut>
    ensures { OnOk result (out.new.items ≡ out.old.items ++ printed_byte byte) }
{
    match letter_of(byte) {
        Some(letter) => {
            push(out, b'\\')?;
            push(out, letter)?;
            Ok(())
        }
        None => {
            push(out, byte)?;
            Ok(())
        }
    }
}

fn push_text(out: &mut Vec<u8>, text: &[u8]) -> Result<(), MemoryOut>
    ensures { OnOk result (out.new.items ≡ out.old.items ++ printed_text text.now) }
{
    for byte in text {
        push_byte(out, *byte)?;
    }
    Ok(())
}

/// Appends components, each with a `/` before it.
fn push_behind(out: &mut Vec<u8>, parts: &[Blob]) -> Result<(), MemoryOut>
    ensures { OnOk result (out.new.items ≡ out.old.items ++ behind_parts parts.now) }
{
    for part in parts {
        push(out, b'/')?;
        push_text(out, part.as_slice())?;
    }
    Ok(())
}

fn push_parts(out: &mut Vec<u8>, parts: &[Blob]) -> Result<(), MemoryOut>
    ensures { OnOk result (out.new.items ≡ out.old.items ++ printed_parts parts.now) }
{
    match parts.split_first() {
        Some((first, others)) => {
            push_text(out, first.as_slice())?;
            push_behind(out, others)?;
            Ok(())
        }
        None => Ok(()),
    }
}

/// The one printed form of a name, at most 255 bytes. `parse_name` reads it as the name again, whatever
/// realm it is given. Only want of memory can refuse it.
#[tactic(auto, unfolding(crate::specs::Names::printed))]
pub fn print_name(alloc: Global, name: &Name) -> Result<Blob, MemoryOut>
    ensures { IfOk result (λ text. text ≡ printed name.now) }
{
    let mut out = Vec::with_capacity(alloc, name.printed_len())?;
    push_parts(&mut out, name.parts())?;
    push(&mut out, b'@')?;
    push_text(&mut out, name.realm())?;
    Ok(Blob::from_vec(out))
}
