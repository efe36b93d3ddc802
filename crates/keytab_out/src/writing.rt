//! Writing a keytab.

ghost use Rattle.std.specs.Prelude.{◌≡◌, ◌++◌, ◌<◌, ◌^◌, length, map, IfOk, OnOk};
ghost use Rattle.std.specs.List.{All, flat_map};
ghost use Rattle.stash_file.specs.Answers.{told};
ghost use Rattle.stash_file.specs.Keytabs.{IsKeytab};
ghost use Rattle.keytab_out.specs.Entries.{IsListed, keytab_text, sized};

use crate::lists::KeytabList;
use kdb_base::{Blob, MemoryOut};
use kdb_format::writing::{push_bytes, push_u32};
use stash_file::Entry;
use std::alloc::Global;

// The bytes by which a keytab of version 0502 begins.
const VERSION: [u8; 2] = [5, 2];

/// Appends an entry behind its size.
fn push_sized(out: &mut Vec<u8>, entry: &Entry) -> Result<(), MemoryOut>
    requires { length entry.now.bytes < 2 ^ 31 }
    ensures { OnOk result (out.new.items ≡ out.old.items ++ sized (told entry.now)) }
{
    push_u32(out, entry.bytes.len() as u32)?;
    push_bytes(out, entry.bytes.as_slice())?;
    Ok(())
}

/// Appends the entries, each behind its size.
fn push_entries(out: &mut Vec<u8>, entries: &[Entry]) -> Result<(), MemoryOut>
    requires { All IsListed (map told entries.now) }
    ensures { OnOk result (out.new.items ≡ out.old.items ++ flat_map sized (map told entries.now)) }
{
    for entry in entries {
        push_sized(out, entry)?;
    }
    Ok(())
}

/// The keytab of these entries: version 0502 and the entries, without a hole or a mark of the end.
///
/// # Errors
///
/// `MemoryOut` where memory is wanted and not given.
#[tactic(auto, unfolding(crate::specs::Entries::keytab_text))]
pub fn write_keytab(alloc: Global, list: &KeytabList) -> Result<Blob, MemoryOut>
    ensures text { IfOk result (λ blob. blob ≡ keytab_text list.now) }
    // What is written is read back.
    ensures read_back { IfOk result (λ blob. IsKeytab blob list.now) }
{
    let mut out = Vec::new(alloc);
    push_bytes(&mut out, &VERSION)?;
    push_entries(&mut out, list.as_slice())?;
    Ok(Blob::from_vec(out))
}
