ghost use Rattle.std.specs.Prelude.{◌≡◌, ◌++◌, ◌∷◌, [], ◌≤◌, length, IfOk, OnOk};
ghost use Rattle.stash_file.specs.Pieces.{entry_text, piece_text};
ghost use Rattle.stash_file.specs.Keytabs.{Stands};
ghost use Rattle.stash_file.specs.Stashes.{IsStash, has_master_key, keys_by};
ghost use Rattle.stash_file.specs.Written.{entry_of, piece_of, stash_keys, stash_text};

use crate::reading::VERSION;
use kdb_base::{Blob, Master, Masters, MemoryOut};
use kdb_format::writing::{push_bytes, push_counted, push_u8, push_u16, push_u32};
use std::alloc::Global;

// The name type of a principal (RFC 4120, section 6.2).
const PRINCIPAL: u32 = 1;

// The bytes of an entry besides the realm and the key.
const FIXED: usize = 27;

/// Appends an entry up to its key.
fn push_entry(out: &mut Vec<u8>, realm: &[u8], secs: u32, master: &Master) -> Result<(), MemoryOut>
    requires { length realm.now ≤ 64 }
    ensures { OnOk result (out.new.items ≡ out.old.items ++ entry_text (entry_of realm.now secs master.now)) }
{
    push_u16(out, 2)?;
    push_counted(out, realm)?;
    push_counted(out, b"K")?;
    push_counted(out, b"M")?;
    push_u32(out, PRINCIPAL)?;
    push_u32(out, secs)?;
    push_u8(out, (master.version % 256) as u8)?;
    push_u16(out, master.key.etype().number())?;
    push_counted(out, master.key.as_slice())?;
    Ok(())
}

/// Appends the entry of a master key, and its 32-bit version.
fn push_piece(out: &mut Vec<u8>, realm: &[u8], secs: u32, master: &Master) -> Result<(), MemoryOut>
    requires { length realm.now ≤ 64 }
    ensures text { OnOk result (out.new.items ≡ out.old.items ++ piece_text (piece_of realm.now secs master.now)) }
    ensures fits { OnOk result (Stands has_master_key (piece_of realm.now secs master.now)) }
    ensures told { OnOk result (keys_by (piece_of realm.now secs master.now)
        ≡ record { version = master.now.version; key = master.now.key } ∷ []) }
{
    let size = FIXED + realm.len() + master.key.as_slice().len();
    push_u32(out, size as u32)?;
    push_entry(out, realm, secs, master)?;
    push_u32(out, u32::from(master.version))?;
    Ok(())
}

/// The stash of these master keys, of K/M in the realm, from the greatest version down. Each entry has
/// the time secs, in seconds since 1970.
pub fn write_stash(
    alloc: Global,
    realm: &[u8],
    secs: u32,
    masters: &Masters,
) -> Result<Blob, MemoryOut>
    requires { length realm.now ≤ 64 }
    ensures text { IfOk result (λ blob. blob ≡ stash_text realm.now secs masters.now) }
    // What is written is read back.
    ensures read_back { IfOk result (λ blob. IsStash blob (stash_keys masters.now)) }
{
    let mut out = Vec::new(alloc);
    push_bytes(&mut out, &VERSION)?;
    let mut rest = masters.as_slice();
    while let Some((master, older)) = rest.split_last() {
        push_piece(&mut out, realm, secs, master)?;
        rest = older;
    }
    Ok(Blob::from_vec(out))
}
