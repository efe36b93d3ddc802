//! Reading a keytab.

ghost use Rattle.std.specs.Prelude.{◌≡◌, ◌≤◌, ℕ, List, Err, IfOk, length};
ghost use Rattle.stash_file.specs.Pieces.{Told};
ghost use Rattle.keytab_out.specs.Keytabs.{Gives, Holds, IsBad, RefusesAt};
ghost use Rattle.keytab_out.specs.declared.faults.KeytabFault.TheVariants.{BadKeytab};

use crate::faults::KeytabFault;
use crate::lists::KeytabList;
use stash_file::{StashFault, read_entries};
use std::alloc::Global;

/// The entries of a keytab in the order of the file. No bytes are a keytab without entries. Holes are
/// skipped, and what follows an end mark is ignored.
///
/// # Errors
///
/// `BadKeytab` where the bytes are no keytab of version 0502, where a size, a hole or an entry is cut
/// short, and where a key of one of the types 17 to 20 has not the length of its type; `MemoryOut` where
/// memory is wanted and not given.
pub fn read_keytab(alloc: Global, bytes: &[u8]) -> Result<KeytabList, KeytabFault>
    ensures ok { IfOk result (λ list. Holds bytes.now list) }
    ensures bad { (place : ℕ) → result ≡ Err (BadKeytab place) → IsBad bytes.now place }
    // What is a keytab is read, unless memory runs out.
    ensures only { (entries : List Told) → Holds bytes.now entries → Gives result entries }
    // What is bad is refused, unless memory runs out.
    ensures only_bad { (place : ℕ) → IsBad bytes.now place → RefusesAt result place }
    // An entry takes bytes.
    ensures few { IfOk result (λ list. length list ≤ length bytes.now) }
{
    if bytes.is_empty() {
        return Ok(KeytabList::new(alloc));
    }
    match read_entries(alloc, bytes) {
        Ok(entries) => Ok(KeytabList::from_vec(entries)),
        Err(StashFault::BadStash { place }) => Err(KeytabFault::BadKeytab { place }),
        Err(StashFault::MemoryOut) => Err(KeytabFault::MemoryOut),
    }
}
