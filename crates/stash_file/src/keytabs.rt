//! Reading a whole keytab: the entries of any principals.

ghost use Rattle.std.specs.Prelude.{◌≡◌, ◌++◌, ℕ, List, IfOk, OnOk, Err, true, map};
ghost use Rattle.std.specs.List.{list_all};
ghost use Rattle.kdb_format.specs.declared.faults.FormatFault.TheVariants.{Malformed as IsMalformed};
ghost use Rattle.stash_file.specs.Answers.{GivesEntries, IsNextBy, RefusesAt, told, told_list};
ghost use Rattle.stash_file.specs.Keytabs.{IsBadKeytab, IsKeytab, NoPiece, has_key};
ghost use Rattle.stash_file.specs.Pieces.{Told, told_by};
ghost use Rattle.stash_file.specs.declared.faults.StashFault.TheVariants.{BadStash};

use crate::faults::StashFault;
use crate::pieces::{Entry, has_key, is_end, read_piece};
use crate::reading::VERSION;
use kdb_base::MemoryOut;
use kdb_format::{FormatFault, Reader};
use std::alloc::Global;

/// Whether the key of what was read is as long as keys of its type are.
fn passes(entry: &Option<Entry>) -> bool
    ensures { result ≡ list_all has_key (told_list entry.now) }
{
    match entry {
        Some(entry) => has_key(entry),
        None => true,
    }
}

/// Reads a hole, or an entry whose key is as long as keys of its type are.
#[tactic(auto, using(crate::proofs::Steps::passing, crate::proofs::Steps::failing, crate::proofs::Uniques::nothing_stands))]
fn read_passing(alloc: Global, reader: &mut Reader) -> Result<Option<Entry>, FormatFault>
    ensures found { IfOk result (λ entry. IsNextBy has_key told_by reader.old (told_list entry) reader.new) }
    ensures none { result ≡ Err IsMalformed → NoPiece has_key reader.old }
{
    let entry = read_piece(alloc, reader)?;
    if !passes(&entry) {
        return Err(FormatFault::Malformed);
    }
    Ok(entry)
}

fn keep(entries: &mut Vec<Entry>, entry: Option<Entry>) -> Result<(), MemoryOut>
    ensures { OnOk result (map told entries.new.items ≡ map told entries.old.items ++ told_list entry) }
{
    if let Some(entry) = entry {
        entries.push(entry)?;
    }
    Ok(())
}

fn read_told(alloc: Global, bytes: &[u8]) -> Result<Vec<Entry>, StashFault>
    ensures ok { IfOk result (λ entries. IsKeytab bytes.now (map told entries.items)) }
    ensures bad { (place : ℕ) → result ≡ Err (BadStash place) → IsBadKeytab bytes.now place }
{
    let Some(rest) = bytes.strip_prefix(&VERSION) else {
        return Err(StashFault::BadStash { place: 0 });
    };
    let mut reader = Reader::new(rest);
    let mut entries = Vec::new(alloc);
    while !is_end(&reader) {
        let place = (bytes.len() - reader.len()) as u64;
        match read_passing(alloc, &mut reader) {
            Ok(entry) => keep(&mut entries, entry)?,
            Err(FormatFault::Malformed) => return Err(StashFault::BadStash { place }),
            Err(FormatFault::MemoryOut) => return Err(StashFault::MemoryOut),
        }
    }
    Ok(entries)
}

/// The entries of a keytab in the order of the file. Holes are skipped, and what follows an end mark is
/// ignored. BadStash where the bytes are no keytab of version 0502, where a size, a hole or an entry is
/// cut short, and where a key of one of the types 17 to 20 has not the length of its type.
pub fn read_entries(alloc: Global, bytes: &[u8]) -> Result<Vec<Entry>, StashFault>
    ensures ok { IfOk result (λ entries. IsKeytab bytes.now (map told entries.items)) }
    ensures bad { (place : ℕ) → result ≡ Err (BadStash place) → IsBadKeytab bytes.now place }
    // What is a keytab is read, unless memory runs out.
    ensures only { (entries : List Told) → IsKeytab bytes.now entries → GivesEntries result entries }
    // What is bad is refused, unless memory runs out.
    ensures only_bad { (place : ℕ) → IsBadKeytab bytes.now place → RefusesAt result place }
{
    match read_told(alloc, bytes) {
        Ok(entries) => Ok(entries),
        Err(fault) => Err(fault),
    }
}
