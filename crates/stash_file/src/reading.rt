ghost use Rattle.std.specs.Prelude.{◌≡◌, ◌++◌, ℕ, List, IfErr, IfOk, OnOk, Err, true, false};
ghost use Rattle.std.specs.List.{list_all, flat_map};
ghost use Rattle.std.specs.Option.{option_to_list};
ghost use Rattle.kdb_format.specs.declared.faults.FormatFault.TheVariants.{Malformed as IsMalformed};
ghost use Rattle.stash_file.specs.Answers.{Gives, IsNextBy, Judges, RefusesAt, told, told_list};
ghost use Rattle.stash_file.specs.Keytabs.{NoPiece};
ghost use Rattle.stash_file.specs.Stashes.{IsStash, IsBadAt, has_master_key, is_master, key_of, keys_by, type_of};
ghost use Rattle.stash_file.specs.declared.faults.StashFault.TheVariants.{BadStash};
ghost use Rattle.stash_file.specs.declared.keys.StashKey.{StashKey};

use crate::faults::StashFault;
use crate::keys::{StashKey, StashList};
use crate::pieces::{Entry, has_length, is_end, read_piece};
use kdb_base::{Blob, Etype, MemoryOut, PlainKey};
use kdb_format::{FormatFault, Malformed, Reader};
use std::alloc::Global;

/// The bytes by which a keytab of version 0502 begins.
pub(crate) const VERSION: [u8; 2] = [5, 2];

/// The master keys of a stash in the order of the file: the keys of the entries of K/M, of whatever
/// realm, whose type is one of 17 to 20. Other entries are skipped, and what follows an end mark is
/// ignored. BadStash where the bytes are no keytab of version 0502, where a size, a hole or an entry is
/// cut short, and where such a key has not the length of its type.
pub fn read_stash(alloc: Global, bytes: &[u8]) -> Result<StashList, StashFault>
    ensures ok { IfOk result (λ keys. IsStash bytes.now keys) }
    ensures bad { (place : ℕ) → result ≡ Err (BadStash place) → IsBadAt bytes.now place }
    // What is a stash is read, unless memory runs out.
    ensures only { (keys : List StashKey) → IsStash bytes.now keys → Gives result keys }
    // What is bad is refused, unless memory runs out.
    ensures only_bad { (place : ℕ) → IsBadAt bytes.now place → RefusesAt result place }
{
    match read_keys(alloc, bytes) {
        Ok(keys) => Ok(StashList::from_vec(keys)),
        Err(fault) => Err(fault),
    }
}

/// Whether the components are K and M.
#[tactic(auto, unfolding(crate::specs::Stashes::is_master))]
fn is_master(parts: &[Blob]) -> bool
    ensures { result ≡ is_master parts.now }
{
    match parts {
        [first, second] => first.as_slice() == b"K".as_slice()
            && second.as_slice() == b"M".as_slice(),
        _ => false,
    }
}

/// The type of the key, where the entry is not skipped.
fn type_of(entry: &Entry) -> Option<Etype>
    ensures { result ≡ type_of (told entry.now) }
{
    if is_master(&entry.parts) {
        return Etype::from_number(entry.key_type);
    }
    None
}

fn judge(etype: Option<Etype>, version: u32, key: &[u8]) -> Result<Option<StashKey>, Malformed>
    ensures { Judges result etype version key.now }
{
    let Some(etype) = etype else {
        return Ok(None);
    };
    if key.len() != etype.key_len() {
        return Err(Malformed);
    }
    Ok(Some(StashKey {
        version,
        key: PlainKey::from_bytes(etype, key),
    }))
}

/// The key of an entry that is not skipped.
fn key_of(entry: &Option<Entry>) -> Result<Option<StashKey>, Malformed>
    ensures found { IfOk result (λ key. (option_to_list key ≡ flat_map key_of (told_list entry.now))
        × (list_all has_master_key (told_list entry.now) ≡ true)) }
    ensures none { IfErr result (λ _. list_all has_master_key (told_list entry.now) ≡ false) }
{
    match entry {
        Some(entry) => judge(type_of(entry), entry.version, entry.key.as_slice()),
        None => Ok(None),
    }
}

/// Reads a hole or an entry. The key of an entry that is not skipped.
#[tactic(auto, using(crate::proofs::Steps::key_there, crate::proofs::Steps::key_missing, crate::proofs::Uniques::nothing_stands))]
fn read_key(alloc: Global, reader: &mut Reader) -> Result<Option<StashKey>, FormatFault>
    ensures found { IfOk result (λ key. IsNextBy has_master_key keys_by reader.old (option_to_list key) reader.new) }
    ensures none { result ≡ Err IsMalformed → NoPiece has_master_key reader.old }
{
    let entry = read_piece(alloc, reader)?;
    let key = key_of(&entry)?;
    Ok(key)
}

fn add(keys: &mut Vec<StashKey>, key: Option<StashKey>) -> Result<(), MemoryOut>
    ensures { OnOk result (keys.new.items ≡ keys.old.items ++ option_to_list key) }
{
    if let Some(key) = key {
        keys.push(key)?;
    }
    Ok(())
}

fn read_keys(alloc: Global, bytes: &[u8]) -> Result<Vec<StashKey>, StashFault>
    ensures ok { IfOk result (λ keys. IsStash bytes.now keys.items) }
    ensures bad { (place : ℕ) → result ≡ Err (BadStash place) → IsBadAt bytes.now place }
{
    let Some(rest) = bytes.strip_prefix(&VERSION) else {
        return Err(StashFault::BadStash { place: 0 });
    };
    let mut reader = Reader::new(rest);
    let mut keys = Vec::new(alloc);
    while !is_end(&reader) {
        let place = (bytes.len() - reader.len()) as u64;
        match read_key(alloc, &mut reader) {
            Ok(key) => add(&mut keys, key)?,
            Err(FormatFault::Malformed) => return Err(StashFault::BadStash { place }),
            Err(FormatFault::MemoryOut) => return Err(StashFault::MemoryOut),
        }
    }
    Ok(keys)
}
