//! The entries of a principal's keys.

ghost use Rattle.std.specs.Prelude.{List, ℕ, ◌≡◌, ◌++◌, ◌<◌, ◌^◌, length, map, IfOk, OnErr, OnOk};
ghost use Rattle.std.specs.List.{All, flat_map};
ghost use Rattle.kdb_format.specs.Spellings.{counted};
ghost use Rattle.princ_name.specs.Names.{IsName};
ghost use Rattle.stash_file.specs.Answers.{told};
ghost use Rattle.stash_file.specs.Pieces.{entry_text};
ghost use Rattle.keytab_out.specs.Entries.{IsListed};
ghost use Rattle.keytab_out.specs.Written.{bytes_of, entries_of, entry_of, front_of};

use crate::lists::KeytabList;
use kdb_base::{Blob, Extract, ExtractList, MemoryOut};
use kdb_format::writing::{push_counted, push_u8, push_u16, push_u32};
use princ_name::Name;
use stash_file::Entry;
use std::alloc::Global;

// The name type of a principal (RFC 4120, section 6.2).
const PRINCIPAL: u32 = 1;

/// Appends each text behind its length.
fn push_parts(out: &mut Vec<u8>, parts: &[Blob]) -> Result<(), MemoryOut>
    requires { All (λ text. length text < 2 ^ 16) parts.now }
    ensures { OnOk result (out.new.items ≡ out.old.items ++ flat_map counted parts.now) }
{
    for part in parts {
        push_counted(out, part.as_slice())?;
    }
    Ok(())
}

/// Appends an entry up to its key.
fn push_front(out: &mut Vec<u8>, name: &Name, secs: u32, extract: &Extract) -> Result<(), MemoryOut>
    ensures { OnOk result (out.new.items ≡ out.old.items ++ entry_text (front_of name.now secs extract.now)) }
{
    push_u16(out, name.parts().len() as u16)?;
    push_counted(out, name.realm())?;
    push_parts(out, name.parts())?;
    push_u32(out, PRINCIPAL)?;
    push_u32(out, secs)?;
    push_u8(out, (extract.kvno % 256) as u8)?;
    push_u16(out, extract.key.etype().number())?;
    push_counted(out, extract.key.as_slice())?;
    Ok(())
}

/// The bytes of the entry of a key.
#[tactic(auto, unfolding(crate::specs::Written::bytes_of))]
fn bytes_of(alloc: Global, name: &Name, secs: u32, extract: &Extract) -> Result<Blob, MemoryOut>
    ensures { IfOk result (λ blob. blob ≡ bytes_of name.now secs extract.now) }
{
    let mut out = Vec::new(alloc);
    push_front(&mut out, name, secs, extract)?;
    push_u32(&mut out, u32::from(extract.kvno))?;
    Ok(Blob::from_vec(out))
}

/// The same texts in the same order.
fn copied(alloc: Global, texts: &[Blob]) -> Result<Vec<Blob>, MemoryOut>
    ensures { IfOk result (λ v. v.items ≡ texts.now) }
{
    let mut out = Vec::with_capacity(alloc, texts.len())?;
    for text in texts {
        let text = Blob::from_bytes(alloc, text.as_slice())?;
        out.push(text)?;
    }
    Ok(out)
}

/// The entry of a key.
fn entry_of(alloc: Global, name: &Name, secs: u32, extract: &Extract) -> Result<Entry, MemoryOut>
    ensures is { IfOk result (λ entry. told entry ≡ entry_of name.now secs extract.now) }
    ensures listed { IfOk result (λ entry. IsListed (told entry)) }
{
    let realm = Blob::from_bytes(alloc, name.realm())?;
    let parts = copied(alloc, name.parts())?;
    let key = Blob::from_bytes(alloc, extract.key.as_slice())?;
    let bytes = bytes_of(alloc, name, secs, extract)?;
    Ok(Entry {
        realm,
        parts,
        name_type: PRINCIPAL,
        time: secs,
        version: u32::from(extract.kvno),
        key_type: extract.key.etype().number(),
        key,
        bytes,
    })
}

/// The entries of the keys, in their order.
fn entries_of(
    alloc: Global,
    name: &Name,
    secs: u32,
    keys: &[Extract],
) -> Result<Vec<Entry>, MemoryOut>
    ensures entries { IfOk result (λ v. map told v.items ≡ entries_of name.now secs keys.now) }
    ensures listed { IfOk result (λ v. All IsListed (map told v.items)) }
{
    let mut entries = Vec::with_capacity(alloc, keys.len())?;
    for extract in keys {
        let entry = entry_of(alloc, name, secs, extract)?;
        entries.push(entry)?;
    }
    Ok(entries)
}

/// Moves the entries behind the others.
fn append(items: &mut Vec<Entry>, mut more: Vec<Entry>) -> Result<(), MemoryOut>
    ensures ok { OnOk result (items.new.items ≡ items.old.items ++ more.items) }
    ensures err { OnErr result (items.new.items ≡ items.old.items) }
{
    items.append(&mut more)?;
    Ok(())
}

/// Appends an entry of the name for each key, in the order of the keys, with the time secs in seconds
/// since 1970.
///
/// # Errors
///
/// `MemoryOut` where memory is wanted and not given; the list is then as before.
pub fn add_entries(
    alloc: Global,
    list: &mut KeytabList,
    name: &Name,
    secs: u32,
    keys: &ExtractList,
) -> Result<(), MemoryOut>
    ensures ok { OnOk result (list.new ≡ list.old ++ entries_of name.now secs keys.now) }
    ensures err { OnErr result (list.new ≡ list.old) }
{
    let more = entries_of(alloc, name, secs, keys.as_slice())?;
    let mut items = list.take();
    let done = append(&mut items, more);
    *list = KeytabList::from_vec(items);
    done
}
