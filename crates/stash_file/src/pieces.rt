//! The pieces of a keytab: holes, and entries of any principal and any type of key.

ghost use Rattle.std.specs.Prelude.{◌≡◌, Err, IfOk, true, false};
ghost use Rattle.kdb_format.specs.Answers.{GivesAs};
ghost use Rattle.kdb_format.specs.Readings.{counted_at};
ghost use Rattle.kdb_format.specs.declared.faults.FormatFault.TheVariants.{Malformed as IsMalformed};
ghost use Rattle.stash_file.specs.Answers.{IsNext, Tells, told, told_list};
ghost use Rattle.stash_file.specs.Keytabs.{IsEnd, NothingThere, has_key, has_length};
ghost use Rattle.stash_file.specs.Parsing.{entry_at, told_at, told_in};
ghost use Rattle.stash_file.specs.Pieces.{Entry as Spelled, version_from};

use kdb_base::{Blob, Etype};
use kdb_format::counted::Counted;
use kdb_format::lists::read_items;
use kdb_format::{FormatFault, Reader};
use std::alloc::Global;

// The sizes from here on are negative, in two's complement.
const FIRST_NEGATIVE: u32 = 1 << 31;

/// An entry of a keytab: a key of a principal.
#[derive(Drop, PartialEq, Eq)]
pub struct Entry {
    pub realm: Blob,
    /// The components of the principal's name.
    pub parts: Vec<Blob>,
    /// The type of the name (RFC 4120, section 6.2).
    pub name_type: u32,
    /// When the entry was written, in seconds since 1970.
    pub time: u32,
    /// The version of the key: that of 32 bits where the entry has one that is not zero, else that of 8 bits.
    pub version: u32,
    /// The number of the key's encryption type.
    pub key_type: u16,
    pub key: Blob,
    /// The whole entry as it stands in the file, without its size.
    pub bytes: Blob,
}

/// An entry up to its key.
#[derive(Drop)]
struct Front {
    realm: Blob,
    parts: Vec<Blob>,
    name_type: u32,
    time: u32,
    version: u8,
    key_type: u16,
    key: Blob,
}

/// Whether the file ends here: nothing is left, or a size of zero.
pub fn is_end(reader: &Reader) -> bool
    ensures ended { result ≡ true → IsEnd reader.now }
    ensures going_on { result ≡ false → IsEnd reader.now → ⊥ }
{
    let rest = reader.rest();
    rest.is_empty() || rest.starts_with(&[0; 4])
}

fn read_text(alloc: Global, reader: &mut Reader) -> Result<Blob, FormatFault>
    ensures { GivesAs (λ x. x) result reader.new (counted_at reader.old) }
{
    let text = reader.counted()?;
    let text = Blob::from_bytes(alloc, text)?;
    Ok(text)
}

#[tactic(auto, unfolding(crate::specs::Parsing::entry_at))]
fn read_front(alloc: Global, reader: &mut Reader) -> Result<Front, FormatFault>
    ensures { GivesAs (λ f. record {
      realm = f.realm;
      components = f.parts.items;
      name_type = f.name_type;
      time = f.time;
      version = f.version;
      key_type = f.key_type;
      key = f.key;
    }) result reader.new (entry_at reader.old) }
{
    let count = reader.u16()?;
    let realm = read_text(alloc, reader)?;
    let parts = read_items::<Counted>(alloc, reader, u32::from(count))?;
    let name_type = reader.u32()?;
    let time = reader.u32()?;
    let version = reader.u8()?;
    let key_type = reader.u16()?;
    let key = read_text(alloc, reader)?;
    Ok(Front {
        realm,
        parts,
        name_type,
        time,
        version,
        key_type,
        key,
    })
}

/// The version of an entry with these bytes behind its key.
#[tactic(auto, unfolding(crate::specs::Pieces::version_from))]
fn version_of(short: u8, more: &[u8]) -> u32
    ensures { result ≡ version_from short more.now }
{
    match Reader::new(more).u32() {
        Ok(wide) if wide != 0 => wide,
        _ => u32::from(short),
    }
}

/// The entry of these bytes, which begin behind its size.
#[tactic(auto, unfolding(crate::specs::Parsing::told_in))]
pub fn read_entry(alloc: Global, bytes: &[u8]) -> Result<Entry, FormatFault>
    ensures { Tells result (told_in bytes.now) }
{
    let mut reader = Reader::new(bytes);
    reader.holds_bytes();
    let front = read_front(alloc, &mut reader)?;
    let version = version_of(front.version, reader.rest());
    let bytes = Blob::from_bytes(alloc, bytes)?;
    Ok(Entry {
        realm: front.realm,
        parts: front.parts,
        name_type: front.name_type,
        time: front.time,
        version,
        key_type: front.key_type,
        key: front.key,
        bytes,
    })
}

#[tactic(auto, unfolding(crate::specs::Parsing::told_at))]
fn read_sized(alloc: Global, reader: &mut Reader) -> Result<Option<Entry>, FormatFault>
    ensures { GivesAs (λ entry. told_list entry) result reader.new (told_at reader.old) }
{
    let size = reader.u32()?;
    if size < FIRST_NEGATIVE {
        let bytes = reader.bytes(size as usize)?;
        let entry = read_entry(alloc, bytes)?;
        return Ok(Some(entry));
    }
    reader.bytes((u32::MAX - size) as usize + 1)?;
    Ok(None)
}

/// Reads a hole or an entry. None of a hole.
pub fn read_piece(alloc: Global, reader: &mut Reader) -> Result<Option<Entry>, FormatFault>
    ensures found { IfOk result (λ entry. IsNext reader.old (told_list entry) reader.new) }
    ensures none { result ≡ Err IsMalformed → NothingThere reader.old }
{
    reader.holds_bytes();
    read_sized(alloc, reader)
}

/// Whether a key is as long as keys of its type are. Nothing is said of a type that is not known.
pub fn has_length(etype: Option<Etype>, key: &[u8]) -> bool
    ensures { result ≡ has_length etype key.now }
{
    match etype {
        Some(etype) => key.len() == etype.key_len(),
        None => true,
    }
}

/// Whether the entry's key is as long as keys of its type are. Nothing is said of a type that is not known.
pub fn has_key(entry: &Entry) -> bool
    ensures { result ≡ has_key (told entry.now) }
{
    has_length(Etype::from_number(entry.key_type), entry.key.as_slice())
}
