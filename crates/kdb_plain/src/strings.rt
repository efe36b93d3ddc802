//! Changes of the string attributes of a principal.

ghost use Rattle.std.specs.Prelude.{◌≡◌, ℕ, Ok, Err, IfOk, OnOk, map};
ghost use Rattle.tagged_data.specs.Strings.{keys_of};
ghost use Rattle.princ_rows.specs.Effects.{drop_by, put_by};
ghost use Rattle.princ_rows.specs.Rows.{IsAt, IsGap};
ghost use Rattle.tagged_data.specs.KeyOrder.{AreInOrder};
ghost use Rattle.kdb_plain.specs.Strings.{has_room_for, has_string, key_of, with_string, without_string};

use kdb_base::limits::MAX_STRINGS;
use kdb_base::{Blob, MemoryOut};
use std::alloc::Global;
use tagged_data::{StringAttribute, StringAttributes};

/// Where the attribute of a key is, or else where it would go.
fn place_of(items: &[StringAttribute], key: &[u8]) -> Result<usize, usize>
    requires { AreInOrder (keys_of items.now) }
    ensures found { (at : ℕ) → result ≡ Ok at → IsAt key_of items.now key.now at }
    ensures absent { (at : ℕ) → result ≡ Err at → IsGap key_of items.now key.now at }
{
    items.binary_search_by(|item| item.key.as_slice().cmp(key))
}

/// Whether there is an attribute of this key.
pub fn has_string(strings: &StringAttributes, key: &[u8]) -> bool
    ensures { result ≡ has_string key.now strings.now }
{
    match place_of(strings.as_slice(), key) {
        Ok(_) => true,
        Err(_) => false,
    }
}

/// Whether a principal with these attributes may have one of this key: it has one, or fewer than
/// [`MAX_STRINGS`] others.
#[tactic(auto, unfolding(crate::specs::Strings::has_room_for))]
pub fn has_room_for(strings: &StringAttributes, key: &[u8]) -> bool
    ensures { result ≡ has_room_for key.now strings.now }
{
    has_string(strings, key) || strings.as_slice().len() < MAX_STRINGS
}

/// Puts an attribute in its place, or in that of the one with its key.
fn put(items: &mut Vec<StringAttribute>, item: StringAttribute) -> Result<(), MemoryOut>
    requires { AreInOrder (keys_of items.old.items) }
    ensures { OnOk result (items.new.items ≡ put_by key_of item items.old.items) }
{
    match place_of(items, item.key.as_slice()) {
        Ok(at) => {
            items[at] = item;
            Ok(())
        }
        Err(at) => {
            items.insert(at, item)?;
            Ok(())
        }
    }
}

/// The attributes with this one, in the place of the one of its key where there is one.
///
/// # Errors
///
/// `MemoryOut` where memory is wanted and not given.
pub fn with_string(
    strings: StringAttributes,
    key: Blob,
    value: Blob,
) -> Result<StringAttributes, MemoryOut>
    ensures { IfOk result (λ list. list ≡ with_string key value strings) }
{
    let mut items = strings.into_vec();
    put(&mut items, StringAttribute { key, value })?;
    Ok(StringAttributes::from_vec(items))
}

/// Takes the attribute of a key away, where it is there.
fn take_away(items: &mut Vec<StringAttribute>, key: &[u8])
    requires { AreInOrder (keys_of items.old.items) }
    ensures { items.new.items ≡ drop_by key_of key.now items.old.items }
{
    match place_of(items, key) {
        Ok(at) => {
            let _ = items.remove(at);
        }
        Err(_) => {}
    }
}

/// The attributes without the one of this key, where there is one. Memory is not asked for.
pub fn without_string(strings: StringAttributes, key: &[u8]) -> StringAttributes
    ensures { result ≡ without_string key.now strings }
{
    let mut items = strings.into_vec();
    take_away(&mut items, key);
    StringAttributes::from_vec(items)
}
