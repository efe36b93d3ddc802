//! Keys of a record that stay as they are wrapped.

ghost use Rattle.std.specs.Prelude.{◌≡◌, List, IfOk};
ghost use Rattle.std.specs.List.{AllZip};
ghost use Rattle.kdb_base.specs.Key.{Key};
ghost use Rattle.plain_keys.specs.Keys.{keys_from, settled_items};
ghost use Rattle.plain_keys.specs.declared.items.PlainItem.{PlainItem};
ghost use Rattle.row_keys.specs.KeptKeys.{kept_from, settled_kept, settled_keys};
ghost use Rattle.row_keys.specs.Lookups.{newest_version};
ghost use Rattle.row_keys.specs.Shows.{ShowsItem};

use kdb_base::{Blob, MemoryOut};
use plain_keys::settled_salt;
use princ_keys::{KeyItem, Keys};
use princ_name::Name;
use std::alloc::Global;

/// The greatest version of a record's keys, 0 without a key. Versions never rise, so it is that of the first.
pub fn newest_version(items: &[KeyItem]) -> u16
    ensures { result ≡ newest_version items.now }
{
    match items {
        [] => 0,
        [first, ..] => first.kvno,
    }
}

/// The keys of this version and of later ones, as they are wrapped. Memory is not asked for.
pub fn kept_from(kvno: u16, keys: Keys) -> Keys
    ensures items { result ≡ kept_from kvno keys }
    ensures shows { (master : Key) (plain : List PlainItem) → AllZip (ShowsItem master) keys plain
        → AllZip (ShowsItem master) result (keys_from kvno plain) }
{
    let mut items = keys.into_vec();
    items.retain(|item| item.kvno >= kvno);
    Keys::from_vec(items)
}

/// The key of a principal that had this name, under another name.
fn settled_kept(alloc: Global, name: &Name, item: &KeyItem) -> Result<KeyItem, MemoryOut>
    ensures { IfOk result (λ x. x ≡ settled_kept name.now item.now) }
{
    let salt = settled_salt(alloc, name, &item.salt)?;
    let wrapped = Blob::from_bytes(alloc, item.wrapped.as_slice())?;
    Ok(KeyItem {
        kvno: item.kvno,
        etype: item.etype,
        salt,
        wrapped,
    })
}

/// The keys of a principal that had this name, under another name: as they are wrapped, and a normal salt becomes a
/// special one of the same bytes.
///
/// # Errors
///
/// `MemoryOut` where memory is wanted and not given.
#[tactic(auto, unfolding(crate::specs::KeptKeys::settled_keys))]
pub fn settled_keys(alloc: Global, name: &Name, items: &[KeyItem]) -> Result<Keys, MemoryOut>
    ensures items { IfOk result (λ keys. keys ≡ settled_keys name.now items.now) }
    ensures shows { (master : Key) (plain : List PlainItem) → AllZip (ShowsItem master) items.now plain
        → IfOk result (λ keys. AllZip (ShowsItem master) keys (settled_items name.now plain)) }
{
    let mut keys = Vec::with_capacity(alloc, items.len())?;
    for item in items {
        let item = settled_kept(alloc, name, item)?;
        keys.push(item)?;
    }
    Ok(Keys::from_vec(keys))
}
