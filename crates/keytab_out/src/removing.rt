//! Entries that are taken out of a keytab.

ghost use Rattle.std.specs.Prelude.{◌≡◌, ◌<◌, ◌^◌, length, map, max, not};
ghost use Rattle.std.specs.List.{filter, list_any};
ghost use Rattle.stash_file.specs.Answers.{told};
ghost use Rattle.keytab_out.specs.Removed.{goes, greatest_of, is_meant, is_of, later, left, removed};

use crate::lists::KeytabList;
use princ_name::Name;
use stash_file::Entry;

/// Which entries of a name are removed.
#[derive(Clone, Copy, Debug, PartialEq, Eq)]
pub enum Which {
    /// Those of this version.
    One(u32),
    All,
    /// All but those of the greatest version of the name.
    Older,
}

/// Whether the entry is of the name: of the same components and the same realm.
fn is_of(name: &Name, entry: &Entry) -> bool
    ensures { result ≡ is_of name.now (told entry.now) }
{
    entry.realm.as_slice() == name.realm() && entry.parts.as_slice() == name.parts()
}

/// The greater of this version and the entry's, where it is of the name.
fn later(name: &Name, entry: &Entry, greatest: u32) -> u32
    ensures { result ≡ later name.now (told entry.now) greatest }
{
    if is_of(name, entry) {
        return entry.version.max(greatest);
    }
    greatest
}

/// The greatest version of the name's entries, 0 without any.
fn greatest_of(name: &Name, entries: &[Entry]) -> u32
    ensures { result ≡ greatest_of name.now (map told entries.now) }
{
    let mut greatest = 0;
    for entry in entries {
        greatest = later(name, entry, greatest);
    }
    greatest
}

fn is_meant(which: Which, greatest: u32, version: u32) -> bool
    ensures { result ≡ is_meant which greatest version }
{
    match which {
        Which::One(wanted) => version == wanted,
        Which::All => true,
        Which::Older => version < greatest,
    }
}

fn goes(name: &Name, which: Which, greatest: u32, entry: &Entry) -> bool
    ensures { result ≡ goes name.now which greatest (told entry.now) }
{
    is_of(name, entry) && is_meant(which, greatest, entry.version)
}

/// Leaves the entries that do not go.
fn keep_others(items: &mut Vec<Entry>, name: &Name, which: Which, greatest: u32)
    ensures { items.new.items ≡ filter (λ e. not (goes name.now which greatest (told e))) items.old.items }
{
    items.retain(|entry| !goes(name, which, greatest, entry));
}

fn any_of(name: &Name, entries: &[Entry]) -> bool
    ensures { result ≡ list_any (λ e. is_of name.now (told e)) entries.now }
{
    entries.iter().any(|entry| is_of(name, entry))
}

/// Whether some entry is of the name.
pub fn has_entry(list: &KeytabList, name: &Name) -> bool
    ensures { result ≡ list_any (is_of name.now) list.now }
{
    any_of(name, list.as_slice())
}

/// Takes entries of the name out of the list, and answers how many. Memory is not asked for.
pub fn remove_entries(list: &mut KeytabList, name: &Name, which: Which) -> u32
    requires { length list.old < 2 ^ 32 }
    ensures left { list.new ≡ left name.now which list.old }
    ensures count { result ≡ length (removed name.now which list.old) }
{
    let mut items = list.take();
    let before = items.len();
    let greatest = greatest_of(name, &items);
    keep_others(&mut items, name, which, greatest);
    let count = (before - items.len()) as u32;
    *list = KeytabList::from_vec(items);
    count
}
