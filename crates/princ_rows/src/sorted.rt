//! Records in the byte order of their keys, each key once, held in a vector.

ghost use Rattle.std.specs.Prelude.{◌≡◌, ◌≢◌, ◌<◌, ◌⊎◌, List, ℕ, Contains, None, true, false};
ghost use Rattle.std.specs.Prelude.{length, map, option_map, remove, IfOk, IfSome, OnErr, OnOk};
ghost use Rattle.std.specs.List.{All};
ghost use Rattle.princ_rows.specs.Effects.{put_by, drop_by};
ghost use Rattle.princ_rows.specs.Rows.{IsAt, IsGap};
ghost use Rattle.tagged_data.specs.KeyOrder.{AreInOrder, key_cmp, rises_from, is_behind};
ghost use Rattle.princ_rows.specs.Undoing.{row_back, IsPlaceOf};

use crate::boxes::Boxed;
use kdb_base::MemoryOut;
use std::cmp::Ordering;
use std::mem;

/// A record with a key.
pub trait Keyed {
    ghost key_of: { Self → List ℕ };

    /// The key.
    fn key(&self) -> &[u8]
        ensures { result.now ≡ key_of self.now };
}

impl<T: Keyed + Drop> Keyed for Boxed<T> {
    ghost key_of = { T.key_of };

    fn key(&self) -> &[u8] {
        self.get().key()
    }
}

fn is_behind(last: Option<&[u8]>, key: &[u8]) -> bool
    ensures { result ≡ is_behind (option_map (λ k. k.now) last.entry) key.now }
{
    match last {
        Some(last) => last.cmp(key) == Ordering::Less,
        None => true,
    }
}

/// Whether each key is above the one before it.
#[tactic(auto, unfolding(tagged_data::specs::KeyOrder::rises_from))]
pub fn are_in_order<T: Keyed>(items: &[T]) -> bool
    ensures { result ≡ rises_from None (map T.key_of items.now) }
{
    let mut last = None;
    for item in items {
        let key = item.key();
        if !is_behind(last, key) {
            return false;
        }
        last = Some(key);
    }
    true
}

fn compare<T: Keyed>(item: &T, key: &[u8]) -> Ordering
    ensures { result ≡ key_cmp (T.key_of item.now) key.now }
{
    item.key().cmp(key)
}

/// Where the record of a key is, or else where it would go.
fn place_of<T: Keyed>(items: &[T], key: &[u8]) -> Result<usize, usize>
    requires { AreInOrder (map T.key_of items.now) }
    ensures found { (at : ℕ) → result ≡ Ok at → IsAt T.key_of items.now key.now at }
    ensures absent { (at : ℕ) → result ≡ Err at → IsGap T.key_of items.now key.now at }
{
    items.binary_search_by(|item| compare(item, key))
}

/// The record of a key.
pub fn find_row<'a, T: Keyed>(items: &'a [T], key: &[u8]) -> Option<&'a T>
    requires { AreInOrder (map T.key_of items.now) }
    ensures some { IfSome result (λ x. Contains items.now x.now × (T.key_of x.now ≡ key.now)) }
    ensures none { result ≡ None → All (λ x. T.key_of x ≢ key.now) items.now }
{
    match place_of(items, key) {
        Ok(at) => Some(&items[at]),
        Err(_) => None,
    }
}

/// Whether there is a record of a key.
pub fn holds_key<T: Keyed>(items: &[T], key: &[u8]) -> bool
    requires { AreInOrder (map T.key_of items.now) }
    ensures yes { result ≡ true → (at : ℕ) × IsAt T.key_of items.now key.now at }
    ensures no { result ≡ false → (at : ℕ) × IsGap T.key_of items.now key.now at }
    ensures none { result ≡ false → All (λ x. T.key_of x ≢ key.now) items.now }
{
    match place_of(items, key) {
        Ok(_) => true,
        Err(_) => false,
    }
}

/// Puts the record in its place, or in that of the one with its key.
pub fn put_row<T: Keyed + Drop>(items: &mut Vec<T>, item: T) -> Result<(), MemoryOut>
    requires { AreInOrder (map T.key_of items.old.items) }
    ensures ok { OnOk result (items.new.items ≡ put_by T.key_of item items.old.items) }
    ensures err { OnErr result (items.new.items ≡ items.old.items) }
{
    match place_of(items, item.key()) {
        Ok(at) => {
            items[at] = item;
            Ok(())
        }
        Err(at) => {
            items.insert(at, item)?;
            Ok(())
        }
    }
}

/// Takes the record of a key away, where it is there.
pub fn drop_row<T: Keyed + Drop>(items: &mut Vec<T>, key: &[u8])
    requires { AreInOrder (map T.key_of items.old.items) }
    ensures { items.new.items ≡ drop_by T.key_of key.now items.old.items }
{
    match place_of(items, key) {
        Ok(at) => {
            let _ = items.remove(at);
        }
        Err(_) => {}
    }
}

/// What a put of one record changed, by places: enough to take it back without memory.
#[derive(Debug, Drop)]
pub enum RowBack<T> {
    /// A record was added here.
    Added(usize),
    /// A record took the place of this one.
    Replaced(usize, T),
    /// The last record stood at the first place, and the one at the second place was put in its stead.
    Moved(usize, usize, T),
}

/// As `put_row`, with what takes it back.
pub fn begin_put<T: Keyed + Drop>(items: &mut Vec<T>, item: T) -> Result<RowBack<T>, MemoryOut>
    requires { AreInOrder (map T.key_of items.old.items) }
    ensures ok { IfOk result (λ _. items.new.items ≡ put_by T.key_of item items.old.items) }
    ensures back { IfOk result (λ b. row_back b items.new.items ≡ items.old.items) }
    ensures place { IfOk result (λ b. IsPlaceOf b items.new.items) }
    ensures err { OnErr result (items.new.items ≡ items.old.items) }
{
    match place_of(items, item.key()) {
        Ok(at) => Ok(RowBack::Replaced(at, mem::replace(&mut items[at], item))),
        Err(at) => {
            items.insert(at, item)?;
            Ok(RowBack::Added(at))
        }
    }
}

/// Where the record of a new key goes.
fn gap_of<T: Keyed>(items: &[T], key: &[u8]) -> usize
    requires order { AreInOrder (map T.key_of items.now) }
    requires free { All (λ x. T.key_of x ≢ key.now) items.now }
    ensures { IsGap T.key_of items.now key.now result }
{
    match place_of(items, key) {
        Ok(at) => at,
        Err(at) => at,
    }
}

/// Takes the record at this place out, and puts one with a new key. The vector keeps its room, so memory
/// is not asked for.
fn move_row<T: Keyed + Drop>(items: &mut Vec<T>, from: usize, item: T) -> RowBack<T>
    requires order { AreInOrder (map T.key_of items.old.items) }
    requires place { from < length items.old.items }
    requires free { All (λ x. T.key_of x ≢ T.key_of item) items.old.items }
    ensures moved { items.new.items ≡ put_by T.key_of item (remove items.old.items from) }
    ensures back { row_back result items.new.items ≡ items.old.items }
    ensures place { IsPlaceOf result items.new.items }
{
    let was = items.remove(from);
    let to = gap_of(items, item.key());
    items.insert(to, item).unwrap();
    RowBack::Moved(from, to, was)
}

/// Where the record of the old key is, where the key changes.
fn leaving<T: Keyed>(items: &[T], old: &[u8], new: &[u8]) -> Option<usize>
    requires { AreInOrder (map T.key_of items.now) }
    ensures there { IfSome result (λ at. IsAt T.key_of items.now old.now at) }
    ensures other { IfSome result (λ _. new.now ≢ old.now) }
    ensures none { result ≡ None → (new.now ≡ old.now) ⊎ (drop_by T.key_of old.now items.now ≡ items.now) }
{
    if new == old {
        return None;
    }
    match place_of(items, old) {
        Ok(at) => Some(at),
        Err(_) => None,
    }
}

/// Takes the record of the old key away, where it is there, and puts the record, with what takes this back.
pub fn begin_rename<T: Keyed + Drop>(
    items: &mut Vec<T>,
    old: &[u8],
    item: T,
) -> Result<RowBack<T>, MemoryOut>
    requires order { AreInOrder (map T.key_of items.old.items) }
    // The record keeps the key, or no record has its new one.
    requires free { (T.key_of item ≡ old.now) ⊎ All (λ x. T.key_of x ≢ T.key_of item) items.old.items }
    ensures ok { IfOk result (λ _. items.new.items ≡ put_by T.key_of item (drop_by T.key_of old.now items.old.items)) }
    ensures back { IfOk result (λ b. row_back b items.new.items ≡ items.old.items) }
    ensures place { IfOk result (λ b. IsPlaceOf b items.new.items) }
    ensures err { OnErr result (items.new.items ≡ items.old.items) }
{
    match leaving(items, old, item.key()) {
        Some(from) => Ok(move_row(items, from, item)),
        None => begin_put(items, item),
    }
}

/// Takes a put or a rename back. Memory is not asked for.
#[tactic(auto, unfolding(crate::specs::Undoing::row_back))]
pub fn undo_row<T: Drop>(items: &mut Vec<T>, back: RowBack<T>)
    requires { IsPlaceOf back items.old.items }
    ensures { items.new.items ≡ row_back back items.old.items }
{
    match back {
        RowBack::Added(at) => {
            let _ = items.remove(at);
        }
        RowBack::Replaced(at, was) => {
            items[at] = was;
        }
        RowBack::Moved(from, to, was) => {
            let _ = items.remove(to);
            items.insert(from, was).unwrap();
        }
    }
}

// ---- records behind boxes

/// Puts the record behind a box in its place, or in that of the one with its key.
pub fn put_boxed<T: Keyed + Drop>(items: &mut Vec<Boxed<T>>, item: T) -> Result<(), MemoryOut>
    requires { AreInOrder (map T.key_of items.old.items) }
    ensures ok { OnOk result (items.new.items ≡ put_by T.key_of item items.old.items) }
    ensures err { OnErr result (items.new.items ≡ items.old.items) }
{
    let boxed = Boxed::new(*items.allocator(), item)?;
    put_row(items, boxed)
}

/// As `put_boxed`, with what takes it back.
pub fn begin_put_boxed<T: Keyed + Drop>(
    items: &mut Vec<Boxed<T>>,
    item: T,
) -> Result<RowBack<Boxed<T>>, MemoryOut>
    requires { AreInOrder (map T.key_of items.old.items) }
    ensures ok { IfOk result (λ _. items.new.items ≡ put_by T.key_of item items.old.items) }
    ensures back { IfOk result (λ b. row_back b items.new.items ≡ items.old.items) }
    ensures place { IfOk result (λ b. IsPlaceOf b items.new.items) }
    ensures err { OnErr result (items.new.items ≡ items.old.items) }
{
    let boxed = Boxed::new(*items.allocator(), item)?;
    begin_put(items, boxed)
}

/// As `begin_rename`, with the record behind a box.
pub fn begin_rename_boxed<T: Keyed + Drop>(
    items: &mut Vec<Boxed<T>>,
    old: &[u8],
    item: T,
) -> Result<RowBack<Boxed<T>>, MemoryOut>
    requires order { AreInOrder (map T.key_of items.old.items) }
    // The record keeps the key, or no record has its new one.
    requires free { (T.key_of item ≡ old.now) ⊎ All (λ x. T.key_of x ≢ T.key_of item) items.old.items }
    ensures ok { IfOk result (λ _. items.new.items ≡ put_by T.key_of item (drop_by T.key_of old.now items.old.items)) }
    ensures back { IfOk result (λ b. row_back b items.new.items ≡ items.old.items) }
    ensures place { IfOk result (λ b. IsPlaceOf b items.new.items) }
    ensures err { OnErr result (items.new.items ≡ items.old.items) }
{
    let boxed = Boxed::new(*items.allocator(), item)?;
    begin_rename(items, old, boxed)
}
