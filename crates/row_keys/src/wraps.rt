//! Keys wrapped with the random bytes of a command.

ghost use Rattle.std.specs.Prelude.{◌≡◌, ◌+◌, ◌≤◌, ◌++◌, false, drop, length, IfOk};
ghost use Rattle.std.specs.List.{AllZip};
ghost use Rattle.row_keys.specs.Shows.{ShowsItem};
ghost use Rattle.row_keys.specs.Wraps.{confounder_of, front_len, rekeyed_items, taken_len};
ghost use Rattle.row_keys.specs.Wraps.{taken_lens, wrapped_item, wrapped_items};

use kdb_base::MemoryOut;
use master_keys::MasterKey;
use plain_keys::PlainItem;
use princ_keys::{KeyItem, copy_salt};
use std::alloc::Global;

/// The bytes of a confounder.
const CONFOUNDER_LEN: usize = 16;

/// The bytes of a key that stand in the block before its confounder, where it is drawn from the block.
fn front_len(drawn: bool, item: &PlainItem) -> usize
    ensures value { result ≡ front_len drawn item.now }
    ensures few { result ≤ 32 }
{
    if drawn { item.key.etype().key_len() } else { 0 }
}

/// The bytes of the block that a key takes: 16 for its confounder, and its own before them where it is drawn from
/// the block.
pub fn taken_len(drawn: bool, item: &PlainItem) -> usize
    ensures { result ≡ taken_len drawn item.now }
{
    front_len(drawn, item) + CONFOUNDER_LEN
}

/// The confounder of a key at the front of the block.
fn confounder_of(drawn: bool, random: &[u8], item: &PlainItem) -> [u8; 16]
    requires { taken_len drawn item.now ≤ length random.now }
    ensures { result ≡ confounder_of drawn random.now item.now }
{
    let front = front_len(drawn, item);
    let mut confounder = [0; 16];
    confounder.copy_from_slice(&random[front..front + CONFOUNDER_LEN]);
    confounder
}

/// The key, wrapped under a master key with this confounder.
#[tactic(auto, unfolding(crate::specs::Wraps::wrapped_item))]
fn wrapped_item(
    alloc: Global,
    master: &MasterKey,
    confounder: &[u8; 16],
    item: &PlainItem,
) -> Result<KeyItem, MemoryOut>
    ensures item { IfOk result (λ x. x ≡ wrapped_item master.now confounder.now item.now) }
    ensures shows { IfOk result (λ x. ShowsItem master.now x item.now) }
{
    let salt = copy_salt(alloc, &item.salt)?;
    let wrapped = master.wrap(alloc, &item.key, confounder)?;
    Ok(KeyItem {
        kvno: item.kvno,
        etype: item.key.etype(),
        salt,
        wrapped,
    })
}

/// The keys, wrapped under a master key. Each takes 16 bytes of the block for its confounder, and skips its own
/// bytes before them where the keys are `drawn` from the block.
///
/// # Errors
///
/// `MemoryOut` where memory is wanted and not given.
pub fn wrapped_items(
    alloc: Global,
    master: &MasterKey,
    drawn: bool,
    random: &[u8],
    items: &[PlainItem],
) -> Result<Vec<KeyItem>, MemoryOut>
    requires { taken_lens drawn items.now ≤ length random.now }
    ensures items { IfOk result (λ v. v.items ≡ wrapped_items master.now drawn random.now items.now) }
    ensures shows { IfOk result (λ v. AllZip (ShowsItem master.now) v.items items.now) }
{
    let mut out = Vec::with_capacity(alloc, items.len())?;
    let mut left = random;
    for item in items {
        let confounder = confounder_of(drawn, left, item);
        let wrapped = wrapped_item(alloc, master, &confounder, item)?;
        out.push(wrapped)?;
        let (_, behind) = left.split_at(taken_len(drawn, item));
        left = behind;
    }
    Ok(out)
}

/// The block behind what keys take of it.
pub fn behind_items<'a>(drawn: bool, random: &'a [u8], items: &[PlainItem]) -> &'a [u8]
    requires { taken_lens drawn items.now ≤ length random.now }
    ensures { result.now ≡ drop (taken_lens drawn items.now) random.now }
{
    let mut left = random;
    for item in items {
        let (_, behind) = left.split_at(taken_len(drawn, item));
        left = behind;
    }
    left
}

/// New keys, wrapped under a master key, and behind them old ones that stay and are wrapped anew.
///
/// # Errors
///
/// `MemoryOut` where memory is wanted and not given.
#[tactic(auto, unfolding(crate::specs::Wraps::rekeyed_items))]
pub fn rekeyed_items(
    alloc: Global,
    master: &MasterKey,
    drawn: bool,
    random: &[u8],
    fresh: &[PlainItem],
    kept: &[PlainItem],
) -> Result<Vec<KeyItem>, MemoryOut>
    requires { taken_lens drawn fresh.now + taken_lens false kept.now ≤ length random.now }
    ensures items { IfOk result (λ v. v.items ≡ rekeyed_items master.now drawn random.now fresh.now kept.now) }
    ensures shows { IfOk result (λ v. AllZip (ShowsItem master.now) v.items (fresh.now ++ kept.now)) }
{
    let mut items = wrapped_items(alloc, master, drawn, random, fresh)?;
    let behind = behind_items(drawn, random, fresh);
    let mut others = wrapped_items(alloc, master, false, behind, kept)?;
    items.append(&mut others)?;
    Ok(items)
}
