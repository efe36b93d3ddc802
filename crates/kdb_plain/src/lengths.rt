//! How long a plain principal's row is once its keys are wrapped. A length is told exactly up to 2^64 - 1, and a
//! greater one as 2^64 - 1.

ghost use Rattle.std.specs.Prelude.{◌≡◌, ◌+◌, ◌≤◌, ℕ, None, length};
ghost use Rattle.std.specs.List.{last_or, sum_by};
ghost use Rattle.master_keys.specs.Wrapping.{wrapped_len};
ghost use Rattle.princ_keys.specs.Keys.{salt_bytes};
ghost use Rattle.princ_record.specs.Princs.{name_of, princ};
ghost use Rattle.princ_record.specs.Sizes.{pw_text_len, strings_item_len};
ghost use Rattle.kdb_plain.specs.Heads.{plain_head};
ghost use Rattle.kdb_plain.specs.Lengths.{aux_len, aux_lens, chain_len, in_64_bits, item_len};
ghost use Rattle.kdb_plain.specs.Lengths.{old_key_len, older_masters, row_len, set_len};
ghost use Rattle.tagged_data.specs.StringLaws.{string_len};

use crate::princs::PlainPrinc;
use kdb_base::{Activations, Blob, Etype, Master, Masters, PlainKey, Salt};
use plain_keys::{PlainItem, PlainSet};
use tagged_data::{StringAttribute, StringAttributes};

/// The sum of two numbers, each told in 64 bits.
fn add(a: u64, b: u64) -> u64
    ensures { (m n : ℕ) → a ≡ in_64_bits m → b ≡ in_64_bits n → result ≡ in_64_bits (m + n) }
{
    a.saturating_add(b)
}

/// A key of the second type, wrapped under one of the first.
#[tactic(auto, unfolding(master_keys::specs::Wrapping::wrapped_len))]
fn wrapped_len(master: Etype, etype: Etype) -> u64
    ensures value { result ≡ wrapped_len master etype }
    ensures few { result ≤ 74 }
{
    18 + etype.key_len() as u64 + master.tag_len() as u64
}

fn salt_len(salt: &Salt) -> u64
    ensures { result ≡ length (salt_bytes salt.now) }
{
    match salt {
        Salt::Normal => 0,
        Salt::Special(bytes) => bytes.len() as u64,
    }
}

fn item_len(master: Etype, item: &PlainItem) -> u64
    ensures { result ≡ in_64_bits (item_len master item.now) }
{
    let wrapped = 10 + wrapped_len(master, item.key.etype());
    wrapped.saturating_add(salt_len(&item.salt))
}

fn items_len(master: Etype, items: &[PlainItem]) -> u64
    ensures { result ≡ in_64_bits (sum_by (item_len master) items.now) }
{
    let mut total = 0;
    for item in items {
        total = add(total, item_len(master, item));
    }
    total
}

fn old_key_len(history: Etype, key: &PlainKey) -> u64
    ensures { result ≡ old_key_len history key.now }
{
    4 + wrapped_len(history, key.etype())
}

fn old_keys_len(history: Etype, keys: &[PlainKey]) -> u64
    ensures { result ≡ in_64_bits (sum_by (old_key_len history) keys.now) }
{
    let mut total = 0;
    for key in keys {
        total = add(total, old_key_len(history, key));
    }
    total
}

fn set_len(history: Etype, set: &PlainSet) -> u64
    ensures { result ≡ in_64_bits (set_len history set.now) }
{
    add(4, old_keys_len(history, set.keys.as_slice()))
}

fn sets_len(history: Etype, sets: &[PlainSet]) -> u64
    ensures { result ≡ in_64_bits (sum_by (set_len history) sets.now) }
{
    let mut total = 0;
    for set in sets {
        total = add(total, set_len(history, set));
    }
    total
}

fn string_len(item: &StringAttribute) -> u64
    ensures { result ≡ in_64_bits (string_len item.now) }
{
    let text = add(item.key.len() as u64, item.value.len() as u64);
    add(2, text)
}

fn strings_len(items: &[StringAttribute]) -> u64
    ensures { result ≡ in_64_bits (sum_by string_len items.now) }
{
    let mut total = 0;
    for item in items {
        total = add(total, string_len(item));
    }
    total
}

/// The item of the attributes, which is left out where there is none.
fn strings_item_len(list: &StringAttributes) -> u64
    ensures { result ≡ in_64_bits (strings_item_len list.now) }
{
    match list.as_slice() {
        [] => 0,
        items => add(4, strings_len(items)),
    }
}

fn pw_text_len(pw_changed: Option<u32>) -> u64
    ensures { result ≡ pw_text_len pw_changed }
{
    match pw_changed {
        Some(_) => 8,
        None => 0,
    }
}

#[tactic(auto, unfolding(princ_record::specs::Princs::name_of))]
fn policy_len(policy: &Option<Blob>) -> u64
    ensures { result ≡ length (name_of policy.now) }
{
    match policy {
        Some(name) => name.len() as u64,
        None => 0,
    }
}

/// The row without its keys and its remembered keys.
fn head_len(value: &PlainPrinc) -> u64
    ensures { result ≡ in_64_bits (length (princ (plain_head value.now))) }
{
    let names = add(value.name.len() as u64, value.modifier.len() as u64);
    let tags = add(
        pw_text_len(value.pw_changed),
        strings_item_len(&value.strings),
    );
    let words = add(names, policy_len(&value.policy));
    add(45, add(words, tags))
}

/// The bytes of a principal's row, where its keys are wrapped under a master key of the first type and its
/// remembered keys under a history key of the second. What K/M's row has beside is `chain_len`.
#[tactic(auto, unfolding(crate::specs::Lengths::row_len))]
pub fn row_len(master: Etype, history: Etype, value: &PlainPrinc) -> u64
    ensures { result ≡ in_64_bits (row_len master history value.now) }
{
    let keys = items_len(master, value.keys.as_slice());
    let old = sets_len(history, value.old.as_slice());
    add(add(head_len(value), keys), old)
}

fn aux_len(newest: Etype, older: &Master) -> u64
    ensures { result ≡ aux_len newest older.now }
{
    6 + wrapped_len(older.key.etype(), newest)
}

fn aux_lens(newest: Etype, older: &[Master]) -> u64
    ensures { result ≡ in_64_bits (sum_by (aux_len newest) older.now) }
{
    let mut total = 0;
    for master in older {
        total = add(total, aux_len(newest, master));
    }
    total
}

/// The newest master key wrapped under each older one.
fn auxiliary_len(masters: &[Master]) -> u64
    ensures { result ≡ in_64_bits (aux_lens (last_or None masters.now) (older_masters masters.now)) }
{
    match masters {
        [] => 0,
        [older @ .., newest] => aux_lens(newest.key.etype(), older),
    }
}

/// What K/M's row has beside its keys: its activations, and the newest master key wrapped under each older one.
#[tactic(auto, unfolding(crate::specs::Lengths::chain_len))]
pub fn chain_len(masters: &Masters, activations: &Activations) -> u64
    ensures { result ≡ in_64_bits (chain_len masters.now activations.now) }
{
    let count = activations.as_slice().len() as u64;
    let activations = count.saturating_mul(6).saturating_add(4);
    add(activations, add(4, auxiliary_len(masters.as_slice())))
}
