ghost use Rattle.std.specs.Prelude.{List, ℕ, ◌≡◌, ◌-◌, ◌≤◌, IfOk, IfSome, None, Some, count_by};
ghost use Rattle.std.specs.Prelude.{drop, find, length, map, nat_le, option_map, take};
ghost use Rattle.std.specs.List.{list_all, slice_split};
ghost use Rattle.std.specs.Str.{bytes_eq};
ghost use Rattle.kdb_base.specs.declared.keys.Etype.{Etype as EtypeShape};
ghost use Rattle.kadm_values.specs.EtypeWords.{SpellsEtype, SpellsEtypes, all_listed, are_once};
ghost use Rattle.kadm_values.specs.EtypeWords.{etype_named, etype_rows, etypes_in, is_comma, known_etypes};
ghost use Rattle.kadm_values.specs.EtypeWords.{listed_in, row_of, same_etype, without_salt};

use crate::bytes::{after, before, is_same};
use kdb_base::{Etype, MemoryOut};
use std::alloc::Global;

/// A word of an encryption type.
#[derive(Clone, Copy, Debug)]
pub struct EtypeWord {
    pub word: &'static [u8],
    pub etype: Etype,
}

static WORDS: [EtypeWord; 10] = [
    EtypeWord {
        word: b"aes256-cts-hmac-sha1-96",
        etype: Etype::Aes256,
    },
    EtypeWord {
        word: b"aes256-cts",
        etype: Etype::Aes256,
    },
    EtypeWord {
        word: b"aes256-sha1",
        etype: Etype::Aes256,
    },
    EtypeWord {
        word: b"aes128-cts-hmac-sha1-96",
        etype: Etype::Aes128,
    },
    EtypeWord {
        word: b"aes128-cts",
        etype: Etype::Aes128,
    },
    EtypeWord {
        word: b"aes128-sha1",
        etype: Etype::Aes128,
    },
    EtypeWord {
        word: b"aes256-cts-hmac-sha384-192",
        etype: Etype::Aes256Sha2,
    },
    EtypeWord {
        word: b"aes256-sha2",
        etype: Etype::Aes256Sha2,
    },
    EtypeWord {
        word: b"aes128-cts-hmac-sha256-128",
        etype: Etype::Aes128Sha2,
    },
    EtypeWord {
        word: b"aes128-sha2",
        etype: Etype::Aes128Sha2,
    },
];

static ETYPES: [Etype; 4] = [
    Etype::Aes128,
    Etype::Aes256,
    Etype::Aes128Sha2,
    Etype::Aes256Sha2,
];

#[tactic(auto, unfolding(crate::specs::EtypeWords::etype_rows))]
fn known_words() -> &'static [EtypeWord; 10]
    ensures { map row_of result.now ≡ etype_rows }
{
    &WORDS
}

#[tactic(auto, unfolding(crate::specs::EtypeWords::known_etypes))]
fn all_etypes() -> &'static [Etype; 4]
    ensures { result.now ≡ known_etypes }
{
    &ETYPES
}

// The first of these words that is this one.
fn find_among(words: &[EtypeWord], word: &[u8]) -> Option<EtypeWord>
    ensures { result ≡ find (λ known. bytes_eq known.word.now word.now) words.now }
{
    words
        .iter()
        .copied()
        .find(|known| is_same(known.word, word))
}

// The row of this word.
fn find_word(word: &[u8]) -> Option<EtypeWord>
    ensures { option_map row_of result ≡ find (λ row. bytes_eq row.word word.now) etype_rows }
{
    find_among(known_words(), word)
}

fn etype_named(word: &[u8]) -> Option<Etype>
    ensures { result ≡ etype_named word.now }
{
    match find_word(word) {
        Some(known) => Some(known.etype),
        None => None,
    }
}

/// The encryption type that a word names.
pub fn read_etype(word: &[u8]) -> Option<Etype>
    ensures spelled { IfSome result (λ etype. SpellsEtype word.now etype) }
    ensures only { (etype : EtypeShape) → SpellsEtype word.now etype → result ≡ Some etype }
    ensures value { result ≡ etype_named word.now }
{
    etype_named(word)
}

// A text without the salt at its end.
#[tactic(auto, unfolding(crate::specs::EtypeWords::without_salt))]
fn without_salt(item: &[u8]) -> &[u8]
    ensures { result.now ≡ without_salt item.now }
{
    let front = item.len().saturating_sub(7);
    if is_same(after(item, front), b":normal".as_slice()) {
        before(item, front)
    } else {
        item
    }
}

#[tactic(auto, unfolding(crate::specs::EtypeWords::listed_in))]
fn read_listed(item: &[u8]) -> Option<Etype>
    ensures { result ≡ listed_in item.now }
{
    etype_named(without_salt(item))
}

fn split_commas<'a>(alloc: Global, text: &'a [u8]) -> Result<Vec<&'a [u8]>, MemoryOut>
    ensures { IfOk result (λ items. map (λ item. item.now) items.items ≡ slice_split is_comma text.now) }
{
    let items = text.split(|byte| *byte == b',').collect(alloc)?;
    Ok(items)
}

// The types of these texts, where each has one.
fn read_all(alloc: Global, items: &[&[u8]]) -> Result<Option<Vec<Etype>>, MemoryOut>
    ensures { IfOk result (λ etypes. option_map (λ v. v.items) etypes ≡ all_listed (map (λ item. item.now) items.now)) }
{
    let mut etypes = Vec::new(alloc);
    for at in 0..items.len() {
        match read_listed(items[at]) {
            Some(etype) => etypes.push(etype)?,
            None => return Ok(None),
        }
    }
    Ok(Some(etypes))
}

fn same_etype(etype: Etype, other: Etype) -> bool
    ensures { result ≡ same_etype etype other }
{
    other.number() == etype.number()
}

fn is_once(etypes: &[Etype], etype: Etype) -> bool
    ensures { result ≡ nat_le (count_by (same_etype etype) etypes.now) 1 }
{
    etypes
        .iter()
        .filter(|other| same_etype(etype, **other))
        .count()
        <= 1
}

fn are_once_among(known: &[Etype], etypes: &[Etype]) -> bool
    ensures { result ≡ list_all (λ etype. nat_le (count_by (same_etype etype) etypes.now) 1) known.now }
{
    known.iter().all(|etype| is_once(etypes, *etype))
}

#[tactic(auto, unfolding(crate::specs::EtypeWords::are_once))]
fn are_once(etypes: &[Etype]) -> bool
    ensures { result ≡ are_once etypes.now }
{
    are_once_among(all_etypes(), etypes)
}

#[tactic(auto, unfolding(crate::specs::EtypeWords::etypes_in))]
fn etypes_in(alloc: Global, text: &[u8]) -> Result<Option<Vec<Etype>>, MemoryOut>
    ensures { IfOk result (λ etypes. option_map (λ v. v.items) etypes ≡ etypes_in text.now) }
{
    let items = split_commas(alloc, text)?;
    match read_all(alloc, &items)? {
        Some(etypes) => {
            if are_once(&etypes) {
                Ok(Some(etypes))
            } else {
                Ok(None)
            }
        }
        None => Ok(None),
    }
}

/// The encryption types of a list, in its order: their words with commas between them, where `:normal` may
/// stand behind each. A type that stands twice is refused.
pub fn read_etypes(alloc: Global, text: &[u8]) -> Result<Option<Vec<Etype>>, MemoryOut>
    ensures spelled { IfOk result (λ etypes. IfSome etypes (λ v. SpellsEtypes text.now v.items)) }
    ensures only { (etypes : List EtypeShape) → SpellsEtypes text.now etypes
        → IfOk result (λ found. option_map (λ v. v.items) found ≡ Some etypes) }
    ensures value { IfOk result (λ etypes. option_map (λ v. v.items) etypes ≡ etypes_in text.now) }
{
    let etypes = etypes_in(alloc, text)?;
    Ok(etypes)
}
