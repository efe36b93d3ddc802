//! The words behind `ktremove` and `ktadd`.

ghost use Rattle.std.specs.Prelude.{◌≡◌, IfOk, IfSome, Some, option_map};
ghost use Rattle.kadm_values.specs.EtypeWords.{etypes_in};
ghost use Rattle.keytab_words.specs.Words.{AreTypes, AreValid, addition_by, addition_of, default_etypes, ktadd_in};
ghost use Rattle.keytab_words.specs.Words.{ktremove_by, ktremove_in, listed_in, plain_words, removal_by};
ghost use Rattle.keytab_words.specs.Words.{removal_of, renewal_by, renewal_in, renewal_of, standing_in, which_in};

use crate::names::read_whole_name;
use kadm_options::{is_dashes, is_signed, read_within};
use kadm_values::bytes::is_same;
use kadm_values::read_etypes;
use kdb_base::{Blob, Etype, Field, MemoryOut, Refusal};
use keytab_out::Which;
use plain_keys::Etypes;
use princ_name::Name;
use std::alloc::Global;

/// What is asked of a keytab. It is read from an input, and the new one is written.
#[derive(Drop)]
pub enum KeytabWords {
    /// Entries of a name are removed. No database is looked at.
    Remove(Name, Which),
    /// The keys of a principal are added as they stand. Its name is a word still, since it is read in the realm of the
    /// database.
    AddStanding(Blob),
    /// New keys of these types are made for a principal, and added. Its name is a word still.
    AddRenewed(Blob, Etypes),
}

/// The most bytes of a word that is a name, as of a line.
const LONGEST_WORD: usize = 65_536;

// The words behind the options, of which there are none; nothing, where one stands there.
#[tactic(auto, unfolding(crate::specs::Words::plain_words))]
fn plain_words(words: &[Blob]) -> Option<&[Blob]>
    ensures { option_map (λ plain. plain.now) result ≡ plain_words words.now }
{
    match words {
        [] => Some(words),
        [word, rest @ ..] => {
            if is_dashes(word.as_slice()) {
                Some(rest)
            } else if is_signed(word.as_slice()) {
                None
            } else {
                Some(words)
            }
        }
    }
}

// Which entries of a name a word names.
#[tactic(auto, unfolding(crate::specs::Words::which_in))]
fn which_in(word: &[u8]) -> Option<Which>
    ensures { result ≡ which_in word.now }
{
    if is_same(word, b"all") {
        return Some(Which::All);
    }
    if is_same(word, b"old") {
        return Some(Which::Older);
    }
    match read_within(1, u32::MAX, word) {
        Some(version) => Some(Which::One(version)),
        None => None,
    }
}

fn removal_of(name: Result<Name, u32>, which: Option<Which>) -> Result<KeytabWords, Refusal>
    ensures value { result ≡ removal_of name which }
    ensures valid { AreValid result }
{
    match name {
        Ok(name) => match which {
            Some(which) => Ok(KeytabWords::Remove(name, which)),
            None => Err(Refusal::BadValue { field: Field::Kvno }),
        },
        Err(offset) => Err(Refusal::BadName { offset }),
    }
}

fn removal_by(
    alloc: Global,
    word: &[u8],
    which: &[u8],
) -> Result<Result<KeytabWords, Refusal>, MemoryOut>
    ensures value { IfOk result (λ found. found ≡ removal_by word.now which.now) }
    ensures valid { IfOk result AreValid }
{
    if word.len() > LONGEST_WORD {
        return Ok(Err(Refusal::BadLine));
    }
    let name = read_whole_name(alloc, word)?;
    Ok(removal_of(name, which_in(which)))
}

#[tactic(auto, unfolding(crate::specs::Words::ktremove_by))]
fn ktremove_by(alloc: Global, words: &[Blob]) -> Result<Result<KeytabWords, Refusal>, MemoryOut>
    ensures value { IfOk result (λ found. found ≡ ktremove_by words.now) }
    ensures valid { IfOk result AreValid }
{
    match words {
        [word, which] => removal_by(alloc, word.as_slice(), which.as_slice()),
        _ => Ok(Err(Refusal::BadLine)),
    }
}

/// What the words behind `ktremove` ask for: a name with its realm, and `all`, `old` or a version, with `--` before
/// them or without. Only want of memory can refuse the reading itself.
///
/// # Errors
///
/// Inside, `BadLine` where there are other words, an option among them, or the name's word has more than 65536 bytes;
/// then `BadName` of a word that is no name or names no realm; then `BadValue` of what is neither `all` nor `old` nor a
/// version.
#[tactic(auto, unfolding(crate::specs::Words::ktremove_in))]
pub fn read_ktremove(
    alloc: Global,
    words: &[Blob],
) -> Result<Result<KeytabWords, Refusal>, MemoryOut>
    ensures value { IfOk result (λ found. found ≡ ktremove_in words.now) }
    ensures valid { IfOk result AreValid }
{
    match plain_words(words) {
        Some(words) => ktremove_by(alloc, words),
        None => Ok(Err(Refusal::BadLine)),
    }
}

fn addition_of(alloc: Global, word: &[u8]) -> Result<Result<KeytabWords, Refusal>, MemoryOut>
    ensures value { IfOk result (λ found. found ≡ addition_of word.now) }
    ensures valid { IfOk result AreValid }
{
    if word.len() > LONGEST_WORD {
        return Ok(Err(Refusal::BadLine));
    }
    let word = Blob::from_bytes(alloc, word)?;
    Ok(Ok(KeytabWords::AddStanding(word)))
}

#[tactic(auto, unfolding(crate::specs::Words::addition_by))]
fn addition_by(alloc: Global, words: &[Blob]) -> Result<Result<KeytabWords, Refusal>, MemoryOut>
    ensures value { IfOk result (λ found. found ≡ addition_by words.now) }
    ensures valid { IfOk result AreValid }
{
    match words {
        [word] => addition_of(alloc, word.as_slice()),
        _ => Ok(Err(Refusal::BadLine)),
    }
}

fn read_standing(alloc: Global, words: &[Blob]) -> Result<Result<KeytabWords, Refusal>, MemoryOut>
    ensures value { IfOk result (λ found. found ≡ standing_in words.now) }
    ensures valid { IfOk result AreValid }
{
    match plain_words(words) {
        Some(words) => addition_by(alloc, words),
        None => Ok(Err(Refusal::BadLine)),
    }
}

// The types of keys where none are listed.
#[tactic(auto, unfolding(crate::specs::Words::default_etypes))]
fn default_etypes(alloc: Global) -> Result<Etypes, MemoryOut>
    ensures value { IfOk result (λ etypes. etypes ≡ default_etypes) }
    ensures types { IfOk result AreTypes }
{
    let etypes = vec![in alloc; Etype::Aes256, Etype::Aes128]?;
    Ok(Etypes::from_vec(etypes))
}

// The types of a list, where it is one.
fn listed_etypes(alloc: Global, list: &[u8]) -> Result<Option<Etypes>, MemoryOut>
    ensures value { IfOk result (λ etypes. etypes ≡ etypes_in list.now) }
    ensures types { IfOk result (λ etypes. IfSome etypes AreTypes) }
{
    match read_etypes(alloc, list)? {
        Some(etypes) => Ok(Some(Etypes::from_vec(etypes))),
        None => Ok(None),
    }
}

fn renewal_of(
    alloc: Global,
    etypes: Option<Etypes>,
    word: &[u8],
) -> Result<Result<KeytabWords, Refusal>, MemoryOut>
    requires { IfSome etypes AreTypes }
    ensures value { IfOk result (λ found. found ≡ renewal_of etypes word.now) }
    ensures valid { IfOk result AreValid }
{
    if word.len() > LONGEST_WORD {
        return Ok(Err(Refusal::BadLine));
    }
    let word = Blob::from_bytes(alloc, word)?;
    match etypes {
        Some(etypes) => Ok(Ok(KeytabWords::AddRenewed(word, etypes))),
        None => Ok(Err(Refusal::BadValue {
            field: Field::Enctypes,
        })),
    }
}

#[tactic(auto, unfolding(crate::specs::Words::renewal_by))]
fn renewal_by(
    alloc: Global,
    etypes: Option<Etypes>,
    words: &[Blob],
) -> Result<Result<KeytabWords, Refusal>, MemoryOut>
    requires { IfSome etypes AreTypes }
    ensures value { IfOk result (λ found. found ≡ renewal_by etypes words.now) }
    ensures valid { IfOk result AreValid }
{
    match words {
        [word] => renewal_of(alloc, etypes, word.as_slice()),
        _ => Ok(Err(Refusal::BadLine)),
    }
}

fn renewal_in(
    alloc: Global,
    etypes: Option<Etypes>,
    words: &[Blob],
) -> Result<Result<KeytabWords, Refusal>, MemoryOut>
    requires { IfSome etypes AreTypes }
    ensures value { IfOk result (λ found. found ≡ renewal_in etypes words.now) }
    ensures valid { IfOk result AreValid }
{
    match plain_words(words) {
        Some(words) => renewal_by(alloc, etypes, words),
        None => Ok(Err(Refusal::BadLine)),
    }
}

#[tactic(auto, unfolding(crate::specs::Words::listed_in))]
fn read_listed(alloc: Global, words: &[Blob]) -> Result<Result<KeytabWords, Refusal>, MemoryOut>
    ensures value { IfOk result (λ found. found ≡ listed_in words.now) }
    ensures valid { IfOk result AreValid }
{
    match words {
        [] => Ok(Err(Refusal::BadLine)),
        [list, rest @ ..] => match listed_etypes(alloc, list.as_slice()) {
            Ok(etypes) => renewal_in(alloc, etypes, rest),
            Err(_) => Err(MemoryOut),
        },
    }
}

fn read_default(alloc: Global, words: &[Blob]) -> Result<Result<KeytabWords, Refusal>, MemoryOut>
    ensures value { IfOk result (λ found. found ≡ renewal_in (Some default_etypes) words.now) }
    ensures valid { IfOk result AreValid }
{
    match default_etypes(alloc) {
        Ok(etypes) => renewal_in(alloc, Some(etypes), words),
        Err(_) => Err(MemoryOut),
    }
}

/// What the words behind `ktadd` ask for: `-norandkey` and a name; or a name, for which new keys are made, and before
/// it `-e` with a list of their types or not; `--` may stand before the name. The name is not read. Only want of memory
/// can refuse the reading itself.
///
/// # Errors
///
/// Inside, `BadLine` where there are other words, or the name's word has more than 65536 bytes, and then `BadValue` of
/// a list that is none.
#[tactic(auto, unfolding(crate::specs::Words::ktadd_in))]
pub fn read_ktadd(alloc: Global, words: &[Blob]) -> Result<Result<KeytabWords, Refusal>, MemoryOut>
    ensures value { IfOk result (λ found. found ≡ ktadd_in words.now) }
    ensures valid { IfOk result AreValid }
{
    match words {
        [] => Ok(Err(Refusal::BadLine)),
        [word, rest @ ..] => {
            if is_same(word.as_slice(), b"-norandkey") {
                return read_standing(alloc, rest);
            }
            if is_same(word.as_slice(), b"-e") {
                return read_listed(alloc, rest);
            }
            read_default(alloc, words)
        }
    }
}
