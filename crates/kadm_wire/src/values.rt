//! The values of a command's other words.

ghost use Rattle.std.specs.Prelude.{◌≡◌, ◌==◌, ◌≤◌, IfOk, length};
ghost use Rattle.std.specs.List.{list_any};
ghost use Rattle.kadm_options.specs.OptionValues.{number_within};
ghost use Rattle.kadm_wire.specs.Reads.{activation_in, is_glob_word, whole_glob};
ghost use Rattle.princ_name.specs.Readings.{own_name_in};

use kadm_options::read_within;
use kadm_values::read_time;
use kdb_base::{Blob, MemoryOut};
use princ_name::{Name, NameFault, parse_own_name};
use std::alloc::Global;

/// The name of this realm that a word spells, or the place where it spells none.
pub(crate) fn read_name(
    alloc: Global,
    word: &[u8],
    realm: &[u8],
) -> Result<Result<Name, u32>, MemoryOut>
    requires { length word.now ≤ 65536 }
    ensures { IfOk result (λ name. name ≡ own_name_in word.now realm.now) }
{
    match parse_own_name(alloc, word, realm) {
        Ok(name) => Ok(Ok(name)),
        Err(NameFault::BadName { offset }) => Ok(Err(offset as u32)),
        Err(NameFault::MemoryOut) => Err(MemoryOut),
    }
}

fn has_at(word: &[u8]) -> bool
    ensures { result ≡ list_any (λ byte. byte == 64) word.now }
{
    word.iter().any(|byte| *byte == b'@')
}

/// The glob of names with their realm: one without an `@` is one of names of the given realm.
#[tactic(auto, unfolding(crate::specs::Reads::whole_glob))]
pub(crate) fn whole_glob(alloc: Global, word: &[u8], realm: &[u8]) -> Result<Blob, MemoryOut>
    ensures { IfOk result (λ glob. glob ≡ whole_glob realm.now word.now) }
{
    let mut glob = word.to_vec(alloc)?;
    if has_at(word) {
        return Ok(Blob::from_vec(glob));
    }
    glob.push(b'@')?;
    glob.extend_from_slice(realm)?;
    Ok(Blob::from_vec(glob))
}

/// Whether the word is a glob.
#[tactic(auto, unfolding(crate::specs::Reads::is_glob_word))]
pub(crate) fn is_glob_word(word: &[u8]) -> bool
    ensures { result ≡ is_glob_word word.now }
{
    kadm_values::is_glob(word)
}

/// When a version of the master key becomes active: any time but 0, which is never.
#[tactic(auto, unfolding(crate::specs::Reads::activation_in))]
pub(crate) fn read_activation(word: &[u8]) -> Option<u32>
    ensures { result ≡ activation_in word.now }
{
    match read_time(word) {
        Some(secs) => { if secs == 0 { None } else { Some(secs) } }
        None => None,
    }
}

/// The number of a word, where it is one from the least to the greatest.
pub(crate) fn read_short(least: u16, most: u16, word: &[u8]) -> Option<u16>
    ensures { result ≡ number_within least most word.now }
{
    match read_within(u32::from(least), u32::from(most), word) {
        Some(number) => Some(number as u16),
        None => None,
    }
}
