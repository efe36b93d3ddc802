//! Words that are names.

ghost use Rattle.std.specs.Prelude.{◌≡◌, ◌≤◌, IfOk, length};
ghost use Rattle.keytab_words.specs.Words.{whole_name_in};
ghost use Rattle.princ_name.specs.Readings.{own_name_in};

use kdb_base::MemoryOut;
use princ_name::{Name, NameFault, parse_name, parse_own_name};
use std::alloc::Global;

/// The name of this realm that a word spells, or the place where it spells none. Only want of memory can refuse the
/// reading itself.
pub fn read_own_name(
    alloc: Global,
    word: &[u8],
    realm: &[u8],
) -> Result<Result<Name, u32>, MemoryOut>
    requires { length word.now ≤ 65536 }
    ensures { IfOk result (λ name. name ≡ own_name_in word.now realm.now) }
{
    match parse_own_name(alloc, word, realm) {
        Ok(name) => Ok(Ok(name)),
        Err(NameFault::BadName { offset }) => Ok(Err(offset as u32)),
        Err(NameFault::MemoryOut) => Err(MemoryOut),
    }
}

/// The name that a word spells with its realm, or the place where it spells none; behind its last byte, where it
/// names no realm.
pub(crate) fn read_whole_name(alloc: Global, word: &[u8]) -> Result<Result<Name, u32>, MemoryOut>
    requires { length word.now ≤ 65536 }
    ensures { IfOk result (λ name. name ≡ whole_name_in word.now) }
{
    match parse_name(alloc, word, b"") {
        Ok(name) => Ok(Ok(name)),
        Err(NameFault::BadName { offset }) => Ok(Err(offset as u32)),
        Err(NameFault::MemoryOut) => Err(MemoryOut),
    }
}
