//! The words of a replica's run.
ghost use Rattle.std.specs.Prelude.{◌≡◌, ◌≤◌, IfOk, IfSome, length, map, option_map};
ghost use Rattle.kadm_options.specs.OptionValues.{number_within};
ghost use Rattle.keytab_words.specs.Words.{whole_name_in};
ghost use Rattle.kprop_runs.specs.Words.{IsAsked, asked_by, asked_in, asks, client_in};
ghost use Rattle.kprop_runs.specs.Words.{least_size, most_rounds, most_size, named_by};
ghost use Rattle.princ_name.specs.Names.{IsName, printed};

use kadm_options::read_within;
use kdb_base::{Blob, MemoryOut};
use princ_name::{Name, NameFault, parse_name, print_name};
use std::alloc::Global;

/// What the words ask for.
#[derive(Debug, Drop)]
pub struct Asked {
    /// The replica's name in its printed form.
    pub name: Blob,
    /// How many rounds.
    pub rounds: u32,
    /// The size of the log, 2 to 10000.
    pub size: u32,
}

/// The name that a word spells with its realm. Only want of memory can refuse the reading itself.
fn read_name(alloc: Global, word: &[u8]) -> Result<Option<Name>, MemoryOut>
    ensures value { IfOk result (λ found. found ≡ named_by (whole_name_in word.now)) }
    ensures name { IfOk result (λ found. IfSome found IsName) }
{
    match parse_name(alloc, word, b"") {
        Ok(name) => Ok(Some(name)),
        Err(NameFault::BadName { .. }) => Ok(None),
        Err(NameFault::MemoryOut) => Err(MemoryOut),
    }
}

/// Its printed form.
fn print_found(alloc: Global, found: Option<Name>) -> Result<Option<Blob>, MemoryOut>
    requires { IfSome found IsName }
    ensures value { IfOk result (λ text. text ≡ option_map printed found) }
    ensures short { IfOk result (λ text. IfSome text (λ bytes. length bytes ≤ 255)) }
{
    match found {
        Some(name) => match print_name(alloc, &name) {
            Ok(text) => Ok(Some(text)),
            Err(_) => Err(MemoryOut),
        },
        None => Ok(None),
    }
}

/// The name that a word spells with its realm, in its printed form.
fn read_client(alloc: Global, word: &[u8]) -> Result<Option<Blob>, MemoryOut>
    ensures value { IfOk result (λ text. text ≡ client_in word.now) }
    ensures short { IfOk result (λ text. IfSome text (λ bytes. length bytes ≤ 255)) }
{
    match read_name(alloc, word) {
        Ok(found) => print_found(alloc, found),
        Err(_) => Err(MemoryOut),
    }
}

/// What is asked for by these numbers, where there is a name.
fn with_name(rounds: u32, size: u32, name: Option<Blob>) -> Option<Asked>
    requires low { least_size ≤ size }
    requires high { size ≤ most_size }
    requires name { IfSome name (λ bytes. length bytes ≤ 255) }
    ensures value { result ≡ option_map (asks rounds size) name }
    ensures sized { IfSome result IsAsked }
{
    match name {
        Some(name) => Some(Asked { name, rounds, size }),
        None => None,
    }
}

fn asked_by(
    alloc: Global,
    rounds: &[u8],
    size: &[u8],
    name: &[u8],
) -> Result<Option<Asked>, MemoryOut>
    ensures value { IfOk result (λ found. found ≡ asked_by (number_within 0 most_rounds rounds.now)
        (number_within least_size most_size size.now) (client_in name.now)) }
    ensures sized { IfOk result (λ found. IfSome found IsAsked) }
{
    match read_within(0, u32::MAX, rounds) {
        Some(rounds) => match read_within(2, 10_000, size) {
            Some(size) => match read_client(alloc, name) {
                Ok(name) => Ok(with_name(rounds, size, name)),
                Err(_) => Err(MemoryOut),
            },
            None => Ok(None),
        },
        None => Ok(None),
    }
}

/// What the words ask for: the replica's name with its realm, in any spelling, the number of rounds, 0 to 4294967295,
/// and the size of its log, 2 to 10000. None, where other words stand there. Only want of memory can refuse the reading
/// itself.
#[tactic(auto, unfolding(crate::specs::Words::asked_in))]
pub fn read_asked(alloc: Global, words: &[Vec<u8>]) -> Result<Option<Asked>, MemoryOut>
    ensures value { IfOk result (λ found. found ≡ asked_in (map (λ word. word.items) words.now)) }
    ensures sized { IfOk result (λ found. IfSome found IsAsked) }
{
    match words {
        [name, rounds, size] => {
            asked_by(alloc, rounds.as_slice(), size.as_slice(), name.as_slice())
        }
        _ => Ok(None),
    }
}
