//! The key of a stash by which K/M's chain is opened.

ghost use Rattle.std.specs.Prelude.{◌≡◌, ◌≢◌, ℕ, true, false, Err, Some, None, IfOk, IfSome, List, option_map};
ghost use Rattle.std.specs.List.{All, Contains};
ghost use Rattle.kdb_base.specs.declared.outcomes.Halt.{Halt};
ghost use Rattle.kdb_base.specs.declared.outcomes.Refusal.{Refusal};
ghost use Rattle.kdb_base.specs.declared.versions.Master.{Master};
ghost use Rattle.master_keys.specs.Chain.{Opens};
ghost use Rattle.stash_opening.specs.Answers.{Gives};
ghost use Rattle.stash_opening.specs.Finding.{IsKeyCause, KeysOpen, first_listed, lists};

use crate::stash_keys::memory_out;
use kdb_base::{Master, Masters, Refusal, Stop};
use master_keys::{ChainFault, open_with};
use princ_keys::KeyItem;
use princ_record::Princ;
use stash_file::StashKey;
use std::alloc::Global;

/// A key of the record of this version.
fn item_of(items: &[KeyItem], version: u32) -> Option<&KeyItem>
    ensures some { IfSome result (λ item. Contains items.now item.now) }
    ensures version { IfSome result (λ item. item.now.kvno ≡ version) }
    ensures none { result ≡ None → All (λ k. k.kvno ≢ version) items.now }
{
    items.iter().find(|item| u32::from(item.kvno) == version)
}

/// The version, where the record has a key of it.
#[tactic(auto, using(crate::proofs::Listed::none_listed, crate::proofs::Listed::one_listed))]
fn version_of(items: &[KeyItem], version: u32) -> Option<u16>
    ensures same { (found : ℕ) → result ≡ Some found → found ≡ version }
    ensures some { (found : ℕ) → result ≡ Some found → lists items.now version ≡ true }
    ensures none { result ≡ None → lists items.now version ≡ false }
{
    match item_of(items, version) {
        Some(item) => Some(item.kvno),
        None => None,
    }
}

/// The first key of the stash whose version the record lists.
fn first_listed(items: &[KeyItem], keys: &[StashKey]) -> Option<Master>
    ensures { result ≡ first_listed items.now keys.now }
{
    for key in keys {
        match version_of(items, key.version) {
            Some(version) => {
                return Some(Master {
                    version,
                    key: key.key,
                });
            }
            None => {}
        }
    }
    None
}

/// The master keys that a key of a listed version opens.
fn open_found(alloc: Global, entry: &Princ, found: &Master) -> Result<Masters, Stop>
    requires { lists entry.now.keys found.now.version ≡ true }
    ensures ok { IfOk result (λ masters. Opens entry.now found.now.version found.now.key masters) }
    ensures complete { (masters : List Master) → Opens entry.now found.now.version found.now.key masters
        → Gives result masters }
    ensures refused { (why : Refusal) → result ≡ Err (Stop.Refused why) → why ≡ Refusal.StashWrong }
    ensures wrong { (why : Refusal) → result ≡ Err (Stop.Refused why) → (masters : List Master)
        → Opens entry.now found.now.version found.now.key masters → ⊥ }
    ensures halted { (halt : Halt) → result ≡ Err (Stop.Halt halt) → halt ≡ Halt.MemoryOut }
{
    match open_with(alloc, entry, found.version, &found.key) {
        Ok(masters) => Ok(masters),
        Err(ChainFault::MemoryOut) => Err(memory_out()),
        Err(ChainFault::StashWrong) => Err(Stop::Refused(Refusal::StashWrong)),
        // The version is listed.
        Err(ChainFault::UnknownMaster { version: _ }) => Err(Stop::Refused(Refusal::StashWrong)),
    }
}

/// The master keys that the keys of a stash open, by the record of K/M.
pub(crate) fn open_by(
    alloc: Global,
    entry: Option<&Princ>,
    keys: &[StashKey],
) -> Result<Masters, Stop>
    ensures ok { IfOk result (λ masters. KeysOpen (option_map (λ p. p.now) entry.entry) keys.now masters) }
    ensures complete { (masters : List Master) → KeysOpen (option_map (λ p. p.now) entry.entry) keys.now masters
        → Gives result masters }
    ensures refused { (why : Refusal) → result ≡ Err (Stop.Refused why)
        → IsKeyCause (option_map (λ p. p.now) entry.entry) keys.now why }
    ensures halted { (halt : Halt) → result ≡ Err (Stop.Halt halt) → halt ≡ Halt.MemoryOut }
{
    let [first, ..] = keys else {
        return Err(Stop::Refused(Refusal::StashMissing));
    };
    let Some(entry) = entry else {
        return Err(Stop::Refused(Refusal::UnknownMaster {
            version: first.version,
        }));
    };
    let Some(found) = first_listed(entry.keys.as_slice(), keys) else {
        return Err(Stop::Refused(Refusal::UnknownMaster {
            version: first.version,
        }));
    };
    open_found(alloc, entry, &found)
}
