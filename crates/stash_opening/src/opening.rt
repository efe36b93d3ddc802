//! The master keys by which rows are read.

ghost use Rattle.std.specs.Prelude.{◌≡◌, Err, Ok, IfOk, List, false, option_map, true};
ghost use Rattle.kdb_base.specs.declared.outcomes.Halt.{Halt};
ghost use Rattle.kdb_base.specs.declared.outcomes.Refusal.{Refusal};
ghost use Rattle.kdb_base.specs.declared.versions.Master.{Master};
ghost use Rattle.row_keys.specs.Sound.{AreSound, judged};
ghost use Rattle.stash_opening.specs.Answers.{Gives, Refuses};
ghost use Rattle.stash_opening.specs.Finding.{IsOpeningCause, IsStashCause, StashOpens, own_record};

use crate::finding::open_by;
use crate::stash_keys::{memory_out, stash_keys};
use kdb_base::{Masters, MemoryOut, Refusal, Stop};
use kdb_plain::master_name;
use princ_record::Princ;
use princ_rows::Rows;
use row_keys::{Unsound, check_rows, record_named};
use std::alloc::Global;

/// The master keys that the stash in this file opens, by the record of K/M.
fn by_stash(
    alloc: Global,
    entry: Option<&Princ>,
    stash: Option<&[u8]>,
    file: u8,
) -> Result<Masters, Stop>
    ensures ok { IfOk result
        (λ masters. StashOpens (option_map (λ s. s.now) stash.entry) (option_map (λ p. p.now) entry.entry) masters) }
    ensures complete { (masters : List Master)
        → StashOpens (option_map (λ s. s.now) stash.entry) (option_map (λ p. p.now) entry.entry) masters
        → Gives result masters }
    ensures refused { (why : Refusal) → result ≡ Err (Stop.Refused why)
        → IsStashCause (option_map (λ s. s.now) stash.entry) file (option_map (λ p. p.now) entry.entry) why }
    ensures only_refused { (why : Refusal)
        → IsStashCause (option_map (λ s. s.now) stash.entry) file (option_map (λ p. p.now) entry.entry) why
        → Refuses result why }
    ensures halted { (halt : Halt) → result ≡ Err (Stop.Halt halt) → halt ≡ Halt.MemoryOut }
{
    let keys = match stash_keys(alloc, stash, file) {
        Ok(keys) => keys,
        Err(stop) => return Err(stop),
    };
    open_by(alloc, entry, keys.as_slice())
}

/// The master keys that the stash in this file opens: those to which the first of its keys leads, in the order of the
/// file, whose version K/M lists. Nothing is asked of the other rows.
///
/// # Errors
///
/// `Damaged` where the stash breaks its grammar, `StashMissing` where there is no stash or it has no key,
/// `UnknownMaster` with the version of its first key where K/M lists none, `StashWrong` where the key that was found
/// does not open the chain, and `MemoryOut` where memory is wanted and not given.
pub fn stash_masters(
    alloc: Global,
    rows: &Rows,
    realm: &[u8],
    stash: Option<&[u8]>,
    file: u8,
) -> Result<Masters, Stop>
    ensures ok { IfOk result
        (λ masters. StashOpens (option_map (λ s. s.now) stash.entry) (own_record realm.now rows.now) masters) }
    // What the stash opens is opened, unless memory runs out.
    ensures complete { (masters : List Master)
        → StashOpens (option_map (λ s. s.now) stash.entry) (own_record realm.now rows.now) masters
        → Gives result masters }
    ensures refused { (why : Refusal) → result ≡ Err (Stop.Refused why)
        → IsStashCause (option_map (λ s. s.now) stash.entry) file (own_record realm.now rows.now) why }
    // Where there is a cause it is told, unless memory runs out.
    ensures only_refused { (why : Refusal)
        → IsStashCause (option_map (λ s. s.now) stash.entry) file (own_record realm.now rows.now) why
        → Refuses result why }
    ensures halted { (halt : Halt) → result ≡ Err (Stop.Halt halt) → halt ≡ Halt.MemoryOut }
{
    let Ok(name) = master_name(alloc, realm) else {
        return Err(memory_out());
    };
    by_stash(alloc, record_named(rows, name.as_slice()), stash, file)
}

/// Whether the rows are sound under these master keys.
#[tactic(auto, using(crate::proofs::Causes::first_is_unsound, crate::proofs::Causes::lack_is_unsound))]
fn are_sound(
    alloc: Global,
    rows: &Rows,
    masters: &Masters,
    realm: &[u8],
    secs: u32,
) -> Result<bool, MemoryOut>
    ensures yes { result ≡ Ok true → AreSound (judged masters.now realm.now secs) rows.now }
    ensures no { result ≡ Ok false → AreSound (judged masters.now realm.now secs) rows.now → ⊥ }
{
    match check_rows(alloc, rows, masters, realm, secs) {
        Ok(()) => Ok(true),
        Err(Unsound::Row(_)) => Ok(false),
        Err(Unsound::Missing) => Ok(false),
        Err(Unsound::MemoryOut) => Err(MemoryOut),
    }
}

/// The master keys by which rows are read at these seconds: those of `stash_masters`, where the rows are sound under
/// them. Such rows show one state of the realm, and it is valid at the seconds.
///
/// # Errors
///
/// Those of `stash_masters`, and `StashWrong` also where the rows are not sound.
pub fn find_masters(
    alloc: Global,
    rows: &Rows,
    realm: &[u8],
    stash: Option<&[u8]>,
    file: u8,
    secs: u32,
) -> Result<Masters, Stop>
    ensures opened { IfOk result
        (λ masters. StashOpens (option_map (λ s. s.now) stash.entry) (own_record realm.now rows.now) masters) }
    ensures sound { IfOk result (λ masters. AreSound (judged masters realm.now secs) rows.now) }
    // Where the rows are sound under what the stash opens, that is given, unless memory runs out.
    ensures complete { (masters : List Master)
        → StashOpens (option_map (λ s. s.now) stash.entry) (own_record realm.now rows.now) masters
        → AreSound (judged masters realm.now secs) rows.now → Gives result masters }
    ensures refused { (why : Refusal) → result ≡ Err (Stop.Refused why) → IsOpeningCause
        (option_map (λ s. s.now) stash.entry) file (own_record realm.now rows.now) realm.now secs rows.now why }
    // Where there is a cause it is told, unless memory runs out.
    ensures only_refused { (why : Refusal) → IsOpeningCause (option_map (λ s. s.now) stash.entry) file
        (own_record realm.now rows.now) realm.now secs rows.now why → Refuses result why }
    ensures halted { (halt : Halt) → result ≡ Err (Stop.Halt halt) → halt ≡ Halt.MemoryOut }
{
    let masters = match stash_masters(alloc, rows, realm, stash, file) {
        Ok(masters) => masters,
        Err(stop) => return Err(stop),
    };
    let Ok(sound) = are_sound(alloc, rows, &masters, realm, secs) else {
        return Err(memory_out());
    };
    if !sound {
        return Err(Stop::Refused(Refusal::StashWrong));
    }
    Ok(masters)
}
