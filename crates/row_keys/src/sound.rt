//! Whether rows are sound: whether they show a state that is valid at a time.

ghost use Rattle.std.specs.Prelude.{◌≡◌, ◌≢◌, ◌&&◌, ℕ, List, Ok, Err, Some, None, true, false};
ghost use Rattle.std.specs.Prelude.{is_some, length, nat_eq, IfOk, IfSome, IsTrue, OnOk};
ghost use Rattle.std.specs.List.{All, list_all};
ghost use Rattle.kdb_base.specs.Key.{Key};
ghost use Rattle.kdb_base.specs.declared.versions.Master.{Master};
ghost use Rattle.master_keys.specs.First.{master_name};
ghost use Rattle.master_keys.specs.Rewrapping.{HoldsOne};
ghost use Rattle.master_keys.specs.Wrapping.{Unwraps};
ghost use Rattle.princ_record.specs.declared.princs.Princ.{Princ};
ghost use Rattle.kdb_plain.specs.States.{has_policy, history_name, master_of};
ghost use Rattle.row_keys.specs.Judging.{IsHistoryOf};
ghost use Rattle.row_keys.specs.Lookups.{record_named};
ghost use Rattle.row_keys.specs.Sound.{AreHeldUnder, AreSound, HasOneKey, HoldsOldOne, IsFirstUnsound, IsSound};
ghost use Rattle.row_keys.specs.Sound.{IsSoundChain, IsSoundOwn, LacksOwn, OpensKeys, OpensOld, judged};

use crate::lookups::{has_policy_row, record_named};
use crate::ring::MasterRing;
use kdb_base::{Activation, Etype, Masters, MemoryOut, PlainKey};
use kdb_plain::{history_name, is_history_name, is_master_name, master_name, master_of};
use key_activation::active_at;
use master_keys::{MasterKey, Unopened, holds_chain};
use princ_keys::{KeyItem, OldKey, OldSet};
use princ_record::Princ;
use princ_rows::Rows;
use std::alloc::Global;
use thiserror::Error;

/// Why rows are not sound.
#[derive(Clone, Copy, Debug, PartialEq, Eq, Error)]
pub enum Unsound {
    /// The record at this place among the principals, from 0, is the first that is not sound.
    #[error("the record at place {0} is not sound")]
    Row(usize),
    /// Each record is sound, and K/M or kadmin/history is missing.
    #[error("K/M or kadmin/history is missing")]
    Missing,
    #[error("out of memory")]
    MemoryOut,
}

impl From<MemoryOut> for Unsound {
    ghost use Rattle.row_keys.specs.declared.sound.Unsound.TheVariants as unsound;

    ghost from_gives = { λ _ e. e ≡ unsound.MemoryOut };

    fn from(_: MemoryOut) -> Unsound {
        Unsound::MemoryOut
    }
}

// ---- keys that open

/// Whether the blob holds a key of this type under a master key.
fn opens(alloc: Global, master: &MasterKey, etype: Etype, blob: &[u8]) -> Result<bool, MemoryOut>
    ensures yes { result ≡ Ok true → (key : Key) × Unwraps master.now etype blob.now key }
    ensures no { result ≡ Ok false → (key : Key) → ¬ Unwraps master.now etype blob.now key }
{
    match master.unwrap(alloc, etype, blob) {
        Ok(_) => Ok(true),
        Err(Unopened::Wrong) => Ok(false),
        Err(Unopened::MemoryOut) => Err(MemoryOut),
    }
}

/// Whether each item holds a key under a master key.
fn items_open(alloc: Global, master: &MasterKey, items: &[KeyItem]) -> Result<bool, MemoryOut>
    ensures yes { result ≡ Ok true → All (HoldsOne master.now) items.now }
    ensures no { result ≡ Ok false → ¬ All (HoldsOne master.now) items.now }
{
    for item in items {
        let opened = opens(alloc, master, item.etype, item.wrapped.as_slice())?;
        if !opened {
            return Ok(false);
        }
    }
    Ok(true)
}

/// Whether the version that the record names is there, and its key opens each of the record's keys.
fn keys_open(alloc: Global, ring: &MasterRing, princ: &Princ) -> Result<bool, MemoryOut>
    ensures yes { result ≡ Ok true → OpensKeys ring.now princ.now }
    ensures no { result ≡ Ok false → ¬ OpensKeys ring.now princ.now }
{
    match ring.find(princ.mkvno) {
        Some(master) => items_open(alloc, master, princ.keys.as_slice()),
        None => Ok(false),
    }
}

// ---- remembered keys

/// What was found of kadmin/history.
#[derive(Drop)]
enum History {
    /// It is not there.
    Missing,
    /// It has not one key, or its key does not open.
    Closed,
    /// The key that it has.
    Opened(MasterKey),
}

/// The one key of a record, where it has one and that opens.
fn one_key(alloc: Global, ring: &MasterRing, princ: &Princ) -> Result<Option<PlainKey>, MemoryOut>
    ensures some { (key : Key) → result ≡ Ok (Some key) → HasOneKey ring.now princ.now key }
    ensures only { (key : Key) → HasOneKey ring.now princ.now key → IfOk result (λ found. found ≡ Some key) }
{
    let [item] = princ.keys.as_slice() else {
        return Ok(None);
    };
    let Some(master) = ring.find(princ.mkvno) else {
        return Ok(None);
    };
    match master.unwrap(alloc, item.etype, item.wrapped.as_slice()) {
        Ok(key) => Ok(Some(key)),
        Err(Unopened::Wrong) => Ok(None),
        Err(Unopened::MemoryOut) => Err(MemoryOut),
    }
}

/// What opens remembered keys.
fn history_of(
    alloc: Global,
    rows: &Rows,
    ring: &MasterRing,
    realm: &[u8],
) -> Result<History, MemoryOut>
    ensures { IfOk result (λ history. IsHistoryOf ring.now realm.now rows.now.princs history) }
{
    let name = history_name(alloc, realm)?;
    let Some(entry) = record_named(rows, name.as_slice()) else {
        return Ok(History::Missing);
    };
    match one_key(alloc, ring, entry)? {
        Some(key) => Ok(History::Opened(MasterKey::new(&key))),
        None => Ok(History::Closed),
    }
}

/// Whether each remembered key of a set opens.
fn set_opens(alloc: Global, history: &MasterKey, keys: &[OldKey]) -> Result<bool, MemoryOut>
    ensures yes { result ≡ Ok true → All (HoldsOldOne history.now) keys.now }
    ensures no { result ≡ Ok false → ¬ All (HoldsOldOne history.now) keys.now }
{
    for key in keys {
        let opened = opens(alloc, history, key.etype, key.wrapped.as_slice())?;
        if !opened {
            return Ok(false);
        }
    }
    Ok(true)
}

/// Whether each remembered key of all sets opens.
fn sets_open(alloc: Global, history: &MasterKey, sets: &[OldSet]) -> Result<bool, MemoryOut>
    ensures yes { result ≡ Ok true → All (AreHeldUnder history.now) sets.now }
    ensures no { result ≡ Ok false → ¬ All (AreHeldUnder history.now) sets.now }
{
    for set in sets {
        let opened = set_opens(alloc, history, set.keys.as_slice())?;
        if !opened {
            return Ok(false);
        }
    }
    Ok(true)
}

fn is_empty(set: &OldSet) -> bool
    ensures { result ≡ nat_eq (length set.now.keys) 0 }
{
    set.keys.as_slice().is_empty()
}

/// Whether no set has a key.
fn are_empty(sets: &[OldSet]) -> bool
    ensures { result ≡ list_all (λ s. nat_eq (length s.keys) 0) sets.now }
{
    sets.iter().all(|set| is_empty(set))
}

/// Whether the remembered keys open. Where kadmin/history is missing they are not looked at.
fn old_opens(alloc: Global, history: &History, sets: &[OldSet]) -> Result<bool, MemoryOut>
    ensures yes { (masters : List Master) (realm : List ℕ) (princs : List Princ)
        → IsHistoryOf masters realm princs history.now → result ≡ Ok true → OpensOld masters realm princs sets.now }
    ensures no { (masters : List Master) (realm : List ℕ) (princs : List Princ)
        → IsHistoryOf masters realm princs history.now → result ≡ Ok false → ¬ OpensOld masters realm princs sets.now }
{
    match history {
        History::Missing => Ok(true),
        History::Closed => Ok(are_empty(sets)),
        History::Opened(key) => sets_open(alloc, key, sets),
    }
}

// ---- K/M

fn are_listed(masters: &Masters, activations: &[Activation]) -> bool
    ensures { result ≡ list_all (λ a. is_some (master_of masters.now a.version)) activations.now }
{
    activations.iter().all(|activation| master_of(masters, activation.version).is_some())
}

/// Whether the record's chain leads to the master keys, and an activation of theirs has begun.
fn chain_is_sound(
    alloc: Global,
    masters: &Masters,
    secs: u32,
    princ: &Princ,
) -> Result<bool, MemoryOut>
    ensures yes { result ≡ Ok true → IsSoundChain masters.now secs princ.now }
    ensures no { result ≡ Ok false → ¬ IsSoundChain masters.now secs princ.now }
{
    let Some(part) = &princ.chain else {
        return Ok(false);
    };
    if !are_listed(masters, part.activations.as_slice()) {
        return Ok(false);
    }
    if active_at(&part.activations, secs).is_none() {
        return Ok(false);
    }
    holds_chain(alloc, princ, masters)
}

// ---- records

/// What records are judged by.
#[derive(Clone, Copy)]
struct Judge<'a> {
    rows: &'a Rows,
    masters: &'a Masters,
    ring: &'a MasterRing,
    history: &'a History,
    realm: &'a [u8],
    secs: u32,
}

fn policy_is_there(rows: &Rows, princ: &Princ) -> bool
    ensures yes { result ≡ true → IfSome princ.now.policy (λ name. IsTrue (has_policy name rows.now.policies)) }
    ensures no { result ≡ false → ¬ IfSome princ.now.policy (λ name. IsTrue (has_policy name rows.now.policies)) }
{
    match &princ.policy {
        Some(name) => has_policy_row(rows, name.as_slice()),
        None => true,
    }
}

/// Whether what is asked of K/M's record and of that of kadmin/history stands, where it is one of them.
fn own_is_sound(alloc: Global, judge: &Judge, princ: &Princ) -> Result<bool, MemoryOut>
    ensures yes { result ≡ Ok true
        → IsSoundOwn (judged judge.now.masters.now judge.now.realm.now judge.now.secs) princ.now }
    ensures no { result ≡ Ok false
        → ¬ IsSoundOwn (judged judge.now.masters.now judge.now.realm.now judge.now.secs) princ.now }
{
    if is_history_name(judge.realm, princ.name.as_slice()) && princ.keys.as_slice().len() != 1 {
        return Ok(false);
    }
    if !is_master_name(judge.realm, princ.name.as_slice()) {
        return Ok(true);
    }
    chain_is_sound(alloc, judge.masters, judge.secs, princ)
}

fn is_sound(alloc: Global, judge: &Judge, princ: &Princ) -> Result<bool, MemoryOut>
    requires ring { judge.now.ring.now ≡ judge.now.masters.now }
    requires history { IsHistoryOf judge.now.masters.now judge.now.realm.now judge.now.rows.now.princs
        judge.now.history.now }
    ensures yes { result ≡ Ok true
        → IsSound (judged judge.now.masters.now judge.now.realm.now judge.now.secs) judge.now.rows.now princ.now }
    ensures no { result ≡ Ok false
        → ¬ IsSound (judged judge.now.masters.now judge.now.realm.now judge.now.secs) judge.now.rows.now princ.now }
{
    if !policy_is_there(judge.rows, princ) {
        return Ok(false);
    }
    if !keys_open(alloc, judge.ring, princ)? {
        return Ok(false);
    }
    if !old_opens(alloc, judge.history, princ.old.as_slice())? {
        return Ok(false);
    }
    own_is_sound(alloc, judge, princ)
}

/// The place of the first record that is not sound.
fn first_unsound(alloc: Global, judge: &Judge) -> Result<Option<usize>, MemoryOut>
    requires ring { judge.now.ring.now ≡ judge.now.masters.now }
    requires history { IsHistoryOf judge.now.masters.now judge.now.realm.now judge.now.rows.now.princs
        judge.now.history.now }
    ensures none { result ≡ Ok None
        → All (IsSound (judged judge.now.masters.now judge.now.realm.now judge.now.secs) judge.now.rows.now)
        judge.now.rows.now.princs }
    ensures some { (at : ℕ) → result ≡ Ok (Some at)
        → IsFirstUnsound (judged judge.now.masters.now judge.now.realm.now judge.now.secs) judge.now.rows.now at }
{
    for (at, row) in judge.rows.princs().iter().enumerate() {
        if !is_sound(alloc, judge, row.get())? {
            return Ok(Some(at));
        }
    }
    Ok(None)
}

/// Whether K/M and kadmin/history are there.
fn has_own(alloc: Global, rows: &Rows, realm: &[u8]) -> Result<bool, MemoryOut>
    ensures { IfOk result (λ there. there ≡ (is_some (record_named (master_name realm.now) rows.now.princs)
        && is_some (record_named (history_name realm.now) rows.now.princs))) }
{
    let master = master_name(alloc, realm)?;
    let history = history_name(alloc, realm)?;
    Ok(
        record_named(rows, master.as_slice()).is_some()
            && record_named(rows, history.as_slice()).is_some(),
    )
}

/// Judges rows of this realm at these seconds, where a key of the stash led to these master keys. Each record names
/// a version that is listed and a policy that is there, and its keys open under that version; its remembered keys
/// open under the key of kadmin/history, which has one key. K/M's record leads to the master keys, its activations
/// name listed versions, and one of them has begun.
///
/// # Errors
///
/// `Row` names the first record of which this does not hold, `Missing` says that there is none but K/M or
/// kadmin/history is missing, and `MemoryOut` comes where memory is wanted and not given.
pub fn check_rows(
    alloc: Global,
    rows: &Rows,
    masters: &Masters,
    realm: &[u8],
    secs: u32,
) -> Result<(), Unsound>
    ensures ok { OnOk result (AreSound (judged masters.now realm.now secs) rows.now) }
    ensures row { (at : ℕ) → result ≡ Err (Unsound.Row at)
        → IsFirstUnsound (judged masters.now realm.now secs) rows.now at }
    ensures missing { result ≡ Err Unsound.Missing → LacksOwn (judged masters.now realm.now secs) rows.now }
{
    let ring = MasterRing::new(alloc, masters)?;
    let history = history_of(alloc, rows, &ring, realm)?;
    let judge = Judge {
        rows,
        masters,
        ring: &ring,
        history: &history,
        realm,
        secs,
    };
    let first = first_unsound(alloc, &judge)?;
    if let Some(at) = first {
        return Err(Unsound::Row(at));
    }
    if !has_own(alloc, rows, realm)? {
        return Err(Unsound::Missing);
    }
    Ok(())
}
