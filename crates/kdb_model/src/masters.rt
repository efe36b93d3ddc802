//! What the commands of master keys make.

ghost use Rattle.std.specs.Prelude.{◌≡◌, ◌∷◌, ◌++◌, [], ◌+◌, ◌<◌, ◌≤◌, IfOk, None, filter, find, length, nat_eq};
ghost use Rattle.std.specs.List.{last_or};
ghost use Rattle.kdb_base.specs.Etypes.{key_len};
ghost use Rattle.kdb_model.specs.Asking.{call_in, state_in};
ghost use Rattle.kdb_model.specs.Masters.{master_row, master_rows, new_etype, new_master};
ghost use Rattle.kdb_model.specs.Masters.{purge_row, purge_rows, use_secs, used_activations};
ghost use Rattle.serving_versions.specs.MasterChanges.{adds_master, purges_masters};
ghost use Rattle.serving_versions.specs.MasterChanges.{serving_activations, uses_version, with_master};
ghost use Rattle.serving_versions.specs.Versions.{is_active_at, serves};
ghost use Rattle.key_activation.specs.Activations.{activation_of};
ghost use Rattle.master_keys.specs.Versions.{last_version};

use crate::asked::{Asked, secs_of};
use kadm_commands::{MasterRow, MasterRows, PurgeRow, PurgeRows, UseMaster};
use kdb_base::{Activation, Activations, Etype, Master, Masters, MemoryOut, PlainKey, Salt};
use kdb_plain::{PlainOp, PlainPrinc, State, copy_princ};
use key_activation::{active_at, set};
use plain_keys::{PlainItem, PlainItems};
use serving_versions::{cause_of, serves, serving_masters};
use std::alloc::Global;

/// The newest master key.
pub(crate) fn newest_master(masters: &Masters) -> Option<Master>
    ensures { result ≡ last_or None masters.now }
{
    match masters.as_slice() {
        [] => None,
        [.., newest] => Some(*newest),
    }
}

/// The greatest version, 0 where there is none.
#[tactic(auto, unfolding(master_keys::specs::Versions::last_version))]
pub(crate) fn last_version(masters: &Masters) -> u16
    ensures { result ≡ last_version masters.now }
{
    match newest_master(masters) {
        Some(master) => master.version,
        None => 0,
    }
}

fn copy_activations(alloc: Global, list: &Activations) -> Result<Activations, MemoryOut>
    ensures { IfOk result (λ x. x ≡ list.now) }
{
    let items = list.as_slice().to_vec(alloc)?;
    Ok(Activations::from_vec(items))
}

fn copy_masters(alloc: Global, masters: &Masters) -> Result<Masters, MemoryOut>
    ensures { IfOk result (λ x. x ≡ masters.now) }
{
    let items = masters.as_slice().to_vec(alloc)?;
    Ok(Masters::from_vec(items))
}

// ---- add_mkey

/// The next master key, of the front of a random block.
#[tactic(auto, unfolding(crate::specs::Masters::new_master, master_keys::specs::Adding::next_version))]
fn new_master(etype: Etype, random: &[u8], masters: &Masters) -> Master
    requires version { last_version masters.now < 65535 }
    requires random { key_len etype ≤ length random.now }
    ensures { result ≡ new_master etype random.now masters.now }
{
    let (key, _) = random.split_at(etype.key_len());
    Master {
        version: last_version(masters) + 1,
        key: PlainKey::from_bytes(etype, key),
    }
}

/// K/M with one more key, which is the newest.
#[tactic(auto, unfolding(serving_versions::specs::MasterChanges::with_master))]
fn with_master(alloc: Global, master: &Master, entry: &PlainPrinc) -> Result<PlainPrinc, MemoryOut>
    ensures { IfOk result (λ q. q ≡ with_master master.now entry.now) }
{
    let mut next = copy_princ(alloc, entry)?;
    let mut items = next.keys.into_vec();
    items.insert(
        0,
        PlainItem {
            kvno: master.version,
            salt: Salt::Normal,
            key: master.key,
        },
    )?;
    next.keys = PlainItems::from_vec(items);
    next.mkvno = master.version;
    Ok(next)
}

/// The master keys with one behind the greatest version.
fn with_newest(alloc: Global, masters: &Masters, master: &Master) -> Result<Masters, MemoryOut>
    requires { last_version masters.now < master.now.version }
    ensures { IfOk result (λ ms. ms ≡ masters.now ++ master.now ∷ []) }
{
    let mut items = masters.as_slice().to_vec(alloc)?;
    items.push(*master)?;
    Ok(Masters::from_vec(items))
}

/// The change that adds a master key.
#[tactic(auto, unfolding(serving_versions::specs::MasterChanges::adds_master))]
fn adds_master(
    alloc: Global,
    state: &State,
    master: &Master,
    entry: &PlainPrinc,
) -> Result<PlainOp, MemoryOut>
    requires { last_version state.now.masters < master.now.version }
    ensures { IfOk result (λ op. op ≡ adds_master state.now master.now entry.now) }
{
    let princ = with_master(alloc, master, entry)?;
    let masters = with_newest(alloc, &state.masters, master)?;
    let activations = copy_activations(alloc, &state.activations)?;
    Ok(PlainOp::PutMasters(princ, masters, activations))
}

fn new_etype(given: Option<Etype>, newest: &Master) -> Etype
    ensures { result ≡ new_etype given newest.now }
{
    match given {
        Some(etype) => etype,
        None => newest.key.etype(),
    }
}

/// `add_mkey`: the change, where K/M is there.
#[tactic(auto, unfolding(crate::specs::Masters::new_master, master_keys::specs::Adding::next_version))]
pub(crate) fn added_master(
    alloc: Global,
    asked: &Asked,
    etype: Option<Etype>,
    newest: &Master,
    entry: &PlainPrinc,
) -> Result<PlainOp, MemoryOut>
    requires version { last_version (state_in asked.now).masters < 65535 }
    requires random { length asked.now.random.now ≡ 2048 }
    ensures { IfOk result (λ op. op ≡ adds_master (state_in asked.now)
        (new_master (new_etype etype newest.now) asked.now.random.now (state_in asked.now).masters) entry.now) }
{
    let etype = new_etype(etype, newest);
    let master = new_master(etype, asked.random, &asked.state.masters);
    adds_master(alloc, asked.state, &master, entry)
}

// ---- use_mkey

/// The seconds from which on the version may be active.
pub(crate) fn use_secs(asked: &Asked, c: &UseMaster) -> u32
    ensures { result ≡ use_secs (state_in asked.now) (call_in asked.now) c.now }
{
    match c.secs {
        Some(secs) => secs,
        None => secs_of(asked),
    }
}

/// The activations behind `use_mkey`.
pub(crate) fn used_activations(
    alloc: Global,
    asked: &Asked,
    c: &UseMaster,
) -> Result<Activations, MemoryOut>
    requires { 1 ≤ c.now.version }
    ensures { IfOk result (λ list. list ≡ used_activations (state_in asked.now) (call_in asked.now) c.now) }
{
    let mut list = copy_activations(alloc, &asked.state.activations)?;
    set(alloc, &mut list, c.version, use_secs(asked, c))?;
    Ok(list)
}

/// `use_mkey`: the change, where K/M is there.
#[tactic(auto, unfolding(serving_versions::specs::MasterChanges::uses_version))]
pub(crate) fn used_master(
    alloc: Global,
    asked: &Asked,
    c: &UseMaster,
    entry: &PlainPrinc,
) -> Result<PlainOp, MemoryOut>
    requires { 1 ≤ c.now.version }
    ensures { IfOk result (λ op. op ≡ uses_version (state_in asked.now) c.now.version
        (use_secs (state_in asked.now) (call_in asked.now) c.now) entry.now) }
{
    let princ = copy_princ(alloc, entry)?;
    let masters = copy_masters(alloc, &asked.state.masters)?;
    let activations = used_activations(alloc, asked, c)?;
    Ok(PlainOp::PutMasters(princ, masters, activations))
}

// ---- purge_mkeys

/// The activations of versions that serve at these seconds.
fn serving_activations(alloc: Global, state: &State, secs: u32) -> Result<Activations, MemoryOut>
    ensures { IfOk result (λ list. list ≡ serving_activations state.now secs) }
{
    let mut items = state.activations.as_slice().to_vec(alloc)?;
    items.retain(|activation| serves(state, secs, activation.version));
    Ok(Activations::from_vec(items))
}

/// The keys of versions that serve at these seconds.
fn serving_items(state: &State, secs: u32, items: PlainItems) -> PlainItems
    ensures { result ≡ filter (λ k. serves state.now secs k.kvno) items }
{
    let mut items = items.into_vec();
    items.retain(|item| serves(state, secs, item.kvno));
    PlainItems::from_vec(items)
}

/// `purge_mkeys`: the change, where K/M is there.
#[tactic(auto, unfolding(serving_versions::specs::MasterChanges::purges_masters, serving_versions::specs::MasterChanges::with_serving))]
pub(crate) fn purged_masters(
    alloc: Global,
    state: &State,
    secs: u32,
    entry: &PlainPrinc,
) -> Result<PlainOp, MemoryOut>
    ensures { IfOk result (λ op. op ≡ purges_masters state.now secs entry.now) }
{
    let mut princ = copy_princ(alloc, entry)?;
    princ.keys = serving_items(state, secs, princ.keys);
    let masters = serving_masters(alloc, state, secs)?;
    let activations = serving_activations(alloc, state, secs)?;
    Ok(PlainOp::PutMasters(princ, masters, activations))
}

// ---- what is told of versions

fn activation_named(list: &[Activation], version: u16) -> Option<Activation>
    ensures { result ≡ find (λ a. nat_eq a.version version) list.now }
{
    list.iter()
        .copied()
        .find(|activation| activation.version == version)
}

/// When the version becomes or became active.
#[tactic(auto, unfolding(key_activation::specs::Activations::activation_of))]
fn activation_of(list: &Activations, version: u16) -> Option<u32>
    ensures { result ≡ activation_of version list.now }
{
    match activation_named(list.as_slice(), version) {
        Some(activation) => Some(activation.secs),
        None => None,
    }
}

fn is_active_at(list: &Activations, secs: u32, version: u16) -> bool
    ensures { result ≡ is_active_at list.now secs version }
{
    match active_at(list, secs) {
        Some(active) => active == version,
        None => false,
    }
}

fn master_row(state: &State, secs: u32, master: &Master) -> MasterRow
    ensures { result ≡ master_row state.now secs master.now }
{
    MasterRow {
        version: master.version,
        etype: master.key.etype(),
        secs: activation_of(&state.activations, master.version),
        active: is_active_at(&state.activations, secs, master.version),
    }
}

/// `list_mkeys`: each listed version.
#[tactic(auto, unfolding(crate::specs::Masters::master_rows))]
pub(crate) fn master_rows(alloc: Global, state: &State, secs: u32) -> Result<MasterRows, MemoryOut>
    ensures { IfOk result (λ rows. rows ≡ master_rows state.now secs) }
{
    let masters = state.masters.as_slice();
    let mut rows = Vec::with_capacity(alloc, masters.len())?;
    for master in masters {
        rows.push(master_row(state, secs, master))?;
    }
    Ok(MasterRows::from_vec(rows))
}

fn purge_row(state: &State, secs: u32, master: &Master) -> PurgeRow
    ensures { result ≡ purge_row state.now secs master.now }
{
    PurgeRow {
        version: master.version,
        cause: cause_of(state, secs, master.version),
    }
}

/// `purge_mkeys`: each listed version, and why it serves.
#[tactic(auto, unfolding(crate::specs::Masters::purge_rows))]
pub(crate) fn purge_rows(alloc: Global, state: &State, secs: u32) -> Result<PurgeRows, MemoryOut>
    ensures { IfOk result (λ rows. rows ≡ purge_rows state.now secs) }
{
    let masters = state.masters.as_slice();
    let mut rows = Vec::with_capacity(alloc, masters.len())?;
    for master in masters {
        rows.push(purge_row(state, secs, master))?;
    }
    Ok(PurgeRows::from_vec(rows))
}
