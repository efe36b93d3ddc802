//! The first record of K/M, with one master key.

ghost use Rattle.std.specs.Prelude.{◌≡◌, ◌++◌, ◌∷◌, [], length, IfOk, OnOk};
ghost use Rattle.kdb_base.specs.declared.keys.Salt.TheVariants.{Normal};
ghost use Rattle.princ_name.specs.Realms.{IsRealm};
ghost use Rattle.princ_record.specs.Princs.{IsPrinc};
ghost use Rattle.master_keys.specs.Chain.{IsChain};
ghost use Rattle.master_keys.specs.First.{first_record};
ghost use Rattle.master_keys.specs.Wrapping.{Unwraps, wrapped};

use crate::wrapping::wrap;
use kdb_base::{
    Activation, Activations, AuxList, Blob, Master, Masters, MemoryOut, PlainKey, Salt,
};
use princ_record::{ChainPart, KeyItem, Keys, OldSets, Princ};
use std::alloc::Global;
use tagged_data::StringAttributes;

/// The version of a first master key.
const FIRST: u16 = 1;

/// A name in this realm.
fn name_in(alloc: Global, front: &[u8], realm: &[u8]) -> Result<Blob, MemoryOut>
    ensures { IfOk result (λ name. name ≡ front.now ++ realm.now) }
{
    let mut name = front.to_vec(alloc)?;
    name.extend_from_slice(realm)?;
    Ok(Blob::from_vec(name))
}

/// The key of the first version, wrapped under itself.
fn first_keys(alloc: Global, key: &PlainKey, random: &[u8]) -> Result<Keys, MemoryOut>
    requires { length random.now ≡ 16 }
    ensures keys { IfOk result (λ keys. keys ≡ record {
      kvno = 1;
      etype = key.now.etype;
      salt = Normal;
      wrapped = wrapped key.now key.now random.now;
    } ∷ []) }
    ensures unwraps { OnOk result (Unwraps key.now key.now.etype (wrapped key.now key.now random.now) key.now) }
{
    let mut confounder = [0; 16];
    confounder.copy_from_slice(random);
    let wrapped = wrap(alloc, key, key, &confounder)?;
    let mut keys = Vec::with_capacity(alloc, 1)?;
    keys.push(KeyItem {
        kvno: FIRST,
        etype: key.etype(),
        salt: Salt::Normal,
        wrapped,
    })?;
    Ok(Keys::from_vec(keys))
}

/// What stands at K/M alone: the first version is active from these seconds on.
fn first_part(alloc: Global, secs: u32) -> Result<ChainPart, MemoryOut>
    ensures { IfOk result (λ part. part ≡ record { activations = record { version = 1; secs = secs } ∷ []; aux = [] }) }
{
    let mut activations = Vec::with_capacity(alloc, 1)?;
    activations.push(Activation {
        version: FIRST,
        secs,
    })?;
    Ok(ChainPart {
        activations: Activations::from_vec(activations),
        aux: AuxList::from_vec(Vec::new(alloc)),
    })
}

/// The record of K/M with one master key.
fn first_entry(
    alloc: Global,
    realm: &[u8],
    key: &PlainKey,
    secs: u32,
    random: &[u8],
) -> Result<Princ, MemoryOut>
    requires { length random.now ≡ 16 }
    ensures entry { IfOk result (λ entry. entry ≡ first_record realm.now key.now secs random.now) }
    ensures unwraps { OnOk result (Unwraps key.now key.now.etype (wrapped key.now key.now random.now) key.now) }
{
    let name = name_in(alloc, b"K/M@", realm)?;
    let modifier = name_in(alloc, b"admin/local@", realm)?;
    let keys = first_keys(alloc, key, random)?;
    let part = first_part(alloc, secs)?;
    Ok(Princ {
        name,
        attributes: 0,
        max_life: 0,
        max_renew: 0,
        expire: 0,
        pw_expire: 0,
        pw_changed: Some(secs),
        modified: secs,
        modifier,
        mkvno: FIRST,
        keys,
        policy: None,
        old: OldSets::from_vec(Vec::new(alloc)),
        chain: Some(part),
        strings: StringAttributes::new(alloc),
    })
}

/// The first version alone.
fn first_masters(alloc: Global, key: &PlainKey) -> Result<Masters, MemoryOut>
    ensures { IfOk result (λ masters. masters ≡ record { version = 1; key = key.now } ∷ []) }
{
    let mut masters = Vec::with_capacity(alloc, 1)?;
    masters.push(Master {
        version: FIRST,
        key: *key,
    })?;
    Ok(Masters::from_vec(masters))
}

/// The first record of K/M in a realm, changed in these seconds since 1970 by `admin/local`, and its master
/// keys: version 1 with this key, wrapped under itself with `random` as the confounder.
///
/// # Errors
///
/// `MemoryOut` where memory is wanted and not given.
pub fn new_chain(
    alloc: Global,
    realm: &[u8],
    key: &PlainKey,
    secs: u32,
    random: &[u8],
) -> Result<(Princ, Masters), MemoryOut>
    requires random { length random.now ≡ 16 }
    requires realm { IsRealm realm.now }
    ensures entry { IfOk result (λ both. both.0 ≡ first_record realm.now key.now secs random.now) }
    ensures masters { IfOk result (λ both. both.1 ≡ record { version = 1; key = key.now } ∷ []) }
    ensures chain { IfOk result (λ both. IsChain both.0 both.1) }
    // The record has a spelling.
    ensures spelled { IfOk result (λ both. IsPrinc both.0) }
{
    let entry = first_entry(alloc, realm, key, secs, random)?;
    let masters = first_masters(alloc, key)?;
    Ok((entry, masters))
}
