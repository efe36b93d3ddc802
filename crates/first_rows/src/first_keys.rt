//! The keys of a creation.

ghost use Rattle.std.specs.Prelude.{◌≡◌, ◌+◌, ◌≤◌, ◌++◌, drop, length, take, true, IfOk};
ghost use Rattle.std.specs.List.{AllZip, sum_by};
ghost use Rattle.kdb_base.specs.Etypes.{key_len};
ghost use Rattle.plain_keys.specs.Keys.{drawn_len};
ghost use Rattle.row_keys.specs.Shows.{ShowsItem};
ghost use Rattle.row_keys.specs.Wraps.{wrapped_items};
ghost use Rattle.first_rows.specs.Creation.{behind_master, first_items, master_confounder};
ghost use Rattle.first_rows.specs.Creation.{master_key_of, master_salt, own_len};

use crate::create_spec::CreateSpec;
use kdb_base::{Blob, Etype, MemoryOut, PlainKey};
use krb_profile::string_to_key;
use master_keys::MasterKey;
use plain_keys::{items_of, random_keys};
use princ_keys::KeyItem;
use row_keys::wrapped_items;
use std::alloc::Global;

/// The version of first keys.
const FIRST: u16 = 1;

/// The bytes of a confounder.
const CONFOUNDER_LEN: usize = 16;

/// How many bytes of the block the master key takes for itself.
fn own_len(spec: &CreateSpec) -> usize
    ensures value { result ≡ own_len spec.now.password spec.now.etype }
    ensures few { result ≤ 32 }
{
    match spec.password() {
        Some(_) => 0,
        None => spec.etype().key_len(),
    }
}

/// The salt of K/M, of which nothing stands between the realm and the components (RFC 4120, section 4).
#[tactic(auto, unfolding(crate::specs::Creation::master_salt))]
fn master_salt(alloc: Global, realm: &[u8]) -> Result<Blob, MemoryOut>
    ensures { IfOk result (λ salt. salt ≡ master_salt realm.now) }
{
    let mut salt = realm.to_vec(alloc)?;
    salt.extend_from_slice(b"KM")?;
    Ok(Blob::from_vec(salt))
}

/// The first master key: that of the password, or the front of the block.
#[tactic(auto, unfolding(crate::specs::Creation::master_key_of))]
pub(crate) fn master_key(
    alloc: Global,
    spec: &CreateSpec,
    random: &[u8],
) -> Result<PlainKey, MemoryOut>
    requires { 32 ≤ length random.now }
    ensures { IfOk result (λ key. key ≡ master_key_of spec.now random.now) }
{
    let etype = spec.etype();
    match spec.password() {
        Some(password) => {
            let salt = master_salt(alloc, spec.realm())?;
            let rounds = etype.product_rounds();
            Ok(string_to_key(etype, password, salt.as_slice(), rounds))
        }
        None => {
            let (key, _) = random.split_at(etype.key_len());
            Ok(PlainKey::from_bytes(etype, key))
        }
    }
}

/// The 16 bytes with which the master key is wrapped.
pub(crate) fn master_confounder<'a>(spec: &CreateSpec, random: &'a [u8]) -> &'a [u8]
    requires { 48 ≤ length random.now }
    ensures value { result.now ≡ master_confounder spec.now random.now }
    ensures long { length result.now ≡ 16 }
{
    let (_, behind) = random.split_at(own_len(spec));
    let (confounder, _) = behind.split_at(CONFOUNDER_LEN);
    confounder
}

/// What stands in the block behind what the master key takes.
#[tactic(auto, unfolding(crate::specs::Creation::behind_master))]
pub(crate) fn behind_master<'a>(spec: &CreateSpec, random: &'a [u8]) -> &'a [u8]
    requires { 48 ≤ length random.now }
    ensures value { result.now ≡ behind_master spec.now random.now }
    ensures long { length random.now ≤ length result.now + 48 }
{
    let (_, behind) = random.split_at(own_len(spec) + CONFOUNDER_LEN);
    behind
}

/// Random keys of these types from the front of the block, wrapped under the master key.
pub(crate) fn first_items(
    alloc: Global,
    master: &MasterKey,
    etypes: &[Etype],
    random: &[u8],
) -> Result<Vec<KeyItem>, MemoryOut>
    requires { sum_by drawn_len etypes.now ≤ length random.now }
    ensures items { IfOk result
        (λ v. v.items ≡ wrapped_items master.now true random.now (first_items etypes.now random.now)) }
    ensures shows { IfOk result (λ v. AllZip (ShowsItem master.now) v.items (first_items etypes.now random.now)) }
{
    let keys = random_keys(alloc, random, etypes)?;
    let plain = items_of(alloc, FIRST, keys.as_slice())?;
    let items = wrapped_items(alloc, master, true, random, plain.as_slice())?;
    Ok(items)
}
