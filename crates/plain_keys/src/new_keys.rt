//! The keys that a command makes.

ghost use Rattle.std.specs.Prelude.{◌≡◌, ◌≤◌, length, map, IfOk};
ghost use Rattle.std.specs.List.{flat_map, sum_by};
ghost use Rattle.kdb_base.specs.Etypes.{key_len};
ghost use Rattle.plain_keys.specs.Keys.{bytes_to_make, drawn_len, item_of, items_of, made_keys, normal_salt};
ghost use Rattle.plain_keys.specs.Keys.{password_key, password_keys, random_keys, settled_salt};

use crate::items::{PlainItem, PlainItems, PlainKeys};
use crate::passwords::Password;
use kdb_base::{Blob, Etype, MemoryOut, PlainKey, Salt};
use krb_profile::string_to_key;
use princ_name::Name;
use std::alloc::Global;
use std::marker::Model;

/// The bytes of the confounder with which a key is kept.
const CONFOUNDER_LEN: usize = 16;

/// Encryption types in the order of a line.
#[derive(Debug, Drop)]
pub struct Etypes {
    items: Vec<Etype>,
}

impl Model for Etypes {
    ghost use Rattle.std.specs.Prelude.{List};
    ghost use Rattle.kdb_base.specs.declared.keys.Etype.{Etype};

    ghost Value = { List Etype };

    ghost view = { λ e. e.items.items };
}

impl Etypes {
    /// The types of this vector, without a copy.
    pub fn from_vec(items: Vec<Etype>) -> Etypes
        ensures { result ≡ items.items }
    {
        Etypes { items }
    }

    /// The types as a vector, without a copy.
    pub fn into_vec(self) -> Vec<Etype>
        ensures { result.items ≡ self }
    {
        self.items
    }

    pub fn as_slice(&self) -> &[Etype]
        ensures { result.now ≡ self.now }
    {
        &self.items
    }
}

/// The keys that a command asks for, one of each type. It does not print itself: what it would print is a password.
#[derive(Drop)]
pub enum NewKeys {
    Random(Etypes),
    Password(Password, Etypes),
}

/// The bytes of a random key of this type and of its confounder.
fn drawn_len(etype: Etype) -> usize
    ensures { result ≡ drawn_len etype }
{
    etype.key_len() + CONFOUNDER_LEN
}

/// Random keys of these types from the front of a block of random bytes. Each takes as many bytes as it has, and
/// behind them stand the 16 of its confounder.
///
/// # Errors
///
/// `MemoryOut` where memory is wanted and not given.
#[tactic(auto, unfolding(crate::specs::Keys::random_keys))]
pub fn random_keys(alloc: Global, random: &[u8], etypes: &[Etype]) -> Result<PlainKeys, MemoryOut>
    requires { sum_by drawn_len etypes.now ≤ length random.now }
    ensures { IfOk result (λ keys. keys ≡ random_keys random.now etypes.now) }
{
    let mut keys = Vec::with_capacity(alloc, etypes.len())?;
    let mut left = random;
    for etype in etypes {
        let (key, _) = left.split_at(etype.key_len());
        keys.push(PlainKey::from_bytes(*etype, key))?;
        let (_, behind) = left.split_at(drawn_len(*etype));
        left = behind;
    }
    Ok(PlainKeys::from_vec(keys))
}

/// The salt of a name without another one: its realm and its components, with nothing between (RFC 4120,
/// section 4).
///
/// # Errors
///
/// `MemoryOut` where memory is wanted and not given.
#[tactic(auto, unfolding(crate::specs::Keys::normal_salt))]
pub fn normal_salt(alloc: Global, name: &Name) -> Result<Blob, MemoryOut>
    ensures { IfOk result (λ salt. salt ≡ normal_salt name.now) }
{
    let mut salt = name.realm().to_vec(alloc)?;
    for part in name.parts() {
        salt.extend_from_slice(part.as_slice())?;
    }
    Ok(Blob::from_vec(salt))
}

fn password_key(password: &[u8], salt: &[u8], etype: Etype) -> PlainKey
    ensures { result ≡ password_key password.now salt.now etype }
{
    string_to_key(etype, password, salt, etype.product_rounds())
}

/// The keys of a password and a salt, one of each of these types, in the rounds of the product (RFC 3962,
/// section 4; RFC 8009, section 4).
///
/// # Errors
///
/// `MemoryOut` where memory is wanted and not given.
#[tactic(auto, unfolding(crate::specs::Keys::password_keys))]
pub fn password_keys(
    alloc: Global,
    password: &[u8],
    salt: &[u8],
    etypes: &[Etype],
) -> Result<PlainKeys, MemoryOut>
    ensures { IfOk result (λ keys. keys ≡ password_keys password.now salt.now etypes.now) }
{
    let mut keys = Vec::with_capacity(alloc, etypes.len())?;
    for etype in etypes {
        keys.push(password_key(password, salt, *etype))?;
    }
    Ok(PlainKeys::from_vec(keys))
}

/// The keys that a command makes for the principal of this name: random ones from the front of a block of random
/// bytes, or those of a password with the normal salt of the name.
///
/// # Errors
///
/// `MemoryOut` where memory is wanted and not given.
pub fn made_keys(
    alloc: Global,
    random: &[u8],
    name: &Name,
    keys: &NewKeys,
) -> Result<PlainKeys, MemoryOut>
    requires { bytes_to_make keys.now ≤ length random.now }
    ensures { IfOk result (λ made. made ≡ made_keys random.now name.now keys.now) }
{
    match keys {
        NewKeys::Random(etypes) => random_keys(alloc, random, etypes.as_slice()),
        NewKeys::Password(password, etypes) => {
            let salt = normal_salt(alloc, name)?;
            password_keys(
                alloc,
                password.as_slice(),
                salt.as_slice(),
                etypes.as_slice(),
            )
        }
    }
}

fn item_of(kvno: u16, key: &PlainKey) -> PlainItem
    ensures { result ≡ item_of kvno key.now }
{
    PlainItem {
        kvno,
        salt: Salt::Normal,
        key: *key,
    }
}

/// These keys as keys of a principal, of this version and with the normal salt.
///
/// # Errors
///
/// `MemoryOut` where memory is wanted and not given.
#[tactic(auto, unfolding(crate::specs::Keys::items_of))]
pub fn items_of(alloc: Global, kvno: u16, keys: &[PlainKey]) -> Result<PlainItems, MemoryOut>
    ensures { IfOk result (λ items. items ≡ items_of kvno keys.now) }
{
    let mut items = Vec::with_capacity(alloc, keys.len())?;
    for key in keys {
        items.push(item_of(kvno, key))?;
    }
    Ok(PlainItems::from_vec(items))
}

/// The salt of a key whose principal had this name, once the principal has another one: the same bytes.
///
/// # Errors
///
/// `MemoryOut` where memory is wanted and not given.
pub fn settled_salt(alloc: Global, name: &Name, salt: &Salt) -> Result<Salt, MemoryOut>
    ensures { IfOk result (λ settled. settled ≡ settled_salt name.now salt.now) }
{
    match salt {
        Salt::Normal => {
            let bytes = normal_salt(alloc, name)?;
            Ok(Salt::Special(bytes))
        }
        Salt::Special(bytes) => {
            let bytes = Blob::from_bytes(alloc, bytes.as_slice())?;
            Ok(Salt::Special(bytes))
        }
    }
}
