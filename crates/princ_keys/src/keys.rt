ghost use Rattle.std.specs.Prelude.{◌≡◌, ◌++◌, ◌<◌, ◌^◌, length, OnOk};
ghost use Rattle.std.specs.List.{list_all};
ghost use Rattle.kdb_format.specs.Answers.{Gives, GivesAs};
ghost use Rattle.princ_keys.specs.Keys.{salt_at, salt as salt_text, IsSalt, key_at, key as key_text, IsKey};
ghost use Rattle.princ_keys.specs.Keys.{begins_at, is_below, are_falling, are_masters, fit_name, may_follow};
ghost use Rattle.princ_keys.specs.Keys.{are_ordered, are_keys, keys_at, keys_text, AreKeys, salt_bytes, salt_kind};
ghost use Rattle.princ_keys.specs.KeyLaws.{key_field};

use kdb_base::limits::MAX_KEYS;
use kdb_base::{Blob, Etype, MemoryOut, Salt};
use kdb_format::etypes::{push_etype, read_etype};
use kdb_format::lists::{read_list_u16, write_list_u16};
use kdb_format::writing::{push_counted, push_u16};
use kdb_format::{Format, FormatFault, Reader};
use std::alloc::Global;
use std::marker::Model;

/// A key of a principal, wrapped under a master key.
#[derive(Debug, Drop)]
pub struct KeyItem {
    /// The version, from 1.
    pub kvno: u16,
    pub etype: Etype,
    pub salt: Salt,
    /// The key, sealed under the master key that the record names. It may be no such thing: whether it
    /// unwraps is not judged here.
    pub wrapped: Blob,
}

// The type numbers of salts, as the record has them.
const NORMAL_SALT: u16 = 0;

const SPECIAL_SALT: u16 = 4;

/// The type number of a salt, as the record has it.
fn kind_of_salt(salt: &Salt) -> u16
    ensures { result ≡ salt_kind salt.now }
{
    match salt {
        Salt::Normal => NORMAL_SALT,
        Salt::Special(_) => SPECIAL_SALT,
    }
}

/// The bytes of a salt, of which a normal one has none.
fn bytes_of_salt(salt: &Salt) -> &[u8]
    ensures { result.now ≡ salt_bytes salt.now }
{
    match salt {
        Salt::Normal => &[],
        Salt::Special(bytes) => bytes.as_slice(),
    }
}

/// Two keys are equal where each part is: salts by their kind and their bytes.
impl PartialEq for KeyItem {
    ghost use Rattle.princ_keys.specs.KeyEquality.{same_item, same_item_partial};

    ghost eq = { same_item };

    ghost laws = { same_item_partial };

    fn eq(&self, other: &KeyItem) -> bool {
        self.kvno == other.kvno
            && self.etype.number() == other.etype.number()
            && kind_of_salt(&self.salt) == kind_of_salt(&other.salt)
            && bytes_of_salt(&self.salt) == bytes_of_salt(&other.salt)
            && self.wrapped == other.wrapped
    }
}

impl Eq for KeyItem {
    ghost use Rattle.princ_keys.specs.KeyEquality.{same_item_equiv};

    ghost laws = { same_item_equiv };
}

/// Keys in their order.
#[derive(Debug, Drop)]
pub struct Keys {
    items: Vec<KeyItem>,
}

impl Model for Keys {
    ghost use Rattle.std.specs.Prelude.{List};
    ghost use Rattle.princ_keys.specs.declared.keys.KeyItem.{KeyItem};

    ghost Value = { List KeyItem };

    ghost view = { λ k. k.items.items };
}

impl Keys {
    /// The keys of this vector, without a copy.
    pub fn from_vec(items: Vec<KeyItem>) -> Keys
        ensures { result ≡ items.items }
    {
        Keys { items }
    }

    /// The keys as a vector, without a copy.
    pub fn into_vec(self) -> Vec<KeyItem>
        ensures { result.items ≡ self }
    {
        self.items
    }

    pub fn as_slice(&self) -> &[KeyItem]
        ensures { result.now ≡ self.now }
    {
        &self.items
    }
}

impl PartialEq for Keys {
    ghost use Rattle.std.specs.Cmp.Lexicographic.{pointwise, lists_equiv};
    ghost use Rattle.std.specs.Cmp.{partial_equiv_from_equiv};
    ghost use Rattle.princ_keys.specs.KeyEquality.{same_item_equiv};

    ghost eq = { pointwise ⟦<KeyItem as PartialEq>⟧.eq };

    ghost laws = { partial_equiv_from_equiv (lists_equiv same_item_equiv) };

    fn eq(&self, other: &Keys) -> bool {
        self.as_slice() == other.as_slice()
    }
}

impl Eq for Keys {
    ghost use Rattle.std.specs.Cmp.Lexicographic.{lists_equiv};
    ghost use Rattle.princ_keys.specs.KeyEquality.{same_item_equiv};

    ghost laws = { lists_equiv same_item_equiv };
}

#[tactic(auto, unfolding(crate::specs::Keys::salt_at, crate::specs::Keys::salt_of, kdb_format::specs::Readings::checked))]
fn read_salt(alloc: Global, reader: &mut Reader) -> Result<Salt, FormatFault>
    ensures { Gives result reader.new (salt_at reader.old) }
{
    match reader.u16()? {
        0 => {
            let bytes = reader.counted()?;
            if bytes.len() != 0 {
                return Err(FormatFault::Malformed);
            }
            Ok(Salt::Normal)
        }
        4 => {
            let bytes = Blob::from_bytes(alloc, reader.counted()?)?;
            Ok(Salt::Special(bytes))
        }
        _ => Err(FormatFault::Malformed),
    }
}

#[tactic(auto, unfolding(crate::specs::Keys::salt))]
fn push_salt(out: &mut Vec<u8>, salt: &Salt) -> Result<(), MemoryOut>
    requires { IsSalt salt.now }
    ensures { OnOk result (out.new.items ≡ out.old.items ++ salt_text salt.now) }
{
    match salt {
        Salt::Normal => {
            push_u16(out, NORMAL_SALT)?;
            push_counted(out, &[])?;
            Ok(())
        }
        Salt::Special(bytes) => {
            push_u16(out, SPECIAL_SALT)?;
            push_counted(out, bytes.as_slice())?;
            Ok(())
        }
    }
}

/// The format of a key: its version, its type, its salt and the wrapped key.
pub enum KeyFormat {}

impl Format for KeyFormat {
    type Value = KeyItem;

    ghost reading = { key_at };

    ghost spelling = { key_text };

    ghost fits = { IsKey };

    ghost is_field = { key_field };

    #[tactic(auto, unfolding(crate::specs::Keys::key_at, kdb_format::specs::Readings::checked))]
    fn read(alloc: Global, reader: &mut Reader) -> Result<KeyItem, FormatFault> {
        let kvno = reader.u16()?;
        if kvno == 0 {
            return Err(FormatFault::Malformed);
        }
        let etype = read_etype(reader)?;
        let salt = read_salt(alloc, reader)?;
        let wrapped = Blob::from_bytes(alloc, reader.counted()?)?;
        Ok(KeyItem {
            kvno,
            etype,
            salt,
            wrapped,
        })
    }

    #[tactic(auto, unfolding(crate::specs::Keys::key))]
    fn write(out: &mut Vec<u8>, value: &KeyItem) -> Result<(), MemoryOut> {
        push_u16(out, value.kvno)?;
        push_etype(out, value.etype)?;
        push_salt(out, &value.salt)?;
        push_counted(out, value.wrapped.as_slice())?;
        Ok(())
    }
}

fn may_follow(key: &KeyItem, later: &KeyItem) -> bool
    ensures { result ≡ may_follow key.now later.now }
{
    later.kvno < key.kvno || (later.kvno == key.kvno && later.etype.number() != key.etype.number())
}

fn all_follow(key: &KeyItem, later: &[KeyItem]) -> bool
    ensures { result ≡ list_all (may_follow key.now) later.now }
{
    later.iter().all(|other| may_follow(key, other))
}

#[tactic(auto, unfolding(crate::specs::Keys::are_ordered))]
fn are_ordered(keys: &[KeyItem]) -> bool
    ensures { result ≡ are_ordered keys.now }
{
    let mut rest = keys;
    while let Some((key, later)) = rest.split_first() {
        if !all_follow(key, later) {
            return false;
        }
        rest = later;
    }
    true
}

/// Whether a principal may have these keys: at most `MAX_KEYS`, of versions that never rise, and of one version
/// at most one of each type.
#[tactic(auto, unfolding(crate::specs::Keys::are_keys))]
pub fn are_keys(keys: &[KeyItem]) -> bool
    ensures { result ≡ are_keys keys.now }
{
    keys.len() <= MAX_KEYS && are_ordered(keys)
}

#[tactic(auto, unfolding(crate::specs::Keys::begins_at))]
fn begins_at(version: u16, keys: &[KeyItem]) -> bool
    ensures { result ≡ begins_at version keys.now }
{
    match keys {
        [] => false,
        [newest, ..] => newest.kvno == version,
    }
}

fn is_below(key: &KeyItem, later: &KeyItem) -> bool
    ensures { result ≡ is_below key.now later.now }
{
    key.kvno > later.kvno
}

fn all_below(key: &KeyItem, later: &[KeyItem]) -> bool
    ensures { result ≡ list_all (is_below key.now) later.now }
{
    later.iter().all(|other| is_below(key, other))
}

#[tactic(auto, unfolding(crate::specs::Keys::are_falling))]
fn are_falling(keys: &[KeyItem]) -> bool
    ensures { result ≡ are_falling keys.now }
{
    let mut rest = keys;
    while let Some((key, later)) = rest.split_first() {
        if !all_below(key, later) {
            return false;
        }
        rest = later;
    }
    true
}

/// Whether K/M may have these keys in a record of this version: the first has the version, and each
/// later one a lower version than all before it.
#[tactic(auto, unfolding(crate::specs::Keys::are_masters))]
pub fn are_masters(version: u16, keys: &[KeyItem]) -> bool
    ensures { result ≡ are_masters version keys.now }
{
    begins_at(version, keys) && are_falling(keys)
}

/// Whether K/M, or another principal, may have these keys in a record of this version.
#[tactic(auto, unfolding(crate::specs::Keys::fit_name))]
pub fn fit_name(master: bool, version: u16, keys: &[KeyItem]) -> bool
    ensures { result ≡ fit_name master version keys.now }
{
    !master || are_masters(version, keys)
}

/// Reads a counted list of keys that a principal may have.
#[tactic(auto, unfolding(crate::specs::Keys::keys_at, kdb_format::specs::Readings::checked))]
pub fn read_keys(alloc: Global, reader: &mut Reader) -> Result<Keys, FormatFault>
    ensures { Gives result reader.new (keys_at reader.old) }
{
    let keys = read_list_u16::<KeyFormat>(alloc, reader)?;
    if !are_keys(&keys) {
        return Err(FormatFault::Malformed);
    }
    Ok(Keys::from_vec(keys))
}

/// Appends the number of keys in two bytes, and the keys.
#[tactic(auto, unfolding(crate::specs::Keys::keys_text))]
pub fn push_keys(out: &mut Vec<u8>, keys: &Keys) -> Result<(), MemoryOut>
    requires { AreKeys keys.now }
    ensures { OnOk result (out.new.items ≡ out.old.items ++ keys_text keys.now) }
{
    write_list_u16::<KeyFormat>(out, keys.as_slice())
}
