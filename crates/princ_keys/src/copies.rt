//! Copies of keys. Only want of memory can refuse one.

ghost use Rattle.std.specs.Prelude.{◌≡◌, IfOk};

use crate::keys::{KeyItem, Keys};
use crate::remembered::{OldKey, OldKeys, OldSet, OldSets};
use kdb_base::{MemoryOut, Salt};
use std::alloc::Global;
use tagged_data::{Copied, copy_all};

/// The same salt.
pub fn copy_salt(alloc: Global, salt: &Salt) -> Result<Salt, MemoryOut>
    ensures { IfOk result (λ x. x ≡ salt.now) }
{
    match salt {
        Salt::Normal => Ok(Salt::Normal),
        Salt::Special(bytes) => {
            let bytes = bytes.copied(alloc)?;
            Ok(Salt::Special(bytes))
        }
    }
}

impl Copied for KeyItem {
    fn copied(&self, alloc: Global) -> Result<KeyItem, MemoryOut> {
        let salt = copy_salt(alloc, &self.salt)?;
        let wrapped = self.wrapped.copied(alloc)?;
        Ok(KeyItem {
            kvno: self.kvno,
            etype: self.etype,
            salt,
            wrapped,
        })
    }
}

impl Copied for Keys {
    fn copied(&self, alloc: Global) -> Result<Keys, MemoryOut> {
        let items = copy_all(alloc, self.as_slice())?;
        Ok(Keys::from_vec(items))
    }
}

impl Copied for OldKey {
    fn copied(&self, alloc: Global) -> Result<OldKey, MemoryOut> {
        let wrapped = self.wrapped.copied(alloc)?;
        Ok(OldKey {
            etype: self.etype,
            wrapped,
        })
    }
}

impl Copied for OldSet {
    fn copied(&self, alloc: Global) -> Result<OldSet, MemoryOut> {
        let keys = copy_all(alloc, self.keys.as_slice())?;
        Ok(OldSet {
            kvno: self.kvno,
            keys: OldKeys::from_vec(keys),
        })
    }
}

impl Copied for OldSets {
    fn copied(&self, alloc: Global) -> Result<OldSets, MemoryOut> {
        let items = copy_all(alloc, self.as_slice())?;
        Ok(OldSets::from_vec(items))
    }
}
