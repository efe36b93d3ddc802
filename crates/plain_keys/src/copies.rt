//! Copies of keys in the plain.

ghost use Rattle.std.specs.Prelude.{◌≡◌, IfOk};

use crate::items::{PlainItem, PlainKeys, PlainSet};
use kdb_base::MemoryOut;
use princ_keys::copy_salt;
use std::alloc::Global;
use tagged_data::Copied;

fn copy_keys(alloc: Global, keys: &PlainKeys) -> Result<PlainKeys, MemoryOut>
    ensures { IfOk result (λ x. x ≡ keys.now) }
{
    let items = keys.as_slice().to_vec(alloc)?;
    Ok(PlainKeys::from_vec(items))
}

impl Copied for PlainItem {
    fn copied(&self, alloc: Global) -> Result<PlainItem, MemoryOut> {
        let salt = copy_salt(alloc, &self.salt)?;
        Ok(PlainItem {
            kvno: self.kvno,
            salt,
            key: self.key,
        })
    }
}

impl Copied for PlainSet {
    fn copied(&self, alloc: Global) -> Result<PlainSet, MemoryOut> {
        let keys = copy_keys(alloc, &self.keys)?;
        Ok(PlainSet {
            kvno: self.kvno,
            keys,
        })
    }
}
