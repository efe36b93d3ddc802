//! Copies of what a record holds. Only want of memory can refuse one.

ghost use Rattle.std.specs.Prelude.{◌≡◌, IfOk};

use crate::string_attributes::{StringAttribute, StringAttributes};
use kdb_base::{Activations, AuxKey, AuxList, Blob, MemoryOut};
use std::alloc::Global;

/// A value that can be copied, where memory is given.
pub trait Copied: Drop {
    /// The same value.
    fn copied(&self, alloc: Global) -> Result<Self, MemoryOut>
        ensures { IfOk result (λ x. x ≡ self.now) };
}

/// The same items in the same order.
pub fn copy_all<T: Copied>(alloc: Global, items: &[T]) -> Result<Vec<T>, MemoryOut>
    ensures { IfOk result (λ v. v.items ≡ items.now) }
{
    let mut out = Vec::with_capacity(alloc, items.len())?;
    for item in items {
        let item = item.copied(alloc)?;
        out.push(item)?;
    }
    Ok(out)
}

impl Copied for Blob {
    fn copied(&self, alloc: Global) -> Result<Blob, MemoryOut> {
        Blob::from_bytes(alloc, self.as_slice())
    }
}

impl Copied for Activations {
    fn copied(&self, alloc: Global) -> Result<Activations, MemoryOut> {
        let items = self.as_slice().to_vec(alloc)?;
        Ok(Activations::from_vec(items))
    }
}

impl Copied for AuxKey {
    fn copied(&self, alloc: Global) -> Result<AuxKey, MemoryOut> {
        let wrapped = self.wrapped.copied(alloc)?;
        Ok(AuxKey {
            version: self.version,
            etype: self.etype,
            wrapped,
        })
    }
}

impl Copied for AuxList {
    fn copied(&self, alloc: Global) -> Result<AuxList, MemoryOut> {
        let keys = copy_all(alloc, self.as_slice())?;
        Ok(AuxList::from_vec(keys))
    }
}

impl Copied for StringAttribute {
    fn copied(&self, alloc: Global) -> Result<StringAttribute, MemoryOut> {
        let key = self.key.copied(alloc)?;
        let value = self.value.copied(alloc)?;
        Ok(StringAttribute { key, value })
    }
}

impl Copied for StringAttributes {
    fn copied(&self, alloc: Global) -> Result<StringAttributes, MemoryOut> {
        let items = copy_all(alloc, self.as_slice())?;
        Ok(StringAttributes::from_vec(items))
    }
}
