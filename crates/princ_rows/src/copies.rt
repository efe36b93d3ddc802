//! Copies of changes and of entries. Only want of memory can refuse one.

ghost use Rattle.std.specs.Prelude.{◌≡◌, IfOk};

use crate::entries::{Entry, Op};
use kdb_base::MemoryOut;
use princ_record::{copy, copy_policy};
use std::alloc::Global;
use tagged_data::Copied;

/// The same change.
pub fn copy_op(alloc: Global, op: &Op) -> Result<Op, MemoryOut>
    ensures { IfOk result (λ x. x ≡ op.now) }
{
    match op {
        Op::PutPrinc(princ) => {
            let princ = copy(alloc, princ)?;
            Ok(Op::PutPrinc(princ))
        }
        Op::DropPrinc(name) => {
            let name = name.copied(alloc)?;
            Ok(Op::DropPrinc(name))
        }
        Op::Rename(old, princ) => {
            let old = old.copied(alloc)?;
            let princ = copy(alloc, princ)?;
            Ok(Op::Rename(old, princ))
        }
        Op::PutPolicy(policy) => {
            let policy = copy_policy(alloc, policy)?;
            Ok(Op::PutPolicy(policy))
        }
        Op::DropPolicy(name) => {
            let name = name.copied(alloc)?;
            Ok(Op::DropPolicy(name))
        }
    }
}

/// The same entry.
pub fn copy_entry(alloc: Global, entry: &Entry) -> Result<Entry, MemoryOut>
    ensures { IfOk result (λ x. x ≡ entry.now) }
{
    let point = entry.point;
    match &entry.op {
        Some(op) => {
            let op = copy_op(alloc, op)?;
            Ok(Entry {
                point,
                op: Some(op),
            })
        }
        None => Ok(Entry { point, op: None }),
    }
}
