//! Wrapping a record anew outside the lock.

ghost use Rattle.std.specs.Prelude.{◌≡◌, IfErr, IfOk};
ghost use Rattle.master_keys.specs.Rewrapping.{IsRewrapped};

use crate::works::{Rewrapped, Taken};
use kdb_base::MemoryOut;
use master_keys::{MasterKey, rewrap_by};
use std::alloc::Global;

/// The record with its keys under the other version's master key, by both master keys, which the caller keeps ready.
/// The first 16 bytes of `random` are the confounder of the first key, the next 16 that of the second, and so on. What
/// was taken is given back where memory runs out.
///
/// # Errors
///
/// What was taken, and `MemoryOut`, where memory is wanted and not given.
#[tactic(auto, using(crate::proofs::ItemLemmas::work_of))]
pub fn rewrap_taken(
    alloc: Global,
    taken: Taken,
    old: &MasterKey,
    fresh: &MasterKey,
    random: &[u8; 512],
) -> Result<Rewrapped, (Taken, MemoryOut)>
    requires old { old.now ≡ taken.old }
    requires fresh { fresh.now ≡ taken.fresh }
    ensures taken { IfOk result (λ work. work.taken ≡ taken) }
    ensures made { IfOk result
        (λ work. IsRewrapped taken.princ taken.old taken.version taken.fresh random.now work.made) }
    ensures back { IfErr result (λ fault. fault.0 ≡ taken) }
{
    taken.holds();
    match rewrap_by(alloc, taken.princ(), old, taken.version(), fresh, random) {
        Ok(made) => Ok(Rewrapped::new(taken, made)),
        Err(_) => Err((taken, MemoryOut)),
    }
}

/// The record with its keys under the other version's master key, as `rewrap_taken` makes it, by the master keys that
/// were taken with it.
///
/// # Errors
///
/// What was taken, and `MemoryOut`, where memory is wanted and not given.
pub fn rewrap_outside(
    alloc: Global,
    taken: Taken,
    random: &[u8; 512],
) -> Result<Rewrapped, (Taken, MemoryOut)>
    ensures taken { IfOk result (λ work. work.taken ≡ taken) }
    ensures made { IfOk result
        (λ work. IsRewrapped taken.princ taken.old taken.version taken.fresh random.now work.made) }
    ensures back { IfErr result (λ fault. fault.0 ≡ taken) }
{
    let old = MasterKey::new(taken.old());
    let fresh = MasterKey::new(taken.fresh());
    rewrap_taken(alloc, taken, &old, &fresh, random)
}
