//! The keys of a stash.

ghost use Rattle.std.specs.Prelude.{◌≡◌, Err, IfOk, option_map};
ghost use Rattle.kdb_base.specs.declared.outcomes.Halt.{Halt};
ghost use Rattle.kdb_base.specs.declared.outcomes.Refusal.{Refusal};
ghost use Rattle.stash_opening.specs.Finding.{HasKeys, IsDamage};

use kdb_base::{Halt, Refusal, Stop};
use stash_file::{StashFault, StashList, read_stash};
use std::alloc::Global;

/// What a call that wants memory answers.
pub(crate) fn memory_out() -> Stop
    ensures { result ≡ Stop.Halt Halt.MemoryOut }
{
    Stop::Halt(Halt::MemoryOut)
}

/// The keys of the stash that stands in this file; none where there is no stash.
pub(crate) fn stash_keys(alloc: Global, stash: Option<&[u8]>, file: u8) -> Result<StashList, Stop>
    ensures ok { IfOk result (λ keys. HasKeys (option_map (λ s. s.now) stash.entry) keys) }
    ensures refused { (why : Refusal) → result ≡ Err (Stop.Refused why)
        → IsDamage (option_map (λ s. s.now) stash.entry) file why }
    ensures halted { (halt : Halt) → result ≡ Err (Stop.Halt halt) → halt ≡ Halt.MemoryOut }
{
    let Some(text) = stash else {
        return Ok(StashList::from_vec(Vec::new(alloc)));
    };
    match read_stash(alloc, text) {
        Ok(keys) => Ok(keys),
        Err(StashFault::BadStash { place }) => Err(Stop::Refused(Refusal::Damaged { file, place })),
        Err(StashFault::MemoryOut) => Err(memory_out()),
    }
}
