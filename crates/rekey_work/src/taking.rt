//! Taking a record for a rekeying.

ghost use Rattle.std.specs.Prelude.{◌≡◌, ◌≢◌, ◌<◌, ◌≤◌, IfOk, None, Some, length};
ghost use Rattle.kdb_base.specs.Limits.{most_keys};
ghost use Rattle.kdb_model.specs.Rekeying.{take_to};
ghost use Rattle.kdb_plain.specs.States.{master_of};
ghost use Rattle.princ_record.specs.Princs.{IsPrinc};
ghost use Rattle.rekey_work.specs.Works.{IsOpenedBy, taken_as};

use crate::works::Taken;
use kdb_base::{Masters, MemoryOut};
use kdb_plain::master_of;
use princ_record::{Princ, copy};
use std::alloc::Global;

/// What a worker is given to move the keys of a record under the active version of the master key. None exactly where
/// it is under that version already.
///
/// # Errors
///
/// `MemoryOut` where memory is wanted and not given.
#[tactic(auto, unfolding(kdb_model::specs::Rekeying::take_to, kdb_model::specs::Rekeying::ready))]
pub fn take(
    alloc: Global,
    princ: &Princ,
    masters: &Masters,
    active: u16,
) -> Result<Option<Taken>, MemoryOut>
    requires spelled { IsPrinc princ.now }
    requires ordinary { princ.now.chain ≡ None }
    requires few { length princ.now.keys ≤ most_keys }
    requires opened { IsOpenedBy masters.now princ.now }
    requires numbered { 0 < active }
    requires listed { master_of masters.now active ≢ None }
    ensures { IfOk result (λ found. taken_as found ≡ take_to masters.now princ.now (Some active)) }
{
    if active == princ.mkvno {
        return Ok(None);
    }
    let (Some(old), Some(fresh)) = (master_of(masters, princ.mkvno), master_of(masters, active))
    else {
        return Ok(None);
    };
    let princ = copy(alloc, princ)?;
    Ok(Some(Taken::new(princ, active, old, fresh)))
}
