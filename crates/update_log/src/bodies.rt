ghost use Rattle.std.specs.Prelude.{◌≡◌, ◌≤◌, ◌-◌, ◌∷◌, length, IfOk};
ghost use Rattle.kdb_format.specs.Moments.{IsPoint};
ghost use Rattle.princ_rows.specs.Entries.{IsOp, logged};
ghost use Rattle.princ_rows.specs.declared.entries.Logged.{Logged};
ghost use Rattle.update_log.specs.Slots.{Spells, IsSpelled};

use kdb_base::{MemoryOut, Point};
use kdb_format::writing::push_zeros;
use princ_rows::Entry;
use princ_rows::entries::push_logged;
use std::alloc::Global;

// Tells a proof that a point has a spelling, and does nothing.
fn holds_point(point: Point)
    ensures { IsPoint point }
{
    let _secs = point.time.secs();
    let _usecs = point.time.usecs();
}

// Tells a proof that the entry has a spelling for which a slot has room, and does nothing.
pub(crate) fn holds_entry(entry: &Entry, cell: u32, block: u32)
    requires fits { IsOp entry.now.op }
    requires short { length (logged (record { entry = entry.now; cell = cell })) ≤ block - 1 }
    ensures { IsSpelled block (record { entry = entry.now; cell = cell }) }
{
    holds_point(entry.point);
}

/// What stands behind the gate of the entry's slot: the entry with the number of its unit, and zeros to
/// the end of the block.
pub(crate) fn write_body(
    alloc: Global,
    entry: &Entry,
    cell: u32,
    block: u32,
) -> Result<Vec<u8>, MemoryOut>
    requires room { 1 ≤ block }
    requires spelled { IsSpelled block (record { entry = entry.now; cell = cell }) }
    ensures long { IfOk result (λ body. length body.items ≡ block - 1) }
    ensures spelled { IfOk result (λ body. Spells block (0 ∷ body.items) (record { entry = entry.now; cell = cell })) }
{
    let room = block as usize - 1;
    let mut body = Vec::with_capacity(alloc, room)?;
    push_logged(&mut body, entry, cell)?;
    let rest = room - body.len();
    push_zeros(&mut body, rest)?;
    Ok(body)
}
