ghost use Rattle.std.specs.Prelude.{◌≡◌, ◌*◌, ◌≤◌, ◌<◌, ◌^◌};
ghost use Rattle.update_log.specs.Slots.{slot_of};

use kdb_base::Point;

// The slot in which the entry of this serial stands.
#[tactic(auto, unfolding(crate::specs::Slots::slot_of))]
pub(crate) fn slot_of(base: &Point, size: u32, sno: u32) -> u32
    requires serial { base.now.sno ≤ sno }
    requires size { size ≤ 10000 }
    ensures value { result ≡ slot_of base.now size sno }
    ensures small { result ≤ size }
{
    (sno - base.sno) % (size + 1)
}

// The place of the slot in which the entry of this serial stands.
pub(crate) fn place_of(base: &Point, size: u32, block: u32, sno: u32) -> u64
    requires serial { base.now.sno ≤ sno }
    requires size { size ≤ 10000 }
    requires block { block ≤ 16384 }
    ensures value { result ≡ slot_of base.now size sno * block }
    ensures small { result < 2 ^ 32 }
{
    u64::from(slot_of(base, size, sno)) * u64::from(block)
}
