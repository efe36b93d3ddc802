//! The choices of files that come next.
ghost use Rattle.std.specs.Prelude.{◌≡◌, ◌≤◌, ◌-◌};
ghost use Rattle.store_files.specs.Switches.{IsSpareFor, reset_choice, stash_choice};

use kdb_base::Point;
use kdb_control::Control;

/// The log file that is not in force.
#[tactic(auto, using(crate::proofs::Ranges::log_low, crate::proofs::Ranges::log_high))]
pub(crate) fn spare_log(now: &Control) -> u8
    ensures other { result ≡ 7 - now.now.log }
    ensures low { 3 ≤ result }
    ensures high { result ≤ 4 }
{
    7 - now.log
}

/// The choice of files with the log begun anew at this base, in the other log file.
///
/// `size` is the number of entries that the log holds, and `block` the length of their slots in bytes.
pub fn reset_control(now: &Control, base: &Point, size: u32, block: u32) -> Control
    requires size { (2 ≤ size) × (size ≤ 10000) }
    requires block { (2048 ≤ block) × (block ≤ 16384) }
    ensures value { result ≡ reset_choice result.log base.now size block now.now }
    ensures spare { IsSpareFor now.now result.log }
    ensures file { (3 ≤ result.log) × (result.log ≤ 4) }
{
    Control {
        format: 2,
        turn: now.turn_after(),
        image: now.image,
        log: spare_log(now),
        stash: now.stash,
        size,
        block,
        base: *base,
    }
}

// The stash file that is not in force: the first of the two where there is no stash.
fn spare_stash(file: u8) -> u8
    ensures low { 5 ≤ result }
    ensures high { result ≤ 6 }
    ensures other { file ≡ result → ⊥ }
    ensures first { file ≡ 0 → result ≡ 5 }
{
    if file == 5 { 6 } else { 5 }
}

/// The choice of files with another stash, in the spare stash file.
pub fn stash_control(now: &Control) -> Control
    ensures value { result ≡ stash_choice result.stash now.now }
    ensures spare { IsSpareFor now.now result.stash }
    // The first stash of a database without one stands in the first of the two files.
    ensures first { now.now.stash ≡ 0 → result.stash ≡ 5 }
    ensures file { (5 ≤ result.stash) × (result.stash ≤ 6) }
{
    Control {
        format: now.format,
        turn: now.turn_after(),
        image: now.image,
        log: now.log,
        stash: spare_stash(now.stash),
        size: now.size,
        block: now.block,
        base: now.base,
    }
}

/// The file of the log that a choice names.
pub fn log_file(control: &Control) -> u8
    ensures { result ≡ control.now.log }
{
    control.log
}

/// The file of the stash that a choice names, or 0 for none.
pub fn stash_file(control: &Control) -> u8
    ensures { result ≡ control.now.stash }
{
    control.stash
}

// Tells a proof that the files of a choice are not the control file, and does nothing.
#[tactic(auto, using(crate::proofs::Ranges::image_low, crate::proofs::Ranges::log_low))]
pub(crate) fn holds_files(control: &Control)
    ensures image { 1 ≤ control.now.image }
    ensures log { 3 ≤ control.now.log }
{
    let _image = control.image;
}
