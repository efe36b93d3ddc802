ghost use Rattle.std.specs.Prelude.{◌≡◌, ◌≤◌, ◌<◌, ◌+◌, ◌^◌, ℕ, List, length, take, drop, IfOk, OnOk};
ghost use Rattle.kdb_base.specs.declared.outcomes.Halt.TheVariants.{DiskFault};
ghost use Rattle.kdb_base.specs.Causes.{HasCause};
ghost use Rattle.kdb_disk.specs.Files.{Files, written, with_file};
ghost use Rattle.kdb_disk.specs.View.{View, Torn, Frayed, Follows, Elapses, Looks};

use kdb_base::Halt;
use thiserror::Error;

/// A device call failed, and the disk's count of faults rose.
#[derive(Clone, Copy, Debug, PartialEq, Eq, Error)]
#[error("the disk failed")]
pub struct DiskFailed;

impl From<DiskFailed> for Halt {
    ghost from_gives = { λ _ halt. halt ≡ DiskFault };

    fn from(_: DiskFailed) -> Halt {
        Halt::DiskFault
    }
}

/// Seven files, numbered from 0, of which a crash may leave any image at any moment.
///
/// Between two syncs of a file, a crash may leave any bytes in each range that was written and past
/// the least length since the last sync, and any length from the least to the greatest since then.
/// All other bytes stay. After a sync that succeeded it leaves what a read gives.
pub trait Disk {
    /// Holds where the disk tells its content. Over a real thing it does not.
    ghost tells: { Type 0 };

    /// What a read gives, what a crash now may leave, and what a crash since a time may have left.
    ghost view: { Self → View };

    /// How often the disk has failed.
    ghost faults: { Self → ℕ };

    /// The references that a disk was lent by, the last loan first. They stay through every call, so
    /// that what was done to a disk that is lent is known of the disk itself.
    ghost loans: { Self → List ℕ };

    /// The length of a file.
    fn length(&mut self, file: u8) -> Result<u64, DiskFailed>
        requires { file < 7 }
        ensures value { tells → IfOk result (λ n. n ≡ length ((view self.old).seen file)) }
        ensures looks { tells → Looks (view self.old) (view self.new) }
        ensures same { loans self.new ≡ loans self.old }
        ensures cause { HasCause (faults self.old) (faults self.new) result };

    /// Reads a piece that begins at `at`, and gives its length. It is not empty where `into` is not
    /// and `at` is below the file's length.
    fn read(&mut self, file: u8, at: u64, into: &mut [u8]) -> Result<usize, DiskFailed>
        requires file { file < 7 }
        requires at { tells → at ≤ length ((view self.old).seen file) }
        ensures count { IfOk result (λ n. n ≤ length into.old) }
        ensures bytes { tells → IfOk result (λ n. take n into.new ≡ take n (drop at ((view self.old).seen file))) }
        ensures within { tells → IfOk result (λ n. at + n ≤ length ((view self.old).seen file)) }
        ensures some { tells → 0 < length into.old → at < length ((view self.old).seen file)
            → IfOk result (λ n. 0 < n) }
        ensures looks { tells → Looks (view self.old) (view self.new) }
        ensures same { loans self.new ≡ loans self.old }
        ensures cause { HasCause (faults self.old) (faults self.new) result };

    /// Writes over what is there, and past the end. Until a sync, a crash may leave any bytes in the
    /// range.
    fn write_at(&mut self, file: u8, at: u64, bytes: &[u8]) -> Result<(), DiskFailed>
        requires file { file < 7 }
        requires at { tells → at ≤ length ((view self.old).seen file) }
        requires fits { at + length bytes.now < 2 ^ 64 }
        ensures seen { tells → OnOk result ((view self.new).seen ≡ written file at bytes.now (view self.old).seen) }
        ensures crash { tells → Follows (Torn file at (length bytes.now)) (view self.old) (view self.new) }
        ensures time { tells → Elapses (view self.old) (view self.new) }
        ensures same { loans self.new ≡ loans self.old }
        ensures cause { HasCause (faults self.old) (faults self.new) result };

    /// Cuts a file to a length.
    fn cut(&mut self, file: u8, len: u64) -> Result<(), DiskFailed>
        requires file { file < 7 }
        requires len { tells → len ≤ length ((view self.old).seen file) }
        ensures seen { tells → OnOk result
            ((view self.new).seen ≡ with_file file (take len ((view self.old).seen file)) (view self.old).seen) }
        ensures crash { tells → Follows (Frayed file len) (view self.old) (view self.new) }
        ensures time { tells → Elapses (view self.old) (view self.new) }
        ensures same { loans self.new ≡ loans self.old }
        ensures cause { HasCause (faults self.old) (faults self.new) result };

    /// After it, a crash leaves of this file what a read gives.
    fn sync(&mut self, file: u8) -> Result<(), DiskFailed>
        requires { file < 7 }
        ensures durable { tells
            → OnOk result ((c : Files) → (view self.new).images c → c file ≡ (view self.old).seen file) }
        ensures looks { tells → Looks (view self.old) (view self.new) }
        ensures same { loans self.new ≡ loans self.old }
        ensures cause { HasCause (faults self.old) (faults self.new) result };

    /// The disk as it reads is one of its images.
    ghost reads_as_image: { (disk : Self) → tells → (view disk).images (view disk).seen };
}
