ghost use Rattle.std.specs.Prelude.{◌≡◌};
ghost use Rattle.kdb_control.specs.Choice.{is_format, in_ranges};

use kdb_base::Point;
use std::marker::Model;

/// What a control slot says: the format of the image, which files hold the image, the log and the
/// stash, the log's size and the length of its blocks, and the point at which the log begins.
#[derive(Clone, Copy, Debug, PartialEq, Eq)]
pub struct Control {
    /// The format of the image's file, 1 or 2.
    pub format: u16,
    /// 0 to 2. Of two open slots the newer is the one whose turn comes after the other's, modulo 3.
    pub turn: u8,
    /// The image's file, 1 or 2.
    pub image: u8,
    /// The log's file, 3 or 4.
    pub log: u8,
    /// The stash's file, 5 or 6, or 0 for none.
    pub stash: u8,
    /// How many entries the log holds, 2 to 10000.
    pub size: u32,
    /// The length of a block of the log, 2048 to 16384 bytes.
    pub block: u32,
    /// The point of the log's base marker.
    pub base: Point,
}

impl Model for Control {
    ghost use Rattle.kdb_control.specs.Choice.{Choice, is_format, in_ranges};
    ghost use Rattle.std.specs.Prelude.{◌≡◌, ◌&&◌, true};

    ghost Value = { Choice };

    ghost view = { λ c. record {
      format = c.format;
      turn = c.turn;
      image = c.image;
      log = c.log;
      stash = c.stash;
      size = c.size;
      block = c.block;
      base = c.base;
    } };

    ghost invariant = { λ c. is_format c.format && in_ranges c.turn c.image c.log c.stash c.size c.block ≡ true };

    ghost inverse = { λ c. record {
      format = c.format;
      turn = c.turn;
      image = c.image;
      log = c.log;
      stash = c.stash;
      size = c.size;
      block = c.block;
      base = c.base;
    } };
}

/// Whether there is such a format: 1 or 2.
pub fn is_format(format: u16) -> bool
    ensures { result ≡ is_format format }
{
    format == 1 || format == 2
}

/// Whether a slot may say so: the turn is 0 to 2, the image's file 1 or 2, the log's 3 or 4, the
/// stash's 5, 6 or 0, the log's size 2 to 10000, and its block 2048 to 16384 bytes.
#[tactic(auto, unfolding(crate::specs::Choice::in_ranges))]
pub fn in_ranges(turn: u8, image: u8, log: u8, stash: u8, size: u32, block: u32) -> bool
    ensures { result ≡ in_ranges turn image log stash size block }
{
    turn < 3
        && (image == 1 || image == 2)
        && (log == 3 || log == 4)
        && (stash == 0 || stash == 5 || stash == 6)
        && (1 < size && size < 10001)
        && (2047 < block && block < 16385)
}

impl Control {
    ghost use Rattle.kdb_control.specs.Force.{turn_after};

    /// The turn of the slot that comes after this one.
    #[tactic(auto, using(crate::proofs::Choices::turn_below), unfolding(crate::specs::Force::turn_after))]
    pub fn turn_after(&self) -> u8
        ensures { result ≡ turn_after self.now.turn }
    {
        (self.turn + 1) % 3
    }
}
