//! What stands in frames of a fixed length.

ghost use Rattle.std.specs.Prelude.{◌<◌, ◌^◌};
ghost use Rattle.kdb_format.specs.Laws.{big_field};
ghost use Rattle.kdb_format.specs.Moments.{point_at, point as point_text, IsPoint, point_field};
ghost use Rattle.kdb_format.specs.Readings.{big_at};
ghost use Rattle.kdb_format.specs.Spellings.{big};
ghost use Rattle.iprop_wire.specs.Decoding.{head_at};
ghost use Rattle.iprop_wire.specs.HeadLaws.{IsHead, head_field};
ghost use Rattle.iprop_wire.specs.Messages.{head_text};

use kdb_base::{MemoryOut, Point};
use kdb_format::moments::{push_point, read_point};
use kdb_format::writing::{push_u8, push_u32, push_u64};
use kdb_format::{Format, FormatFault, Reader};
use princ_rows::ReplyCode;
use std::alloc::Global;

/// What the first frame of a reply says.
#[derive(Clone, Copy, Debug, PartialEq, Eq)]
pub struct Head {
    pub code: ReplyCode,
    /// The point that was asked for.
    pub asked: Point,
    /// How many updates follow, a frame each.
    pub count: u32,
}

/// A point: its serial, its seconds and its microseconds, in four bytes each.
pub enum PointFormat {}

impl Format for PointFormat {
    type Value = Point;

    ghost reading = { point_at };

    ghost spelling = { point_text };

    ghost fits = { IsPoint };

    ghost is_field = { point_field };

    fn read(_: Global, reader: &mut Reader) -> Result<Point, FormatFault> {
        Ok(read_point(reader)?)
    }

    fn write(out: &mut Vec<u8>, value: &Point) -> Result<(), MemoryOut> {
        push_point(out, *value)
    }
}

/// The head of a reply: the number of its code, the point that was asked for, and the number of updates.
pub enum HeadFormat {}

impl Format for HeadFormat {
    type Value = Head;

    ghost reading = { head_at };

    ghost spelling = { head_text };

    ghost fits = { IsHead };

    ghost is_field = { head_field };

    #[tactic(auto, unfolding(crate::specs::Decoding::head_at))]
    fn read(_: Global, reader: &mut Reader) -> Result<Head, FormatFault> {
        let number = reader.u8()?;
        let Some(code) = ReplyCode::from_number(number) else {
            return Err(FormatFault::Malformed);
        };
        let asked = read_point(reader)?;
        let count = reader.u32()?;
        Ok(Head { code, asked, count })
    }

    #[tactic(auto, unfolding(crate::specs::Messages::head_text))]
    fn write(out: &mut Vec<u8>, value: &Head) -> Result<(), MemoryOut> {
        push_u8(out, value.code.number())?;
        push_point(out, value.asked)?;
        push_u32(out, value.count)?;
        Ok(())
    }
}

/// The length of a dump, in eight bytes.
pub enum TotalFormat {}

impl Format for TotalFormat {
    type Value = u64;

    ghost reading = { big_at 8 };

    ghost spelling = { big 8 };

    ghost fits = { λ n. n < 2 ^ 64 };

    ghost is_field = { big_field 8 };

    fn read(_: Global, reader: &mut Reader) -> Result<u64, FormatFault> {
        Ok(reader.u64()?)
    }

    fn write(out: &mut Vec<u8>, value: &u64) -> Result<(), MemoryOut> {
        push_u64(out, *value)
    }
}
