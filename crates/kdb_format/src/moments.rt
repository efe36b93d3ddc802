//! Moments and points as bytes.

ghost use Rattle.std.specs.Prelude.{◌≡◌, ◌++◌, OnOk};
ghost use Rattle.kdb_format.specs.Answers.{Reads};
ghost use Rattle.kdb_format.specs.Moments.{time as time_text, time_at, point as point_text, point_at};

use crate::faults::Malformed;
use crate::reader::Reader;
use crate::writing::push_u32;
use kdb_base::moments::MICROS_PER_SECOND;
use kdb_base::{MemoryOut, Point, Time};

/// Reads a moment: its seconds, and its microseconds below 1000000.
#[tactic(auto, unfolding(crate::specs::Moments::time_at, crate::specs::Readings::checked))]
pub fn read_time(reader: &mut Reader) -> Result<Time, Malformed>
    ensures { Reads result reader.new (time_at reader.old) }
{
    let secs = reader.u32()?;
    let usecs = reader.u32()?;
    if usecs >= MICROS_PER_SECOND {
        return Err(Malformed);
    }
    Ok(Time::new(secs, usecs))
}

/// Reads a point: its serial and its time.
#[tactic(auto, unfolding(crate::specs::Moments::point_at))]
pub fn read_point(reader: &mut Reader) -> Result<Point, Malformed>
    ensures { Reads result reader.new (point_at reader.old) }
{
    Ok(Point {
        sno: reader.u32()?,
        time: read_time(reader)?,
    })
}

/// Appends the seconds and the microseconds of a moment.
#[tactic(auto, unfolding(crate::specs::Moments::time))]
pub fn push_time(out: &mut Vec<u8>, time: Time) -> Result<(), MemoryOut>
    ensures { OnOk result (out.new.items ≡ out.old.items ++ time_text time) }
{
    push_u32(out, time.secs())?;
    push_u32(out, time.usecs())?;
    Ok(())
}

/// Appends the serial and the time of a point.
#[tactic(auto, unfolding(crate::specs::Moments::point))]
pub fn push_point(out: &mut Vec<u8>, point: Point) -> Result<(), MemoryOut>
    ensures { OnOk result (out.new.items ≡ out.old.items ++ point_text point) }
{
    push_u32(out, point.sno)?;
    push_time(out, point.time)?;
    Ok(())
}
