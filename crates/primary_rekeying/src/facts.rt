//! What holds of moments and points, told to proofs.

ghost use Rattle.kdb_model.specs.Laws.{IsMoment, IsPoint};

use kdb_base::{Point, Time};

// Tells a proof that a moment is one. It does nothing.
pub(crate) fn holds_moment(moment: Time)
    ensures { IsMoment moment }
{
    let _secs = moment.secs();
    let _usecs = moment.usecs();
}

// Tells a proof that a point is one. It does nothing.
pub(crate) fn holds_point(point: Point)
    ensures { IsPoint point }
{
    let _sno = point.sno;
    holds_moment(point.time);
}
