//! The moments and points of changes.

ghost use Rattle.std.specs.Prelude.{◌≡◌, ◌+◌, ◌<◌, false};
ghost use Rattle.kdb_base.specs.Moments.{later_moment};
ghost use Rattle.kdb_model.specs.Calls.{is_last, next_moment};
ghost use Rattle.kdb_model.specs.Laws.{IsMoment, IsPoint};

use kdb_base::{Point, Time};

// The last moment that there is.
pub(crate) fn is_last(moment: Time) -> bool
    ensures { result ≡ is_last moment }
{
    moment.secs() == 4294967295 && moment.usecs() == 999999
}

// A microsecond later.
#[tactic(auto, unfolding(kdb_model::specs::Calls::next_moment))]
pub(crate) fn next_moment(moment: Time) -> Time
    requires { is_last moment ≡ false }
    ensures { result ≡ next_moment moment }
{
    if moment.usecs() == 999999 {
        Time::new(moment.secs() + 1, 0)
    } else {
        Time::new(moment.secs(), moment.usecs() + 1)
    }
}

// The point of a change that comes next in the log.
pub(crate) fn next_in(last: Point, now: Time) -> Point
    requires { last.sno < 4294967295 }
    ensures { result ≡ record { sno = last.sno + 1; time = later_moment last.time now } }
{
    Point {
        sno: last.sno + 1,
        time: last.time.later(now),
    }
}

// The point of a change behind a log that is begun anew.
pub(crate) fn first_in(last: Point, now: Time) -> Point
    requires { is_last last.time ≡ false }
    ensures { result ≡ record { sno = 2; time = later_moment now (next_moment last.time) } }
{
    Point {
        sno: 2,
        time: now.later(next_moment(last.time)),
    }
}

// The point at which a log begins anew.
pub(crate) fn reset_point(last: Point, now: Time) -> Point
    requires { is_last last.time ≡ false }
    ensures { result ≡ record { sno = 1; time = later_moment now (next_moment last.time) } }
{
    Point {
        sno: 1,
        time: now.later(next_moment(last.time)),
    }
}

// Tells a proof that a moment is one. It does nothing.
pub(crate) fn holds_moment(moment: Time)
    ensures { IsMoment moment }
{
    let _secs = moment.secs();
    let _usecs = moment.usecs();
}

// Tells a proof that a point is one. It does nothing.
pub(crate) fn holds_point(point: Point)
    ensures { IsPoint point }
{
    let _sno = point.sno;
    holds_moment(point.time);
}
