ghost use Rattle.std.specs.Prelude.{◌≡◌, ◌<◌, ◌↔◌, max};
ghost use Rattle.std.specs.declared.cmp.Ordering.TheVariants.{Less, Equal, Greater};
ghost use Rattle.kdb_base.specs.Moments.{ComesBefore, later_moment};

use std::cmp::Ordering;
use std::marker::Model;

/// Microseconds in a second.
pub const MICROS_PER_SECOND: u32 = 1_000_000;

/// A moment: seconds since 1970-01-01T00:00:00Z, and microseconds below 1000000.
#[derive(Clone, Copy, Debug, PartialEq, Eq, PartialOrd, Ord)]
pub struct Time {
    secs: u32,
    usecs: u32,
}

impl Model for Time {
    ghost use Rattle.kdb_base.specs.Moment.{Moment};

    ghost Value = { Moment };

    ghost view = { λ t. record { secs = t.secs; usecs = t.usecs } };

    ghost use Rattle.std.specs.Prelude.{◌<◌};

    ghost invariant = { λ t. t.usecs < 1000000 };

    ghost inverse = { λ m. record { secs = m.secs; usecs = m.usecs } };
}

impl Time {
    /// The moment of these seconds and microseconds.
    pub fn new(secs: u32, usecs: u32) -> Time
        requires { usecs < 1000000 }
        ensures { result ≡ record { secs = secs; usecs = usecs } }
    {
        Time { secs, usecs }
    }

    /// The whole seconds since 1970.
    pub fn secs(&self) -> u32
        ensures { result ≡ self.now.secs }
    {
        self.secs
    }

    /// The microseconds of the second.
    pub fn usecs(&self) -> u32
        ensures value { result ≡ self.now.usecs }
        ensures in_second { result < 1000000 }
    {
        self.usecs
    }

    /// The later of two moments.
    pub fn later(self, other: Time) -> Time
        ensures { result ≡ later_moment self other }
    {
        if other.secs > self.secs || (other.secs == self.secs && other.usecs > self.usecs) {
            other
        } else {
            self
        }
    }
}

/// A place in a history: the serial of the last change, and its time.
#[derive(Clone, Copy, Debug, PartialEq, Eq)]
pub struct Point {
    pub sno: u32,
    pub time: Time,
}

/// Orders points by their times and then by their serials.
pub fn order_points(a: &Point, b: &Point) -> Ordering
    ensures less { (result ≡ Less) ↔ ComesBefore a.now b.now }
    ensures equal { (result ≡ Equal) ↔ (a.now ≡ b.now) }
    ensures greater { (result ≡ Greater) ↔ ComesBefore b.now a.now }
{
    a.time
        .secs()
        .cmp(&b.time.secs())
        .then(a.time.usecs().cmp(&b.time.usecs()))
        .then(a.sno.cmp(&b.sno))
}
