ghost use Rattle.std.specs.Prelude.{◌≡◌, ℕ, Option, Some, None, IfSome, option_map};
ghost use Rattle.kdb_base.specs.Moment.{Moment};
ghost use Rattle.kdb_ports.specs.Told.{later_moments, always};

use kdb_base::Time;
use std::marker::Model;
use std::rt;

/// A clock. It never fails, and it may go back.
pub trait Clock {
    /// The moments that it will give, by the number of the call from here on, where it tells them.
    ghost moments: { Self → Option (ℕ → Moment) };

    /// The moment of this call.
    fn now(&mut self) -> Time
        ensures first { IfSome (moments self.old) (λ f. result ≡ f 0) }
        ensures others { moments self.new ≡ option_map later_moments (moments self.old) };
}

/// A clock that stands still until it is set.
#[derive(Debug, Drop)]
pub struct MemoryClock {
    now: Time,
}

impl Model for MemoryClock {
    ghost use Rattle.kdb_base.specs.Moment.{Moment};

    ghost Value = { Moment };

    ghost view = { λ c. c.«now» };
}

impl MemoryClock {
    pub fn new(now: Time) -> MemoryClock
        ensures { result ≡ now }
    {
        MemoryClock { now }
    }

    pub fn set(&mut self, now: Time)
        ensures { self.new ≡ now }
    {
        self.now = now;
    }
}

impl Clock for MemoryClock {
    ghost moments = { always };

    fn now(&mut self) -> Time
        ensures first { IfSome (always self.old) (λ f. result ≡ f 0) }
        ensures others { always self.new ≡ option_map later_moments (always self.old) }
        ensures same { self.new ≡ self.old }
        ensures value { result ≡ self.old }
    {
        self.now
    }
}

/// The system's clock. It tells nothing. Where the system has no answer, or one past the last
/// second of a u32, it gives the nearest moment that there is.
#[derive(Drop)]
pub struct SystemClock<R: rt::Clock> {
    runtime: R,
}

impl<R: rt::Clock> SystemClock<R> {
    pub fn new(runtime: R) -> SystemClock<R> {
        SystemClock { runtime }
    }
}

impl<R: rt::Clock> Clock for SystemClock<R> {
    ghost moments = { λ _. None };

    fn now(&mut self) -> Time {
        match self.runtime.since_1970() {
            Ok(passed) => match u32::try_from(passed.as_secs()) {
                Ok(secs) => Time::new(secs, passed.subsec_micros()),
                Err(_) => Time::new(u32::MAX, 999_999),
            },
            Err(_) => Time::new(0, 0),
        }
    }
}
