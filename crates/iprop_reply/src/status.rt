//! Whether a log can tell what came after a point.

ghost use Rattle.std.specs.Prelude.{◌≡◌, ◌≢◌, List, Some, false, true};
ghost use Rattle.princ_rows.specs.declared.entries.Entry.{Entry};
ghost use Rattle.iprop_reply.specs.Polls.{AreHeld, status_of, time_of, updates_after};

use kdb_base::{Point, Time};

/// What a poll comes to where it may be answered.
#[derive(Clone, Copy, Debug, PartialEq, Eq)]
pub enum Status4 {
    /// Updates came after the point.
    Ok,
    /// The point is the last one.
    Nil,
    /// No entry that is held has the point, so the whole database has to be sent.
    Resync,
}

// Whether there is an entry of this time.
fn is_at(at: Option<Time>, time: Time) -> bool
    ensures yes { result ≡ true → at ≡ Some time }
    ensures no { result ≡ false → at ≢ Some time }
{
    match at {
        Some(found) => found == time,
        None => false,
    }
}

/// What a poll from the point `asked` comes to. `held` are the points of the first and of the last entry of the log,
/// and `at` is the time of the entry with the serial that is asked for, where the log holds one.
pub fn sno_status(held: (Point, Point), at: Option<Time>, asked: Point) -> Status4
    ensures { (entries : List Entry) → AreHeld held.0 held.1 entries → at ≡ time_of asked.sno entries
        → result ≡ status_of (updates_after asked entries) }
{
    if !is_at(at, asked.time) {
        return Status4::Resync;
    }
    if asked.sno == held.1.sno {
        Status4::Nil
    } else {
        Status4::Ok
    }
}
