//! What a reply to a poll comes to at a replica.

use kdb_base::{Halt, Point};

/// What a reply that was taken came to.
#[derive(Clone, Copy, Debug, PartialEq, Eq)]
pub enum Taken4 {
    /// Nothing came after the replica's point.
    Nil,
    /// So many updates were made.
    Updated(u32),
    /// The whole database has to be loaded.
    Resync,
    /// The whole database has to be loaded, and is not given now.
    Busy,
    /// Who asked may not.
    Denied,
}

/// Why a reply was not taken, or not to its end.
#[derive(Clone, Copy, Debug, PartialEq, Eq)]
pub enum ReplicaStop {
    /// The reply answers another point than the replica's.
    WrongPoint { reply: Point, mine: Point },
    /// An update does not follow: this serial is wanted, and this point was found. One that may not be made of the
    /// rows has its own serial and point here.
    Gap { want: u32, found: Point },
    /// Memory was wanted and not given, or the disk failed.
    Halt(Halt),
}
