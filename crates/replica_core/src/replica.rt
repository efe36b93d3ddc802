//! An open replica.

ghost use Rattle.std.specs.Prelude.{◌≡◌, false, option_map};
ghost use Rattle.iprop_wire.specs.declared.messages.Message.TheVariants.{Poll};
ghost use Rattle.replica_core.specs.Opened.{HasSize, IsOpened, is_broken, place_in, place_of};
ghost use Rattle.replica_steps.specs.Judging.{point_in};
ghost use Rattle.store_files.specs.Kept.{Kept};

use iprop_wire::Message;
use kdb_base::{Point, Time};
use kdb_store::Database;
use std::marker::Model;

/// A database that follows another, or none yet. It keeps no disk: each call is lent one.
#[derive(Drop)]
pub struct Replica {
    pub(crate) database: Option<Database>,
    pub(crate) size: u32,
    // whether the first load failed by the disk
    pub(crate) failed: bool,
}

impl Model for Replica {
    ghost use Rattle.replica_core.specs.Opened.{Opened, IsOpened};

    ghost Value = { Opened };

    ghost view = { λ r. record { database = r.database; size = r.size; failed = r.failed } };

    ghost invariant = { λ r. IsOpened (record { database = r.database; size = r.size; failed = r.failed }) };
}

/// The point of the last change; serial 0 at 0.000000 without a database.
pub(crate) fn point_in(database: &Option<Database>) -> Point
    ensures { result ≡ point_in (place_in database.now) }
{
    match database {
        Some(database) => database.point(),
        None => Point {
            sno: 0,
            time: Time::new(0, 0),
        },
    }
}

impl Replica {
    /// The replica of this database, or of none.
    pub(crate) fn of_parts(database: Option<Database>, size: u32) -> Replica
        requires { IsOpened (record { database = database; size = size; failed = false }) }
        ensures { result ≡ record { database = database; size = size; failed = false } }
    {
        Replica {
            database,
            size,
            failed: false,
        }
    }

    /// The database. None before the first load.
    pub fn database(&self) -> Option<&Database>
        ensures { option_map (λ d. d.now) result ≡ self.now.database }
    {
        match &self.database {
            Some(database) => Some(database),
            None => None,
        }
    }

    /// The point of the last change; serial 0 at 0.000000 without a database.
    pub fn point(&self) -> Point
        ensures { result ≡ point_in (place_of self.now) }
    {
        point_in(&self.database)
    }

    /// The poll for what came after the point of the last change.
    pub fn poll_message(&self) -> Message
        ensures { result ≡ Poll (point_in (place_of self.now)) }
    {
        Message::Poll(self.point())
    }

    /// The log size with which the replica was opened.
    pub fn log_size(&self) -> u32
        ensures { result ≡ self.now.size }
    {
        self.size
    }

    /// Whether a call failed by the disk. The disk is then to be opened again.
    pub fn broken(&self) -> bool
        ensures { result ≡ is_broken self.now.database self.now.failed }
    {
        match &self.database {
            Some(database) => database.broken(),
            None => self.failed,
        }
    }
}
