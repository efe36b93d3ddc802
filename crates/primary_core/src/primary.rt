//! An open primary.

ghost use Rattle.std.specs.Prelude.{◌≡◌, ◌<◌};
ghost use Rattle.kdb_places.specs.Places.{point_of};
ghost use Rattle.primary_core.specs.Opened.{IsOpened, place_of};
ghost use Rattle.primary_core.specs.Refusing.{is_full};

use kdb_base::{Masters, Point};
use kdb_store::Database;
use princ_name::Realm;
use std::marker::Model;

/// A database that is open for administrators, with the master keys by which its rows are read. It keeps no disk: each
/// call is lent one.
#[derive(Drop)]
pub struct Primary {
    pub(crate) database: Database,
    pub(crate) masters: Masters,
    // the dumps that are under way, and how many may be
    pub(crate) dumps: u32,
    pub(crate) room: u32,
}

impl Model for Primary {
    ghost use Rattle.primary_core.specs.Opened.{Opened, IsOpened};

    ghost Value = { Opened };

    ghost view = { λ p. record { kept = p.database; masters = p.masters; dumps = p.dumps; room = p.room } };

    ghost invariant = { λ p.
        IsOpened (record { kept = p.database; masters = p.masters; dumps = p.dumps; room = p.room }) };
}

impl Primary {
    /// The primary of this database and these master keys, with no dump under way.
    pub(crate) fn of_parts(database: Database, masters: Masters, room: u32) -> Primary
        requires { IsOpened (record { kept = database; masters = masters; dumps = 0; room = room }) }
        ensures { result ≡ record { kept = database; masters = masters; dumps = 0; room = room } }
    {
        Primary {
            database,
            masters,
            dumps: 0,
            room,
        }
    }

    /// Tells a proof that the rows show a state. It does nothing.
    pub fn holds_opened(&self)
        ensures { IsOpened self.now }
    {
        let _ = &self.masters;
    }

    /// Tells a proof that the log holds some entry at most. It does nothing.
    pub(crate) fn holds_size(&self)
        ensures { 0 < (place_of self.now).size }
    {
        self.database.holds_kept();
        self.database.log().holds_journal();
    }

    /// Whether a change failed by the disk. The disk is then to be opened again.
    pub fn is_closed(&self) -> bool
        ensures { result ≡ self.now.kept.broken }
    {
        self.database.broken()
    }

    // Whether as many dumps are under way as may be.
    pub(crate) fn is_full(&self) -> bool
        ensures { result ≡ is_full self.now }
    {
        self.dumps == self.room
    }

    /// The point of the last change, or of the log's base marker where there was none since.
    pub fn point(&self) -> Point
        ensures { result ≡ point_of (place_of self.now) }
    {
        self.database.point()
    }

    /// The realm.
    pub fn realm(&self) -> &Realm
        ensures { result.now ≡ self.now.kept.realm }
    {
        self.database.realm()
    }

    /// The database, for readers: its rows, its log and what is stored of its files.
    pub fn database(&self) -> &Database
        ensures { result.now ≡ self.now.kept }
    {
        &self.database
    }

    /// The master keys by which the rows are read.
    pub fn masters(&self) -> &Masters
        ensures { result.now ≡ self.now.masters }
    {
        &self.masters
    }
}
