//! A primary and its disk.

ghost use Rattle.std.specs.Prelude.{◌≡◌};
ghost use Rattle.primary_core.specs.Opened.{IsOpened};
ghost use Rattle.primary_disk.specs.Held.{Stands};

use kdb_disk::Disk;
use kdb_store::Database;
use primary_core::Primary;
use std::marker::Model;

/// A database that is open for administrators, together with its disk. Where the disk tells its content, what is open
/// stands on it, unless a change failed by it.
#[derive(Drop)]
pub struct DiskPrimary<D: Disk> {
    pub(crate) disk: D,
    pub(crate) primary: Primary,
}

impl<D: Disk> Model for DiskPrimary<D> {
    ghost use Rattle.primary_disk.specs.Held.{Held, Stands};

    ghost Value = { Held D };

    ghost view = { λ p. record { disk = p.disk; opened = p.primary } };

    ghost invariant = { λ p. Stands D.Disk p.disk p.primary };
}

impl<D: Disk> DiskPrimary<D> {
    /// Tells a proof that the rows show a state, and that what is open stands on the disk. It does nothing.
    pub fn holds_opened(&self)
        ensures opened { IsOpened self.now.opened }
        ensures stands { Stands D.Disk self.now.disk self.now.opened }
    {
        self.primary.holds_opened();
    }

    /// The database, for readers: its rows, its log, its realm, its point and whether a change failed by the disk.
    pub fn store(&self) -> &Database
        ensures { result.now ≡ self.now.opened.kept }
    {
        self.primary.database()
    }
}
