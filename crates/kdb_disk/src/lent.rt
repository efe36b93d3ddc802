ghost use Rattle.std.specs.Prelude.{◌∷◌};

use crate::disk::{Disk, DiskFailed};

/// A disk over one that is lent, for a type that holds its disk by value.
///
/// What calls through it did is known of the disk that was lent once the loan is over: its `loans`
/// stay. An enum that holds the loan, as a `Result` of it, loses that.
#[derive(Drop)]
pub struct Lent<'a, D: Disk> {
    pub disk: &'a mut D,
}

impl<'a, D: Disk> Lent<'a, D> {
    ghost use Rattle.std.specs.Prelude.{◌≡◌};

    /// The disk behind this reference.
    pub fn new(disk: &'a mut D) -> Lent<'a, D>
        ensures same_reference { result.disk.ghost_name ≡ disk.entry.ghost_name }
        ensures same { result.disk.now ≡ disk.old }
    {
        Lent { disk }
    }
}

impl<D: Disk> Disk for Lent<'_, D> {
    ghost tells = { D.tells };

    ghost view = { λ l. D.view l.disk.now };

    ghost faults = { λ l. D.faults l.disk.now };

    ghost loans = { λ l. l.disk.ghost_name ∷ D.loans l.disk.now };

    fn length(&mut self, file: u8) -> Result<u64, DiskFailed> {
        self.disk.length(file)
    }

    fn read(&mut self, file: u8, at: u64, into: &mut [u8]) -> Result<usize, DiskFailed> {
        self.disk.read(file, at, into)
    }

    fn write_at(&mut self, file: u8, at: u64, bytes: &[u8]) -> Result<(), DiskFailed> {
        self.disk.write_at(file, at, bytes)
    }

    fn cut(&mut self, file: u8, len: u64) -> Result<(), DiskFailed> {
        self.disk.cut(file, len)
    }

    fn sync(&mut self, file: u8) -> Result<(), DiskFailed> {
        self.disk.sync(file)
    }

    ghost reads_as_image = { λ l tells. D.reads_as_image l.disk.now tells };
}
