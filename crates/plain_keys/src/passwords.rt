//! Passwords.

ghost use Rattle.std.specs.Prelude.{◌≡◌, IfOk};

use kdb_base::MemoryOut;
use std::alloc::Global;
use std::marker::Model;
use tagged_data::Copied;

/// A password, seen as the list of its bytes. It does not print itself, so nothing that holds one can derive `Debug`.
#[derive(Drop)]
pub struct Password {
    bytes: Vec<u8>,
}

impl Model for Password {
    ghost use Rattle.std.specs.Prelude.{List, ℕ};

    ghost Value = { List ℕ };

    ghost view = { λ p. p.bytes.items };
}

impl Password {
    /// A copy of the bytes. Only want of memory can refuse it.
    pub fn from_bytes(alloc: Global, bytes: &[u8]) -> Result<Password, MemoryOut>
        ensures { IfOk result (λ password. password ≡ bytes.now) }
    {
        let bytes = bytes.to_vec(alloc)?;
        Ok(Password { bytes })
    }

    pub fn as_slice(&self) -> &[u8]
        ensures { result.now ≡ self.now }
    {
        &self.bytes
    }
}

impl Copied for Password {
    fn copied(&self, alloc: Global) -> Result<Password, MemoryOut> {
        Password::from_bytes(alloc, self.as_slice())
    }
}
