//! Realms.
ghost use Rattle.std.specs.Prelude.{◌≡◌, IfOk};
ghost use Rattle.std.specs.List.{list_all};
ghost use Rattle.princ_name.specs.Realms.{IsRealm, is_realm, is_realm_byte};

use kdb_base::{Blob, MemoryOut};
use std::alloc::Global;
use std::marker::Model;

// The longest realm, in bytes.
const LONGEST: usize = 64;

fn is_realm_byte(byte: u8) -> bool
    ensures { result ≡ is_realm_byte byte }
{
    byte.is_ascii_lowercase()
        || byte.is_ascii_uppercase()
        || byte.is_ascii_digit()
        || byte == 46
        || byte == 45
}

fn has_realm_bytes(bytes: &[u8]) -> bool
    ensures { result ≡ list_all is_realm_byte bytes.now }
{
    bytes.iter().all(|byte| is_realm_byte(*byte))
}

/// Whether the bytes are a realm: 1 to 64 letters, digits, dots and hyphens.
pub fn is_realm(bytes: &[u8]) -> bool
    ensures { result ≡ is_realm bytes.now }
{
    let length = bytes.len();
    1 <= length && length <= LONGEST && has_realm_bytes(bytes)
}

/// The name of a realm: 1 to 64 letters, digits, dots and hyphens, seen as its bytes.
#[derive(Debug, Drop)]
pub struct Realm {
    bytes: Blob,
}

impl Model for Realm {
    ghost use Rattle.std.specs.Prelude.{List, ℕ};

    ghost Value = { List ℕ };

    ghost view = { λ r. r.bytes };

    ghost use Rattle.princ_name.specs.Realms.{IsRealm};

    ghost invariant = { λ r. IsRealm r.bytes };
}

impl Realm {
    /// A copy of the bytes. Only want of memory can refuse it.
    pub fn from_bytes(alloc: Global, bytes: &[u8]) -> Result<Realm, MemoryOut>
        requires { IsRealm bytes.now }
        ensures { IfOk result (λ realm. realm ≡ bytes.now) }
    {
        let bytes = Blob::from_bytes(alloc, bytes)?;
        Ok(Realm { bytes })
    }

    pub fn as_slice(&self) -> &[u8]
        ensures value { result.now ≡ self.now }
        ensures realm { IsRealm result.now }
    {
        self.bytes.as_slice()
    }
}
