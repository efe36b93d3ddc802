ghost use Rattle.std.specs.Prelude.{◌≡◌, length};
ghost use Rattle.std.proofs.Common.{rules};
ghost use Rattle.std.specs.Cmp.Rules.{comparing};
ghost use Rattle.kdb_base.specs.Etypes.{key_len, tag_len, product_rounds, number_of, etype_of};
ghost use Rattle.kdb_base.specs.Key.{is_same_key};

use crate::blobs::Blob;
use std::marker::Model;

/// An encryption type (RFC 3962, section 7; RFC 8009, section 7).
#[derive(Clone, Copy, Debug, PartialEq, Eq)]
pub enum Etype {
    /// aes128-cts-hmac-sha1-96, number 17.
    Aes128,
    /// aes256-cts-hmac-sha1-96, number 18.
    Aes256,
    /// aes128-cts-hmac-sha256-128, number 19.
    Aes128Sha2,
    /// aes256-cts-hmac-sha384-192, number 20.
    Aes256Sha2,
}

impl Etype {
    /// The type's number (RFC 3961, section 8).
    pub fn number(self) -> u16
        ensures { result ≡ number_of self }
    {
        match self {
            Etype::Aes128 => 17,
            Etype::Aes256 => 18,
            Etype::Aes128Sha2 => 19,
            Etype::Aes256Sha2 => 20,
        }
    }

    /// The type of this number, if there is one.
    pub fn from_number(number: u16) -> Option<Etype>
        ensures { result ≡ etype_of number }
    {
        match number {
            17 => Some(Etype::Aes128),
            18 => Some(Etype::Aes256),
            19 => Some(Etype::Aes128Sha2),
            20 => Some(Etype::Aes256Sha2),
            _ => None,
        }
    }

    /// The bytes of a key of this type.
    pub fn key_len(self) -> usize
        ensures { result ≡ key_len self }
    {
        match self {
            Etype::Aes128 | Etype::Aes128Sha2 => 16,
            Etype::Aes256 | Etype::Aes256Sha2 => 32,
        }
    }

    /// The bytes of the tag behind what is sealed under a key of this type: 96 bits (RFC 3962, section 6),
    /// and 128 or 192 bits (RFC 8009, section 5).
    pub fn tag_len(self) -> usize
        ensures { result ≡ tag_len self }
    {
        match self {
            Etype::Aes128 | Etype::Aes256 => 12,
            Etype::Aes128Sha2 => 16,
            Etype::Aes256Sha2 => 24,
        }
    }

    /// The rounds of PBKDF2 in which the product makes a password's key: the defaults of RFC 3962,
    /// section 4, and of RFC 8009, section 4.
    pub fn product_rounds(self) -> u32
        ensures { result ≡ product_rounds self }
    {
        match self {
            Etype::Aes128 | Etype::Aes256 => 4096,
            Etype::Aes128Sha2 | Etype::Aes256Sha2 => 32768,
        }
    }
}

/// What is mixed into a password before a key is made of it.
#[derive(Debug, Drop, PartialEq, Eq)]
pub enum Salt {
    /// The realm and the components of the principal's own name.
    Normal,
    /// These bytes.
    Special(Blob),
}

/// A key in the plain. Contracts see its encryption type and as many bytes as keys of that type have.
#[derive(Clone, Copy)]
pub struct PlainKey {
    etype: Etype,
    // Zeros follow a shorter key.
    bytes: [u8; 32],
}

impl Model for PlainKey {
    ghost use Rattle.kdb_base.specs.Key.{Key};

    ghost Value = { Key };

    ghost use Rattle.std.specs.Prelude.{◌≡◌, ◌-◌, ◌++◌, take, drop, replicate};
    ghost use Rattle.kdb_base.specs.Etypes.{key_len};

    ghost view = { λ k. record { etype = k.etype; bytes = take (key_len k.etype) k.bytes } };

    ghost invariant = { λ k. drop (key_len k.etype) k.bytes ≡ replicate (32 - key_len k.etype) 0 };

    ghost use Rattle.kdb_base.specs.KeyBytes.{with_zeros};

    ghost inverse = { λ k. record { etype = k.etype; bytes = k.bytes ++ replicate (32 - key_len k.etype) 0 } };

    ghost inverse_ok = { λ k zeros. with_zeros k zeros };
}

impl PlainKey {
    /// The key of these bytes.
    pub fn from_bytes(etype: Etype, bytes: &[u8]) -> PlainKey
        requires { length bytes.now ≡ key_len etype }
        ensures { result ≡ record { etype = etype; bytes = bytes.now } }
    {
        let mut whole = [0; 32];
        whole[..bytes.len()].copy_from_slice(bytes);
        PlainKey {
            etype,
            bytes: whole,
        }
    }

    pub fn etype(&self) -> Etype
        ensures { result ≡ self.now.etype }
    {
        self.etype
    }

    /// The bytes of the key, 16 or 32 of them.
    pub fn as_slice(&self) -> &[u8]
        ensures value { result.now ≡ self.now.bytes }
        ensures length { length result.now ≡ key_len self.now.etype }
    {
        &self.bytes[..self.etype.key_len()]
    }
}

/// Keys are one where their encryption types and their bytes are.
impl PartialEq for PlainKey {
    ghost eq = { is_same_key };

    ghost laws = { Prim.search (comparing, rules) };

    fn eq(&self, other: &PlainKey) -> bool {
        self.etype() == other.etype() && self.as_slice() == other.as_slice()
    }
}

impl Eq for PlainKey {
    ghost laws = { Prim.search (comparing, rules) };
}
