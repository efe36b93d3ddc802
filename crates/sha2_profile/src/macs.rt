//! HMAC of the encryption types of RFC 8009, with the key's states kept.

ghost use Rattle.std.specs.Prelude.{◌≡◌, ℕ, ◌≤◌, true, List, ◌++◌, length, take};
ghost use Rattle.kdb_base.specs.declared.keys.Etype.{Etype as EtypeWord};
ghost use Rattle.sha2_profile.specs.Hmacs.{hmac_of, hmac_sha256 as mac_sha256, hmac_sha384 as mac_sha384};
ghost use Rattle.sha2_profile.specs.Sha2.{is_sha2};

use kdb_base::Etype;
use krb_hmac::Keyed;
use sha2::{Sha256, Sha384};

/// HMAC-SHA256 of `text` under `key`, of any length (RFC 2104).
pub fn hmac_sha256(key: &[u8], text: &[u8]) -> [u8; 32]
    ensures { result ≡ mac_sha256 key.now text.now }
{
    Keyed::<Sha256, 32>::new(key).tag(text, &[], &[])
}

/// HMAC-SHA384 of `text` under `key`, of any length (RFC 2104).
pub fn hmac_sha384(key: &[u8], text: &[u8]) -> [u8; 48]
    ensures { result ≡ mac_sha384 key.now text.now }
{
    Keyed::<Sha384, 48>::new(key).tag(text, &[], &[])
}

/// The HMAC of a type under a key.
#[derive(Drop)]
pub enum Mac {
    Sha256(Keyed<Sha256, 32>),
    Sha384(Keyed<Sha384, 48>),
}

impl Mac {
    ghost use Rattle.sha2_profile.specs.Macs.{IsMac};

    pub fn new(etype: Etype, key: &[u8]) -> Mac
        requires { is_sha2 etype ≡ true }
        ensures { IsMac etype result key.now }
    {
        match etype {
            Etype::Aes128Sha2 => Mac::Sha256(Keyed::new(key)),
            Etype::Aes256Sha2 => Mac::Sha384(Keyed::new(key)),
            Etype::Aes128 | Etype::Aes256 => unreachable!(),
        }
    }

    /// Fills `into` with the first bytes of the HMAC of a text in three pieces.
    pub fn write(&self, first: &[u8], second: &[u8], third: &[u8], into: &mut [u8])
        requires { length into.old ≤ 32 }
        ensures { (etype : EtypeWord) → (key : List ℕ) → IsMac etype self.now key
            → into.new ≡ take (length into.old) (hmac_of etype key (first.now ++ (second.now ++ third.now))) }
    {
        match self {
            Mac::Sha256(keyed) => put_front(&keyed.tag(first, second, third), into),
            Mac::Sha384(keyed) => put_front(&keyed.tag(first, second, third), into),
        }
    }
}

/// Fills `into` with the first bytes of a digest.
fn put_front(digest: &[u8], into: &mut [u8])
    requires { length into.old ≤ length digest.now }
    ensures { into.new ≡ take (length into.old) digest.now }
{
    let len = into.len();
    into.copy_from_slice(&digest[..len]);
}
