//! HMAC (RFC 2104) over the hash functions of FIPS 180-4, and PBKDF2 (RFC 2898, section 5.2) with it. No call takes
//! memory.

#![tactic(auto)]

ghost use Rattle.std.specs.Prelude.{◌≡◌, ◌≤◌, length};
ghost use Rattle.krb_hmac.specs.Hmac.{hmac};
ghost use Rattle.krb_hmac.specs.Pbkdf2.{pbkdf2 as derived_key};

use sha1::Sha1;

mod hashes;
mod keyed;
mod rounds;

pub use hashes::BlockHash;
pub use keyed::Keyed;
pub use rounds::pbkdf2_by;

/// HMAC-SHA1 of `text` under `key`, of any length (RFC 2104).
pub fn hmac_sha1(key: &[u8], text: &[u8]) -> [u8; 20]
    ensures { result ≡ hmac key.now text.now }
{
    Keyed::<Sha1, 20>::new(key).tag(text, &[], &[])
}

/// Fills `into` with the key that PBKDF2 with HMAC-SHA1 derives from the password and the salt in `count` rounds
/// (RFC 2898, section 5.2).
pub fn pbkdf2(password: &[u8], salt: &[u8], count: u32, into: &mut [u8])
    requires counted { 1 ≤ count }
    requires short { length into.old ≤ 64 }
    ensures { into.new ≡ derived_key password.now salt.now count (length into.old) }
{
    pbkdf2_by(&Keyed::<Sha1, 20>::new(password), &[], salt, count, into);
}
