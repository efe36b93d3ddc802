//! Keys that are derived from keys and from passwords (RFC 8009, sections 3 to 5).

ghost use Rattle.std.specs.Prelude.{◌≡◌, ◌≤◌, true, ◌∷◌, ◌++◌, length};
ghost use Rattle.sha2_profile.specs.Hmacs.{pbkdf2_of};
ghost use Rattle.sha2_profile.specs.Sha2.{is_sha2, kdf as kdf_of, salt_name, string_key, usage_key as usage_key_of};
ghost use Rattle.kdb_base.specs.Etypes.{key_len};

use crate::macs::Mac;
use kdb_base::{Etype, PlainKey};
use krb_hmac::{Keyed, pbkdf2_by};
use sha2::{Sha256, Sha384};

/// Fills `into` with the key that a label gives: KDF-HMAC-SHA2 of RFC 8009, section 3, where no context is given.
pub fn kdf(etype: Etype, key: &[u8], label: &[u8], into: &mut [u8])
    requires etype { is_sha2 etype ≡ true }
    requires given { 1 ≤ length into.old }
    requires short { length into.old ≤ 32 }
    requires label { length label.now ≤ 64 }
    ensures { into.new ≡ kdf_of etype key.now label.now (length into.old) }
{
    let bits = 8 * into.len() as u32;
    let mut end = [0; 5];
    end[1..].copy_from_slice(&bits.to_be_bytes());
    Mac::new(etype, key).write(&1u32.to_be_bytes(), label, &end, into);
}

/// Fills `into` with the key of a usage for one purpose (RFC 8009, section 5).
pub fn usage_key(key: &PlainKey, usage: u32, purpose: u8, into: &mut [u8])
    requires etype { is_sha2 key.now.etype ≡ true }
    requires given { 1 ≤ length into.old }
    requires short { length into.old ≤ 32 }
    ensures { into.new ≡ usage_key_of key.now usage purpose (length into.old) }
{
    let mut label = [0; 5];
    label[..4].copy_from_slice(&usage.to_be_bytes());
    label[4] = purpose;
    kdf(key.etype(), key.as_slice(), &label, into);
}

/// The key of a password and a salt in `count` rounds (RFC 8009, section 4).
pub fn string_to_key2(etype: Etype, password: &[u8], salt: &[u8], count: u32) -> PlainKey
    requires etype { is_sha2 etype ≡ true }
    requires counted { 1 ≤ count }
    ensures { result ≡ record { etype = etype; bytes = string_key etype password.now salt.now count } }
{
    let mut first = [0; 32];
    let mut second = [0; 32];
    let made = &mut first[..etype.key_len()];
    let bytes = &mut second[..etype.key_len()];
    stretch(etype, password, salt, count, made);
    kdf(etype, made, b"kerberos", bytes);
    PlainKey::from_bytes(etype, bytes)
}

/// Fills `into` with what PBKDF2 makes of a password, and a salt behind the type's name and a zero byte.
fn stretch(etype: Etype, password: &[u8], salt: &[u8], count: u32, into: &mut [u8])
    requires etype { is_sha2 etype ≡ true }
    requires counted { 1 ≤ count }
    requires short { length into.old ≤ 32 }
    ensures { into.new ≡ pbkdf2_of etype password.now (salt_name etype ++ 0 ∷ salt.now) count (length into.old) }
{
    match etype {
        Etype::Aes128Sha2 => {
            let keyed = Keyed::<Sha256, 32>::new(password);
            pbkdf2_by(&keyed, b"aes128-cts-hmac-sha256-128\0", salt, count, into);
        }
        Etype::Aes256Sha2 => {
            let keyed = Keyed::<Sha384, 48>::new(password);
            pbkdf2_by(&keyed, b"aes256-cts-hmac-sha384-192\0", salt, count, into);
        }
        Etype::Aes128 | Etype::Aes256 => unreachable!(),
    }
}
