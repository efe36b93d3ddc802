//! Keys that are derived from keys and from passwords (RFC 3961, RFC 3962 and RFC 8009).

ghost use Rattle.std.specs.Prelude.{◌≡◌, ◌≤◌, false, length};
ghost use Rattle.krb_profile.specs.Profile.{string_key};
ghost use Rattle.krb_profile.specs.Sha1.{derived, stream, string_key as string_key_1};
ghost use Rattle.sha2_profile.specs.Sha2.{is_sha2};

use crate::folding::n_fold;
use aes_cts::BlockKey;
use kdb_base::{Etype, PlainKey};
use krb_hmac::pbkdf2;
use sha2_profile::string_to_key2;

/// The key that is derived from a key of type 17 or 18 with a constant: DK of RFC 3961, section 5.1.
pub fn derive(key: &PlainKey, constant: &[u8]) -> PlainKey
    requires etype { is_sha2 key.now.etype ≡ false }
    requires given { 1 ≤ length constant.now }
    requires short { length constant.now ≤ 64 }
    ensures { result ≡ record { etype = key.now.etype; bytes = derived key.now constant.now } }
{
    let blocks = stream_of(key, constant);
    PlainKey::from_bytes(key.etype(), &blocks[..key.etype().key_len()])
}

/// The two blocks from which a derived key is taken.
fn stream_of(key: &PlainKey, constant: &[u8]) -> [u8; 32]
    requires given { 1 ≤ length constant.now }
    requires short { length constant.now ≤ 64 }
    ensures { result ≡ stream key.now.bytes constant.now }
{
    let cipher = BlockKey::new(key.as_slice());
    let mut block = [0; 16];
    n_fold(constant, &mut block);
    let mut blocks = [0; 32];
    cipher.encrypt_block(&mut block);
    blocks[..16].copy_from_slice(&block);
    cipher.encrypt_block(&mut block);
    blocks[16..].copy_from_slice(&block);
    blocks
}

/// The key of a password and a salt in `count` rounds (RFC 3962, section 4; RFC 8009, section 4).
#[tactic(auto, unfolding(crate::specs::Profile::string_key))]
pub fn string_to_key(etype: Etype, password: &[u8], salt: &[u8], count: u32) -> PlainKey
    requires { 1 ≤ count }
    ensures { result ≡ record { etype = etype; bytes = string_key etype password.now salt.now count } }
{
    match etype {
        Etype::Aes128 | Etype::Aes256 => string_to_key1(etype, password, salt, count),
        Etype::Aes128Sha2 | Etype::Aes256Sha2 => string_to_key2(etype, password, salt, count),
    }
}

/// The key of a type of RFC 3962.
fn string_to_key1(etype: Etype, password: &[u8], salt: &[u8], count: u32) -> PlainKey
    requires etype { is_sha2 etype ≡ false }
    requires counted { 1 ≤ count }
    ensures { result ≡ record { etype = etype; bytes = string_key_1 etype password.now salt.now count } }
{
    let mut buffer = [0; 32];
    let bytes = &mut buffer[..etype.key_len()];
    pbkdf2(password, salt, count, bytes);
    derive(&PlainKey::from_bytes(etype, bytes), b"kerberos")
}
