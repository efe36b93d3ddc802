//! Texts that are sealed under a key (RFC 8009, section 5).

ghost use Rattle.std.specs.Prelude.{◌≡◌, ◌≢◌, ℕ, ◌+◌, ◌<◌, ◌≤◌, ◌↔◌, true, List};
ghost use Rattle.std.specs.Prelude.{◌++◌, length, take, IfOk, IsTrue, MatchResult};
ghost use Rattle.aes_cts.specs.BlockKeys.{AreBytes, bytes_of};
ghost use Rattle.aes_cts.specs.Stealing.{cts};
ghost use Rattle.kdb_base.specs.Etypes.{tag_len};
ghost use Rattle.sha2_profile.specs.Macs.{IsMac};
ghost use Rattle.sha2_profile.specs.Sha2.{IsMistagged, IsSealed, encryption_key};
ghost use Rattle.sha2_profile.specs.Sha2.{integrity_key, is_sha2, sealed, tag as tag_of};

use crate::derivation::usage_key;
use crate::faults::UnsealFault;
use crate::macs::Mac;
use aes_cts::BlockKey;
use kdb_base::{Blob, MemoryOut, PlainKey};
use std::alloc::Global;
use std::marker::Model;

/// The bytes of a confounder.
const CONFOUNDER_LEN: usize = 16;
/// The bytes of the longest tag.
const LONGEST_TAG: usize = 24;
/// The purpose of the key that encrypts (RFC 8009, section 5).
const ENCRYPTION: u8 = 0xaa;
/// The purpose of the key that makes tags.
const INTEGRITY: u8 = 0x55;

/// What a key gives for one usage: the key that encrypts, and the key of the tags, both ready for use. Contracts see
/// the key and the usage.
#[derive(Drop)]
pub struct Sha2Keys {
    key: PlainKey,
    usage: u32,
    cipher: BlockKey,
    tags: Mac,
}

impl Model for Sha2Keys {
    ghost use Rattle.sha2_profile.specs.KeyUses.{KeyUse};

    ghost Value = { KeyUse };

    ghost view = { λ k. record { key = k.key; usage = k.usage } };

    ghost use Rattle.sha2_profile.specs.Usages.{AreDerived};

    ghost invariant = { AreDerived };
}

impl Sha2Keys {
    /// Derives the keys of a usage from a key of type 19 or 20.
    pub fn new(key: &PlainKey, usage: u32) -> Sha2Keys
        requires { is_sha2 key.now.etype ≡ true }
        ensures { result ≡ record { key = key.now; usage = usage } }
    {
        Sha2Keys {
            key: *key,
            usage,
            cipher: encryption(key, usage),
            tags: integrity(key, usage),
        }
    }

    /// Seals a text: the confounder and the text encrypted, and the cipher text's tag (RFC 8009, section 5).
    ///
    /// # Errors
    ///
    /// `MemoryOut` where memory is wanted and not given.
    pub fn seal(
        &self,
        alloc: Global,
        confounder: &[u8; 16],
        plain: &[u8],
    ) -> Result<Blob, MemoryOut>
        ensures bytes { IfOk result (λ blob. blob ≡ sealed self.now.key self.now.usage confounder.now plain.now) }
        ensures sealed { IfOk result (λ blob. IsSealed self.now.key self.now.usage blob plain.now) }
    {
        let text = joined(alloc, confounder, plain)?;
        let mut blob = self.encrypted(text);
        let tag = self.tag(&blob);
        blob.extend_from_slice(&tag[..self.key.etype().tag_len()])?;
        Ok(Blob::from_vec(blob))
    }

    /// The plain text that was sealed to `blob`, without its confounder (RFC 8009, section 5). The tag is compared
    /// before anything is decrypted.
    ///
    /// # Errors
    ///
    /// `Short` exactly where the blob is shorter than a confounder and a tag, `BadTag` exactly where its tag is not
    /// that of what stands before it, and `MemoryOut` where memory is wanted and not given.
    pub fn unseal(&self, alloc: Global, blob: &[u8]) -> Result<Blob, UnsealFault>
        ensures ok { IfOk result (λ plain. IsSealed self.now.key self.now.usage blob.now plain) }
        ensures short { (result ≡ Err UnsealFault.Short) ↔ (length blob.now < 16 + tag_len self.now.key.etype) }
        ensures bad_tag { (result ≡ Err UnsealFault.BadTag) ↔ IsMistagged self.now.key self.now.usage blob.now }

        // What was sealed is given back.
        ensures after_seal { (plain : List ℕ) → IsSealed self.now.key self.now.usage blob.now plain
            → MatchResult result (λ text. text ≡ plain) (λ fault. fault ≡ UnsealFault.MemoryOut) }
    {
        let tag_len = self.key.etype().tag_len();
        if blob.len() < CONFOUNDER_LEN + tag_len {
            return Err(UnsealFault::Short);
        }
        let (front, end) = blob.split_at(blob.len() - tag_len);
        if !self.has_tag(front, end) {
            return Err(UnsealFault::BadTag);
        }
        let Ok(text) = self.opened(alloc, front) else {
            return Err(UnsealFault::MemoryOut);
        };
        match Blob::from_bytes(alloc, &text[CONFOUNDER_LEN..]) {
            Ok(plain) => Ok(plain),
            Err(MemoryOut) => Err(UnsealFault::MemoryOut),
        }
    }

    /// The cipher text of a confounder and a plain text, where they stood.
    fn encrypted(&self, text: Vec<u8>) -> Vec<u8>
        requires { 16 ≤ length text.items }
        ensures bytes { result.items ≡ cts (encryption_key self.now.key self.now.usage) text.items }
        ensures len { length result.items ≡ length text.items }
    {
        self.cipher.encrypted(text)
    }

    /// The confounder and the plain text of a cipher text.
    fn opened(&self, alloc: Global, front: &[u8]) -> Result<Vec<u8>, MemoryOut>
        requires { 16 ≤ length front.now }
        ensures holds { IfOk result (λ text. cts (encryption_key self.now.key self.now.usage) text.items ≡ front.now) }
        ensures only { IfOk result (λ text. (t : List ℕ) → AreBytes t
            → cts (encryption_key self.now.key self.now.usage) t ≡ front.now → t ≡ text.items) }
        ensures bytes { IfOk result (λ text. AreBytes text.items) }
        ensures len { IfOk result (λ text. length text.items ≡ length front.now) }
    {
        let text = front.to_vec(alloc)?;
        Ok(self.cipher.decrypted(text))
    }

    /// Whether a tag is that of a cipher text.
    fn has_tag(&self, text: &[u8], end: &[u8]) -> bool
        ensures { IsTrue result ↔ (tag_of self.now.key self.now.usage text.now ≡ end.now) }
    {
        let tag = self.tag(text);
        &tag[..self.key.etype().tag_len()] == end
    }

    /// The tag of a cipher text, with what follows it.
    fn tag(&self, text: &[u8]) -> [u8; 24]
        ensures { take (tag_len self.now.key.etype) result ≡ tag_of self.now.key self.now.usage text.now }
    {
        let mut tag = [0; LONGEST_TAG];
        let front = &mut tag[..self.key.etype().tag_len()];
        self.tags.write(&[0; 16], text, &[], front);
        tag
    }
}

/// A confounder and the text after it, with room for a tag.
fn joined(alloc: Global, confounder: &[u8; 16], plain: &[u8]) -> Result<Vec<u8>, MemoryOut>
    ensures text { IfOk result (λ text. text.items ≡ confounder.now ++ plain.now) }
    ensures bytes { IfOk result (λ text. AreBytes text.items) }
{
    let room = plain.len().saturating_add(CONFOUNDER_LEN + LONGEST_TAG);
    let mut text = Vec::with_capacity(alloc, room)?;
    text.extend_from_slice(confounder)?;
    text.extend_from_slice(plain)?;
    Ok(text)
}

/// The key that encrypts, expanded.
fn encryption(key: &PlainKey, usage: u32) -> BlockKey
    requires { is_sha2 key.now.etype ≡ true }
    ensures { bytes_of result ≡ encryption_key key.now usage }
{
    let mut bytes = [0; 32];
    let front = &mut bytes[..key.etype().key_len()];
    usage_key(key, usage, ENCRYPTION, front);
    BlockKey::new(front)
}

/// The HMAC that makes tags.
fn integrity(key: &PlainKey, usage: u32) -> Mac
    requires { is_sha2 key.now.etype ≡ true }
    ensures { IsMac key.now.etype result (integrity_key key.now usage) }
{
    let mut bytes = [0; LONGEST_TAG];
    let front = &mut bytes[..key.etype().tag_len()];
    usage_key(key, usage, INTEGRITY, front);
    Mac::new(key.etype(), front)
}

/// Seals a text under a key of type 19 or 20 for a usage: the confounder and the text encrypted, and the cipher
/// text's tag (RFC 8009, section 5).
///
/// # Errors
///
/// `MemoryOut` where memory is wanted and not given.
pub fn seal2(
    alloc: Global,
    key: &PlainKey,
    usage: u32,
    confounder: &[u8; 16],
    plain: &[u8],
) -> Result<Blob, MemoryOut>
    requires { is_sha2 key.now.etype ≡ true }
    ensures bytes { IfOk result (λ blob. blob ≡ sealed key.now usage confounder.now plain.now) }
    ensures sealed { IfOk result (λ blob. IsSealed key.now usage blob plain.now) }
{
    Sha2Keys::new(key, usage).seal(alloc, confounder, plain)
}

/// The plain text that was sealed to `blob` under this key of type 19 or 20 and this usage, without its confounder.
/// The tag is compared before anything is decrypted (RFC 8009, section 5).
///
/// # Errors
///
/// `Short` exactly where the blob is shorter than a confounder and a tag, `BadTag` exactly where its tag is not that
/// of what stands before it, and `MemoryOut` where memory is wanted and not given.
pub fn unseal2(alloc: Global, key: &PlainKey, usage: u32, blob: &[u8]) -> Result<Blob, UnsealFault>
    requires { is_sha2 key.now.etype ≡ true }
    ensures ok { IfOk result (λ plain. IsSealed key.now usage blob.now plain) }
    ensures short { (result ≡ Err UnsealFault.Short) ↔ (length blob.now < 16 + tag_len key.now.etype) }
    ensures bad_tag { (result ≡ Err UnsealFault.BadTag) ↔ IsMistagged key.now usage blob.now }

    // What was sealed is given back.
    ensures after_seal { (plain : List ℕ) → IsSealed key.now usage blob.now plain
        → MatchResult result (λ text. text ≡ plain) (λ fault. fault ≡ UnsealFault.MemoryOut) }
{
    Sha2Keys::new(key, usage).unseal(alloc, blob)
}
