//! The keys of a usage under the encryption types of RFC 3962 (RFC 3961, section 5.3).

ghost use Rattle.std.specs.Prelude.{◌≡◌, ◌≢◌, ℕ, ◌+◌, ◌<◌, ◌≤◌, ◌↔◌, false, List};
ghost use Rattle.std.specs.Prelude.{◌++◌, length, take, IfOk, IsTrue, MatchResult};
ghost use Rattle.aes_cts.specs.BlockKeys.{AreBytes, bytes_of};
ghost use Rattle.aes_cts.specs.Stealing.{cts};
ghost use Rattle.kdb_base.specs.Etypes.{tag_len};
ghost use Rattle.krb_hmac.specs.States.{IsKeyed};
ghost use Rattle.krb_profile.specs.Sha1.{IsMistagged, IsSealed, encryption_key, integrity_key};
ghost use Rattle.krb_profile.specs.Sha1.{sealed, tag as tag_of, usage_key as usage_key_of};
ghost use Rattle.sha1.specs.Sha1.{Holds, sha1};
ghost use Rattle.sha2_profile.specs.Sha2.{is_sha2};

use crate::derivation::derive;
use aes_cts::BlockKey;
use kdb_base::{Blob, MemoryOut, PlainKey};
use krb_hmac::Keyed;
use sha1::Sha1;
use sha2_profile::UnsealFault;
use std::alloc::Global;
use std::marker::Model;

/// The bytes of a confounder.
const CONFOUNDER_LEN: usize = 16;
/// The bytes of a digest, of which a tag is the front.
const DIGEST_LEN: usize = 20;
/// The purpose of the key that encrypts (RFC 3961, section 5.3).
const ENCRYPTION: u8 = 0xaa;
/// The purpose of the key that makes tags.
const INTEGRITY: u8 = 0x55;

/// What a key gives for one usage: the key that encrypts, and the key of the tags, both ready for use. Contracts see
/// the key and the usage.
#[derive(Drop)]
pub struct Sha1Keys {
    key: PlainKey,
    usage: u32,
    cipher: BlockKey,
    tags: Keyed<Sha1, 20>,
}

impl Model for Sha1Keys {
    ghost use Rattle.sha2_profile.specs.KeyUses.{KeyUse};

    ghost Value = { KeyUse };

    ghost view = { λ k. record { key = k.key; usage = k.usage } };

    ghost use Rattle.krb_profile.specs.Usages.{AreDerived};

    ghost invariant = { AreDerived };
}

impl Sha1Keys {
    /// Derives the keys of a usage from a key of type 17 or 18.
    pub fn new(key: &PlainKey, usage: u32) -> Sha1Keys
        requires { is_sha2 key.now.etype ≡ false }
        ensures { result ≡ record { key = key.now; usage = usage } }
    {
        Sha1Keys {
            key: *key,
            usage,
            cipher: encryption(key, usage),
            tags: integrity(key, usage),
        }
    }

    /// Seals a text: the confounder and the text encrypted, and their tag.
    pub fn seal(
        &self,
        alloc: Global,
        confounder: &[u8; 16],
        plain: &[u8],
    ) -> Result<Blob, MemoryOut>
        ensures bytes { IfOk result (λ blob. blob ≡ sealed self.now.key self.now.usage confounder.now plain.now) }
        ensures sealed { IfOk result (λ blob. IsSealed self.now.key self.now.usage blob plain.now) }
    {
        let text = joined(alloc, confounder, plain)?;
        let tag = self.tag(&text);
        let mut blob = self.encrypted(text);
        blob.extend_from_slice(&tag[..self.tag_len()])?;
        Ok(Blob::from_vec(blob))
    }

    /// The plain text that was sealed to `blob`, without its confounder.
    pub fn unseal(&self, alloc: Global, blob: &[u8]) -> Result<Blob, UnsealFault>
        ensures ok { IfOk result (λ plain. IsSealed self.now.key self.now.usage blob.now plain) }
        ensures short { (result ≡ Err UnsealFault.Short) ↔ (length blob.now < 16 + tag_len self.now.key.etype) }
        ensures bad_tag { result ≡ Err UnsealFault.BadTag → IsMistagged self.now.key self.now.usage blob.now }
        ensures after_seal { (plain : List ℕ) → IsSealed self.now.key self.now.usage blob.now plain
            → MatchResult result (λ text. text ≡ plain) (λ fault. fault ≡ UnsealFault.MemoryOut) }
        ensures wrong_tag { IsMistagged self.now.key self.now.usage blob.now
            → MatchResult result (λ _. ⊥) (λ fault. fault ≢ UnsealFault.Short) }
    {
        let tag_len = self.tag_len();
        if blob.len() < CONFOUNDER_LEN + tag_len {
            return Err(UnsealFault::Short);
        }
        let (front, end) = blob.split_at(blob.len() - tag_len);
        let Ok(text) = self.opened(alloc, front) else {
            return Err(UnsealFault::MemoryOut);
        };
        if !self.has_tag(&text, end) {
            return Err(UnsealFault::BadTag);
        }
        match Blob::from_bytes(alloc, &text[CONFOUNDER_LEN..]) {
            Ok(plain) => Ok(plain),
            Err(MemoryOut) => Err(UnsealFault::MemoryOut),
        }
    }

    /// The bytes of a tag under a key of these types: 12 (RFC 3962, section 6).
    fn tag_len(&self) -> usize
        ensures exact { result ≡ tag_len self.now.key.etype }
        ensures twelve { result ≡ 12 }
        ensures kind { is_sha2 self.now.key.etype ≡ false }
    {
        self.key.etype().tag_len()
    }

    /// The cipher text of a confounder and a plain text, where they stood.
    fn encrypted(&self, text: Vec<u8>) -> Vec<u8>
        requires { 16 ≤ length text.items }
        ensures bytes { result.items ≡ cts (encryption_key self.now.key self.now.usage) text.items }
        ensures len { length result.items ≡ length text.items }
    {
        self.cipher.encrypted(text)
    }

    /// The confounder and the plain text of a cipher text.
    fn opened(&self, alloc: Global, front: &[u8]) -> Result<Vec<u8>, MemoryOut>
        requires { 16 ≤ length front.now }
        ensures holds { IfOk result (λ text. cts (encryption_key self.now.key self.now.usage) text.items ≡ front.now) }
        ensures only { IfOk result (λ text. (t : List ℕ) → AreBytes t
            → cts (encryption_key self.now.key self.now.usage) t ≡ front.now → t ≡ text.items) }
        ensures bytes { IfOk result (λ text. AreBytes text.items) }
        ensures len { IfOk result (λ text. length text.items ≡ length front.now) }
    {
        let text = front.to_vec(alloc)?;
        Ok(self.cipher.decrypted(text))
    }

    /// Whether a tag is that of a confounder and a plain text.
    fn has_tag(&self, text: &[u8], end: &[u8]) -> bool
        ensures { IsTrue result ↔ (tag_of self.now.key self.now.usage text.now ≡ end.now) }
    {
        let tag = self.tag(text);
        &tag[..self.tag_len()] == end
    }

    /// The digest of a confounder and a plain text, which begins with their tag.
    fn tag(&self, text: &[u8]) -> [u8; 20]
        ensures { take (tag_len self.now.key.etype) result ≡ tag_of self.now.key self.now.usage text.now }
    {
        self.tags.tag(text, &[], &[])
    }
}

/// A confounder and the text after it, with room for a tag.
fn joined(alloc: Global, confounder: &[u8; 16], plain: &[u8]) -> Result<Vec<u8>, MemoryOut>
    ensures text { IfOk result (λ text. text.items ≡ confounder.now ++ plain.now) }
    ensures bytes { IfOk result (λ text. AreBytes text.items) }
{
    let room = plain.len().saturating_add(CONFOUNDER_LEN + DIGEST_LEN);
    let mut text = Vec::with_capacity(alloc, room)?;
    text.extend_from_slice(confounder)?;
    text.extend_from_slice(plain)?;
    Ok(text)
}

/// The key that encrypts, expanded.
fn encryption(key: &PlainKey, usage: u32) -> BlockKey
    requires { is_sha2 key.now.etype ≡ false }
    ensures { bytes_of result ≡ encryption_key key.now usage }
{
    let bytes = usage_key(key, usage, ENCRYPTION);
    BlockKey::new(bytes.as_slice())
}

/// The HMAC that makes tags.
fn integrity(key: &PlainKey, usage: u32) -> Keyed<Sha1, 20>
    requires { is_sha2 key.now.etype ≡ false }
    ensures { IsKeyed Holds sha1 64 result (integrity_key key.now usage) }
{
    let bytes = usage_key(key, usage, INTEGRITY);
    Keyed::new(bytes.as_slice())
}

/// The key of a usage for one purpose (RFC 3961, section 5.3).
fn usage_key(key: &PlainKey, usage: u32, purpose: u8) -> PlainKey
    requires { is_sha2 key.now.etype ≡ false }
    ensures { result ≡ record { etype = key.now.etype; bytes = usage_key_of key.now usage purpose } }
{
    let mut constant = [0; 5];
    constant[..4].copy_from_slice(&usage.to_be_bytes());
    constant[4] = purpose;
    derive(key, &constant)
}
