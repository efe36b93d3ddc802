//! Texts that are sealed under a key for a usage (RFC 3961, section 5.3; RFC 8009, section 5).

ghost use Rattle.std.specs.Prelude.{◌≡◌, ◌≢◌, ℕ, ◌+◌, ◌<◌, ◌↔◌, List, length, true, IfOk, MatchResult};
ghost use Rattle.kdb_base.specs.Etypes.{tag_len};
ghost use Rattle.krb_profile.specs.Profile.{IsMistagged, IsSealed, sealed};
ghost use Rattle.sha2_profile.specs.Sha2.{is_sha2};

use crate::sha1_keys::Sha1Keys;
use kdb_base::{Blob, Etype, MemoryOut, PlainKey};
use sha2_profile::{Sha2Keys, UnsealFault};
use std::alloc::Global;
use std::marker::Model;

/// What a key gives for one usage: the key that encrypts, and the key of the tags, both ready for use. Contracts see
/// the key and the usage.
#[derive(Drop)]
pub struct UsageKeys {
    kept: Kept,
}

/// The keys of a usage by the key's type.
#[derive(Drop)]
pub enum Kept {
    Sha1(Sha1Keys),
    Sha2(Sha2Keys),
}

impl Model for UsageKeys {
    ghost use Rattle.sha2_profile.specs.KeyUses.{KeyUse};

    ghost Value = { KeyUse };

    ghost use Rattle.krb_profile.specs.Kept.{IsKept, use_of};

    ghost view = { λ k. use_of k.kept };

    ghost invariant = { λ k. IsKept k.kept };
}

impl UsageKeys {
    /// Derives the keys of a usage from a key of any type.
    pub fn new(key: &PlainKey, usage: u32) -> UsageKeys
        ensures { result ≡ record { key = key.now; usage = usage } }
    {
        let kept = match key.etype() {
            Etype::Aes128 | Etype::Aes256 => Kept::Sha1(Sha1Keys::new(key, usage)),
            Etype::Aes128Sha2 | Etype::Aes256Sha2 => Kept::Sha2(Sha2Keys::new(key, usage)),
        };
        UsageKeys { kept }
    }

    /// Seals a text: the confounder and the text encrypted, and a tag.
    ///
    /// # Errors
    ///
    /// `MemoryOut` where memory is wanted and not given.
    pub fn seal(
        &self,
        alloc: Global,
        confounder: &[u8; 16],
        plain: &[u8],
    ) -> Result<Blob, MemoryOut>
        ensures bytes { IfOk result (λ blob. blob ≡ sealed self.now.key self.now.usage confounder.now plain.now) }
        ensures sealed { IfOk result (λ blob. IsSealed self.now.key self.now.usage blob plain.now) }
    {
        match &self.kept {
            Kept::Sha1(keys) => keys.seal(alloc, confounder, plain),
            Kept::Sha2(keys) => keys.seal(alloc, confounder, plain),
        }
    }

    /// The plain text that was sealed to `blob`, without its confounder.
    ///
    /// # Errors
    ///
    /// `Short` exactly where the blob is shorter than a confounder and a tag, `BadTag` where its tag is not that of
    /// what it holds (under the types 19 and 20 exactly there), and `MemoryOut` where memory is wanted and not given.
    pub fn unseal(&self, alloc: Global, blob: &[u8]) -> Result<Blob, UnsealFault>
        ensures ok { IfOk result (λ plain. IsSealed self.now.key self.now.usage blob.now plain) }
        ensures short { (result ≡ Err UnsealFault.Short) ↔ (length blob.now < 16 + tag_len self.now.key.etype) }
        ensures bad_tag { result ≡ Err UnsealFault.BadTag → IsMistagged self.now.key self.now.usage blob.now }

        // What was sealed is given back, and what has a wrong tag is not.
        ensures after_seal { (plain : List ℕ) → IsSealed self.now.key self.now.usage blob.now plain
            → MatchResult result (λ text. text ≡ plain) (λ fault. fault ≡ UnsealFault.MemoryOut) }
        ensures wrong_tag { IsMistagged self.now.key self.now.usage blob.now
            → MatchResult result (λ _. ⊥) (λ fault. fault ≢ UnsealFault.Short) }
        // Under the types 19 and 20 the tag is judged before memory is asked for.
        ensures bad_tag_sha2 { is_sha2 self.now.key.etype ≡ true → IsMistagged self.now.key self.now.usage blob.now
            → result ≡ Err UnsealFault.BadTag }
    {
        match &self.kept {
            Kept::Sha1(keys) => keys.unseal(alloc, blob),
            Kept::Sha2(keys) => keys.unseal(alloc, blob),
        }
    }
}

/// Seals a text under a key for a usage: the confounder and the text encrypted, and a tag (RFC 3961, section 5.3;
/// RFC 8009, section 5).
///
/// # Errors
///
/// `MemoryOut` where memory is wanted and not given.
pub fn seal(
    alloc: Global,
    key: &PlainKey,
    usage: u32,
    confounder: &[u8; 16],
    plain: &[u8],
) -> Result<Blob, MemoryOut>
    ensures bytes { IfOk result (λ blob. blob ≡ sealed key.now usage confounder.now plain.now) }
    ensures sealed { IfOk result (λ blob. IsSealed key.now usage blob plain.now) }
{
    UsageKeys::new(key, usage).seal(alloc, confounder, plain)
}

/// The plain text that was sealed to `blob` under this key and usage, without its confounder.
///
/// # Errors
///
/// `Short` exactly where the blob is shorter than a confounder and a tag, `BadTag` where its tag is not that of what
/// it holds (under the types 19 and 20 exactly there), and `MemoryOut` where memory is wanted and not given.
pub fn unseal(alloc: Global, key: &PlainKey, usage: u32, blob: &[u8]) -> Result<Blob, UnsealFault>
    ensures ok { IfOk result (λ plain. IsSealed key.now usage blob.now plain) }
    ensures short { (result ≡ Err UnsealFault.Short) ↔ (length blob.now < 16 + tag_len key.now.etype) }
    ensures bad_tag { result ≡ Err UnsealFault.BadTag → IsMistagged key.now usage blob.now }

    // What was sealed is given back, and what has a wrong tag is not.
    ensures after_seal { (plain : List ℕ) → IsSealed key.now usage blob.now plain
        → MatchResult result (λ text. text ≡ plain) (λ fault. fault ≡ UnsealFault.MemoryOut) }
    ensures wrong_tag { IsMistagged key.now usage blob.now
        → MatchResult result (λ _. ⊥) (λ fault. fault ≢ UnsealFault.Short) }
    // Under the types 19 and 20 the tag is judged before memory is asked for.
    ensures bad_tag_sha2 { is_sha2 key.now.etype ≡ true → IsMistagged key.now usage blob.now
        → result ≡ Err UnsealFault.BadTag }
{
    UsageKeys::new(key, usage).unseal(alloc, blob)
}
