//! Keys wrapped under a master key: two bytes of length, as MIT has them, and the sealed key.

ghost use Rattle.std.specs.Prelude.{◌≡◌, ◌≢◌, ◌++◌, ℕ, List, Err, None, IfOk, IfSome, MatchResult, length};
ghost use Rattle.kdb_base.specs.Etypes.{key_len};
ghost use Rattle.kdb_base.specs.Key.{Key};
ghost use Rattle.kdb_format.specs.Spellings.{little};
ghost use Rattle.krb_profile.specs.Profile.{IsSealed, sealed};
ghost use Rattle.master_keys.specs.Wrapping.{Unwraps, wrapped, wrapped_len};

use crate::faults::{ChainFault, Unopened};
use kdb_base::{Blob, Etype, MemoryOut, PlainKey};
use kdb_format::writing::push_bytes;
use krb_profile::UsageKeys;
use std::alloc::Global;
use std::marker::Model;

/// The usage of keys that are wrapped.
const USAGE: u32 = 0;

/// A master key that is ready to wrap keys and to unwrap them: what is derived from it is derived once.
/// Contracts see the key.
#[derive(Drop)]
pub struct MasterKey {
    keys: UsageKeys,
}

impl Model for MasterKey {
    ghost use Rattle.kdb_base.specs.Key.{Key};

    ghost Value = { Key };

    ghost use Rattle.std.specs.Prelude.{◌≡◌};

    ghost view = { λ m. m.keys.key };

    ghost invariant = { λ m. m.keys.usage ≡ 0 };
}

impl MasterKey {
    /// Derives what this key wraps and unwraps with.
    pub fn new(key: &PlainKey) -> MasterKey
        ensures { result ≡ key.now }
    {
        MasterKey {
            keys: UsageKeys::new(key, USAGE),
        }
    }

    /// The sealed bytes.
    fn seal(&self, alloc: Global, confounder: &[u8; 16], plain: &[u8]) -> Result<Blob, MemoryOut>
        ensures bytes { IfOk result (λ blob. blob ≡ sealed self.now 0 confounder.now plain.now) }
        ensures sealed { IfOk result (λ blob. IsSealed self.now 0 blob plain.now) }
    {
        self.keys.seal(alloc, confounder, plain)
    }

    /// The length of the key and the sealed key.
    #[tactic(auto, unfolding(crate::specs::Wrapping::wrapped))]
    fn wrapped(
        &self,
        alloc: Global,
        key: &PlainKey,
        confounder: &[u8; 16],
    ) -> Result<Blob, MemoryOut>
        ensures bytes { IfOk result (λ blob. blob ≡ wrapped self.now key.now confounder.now) }
        ensures unwraps { IfOk result (λ blob. Unwraps self.now key.now.etype blob key.now) }
    {
        let sealed = self.seal(alloc, confounder, key.as_slice())?;
        let mut blob = Vec::new(alloc);
        push_bytes(&mut blob, &len_bytes(key.etype()))?;
        push_bytes(&mut blob, sealed.as_slice())?;
        Ok(Blob::from_vec(blob))
    }

    /// The key, wrapped under this one: two bytes of its length, and the key sealed with this confounder.
    ///
    /// # Errors
    ///
    /// `MemoryOut` where memory is wanted and not given.
    pub fn wrap(
        &self,
        alloc: Global,
        key: &PlainKey,
        confounder: &[u8; 16],
    ) -> Result<Blob, MemoryOut>
        ensures bytes { IfOk result (λ blob. blob ≡ wrapped self.now key.now confounder.now) }
        ensures unwraps { IfOk result (λ blob. Unwraps self.now key.now.etype blob key.now) }
        ensures long { IfOk result (λ blob. length blob ≡ wrapped_len self.now.etype key.now.etype) }
    {
        let blob = self.wrapped(alloc, key, confounder)?;
        Ok(blob)
    }

    /// The sealed text's key.
    fn unsealed(&self, alloc: Global, etype: Etype, text: &[u8]) -> Result<PlainKey, Unopened>
        ensures of_type { IfOk result (λ key. key.etype ≡ etype) }
        ensures long { IfOk result (λ key. length key.bytes ≡ key_len etype) }
        ensures sealed { IfOk result (λ key. IsSealed self.now 0 text.now key.bytes) }
        ensures only { (key : Key)
            → key.etype ≡ etype → length key.bytes ≡ key_len etype → IsSealed self.now 0 text.now key.bytes
            → MatchResult result (λ found. found ≡ key) (λ fault. fault ≡ Unopened.MemoryOut) }
    {
        match self.keys.unseal(alloc, text) {
            Ok(plain) => {
                if plain.len() != etype.key_len() {
                    return Err(Unopened::Wrong);
                }
                Ok(PlainKey::from_bytes(etype, plain.as_slice()))
            }
            Err(fault) => Err(Unopened::from(fault)),
        }
    }

    /// The key of this type that the blob holds under this master key.
    ///
    /// # Errors
    ///
    /// `Wrong` where the blob holds no key of this type under it, and `MemoryOut` where memory is wanted and
    /// not given.
    pub fn unwrap(&self, alloc: Global, etype: Etype, blob: &[u8]) -> Result<PlainKey, Unopened>
        ensures ok { IfOk result (λ key. Unwraps self.now etype blob.now key) }
        // What was wrapped is given back, unless memory runs out.
        ensures only { (key : Key) → Unwraps self.now etype blob.now key
            → MatchResult result (λ found. found ≡ key) (λ fault. fault ≡ Unopened.MemoryOut) }
        ensures wrong { result ≡ Err Unopened.Wrong → (key : Key) → ¬ Unwraps self.now etype blob.now key }
    {
        match behind_len(etype, blob) {
            Some(text) => self.unsealed(alloc, etype, text),
            None => Err(Unopened::Wrong),
        }
    }
}

/// The length of the keys of a type, as it stands before a wrapped key.
#[tactic(auto, unfolding(kdb_format::specs::Spellings::little))]
fn len_bytes(etype: Etype) -> [u8; 2]
    ensures { result ≡ little 2 (key_len etype) }
{
    match etype {
        Etype::Aes128 | Etype::Aes128Sha2 => [16, 0],
        Etype::Aes256 | Etype::Aes256Sha2 => [32, 0],
    }
}

/// What stands behind the length of the keys of a type.
fn behind_len(etype: Etype, blob: &[u8]) -> Option<&[u8]>
    ensures some { IfSome result (λ text. blob.now ≡ little 2 (key_len etype) ++ text.now) }
    ensures none { result ≡ None → (text : List ℕ) → blob.now ≢ little 2 (key_len etype) ++ text }
{
    blob.strip_prefix(&len_bytes(etype))
}

/// The key, wrapped under a master key.
///
/// # Errors
///
/// `MemoryOut` where memory is wanted and not given.
pub fn wrap(
    alloc: Global,
    master: &PlainKey,
    key: &PlainKey,
    confounder: &[u8; 16],
) -> Result<Blob, MemoryOut>
    ensures bytes { IfOk result (λ blob. blob ≡ wrapped master.now key.now confounder.now) }
    ensures unwraps { IfOk result (λ blob. Unwraps master.now key.now.etype blob key.now) }
    ensures long { IfOk result (λ blob. length blob ≡ wrapped_len master.now.etype key.now.etype) }
{
    MasterKey::new(master).wrap(alloc, key, confounder)
}

/// The key of this type that was wrapped under a master key.
///
/// # Errors
///
/// `StashWrong` where the blob holds no key of this type under the master key, and `MemoryOut` where memory
/// is wanted and not given.
pub fn unwrap(
    alloc: Global,
    master: &PlainKey,
    etype: Etype,
    blob: &[u8],
) -> Result<PlainKey, ChainFault>
    ensures ok { IfOk result (λ key. Unwraps master.now etype blob.now key) }
    ensures after_wrap { (key : Key) → Unwraps master.now etype blob.now key
        → MatchResult result (λ found. found ≡ key) (λ fault. fault ≡ ChainFault.MemoryOut) }
    ensures wrong { result ≡ Err ChainFault.StashWrong → (key : Key) → Unwraps master.now etype blob.now key → ⊥ }
    ensures known { (version : ℕ) → result ≢ Err (ChainFault.UnknownMaster version) }
{
    match MasterKey::new(master).unwrap(alloc, etype, blob) {
        Ok(key) => Ok(key),
        Err(fault) => Err(ChainFault::from(fault)),
    }
}
