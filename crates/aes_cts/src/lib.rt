//! AES with keys of 128 and 256 bits (FIPS 197), and CBC with ciphertext stealing from a zero vector (RFC 3962).
//! Nothing here takes memory: a key is expanded once, for both directions, and blocks and texts are changed in place.
#![tactic(auto)]

mod block_key;
mod blocks;
mod key128;
mod key256;
mod rounds;
mod schedule;
mod stealing;
mod tables;

ghost use Rattle.std.specs.Prelude.{◌≡◌, ◌⊎◌, ◌≤◌, ℕ, List, length};
ghost use Rattle.aes_cts.specs.BlockKeys.{AreBytes, IsKeyLong};
ghost use Rattle.aes_cts.specs.Cipher.{cipher};
ghost use Rattle.aes_cts.specs.Stealing.{cts};

pub use crate::block_key::BlockKey;
pub use crate::key128::Key128;
pub use crate::key256::Key256;
pub use crate::schedule::expand;
use thiserror::Error;

/// A text too short for ciphertext stealing: it has fewer than 16 bytes.
#[derive(Debug, Clone, Copy, PartialEq, Eq, Error)]
#[error("the text is shorter than a block")]
pub struct Short;

/// Laws of the two definitions, at every key of 16 or 32 bytes: an encrypted block has 16 bytes, and a cipher text is
/// as long as its text.
pub fn lengths_are_kept()
    ensures block { (key block : List ℕ) → (length key ≡ 16) ⊎ (length key ≡ 32) → length (cipher key block) ≡ 16 }
    ensures text { (key text : List ℕ) → (length key ≡ 16) ⊎ (length key ≡ 32) → length (cts key text) ≡ length text }
{}

/// Laws of the two definitions, at every key of 16 or 32 bytes: what encrypts a block of bytes are bytes, and a
/// cipher text is that of one text.
pub fn texts_are_told()
    ensures block { (key block : List ℕ) → IsKeyLong key → AreBytes key → length block ≡ 16 → AreBytes block
        → AreBytes (cipher key block) }
    ensures text { (key a b : List ℕ) → IsKeyLong key → AreBytes key → AreBytes a → AreBytes b → 16 ≤ length a
        → cts key a ≡ cts key b → a ≡ b }
{}
