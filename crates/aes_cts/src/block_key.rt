//! A key of either size.

ghost use Rattle.std.specs.Prelude.{◌≡◌, ◌≤◌, ℕ, List, length};
ghost use Rattle.aes_cts.specs.BlockKeys.{AreBytes, IsKeyLong};
ghost use Rattle.aes_cts.specs.Cipher.{cipher};
ghost use Rattle.aes_cts.specs.Stealing.{cts};

use crate::key128::Key128;
use crate::key256::Key256;

/// A key of 128 or 256 bits, expanded for both directions.
#[derive(Drop)]
pub enum BlockKey {
    /// A key of 16 bytes.
    Aes128(Key128),
    /// A key of 32 bytes.
    Aes256(Key256),
}

impl BlockKey {
    ghost use Rattle.aes_cts.specs.BlockKeys.{bytes_of};

    /// Expands a key of 16 or 32 bytes (FIPS 197, 5.2).
    pub fn new(bytes: &[u8]) -> BlockKey
        requires { IsKeyLong bytes.now }
        ensures { bytes_of result ≡ bytes.now }
    {
        if bytes.len() == 16 {
            let mut half = [0; 16];
            half.copy_from_slice(bytes);
            BlockKey::Aes128(Key128::new(&half))
        } else {
            let mut whole = [0; 32];
            whole.copy_from_slice(bytes);
            BlockKey::Aes256(Key256::new(&whole))
        }
    }

    /// Encrypts a block in place (FIPS 197, 5.1).
    pub fn encrypt_block(&self, block: &mut [u8; 16])
        ensures { block.new ≡ cipher (bytes_of self.now) block.old }
    {
        match self {
            BlockKey::Aes128(key) => key.encrypt_block(block),
            BlockKey::Aes256(key) => key.encrypt_block(block),
        }
    }

    /// Encrypts a text of at least 16 bytes in place, by CBC with ciphertext stealing from a zero vector
    /// (RFC 3962, 5).
    pub fn encrypt(&self, text: &mut [u8])
        requires { 16 ≤ length text.old }
        ensures { text.new ≡ cts (bytes_of self.now) text.old }
    {
        let outcome = match self {
            BlockKey::Aes128(key) => key.cts_encrypt(text),
            BlockKey::Aes256(key) => key.cts_encrypt(text),
        };
        prove!(outcome.is_ok());
    }

    /// Decrypts a text of at least 16 bytes in place: it becomes the one text whose cipher text it was.
    pub fn decrypt(&self, text: &mut [u8])
        requires { 16 ≤ length text.old }
        ensures inverse { cts (bytes_of self.now) text.new ≡ text.old }
        ensures only { (t : List ℕ) → AreBytes t → cts (bytes_of self.now) t ≡ text.old → t ≡ text.new }
    {
        let outcome = match self {
            BlockKey::Aes128(key) => key.cts_decrypt(text),
            BlockKey::Aes256(key) => key.cts_decrypt(text),
        };
        prove!(outcome.is_ok());
    }

    /// The text, of at least 16 bytes, encrypted where it stands.
    pub fn encrypted(&self, mut text: Vec<u8>) -> Vec<u8>
        requires { 16 ≤ length text.items }
        ensures bytes { result.items ≡ cts (bytes_of self.now) text.items }
        ensures len { length result.items ≡ length text.items }
    {
        self.encrypt(&mut text);
        text
    }

    /// The text, of at least 16 bytes, decrypted where it stands: the one text whose cipher text it was.
    pub fn decrypted(&self, mut text: Vec<u8>) -> Vec<u8>
        requires { 16 ≤ length text.items }
        ensures inverse { cts (bytes_of self.now) result.items ≡ text.items }
        ensures only { (t : List ℕ) → AreBytes t → cts (bytes_of self.now) t ≡ text.items → t ≡ result.items }
        ensures bytes { AreBytes result.items }
        ensures len { length result.items ≡ length text.items }
    {
        self.decrypt(&mut text);
        text
    }
}
