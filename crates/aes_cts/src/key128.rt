ghost use Rattle.std.specs.Prelude.{◌≡◌, ℕ, ◌+◌, ◌<◌, ◌≤◌, ◌^◌, ◌↔◌, List, length, take, IsErr, OnOk, OnErr};
ghost use Rattle.std.specs.List.{All};
ghost use Rattle.aes_cts.specs.Cipher.{cipher};
ghost use Rattle.aes_cts.specs.Stealing.{cts};
ghost use Rattle.aes_cts.specs.Words.{schedule_bytes, AreSchedules};

use crate::Short;
use crate::blocks::{load, store};
use crate::rounds::{decrypt, encrypt};
use crate::schedule::{expand, undoing};
use crate::stealing::{decrypt_text, encrypt_text, is_short};
use std::marker::Model;

/// A key of 128 bits, with its round keys for both directions. Contracts see the key's 16 bytes.
#[derive(Drop)]
pub struct Key128 {
    encrypt: [[u32; 4]; 11],
    decrypt: [[u32; 4]; 11],
}

impl Model for Key128 {
    ghost Value = { List ℕ };

    ghost view = { λ k. schedule_bytes (take 1 k.encrypt) };

    ghost invariant = { λ k. AreSchedules 1 k.encrypt k.decrypt };
}

impl Key128 {
    /// Expands a key (FIPS 197, 5.2).
    pub fn new(bytes: &[u8; 16]) -> Key128
        ensures { result ≡ bytes.now }
    {
        let mut keys = [[0; 4]; 11];
        keys[0] = load(bytes);
        expand(&mut keys, 1);
        let undo = undoing(&keys);
        Key128 {
            encrypt: keys,
            decrypt: undo,
        }
    }

    /// Encrypts a block in place (FIPS 197, 5.1).
    pub fn encrypt_block(&self, block: &mut [u8; 16])
        ensures { block.new ≡ cipher self.now block.old }
    {
        let s = encrypt(&self.encrypt, load(block));
        store(block, s);
    }

    /// Decrypts a block in place (FIPS 197, 5.3): it becomes the one block whose encryption it was.
    pub fn decrypt_block(&self, block: &mut [u8; 16])
        ensures inverse { cipher self.now block.new ≡ block.old }
        ensures only { (b : List ℕ) → length b ≡ 16 → All (λ x. x < 2 ^ 8) b → cipher self.now b ≡ block.old
            → b ≡ block.new }
    {
        let s = decrypt(&self.decrypt, load(block));
        store(block, s);
    }

    /// Encrypts a text in place by CBC with ciphertext stealing from a zero vector (RFC 3962, 5).
    ///
    /// # Errors
    ///
    /// `Short` exactly where the text has fewer than 16 bytes; it is then as before.
    pub fn cts_encrypt(&self, text: &mut [u8]) -> Result<(), Short>
        ensures text { OnOk result (text.new ≡ cts self.now text.old) }
        ensures short { IsErr result ↔ (length text.old < 16) }
        ensures same { OnErr result (text.new ≡ text.old) }
    {
        if is_short(text) {
            return Err(Short);
        }
        encrypt_text(&self.encrypt, text);
        Ok(())
    }

    /// Decrypts a text in place: it becomes the one text whose cipher text it was.
    ///
    /// # Errors
    ///
    /// `Short` exactly where the text has fewer than 16 bytes; it is then as before.
    pub fn cts_decrypt(&self, text: &mut [u8]) -> Result<(), Short>
        ensures inverse { OnOk result (cts self.now text.new ≡ text.old) }
        ensures only { OnOk result ((t : List ℕ) → All (λ x. x < 2 ^ 8) t → cts self.now t ≡ text.old → t ≡ text.new) }
        ensures short { IsErr result ↔ (length text.old < 16) }
        ensures same { OnErr result (text.new ≡ text.old) }
    {
        if is_short(text) {
            return Err(Short);
        }
        decrypt_text(&self.decrypt, text);
        Ok(())
    }
}
