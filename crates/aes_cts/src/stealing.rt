// CBC with ciphertext stealing in place, in one pass (RFC 3962, 5). `N` round keys serve both key sizes.

ghost use Rattle.std.specs.Prelude.{◌≡◌, ℕ, ◌+◌, ◌-◌, ◌<◌, ◌≤◌, ◌^◌, ◌↔◌, ◌++◌, IsTrue, length, take, drop, replicate};
ghost use Rattle.std.specs.List.{All};
ghost use Rattle.aes_cts.specs.Cipher.{add_bytes, cipher_by};
ghost use Rattle.aes_cts.specs.Inverse.{uncipher_by};
ghost use Rattle.aes_cts.specs.Words.{block_of, schedule_bytes};
ghost use Rattle.aes_cts.specs.Steps.{blocks_before_end, steal_end, steal, return_end, return};

use crate::blocks::{load, store};
use crate::rounds::{add_key, decrypt, encrypt};

/// Whether a text has fewer than 16 bytes. What a slice of bytes holds are bytes, which callers learn here.
pub fn is_short(text: &[u8]) -> bool
    ensures short { IsTrue result ↔ (length text.now < 16) }
    ensures bytes { All (λ x. x < 2 ^ 8) text.now }
{
    text.len() < 16
}

// The state of up to 16 bytes, with zeros behind them.
fn load_padded(tail: &[u8]) -> [u32; 4]
    requires { length tail.now ≤ 16 }
    ensures { block_of result ≡ tail.now ++ replicate (16 - length tail.now) 0 }
{
    let mut block = [0; 16];
    block[..tail.len()].copy_from_slice(tail);
    load(&block)
}

// The state of up to 16 bytes, with the rest of another state's block behind them.
fn load_completed(tail: &[u8], s: [u32; 4]) -> [u32; 4]
    requires { length tail.now ≤ 16 }
    ensures { block_of result ≡ tail.now ++ drop (length tail.now) (block_of s) }
{
    let mut block = [0; 16];
    store(&mut block, s);
    block[..tail.len()].copy_from_slice(tail);
    load(&block)
}

// Writes the front of a state's block over up to 16 bytes.
fn store_front(tail: &mut [u8], s: [u32; 4])
    requires { length tail.old ≤ 16 }
    ensures { tail.new ≡ take (length tail.old) (block_of s) }
{
    let mut block = [0; 16];
    store(&mut block, s);
    let n = tail.len();
    tail.copy_from_slice(&block[..n]);
}

// Encrypts a block after `vector`, and returns the next vector.
#[inline(always)]
fn encrypt_next<const N: usize>(
    keys: &[[u32; 4]; N],
    vector: [u32; 4],
    block: &mut [u8],
) -> [u32; 4]
    requires rounds { 2 ≤ N }
    requires whole { length block.old ≡ 16 }
    ensures text { block.new ≡ cipher_by (schedule_bytes keys.now) (N - 1) (add_bytes block.old (block_of vector)) }
    ensures vector { block_of result ≡ block.new }
{
    let next = encrypt(keys, add_key(load(block), vector));
    store(block, next);
    next
}

// Decrypts a block after `vector`, and returns the next vector.
#[inline(always)]
fn decrypt_next<const N: usize>(
    keys: &[[u32; 4]; N],
    vector: [u32; 4],
    block: &mut [u8],
) -> [u32; 4]
    requires rounds { 2 ≤ N }
    requires whole { length block.old ≡ 16 }
    ensures text { block.new ≡ add_bytes (uncipher_by (schedule_bytes keys.now) (N - 1) block.old) (block_of vector) }
    ensures vector { block_of result ≡ block.old }
{
    let next = load(block);
    store(block, add_key(decrypt(keys, next), vector));
    next
}

// The last 16 to 32 bytes of a text.
fn encrypt_end<const N: usize>(keys: &[[u32; 4]; N], vector: [u32; 4], end: &mut [u8])
    requires rounds { 2 ≤ N }
    requires low { 16 ≤ length end.old }
    requires high { length end.old ≤ 32 }
    ensures { end.new ≡ steal_end (cipher_by (schedule_bytes keys.now) (N - 1)) (block_of vector) end.old }
{
    let held = encrypt(keys, add_key(load(&end[..16]), vector));
    if end.len() == 16 {
        store(end, held);
        return;
    }
    let last = encrypt(keys, add_key(load_padded(&end[16..]), held));
    store(&mut end[..16], last);
    store_front(&mut end[16..], held);
}

fn decrypt_end<const N: usize>(keys: &[[u32; 4]; N], vector: [u32; 4], end: &mut [u8])
    requires rounds { 2 ≤ N }
    requires low { 16 ≤ length end.old }
    requires high { length end.old ≤ 32 }
    ensures { end.new ≡ return_end (uncipher_by (schedule_bytes keys.now) (N - 1)) (block_of vector) end.old }
{
    let opened = decrypt(keys, load(&end[..16]));
    if end.len() == 16 {
        store(end, add_key(opened, vector));
        return;
    }
    let held = load_completed(&end[16..], opened);
    store(&mut end[..16], add_key(decrypt(keys, held), vector));
    store_front(&mut end[16..], add_key(opened, held));
}

/// Encrypts a text of at least 16 bytes.
pub fn encrypt_text<const N: usize>(keys: &[[u32; 4]; N], text: &mut [u8])
    requires rounds { 2 ≤ N }
    requires low { 16 ≤ length text.old }
    ensures { text.new ≡ steal (blocks_before_end (length text.old)) (cipher_by (schedule_bytes keys.now) (N - 1))
        (replicate 16 0) text.old }
{
    let whole = text.len().saturating_sub(17) / 16;
    let mut vector = [0; 4];
    for index in 0..whole {
        let next = encrypt_next(keys, vector, &mut text[16 * index..16 * index + 16]);
        vector = next;
    }
    encrypt_end(keys, vector, &mut text[16 * whole..]);
}

/// Decrypts a text of at least 16 bytes.
pub fn decrypt_text<const N: usize>(keys: &[[u32; 4]; N], text: &mut [u8])
    requires rounds { 2 ≤ N }
    requires low { 16 ≤ length text.old }
    ensures { text.new ≡ return (blocks_before_end (length text.old)) (uncipher_by (schedule_bytes keys.now) (N - 1))
        (replicate 16 0) text.old }
{
    let whole = text.len().saturating_sub(17) / 16;
    let mut vector = [0; 4];
    for index in 0..whole {
        let next = decrypt_next(keys, vector, &mut text[16 * index..16 * index + 16]);
        vector = next;
    }
    decrypt_end(keys, vector, &mut text[16 * whole..]);
}
