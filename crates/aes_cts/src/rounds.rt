// The rounds of AES on states of four columns, each a big-endian word. A table look-up gives what one byte adds to a
// column after SubBytes and MixColumns, so that a round is sixteen look-ups and twenty sums. Decryption has the same
// shape by the equivalent inverse cipher (FIPS 197, 5.3.5).

ghost use Rattle.std.specs.Prelude.{◌≡◌, ℕ, ◌+◌, ◌-◌, ◌<◌, ◌≤◌, ◌∷◌, [], length};
ghost use Rattle.std.specs.Int.{w128, to_be_bytes};
ghost use Rattle.aes_cts.specs.Field.{product, sub_byte};
ghost use Rattle.aes_cts.specs.Cipher.{add_bytes, mixed, mix_columns, shift_rows, sub_bytes, cipher_by};
ghost use Rattle.aes_cts.specs.Inverse.{unsub_byte, unmixed, unmix_columns, unshift_rows, unsub_bytes, uncipher_by};
ghost use Rattle.aes_cts.specs.Words.{word_bytes, byte_of, block_of, schedule_bytes, spread};

use crate::blocks::{pack, unpack};
use crate::tables::{DECRYPT, ENCRYPT, INVERSE_SBOX, SBOX};

#[inline(always)]
pub fn sub_byte(byte: u8) -> u8
    ensures { result ≡ sub_byte byte }
{
    SBOX[byte as usize]
}

#[inline(always)]
pub fn unsub_byte(byte: u8) -> u8
    ensures { result ≡ unsub_byte byte }
{
    INVERSE_SBOX[byte as usize]
}

#[inline(always)]
fn encrypt_part(row: usize, byte: u8) -> u32
    requires { row < 4 }
    ensures { let s = sub_byte byte in word_bytes result ≡ spread row (product 2 s) (product 3 s) s s }
{
    ENCRYPT[256 * row + byte as usize]
}

#[inline(always)]
pub fn decrypt_part(row: usize, byte: u8) -> u32
    requires { row < 4 }
    ensures { let s =
        unsub_byte byte in word_bytes result ≡ spread row (product 14 s) (product 11 s) (product 13 s) (product 9 s) }
{
    DECRYPT[256 * row + byte as usize]
}

// The column of a whole round whose rows come from the words a, b, c and d. Summed from the key and the lowest byte
// on, the values of a round fit in the processor's registers, so that none waits for memory.
#[inline(always)]
fn encrypt_column(a: u32, b: u32, c: u32, d: u32, key: u32) -> u32
    ensures { word_bytes result ≡ add_bytes (mixed (sub_byte (byte_of a 0)) (sub_byte (byte_of b 1))
        (sub_byte (byte_of c 2)) (sub_byte (byte_of d 3))) (word_bytes key) }
{
    let [first, _, _, _] = a.to_be_bytes();
    let [_, second, _, _] = b.to_be_bytes();
    let [_, _, third, _] = c.to_be_bytes();
    let [_, _, _, fourth] = d.to_be_bytes();
    key ^ encrypt_part(3, fourth)
        ^ encrypt_part(2, third)
        ^ encrypt_part(1, second)
        ^ encrypt_part(0, first)
}

#[inline(always)]
fn decrypt_column(a: u32, b: u32, c: u32, d: u32, key: u32) -> u32
    ensures { word_bytes result ≡ add_bytes (unmixed (unsub_byte (byte_of a 0)) (unsub_byte (byte_of b 1))
        (unsub_byte (byte_of c 2)) (unsub_byte (byte_of d 3))) (word_bytes key) }
{
    let [first, _, _, _] = a.to_be_bytes();
    let [_, second, _, _] = b.to_be_bytes();
    let [_, _, third, _] = c.to_be_bytes();
    let [_, _, _, fourth] = d.to_be_bytes();
    decrypt_part(0, first)
        ^ decrypt_part(1, second)
        ^ decrypt_part(2, third)
        ^ decrypt_part(3, fourth)
        ^ key
}

// The column of the last round.
#[inline(always)]
fn encrypt_last_column(a: u32, b: u32, c: u32, d: u32, key: u32) -> u32
    ensures { word_bytes result ≡ add_bytes (sub_byte (byte_of a 0) ∷ sub_byte (byte_of b 1) ∷ sub_byte (byte_of c 2)
        ∷ sub_byte (byte_of d 3) ∷ []) (word_bytes key) }
{
    let [first, _, _, _] = a.to_be_bytes();
    let [_, second, _, _] = b.to_be_bytes();
    let [_, _, third, _] = c.to_be_bytes();
    let [_, _, _, fourth] = d.to_be_bytes();
    u32::from_be_bytes([
        sub_byte(first),
        sub_byte(second),
        sub_byte(third),
        sub_byte(fourth),
    ]) ^ key
}

#[inline(always)]
fn decrypt_last_column(a: u32, b: u32, c: u32, d: u32, key: u32) -> u32
    ensures { word_bytes result ≡ add_bytes (unsub_byte (byte_of a 0) ∷ unsub_byte (byte_of b 1)
        ∷ unsub_byte (byte_of c 2) ∷ unsub_byte (byte_of d 3) ∷ []) (word_bytes key) }
{
    let [first, _, _, _] = a.to_be_bytes();
    let [_, second, _, _] = b.to_be_bytes();
    let [_, _, third, _] = c.to_be_bytes();
    let [_, _, _, fourth] = d.to_be_bytes();
    u32::from_be_bytes([
        unsub_byte(first),
        unsub_byte(second),
        unsub_byte(third),
        unsub_byte(fourth),
    ]) ^ key
}

// AddRoundKey (5.1.4).
#[inline(always)]
pub fn add_key(s: [u32; 4], key: [u32; 4]) -> [u32; 4]
    ensures { block_of result ≡ add_bytes (block_of s) (block_of key) }
{
    let [a, b, c, d] = s;
    let [i, j, k, l] = key;
    [a ^ i, b ^ j, c ^ k, d ^ l]
}

#[inline(always)]
fn encrypt_round(s: [u32; 4], key: [u32; 4]) -> [u32; 4]
    ensures { block_of result ≡ add_bytes (mix_columns (shift_rows (sub_bytes (block_of s)))) (block_of key) }
{
    let [a, b, c, d] = s;
    let [i, j, k, l] = key;
    [
        encrypt_column(a, b, c, d, i),
        encrypt_column(b, c, d, a, j),
        encrypt_column(c, d, a, b, k),
        encrypt_column(d, a, b, c, l),
    ]
}

#[inline(always)]
fn encrypt_last_round(s: [u32; 4], key: [u32; 4]) -> [u32; 4]
    ensures { block_of result ≡ add_bytes (shift_rows (sub_bytes (block_of s))) (block_of key) }
{
    let [a, b, c, d] = s;
    let [i, j, k, l] = key;
    [
        encrypt_last_column(a, b, c, d, i),
        encrypt_last_column(b, c, d, a, j),
        encrypt_last_column(c, d, a, b, k),
        encrypt_last_column(d, a, b, c, l),
    ]
}

#[inline(always)]
fn decrypt_round(s: [u32; 4], key: [u32; 4]) -> [u32; 4]
    ensures { block_of result ≡ add_bytes (unmix_columns (unshift_rows (unsub_bytes (block_of s)))) (block_of key) }
{
    let [a, b, c, d] = s;
    let [i, j, k, l] = key;
    [
        decrypt_column(a, d, c, b, i),
        decrypt_column(b, a, d, c, j),
        decrypt_column(c, b, a, d, k),
        decrypt_column(d, c, b, a, l),
    ]
}

#[inline(always)]
fn decrypt_last_round(s: [u32; 4], key: [u32; 4]) -> [u32; 4]
    ensures { block_of result ≡ add_bytes (unshift_rows (unsub_bytes (block_of s))) (block_of key) }
{
    let [a, b, c, d] = s;
    let [i, j, k, l] = key;
    [
        decrypt_last_column(a, d, c, b, i),
        decrypt_last_column(b, a, d, c, j),
        decrypt_last_column(c, b, a, d, k),
        decrypt_last_column(d, c, b, a, l),
    ]
}

/// Encrypts a state by N round keys, so in N - 1 rounds.
#[inline(always)]
pub fn encrypt<const N: usize>(keys: &[[u32; 4]; N], s: [u32; 4]) -> [u32; 4]
    requires { 2 ≤ N }
    ensures { block_of result ≡ cipher_by (schedule_bytes keys.now) (N - 1) (block_of s) }
{
    unpack(encrypt_packed(keys, pack(s)))
}

// `encrypt` on states that are numbers: a number is passed in registers, where an array goes through memory from
// each block of a chain to the next.
#[inline(never)]
fn encrypt_packed<const N: usize>(keys: &[[u32; 4]; N], block: u128) -> u128
    requires { 2 ≤ N }
    ensures { to_be_bytes w128 result ≡ cipher_by (schedule_bytes keys.now) (N - 1) (to_be_bytes w128 block) }
{
    let mut state = add_key(unpack(block), keys[0]);
    for r in 1..N - 1 {
        let next = encrypt_round(state, keys[r]);
        state = next;
    }
    pack(encrypt_last_round(state, keys[N - 1]))
}

/// Decrypts a state by the N round keys of the equivalent inverse cipher.
#[inline(never)]
pub fn decrypt<const N: usize>(keys: &[[u32; 4]; N], s: [u32; 4]) -> [u32; 4]
    requires { 2 ≤ N }
    ensures { block_of result ≡ uncipher_by (schedule_bytes keys.now) (N - 1) (block_of s) }
{
    let mut state = add_key(s, keys[0]);
    for index in 1..N - 1 {
        let next = decrypt_round(state, keys[index]);
        state = next;
    }
    decrypt_last_round(state, keys[N - 1])
}
