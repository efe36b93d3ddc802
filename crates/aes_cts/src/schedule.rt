// The key expansion (FIPS 197, 5.2) a round key at a time, and the round keys of decryption.

ghost use Rattle.std.specs.Prelude.{◌≡◌, ℕ, ◌+◌, ◌-◌, ◌*◌, ◌/◌, ◌%◌, ◌<◌, ◌≤◌, ◌∷◌};
ghost use Rattle.std.specs.Prelude.{◌++◌, [], length, take, slice_index, slice_range};
ghost use Rattle.aes_cts.specs.Cipher.{add_bytes, turned, expand, sub_bytes, rot_word, round_constant};
ghost use Rattle.aes_cts.specs.Inverse.{unmix_columns, unmixed};
ghost use Rattle.aes_cts.specs.Words.{word_bytes, byte_of, block_of, schedule_bytes, chained_words, Undoes};

use crate::rounds::{decrypt_part, sub_byte};

// Rcon (5.2) from 1 on.
static ROUND_CONSTANTS: [u32; 10] = [
    0x01000000, 0x02000000, 0x04000000, 0x08000000, 0x10000000, 0x20000000, 0x40000000, 0x80000000,
    0x1b000000, 0x36000000,
];

fn round_constant(index: usize) -> u32
    requires low { 1 ≤ index }
    requires high { index ≤ 10 }
    ensures { word_bytes result ≡ round_constant index }
{
    ROUND_CONSTANTS[index - 1]
}

// SubWord (5.2).
fn sub_word(word: u32) -> u32
    ensures { word_bytes result ≡ sub_bytes (word_bytes word) }
{
    let [a, b, c, d] = word.to_be_bytes();
    u32::from_be_bytes([sub_byte(a), sub_byte(b), sub_byte(c), sub_byte(d)])
}

// SubWord after RotWord (5.2).
fn sub_turned_word(word: u32) -> u32
    ensures { word_bytes result ≡ sub_bytes (rot_word (word_bytes word)) }
{
    let [a, b, c, d] = word.to_be_bytes();
    u32::from_be_bytes([sub_byte(b), sub_byte(c), sub_byte(d), sub_byte(a)])
}

// What the first word of round key `index` takes from the word before it, where the key is `stride` round keys long.
fn turned(last: u32, index: usize, stride: usize) -> u32
    requires some { 1 ≤ stride }
    requires few { stride ≤ 2 }
    requires low { stride ≤ index }
    requires high { index < 11 * stride }
    ensures { word_bytes result ≡ turned (4 * stride) (4 * index) (word_bytes last) }
{
    if index % stride == 0 {
        sub_turned_word(last) ^ round_constant(index / stride)
    } else {
        sub_word(last)
    }
}

// A round key from the one `stride` before it and what its first word takes from the word before.
fn next_key(back: [u32; 4], turned: u32) -> [u32; 4]
    ensures { block_of result ≡ chained_words (block_of back) (word_bytes turned) }
{
    let [i, j, k, l] = back;
    let a = i ^ turned;
    let b = j ^ a;
    let c = k ^ b;
    let d = l ^ c;
    [a, b, c, d]
}

/// The key expansion (FIPS 197, 5.2): fills the round keys from `stride` on, where those before it
/// are the key.
pub fn expand<const N: usize>(keys: &mut [[u32; 4]; N], stride: usize)
    requires some { 1 ≤ stride }
    requires few { stride ≤ 2 }
    requires low { stride ≤ N }
    requires high { N ≤ 11 * stride }
    ensures key { take stride keys.new ≡ take stride keys.old }
    ensures words { schedule_bytes keys.new
        ≡ expand (4 * stride) (schedule_bytes (take stride keys.old)) (4 * (N - stride)) }
{
    for index in stride..N {
        let back = keys[index - stride];
        let [_, _, _, last] = keys[index - 1];
        keys[index] = next_key(back, turned(last, index, stride));
    }
}

// InvMixColumns (5.3.3) on one column, by the look-ups of decryption.
fn unmix_word(word: u32) -> u32
    ensures { word_bytes result ≡ unmixed (byte_of word 0) (byte_of word 1) (byte_of word 2) (byte_of word 3) }
{
    let [a, b, c, d] = word.to_be_bytes();
    decrypt_part(0, sub_byte(a))
        ^ decrypt_part(1, sub_byte(b))
        ^ decrypt_part(2, sub_byte(c))
        ^ decrypt_part(3, sub_byte(d))
}

fn unmix_key(key: [u32; 4]) -> [u32; 4]
    ensures { block_of result ≡ unmix_columns (block_of key) }
{
    let [a, b, c, d] = key;
    [unmix_word(a), unmix_word(b), unmix_word(c), unmix_word(d)]
}

/// The round keys of decryption (5.3.5): those of encryption in reverse, the inner ones unmixed.
pub fn undoing<const N: usize>(keys: &[[u32; 4]; N]) -> [[u32; 4]; N]
    requires { 2 ≤ N }
    ensures { Undoes result keys.now }
{
    let mut undo = [[0; 4]; N];
    undo[0] = keys[N - 1];
    for index in 1..N - 1 {
        undo[index] = unmix_key(keys[N - 1 - index]);
    }
    undo[N - 1] = keys[0];
    undo
}
