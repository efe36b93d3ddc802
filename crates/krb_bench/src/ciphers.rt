// The speed of ciphertext stealing and of key expansion, at both key sizes.

ghost use Rattle.std.specs.Prelude.{◌≤◌};

use crate::timing::{print_speed, print_time, seconds_since};
use aes_cts::{Key128, Key256};
use std::io;
use std::time::CpuClock;

/// A key that encrypts and decrypts texts of 16 bytes and more.
trait TextCipher {
    fn encrypt(&self, text: &mut [u8]);

    fn decrypt(&self, text: &mut [u8]);
}

impl TextCipher for Key128 {
    fn encrypt(&self, text: &mut [u8]) {
        let _ = self.cts_encrypt(text);
    }

    fn decrypt(&self, text: &mut [u8]) {
        let _ = self.cts_decrypt(text);
    }
}

impl TextCipher for Key256 {
    fn encrypt(&self, text: &mut [u8]) {
        let _ = self.cts_encrypt(text);
    }

    fn decrypt(&self, text: &mut [u8]) {
        let _ = self.cts_decrypt(text);
    }
}

fn encrypt_again<C: TextCipher>(cipher: &C, text: &mut [u8], turns: u32) {
    for _ in 0..turns {
        cipher.encrypt(text);
    }
}

fn decrypt_again<C: TextCipher>(cipher: &C, text: &mut [u8], turns: u32) {
    for _ in 0..turns {
        cipher.decrypt(text);
    }
}

/// Prints the speed in both directions over texts of `length` bytes.
fn report_length<R: CpuClock + Print, C: TextCipher>(
    rt: &R,
    cipher: &C,
    length: u32,
    turns: u32,
) -> io::Result<()>
    requires { length ≤ 16384 }
{
    let mut text = [0u8; 16384];
    let start = rt.process_cpu_time()?;
    encrypt_again(cipher, &mut text[..length as usize], turns);
    let encrypting = seconds_since(rt, start)?;
    let start = rt.process_cpu_time()?;
    decrypt_again(cipher, &mut text[..length as usize], turns);
    let decrypting = seconds_since(rt, start)?;
    print_speed(rt, "  encrypt", length, turns, encrypting)?;
    print_speed(rt, "  decrypt", length, turns, decrypting)
}

/// Prints the speed of one cipher over long texts and short ones.
fn report_texts<R: CpuClock + Print, C: TextCipher>(
    rt: &R,
    name: &str,
    cipher: &C,
) -> io::Result<()> {
    println!(rt; "{name}")?;
    report_length(rt, cipher, 16384, 16000)?;
    report_length(rt, cipher, 64, 3_000_000)
}

// Expands keys, each of a block that the key before it encrypted.
fn expand_128_again(turns: u32) -> [u8; 16] {
    let mut block = [1; 16];
    for _ in 0..turns {
        let key = Key128::new(&block);
        key.encrypt_block(&mut block);
    }
    block
}

fn expand_256_again(turns: u32) -> [u8; 16] {
    let mut bytes = [1; 32];
    let mut block = [1; 16];
    for _ in 0..turns {
        let key = Key256::new(&bytes);
        key.encrypt_block(&mut block);
        bytes[0] = block[0];
    }
    block
}

/// Prints the time of a key's expansion for both directions, with one block encrypted.
fn report_keys<R: CpuClock + Print>(rt: &R) -> io::Result<()> {
    let turns = 500_000;
    let start = rt.process_cpu_time()?;
    let [short, ..] = expand_128_again(turns);
    let took = seconds_since(rt, start)?;
    print_time(rt, "aes-128 key and block", turns, took)?;
    let start = rt.process_cpu_time()?;
    let [long, ..] = expand_256_again(turns);
    let took = seconds_since(rt, start)?;
    print_time(rt, "aes-256 key and block", turns, took)?;
    println!(rt; "  the last blocks begin {short:02x} and {long:02x}")
}

/// Prints all figures of the ciphers.
pub fn report<R: CpuClock + Print>(rt: &R) -> io::Result<()> {
    report_texts(rt, "aes-128-cts", &Key128::new(&[1; 16]))?;
    report_texts(rt, "aes-256-cts", &Key256::new(&[1; 32]))?;
    report_keys(rt)
}
