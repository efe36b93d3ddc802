//! A key's two states of a hash function, made once and copied for each text.

ghost use Rattle.std.specs.Prelude.{◌≡◌, ℕ, ◌-◌, ◌≤◌, List, ◌++◌, length, replicate, take};
ghost use Rattle.krb_hmac.specs.Hmac.{hmac_by, key_block, masked};
ghost use Rattle.krb_hmac.specs.States.{IsKeyed};

use crate::hashes::BlockHash;
use std::marker::Model;

/// The bytes of the longest block.
const LONGEST_BLOCK: usize = 128;
/// The byte that pads the key of the inner digest.
const INNER_PAD: u8 = 0x36;
/// The byte that pads the key of the outer digest.
const OUTER_PAD: u8 = 0x5c;

/// A key, as the hash function stands after the padded key in the inner digest and in the outer one. Contracts see
/// both.
#[derive(Drop)]
pub struct Keyed<H, const N: usize> {
    inner: H,
    outer: H,
}

impl<H, const N: usize> Model for Keyed<H, N> {
    ghost use Rattle.krb_hmac.specs.States.{States};

    ghost Value = { States H };

    ghost view = { λ k. record { inner = k.inner; outer = k.outer } };
}

impl<H: BlockHash<N>, const N: usize> Keyed<H, N> {
    /// The states of a key of any length.
    pub fn new(key: &[u8]) -> Keyed<H, N>
        ensures { IsKeyed H.holds H.hash H.block result key.now }
    {
        let block = block_of::<H, N>(key);
        Keyed {
            inner: state_after::<H, N>(block, INNER_PAD),
            outer: state_after::<H, N>(block, OUTER_PAD),
        }
    }

    /// HMAC of a text in three pieces.
    pub fn tag(&self, first: &[u8], second: &[u8], third: &[u8]) -> [u8; N]
        ensures { (key : List ℕ) → IsKeyed H.holds H.hash H.block self.now key
            → result ≡ hmac_by H.hash H.block key (first.now ++ (second.now ++ third.now)) }
    {
        let mut inner = self.inner.copied();
        inner.add(first);
        inner.add(second);
        inner.add(third);
        let digest = inner.end();
        let mut outer = self.outer.copied();
        outer.add(&digest);
        outer.end()
    }
}

/// The key as one block, with what follows it: the key is hashed first where it is longer than a block, and followed
/// by zeros.
fn block_of<H: BlockHash<N>, const N: usize>(key: &[u8]) -> [u8; 128]
    ensures { take H.block result ≡ key_block H.hash H.block key.now }
{
    if key.len() > H::block_len() {
        let mut hash = H::begin();
        hash.add(key);
        zero_padded(&hash.end(), H::block_len())
    } else {
        zero_padded(key, H::block_len())
    }
}

/// A text of a block at most, followed by zeros.
fn zero_padded(text: &[u8], len: usize) -> [u8; 128]
    requires fits { length text.now ≤ len }
    requires short { len ≤ 128 }
    ensures { take len result ≡ text.now ++ replicate (len - length text.now) 0 }
{
    let mut block = [0; LONGEST_BLOCK];
    block[..text.len()].copy_from_slice(text);
    block
}

/// The hash function after a block, each byte of which is exclusive-or `mask`.
fn state_after<H: BlockHash<N>, const N: usize>(mut block: [u8; 128], mask: u8) -> H
    ensures { H.holds result (masked mask (take H.block block)) }
{
    let front = &mut block[..H::block_len()];
    mask_all(front, mask);
    let mut state = H::begin();
    state.add(front);
    state
}

fn mask_all(text: &mut [u8], mask: u8)
    ensures { text.new ≡ masked mask text.old }
{
    for byte in text.iter_mut() {
        *byte ^= mask;
    }
}
