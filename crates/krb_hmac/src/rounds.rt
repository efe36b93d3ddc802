//! PBKDF2 (RFC 2898, section 5.2).

ghost use Rattle.std.specs.Prelude.{◌≡◌, ℕ, ◌-◌, ◌≤◌, List, ◌++◌, length, take, drop};
ghost use Rattle.krb_hmac.specs.Hmac.{hmac_by};
ghost use Rattle.krb_hmac.specs.Pbkdf2.{block, pbkdf2_by as derived_key, xor_bytes};
ghost use Rattle.krb_hmac.specs.States.{IsKeyed};

use crate::hashes::BlockHash;
use crate::keyed::Keyed;

/// Fills `into` with the key that PBKDF2 with HMAC over a hash function derives from a password, which is the key
/// here, and a salt in two pieces in `count` rounds (RFC 2898, section 5.2).
pub fn pbkdf2_by<H: BlockHash<N>, const N: usize>(
    keyed: &Keyed<H, N>,
    prefix: &[u8],
    salt: &[u8],
    count: u32,
    into: &mut [u8],
)
    requires counted { 1 ≤ count }
    requires short { length into.old ≤ 64 }
    ensures { (password : List ℕ) → IsKeyed H.holds H.hash H.block keyed.now password
        → into.new ≡ derived_key (hmac_by H.hash H.block) N password (prefix.now ++ salt.now) count (length into.old) }
{
    // It says that a digest has a byte.
    let _block = H::block_len();
    let mut number = 0;
    let mut start = 0;
    while start < into.len() {
        number += 1;
        let block = block_at(keyed, prefix, salt, count, number);
        put_behind(into, start, &block);
        start += N;
    }
}

/// Writes a block over what stands behind `start` bytes, or as much of it as there is room for.
fn put_behind(text: &mut [u8], start: usize, block: &[u8])
    requires { start ≤ length text.old }
    ensures { text.new ≡ take start text.old
        ++ take (length text.old - start) (block.now ++ drop (length block.now) (drop start text.old)) }
{
    let (_, rest) = text.split_at_mut(start);
    let len = block.len().min(rest.len());
    rest[..len].copy_from_slice(&block[..len]);
}

/// One block: the exclusive-or of what each round gives.
fn block_at<H: BlockHash<N>, const N: usize>(
    keyed: &Keyed<H, N>,
    prefix: &[u8],
    salt: &[u8],
    count: u32,
    number: u32,
) -> [u8; N]
    requires { 1 ≤ count }
    ensures { (password : List ℕ) → IsKeyed H.holds H.hash H.block keyed.now password
        → result ≡ block (hmac_by H.hash H.block password) (prefix.now ++ salt.now) count number }
{
    let mut last = keyed.tag(prefix, salt, &number.to_be_bytes());
    let mut sum = last;
    for _ in 1..count {
        last = keyed.tag(&last, &[], &[]);
        xor_into(&mut sum, &last);
    }
    sum
}

fn xor_into<const N: usize>(sum: &mut [u8; N], addend: &[u8; N])
    ensures { sum.new ≡ xor_bytes sum.old addend.now }
{
    for i in 0..N {
        sum[i] ^= addend[i];
    }
}
