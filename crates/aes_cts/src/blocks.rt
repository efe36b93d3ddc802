// Between 16 bytes, a state of four words and a number of 128 bits.

ghost use Rattle.std.specs.Prelude.{◌≡◌, ℕ, ◌+◌, ◌<◌, ◌≤◌, ◌++◌, length, take, drop};
ghost use Rattle.std.specs.Int.{w128, to_be_bytes};
ghost use Rattle.aes_cts.specs.Words.{word_bytes, block_of};

#[inline(always)]
fn load_word(bytes: &[u8]) -> u32
    requires { length bytes.now ≡ 4 }
    ensures { word_bytes result ≡ bytes.now }
{
    u32::from_be_bytes([bytes[0], bytes[1], bytes[2], bytes[3]])
}

/// The state of a block.
#[inline(always)]
pub fn load(block: &[u8]) -> [u32; 4]
    requires { length block.now ≡ 16 }
    ensures { block_of result ≡ block.now }
{
    [
        load_word(&block[0..4]),
        load_word(&block[4..8]),
        load_word(&block[8..12]),
        load_word(&block[12..16]),
    ]
}

#[inline(always)]
fn store_word(bytes: &mut [u8], word: u32)
    requires { length bytes.old ≡ 4 }
    ensures { bytes.new ≡ word_bytes word }
{
    bytes.copy_from_slice(&word.to_be_bytes());
}

/// Writes a state over a block.
#[inline(always)]
pub fn store(block: &mut [u8], s: [u32; 4])
    requires { length block.old ≡ 16 }
    ensures { block.new ≡ block_of s }
{
    let [a, b, c, d] = s;
    store_word(&mut block[0..4], a);
    store_word(&mut block[4..8], b);
    store_word(&mut block[8..12], c);
    store_word(&mut block[12..16], d);
}

/// The number whose bytes, the highest first, are the block of a state.
#[inline(always)]
pub fn pack(s: [u32; 4]) -> u128
    ensures { to_be_bytes w128 result ≡ block_of s }
{
    let [a, b, c, d] = s;
    let high = (u64::from(a) << 32) | u64::from(b);
    let low = (u64::from(c) << 32) | u64::from(d);
    (u128::from(high) << 64) | u128::from(low)
}

/// The state that `pack` made a number of.
#[inline(always)]
pub fn unpack(block: u128) -> [u32; 4]
    ensures { block_of result ≡ to_be_bytes w128 block }
{
    [
        (block >> 96) as u32,
        ((block >> 64) % 0x1_0000_0000) as u32,
        ((block >> 32) % 0x1_0000_0000) as u32,
        (block % 0x1_0000_0000) as u32,
    ]
}
