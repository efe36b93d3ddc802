//! n-fold (RFC 3961, section 5.1): the pieces are added byte by byte, and what is carried out of a piece's first byte
//! is added to the last byte of the next sum.

ghost use Rattle.std.specs.Prelude.{◌≡◌, ◌+◌, ◌*◌, ◌/◌, ◌^◌, ◌≤◌, ◌<◌, length, take};
ghost use Rattle.krb_profile.specs.NFold.{n_folded, copied_bit, cyclic_bit, number_of, least_common_multiple};
ghost use Rattle.krb_profile.specs.Bytes.{number};

/// Fills `into` with the n-fold of the text (RFC 3961, section 5.1).
pub fn n_fold(text: &[u8], into: &mut [u8])
    requires text_given { 1 ≤ length text.now }
    requires text_short { length text.now ≤ 64 }
    requires into_given { 1 ≤ length into.old }
    requires into_short { length into.old ≤ 64 }
    ensures { into.new ≡ n_folded text.now (length into.old) }
{
    let len = into.len();
    into.fill(0);
    let mut carry = 0;
    for i in 0..piece_count(text.len(), len) {
        let piece = piece_at(text, i * len, len);
        carry = add(into, &piece[..len], carry);
    }
    let zeros = [0; 64];
    add(into, &zeros[..len], carry);
}

/// How many pieces of `len` bytes the least common multiple of both lengths has.
fn piece_count(text_len: usize, len: usize) -> usize
    requires text_given { 1 ≤ text_len }
    requires text_short { text_len ≤ 64 }
    requires given { 1 ≤ len }
    requires short { len ≤ 64 }
    ensures count { result ≡ least_common_multiple text_len len / len }
    ensures short { result ≤ text_len }
{
    let mut count = 1;
    while count * len % text_len != 0 {
        count += 1;
    }
    count
}

/// The bytes from `start` on of the copies of the text, `len` of them, followed by zeros.
fn piece_at(text: &[u8], start: usize, len: usize) -> [u8; 64]
    requires text_given { 1 ≤ length text.now }
    requires text_short { length text.now ≤ 64 }
    requires near { start ≤ 4096 }
    requires short { len ≤ 64 }
    ensures { number (take len result) ≡ number_of (copied_bit text.now) (8 * start) (8 * len) }
{
    let mut piece = [0; 64];
    for i in 0..len {
        piece[i] = copied_byte(text, start + i);
    }
    piece
}

/// A byte of the copies of the text.
fn copied_byte(text: &[u8], place: usize) -> u8
    requires given { 1 ≤ length text.now }
    requires short { length text.now ≤ 64 }
    requires near { place ≤ 8192 }
    ensures { result ≡ number_of (copied_bit text.now) (8 * place) 8 }
{
    let bits = 8 * text.len();
    byte_from(
        text,
        (8 * place + 13 * (place / text.len()) * (bits - 1)) % bits,
    )
}

/// Eight bits of the text, from a bit on, with the first bit after the last.
fn byte_from(text: &[u8], first: usize) -> u8
    requires short { length text.now ≤ 64 }
    requires within { first < 8 * length text.now }
    ensures { result ≡ number_of (cyclic_bit text.now) first 8 }
{
    let high = text[first / 8];
    let low = text[(first / 8 + 1) % text.len()];
    let pair = u16::from(high) * 256 + u16::from(low);
    ((pair >> (8 - first % 8)) % 256) as u8
}

/// Adds `addend` and the carry to `sum`, as numbers whose highest byte comes first. The answer is what is carried
/// out of the first byte.
fn add(sum: &mut [u8], addend: &[u8], carried: u16) -> u16
    requires same_length { length addend.now ≡ length sum.old }
    requires carried { carried ≤ 1 }
    ensures total { number sum.new + 2 ^ (8 * length sum.old) * result ≡ number sum.old + number addend.now + carried }
    ensures carried { result ≤ 1 }
{
    let mut carry = carried;
    for i in (0..sum.len()).rev() {
        let total = u16::from(sum[i]) + u16::from(addend[i]) + carry;
        sum[i] = (total % 256) as u8;
        carry = total / 256;
    }
    carry
}
