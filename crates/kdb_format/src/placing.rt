//! Writers into bytes of a fixed length, as a slot of a file. They cannot fail.

ghost use Rattle.std.specs.Prelude.{◌≡◌, ◌+◌, ◌≤◌, length};
ghost use Rattle.kdb_format.specs.Spellings.{big, little, put};

/// Puts the bytes at a place.
#[tactic(auto, unfolding(crate::specs::Spellings::put))]
pub fn put_bytes(out: &mut [u8], at: usize, bytes: &[u8])
    requires { at + length bytes.now ≤ length out.old }
    ensures { out.new ≡ put at bytes.now out.old }
{
    out[at..at + bytes.len()].copy_from_slice(bytes);
}

/// Puts a number in one byte at a place.
#[tactic(auto, unfolding(crate::specs::Spellings::big))]
pub fn put_u8(out: &mut [u8], at: usize, n: u8)
    requires { at + 1 ≤ length out.old }
    ensures { out.new ≡ put at (big 1 n) out.old }
{
    put_bytes(out, at, &n.to_be_bytes());
}

/// Puts a number in two bytes at a place, the highest first.
#[tactic(auto, unfolding(crate::specs::Spellings::big))]
pub fn put_u16(out: &mut [u8], at: usize, n: u16)
    requires { at + 2 ≤ length out.old }
    ensures { out.new ≡ put at (big 2 n) out.old }
{
    put_bytes(out, at, &n.to_be_bytes());
}

/// Puts a number in four bytes at a place, the highest first.
#[tactic(auto, unfolding(crate::specs::Spellings::big))]
pub fn put_u32(out: &mut [u8], at: usize, n: u32)
    requires { at + 4 ≤ length out.old }
    ensures { out.new ≡ put at (big 4 n) out.old }
{
    put_bytes(out, at, &n.to_be_bytes());
}

/// Puts a number in eight bytes at a place, the highest first.
#[tactic(auto, unfolding(crate::specs::Spellings::big))]
pub fn put_u64(out: &mut [u8], at: usize, n: u64)
    requires { at + 8 ≤ length out.old }
    ensures { out.new ≡ put at (big 8 n) out.old }
{
    put_bytes(out, at, &n.to_be_bytes());
}
