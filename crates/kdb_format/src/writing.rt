//! Writers: each appends the spelling of its value, and at an `Err` has changed nothing.

ghost use Rattle.std.specs.Prelude.{◌≡◌, ◌++◌, ◌<◌, ◌^◌, length, OnErr, OnOk};
ghost use Rattle.kdb_format.specs.Spellings.{big, little, counted, zeros};

use kdb_base::MemoryOut;

/// Appends the bytes.
pub fn push_bytes(out: &mut Vec<u8>, bytes: &[u8]) -> Result<(), MemoryOut>
    ensures ok { OnOk result (out.new.items ≡ out.old.items ++ bytes.now) }
    ensures err { OnErr result (out.new.items ≡ out.old.items) }
{
    out.extend_from_slice(bytes)?;
    Ok(())
}

/// Appends a number in one byte.
#[tactic(auto, unfolding(crate::specs::Spellings::big))]
pub fn push_u8(out: &mut Vec<u8>, n: u8) -> Result<(), MemoryOut>
    ensures ok { OnOk result (out.new.items ≡ out.old.items ++ big 1 n) }
    ensures err { OnErr result (out.new.items ≡ out.old.items) }
{
    push_bytes(out, &n.to_be_bytes())
}

/// Appends a number in two bytes, the highest first.
#[tactic(auto, unfolding(crate::specs::Spellings::big))]
pub fn push_u16(out: &mut Vec<u8>, n: u16) -> Result<(), MemoryOut>
    ensures ok { OnOk result (out.new.items ≡ out.old.items ++ big 2 n) }
    ensures err { OnErr result (out.new.items ≡ out.old.items) }
{
    push_bytes(out, &n.to_be_bytes())
}

/// Appends a number in four bytes, the highest first.
#[tactic(auto, unfolding(crate::specs::Spellings::big))]
pub fn push_u32(out: &mut Vec<u8>, n: u32) -> Result<(), MemoryOut>
    ensures ok { OnOk result (out.new.items ≡ out.old.items ++ big 4 n) }
    ensures err { OnErr result (out.new.items ≡ out.old.items) }
{
    push_bytes(out, &n.to_be_bytes())
}

/// Appends a number in eight bytes, the highest first.
#[tactic(auto, unfolding(crate::specs::Spellings::big))]
pub fn push_u64(out: &mut Vec<u8>, n: u64) -> Result<(), MemoryOut>
    ensures ok { OnOk result (out.new.items ≡ out.old.items ++ big 8 n) }
    ensures err { OnErr result (out.new.items ≡ out.old.items) }
{
    push_bytes(out, &n.to_be_bytes())
}

/// Appends a number in two bytes, the lowest first.
#[tactic(auto, unfolding(crate::specs::Spellings::little))]
pub fn push_u16_le(out: &mut Vec<u8>, n: u16) -> Result<(), MemoryOut>
    ensures ok { OnOk result (out.new.items ≡ out.old.items ++ little 2 n) }
    ensures err { OnErr result (out.new.items ≡ out.old.items) }
{
    push_bytes(out, &n.to_le_bytes())
}

/// Appends a number in four bytes, the lowest first.
#[tactic(auto, unfolding(crate::specs::Spellings::little))]
pub fn push_u32_le(out: &mut Vec<u8>, n: u32) -> Result<(), MemoryOut>
    ensures ok { OnOk result (out.new.items ≡ out.old.items ++ little 4 n) }
    ensures err { OnErr result (out.new.items ≡ out.old.items) }
{
    push_bytes(out, &n.to_le_bytes())
}

/// Appends the length of the bytes in two bytes, and the bytes.
#[tactic(auto, unfolding(crate::specs::Spellings::counted))]
pub fn push_counted(out: &mut Vec<u8>, bytes: &[u8]) -> Result<(), MemoryOut>
    requires { length bytes.now < 2 ^ 16 }
    ensures { OnOk result (out.new.items ≡ out.old.items ++ counted bytes.now) }
{
    push_u16(out, bytes.len() as u16)?;
    push_bytes(out, bytes)?;
    Ok(())
}

/// Appends n zero bytes.
#[tactic(auto, unfolding(crate::specs::Spellings::zeros))]
pub fn push_zeros(out: &mut Vec<u8>, n: usize) -> Result<(), MemoryOut>
    ensures { OnOk result (out.new.items ≡ out.old.items ++ zeros n) }
{
    for _ in 0..n {
        out.push(0)?;
    }
    Ok(())
}
