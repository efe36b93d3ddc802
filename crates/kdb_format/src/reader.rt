ghost use Rattle.std.specs.Prelude.{◌≡◌, ◌↔◌, [], IsTrue, length, nat_eq, IfOk, OnErr};
ghost use Rattle.std.specs.List.{list_all};
ghost use Rattle.kdb_format.specs.Answers.{Reads, ReadsAs};
ghost use Rattle.kdb_format.specs.Fields.{IsBytes};
ghost use Rattle.kdb_format.specs.Zeros.{still_zero, all_zero};
ghost use Rattle.kdb_format.specs.Readings.{big_at, little_at, bytes_at, counted_at, literal_at, zeros_at};

use crate::faults::Malformed;
use byteorder::{BigEndian, ByteOrder, LittleEndian};
use std::marker::Model;

/// Bytes that are read from left to right, seen as the bytes that are left. No call takes memory.
#[derive(Debug, Drop)]
pub struct Reader<'a> {
    left: &'a [u8],
}

impl<'a> Model for Reader<'a> {
    ghost use Rattle.std.specs.Prelude.{List, ℕ};

    ghost Value = { List ℕ };

    ghost view = { λ r. r.left.now };

    ghost use Rattle.kdb_format.specs.Fields.{IsBytes};

    ghost invariant = { λ r. IsBytes r.left.now };
}

impl<'a> Reader<'a> {
    /// Reads these bytes.
    pub fn new(bytes: &'a [u8]) -> Reader<'a>
        ensures { result ≡ bytes.now }
    {
        Reader { left: bytes }
    }

    /// The number of bytes that are left.
    pub fn len(&self) -> usize
        ensures { result ≡ length self.now }
    {
        self.left.len()
    }

    /// Whether no bytes are left.
    pub fn is_empty(&self) -> bool
        ensures { IsTrue result ↔ (self.now ≡ []) }
    {
        self.left.is_empty()
    }

    /// The bytes that are left.
    pub fn rest(&self) -> &'a [u8]
        ensures { result.now ≡ self.now }
    {
        self.left
    }

    /// Tells a proof that each number that is left is below 256, and does nothing.
    pub fn holds_bytes(&self)
        ensures { IsBytes self.now }
    {
        let _ = &self.left;
    }

    /// The next n bytes.
    #[tactic(auto, unfolding(crate::specs::Readings::bytes_at))]
    pub fn bytes(&mut self, n: usize) -> Result<&'a [u8], Malformed>
        ensures read { ReadsAs (λ x. x.now) result self.new (bytes_at n self.old) }
        ensures len { IfOk result (λ x. length x.now ≡ n) }
        ensures err { OnErr result (self.new ≡ self.old) }
    {
        if self.left.len() < n {
            return Err(Malformed);
        }
        let (front, rest) = self.left.split_at(n);
        self.left = rest;
        Ok(front)
    }

    /// A number in one byte.
    #[tactic(auto, unfolding(crate::specs::Readings::big_at))]
    pub fn u8(&mut self) -> Result<u8, Malformed>
        ensures read { Reads result self.new (big_at 1 self.old) }
        ensures err { OnErr result (self.new ≡ self.old) }
    {
        let bytes = self.bytes(1)?;
        Ok(bytes[0])
    }

    /// A number in two bytes, the highest first.
    #[tactic(auto, unfolding(crate::specs::Readings::big_at))]
    pub fn u16(&mut self) -> Result<u16, Malformed>
        ensures read { Reads result self.new (big_at 2 self.old) }
        ensures err { OnErr result (self.new ≡ self.old) }
    {
        let bytes = self.bytes(2)?;
        Ok(BigEndian::read_u16(bytes))
    }

    /// A number in four bytes, the highest first.
    #[tactic(auto, unfolding(crate::specs::Readings::big_at))]
    pub fn u32(&mut self) -> Result<u32, Malformed>
        ensures read { Reads result self.new (big_at 4 self.old) }
        ensures err { OnErr result (self.new ≡ self.old) }
    {
        let bytes = self.bytes(4)?;
        Ok(BigEndian::read_u32(bytes))
    }

    /// A number in eight bytes, the highest first.
    #[tactic(auto, unfolding(crate::specs::Readings::big_at))]
    pub fn u64(&mut self) -> Result<u64, Malformed>
        ensures read { Reads result self.new (big_at 8 self.old) }
        ensures err { OnErr result (self.new ≡ self.old) }
    {
        let bytes = self.bytes(8)?;
        Ok(BigEndian::read_u64(bytes))
    }

    /// A number in two bytes, the lowest first.
    #[tactic(auto, unfolding(crate::specs::Readings::little_at))]
    pub fn u16_le(&mut self) -> Result<u16, Malformed>
        ensures read { Reads result self.new (little_at 2 self.old) }
        ensures err { OnErr result (self.new ≡ self.old) }
    {
        let bytes = self.bytes(2)?;
        Ok(LittleEndian::read_u16(bytes))
    }

    /// A number in four bytes, the lowest first.
    #[tactic(auto, unfolding(crate::specs::Readings::little_at))]
    pub fn u32_le(&mut self) -> Result<u32, Malformed>
        ensures read { Reads result self.new (little_at 4 self.old) }
        ensures err { OnErr result (self.new ≡ self.old) }
    {
        let bytes = self.bytes(4)?;
        Ok(LittleEndian::read_u32(bytes))
    }

    /// Two bytes of length, and that many bytes. At an `Err` the length may have been read.
    #[tactic(auto, unfolding(crate::specs::Readings::counted_at))]
    pub fn counted(&mut self) -> Result<&'a [u8], Malformed>
        ensures { ReadsAs (λ x. x.now) result self.new (counted_at self.old) }
    {
        let len = self.u16()?;
        self.bytes(usize::from(len))
    }

    /// This text, and no other bytes in its place.
    #[tactic(auto, unfolding(crate::specs::Readings::literal_at))]
    pub fn literal(&mut self, text: &[u8]) -> Result<(), Malformed>
        ensures read { ReadsAs (λ _. tt) result self.new (literal_at text.now self.old) }
        ensures err { OnErr result (self.new ≡ self.old) }
    {
        match self.left.strip_prefix(text) {
            Some(rest) => {
                self.left = rest;
                Ok(())
            }
            None => Err(Malformed),
        }
    }

    /// n zero bytes. At an `Err` n bytes may have been read.
    #[tactic(auto, unfolding(crate::specs::Readings::zeros_at))]
    pub fn zeros(&mut self, n: usize) -> Result<(), Malformed>
        ensures { ReadsAs (λ _. tt) result self.new (zeros_at n self.old) }
    {
        let bytes = self.bytes(n)?;
        if !is_zero(bytes) {
            return Err(Malformed);
        }
        Ok(())
    }
}

// Whether all bytes are zero with this one, where it is known whether those before it are.
fn still_zero(zero: bool, byte: u8) -> bool
    ensures { result ≡ still_zero zero byte }
{
    zero & (byte == 0)
}

// Whether all bytes are zero: the fold of the above.
#[tactic(auto, unfolding(crate::specs::Zeros::all_zero))]
fn fold_zeros(bytes: &[u8]) -> bool
    ensures { result ≡ all_zero bytes.now }
{
    bytes
        .iter()
        .fold(true, |zero, byte| still_zero(zero, *byte))
}

/// Whether each byte is zero. It looks at all of them, so that many are compared together.
#[tactic(auto, using(crate::proofs::Zeros::zeros_are_all))]
pub fn is_zero(bytes: &[u8]) -> bool
    ensures { result ≡ list_all (λ b. nat_eq b 0) bytes.now }
{
    fold_zeros(bytes)
}
