//! The contents that are one number, the lowest byte first.

ghost use Rattle.std.specs.Prelude.{◌≡◌, ◌<◌, ◌^◌, ℕ, Some, IfSome, option_and_then};
ghost use Rattle.kdb_format.specs.Answers.{Reads};
ghost use Rattle.kdb_format.specs.Readings.{little_at, whole};
ghost use Rattle.kdb_format.specs.Spellings.{little};
ghost use Rattle.tagged_data.specs.Lists.{content};
ghost use Rattle.tagged_data.specs.Numbers.{version_at, IsVersion};

use crate::kinds::{MKVNO, PW_CHANGE};
use crate::lists::{TagList, content};
use kdb_format::{Malformed, Reader};

#[tactic(auto, unfolding(kdb_format::specs::Readings::whole))]
fn read_secs(bytes: &[u8]) -> Option<u32>
    ensures { result ≡ whole (little_at 4) bytes.now }
{
    let mut reader = Reader::new(bytes);
    match reader.u32_le() {
        Ok(secs) if reader.is_empty() => Some(secs),
        _ => None,
    }
}

/// When the password was changed last, in seconds since 1970. None where there is no such item, or
/// its content is no number of four bytes.
pub fn pw_change(list: &TagList) -> Option<u32>
    ensures found { IfSome result (λ secs. content PW_CHANGE list.now ≡ Some (little 4 secs)) }
    ensures only { (secs : ℕ) → secs < 2 ^ 32 → content PW_CHANGE list.now ≡ Some (little 4 secs) → result ≡ Some secs }
    ensures exact { result ≡ option_and_then (whole (little_at 4)) (content PW_CHANGE list.now) }
{
    match content(list, PW_CHANGE) {
        Some(bytes) => read_secs(bytes),
        None => None,
    }
}

/// A version of the master key at the front of the bytes.
#[tactic(auto, unfolding(crate::specs::Numbers::version_at, kdb_format::specs::Readings::checked))]
pub(crate) fn take_version(reader: &mut Reader) -> Result<u16, Malformed>
    ensures { Reads result reader.new (version_at reader.old) }
{
    let version = reader.u16_le()?;
    if version == 0 {
        return Err(Malformed);
    }
    Ok(version)
}

#[tactic(auto, unfolding(kdb_format::specs::Readings::whole))]
fn read_version(bytes: &[u8]) -> Option<u16>
    ensures { result ≡ whole version_at bytes.now }
{
    let mut reader = Reader::new(bytes);
    match take_version(&mut reader) {
        Ok(version) if reader.is_empty() => Some(version),
        _ => None,
    }
}

/// The version of the master key under which the keys are wrapped, not 0. None where there is no
/// such item, or its content is no such number of two bytes.
pub fn mkvno(list: &TagList) -> Option<u16>
    ensures found { IfSome result (λ version. content MKVNO list.now ≡ Some (little 2 version) × IsVersion version) }
    ensures only { (version : ℕ) → IsVersion version → content MKVNO list.now ≡ Some (little 2 version)
        → result ≡ Some version }
    ensures exact { result ≡ option_and_then (whole version_at) (content MKVNO list.now) }
{
    match content(list, MKVNO) {
        Some(bytes) => read_version(bytes),
        None => None,
    }
}
