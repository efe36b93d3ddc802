//! Pieces of replies, written behind what stands in a buffer. Only want of memory can refuse them.

ghost use Rattle.std.specs.Prelude.{◌≡◌, ◌++◌, IfOk, OnOk};
ghost use Rattle.std.specs.Fmt.{decimal};
ghost use Rattle.kadm_replies.specs.Texts.{data_line, done_text, etype_text, field_line, time_text};

use kadm_values::points::push_point;
use kadm_values::times::print_time;
use kdb_base::{Blob, Etype, MemoryOut, Point};
use std::alloc::Global;

/// A text as it is.
pub fn push(out: &mut Vec<u8>, text: &[u8]) -> Result<(), MemoryOut>
    ensures { OnOk result (out.new.items ≡ out.old.items ++ text.now) }
{
    out.extend_from_slice(text)?;
    Ok(())
}

/// The text of a time in seconds since 1970, of which 0 is never.
#[tactic(auto, unfolding(crate::specs::Texts::time_text))]
pub fn time_text(alloc: Global, secs: u32) -> Result<Blob, MemoryOut>
    ensures { IfOk result (λ text. text ≡ time_text secs) }
{
    if secs == 0 {
        return Blob::from_bytes(alloc, b"never");
    }
    let text = print_time(secs);
    Blob::from_bytes(alloc, text.as_slice())
}

/// The long word of an encryption type.
#[tactic(auto, unfolding(crate::specs::Texts::etype_text))]
pub fn etype_text(etype: Etype) -> &'static str
    ensures { result.now ≡ etype_text etype }
{
    match etype {
        Etype::Aes128 => "aes128-cts-hmac-sha1-96",
        Etype::Aes256 => "aes256-cts-hmac-sha1-96",
        Etype::Aes128Sha2 => "aes128-cts-hmac-sha256-128",
        Etype::Aes256Sha2 => "aes256-cts-hmac-sha384-192",
    }
}

/// A line of data.
#[tactic(auto, unfolding(crate::specs::Texts::data_line))]
pub fn push_line(out: &mut Vec<u8>, text: &[u8]) -> Result<(), MemoryOut>
    ensures { OnOk result (out.new.items ≡ out.old.items ++ data_line text.now) }
{
    push(out, b"- ")?;
    push(out, text)?;
    push(out, b"\n")?;
    Ok(())
}

/// A line of data that begins with a word.
#[tactic(auto, unfolding(crate::specs::Texts::data_line, crate::specs::Texts::field_line))]
pub fn push_field(out: &mut Vec<u8>, word: &[u8], text: &[u8]) -> Result<(), MemoryOut>
    ensures { OnOk result (out.new.items ≡ out.old.items ++ field_line word.now text.now) }
{
    push(out, b"- ")?;
    push(out, word)?;
    push(out, b" ")?;
    push(out, text)?;
    push(out, b"\n")?;
    Ok(())
}

/// A line of a word and a number.
pub fn push_number(
    alloc: Global,
    out: &mut Vec<u8>,
    word: &[u8],
    number: u32,
) -> Result<(), MemoryOut>
    ensures { OnOk result (out.new.items ≡ out.old.items ++ field_line word.now (decimal number)) }
{
    let text = format!(in alloc; "{number}")?;
    push_field(out, word, text.as_bytes())?;
    Ok(())
}

/// A line of a word and a time in seconds since 1970.
pub fn push_time(alloc: Global, out: &mut Vec<u8>, word: &[u8], secs: u32) -> Result<(), MemoryOut>
    ensures { OnOk result (out.new.items ≡ out.old.items ++ field_line word.now (time_text secs)) }
{
    let text = time_text(alloc, secs)?;
    push_field(out, word, text.as_slice())?;
    Ok(())
}

/// The last line of an accepted change.
#[tactic(auto, unfolding(crate::specs::Texts::done_text))]
pub fn push_done(alloc: Global, out: &mut Vec<u8>, point: &Point) -> Result<(), MemoryOut>
    ensures { OnOk result (out.new.items ≡ out.old.items ++ done_text point.now) }
{
    push(out, b"ok ")?;
    push_point(alloc, out, point)?;
    push(out, b"\n")?;
    Ok(())
}
