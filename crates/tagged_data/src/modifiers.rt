ghost use Rattle.std.specs.Prelude.{◌≡◌, ◌++◌, ◌<◌, ℕ, List, Some, IfSome, OnOk, length};
ghost use Rattle.std.specs.Prelude.{nat_eq, option_map, option_and_then, position};
ghost use Rattle.kdb_format.specs.Answers.{ReadsAs};
ghost use Rattle.kdb_format.specs.Readings.{whole};
ghost use Rattle.tagged_data.specs.Lists.{content};
ghost use Rattle.tagged_data.specs.Modifiers.{ended, ended_at, modifier_at, modifier_text, IsModifier};

use crate::kinds::MODIFIER;
use crate::lists::{TagList, content};
use kdb_base::MemoryOut;
use kdb_format::writing::{push_bytes, push_u32_le};
use kdb_format::{Malformed, Reader};

// Where the first zero byte is.
fn first_zero(bytes: &[u8]) -> Option<usize>
    ensures value { result ≡ position (λ b. nat_eq b 0) bytes.now }
    ensures within { IfSome result (λ i. i < length bytes.now) }
{
    bytes.iter().position(|byte| *byte == 0)
}

/// The bytes before the next zero byte, which is read too. No byte is read where there is none.
pub fn read_ended<'a>(reader: &mut Reader<'a>) -> Result<&'a [u8], Malformed>
    ensures { ReadsAs (λ text. text.now) result reader.new (ended_at reader.old) }
{
    let rest = reader.rest();
    match first_zero(rest) {
        Some(end) => {
            *reader = Reader::new(&rest[end + 1..]);
            Ok(&rest[..end])
        }
        None => Err(Malformed),
    }
}

#[tactic(auto, unfolding(kdb_format::specs::Readings::whole, crate::specs::Modifiers::modifier_at))]
fn read_modifier(bytes: &[u8]) -> Option<(u32, &[u8])>
    ensures { option_map (λ x. (x.0, x.1.now)) result ≡ whole modifier_at bytes.now }
{
    let mut reader = Reader::new(bytes);
    let secs = match reader.u32_le() {
        Ok(secs) => secs,
        Err(_) => return None,
    };
    match read_ended(&mut reader) {
        Ok(name) if reader.is_empty() => Some((secs, name)),
        _ => None,
    }
}

/// When the record was changed last, in seconds since 1970, and the name of who did it: any bytes but
/// zeros. Whether they are a printed name is for the reader of the record to judge.
/// None where there is no such item, or its content is not of this form.
pub fn modifier(list: &TagList) -> Option<(u32, &[u8])>
    ensures found { IfSome result
        (λ x. content MODIFIER list.now ≡ Some (modifier_text (x.0, x.1.now)) × IsModifier (x.0, x.1.now)) }
    ensures only { (m : ℕ × List ℕ) → IsModifier m → content MODIFIER list.now ≡ Some (modifier_text m)
        → option_map (λ x. (x.0, x.1.now)) result ≡ Some m }
    ensures exact { option_map (λ x. (x.0, x.1.now)) result
        ≡ option_and_then (whole modifier_at) (content MODIFIER list.now) }
{
    match content(list, MODIFIER) {
        Some(bytes) => read_modifier(bytes),
        None => None,
    }
}

/// Appends the content that says so.
#[tactic(auto, unfolding(crate::specs::Modifiers::modifier_text))]
pub fn push_modifier(out: &mut Vec<u8>, secs: u32, name: &[u8]) -> Result<(), MemoryOut>
    ensures { OnOk result (out.new.items ≡ out.old.items ++ modifier_text (secs, name.now)) }
{
    push_u32_le(out, secs)?;
    push_ended(out, name)?;
    Ok(())
}

/// Appends the text and a zero byte.
#[tactic(auto, unfolding(crate::specs::Modifiers::ended))]
pub fn push_ended(out: &mut Vec<u8>, text: &[u8]) -> Result<(), MemoryOut>
    ensures { OnOk result (out.new.items ≡ out.old.items ++ ended text.now) }
{
    push_bytes(out, text)?;
    push_bytes(out, &[0])?;
    Ok(())
}
