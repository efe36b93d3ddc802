//! The lines of names, string attributes and extracted keys, and those of a policy.

ghost use Rattle.std.specs.Prelude.{◌≡◌, ◌++◌, IfOk, OnOk, string_bytes};
ghost use Rattle.hex.specs.Hex.{encode_lower};
ghost use Rattle.kadm_replies.specs.Lists.{extract_line, extracts_text, letters_text};
ghost use Rattle.kadm_replies.specs.Lists.{names_text, rules_text, strings_text};

use crate::texts::{etype_text, push_field, push_line, push_number};
use kdb_base::{Blob, Extract, MemoryOut};
use policy_rules::Policy;
use std::alloc::Global;
use tagged_data::StringAttribute;

/// A line for each name.
#[tactic(auto, unfolding(crate::specs::Lists::names_text))]
pub fn push_names(out: &mut Vec<u8>, names: &[Blob]) -> Result<(), MemoryOut>
    ensures { OnOk result (out.new.items ≡ out.old.items ++ names_text names.now) }
{
    for name in names {
        push_line(out, name.as_slice())?;
    }
    Ok(())
}

#[tactic(auto, unfolding(crate::specs::Lists::strings_text))]
pub(crate) fn push_strings(
    out: &mut Vec<u8>,
    attributes: &[StringAttribute],
) -> Result<(), MemoryOut>
    ensures { OnOk result (out.new.items ≡ out.old.items ++ strings_text attributes.now) }
{
    for attribute in attributes {
        push_field(out, attribute.key.as_slice(), attribute.value.as_slice())?;
    }
    Ok(())
}

fn key_text(alloc: Global, bytes: &[u8]) -> Result<String, MemoryOut>
    ensures { IfOk result (λ text. string_bytes text ≡ encode_lower bytes.now) }
{
    Ok(hex::encode(alloc, bytes)?)
}

#[tactic(auto, unfolding(crate::specs::Lists::extract_line))]
fn push_extract(alloc: Global, out: &mut Vec<u8>, extract: &Extract) -> Result<(), MemoryOut>
    ensures { OnOk result (out.new.items ≡ out.old.items ++ extract_line extract.now) }
{
    let kvno = extract.kvno;
    let etype = etype_text(extract.key.etype());
    let key = key_text(alloc, extract.key.as_slice())?;
    let key = key.as_str();
    let text = format!(in alloc; "{kvno} {etype} {key}")?;
    push_field(out, b"key", text.as_bytes())?;
    Ok(())
}

#[tactic(auto, unfolding(crate::specs::Lists::extracts_text))]
pub(crate) fn push_extracts(
    alloc: Global,
    out: &mut Vec<u8>,
    extracts: &[Extract],
) -> Result<(), MemoryOut>
    ensures { OnOk result (out.new.items ≡ out.old.items ++ extracts_text extracts.now) }
{
    for extract in extracts {
        push_extract(alloc, out, extract)?;
    }
    Ok(())
}

#[tactic(auto, unfolding(crate::specs::Lists::rules_text))]
pub(crate) fn push_policy(
    alloc: Global,
    out: &mut Vec<u8>,
    policy: &Policy,
) -> Result<(), MemoryOut>
    ensures { OnOk result (out.new.items ≡ out.old.items ++ rules_text policy.now) }
{
    push_field(out, b"policy", policy.name())?;
    push_number(alloc, out, b"maxlife", policy.max_life())?;
    push_number(alloc, out, b"minlife", policy.min_life())?;
    push_number(alloc, out, b"minlength", u32::from(policy.min_length()))?;
    push_number(alloc, out, b"minclasses", u32::from(policy.min_classes()))?;
    push_number(alloc, out, b"history", u32::from(policy.history()))?;
    Ok(())
}

/// The letters of privileges, or a dash for none.
#[tactic(auto, unfolding(crate::specs::Lists::letters_text))]
pub(crate) fn letters_text(letters: &[u8]) -> &[u8]
    ensures { result.now ≡ letters_text letters.now }
{
    match letters {
        [] => b"-",
        [_, ..] => letters,
    }
}
