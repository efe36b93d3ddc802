//! The flags of a principal.

ghost use Rattle.std.specs.Prelude.{◌≡◌, ◌++◌, ◌∷◌, IfOk, OnOk, map};
ghost use Rattle.std.specs.List.{flat_map};
ghost use Rattle.kadm_values.specs.Flags.{row_of, set_flags};
ghost use Rattle.kadm_replies.specs.Princs.{flag_text, flag_texts};

use crate::texts::push;
use kadm_values::flags::{Flag, flags_in};
use kdb_base::{Blob, MemoryOut};
use std::alloc::Global;

// A flag with the sign that sets it.
#[tactic(auto, unfolding(crate::specs::Princs::flag_text))]
fn push_flag(out: &mut Vec<u8>, flag: &Flag) -> Result<(), MemoryOut>
    ensures { OnOk result (out.new.items ≡ out.old.items ++ flag_text (row_of flag.now)) }
{
    let sign: &[u8] = if flag.plus_sets { b"+" } else { b"-" };
    push(out, sign)?;
    push(out, flag.word)?;
    Ok(())
}

// Flags with a space before each.
fn push_behind(out: &mut Vec<u8>, flags: &[Flag]) -> Result<(), MemoryOut>
    ensures { OnOk result (out.new.items ≡ out.old.items ++ flat_map (λ flag. 32 ∷ flag_text (row_of flag)) flags.now) }
{
    for flag in flags {
        push(out, b" ")?;
        push_flag(out, flag)?;
    }
    Ok(())
}

fn push_flags(out: &mut Vec<u8>, flags: &[Flag]) -> Result<(), MemoryOut>
    ensures { OnOk result (out.new.items ≡ out.old.items ++ flag_texts (map row_of flags.now)) }
{
    match flags.split_first() {
        Some((first, others)) => {
            push_flag(out, first)?;
            push_behind(out, others)?;
            Ok(())
        }
        None => {
            push(out, b"none")?;
            Ok(())
        }
    }
}

/// The words of the flags that are set, in the order of their bits, or `none`.
pub fn flags_text(alloc: Global, attributes: u32) -> Result<Blob, MemoryOut>
    ensures { IfOk result (λ text. text ≡ flag_texts (set_flags attributes)) }
{
    let flags = flags_in(alloc, attributes)?;
    let mut text = Vec::new(alloc);
    push_flags(&mut text, &flags)?;
    Ok(Blob::from_vec(text))
}
