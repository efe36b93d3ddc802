//! The lines of entries.

ghost use Rattle.std.specs.Prelude.{◌≡◌, ◌++◌, OnOk, Some};
ghost use Rattle.princ_rows.specs.declared.entries.Op.TheVariants.{Rename as Renames};
ghost use Rattle.ulog_text.specs.Ulogs.{change_text, entry_text, named};

use kadm_replies::texts::push;
use kadm_values::push_point;
use kdb_base::MemoryOut;
use princ_record::Princ;
use princ_rows::{Entry, Op};
use std::alloc::Global;

// A word and a name.
fn push_named(out: &mut Vec<u8>, word: &[u8], name: &[u8]) -> Result<(), MemoryOut>
    ensures { OnOk result (out.new.items ≡ out.old.items ++ named word.now name.now) }
{
    push(out, word)?;
    push(out, b" ")?;
    push(out, name)?;
    Ok(())
}

// An old name and a new one.
#[tactic(auto, unfolding(crate::specs::Ulogs::change_text))]
fn push_rename(out: &mut Vec<u8>, old: &[u8], princ: &Princ) -> Result<(), MemoryOut>
    ensures { OnOk result (out.new.items ≡ out.old.items ++ change_text (Some (Renames old.now princ.now))) }
{
    push(out, b"rename ")?;
    push_named(out, old, princ.name.as_slice())?;
    Ok(())
}

// What an entry does.
#[tactic(auto, unfolding(crate::specs::Ulogs::change_text))]
fn push_change(out: &mut Vec<u8>, op: &Option<Op>) -> Result<(), MemoryOut>
    ensures { OnOk result (out.new.items ≡ out.old.items ++ change_text op.now) }
{
    match op {
        None => push(out, b"base"),
        Some(Op::PutPrinc(princ)) => push_named(out, b"put", princ.name.as_slice()),
        Some(Op::DropPrinc(name)) => push_named(out, b"delete", name.as_slice()),
        Some(Op::Rename(old, princ)) => push_rename(out, old.as_slice(), princ),
        Some(Op::PutPolicy(policy)) => push_named(out, b"putpol", policy.name()),
        Some(Op::DropPolicy(name)) => push_named(out, b"delpol", name.as_slice()),
    }
}

/// The line of an entry.
#[tactic(auto, unfolding(crate::specs::Ulogs::entry_text, kadm_replies::specs::Texts::data_line))]
pub(crate) fn push_entry(alloc: Global, out: &mut Vec<u8>, entry: &Entry) -> Result<(), MemoryOut>
    ensures { OnOk result (out.new.items ≡ out.old.items ++ entry_text entry.now) }
{
    push(out, b"- ")?;
    push_point(alloc, out, &entry.point)?;
    push(out, b" ")?;
    push_change(out, &entry.op)?;
    push(out, b"\n")?;
    Ok(())
}
