//! The report of keys.

ghost use Rattle.std.specs.Prelude.{◌≡◌, ◌++◌, OnOk};
ghost use Rattle.std.specs.List.{flat_map};
ghost use Rattle.tab_reports.specs.Keys.{key_line, key_lines, keys_header, keys_text, princ_keys, salt_text};

use kadm_replies::texts::{etype_text, push};
use kdb_base::{MemoryOut, Salt};
use princ_keys::KeyItem;
use princ_record::Princ;
use princ_rows::Boxed;
use std::alloc::Global;

#[tactic(auto, unfolding(crate::specs::Keys::salt_text))]
fn salt_text(salt: &Salt) -> &'static str
    ensures { result.now ≡ salt_text salt.now }
{
    match salt {
        Salt::Normal => "normal",
        Salt::Special(_) => "special",
    }
}

/// A key of the name, at its place among the keys of the name.
#[tactic(auto, unfolding(crate::specs::Keys::key_line))]
fn push_key(
    alloc: Global,
    out: &mut Vec<u8>,
    name: &[u8],
    index: usize,
    item: &KeyItem,
) -> Result<(), MemoryOut>
    ensures { OnOk result (out.new.items ≡ out.old.items ++ key_line name.now index item.now) }
{
    let kvno = item.kvno;
    let etype = etype_text(item.etype);
    let salt = salt_text(&item.salt);
    let wrapped = item.wrapped.len();
    let text = format!(in alloc; "\t{index}\t{kvno}\t{etype}\t{salt}\t{wrapped}\n")?;
    push(out, name)?;
    push(out, text.as_bytes())?;
    Ok(())
}

/// A line for each key of a principal.
fn push_keys(
    alloc: Global,
    out: &mut Vec<u8>,
    name: &[u8],
    items: &[KeyItem],
) -> Result<(), MemoryOut>
    ensures { OnOk result (out.new.items ≡ out.old.items ++ key_lines name.now 0 items.now) }
{
    for (index, item) in items.iter().enumerate() {
        push_key(alloc, out, name, index, item)?;
    }
    Ok(())
}

fn push_princ(alloc: Global, out: &mut Vec<u8>, princ: &Princ) -> Result<(), MemoryOut>
    ensures { OnOk result (out.new.items ≡ out.old.items ++ princ_keys princ.now) }
{
    push_keys(alloc, out, princ.name.as_slice(), princ.keys.as_slice())
}

#[tactic(auto, unfolding(crate::specs::Keys::keys_header))]
fn keys_header() -> &'static [u8]
    ensures { result.now ≡ keys_header }
{
    b"name\tindex\tkvno\tenctype\tsalt\twrapped\n"
}

/// A header, and a line for each key, in the order of the principals and of their records.
#[tactic(auto, unfolding(crate::specs::Keys::keys_text))]
pub(crate) fn push_all_keys(
    alloc: Global,
    out: &mut Vec<u8>,
    princs: &[Boxed<Princ>],
) -> Result<(), MemoryOut>
    ensures { OnOk result (out.new.items ≡ out.old.items ++ keys_text princs.now) }
{
    push(out, keys_header())?;
    for row in princs {
        push_princ(alloc, out, row.get())?;
    }
    Ok(())
}
