//! The report of principals.

ghost use Rattle.std.specs.Prelude.{◌≡◌, ◌++◌, IfOk, OnOk, map, string_bytes};
ghost use Rattle.std.specs.List.{flat_map};
ghost use Rattle.tab_reports.specs.Principals.{attributes_text, policy_text, princ_front};
ghost use Rattle.tab_reports.specs.Principals.{princ_line, princ_rest, princs_header, princs_text};

use kadm_replies::texts::push;
use kdb_base::{Blob, MemoryOut};
use princ_record::Princ;
use princ_rows::Boxed;
use std::alloc::Global;

/// Eight hexadecimal digits.
#[tactic(auto, unfolding(kdb_format::specs::Spellings::big))]
fn attributes_text(alloc: Global, attributes: u32) -> Result<String, MemoryOut>
    ensures { IfOk result (λ text. string_bytes text ≡ attributes_text attributes) }
{
    Ok(hex::encode(alloc, &attributes.to_be_bytes())?)
}

fn policy_text(policy: &Option<Blob>) -> &[u8]
    ensures { result.now ≡ policy_text policy.now }
{
    match policy {
        Some(name) => name.as_slice(),
        None => b"",
    }
}

/// The name, the attributes, lives and expirations.
#[tactic(auto, unfolding(crate::specs::Principals::princ_front))]
fn push_front(alloc: Global, out: &mut Vec<u8>, princ: &Princ) -> Result<(), MemoryOut>
    ensures { OnOk result (out.new.items ≡ out.old.items ++ princ_front princ.now) }
{
    let attributes = attributes_text(alloc, princ.attributes)?;
    let attributes = attributes.as_str();
    let max_life = princ.max_life;
    let max_renew = princ.max_renew;
    let expire = princ.expire;
    let pw_expire = princ.pw_expire;
    let text = format!(in alloc;
        "\t{attributes}\t{max_life}\t{max_renew}\t{expire}\t{pw_expire}\t"
    )?;
    push(out, princ.name.as_slice())?;
    push(out, text.as_bytes())?;
    Ok(())
}

/// The policy, when and by whom the record was changed last, and what is counted.
#[tactic(auto, unfolding(crate::specs::Principals::princ_rest))]
fn push_rest(alloc: Global, out: &mut Vec<u8>, princ: &Princ) -> Result<(), MemoryOut>
    ensures { OnOk result (out.new.items ≡ out.old.items ++ princ_rest princ.now) }
{
    let modified = princ.modified;
    let mkvno = princ.mkvno;
    let strings = princ.strings.as_slice().len();
    let text = format!(in alloc; "\t{modified}\t")?;
    let behind = format!(in alloc; "\t{mkvno}\t{strings}\n")?;
    push(out, policy_text(&princ.policy))?;
    push(out, text.as_bytes())?;
    push(out, princ.modifier.as_slice())?;
    push(out, behind.as_bytes())?;
    Ok(())
}

fn push_princ(alloc: Global, out: &mut Vec<u8>, princ: &Princ) -> Result<(), MemoryOut>
    ensures { OnOk result (out.new.items ≡ out.old.items ++ princ_line princ.now) }
{
    push_front(alloc, out, princ)?;
    push_rest(alloc, out, princ)
}

#[tactic(auto, unfolding(crate::specs::Principals::princs_header))]
fn princs_header() -> &'static [u8]
    ensures { result.now ≡ princs_header }
{
    b"name\tattributes\tmaxlife\tmaxrenewlife\texpire\tpwexpire\tpolicy\tmodified\tmodifier\tmkvno\tstrings\n"
}

/// A header, and a line for each principal.
#[tactic(auto, unfolding(crate::specs::Principals::princs_text))]
pub(crate) fn push_princs(
    alloc: Global,
    out: &mut Vec<u8>,
    princs: &[Boxed<Princ>],
) -> Result<(), MemoryOut>
    ensures { OnOk result (out.new.items ≡ out.old.items ++ princs_text princs.now) }
{
    push(out, princs_header())?;
    for row in princs {
        push_princ(alloc, out, row.get())?;
    }
    Ok(())
}
