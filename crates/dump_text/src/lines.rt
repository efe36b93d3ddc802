//! Lines of a dump, each behind a mark, as they are appended to a buffer.
ghost use Rattle.std.specs.Prelude.{◌≡◌, ◌++◌, IfOk, OnOk, string_bytes};
ghost use Rattle.hex.specs.Hex.{encode_lower};
ghost use Rattle.princ_record.specs.Princs.{IsPrinc};
ghost use Rattle.dump_text.specs.Dumps.{end_line, marked, marked_head, point_line, policy_line, princ_line, realm_line};
ghost use Rattle.dump_text.specs.Versions.{title};
ghost use Rattle.dump_text.specs.declared.versions.Version.TheVariants.{Two};

use kadm_values::push_point;
use kdb_base::{MemoryOut, Point};
use kdb_format::writing::push_bytes;
use policy_rules::Policy;
use princ_record::{Princ, encode, encode_policy};
use std::alloc::Global;

fn push_hex(alloc: Global, out: &mut Vec<u8>, bytes: &[u8]) -> Result<(), MemoryOut>
    ensures { OnOk result (out.new.items ≡ out.old.items ++ encode_lower bytes.now) }
{
    let text = hex::encode(alloc, bytes)?;
    push_bytes(out, text.as_bytes())?;
    Ok(())
}

#[tactic(auto, unfolding(crate::specs::Versions::title))]
fn push_title(out: &mut Vec<u8>, mark: &[u8]) -> Result<(), MemoryOut>
    ensures { OnOk result (out.new.items ≡ out.old.items ++ marked mark.now (title Two)) }
{
    push_bytes(out, mark)?;
    push_bytes(out, b"kdb dump 2\n")?;
    Ok(())
}

#[tactic(auto, unfolding(crate::specs::Dumps::realm_line))]
fn push_realm(out: &mut Vec<u8>, mark: &[u8], realm: &[u8]) -> Result<(), MemoryOut>
    ensures { OnOk result (out.new.items ≡ out.old.items ++ marked mark.now (realm_line realm.now)) }
{
    push_bytes(out, mark)?;
    push_bytes(out, b"realm ")?;
    push_bytes(out, realm)?;
    push_bytes(out, b"\n")?;
    Ok(())
}

/// The line of a point.
#[tactic(auto, unfolding(crate::specs::Dumps::point_line))]
pub(crate) fn print_point(alloc: Global, point: &Point) -> Result<Vec<u8>, MemoryOut>
    ensures { IfOk result (λ text. text.items ≡ point_line point.now) }
{
    let mut text = Vec::new(alloc);
    push_bytes(&mut text, b"point ")?;
    push_point(alloc, &mut text, point)?;
    Ok(text)
}

fn push_point_line(
    alloc: Global,
    out: &mut Vec<u8>,
    mark: &[u8],
    point: &Point,
) -> Result<(), MemoryOut>
    ensures { OnOk result (out.new.items ≡ out.old.items ++ marked mark.now (point_line point.now)) }
{
    let text = print_point(alloc, point)?;
    push_bytes(out, mark)?;
    push_bytes(out, &text)?;
    push_bytes(out, b"\n")?;
    Ok(())
}

/// Appends what stands before the rows in a dump of the second version.
#[tactic(auto, unfolding(crate::specs::Dumps::marked_head))]
pub(crate) fn push_head(
    alloc: Global,
    out: &mut Vec<u8>,
    mark: &[u8],
    realm: &[u8],
    point: &Point,
) -> Result<(), MemoryOut>
    ensures { OnOk result (out.new.items ≡ out.old.items ++ marked_head mark.now Two realm.now point.now) }
{
    push_title(out, mark)?;
    push_realm(out, mark, realm)?;
    push_point_line(alloc, out, mark, point)?;
    Ok(())
}

/// Appends the line of a principal.
#[tactic(auto, unfolding(crate::specs::Dumps::princ_line))]
pub(crate) fn push_princ(
    alloc: Global,
    out: &mut Vec<u8>,
    mark: &[u8],
    princ: &Princ,
) -> Result<(), MemoryOut>
    requires { IsPrinc princ.now }
    ensures { OnOk result (out.new.items ≡ out.old.items ++ marked mark.now (princ_line princ.now)) }
{
    let record = encode(alloc, princ)?;
    push_bytes(out, mark)?;
    push_bytes(out, b"princ ")?;
    push_hex(alloc, out, record.as_slice())?;
    push_bytes(out, b"\n")?;
    Ok(())
}

/// Appends the line of a policy.
#[tactic(auto, unfolding(crate::specs::Dumps::policy_line))]
pub(crate) fn push_policy(
    alloc: Global,
    out: &mut Vec<u8>,
    mark: &[u8],
    policy: &Policy,
) -> Result<(), MemoryOut>
    ensures { OnOk result (out.new.items ≡ out.old.items ++ marked mark.now (policy_line policy.now)) }
{
    let record = encode_policy(alloc, policy)?;
    push_bytes(out, mark)?;
    push_bytes(out, b"policy ")?;
    push_hex(alloc, out, record.as_slice())?;
    push_bytes(out, b"\n")?;
    Ok(())
}

#[tactic(auto, unfolding(crate::specs::Dumps::end_line))]
pub(crate) fn print_end(alloc: Global, count: usize) -> Result<String, MemoryOut>
    ensures { IfOk result (λ text. string_bytes text ≡ end_line count) }
{
    Ok(format!(in alloc; "end {count}")?)
}

/// Appends the last line.
pub(crate) fn push_end(
    alloc: Global,
    out: &mut Vec<u8>,
    mark: &[u8],
    count: usize,
) -> Result<(), MemoryOut>
    ensures { OnOk result (out.new.items ≡ out.old.items ++ marked mark.now (end_line count)) }
{
    let text = print_end(alloc, count)?;
    push_bytes(out, mark)?;
    push_bytes(out, text.as_bytes())?;
    push_bytes(out, b"\n")?;
    Ok(())
}
