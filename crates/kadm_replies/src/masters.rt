//! The lines of master keys.

ghost use Rattle.std.specs.Prelude.{◌≡◌, ◌++◌, IfOk, OnOk, codes, count_by};
ghost use Rattle.kadm_replies.specs.Texts.{field_line};
ghost use Rattle.kadm_replies.specs.Masters.{activation_text, added_text, is_purged, mark_text, master_line};
ghost use Rattle.kadm_replies.specs.Masters.{masters_text, point_before, purge_line, purged_text};
ghost use Rattle.kadm_replies.specs.Masters.{purges_text, serving_text, totals_text, used_text};

use crate::texts::{etype_text, push, push_field, time_text};
use kadm_commands::{MasterRow, PurgeRow, Totals};
use kadm_values::points::push_point;
use kdb_base::{Blob, MemoryOut, Point};
use serving_versions::Cause;
use std::alloc::Global;

/// What `add_mkey` answers.
#[tactic(auto, unfolding(crate::specs::Masters::added_text))]
pub(crate) fn push_added(
    alloc: Global,
    out: &mut Vec<u8>,
    point: &Point,
    version: u16,
) -> Result<(), MemoryOut>
    ensures { OnOk result (out.new.items ≡ out.old.items ++ added_text point.now version) }
{
    let behind = format!(in alloc; " mkvno {version}\n")?;
    push(out, b"ok ")?;
    push_point(alloc, out, point)?;
    push(out, behind.as_bytes())?;
    Ok(())
}

/// What `use_mkey` answers. The time is in seconds since 1970.
#[tactic(auto, unfolding(crate::specs::Masters::used_text))]
pub(crate) fn push_used(
    alloc: Global,
    out: &mut Vec<u8>,
    point: &Point,
    version: u16,
    secs: u32,
) -> Result<(), MemoryOut>
    ensures { OnOk result (out.new.items ≡ out.old.items ++ used_text point.now version secs) }
{
    let behind = format!(in alloc; " mkvno {version} from ")?;
    let time = time_text(alloc, secs)?;
    push(out, b"ok ")?;
    push_point(alloc, out, point)?;
    push(out, behind.as_bytes())?;
    push(out, time.as_slice())?;
    push(out, b"\n")?;
    Ok(())
}

// When a version becomes or became active, or a dash.
fn activation_text(alloc: Global, secs: Option<u32>) -> Result<Blob, MemoryOut>
    ensures { IfOk result (λ text. text ≡ activation_text secs) }
{
    match secs {
        Some(secs) => time_text(alloc, secs),
        None => Blob::from_bytes(alloc, b"-"),
    }
}

fn mark_text(active: bool) -> &'static [u8]
    ensures { result.now ≡ mark_text active }
{
    if active { b" *" } else { b"" }
}

#[tactic(auto, unfolding(crate::specs::Masters::master_line, crate::specs::Texts::data_line))]
fn push_master(alloc: Global, out: &mut Vec<u8>, row: &MasterRow) -> Result<(), MemoryOut>
    ensures { OnOk result (out.new.items ≡ out.old.items ++ master_line row.now) }
{
    let version = row.version;
    let etype = etype_text(row.etype);
    let front = format!(in alloc; "- {version} {etype} ")?;
    let time = activation_text(alloc, row.secs)?;
    push(out, front.as_bytes())?;
    push(out, time.as_slice())?;
    push(out, mark_text(row.active))?;
    push(out, b"\n")?;
    Ok(())
}

/// A line for each master key.
#[tactic(auto, unfolding(crate::specs::Masters::masters_text))]
pub(crate) fn push_masters(
    alloc: Global,
    out: &mut Vec<u8>,
    rows: &[MasterRow],
) -> Result<(), MemoryOut>
    ensures { OnOk result (out.new.items ≡ out.old.items ++ masters_text rows.now) }
{
    for row in rows {
        push_master(alloc, out, row)?;
    }
    Ok(())
}

// Why a version serves.
#[tactic(auto, unfolding(crate::specs::Masters::serving_text))]
fn serving_text(alloc: Global, cause: Cause) -> Result<Blob, MemoryOut>
    ensures { IfOk result (λ text. text ≡ serving_text cause) }
{
    match cause {
        Cause::Protects(count) => {
            let text = format!(in alloc; "protects {count}")?;
            Blob::from_bytes(alloc, text.as_bytes())
        }
        Cause::Active => Blob::from_bytes(alloc, b"active"),
        Cause::Newest => Blob::from_bytes(alloc, b"newest"),
        Cause::Pending => Blob::from_bytes(alloc, b"pending"),
    }
}

fn push_kept(
    alloc: Global,
    out: &mut Vec<u8>,
    version: &[u8],
    cause: Cause,
) -> Result<(), MemoryOut>
    ensures { OnOk result (out.new.items
        ≡ out.old.items ++ field_line (codes "kept") (version.now ++ (codes " " ++ serving_text cause))) }
{
    let cause = serving_text(alloc, cause)?;
    let mut text = Vec::new(alloc);
    push(&mut text, version)?;
    push(&mut text, b" ")?;
    push(&mut text, cause.as_slice())?;
    push_field(out, b"kept", &text)?;
    Ok(())
}

#[tactic(auto, unfolding(crate::specs::Masters::purge_line))]
fn push_purge(alloc: Global, out: &mut Vec<u8>, row: &PurgeRow) -> Result<(), MemoryOut>
    ensures { OnOk result (out.new.items ≡ out.old.items ++ purge_line row.now) }
{
    let version = row.version;
    let version = format!(in alloc; "{version}")?;
    match row.cause {
        Some(cause) => push_kept(alloc, out, version.as_bytes(), cause),
        None => push_field(out, b"purged", version.as_bytes()),
    }
}

/// A line for each version that was listed.
#[tactic(auto, unfolding(crate::specs::Masters::purges_text))]
pub(crate) fn push_purges(
    alloc: Global,
    out: &mut Vec<u8>,
    rows: &[PurgeRow],
) -> Result<(), MemoryOut>
    ensures { OnOk result (out.new.items ≡ out.old.items ++ purges_text rows.now) }
{
    for row in rows {
        push_purge(alloc, out, row)?;
    }
    Ok(())
}

fn is_purged(row: &PurgeRow) -> bool
    ensures { result ≡ is_purged row.now }
{
    row.cause.is_none()
}

fn count_purged(rows: &[PurgeRow]) -> usize
    ensures { result ≡ count_by is_purged rows.now }
{
    rows.iter().filter(|row| is_purged(*row)).count()
}

fn push_point_before(
    alloc: Global,
    out: &mut Vec<u8>,
    point: &Option<Point>,
) -> Result<(), MemoryOut>
    ensures { OnOk result (out.new.items ≡ out.old.items ++ point_before point.now) }
{
    match point {
        Some(point) => {
            push_point(alloc, out, point)?;
            push(out, b" ")?;
            Ok(())
        }
        None => Ok(()),
    }
}

/// The last line of `purge_mkeys`: how many versions were deleted, with the point of the deletion.
#[tactic(auto, unfolding(crate::specs::Masters::purged_text))]
pub(crate) fn push_purged(
    alloc: Global,
    out: &mut Vec<u8>,
    point: &Option<Point>,
    rows: &[PurgeRow],
) -> Result<(), MemoryOut>
    ensures { OnOk result (out.new.items ≡ out.old.items ++ purged_text point.now rows.now) }
{
    let count = count_purged(rows);
    let behind = format!(in alloc; "{count} purged\n")?;
    push(out, b"ok ")?;
    push_point_before(alloc, out, point)?;
    push(out, behind.as_bytes())?;
    Ok(())
}

/// What `update_princ_encryption` answers.
#[tactic(auto, unfolding(crate::specs::Masters::totals_text))]
pub(crate) fn push_totals(
    alloc: Global,
    out: &mut Vec<u8>,
    totals: &Totals,
) -> Result<(), MemoryOut>
    ensures { OnOk result (out.new.items ≡ out.old.items ++ totals_text totals.now) }
{
    let updated = totals.updated;
    let already = totals.already;
    let gone = totals.gone;
    let processed = u64::from(updated) + u64::from(already);
    let text = format!(in alloc;
        "ok {processed} principals processed: {updated} updated, {already} already current, {gone} gone\n"
    )?;
    push(out, text.as_bytes())?;
    Ok(())
}
