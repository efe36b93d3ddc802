ghost use Rattle.std.specs.Prelude.{◌≡◌, ◌++◌, IfOk, OnOk, string_bytes};
ghost use Rattle.kadm_values.specs.Points.{point_text, six_digits};

use kdb_base::{MemoryOut, Point};
use std::alloc::Global;

fn print_micros(alloc: Global, usecs: u32) -> Result<String, MemoryOut>
    ensures { IfOk result (λ text. string_bytes text ≡ six_digits usecs) }
{
    Ok(format!(in alloc; "{usecs:06}")?)
}

#[tactic(auto, unfolding(crate::specs::Points::point_text))]
fn print_point(alloc: Global, point: &Point) -> Result<String, MemoryOut>
    ensures { IfOk result (λ text. string_bytes text ≡ point_text point.now) }
{
    let sno = point.sno;
    let secs = point.time.secs();
    let micros = print_micros(alloc, point.time.usecs())?;
    let micros = micros.as_str();
    Ok(format!(in alloc; "{sno} {secs}.{micros}")?)
}

/// Writes a point behind what stands there: `SNO SECS.USECS`, with six digits of microseconds. Only want of
/// memory can refuse it.
pub fn push_point(alloc: Global, out: &mut Vec<u8>, point: &Point) -> Result<(), MemoryOut>
    ensures { OnOk result (out.new.items ≡ out.old.items ++ point_text point.now) }
{
    let text = print_point(alloc, point)?;
    out.extend_from_slice(text.as_bytes())?;
    Ok(())
}
