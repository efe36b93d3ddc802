//! What is told of a script behind its last line.

ghost use Rattle.std.specs.Prelude.{◌≡◌, IfOk};
ghost use Rattle.made_scripts.specs.Summaries.{summary_text};

use kadm_replies::texts::{push_done, push_number};
use kdb_base::{Blob, MemoryOut, Point};
use std::alloc::Global;

/// How many lines a script had, how many of them were accepted and how many refused, how many principals and keys the
/// database has then, and the point of its last change.
#[derive(Clone, Copy, Debug, PartialEq, Eq)]
pub struct Summary {
    pub lines: u32,
    pub accepted: u32,
    pub refused: u32,
    pub principals: u32,
    pub keys: u32,
    pub point: Point,
}

/// A line for each number, and a last line with the point.
#[tactic(auto, unfolding(crate::specs::Summaries::summary_text))]
pub fn print_summary(alloc: Global, summary: &Summary) -> Result<Blob, MemoryOut>
    ensures { IfOk result (λ text. text ≡ summary_text summary.now) }
{
    let mut out = Vec::new(alloc);
    push_number(alloc, &mut out, b"lines", summary.lines)?;
    push_number(alloc, &mut out, b"accepted", summary.accepted)?;
    push_number(alloc, &mut out, b"refused", summary.refused)?;
    push_number(alloc, &mut out, b"principals", summary.principals)?;
    push_number(alloc, &mut out, b"keys", summary.keys)?;
    push_done(alloc, &mut out, &summary.point)?;
    Ok(Blob::from_vec(out))
}
