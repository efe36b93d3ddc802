//! The lines of a script.

ghost use Rattle.std.specs.Prelude.{◌≡◌, ◌≤◌, IfOk};
ghost use Rattle.made_scripts.specs.Scripts.{line_at, line_front, name_number, stride};

use kadm_replies::texts::push;
use kdb_base::{Blob, MemoryOut};
use std::alloc::Global;

/// What stands in a line before the number of the name, by its turn.
#[tactic(auto, unfolding(crate::specs::Scripts::line_front))]
fn line_front(turn: u32) -> &'static [u8]
    ensures { result.now ≡ line_front turn }
{
    if turn == 0 {
        return b"addprinc -randkey p";
    }
    if turn == 1 {
        return b"addprinc -nokey q";
    }
    if turn == 2 {
        return b"cpw -randkey -keepold p";
    }
    if turn == 3 {
        return b"modprinc +requires_preauth q";
    }
    b"delprinc p"
}

/// How far the number of the name goes on from a line to the next of its kind.
#[tactic(auto, unfolding(crate::specs::Scripts::stride))]
fn stride(turn: u32) -> u64
    ensures value { result ≡ stride turn }
    ensures small { result ≤ 7 }
{
    if turn == 3 {
        return 5;
    }
    if turn == 4 {
        return 7;
    }
    3
}

/// The number of the name, one of 40. The sum is one of 64 bits, so that it does not wrap.
#[tactic(auto, unfolding(crate::specs::Scripts::name_number))]
fn name_number(seed: u32, number: u32) -> u64
    ensures { result ≡ name_number seed number }
{
    (u64::from(seed) + stride(number % 5) * u64::from(number / 5)) % 40
}

/// The line of this number, counted from 0.
#[tactic(auto, unfolding(crate::specs::Scripts::line_at))]
pub fn make_line(alloc: Global, seed: u32, number: u32) -> Result<Blob, MemoryOut>
    ensures { IfOk result (λ line. line ≡ line_at seed number) }
{
    let mut out = Vec::new(alloc);
    push(&mut out, line_front(number % 5))?;
    let name = name_number(seed, number);
    let text = format!(in alloc; "{name}")?;
    push(&mut out, text.as_bytes())?;
    Ok(Blob::from_vec(out))
}
