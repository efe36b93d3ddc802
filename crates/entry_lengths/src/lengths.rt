//! How long the log's entry of a change is. A length is told exactly up to 2^64 - 1, and a greater one as 2^64 - 1.

ghost use Rattle.std.specs.Prelude.{◌≡◌, ◌+◌, ℕ, IfOk};
ghost use Rattle.entry_lengths.specs.Lengths.{entry_len_in};
ghost use Rattle.entry_lengths.specs.Resets.{block_in, block_over};
ghost use Rattle.kdb_model.specs.Refusals.{len_under};
ghost use Rattle.kdb_plain.specs.Lengths.{in_64_bits};

use kdb_base::{Masters, MemoryOut, PlainKey};
use kdb_plain::{PlainOp, PlainPrinc, State, chain_len, history_key, master_of, row_len};
use princ_record::policy_len;
use std::alloc::Global;

/// The sum of two numbers, each told in 64 bits.
fn add(a: u64, b: u64) -> u64
    ensures { (m n : ℕ) → a ≡ in_64_bits m → b ≡ in_64_bits n → result ≡ in_64_bits (m + n) }
{
    a.saturating_add(b)
}

/// An entry without a row, under a name of this length.
fn named(name: usize) -> u64
    ensures { result ≡ in_64_bits (21 + name) }
{
    add(21, name as u64)
}

/// The bytes of a principal's row, 0 where a key that it is kept under is not there.
#[tactic(auto, unfolding(kdb_model::specs::Refusals::len_under))]
fn len_under(masters: &Masters, history: Option<PlainKey>, princ: &PlainPrinc) -> u64
    ensures { result ≡ in_64_bits (len_under masters.now history princ.now) }
{
    match master_of(masters, princ.mkvno) {
        Some(master) => match history {
            Some(history) => row_len(master.etype(), history.etype(), princ),
            None => 0,
        },
        None => 0,
    }
}

/// The bytes of the log's entry of this change, were it made in this state.
///
/// # Errors
///
/// `MemoryOut` where memory is wanted and not given.
#[tactic(auto, unfolding(crate::specs::Lengths::entry_len_in, kdb_model::specs::Refusals::bytes_put))]
pub fn entry_len_in(alloc: Global, state: &State, op: &PlainOp) -> Result<u64, MemoryOut>
    ensures { IfOk result (λ n. n ≡ in_64_bits (entry_len_in state.now op.now)) }
{
    let history = history_key(alloc, state)?;
    match op {
        PlainOp::PutPrinc(princ) => Ok(add(
            named(princ.name.len()),
            len_under(&state.masters, history, princ),
        )),
        PlainOp::DropPrinc(name) => Ok(named(name.len())),
        PlainOp::Rename(old, princ) => Ok(add(
            named(old.len()),
            len_under(&state.masters, history, princ),
        )),
        PlainOp::PutPolicy(policy) => Ok(add(
            named(policy.name().len()),
            policy_len(policy) as u64,
        )),
        PlainOp::DropPolicy(name) => Ok(named(name.len())),
        PlainOp::PutMasters(princ, masters, activations) => {
            let row = add(
                len_under(masters, history, princ),
                chain_len(masters, activations),
            );
            Ok(add(named(princ.name.len()), row))
        }
    }
}

/// A block for an entry of this length.
#[tactic(auto, using(crate::proofs::Blocks::longer_block))]
fn block_over(block: u32, len: u64) -> u64
    ensures { (n : ℕ) → len ≡ in_64_bits n → result ≡ in_64_bits (block_over block n) }
{
    if u64::from(block) <= len {
        (len / 2048 + 1).saturating_mul(2048)
    } else {
        u64::from(block)
    }
}

/// The length of the log's blocks behind this change, were it made in this state, where they have this length before.
///
/// # Errors
///
/// `MemoryOut` where memory is wanted and not given.
pub fn block_in(alloc: Global, block: u32, state: &State, op: &PlainOp) -> Result<u64, MemoryOut>
    ensures { IfOk result (λ n. n ≡ in_64_bits (block_in block state.now op.now)) }
{
    let len = entry_len_in(alloc, state, op)?;
    Ok(block_over(block, len))
}
