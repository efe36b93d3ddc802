ghost use Rattle.std.specs.Prelude.{◌≡◌, ◌++◌, ◌+◌, ◌≤◌, Some, length, IfOk, OnOk};
ghost use Rattle.policy_rules.specs.Rules.{Rules};
ghost use Rattle.princ_record.specs.Answers.{Finds};
ghost use Rattle.princ_record.specs.Policies.{policy_at, policy, IsPolicy};
ghost use Rattle.princ_record.specs.PolicyLaws.{policy_field};

use crate::faults::RowFault;
use kdb_base::{Blob, MemoryOut};
use kdb_format::writing::{push_counted, push_u16, push_u32};
use kdb_format::{Format, FormatFault, Reader, read_whole};
use policy_rules::{Policy, is_history, is_min_classes, is_min_length, is_policy_name};
use std::alloc::Global;

/// The format of a policy: its counted name, its greatest and least life in four bytes each, and its
/// least length, least number of classes and history in two bytes each.
pub enum PolicyFormat {}

impl Format for PolicyFormat {
    type Value = Policy;

    ghost reading = { policy_at };

    ghost spelling = { policy };

    ghost fits = { IsPolicy };

    ghost is_field = { policy_field };

    #[tactic(auto, unfolding(crate::specs::Policies::policy_at, kdb_format::specs::Readings::checked))]
    fn read(alloc: Global, reader: &mut Reader) -> Result<Policy, FormatFault> {
        let name = reader.counted()?;
        if !is_policy_name(name) {
            return Err(FormatFault::Malformed);
        }
        let max_life = reader.u32()?;
        let min_life = reader.u32()?;
        let min_length = reader.u16()?;
        if !is_min_length(min_length) {
            return Err(FormatFault::Malformed);
        }
        let min_classes = reader.u16()?;
        if !is_min_classes(min_classes) {
            return Err(FormatFault::Malformed);
        }
        let history = reader.u16()?;
        if !is_history(history) {
            return Err(FormatFault::Malformed);
        }
        let name = Blob::from_bytes(alloc, name)?;
        Ok(Policy::new(name, max_life, min_life, min_length, min_classes, history))
    }

    fn write(out: &mut Vec<u8>, value: &Policy) -> Result<(), MemoryOut> {
        push_policy(out, value)
    }
}

/// Appends the spelling of the policy.
#[tactic(auto, using(crate::proofs::ShortNames::short_policy_name), unfolding(crate::specs::Policies::policy))]
pub fn push_policy(out: &mut Vec<u8>, value: &Policy) -> Result<(), MemoryOut>
    ensures { OnOk result (out.new.items ≡ out.old.items ++ policy value.now) }
{
    push_counted(out, value.name())?;
    push_u32(out, value.max_life())?;
    push_u32(out, value.min_life())?;
    push_u16(out, value.min_length())?;
    push_u16(out, value.min_classes())?;
    push_u16(out, value.history())?;
    Ok(())
}

/// The number of bytes of the policy's spelling.
pub fn policy_len(value: &Policy) -> usize
    ensures value { result ≡ length (policy value.now) }
    ensures small { result ≤ 80 }
{
    16 + value.name().len()
}

/// The spelling of the policy.
pub fn encode_policy(alloc: Global, value: &Policy) -> Result<Blob, MemoryOut>
    ensures { IfOk result (λ bytes. bytes ≡ policy value.now) }
{
    let mut out = Vec::new(alloc);
    push_policy(&mut out, value)?;
    Ok(Blob::from_vec(out))
}

/// The policy that the bytes spell, each byte of them. BadRecord where they spell none.
pub fn decode_policy(alloc: Global, bytes: &[u8]) -> Result<Policy, RowFault>
    // What is decoded is spelled so.
    ensures found { IfOk result (λ p. (bytes.now ≡ policy p) × IsPolicy p) }
    // What is spelled so is decoded, unless memory runs out.
    ensures only { (p : Rules) → IsPolicy p → bytes.now ≡ policy p → Finds result (Some p) }
{
    match read_whole::<PolicyFormat>(alloc, bytes) {
        Ok(value) => Ok(value),
        Err(fault) => Err(RowFault::from(fault)),
    }
}

/// The same policy. Only want of memory can refuse it.
pub fn copy_policy(alloc: Global, value: &Policy) -> Result<Policy, MemoryOut>
    ensures { IfOk result (λ p. p ≡ value.now) }
{
    let name = Blob::from_bytes(alloc, value.name())?;
    Ok(Policy::new(
        name,
        value.max_life(),
        value.min_life(),
        value.min_length(),
        value.min_classes(),
        value.history(),
    ))
}
