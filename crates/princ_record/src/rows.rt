//! Rows with their length before them, as units and entries of the log have them.

ghost use Rattle.kdb_format.specs.Spellings.{counted};
ghost use Rattle.princ_record.specs.Policies.{policy, IsPolicy};
ghost use Rattle.princ_record.specs.Princs.{princ};
ghost use Rattle.princ_record.specs.RowLimits.{IsRow, row_at, policy_row_at};
ghost use Rattle.princ_record.specs.RowLaws.{row_field, policy_row_field};

use crate::measures::encoded_len;
use crate::policies::{PolicyFormat, policy_len, push_policy};
use crate::princs::{Princ, PrincFormat, push_princ};
use kdb_base::MemoryOut;
use kdb_base::limits::MAX_ROW_LEN;
use kdb_format::writing::push_u16;
use kdb_format::{Format, FormatFault, Reader, read_inside};
use policy_rules::Policy;
use std::alloc::Global;

/// The format of a principal's row: its length in two bytes, at most `MAX_ROW_LEN`, and the record.
pub enum RowFormat {}

impl Format for RowFormat {
    type Value = Princ;

    ghost reading = { row_at };

    ghost spelling = { λ p. counted (princ p) };

    ghost fits = { IsRow };

    ghost is_field = { row_field };

    #[tactic(auto, unfolding(crate::specs::RowLimits::row_at, kdb_format::specs::Readings::checked))]
    fn read(alloc: Global, reader: &mut Reader) -> Result<Princ, FormatFault> {
        let len = usize::from(reader.u16()?);
        if len > MAX_ROW_LEN {
            return Err(FormatFault::Malformed);
        }
        let princ = read_inside::<PrincFormat>(alloc, reader, len)?;
        Ok(princ)
    }

    #[tactic(auto, unfolding(kdb_format::specs::Spellings::counted))]
    fn write(out: &mut Vec<u8>, value: &Princ) -> Result<(), MemoryOut> {
        push_u16(out, encoded_len(value) as u16)?;
        push_princ(out, value)?;
        Ok(())
    }
}

/// The format of a policy's row: its length in two bytes, and the policy.
pub enum PolicyRowFormat {}

impl Format for PolicyRowFormat {
    type Value = Policy;

    ghost reading = { policy_row_at };

    ghost spelling = { λ p. counted (policy p) };

    ghost fits = { IsPolicy };

    ghost is_field = { policy_row_field };

    #[tactic(auto, unfolding(crate::specs::RowLimits::policy_row_at))]
    fn read(alloc: Global, reader: &mut Reader) -> Result<Policy, FormatFault> {
        let len = reader.u16()?;
        let policy = read_inside::<PolicyFormat>(alloc, reader, usize::from(len))?;
        Ok(policy)
    }

    #[tactic(auto, unfolding(kdb_format::specs::Spellings::counted))]
    fn write(out: &mut Vec<u8>, value: &Policy) -> Result<(), MemoryOut> {
        push_u16(out, policy_len(value) as u16)?;
        push_policy(out, value)?;
        Ok(())
    }
}
