ghost use Rattle.tagged_data.specs.Contents.{items_of};
ghost use Rattle.tagged_data.specs.Answers.{FindsAs};

use kdb_format::{Format, FormatFault, Reader};
use std::alloc::Global;

/// The items that the bytes spell, one after the other. Each takes a byte at least.
#[tactic(auto, unfolding(crate::specs::Contents::items_of))]
pub fn read_rest<F: Format>(alloc: Global, bytes: &[u8]) -> Result<Vec<F::Value>, FormatFault>
    ensures { FindsAs (λ v. v.items) result (items_of F.reading bytes.now) }
{
    let mut reader = Reader::new(bytes);
    let mut items = Vec::new(alloc);
    let most = bytes.len();
    for _ in 0..most {
        if reader.is_empty() {
            return Ok(items);
        }
        let item = F::read(alloc, &mut reader)?;
        items.push(item)?;
    }
    if !reader.is_empty() {
        return Err(FormatFault::Malformed);
    }
    Ok(items)
}
