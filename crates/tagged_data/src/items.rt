ghost use Rattle.tagged_data.specs.Items.{item_at, item as item_text, IsItem, item_field};

use crate::kinds::is_kind;
use kdb_base::{Blob, MemoryOut};
use kdb_format::writing::{push_counted, push_u16};
use kdb_format::{Format, FormatFault, Reader};
use std::alloc::Global;

/// A piece of data, and the number of its type.
#[derive(Debug, Drop)]
pub struct TagItem {
    pub kind: u16,
    pub bytes: Blob,
}

/// The format of an item of one of the types: the type's number, and a counted text.
pub enum ItemFormat {}

impl Format for ItemFormat {
    type Value = TagItem;

    ghost reading = { item_at };

    ghost spelling = { item_text };

    ghost fits = { IsItem };

    ghost is_field = { item_field };

    #[tactic(auto, unfolding(crate::specs::Items::item_at, kdb_format::specs::Readings::checked))]
    fn read(alloc: Global, reader: &mut Reader) -> Result<TagItem, FormatFault> {
        let kind = reader.u16()?;
        if !is_kind(kind) {
            return Err(FormatFault::Malformed);
        }
        let bytes = Blob::from_bytes(alloc, reader.counted()?)?;
        Ok(TagItem { kind, bytes })
    }

    #[tactic(auto, unfolding(crate::specs::Items::item))]
    fn write(out: &mut Vec<u8>, value: &TagItem) -> Result<(), MemoryOut> {
        push_u16(out, value.kind)?;
        push_counted(out, value.bytes.as_slice())?;
        Ok(())
    }
}
