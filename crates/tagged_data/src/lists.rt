ghost use Rattle.std.specs.Prelude.{◌≡◌, ◌++◌, ℕ, List, length, drop, IfOk, OnOk, Some, option_map, nat_eq};
ghost use Rattle.std.specs.List.{All, find};
ghost use Rattle.kdb_base.specs.Versions.{AreRising};
ghost use Rattle.kdb_format.specs.Fields.{IsBytes};
ghost use Rattle.tagged_data.specs.Answers.{Finds};
ghost use Rattle.tagged_data.specs.Items.{IsItem};
ghost use Rattle.tagged_data.specs.Lists.{IsTagged, content, kinds_of, tagged, tagged_at, tagged_field};
ghost use Rattle.tagged_data.specs.declared.items.TagItem.{TagItem};

use crate::faults::TagFault;
use crate::items::{ItemFormat, TagItem};
use crate::rising::are_rising;
use kdb_base::{Blob, MemoryOut};
use kdb_format::lists::{read_list_u16, write_list_u16};
use kdb_format::{Format, FormatFault, Reader, read_next};
use std::alloc::Global;
use std::marker::Model;

/// Items of known types, by rising types. Each content is shorter than 65536 bytes.
#[derive(Debug, Drop)]
pub struct TagList {
    items: Vec<TagItem>,
}

impl Model for TagList {
    ghost use Rattle.std.specs.Prelude.{List};
    ghost use Rattle.tagged_data.specs.declared.items.TagItem.{TagItem};
    ghost use Rattle.tagged_data.specs.Lists.{IsTagged};

    ghost Value = { List TagItem };

    ghost view = { λ a. a.items.items };

    ghost invariant = { λ a. IsTagged a.items.items };
}

impl TagList {
    /// The list of these items, without a copy.
    pub fn from_vec(items: Vec<TagItem>) -> TagList
        requires rising { AreRising (kinds_of items.items) }
        requires items { All IsItem items.items }
        ensures { result ≡ items.items }
    {
        TagList { items }
    }

    /// The items as a vector, without a copy.
    pub fn into_vec(self) -> Vec<TagItem>
        ensures value { result.items ≡ self }
        ensures tagged { IsTagged result.items }
    {
        self.items
    }

    /// The items in their order.
    pub fn as_slice(&self) -> &[TagItem]
        ensures value { result.now ≡ self.now }
        ensures tagged { IsTagged self.now }
    {
        &self.items
    }
}

/// The format of a tagged list: a count in two bytes, and that many items by rising types.
pub enum Tagged {}

impl Format for Tagged {
    type Value = TagList;

    ghost reading = { tagged_at };

    ghost spelling = { tagged };

    ghost fits = { IsTagged };

    ghost is_field = { tagged_field };

    #[tactic(auto, unfolding(crate::specs::Lists::tagged_at, kdb_format::specs::Readings::checked))]
    fn read(alloc: Global, reader: &mut Reader) -> Result<TagList, FormatFault> {
        reader.holds_bytes();
        let items = read_list_u16::<ItemFormat>(alloc, reader)?;
        if !are_rising(&items) {
            return Err(FormatFault::Malformed);
        }
        Ok(TagList::from_vec(items))
    }

    fn write(out: &mut Vec<u8>, value: &TagList) -> Result<(), MemoryOut> {
        push_tagged(out, value)
    }
}

/// Appends the spelling of the list.
#[tactic(auto, unfolding(crate::specs::Lists::tagged))]
pub fn push_tagged(out: &mut Vec<u8>, list: &TagList) -> Result<(), MemoryOut>
    ensures { OnOk result (out.new.items ≡ out.old.items ++ tagged list.now) }
{
    write_list_u16::<ItemFormat>(out, list.as_slice())
}

/// The spelling of the list.
pub fn write_tagged(alloc: Global, list: &TagList) -> Result<Blob, MemoryOut>
    ensures { IfOk result (λ bytes. bytes ≡ tagged list.now) }
{
    let mut out = Vec::new(alloc);
    push_tagged(&mut out, list)?;
    Ok(Blob::from_vec(out))
}

/// The tagged list at the front of the bytes, and the number of bytes that it takes. BadTagged
/// where no list stands there. The contents are not judged.
pub fn read_tagged(alloc: Global, bytes: &[u8]) -> Result<(TagList, usize), TagFault>
    // What is read is spelled so.
    ensures found { IfOk result (λ x. (bytes.now ≡ tagged x.0 ++ drop x.1 bytes.now) × IsTagged x.0) }
    ensures used { IfOk result (λ x. x.1 ≡ length (tagged x.0)) }
    // What is spelled so is read, whatever follows, unless memory runs out.
    ensures only { (list : List TagItem) (rest : List ℕ) → IsTagged list → bytes.now ≡ tagged list ++ rest
        → Finds result (Some (list, length (tagged list))) }
{
    let mut reader = Reader::new(bytes);
    match read_next::<Tagged>(alloc, &mut reader) {
        Ok(list) => Ok((list, bytes.len() - reader.len())),
        Err(fault) => Err(TagFault::from(fault)),
    }
}

fn item_of(items: &[TagItem], kind: u16) -> Option<&TagItem>
    ensures { option_map (λ i. i.now) result ≡ find (λ i. nat_eq i.kind kind) items.now }
{
    items.iter().find(|item| item.kind == kind)
}

/// The content of the item of a type.
#[tactic(auto, unfolding(crate::specs::Lists::content))]
pub fn content(list: &TagList, kind: u16) -> Option<&[u8]>
    ensures value { option_map (λ bytes. bytes.now) result ≡ content kind list.now }
    // Each number of it is below 256.
    ensures bytes { (bytes : List ℕ) → content kind list.now ≡ Some bytes → IsBytes bytes }
{
    match item_of(list.as_slice(), kind) {
        Some(item) => {
            let bytes = item.bytes.as_slice();
            Reader::new(bytes).holds_bytes();
            Some(bytes)
        }
        None => None,
    }
}

/// The number of bytes of the list's spelling.
pub fn tagged_len(list: &TagList) -> usize
    ensures { result ≡ length (tagged list.now) }
{
    let mut len = 2;
    for item in list.as_slice() {
        len += 4 + item.bytes.len();
    }
    len
}
