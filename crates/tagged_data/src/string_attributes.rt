//! String attributes: keys with their values, by rising keys.

ghost use Rattle.std.specs.Prelude.{◌≡◌, ◌++◌, ◌<◌, ◌≤◌, [], List, None, Some, IfOk};
ghost use Rattle.std.specs.Prelude.{OnOk, length, option_and_then, option_map};
ghost use Rattle.std.specs.List.{list_all, sum_by};
ghost use Rattle.std.proofs.Common.{rules};
ghost use Rattle.std.specs.Cmp.Rules.{comparing};
ghost use Rattle.kdb_format.specs.Answers.{Finds as FindsFormat};
ghost use Rattle.tagged_data.specs.Answers.{Finds};
ghost use Rattle.tagged_data.specs.KeyOrder.{AreInOrder, is_behind, rises_from};
ghost use Rattle.tagged_data.specs.Lists.{content};
ghost use Rattle.tagged_data.specs.Strings.{is_key_byte, is_string_key, is_value_byte, is_string_value};
ghost use Rattle.tagged_data.specs.Strings.{string_at, string, IsString, keys_of, are_strings};
ghost use Rattle.tagged_data.specs.Strings.{strings_at, strings_text, AreStrings};
ghost use Rattle.tagged_data.specs.StringLaws.{string_field};

use crate::faults::TagFault;
use crate::kinds::STRINGS;
use crate::lists::{TagList, content};
use crate::modifiers::{push_ended, read_ended};
use crate::rest::read_rest;
use kdb_base::limits::MAX_STRINGS;
use kdb_base::{Blob, MemoryOut};
use kdb_format::{Format, FormatFault, Reader};
use std::alloc::Global;
use std::cmp::Ordering;
use std::marker::Model;

/// The most bytes of a key.
pub const MAX_STRING_KEY: usize = 64;

/// The most bytes of a value.
pub const MAX_STRING_VALUE: usize = 1024;

/// An attribute of a principal.
#[derive(Debug, Drop, PartialEq, Eq)]
pub struct StringAttribute {
    /// 1 to 64 letters, digits, `_`, `-` and `.`.
    pub key: Blob,
    /// At most 1024 bytes, and none of them a control byte.
    pub value: Blob,
}

/// Attributes by rising keys, in the order of their bytes.
#[derive(Debug, Drop)]
pub struct StringAttributes {
    items: Vec<StringAttribute>,
}

impl Model for StringAttributes {
    ghost use Rattle.std.specs.Prelude.{List};
    ghost use Rattle.tagged_data.specs.declared.string_attributes.StringAttribute.{StringAttribute};
    ghost use Rattle.tagged_data.specs.KeyOrder.{AreInOrder};
    ghost use Rattle.tagged_data.specs.Strings.{keys_of};

    ghost Value = { List StringAttribute };

    ghost view = { λ a. a.items.items };

    ghost invariant = { λ a. AreInOrder (keys_of a.items.items) };
}

impl StringAttributes {
    /// No attributes.
    #[tactic(auto, using(crate::specs::KeyOrderLaws::none_in_order))]
    pub fn new(alloc: Global) -> StringAttributes
        ensures { result ≡ [] }
    {
        StringAttributes {
            items: Vec::new(alloc),
        }
    }

    /// The attributes of this vector, without a copy.
    pub fn from_vec(items: Vec<StringAttribute>) -> StringAttributes
        requires { AreInOrder (keys_of items.items) }
        ensures { result ≡ items.items }
    {
        StringAttributes { items }
    }

    /// The attributes as a vector, without a copy.
    pub fn into_vec(self) -> Vec<StringAttribute>
        ensures value { result.items ≡ self }
        ensures rising { AreInOrder (keys_of result.items) }
    {
        self.items
    }

    pub fn as_slice(&self) -> &[StringAttribute]
        ensures value { result.now ≡ self.now }
        ensures rising { AreInOrder (keys_of result.now) }
    {
        &self.items
    }
}

impl PartialEq for StringAttributes {
    ghost use Rattle.std.specs.Cmp.Lexicographic.{pointwise, lists_equiv};
    ghost use Rattle.std.specs.Cmp.{partial_equiv_from_equiv};

    ghost eq = { pointwise ⟦<StringAttribute as PartialEq>⟧.eq };

    ghost laws = { partial_equiv_from_equiv (lists_equiv (Prim.search (comparing, rules))) };

    fn eq(&self, other: &StringAttributes) -> bool {
        self.as_slice() == other.as_slice()
    }
}

impl Eq for StringAttributes {
    ghost use Rattle.std.specs.Cmp.Lexicographic.{lists_equiv};

    ghost laws = { lists_equiv (Prim.search (comparing, rules)) };
}

fn is_key_byte(byte: u8) -> bool
    ensures { result ≡ is_key_byte byte }
{
    byte.is_ascii_alphanumeric() || byte == b'_' || byte == b'-' || byte == b'.'
}

fn has_key_bytes(bytes: &[u8]) -> bool
    ensures { result ≡ list_all is_key_byte bytes.now }
{
    bytes.iter().all(|byte| is_key_byte(*byte))
}

/// Whether the bytes may be a key: 1 to 64 letters, digits, `_`, `-` and `.`.
#[tactic(auto, unfolding(crate::specs::Strings::is_string_key))]
pub fn is_string_key(bytes: &[u8]) -> bool
    ensures { result ≡ is_string_key bytes.now }
{
    0 < bytes.len() && bytes.len() <= MAX_STRING_KEY && has_key_bytes(bytes)
}

fn is_value_byte(byte: u8) -> bool
    ensures { result ≡ is_value_byte byte }
{
    32 <= byte && !(byte == 127)
}

fn has_value_bytes(bytes: &[u8]) -> bool
    ensures { result ≡ list_all is_value_byte bytes.now }
{
    bytes.iter().all(|byte| is_value_byte(*byte))
}

/// Whether the bytes may be a value: at most 1024, none of them below 20 hexadecimal, and no 7f.
#[tactic(auto, unfolding(crate::specs::Strings::is_string_value))]
pub fn is_string_value(bytes: &[u8]) -> bool
    ensures { result ≡ is_string_value bytes.now }
{
    bytes.len() <= MAX_STRING_VALUE && has_value_bytes(bytes)
}

/// The format of an attribute: its key, a zero byte, its value and a zero byte.
pub enum StringFormat {}

impl Format for StringFormat {
    type Value = StringAttribute;

    ghost reading = { string_at };

    ghost spelling = { string };

    ghost fits = { IsString };

    ghost is_field = { string_field };

    #[tactic(auto, unfolding(crate::specs::Strings::string_at, kdb_format::specs::Readings::checked))]
    fn read(alloc: Global, reader: &mut Reader) -> Result<StringAttribute, FormatFault> {
        let key = read_ended(reader)?;
        if !is_string_key(key) {
            return Err(FormatFault::Malformed);
        }
        let value = read_ended(reader)?;
        if !is_string_value(value) {
            return Err(FormatFault::Malformed);
        }
        let key = Blob::from_bytes(alloc, key)?;
        let value = Blob::from_bytes(alloc, value)?;
        Ok(StringAttribute { key, value })
    }

    fn write(out: &mut Vec<u8>, value: &StringAttribute) -> Result<(), MemoryOut> {
        push_string(out, value)
    }
}

#[tactic(auto, unfolding(crate::specs::Strings::string))]
fn push_string(out: &mut Vec<u8>, value: &StringAttribute) -> Result<(), MemoryOut>
    ensures { OnOk result (out.new.items ≡ out.old.items ++ string value.now) }
{
    push_ended(out, value.key.as_slice())?;
    push_ended(out, value.value.as_slice())?;
    Ok(())
}

/// Appends the content that spells the attributes.
#[tactic(auto, unfolding(crate::specs::Strings::strings_text))]
pub fn push_strings(out: &mut Vec<u8>, list: &StringAttributes) -> Result<(), MemoryOut>
    ensures { OnOk result (out.new.items ≡ out.old.items ++ strings_text list.now) }
{
    let items = list.as_slice();
    for item in items {
        push_string(out, item)?;
    }
    Ok(())
}

fn is_behind(last: Option<&[u8]>, key: &[u8]) -> bool
    ensures { result ≡ is_behind (option_map (λ k. k.now) last.entry) key.now }
{
    match last {
        Some(last) => last.cmp(key) == Ordering::Less,
        None => true,
    }
}

// Whether each key is behind the one before it.
#[tactic(auto, unfolding(crate::specs::KeyOrder::rises_from))]
fn are_in_order(items: &[StringAttribute]) -> bool
    ensures { result ≡ rises_from None (keys_of items.now) }
{
    let mut last = None;
    for item in items {
        let key = item.key.as_slice();
        if !is_behind(last, key) {
            return false;
        }
        last = Some(key);
    }
    true
}

#[tactic(auto, unfolding(crate::specs::Strings::are_strings))]
fn are_strings(items: &[StringAttribute]) -> bool
    ensures { result ≡ are_strings items.now }
{
    0 < items.len() && items.len() <= MAX_STRINGS && are_in_order(items)
}

/// The attributes that the bytes spell, each byte of them.
#[tactic(auto, unfolding(crate::specs::Strings::strings_at))]
pub fn strings_in(alloc: Global, bytes: &[u8]) -> Result<StringAttributes, FormatFault>
    ensures { FindsFormat result (strings_at bytes.now) }
{
    let items = read_rest::<StringFormat>(alloc, bytes)?;
    if !are_strings(&items) {
        return Err(FormatFault::Malformed);
    }
    Ok(StringAttributes::from_vec(items))
}

fn read_strings(alloc: Global, bytes: &[u8]) -> Result<StringAttributes, TagFault>
    ensures { Finds result (strings_at bytes.now) }
{
    match strings_in(alloc, bytes) {
        Ok(attributes) => Ok(attributes),
        Err(fault) => Err(TagFault::from(fault)),
    }
}

/// The string attributes. BadTagged where there is no such item, or its content is not of this form.
pub fn strings(alloc: Global, list: &TagList) -> Result<StringAttributes, TagFault>
    // What is read is spelled so.
    ensures found { IfOk result
        (λ xs. content STRINGS list.now ≡ Some (strings_text xs) × (AreStrings xs × (0 < length xs))) }
    // What is spelled so is read, unless memory runs out.
    ensures only { (xs : List StringAttribute) → AreStrings xs → 0 < length xs
        → content STRINGS list.now ≡ Some (strings_text xs) → Finds result (Some xs) }
    ensures exact { Finds result (option_and_then strings_at (content STRINGS list.now)) }
{
    match content(list, STRINGS) {
        Some(bytes) => read_strings(alloc, bytes),
        None => Err(TagFault::BadTagged),
    }
}
