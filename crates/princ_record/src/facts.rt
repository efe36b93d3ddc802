//! What a principal's tagged list says, read and written without the list.

ghost use Rattle.std.specs.Prelude.{◌≡◌, ◌++◌, ◌<◌, ◌^◌, ◌+◌, ◌*◌, length, OnOk, is_some};
ghost use Rattle.kdb_format.specs.Answers.{Finds, Gives, Reads, ReadsAs};
ghost use Rattle.kdb_format.specs.Readings.{literal_at, whole, little_at};
ghost use Rattle.kdb_format.specs.Spellings.{big, little};
ghost use Rattle.tagged_data.specs.Modifiers.{modifier_text};
ghost use Rattle.tagged_data.specs.Numbers.{version_at};
ghost use Rattle.tagged_data.specs.Versions.{activations_at, activations_text, aux_keys_at, aux_keys_text};
ghost use Rattle.princ_record.specs.Facts.{content_at, tag_at, tag, pw_text, modifier_of, pw_then_at};
ghost use Rattle.princ_record.specs.Facts.{changes_at, strings_count, strings_item, strings_item_at};
ghost use Rattle.princ_record.specs.Facts.{chain_part_at, chain_part, IsChain, chain_at, chain_text};
ghost use Rattle.princ_record.specs.Facts.{IsChainOr, base_of, facts_at, facts as facts_text, head, pw_len};
ghost use Rattle.tagged_data.specs.Versions.{AreAuxKeys};
ghost use Rattle.tagged_data.specs.Strings.{strings_at, strings_text, AreStrings};
ghost use Rattle.princ_record.specs.Princs.{facts_of};

use crate::princs::Princ;
use kdb_base::{Activations, AuxList, Blob, MemoryOut};
use kdb_format::writing::{push_counted, push_u16};
use kdb_format::{FormatFault, Malformed, Reader};
use princ_name::is_printed;
use std::alloc::Global;
use tagged_data::kinds::{ACTIVATIONS, AUX_KEYS, MKVNO, MODIFIER, PW_CHANGE, STRINGS};
use tagged_data::modifiers::read_ended;
use tagged_data::rest::read_rest;
use tagged_data::rising::are_rising;
use tagged_data::string_attributes::strings_in;
use tagged_data::versions::{ActivationFormat, AuxKeyFormat};
use tagged_data::{
    StringAttributes, aux_len, push_activations, push_aux_keys, push_modifier, push_strings,
    strings_len,
};

/// What the record of the master key's principal alone holds.
#[derive(Debug, Drop, PartialEq, Eq)]
pub struct ChainPart {
    /// From when on each version of the master key may be active.
    pub activations: Activations,
    /// The newest master key, wrapped under each older one.
    pub aux: AuxList,
}

/// The last password change, and who changed the record last and when.
#[derive(Drop)]
pub(crate) struct Changes {
    pub pw_changed: Option<u32>,
    pub modified: u32,
    pub modifier: Blob,
}

/// What a tagged list says.
#[derive(Drop)]
pub(crate) struct Facts {
    pub pw_changed: Option<u32>,
    pub modified: u32,
    pub modifier: Blob,
    pub mkvno: u16,
    pub chain: Option<ChainPart>,
    pub strings: StringAttributes,
}

#[tactic(auto, unfolding(kdb_format::specs::Spellings::big))]
fn read_kind(reader: &mut Reader, kind: u16) -> Result<(), Malformed>
    ensures { ReadsAs (λ _. tt) result reader.new (literal_at (big 2 kind) reader.old) }
{
    reader.literal(&kind.to_be_bytes())
}

#[tactic(auto, unfolding(crate::specs::Facts::content_at, kdb_format::specs::Readings::whole))]
fn read_secs(reader: &mut Reader) -> Result<u32, Malformed>
    ensures { Reads result reader.new (content_at (whole (little_at 4)) reader.old) }
{
    let mut content = Reader::new(reader.counted()?);
    let secs = content.u32_le()?;
    if !content.is_empty() {
        return Err(Malformed);
    }
    Ok(secs)
}

#[tactic(auto, unfolding(crate::specs::Facts::content_at, crate::specs::Facts::modifier_of, kdb_format::specs::Readings::whole, kdb_format::specs::Readings::checked, tagged_data::specs::Modifiers::modifier_at))]
fn read_modified(alloc: Global, reader: &mut Reader) -> Result<(u32, Blob), FormatFault>
    ensures { Gives result reader.new (content_at modifier_of reader.old) }
{
    let mut content = Reader::new(reader.counted()?);
    let secs = content.u32_le()?;
    let name = read_ended(&mut content)?;
    if !is_printed(name) {
        return Err(FormatFault::Malformed);
    }
    if !content.is_empty() {
        return Err(FormatFault::Malformed);
    }
    let name = Blob::from_bytes(alloc, name)?;
    Ok((secs, name))
}

#[tactic(auto, unfolding(crate::specs::Facts::tag_at))]
fn read_modifier(alloc: Global, reader: &mut Reader) -> Result<(u32, Blob), FormatFault>
    ensures { Gives result reader.new (tag_at 2 modifier_of reader.old) }
{
    read_kind(reader, MODIFIER)?;
    let modifier = read_modified(alloc, reader)?;
    Ok(modifier)
}

#[tactic(auto, unfolding(crate::specs::Facts::pw_then_at))]
fn read_pw_then(alloc: Global, reader: &mut Reader) -> Result<(u32, (u32, Blob)), FormatFault>
    ensures { Gives result reader.new (pw_then_at reader.old) }
{
    let secs = read_secs(reader)?;
    let modifier = read_modifier(alloc, reader)?;
    Ok((secs, modifier))
}

/// The first items: that of the last password change where the first has its type, and the modifier.
#[tactic(auto, unfolding(crate::specs::Facts::changes_at, crate::specs::Facts::changes_of))]
fn read_changes(alloc: Global, reader: &mut Reader) -> Result<Changes, FormatFault>
    ensures { Gives result reader.new (changes_at reader.old) }
{
    let kind = reader.u16()?;
    if kind == PW_CHANGE {
        let (secs, (modified, modifier)) = read_pw_then(alloc, reader)?;
        return Ok(Changes {
            pw_changed: Some(secs),
            modified,
            modifier,
        });
    }
    if kind == MODIFIER {
        let (modified, modifier) = read_modified(alloc, reader)?;
        return Ok(Changes {
            pw_changed: None,
            modified,
            modifier,
        });
    }
    Err(FormatFault::Malformed)
}

#[tactic(auto, unfolding(crate::specs::Facts::tag_at, crate::specs::Facts::content_at, kdb_format::specs::Readings::whole, kdb_format::specs::Readings::checked, tagged_data::specs::Numbers::version_at))]
fn read_mkvno(reader: &mut Reader) -> Result<u16, Malformed>
    ensures { Reads result reader.new (tag_at 8 (whole version_at) reader.old) }
{
    read_kind(reader, MKVNO)?;
    let mut content = Reader::new(reader.counted()?);
    let version = content.u16_le()?;
    if version == 0 {
        return Err(Malformed);
    }
    if !content.is_empty() {
        return Err(Malformed);
    }
    Ok(version)
}

#[tactic(auto, unfolding(tagged_data::specs::Versions::activations_at, tagged_data::specs::Contents::in_order))]
fn activations_in(alloc: Global, bytes: &[u8]) -> Result<Activations, FormatFault>
    ensures { Finds result (activations_at bytes.now) }
{
    let items = read_rest::<ActivationFormat>(alloc, bytes)?;
    if !are_rising(&items) {
        return Err(FormatFault::Malformed);
    }
    Ok(Activations::from_vec(items))
}

#[tactic(auto, unfolding(tagged_data::specs::Versions::aux_keys_at, tagged_data::specs::Contents::in_order))]
fn aux_keys_in(alloc: Global, bytes: &[u8]) -> Result<AuxList, FormatFault>
    ensures { Finds result (aux_keys_at bytes.now) }
{
    let keys = read_rest::<AuxKeyFormat>(alloc, bytes)?;
    if !are_rising(&keys) {
        return Err(FormatFault::Malformed);
    }
    Ok(AuxList::from_vec(keys))
}

#[tactic(auto, unfolding(crate::specs::Facts::tag_at, crate::specs::Facts::content_at))]
fn read_activations(alloc: Global, reader: &mut Reader) -> Result<Activations, FormatFault>
    ensures { Gives result reader.new (tag_at 9 activations_at reader.old) }
{
    read_kind(reader, ACTIVATIONS)?;
    let content = reader.counted()?;
    let activations = activations_in(alloc, content)?;
    Ok(activations)
}

#[tactic(auto, unfolding(crate::specs::Facts::tag_at, crate::specs::Facts::content_at))]
fn read_aux_keys(alloc: Global, reader: &mut Reader) -> Result<AuxList, FormatFault>
    ensures { Gives result reader.new (tag_at 10 aux_keys_at reader.old) }
{
    read_kind(reader, AUX_KEYS)?;
    let content = reader.counted()?;
    let aux = aux_keys_in(alloc, content)?;
    Ok(aux)
}

#[tactic(auto, unfolding(crate::specs::Facts::chain_part_at))]
fn read_chain_part(alloc: Global, reader: &mut Reader) -> Result<ChainPart, FormatFault>
    ensures { Gives result reader.new (chain_part_at reader.old) }
{
    let activations = read_activations(alloc, reader)?;
    let aux = read_aux_keys(alloc, reader)?;
    Ok(ChainPart { activations, aux })
}

#[tactic(auto, unfolding(crate::specs::Facts::chain_at))]
fn read_chain(
    alloc: Global,
    reader: &mut Reader,
    master: bool,
) -> Result<Option<ChainPart>, FormatFault>
    ensures { Gives result reader.new (chain_at master reader.old) }
{
    if !master {
        return Ok(None);
    }
    let chain = read_chain_part(alloc, reader)?;
    Ok(Some(chain))
}

fn base_of(master: bool) -> u16
    ensures value { result ≡ base_of master }
    ensures small { result < 10 }
{
    if master { 4 } else { 2 }
}

#[tactic(auto, unfolding(crate::specs::Facts::tag_at, crate::specs::Facts::content_at))]
fn read_strings(alloc: Global, reader: &mut Reader) -> Result<StringAttributes, FormatFault>
    ensures { Gives result reader.new (tag_at 11 strings_at reader.old) }
{
    read_kind(reader, STRINGS)?;
    let content = reader.counted()?;
    let strings = strings_in(alloc, content)?;
    Ok(strings)
}

/// The last item, where one more is counted than stands before it. K/M has none.
#[tactic(auto, unfolding(crate::specs::Facts::strings_item_at))]
fn read_strings_item(
    alloc: Global,
    reader: &mut Reader,
    master: bool,
    before: u16,
    count: u16,
) -> Result<StringAttributes, FormatFault>
    requires { before < 1000 }
    ensures { Gives result reader.new (strings_item_at master before count reader.old) }
{
    if count == before {
        return Ok(StringAttributes::new(alloc));
    }
    if count == before + 1 && !master {
        let strings = read_strings(alloc, reader)?;
        return Ok(strings);
    }
    Err(FormatFault::Malformed)
}

fn items_before(master: bool, changes: &Changes) -> u16
    ensures value { result ≡ base_of master + pw_len changes.now.pw_changed }
    ensures small { result < 1000 }
{
    base_of(master) + pw_len(changes.pw_changed)
}

/// Reads a tagged list, that of K/M or of another principal.
#[tactic(auto, unfolding(crate::specs::Facts::facts_at))]
pub(crate) fn read_facts(
    alloc: Global,
    reader: &mut Reader,
    master: bool,
) -> Result<Facts, FormatFault>
    ensures { Gives result reader.new (facts_at master reader.old) }
{
    let count = reader.u16()?;
    let changes = read_changes(alloc, reader)?;
    let mkvno = read_mkvno(reader)?;
    let chain = read_chain(alloc, reader, master)?;
    let before = items_before(master, &changes);
    let strings = read_strings_item(alloc, reader, master, before, count)?;
    Ok(Facts {
        pw_changed: changes.pw_changed,
        modified: changes.modified,
        modifier: changes.modifier,
        mkvno,
        chain,
        strings,
    })
}

#[tactic(auto, unfolding(crate::specs::Facts::head))]
fn push_head(out: &mut Vec<u8>, kind: u16, len: usize) -> Result<(), MemoryOut>
    requires { len < 2 ^ 16 }
    ensures { OnOk result (out.new.items ≡ out.old.items ++ head kind len) }
{
    push_u16(out, kind)?;
    push_u16(out, len as u16)?;
    Ok(())
}

#[tactic(auto, unfolding(crate::specs::Facts::tag))]
fn push_tag(out: &mut Vec<u8>, kind: u16, content: &[u8]) -> Result<(), MemoryOut>
    requires { length content.now < 2 ^ 16 }
    ensures { OnOk result (out.new.items ≡ out.old.items ++ tag kind content.now) }
{
    push_u16(out, kind)?;
    push_counted(out, content)?;
    Ok(())
}

#[tactic(auto, unfolding(kdb_format::specs::Spellings::little))]
fn push_pw_change(out: &mut Vec<u8>, secs: u32) -> Result<(), MemoryOut>
    ensures { OnOk result (out.new.items ≡ out.old.items ++ tag 1 (little 4 secs)) }
{
    push_tag(out, PW_CHANGE, &secs.to_le_bytes())
}

#[tactic(auto, unfolding(crate::specs::Facts::pw_text))]
fn push_pw(out: &mut Vec<u8>, pw_changed: Option<u32>) -> Result<(), MemoryOut>
    ensures { OnOk result (out.new.items ≡ out.old.items ++ pw_text pw_changed) }
{
    match pw_changed {
        Some(secs) => {
            push_pw_change(out, secs)?;
            Ok(())
        }
        None => Ok(()),
    }
}

#[tactic(auto, using(crate::proofs::Heads::modifier_behind))]
fn push_modified(out: &mut Vec<u8>, secs: u32, name: &[u8]) -> Result<(), MemoryOut>
    requires { length name.now < 300 }
    ensures { OnOk result (out.new.items ≡ out.old.items ++ tag 2 (modifier_text (secs, name.now))) }
{
    push_head(out, MODIFIER, 5 + name.len())?;
    push_modifier(out, secs, name)?;
    Ok(())
}

#[tactic(auto, unfolding(kdb_format::specs::Spellings::little))]
fn push_mkvno(out: &mut Vec<u8>, mkvno: u16) -> Result<(), MemoryOut>
    ensures { OnOk result (out.new.items ≡ out.old.items ++ tag 8 (little 2 mkvno)) }
{
    push_tag(out, MKVNO, &mkvno.to_le_bytes())
}

#[tactic(auto, using(crate::proofs::Heads::activations_behind))]
fn push_activations_tag(out: &mut Vec<u8>, list: &Activations) -> Result<(), MemoryOut>
    requires { 6 * length list.now < 2 ^ 16 }
    ensures { OnOk result (out.new.items ≡ out.old.items ++ tag 9 (activations_text list.now)) }
{
    push_head(out, ACTIVATIONS, 6 * list.as_slice().len())?;
    push_activations(out, list)?;
    Ok(())
}

#[tactic(auto, using(crate::proofs::Heads::aux_keys_behind))]
fn push_aux_tag(out: &mut Vec<u8>, list: &AuxList) -> Result<(), MemoryOut>
    requires fit { AreAuxKeys list.now }
    requires short { length (aux_keys_text list.now) < 2 ^ 16 }
    ensures { OnOk result (out.new.items ≡ out.old.items ++ tag 10 (aux_keys_text list.now)) }
{
    push_head(out, AUX_KEYS, aux_len(list))?;
    push_aux_keys(out, list)?;
    Ok(())
}

#[tactic(auto, unfolding(crate::specs::Facts::chain_part))]
fn push_chain_part(out: &mut Vec<u8>, chain: &ChainPart) -> Result<(), MemoryOut>
    requires { IsChain chain.now }
    ensures { OnOk result (out.new.items ≡ out.old.items ++ chain_part chain.now) }
{
    push_activations_tag(out, &chain.activations)?;
    push_aux_tag(out, &chain.aux)?;
    Ok(())
}

#[tactic(auto, unfolding(crate::specs::Facts::chain_text))]
fn push_chain(out: &mut Vec<u8>, chain: &Option<ChainPart>) -> Result<(), MemoryOut>
    requires { IsChainOr chain.now }
    ensures { OnOk result (out.new.items ≡ out.old.items ++ chain_text chain.now) }
{
    match chain {
        Some(part) => {
            push_chain_part(out, part)?;
            Ok(())
        }
        None => Ok(()),
    }
}

fn is_some(chain: &Option<ChainPart>) -> bool
    ensures { result ≡ is_some chain.now }
{
    chain.is_some()
}

fn pw_len(pw_changed: Option<u32>) -> u16
    ensures value { result ≡ pw_len pw_changed }
    ensures small { result < 2 }
{
    match pw_changed {
        Some(_) => 1,
        None => 0,
    }
}

#[tactic(auto, using(crate::proofs::Heads::strings_behind))]
fn push_strings_tag(out: &mut Vec<u8>, list: &StringAttributes) -> Result<(), MemoryOut>
    requires { AreStrings list.now }
    ensures { OnOk result (out.new.items ≡ out.old.items ++ tag 11 (strings_text list.now)) }
{
    push_head(out, STRINGS, strings_len(list))?;
    push_strings(out, list)?;
    Ok(())
}

fn push_strings_item(out: &mut Vec<u8>, list: &StringAttributes) -> Result<(), MemoryOut>
    requires { AreStrings list.now }
    ensures { OnOk result (out.new.items ≡ out.old.items ++ strings_item list.now) }
{
    if list.as_slice().is_empty() {
        return Ok(());
    }
    push_strings_tag(out, list)
}

fn strings_count(list: &StringAttributes) -> u16
    ensures value { result ≡ strings_count list.now }
    ensures small { result < 2 }
{
    if list.as_slice().is_empty() { 0 } else { 1 }
}

/// Appends the tagged list of a principal.
#[tactic(auto, unfolding(crate::specs::Facts::facts))]
pub(crate) fn push_facts(out: &mut Vec<u8>, princ: &Princ) -> Result<(), MemoryOut>
    requires modifier { length princ.now.modifier < 300 }
    requires chain { IsChainOr princ.now.chain }
    requires strings { AreStrings princ.now.strings }
    ensures { OnOk result (out.new.items ≡ out.old.items ++ facts_text (facts_of princ.now)) }
{
    let always = base_of(is_some(&princ.chain));
    push_u16(
        out,
        always + pw_len(princ.pw_changed) + strings_count(&princ.strings),
    )?;
    push_pw(out, princ.pw_changed)?;
    push_modified(out, princ.modified, princ.modifier.as_slice())?;
    push_mkvno(out, princ.mkvno)?;
    push_chain(out, &princ.chain)?;
    push_strings_item(out, &princ.strings)?;
    Ok(())
}
