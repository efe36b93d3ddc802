//! What K/M's record holds by the version of a master key: activations and auxiliary keys.

ghost use Rattle.std.specs.Prelude.{◌≡◌, ◌++◌, ◌<◌, ◌^◌, ℕ, List, length, Some, IfOk, OnOk, option_and_then};
ghost use Rattle.std.specs.List.{All};
ghost use Rattle.kdb_base.specs.declared.versions.Activation.{Activation};
ghost use Rattle.kdb_base.specs.declared.versions.AuxKey.{AuxKey};
ghost use Rattle.kdb_format.specs.Answers.{ReadsAs};
ghost use Rattle.tagged_data.specs.Answers.{Finds};
ghost use Rattle.tagged_data.specs.Lists.{content};
ghost use Rattle.tagged_data.specs.Versions.{activation, activation_at, activation_field, activations_at};
ghost use Rattle.tagged_data.specs.Versions.{activations_text, AreActivations, IsActivation};
ghost use Rattle.tagged_data.specs.Versions.{aux_key, aux_key_at, aux_key_field, aux_keys_at};
ghost use Rattle.tagged_data.specs.Versions.{aux_keys_text, AreAuxKeys, IsAuxKey};
ghost use Rattle.tagged_data.specs.Versions.{wrapped_at, wrapped_text};

use crate::faults::TagFault;
use crate::kinds::{ACTIVATIONS, AUX_KEYS};
use crate::lists::{TagList, content};
use crate::numbers::take_version;
use crate::rest::read_rest;
use crate::rising::are_rising;
use kdb_base::{Activation, Activations, AuxKey, AuxList, Blob, MemoryOut};
use kdb_format::etypes::{push_etype_le, read_etype_le};
use kdb_format::writing::{push_bytes, push_u16_le, push_u32_le};
use kdb_format::{Format, FormatFault, Malformed, Reader};
use std::alloc::Global;

/// The format of an activation: a version, and its seconds since 1970.
pub enum ActivationFormat {}

impl Format for ActivationFormat {
    type Value = Activation;

    ghost reading = { activation_at };

    ghost spelling = { activation };

    ghost fits = { IsActivation };

    ghost is_field = { activation_field };

    #[tactic(auto, unfolding(crate::specs::Versions::activation_at))]
    fn read(_alloc: Global, reader: &mut Reader) -> Result<Activation, FormatFault> {
        let version = take_version(reader)?;
        let secs = reader.u32_le()?;
        Ok(Activation { version, secs })
    }

    fn write(out: &mut Vec<u8>, value: &Activation) -> Result<(), MemoryOut> {
        push_activation(out, value)
    }
}

#[tactic(auto, unfolding(crate::specs::Versions::activation))]
fn push_activation(out: &mut Vec<u8>, value: &Activation) -> Result<(), MemoryOut>
    ensures { OnOk result (out.new.items ≡ out.old.items ++ activation value.now) }
{
    push_u16_le(out, value.version)?;
    push_u32_le(out, value.secs)?;
    Ok(())
}

/// Appends the content that spells the activations.
#[tactic(auto, unfolding(crate::specs::Versions::activations_text))]
pub fn push_activations(out: &mut Vec<u8>, list: &Activations) -> Result<(), MemoryOut>
    ensures { OnOk result (out.new.items ≡ out.old.items ++ activations_text list.now) }
{
    let items = list.as_slice();
    for item in items {
        push_activation(out, item)?;
    }
    Ok(())
}

#[tactic(auto, unfolding(crate::specs::Versions::activations_at, crate::specs::Contents::in_order))]
fn read_activations(alloc: Global, bytes: &[u8]) -> Result<Activations, TagFault>
    ensures { Finds result (activations_at bytes.now) }
{
    let items = match read_rest::<ActivationFormat>(alloc, bytes) {
        Ok(items) => items,
        Err(fault) => return Err(TagFault::from(fault)),
    };
    if !are_rising(&items) {
        return Err(TagFault::BadTagged);
    }
    Ok(Activations::from_vec(items))
}

/// From when on each version of the master key may be active. BadTagged where there is no such item,
/// or its content is not of this form.
pub fn activations(alloc: Global, list: &TagList) -> Result<Activations, TagFault>
    // What is read is spelled so.
    ensures found { IfOk result (λ xs. content ACTIVATIONS list.now ≡ Some (activations_text xs) × AreActivations xs) }
    // What is spelled so is read, unless memory runs out.
    ensures only { (xs : List Activation) → AreActivations xs
        → content ACTIVATIONS list.now ≡ Some (activations_text xs) → Finds result (Some xs) }
    ensures exact { Finds result (option_and_then activations_at (content ACTIVATIONS list.now)) }
{
    match content(list, ACTIVATIONS) {
        Some(bytes) => read_activations(alloc, bytes),
        None => Err(TagFault::BadTagged),
    }
}

#[tactic(auto, unfolding(crate::specs::Versions::wrapped_at))]
fn read_wrapped<'a>(reader: &mut Reader<'a>) -> Result<&'a [u8], Malformed>
    ensures { ReadsAs (λ bytes. bytes.now) result reader.new (wrapped_at reader.old) }
{
    let len = reader.u16_le()?;
    reader.bytes(usize::from(len))
}

/// The format of an auxiliary key: a version, the newest key's type, and that key wrapped.
pub enum AuxKeyFormat {}

impl Format for AuxKeyFormat {
    type Value = AuxKey;

    ghost reading = { aux_key_at };

    ghost spelling = { aux_key };

    ghost fits = { IsAuxKey };

    ghost is_field = { aux_key_field };

    #[tactic(auto, unfolding(crate::specs::Versions::aux_key_at))]
    fn read(alloc: Global, reader: &mut Reader) -> Result<AuxKey, FormatFault> {
        let version = take_version(reader)?;
        let etype = read_etype_le(reader)?;
        let wrapped = Blob::from_bytes(alloc, read_wrapped(reader)?)?;
        Ok(AuxKey {
            version,
            etype,
            wrapped,
        })
    }

    fn write(out: &mut Vec<u8>, value: &AuxKey) -> Result<(), MemoryOut> {
        push_aux_key(out, value)
    }
}

#[tactic(auto, unfolding(crate::specs::Versions::wrapped_text))]
fn push_wrapped(out: &mut Vec<u8>, bytes: &[u8]) -> Result<(), MemoryOut>
    requires { length bytes.now < 2 ^ 16 }
    ensures { OnOk result (out.new.items ≡ out.old.items ++ wrapped_text bytes.now) }
{
    push_u16_le(out, bytes.len() as u16)?;
    push_bytes(out, bytes)?;
    Ok(())
}

#[tactic(auto, unfolding(crate::specs::Versions::aux_key))]
fn push_aux_key(out: &mut Vec<u8>, value: &AuxKey) -> Result<(), MemoryOut>
    requires { length value.now.wrapped < 2 ^ 16 }
    ensures { OnOk result (out.new.items ≡ out.old.items ++ aux_key value.now) }
{
    push_u16_le(out, value.version)?;
    push_etype_le(out, value.etype)?;
    push_wrapped(out, value.wrapped.as_slice())?;
    Ok(())
}

/// Appends the content that spells the auxiliary keys.
#[tactic(auto, unfolding(crate::specs::Versions::aux_keys_text))]
pub fn push_aux_keys(out: &mut Vec<u8>, list: &AuxList) -> Result<(), MemoryOut>
    requires { All (λ key. length key.wrapped < 2 ^ 16) list.now }
    ensures { OnOk result (out.new.items ≡ out.old.items ++ aux_keys_text list.now) }
{
    let items = list.as_slice();
    for item in items {
        push_aux_key(out, item)?;
    }
    Ok(())
}

#[tactic(auto, unfolding(crate::specs::Versions::aux_keys_at, crate::specs::Contents::in_order))]
fn read_aux_keys(alloc: Global, bytes: &[u8]) -> Result<AuxList, TagFault>
    ensures { Finds result (aux_keys_at bytes.now) }
{
    let keys = match read_rest::<AuxKeyFormat>(alloc, bytes) {
        Ok(keys) => keys,
        Err(fault) => return Err(TagFault::from(fault)),
    };
    if !are_rising(&keys) {
        return Err(TagFault::BadTagged);
    }
    Ok(AuxList::from_vec(keys))
}

/// The newest master key, wrapped under each older one. BadTagged where there is no such item, or its
/// content is not of this form. Whether a key unwraps is not judged.
pub fn aux_keys(alloc: Global, list: &TagList) -> Result<AuxList, TagFault>
    // What is read is spelled so.
    ensures found { IfOk result (λ xs. content AUX_KEYS list.now ≡ Some (aux_keys_text xs) × AreAuxKeys xs) }
    // What is spelled so is read, unless memory runs out.
    ensures only { (xs : List AuxKey) → AreAuxKeys xs → content AUX_KEYS list.now ≡ Some (aux_keys_text xs)
        → Finds result (Some xs) }
    ensures exact { Finds result (option_and_then aux_keys_at (content AUX_KEYS list.now)) }
{
    match content(list, AUX_KEYS) {
        Some(bytes) => read_aux_keys(alloc, bytes),
        None => Err(TagFault::BadTagged),
    }
}
