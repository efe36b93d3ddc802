//! The values of options.

ghost use Rattle.std.specs.Prelude.{◌≡◌, ◌≤◌, IfOk, IfSome, is_some, option_map};
ghost use Rattle.kadm_values.specs.EtypeWords.{etypes_in};
ghost use Rattle.std.specs.List.{filter_map};
ghost use Rattle.kadm_options.specs.OptionValues.{bad_in, first_bad_in, flag_of, is_readable};
ghost use Rattle.kadm_options.specs.OptionValues.{number_within, policy_by, policy_given, seconds_by};
ghost use Rattle.kadm_options.specs.OptionValues.{seconds_given, seconds_of, word_by, word_given};

use crate::options::{Given, OptionName, ValueKind, same_option};
use kadm_values::{FlagChange, read_duration, read_etype, read_etypes, read_number, read_time};
use kdb_base::{Blob, Field, MemoryOut};
use policy_rules::is_policy_name;
use std::alloc::Global;

/// The number of a word, where it is one from the least to the greatest.
#[tactic(auto, unfolding(crate::specs::OptionValues::number_within))]
pub fn read_within(least: u32, most: u32, word: &[u8]) -> Option<u32>
    ensures value { result ≡ number_within least most word.now }
    ensures within { IfSome result (λ number. (least ≤ number) × (number ≤ most)) }
{
    match read_number(word) {
        Some(number) => {
            if u64::from(least) <= number && number <= u64::from(most) {
                Some(number as u32)
            } else {
                None
            }
        }
        None => None,
    }
}

fn is_etype_list(alloc: Global, word: &[u8]) -> Result<bool, MemoryOut>
    ensures { IfOk result (λ is. is ≡ is_some (etypes_in word.now)) }
{
    match read_etypes(alloc, word)? {
        Some(_) => Ok(true),
        None => Ok(false),
    }
}

// Whether the word spells such a value.
#[tactic(auto, unfolding(crate::specs::OptionValues::is_readable))]
fn is_readable(alloc: Global, kind: ValueKind, word: &[u8]) -> Result<bool, MemoryOut>
    ensures { IfOk result (λ readable. readable ≡ is_readable kind word.now) }
{
    match kind {
        ValueKind::Time => Ok(read_time(word).is_some()),
        ValueKind::Duration => Ok(read_duration(word).is_some()),
        ValueKind::PolicyName => Ok(is_policy_name(word)),
        ValueKind::Word => Ok(true),
        ValueKind::EtypeList => is_etype_list(alloc, word),
        ValueKind::OneEtype => Ok(read_etype(word).is_some()),
        ValueKind::Number(least, most) => Ok(read_within(least, most, word).is_some()),
    }
}

// The seconds that the word spells, where the value is one of seconds.
#[tactic(auto, unfolding(crate::specs::OptionValues::seconds_of))]
fn seconds_of(kind: ValueKind, word: &[u8]) -> Option<u32>
    ensures { result ≡ seconds_of kind word.now }
{
    match kind {
        ValueKind::Time => read_time(word),
        ValueKind::Duration => read_duration(word),
        _ => None,
    }
}

// The field of an option whose value is unreadable.
fn bad_field(alloc: Global, given: &Given) -> Result<Option<Field>, MemoryOut>
    ensures { IfOk result (λ field. field ≡ bad_in given.now) }
{
    match given {
        Given::Flag(_) => Ok(None),
        Given::Alone(_) => Ok(None),
        Given::Value(setting, word) => {
            if is_readable(alloc, setting.kind, word.as_slice())? {
                Ok(None)
            } else {
                Ok(Some(setting.field))
            }
        }
    }
}

/// The field of the first option whose value is unreadable. Only want of memory can refuse the search.
#[tactic(auto, unfolding(crate::specs::OptionValues::first_bad_in))]
pub fn first_bad(alloc: Global, options: &[Given]) -> Result<Option<Field>, MemoryOut>
    ensures { IfOk result (λ field. field ≡ first_bad_in options.now) }
{
    for given in options {
        match bad_field(alloc, given)? {
            Some(field) => return Ok(Some(field)),
            None => {}
        }
    }
    Ok(None)
}

fn seconds_by(option: OptionName, given: &Given) -> Option<u32>
    ensures { result ≡ seconds_by option given.now }
{
    match given {
        Given::Flag(_) => None,
        Given::Alone(_) => None,
        Given::Value(setting, word) => {
            if same_option(setting.option, option) {
                seconds_of(setting.kind, word.as_slice())
            } else {
                None
            }
        }
    }
}

/// The seconds of the first option of this name that has some: since 1970 those of a time, else those of a
/// duration.
#[tactic(auto, unfolding(crate::specs::OptionValues::seconds_given))]
pub fn find_seconds(option: OptionName, options: &[Given]) -> Option<u32>
    ensures { result ≡ seconds_given option options.now }
{
    for given in options {
        match seconds_by(option, given) {
            Some(seconds) => return Some(seconds),
            None => {}
        }
    }
    None
}

fn word_by<'a>(wanted: OptionName, given: &'a Given) -> Option<&'a [u8]>
    ensures { option_map (λ word. word.now) result ≡ word_by wanted given.now }
{
    match given {
        Given::Flag(_) => None,
        Given::Alone(_) => None,
        Given::Value(setting, word) => {
            if same_option(setting.option, wanted) {
                Some(word.as_slice())
            } else {
                None
            }
        }
    }
}

/// The word of the first option of this name that has one.
#[tactic(auto, unfolding(crate::specs::OptionValues::word_given))]
pub fn find_word<'a>(option: OptionName, options: &'a [Given]) -> Option<&'a [u8]>
    ensures { option_map (λ word. word.now) result ≡ word_given option options.now }
{
    for given in options {
        match word_by(option, given) {
            Some(word) => return Some(word),
            None => {}
        }
    }
    None
}

fn policy_by(alloc: Global, given: &Given) -> Result<Option<Option<Blob>>, MemoryOut>
    ensures { IfOk result (λ policy. policy ≡ policy_by given.now) }
{
    match given {
        Given::Flag(_) => Ok(None),
        Given::Alone(option) => {
            if same_option(*option, OptionName::ClearPolicy) {
                Ok(Some(None))
            } else {
                Ok(None)
            }
        }
        Given::Value(setting, word) => {
            if same_option(setting.option, OptionName::Policy) {
                let name = Blob::from_bytes(alloc, word.as_slice())?;
                Ok(Some(Some(name)))
            } else {
                Ok(None)
            }
        }
    }
}

/// The policy, `Some(None)` where it is taken away, and None where the options do not speak of it.
#[tactic(auto, unfolding(crate::specs::OptionValues::policy_given))]
pub fn find_policy(alloc: Global, options: &[Given]) -> Result<Option<Option<Blob>>, MemoryOut>
    ensures { IfOk result (λ policy. policy ≡ policy_given options.now) }
{
    for given in options {
        match policy_by(alloc, given)? {
            Some(policy) => return Ok(Some(policy)),
            None => {}
        }
    }
    Ok(None)
}

fn flag_of(given: &Given) -> Option<FlagChange>
    ensures { result ≡ flag_of given.now }
{
    match given {
        Given::Flag(change) => Some(*change),
        Given::Alone(_) => None,
        Given::Value(_, _) => None,
    }
}

/// What the flags do, in the order of the line.
pub fn flags_among(alloc: Global, options: &[Given]) -> Result<Vec<FlagChange>, MemoryOut>
    ensures { IfOk result (λ flags. flags.items ≡ filter_map flag_of options.now) }
{
    let flags = options
        .iter()
        .filter_map(|given| flag_of(given))
        .collect(alloc)?;
    Ok(flags)
}
