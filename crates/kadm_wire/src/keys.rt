//! The keys that options ask for.

ghost use Rattle.std.specs.Prelude.{◌≡◌, unwrap_or, IfOk};
ghost use Rattle.kadm_options.specs.OptionValues.{word_given};
ghost use Rattle.kadm_options.specs.declared.options.OptionName.TheVariants as option;
ghost use Rattle.kadm_values.specs.EtypeWords.{etypes_in};
ghost use Rattle.kadm_wire.specs.Commands.{default_etypes, etypes_by, keys_by, keys_given, new_keys};

use kadm_options::{Given, OptionName, find_word, is_given};
use kadm_values::read_etypes;
use kdb_base::{Etype, MemoryOut};
use plain_keys::{Etypes, NewKeys, Password};
use std::alloc::Global;

#[tactic(auto, unfolding(crate::specs::Commands::default_etypes))]
fn default_etypes(alloc: Global) -> Result<Etypes, MemoryOut>
    ensures { IfOk result (λ etypes. etypes ≡ default_etypes) }
{
    let mut etypes = Vec::new(alloc);
    etypes.push(Etype::Aes256)?;
    etypes.push(Etype::Aes128)?;
    Ok(Etypes::from_vec(etypes))
}

fn listed_etypes(alloc: Global, word: &[u8]) -> Result<Etypes, MemoryOut>
    ensures { IfOk result (λ etypes. etypes ≡ unwrap_or (etypes_in word.now) default_etypes) }
{
    match read_etypes(alloc, word)? {
        Some(etypes) => Ok(Etypes::from_vec(etypes)),
        None => default_etypes(alloc),
    }
}

// The types of -e, or the default ones.
fn etypes_given(alloc: Global, options: &[Given]) -> Result<Etypes, MemoryOut>
    ensures { IfOk result (λ etypes. etypes ≡ etypes_by (word_given option.Enctypes options.now)) }
{
    match find_word(OptionName::Enctypes, options) {
        Some(word) => listed_etypes(alloc, word),
        None => default_etypes(alloc),
    }
}

fn password_keys(alloc: Global, password: &[u8], etypes: Etypes) -> Result<NewKeys, MemoryOut>
    ensures { IfOk result (λ keys. keys ≡ NewKeys.Password password.now etypes) }
{
    let password = Password::from_bytes(alloc, password)?;
    Ok(NewKeys::Password(password, etypes))
}

/// The keys of the password of `-pw`, or random ones.
#[tactic(auto, unfolding(crate::specs::Commands::new_keys))]
pub(crate) fn new_keys(alloc: Global, options: &[Given]) -> Result<NewKeys, MemoryOut>
    ensures { IfOk result (λ keys. keys ≡ new_keys options.now) }
{
    let etypes = etypes_given(alloc, options)?;
    match find_word(OptionName::Password, options) {
        Some(password) => password_keys(alloc, password, etypes),
        None => Ok(NewKeys::Random(etypes)),
    }
}

/// The keys of a new principal, or none by `-nokey`.
#[tactic(auto, unfolding(crate::specs::Commands::keys_given))]
pub(crate) fn keys_given(alloc: Global, options: &[Given]) -> Result<Option<NewKeys>, MemoryOut>
    ensures { IfOk result (λ keys. keys ≡ keys_given options.now) }
{
    if is_given(OptionName::NoKey, options) {
        return Ok(None);
    }
    let keys = new_keys(alloc, options)?;
    Ok(Some(keys))
}
