//! What is read of a command from its options and other words.

ghost use Rattle.std.specs.Prelude.{◌≡◌, ◌≤◌, length, Some, IfOk};
ghost use Rattle.kadm_commands.specs.declared.commands.Command.TheVariants as command;
ghost use Rattle.kadm_options.specs.OptionValues.{first_bad_in};
ghost use Rattle.kadm_words.specs.Words.{AreWithin};
ghost use Rattle.kadm_wire.specs.Commands.{policy_command, princ_command};
ghost use Rattle.kadm_wire.specs.LineReadings.{command_reading, delete_reading, lone_reading, names_reading};
ghost use Rattle.kadm_wire.specs.LineReadings.{policy_reading, princ_reading, rename_reading, set_reading};
ghost use Rattle.kadm_wire.specs.LineReadings.{use_from_reading, use_reading, use_says};
ghost use Rattle.kadm_wire.specs.Reads.{activation_in, unless_bad, when_good, with_name, with_value};
ghost use Rattle.kdb_base.specs.declared.outcomes.Field.TheVariants as field;
ghost use Rattle.policy_rules.specs.Names.{is_policy_name};
ghost use Rattle.princ_name.specs.Readings.{own_name_in};
ghost use Rattle.tagged_data.specs.Strings.{is_string_key, is_string_value};

use crate::commands::{lone_command, names_command};
use crate::policies::policy_command;
use crate::princs::princ_command;
use crate::values::{is_glob_word, read_activation, read_name, read_short, whole_glob};
use crate::verbs::{LoneVerb, NamesVerb, PolicyVerb, PrincVerb, Verb};
use kadm_commands::{Command, DelString, RenPrinc, SetString, UseMaster};
use kadm_options::{Given, first_bad};
use kdb_base::{Blob, Field, MemoryOut, Refusal};
use policy_rules::is_policy_name;
use princ_name::Name;
use std::alloc::Global;
use tagged_data::{is_string_key, is_string_value};

/// What is read from a line.
#[derive(Drop)]
pub enum Reading {
    /// The line is a comment or has no words.
    Skipped,
    /// The line is of the grammar, and its names and values are good.
    Says(Command),
    /// The first cause that holds.
    Refuses(Refusal),
}

fn bad_value(field: Field) -> Reading
    ensures { result ≡ Reading.Refuses (Refusal.BadValue field) }
{
    Reading::Refuses(Refusal::BadValue { field })
}

fn bad_name(offset: u32) -> Reading
    ensures { result ≡ Reading.Refuses (Refusal.BadName offset) }
{
    Reading::Refuses(Refusal::BadName { offset })
}

// ---- one principal

fn on_name(
    alloc: Global,
    verb: PrincVerb,
    options: &[Given],
    name: Name,
) -> Result<Reading, MemoryOut>
    ensures { IfOk result
        (λ r. r ≡ unless_bad (first_bad_in options.now) (Reading.Says (princ_command verb options.now name))) }
{
    match first_bad(alloc, options)? {
        Some(field) => Ok(bad_value(field)),
        None => {
            let command = princ_command(alloc, verb, options, name)?;
            Ok(Reading::Says(command))
        }
    }
}

#[tactic(auto, unfolding(crate::specs::LineReadings::princ_reading))]
fn read_on_princ(
    alloc: Global,
    verb: PrincVerb,
    options: &[Given],
    word: &[u8],
    realm: &[u8],
) -> Result<Reading, MemoryOut>
    requires { length word.now ≤ 65536 }
    ensures { IfOk result (λ r. r ≡ princ_reading realm.now verb options.now word.now) }
{
    let named = read_name(alloc, word, realm)?;
    match named {
        Ok(name) => on_name(alloc, verb, options, name),
        Err(offset) => Ok(bad_name(offset)),
    }
}

// ---- two names

fn to_name(alloc: Global, name: Name, word: &[u8], realm: &[u8]) -> Result<Reading, MemoryOut>
    requires { length word.now ≤ 65536 }
    ensures { IfOk result (λ r. r ≡ with_name (own_name_in word.now realm.now)
        (λ new_name. Reading.Says (command.RenPrinc (record { name = name; new_name = new_name })))) }
{
    match read_name(alloc, word, realm)? {
        Ok(new_name) => Ok(Reading::Says(Command::RenPrinc(RenPrinc { name, new_name }))),
        Err(offset) => Ok(bad_name(offset)),
    }
}

#[tactic(auto, unfolding(crate::specs::LineReadings::rename_reading))]
fn read_rename(alloc: Global, word: &[u8], new: &[u8], realm: &[u8]) -> Result<Reading, MemoryOut>
    requires old { length word.now ≤ 65536 }
    requires new { length new.now ≤ 65536 }
    ensures { IfOk result (λ r. r ≡ rename_reading realm.now word.now new.now) }
{
    match read_name(alloc, word, realm)? {
        Ok(name) => to_name(alloc, name, new, realm),
        Err(offset) => Ok(bad_name(offset)),
    }
}

// ---- string attributes

fn set_string(alloc: Global, name: Name, key: &[u8], value: &[u8]) -> Result<Reading, MemoryOut>
    ensures { IfOk result (λ r. r ≡ when_good (is_string_key key.now) field.Key (when_good (is_string_value value.now)
        field.Value (Reading.Says (command.SetString (record { name = name; key = key.now; value = value.now }))))) }
{
    if !is_string_key(key) {
        return Ok(bad_value(Field::Key));
    }
    if !is_string_value(value) {
        return Ok(bad_value(Field::Value));
    }
    let key = Blob::from_bytes(alloc, key)?;
    let value = Blob::from_bytes(alloc, value)?;
    Ok(Reading::Says(Command::SetString(SetString { name, key, value })))
}

#[tactic(auto, unfolding(crate::specs::LineReadings::set_reading))]
fn read_set_string(
    alloc: Global,
    word: &[u8],
    key: &[u8],
    value: &[u8],
    realm: &[u8],
) -> Result<Reading, MemoryOut>
    requires { length word.now ≤ 65536 }
    ensures { IfOk result (λ r. r ≡ set_reading realm.now word.now key.now value.now) }
{
    match read_name(alloc, word, realm)? {
        Ok(name) => set_string(alloc, name, key, value),
        Err(offset) => Ok(bad_name(offset)),
    }
}

fn del_string(alloc: Global, name: Name, key: &[u8]) -> Result<Reading, MemoryOut>
    ensures { IfOk result (λ r. r ≡ when_good (is_string_key key.now) field.Key
        (Reading.Says (command.DelString (record { name = name; key = key.now })))) }
{
    if !is_string_key(key) {
        return Ok(bad_value(Field::Key));
    }
    let key = Blob::from_bytes(alloc, key)?;
    Ok(Reading::Says(Command::DelString(DelString { name, key })))
}

#[tactic(auto, unfolding(crate::specs::LineReadings::delete_reading))]
fn read_del_string(
    alloc: Global,
    word: &[u8],
    key: &[u8],
    realm: &[u8],
) -> Result<Reading, MemoryOut>
    requires { length word.now ≤ 65536 }
    ensures { IfOk result (λ r. r ≡ delete_reading realm.now word.now key.now) }
{
    match read_name(alloc, word, realm)? {
        Ok(name) => del_string(alloc, name, key),
        Err(offset) => Ok(bad_name(offset)),
    }
}

// ---- one policy

fn on_policy(
    alloc: Global,
    verb: PolicyVerb,
    options: &[Given],
    word: &[u8],
) -> Result<Reading, MemoryOut>
    ensures { IfOk result (λ r. r
        ≡ when_good (is_policy_name word.now) field.Policy (Reading.Says (policy_command verb options.now word.now))) }
{
    if !is_policy_name(word) {
        return Ok(bad_value(Field::Policy));
    }
    let name = Blob::from_bytes(alloc, word)?;
    Ok(Reading::Says(policy_command(verb, options, name)))
}

#[tactic(auto, unfolding(crate::specs::LineReadings::policy_reading))]
fn read_on_policy(
    alloc: Global,
    verb: PolicyVerb,
    options: &[Given],
    word: &[u8],
) -> Result<Reading, MemoryOut>
    ensures { IfOk result (λ r. r ≡ policy_reading verb options.now word.now) }
{
    match first_bad(alloc, options)? {
        Some(field) => Ok(bad_value(field)),
        None => on_policy(alloc, verb, options, word),
    }
}

// ---- many principals

#[tactic(auto, unfolding(crate::specs::LineReadings::names_reading))]
fn read_on_names(
    alloc: Global,
    verb: NamesVerb,
    word: &[u8],
    realm: &[u8],
) -> Result<Reading, MemoryOut>
    ensures { IfOk result (λ r. r ≡ names_reading realm.now verb word.now) }
{
    if !is_glob_word(word) {
        return Ok(bad_value(Field::Glob));
    }
    let glob = whole_glob(alloc, word, realm)?;
    Ok(Reading::Says(names_command(verb, Some(glob))))
}

// ---- master keys

fn use_master(version: u16, secs: Option<u32>) -> Reading
    ensures { result ≡ use_says version secs }
{
    Reading::Says(Command::UseMaster(UseMaster { version, secs }))
}

#[tactic(auto, unfolding(crate::specs::LineReadings::use_reading))]
fn read_use(word: &[u8]) -> Reading
    ensures { result ≡ use_reading word.now }
{
    match read_short(1, 65_535, word) {
        Some(version) => use_master(version, None),
        None => bad_value(Field::Mkvno),
    }
}

fn use_from(version: u16, time: &[u8]) -> Reading
    ensures { result ≡ with_value (activation_in time.now) field.Time (λ secs. use_says version (Some secs)) }
{
    match read_activation(time) {
        Some(secs) => use_master(version, Some(secs)),
        None => bad_value(Field::Time),
    }
}

#[tactic(auto, unfolding(crate::specs::LineReadings::use_from_reading))]
fn read_use_from(word: &[u8], time: &[u8]) -> Reading
    ensures { result ≡ use_from_reading word.now time.now }
{
    match read_short(1, 65_535, word) {
        Some(version) => use_from(version, time),
        None => bad_value(Field::Mkvno),
    }
}

// ---- no other words

#[tactic(auto, unfolding(crate::specs::LineReadings::lone_reading))]
fn read_lone(alloc: Global, verb: LoneVerb, options: &[Given]) -> Result<Reading, MemoryOut>
    ensures { IfOk result (λ r. r ≡ lone_reading verb options.now) }
{
    match first_bad(alloc, options)? {
        Some(field) => Ok(bad_value(field)),
        None => Ok(Reading::Says(lone_command(verb, options))),
    }
}

// ---- any command

fn bad_line() -> Reading
    ensures { result ≡ Reading.Refuses Refusal.BadLine }
{
    Reading::Refuses(Refusal::BadLine)
}

#[tactic(auto, unfolding(crate::specs::LineReadings::command_reading))]
fn read_princ_words(
    alloc: Global,
    verb: PrincVerb,
    options: &[Given],
    words: &[Blob],
    realm: &[u8],
) -> Result<Reading, MemoryOut>
    requires { AreWithin 65536 words.now }
    ensures { IfOk result (λ r. r ≡ command_reading realm.now (Verb.OnPrinc verb) options.now words.now) }
{
    match words {
        [word] => read_on_princ(alloc, verb, options, word.as_slice(), realm),
        _ => Ok(bad_line()),
    }
}

#[tactic(auto, unfolding(crate::specs::LineReadings::command_reading))]
fn read_policy_words(
    alloc: Global,
    verb: PolicyVerb,
    options: &[Given],
    words: &[Blob],
    realm: &[u8],
) -> Result<Reading, MemoryOut>
    ensures { IfOk result (λ r. r ≡ command_reading realm.now (Verb.OnPolicy verb) options.now words.now) }
{
    match words {
        [word] => read_on_policy(alloc, verb, options, word.as_slice()),
        _ => Ok(bad_line()),
    }
}

#[tactic(auto, unfolding(crate::specs::LineReadings::command_reading))]
fn read_names_words(
    alloc: Global,
    verb: NamesVerb,
    options: &[Given],
    words: &[Blob],
    realm: &[u8],
) -> Result<Reading, MemoryOut>
    ensures { IfOk result (λ r. r ≡ command_reading realm.now (Verb.OnNames verb) options.now words.now) }
{
    match words {
        [] => Ok(Reading::Says(names_command(verb, None))),
        [word] => read_on_names(alloc, verb, word.as_slice(), realm),
        _ => Ok(bad_line()),
    }
}

#[tactic(auto, unfolding(crate::specs::LineReadings::command_reading))]
fn read_lone_words(
    alloc: Global,
    verb: LoneVerb,
    options: &[Given],
    words: &[Blob],
    realm: &[u8],
) -> Result<Reading, MemoryOut>
    ensures { IfOk result (λ r. r ≡ command_reading realm.now (Verb.Alone verb) options.now words.now) }
{
    match words {
        [] => read_lone(alloc, verb, options),
        _ => Ok(bad_line()),
    }
}

#[tactic(auto, unfolding(crate::specs::LineReadings::command_reading))]
fn read_rename_words(
    alloc: Global,
    options: &[Given],
    words: &[Blob],
    realm: &[u8],
) -> Result<Reading, MemoryOut>
    requires { AreWithin 65536 words.now }
    ensures { IfOk result (λ r. r ≡ command_reading realm.now Verb.RenPrinc options.now words.now) }
{
    match words {
        [word, new] => read_rename(alloc, word.as_slice(), new.as_slice(), realm),
        _ => Ok(bad_line()),
    }
}

#[tactic(auto, unfolding(crate::specs::LineReadings::command_reading))]
fn read_set_words(
    alloc: Global,
    options: &[Given],
    words: &[Blob],
    realm: &[u8],
) -> Result<Reading, MemoryOut>
    requires { AreWithin 65536 words.now }
    ensures { IfOk result (λ r. r ≡ command_reading realm.now Verb.SetString options.now words.now) }
{
    match words {
        [word, key, value] => {
            read_set_string(
                alloc,
                word.as_slice(),
                key.as_slice(),
                value.as_slice(),
                realm,
            )
        }
        _ => Ok(bad_line()),
    }
}

#[tactic(auto, unfolding(crate::specs::LineReadings::command_reading))]
fn read_delete_words(
    alloc: Global,
    options: &[Given],
    words: &[Blob],
    realm: &[u8],
) -> Result<Reading, MemoryOut>
    requires { AreWithin 65536 words.now }
    ensures { IfOk result (λ r. r ≡ command_reading realm.now Verb.DelString options.now words.now) }
{
    match words {
        [word, key] => read_del_string(alloc, word.as_slice(), key.as_slice(), realm),
        _ => Ok(bad_line()),
    }
}

#[tactic(auto, unfolding(crate::specs::LineReadings::command_reading))]
fn read_use_words(options: &[Given], words: &[Blob], realm: &[u8]) -> Reading
    ensures { result ≡ command_reading realm.now Verb.UseMaster options.now words.now }
{
    match words {
        [word] => read_use(word.as_slice()),
        [word, time] => read_use_from(word.as_slice(), time.as_slice()),
        _ => bad_line(),
    }
}

/// What is read of a command from its options and its other words.
pub(crate) fn read_command(
    alloc: Global,
    verb: Verb,
    options: &[Given],
    words: &[Blob],
    realm: &[u8],
) -> Result<Reading, MemoryOut>
    requires { AreWithin 65536 words.now }
    ensures { IfOk result (λ r. r ≡ command_reading realm.now verb options.now words.now) }
{
    match verb {
        Verb::OnPrinc(verb) => read_princ_words(alloc, verb, options, words, realm),
        Verb::OnPolicy(verb) => read_policy_words(alloc, verb, options, words, realm),
        Verb::OnNames(verb) => read_names_words(alloc, verb, options, words, realm),
        Verb::Alone(verb) => read_lone_words(alloc, verb, options, words, realm),
        Verb::RenPrinc => read_rename_words(alloc, options, words, realm),
        Verb::SetString => read_set_words(alloc, options, words, realm),
        Verb::DelString => read_delete_words(alloc, options, words, realm),
        Verb::UseMaster => Ok(read_use_words(options, words, realm)),
    }
}
