//! Commands on policies.

ghost use Rattle.std.specs.Prelude.{◌≡◌, ◌≤◌, Some, unwrap_or, IfOk, IsTrue};
ghost use Rattle.kadm_wire.specs.Commands.{chosen_policy, number_given, policy_by};
ghost use Rattle.kadm_wire.specs.Commands.{policy_command, rules_changed, rules_given};
ghost use Rattle.policy_rules.specs.Names.{is_policy_name};

use crate::values::read_short;
use crate::verbs::PolicyVerb;
use kadm_commands::{Command, ModPolicy, PolicyChoice};
use kadm_options::{Given, OptionName, find_seconds, find_word, is_given};
use kdb_base::{Blob, MemoryOut};
use policy_rules::{Policy, is_policy_name};
use std::alloc::Global;

fn named_policy(alloc: Global, word: &[u8]) -> Result<Option<PolicyChoice>, MemoryOut>
    ensures { IfOk result (λ choice. choice ≡ policy_by (Some word.now)) }
{
    if !is_policy_name(word) {
        return Ok(None);
    }
    let name = Blob::from_bytes(alloc, word)?;
    Ok(Some(PolicyChoice::Named(name)))
}

/// The policy that options give to a principal.
#[tactic(auto, unfolding(crate::specs::Commands::chosen_policy))]
pub(crate) fn chosen_policy(
    alloc: Global,
    options: &[Given],
) -> Result<Option<PolicyChoice>, MemoryOut>
    ensures { IfOk result (λ choice. choice ≡ chosen_policy options.now) }
{
    if is_given(OptionName::ClearPolicy, options) {
        return Ok(Some(PolicyChoice::Cleared));
    }
    match find_word(OptionName::Policy, options) {
        Some(word) => named_policy(alloc, word),
        None => Ok(None),
    }
}

/// The number of an option, where it is one from the least to the greatest.
pub(crate) fn number_given(
    option: OptionName,
    least: u16,
    most: u16,
    options: &[Given],
) -> Option<u16>
    ensures { result ≡ number_given option least most options.now }
{
    match find_word(option, options) {
        Some(word) => read_short(least, most, word),
        None => None,
    }
}

// The number of an option, or the least one.
fn number_or_least(option: OptionName, least: u16, most: u16, options: &[Given]) -> u16
    requires { least ≤ most }
    ensures value { result ≡ unwrap_or (number_given option least most options.now) least }
    ensures from { least ≤ result }
    ensures to { result ≤ most }
{
    match number_given(option, least, most, options) {
        Some(number) => number,
        None => least,
    }
}

#[tactic(auto, unfolding(crate::specs::Commands::rules_given))]
fn rules_given(options: &[Given], name: Blob) -> Policy
    requires { IsTrue (is_policy_name name) }
    ensures { result ≡ rules_given options.now name }
{
    let min_length = number_or_least(OptionName::MinLength, 1, 255, options);
    let min_classes = number_or_least(OptionName::MinClasses, 1, 5, options);
    let history = number_or_least(OptionName::History, 1, 16, options);
    Policy::new(
        name,
        find_seconds(OptionName::MaxLife, options).unwrap_or(0),
        find_seconds(OptionName::MinLife, options).unwrap_or(0),
        min_length,
        min_classes,
        history,
    )
}

#[tactic(auto, unfolding(crate::specs::Commands::rules_changed))]
fn rules_changed(options: &[Given], name: Blob) -> ModPolicy
    ensures { result ≡ rules_changed options.now name }
{
    ModPolicy {
        name,
        max_life: find_seconds(OptionName::MaxLife, options),
        min_life: find_seconds(OptionName::MinLife, options),
        min_length: number_given(OptionName::MinLength, 1, 255, options),
        min_classes: number_given(OptionName::MinClasses, 1, 5, options),
        history: number_given(OptionName::History, 1, 16, options),
    }
}

/// The command on the policy of this name.
#[tactic(auto, unfolding(crate::specs::Commands::policy_command))]
pub(crate) fn policy_command(verb: PolicyVerb, options: &[Given], name: Blob) -> Command
    requires { IsTrue (is_policy_name name) }
    ensures { result ≡ policy_command verb options.now name }
{
    match verb {
        PolicyVerb::Add => Command::AddPolicy(rules_given(options, name)),
        PolicyVerb::Modify => Command::ModPolicy(rules_changed(options, name)),
        PolicyVerb::Delete => Command::DelPolicy(name),
        PolicyVerb::Show => Command::GetPolicy(name),
    }
}
