//! The options of commands.

ghost use Rattle.std.specs.Prelude.{◌≡◌, ◌∷◌};
ghost use Rattle.kadm_options.specs.declared.options.Opening.TheVariants as opening;
ghost use Rattle.kadm_options.specs.declared.options.OptionName.TheVariants as option;
ghost use Rattle.kadm_wire.specs.Verbs.{adding_options, changing_options, field_options, force_options};
ghost use Rattle.kadm_wire.specs.Verbs.{has_flags, is_whole, lone_options, makes_keys, master_options};
ghost use Rattle.kadm_wire.specs.Verbs.{names_options, options_for, options_of_policy, policy_options};
ghost use Rattle.kadm_wire.specs.Verbs.{princ_options, purging_options, short_force_options};

use crate::verbs::{LoneVerb, NamesVerb, PolicyVerb, PrincVerb, Verb};
use kadm_options::{Given, Opening, OptionName, Setting, ValueKind, are_single, is_chosen};
use kdb_base::Field;

// First those of cpw, and behind the first one those of addprinc, of which the last six are those of modprinc.
static PRINC_OPTIONS: [Opening; 11] = [
    Opening::Alone(OptionName::KeepOld),
    Opening::Alone(OptionName::RandKey),
    Opening::Value(Setting {
        option: OptionName::Password,
        kind: ValueKind::Word,
        field: Field::Value,
    }),
    Opening::Value(Setting {
        option: OptionName::Enctypes,
        kind: ValueKind::EtypeList,
        field: Field::Enctypes,
    }),
    Opening::Alone(OptionName::NoKey),
    Opening::Alone(OptionName::ClearPolicy),
    Opening::Value(Setting {
        option: OptionName::Policy,
        kind: ValueKind::PolicyName,
        field: Field::Policy,
    }),
    Opening::Value(Setting {
        option: OptionName::Expire,
        kind: ValueKind::Time,
        field: Field::Expire,
    }),
    Opening::Value(Setting {
        option: OptionName::PwExpire,
        kind: ValueKind::Time,
        field: Field::PwExpire,
    }),
    Opening::Value(Setting {
        option: OptionName::MaxLife,
        kind: ValueKind::Duration,
        field: Field::MaxLife,
    }),
    Opening::Value(Setting {
        option: OptionName::MaxRenewLife,
        kind: ValueKind::Duration,
        field: Field::MaxRenewLife,
    }),
];

static PURGING_OPTIONS: [Opening; 1] = [Opening::Value(Setting {
    option: OptionName::KeepKvno,
    kind: ValueKind::Number(1, 65535),
    field: Field::KeepKvno,
})];

static POLICY_OPTIONS: [Opening; 5] = [
    Opening::Value(Setting {
        option: OptionName::MaxLife,
        kind: ValueKind::Duration,
        field: Field::MaxLife,
    }),
    Opening::Value(Setting {
        option: OptionName::MinLife,
        kind: ValueKind::Duration,
        field: Field::MinLife,
    }),
    Opening::Value(Setting {
        option: OptionName::MinLength,
        kind: ValueKind::Number(1, 255),
        field: Field::MinLength,
    }),
    Opening::Value(Setting {
        option: OptionName::MinClasses,
        kind: ValueKind::Number(1, 5),
        field: Field::MinClasses,
    }),
    Opening::Value(Setting {
        option: OptionName::History,
        kind: ValueKind::Number(1, 16),
        field: Field::History,
    }),
];

static MASTER_OPTIONS: [Opening; 1] = [Opening::Value(Setting {
    option: OptionName::Enctypes,
    kind: ValueKind::OneEtype,
    field: Field::Enctypes,
})];

static FORCE_OPTIONS: [Opening; 1] = [Opening::Alone(OptionName::Force)];

static SHORT_FORCE_OPTIONS: [Opening; 1] = [Opening::Alone(OptionName::ShortForce)];

#[tactic(auto, unfolding(crate::specs::Verbs::adding_options, crate::specs::Verbs::key_options, crate::specs::Verbs::field_options))]
fn all_princ_options() -> &'static [Opening; 11]
    ensures { result.now ≡ opening.Alone option.KeepOld ∷ adding_options }
{
    &PRINC_OPTIONS
}

#[tactic(auto, unfolding(crate::specs::Verbs::adding_options))]
fn adding_options() -> &'static [Opening]
    ensures { result.now ≡ adding_options }
{
    let all = all_princ_options().as_slice();
    &all[1..]
}

#[tactic(auto, unfolding(crate::specs::Verbs::adding_options, crate::specs::Verbs::key_options, crate::specs::Verbs::changing_options))]
fn changing_options() -> &'static [Opening]
    ensures { result.now ≡ changing_options }
{
    let all = all_princ_options().as_slice();
    &all[..4]
}

#[tactic(auto, unfolding(crate::specs::Verbs::adding_options, crate::specs::Verbs::key_options))]
fn field_options() -> &'static [Opening]
    ensures { result.now ≡ field_options }
{
    let all = all_princ_options().as_slice();
    &all[5..]
}

#[tactic(auto, unfolding(crate::specs::Verbs::purging_options))]
fn purging_options() -> &'static [Opening; 1]
    ensures { result.now ≡ purging_options }
{
    &PURGING_OPTIONS
}

#[tactic(auto, unfolding(crate::specs::Verbs::policy_options))]
fn policy_options() -> &'static [Opening; 5]
    ensures { result.now ≡ policy_options }
{
    &POLICY_OPTIONS
}

#[tactic(auto, unfolding(crate::specs::Verbs::master_options))]
fn master_options() -> &'static [Opening; 1]
    ensures { result.now ≡ master_options }
{
    &MASTER_OPTIONS
}

#[tactic(auto, unfolding(crate::specs::Verbs::force_options))]
fn force_options() -> &'static [Opening; 1]
    ensures { result.now ≡ force_options }
{
    &FORCE_OPTIONS
}

#[tactic(auto, unfolding(crate::specs::Verbs::short_force_options))]
fn short_force_options() -> &'static [Opening; 1]
    ensures { result.now ≡ short_force_options }
{
    &SHORT_FORCE_OPTIONS
}

#[tactic(auto, unfolding(crate::specs::Verbs::princ_options))]
fn princ_options(verb: PrincVerb) -> &'static [Opening]
    ensures { result.now ≡ princ_options verb }
{
    match verb {
        PrincVerb::Add => adding_options(),
        PrincVerb::Modify => field_options(),
        PrincVerb::ChangeKeys => changing_options(),
        PrincVerb::Delete => force_options().as_slice(),
        PrincVerb::PurgeKeys => purging_options().as_slice(),
        _ => &[],
    }
}

#[tactic(auto, unfolding(crate::specs::Verbs::options_of_policy))]
fn options_of_policy(verb: PolicyVerb) -> &'static [Opening]
    ensures { result.now ≡ options_of_policy verb }
{
    match verb {
        PolicyVerb::Add => policy_options().as_slice(),
        PolicyVerb::Modify => policy_options().as_slice(),
        PolicyVerb::Delete => force_options().as_slice(),
        PolicyVerb::Show => &[],
    }
}

#[tactic(auto, unfolding(crate::specs::Verbs::names_options))]
fn names_options(verb: NamesVerb) -> &'static [Opening]
    ensures { result.now ≡ names_options verb }
{
    match verb {
        NamesVerb::List => &[],
        NamesVerb::Rekey => short_force_options().as_slice(),
    }
}

#[tactic(auto, unfolding(crate::specs::Verbs::lone_options))]
fn lone_options(verb: LoneVerb) -> &'static [Opening]
    ensures { result.now ≡ lone_options verb }
{
    match verb {
        LoneVerb::AddMaster => master_options().as_slice(),
        LoneVerb::PurgeMasters => short_force_options().as_slice(),
        _ => &[],
    }
}

/// The options of a command, beside flags.
#[tactic(auto, unfolding(crate::specs::Verbs::options_for))]
pub(crate) fn known_options(verb: Verb) -> &'static [Opening]
    ensures { result.now ≡ options_for verb }
{
    match verb {
        Verb::OnPrinc(verb) => princ_options(verb),
        Verb::OnPolicy(verb) => options_of_policy(verb),
        Verb::OnNames(verb) => names_options(verb),
        Verb::Alone(verb) => lone_options(verb),
        Verb::RenPrinc => force_options().as_slice(),
        Verb::SetString => &[],
        Verb::DelString => &[],
        Verb::UseMaster => &[],
    }
}

/// Whether the command changes flags.
#[tactic(auto, unfolding(crate::specs::Verbs::has_flags))]
pub(crate) fn has_flags(verb: Verb) -> bool
    ensures { result ≡ has_flags verb }
{
    matches!(
        verb,
        Verb::OnPrinc(PrincVerb::Add) | Verb::OnPrinc(PrincVerb::Modify)
    )
}

// Whether the command makes keys.
#[tactic(auto, unfolding(crate::specs::Verbs::makes_keys))]
fn makes_keys(verb: Verb) -> bool
    ensures { result ≡ makes_keys verb }
{
    matches!(
        verb,
        Verb::OnPrinc(PrincVerb::Add) | Verb::OnPrinc(PrincVerb::ChangeKeys)
    )
}

/// Whether no two of the options exclude each other, and those are there that the command needs.
#[tactic(auto, unfolding(crate::specs::Verbs::is_whole))]
pub(crate) fn is_whole(verb: Verb, options: &[Given]) -> bool
    ensures { result ≡ is_whole verb options.now }
{
    are_single(options) && (!makes_keys(verb) || is_chosen(OptionName::NoKey, options))
}
