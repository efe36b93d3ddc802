//! The options of lines: their words, and what a line says by them.

ghost use Rattle.std.specs.Prelude.{◌≡◌, count_by, find, nat_le};
ghost use Rattle.std.specs.List.{list_all, list_any};
ghost use Rattle.std.specs.Str.{bytes_eq};
ghost use Rattle.kadm_options.specs.Options.{are_single, choice_given, choice_of, choices, ends_options};
ghost use Rattle.kadm_options.specs.Options.{flag_opening, is_chosen, is_dashes, is_for, is_given, is_of};
ghost use Rattle.kadm_options.specs.Options.{is_signed, is_this, opening_word, option_named, option_word};

use kadm_values::bytes::is_same;
use kadm_values::{FlagChange, read_flag};
use kdb_base::{Blob, Field};

/// An option that is no flag, by its word.
#[derive(Clone, Copy, Debug)]
pub enum OptionName {
    /// `-nokey`.
    NoKey,
    /// `-randkey`.
    RandKey,
    /// `-pw`.
    Password,
    /// `-keepold`.
    KeepOld,
    /// `-e`.
    Enctypes,
    /// `-force`.
    Force,
    /// `-f`.
    ShortForce,
    /// `-policy`.
    Policy,
    /// `-clearpolicy`.
    ClearPolicy,
    /// `-expire`.
    Expire,
    /// `-pwexpire`.
    PwExpire,
    /// `-maxlife`.
    MaxLife,
    /// `-maxrenewlife`.
    MaxRenewLife,
    /// `-minlife`.
    MinLife,
    /// `-minlength`.
    MinLength,
    /// `-minclasses`.
    MinClasses,
    /// `-history`.
    History,
    /// `-keepkvno`.
    KeepKvno,
    /// `-P`, the password of the master key.
    MasterPassword,
    /// `-ulogsize`, how many entries the log of updates has.
    UlogSize,
}

/// What the value of an option is.
#[derive(Clone, Copy, Debug)]
pub enum ValueKind {
    /// `never`, a number of seconds since 1970, or a civil time.
    Time,
    /// A number of seconds, or groups with units.
    Duration,
    /// The name of a policy.
    PolicyName,
    /// Any word.
    Word,
    /// A list of encryption types.
    EtypeList,
    /// The word of one encryption type.
    OneEtype,
    /// A number from the one to the other.
    Number(u32, u32),
}

/// An option whose value is the next word.
#[derive(Clone, Copy, Debug)]
pub struct Setting {
    pub option: OptionName,
    /// What its value is.
    pub kind: ValueKind,
    /// How a refusal of its value names it.
    pub field: Field,
}

/// What a word says where an option is wanted. A table of these, without flags, is what a line may have.
#[derive(Clone, Copy, Debug)]
pub enum Opening {
    /// `+flag` or `-flag`.
    Flag(FlagChange),
    /// An option without a value.
    Alone(OptionName),
    /// An option whose value is the next word.
    Value(Setting),
}

/// An option as a line gives it. It does not print itself: its word may be a password.
#[derive(Drop)]
pub enum Given {
    /// `+flag` or `-flag`.
    Flag(FlagChange),
    /// An option without a value.
    Alone(OptionName),
    /// An option and the word of its value.
    Value(Setting, Blob),
}

// What lines decide by options that are no flags.
static CHOICES: [OptionName; 17] = [
    OptionName::NoKey,
    OptionName::KeepOld,
    OptionName::Enctypes,
    OptionName::Force,
    OptionName::ShortForce,
    OptionName::Policy,
    OptionName::Expire,
    OptionName::PwExpire,
    OptionName::MaxLife,
    OptionName::MaxRenewLife,
    OptionName::MinLife,
    OptionName::MinLength,
    OptionName::MinClasses,
    OptionName::History,
    OptionName::KeepKvno,
    OptionName::MasterPassword,
    OptionName::UlogSize,
];

#[tactic(auto, unfolding(crate::specs::Options::choices))]
fn known_choices() -> &'static [OptionName; 17]
    ensures { result.now ≡ choices }
{
    &CHOICES
}

#[tactic(auto, unfolding(crate::specs::Options::option_word))]
fn option_word(option: OptionName) -> &'static [u8]
    ensures { result.now ≡ option_word option }
{
    match option {
        OptionName::NoKey => b"-nokey".as_slice(),
        OptionName::RandKey => b"-randkey".as_slice(),
        OptionName::Password => b"-pw".as_slice(),
        OptionName::KeepOld => b"-keepold".as_slice(),
        OptionName::Enctypes => b"-e".as_slice(),
        OptionName::Force => b"-force".as_slice(),
        OptionName::ShortForce => b"-f".as_slice(),
        OptionName::Policy => b"-policy".as_slice(),
        OptionName::ClearPolicy => b"-clearpolicy".as_slice(),
        OptionName::Expire => b"-expire".as_slice(),
        OptionName::PwExpire => b"-pwexpire".as_slice(),
        OptionName::MaxLife => b"-maxlife".as_slice(),
        OptionName::MaxRenewLife => b"-maxrenewlife".as_slice(),
        OptionName::MinLife => b"-minlife".as_slice(),
        OptionName::MinLength => b"-minlength".as_slice(),
        OptionName::MinClasses => b"-minclasses".as_slice(),
        OptionName::History => b"-history".as_slice(),
        OptionName::KeepKvno => b"-keepkvno".as_slice(),
        OptionName::MasterPassword => b"-P".as_slice(),
        OptionName::UlogSize => b"-ulogsize".as_slice(),
    }
}

// The word of an option that is no flag.
#[tactic(auto, unfolding(crate::specs::Options::opening_word))]
fn opening_word(opening: Opening) -> &'static [u8]
    ensures { result.now ≡ opening_word opening }
{
    match opening {
        Opening::Flag(_) => b"".as_slice(),
        Opening::Alone(option) => option_word(option),
        Opening::Value(setting) => option_word(setting.option),
    }
}

fn find_among(known: &[Opening], word: &[u8]) -> Option<Opening>
    ensures { result ≡ find (λ o. bytes_eq (opening_word o) word.now) known.now }
{
    known
        .iter()
        .copied()
        .find(|opening| is_same(opening_word(*opening), word))
}

// The flag that a word spells, where flags may stand.
fn find_flag_opening(flags: bool, word: &[u8]) -> Option<Opening>
    ensures { result ≡ flag_opening flags word.now }
{
    if !flags {
        return None;
    }
    match read_flag(word) {
        Some(change) => Some(Opening::Flag(change)),
        None => None,
    }
}

// What a word says where one of these options, or a flag, may stand.
#[tactic(auto, unfolding(crate::specs::Options::option_named))]
pub(crate) fn find_option(known: &[Opening], flags: bool, word: &[u8]) -> Option<Opening>
    ensures { result ≡ option_named known.now flags word.now }
{
    match find_among(known, word) {
        Some(opening) => Some(opening),
        None => find_flag_opening(flags, word),
    }
}

/// Whether the word is two dashes, which end the options of a command.
#[tactic(auto, unfolding(crate::specs::Options::is_dashes))]
pub fn is_dashes(word: &[u8]) -> bool
    ensures { result ≡ is_dashes word.now }
{
    is_same(word, b"--".as_slice())
}

/// Whether the word begins as options do, with `-` or `+`.
#[tactic(auto, unfolding(crate::specs::Options::is_signed))]
pub fn is_signed(word: &[u8]) -> bool
    ensures { result ≡ is_signed word.now }
{
    match word {
        [byte, ..] => *byte == b'-' || *byte == b'+',
        [] => false,
    }
}

// Whether the options end before the word.
#[tactic(auto, unfolding(crate::specs::Options::ends_options))]
pub(crate) fn ends_options(word: &[u8]) -> bool
    ensures { result ≡ ends_options word.now }
{
    is_dashes(word) || !is_signed(word)
}

/// Whether two options are one.
pub(crate) fn same_option(option: OptionName, other: OptionName) -> bool
    ensures { result ≡ bytes_eq (option_word option) (option_word other) }
{
    is_same(option_word(option), option_word(other))
}

// What the option decides.
#[tactic(auto, unfolding(crate::specs::Options::choice_of))]
fn choice_of(option: OptionName) -> OptionName
    ensures { result ≡ choice_of option }
{
    match option {
        OptionName::RandKey => OptionName::NoKey,
        OptionName::Password => OptionName::NoKey,
        OptionName::ClearPolicy => OptionName::Policy,
        _ => option,
    }
}

fn choice_given(given: &Given) -> Option<OptionName>
    ensures { result ≡ choice_given given.now }
{
    match given {
        Given::Flag(_) => None,
        Given::Alone(option) => Some(choice_of(*option)),
        Given::Value(setting, _) => Some(choice_of(setting.option)),
    }
}

// Whether the option that is given decides this.
fn is_of(choice: OptionName, given: &Given) -> bool
    ensures { result ≡ is_of choice given.now }
{
    match choice_given(given) {
        Some(other) => same_option(other, choice),
        None => false,
    }
}

fn is_single(options: &[Given], choice: OptionName) -> bool
    ensures { result ≡ nat_le (count_by (is_of choice) options.now) 1 }
{
    options.iter().filter(|given| is_of(choice, *given)).count() <= 1
}

fn are_single_among(choices: &[OptionName], options: &[Given]) -> bool
    ensures { result ≡ list_all (λ choice. nat_le (count_by (is_of choice) options.now) 1) choices.now }
{
    choices.iter().all(|choice| is_single(options, *choice))
}

/// Whether each option that is no flag stands at most once, and none beside another that decides the same.
#[tactic(auto, unfolding(crate::specs::Options::are_single))]
pub fn are_single(options: &[Given]) -> bool
    ensures { result ≡ are_single options.now }
{
    are_single_among(known_choices(), options)
}

// Whether the option that is given has this name.
fn is_this(option: OptionName, given: &Given) -> bool
    ensures { result ≡ is_this option given.now }
{
    match given {
        Given::Flag(_) => false,
        Given::Alone(other) => same_option(*other, option),
        Given::Value(setting, _) => same_option(setting.option, option),
    }
}

/// Whether this option is among the options.
#[tactic(auto, unfolding(crate::specs::Options::is_given))]
pub fn is_given(option: OptionName, options: &[Given]) -> bool
    ensures { result ≡ is_given option options.now }
{
    options.iter().any(|given| is_this(option, given))
}

/// Whether one of the options decides this: how keys are made, or the policy, or what its own name says.
#[tactic(auto, unfolding(crate::specs::Options::is_chosen))]
pub fn is_chosen(choice: OptionName, options: &[Given]) -> bool
    ensures { result ≡ is_chosen choice options.now }
{
    options.iter().any(|given| is_of(choice, given))
}
