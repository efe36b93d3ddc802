ghost use Rattle.std.specs.Prelude.{◌≡◌, ◌≤◌, IsTrue};
ghost use Rattle.std.specs.List.{list_all};
ghost use Rattle.policy_rules.specs.Equal.{same_rules, same_rules_equiv, same_rules_partial};
ghost use Rattle.policy_rules.specs.Names.{is_alphanumeric, is_name_byte, is_policy_name};
ghost use Rattle.policy_rules.specs.Numbers.{numbers_of, rules_of};
ghost use Rattle.policy_rules.specs.Ranges.{is_min_length, is_min_classes, is_history};

use crate::numbers::Numbers;
use kdb_base::Blob;
use std::marker::Model;

/// The longest name of a policy, in bytes.
pub const MAX_NAME: usize = 64;

/// What a policy asks of the passwords and lives of its principals.
#[derive(Debug, Drop)]
pub struct Policy {
    name: Blob,
    numbers: Numbers,
}

impl Model for Policy {
    ghost use Rattle.std.specs.Prelude.{IsTrue};
    ghost use Rattle.policy_rules.specs.Names.{is_policy_name};
    ghost use Rattle.policy_rules.specs.Numbers.{rules_of};
    ghost use Rattle.policy_rules.specs.Rules.{Rules};

    ghost Value = { Rules };

    ghost view = { λ p. rules_of p.name p.numbers };

    ghost invariant = { λ p. IsTrue (is_policy_name p.name) };
}

impl Policy {
    /// The policy of these values. Lives are in seconds, and a greatest life of 0 is none.
    pub fn new(
        name: Blob,
        max_life: u32,
        min_life: u32,
        min_length: u16,
        min_classes: u16,
        history: u16,
    ) -> Policy
        requires named { IsTrue (is_policy_name name) }
        requires length { IsTrue (is_min_length min_length) }
        requires classes { IsTrue (is_min_classes min_classes) }
        requires remembered { IsTrue (is_history history) }
        ensures { result ≡ record {
          name = name;
          max_life = max_life;
          min_life = min_life;
          min_length = min_length;
          min_classes = min_classes;
          history = history;
        } }
    {
        Policy {
            name,
            numbers: Numbers::new(max_life, min_life, min_length, min_classes, history),
        }
    }

    /// The policy of this name and these numbers.
    pub fn from_numbers(name: Blob, numbers: Numbers) -> Policy
        requires { IsTrue (is_policy_name name) }
        ensures { result ≡ rules_of name numbers }
    {
        Policy { name, numbers }
    }

    /// 1 to 64 letters, digits, `_`, `-` and `.`, of which the first is a letter or a digit.
    pub fn name(&self) -> &[u8]
        ensures value { result.now ≡ self.now.name }
        ensures named { IsTrue (is_policy_name result.now) }
    {
        self.name.as_slice()
    }

    /// All that the policy asks.
    pub fn numbers(&self) -> Numbers
        ensures { result ≡ numbers_of self.now }
    {
        self.numbers
    }

    /// The longest time for which a password serves, in seconds. 0 is no limit.
    pub fn max_life(&self) -> u32
        ensures { result ≡ self.now.max_life }
    {
        self.numbers.max_life()
    }

    /// How long a password stands before it may be changed, in seconds.
    pub fn min_life(&self) -> u32
        ensures { result ≡ self.now.min_life }
    {
        self.numbers.min_life()
    }

    /// The least length of a password, 1 to 255 bytes.
    pub fn min_length(&self) -> u16
        ensures value { result ≡ self.now.min_length }
        ensures in_range { (1 ≤ result) × (result ≤ 255) }
    {
        self.numbers.min_length()
    }

    /// The least number of classes of characters in a password, 1 to 5.
    pub fn min_classes(&self) -> u16
        ensures value { result ≡ self.now.min_classes }
        ensures in_range { (1 ≤ result) × (result ≤ 5) }
    {
        self.numbers.min_classes()
    }

    /// How many passwords stay behind a change of the password, 1 to 16, the standing one among them.
    pub fn history(&self) -> u16
        ensures value { result ≡ self.now.history }
        ensures in_range { (1 ≤ result) × (result ≤ 16) }
    {
        self.numbers.history()
    }
}

impl PartialEq for Policy {
    ghost eq = { same_rules };

    ghost laws = { same_rules_partial };

    fn eq(&self, other: &Policy) -> bool {
        self.name() == other.name() && self.numbers == other.numbers
    }
}

impl Eq for Policy {
    ghost laws = { same_rules_equiv };
}

fn is_alphanumeric(byte: u8) -> bool
    ensures { result ≡ is_alphanumeric byte }
{
    byte.is_ascii_lowercase() || byte.is_ascii_uppercase() || byte.is_ascii_digit()
}

fn is_name_byte(byte: u8) -> bool
    ensures { result ≡ is_name_byte byte }
{
    is_alphanumeric(byte) || byte == b'_' || byte == b'-' || byte == b'.'
}

fn has_name_bytes(bytes: &[u8]) -> bool
    ensures { result ≡ list_all is_name_byte bytes.now }
{
    bytes.iter().all(|byte| is_name_byte(*byte))
}

/// Whether the bytes are a name of a policy: 1 to 64 letters, digits, `_`, `-` and `.`, of which
/// the first is a letter or a digit.
#[tactic(auto, unfolding(crate::specs::Names::is_policy_name))]
pub fn is_policy_name(bytes: &[u8]) -> bool
    ensures { result ≡ is_policy_name bytes.now }
{
    match bytes {
        [] => false,
        [first, ..] => bytes.len() <= MAX_NAME && is_alphanumeric(*first) && has_name_bytes(bytes),
    }
}

/// Whether a policy may have this least length.
pub fn is_min_length(n: u16) -> bool
    ensures { result ≡ is_min_length n }
{
    1 <= n && n <= 255
}

/// Whether a policy may have this least number of classes.
pub fn is_min_classes(n: u16) -> bool
    ensures { result ≡ is_min_classes n }
{
    1 <= n && n <= 5
}

/// Whether a policy may have this history.
pub fn is_history(n: u16) -> bool
    ensures { result ≡ is_history n }
{
    1 <= n && n <= 16
}
