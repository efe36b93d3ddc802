ghost use Rattle.std.specs.Prelude.{◌≡◌, ◌↔◌, ◌<◌, ◌≤◌, length};
ghost use Rattle.kdb_base.specs.declared.outcomes.Refusal.TheVariants.{PassTooShort, PassClasses};
ghost use Rattle.policy_rules.specs.Classes.{is_of, has, classes_in};
ghost use Rattle.policy_rules.specs.Numbers.{numbers_of};
ghost use Rattle.policy_rules.specs.Passwords.{checked, has_few_classes, is_short};

use crate::numbers::Numbers;
use crate::policies::Policy;
use kdb_base::Refusal;

/// A class of characters. Each byte is of one of them.
#[derive(Clone, Copy, Debug, PartialEq, Eq)]
pub enum Class {
    /// a to z.
    Lower,
    /// A to Z.
    Upper,
    /// 0 to 9.
    Digit,
    /// The other characters of ASCII that print, without the space.
    Mark,
    /// All other bytes.
    Other,
}

/// Every class.
const CLASSES: [Class; 5] = [
    Class::Lower,
    Class::Upper,
    Class::Digit,
    Class::Mark,
    Class::Other,
];

fn is_of(class: Class, byte: u8) -> bool
    ensures { result ≡ is_of class byte }
{
    match class {
        Class::Lower => byte.is_ascii_lowercase(),
        Class::Upper => byte.is_ascii_uppercase(),
        Class::Digit => byte.is_ascii_digit(),
        Class::Mark => byte.is_ascii_punctuation(),
        Class::Other => !byte.is_ascii_graphic(),
    }
}

fn has(password: &[u8], class: Class) -> bool
    ensures { result ≡ has password.now class }
{
    password.iter().any(|byte| is_of(class, *byte))
}

/// The number of classes of which the password has a byte, 0 to 5.
#[tactic(auto, unfolding(crate::specs::Classes::classes_in))]
pub fn classes_in(password: &[u8]) -> usize
    ensures { result ≡ classes_in password.now }
{
    CLASSES
        .iter()
        .filter(|class| has(password, **class))
        .count()
}

/// Whether the password is shorter than these numbers ask.
pub fn is_short(numbers: &Numbers, password: &[u8]) -> bool
    ensures { result ≡ is_short numbers.now password.now }
{
    password.len() < usize::from(numbers.min_length())
}

/// Whether the password has bytes of fewer classes than these numbers ask.
pub fn has_few_classes(numbers: &Numbers, password: &[u8]) -> bool
    ensures { result ≡ has_few_classes numbers.now password.now }
{
    classes_in(password) < usize::from(numbers.min_classes())
}

/// Whether these numbers take the password. A password that is too short is refused as that,
/// whatever its classes.
pub fn check_numbers(numbers: &Numbers, password: &[u8]) -> Result<(), Refusal>
    ensures value { result ≡ checked numbers.now password.now }
    ensures ok { (result ≡ Ok tt)
        ↔ ((numbers.now.min_length ≤ length password.now) × (numbers.now.min_classes ≤ classes_in password.now)) }
    ensures short { (result ≡ Err PassTooShort) ↔ (length password.now < numbers.now.min_length) }
    ensures few { (result ≡ Err PassClasses)
        ↔ ((numbers.now.min_length ≤ length password.now) × (classes_in password.now < numbers.now.min_classes)) }
{
    if is_short(numbers, password) {
        return Err(Refusal::PassTooShort);
    }
    if has_few_classes(numbers, password) {
        return Err(Refusal::PassClasses);
    }
    Ok(())
}

/// Whether the policy takes the password. A password that is too short is refused as that,
/// whatever its classes.
pub fn check_password(policy: &Policy, password: &[u8]) -> Result<(), Refusal>
    ensures value { result ≡ checked (numbers_of policy.now) password.now }
    ensures ok { (result ≡ Ok tt)
        ↔ ((policy.now.min_length ≤ length password.now) × (policy.now.min_classes ≤ classes_in password.now)) }
    ensures short { (result ≡ Err PassTooShort) ↔ (length password.now < policy.now.min_length) }
    ensures few { (result ≡ Err PassClasses)
        ↔ ((policy.now.min_length ≤ length password.now) × (classes_in password.now < policy.now.min_classes)) }
{
    let numbers = policy.numbers();
    check_numbers(&numbers, password)
}
