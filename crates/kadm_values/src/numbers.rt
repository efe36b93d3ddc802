ghost use Rattle.std.specs.Prelude.{List, ℕ, ◌≡◌, ◌-◌, ◌<◌, ◌≤◌, ◌^◌, min, Some, IfSome};
ghost use Rattle.std.specs.List.{list_all};
ghost use Rattle.kadm_values.specs.Numbers.{is_digit, decimal_value, SpellsNumber, SpellsSeconds};
ghost use Rattle.kadm_values.specs.Readings.{number_in};

/// Whether every byte is a decimal digit.
pub(crate) fn is_all_digits(text: &[u8]) -> bool
    ensures { result ≡ list_all is_digit text.now }
{
    text.iter().all(|byte| 48 <= *byte && *byte <= 57)
}

/// The number that digits are, or the greatest one of 64 bits where theirs is greater. A byte below the digits counts
/// as 0.
#[tactic(auto, unfolding(crate::specs::Numbers::decimal_value))]
pub fn value_of_digits(text: &[u8]) -> u64
    ensures { result ≡ min (2 ^ 64 - 1) (decimal_value text.now) }
{
    let mut number = 0u64;
    for byte in text {
        let digit = u64::from(byte.saturating_sub(b'0'));
        number = number.saturating_mul(10).saturating_add(digit);
    }
    number
}

/// The number that 1 to 10 decimal digits spell. Zeros may lead.
pub fn read_number(text: &[u8]) -> Option<u64>
    ensures spelled { IfSome result (λ number. SpellsNumber text.now number) }
    ensures only { (number : ℕ) → SpellsNumber text.now number → result ≡ Some number }
    ensures value { result ≡ number_in text.now }
{
    if text.is_empty() {
        return None;
    }
    if text.len() > 10 {
        return None;
    }
    if !is_all_digits(text) {
        return None;
    }
    Some(value_of_digits(text))
}

/// The number of seconds below 2^32 that 1 to 10 decimal digits spell.
pub(crate) fn read_seconds(text: &[u8]) -> Option<u32>
    ensures spelled { IfSome result (λ secs. SpellsSeconds text.now secs) }
    ensures only { (secs : ℕ) → SpellsSeconds text.now secs → result ≡ Some secs }
{
    match read_number(text) {
        Some(number) => {
            if number <= 4_294_967_295 {
                Some(number as u32)
            } else {
                None
            }
        }
        None => None,
    }
}
