ghost use Rattle.std.specs.Prelude.{List, ℕ, ◌≡◌, ◌+◌, ◌*◌, ◌^◌, ◌<◌, ◌≤◌, [], ◌∷◌, ◌++◌};
ghost use Rattle.std.specs.Prelude.{take, drop, true, false, Some, IfSome, length};
ghost use Rattle.kadm_values.specs.Numbers.{is_digit, decimal_value, IsDigits};
ghost use Rattle.std.specs.List.{prefix_len};
ghost use Rattle.kadm_values.specs.Durations.{units, IsUnits, SpellsGroups, SpellsSum, SpellsDuration};
ghost use Rattle.kadm_values.specs.Readings.{duration_in};

use crate::bytes::{after, before};
use crate::numbers::{is_all_digits, read_seconds, value_of_digits};

/// A unit of time.
#[derive(Clone, Copy, Debug)]
pub struct Unit {
    /// The letter behind its number.
    pub letter: u8,
    /// Its seconds.
    pub seconds: u32,
}

// In the order in which their groups stand.
static UNITS: [Unit; 4] = [
    Unit {
        letter: b'd',
        seconds: 86_400,
    },
    Unit {
        letter: b'h',
        seconds: 3_600,
    },
    Unit {
        letter: b'm',
        seconds: 60,
    },
    Unit {
        letter: b's',
        seconds: 1,
    },
];

// How many digits stand in front.
fn count_digits(text: &[u8]) -> usize
    ensures { result ≡ prefix_len is_digit text.now }
{
    text.iter()
        .take_while(|byte| 48 <= **byte && **byte <= 57)
        .count()
}

// How many digits stand in front with this letter behind them; 0 where it does not stand there.
fn digits_before(text: &[u8], letter: u8) -> usize
    requires { is_digit letter ≡ false }
    ensures within { 1 ≤ result → result < length text.now }
    ensures digits { 1 ≤ result → IsDigits (take result text.now) }
    ensures split { 1 ≤ result → text.now ≡ take result text.now ++ letter ∷ drop (result + 1) text.now }
    ensures only { (number behind : List ℕ) → IsDigits number → text.now ≡ number ++ letter ∷ behind
        → result ≡ length number }
{
    let count = count_digits(text);
    if count >= text.len() {
        return 0;
    }
    if text[count] != letter {
        return 0;
    }
    count
}

// So many of a unit, and some seconds more, where 32 bits hold the sum.
fn in_seconds(number: &[u8], unit: u32, more: u32) -> Option<u32>
    requires some { 1 ≤ unit }
    requires few { unit ≤ 86_400 }
    ensures sum { IfSome result (λ secs. secs ≡ decimal_value number.now * unit + more) }
    ensures fits { IfSome result (λ secs. secs < 2 ^ 32) }
    ensures only { (secs : ℕ) → secs ≡ decimal_value number.now * unit + more → secs < 2 ^ 32 → result ≡ Some secs }
{
    let number = value_of_digits(number);
    if number > 4_294_967_295 {
        return None;
    }
    let secs = number * u64::from(unit) + u64::from(more);
    if secs > 4_294_967_295 {
        return None;
    }
    Some(secs as u32)
}

// The seconds of groups of these units.
fn read_groups(units: &[Unit], text: &[u8]) -> Option<u32>
    requires { IsUnits units.now }
    ensures spelled { IfSome result (λ secs. SpellsGroups units.now text.now secs) }
    ensures fits { IfSome result (λ secs. secs < 2 ^ 32) }
    ensures only { (secs : ℕ) → SpellsGroups units.now text.now secs → secs < 2 ^ 32 → result ≡ Some secs }
{
    match units {
        [] => read_end(text),
        [unit, others @ ..] => {
            let count = digits_before(text, unit.letter);
            if count == 0 {
                return read_groups(others, text);
            }
            match read_groups(others, after(text, count + 1)) {
                Some(more) => in_seconds(before(text, count), unit.seconds, more),
                None => None,
            }
        }
    }
}

// No seconds where nothing is left.
fn read_end(text: &[u8]) -> Option<u32>
    ensures end { text.now ≡ [] → result ≡ Some 0 }
    ensures only { IfSome result (λ secs. (text.now ≡ []) × (secs ≡ 0)) }
{
    if text.is_empty() { Some(0) } else { None }
}

#[tactic(auto, unfolding(crate::specs::Durations::units))]
fn known_units() -> &'static [Unit; 4]
    ensures { result.now ≡ units }
{
    &UNITS
}

/// The seconds that a duration spells, below 2^32: a number of at most ten digits, or groups of digits
/// with `d`, `h`, `m` or `s` behind them, each of these at most once and in this order.
pub fn read_duration(text: &[u8]) -> Option<u32>
    ensures spelled { IfSome result (λ secs. SpellsDuration text.now secs) }
    ensures only { (secs : ℕ) → SpellsDuration text.now secs → result ≡ Some secs }
    ensures value { result ≡ duration_in text.now }
{
    if is_all_digits(text) {
        return read_seconds(text);
    }
    read_groups(known_units(), text)
}
