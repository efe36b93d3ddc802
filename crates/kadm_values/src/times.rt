ghost use Rattle.std.specs.Prelude.{List, ℕ, ◌≡◌, ◌+◌, ◌/◌, ◌%◌, ◌^◌, ◌<◌, ◌≤◌};
ghost use Rattle.std.specs.Prelude.{pos, ◌≤ℤ◌, Some, IfSome, length, slice_index};
ghost use Rattle.jiff.specs.Types.{DateTime as CivilTime};
ghost use Rattle.kadm_values.specs.Calendar.{civil_text_at};
ghost use Rattle.kadm_values.specs.Readings.{time_in};
ghost use Rattle.kadm_values.specs.Times.{IsAt, civil_text, SpellsCivil, SpellsTime};

use crate::bytes::is_same;
use crate::numbers::read_seconds;
use jiff::Timestamp;
use jiff::civil::DateTime;
use jiff::tz::Offset;

// The first digit of a number below 100.
fn tens(number: u16) -> u8
    requires { number < 100 }
    ensures { result ≡ 48 + number / 10 }
{
    b'0' + (number / 10) as u8
}

// Its second digit.
fn ones(number: u16) -> u8
    requires { number < 100 }
    ensures { result ≡ 48 + number % 10 }
{
    b'0' + (number % 10) as u8
}

// The number of a digit; some number below 10 for another byte.
fn digit_value(byte: u8) -> u8
    ensures digit { 48 ≤ byte → byte < 58 → 48 + result ≡ byte }
    ensures small { result < 10 }
{
    byte.saturating_sub(b'0').min(9)
}

// The number below 100 whose two digits stand there; some such number where no digits stand.
fn two_at(text: &[u8], at: usize) -> i8
    requires { at + 1 < length text.now }
    ensures value { (x : ℕ) → x < 100 → slice_index text.now at ≡ 48 + x / 10
        → slice_index text.now (at + 1) ≡ 48 + x % 10 → result ≡ pos x }
    ensures low { pos 0 ≤ℤ result }
    ensures high { result ≤ℤ pos 99 }
{
    let number = 10 * digit_value(text[at]) + digit_value(text[at + 1]);
    number as i8
}

// The number below 10000 whose four digits stand in front; some such number where no digits stand.
fn year_at(text: &[u8]) -> i16
    requires { 4 ≤ length text.now }
    ensures { (x : ℕ) → x < 10000 → slice_index text.now 0 ≡ 48 + x / 100 / 10
        → slice_index text.now 1 ≡ 48 + x / 100 % 10
        → slice_index text.now 2 ≡ 48 + x % 100 / 10 → slice_index text.now 3 ≡ 48 + x % 100 % 10 → result ≡ pos x }
{
    100 * i16::from(two_at(text, 0)) + i16::from(two_at(text, 2))
}

// Seconds that 32 bits hold.
fn in_range(seconds: i64) -> Option<u32>
    ensures { (secs : ℕ) → secs < 2 ^ 32 → seconds ≡ pos secs → result ≡ Some secs }
{
    match u32::try_from(seconds) {
        Ok(secs) => Some(secs),
        Err(_) => None,
    }
}

// The date and time that many seconds behind the beginning of 1970.
fn civil_at(secs: u32) -> DateTime
    ensures { IsAt result secs }
{
    match Timestamp::from_second(i64::from(secs)) {
        Ok(moment) => Offset::UTC.to_datetime(moment),
        Err(_) => unreachable!(),
    }
}

#[tactic(auto, unfolding(crate::specs::Times::civil_text))]
fn print_civil(time: DateTime) -> [u8; 20]
    ensures { result ≡ civil_text time }
{
    let year = time.year().unsigned_abs();
    let month = u16::from(time.month().unsigned_abs());
    let day = u16::from(time.day().unsigned_abs());
    let hour = u16::from(time.hour().unsigned_abs());
    let minute = u16::from(time.minute().unsigned_abs());
    let second = u16::from(time.second().unsigned_abs());
    [
        tens(year / 100),
        ones(year / 100),
        tens(year % 100),
        ones(year % 100),
        b'-',
        tens(month),
        ones(month),
        b'-',
        tens(day),
        ones(day),
        b'T',
        tens(hour),
        ones(hour),
        b':',
        tens(minute),
        ones(minute),
        b':',
        tens(second),
        ones(second),
        b'Z',
    ]
}

/// The one spelling of a time as a date and a time of its day, `YYYY-MM-DDTHH:MM:SSZ`. `read_time` of it
/// is the time. (A reply that has a word for 0 prints that word itself.)
pub fn print_time(secs: u32) -> [u8; 20]
    ensures spelled { SpellsCivil result secs }
    ensures time { SpellsTime result secs }
    ensures value { result ≡ civil_text_at secs }
    ensures only { (text : List ℕ) → SpellsCivil text secs → text ≡ result }
{
    print_civil(civil_at(secs))
}

// The seconds of the civil time that the bytes are; where they are none, some seconds or nothing.
fn seconds_spelled(text: &[u8]) -> Option<u32>
    requires { length text.now ≡ 20 }
    ensures { (secs : ℕ) → SpellsCivil text.now secs → result ≡ Some secs }
{
    let year = year_at(text);
    let month = two_at(text, 5);
    let day = two_at(text, 8);
    let hour = two_at(text, 11);
    let minute = two_at(text, 14);
    let second = two_at(text, 17);
    match DateTime::new(year, month, day, hour, minute, second, 0) {
        Ok(time) => in_range(time.to_plain().to_second()),
        Err(_) => None,
    }
}

// The seconds of a civil time. What it spells is what is printed for its seconds.
fn read_civil(text: &[u8]) -> Option<u32>
    requires { length text.now ≡ 20 }
    ensures spelled { IfSome result (λ secs. SpellsCivil text.now secs) }
    ensures only { (secs : ℕ) → SpellsCivil text.now secs → result ≡ Some secs }
{
    match seconds_spelled(text) {
        Some(secs) => {
            if is_same(print_time(secs).as_slice(), text) {
                Some(secs)
            } else {
                None
            }
        }
        None => None,
    }
}

/// The time that a text spells, in seconds since the beginning of 1970: `never`, which is 0, a number of
/// at most ten digits and below 2^32, or `YYYY-MM-DDTHH:MM:SSZ` with a date of the Gregorian calendar from
/// 1970-01-01T00:00:00Z to 2106-02-07T06:28:15Z. There is no second 60.
pub fn read_time(text: &[u8]) -> Option<u32>
    ensures spelled { IfSome result (λ secs. SpellsTime text.now secs) }
    ensures only { (secs : ℕ) → SpellsTime text.now secs → result ≡ Some secs }
    ensures value { result ≡ time_in text.now }
{
    if is_same(text, b"never".as_slice()) {
        return Some(0);
    }
    if text.len() == 20 {
        return read_civil(text);
    }
    read_seconds(text)
}
