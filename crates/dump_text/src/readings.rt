//! What a line of a dump says.
ghost use Rattle.std.specs.Prelude.{◌≡◌, ◌-◌, ◌<◌, ◌^◌, min, List, ℕ, None, Some, true, false, codes, IfOk, IfSome};
ghost use Rattle.kdb_base.specs.Moment.{Moment};
ghost use Rattle.princ_record.specs.RowLimits.{IsRow};
ghost use Rattle.kdb_format.specs.Readings.{whole};
ghost use Rattle.princ_record.specs.Policies.{IsPolicy};
ghost use Rattle.princ_record.specs.Princs.{IsPrinc, princ_at};
ghost use Rattle.dump_text.specs.Reader.{Finds, FindsAs};
ghost use Rattle.hex.specs.Hex.{decode_of};
ghost use Rattle.dump_text.specs.Readings.{before_blank, behind, behind_blank, bytes_or_none};
ghost use Rattle.dump_text.specs.Readings.{hex_of, is_point, near_point, near_time, point_in};
ghost use Rattle.dump_text.specs.Readings.{policy_of, princ_of, realm_in, realm_of, written_so};

use crate::lines::print_point;
use crate::stops::LineStop;
use crate::versions::Version;
use hex::FromHexError;
use kadm_values::value_of_digits;
use kdb_base::{Point, Time};
use kdb_format::read_whole;
use memchr::memchr;
use policy_rules::Policy;
use princ_name::{Realm, is_realm};
use princ_record::{PolicyFormat, Princ, PrincFormat};
use std::alloc::Global;

/// What stands behind this word.
#[tactic(auto, unfolding(crate::specs::Readings::behind))]
pub(crate) fn behind<'a>(word: &[u8], line: &'a [u8]) -> Option<&'a [u8]>
    ensures some { IfSome result (λ text. behind word.now line.now ≡ Some text.now) }
    ensures none { result ≡ None → behind word.now line.now ≡ None }
{
    line.strip_prefix(word)
}

#[tactic(auto, unfolding(crate::specs::Readings::realm_of))]
fn realm_of(alloc: Global, text: &[u8]) -> Result<Realm, LineStop>
    ensures { Finds result (realm_of text.now) }
{
    if !is_realm(text) {
        return Err(LineStop::Bad);
    }
    let realm = Realm::from_bytes(alloc, text)?;
    Ok(realm)
}

/// The realm of a line.
#[tactic(auto, unfolding(crate::specs::Readings::realm_in))]
pub(crate) fn realm_in(alloc: Global, line: &[u8]) -> Result<Realm, LineStop>
    ensures { Finds result (realm_in line.now) }
{
    match behind(b"realm ", line) {
        Some(text) => realm_of(alloc, text),
        None => Err(LineStop::Bad),
    }
}

/// The bytes before the first blank, and those behind it.
fn cut_blank(text: &[u8]) -> (&[u8], &[u8])
    ensures front { result.0.now ≡ before_blank text.now }
    ensures rest { result.1.now ≡ behind_blank text.now }
{
    match memchr(b' ', text) {
        Some(place) => (&text[..place], &text[place + 1..]),
        None => (text, &text[text.len()..]),
    }
}

/// The point of these numbers, where each is in its range.
fn point_of(sno: u64, secs: u64, usecs: u64) -> Option<Point>
    ensures some { IfSome result (λ p. p ≡ record { sno = sno; time = record { secs = secs; usecs = usecs } }) }
    ensures none { result ≡ None → (sno < 4294967296) × (secs < 4294967296) × (usecs < 1000000) → ⊥ }
{
    if sno > 4_294_967_295 || secs > 4_294_967_295 || usecs > 999_999 {
        return None;
    }
    Some(Point {
        sno: sno as u32,
        time: Time::new(secs as u32, usecs as u32),
    })
}

/// The point whose numbers stand at their places, read loosely.
#[tactic(auto, unfolding(crate::specs::Readings::near_point, crate::specs::Readings::near_time))]
fn near_point(text: &[u8]) -> Option<Point>
    ensures some { IfSome result (λ p. (p ≡ near_point text.now) × (is_point p ≡ true)) }
    ensures none { result ≡ None → is_point (near_point text.now) ≡ false }
{
    let (front, rest) = cut_blank(text);
    let seconds = rest.len().saturating_sub(7);
    let micros = rest.len().saturating_sub(6);
    point_of(
        value_of_digits(front),
        value_of_digits(&rest[..seconds]),
        value_of_digits(&rest[micros..]),
    )
}

/// The point, where the line is what is printed for it.
#[tactic(auto, unfolding(crate::specs::Readings::written_so))]
fn written_so(alloc: Global, line: &[u8], point: Point) -> Result<Point, LineStop>
    requires { is_point point ≡ true }
    ensures { Finds result (written_so line.now point) }
{
    let text = print_point(alloc, &point)?;
    if text.as_slice() != line {
        return Err(LineStop::Bad);
    }
    Ok(point)
}

/// The point of a line.
#[tactic(auto, unfolding(crate::specs::Readings::point_in, crate::specs::Readings::written_so))]
pub(crate) fn point_in(alloc: Global, line: &[u8]) -> Result<Point, LineStop>
    ensures { Finds result (point_in line.now) }
{
    match behind(b"point ", line) {
        Some(text) => match near_point(text) {
            Some(point) => written_so(alloc, line, point),
            None => Err(LineStop::Bad),
        },
        None => Err(LineStop::Bad),
    }
}

fn decode_hex(alloc: Global, text: &[u8]) -> Result<Vec<u8>, LineStop>
    ensures { FindsAs (λ bytes. bytes.items) result (bytes_or_none (decode_of text.now)) }
{
    match hex::decode(alloc, text) {
        Ok(bytes) => Ok(bytes),
        Err(FromHexError::OutOfMemory) => Err(LineStop::MemoryOut),
        Err(_) => Err(LineStop::Bad),
    }
}

/// The bytes that are written so in lower case.
#[tactic(auto, unfolding(crate::specs::Readings::hex_of))]
fn hex_of(alloc: Global, text: &[u8]) -> Result<Vec<u8>, LineStop>
    ensures { FindsAs (λ bytes. bytes.items) result (hex_of text.now) }
{
    let bytes = decode_hex(alloc, text)?;
    let again = hex::encode(alloc, bytes.as_slice())?;
    if again.as_bytes() != text {
        return Err(LineStop::Bad);
    }
    Ok(bytes)
}

/// The principal of these bytes.
fn princ_in(alloc: Global, bytes: &[u8]) -> Result<Princ, LineStop>
    ensures found { Finds result (whole princ_at bytes.now) }
    ensures fits { IfOk result (λ p. IsPrinc p) }
{
    let princ = read_whole::<PrincFormat>(alloc, bytes)?;
    Ok(princ)
}

/// The principal of these digits, in a dump of this version.
#[tactic(auto, unfolding(crate::specs::Readings::princ_of), using(crate::proofs::Stands::stands_row))]
pub(crate) fn princ_of(alloc: Global, version: Version, text: &[u8]) -> Result<Princ, LineStop>
    ensures found { Finds result (princ_of version text.now) }
    ensures row { IfOk result (λ p. IsRow p) }
{
    let bytes = hex_of(alloc, text)?;
    let princ = princ_in(alloc, &bytes)?;
    if !version.takes(&princ) {
        return Err(LineStop::Bad);
    }
    Ok(princ)
}

/// The policy of these digits.
#[tactic(auto, unfolding(crate::specs::Readings::policy_of))]
pub(crate) fn policy_of(alloc: Global, text: &[u8]) -> Result<Policy, LineStop>
    ensures found { Finds result (policy_of text.now) }
    ensures row { IfOk result (λ p. IsPolicy p) }
{
    let bytes = hex_of(alloc, text)?;
    let policy = read_whole::<PolicyFormat>(alloc, &bytes)?;
    Ok(policy)
}
