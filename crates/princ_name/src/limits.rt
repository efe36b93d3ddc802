//! The limits of names, measured without printing them.

ghost use Rattle.std.specs.Prelude.{◌≡◌, ◌≢◌, ◌+◌, ◌<◌, [], true, None, length, map, IfSome};
ghost use Rattle.std.specs.List.{list_all};
ghost use Rattle.princ_name.specs.Bytes.{can_stand, printed_byte};
ghost use Rattle.princ_name.specs.Names.{IsName, printed, printed_text};
ghost use Rattle.princ_name.specs.Whole.{name_of, parts_cost};

use crate::bytes::can_stand;
use crate::parts::Part;

/// The most components of a name.
const MOST_PARTS: usize = 16;

/// The most bytes of a name's printed form.
const LONGEST: usize = 255;

/// How many bytes print this one.
#[tactic(auto, unfolding(crate::specs::Bytes::printed_byte, crate::specs::Bytes::is_sign))]
fn width(byte: u8) -> usize
    ensures { result ≡ length (printed_byte byte) }
{
    match byte {
        b'\n' | b'\t' | 8 | 0 | b'/' | b'@' | b'\\' => 2,
        _ => 1,
    }
}

/// What is left of the room for printed bytes behind a text, where it has room.
fn text_room(room: usize, text: &[u8]) -> Option<usize>
    ensures fits { IfSome result (λ left. left + length (printed_text text.now) ≡ room) }
    ensures none { result ≡ None → room < length (printed_text text.now) }
{
    let mut left = room;
    for byte in text {
        let width = width(*byte);
        if left < width {
            return None;
        }
        left -= width;
    }
    Some(left)
}

/// What is left of the room behind components, each with a sign behind it.
fn parts_room(room: usize, parts: &[Part]) -> Option<usize>
    ensures fits { IfSome result (λ left. left + parts_cost parts.now ≡ room) }
    ensures none { result ≡ None → room < parts_cost parts.now }
{
    let mut left = room;
    for part in parts {
        match text_room(left, part.text.as_slice()) {
            Some(behind) => {
                if behind == 0 {
                    return None;
                }
                left = behind - 1;
            }
            None => return None,
        }
    }
    Some(left)
}

/// Whether each byte may stand in a name.
fn all_stand(text: &[u8]) -> bool
    ensures { result ≡ list_all can_stand text.now }
{
    text.iter().all(|byte| can_stand(*byte))
}

/// How many bytes the printed form of the name has, where it is one.
pub fn printed_len(parts: &[Part], realm: &Part) -> Option<usize>
    requires some { parts.now ≢ [] }
    requires bytes { list_all (list_all can_stand) (map (λ p. p.text) parts.now) ≡ true }
    ensures name { IfSome result (λ n. IsName (name_of parts.now realm.now)) }
    ensures len { IfSome result (λ n. n ≡ length (printed (name_of parts.now realm.now))) }
    ensures none { result ≡ None → IsName (name_of parts.now realm.now) → ⊥ }
{
    let realm = realm.text.as_slice();
    if parts.len() > MOST_PARTS || realm.is_empty() || !all_stand(realm) {
        return None;
    }
    let room = parts_room(LONGEST, parts)?;
    let room = text_room(room, realm)?;
    Some(LONGEST - room)
}
