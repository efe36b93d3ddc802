//! The words of names and of patterns, read with their realm and judged by the limits of names.

ghost use Rattle.std.specs.Prelude.{List, ℕ, ◌≡◌, [], ◌∷◌, ◌++◌, None, Some, IfOk, IfSome, IsSome};
ghost use Rattle.princ_name.specs.Faults.{fault_place};
ghost use Rattle.princ_name.specs.Names.{IsName};
ghost use Rattle.princ_name.specs.Reading.{Says};
ghost use Rattle.princ_name.specs.Spelling.{SpellsPart, SpellsWord};
ghost use Rattle.princ_name.specs.Whole.{AnswersParts, IsWhole, SpellsAt, given_part, name_of};
ghost use Rattle.princ_name.specs.declared.parts.Part.{Part};

use crate::faults::NameFault;
use crate::limits::printed_len;
use crate::parts::Part;
use crate::reading::{Spelled, read_word};
use kdb_base::{Blob, MemoryOut};
use std::alloc::Global;

/// The components and the realm of a word, the length of their printed form, and the place of the
/// realm's first byte, where the word has one.
#[derive(Debug, Drop)]
pub struct Whole {
    pub parts: Vec<Part>,
    pub realm: Part,
    pub printed_len: usize,
    pub realm_at: Option<usize>,
}

/// The components and the realm of a word, and the realm's place.
#[derive(Drop)]
struct Shape {
    parts: Vec<Part>,
    realm: Part,
    realm_at: Option<usize>,
}

/// Takes the last text as the realm where a sign says so, and else the given one.
fn with_realm(alloc: Global, spelled: Spelled, given: &[u8]) -> Result<Shape, MemoryOut>
    ensures { IfOk result (λ s. (word : List ℕ) → Says word spelled.texts.items spelled.last spelled.realm_at
        → SpellsAt word given.now s.parts.items s.realm s.realm_at) }
{
    let Spelled {
        mut texts,
        last,
        realm_at,
    } = spelled;
    if realm_at.is_some() {
        return Ok(Shape {
            parts: texts,
            realm: last,
            realm_at,
        });
    }
    texts.push(last)?;
    let text = Blob::from_bytes(alloc, given)?;
    Ok(Shape {
        parts: texts,
        realm: Part { text, bare: false },
        realm_at,
    })
}

/// The components and the realm of a word, which has the given realm where it names none. A name that
/// breaks a limit is at fault behind the word's last byte.
pub fn read_whole(alloc: Global, word: &[u8], given: &[u8]) -> Result<Whole, NameFault>
    ensures whole { IfOk result (λ w. IsWhole word.now given.now w) }
    ensures only { (parts : List Part) (realm : Part)
        → SpellsWord SpellsPart word.now (given_part given.now) parts realm → IsName (name_of parts realm)
        → AnswersParts parts realm result }
    ensures place { (offset : ℕ) → result ≡ Err (NameFault.BadName offset) → offset ≡ fault_place word.now }
{
    let spelled = match read_word(alloc, word) {
        Ok(spelled) => spelled,
        Err(fault) => return Err(fault),
    };
    let shape = match with_realm(alloc, spelled, given) {
        Ok(shape) => shape,
        Err(_) => return Err(NameFault::MemoryOut),
    };
    match printed_len(&shape.parts, &shape.realm) {
        Some(printed_len) => Ok(Whole {
            parts: shape.parts,
            realm: shape.realm,
            printed_len,
            realm_at: shape.realm_at,
        }),
        None => Err(NameFault::BadName { offset: word.len() }),
    }
}
