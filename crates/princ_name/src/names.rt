ghost use Rattle.std.specs.Prelude.{List, ℕ, ◌≡◌, ◌≢◌, None, map, length, IfOk, IfSome};
ghost use Rattle.princ_name.specs.Answers.{AnswersName, AnswersReading, IsRefusedAt};
ghost use Rattle.princ_name.specs.Equal.{same_name, same_name_equiv, same_name_partial};
ghost use Rattle.princ_name.specs.Faults.{fault_place};
ghost use Rattle.princ_name.specs.Names.{NameParts, IsName, printed};
ghost use Rattle.princ_name.specs.Readings.{own_name_in};
ghost use Rattle.princ_name.specs.Spelling.{Spells};
ghost use Rattle.princ_name.specs.Whole.{IsWhole, name_of};

use crate::faults::NameFault;
use crate::parts::Part;
use crate::whole::{Whole, read_whole};
use kdb_base::{Blob, MemoryOut};
use std::alloc::Global;
use std::marker::Model;

/// A principal's name: 1 to 16 components and a realm, at most 255 bytes in its printed form.
#[derive(Debug, Drop)]
pub struct Name {
    parts: Vec<Blob>,
    realm: Blob,
    printed_len: usize,
}

impl Model for Name {
    ghost use Rattle.princ_name.specs.Names.{NameParts, IsKept};

    ghost Value = { NameParts };

    ghost view = { λ n. record { parts = n.parts.items; realm = n.realm } };

    ghost invariant = { λ n. IsKept (record { parts = n.parts.items; realm = n.realm }) n.printed_len };
}

impl Name {
    /// The components, 1 to 16 of them. A component may be empty.
    pub fn parts(&self) -> &[Blob]
        ensures value { result.now ≡ self.now.parts }
        ensures name { IsName self.now }
    {
        &self.parts
    }

    /// The realm, which is not empty.
    pub fn realm(&self) -> &[u8]
        ensures value { result.now ≡ self.now.realm }
        ensures name { IsName self.now }
    {
        self.realm.as_slice()
    }

    /// How many bytes the printed form has, at most 255.
    pub fn printed_len(&self) -> usize
        ensures value { result ≡ length (printed self.now) }
        ensures name { IsName self.now }
    {
        self.printed_len
    }

    /// A copy of the name. Only want of memory can refuse it.
    pub fn copied(&self, alloc: Global) -> Result<Name, MemoryOut>
        ensures { IfOk result (λ name. name ≡ self.now) }
    {
        let parts = copied_texts(alloc, &self.parts)?;
        let realm = Blob::from_bytes(alloc, self.realm.as_slice())?;
        Ok(Name {
            parts,
            realm,
            printed_len: self.printed_len,
        })
    }
}

/// The same texts in the same order.
fn copied_texts(alloc: Global, texts: &[Blob]) -> Result<Vec<Blob>, MemoryOut>
    ensures { IfOk result (λ v. v.items ≡ texts.now) }
{
    let mut out = Vec::with_capacity(alloc, texts.len())?;
    for text in texts {
        let text = Blob::from_bytes(alloc, text.as_slice())?;
        out.push(text)?;
    }
    Ok(out)
}

/// Names are the same where they have the same components and the same realm.
impl PartialEq for Name {
    ghost eq = { same_name };

    ghost laws = { same_name_partial };

    fn eq(&self, other: &Name) -> bool {
        self.realm() == other.realm() && self.parts() == other.parts()
    }
}

impl Eq for Name {
    ghost laws = { same_name_equiv };
}

/// The texts of components.
fn texts_of(alloc: Global, parts: Vec<Part>) -> Result<Vec<Blob>, MemoryOut>
    ensures { IfOk result (λ v. v.items ≡ map (λ p. p.text) parts.items) }
{
    let texts = parts
        .into_iter()
        .map(|part| {
            let Part { text, bare: _ } = part;
            text
        })
        .collect(alloc)?;
    Ok(texts)
}

/// The name of a word that was read whole.
fn name_from(alloc: Global, whole: Whole) -> Result<Name, MemoryOut>
    requires name { IsName (name_of whole.parts.items whole.realm) }
    requires len { whole.printed_len ≡ length (printed (name_of whole.parts.items whole.realm)) }
    ensures { IfOk result (λ name. name ≡ name_of whole.parts.items whole.realm) }
{
    let Whole {
        parts,
        realm,
        printed_len,
        realm_at: _,
    } = whole;
    let parts = texts_of(alloc, parts)?;
    let Part {
        text: realm,
        bare: _,
    } = realm;
    Ok(Name {
        parts,
        realm,
        printed_len,
    })
}

/// The name that a word spells, in a database of this realm: a word without an `@` names it. A word that
/// spells no name is refused at its first fault, or behind its last byte where the realm is empty, or the
/// name has more than 16 components or more than 255 printed bytes (or the given realm has a byte that
/// stands in no name). Only want of memory can refuse another word.
pub fn parse_name(alloc: Global, text: &[u8], realm: &[u8]) -> Result<Name, NameFault>
    ensures spelled { IfOk result (λ name. Spells text.now realm.now name) }
    ensures limits { IfOk result (λ name. IsName name) }
    ensures only { (name : NameParts) → Spells text.now realm.now name → IsName name → AnswersName name result }
    ensures place { (offset : ℕ) → result ≡ Err (NameFault.BadName offset) → offset ≡ fault_place text.now }
{
    let whole = match read_whole(alloc, text, realm) {
        Ok(whole) => whole,
        Err(fault) => return Err(fault),
    };
    match name_from(alloc, whole) {
        Ok(name) => Ok(name),
        Err(_) => Err(NameFault::MemoryOut),
    }
}

/// The name of this realm that a word spells. A name of another realm is refused at the realm's first
/// byte, any other word as `parse_name` does. So the word and the realm alone decide the answer, unless
/// memory runs out.
pub fn parse_own_name(alloc: Global, text: &[u8], realm: &[u8]) -> Result<Name, NameFault>
    ensures spelled { IfOk result (λ name. Spells text.now realm.now name) }
    ensures limits { IfOk result (λ name. IsName name) }
    ensures own { IfOk result (λ name. name.realm ≡ realm.now) }
    ensures only { (name : NameParts) → Spells text.now realm.now name → IsName name → name.realm ≡ realm.now
        → AnswersName name result }
    ensures refused { (offset : ℕ) → result ≡ Err (NameFault.BadName offset) → IsRefusedAt text.now realm.now offset }
    ensures value { AnswersReading (own_name_in text.now realm.now) result }
{
    let whole = match read_whole(alloc, text, realm) {
        Ok(whole) => whole,
        Err(fault) => return Err(fault),
    };
    match other_realm_at(&whole, realm) {
        Some(offset) => Err(NameFault::BadName { offset }),
        None => match name_from(alloc, whole) {
            Ok(name) => Ok(name),
            Err(_) => Err(NameFault::MemoryOut),
        },
    }
}

/// The place of the realm in a word, where it is another than the given one.
fn other_realm_at(whole: &Whole, given: &[u8]) -> Option<usize>
    ensures other { IfSome result (λ at. whole.now.realm_at ≡ Some at) }
    ensures differs { IfSome result (λ at. whole.now.realm.text ≢ given.now) }
    ensures same { result ≡ None → whole.now.realm_at ≢ None → whole.now.realm.text ≡ given.now }
{
    if whole.realm.text.as_slice() == given {
        return None;
    }
    whole.realm_at
}
