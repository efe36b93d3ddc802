ghost use Rattle.std.specs.Prelude.{List, ℕ, ◌≡◌, ◌+◌, ◌^◌, ◌<◌, ◌⊎◌, [], ◌∷◌, ◌++◌, true};
ghost use Rattle.std.specs.Prelude.{false, Some, None, is_some, IfOk, OnOk, IsTrue};
ghost use Rattle.princ_name.specs.Bytes.{is_refused, is_plain};
ghost use Rattle.princ_name.specs.Faults.{first_fault};
ghost use Rattle.princ_name.specs.Reading.{Says};
ghost use Rattle.princ_name.specs.Steps.{Takes, fault_of, mark_of, texts_of};

use crate::bytes::{escaped, is_refused};
use crate::faults::NameFault;
use crate::parts::Part;
use kdb_base::Blob;
use std::alloc::Global;
use std::mem;

/// What a word says: its texts, the last one apart, and the place of the realm, where it has one. The
/// last text is then the realm.
#[derive(Debug, Drop)]
pub struct Spelled {
    pub texts: Vec<Part>,
    pub last: Part,
    pub realm_at: Option<usize>,
}

/// What was read of a word so far: the texts before the last sign, the text behind it, whether that
/// has no backslash, whether a backslash came last, and the place behind the `@`.
#[derive(Drop)]
struct Reading {
    texts: Vec<Part>,
    text: Vec<u8>,
    bare: bool,
    behind_slash: bool,
    realm_at: Option<usize>,
}

impl Reading {
    fn new(alloc: Global) -> Reading
        ensures texts { result.texts.items ≡ [] }
        ensures text { result.text.items ≡ [] }
        ensures bare { result.bare ≡ true }
        ensures behind_slash { result.behind_slash ≡ false }
        ensures realm_at { result.realm_at ≡ None }
    {
        Reading {
            texts: Vec::new(alloc),
            text: Vec::new(alloc),
            bare: true,
            behind_slash: false,
            realm_at: None,
        }
    }

    /// Takes a byte that stands for itself.
    fn take_plain(&mut self, byte: u8) -> Result<(), NameFault>
        requires clear { self.old.behind_slash ≡ false }
        requires plain { is_plain byte ≡ true }
        ensures taken { OnOk result ((at : ℕ) → Takes at byte self.old self.new) }
        ensures memory { (offset : ℕ) → result ≡ Err (NameFault.BadName offset) → ⊥ }
    {
        self.text.push(byte)?;
        Ok(())
    }

    /// Takes a byte behind a backslash.
    fn take_escaped(&mut self, byte: u8) -> Result<(), NameFault>
        requires behind { self.old.behind_slash ≡ true }
        requires allowed { is_refused byte ≡ false }
        ensures taken { OnOk result ((at : ℕ) → Takes at byte self.old self.new) }
        ensures memory { (offset : ℕ) → result ≡ Err (NameFault.BadName offset) → ⊥ }
    {
        self.behind_slash = false;
        self.bare = false;
        self.text.push(escaped(byte))?;
        Ok(())
    }

    /// Ends a text before the sign that stands at this place.
    fn take_sign(&mut self, alloc: Global, at: usize, byte: u8) -> Result<(), NameFault>
        requires room { at + 1 < 2 ^ 64 }
        requires clear { self.old.behind_slash ≡ false }
        requires sign { (byte ≡ 47) ⊎ (byte ≡ 64) }
        ensures taken { OnOk result (Takes at byte self.old self.new) }
        ensures fault { (offset : ℕ) → result ≡ Err (NameFault.BadName offset) → (rest : List ℕ)
            → fault_of at self.old (byte ∷ rest) ≡ Some offset }
    {
        if self.realm_at.is_some() {
            return Err(NameFault::BadName { offset: at });
        }
        let text = mem::replace(&mut self.text, Vec::new(alloc));
        self.texts.push(Part {
            text: Blob::from_vec(text),
            bare: self.bare,
        })?;
        self.bare = true;
        if byte == b'@' {
            self.realm_at = Some(at + 1);
        }
        Ok(())
    }

    /// Takes the byte at this place.
    fn take(&mut self, alloc: Global, at: usize, byte: u8) -> Result<(), NameFault>
        requires room { at + 1 < 2 ^ 64 }
        ensures taken { OnOk result (Takes at byte self.old self.new) }
        ensures fault { (offset : ℕ) → result ≡ Err (NameFault.BadName offset) → (rest : List ℕ)
            → fault_of at self.old (byte ∷ rest) ≡ Some offset }
    {
        if is_refused(byte) {
            return Err(NameFault::BadName { offset: at });
        }
        if self.behind_slash {
            return self.take_escaped(byte);
        }
        if byte == b'\\' {
            self.behind_slash = true;
            return Ok(());
        }
        if byte == b'/' {
            return self.take_sign(alloc, at, byte);
        }
        if byte == b'@' {
            return self.take_sign(alloc, at, byte);
        }
        self.take_plain(byte)
    }

    /// The end of a word of this length.
    fn finish(self, len: usize) -> Result<Spelled, NameFault>
        ensures texts { IfOk result (λ s. s.texts.items ++ s.last ∷ [] ≡ texts_of len self []) }
        ensures mark { IfOk result (λ s. s.realm_at ≡ mark_of len self []) }
        ensures faultless { OnOk result (fault_of len self [] ≡ None) }
        ensures fault { (offset : ℕ) → result ≡ Err (NameFault.BadName offset) → fault_of len self [] ≡ Some offset }
    {
        if self.behind_slash {
            let offset = len.saturating_sub(1);
            return Err(NameFault::BadName { offset });
        }
        Ok(Spelled {
            texts: self.texts,
            last: Part {
                text: Blob::from_vec(self.text),
                bare: self.bare,
            },
            realm_at: self.realm_at,
        })
    }
}

/// What the word says, or its first fault.
pub fn read_word(alloc: Global, word: &[u8]) -> Result<Spelled, NameFault>
    ensures said { IfOk result (λ s. Says word.now s.texts.items s.last s.realm_at) }
    ensures fault { (offset : ℕ) → result ≡ Err (NameFault.BadName offset) → first_fault word.now ≡ Some offset }
{
    let mut reading = Reading::new(alloc);
    for (at, byte) in word.iter().enumerate() {
        match reading.take(alloc, at, *byte) {
            Ok(()) => {}
            Err(fault) => return Err(fault),
        }
    }
    reading.finish(word.len())
}
