//! The words of a line.

ghost use Rattle.std.specs.Prelude.{List, ℕ, ◌≡◌, ◌++◌, [], ◌∷◌, IfOk, OnOk, option_map};
ghost use Rattle.kadm_words.specs.Split.{IsSplit};
ghost use Rattle.kadm_words.specs.Splitting.{Takes, kind_of, words_in, words_of};

use kdb_base::{Blob, MemoryOut};
use std::alloc::Global;

// What a byte is outside of quotes.
#[derive(Clone, Copy, Debug)]
enum ByteKind {
    // It separates words.
    Gap,
    Quote,
    // It stands between quotes alone.
    Control,
    Plain,
}

fn kind_of(byte: u8) -> ByteKind
    ensures { result ≡ kind_of byte }
{
    if byte == b' ' || byte == b'\t' {
        return ByteKind::Gap;
    }
    if byte == b'"' {
        return ByteKind::Quote;
    }
    if byte < 32 || byte == 127 {
        return ByteKind::Control;
    }
    ByteKind::Plain
}

// Where the bytes that were read end.
#[derive(Clone, Copy, Debug)]
enum Place {
    Between,
    InPlain,
    InQuoted,
    // Behind a quote within a quoted word: its last one, or the first of two that stand for one.
    BehindQuote,
}

// The words that were read, and the front of one more where the place is within a word.
#[derive(Drop)]
struct Splitter {
    words: Vec<Blob>,
    word: Vec<u8>,
    place: Place,
}

impl Splitter {
    fn new(alloc: Global) -> Splitter
        ensures words { result.words.items ≡ [] }
        ensures place { result.place ≡ Place.Between }
    {
        Splitter {
            words: Vec::new(alloc),
            word: Vec::new(alloc),
            place: Place::Between,
        }
    }

    // Ends the word.
    fn end_word(&mut self, alloc: Global) -> Result<(), MemoryOut>
        ensures words { OnOk result (self.new.words.items ≡ self.old.words.items ++ self.old.word.items ∷ []) }
        ensures place { OnOk result (self.new.place ≡ Place.Between) }
    {
        let word = Blob::from_bytes(alloc, &self.word)?;
        self.words.push(word)?;
        self.place = Place::Between;
        Ok(())
    }

    // Whether the byte can stand there; then it is taken.
    fn take_between(&mut self, byte: u8) -> Result<bool, MemoryOut>
        requires { self.old.place ≡ Place.Between }
        ensures { IfOk result (λ taken. Takes taken byte self.old self.new) }
    {
        match kind_of(byte) {
            ByteKind::Gap => Ok(true),
            ByteKind::Quote => {
                self.word.clear();
                self.place = Place::InQuoted;
                Ok(true)
            }
            ByteKind::Control => Ok(false),
            ByteKind::Plain => {
                self.word.clear();
                self.word.push(byte)?;
                self.place = Place::InPlain;
                Ok(true)
            }
        }
    }

    fn take_plain(&mut self, alloc: Global, byte: u8) -> Result<bool, MemoryOut>
        requires { self.old.place ≡ Place.InPlain }
        ensures { IfOk result (λ taken. Takes taken byte self.old self.new) }
    {
        match kind_of(byte) {
            ByteKind::Gap => {
                self.end_word(alloc)?;
                Ok(true)
            }
            ByteKind::Quote => Ok(false),
            ByteKind::Control => Ok(false),
            ByteKind::Plain => {
                self.word.push(byte)?;
                Ok(true)
            }
        }
    }

    fn take_quoted(&mut self, byte: u8) -> Result<bool, MemoryOut>
        requires { self.old.place ≡ Place.InQuoted }
        ensures { IfOk result (λ taken. Takes taken byte self.old self.new) }
    {
        if byte == b'"' {
            self.place = Place::BehindQuote;
            return Ok(true);
        }
        self.word.push(byte)?;
        Ok(true)
    }

    fn take_behind_quote(&mut self, alloc: Global, byte: u8) -> Result<bool, MemoryOut>
        requires { self.old.place ≡ Place.BehindQuote }
        ensures { IfOk result (λ taken. Takes taken byte self.old self.new) }
    {
        match kind_of(byte) {
            ByteKind::Gap => {
                self.end_word(alloc)?;
                Ok(true)
            }
            ByteKind::Quote => {
                self.word.push(b'"')?;
                self.place = Place::InQuoted;
                Ok(true)
            }
            ByteKind::Control => Ok(false),
            ByteKind::Plain => Ok(false),
        }
    }

    fn take(&mut self, alloc: Global, byte: u8) -> Result<bool, MemoryOut>
        ensures { IfOk result (λ taken. Takes taken byte self.old self.new) }
    {
        match self.place {
            Place::Between => self.take_between(byte),
            Place::InPlain => self.take_plain(alloc, byte),
            Place::InQuoted => self.take_quoted(byte),
            Place::BehindQuote => self.take_behind_quote(alloc, byte),
        }
    }

    // The words, where the line may end here.
    fn finish(mut self, alloc: Global) -> Result<Option<Vec<Blob>>, MemoryOut>
        ensures { IfOk result (λ words. option_map (λ v. v.items) words ≡ words_of self []) }
    {
        match self.place {
            Place::Between => Ok(Some(self.words)),
            Place::InQuoted => Ok(None),
            Place::InPlain | Place::BehindQuote => {
                self.end_word(alloc)?;
                Ok(Some(self.words))
            }
        }
    }
}

/// The words of a line that is given without its line feed, where words spell it. Only want of memory can refuse it.
pub fn split_words(alloc: Global, line: &[u8]) -> Result<Option<Vec<Blob>>, MemoryOut>
    ensures spelled { IfOk result (λ words. IsSplit line.now (option_map (λ v. v.items) words)) }
    ensures value { IfOk result (λ words. option_map (λ v. v.items) words ≡ words_in line.now) }
{
    let mut splitter = Splitter::new(alloc);
    for byte in line {
        let taken = splitter.take(alloc, *byte)?;
        if !taken {
            return Ok(None);
        }
    }
    splitter.finish(alloc)
}
