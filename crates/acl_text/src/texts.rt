//! The lines of a text, and the words of a line.

ghost use Rattle.std.specs.Prelude.{◌≡◌, ◌+◌, ◌<◌, ◌≤◌, ◌^◌, [], ◌∷◌, ◌++◌, IfOk};
ghost use Rattle.std.specs.Prelude.{IfSome, None, OnOk, Some, filter, map, true};
ghost use Rattle.std.specs.List.{slice_split};
ghost use Rattle.acl_text.specs.Joining.{TakesPiece};
ghost use Rattle.acl_text.specs.Texts.{carried, is_feed, is_gap, is_skipped, is_word, lines_from, lines_of, words_of};

use kdb_base::{Blob, MemoryOut};
use std::alloc::Global;
use std::mem;

/// A line, with the lines that it goes on in.
#[derive(Debug, Drop)]
pub struct Line {
    /// Its number in the text, counted from 1; that of the first one, where lines were joined.
    pub number: usize,
    pub text: Blob,
}

fn split_lines<'a>(alloc: Global, text: &'a [u8]) -> Result<Vec<&'a [u8]>, MemoryOut>
    ensures { IfOk result (λ pieces. map (λ p. p.now) pieces.items ≡ slice_split is_feed text.now) }
{
    let pieces = text.split(|byte| *byte == b'\n').collect(alloc)?;
    Ok(pieces)
}

fn split_gaps<'a>(alloc: Global, text: &'a [u8]) -> Result<Vec<&'a [u8]>, MemoryOut>
    ensures { IfOk result (λ pieces. map (λ p. p.now) pieces.items ≡ slice_split is_gap text.now) }
{
    let pieces = text
        .split(|byte| *byte == b' ' || *byte == b'\t')
        .collect(alloc)?;
    Ok(pieces)
}

// What stands before a backslash at the end, where more may follow.
#[tactic(auto, unfolding(crate::specs::Texts::carried))]
fn goes_on(text: &[u8], more: bool) -> Option<&[u8]>
    ensures more { IfSome result (λ front. more ≡ true) }
    ensures front { IfSome result (λ front. carried text.now ≡ Some front.now) }
    ensures none { result ≡ None → more ≡ true → carried text.now ≡ None }
{
    if !more || text.is_empty() {
        return None;
    }
    let last = text.len() - 1;
    if text[last] != b'\\' {
        return None;
    }
    Some(&text[..last])
}

// The lines so far, and the text and the place of the line that is begun.
#[derive(Drop)]
struct Joiner {
    lines: Vec<Line>,
    text: Vec<u8>,
    first: usize,
}

impl Joiner {
    // Ends the line with the text at this place, counted from 0.
    fn end_line(&mut self, alloc: Global, at: usize, piece: &[u8]) -> Result<(), MemoryOut>
        requires first { self.old.first ≤ at }
        requires room { at + 1 < 2 ^ 64 }
        ensures lines { OnOk result (self.new.lines.items ≡ self.old.lines.items ++ record {
          number = self.old.first + 1;
          text = self.old.text.items ++ piece.now;
        } ∷ []) }
        ensures text { OnOk result (self.new.text.items ≡ []) }
        ensures first { OnOk result (self.new.first ≡ at + 1) }
    {
        self.text.extend_from_slice(piece)?;
        let text = mem::replace(&mut self.text, Vec::new(alloc));
        self.lines.push(Line {
            number: self.first + 1,
            text: Blob::from_vec(text),
        })?;
        self.first = at + 1;
        Ok(())
    }

    // Takes the text at this place, behind which more may come.
    fn take(&mut self, alloc: Global, at: usize, piece: &[u8], more: bool) -> Result<(), MemoryOut>
        requires first { self.old.first ≤ at }
        requires room { at + 1 < 2 ^ 64 }
        ensures taken { OnOk result (TakesPiece at piece.now more self.old self.new) }
        ensures first { OnOk result (self.new.first ≤ at + 1) }
    {
        match goes_on(piece, more) {
            Some(front) => {
                self.text.extend_from_slice(front)?;
                Ok(())
            }
            None => self.end_line(alloc, at, piece),
        }
    }
}

fn join_pieces(alloc: Global, pieces: &[&[u8]]) -> Result<Vec<Line>, MemoryOut>
    ensures { IfOk result (λ lines. lines.items ≡ lines_from 1 (map (λ p. p.now) pieces.now)) }
{
    let mut joiner = Joiner {
        lines: Vec::new(alloc),
        text: Vec::new(alloc),
        first: 0,
    };
    let count = pieces.len();
    for at in 0..count {
        joiner.take(alloc, at, pieces[at], at + 1 < count)?;
    }
    Ok(joiner.lines)
}

/// The lines of a text, with their numbers.
#[tactic(auto, unfolding(crate::specs::Texts::lines_of))]
pub(crate) fn join_lines(alloc: Global, text: &[u8]) -> Result<Vec<Line>, MemoryOut>
    ensures { IfOk result (λ lines. lines.items ≡ lines_of text.now) }
{
    let pieces = split_lines(alloc, text)?;
    let lines = join_pieces(alloc, &pieces)?;
    Ok(lines)
}

/// Whether a line is empty or a comment.
#[tactic(auto, unfolding(crate::specs::Texts::is_skipped))]
pub(crate) fn is_skipped(text: &[u8]) -> bool
    ensures { result ≡ is_skipped text.now }
{
    match text {
        [] => true,
        [byte, ..] => *byte == b'#',
    }
}

// Adds a text that is a word.
fn keep_word(alloc: Global, words: &mut Vec<Blob>, piece: &[u8]) -> Result<(), MemoryOut>
    ensures { OnOk result (words.new.items ≡ words.old.items ++ filter is_word (piece.now ∷ [])) }
{
    match piece {
        [] => Ok(()),
        [_, ..] => {
            words.push(Blob::from_bytes(alloc, piece)?)?;
            Ok(())
        }
    }
}

fn keep_words(alloc: Global, pieces: &[&[u8]]) -> Result<Vec<Blob>, MemoryOut>
    ensures { IfOk result (λ words. words.items ≡ filter is_word (map (λ p. p.now) pieces.now)) }
{
    let mut words = Vec::new(alloc);
    for at in 0..pieces.len() {
        keep_word(alloc, &mut words, pieces[at])?;
    }
    Ok(words)
}

/// The words of a line.
#[tactic(auto, unfolding(crate::specs::Texts::words_of))]
pub(crate) fn split_words(alloc: Global, text: &[u8]) -> Result<Vec<Blob>, MemoryOut>
    ensures { IfOk result (λ words. words.items ≡ words_of text.now) }
{
    let pieces = split_gaps(alloc, text)?;
    let words = keep_words(alloc, &pieces)?;
    Ok(words)
}
