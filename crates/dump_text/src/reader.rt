//! A dump, read in pieces of any size.
ghost use Rattle.std.specs.Prelude.{◌≡◌, ◌≢◌, ◌≤◌, ◌<◌, ◌++◌, [], List, ℕ, None, Some};
ghost use Rattle.std.specs.Prelude.{Ok, Err, true, length, IfOk, IfSome, OnErr, OnOk};
ghost use Rattle.dump_text.specs.Dumps.{row_count};
ghost use Rattle.dump_text.specs.Judged.{after, judged_from, line_behind, rows_of, said_by};
ghost use Rattle.dump_text.specs.Lines.{Cut, lacks, lines_of};
ghost use Rattle.dump_text.specs.Reader.{Grows, IsFed, answer_of, fresh, judged_with};
ghost use Rattle.dump_text.specs.Versions.{longest};
ghost use Rattle.kdb_base.specs.Limits.{most_rows};
ghost use Rattle.dump_text.specs.declared.dumps.Dump.{Dump};

use crate::dumps::Dump;
use crate::progress::Progress;
use crate::stops::{DumpStop, LineStop};
use kdb_base::MemoryOut;
use kdb_base::limits::MAX_ROW_LEN;
use kdb_format::writing::push_bytes;
use memchr::memchr;
use std::alloc::Global;
use std::marker::Model;
use std::mem;

/// The most bytes of a line: a principal's word, and two digits for each byte of its record.
const LONGEST: usize = 6 + 2 * MAX_ROW_LEN;

/// The bytes before the first line feed, and those behind it.
fn cut_line(text: &[u8]) -> Option<(&[u8], &[u8])>
    ensures some { IfSome result (λ parts. Cut 10 text.now parts.0.now parts.1.now) }
    ensures none { result ≡ None → lacks 10 text.now ≡ true }
{
    match memchr(b'\n', text) {
        Some(place) => Some((&text[..place], &text[place + 1..])),
        None => None,
    }
}

/// Puts bytes behind those of a line. Bad where it is longer than any line of a dump.
fn extend_line(line: &mut Vec<u8>, bytes: &[u8]) -> Result<(), LineStop>
    ensures ok { OnOk result (line.new.items ≡ line.old.items ++ bytes.now) }
    ensures short { OnOk result (length line.new.items ≤ longest) }
    ensures long { result ≡ Err LineStop.Bad → longest < length (line.old.items ++ bytes.now) }
{
    if bytes.len() > LONGEST || line.len() > LONGEST - bytes.len() {
        return Err(LineStop::Bad);
    }
    push_bytes(line, bytes)?;
    Ok(())
}

/// Takes the line of which these are the last bytes.
fn take_whole(
    alloc: Global,
    said: &mut Progress,
    count: &mut u32,
    line: &mut Vec<u8>,
    bytes: &[u8],
) -> Result<(), LineStop>
    ensures ok { OnOk result (after said.old (line.old.items ++ bytes.now) ≡ Some said.new) }
    ensures count { OnOk result (count.new ≡ line_behind count.old) }
    ensures line { OnOk result (line.new.items ≡ []) }
    ensures bad { result ≡ Err LineStop.Bad → after said.old (line.old.items ++ bytes.now) ≡ None }
    ensures err_count { OnErr result (count.new ≡ count.old) }
    ensures grows { Grows said.old said.new }
{
    said.holds_rows();
    match extend_line(line, bytes) {
        Ok(()) => match said.take_line(alloc, line) {
            Ok(()) => {
                *count = count.saturating_add(1);
                line.clear();
                Ok(())
            }
            Err(stop) => Err(stop),
        },
        Err(stop) => Err(stop),
    }
}

/// Takes bytes behind the last line feed.
fn take_rest(said: &mut Progress, line: &mut Vec<u8>, bytes: &[u8]) -> Result<(), LineStop>
    ensures few { row_count (rows_of said.old) ≤ most_rows }
    ensures said { said.new ≡ said.old }
    ensures ok { OnOk result (line.new.items ≡ line.old.items ++ bytes.now) }
    ensures short { OnOk result (length line.new.items ≤ longest) }
    ensures long { result ≡ Err LineStop.Bad → longest < length (line.old.items ++ bytes.now) }
{
    said.holds_rows();
    extend_line(line, bytes)
}

/// Takes each line that a piece ends, and keeps what stands behind the last one.
fn take_piece(
    alloc: Global,
    said: &mut Progress,
    count: &mut u32,
    line: &mut Vec<u8>,
    piece: &[u8],
) -> Result<(), LineStop>
    requires { lacks 10 line.old.items ≡ true }
    ensures same { OnOk result ((rest : List ℕ) → judged_from said.new count.new (line.new.items ++ rest)
        ≡ judged_from said.old count.old (line.old.items ++ (piece.now ++ rest))) }
    ensures whole { OnOk result (said_by said.old (lines_of (line.old.items ++ piece.now)).whole ≡ Some said.new) }
    ensures held { OnOk result (line.new.items ≡ (lines_of (line.old.items ++ piece.now)).rest) }
    ensures clear { OnOk result (lacks 10 line.new.items ≡ true) }
    ensures short { OnOk result (length line.new.items ≤ longest) }
    ensures bad { result ≡ Err LineStop.Bad → (rest : List ℕ)
        → judged_from said.old count.old (line.old.items ++ (piece.now ++ rest)) ≡ Err (line_behind count.new) }
    ensures grows { Grows said.old said.new }
{
    let mut rest = piece;
    loop {
        match cut_line(rest) {
            Some((front, behind)) => {
                match take_whole(alloc, said, count, line, front) {
                    Ok(()) => {}
                    Err(stop) => return Err(stop),
                }
                rest = behind;
            }
            None => {
                return match take_rest(said, line, rest) {
                    Ok(()) => Ok(()),
                    Err(stop) => Err(stop),
                };
            }
        }
    }
}

/// Makes the line a copy of what is held.
fn begin_line(line: &mut Vec<u8>, held: &[u8]) -> Result<(), MemoryOut>
    ensures { OnOk result (line.new.items ≡ held.now) }
{
    line.clear();
    push_bytes(line, held)?;
    Ok(())
}

/// Takes a piece behind what is held. Where memory runs out, what was said is taken back.
fn take_or_leave(
    alloc: Global,
    said: &mut Progress,
    count: &mut u32,
    line: &mut Vec<u8>,
    held: &[u8],
    piece: &[u8],
) -> Result<(), LineStop>
    requires { lacks 10 held.now ≡ true }
    ensures same { OnOk result ((rest : List ℕ) → judged_from said.new count.new (line.new.items ++ rest)
        ≡ judged_from said.old count.old (held.now ++ (piece.now ++ rest))) }
    ensures whole { OnOk result (said_by said.old (lines_of (held.now ++ piece.now)).whole ≡ Some said.new) }
    ensures held { OnOk result (line.new.items ≡ (lines_of (held.now ++ piece.now)).rest) }
    ensures clear { OnOk result (lacks 10 line.new.items ≡ true) }
    ensures short { OnOk result (length line.new.items ≤ longest) }
    ensures bad { result ≡ Err LineStop.Bad → (rest : List ℕ)
        → judged_from said.old count.old (held.now ++ (piece.now ++ rest)) ≡ Err (line_behind count.new) }
    ensures said { result ≡ Err LineStop.MemoryOut → said.new ≡ said.old }
    ensures count { result ≡ Err LineStop.MemoryOut → count.new ≡ count.old }
{
    let mark = said.mark();
    let lines = *count;
    match begin_line(line, held) {
        Ok(()) => match take_piece(alloc, said, count, line, piece) {
            Ok(()) => Ok(()),
            Err(LineStop::Bad) => Err(LineStop::Bad),
            Err(LineStop::MemoryOut) => {
                said.back_to(&mark);
                *count = lines;
                Err(LineStop::MemoryOut)
            }
        },
        Err(_) => Err(LineStop::MemoryOut),
    }
}

/// Reads a dump that comes in pieces of any size. Memory is bounded by the rows and by the longest line,
/// 32006 bytes.
#[derive(Debug, Drop)]
pub struct DumpReader {
    alloc: Global,
    said: Progress,
    count: u32,
    /// The bytes behind the last line feed.
    held: Vec<u8>,
    /// Where a line is put together. Until a piece was taken whole, `held` stays as it is.
    line: Vec<u8>,
    bad: Option<u32>,
}

impl Model for DumpReader {
    ghost use Rattle.std.specs.Prelude.{◌≡◌, ◌≤◌, true, length};
    ghost use Rattle.dump_text.specs.Lines.{lacks};
    ghost use Rattle.dump_text.specs.Reader.{ReaderState};

    ghost Value = { ReaderState };

    ghost view = { λ r. record { said = r.said; count = r.count; held = r.held.items; bad = r.bad } };

    ghost invariant = { λ r. lacks 10 r.held.items ≡ true };
}

impl DumpReader {
    /// A reader at the front of a dump. Only want of memory can refuse it.
    pub fn new(alloc: Global) -> Result<DumpReader, MemoryOut>
        ensures { IfOk result (λ r. r ≡ fresh) }
    {
        let line = Vec::with_capacity(alloc, LONGEST)?;
        let held = Vec::with_capacity(alloc, LONGEST)?;
        Ok(DumpReader {
            alloc,
            said: Progress::new(alloc),
            count: 0,
            held,
            line,
            bad: None,
        })
    }

    /// Takes the next bytes of the text. DumpBad as soon as a line is complete and bad, or longer than any
    /// line of a dump; every later call answers the same. After MemoryOut all stands as before the call.
    #[tactic(auto, unfolding(crate::specs::Reader::judged_with))]
    pub fn feed(&mut self, piece: &[u8]) -> Result<(), DumpStop>
        // What the whole text is does not depend on how it is cut into pieces.
        ensures same { OnOk result
            ((rest : List ℕ) → judged_with self.new rest ≡ judged_with self.old (piece.now ++ rest)) }
        // No whole line so far is bad, and no line is too long.
        ensures fed { OnOk result (IsFed piece.now self.old self.new) }
        // Whatever comes, this line is the first bad one.
        ensures bad { (line : ℕ) → result ≡ Err (DumpStop.DumpBad line) → (rest : List ℕ)
            → judged_with self.old (piece.now ++ rest) ≡ Err line }
        ensures stays { (line : ℕ) → result ≡ Err (DumpStop.DumpBad line) → self.new.bad ≡ Some line }
        ensures again { (line : ℕ) → self.old.bad ≡ Some line → result ≡ Err (DumpStop.DumpBad line) }
        ensures memory { result ≡ Err DumpStop.MemoryOut → self.new ≡ self.old }
        ensures no_fault { result ≢ Err DumpStop.WriteFault }
    {
        match self.bad {
            Some(line) => return Err(DumpStop::DumpBad { line }),
            None => {}
        }
        match take_or_leave(
            self.alloc,
            &mut self.said,
            &mut self.count,
            &mut self.line,
            &self.held,
            piece,
        ) {
            Ok(()) => {
                mem::swap(&mut self.held, &mut self.line);
                Ok(())
            }
            Err(LineStop::Bad) => {
                let line = self.count.saturating_add(1);
                self.bad = Some(line);
                Err(DumpStop::DumpBad { line })
            }
            Err(LineStop::MemoryOut) => Err(DumpStop::MemoryOut),
        }
    }

    /// The dump that the whole text spells, or the first line at which none goes on with the lines before
    /// it. Where the text ends too early, that is the line that is missing.
    pub fn finish(self) -> Result<Dump, DumpStop>
        ensures { result ≡ answer_of (judged_with self []) }
    {
        match self.bad {
            Some(line) => return Err(DumpStop::DumpBad { line }),
            None => {}
        }
        let line = self.count.saturating_add(1);
        if !self.held.is_empty() {
            return Err(DumpStop::DumpBad { line });
        }
        match self.said.into_dump() {
            Some(dump) => Ok(dump),
            None => Err(DumpStop::DumpBad { line }),
        }
    }
}
